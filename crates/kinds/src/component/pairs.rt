// The components of two fields.

ghost use Rattle.std.specs.Prelude.{refl};
ghost use Rattle.kinds.specs.Components.{position_words, position_of, velocity_words, velocity_of, home_words, home_of, two_words};

use crate::component::Component;
use crate::fields::Fields;
use crate::kind::Kind;
use crate::types::{Home, Position, Velocity};

impl Component for Position {
    ghost NUMBER = { 0 };

    ghost WIDTH = { 2 };

    ghost words = { position_words };

    ghost of_words = { position_of };

    ghost round_trip = { λ c. refl };

    ghost round_trip_words = { λ w h. two_words w h };

    ghost same_width = { λ c. refl };

    ghost width_of_number = { refl };

    const NUMBER: u32 = 0;

    fn kind() -> Kind {
        Kind::Position
    }

    fn to_words(&self) -> Fields {
        let Position { x, y } = *self;
        Fields::two(x, y)
    }

    fn from_words(list: &[i64]) -> Self {
        Position {
            x: list[0],
            y: list[1],
        }
    }
}

impl Component for Velocity {
    ghost NUMBER = { 1 };

    ghost WIDTH = { 2 };

    ghost words = { velocity_words };

    ghost of_words = { velocity_of };

    ghost round_trip = { λ c. refl };

    ghost round_trip_words = { λ w h. two_words w h };

    ghost same_width = { λ c. refl };

    ghost width_of_number = { refl };

    const NUMBER: u32 = 1;

    fn kind() -> Kind {
        Kind::Velocity
    }

    fn to_words(&self) -> Fields {
        let Velocity { x, y } = *self;
        Fields::two(x, y)
    }

    fn from_words(list: &[i64]) -> Self {
        Velocity {
            x: list[0],
            y: list[1],
        }
    }
}

impl Component for Home {
    ghost NUMBER = { 12 };

    ghost WIDTH = { 2 };

    ghost words = { home_words };

    ghost of_words = { home_of };

    ghost round_trip = { λ c. refl };

    ghost round_trip_words = { λ w h. two_words w h };

    ghost same_width = { λ c. refl };

    ghost width_of_number = { refl };

    const NUMBER: u32 = 12;

    fn kind() -> Kind {
        Kind::Home
    }

    fn to_words(&self) -> Fields {
        let Home { x, y } = *self;
        Fields::two(x, y)
    }

    fn from_words(list: &[i64]) -> Self {
        Home {
            x: list[0],
            y: list[1],
        }
    }
}
