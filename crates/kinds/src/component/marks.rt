// The components without fields.

ghost use Rattle.std.specs.Prelude.{refl};
ghost use Rattle.kinds.specs.Components.{frozen_words, frozen_of, hidden_words, hidden_of, sleeping_words, sleeping_of, marked_words, marked_of, no_words};

use crate::component::Component;
use crate::fields::Fields;
use crate::kind::Kind;
use crate::types::{Frozen, Hidden, Marked, Sleeping};

impl Component for Frozen {
    ghost NUMBER = { 10 };

    ghost WIDTH = { 0 };

    ghost words = { frozen_words };

    ghost of_words = { frozen_of };

    ghost round_trip = { λ c. refl };

    ghost round_trip_words = { λ w h. no_words w h };

    ghost same_width = { λ c. refl };

    ghost width_of_number = { refl };

    const NUMBER: u32 = 10;

    fn kind() -> Kind {
        Kind::Frozen
    }

    fn to_words(&self) -> Fields {
        Fields::none()
    }

    fn from_words(_list: &[i64]) -> Self {
        Frozen
    }
}

impl Component for Hidden {
    ghost NUMBER = { 11 };

    ghost WIDTH = { 0 };

    ghost words = { hidden_words };

    ghost of_words = { hidden_of };

    ghost round_trip = { λ c. refl };

    ghost round_trip_words = { λ w h. no_words w h };

    ghost same_width = { λ c. refl };

    ghost width_of_number = { refl };

    const NUMBER: u32 = 11;

    fn kind() -> Kind {
        Kind::Hidden
    }

    fn to_words(&self) -> Fields {
        Fields::none()
    }

    fn from_words(_list: &[i64]) -> Self {
        Hidden
    }
}

impl Component for Sleeping {
    ghost NUMBER = { 18 };

    ghost WIDTH = { 0 };

    ghost words = { sleeping_words };

    ghost of_words = { sleeping_of };

    ghost round_trip = { λ c. refl };

    ghost round_trip_words = { λ w h. no_words w h };

    ghost same_width = { λ c. refl };

    ghost width_of_number = { refl };

    const NUMBER: u32 = 18;

    fn kind() -> Kind {
        Kind::Sleeping
    }

    fn to_words(&self) -> Fields {
        Fields::none()
    }

    fn from_words(_list: &[i64]) -> Self {
        Sleeping
    }
}

impl Component for Marked {
    ghost NUMBER = { 19 };

    ghost WIDTH = { 0 };

    ghost words = { marked_words };

    ghost of_words = { marked_of };

    ghost round_trip = { λ c. refl };

    ghost round_trip_words = { λ w h. no_words w h };

    ghost same_width = { λ c. refl };

    ghost width_of_number = { refl };

    const NUMBER: u32 = 19;

    fn kind() -> Kind {
        Kind::Marked
    }

    fn to_words(&self) -> Fields {
        Fields::none()
    }

    fn from_words(_list: &[i64]) -> Self {
        Marked
    }
}
