// The components of one field that say what an entity is, and not how much of something it has.

ghost use Rattle.std.specs.Prelude.{refl};
ghost use Rattle.kinds.specs.Components.{mass_words, mass_of, armor_words, armor_of, range_words, range_of, level_words, level_of, rank_words, rank_of, one_word};

use crate::component::Component;
use crate::fields::Fields;
use crate::kind::Kind;
use crate::types::{Armor, Level, Mass, Range, Rank};

impl Component for Mass {
    ghost NUMBER = { 13 };

    ghost WIDTH = { 1 };

    ghost words = { mass_words };

    ghost of_words = { mass_of };

    ghost round_trip = { λ c. refl };

    ghost round_trip_words = { λ w h. one_word w h };

    ghost same_width = { λ c. refl };

    ghost width_of_number = { refl };

    const NUMBER: u32 = 13;

    fn kind() -> Kind {
        Kind::Mass
    }

    fn to_words(&self) -> Fields {
        Fields::one(self.v)
    }

    fn from_words(list: &[i64]) -> Self {
        Mass { v: list[0] }
    }
}

impl Component for Armor {
    ghost NUMBER = { 14 };

    ghost WIDTH = { 1 };

    ghost words = { armor_words };

    ghost of_words = { armor_of };

    ghost round_trip = { λ c. refl };

    ghost round_trip_words = { λ w h. one_word w h };

    ghost same_width = { λ c. refl };

    ghost width_of_number = { refl };

    const NUMBER: u32 = 14;

    fn kind() -> Kind {
        Kind::Armor
    }

    fn to_words(&self) -> Fields {
        Fields::one(self.v)
    }

    fn from_words(list: &[i64]) -> Self {
        Armor { v: list[0] }
    }
}

impl Component for Range {
    ghost NUMBER = { 15 };

    ghost WIDTH = { 1 };

    ghost words = { range_words };

    ghost of_words = { range_of };

    ghost round_trip = { λ c. refl };

    ghost round_trip_words = { λ w h. one_word w h };

    ghost same_width = { λ c. refl };

    ghost width_of_number = { refl };

    const NUMBER: u32 = 15;

    fn kind() -> Kind {
        Kind::Range
    }

    fn to_words(&self) -> Fields {
        Fields::one(self.v)
    }

    fn from_words(list: &[i64]) -> Self {
        Range { v: list[0] }
    }
}

impl Component for Level {
    ghost NUMBER = { 16 };

    ghost WIDTH = { 1 };

    ghost words = { level_words };

    ghost of_words = { level_of };

    ghost round_trip = { λ c. refl };

    ghost round_trip_words = { λ w h. one_word w h };

    ghost same_width = { λ c. refl };

    ghost width_of_number = { refl };

    const NUMBER: u32 = 16;

    fn kind() -> Kind {
        Kind::Level
    }

    fn to_words(&self) -> Fields {
        Fields::one(self.v)
    }

    fn from_words(list: &[i64]) -> Self {
        Level { v: list[0] }
    }
}

impl Component for Rank {
    ghost NUMBER = { 17 };

    ghost WIDTH = { 1 };

    ghost words = { rank_words };

    ghost of_words = { rank_of };

    ghost round_trip = { λ c. refl };

    ghost round_trip_words = { λ w h. one_word w h };

    ghost same_width = { λ c. refl };

    ghost width_of_number = { refl };

    const NUMBER: u32 = 17;

    fn kind() -> Kind {
        Kind::Rank
    }

    fn to_words(&self) -> Fields {
        Fields::one(self.v)
    }

    fn from_words(list: &[i64]) -> Self {
        Rank { v: list[0] }
    }
}
