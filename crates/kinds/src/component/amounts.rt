// The components of one field.

ghost use Rattle.std.specs.Prelude.{refl};
ghost use Rattle.kinds.specs.Components.{health_words, health_of, damage_words, damage_of, team_words, team_of, timer_words, timer_of, score_words, score_of, energy_words, energy_of, charge_words, charge_of, target_words, target_of, one_word};

use crate::component::Component;
use crate::fields::Fields;
use crate::kind::Kind;
use crate::types::{Charge, Damage, Energy, Health, Score, Target, Team, Timer};

impl Component for Health {
    ghost NUMBER = { 2 };

    ghost WIDTH = { 1 };

    ghost words = { health_words };

    ghost of_words = { health_of };

    ghost round_trip = { λ c. refl };

    ghost round_trip_words = { λ w h. one_word w h };

    ghost same_width = { λ c. refl };

    ghost width_of_number = { refl };

    const NUMBER: u32 = 2;

    fn kind() -> Kind {
        Kind::Health
    }

    fn to_words(&self) -> Fields {
        Fields::one(self.v)
    }

    fn from_words(list: &[i64]) -> Self {
        Health { v: list[0] }
    }
}

impl Component for Damage {
    ghost NUMBER = { 3 };

    ghost WIDTH = { 1 };

    ghost words = { damage_words };

    ghost of_words = { damage_of };

    ghost round_trip = { λ c. refl };

    ghost round_trip_words = { λ w h. one_word w h };

    ghost same_width = { λ c. refl };

    ghost width_of_number = { refl };

    const NUMBER: u32 = 3;

    fn kind() -> Kind {
        Kind::Damage
    }

    fn to_words(&self) -> Fields {
        Fields::one(self.v)
    }

    fn from_words(list: &[i64]) -> Self {
        Damage { v: list[0] }
    }
}

impl Component for Team {
    ghost NUMBER = { 4 };

    ghost WIDTH = { 1 };

    ghost words = { team_words };

    ghost of_words = { team_of };

    ghost round_trip = { λ c. refl };

    ghost round_trip_words = { λ w h. one_word w h };

    ghost same_width = { λ c. refl };

    ghost width_of_number = { refl };

    const NUMBER: u32 = 4;

    fn kind() -> Kind {
        Kind::Team
    }

    fn to_words(&self) -> Fields {
        Fields::one(self.v)
    }

    fn from_words(list: &[i64]) -> Self {
        Team { v: list[0] }
    }
}

impl Component for Timer {
    ghost NUMBER = { 5 };

    ghost WIDTH = { 1 };

    ghost words = { timer_words };

    ghost of_words = { timer_of };

    ghost round_trip = { λ c. refl };

    ghost round_trip_words = { λ w h. one_word w h };

    ghost same_width = { λ c. refl };

    ghost width_of_number = { refl };

    const NUMBER: u32 = 5;

    fn kind() -> Kind {
        Kind::Timer
    }

    fn to_words(&self) -> Fields {
        Fields::one(self.v)
    }

    fn from_words(list: &[i64]) -> Self {
        Timer { v: list[0] }
    }
}

impl Component for Score {
    ghost NUMBER = { 6 };

    ghost WIDTH = { 1 };

    ghost words = { score_words };

    ghost of_words = { score_of };

    ghost round_trip = { λ c. refl };

    ghost round_trip_words = { λ w h. one_word w h };

    ghost same_width = { λ c. refl };

    ghost width_of_number = { refl };

    const NUMBER: u32 = 6;

    fn kind() -> Kind {
        Kind::Score
    }

    fn to_words(&self) -> Fields {
        Fields::one(self.v)
    }

    fn from_words(list: &[i64]) -> Self {
        Score { v: list[0] }
    }
}

impl Component for Energy {
    ghost NUMBER = { 7 };

    ghost WIDTH = { 1 };

    ghost words = { energy_words };

    ghost of_words = { energy_of };

    ghost round_trip = { λ c. refl };

    ghost round_trip_words = { λ w h. one_word w h };

    ghost same_width = { λ c. refl };

    ghost width_of_number = { refl };

    const NUMBER: u32 = 7;

    fn kind() -> Kind {
        Kind::Energy
    }

    fn to_words(&self) -> Fields {
        Fields::one(self.v)
    }

    fn from_words(list: &[i64]) -> Self {
        Energy { v: list[0] }
    }
}

impl Component for Charge {
    ghost NUMBER = { 8 };

    ghost WIDTH = { 1 };

    ghost words = { charge_words };

    ghost of_words = { charge_of };

    ghost round_trip = { λ c. refl };

    ghost round_trip_words = { λ w h. one_word w h };

    ghost same_width = { λ c. refl };

    ghost width_of_number = { refl };

    const NUMBER: u32 = 8;

    fn kind() -> Kind {
        Kind::Charge
    }

    fn to_words(&self) -> Fields {
        Fields::one(self.v)
    }

    fn from_words(list: &[i64]) -> Self {
        Charge { v: list[0] }
    }
}

impl Component for Target {
    ghost NUMBER = { 9 };

    ghost WIDTH = { 1 };

    ghost words = { target_words };

    ghost of_words = { target_of };

    ghost round_trip = { λ c. refl };

    ghost round_trip_words = { λ w h. one_word w h };

    ghost same_width = { λ c. refl };

    ghost width_of_number = { refl };

    const NUMBER: u32 = 9;

    fn kind() -> Kind {
        Kind::Target
    }

    fn to_words(&self) -> Fields {
        Fields::one(self.v)
    }

    fn from_words(list: &[i64]) -> Self {
        Target { v: list[0] }
    }
}
