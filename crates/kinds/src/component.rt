// What each type of components has.

ghost use Rattle.std.specs.Prelude.{◌≡◌, ℕ, ℤ, List, length, ◌↔◌, IsSome, IfSome};
ghost use Rattle.kinds.specs.Kind.{kind_number};
ghost use Rattle.kinds.specs.Components.{widths};
ghost use Rattle.kinds.specs.Value.{value_number, value_words};

mod amounts;
mod marks;
mod measures;
mod pairs;

use crate::fields::Fields;
use crate::kind::Kind;
pub use crate::types::{
    Armor, Charge, Damage, Energy, Frozen, Health, Hidden, Home, Level, Marked, Mass, Position,
    Range, Rank, Score, Sleeping, Target, Team, Timer, Velocity,
};
use crate::value::Value;

/// A type of components: one for each kind. Above this crate a component is known by the number of its kind and by its words,
/// which are its fields in order.
pub trait Component: Copy {
    ghost NUMBER: { ℕ };

    // How many fields the kind has.
    ghost WIDTH: { ℕ };

    ghost words: { Self → List ℤ };

    ghost of_words: { List ℤ → Self };

    /// The number of the kind.
    const NUMBER: u32;

    /// The kind.
    fn kind() -> Kind
        ensures { kind_number result ≡ NUMBER };

    /// The fields, in order.
    fn to_words(&self) -> Fields
        ensures { result ≡ words self.now };

    /// The component with these fields.
    fn from_words(list: &[i64]) -> Self
        requires { length list.now ≡ WIDTH }
        ensures { result ≡ of_words list.now };

    /// The component among those of any kind.
    final fn into_value(self) -> Value
        ensures number { value_number result ≡ NUMBER }
        ensures words { value_words result ≡ words self }
    {
        Value::of(Self::kind(), self.to_words().as_slice())
    }

    /// The component, if it is of this kind.
    final fn from_value(value: Value) -> Option<Self>
        ensures variant { IsSome result ↔ (value_number value ≡ NUMBER) }
        ensures some { IfSome result (λ c. value_words value ≡ words c) }
    {
        if value.number() == Self::NUMBER {
            Some(Self::from_words(value.words().as_slice()))
        } else {
            None
        }
    }

    // The words determine the component, and the component its words.
    ghost round_trip: { (c : Self) → of_words (words c) ≡ c };

    ghost round_trip_words: { (w : List ℤ) → length w ≡ WIDTH → words (of_words w) ≡ w };

    // A component has its kind's width, by which `widths` knows the kind's number.
    ghost same_width: { (c : Self) → length (words c) ≡ WIDTH };

    ghost width_of_number: { widths NUMBER ≡ WIDTH };
}
