// A component of any kind.

ghost use Rattle.std.specs.Prelude.{◌≡◌, length};
ghost use Rattle.kinds.specs.Kind.{kind_number};
ghost use Rattle.kinds.specs.Components.{widths};
ghost use Rattle.kinds.specs.Value.{value_number, value_words};

use crate::fields::Fields;
use crate::kind::Kind;
use crate::shape::Shape;

/// A component of any kind. Contracts see the number of its kind and its words.
#[derive(Clone, Copy, PartialEq, Eq, Debug)]
pub struct Value {
    kind: Kind,
    first: i64,
    second: i64,
}

impl Value {
    /// The component of a kind with these fields.
    pub fn of(kind: Kind, list: &[i64]) -> Self
        requires { length list.now ≡ widths (kind_number kind) }
        ensures number { value_number result ≡ kind_number kind }
        ensures words { value_words result ≡ list.now }
    {
        match kind.shape() {
            Shape::Mark => Value {
                kind,
                first: 0,
                second: 0,
            },
            Shape::Amount => Value {
                kind,
                first: list[0],
                second: 0,
            },
            Shape::Pair => Value {
                kind,
                first: list[0],
                second: list[1],
            },
        }
    }

    /// The number of the kind of the component.
    pub fn number(self) -> u32
        ensures { result ≡ value_number self }
    {
        self.kind.number()
    }

    /// The kind of the component.
    pub fn kind(self) -> Kind
        ensures { kind_number result ≡ value_number self }
    {
        self.kind
    }

    /// The fields of the component, in order: as many as its kind has.
    pub fn words(&self) -> Fields
        ensures words { result ≡ value_words self.now }
        ensures width { length result ≡ widths (value_number self.now) }
    {
        match self.kind.shape() {
            Shape::Mark => Fields::none(),
            Shape::Amount => Fields::one(self.first),
            Shape::Pair => Fields::two(self.first, self.second),
        }
    }
}
