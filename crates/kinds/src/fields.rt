// The fields of a component as words.

ghost use Rattle.std.specs.Prelude.{◌≡◌, [], ◌∷◌};

use std::marker::Model;

/// At most two words of 64 bits. Contracts see the list of them.
#[derive(Drop)]
pub struct Fields {
    items: [i64; 2],
    len: usize,
}

impl Model for Fields {
    ghost use Rattle.std.specs.Prelude.{List, ℤ, ◌≤◌, take};

    ghost Value = { List ℤ };

    ghost view = { λ w. take w.len w.items };

    ghost invariant = { λ w. w.len ≤ 2 };
}

impl Fields {
    /// No word.
    pub fn none() -> Self
        ensures { result ≡ [] }
    {
        Fields {
            items: [0, 0],
            len: 0,
        }
    }

    /// One word.
    pub fn one(value: i64) -> Self
        ensures { result ≡ value ∷ [] }
    {
        Fields {
            items: [value, 0],
            len: 1,
        }
    }

    /// Two words, in order.
    pub fn two(first: i64, second: i64) -> Self
        ensures { result ≡ first ∷ second ∷ [] }
    {
        Fields {
            items: [first, second],
            len: 2,
        }
    }

    /// The words, in order.
    pub fn as_slice(&self) -> &[i64]
        ensures { result.now ≡ self.now }
    {
        &self.items[..self.len]
    }
}
