// What a column holds for a row: the fields of a component, with no word more than its kind has.

ghost use Rattle.std.specs.Prelude.{◌≡◌, ℕ, ℤ, List, length, refl};
ghost use Rattle.kinds.specs.Components.{widths, word_at, one_word, two_words, no_words};
ghost use Rattle.kinds.specs.Value.{value_number, value_words};
ghost use Rattle.column_store.specs.Fields.{words_with};
ghost use Rattle.column_store.specs.Packed.{mark_words, amount_words, pair_words};

use kinds::{Fields, Value};

// The fields of a component by themselves.
pub(crate) trait Packed: Copy {
    ghost WIDTH: { ℕ };

    ghost words: { Self → List ℤ };

    // Those of a component of so many fields.
    fn of(value: Value) -> Self
        requires { widths (value_number value) ≡ WIDTH }
        ensures { words result ≡ value_words value };

    // As words, in order.
    fn fields(self) -> Fields
        ensures { result ≡ words self };

    // The word of a field, 0 where there is no such field.
    fn word(self, field: usize) -> i64
        ensures { result ≡ word_at (words self) field };

    // The same with the word of a field replaced, if there is such a field.
    fn with_word(self, field: usize, value: i64) -> Self
        ensures { words result ≡ words_with WIDTH field value (words self) };

    ghost same_width: { (p : Self) → length (words p) ≡ WIDTH };
}

// No field.
#[derive(Clone, Copy)]
pub(crate) struct Mark;

// One field.
#[derive(Clone, Copy)]
pub(crate) struct Amount {
    v: i64,
}

// Two fields.
#[derive(Clone, Copy)]
pub(crate) struct Pair {
    x: i64,
    y: i64,
}

impl Packed for Mark {
    ghost WIDTH = { 0 };

    ghost words = { mark_words };

    ghost same_width = { λ p. refl };

    #[tactic(auto, using(kinds::specs::Components::no_words))]
    fn of(value: Value) -> Self {
        let _words = value.words();
        Mark
    }

    fn fields(self) -> Fields {
        Fields::none()
    }

    fn word(self, _field: usize) -> i64 {
        0
    }

    fn with_word(self, _field: usize, _value: i64) -> Self {
        self
    }
}

impl Packed for Amount {
    ghost WIDTH = { 1 };

    ghost words = { amount_words };

    ghost same_width = { λ p. refl };

    #[tactic(auto, using(kinds::specs::Components::one_word))]
    fn of(value: Value) -> Self {
        let words = value.words();
        let list = words.as_slice();
        Amount { v: list[0] }
    }

    fn fields(self) -> Fields {
        Fields::one(self.v)
    }

    fn word(self, field: usize) -> i64 {
        match field {
            0 => self.v,
            _ => 0,
        }
    }

    #[tactic(auto, using(crate::proofs::Fields::amount_kept))]
    fn with_word(self, field: usize, value: i64) -> Self {
        match field {
            0 => Amount { v: value },
            _ => self,
        }
    }
}

impl Packed for Pair {
    ghost WIDTH = { 2 };

    ghost words = { pair_words };

    ghost same_width = { λ p. refl };

    #[tactic(auto, using(kinds::specs::Components::two_words))]
    fn of(value: Value) -> Self {
        let words = value.words();
        let list = words.as_slice();
        Pair {
            x: list[0],
            y: list[1],
        }
    }

    fn fields(self) -> Fields {
        Fields::two(self.x, self.y)
    }

    fn word(self, field: usize) -> i64 {
        match field {
            0 => self.x,
            1 => self.y,
            _ => 0,
        }
    }

    #[tactic(auto, using(crate::proofs::Fields::pair_kept))]
    fn with_word(self, field: usize, value: i64) -> Self {
        match field {
            0 => Pair {
                x: value,
                y: self.y,
            },
            1 => Pair {
                x: self.x,
                y: value,
            },
            _ => self,
        }
    }
}
