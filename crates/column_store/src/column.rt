// A column without stamps: the components of one kind, packed by their shape.

ghost use Rattle.std.specs.List.{AllByRecursion};
ghost use Rattle.std.specs.Prelude.{◌≡◌, ◌+◌, ◌<◌, ◌≤◌, ◌++◌, ◌∷◌, ℕ, pos, [], option_map, Some, length, get_or, slice_get, slice_set, IfOk, OnOk};
ghost use Rattle.kinds.specs.Components.{widths, word_at};
ghost use Rattle.kinds.specs.Kind.{kind_number};
ghost use Rattle.kinds.specs.Value.{value_number, value_words};
ghost use Rattle.column_store.specs.Fields.{with_field_words};
ghost use Rattle.column_store.specs.Swapped.{swap_removed};

use crate::packed::{Amount, Mark, Packed, Pair};
use crate::packs::{push_in, read_in, set_in, swap_remove_in, write_in};
use kinds::{Fields, Kind, Shape, Value};
use std::alloc::{AllocError, Global};
use std::marker::Model;

// The components of a column, by the shape of its kind.
#[derive(Drop)]
enum Packs {
    Marks(Vec<Mark>),
    Amounts(Vec<Amount>),
    Pairs(Vec<Pair>),
}

// Components of one kind. Contracts see the number of the kind, the words of each component, and for how many there is room.
#[derive(Drop)]
pub(crate) struct Column {
    kind: Kind,
    packs: Packs,
}

impl Model for Column {
    ghost use Rattle.std.specs.Prelude.{◌≡◌};
    ghost use Rattle.kinds.specs.Kind.{kind_number};
    ghost use Rattle.kinds.specs.Components.{widths, word_at};
    ghost use Rattle.column_store.specs.Words.{ColumnWords};

    ghost Value = { ColumnWords };

    ghost use Rattle.column_store.specs.Held.{words_in, width_in, room_in};

    ghost view = { λ c. record {
      kind = kind_number c.kind;
      words = words_in c.packs;
      room = room_in c.packs;
    } };

    ghost invariant = { λ c. width_in c.packs ≡ widths (kind_number c.kind) };
}

impl Column {
    // The column of a kind without components.
    pub(crate) fn new(alloc: Global, kind: Kind) -> Self
        ensures { result ≡ record { kind = kind_number kind; words = []; room = 0 } }
    {
        match kind.shape() {
            Shape::Mark => Column {
                kind,
                packs: Packs::Marks(Vec::new(alloc)),
            },
            Shape::Amount => Column {
                kind,
                packs: Packs::Amounts(Vec::new(alloc)),
            },
            Shape::Pair => Column {
                kind,
                packs: Packs::Pairs(Vec::new(alloc)),
            },
        }
    }

    // The kind of the components.
    pub(crate) fn kind(&self) -> Kind
        ensures { kind_number result ≡ self.now.kind }
    {
        self.kind
    }

    // A column of the same components. It may have room for others.
    pub(crate) fn try_copy(&self, alloc: Global) -> Result<Self, AllocError>
        ensures { IfOk result (λ copy. copy ≡ record self.now { room = copy.room }) }
    {
        let kind = self.kind;
        let packs = match &self.packs {
            Packs::Marks(items) => Packs::Marks(Vec::from_slice(alloc, items)?),
            Packs::Amounts(items) => Packs::Amounts(Vec::from_slice(alloc, items)?),
            Packs::Pairs(items) => Packs::Pairs(Vec::from_slice(alloc, items)?),
        };
        Ok(Column { kind, packs })
    }

    // Each component has as many fields as the kind.
    pub(crate) fn prove_width(&self)
        ensures { AllByRecursion (λ ws. length ws ≡ widths self.now.kind) self.now.words }
    {
        let _ = &self.packs;
    }

    // The fields of the component at a place.
    pub(crate) fn fields(&self, place: usize) -> Fields
        requires { place < length self.now.words }
        ensures words { slice_get self.now.words place ≡ Some result }
        ensures width { length result ≡ widths self.now.kind }
    {
        match &self.packs {
            Packs::Marks(items) => items[place].fields(),
            Packs::Amounts(items) => items[place].fields(),
            Packs::Pairs(items) => items[place].fields(),
        }
    }

    // The word of a field of the component at a place, 0 where the kind has no such field.
    pub(crate) fn word(&self, place: usize, field: usize) -> i64
        requires { place < length self.now.words }
        ensures { option_map (λ ws. word_at ws field) (slice_get self.now.words place)
            ≡ Some result }
    {
        match &self.packs {
            Packs::Marks(items) => items[place].word(field),
            Packs::Amounts(items) => items[place].word(field),
            Packs::Pairs(items) => items[place].word(field),
        }
    }

    // Replaces the component at a place by one of the kind.
    pub(crate) fn set(&mut self, place: usize, value: Value)
        requires kind { self.old.kind ≡ value_number value }
        requires within { place < length self.old.words }
        ensures { self.new
            ≡ record self.old { words = slice_set self.old.words place (value_words value) } }
    {
        match &mut self.packs {
            Packs::Marks(items) => set_in(items, place, value),
            Packs::Amounts(items) => set_in(items, place, value),
            Packs::Pairs(items) => set_in(items, place, value),
        }
    }

    // The words of a field of the components from a place on, as many as there is room for: 0 where the kind has no such field.
    pub(crate) fn read_field(&self, from: usize, field: usize, values: &mut [i64])
        requires { from + length values.old ≤ length self.now.words }
        ensures length { length values.new ≡ length values.old }
        ensures values { (i : ℕ) → i < length values.old
            → option_map (λ ws. word_at ws field) (slice_get self.now.words (from + i))
            ≡ Some (get_or values.new i (pos 0)) }
    {
        match &self.packs {
            Packs::Marks(items) => read_in(items, from, field, values),
            Packs::Amounts(items) => read_in(items, from, field, values),
            Packs::Pairs(items) => read_in(items, from, field, values),
        }
    }

    // Replaces a field of the components from a place on by these values, a value a component.
    pub(crate) fn write_field(&mut self, from: usize, field: usize, values: &[i64])
        requires field { field < widths self.old.kind }
        requires within { from + length values.now ≤ length self.old.words }
        ensures { self.new
            ≡ record self.old {
              words = with_field_words (widths self.old.kind) field from values.now
                  self.old.words;
            } }
    {
        match &mut self.packs {
            Packs::Marks(items) => write_in(items, from, field, values),
            Packs::Amounts(items) => write_in(items, from, field, values),
            Packs::Pairs(items) => write_in(items, from, field, values),
        }
    }

    // Adds a component of the kind at the end, where there is room.
    pub(crate) fn push(&mut self, value: Value)
        requires kind { self.old.kind ≡ value_number value }
        requires room { length self.old.words < self.old.room }
        ensures { self.new ≡ record self.old { words = self.old.words ++ value_words value ∷ [] } }
    {
        match &mut self.packs {
            Packs::Marks(items) => push_in(items, value),
            Packs::Amounts(items) => push_in(items, value),
            Packs::Pairs(items) => push_in(items, value),
        }
    }

    // Removes the component at a place, and moves the last one there.
    pub(crate) fn swap_remove(&mut self, place: usize)
        requires { place < length self.old.words }
        ensures { self.new ≡ record self.old { words = swap_removed self.old.words place } }
    {
        match &mut self.packs {
            Packs::Marks(items) => swap_remove_in(items, place),
            Packs::Amounts(items) => swap_remove_in(items, place),
            Packs::Pairs(items) => swap_remove_in(items, place),
        }
    }

    // Makes room for so many further components.
    pub(crate) fn reserve(&mut self, further: usize) -> Result<(), AllocError>
        ensures same { self.new ≡ record self.old { room = self.new.room } }
        ensures room { self.old.room ≤ self.new.room }
        ensures ok { OnOk result (length self.old.words + further ≤ self.new.room) }
    {
        match &mut self.packs {
            Packs::Marks(items) => items.reserve(further),
            Packs::Amounts(items) => items.reserve(further),
            Packs::Pairs(items) => items.reserve(further),
        }
    }
}
