// A column with the stamps of its components.

ghost use Rattle.std.specs.List.{AllByRecursion};
ghost use Rattle.std.specs.Prelude.{◌≡◌, ◌+◌, ◌<◌, ◌≤◌, ◌++◌, ◌∷◌, ℕ, pos, [], Some, length, get_or, slice_get, option_map, vec_capacity, IfOk, OnOk};
ghost use Rattle.kinds.specs.Components.{widths, word_at};
ghost use Rattle.kinds.specs.Kind.{kind_number};
ghost use Rattle.kinds.specs.Value.{value_number, value_words};
ghost use Rattle.model.specs.Lists.{update_at};
ghost use Rattle.column_store.specs.Cells.{stamped_number, stamped_cell, stamp_of, changed_cell};
ghost use Rattle.column_store.specs.Fields.{with_field_cells, changed_stamps};
ghost use Rattle.column_store.specs.Swapped.{swap_removed};

use crate::column::Column;
use crate::order::prove_len;
use change_ticks::{Stamp, Tick};
use kinds::{Component, Fields, Kind, Value};
use smallvec::SmallVec;
use std::alloc::{AllocError, Global};
use std::default::MadeWith;
use std::marker::Model;

/// A component of any kind, with its stamp.
#[derive(Clone, Copy, PartialEq, Eq)]
pub struct StampedValue {
    /// The component.
    pub value: Value,
    /// When it was added and last changed.
    pub stamp: Stamp,
}

/// The components of one row. Few of them lie in the value itself.
pub type Components = SmallVec<StampedValue, 4>;

// What fills the unused places of such a list.
impl MadeWith<Global> for StampedValue {
    fn made_with(_alloc: Global) -> Self {
        StampedValue {
            value: Value::of(Kind::Frozen, &[]),
            stamp: Stamp {
                added: 0,
                changed: 0,
            },
        }
    }
}

/// Components of one kind with their stamps. Contracts see the number of the kind, the cells, and for how many there is room.
pub struct StampedColumn {
    column: Column,
    stamps: Vec<Stamp>,
}

// One function drops it wherever it is let go.
impl Drop for StampedColumn {
    fn drop(self) {
        let StampedColumn {
            column: _,
            stamps: _,
        } = self;
    }
}

impl Model for StampedColumn {
    ghost use Rattle.std.specs.Prelude.{◌≡◌, length, min, vec_capacity};
    ghost use Rattle.column_store.specs.Column.{ColumnCells, cells_of};

    ghost Value = { ColumnCells };

    ghost view = { λ c. record {
      kind = c.column.kind;
      cells = cells_of c.column.words c.stamps.items;
      room = min c.column.room (vec_capacity
          c.stamps);
    } };

    ghost invariant = { λ c. length c.column.words ≡ length c.stamps.items };
}

#[tactic(auto, using(crate::proofs::Cells::cell_edits))]
impl StampedColumn {
    /// The column of a kind without components.
    pub fn new(alloc: Global, kind: Kind) -> Self
        ensures { result ≡ record { kind = kind_number kind; cells = []; room = 0 } }
    {
        StampedColumn {
            column: Column::new(alloc, kind),
            stamps: Vec::new(alloc),
        }
    }

    /// The kind of the components.
    pub fn kind(&self) -> Kind
        ensures { kind_number result ≡ self.now.kind }
    {
        self.column.kind()
    }

    /// How many components there are.
    pub fn len(&self) -> usize
        ensures { result ≡ length self.now.cells }
    {
        self.stamps.len()
    }

    /// A column of the same components with the same stamps. It may have room for others.
    pub fn try_copy(&self, alloc: Global) -> Result<Self, AllocError>
        ensures { IfOk result (λ column. column ≡ record self.now { room = column.room }) }
    {
        let column = self.column.try_copy(alloc)?;
        let stamps = self.stamps.iter().copied().collect(alloc)?;
        Ok(StampedColumn { column, stamps })
    }

    /// Each component has as many fields as the kind.
    pub fn prove_widths(&self)
        ensures { AllByRecursion (λ c. length c.words ≡ widths self.now.kind) self.now.cells }
    {
        self.column.prove_width();
    }

    /// The stamp of the component at a place.
    pub fn stamp(&self, place: usize) -> Stamp
        requires { place < length self.now.cells }
        ensures { option_map stamp_of (slice_get self.now.cells place) ≡ Some result }
    {
        self.stamps[place]
    }

    /// The component at a place, with its stamp.
    pub fn at(&self, place: usize) -> StampedValue
        requires { place < length self.now.cells }
        ensures number { stamped_number result ≡ self.now.kind }
        ensures cell { slice_get self.now.cells place ≡ Some (stamped_cell result) }
    {
        StampedValue {
            value: Value::of(self.kind(), self.column.fields(place).as_slice()),
            stamp: self.stamps[place],
        }
    }

    /// The fields of the component at a place.
    pub fn fields(&self, place: usize) -> Fields
        requires { place < length self.now.cells }
        ensures words { option_map (λ c. c.words) (slice_get self.now.cells place) ≡ Some result }
        ensures width { length result ≡ widths self.now.kind }
    {
        self.column.fields(place)
    }

    /// The component at a place, of the type of the column's kind.
    pub fn get<C: Component>(&self, place: usize) -> C
        requires kind { self.now.kind ≡ C.NUMBER }
        requires within { place < length self.now.cells }
        ensures { option_map (λ c. c.words) (slice_get self.now.cells place)
            ≡ Some (C.words result) }
    {
        C::from_words(self.column.fields(place).as_slice())
    }

    /// The word of a field of the component at a place, 0 where the kind has no such field.
    pub fn word(&self, place: usize, field: usize) -> i64
        requires { place < length self.now.cells }
        ensures { option_map (λ c. word_at c.words field) (slice_get self.now.cells place)
            ≡ Some result }
    {
        self.column.word(place, field)
    }

    /// Replaces the component at a place by one of the column's kind, which counts as changed at this tick.
    pub fn write(&mut self, place: usize, value: Value, tick: Tick)
        requires kind { self.old.kind ≡ value_number value }
        requires within { place < length self.old.cells }
        ensures { self.new
            ≡ record self.old {
              cells = update_at place (changed_cell (value_words value) tick)
                  self.old.cells;
            } }
    {
        self.column.set(place, value);
        self.stamps[place].changed = tick;
    }

    /// The words of a field of the components from a place on, as many as there is room for. A word is 0 where the
    /// kind has no such field.
    pub fn read_field(&self, from: usize, field: usize, values: &mut [i64])
        requires { from + length values.old ≤ length self.now.cells }
        ensures length { length values.new ≡ length values.old }
        ensures values { (i : ℕ) → i < length values.old
            → option_map (λ c. word_at c.words field) (slice_get self.now.cells (from + i))
            ≡ Some (get_or values.new i (pos 0)) }
    {
        self.column.read_field(from, field, values);
    }

    /// Replaces a field of the components from a place on by these values, a value a component. They count as changed at this tick, also where a
    /// value stays.
    pub fn write_field(&mut self, from: usize, field: usize, values: &[i64], tick: Tick)
        requires field { field < widths self.old.kind }
        requires within { from + length values.now ≤ length self.old.cells }
        ensures { self.new
            ≡ record self.old {
              cells = with_field_cells (widths self.old.kind) tick field from
                  values.now self.old.cells;
            } }
    {
        self.column.write_field(from, field, values);
        mark_changed(&mut self.stamps, from, values.len(), tick);
    }

    /// Replaces the component at a place by one of the column's kind, with the stamp of that.
    pub fn replace(&mut self, place: usize, component: StampedValue)
        requires kind { self.old.kind ≡ stamped_number component }
        requires within { place < length self.old.cells }
        ensures { self.new
            ≡ record self.old {
              cells = update_at place (λ _. stamped_cell component)
                  self.old.cells;
            } }
    {
        self.column.set(place, component.value);
        self.stamps[place] = component.stamp;
    }

    /// Adds a component of the column's kind at the end, where there is room.
    pub fn push(&mut self, component: StampedValue)
        requires kind { self.old.kind ≡ stamped_number component }
        requires room { length self.old.cells < self.old.room }
        ensures { self.new
            ≡ record self.old { cells = self.old.cells ++ stamped_cell component ∷ [] } }
    {
        self.column.push(component.value);
        self.stamps.push_reserved(component.stamp);
    }

    /// Removes the component at a place, and moves the last one there.
    pub fn swap_remove(&mut self, place: usize)
        requires { place < length self.old.cells }
        ensures { self.new ≡ record self.old { cells = swap_removed self.old.cells place } }
    {
        self.column.swap_remove(place);
        self.stamps.swap_remove(place);
    }

    /// Makes room for `further` more components. Where an allocation fails there may be room for fewer.
    pub fn reserve(&mut self, further: usize) -> Result<(), AllocError>
        ensures same { self.new ≡ record self.old { room = self.new.room } }
        ensures room { self.old.room ≤ self.new.room }
        ensures ok { OnOk result (length self.old.cells + further ≤ self.new.room) }
    {
        self.column.reserve(further)?;
        self.stamps.reserve(further)
    }
}

// So many stamps from one on say that their components were changed at this tick.
fn mark_changed(stamps: &mut Vec<Stamp>, from: usize, count: usize, tick: Tick)
    requires { from + count ≤ length stamps.old.items }
    ensures stamps { stamps.new.items ≡ changed_stamps tick from count stamps.old.items }
    ensures room { vec_capacity stamps.new ≡ vec_capacity stamps.old }
{
    prove_len(stamps);
    for i in 0..count {
        stamps[from + i].changed = tick;
    }
}
