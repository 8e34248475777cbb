// The columns that a query of a view holds: its own where it writes, shared ones where it reads.

ghost use Rattle.std.specs.Prelude.{◌≡◌, ◌+◌, ◌<◌, ◌≤◌, ℕ, pos, true, Some, length, get_or, slice_get, option_map};
ghost use Rattle.column_store.specs.Cells.{changed_cell};
ghost use Rattle.kinds.specs.Kind.{kind_number};
ghost use Rattle.kinds.specs.Components.{widths};
ghost use Rattle.kinds.specs.Value.{value_number, value_words};
ghost use Rattle.model.specs.shown.Input.{words_of};
ghost use Rattle.body.specs.Columns.{with_cell};
ghost use Rattle.body.specs.Fields.{field_of, field_cell, column_with_fields};
ghost use Rattle.body.specs.HeldColumns.{column_in, held_seen};

use archetype_store::World;
use change_ticks::Tick;
use column_store::StampedColumn;
use kinds::{Fields, Kind, Value};
use std::alloc::Global;
use std::snapshot::Snapshot;
use std::sync::Arc;

/// The components of a column: owned where they are written, shared where they are read.
#[derive(Drop)]
pub enum ColumnAccess {
    Written(StampedColumn),
    Read(Arc<StampedColumn, Global>),
}

/// A column of the rows of a query.
#[derive(Drop)]
pub struct ViewColumn {
    /// The number of its archetype in the world.
    pub archetype: usize,
    /// Its components.
    pub cells: ColumnAccess,
    /// The world that it is of, by which contracts see whose components they are. It has no bytes.
    pub world: Snapshot<World>,
}

impl ViewColumn {
    // The column.
    fn column(&self) -> &StampedColumn
        ensures { result.now ≡ column_in self.now.cells }
    {
        match &self.cells {
            ColumnAccess::Written(column) => column,
            ColumnAccess::Read(column) => &**column,
        }
    }

    /// The kind of the components.
    pub fn kind(&self) -> Kind
        ensures { kind_number result ≡ (held_seen self.now).kind }
    {
        self.column().kind()
    }

    // The fields of the component at a place.
    pub(crate) fn words(&self, place: usize) -> Fields
        requires { place < length (held_seen self.now).cells }
        ensures words { option_map (λ c. c.words) (slice_get (held_seen self.now).cells place)
            ≡ Some result }
        ensures width { length result ≡ widths (held_seen self.now).kind }
    {
        self.column().fields(place)
    }

    // The word of a field of the component at a place, 0 where the kind has no such field.
    pub(crate) fn word(&self, at: usize, place: usize) -> i64
        requires { at < length (held_seen self.now).cells }
        ensures { result ≡ field_of place (words_of (slice_get (held_seen self.now).cells at)) }
    {
        self.column().word(at, place)
    }

    // Replaces the component at a place, which counts as changed at this tick, also where the value stays.
    pub(crate) fn set(&mut self, place: usize, value: Value, tick: Tick)
        requires written { (held_seen self.old).is_written ≡ true }
        requires kind { (held_seen self.old).kind ≡ value_number value }
        requires within { place < length (held_seen self.old).cells }
        ensures { held_seen self.new
            ≡ with_cell place (changed_cell (value_words value) tick) (held_seen self.old) }
    {
        match &mut self.cells {
            ColumnAccess::Written(column) => column.write(place, value, tick),
            ColumnAccess::Read(_) => unreachable!(),
        }
    }

    // The values of a field of the components from a place on, as many as there is room for.
    pub(crate) fn read_field(&self, from: usize, place: usize, values: &mut [i64])
        requires { from + length values.old ≤ length (held_seen self.now).cells }
        ensures length { length values.new ≡ length values.old }
        ensures values { (i : ℕ) → i < length values.old
            → get_or values.new i (pos 0)
            ≡ field_of place (words_of (slice_get (held_seen self.now).cells (from + i))) }
    {
        self.column().read_field(from, place, values);
    }

    // Replaces a field of the component at a place, which counts as changed at this tick.
    pub(crate) fn set_field(&mut self, at: usize, kind: Kind, place: usize, value: i64, tick: Tick)
        requires written { (held_seen self.old).is_written ≡ true }
        requires kind { (held_seen self.old).kind ≡ kind_number kind }
        requires within { at < length (held_seen self.old).cells }
        requires place { place < widths (kind_number kind) }
        ensures { held_seen self.new
            ≡ with_cell at (field_cell (widths (kind_number kind)) tick place value) (held_seen
            self.old) }
    {
        self.write_field(kind, at, place, &[value], tick);
    }

    // Replaces a field of the components from a place on by these values, a value a component. They count as changed at this tick.
    pub(crate) fn write_field(
        &mut self,
        kind: Kind,
        from: usize,
        place: usize,
        values: &[i64],
        tick: Tick,
    )
        requires written { (held_seen self.old).is_written ≡ true }
        requires kind { (held_seen self.old).kind ≡ kind_number kind }
        requires within { from + length values.now ≤ length (held_seen self.old).cells }
        requires place { place < widths (kind_number kind) }
        ensures { held_seen self.new
            ≡ column_with_fields (widths (kind_number kind)) tick place from values.now (held_seen
            self.old) }
    {
        match &mut self.cells {
            ColumnAccess::Written(column) => column.write_field(from, place, values, tick),
            ColumnAccess::Read(_) => unreachable!(),
        }
    }
}
