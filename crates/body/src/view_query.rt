// A query of a view: its rows stand in columns, are read there and written there.

ghost use Rattle.std.specs.Prelude.{◌≡◌, ◌+◌, ◌<◌, ◌≤◌, ℕ, pos, [], ◌∷◌, map, length, take, get_or, option_map, unwrap_or, IfSome, IsTrue, OnOk, IfOk, true};
ghost use Rattle.column_store.specs.Cells.{changed_cell};
ghost use Rattle.kinds.specs.Kind.{kind_number};
ghost use Rattle.kinds.specs.Components.{widths};
ghost use Rattle.kinds.specs.Value.{value_number, value_words};
ghost use Rattle.model.specs.Lists.{update_at};
ghost use Rattle.model.specs.access.Query.{writes};
ghost use Rattle.model.specs.shown.Input.{words_of};
ghost use Rattle.model.specs.shown.Outcome.{untouched_rows, words_in_query};
ghost use Rattle.body.specs.Columns.{with_cell, column_after};
ghost use Rattle.body.specs.HeldColumns.{held_seen, slots_seen};
ghost use Rattle.body.specs.Fields.{words_with, field_of, field_seen, sheet_with_fields, sheet_with_listed_fields, column_with_fields};
ghost use Rattle.body.specs.Orders.{IsOrder};
ghost use Rattle.body.specs.Seen.{words_read, with_words, no_row};
ghost use Rattle.body.specs.Turns.{AreInTurnAt};
ghost use Rattle.body.specs.Sheet.{slot_in, slot_cell, seen_at, at_slot, row_of, IsPlan, IsReadableAt, IsReadable, IsWritableAt, IsWritable, WritesReach};

use crate::room::QueryRoom;
use crate::row_order::RowOrder;
use crate::turns::{IN_TURN, LONG_TURN, in_turn, listed_in_turn, turn_length};
use crate::view_column::ViewColumn;
use change_ticks::Tick;
use entity_table::Entity;
use kinds::{Component, Fields, Kind, Value};
use query::Query;
use query_plan::spares::give_list;
use query_plan::{Row, Rows};
use std::alloc::AllocError;
use std::marker::Model;
use std::snapshot::Snapshot;

/// The number of the column of each kind that a query fetches in one of its archetypes.
#[derive(Clone, Copy)]
pub struct ColumnIndex {
    pub columns: [Option<u32>; Kind::COUNT],
}

// Where the rows of a query stand, and the tick of its writes. The query itself has no bytes here.
#[derive(Drop)]
struct RowSource {
    tick: Tick,
    query: Snapshot<Query>,
    slots: Vec<ColumnIndex>,
    rows: Rows,
    // How many rows stand in turn, one with another, as far as was looked: where many do they are read and written in one go, else each by itself.
    turn: usize,
    // The mark of the plan that is kept of it, else 0.
    mark: u64,
}

/// A query of a view. Contracts see its terms, its rows as they were shown, and what was written in them. They also
/// see the columns as they were taken, and the tick of its writes.
pub struct ViewQuery {
    source: RowSource,
    columns: Vec<ViewColumn>,
    taken: Snapshot<Vec<ViewColumn>>,
}

// One function drops it wherever it is let go.
impl Drop for ViewQuery {
    fn drop(self) {
        let ViewQuery {
            source: _,
            columns: _,
            taken: _,
        } = self;
    }
}

impl Model for ViewQuery {
    ghost use Rattle.std.specs.Prelude.{map};
    ghost use Rattle.body.specs.Sheet.{Sheet, sheet_of, IsSheet};

    ghost Value = { Sheet };

    ghost use Rattle.body.specs.HeldColumns.{held_seen, slots_seen};

    ghost view = { λ q. sheet_of q.source.tick q.source.query.value
        (map slots_seen q.source.slots.items) q.source.rows (map held_seen q.taken.value.items)
        (map held_seen q.columns.items) };

    ghost invariant = { λ q. IsSheet q.source.tick q.source.query.value
        (map slots_seen q.source.slots.items) q.source.rows (map held_seen q.taken.value.items)
        (map held_seen q.columns.items) };
}

impl ViewQuery {
    /// The query over these rows, with nothing written. The rows are in the columns, of which `slots` names one for
    /// each kind that is fetched, by archetype. A write counts as changed at the tick.
    pub fn open(
        tick: Tick,
        query: &Query,
        slots: Vec<ColumnIndex>,
        rows: Rows,
        columns: Vec<ViewColumn>,
    ) -> Self
        requires { IsPlan tick query.now (map slots_seen slots.items) rows (map held_seen
            columns.items) }
        ensures terms { result.terms ≡ query.now }
        ensures rows { result.rows
            ≡ map (row_of (map slots_seen slots.items) (map held_seen columns.items) query.now)
            rows }
        ensures untouched { result.cells ≡ untouched_rows result.terms result.rows }
        ensures taken { result.taken ≡ map held_seen columns.items }
        ensures tick { result.tick ≡ tick }
    {
        let turn = turn_length(&rows);
        ViewQuery::open_by(tick, query, slots, rows, columns, turn)
    }

    // The same where it is known how many rows stand in turn.
    pub(crate) fn open_by(
        tick: Tick,
        query: &Query,
        slots: Vec<ColumnIndex>,
        rows: Rows,
        columns: Vec<ViewColumn>,
        turn: usize,
    ) -> Self
        requires { IsPlan tick query.now (map slots_seen slots.items) rows (map held_seen
            columns.items) }
        ensures terms { result.terms ≡ query.now }
        ensures rows { result.rows
            ≡ map (row_of (map slots_seen slots.items) (map held_seen columns.items) query.now)
            rows }
        ensures untouched { result.cells ≡ untouched_rows result.terms result.rows }
        ensures taken { result.taken ≡ map held_seen columns.items }
        ensures tick { result.tick ≡ tick }
    {
        let taken = Snapshot::of(&columns);
        ViewQuery {
            source: RowSource {
                tick,
                query: Snapshot::of(query),
                slots,
                rows,
                turn,
                mark: 0,
            },
            columns,
            taken,
        }
    }

    // The same of a plan that is kept under a mark.
    pub(crate) fn marked(self, mark: u64) -> Self
        ensures { result ≡ self }
    {
        let mut query = self;
        query.source.mark = mark;
        query
    }

    /// How many rows there are.
    pub fn rows(&self) -> usize
        ensures { result ≡ length self.now.rows }
    {
        self.source.rows.len()
    }

    /// The entity of a row.
    pub fn entity(&self, row: usize) -> Entity
        requires { row < length self.now.rows }
        ensures { result ≡ (get_or self.now.rows row no_row).entity }
    {
        self.source.rows.at(row).entity
    }

    /// The component of a row: the one written there, or the one shown if none was written. None where the row has
    /// not the kind, and where the query doesn't fetch it.
    pub fn get<C: Component>(&self, row: usize) -> Option<C>
        requires { row < length self.now.rows }
        ensures { option_map C.words result
            ≡ words_read self.now.terms (get_or self.now.rows row no_row).values
            (get_or self.now.cells row []) C.NUMBER }
    {
        let words = self.words(row, C::kind())?;
        Some(C::from_words(words.as_slice()))
    }

    /// The fields of the component of a kind of a row, likewise.
    pub fn words(&self, row: usize, kind: Kind) -> Option<Fields>
        requires { row < length self.now.rows }
        ensures words { result
            ≡ words_read self.now.terms (get_or self.now.rows row no_row).values
            (get_or self.now.cells row []) (kind_number kind) }
        ensures width { IfSome result (λ words. length words ≡ widths (kind_number kind)) }
    {
        let at = self.source.rows.at(row);
        words_at(&self.source.slots, &self.columns, at, kind)
    }

    // A field of the component of a kind of a row: what was written there, else what is shown. 0 where the row has not the kind, and where the
    // query doesn't fetch it.
    fn word(&self, row: usize, kind: Kind, place: usize) -> i64
        requires { row < length self.now.rows }
        ensures { result ≡ field_seen self.now row (kind_number kind) place }
    {
        let at = self.source.rows.at(row);
        word_in(&self.source.slots, &self.columns, at, kind, place)
    }

    // Writes a field of the component of a kind of a row of a query that has a `mut` term of the kind.
    fn write_word(&mut self, row: usize, kind: Kind, place: usize, value: i64)
        requires row { row < length self.old.rows }
        requires mut_term { IsTrue (writes self.old.terms (kind_number kind)) }
        requires place { place < widths (kind_number kind) }
        ensures { self.new ≡ sheet_with_fields self.old (kind_number kind) place row (value ∷ []) }
    {
        let at = self.source.rows.at(row);
        write_word_in(
            &self.source.slots,
            &mut self.columns,
            at,
            kind,
            place,
            value,
            self.source.tick,
        );
    }

    /// Writes a component of a row of a query that has a `mut` term of its kind.
    pub fn set<C: Component>(&mut self, row: usize, component: C)
        requires row { row < length self.old.rows }
        requires mut_term { IsTrue (writes self.old.terms C.NUMBER) }
        ensures { self.new
            ≡ record self.old {
              cells = update_at row
                  (with_words self.old.terms C.NUMBER (C.words component)) self.old.cells;
            } }
    {
        self.write(row, component.into_value());
    }

    /// Writes a component of any kind of a row of a query that has a `mut` term of its kind.
    pub fn write(&mut self, row: usize, value: Value)
        requires row { row < length self.old.rows }
        requires mut_term { IsTrue (writes self.old.terms (value_number value)) }
        ensures { self.new
            ≡ record self.old {
              cells = update_at row
                  (with_words self.old.terms (value_number value) (value_words value))
                  self.old.cells;
            } }
    {
        let at = self.source.rows.at(row);
        set_in(
            &self.source.slots,
            &mut self.columns,
            at,
            value,
            self.source.tick,
        );
    }

    /// The values of a field of a kind of the rows from one on, as many as there is room for. A value is 0 where a
    /// row lacks the kind, and where the query doesn't fetch it.
    pub fn read_field(&self, kind: Kind, from: usize, place: usize, values: &mut [i64])
        requires { from + length values.old ≤ length self.now.rows }
        ensures length { length values.new ≡ length values.old }
        ensures values { (i : ℕ) → i < length values.old
            → get_or values.new i (pos 0)
            ≡ field_seen self.now (from + i) (kind_number kind) place }
    {
        if self.source.turn >= IN_TURN {
            read_turns(self, kind, from, place, values);
        } else {
            read_each(self, kind, from, place, values);
        }
    }

    // The values of the first of the rows from one on, those that stand in turn, and how many they are.
    fn read_turn(&self, kind: Kind, from: usize, place: usize, values: &mut [i64]) -> usize
        requires some { 0 < length values.old }
        requires rows { from + length values.old ≤ length self.now.rows }
        ensures length { length values.new ≡ length values.old }
        ensures some { 0 < result }
        ensures most { result ≤ length values.old }
        ensures values { (i : ℕ) → i < result
            → get_or values.new i (pos 0)
            ≡ field_seen self.now (from + i) (kind_number kind) place }
    {
        let count = in_turn(&self.source.rows, from, values.len());
        let first = self.source.rows.at(from);
        read_column(
            &self.source.slots,
            &self.columns,
            first.archetype as usize,
            kind,
            first.place as usize,
            place,
            &mut values[..count],
        );
        count
    }

    /// Writes values into a field of a kind of the rows from one on, a value a row. The query has a `mut` term of the
    /// kind. The other field of each component stays.
    pub fn write_field(&mut self, kind: Kind, from: usize, place: usize, values: &[i64])
        requires rows { from + length values.now ≤ length self.old.rows }
        requires mut_term { IsTrue (writes self.old.terms (kind_number kind)) }
        requires place { place < widths (kind_number kind) }
        ensures { self.new ≡ sheet_with_fields self.old (kind_number kind) place from values.now }
    {
        if self.source.turn >= IN_TURN {
            write_turns(self, kind, from, place, values);
        } else {
            write_each(self, kind, from, place, values);
        }
    }

    // Writes the values of the first of the rows from one on, those that stand in turn, and returns how many they are.
    fn write_turn(&mut self, kind: Kind, from: usize, place: usize, values: &[i64]) -> usize
        requires some { 0 < length values.now }
        requires rows { from + length values.now ≤ length self.old.rows }
        requires mut_term { IsTrue (writes self.old.terms (kind_number kind)) }
        requires place { place < widths (kind_number kind) }
        ensures some { 0 < result }
        ensures most { result ≤ length values.now }
        ensures written { self.new
            ≡ sheet_with_fields self.old (kind_number kind) place from (take result values.now) }
    {
        let count = in_turn(&self.source.rows, from, values.len());
        let first = self.source.rows.at(from);
        write_column(
            &self.source.slots,
            &mut self.columns,
            first.archetype as usize,
            kind,
            first.place as usize,
            place,
            &values[..count],
            self.source.tick,
        );
        count
    }

    // Makes this the order in which the rows stand, and returns whether more stand in turn by it than in rising index. Where already many do it is left
    // as it was.
    pub(crate) fn put_in_order(&self, order: &mut RowOrder) -> Result<bool, AllocError>
        ensures { IfOk result (λ found. found ≡ true → IsOrder (length self.now.rows) order.new) }
    {
        if self.source.turn >= LONG_TURN {
            return Ok(false);
        }
        order.put_marked(&self.source.rows, self.source.mark)
    }

    // How many of the rows with these numbers stand in turn, from the first on.
    pub(crate) fn rows_in_turn(&self, listed: &[u32]) -> usize
        requires some { 0 < length listed.now }
        requires rows { (i : ℕ) → i < length listed.now
            → get_or listed.now i 0 < length self.now.rows }
        ensures some { 0 < result }
        ensures most { result ≤ length listed.now }
        ensures turn { AreInTurnAt self.now.places listed.now result }
    {
        listed_in_turn(&self.source.rows, listed)
    }

    // The values of a field of a kind of the rows with these numbers, which stand in turn.
    pub(crate) fn read_rows(&self, kind: Kind, place: usize, listed: &[u32], values: &mut [i64])
        requires room { length values.old ≡ length listed.now }
        requires rows { (i : ℕ) → i < length listed.now
            → get_or listed.now i 0 < length self.now.rows }
        requires turn { AreInTurnAt self.now.places listed.now (length listed.now) }
        ensures length { length values.new ≡ length values.old }
        ensures values { (i : ℕ) → i < length values.old
            → get_or values.new i (pos 0)
            ≡ field_seen self.now (get_or listed.now i 0) (kind_number kind) place }
    {
        let count = listed.len();
        if count == 0 {
            return;
        }
        let first = self.source.rows.at(listed[0] as usize);
        read_column(
            &self.source.slots,
            &self.columns,
            first.archetype as usize,
            kind,
            first.place as usize,
            place,
            values,
        );
    }

    // Writes values into a field of a kind of the rows with these numbers, which stand in turn, a value a row.
    pub(crate) fn write_rows(&mut self, kind: Kind, place: usize, listed: &[u32], values: &[i64])
        requires room { length values.now ≡ length listed.now }
        requires rows { (i : ℕ) → i < length listed.now
            → get_or listed.now i 0 < length self.old.rows }
        requires turn { AreInTurnAt self.old.places listed.now (length listed.now) }
        requires mut_term { IsTrue (writes self.old.terms (kind_number kind)) }
        requires place { place < widths (kind_number kind) }
        ensures { self.new
            ≡ sheet_with_listed_fields self.old (kind_number kind) place listed.now values.now }
    {
        let count = listed.len();
        if count == 0 {
            return;
        }
        let first = self.source.rows.at(listed[0] as usize);
        write_column(
            &self.source.slots,
            &mut self.columns,
            first.archetype as usize,
            kind,
            first.place as usize,
            place,
            values,
            self.source.tick,
        );
    }

    /// Gives the columns back: each as it was taken, with what was written laid over it. Its other lists go to this room.
    pub fn close(self, room: &mut QueryRoom) -> Vec<ViewColumn>
        ensures columns { map held_seen result.items
            ≡ map (column_after self.tick (words_in_query self.terms self.rows self.cells))
            self.taken }
        ensures reach { WritesReach (words_in_query self.terms self.rows self.cells) self.taken }
    {
        let ViewQuery {
            source,
            columns,
            taken: _taken,
        } = self;
        source.rows.give_back(&mut room.rows);
        give_list(&mut room.slots, source.slots);
        columns
    }
}

// The number of the column of a kind in an archetype.
fn slot_of(slots: &[ColumnIndex], archetype: usize, kind: Kind) -> Option<u32>
    requires { archetype < length slots.now }
    ensures { result ≡ slot_in (map slots_seen slots.now) archetype (kind_number kind) }
{
    match slots[archetype].columns.get(kind.number() as usize) {
        Some(slot) => *slot,
        None => None,
    }
}

// The fields of the component of a kind in a row.
fn words_at(slots: &[ColumnIndex], columns: &[ViewColumn], at: Row, kind: Kind) -> Option<Fields>
    requires archetype { at.archetype < length slots.now }
    requires readable { IsReadable (map slots_seen slots.now) (map held_seen columns.now) at
        (kind_number kind) }
    ensures words { result
        ≡ words_of (seen_at (map slots_seen slots.now) (map held_seen columns.now) at (kind_number
        kind)) }
    ensures width { IfSome result (λ words. length words ≡ widths (kind_number kind)) }
{
    let slot = slot_of(slots, at.archetype as usize, kind)?;
    Some(columns[slot as usize].words(at.place as usize))
}

// A field of the component of a kind in a row, 0 where it has none.
fn word_in(slots: &[ColumnIndex], columns: &[ViewColumn], at: Row, kind: Kind, place: usize) -> i64
    requires archetype { at.archetype < length slots.now }
    requires readable { IsReadable (map slots_seen slots.now) (map held_seen columns.now) at
        (kind_number kind) }
    ensures { result
        ≡ field_of place (words_of (seen_at (map slots_seen slots.now) (map held_seen columns.now)
        at (kind_number kind))) }
{
    match slot_of(slots, at.archetype as usize, kind) {
        Some(slot) => columns[slot as usize].word(at.place as usize, place),
        None => 0,
    }
}

// Replaces a field of the component of a kind in a row, which counts as changed at this tick.
fn write_word_in(
    slots: &[ColumnIndex],
    columns: &mut Vec<ViewColumn>,
    at: Row,
    kind: Kind,
    place: usize,
    value: i64,
    tick: Tick,
)
    requires archetype { at.archetype < length slots.now }
    requires writable { IsWritable (map slots_seen slots.now) (map held_seen columns.old.items) at
        (kind_number kind) }
    requires place { place < widths (kind_number kind) }
    ensures { map held_seen columns.new.items
        ≡ at_slot (slot_in (map slots_seen slots.now) at.archetype (kind_number kind))
        (with_cell at.place
        (changed_cell
        (words_with (widths (kind_number kind)) place value
        (unwrap_or
        (words_of (seen_at (map slots_seen slots.now) (map held_seen columns.old.items) at
        (kind_number kind))) [])) tick)) (map held_seen columns.old.items) }
{
    match slot_of(slots, at.archetype as usize, kind) {
        Some(slot) => {
            let held = &mut columns[slot as usize];
            held.set_field(at.place as usize, kind, place, value, tick);
        }
        None => unreachable!(),
    }
}

// Replaces the component in a row, which counts as changed at this tick.
fn set_at(slots: &[ColumnIndex], columns: &mut [ViewColumn], at: Row, value: Value, tick: Tick)
    requires archetype { at.archetype < length slots.now }
    requires writable { IsWritable (map slots_seen slots.now) (map held_seen columns.old) at
        (value_number value) }
    ensures { map held_seen columns.new
        ≡ at_slot (slot_in (map slots_seen slots.now) at.archetype (value_number value))
        (with_cell at.place (changed_cell (value_words value) tick)) (map held_seen
        columns.old) }
{
    match slot_of(slots, at.archetype as usize, value.kind()) {
        Some(slot) => {
            let held = &mut columns[slot as usize];
            held.set(at.place as usize, value, tick);
        }
        None => unreachable!(),
    }
}

// The same in a vector.
fn set_in(slots: &[ColumnIndex], columns: &mut Vec<ViewColumn>, at: Row, value: Value, tick: Tick)
    requires archetype { at.archetype < length slots.now }
    requires writable { IsWritable (map slots_seen slots.now) (map held_seen columns.old.items) at
        (value_number value) }
    ensures { map held_seen columns.new.items
        ≡ at_slot (slot_in (map slots_seen slots.now) at.archetype (value_number value))
        (with_cell at.place (changed_cell (value_words value) tick)) (map held_seen
        columns.old.items) }
{
    set_at(slots, columns, at, value, tick);
}

// The values of a field of the components of a kind of an archetype from a place on, 0 where it has none of the kind.
fn read_column(
    slots: &[ColumnIndex],
    columns: &[ViewColumn],
    archetype: usize,
    kind: Kind,
    from: usize,
    place: usize,
    values: &mut [i64],
)
    requires archetype { 0 < length values.old → archetype < length slots.now }
    requires readable { (i : ℕ) → i < length values.old
        → IsReadableAt (slot_in (map slots_seen slots.now) archetype (kind_number kind))
        (map held_seen columns.now) (kind_number kind) (from + i) }
    ensures length { length values.new ≡ length values.old }
    ensures values { (i : ℕ) → i < length values.old
        → get_or values.new i (pos 0)
        ≡ field_of place (words_of (slot_cell
        (slot_in (map slots_seen slots.now) archetype (kind_number kind))
        (map held_seen columns.now) (from + i))) }
{
    let count = values.len();
    if count == 0 {
        return;
    }
    match slot_of(slots, archetype, kind) {
        Some(slot) => columns[slot as usize].read_field(from, place, values),
        None => clear(values),
    }
}

// Makes all values 0.
fn clear(values: &mut [i64])
    ensures length { length values.new ≡ length values.old }
    ensures values { (i : ℕ) → i < length values.old → get_or values.new i (pos 0) ≡ pos 0 }
{
    for value in values.iter_mut() {
        *value = 0;
    }
}

// Writes values into a field of the components of a kind of an archetype from a place on, which count as changed at this tick.
fn write_column(
    slots: &[ColumnIndex],
    columns: &mut Vec<ViewColumn>,
    archetype: usize,
    kind: Kind,
    from: usize,
    place: usize,
    values: &[i64],
    tick: Tick,
)
    requires archetype { 0 < length values.now → archetype < length slots.now }
    requires writable { (i : ℕ) → i < length values.now
        → IsWritableAt (slot_in (map slots_seen slots.now) archetype (kind_number kind))
        (map held_seen columns.old.items) (kind_number kind) (from + i) }
    requires place { place < widths (kind_number kind) }
    ensures { map held_seen columns.new.items
        ≡ at_slot (slot_in (map slots_seen slots.now) archetype (kind_number kind))
        (column_with_fields (widths (kind_number kind)) tick place from values.now) (map
        held_seen columns.old.items) }
{
    let count = values.len();
    if count == 0 {
        return;
    }
    match slot_of(slots, archetype, kind) {
        Some(slot) => {
            let held = &mut columns[slot as usize];
            held.write_field(kind, from, place, values, tick);
        }
        None => unreachable!(),
    }
}

// The values of a field of a kind of the rows from one on, those that stand in turn in one go.
fn read_turns(query: &ViewQuery, kind: Kind, from: usize, place: usize, values: &mut [i64])
    requires { from + length values.old ≤ length query.now.rows }
    ensures length { length values.new ≡ length values.old }
    ensures values { (i : ℕ) → i < length values.old
        → get_or values.new i (pos 0) ≡ field_seen query.now (from + i) (kind_number kind) place }
{
    // Proves that numbers of rows fit.
    let _count = query.rows();
    let mut done = 0;
    while done < values.len() {
        done += query.read_turn(kind, from + done, place, &mut values[done..]);
    }
}

// Writes values into a field of a kind of the rows from one on, those that stand in turn in one go.
fn write_turns(query: &mut ViewQuery, kind: Kind, from: usize, place: usize, values: &[i64])
    requires rows { from + length values.now ≤ length query.old.rows }
    requires mut_term { IsTrue (writes query.old.terms (kind_number kind)) }
    requires place { place < widths (kind_number kind) }
    ensures { query.new ≡ sheet_with_fields query.old (kind_number kind) place from values.now }
{
    // Proves that numbers of rows fit.
    let _count = query.rows();
    let mut done = 0;
    while done < values.len() {
        done += query.write_turn(kind, from + done, place, &values[done..]);
    }
}

// The values of a field of a kind of the rows from one on, each found by itself.
fn read_each(query: &ViewQuery, kind: Kind, from: usize, place: usize, values: &mut [i64])
    requires { from + length values.old ≤ length query.now.rows }
    ensures length { length values.new ≡ length values.old }
    ensures values { (i : ℕ) → i < length values.old
        → get_or values.new i (pos 0) ≡ field_seen query.now (from + i) (kind_number kind) place }
{
    // Proves that numbers of rows fit.
    let _count = query.rows();
    for i in 0..values.len() {
        values[i] = query.word(from + i, kind, place);
    }
}

// Writes values into a field of a kind of the rows from one on, each found by itself.
fn write_each(query: &mut ViewQuery, kind: Kind, from: usize, place: usize, values: &[i64])
    requires rows { from + length values.now ≤ length query.old.rows }
    requires mut_term { IsTrue (writes query.old.terms (kind_number kind)) }
    requires place { place < widths (kind_number kind) }
    ensures { query.new ≡ sheet_with_fields query.old (kind_number kind) place from values.now }
{
    // Proves that numbers of rows fit.
    let _count = query.rows();
    for i in 0..values.len() {
        query.write_word(from + i, kind, place, values[i]);
    }
}
