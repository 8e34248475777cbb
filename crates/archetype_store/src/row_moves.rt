// Rows of several entities that change at once: all that can fail is done first, then the rows that go elsewhere leave, the last one first,
// and then one after the other comes where it goes.

ghost use Rattle.std.specs.List.{AllByRecursion};
ghost use Rattle.std.specs.Prelude.{◌≡◌, ◌<◌, ◌≤◌, ℕ, [], length, map, None, Some, IfOk, OnOk, OnErr};
ghost use Rattle.column_store.specs.Cells.{stamped_number};
ghost use Rattle.column_store.specs.Kinds.{AreBelow};
ghost use Rattle.archetype_store.specs.Changes.{row_left, AreOfOtherIndices};
ghost use Rattle.archetype_store.specs.Layout.{layout_of, AreAllHome};
ghost use Rattle.archetype_store.specs.RowMoves.{change_of, arrives_in, stays_in, gone, come, HaveRoom, HasLeft, IsPlanned, IsTarget, AreAlikeBefore};
ghost use Rattle.archetype_store.specs.Rows.{rows_seen, IsTheirs};
ghost use Rattle.archetype_store.specs.Storage.{place_of, AreAlike, HaveRows};
ghost use Rattle.archetype_store.specs.TableIndex.{IsFound, IsIndexed};
ghost use Rattle.archetype_store.specs.Tables.{room_at, shape_of, AreOwned, AreAllAlike, IsGrown};

use crate::change::EntityChange;
use crate::entity_rows::Rows;
use crate::table_index::TableIndex;
use std::alloc::{AllocError, Global};

/// What becomes of the row of an entity: the table of the row that it is left with.
#[derive(Drop)]
pub(crate) struct RowMove<'a> {
    pub(crate) change: &'a EntityChange,
    pub(crate) to: Option<usize>,
}

// The table that a row newly comes into.
fn arrives_in(rows: &Rows, row: &RowMove<'_>) -> Option<usize>
    ensures { result ≡ arrives_in rows.now.places row.now }
{
    let Some(to) = row.to else {
        return None;
    };
    match rows.place(row.change.entity.index) {
        None => Some(to),
        Some(place) => { if to == place.table { None } else { Some(to) } }
    }
}

// The table of a row that is left, none where there is no row.
fn table_left(
    rows: &mut Rows,
    index: &mut TableIndex,
    change: &EntityChange,
) -> Result<Option<usize>, AllocError>
    requires found { IsFound rows.old.tables index.old }
    requires owned { AreOwned rows.old.tables }
    requires below { AreBelow (map stamped_number (row_left change.now.fate)) }
    ensures found { IsFound rows.new.tables index.new }
    ensures grown { IsGrown rows.old.tables rows.new.tables }
    ensures places { rows.new.places ≡ rows.old.places }
    ensures to { IfOk result (λ to. (t : ℕ) → to ≡ Some t
        → IsTarget rows.new.tables (row_left change.now.fate) t) }
    ensures none { IfOk result (λ to. to ≡ None → row_left change.now.fate ≡ []) }
{
    rows.prove_rows();
    let components = change.components();
    if components.is_empty() {
        return Ok(None);
    }
    let table = rows.table_for(index, components)?;
    Ok(Some(table))
}

// What becomes of a row.
fn planned<'a>(
    rows: &mut Rows,
    index: &mut TableIndex,
    change: &'a EntityChange,
) -> Result<RowMove<'a>, AllocError>
    requires found { IsFound rows.old.tables index.old }
    requires owned { AreOwned rows.old.tables }
    requires below { AreBelow (map stamped_number (row_left change.now.fate)) }
    requires theirs { IsTheirs rows.old change.now.entity }
    ensures found { IsFound rows.new.tables index.new }
    ensures grown { IsGrown rows.old.tables rows.new.tables }
    ensures same { (i : ℕ) → place_of rows.new.places i ≡ place_of rows.old.places i }
    ensures longer { length rows.old.places ≤ length rows.new.places }
    ensures change { IfOk result (λ row. row.change.now ≡ change.now) }
    ensures planned { IfOk result (λ row. IsPlanned rows.new.tables rows.new.places row) }
{
    let to = table_left(rows, index, change)?;
    rows.reach(change.entity.index)?;
    Ok(RowMove { change, to })
}

// What becomes of rows.
fn planned_all<'a>(
    alloc: Global,
    rows: &mut Rows,
    index: &mut TableIndex,
    changes: &'a [EntityChange],
) -> Result<Vec<RowMove<'a>>, AllocError>
    requires found { IsFound rows.old.tables index.old }
    requires owned { AreOwned rows.old.tables }
    requires below { AllByRecursion (λ c. AreBelow (map stamped_number (row_left c.fate)))
        changes.now }
    requires theirs { AllByRecursion (λ c. IsTheirs rows.old c.entity) changes.now }
    ensures found { IsFound rows.new.tables index.new }
    ensures grown { IsGrown rows.old.tables rows.new.tables }
    ensures same { (i : ℕ) → place_of rows.new.places i ≡ place_of rows.old.places i }
    ensures changes { IfOk result (λ moves. map change_of moves.items ≡ changes.now) }
    ensures planned { IfOk result (λ moves. AllByRecursion (IsPlanned rows.new.tables rows.new.places) moves.items) }
{
    rows.prove_rows();
    let mut moves = Vec::with_capacity(alloc, changes.len())?;
    for change in changes {
        moves.push(planned(rows, index, change)?)?;
    }
    Ok(moves)
}

// Makes room in the tables that rows newly come into.
fn reserve_all(rows: &mut Rows, moves: &[RowMove<'_>]) -> Result<(), AllocError>
    requires owned { AreOwned rows.old.tables }
    requires planned { AllByRecursion (IsPlanned rows.old.tables rows.old.places) moves.now }
    ensures places { rows.new.places ≡ rows.old.places }
    ensures shapes { map shape_of rows.new.tables ≡ map shape_of rows.old.tables }
    ensures alike { AreAllAlike rows.old.tables rows.new.tables }
    ensures ok { OnOk result (HaveRoom rows.new.tables rows.old.places moves.now) }
{
    for row in moves {
        if let Some(table) = arrives_in(rows, row) {
            rows.reserve(table)?;
        }
    }
    Ok(())
}

// Counts none of these rows any more in the tables that they would newly come into.
fn release_all(rows: &mut Rows, moves: &[RowMove<'_>])
    requires owned { AreOwned rows.old.tables }
    requires planned { AllByRecursion (IsPlanned rows.old.tables rows.old.places) moves.now }
    ensures places { rows.new.places ≡ rows.old.places }
    ensures shapes { map shape_of rows.new.tables ≡ map shape_of rows.old.tables }
    ensures alike { AreAllAlike rows.old.tables rows.new.tables }
{
    for row in moves {
        if let Some(table) = arrives_in(rows, row) {
            rows.release(table);
        }
    }
}

// Whether a row stays in the table where it is.
fn stays_in(rows: &Rows, row: &RowMove<'_>) -> bool
    ensures { result ≡ stays_in rows.now.places row.now }
{
    let Some(to) = row.to else {
        return false;
    };
    match rows.place(row.change.entity.index) {
        None => false,
        Some(place) => to == place.table,
    }
}

// Takes a row out of its table where it goes elsewhere. It allocates nothing.
fn leave_row(rows: &mut Rows, row: &RowMove<'_>)
    requires owned { AreOwned rows.old.tables }
    requires theirs { IsTheirs rows.old row.now.change.now.entity }
    ensures { rows.new ≡ gone rows.old row.now }
{
    if stays_in(rows, row) {
        return;
    }
    rows.leave(row.change.entity);
}

// Takes rows out of their tables where they go elsewhere, from the last one on: where their ids rise each is behind those that are left, so
// none of these has to move. It allocates nothing.
fn leave_all(rows: &mut Rows, moves: &[RowMove<'_>])
    requires owned { AreOwned rows.old.tables }
    requires apart { AreOfOtherIndices (map change_of moves.now) }
    requires planned { AllByRecursion (IsPlanned rows.old.tables rows.old.places) moves.now }
    requires room { HaveRoom rows.old.tables rows.old.places moves.now }
    ensures shapes { map shape_of rows.new.tables ≡ map shape_of rows.old.tables }
    ensures planned { AllByRecursion (IsPlanned rows.new.tables rows.new.places) moves.now }
    ensures gone { AllByRecursion (HasLeft rows.new.places) moves.now }
    ensures room { HaveRoom rows.new.tables rows.new.places moves.now }
    ensures alike { AreAlikeBefore (rows_seen rows.old) (map change_of moves.now)
        (rows_seen rows.new) }
{
    rows.prove_rows();
    let mut left = moves.len();
    while left > 0 {
        left -= 1;
        leave_row(rows, &moves[left]);
    }
}

// Takes a row that has left where it goes: nowhere, or into another table, or its components are replaced where it stays. It allocates nothing.
fn move_row(rows: &mut Rows, row: &RowMove<'_>)
    requires owned { AreOwned rows.old.tables }
    requires planned { IsPlanned rows.old.tables rows.old.places row.now }
    requires gone { HasLeft rows.old.places row.now }
    requires room { (t : ℕ) → arrives_in rows.old.places row.now ≡ Some t
        → 0 < room_at rows.old.tables t }
    ensures { rows.new ≡ come rows.old row.now }
{
    let e = row.change.entity;
    let Some(to) = row.to else {
        return;
    };
    if let None = arrives_in(rows, row) {
        rows.renew(e, to, row.change.components());
        return;
    }
    rows.join(e, to, row.change.components());
}

// Takes rows that have left where they go, one after the other. It allocates nothing.
fn move_all(rows: &mut Rows, moves: &[RowMove<'_>])
    requires owned { AreOwned rows.old.tables }
    requires apart { AreOfOtherIndices (map change_of moves.now) }
    requires planned { AllByRecursion (IsPlanned rows.old.tables rows.old.places) moves.now }
    requires gone { AllByRecursion (HasLeft rows.old.places) moves.now }
    requires room { HaveRoom rows.old.tables rows.old.places moves.now }
    ensures shapes { map shape_of rows.new.tables ≡ map shape_of rows.old.tables }
    ensures left { HaveRows (rows_seen rows.old) (map change_of moves.now) (rows_seen rows.new) }
{
    rows.prove_rows();
    for row in moves {
        move_row(rows, row);
    }
}

// Makes these changes, where every column is the tables' alone.
fn change_owned(
    alloc: Global,
    rows: &mut Rows,
    index: &mut TableIndex,
    changes: &[EntityChange],
) -> Result<(), AllocError>
    requires found { IsFound rows.old.tables index.old }
    requires owned { AreOwned rows.old.tables }
    requires apart { AreOfOtherIndices changes.now }
    requires below { AllByRecursion (λ c. AreBelow (map stamped_number (row_left c.fate)))
        changes.now }
    requires theirs { AllByRecursion (λ c. IsTheirs rows.old c.entity) changes.now }
    ensures found { IsFound rows.new.tables index.new }
    ensures owned { AreOwned rows.new.tables }
    ensures ok { OnOk result (HaveRows (rows_seen rows.old) changes.now (rows_seen rows.new)) }
    ensures err { OnErr result (AreAlike (rows_seen rows.old) (rows_seen rows.new)) }
{
    let moves = planned_all(alloc, rows, index, changes)?;
    if reserve_all(rows, &moves).is_err() {
        release_all(rows, &moves);
        return Err(AllocError);
    }
    leave_all(rows, &moves);
    move_all(rows, &moves);
    Ok(())
}

// Makes these changes, no two of one index: each entity is left with just the components of its change. Where an allocation fails all rows stay
// as they were.
pub(crate) fn change_rows(
    alloc: Global,
    rows: &mut Rows,
    index: &mut TableIndex,
    changes: &[EntityChange],
) -> Result<(), AllocError>
    requires indexed { IsIndexed rows.old.tables index.old }
    requires home { AreAllHome (layout_of rows.old.tables) }
    requires apart { AreOfOtherIndices changes.now }
    requires below { AllByRecursion (λ c. AreBelow (map stamped_number (row_left c.fate)))
        changes.now }
    requires theirs { AllByRecursion (λ c. IsTheirs rows.old c.entity) changes.now }
    ensures indexed { IsIndexed rows.new.tables index.new }
    ensures home { AreAllHome (layout_of rows.new.tables) }
    ensures ok { OnOk result (HaveRows (rows_seen rows.old) changes.now (rows_seen rows.new)) }
    ensures err { OnErr result (AreAlike (rows_seen rows.old) (rows_seen rows.new)) }
{
    if changes.is_empty() {
        return Ok(());
    }
    rows.own()?;
    let changed = change_owned(alloc, rows, index, changes);
    index.note_rows(rows.tables());
    changed
}
