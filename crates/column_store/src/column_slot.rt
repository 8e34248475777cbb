// The slots of columns in a table, and what is done to all columns at a row.

ghost use Rattle.std.specs.Arc.{arc_value};
ghost use Rattle.std.specs.List.{AllByRecursion};
ghost use Rattle.std.specs.Prelude.{◌≡◌, ◌⊎◌, ◌+◌, true, length, map, Some, IfOk, IfErr, OnOk, OnErr};
ghost use Rattle.column_store.specs.Cells.{stamped_number, stamped_cell};
ghost use Rattle.column_store.specs.Inside.{cell_at, kind_in, standing_at, seen_slot, owned_slot, empty_column, push_in, swap_out_in, replace_in, push_all, replace_all, HasRoom, HoldsRow, OwnsRow, IsOfLength, Takes, AllTake, Renews, AllRenew, IsAtHome, IsOwned, IsRoomier, AreRoomier, AreAlike};
ghost use Rattle.column_store.specs.Table.{is_home};
ghost use Rattle.column_store.specs.Table.Standing.{Owned, Shared, Away};

use crate::stamped::{Components, StampedColumn, StampedValue};
use kinds::Kind;
use std::alloc::{AllocError, Global};
use std::marker::Model;
use std::mem;
use std::snapshot::Snapshot;
use std::sync::Arc;

// Where the column of a slot is: it is the table's alone, or read elsewhere too, or it has left. Of one that has left, clauses know the
// cells.
#[derive(Drop)]
pub(crate) enum Spot {
    Home(StampedColumn),
    Shared(Arc<StampedColumn, Global>),
    Away(Snapshot<StampedColumn>),
}

// The slot of a column in a table. Contracts see where the column is, and the column, as it left where it is away.
#[derive(Drop)]
pub(crate) struct ColumnSlot {
    spot: Spot,
}

impl Model for ColumnSlot {
    ghost use Rattle.column_store.specs.Table.{ColumnSlotValue};
    ghost use Rattle.column_store.specs.Spots.{slot_of};

    ghost Value = { ColumnSlotValue };

    ghost view = { λ p. slot_of p.spot };
}

impl ColumnSlot {
    // The slot of a column that is the table's alone.
    pub(crate) fn of(column: StampedColumn) -> Self
        ensures { result ≡ owned_slot column }
    {
        ColumnSlot {
            spot: Spot::Home(column),
        }
    }

    // The column, which is at home.
    pub(crate) fn seen(&self) -> &StampedColumn
        requires { is_home self.now.standing ≡ true }
        ensures { result.now ≡ self.now.column }
    {
        match &self.spot {
            Spot::Home(column) => column,
            Spot::Shared(column) => &**column,
            Spot::Away(_) => unreachable!(),
        }
    }

    // A slot of the same column, which is at home. The copy is its table's alone, whoever reads this one.
    fn copy(&self, alloc: Global) -> Result<Self, AllocError>
        requires { is_home self.now.standing ≡ true }
        ensures { IfOk result (λ copy. seen_slot copy ≡ standing_at Owned (seen_slot self.now)) }
    {
        Ok(ColumnSlot::of(self.seen().try_copy(alloc)?))
    }

    // Takes the column, which is at home, for the table alone: one that is read elsewhere is copied. Where an allocation fails the slot stays as
    // it was.
    #[inline(always)]
    pub(crate) fn own(&mut self, alloc: Global) -> Result<(), AllocError>
        requires { is_home self.old.standing ≡ true }
        ensures ok { OnOk result (seen_slot self.new ≡ standing_at Owned (seen_slot self.old)) }
        ensures err { OnErr result (self.new ≡ self.old) }
    {
        if let Spot::Home(_) = &self.spot {
            return Ok(());
        }
        self.regain(alloc)
    }

    // The same of a column that may be read elsewhere.
    #[inline(never)]
    fn regain(&mut self, alloc: Global) -> Result<(), AllocError>
        requires { is_home self.old.standing ≡ true }
        ensures ok { OnOk result (seen_slot self.new ≡ standing_at Owned (seen_slot self.old)) }
        ensures err { OnErr result (self.new ≡ self.old) }
    {
        let left = Snapshot::of(self.seen());
        match mem::replace(&mut self.spot, Spot::Away(left)) {
            Spot::Shared(shared) => match regained(alloc, shared) {
                Ok(column) => {
                    self.spot = Spot::Home(column);
                    Ok(())
                }
                Err(shared) => {
                    self.spot = Spot::Shared(shared);
                    Err(AllocError)
                }
            },
            Spot::Home(column) => {
                self.spot = Spot::Home(column);
                Ok(())
            }
            Spot::Away(_) => unreachable!(),
        }
    }

    // Takes the column, which is at home, out of the slot. Where an allocation fails the slot stays as it was.
    pub(crate) fn lend(&mut self, alloc: Global) -> Result<StampedColumn, AllocError>
        requires { is_home self.old.standing ≡ true }
        ensures column { IfOk result (λ column. column
            ≡ record self.old.column { room = column.room }) }
        ensures away { OnOk result (seen_slot self.new ≡ standing_at Away (seen_slot self.old)) }
        ensures err { OnErr result (self.new ≡ self.old) }
    {
        self.own(alloc)?;
        let left = Snapshot::of(self.seen());
        match mem::replace(&mut self.spot, Spot::Away(left)) {
            Spot::Home(column) => Ok(column),
            _ => unreachable!(),
        }
    }

    // The column, which is at home, to be read elsewhere too. It stays at home. After an error the slot is as it was, or its column is ready to be
    // read elsewhere, though nobody does.
    pub(crate) fn share(&mut self, alloc: Global) -> Result<Arc<StampedColumn, Global>, AllocError>
        requires { is_home self.old.standing ≡ true }
        ensures shared { IfOk result (λ column. arc_value column ≡ self.old.column) }
        ensures ok { OnOk result (self.new ≡ standing_at Shared self.old) }
        ensures err { OnErr result ((self.new ≡ self.old)
            ⊎ (self.new ≡ standing_at Shared self.old)) }
    {
        if let Spot::Shared(shared) = &self.spot {
            return Arc::try_clone(shared);
        }
        self.begin_sharing(alloc)
    }

    // The same of a column that may be the table's alone.
    #[inline(never)]
    fn begin_sharing(&mut self, alloc: Global) -> Result<Arc<StampedColumn, Global>, AllocError>
        requires { is_home self.old.standing ≡ true }
        ensures shared { IfOk result (λ column. arc_value column ≡ self.old.column) }
        ensures ok { OnOk result (self.new ≡ standing_at Shared self.old) }
        ensures err { OnErr result ((self.new ≡ self.old)
            ⊎ (self.new ≡ standing_at Shared self.old)) }
    {
        let left = Snapshot::of(self.seen());
        match mem::replace(&mut self.spot, Spot::Away(left)) {
            Spot::Home(column) => match Arc::new(alloc, column) {
                Ok(shared) => {
                    self.spot = Spot::Shared(shared);
                }
                Err(failed) => {
                    self.spot = Spot::Home(failed.value);
                    return Err(AllocError);
                }
            },
            Spot::Shared(shared) => {
                self.spot = Spot::Shared(shared);
            }
            Spot::Away(_) => unreachable!(),
        }
        match &self.spot {
            Spot::Shared(shared) => Arc::try_clone(shared),
            _ => unreachable!(),
        }
    }

    // Replaces the component at a row, with its stamp.
    fn replace(&mut self, row: usize, component: StampedValue)
        requires { Renews row self.old component }
        ensures { self.new ≡ replace_in row (stamped_cell component) self.old }
    {
        match &mut self.spot {
            Spot::Home(column) => column.replace(row, component),
            _ => unreachable!(),
        }
    }

    // Adds a component at the end, where there is room.
    fn push(&mut self, component: StampedValue)
        requires { Takes self.old component }
        ensures { self.new ≡ push_in (stamped_cell component) self.old }
    {
        match &mut self.spot {
            Spot::Home(column) => column.push(component),
            _ => unreachable!(),
        }
    }

    // Removes the component at a row, and moves the last one there.
    fn swap_remove(&mut self, row: usize)
        requires { OwnsRow row self.old }
        ensures { self.new ≡ swap_out_in row self.old }
    {
        match &mut self.spot {
            Spot::Home(column) => column.swap_remove(row),
            _ => unreachable!(),
        }
    }

    // Makes room for so many further components of a column that is the table's alone.
    fn reserve(&mut self, further: usize) -> Result<(), AllocError>
        requires { IsOwned self.old }
        ensures roomier { IsRoomier self.old self.new }
        ensures ok { OnOk result (HasRoom (length self.old.column.cells + further) self.new) }
    {
        match &mut self.spot {
            Spot::Home(column) => column.reserve(further),
            _ => unreachable!(),
        }
    }
}

// The column of an owner of it: moved where there is no other, else copied. Where an allocation fails the owner has it as before.
fn regained(
    alloc: Global,
    shared: Arc<StampedColumn, Global>,
) -> Result<StampedColumn, Arc<StampedColumn, Global>>
    ensures ok { IfOk result (λ column. column ≡ record (arc_value shared) { room = column.room }) }
    ensures err { IfErr result (λ kept. arc_value kept ≡ arc_value shared) }
{
    match Arc::try_unwrap(shared) {
        Ok(column) => Ok(column),
        Err(shared) => match shared.try_copy(alloc) {
            Ok(column) => Ok(column),
            Err(_) => Err(shared),
        },
    }
}

// Takes all columns for the table alone. Where an allocation fails some that were read elsewhere too may be the table's alone.
pub(crate) fn own_each(columns: &mut [ColumnSlot], alloc: Global) -> Result<(), AllocError>
    requires { AllByRecursion IsAtHome columns.old }
    ensures ok { OnOk result (map seen_slot columns.new
        ≡ map (standing_at Owned) (map seen_slot columns.old)) }
    ensures alike { AreAlike columns.old columns.new }
{
    if let Some((column, other_columns)) = columns.split_first_mut() {
        column.own(alloc)?;
        own_each(other_columns, alloc)?;
    }
    Ok(())
}

// The slots of the same columns, which are at home. Each copy is its table's alone.
pub(crate) fn copied_slots(
    alloc: Global,
    columns: &[ColumnSlot],
) -> Result<Vec<ColumnSlot>, AllocError>
    requires { AllByRecursion IsAtHome columns.now }
    ensures { IfOk result (λ copies. map seen_slot copies.items
        ≡ map (standing_at Owned) (map seen_slot columns.now)) }
{
    let mut copies = Vec::with_capacity(alloc, columns.len())?;
    for column in columns {
        copies.push_reserved(column.copy(alloc)?);
    }
    Ok(copies)
}

// Adds a row of components at the end, one in each column, where there is room.
pub(crate) fn push_row(columns: &mut [ColumnSlot], components: &[StampedValue])
    requires { AllTake columns.old components.now }
    ensures { columns.new ≡ push_all columns.old (map stamped_cell components.now) }
{
    let Some((component, other_components)) = components.split_first() else {
        return;
    };
    if let Some((column, other_columns)) = columns.split_first_mut() {
        column.push(*component);
        push_row(other_columns, other_components);
    }
}

// Makes room for so many further rows. Where an allocation fails there may be some in some columns.
pub(crate) fn reserve_rows(
    columns: &mut [ColumnSlot],
    count: usize,
    further: usize,
) -> Result<(), AllocError>
    requires owned { AllByRecursion IsOwned columns.old }
    requires long { AllByRecursion (IsOfLength count) columns.old }
    ensures roomier { AreRoomier columns.old columns.new }
    ensures ok { OnOk result (AllByRecursion (HasRoom (count + further)) columns.new) }
{
    if let Some((column, other_columns)) = columns.split_first_mut() {
        column.reserve(further)?;
        reserve_rows(other_columns, count, further)?;
    }
    Ok(())
}

// Replaces a row of components, one in each column.
pub(crate) fn replace_row(columns: &mut [ColumnSlot], row: usize, components: &[StampedValue])
    requires { AllRenew row columns.old components.now }
    ensures { columns.new ≡ replace_all row columns.old (map stamped_cell components.now) }
{
    let Some((component, other_components)) = components.split_first() else {
        return;
    };
    if let Some((column, other_columns)) = columns.split_first_mut() {
        column.replace(row, *component);
        replace_row(other_columns, row, other_components);
    }
}

// Removes a row from each column, and moves the last one there.
pub(crate) fn swap_remove_row(columns: &mut [ColumnSlot], row: usize)
    requires { AllByRecursion (OwnsRow row) columns.old }
    ensures { columns.new ≡ map (swap_out_in row) columns.old }
{
    if let Some((column, other_columns)) = columns.split_first_mut() {
        column.swap_remove(row);
        swap_remove_row(other_columns, row);
    }
}

// Reads the components of a row into the room of a list, one of each column.
pub(crate) fn read_row(
    columns: &[ColumnSlot],
    row: usize,
    components: &mut Components,
) -> Result<(), AllocError>
    requires { AllByRecursion (HoldsRow row) columns.now }
    ensures cells { OnOk result (map (λ s. Some (stamped_cell s)) components.new.items
        ≡ map (cell_at row) columns.now) }
    ensures kinds { OnOk result (map stamped_number components.new.items
        ≡ map kind_in columns.now) }
{
    components.clear();
    components.reserve(columns.len())?;
    for column in columns {
        components.push_reserved(column.seen().at(row));
    }
    Ok(())
}

// The columns of kinds without components.
pub(crate) fn empty_columns(alloc: Global, kinds: &[Kind]) -> Result<Vec<ColumnSlot>, AllocError>
    ensures { IfOk result (λ columns. columns.items ≡ map empty_column kinds.now) }
{
    let mut columns = Vec::new(alloc);
    for kind in kinds {
        columns.push(ColumnSlot::of(StampedColumn::new(alloc, *kind)))?;
    }
    Ok(columns)
}
