// Tables.

ghost use Rattle.std.specs.Arc.{arc_value};
ghost use Rattle.std.specs.List.{list_all};
ghost use Rattle.std.specs.Prelude.{◌≡◌, ◌⊎◌, ◌+◌, ◌-◌, ◌<◌, ◌≤◌, ◌++◌, ◌∷◌, [], length, map, option_map, Some, IsNone, IfOk, MatchOption, OnOk, OnErr, IsTrue, slice_get};
ghost use Rattle.kinds.specs.Kind.{kind_number};
ghost use Rattle.model.specs.Lists.{update_at};
ghost use Rattle.column_store.specs.Cells.{stamped_number, stamped_cell};
ghost use Rattle.column_store.specs.Kinds.{in_order, AreBelow};
ghost use Rattle.column_store.specs.Order.{AreApart};
ghost use Rattle.column_store.specs.RowOrder.{OrdersRows};
ghost use Rattle.column_store.specs.Swapped.{swap_removed};
ghost use Rattle.column_store.specs.Table.{Standing, empty_table, is_home, is_owned, is_not_away, row_of, new_row, renewed_row, standing_of, kind_cells, lent, shared, owned, homed, IsAlike, IsColumnOf, IsHome, IsWithout};

use crate::column_slot::{
    ColumnSlot, own_each, push_row, read_row, replace_row, reserve_rows, swap_remove_row,
};
use crate::columns::Columns;
use crate::entity_list::EntityList;
use crate::row_order::RowOrder;
use crate::stamped::{Components, StampedColumn, StampedValue};
use entity_table::Entity;
use kinds::Kind;
use std::alloc::{AllocError, Global};
use std::marker::Model;
use std::sync::Arc;

/// The entities of one archetype with their components: a row for each entity, and a column for each kind, in rising
/// kinds. A row comes in at the end, and where one is removed the last one takes its place. The table also keeps
/// their order in rising ids. A column can leave and come home, and be read elsewhere too. To contracts one that is
/// away has the cells with which it left.
pub struct Table {
    columns: Columns,
    entities: EntityList,
    // So many further rows come in without allocating: room is made in steps.
    spare: usize,
    // So many of them were asked for.
    room: usize,
}

// One function drops it wherever it is let go.
impl Drop for Table {
    fn drop(self) {
        let Table {
            columns: _,
            entities: _,
            spare: _,
            room: _,
        } = self;
    }
}

// For so many rows more room is made at once, at the most.
const STEP: usize = 64;

// For how many rows room is made where there are so many, and so many are asked for: for some more, the more rows there are.
fn in_steps(count: usize, room: usize) -> usize
    ensures { room ≤ result }
{
    room.saturating_add(count.max(room).min(STEP))
}

impl Model for Table {
    ghost use Rattle.std.specs.Prelude.{map};
    ghost use Rattle.kinds.specs.Kind.{kind_number};
    ghost use Rattle.column_store.specs.Table.{TableValue};
    ghost use Rattle.column_store.specs.Inside.{table_with_room, IsTableWithSpare};

    ghost Value = { TableValue };

    ghost view = { λ t. table_with_room (map kind_number t.columns.kinds.items) t.entities
        t.columns.slots.items t.room };

    ghost invariant = { λ t. IsTableWithSpare (map kind_number t.columns.kinds.items) t.entities
        t.columns.slots.items t.spare t.room };
}

impl Table {
    /// The table of these kinds without rows. It has each of them once, in rising numbers.
    pub fn new(alloc: Global, kinds: &[Kind]) -> Result<Self, AllocError>
        ensures { IfOk result (λ table. table
            ≡ empty_table (in_order (map kind_number kinds.now))) }
    {
        let columns = Columns::new(alloc, kinds)?;
        Ok(Table {
            columns,
            entities: EntityList::new(alloc),
            spare: 0,
            room: 0,
        })
    }

    /// A table of the same kinds and rows, where all columns are at home. The columns of the copy are its alone,
    /// whoever reads those of this table. A later write to one of the two is none to the other. Where an allocation
    /// fails there is no copy.
    pub fn copy(&self, alloc: Global) -> Result<Self, AllocError>
        requires { IsTrue (list_all is_home self.now.standings) }
        ensures { IfOk result (λ copy. copy ≡ owned self.now) }
    {
        let columns = self.columns.copy(alloc)?;
        let entities = self.entities.copy(alloc)?;
        Ok(Table {
            columns,
            entities,
            spare: 0,
            room: 0,
        })
    }

    /// The kinds, in rising numbers.
    pub fn kinds(&self) -> &[Kind]
        ensures kinds { map kind_number result.now ≡ self.now.kinds }
        ensures rising { AreBelow self.now.kinds }
    {
        self.columns.kinds.as_slice()
    }

    /// The entities, row by row.
    pub fn entities(&self) -> &[Entity]
        ensures entities { result.now ≡ map (λ row. row.entity) self.now.rows }
        ensures apart { AreApart result.now }
    {
        self.entities.as_slice()
    }

    /// The order of the rows, in which ids rise. It is kept: nothing is computed.
    pub fn order(&self) -> RowOrder<'_>
        ensures { OrdersRows (map (λ row. row.entity) self.now.rows) result }
    {
        self.entities.order()
    }

    /// The entities, row by row, to be read elsewhere too. They are copied only where rows changed since they were asked for last.
    pub fn share_entities(&mut self, alloc: Global) -> Result<Arc<Vec<Entity>, Global>, AllocError>
        ensures entities { IfOk result (λ list. (arc_value list).items
            ≡ map (λ row. row.entity) self.old.rows) }
        ensures same { self.new ≡ self.old }
    {
        self.entities.share(alloc)
    }

    /// How many rows there are.
    pub fn len(&self) -> usize
        ensures { result ≡ length self.now.rows }
    {
        self.entities().len()
    }

    /// Makes room for `further` more rows. Where an allocation fails the table stays as it was.
    pub fn reserve(&mut self, further: usize) -> Result<(), AllocError>
        requires { IsTrue (list_all is_owned self.old.standings) }
        ensures ok { OnOk result (self.new ≡ record self.old { room = self.old.room + further }) }
        ensures err { OnErr result (self.new ≡ self.old) }
    {
        let Some(room) = self.room.checked_add(further) else {
            return Err(AllocError);
        };
        if room <= self.spare {
            self.room = room;
            return Ok(());
        }
        let count = self.entities.as_slice().len();
        let spare = in_steps(count, room);
        self.entities.reserve(spare)?;
        reserve_rows(&mut self.columns.slots, count, spare)?;
        self.spare = spare;
        self.room = room;
        Ok(())
    }

    /// Counts no row that room was made for any more.
    pub fn release(&mut self)
        ensures { self.new ≡ record self.old { room = 0 } }
    {
        self.room = 0;
    }

    /// Adds the row of an entity that isn't there at the end, with its components in the order of the kinds. Room was made for it, so it
    /// allocates nothing.
    pub fn push(&mut self, e: Entity, components: &[StampedValue])
        requires absent { IsNone (row_of e self.old.rows) }
        requires kinds { map stamped_number components.now ≡ self.old.kinds }
        requires owned { IsTrue (list_all is_owned self.old.standings) }
        requires room { 0 < self.old.room }
        ensures { self.new
            ≡ record self.old {
              rows = self.old.rows
                  ++ new_row e components.now ∷ [];
              room = self.old.room - 1;
            } }
    {
        self.entities.push(e);
        push_row(&mut self.columns.slots, components);
        self.spare -= 1;
        self.room -= 1;
    }

    /// Replaces all components at a row, which are in the order of the kinds, with their stamps.
    pub fn renew(&mut self, row: usize, components: &[StampedValue])
        requires within { row < length self.old.rows }
        requires kinds { map stamped_number components.now ≡ self.old.kinds }
        requires owned { IsTrue (list_all is_owned self.old.standings) }
        ensures { self.new
            ≡ record self.old { rows = update_at row (renewed_row components.now) self.old.rows } }
    {
        replace_row(&mut self.columns.slots, row, components);
    }

    /// Removes a row, and moves the last one into its place. It allocates nothing.
    pub fn swap_remove(&mut self, row: usize)
        requires within { row < length self.old.rows }
        requires owned { IsTrue (list_all is_owned self.old.standings) }
        ensures { self.new ≡ record self.old { rows = swap_removed self.old.rows row } }
    {
        self.entities.swap_remove(row);
        swap_remove_row(&mut self.columns.slots, row);
    }

    /// Lists the components at a row, in the order of the kinds, in the room of a list. A list of few allocates nothing.
    pub fn read(&self, row: usize, components: &mut Components) -> Result<(), AllocError>
        requires within { row < length self.now.rows }
        requires home { IsTrue (list_all is_home self.now.standings) }
        ensures cells { OnOk result (option_map (λ r. r.cells) (slice_get self.now.rows row)
            ≡ Some (map (λ s. Some (stamped_cell s)) components.new.items)) }
        ensures kinds { OnOk result (map stamped_number components.new.items ≡ self.now.kinds) }
    {
        read_row(&self.columns.slots, row, components)
    }

    /// The column of a kind, where the table has one. It is at home.
    pub fn column(&self, kind: Kind) -> Option<&StampedColumn>
        requires { IsTrue (is_not_away (standing_of self.now (kind_number kind))) }
        ensures { MatchOption result (IsWithout self.now (kind_number kind)) (λ column. IsColumnOf
            self.now (kind_number kind) column.now) }
    {
        match self.columns.place(kind) {
            None => None,
            Some(place) => Some(self.columns.slots[place].seen()),
        }
    }

    /// Takes a column that is at home out of the table until it comes home. One that is still read elsewhere is copied for it. After an
    /// error the table is as it was.
    pub fn lend(&mut self, alloc: Global, kind: Kind) -> Result<StampedColumn, AllocError>
        requires { IsHome (standing_of self.old (kind_number kind)) }
        ensures kind { IfOk result (λ column. column.kind ≡ kind_number kind) }
        ensures cells { IfOk result (λ column. map (λ cell. Some cell) column.cells
            ≡ kind_cells self.old (kind_number kind)) }
        ensures away { OnOk result (self.new ≡ lent self.old (kind_number kind)) }
        ensures err { OnErr result (self.new ≡ self.old) }
    {
        let Some(place) = self.columns.place(kind) else {
            unreachable!();
        };
        let column = self.columns.slots[place].lend(alloc)?;
        self.spare = 0;
        self.room = 0;
        Ok(column)
    }

    /// A column that is at home, to be read elsewhere too. No row is copied. After an error the table is as it was,
    /// without the room that was made, or it is as if the column were read elsewhere.
    pub fn share(
        &mut self,
        alloc: Global,
        kind: Kind,
    ) -> Result<Arc<StampedColumn, Global>, AllocError>
        requires { IsHome (standing_of self.old (kind_number kind)) }
        ensures kind { IfOk result (λ column. (arc_value column).kind ≡ kind_number kind) }
        ensures cells { IfOk result (λ column. map (λ cell. Some cell) (arc_value column).cells
            ≡ kind_cells self.old (kind_number kind)) }
        ensures ok { OnOk result (self.new ≡ shared self.old (kind_number kind)) }
        ensures err { OnErr result ((self.new ≡ record self.old { room = 0 })
            ⊎ (self.new ≡ shared self.old (kind_number kind))) }
        ensures alike { IsAlike self.old self.new }
    {
        let Some(place) = self.columns.place(kind) else {
            unreachable!();
        };
        self.spare = 0;
        self.room = 0;
        self.columns.slots[place].share(alloc)
    }

    /// Takes every column for the table alone. One that is still read elsewhere is copied for it. Where an allocation fails some may be the
    /// table's alone that were read elsewhere too.
    pub fn own(&mut self, alloc: Global) -> Result<(), AllocError>
        requires { IsTrue (list_all is_home self.old.standings) }
        ensures ok { OnOk result (self.new ≡ owned self.old) }
        ensures alike { IsAlike self.old self.new }
    {
        self.spare = 0;
        self.room = 0;
        own_each(&mut self.columns.slots, alloc)
    }

    /// Puts a column that was lent back.
    pub fn home(&mut self, column: StampedColumn)
        requires away { standing_of self.old column.kind ≡ Some Standing.Away }
        requires same_length { length column.cells ≡ length self.old.rows }
        ensures { self.new ≡ homed self.old column }
    {
        let Some(place) = self.columns.place(column.kind()) else {
            unreachable!();
        };
        self.spare = 0;
        self.room = 0;
        self.columns.slots[place] = ColumnSlot::of(column);
    }
}
