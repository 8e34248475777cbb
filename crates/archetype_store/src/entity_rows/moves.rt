// A row that comes, goes or is replaced. Every column is the tables' alone meanwhile.

ghost use Rattle.std.specs.Prelude.{◌≡◌, ◌≢◌, ◌≤◌, ◌<◌, ◌+◌, ℕ, [], length, map, IfOk, OnOk, OnErr};
ghost use Rattle.column_store.specs.Cells.{stamped_number};
ghost use Rattle.column_store.specs.Kinds.{AreBelow};
ghost use Rattle.archetype_store.specs.Rows.{joined, left, renewed, roomed, CanJoin, CanRenew, IsTheirs};
ghost use Rattle.archetype_store.specs.Storage.{place_of};
ghost use Rattle.archetype_store.specs.TableIndex.{IsFound};
ghost use Rattle.archetype_store.specs.Tables.{kinds_at, room_at, AreOwned, IsGrown};

use crate::entity_rows::Rows;
use crate::locations::{EntityLocation, reach};
use crate::table_index::TableIndex;
use crate::tables::{last_of, table_for};
use column_store::StampedValue;
use entity_table::Entity;
use std::alloc::AllocError;

impl Rows {
    // Makes room for the place of an index. After an error there may be room for some, which no index can tell.
    pub(crate) fn reach(&mut self, index: u32) -> Result<(), AllocError>
        requires owned { AreOwned self.old.tables }
        ensures tables { self.new.tables ≡ self.old.tables }
        ensures same { (k : ℕ) → place_of self.new.places k ≡ place_of self.old.places k }
        ensures longer { length self.old.places ≤ length self.new.places }
        ensures ok { OnOk result (index < length self.new.places) }
    {
        reach(&mut self.places, &mut self.row_numbers, index)
    }

    // The table of the kinds of these components. Where there was none, it is made.
    pub(crate) fn table_for(
        &mut self,
        index: &mut TableIndex,
        components: &[StampedValue],
    ) -> Result<usize, AllocError>
        requires found { IsFound self.old.tables index.old }
        requires owned { AreOwned self.old.tables }
        requires below { AreBelow (map stamped_number components.now) }
        requires some { components.now ≢ [] }
        ensures within { IfOk result (λ table. table < length self.new.tables) }
        ensures kinds { IfOk result (λ table. kinds_at self.new.tables table
            ≡ map stamped_number components.now) }
        ensures grown { IsGrown self.old.tables self.new.tables }
        ensures places { self.new.places ≡ self.old.places }
        ensures found { IsFound self.new.tables index.new }
    {
        table_for(&mut self.tables, index, components)
    }

    // Makes room for a further row of a table. Where an allocation fails nothing changes.
    pub(crate) fn reserve(&mut self, table: usize) -> Result<(), AllocError>
        requires within { table < length self.old.tables }
        requires owned { AreOwned self.old.tables }
        ensures ok { OnOk result (self.new
            ≡ roomed self.old table (room_at self.old.tables table + 1)) }
        ensures err { OnErr result (self.new ≡ self.old) }
    {
        let there = &mut self.tables[table];
        there.reserve(1)
    }

    // Counts no row that room was made for in a table any more.
    pub(crate) fn release(&mut self, table: usize)
        requires within { table < length self.old.tables }
        requires owned { AreOwned self.old.tables }
        ensures { self.new ≡ roomed self.old table 0 }
    {
        let there = &mut self.tables[table];
        there.release();
    }

    // Lays components as the row of an entity that has none, in the table of their kinds, where room was made for it. It allocates nothing.
    pub(crate) fn join(&mut self, e: Entity, table: usize, components: &[StampedValue])
        requires can { CanJoin self.old e table components.now }
        requires owned { AreOwned self.old.tables }
        ensures { self.new ≡ joined self.old e table components.now }
    {
        let there = &mut self.tables[table];
        let row = there.len();
        there.push(e, components);
        self.row_numbers[e.index as usize] = row;
        self.places[e.index as usize] = Some(EntityLocation {
            generation: e.generation,
            table,
        });
    }

    // Takes the row of an entity away, where it has one. The last row of its table takes its place, which is noted for the entity that has it.
    pub(crate) fn leave(&mut self, e: Entity)
        requires theirs { IsTheirs self.old e }
        requires owned { AreOwned self.old.tables }
        ensures { self.new ≡ left self.old e }
    {
        if let Some(place) = self.place(e.index) {
            let row = self.number(e.index);
            let there = &mut self.tables[place.table];
            let moved = last_of(there.entities());
            there.swap_remove(row);
            self.row_numbers[moved.index as usize] = row;
            self.places[e.index as usize] = None;
        }
    }

    // Replaces the components of an entity by others of the same kinds, where its row is.
    pub(crate) fn renew(&mut self, e: Entity, table: usize, components: &[StampedValue])
        requires can { CanRenew self.old e table components.now }
        requires owned { AreOwned self.old.tables }
        ensures { self.new ≡ renewed self.old e table components.now }
    {
        let row = self.number(e.index);
        let there = &mut self.tables[table];
        there.renew(row, components);
    }
}
