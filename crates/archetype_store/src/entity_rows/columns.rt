// Columns of tables: they are read, they leave and come home, and are read elsewhere too.

ghost use Rattle.std.specs.Arc.{arc_value};
ghost use Rattle.std.specs.Prelude.{◌≡◌, ◌<◌, true, length, map, Some, IfOk, OnOk, OnErr};
ghost use Rattle.kinds.specs.Kind.{kind_number};
ghost use Rattle.model.specs.Lists.{is_there};
ghost use Rattle.column_store.specs.Table.{standing_of, lent, homed, IsHome};
ghost use Rattle.column_store.specs.Table.Standing.{Away};
ghost use Rattle.archetype_store.specs.Layout.{layout_of, AreAllHome};
ghost use Rattle.archetype_store.specs.Rows.{with_table};
ghost use Rattle.archetype_store.specs.Tables.{table_at, cells_at, entities_at, AreAllAlike, AreOwned};

use crate::entity_rows::Rows;
use crate::owning::own_tables;
use column_store::StampedColumn;
use entity_table::Entity;
use kinds::Kind;
use std::alloc::{AllocError, Global};
use std::sync::Arc;

impl Rows {
    // The column of a kind of a table, which is at home.
    pub(crate) fn column(&self, table: usize, kind: Kind) -> &StampedColumn
        requires within { table < length self.now.tables }
        requires home { IsHome (standing_of (table_at self.now.tables table) (kind_number kind)) }
        ensures kind { result.now.kind ≡ kind_number kind }
        ensures cells { map (λ cell. Some cell) result.now.cells
            ≡ cells_at self.now.tables table (kind_number kind) }
    {
        let there = &self.tables[table];
        let Some(column) = there.column(kind) else {
            unreachable!();
        };
        column
    }

    // Takes the column of a kind of a table with rows, which is at home. After an error nothing has changed.
    pub(crate) fn lend(
        &mut self,
        table: usize,
        alloc: Global,
        kind: Kind,
    ) -> Result<StampedColumn, AllocError>
        requires within { table < length self.old.tables }
        requires peopled { is_there (table_at self.old.tables table).rows ≡ true }
        requires home { IsHome (standing_of (table_at self.old.tables table) (kind_number kind)) }
        ensures kind { IfOk result (λ column. column.kind ≡ kind_number kind) }
        ensures cells { IfOk result (λ column. map (λ cell. Some cell) column.cells
            ≡ cells_at self.old.tables table (kind_number kind)) }
        ensures away { OnOk result (self.new
            ≡ with_table self.old table (lent (table_at self.old.tables table) (kind_number kind))) }
        ensures err { OnErr result (self.new ≡ self.old) }
    {
        let there = &mut self.tables[table];
        there.lend(alloc, kind)
    }

    // The column of a kind of a table, which is at home, to be read elsewhere too.
    pub(crate) fn share(
        &mut self,
        table: usize,
        alloc: Global,
        kind: Kind,
    ) -> Result<Arc<StampedColumn, Global>, AllocError>
        requires within { table < length self.old.tables }
        requires home { IsHome (standing_of (table_at self.old.tables table) (kind_number kind)) }
        ensures kind { IfOk result (λ column. (arc_value column).kind ≡ kind_number kind) }
        ensures cells { IfOk result (λ column. map (λ cell. Some cell) (arc_value column).cells
            ≡ cells_at self.old.tables table (kind_number kind)) }
        ensures alike { AreAllAlike self.old.tables self.new.tables }
        ensures places { self.new.places ≡ self.old.places }
    {
        self.shared = true;
        let there = &mut self.tables[table];
        there.share(alloc, kind)
    }

    // The entities of a table, to be read elsewhere too.
    pub(crate) fn share_entities(
        &mut self,
        table: usize,
        alloc: Global,
    ) -> Result<Arc<Vec<Entity>, Global>, AllocError>
        requires { table < length self.old.tables }
        ensures entities { IfOk result (λ list. (arc_value list).items
            ≡ entities_at self.old.tables table) }
        ensures same { self.new ≡ self.old }
    {
        let there = &mut self.tables[table];
        there.share_entities(alloc)
    }

    // Puts a column of a table with rows back. It allocates nothing.
    pub(crate) fn home(&mut self, table: usize, column: StampedColumn)
        requires within { table < length self.old.tables }
        requires peopled { is_there (table_at self.old.tables table).rows ≡ true }
        requires away { standing_of (table_at self.old.tables table) column.kind ≡ Some Away }
        requires same_length { length column.cells ≡ length (table_at self.old.tables table).rows }
        ensures { self.new
            ≡ with_table self.old table (homed (table_at self.old.tables table) column) }
    {
        let there = &mut self.tables[table];
        there.home(column);
    }

    // Takes all columns for the tables alone, where some are read elsewhere too.
    pub(crate) fn own(&mut self) -> Result<(), AllocError>
        requires { AreAllHome (layout_of self.old.tables) }
        ensures ok { OnOk result (AreOwned self.new.tables) }
        ensures alike { AreAllAlike self.old.tables self.new.tables }
        ensures places { self.new.places ≡ self.old.places }
    {
        if !self.shared {
            return Ok(());
        }
        own_tables(&mut self.tables)?;
        self.shared = false;
        Ok(())
    }
}
