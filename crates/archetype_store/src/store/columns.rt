// Columns of a world: they are read, they leave and come home, and are read elsewhere too.

ghost use Rattle.std.specs.Arc.{arc_value};
ghost use Rattle.std.specs.List.{AllByRecursion};
ghost use Rattle.std.specs.Prelude.{◌≡◌, ◌<◌, true, false, Some, length, map, IfOk, OnOk, OnErr};
ghost use Rattle.kinds.specs.Kind.{kind_number};
ghost use Rattle.archetype_store.specs.Layout.{archetype_at, column_home, with_home};
ghost use Rattle.archetype_store.specs.Lending.{CanTake, CanShare, CanComeHome, AreTaken, AreShared, all_away, all_home};
ghost use Rattle.archetype_store.specs.Slot.{column_cells};
ghost use Rattle.archetype_store.specs.Store.{homed_in, IsPast};

use crate::columns::{ColumnAt, SharedColumn, TakenColumn};
use crate::store::World;
use column_store::StampedColumn;
use entity_table::Entity;
use kinds::Kind;
use std::alloc::{AllocError, Global};
use std::sync::Arc;

impl World {
    /// The column of a kind of the archetype of a number, which is at home. Its components are those of the archetype's entities, in order.
    pub fn column(&self, archetype: usize, kind: Kind) -> &StampedColumn
        requires { column_home (archetype_at self.now.layout archetype) (kind_number kind)
            ≡ Some true }
        ensures kind { result.now.kind ≡ kind_number kind }
        ensures cells { map (λ cell. Some cell) result.now.cells
            ≡ column_cells self.now.state.slots (archetype_at self.now.layout archetype).entities
            (kind_number kind) }
    {
        self.rows.prove_rows();
        let Some(table) = self.index.table_of(archetype) else {
            unreachable!();
        };
        self.rows.column(table, kind)
    }

    /// Takes the column of a kind of the archetype of a number out of the world until it comes home. Meanwhile the
    /// world is as if it was at home. A column that is still read elsewhere is copied for it. After an error nothing
    /// has changed.
    pub fn take_column(
        &mut self,
        alloc: Global,
        archetype: usize,
        kind: Kind,
    ) -> Result<StampedColumn, AllocError>
        requires { column_home (archetype_at self.old.layout archetype) (kind_number kind)
            ≡ Some true }
        ensures kind { IfOk result (λ column. column.kind ≡ kind_number kind) }
        ensures cells { IfOk result (λ column. map (λ cell. Some cell) column.cells
            ≡ column_cells self.old.state.slots
            (archetype_at self.old.layout archetype).entities (kind_number kind)) }
        ensures away { OnOk result (self.new
            ≡ record {
              state = self.old.state;
              layout = with_home false archetype (kind_number kind) self.old.layout;
            }) }
        ensures err { OnErr result (self.new ≡ self.old) }
    {
        self.rows.prove_rows();
        let Some(table) = self.index.table_of(archetype) else {
            unreachable!();
        };
        self.rows.lend(table, alloc, kind)
    }

    /// The column of a kind of the archetype of a number, to be read elsewhere too. It stays at home, and no row is copied.
    pub fn share_column(
        &mut self,
        alloc: Global,
        archetype: usize,
        kind: Kind,
    ) -> Result<Arc<StampedColumn, Global>, AllocError>
        requires { column_home (archetype_at self.old.layout archetype) (kind_number kind)
            ≡ Some true }
        ensures kind { IfOk result (λ column. (arc_value column).kind ≡ kind_number kind) }
        ensures cells { IfOk result (λ column. map (λ cell. Some cell) (arc_value column).cells
            ≡ column_cells self.old.state.slots
            (archetype_at self.old.layout archetype).entities (kind_number kind)) }
        ensures same { self.new ≡ self.old }
    {
        self.rows.prove_rows();
        let Some(table) = self.index.table_of(archetype) else {
            unreachable!();
        };
        self.rows.share(table, alloc, kind)
    }

    /// The entities of the archetype of a number, in the order of their rows, to be read elsewhere too. They are copied only where rows of the
    /// archetype changed since they were asked for last.
    pub fn share_entities(
        &mut self,
        alloc: Global,
        archetype: usize,
    ) -> Result<Arc<Vec<Entity>, Global>, AllocError>
        requires { archetype < length self.old.layout }
        ensures entities { IfOk result (λ list. (arc_value list).items
            ≡ (archetype_at self.old.layout archetype).entities) }
        ensures same { self.new ≡ self.old }
    {
        let Some(table) = self.index.table_of(archetype) else {
            unreachable!();
        };
        self.rows.share_entities(table, alloc)
    }

    /// Puts a column that was taken back: each entity of its archetype has the component in the same row. It
    /// allocates nothing.
    pub fn put_column(&mut self, archetype: usize, column: StampedColumn)
        requires away { column_home (archetype_at self.old.layout archetype) column.kind
            ≡ Some false }
        requires same_length { length column.cells
            ≡ length (archetype_at self.old.layout archetype).entities }
        requires past { AllByRecursion (IsPast self.old.state.clock) column.cells }
        ensures { self.new ≡ homed_in self.old archetype column.kind column.cells }
    {
        column.prove_widths();
        self.rows.prove_rows();
        let Some(table) = self.index.table_of(archetype) else {
            unreachable!();
        };
        self.rows.home(table, column);
    }

    /// Takes columns out of the world, to be written, until they come home. Meanwhile the world is as if they were at
    /// home. No row is touched, but a column that is still read elsewhere is copied. After an error nothing has
    /// changed.
    pub fn take_written(
        &mut self,
        alloc: Global,
        columns: &[ColumnAt],
        room: Vec<TakenColumn>,
    ) -> Result<Vec<TakenColumn>, AllocError>
        requires { CanTake self.old.layout columns.now }
        ensures taken { IfOk result (λ taken. AreTaken self.old.state.slots self.old.layout
            columns.now taken.items) }
        ensures away { OnOk result (self.new
            ≡ record { state = self.old.state; layout = all_away columns.now self.old.layout }) }
        ensures err { OnErr result (self.new ≡ self.old) }
    {
        self.prove_laid();
        self.prove_shape();
        let mut taken = room;
        taken.clear();
        taken.reserve(columns.len())?;
        for at in columns {
            match self.take_column(alloc, at.archetype, at.kind) {
                Ok(column) => taken.push_reserved(TakenColumn {
                    archetype: at.archetype,
                    column,
                }),
                Err(_) => {
                    self.put_back(taken);
                    return Err(AllocError);
                }
            }
        }
        Ok(taken)
    }

    /// Columns of the world, to be read elsewhere too. They stay at home, and no row is copied.
    pub fn share_read(
        &mut self,
        alloc: Global,
        columns: &[ColumnAt],
        room: Vec<SharedColumn>,
    ) -> Result<Vec<SharedColumn>, AllocError>
        requires { CanShare self.old.layout columns.now }
        ensures shared { IfOk result (λ shared. AreShared self.old.state.slots self.old.layout
            columns.now shared.items) }
        ensures same { self.new ≡ self.old }
    {
        let mut shared = room;
        shared.clear();
        shared.reserve(columns.len())?;
        for at in columns {
            let column = self.share_column(alloc, at.archetype, at.kind)?;
            let archetype = at.archetype;
            shared.push_reserved(SharedColumn { archetype, column });
        }
        Ok(shared)
    }

    /// Puts columns that were taken back: each entity of their archetypes has the components in the same row. It
    /// allocates nothing.
    pub fn put_back(&mut self, columns: Vec<TakenColumn>)
        requires { CanComeHome columns.items self.old }
        ensures { self.new ≡ all_home columns.items self.old }
    {
        let mut columns = columns;
        while let Some(taken) = columns.pop() {
            self.put_column(taken.archetype, taken.column);
        }
    }
}
