// The rows of entities: the tables of archetypes, and where in them each entity has its row.

ghost use Rattle.std.specs.Prelude.{◌≡◌, [], map, option_and_then, Some, IsSome, IfSome, IfOk, OnOk};
ghost use Rattle.kinds.specs.Kind.{kind_number};
ghost use Rattle.model.specs.state.Rows.{cell_at, kinds_of};
ghost use Rattle.archetype_store.specs.Layout.{layout_of, AreAllHome, IsCellHome, IsRowHome};
ghost use Rattle.archetype_store.specs.Row.{component_of};
ghost use Rattle.archetype_store.specs.Rows.{rows_seen, cell_seen, AreRows, IsCellOf};
ghost use Rattle.archetype_store.specs.Storage.{place_of, row_of};
ghost use Rattle.archetype_store.specs.Tables.{entity_in_row, AreAllAlike};

mod columns;
mod moves;

use crate::locations::EntityLocation;
use crate::owning::copied_tables;
use crate::tables::has_kind;
use column_store::{Components, StampedColumn, Table};
use kinds::Kind;
use std::alloc::{AllocError, Global};
use std::marker::Model;

// Where a component is: its column, and its row there.
#[derive(Clone, Copy)]
pub(crate) struct CellRef<'a> {
    pub(crate) column: &'a StampedColumn,
    pub(crate) row: usize,
}

/// The rows of entities, one entity at most for each index. An entity that has a row has it in the table of just its kinds, and no two tables
/// have the same kinds. Contracts see the tables, and by index in which of them an entity has its row.
#[derive(Drop)]
pub(crate) struct Rows {
    tables: Vec<Table>,
    places: Vec<Option<EntityLocation>>,
    // By index, beside the places: the number of the row in its table.
    row_numbers: Vec<usize>,
    // Whether some columns may be read elsewhere too.
    shared: bool,
}

impl Model for Rows {
    ghost use Rattle.archetype_store.specs.Rows.{RowsValue, AreKept};

    ghost Value = { RowsValue };

    ghost view = { λ r. record { tables = r.tables.items; places = r.places.items } };

    ghost invariant = { λ r. AreKept r.tables.items r.places.items r.row_numbers.items r.shared };
}

impl Rows {
    // No entity has a row.
    pub(crate) fn new(alloc: Global) -> Self
        ensures { result ≡ record { tables = []; places = [] } }
    {
        Rows {
            tables: Vec::new(alloc),
            places: Vec::new(alloc),
            row_numbers: Vec::new(alloc),
            shared: false,
        }
    }

    // The same rows once more, where all columns are at home. The columns of the copy are its alone.
    pub(crate) fn copy(&self, alloc: Global) -> Result<Self, AllocError>
        requires { AreAllHome (layout_of self.now.tables) }
        ensures alike { IfOk result (λ copy. AreAllAlike self.now.tables copy.tables) }
        ensures places { IfOk result (λ copy. copy.places ≡ self.now.places) }
    {
        let tables = copied_tables(alloc, &self.tables)?;
        let places = Vec::from_slice(alloc, self.places.as_slice())?;
        let row_numbers = Vec::from_slice(alloc, self.row_numbers.as_slice())?;
        Ok(Rows {
            tables,
            places,
            row_numbers,
            shared: false,
        })
    }

    // An entity has a row just where it has a place, and none has two.
    pub(crate) fn prove_rows(&self)
        ensures { AreRows self.now }
    {
        let _ = &self.tables;
    }

    // The tables.
    pub(crate) fn tables(&self) -> &[Table]
        ensures { result.now ≡ self.now.tables }
    {
        self.tables.as_slice()
    }

    // In which table the entity of an index has its row. It touches no table.
    pub(crate) fn place(&self, index: u32) -> Option<EntityLocation>
        ensures { result ≡ place_of self.now.places index }
    {
        if (index as usize) < self.places.len() {
            self.places[index as usize]
        } else {
            None
        }
    }

    // The number of the row of an index in its table.
    pub(crate) fn number(&self, index: u32) -> usize
        requires { IsSome (place_of self.now.places index) }
        ensures { (p : EntityLocation) → place_of self.now.places index ≡ Some p
            → entity_in_row self.now.tables p.table result
            ≡ Some (record { index = index; generation = p.generation }) }
    {
        self.row_numbers[index as usize]
    }

    // Where the component of a kind of the entity of an index is, where it has one.
    pub(crate) fn cell(&self, index: u32, kind: Kind) -> Option<CellRef<'_>>
        requires { IsCellHome (layout_of self.now.tables) index (kind_number kind) }
        ensures cell { option_and_then cell_seen result
            ≡ cell_at (row_of (rows_seen self.now).rows index) (kind_number kind) }
        ensures there { IfSome result (IsCellOf (kind_number kind)) }
    {
        let Some(place) = self.place(index) else {
            return None;
        };
        let there = &self.tables[place.table];
        let row = self.number(index);
        match there.column(kind) {
            None => None,
            Some(column) => Some(CellRef { column, row }),
        }
    }

    // Whether the entity of an index has a component of the kind with this number. It looks at the kinds of the table alone.
    pub(crate) fn has(&self, index: u32, number: u32) -> bool
        ensures { result ≡ kinds_of (row_of (rows_seen self.now).rows index) number }
    {
        match self.place(index) {
            None => false,
            Some(place) => {
                let there = &self.tables[place.table];
                has_kind(there.kinds(), number)
            }
        }
    }

    // Lists the components of the entity of an index, in rising kinds, in the room of a list.
    pub(crate) fn components(
        &self,
        index: u32,
        components: &mut Components,
    ) -> Result<(), AllocError>
        requires { IsRowHome (layout_of self.now.tables) index }
        ensures { OnOk result (map component_of components.new.items
            ≡ row_of (rows_seen self.now).rows index) }
    {
        match self.place(index) {
            None => {
                components.clear();
                Ok(())
            }
            Some(place) => {
                let row = self.number(index);
                let there = &self.tables[place.table];
                there.read(row, components)
            }
        }
    }
}
