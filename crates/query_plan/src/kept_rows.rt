// Rows that are kept while the world goes on.

ghost use Rattle.std.specs.Prelude.{◌≡◌, ◌<◌, get_or, length, IfSome, IfOk};
ghost use Rattle.std.specs.Arc.{arc_value};
ghost use Rattle.archetype_store.specs.Layout.{archetype_at};
ghost use Rattle.query_plan.specs.Spares.{IsGiven};
ghost use Rattle.query_plan.specs.Places.{every_row, rows_of_places, AreEvery, IsCounted};

use crate::matched_rows::MatchedRows;
use crate::row::Row;
use crate::row_buffers::RowBuffers;
use crate::spares::give_list;
use archetype_store::World;
use entity_table::Entity;
use std::alloc::{AllocError, Global};
use std::marker::Model;
use std::sync::Arc;

// The rows of all entities of the archetype of a number, so many, or a list. A list may be read elsewhere too.
#[derive(Drop)]
enum KeptRows {
    All(u32, u32, Arc<Vec<Entity>, Global>),
    Listed(Vec<Row>),
    Shared(Arc<Vec<Row>, Global>),
}

/// The rows of a query, which stay as they are whatever becomes of the world. Contracts see a list. Where the rows are all entities of an
/// archetype there is none: the entities are read where the world has them.
pub struct Rows {
    kept: KeptRows,
}

// One function drops it wherever it is let go.
impl Drop for Rows {
    fn drop(self) {
        let Rows { kept: _ } = self;
    }
}

impl Model for Rows {
    ghost use Rattle.std.specs.Prelude.{List};
    ghost use Rattle.query_plan.specs.declared.row.Row.{Row};
    ghost use Rattle.query_plan.specs.Kept.{rows_kept, AreCounted};

    ghost Value = { List Row };

    ghost view = { λ r. rows_kept r.kept };

    ghost invariant = { λ r. AreCounted r.kept };
}

impl Rows {
    /// The rows at these places in a world.
    pub fn of(alloc: Global, places: MatchedRows, world: &mut World) -> Result<Self, AllocError>
        requires { IsCounted world.old.layout places }
        ensures rows { IfOk result (λ rows. rows ≡ rows_of_places world.old.layout places) }
        ensures same { world.new ≡ world.old }
    {
        match places {
            MatchedRows::Listed(rows) => Ok(Rows::listed(rows)),
            MatchedRows::All(archetype, count) => {
                if count == 0 {
                    return Ok(Rows::listed(Vec::new(alloc)));
                }
                let entities = world.share_entities(alloc, archetype as usize)?;
                Ok(Rows {
                    kept: KeptRows::All(archetype, count, entities),
                })
            }
        }
    }

    /// These rows.
    pub fn listed(rows: Vec<Row>) -> Self
        ensures { result ≡ rows.items }
    {
        Rows {
            kept: KeptRows::Listed(rows),
        }
    }

    /// The same rows, such that `share` copies none of them.
    pub fn into_shared(self, alloc: Global) -> Result<Self, AllocError>
        ensures { IfOk result (λ rows. rows ≡ self) }
    {
        let Rows { kept } = self;
        match kept {
            KeptRows::Listed(rows) => Ok(Rows {
                kept: KeptRows::Shared(Arc::new(alloc, rows)?),
            }),
            kept => Ok(Rows { kept }),
        }
    }

    /// The same rows once more. A list that isn't shared is copied.
    pub fn share(&self, alloc: Global) -> Result<Self, AllocError>
        ensures { IfOk result (λ rows. rows ≡ self.now) }
    {
        let kept = match &self.kept {
            KeptRows::All(archetype, count, entities) => {
                KeptRows::All(*archetype, *count, Arc::try_clone(entities)?)
            }
            KeptRows::Listed(rows) => KeptRows::Listed(Vec::from_slice(alloc, rows.as_slice())?),
            KeptRows::Shared(rows) => KeptRows::Shared(Arc::try_clone(rows)?),
        };
        Ok(Rows { kept })
    }

    /// Gives the buffer of the rows back, where they are listed and nobody else reads them.
    pub fn give_back(self, room: &mut RowBuffers)
        ensures { IsGiven room.old.rows room.new.rows }
    {
        let Rows { kept } = self;
        match kept {
            KeptRows::All(_archetype, _count, _entities) => {}
            KeptRows::Listed(rows) => give_list(&mut room.rows, rows),
            KeptRows::Shared(rows) => give_shared(rows, room),
        }
    }

    /// How many rows there are.
    pub fn len(&self) -> usize
        ensures { result ≡ length self.now }
    {
        match &self.kept {
            KeptRows::All(_archetype, count, _entities) => *count as usize,
            KeptRows::Listed(rows) => rows.len(),
            KeptRows::Shared(rows) => rows.len(),
        }
    }

    /// The rows, where they are listed one by one.
    pub fn as_listed(&self) -> Option<&[Row]>
        ensures { IfSome result (λ rows. rows.now ≡ self.now) }
    {
        match &self.kept {
            KeptRows::All(_archetype, _count, _entities) => None,
            KeptRows::Listed(rows) => Some(rows.as_slice()),
            KeptRows::Shared(rows) => Some(rows.as_slice()),
        }
    }

    /// The number of the archetype whose rows these are, each at its own place. None where they are listed one by one.
    pub fn archetype(&self) -> Option<u32>
        ensures { IfSome result (λ number. AreEvery number self.now) }
    {
        match &self.kept {
            KeptRows::All(archetype, _count, _entities) => Some(*archetype),
            KeptRows::Listed(_rows) => None,
            KeptRows::Shared(_rows) => None,
        }
    }

    /// A row.
    pub fn at(&self, row: usize) -> Row
        requires { row < length self.now }
        ensures { result ≡ get_or self.now row result }
    {
        match &self.kept {
            KeptRows::All(archetype, count, entities) => {
                // Proves that places are below it.
                let _count = *count;
                Row {
                    entity: entities[row],
                    archetype: *archetype,
                    place: row as u32,
                }
            }
            KeptRows::Listed(rows) => rows[row],
            KeptRows::Shared(rows) => rows[row],
        }
    }
}

// Gives the buffer of shared rows back, where nobody else reads them.
fn give_shared(rows: Arc<Vec<Row>, Global>, room: &mut RowBuffers)
    ensures { IsGiven room.old.rows room.new.rows }
{
    if let Some(rows) = Arc::into_inner(rows) {
        give_list(&mut room.rows, rows);
    }
}
