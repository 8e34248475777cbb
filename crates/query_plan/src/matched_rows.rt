// Where the rows of a query stand: all those of one archetype, or a list of places.

ghost use Rattle.std.specs.Prelude.{◌≡◌, not, IfOk};
ghost use Rattle.archetype_store.specs.Layout.{archetype_at};
ghost use Rattle.model.specs.Lists.{is_there};
ghost use Rattle.query_plan.specs.Spares.{IsGiven};
ghost use Rattle.query_plan.specs.Places.{every_row, rows_of_places, IsCounted};

use crate::row::Row;
use crate::row_buffers::RowBuffers;
use crate::spares::{give_list, take_list};
use archetype_store::World;
use entity_table::Entity;
use std::alloc::{AllocError, Global};

/// The places of the rows of a query in a world.
#[derive(Drop)]
pub enum MatchedRows {
    /// The rows are the entities of the archetype of a number, all of them, in order. With their count.
    All(u32, u32),
    /// The rows one by one.
    Listed(Vec<Row>),
}

impl MatchedRows {
    /// Whether there are no rows.
    pub fn is_empty(&self, _world: &World) -> bool
        requires { IsCounted _world.now.layout self.now }
        ensures { result ≡ not (is_there (rows_of_places _world.now.layout self.now)) }
    {
        match self {
            MatchedRows::All(_archetype, count) => *count == 0,
            MatchedRows::Listed(rows) => rows.is_empty(),
        }
    }

    /// Gives the buffer of the rows back, where they are listed.
    pub fn give_back(self, room: &mut RowBuffers)
        ensures { IsGiven room.old.rows room.new.rows }
    {
        if let MatchedRows::Listed(rows) = self {
            give_list(&mut room.rows, rows);
        }
    }

    /// The rows as a list.
    pub fn into_list(self, alloc: Global, world: &World) -> Result<Vec<Row>, AllocError>
        ensures { IfOk result (λ rows. rows.items ≡ rows_of_places world.now.layout self) }
    {
        listed(alloc, self, world, &mut RowBuffers::new(alloc))
    }
}

// Rows as a list.
pub(crate) fn listed(
    alloc: Global,
    places: MatchedRows,
    world: &World,
    room: &mut RowBuffers,
) -> Result<Vec<Row>, AllocError>
    ensures { IfOk result (λ rows. rows.items ≡ rows_of_places world.now.layout places) }
{
    match places {
        MatchedRows::All(archetype, _count) => all_listed(alloc, archetype, world, room),
        MatchedRows::Listed(rows) => Ok(rows),
    }
}

// The rows of all entities of the archetype of a number.
fn all_listed(
    alloc: Global,
    archetype: u32,
    world: &World,
    room: &mut RowBuffers,
) -> Result<Vec<Row>, AllocError>
    ensures { IfOk result (λ rows. rows.items
        ≡ every_row archetype 0 (archetype_at world.now.layout archetype).entities) }
{
    if world.archetype_count() <= archetype as usize {
        return Ok(Vec::new(alloc));
    }
    let view = world.archetype(archetype as usize);
    every_row(alloc, archetype, view.entities, room)
}

// A row for each of these entities, which are those of the archetype of a number.
fn every_row(
    alloc: Global,
    archetype: u32,
    entities: &[Entity],
    room: &mut RowBuffers,
) -> Result<Vec<Row>, AllocError>
    ensures { IfOk result (λ rows. rows.items ≡ every_row archetype 0 entities.now) }
{
    let Ok(count) = u32::try_from(entities.len()) else {
        return Err(AllocError);
    };
    let mut rows = take_list(&mut room.rows, alloc);
    rows.reserve(entities.len())?;
    for place in 0..count {
        rows.push(Row {
            entity: entities[place as usize],
            archetype,
            place,
        })?;
    }
    Ok(rows)
}
