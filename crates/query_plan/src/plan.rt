// The plan of a query: its rows, each where it stands, and the columns that they are in.

ghost use Rattle.std.specs.Prelude.{◌≡◌, true, length, map, IfOk, OnOk};
ghost use Rattle.std.specs.List.{AllByRecursion};
ghost use Rattle.model.specs.shown.Input as input;
ghost use Rattle.column_store.specs.Order.{AreApart};
ghost use Rattle.archetype_store.specs.Shapes.{shape_number};
ghost use Rattle.query_plan.specs.Candidates.{numbers_where, shape_of, AreCandidates};
ghost use Rattle.query_plan.specs.Picks.{picks_of, pick_seen};
ghost use Rattle.query_plan.specs.Places.{rows_of_places, IsCounted};
ghost use Rattle.query_plan.specs.Standing.{ArePickedHome, IsStanding};

use crate::archetype_rows::rows_in;
use crate::picks::picks_in;
use crate::planned::Plan;
use crate::row_buffers::RowBuffers;
use crate::spares::{give_list, take_list};
use archetype_store::World;
use query::Query;
use std::alloc::{AllocError, Global};

/// The plan of a query for an observer with this last run. It has the rows, in rising index, each with the place of
/// its components, and the columns that the query picks. Archetypes that the query doesn't match are skipped, and no
/// column is read but those whose stamps its filters ask for. Suppose that one archetype alone is matched, its rows
/// are in rising ids and no filter asks for stamps. Then the rows are given by its number, and nothing grows with
/// their count. Listed rows come in buffers of this room, and the picks in a list of it. Over several archetypes they
/// are found by a walk over the indices, where that is likely sooner than to merge those of each. The columns that it
/// picks are at home.
pub fn plan(
    alloc: Global,
    query: &Query,
    world: &World,
    last_run: u64,
    room: &mut RowBuffers,
) -> Result<Plan, AllocError>
    requires { ArePickedHome query.now world.now.layout }
    ensures rows { IfOk result (λ plan. map (λ row. row.entity) (rows_of_places world.now.layout
        plan.rows)
        ≡ map (λ row. row.entity) (input.rows_of query.now last_run world.now.state.slots)) }
    ensures places { IfOk result (λ plan. AllByRecursion
        (IsStanding world.now.state.slots world.now.layout) (rows_of_places world.now.layout
        plan.rows)) }
    ensures counted { IfOk result (λ plan. IsCounted world.now.layout plan.rows) }
    ensures picks { IfOk result (λ plan. map pick_seen plan.picks.items
        ≡ picks_of query.now world.now.layout) }
    ensures archetypes { IfOk result (λ plan. plan.archetypes ≡ length world.now.layout) }
    ensures apart { IfOk result (λ plan. AllByRecursion (λ a. AreApart a.entities)
        world.now.layout) }
{
    let mut archetypes = take_list(&mut room.archetypes, alloc);
    all_archetypes(world, &mut archetypes)?;
    let planned = plan_among(alloc, query, world, &archetypes, last_run, room);
    give_list(&mut room.archetypes, archetypes);
    planned
}

/// The same plan, by the number of the shape of the query. Where a world keeps the shape, only the archetypes that
/// fit it are looked at.
pub fn plan_by(
    alloc: Global,
    world: &World,
    shape: usize,
    query: &Query,
    last_run: u64,
    room: &mut RowBuffers,
) -> Result<Plan, AllocError>
    requires home { ArePickedHome query.now world.now.layout }
    requires shape { shape ≡ shape_number (shape_of query.now) }
    ensures rows { IfOk result (λ plan. map (λ row. row.entity) (rows_of_places world.now.layout
        plan.rows)
        ≡ map (λ row. row.entity) (input.rows_of query.now last_run world.now.state.slots)) }
    ensures places { IfOk result (λ plan. AllByRecursion
        (IsStanding world.now.state.slots world.now.layout) (rows_of_places world.now.layout
        plan.rows)) }
    ensures counted { IfOk result (λ plan. IsCounted world.now.layout plan.rows) }
    ensures picks { IfOk result (λ plan. map pick_seen plan.picks.items
        ≡ picks_of query.now world.now.layout) }
    ensures archetypes { IfOk result (λ plan. plan.archetypes ≡ length world.now.layout) }
    ensures apart { IfOk result (λ plan. AllByRecursion (λ a. AreApart a.entities)
        world.now.layout) }
{
    // Proves that the kinds of the query have bits.
    let _terms = query.terms();
    let mut archetypes = take_list(&mut room.archetypes, alloc);
    let is_kept = world.fitting(shape, &mut archetypes)?;
    if !is_kept {
        give_list(&mut room.archetypes, archetypes);
        return plan(alloc, query, world, last_run, room);
    }
    let planned = plan_among(alloc, query, world, &archetypes, last_run, room);
    give_list(&mut room.archetypes, archetypes);
    planned
}

// Lists the numbers of all archetypes, in a list that is emptied first.
fn all_archetypes(world: &World, archetypes: &mut Vec<usize>) -> Result<(), AllocError>
    ensures { OnOk result (archetypes.new.items
        ≡ numbers_where (λ kinds. true) 0 world.now.layout) }
{
    let count = world.archetype_count();
    archetypes.clear();
    archetypes.reserve(count)?;
    for archetype in 0..count {
        archetypes.push(archetype)?;
    }
    Ok(())
}

// The plan of a query: the archetypes that it matches are among these.
fn plan_among(
    alloc: Global,
    query: &Query,
    world: &World,
    archetypes: &[usize],
    last_run: u64,
    room: &mut RowBuffers,
) -> Result<Plan, AllocError>
    requires among { AreCandidates query.now world.now.layout archetypes.now }
    requires home { ArePickedHome query.now world.now.layout }
    ensures rows { IfOk result (λ plan. map (λ row. row.entity) (rows_of_places world.now.layout
        plan.rows)
        ≡ map (λ row. row.entity) (input.rows_of query.now last_run world.now.state.slots)) }
    ensures places { IfOk result (λ plan. AllByRecursion
        (IsStanding world.now.state.slots world.now.layout) (rows_of_places world.now.layout
        plan.rows)) }
    ensures counted { IfOk result (λ plan. IsCounted world.now.layout plan.rows) }
    ensures picks { IfOk result (λ plan. map pick_seen plan.picks.items
        ≡ picks_of query.now world.now.layout) }
    ensures archetypes { IfOk result (λ plan. plan.archetypes ≡ length world.now.layout) }
    ensures apart { IfOk result (λ plan. AllByRecursion (λ a. AreApart a.entities)
        world.now.layout) }
{
    // Proves that no entity is in an archetype twice.
    world.prove_apart();
    let Ok(count) = u32::try_from(world.archetype_count()) else {
        return Err(AllocError);
    };
    let rows = rows_in(alloc, query, world, archetypes, last_run, room)?;
    let picks = picks_in(query, world, archetypes, take_list(&mut room.picks, alloc))?;
    Ok(Plan {
        rows,
        picks,
        archetypes: count,
    })
}
