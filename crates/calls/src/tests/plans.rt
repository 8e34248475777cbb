// Plans of a query beside each other: with a look at all archetypes, and by the number of its shape.

ghost use Rattle.std.specs.Prelude.{◌≡◌};
ghost use Rattle.archetype_store.specs.Layout.{AreAllHome};
ghost use Rattle.archetype_store.specs.Shapes.{shape_number};
ghost use Rattle.query_plan.specs.Candidates.{shape_of as shape_asked};

use crate::tests::worlds::{give, world_of_many};
use archetype_store::World;
use change_ticks::Clock;
use entity_table::Entity;
use kinds::component::{Frozen, Health};
use query::Query;
use query_plan::plan::{plan, plan_by};
use query_plan::{Plan, RowBuffers, prove_picks_home, shape_of};
use std::alloc::Global;

/// The entity of an index that lives for the first time.
pub(crate) fn entity(index: u32) -> Entity {
    Entity {
        index,
        generation: 1,
    }
}

/// A query of health has rows of the two that have it, and of the third once that has it too.
pub(crate) fn two_plans(alloc: Global) -> Option<bool> {
    let mut world = world_of_many(alloc, Clock::at(1), 3)?;
    give(&mut world, entity(0), Frozen {})?;
    give(&mut world, entity(1), Health { v: 3 })?;
    give(&mut world, entity(2), Health { v: 4 })?;
    give(&mut world, entity(2), Frozen {})?;
    let query = Query::read(alloc, "read Health").ok()?;
    let shape = world.register(&shape_of(&query)).ok()?;
    let are_two = are_planned(alloc, &world, &query, shape, &[1, 2])?;
    give(&mut world, entity(0), Health { v: 9 })?;
    Some(are_two && are_planned(alloc, &world, &query, shape, &[0, 1, 2])?)
}

// Whether the rows of a plan are of these indices.
fn rows_are(alloc: Global, world: &World, plan: Plan, wanted: &[u32]) -> Option<bool> {
    let rows = plan.rows.into_list(alloc, world).ok()?;
    let mut are = rows.len() == wanted.len();
    for row in &rows {
        are = are && wanted.contains(&row.entity.index);
    }
    for at in 1..rows.len() {
        are = are && rows[at - 1].entity.index < rows[at].entity.index;
    }
    Some(are)
}

/// Whether both plans of a query have rows of these indices.
pub(crate) fn are_planned(
    alloc: Global,
    world: &World,
    query: &Query,
    shape: usize,
    wanted: &[u32],
) -> Option<bool>
    requires home { AreAllHome world.now.layout }
    requires shape { shape ≡ shape_number (shape_asked query.now) }
{
    // Tell that the columns that are picked are at home.
    world.prove_laid();
    prove_picks_home();
    let mut room = RowBuffers::new(alloc);
    let all = plan(alloc, query, world, 0, &mut room).ok()?;
    let by = plan_by(alloc, world, shape, query, 0, &mut room).ok()?;
    let is_same = all.archetypes == by.archetypes && all.picks == by.picks;
    Some(is_same && rows_are(alloc, world, all, wanted)? && rows_are(alloc, world, by, wanted)?)
}
