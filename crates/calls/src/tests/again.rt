// Calls that are made once more where an allocation fails: each leaves the world as it was, and then gives what it gives by itself.

ghost use Rattle.std.specs.Prelude.{◌≡◌, [], true, map, Some, IfSome};
ghost use Rattle.std.specs.List.{AllByRecursion};
ghost use Rattle.model.specs.shown.Outcome.{spawned_by};
ghost use Rattle.kinds.specs.Kind.{kind_number};
ghost use Rattle.archetype_store.specs.Layout.{archetype_at, column_home, AreAllHome};
ghost use Rattle.query_plan.specs.Picks.{pick_seen};

use crate::tests::worlds::{FIRST, component_of, put, world_of_one};
use archetype_store::World;
use archetype_store::store::{ColumnAt, TakenColumn};
use change_ticks::Clock;
use command_queue::CommandBuffer;
use command_queue::apply::apply;
use kinds::component::{Health, Score};
use kinds::{Component, Kind};
use query::Query;
use query_plan::plan::plan;
use query_plan::{Pick, RowBuffers, prove_picks_home};
use std::alloc::Global;

// The health of the first entity.
const HEALTH: Health = Health { v: 3 };

// Whether the first entity has its health, and no score.
fn is_untouched(world: &World) -> bool
    requires { AreAllHome world.now.layout }
{
    component_of::<Health>(world, FIRST) == Some(HEALTH)
        && component_of::<Score>(world, FIRST) == None
}

// The commands that give the first entity a score and take its health.
fn trade(alloc: Global) -> Option<CommandBuffer>
    ensures { IfSome result (λ buffer. spawned_by buffer ≡ []) }
{
    let mut buffer = CommandBuffer::new(alloc);
    buffer.insert(FIRST, Score { v: 4 }).ok()?;
    buffer.remove(FIRST, Kind::Health).ok()?;
    Some(buffer)
}

/// An insert that is refused leaves the entity as it was, and once more made it gives the component.
pub(crate) fn inserted(alloc: Global) -> Option<bool> {
    let mut world = world_of_one(alloc, Clock::at(1))?;
    let mut is_kept = true;
    if world.insert(FIRST, HEALTH, 1).is_err() {
        is_kept = world.lives(FIRST) && component_of::<Health>(&world, FIRST) == None;
        put(&mut world, HEALTH)?;
    }
    Some(is_kept && component_of::<Health>(&world, FIRST) == Some(HEALTH))
}

/// Commands that are refused leave the world as it was, and once more done they change it.
pub(crate) fn applied(alloc: Global) -> Option<bool> {
    let mut world = world_of_one(alloc, Clock::at(1))?;
    put(&mut world, HEALTH)?;
    let buffers = [trade(alloc)?];
    let mut is_kept = true;
    if apply(alloc, &mut world, &buffers, &[0], 1).is_err() {
        is_kept = is_untouched(&world);
        apply(alloc, &mut world, &buffers, &[0], 1).ok()?;
    }
    let is_traded = component_of::<Health>(&world, FIRST) == None
        && component_of::<Score>(&world, FIRST) == Some(Score { v: 4 });
    Some(is_kept && is_traded)
}

// The column of the only pick.
fn only(world: &World, picks: &[Pick]) -> Option<ColumnAt>
    requires { AllByRecursion
        (λ p. column_home (archetype_at world.now.layout p.archetype) p.kind ≡ Some true) (map
        pick_seen picks.now) }
    ensures { IfSome result (λ at. column_home (archetype_at world.now.layout at.archetype)
        (kind_number at.kind)
        ≡ Some true) }
{
    let _world = world;
    let [pick] = picks else {
        return None;
    };
    Some(ColumnAt {
        archetype: pick.archetype,
        kind: pick.kind,
    })
}

// The column that a query of health writes.
fn health_column(alloc: Global, world: &World) -> Option<ColumnAt>
    requires { AreAllHome world.now.layout }
    ensures { IfSome result (λ at. column_home (archetype_at world.now.layout at.archetype)
        (kind_number at.kind)
        ≡ Some true) }
{
    let query = Query::read(alloc, "mut Health").ok()?;
    prove_picks_home();
    world.prove_laid();
    let Ok(planned) = plan(alloc, &query, world, 0, &mut RowBuffers::new(alloc)) else {
        return None;
    };
    only(world, planned.picks.as_slice())
}

// Whether these are one column, of the health of the first entity alone.
fn is_health(taken: &[TakenColumn]) -> bool {
    let [one] = taken else {
        return false;
    };
    one.column.len() == 1 && one.column.at(0).value == HEALTH.into_value()
}

/// A column that is asked for to be written and refused stays where it is, and once more asked for it comes.
pub(crate) fn taken(alloc: Global) -> Option<bool> {
    let mut world = world_of_one(alloc, Clock::at(1))?;
    put(&mut world, HEALTH)?;
    let at = health_column(alloc, &world)?;
    if let Ok(taken) = world.take_written(alloc, &[at], Vec::new(alloc)) {
        return Some(is_health(taken.as_slice()));
    }
    let is_kept = is_untouched(&world);
    let taken = world.take_written(alloc, &[at], Vec::new(alloc)).ok()?;
    Some(is_kept && is_health(taken.as_slice()))
}
