// Calls of the store, of event buffers, parameters, cores and traces that the program does not make by themselves.

ghost use Rattle.std.specs.Prelude.{};
ghost use Rattle.archetype_store.specs.Layout.{AreAllHome};

use crate::tests::engines::{built_of, params};
use crate::tests::worlds::{
    FIRST, component_of, empty_world, put, settle_three, settle_used, world_of_one,
};
use access_set::Params;
use access_set::conflict::conflicts;
use archetype_store::{StoreFault, World};
use change_ticks::Clock;
use entity_table::Entity;
use event_buffers::{Events, Unread};
use executor_core::{Core, Step, StepFault};
use kinds::component::Health;
use kinds::{Event, Kind};
use schedule_builder::Built;
use std::alloc::Global;
use trace_checker::WriteFault;
use trace_checker::read::read_traces;
use trace_checker::write::text_of_traces;

/// A component is there until it is removed, and an entity until it is despawned; its index is then granted at the next generation.
pub(crate) fn entities(alloc: Global) -> Option<bool> {
    let mut world = world_of_one(alloc, Clock::at(1))?;
    put(&mut world, Health { v: 3 })?;
    Some(
        is_removed(&mut world)?
            && is_despawned(&mut world)?
            && is_granted_again(alloc, &mut world)?,
    )
}

// Whether the first entity has health until it is removed.
fn is_removed(world: &mut World) -> Option<bool>
    requires { AreAllHome world.old.layout }
    ensures { AreAllHome world.new.layout }
{
    let is_there = world.has(FIRST, Kind::Health) && world.next_living(0) == Some(FIRST);
    world.remove(FIRST, Kind::Health).ok()?;
    Some(is_there && world.lives(FIRST) && component_of::<Health>(world, FIRST) == None)
}

// Whether the first entity has no component to be removed once it is despawned.
fn is_despawned(world: &mut World) -> Option<bool>
    requires { AreAllHome world.old.layout }
{
    world.despawn(FIRST).ok()?;
    Some(world.remove(FIRST, Kind::Health) == Err(StoreFault::NotAlive))
}

// Whether the next id is that of the first entity at the next generation.
fn is_granted_again(alloc: Global, world: &mut World) -> Option<bool> {
    let ids = world.grant(alloc, 1).ok()?;
    settle_used(world, ids.as_slice());
    Some(world.next_living(0) == Some(id(0, 2)))
}

// An id.
fn id(index: u32, generation: u32) -> Entity {
    Entity { index, generation }
}

// Whether three ids of a new world are the first three, of which the second is not used and the first then dies.
fn are_settled(alloc: Global, world: &mut World) -> Option<bool>
    requires { AreAllHome world.old.layout }
{
    let granted = world.grant(alloc, 3).ok()?;
    let [first, second, third] = granted.as_slice() else {
        return None;
    };
    settle_three(world, [*first, *second, *third]);
    world.despawn(*first).ok()?;
    Some((*first, *second, *third) == (id(0, 1), id(1, 1), id(2, 1)))
}

/// Of three ids one is not used and one dies: the next three take their indices, at the next generation, and one that is new.
pub(crate) fn grants(alloc: Global) -> Option<bool> {
    let mut world = empty_world(alloc, Clock::at(1))?;
    let is_settled = are_settled(alloc, &mut world)?;
    let granted = world.grant(alloc, 3).ok()?;
    let are_next = granted.as_slice() == [id(0, 2), id(1, 2), id(3, 1)].as_slice();
    Some(is_settled && are_next && !world.lives(id(0, 1)) && world.lives(id(2, 1)))
}

// The values of two lists of events.
fn are(lists: Unread<'_>, older: &[i64], newer: &[i64]) -> bool {
    lists.older == older && lists.newer == newer
}

/// Events are kept for two updates, and shown from a cursor on.
pub(crate) fn buffers(alloc: Global) -> Option<bool> {
    let mut events = Events::new(alloc);
    events.send(Event::Hit, 4).ok()?;
    events.send(Event::Hit, 5).ok()?;
    events.update();
    events.send(Event::Hit, 6).ok()?;
    let from_one = are(events.unread(Event::Hit, 1), &[5], &[6]);
    let of_others = are(events.unread(Event::Heal, 0), &[], &[]);
    events.update();
    let from_none = are(events.unread(Event::Hit, 0), &[6], &[]);
    events.update();
    let at_last = are(events.unread(Event::Hit, 0), &[], &[]);
    Some(from_one && of_others && from_none && at_last && events.next(Event::Hit) == 3)
}

/// What two systems touch together conflicts with what one of them does.
pub(crate) fn unions(alloc: Global) -> Option<bool> {
    let both = params(alloc, "mut Health")?
        .union(params(alloc, "read Score")?)
        .ok()?;
    Some(touches(alloc, &both, "mut Score")? && !touches(alloc, &both, "mut Team")?)
}

// Whether parameters conflict with those of a query.
fn touches(alloc: Global, params: &Params, query: &str) -> Option<bool> {
    Some(conflicts(params, &crate::tests::engines::params(alloc, query)?))
}

/// What a core would answer to a step is what it answers.
pub(crate) fn steps(alloc: Global) -> Option<bool> {
    let mut all = Vec::new(alloc);
    all.push(params(alloc, "mut Health")?).ok()?;
    all.push(params(alloc, "mut Health")?).ok()?;
    let built = built_of(alloc, all)?;
    conflict_in(alloc, &built)
}

// Whether the second system of a schedule may not start while the first runs.
fn conflict_in(alloc: Global, built: &Built) -> Option<bool> {
    let mut core = Box::new(alloc, Core::new(alloc, built).ok()?).ok()?;
    Some(conflict(&mut core))
}

// The same of a core that has taken no step.
fn conflict(core: &mut Core<'_>) -> bool {
    let first = core.may(Step::Start(0)).is_ok() && core.step(Step::Start(0)).is_ok();
    let second = core.may(Step::Start(1)) == Err(StepFault::Conflict);
    first && second && core.step(Step::Start(1)) == Err(StepFault::Conflict)
}

/// A list of runs is written as it is read, where its text is within the limit.
pub(crate) fn texts(alloc: Global) -> Option<bool> {
    let text = "R 1\nY 0\n";
    let traces = read_traces(alloc, text.as_bytes()).ok()?;
    if traces.len() != 1 {
        return Some(false);
    }
    let written = text_of_traces(alloc, traces.as_slice(), 8).ok()?;
    let over = text_of_traces(alloc, traces.as_slice(), 7).err();
    Some(written.as_str() == text && over == Some(WriteFault::TooLong))
}
