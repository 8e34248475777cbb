// Bodies that write a resource and a register, and refuse where a resource has a value, over several runs.

ghost use Rattle.std.specs.Prelude.{IfSome};
ghost use Rattle.archetype_store.specs.Layout.{AreAllHome};

use crate::tests::bodies::TestBody;
use crate::tests::engines::{Systems, TestEngine};
use crate::tests::runs::Way;
use crate::tests::worlds::empty_world;
use access_set::Params;
use archetype_store::World;
use body::State;
use change_ticks::Clock;
use engine::{Engine, RunFault};
use kinds::Res;
use script::Rounds;
use std::alloc::Global;

// A world in which the step has a value.
fn world(alloc: Global, step: i64) -> Option<Box<World>>
    ensures { IfSome result (λ world. AreAllHome world.value.layout) }
{
    let mut world = empty_world(alloc, Clock::at(1))?;
    world.set_res(Res::Step, step, 1);
    Some(world)
}

// The parameters of the system that tallies.
fn tallying(alloc: Global) -> Option<Params> {
    let mut params = Params::new(alloc);
    params.add_res(Res::Step).ok()?;
    params.add_res_mut(Res::Total).ok()?;
    Some(params)
}

// The parameters of the system that refuses.
fn refusing(alloc: Global) -> Option<Params> {
    let mut params = Params::new(alloc);
    params.add_res(Res::Round).ok()?;
    Some(params)
}

// The parameters of the system that turns the round.
fn turning(alloc: Global) -> Option<Params> {
    let mut params = Params::new(alloc);
    params.add_res_mut(Res::Round).ok()?;
    Some(params)
}

// An engine of a system that adds 5 to the total.
fn adding_five(alloc: Global) -> Option<TestEngine> {
    let mut systems = Systems::new(alloc);
    systems.add(tallying(alloc)?, TestBody::Tally)?;
    systems.engine(alloc, world(alloc, 5)?)
}

// An engine of a system that refuses in round 1 and, after it, one that adds 1 to the round.
fn refusing_at_one(alloc: Global) -> Option<TestEngine> {
    let mut systems = Systems::new(alloc);
    systems.add(refusing(alloc)?, TestBody::Refuse)?;
    systems.follow(alloc, turning(alloc)?, Rounds::Once, &["add Round 1"])?;
    systems.chain(alloc, empty_world(alloc, Clock::at(1))?)
}

/// After three runs the total is 15 since tick 9 and the step 5 since tick 1, and register 0 of the one system is 3.
pub(crate) fn three_tallies(alloc: Global) -> Option<bool> {
    let mut engine = adding_five(alloc)?;
    let has_run = Way::Plain.run(&mut engine, alloc, 3) == None;
    Some(has_run && is_tallied(engine.state()))
}

// Whether a state is that after three runs that add 5.
fn is_tallied(state: &State) -> bool {
    let world = state.world();
    let total = (world.res(Res::Total), world.res_changed(Res::Total));
    let step = (world.res(Res::Step), world.res_changed(Res::Step));
    if state.systems() != 1 {
        return false;
    }
    let registers = state.memory(0).registers();
    total == (15, 9) && step == (5, 1) && registers == [3, 0, 0, 0, 0, 0, 0, 0]
}

// The round.
fn round(engine: &Engine<TestBody>) -> i64 {
    engine.state().world().res(Res::Round)
}

/// Runs of which the second is refused leave round 0, as often as they are taken, and one run then adds to it.
pub(crate) fn kept_round(alloc: Global) -> Option<bool> {
    let mut engine = refusing_at_one(alloc)?;
    let calls = [
        (3, Some(RunFault::BodyFault(7))),
        (2, Some(RunFault::BodyFault(7))),
        (3, Some(RunFault::BodyFault(7))),
    ];
    let is_refused = Way::Kept.runs_are(&mut engine, alloc, &calls);
    let before = round(&engine);
    let has_run = Way::Kept.run(&mut engine, alloc, 1) == None;
    Some(is_refused && before == 0 && has_run && round(&engine) == 1)
}
