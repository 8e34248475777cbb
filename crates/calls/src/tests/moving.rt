// Runs of a system that moves what has a velocity, alone and in a box beside another, and what an engine refuses.

ghost use Rattle.std.specs.Prelude.{IfSome};
ghost use Rattle.archetype_store.specs.Layout.{AreAllHome};

use crate::tests::bodies::TestBody;
use crate::tests::engines::{Systems, TestEngine, made, params, script};
use crate::tests::gates::{Rule, TestGate};
use crate::tests::runs::{ONCE, Plan, Way, run_on_threads};
use crate::tests::worlds::{FIRST, component_of, put, world_of_one};
use access_set::Params;
use archetype_store::World;
use body::{Body, State};
use change_ticks::clock::LAST_TICK;
use change_ticks::{Clock, Tick};
use engine::{Engine, NewFault, RunFault};
use kinds::Kind;
use kinds::component::{Position, Velocity};
use script::{Rounds, ScriptBody};
use std::alloc::Global;
use std::sync::Wait;
use std::thread::Threads;

// The query of the system that moves, and what it does.
const MOVING: &str = "mut Position, read Velocity";

const MOVES: [&str; 2] = ["add Position.x Velocity.x", "add Position.y Velocity.y"];

// Where three runs move the first entity.
const MOVED: Option<Position> = Some(Position { x: 3, y: -6 });

// A world of one entity at a clock, loaded at tick 1.
fn world(alloc: Global, clock: Clock) -> Option<Box<World>>
    ensures home { IfSome result (λ world. AreAllHome world.value.layout) }
{
    let mut world = world_of_one(alloc, clock)?;
    put(&mut world, Position { x: 0, y: 0 })?;
    put(&mut world, Velocity { x: 1, y: -2 })?;
    Some(world)
}

/// The system that moves, alone, in such a world.
pub(crate) fn moving(alloc: Global, clock: Clock) -> Option<TestEngine> {
    let mut systems = Systems::new(alloc);
    systems.follow(alloc, params(alloc, MOVING)?, Rounds::EachRow(0), &MOVES)?;
    systems.engine(alloc, world(alloc, clock)?)
}

// When the component of a kind of the first entity was added and changed.
fn stamp_of(world: &World, kind: Kind) -> Option<(Tick, Tick)>
    requires { AreAllHome world.now.layout }
{
    world.prove_home();
    let stamp = world.stamp(FIRST, kind)?;
    Some((stamp.added, stamp.changed))
}

/// The position of the first entity.
pub(crate) fn position(state: &State) -> Option<Position> {
    component_of::<Position>(state.world(), FIRST)
}

/// After three runs from tick 1 the position is 3 and -6 since tick 9, the velocity as it was loaded, and the clock at tick 10.
pub(crate) fn stamps(alloc: Global) -> Option<bool> {
    let mut engine = moving(alloc, Clock::at(1))?;
    let has_run = Way::Plain.run(&mut engine, alloc, 3) == None;
    Some(has_run && is_moved(engine.state()))
}

// Whether a state is that after three runs from tick 1.
fn is_moved(state: &State) -> bool {
    let world = state.world();
    let moved = stamp_of(world, Kind::Position) == Some((1, 9));
    let speed = stamp_of(world, Kind::Velocity) == Some((1, 1));
    position(state) == MOVED && moved && speed && world.now() == 10
}

/// A run whose clock is spent at its opening, at its start or at its sync point stops, and each one after it finds the engine spoiled.
pub(crate) fn spent_clock(alloc: Global) -> Option<bool> {
    let mut is_told = true;
    for ticks_left in 0..3 {
        is_told = is_told && is_spoiled(alloc, Clock::at(LAST_TICK - ticks_left))?;
    }
    Some(is_told)
}

// Whether a run from this clock on finds it spent, and those after it find the engine spoiled.
fn is_spoiled(alloc: Global, clock: Clock) -> Option<bool> {
    let mut engine = moving(alloc, clock)?;
    let calls = [
        (1, Some(RunFault::ClockSpent)),
        (1, Some(RunFault::Spoiled)),
        (0, Some(RunFault::Spoiled)),
    ];
    Some(Way::Plain.runs_are(&mut engine, alloc, &calls))
}

/// At a spent clock a run that is kept says so as often as it is asked: the engine isn't spoiled.
pub(crate) fn kept_at_the_last_tick(alloc: Global) -> Option<bool> {
    let mut engine = moving(alloc, Clock::at(LAST_TICK))?;
    let calls = [
        (1, Some(RunFault::ClockSpent)),
        (1, Some(RunFault::ClockSpent)),
    ];
    Some(Way::Kept.runs_are(&mut engine, alloc, &calls))
}

/// Two runs for which the clock has ticks for one leave no trace: position and clock are as they were, and one run may follow.
pub(crate) fn kept_state(alloc: Global) -> Option<bool> {
    let mut engine = moving(alloc, Clock::at(LAST_TICK - 5))?;
    let is_told = Way::Kept.run(&mut engine, alloc, 2) == Some(RunFault::ClockSpent);
    let stays = is_at(engine.state(), 0, 0) && engine.state().world().now() == LAST_TICK - 5;
    let goes_on = Way::Kept.run(&mut engine, alloc, 1) == None;
    Some(is_told && stays && goes_on && is_at(engine.state(), 1, -2))
}

// Whether the first entity is at a place.
fn is_at(state: &State, x: i64, y: i64) -> bool {
    position(state) == Some(Position { x, y })
}

// The script that adds the velocity to the position.
fn movement(alloc: Global) -> Option<ScriptBody> {
    script(alloc, &params(alloc, MOVING)?, Rounds::EachRow(0), &MOVES)
}

// The parameters of a system that moves and of one that only reads.
fn both_params(alloc: Global) -> Option<Vec<Params>> {
    let mut all = Vec::new(alloc);
    all.push(params(alloc, MOVING)?).ok()?;
    all.push(params(alloc, "read Health")?).ok()?;
    Some(all)
}

// An engine of both with these two bodies.
fn engine_of_both<B: Body>(alloc: Global, bodies: Vec<B>) -> Option<Box<Engine<B>>> {
    let params = both_params(alloc)?;
    made(alloc, world(alloc, Clock::at(1))?, params, bodies)?.ok()
}

// Where three runs of these two bodies on this thread move the first entity.
fn alone<B: Body>(alloc: Global, bodies: Vec<B>) -> Option<Option<Position>> {
    let mut engine = engine_of_both(alloc, bodies)?;
    match Way::Plain.run(&mut engine, alloc, 3) {
        None => Some(position(engine.state())),
        Some(_fault) => None,
    }
}

// The same on two threads.
fn on_threads<R: Threads + Wait + Copy + Send + Sync + 'static, B: Body + 'static>(
    runtime: R,
    alloc: Global,
    bodies: Vec<B>,
) -> Option<Option<Position>> {
    let mut engine = engine_of_both(alloc, bodies)?;
    let gate = TestGate::new(alloc, Rule::Open)?;
    let plan = Plan { times: 3, ..ONCE };
    run_on_threads(runtime, &gate, alloc, plan, &mut engine).ok()?;
    Some(position(engine.state()))
}

/// Bodies of two types in boxes, a script that moves and one that touches nothing, do on this thread what the script does.
pub(crate) fn boxed(alloc: Global) -> Option<bool> {
    let mut bodies: Vec<Box<dyn Body + Send>> = Vec::new(alloc);
    bodies.push(Box::new(alloc, movement(alloc)?).ok()?).ok()?;
    bodies
        .push(Box::new(alloc, TestBody::Answer(None)).ok()?)
        .ok()?;
    Some(alone(alloc, bodies)? == MOVED)
}

/// And so they do on two threads.
pub(crate) fn boxed_on_threads<R: Threads + Wait + Copy + Send + Sync + 'static>(
    runtime: R,
    alloc: Global,
) -> Option<bool> {
    let mut bodies: Vec<Box<dyn Body + Send>> = Vec::new(alloc);
    bodies.push(Box::new(alloc, movement(alloc)?).ok()?).ok()?;
    bodies
        .push(Box::new(alloc, TestBody::Answer(None)).ok()?)
        .ok()?;
    Some(on_threads(runtime, alloc, bodies)? == MOVED)
}

// Why there is no engine of the system that moves with these bodies.
fn refusal(alloc: Global, bodies: Vec<TestBody>) -> Option<Option<NewFault>> {
    let mut all = Vec::new(alloc);
    all.push(params(alloc, MOVING)?).ok()?;
    Some(made(alloc, world(alloc, Clock::at(1))?, all, bodies)?.err())
}

// The body of a system that turns what moves.
fn turning(alloc: Global) -> Option<Vec<TestBody>> {
    let params = params(alloc, "mut Velocity")?;
    let script = script(alloc, &params, Rounds::EachRow(0), &["mul Velocity.x -1"])?;
    let mut bodies = Vec::new(alloc);
    bodies.push(TestBody::Follow(script)).ok()?;
    Some(bodies)
}

/// An engine of the system that moves is refused without a body, and with the body of another system.
pub(crate) fn refused_engines(alloc: Global) -> Option<bool> {
    let without = refusal(alloc, Vec::new(alloc))?;
    let other = refusal(alloc, turning(alloc)?)?;
    Some(without == Some(NewFault::Count) && other == Some(NewFault::Misfit(0)))
}
