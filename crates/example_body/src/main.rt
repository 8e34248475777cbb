// A program with a body of its own that runs on threads: two systems that meet in no entity, in four runs.
#![tactic(auto)]

ghost use Rattle.std.specs.Prelude.{IfSome, ◌≤◌};
ghost use Rattle.archetype_store.specs.Layout.{AreAllHome};

use access_set::Params;
use archetype_store::World;
use change_ticks::Clock;
use drift::Drift;
use engine::Engine;
use engine::first_state::first_state;
use entity_table::Entity;
use kinds::Kind;
use kinds::component::{Position, Team, Velocity};
use query::{Query, Term};
use schedule_builder::builder::build;
use schedule_builder::{Built, ScheduleDesc, SystemDesc};
use std::alloc::Global;
use std::process::ExitCode;
use streams::writing::write_whole;
use threads::text_after;

mod drift;
mod threads;

// How often the schedule runs.
const RUNS: u32 = 4;

// What a system is shown: the position and the velocity of each entity that has both and passes the filter, the position to be written.
fn params(alloc: Global, filter: Term) -> Option<Params> {
    let terms = [
        Term::Mut(Kind::Position),
        Term::Read(Kind::Velocity),
        filter,
    ];
    let mut params = Params::new(alloc);
    params.add_query(Query::of_terms(alloc, &terms).ok()?).ok()?;
    Some(params)
}

// The schedule: a system for those in a team and one for all others. No entity is in both, so the two may run at once.
fn schedule(alloc: Global) -> Option<Built> {
    let mut desc = ScheduleDesc::new(alloc);
    for (name, filter) in [
        ("teams", Term::With(Kind::Team)),
        ("others", Term::Without(Kind::Team)),
    ] {
        let name = String::from_str(alloc, name).ok()?;
        desc.add_system(SystemDesc::new(alloc, name, params(alloc, filter)?))
            .ok()?;
    }
    build(alloc, desc).ok()
}

// Spawns an entity at a place, loaded at tick 1.
fn spawn(alloc: Global, world: &mut World, place: Position) -> Option<Entity>
    requires home { AreAllHome world.old.layout }
    requires past { 1 ≤ world.old.state.clock }
    ensures home { AreAllHome world.new.layout }
    ensures past { 1 ≤ world.new.state.clock }
{
    let granted = world.grant(alloc, 1).ok()?;
    let entity = *granted.first()?;
    world.spawn_at(entity);
    world.insert(entity, place, 1).ok()?;
    Some(entity)
}

// Three entities: one in a team, and two in none, of which the last doesn't move.
fn world(alloc: Global) -> Option<World>
    ensures { IfSome result (λ world. AreAllHome world.layout) }
{
    let mut world = World::new(alloc, Clock::at(1)).ok()?;
    let one = spawn(alloc, &mut world, Position { x: 0, y: 0 })?;
    world.insert(one, Velocity { x: 1, y: -2 }, 1).ok()?;
    world.insert(one, Team { v: 7 }, 1).ok()?;
    let two = spawn(alloc, &mut world, Position { x: 10, y: 20 })?;
    world.insert(two, Velocity { x: -3, y: 4 }, 1).ok()?;
    let _three = spawn(alloc, &mut world, Position { x: 5, y: 5 })?;
    Some(world)
}

// The engine: the schedule, the body of each system, and the world.
fn engine(alloc: Global) -> Option<Engine<Drift>> {
    let mut bodies = Vec::new(alloc);
    bodies.push(Drift).ok()?;
    bodies.push(Drift).ok()?;
    let built = schedule(alloc)?;
    let state = first_state(alloc, &built, world(alloc)?).ok()?;
    Engine::new(alloc, built, bodies, state).ok()
}

fn main(rt: HostRuntime) -> ExitCode {
    let Some(engine) = engine(rt.alloc()) else {
        return ExitCode::FAILURE;
    };
    match text_after(rt, rt.alloc(), engine, RUNS) {
        Some(text) if write_whole(&mut rt.stdout(), text.as_str()).is_ok() => ExitCode::SUCCESS,
        _ => ExitCode::FAILURE,
    }
}
