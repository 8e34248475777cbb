// What a host puts into an engine between runs, and states that it sets.

ghost use Rattle.std.specs.Prelude.{};

use crate::tests::engines::TestEngine;
use crate::tests::moving::{moving, position};
use crate::tests::runs::Way;
use crate::tests::worlds::{FIRST, component_of};
use body::{Input, State};
use change_ticks::Clock;
use change_ticks::clock::LAST_TICK;
use engine::{InputFault, RunFault, SetFault};
use entity_table::Entity;
use kinds::component::{Health, Position};
use kinds::{Component, Event, Kind, Res, Value};
use std::alloc::Global;

// The second entity of a world, and a third at its index.
const SECOND: Entity = Entity {
    index: 1,
    generation: 1,
};

const THIRD: Entity = Entity {
    index: 1,
    generation: 2,
};

// A health of nine.
const NINE: Health = Health { v: 9 };

// An engine that a host drives, and whether each input that was refused left it as it was.
#[derive(Drop)]
struct Host {
    engine: TestEngine,
    is_kept: bool,
}

impl Host {
    // The system that moves, from tick 1 on.
    fn new(alloc: Global) -> Option<Host> {
        let engine = moving(alloc, Clock::at(1))?;
        Some(Host {
            engine,
            is_kept: true,
        })
    }

    // What inputs of these tests change: the clock, the number of indices, and that of the next hit.
    fn counts(&self) -> (u64, u32, u64) {
        let state = self.engine.state();
        let world = state.world();
        (
            world.now(),
            world.slot_count(),
            state.events().next(Event::Hit),
        )
    }

    // Puts an input in, once more where an allocation fails. The id that it gives.
    fn put(&mut self, alloc: Global, input: &Input) -> Option<Option<Entity>> {
        let before = self.counts();
        if let Ok(id) = self.engine.input(alloc, input) {
            return Some(id);
        }
        self.is_kept = self.is_kept && self.counts() == before;
        self.engine.input(alloc, input).ok()
    }

    // Puts an input in that gives no id.
    fn put_only(&mut self, alloc: Global, input: &Input) -> Option<()> {
        match self.put(alloc, input)? {
            None => Some(()),
            Some(_) => None,
        }
    }

    // Spawns an entity with a health.
    fn spawn(&mut self, alloc: Global) -> Option<Entity> {
        let mut values: Vec<Value> = Vec::new(alloc);
        values.push(NINE.into_value()).ok()?;
        self.put(alloc, &Input::Spawn(values))?
    }

    // The health of the second entity.
    fn health(&self) -> Option<Health> {
        component_of::<Health>(self.engine.state().world(), SECOND)
    }
}

/// Each input takes a tick, and is seen at once: a value, an event, an entity that comes, changes and goes, and an index that comes back.
pub(crate) fn inputs(alloc: Global) -> Option<bool> {
    let mut host = Host::new(alloc)?;
    host.put_only(alloc, &Input::SetResource(Res::Round, 4))?;
    host.put_only(alloc, &Input::Emit(Event::Hit, 7))?;
    let comes = host.spawn(alloc)? == SECOND && host.health() == Some(NINE);
    host.put_only(alloc, &Input::Remove(SECOND, Kind::Health))?;
    let loses = host.health() == None;
    host.put_only(alloc, &Input::Despawn(SECOND))?;
    host.put_only(alloc, &Input::Despawn(SECOND))?;
    let comes_back = host.spawn(alloc)? == THIRD;
    let state = host.engine.state();
    let is_seen = state.world().res(Res::Round) == 4 && state.passed_over() == 1;
    Some(host.is_kept && comes && loses && comes_back && is_seen && host.counts() == (8, 2, 1))
}

/// A run moves an entity from where an input put it.
pub(crate) fn moved_from_input(alloc: Global) -> Option<bool> {
    let mut host = Host::new(alloc)?;
    let place = Position { x: 5, y: 5 };
    host.put_only(alloc, &Input::Insert(FIRST, place.into_value()))?;
    let has_run = Way::Plain.run(&mut host.engine, alloc, 1) == None;
    let is_moved = position(host.engine.state()) == Some(Position { x: 6, y: 3 });
    Some(has_run && is_moved)
}

/// At the last tick an input is refused, and leaves the engine as it was.
pub(crate) fn refused_input(alloc: Global) -> Option<bool> {
    let mut engine = moving(alloc, Clock::at(LAST_TICK))?;
    let fault = engine.input(alloc, &Input::Despawn(FIRST)).err();
    let stays = engine.state().world().lives(FIRST) && !engine.is_spoiled();
    Some(fault == Some(InputFault::ClockSpent) && stays)
}

/// A state that is set mends an engine that is spoiled, which takes no input until then.
pub(crate) fn mended(alloc: Global) -> Option<bool> {
    let mut engine = moving(alloc, Clock::at(LAST_TICK - 6))?;
    let mark = engine.state().copy(alloc).ok()?;
    let stops = Way::Plain.run(&mut engine, alloc, 3) == Some(RunFault::ClockSpent);
    let is_refused = engine.input(alloc, &Input::Despawn(FIRST)) == Err(InputFault::Spoiled);
    let is_other = engine.set_state(alloc, State::empty(alloc)) == Err(SetFault::Count);
    engine.set_state(alloc, mark).ok()?;
    let goes_on = Way::Plain.run(&mut engine, alloc, 2) == None;
    let is_moved = position(engine.state()) == Some(Position { x: 2, y: -4 });
    Some(stops && is_refused && is_other && goes_on && is_moved)
}
