// The state of an engine: the world, the kept events, and what systems and conditions remember.

ghost use Rattle.std.specs.Prelude.{◌≡◌, ◌<◌, ◌≤◌, [], true, length, replicate, get_or, IfErr, IfOk, OnErr, OnOk};
ghost use Rattle.model.specs.sessions.Inputs.{after_input, can_input, input_id};
ghost use Rattle.model.specs.state.State.{most_passed_over, no_memory, event_count, empty_queue};
ghost use Rattle.archetype_store.specs.Layout.{AreAllHome};
ghost use Rattle.archetype_store.specs.Store.{empty_world};
ghost use Rattle.body.specs.Inputs.{input_of, IsPutFault};
ghost use Rattle.body.specs.Steps.{AreInTime, HasShape, counted_state, state_of};

use crate::input::{Input, PutFault};
use crate::memory::{Memory, copied_memories};
use crate::open_state::OpenState;
use crate::plans::Plans;
use crate::room::Room;
use archetype_store::World;
use change_ticks::Clock;
use entity_table::Entity;
use event_buffers::Events;
use query::Query;
use query_plan::shape_of;
use std::alloc::{AllocError, Global};
use std::marker::Model;

/// The memories of a schedule: of its systems, and of its conditions, each by number.
#[derive(Drop)]
pub struct Memories {
    /// Those of the systems.
    pub systems: Vec<Memory>,
    /// Those of the conditions.
    pub conditions: Vec<Memory>,
}

/// The state of an engine. Contracts see the state that the definitions speak of. No last run is above the
/// clock, each memory has its registers, and all columns are at home.
pub struct State {
    pub(crate) open: OpenState,
}

// One function drops it wherever it is let go.
impl Drop for State {
    fn drop(self) {
        let State { open: _ } = self;
    }
}

impl Model for State {
    ghost use Rattle.model.specs.state.State.{State as ModelState};
    ghost use Rattle.archetype_store.specs.Layout.{AreAllHome};

    ghost Value = { ModelState };

    ghost view = { λ s. s.open.state };

    ghost invariant = { λ s. AreAllHome s.open.layout };
}

impl State {
    /// The state of a world without entities, for no system. Allocates nothing.
    pub fn empty(alloc: Global) -> Self
        ensures { result ≡ state_of (empty_world 1) (replicate event_count empty_queue) [] [] }
    {
        let world = World::empty(alloc, Clock::at(1));
        let plans = Plans::none(alloc, &world);
        State {
            open: OpenState {
                world,
                events: Events::new(alloc),
                systems: Vec::new(alloc),
                conditions: Vec::new(alloc),
                passed_over: 0,
                room: Room::new(alloc),
                plans,
            },
        }
    }

    /// The state of a world with these events and memories, with nothing skipped.
    pub fn new(world: World, events: Events, memories: Memories) -> Self
        requires last_runs { AreInTime world.state.clock memories.systems.items
            memories.conditions.items }
        requires home { AreAllHome world.layout }
        ensures { result
            ≡ state_of world.state events memories.systems.items memories.conditions.items }
    {
        State::counted(world, events, memories, 0)
    }

    /// The same, with this count of skipped commands.
    pub fn counted(world: World, events: Events, memories: Memories, passed_over: u64) -> Self
        requires last_runs { AreInTime world.state.clock memories.systems.items
            memories.conditions.items }
        requires few { passed_over ≤ most_passed_over }
        requires home { AreAllHome world.layout }
        ensures { result ≡ counted_state world.state events memories.systems.items
            memories.conditions.items passed_over }
    {
        let Memories {
            systems,
            conditions,
        } = memories;
        let alloc = *systems.allocator();
        let room = Room::new(alloc);
        let plans = Plans::none(alloc, &world);
        State {
            open: OpenState {
                world,
                events,
                systems,
                conditions,
                passed_over,
                room,
                plans,
            },
        }
    }

    /// The same state once more: the world, the kept events, the memories and the count of skipped commands. The copy
    /// shares nothing with this one, so that a later write to one of the two leaves the other as it is. Where an
    /// allocation fails there is no copy.
    pub fn copy(&self, alloc: Global) -> Result<Self, AllocError>
        ensures { IfOk result (λ copy. copy ≡ self.now) }
    {
        let open = &self.open;
        let world = open.world.copy(alloc)?;
        let events = open.events.copy(alloc)?;
        let systems = copied_memories(alloc, &open.systems)?;
        let conditions = copied_memories(alloc, &open.conditions)?;
        let plans = Plans::none(alloc, &world);
        Ok(State {
            open: OpenState {
                world,
                events,
                systems,
                conditions,
                passed_over: open.passed_over,
                room: Room::new(alloc),
                plans,
            },
        })
    }

    /// The state to be run: while it is, its columns may leave it.
    pub fn into_open(self) -> OpenState
        ensures state { result.state ≡ self }
        ensures home { AreAllHome result.layout }
    {
        let State { open } = self;
        open
    }

    /// Takes an input at the next tick, which becomes the clock, and gives the id of a new entity. `NoTick` at the
    /// last tick. Otherwise `NoEventNumber` where an event gets no number, and `NoIds` where no index is left.
    /// `Memory` where an allocation fails. After an error nothing has changed.
    pub fn input(&mut self, alloc: Global, input: &Input) -> Result<Option<Entity>, PutFault>
        ensures can { OnOk result (can_input (input_of input.now) self.old ≡ true) }
        ensures id { IfOk result (λ id. id ≡ input_id (input_of input.now) self.old) }
        ensures state { OnOk result (self.new ≡ after_input (input_of input.now) self.old) }
        ensures refused { IfErr result (IsPutFault (input_of input.now) self.old) }
        ensures err { OnErr result (self.new ≡ self.old) }
    {
        self.open.input(alloc, input)
    }

    /// Keeps the shape of a query: from now on its plans look at the archetypes that fit it alone. Nothing that contracts see changes.
    pub fn keep_shape(&mut self, query: &Query) -> Result<(), AllocError>
        ensures { self.new ≡ self.old }
    {
        self.open.world.register(&shape_of(query))?;
        Ok(())
    }

    /// What holds of every state, whatever the schedule.
    pub fn prove_shape(&self)
        ensures { HasShape self.now }
    {
        self.open.prove_shape();
    }

    /// The world.
    pub fn world(&self) -> &World
        ensures world { result.now.state ≡ self.now.world }
        ensures home { AreAllHome result.now.layout }
    {
        &self.open.world
    }

    /// The kept events.
    pub fn events(&self) -> &Events
        ensures { result.now ≡ self.now.events }
    {
        &self.open.events
    }

    /// How many systems there are.
    pub fn systems(&self) -> usize
        ensures { result ≡ length self.now.systems }
    {
        self.open.systems.len()
    }

    /// How many conditions there are.
    pub fn conditions(&self) -> usize
        ensures { result ≡ length self.now.conditions }
    {
        self.open.conditions.len()
    }

    /// How many commands were skipped, at most 2^62.
    pub fn passed_over(&self) -> u64
        ensures { result ≡ self.now.passed_over }
    {
        self.open.passed_over
    }

    /// What a system remembers.
    pub fn memory(&self, system: usize) -> &Memory
        requires { system < length self.now.systems }
        ensures { result.now ≡ get_or self.now.systems system no_memory }
    {
        &self.open.systems[system]
    }

    /// What a condition remembers.
    pub fn memory_of_condition(&self, condition: usize) -> &Memory
        requires { condition < length self.now.conditions }
        ensures { result.now ≡ get_or self.now.conditions condition no_memory }
    {
        &self.open.conditions[condition]
    }
}
