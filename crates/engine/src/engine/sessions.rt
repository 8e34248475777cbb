// What a host does with an engine between runs: it puts something in, or sets another state.

ghost use Rattle.std.specs.Prelude.{◌≡◌, ◌↔◌, false, IfErr, IfOk, IsErrOf, IsTrue, MatchBool, true, OnErr, OnOk};
ghost use Rattle.model.specs.sessions.Inputs.{after_input, can_input, input_id};
ghost use Rattle.body.specs.Inputs.{input_of};
ghost use Rattle.engine.specs.EngineValue.{mended_with, with_state};
ghost use Rattle.engine.specs.Inputs.{IsInputFault};
ghost use Rattle.engine.specs.Meanings.{AreFit, LacksMemories, meanings, AllKeepWithin};

use crate::deferred::Deferred;
use crate::engine::Engine;
use crate::faults::{InputFault, SetFault};
use crate::first_state::lacks_memories;
use crate::shapes::keep_shapes;
use body::{Body, Input, State};
use entity_table::Entity;
use std::alloc::Global;
use std::mem;

impl<B: Body> Engine<B> {
    /// Puts an input in between runs, at the next tick, and gives the id of a new entity. `ClockSpent` where there is
    /// no next tick, or no next number for an event, and `IdsSpent` where no index is left. `Memory` where an
    /// allocation fails, `Spoiled` on an engine that is spoiled. After an error nothing has changed.
    pub fn input(&mut self, alloc: Global, input: &Input) -> Result<Option<Entity>, InputFault>
        ensures can { OnOk result (can_input (input_of input.now) self.old.state ≡ true) }
        ensures id { IfOk result (λ id. id ≡ input_id (input_of input.now) self.old.state) }
        ensures taken { OnOk result (self.new
            ≡ with_state (after_input (input_of input.now) self.old.state) self.old) }
        ensures refused { IfErr result (IsInputFault (input_of input.now) self.old.state) }
        ensures spoiled { IsErrOf result InputFault.Spoiled ↔ IsTrue self.old.spoiled }
        ensures err { OnErr result (self.new ≡ self.old) }
    {
        if self.spoiled {
            return Err(InputFault::Spoiled);
        }
        Ok(self.state.input(alloc, input)?)
    }

    /// Sets another state, also on an engine that is spoiled, which is mended by it. `Count` where the state doesn't
    /// have the memories of the schedule. Otherwise `Bodies` where a body was lost with its thread. `Memory` where an
    /// allocation fails. After an error nothing has changed, and the state that was handed in is dropped.
    pub fn set_state(&mut self, alloc: Global, state: State) -> Result<(), SetFault>
        ensures ok { OnOk result (self.new ≡ mended_with state self.old) }
        ensures count { IsErrOf result SetFault.Count ↔ LacksMemories self.old.schedule state }
        ensures bodies { IsErrOf result SetFault.Bodies
            ↔ ((LacksMemories self.old.schedule state → ⊥)
            × (AreFit B.fits self.old.schedule self.old.bodies → ⊥)) }
        ensures err { OnErr result (self.new ≡ self.old) }
    {
        if lacks_memories(&self.built, &state) {
            return Err(SetFault::Count);
        }
        if !self.has_bodies() {
            return Err(SetFault::Bodies);
        }
        let deferred = Deferred::new(alloc, &self.built)?;
        let mut state = state;
        keep_shapes(&self.built, &mut state)?;
        self.state = state;
        self.deferred = deferred;
        self.spoiled = false;
        Ok(())
    }

    /// Takes the state out of an engine that isn't spoiled. The engine is spoiled then, until another state is set.
    pub fn take_state(&mut self, alloc: Global) -> State
        requires { self.old.spoiled ≡ false }
        ensures state { result ≡ self.old.state }
        ensures spoiled { self.new.spoiled ≡ true }
        ensures schedule { self.new.schedule ≡ self.old.schedule }
        ensures bodies { self.new.bodies ≡ self.old.bodies }
    {
        self.spoiled = true;
        mem::replace(&mut self.state, State::empty(alloc))
    }

    /// Ends the engine, and gives its state. If the engine is spoiled nothing more is said of the state.
    pub fn into_state(self) -> State
        ensures { result ≡ self.state }
    {
        let Engine {
            built: _built,
            bodies: _bodies,
            state,
            deferred: _deferred,
            resting: _resting,
            spoiled: _,
        } = self;
        state
    }

    // Whether each system has its body, which fits it: so it is unless a run stopped. If so, they keep within their parameters.
    fn has_bodies(&self) -> bool
        ensures fit { MatchBool result (AreFit B.fits self.now.schedule self.now.bodies) (AreFit
            B.fits self.now.schedule self.now.bodies
            → ⊥) }
        ensures keep { IsTrue result
            → AllKeepWithin self.now.schedule (meanings B.meaning self.now.schedule
            self.now.bodies) }
    {
        if !self.spoiled {
            return true;
        }
        self.bodies.all_fit(&self.built)
    }
}
