// A state takes what a host puts in between runs.

ghost use Rattle.std.specs.Prelude.{◌≡◌, [], true, false, map, Err, IfOk, IfErr, OnOk, OnErr};
ghost use Rattle.kinds.specs.Res.{res_number, event_number};
ghost use Rattle.model.specs.sessions.Inputs.{after_input, can_input, has_room, input_id, next_id, row_at_tick};
ghost use Rattle.model.specs.sessions.Inputs.Input.{Emit, SetResource, Spawn};
ghost use Rattle.model.specs.state.Ids.{has_ids};
ghost use Rattle.model.specs.state.Commands.{apply_buffer};
ghost use Rattle.model.specs.shown.Outcome.{spawned_by};
ghost use Rattle.model.specs.runs.RunState.{has_tick, next_tick};
ghost use Rattle.archetype_store.specs.Layout.{AreAllHome};
ghost use Rattle.archetype_store.specs.Row.{component_of};
ghost use Rattle.body.specs.Inputs.{given_by, input_of, IsPutFault};
ghost use Rattle.body.specs.Steps.{target_in, ticked, with_target};

use crate::input::{Input, PutFault};
use crate::open_state::OpenState;
use archetype_store::components::put_component;
use archetype_store::fault::GrantFault;
use change_ticks::Tick;
use column_store::Components;
use command_queue::CommandBuffer;
use entity_table::Entity;
use event_buffers::SendFault;
use kinds::{Event, Res, Value};
use std::alloc::{AllocError, Global};

impl OpenState {
    /// Takes an input at the next tick, which becomes the clock, and gives the id of a new entity. `NoTick` at the
    /// last tick. Otherwise `NoEventNumber` where an event gets no number, and `NoIds` where no index is left.
    /// `Memory` where an allocation fails. After an error nothing has changed.
    pub fn input(&mut self, alloc: Global, input: &Input) -> Result<Option<Entity>, PutFault>
        requires home { AreAllHome self.old.layout }
        ensures can { OnOk result (can_input (input_of input.now) self.old.state ≡ true) }
        ensures id { IfOk result (λ id. id ≡ input_id (input_of input.now) self.old.state) }
        ensures state { OnOk result (self.new.state
            ≡ after_input (input_of input.now) self.old.state) }
        ensures home { AreAllHome self.new.layout }
        ensures refused { IfErr result (IsPutFault (input_of input.now) self.old.state) }
        ensures err { OnErr result (self.new ≡ self.old) }
    {
        let tick = self.coming()?;
        let mut buffer = CommandBuffer::new(alloc);
        match input {
            Input::SetResource(res, value) => {
                self.set_resource(*res, *value);
                return Ok(None);
            }
            Input::Emit(event, value) => {
                self.emit(*event, *value)?;
                return Ok(None);
            }
            Input::Spawn(values) => {
                let entity = self.spawn(alloc, values, tick)?;
                return Ok(Some(entity));
            }
            Input::Insert(entity, value) => buffer.insert_value(*entity, *value)?,
            Input::Remove(entity, kind) => buffer.remove(*entity, *kind)?,
            Input::Despawn(entity) => buffer.despawn(*entity)?,
        }
        self.command(alloc, buffer)?;
        Ok(None)
    }

    // A resource gets a value at the next tick.
    fn set_resource(&mut self, res: Res, value: i64)
        requires { has_tick self.old.state ≡ true }
        ensures state { self.new.state
            ≡ after_input (SetResource (res_number res) value) self.old.state }
        ensures layout { self.new.layout ≡ self.old.layout }
    {
        let Ok(tick) = self.next() else {
            unreachable!()
        };
        self.world.set_res(res, value, tick);
    }

    // An event is sent, and the next tick becomes the clock.
    fn emit(&mut self, event: Event, value: i64) -> Result<(), SendFault>
        requires { has_tick self.old.state ≡ true }
        ensures state { OnOk result (self.new.state
            ≡ after_input (Emit (event_number event) value) self.old.state) }
        ensures room { OnOk result (has_room (Emit (event_number event) value) self.old.state
            ≡ true) }
        ensures spent { result ≡ Err SendFault.NumbersSpent
            → has_room (Emit (event_number event) value) self.old.state ≡ false }
        ensures layout { self.new.layout ≡ self.old.layout }
        ensures err { OnErr result (self.new ≡ self.old) }
    {
        // Tells that no number is above the last one.
        let _next = self.events.next(event);
        self.events.send(event, value)?;
        let Ok(_) = self.next() else { unreachable!() };
        Ok(())
    }

    // A new entity lives from the next tick on, which is this one.
    fn spawn(&mut self, alloc: Global, values: &[Value], tick: Tick) -> Result<Entity, GrantFault>
        requires has { has_tick self.old.state ≡ true }
        requires tick { tick ≡ next_tick self.old.state }
        requires home { AreAllHome self.old.layout }
        ensures id { IfOk result (λ e. e ≡ next_id self.old.state.world.slots) }
        ensures state { OnOk result (self.new.state
            ≡ after_input (Spawn (map given_by values.now)) self.old.state) }
        ensures room { OnOk result (has_ids 1 self.old.state.world.slots ≡ true) }
        ensures spent { result ≡ Err GrantFault.IdsSpent
            → has_ids 1 self.old.state.world.slots ≡ false }
        ensures home { AreAllHome self.new.layout }
        ensures err { OnErr result (self.new ≡ self.old) }
    {
        // Tells that the world is one.
        let _now = self.world.now();
        let row = row_at(alloc, values, tick)?;
        let Ok(_) = self.next() else { unreachable!() };
        self.plans.clear();
        match self.world.spawn(alloc, row) {
            Ok(entity) => {
                self.plans.forget(&self.world);
                self.room.forget();
                Ok(entity)
            }
            Err(fault) => {
                self.world.give_back_tick();
                Err(fault)
            }
        }
    }

    // The commands of a buffer, of which none spawns, are done at the next tick, which becomes the clock.
    fn command(&mut self, alloc: Global, buffer: CommandBuffer) -> Result<(), AllocError>
        requires has { has_tick self.old.state ≡ true }
        requires home { AreAllHome self.old.layout }
        requires none { spawned_by buffer ≡ [] }
        ensures state { OnOk result (self.new.state
            ≡ with_target
            (apply_buffer (next_tick self.old.state) (target_in self.old.state) buffer)
            (ticked self.old.state)) }
        ensures home { AreAllHome self.new.layout }
        ensures err { OnErr result (self.new ≡ self.old) }
    {
        // Tells that the world is one.
        let _now = self.world.now();
        let Ok(tick) = self.next() else {
            unreachable!()
        };
        match self.apply(alloc, &[buffer], &[0], tick) {
            Ok(()) => Ok(()),
            Err(fault) => {
                self.world.give_back_tick();
                Err(fault)
            }
        }
    }
}

// The row of a new entity: these components, inserted at a tick one after the other.
fn row_at(alloc: Global, values: &[Value], tick: Tick) -> Result<Components, AllocError>
    ensures { IfOk result (λ row. map component_of row.items
        ≡ row_at_tick tick (map given_by values.now)) }
{
    let mut row = Components::with_capacity(alloc, values.len())?;
    for value in values {
        put_component(&mut row, *value, tick)?;
    }
    Ok(row)
}
