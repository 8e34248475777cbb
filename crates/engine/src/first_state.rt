// The memories of a schedule: whether a state has them, and those with which it begins.

ghost use Rattle.std.specs.Prelude.{◌≡◌, ◌<◌, ◌≢◌, ℕ, length, map, IfOk, MatchBool};
ghost use Rattle.archetype_store.specs.Layout.{AreAllHome};
ghost use Rattle.model.specs.runs.RunState.{memory_of_condition, memory_of_system};
ghost use Rattle.model.specs.steps.Schedule.{access_of, params_of};
ghost use Rattle.engine.specs.FirstState.{first_conditions, first_state, first_systems};
ghost use Rattle.engine.specs.Meanings.{HasMemories, LacksMemories};

use crate::shapes::keep_shapes;
use archetype_store::World;
use body::{Memories, Memory, State};
use event_buffers::Events;
use schedule_builder::Built;
use std::alloc::{AllocError, Global};

/// The state of a world in which nothing was run, asked or sent, for the systems and conditions of a schedule. Fails only for a failed allocation.
pub fn first_state(alloc: Global, built: &Built, world: World) -> Result<State, AllocError>
    requires { AreAllHome world.layout }
    ensures { IfOk result (λ state. state ≡ first_state built.now world.state) }
{
    let systems = systems_of(alloc, built)?;
    let conditions = conditions_of(alloc, built)?;
    let mut state = State::new(
        world,
        Events::new(alloc),
        Memories {
            systems,
            conditions,
        },
    );
    keep_shapes(built, &mut state)?;
    Ok(state)
}

// The memories of the systems of a schedule that never ran.
fn systems_of(alloc: Global, built: &Built) -> Result<Vec<Memory>, AllocError>
    ensures { IfOk result (λ memories. memories.items ≡ first_systems built.now) }
{
    let mut memories = Vec::with_capacity(alloc, built.systems().len())?;
    for system in built.systems() {
        memories.push(Memory::with_readers(alloc, system.params().reads())?)?;
    }
    Ok(memories)
}

// The memories of the conditions of a schedule that were never asked.
fn conditions_of(alloc: Global, built: &Built) -> Result<Vec<Memory>, AllocError>
    ensures { IfOk result (λ memories. memories.items ≡ first_conditions built.now) }
{
    let mut memories = Vec::with_capacity(alloc, built.conditions().len())?;
    for condition in built.conditions() {
        memories.push(Memory::with_readers(alloc, condition.access().reads())?)?;
    }
    Ok(memories)
}

/// Whether a state lacks memories of a schedule.
pub(crate) fn lacks_memories(built: &Built, state: &State) -> bool
    ensures { MatchBool result (LacksMemories built.now state.now) (HasMemories built.now
        state.now) }
{
    if has_memories(built, state) {
        return false;
    }
    true
}

// Whether a state has the memories of a schedule.
fn has_memories(built: &Built, state: &State) -> bool
    ensures { MatchBool result (HasMemories built.now state.now) (LacksMemories built.now
        state.now) }
{
    if state.systems() != built.count() as usize {
        return false;
    }
    if state.conditions() != built.condition_count() as usize {
        return false;
    }
    if !have_systems_cursors(built, state) {
        return false;
    }
    have_conditions_cursors(built, state)
}

// Whether the memory of each system has a cursor for each reader.
fn have_systems_cursors(built: &Built, state: &State) -> bool
    requires { length state.now.systems ≡ length built.now.systems }
    ensures { MatchBool result
        ((n : ℕ)
        → n < length built.now.systems
        → length (memory_of_system state.now n).cursors ≡ length (params_of built.now n).reads)
        ((n : ℕ)
        × (n < length built.now.systems)
        × (length (memory_of_system state.now n).cursors ≢ length (params_of built.now n).reads)) }
{
    for system in 0..built.count() {
        if !has_system_cursors(built, state, system) {
            return false;
        }
    }
    true
}

// Whether the memory of a system has a cursor for each reader.
fn has_system_cursors(built: &Built, state: &State, system: u32) -> bool
    requires count { length state.now.systems ≡ length built.now.systems }
    requires known { system < length built.now.systems }
    ensures { MatchBool result
        (length (memory_of_system state.now system).cursors
        ≡ length (params_of built.now system).reads)
        (length (memory_of_system state.now system).cursors
        ≢ length (params_of built.now system).reads) }
{
    let cursors = state.memory(system as usize).cursors();
    cursors.len() == built.params(system).reads().len()
}

// Whether the memory of each condition has a cursor for each reader.
fn have_conditions_cursors(built: &Built, state: &State) -> bool
    requires { length state.now.conditions ≡ length built.now.conditions }
    ensures { MatchBool result
        ((c : ℕ)
        → c < length built.now.conditions
        → length (memory_of_condition state.now c).cursors ≡ length (access_of built.now c).reads)
        ((c : ℕ)
        × (c < length built.now.conditions)
        × (length (memory_of_condition state.now c).cursors
        ≢ length (access_of built.now c).reads)) }
{
    for condition in 0..built.condition_count() {
        if !has_condition_cursors(built, state, condition) {
            return false;
        }
    }
    true
}

// Whether the memory of a condition has a cursor for each reader.
fn has_condition_cursors(built: &Built, state: &State, condition: u32) -> bool
    requires count { length state.now.conditions ≡ length built.now.conditions }
    requires known { condition < length built.now.conditions }
    ensures { MatchBool result
        (length (memory_of_condition state.now condition).cursors
        ≡ length (access_of built.now condition).reads)
        (length (memory_of_condition state.now condition).cursors
        ≢ length (access_of built.now condition).reads) }
{
    let cursors = state.memory_of_condition(condition as usize).cursors();
    cursors.len() == built.condition(condition).access().reads().len()
}
