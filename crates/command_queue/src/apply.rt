// Commands are done in the world.

ghost use Rattle.std.specs.Prelude.{◌≡◌, ◌≤◌, ◌<◌, [], length, All, IfOk, OnOk, OnErr};
ghost use Rattle.model.specs.state.Commands.{apply_buffer};
ghost use Rattle.model.specs.shown.Outcome.{spawned_by};
ghost use Rattle.entity_table.specs.Ids.{IsGranted, AreApart};
ghost use Rattle.archetype_store.specs.Store.{with_slots};
ghost use Rattle.archetype_store.specs.Layout.{AreAllHome};
ghost use Rattle.command_queue.specs.Commands.{commands_of};
ghost use Rattle.command_queue.specs.Pending.{IsPending, target_of, CanSpawn};

use crate::buffer::CommandBuffer;
use crate::pending::Pending;
use archetype_store::{EntityChange, World};
use change_ticks::Tick;
use std::alloc::{AllocError, Global};

// How many commands these buffers have.
fn command_count(buffers: &[CommandBuffer], order: &[u32]) -> usize
    requires { All (λ n. n < length buffers.now) order.now }
{
    let mut count: usize = 0;
    for number in order {
        count = count.saturating_add(buffers[*number as usize].commands().len());
    }
    count
}

// What these buffers make of a world, which stays as it is. Changes stand in the room of this list.
fn gather(
    alloc: Global,
    world: &World,
    list: Vec<EntityChange>,
    buffers: &[CommandBuffer],
    order: &[u32],
    tick: Tick,
) -> Result<Pending, AllocError>
    requires empty { list.items ≡ [] }
    requires past { tick ≤ world.now.state.clock }
    requires home { AreAllHome world.now.layout }
    requires known { All (λ n. n < length buffers.now) order.now }
    requires spawns { CanSpawn world.now.state.slots (spawned_by (commands_of buffers.now
        order.now)) }
    ensures pending { IfOk result (IsPending world.now.state) }
    ensures done { IfOk result (λ pending. target_of world.now.state pending
        ≡ apply_buffer tick (record { slots = world.now.state.slots; passed_over = 0 })
        (commands_of buffers.now order.now)) }
{
    let mut pending = Pending::new(list, command_count(buffers, order))?;
    for number in order {
        let commands = buffers[*number as usize].commands();
        pending.buffer(alloc, world, commands, tick)?;
    }
    Ok(pending)
}

/// Does the commands of the buffers of these numbers at a tick: one buffer after the other, each in its order of issue. An entity that several
/// commands change is moved once. The number of commands that were skipped, cut at 2^62. Where an allocation fails nothing has changed.
pub fn apply(
    alloc: Global,
    world: &mut World,
    buffers: &[CommandBuffer],
    order: &[u32],
    tick: Tick,
) -> Result<u64, AllocError>
    requires past { tick ≤ world.old.state.clock }
    requires home { AreAllHome world.old.layout }
    requires known { All (λ n. n < length buffers.now) order.now }
    requires granted { All (IsGranted world.old.state.slots) (spawned_by (commands_of buffers.now
        order.now)) }
    requires apart { AreApart (spawned_by (commands_of buffers.now order.now)) }
    ensures applied { IfOk result
        (λ passed. record { slots = world.new.state.slots; passed_over = passed }
        ≡ apply_buffer tick (record { slots = world.old.state.slots; passed_over = 0 })
        (commands_of buffers.now order.now)) }
    ensures kept { OnOk result (world.new.state
        ≡ with_slots (λ _. world.new.state.slots) world.old.state) }
    ensures err { OnErr result (world.new ≡ world.old) }
    ensures home { AreAllHome world.new.layout }
{
    let list = world.take_change_list(alloc);
    let pending = gather(alloc, world, list, buffers, order, tick)?;
    world.change(&pending.changes)?;
    let passed_over = pending.passed_over;
    world.keep_change_list(pending.changes);
    Ok(passed_over)
}
