// What is found of a system.

ghost use Rattle.std.specs.Prelude.{◌≡◌, ◌<◌, OnOk, length};
ghost use Rattle.kinds.specs.Kind.{kind_count};
ghost use Rattle.lints.specs.Collected.{Adds, Among};
ghost use Rattle.lints.specs.Lints.{IsOfCommands, IsOfEvent, IsOfEvents, IsOfRegister, IsOfRes, IsOfResources, IsOfSystem, event_at, has_event, has_res, is_event_twice, is_res_twice, is_unread_events, is_unread_register, is_unread_res, is_unset_register, is_unused_res_mut, is_unused_slot, is_unused_writes, is_without_command, last_slot, res_at};

use crate::adding::add_where;
use crate::blocks::add_of_blocks;
use crate::deeds::{Deed, Thing, done_by, hears};
use crate::lint::{Holder, Lint};
use crate::queries::{add_of_queries, works};
use crate::repeats::add_of_item;
use kinds::{Event, Res};
use program_file::SystemTable;
use script::Block;
use std::alloc::AllocError;

// How many registers a system has.
const REGISTERS: u32 = 8;

// Whether a resource is among some.
fn has_res(list: &[Res], res: Res) -> bool
    ensures { result ≡ has_res list.now res }
{
    list.iter().any(|own| own.number() == res.number())
}

// Whether an event kind is among some.
fn has_event(list: &[Event], event: Event) -> bool
    ensures { result ≡ has_event list.now event }
{
    list.iter().any(|own| own.number() == event.number())
}

// Whether a resource stands twice among some.
fn is_res_twice(list: &[Res], res: Res) -> bool
    ensures { result ≡ is_res_twice list.now res }
{
    1 < list
        .iter()
        .filter(|own| own.number() == res.number())
        .count()
}

// Whether an event kind stands twice among some.
fn is_event_twice(list: &[Event], event: Event) -> bool
    ensures { result ≡ is_event_twice list.now event }
{
    1 < list
        .iter()
        .filter(|own| own.number() == event.number())
        .count()
}

// Whether a resource is read, and never used.
fn is_unread_res(blocks: &[Block], list: &[Res], res: Res) -> bool
    ensures { result ≡ is_unread_res blocks.now list.now res }
{
    let deed = Deed::Uses(Thing::Resource(res));
    works(blocks) && (has_res(list, res) && !done_by(deed, blocks))
}

// Whether a resource is written, and never so.
fn is_unused_res_mut(blocks: &[Block], list: &[Res], res: Res) -> bool
    ensures { result ≡ is_unused_res_mut blocks.now list.now res }
{
    let deed = Deed::Writes(Thing::Resource(res));
    works(blocks) && (has_res(list, res) && !done_by(deed, blocks))
}

// Whether an event kind is read, and no block is for it.
fn is_unread_events(blocks: &[Block], list: &[Event], event: Event) -> bool
    ensures { result ≡ is_unread_events blocks.now list.now event }
{
    works(blocks) && (has_event(list, event) && !hears(event, blocks))
}

// Whether an event kind is written, and none is emitted.
fn is_unused_writes(blocks: &[Block], list: &[Event], event: Event) -> bool
    ensures { result ≡ is_unused_writes blocks.now list.now event }
{
    works(blocks) && (has_event(list, event) && !done_by(Deed::Emits(event), blocks))
}

// Adds what is found of a resource in a system.
fn add_of_res(
    found: &mut Vec<Lint>,
    table: &SystemTable<'_>,
    system: usize,
    res: Res,
) -> Result<(), AllocError>
    ensures { OnOk result (Adds (IsOfRes table.now system res) found.old.items found.new.items) }
{
    let blocks = table.blocks.as_slice();
    let is_unread = is_unread_res(blocks, table.res.as_slice(), res);
    let is_unused = is_unused_res_mut(blocks, table.res_mut.as_slice(), res);
    add_where(found, is_unread, Lint::UnreadRes { system, res })?;
    add_where(found, is_unused, Lint::UnusedResMut { system, res })?;
    let is_twice = is_res_twice(table.res.as_slice(), res);
    add_where(found, is_twice, Lint::RepeatedRes { system, res })?;
    Ok(())
}

// The resource of a number.
#[tactic(auto, unfolding(crate::specs::Lints::res_at))]
pub(crate) fn res_at(number: usize) -> Res
    requires { number < 8 }
    ensures { result ≡ res_at number }
{
    Res::ALL[number]
}

// The event kind of a number.
#[tactic(auto, unfolding(crate::specs::Lints::event_at))]
pub(crate) fn event_at(number: usize) -> Event
    requires { number < 4 }
    ensures { result ≡ event_at number }
{
    Event::ALL[number]
}

// Adds what is found of the resource of a number.
fn add_of_res_number(
    found: &mut Vec<Lint>,
    table: &SystemTable<'_>,
    system: usize,
    number: usize,
) -> Result<(), AllocError>
    requires { number < 8 }
    ensures { OnOk result (Adds (IsOfResources table.now system number) found.old.items
        found.new.items) }
{
    add_of_res(found, table, system, res_at(number))?;
    Ok(())
}

// Adds what is found of an event kind in a system.
fn add_of_event(
    found: &mut Vec<Lint>,
    table: &SystemTable<'_>,
    system: usize,
    event: Event,
) -> Result<(), AllocError>
    ensures { OnOk result (Adds (IsOfEvent table.now system event) found.old.items
        found.new.items) }
{
    let blocks = table.blocks.as_slice();
    let is_unread = is_unread_events(blocks, table.reads.as_slice(), event);
    let is_unused = is_unused_writes(blocks, table.writes.as_slice(), event);
    add_where(found, is_unread, Lint::UnreadEvents { system, event })?;
    add_where(found, is_unused, Lint::UnusedWrites { system, event })?;
    let is_twice = is_event_twice(table.reads.as_slice(), event);
    add_where(found, is_twice, Lint::RepeatedEvents { system, event })?;
    Ok(())
}

// Adds what is found of the event kind of a number.
fn add_of_event_number(
    found: &mut Vec<Lint>,
    table: &SystemTable<'_>,
    system: usize,
    number: usize,
) -> Result<(), AllocError>
    requires { number < 4 }
    ensures { OnOk result (Adds (IsOfEvents table.now system number) found.old.items
        found.new.items) }
{
    add_of_event(found, table, system, event_at(number))?;
    Ok(())
}

// Adds what is found of the resources of a system.
fn add_of_resources(
    found: &mut Vec<Lint>,
    table: &SystemTable<'_>,
    system: usize,
) -> Result<(), AllocError>
    ensures { OnOk result (Adds (Among 8 (IsOfResources table.now system)) found.old.items
        found.new.items) }
{
    for number in 0..Res::COUNT {
        add_of_res_number(found, table, system, number)?;
    }
    Ok(())
}

// Adds what is found of the event kinds of a system.
fn add_of_events(
    found: &mut Vec<Lint>,
    table: &SystemTable<'_>,
    system: usize,
) -> Result<(), AllocError>
    ensures { OnOk result (Adds (Among 4 (IsOfEvents table.now system)) found.old.items
        found.new.items) }
{
    for number in 0..Event::COUNT {
        add_of_event_number(found, table, system, number)?;
    }
    Ok(())
}

// Whether there are Commands, and none is issued.
fn is_without_command(blocks: &[Block], spawns: Option<u32>) -> bool
    ensures { result ≡ is_without_command blocks.now spawns }
{
    spawns.is_some() && (works(blocks) && !done_by(Deed::Commands, blocks))
}

// The last id of those that are granted.
fn last_slot(spawns: Option<u32>) -> u32
    ensures { result ≡ last_slot spawns }
{
    spawns.unwrap_or(0).saturating_sub(1)
}

// Whether some are issued, and none names the last id that is granted.
fn is_unused_slot(blocks: &[Block], spawns: Option<u32>) -> bool
    ensures { result ≡ is_unused_slot blocks.now spawns }
{
    let deed = Deed::OfSlot(last_slot(spawns));
    0 < spawns.unwrap_or(0) && (done_by(Deed::Commands, blocks) && !done_by(deed, blocks))
}

// Adds what is found of the commands of a system.
fn add_of_commands(
    found: &mut Vec<Lint>,
    blocks: &[Block],
    spawns: Option<u32>,
    system: usize,
) -> Result<(), AllocError>
    ensures { OnOk result (Adds (IsOfCommands blocks.now spawns system) found.old.items
        found.new.items) }
{
    let slot = last_slot(spawns);
    let is_without = is_without_command(blocks, spawns);
    let is_unused = is_unused_slot(blocks, spawns);
    add_where(found, is_without, Lint::NoCommand { system })?;
    add_where(found, is_unused, Lint::UnusedSlot { system, slot })?;
    Ok(())
}

// Whether a register is read, and never written.
fn is_unset_register(blocks: &[Block], register: u32) -> bool
    ensures { result ≡ is_unset_register blocks.now register }
{
    let thing = Thing::Register(register);
    done_by(Deed::Reads(thing), blocks) && !done_by(Deed::Writes(thing), blocks)
}

// Whether a register is written, and never read.
fn is_unread_register(blocks: &[Block], register: u32) -> bool
    ensures { result ≡ is_unread_register blocks.now register }
{
    let thing = Thing::Register(register);
    done_by(Deed::Writes(thing), blocks) && !done_by(Deed::Reads(thing), blocks)
}

// Adds what is found of a register.
fn add_of_register(
    found: &mut Vec<Lint>,
    blocks: &[Block],
    system: usize,
    register: u32,
) -> Result<(), AllocError>
    ensures { OnOk result (Adds (IsOfRegister blocks.now system register) found.old.items
        found.new.items) }
{
    let is_unset = is_unset_register(blocks, register);
    let is_unread = is_unread_register(blocks, register);
    add_where(found, is_unset, Lint::UnsetRegister { system, register })?;
    add_where(found, is_unread, Lint::UnreadRegister { system, register })?;
    Ok(())
}

// Adds what is found of the registers of a system.
fn add_of_registers(
    found: &mut Vec<Lint>,
    blocks: &[Block],
    system: usize,
) -> Result<(), AllocError>
    ensures { OnOk result (Adds (Among 8 (IsOfRegister blocks.now system)) found.old.items
        found.new.items) }
{
    for register in 0..REGISTERS {
        add_of_register(found, blocks, system, register)?;
    }
    Ok(())
}

// Adds what is found of a system, of which each kind that is on some entity is known.
pub(crate) fn add_of_system(
    found: &mut Vec<Lint>,
    table: &SystemTable<'_>,
    system: usize,
    present: &[bool],
) -> Result<(), AllocError>
    requires { length present.now ≡ kind_count }
    ensures { OnOk result (Adds (IsOfSystem present.now table.now system) found.old.items
        found.new.items) }
{
    let blocks = table.blocks.as_slice();
    add_of_queries(found, blocks, table.queries.as_slice(), system, present)?;
    add_of_resources(found, table, system)?;
    add_of_events(found, table, system)?;
    add_of_commands(found, blocks, table.spawns, system)?;
    add_of_blocks(found, blocks, system)?;
    add_of_registers(found, blocks, system)?;
    add_of_item(found, &table.item, Holder::System(system))?;
    Ok(())
}
