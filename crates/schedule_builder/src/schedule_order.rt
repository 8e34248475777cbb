// The schedule order: always the least system whose predecessors are all placed.

ghost use Rattle.std.specs.Prelude.{◌≡◌, ℕ, ◌<◌, ◌≤◌, ◌^◌, true, false, length, map, get_or, IfOk, IfSome, IfNone};
ghost use Rattle.std.specs.List.{All, list_all};
ghost use Rattle.model.specs.steps.Schedule.{has_edge};
ghost use Rattle.model.specs.declarations.ScheduleOrder.{IsScheduleOrder};
ghost use Rattle.cycle_search.specs.Cycles.{IsRankable};
ghost use Rattle.cycle_search.specs.Orders.{IsBetween};
ghost use Rattle.schedule_builder.specs.ScheduleOrder.{schedule_of, can_place, items_before, IsEdge, HasSourcesBelow, AreRising, TellsLowest, lesser_level, lower_level};

use crate::built::System;
use cycle_search::Order;
use std::alloc::{AllocError, Global};

/// The items that orders put before an item.
pub(crate) fn predecessors_of(
    alloc: Global,
    orders: &[Order],
    item: usize,
) -> Result<Vec<u32>, AllocError>
    requires { All (IsBetween (2 ^ 32)) orders.now }
    ensures { IfOk result (λ items. items.items ≡ items_before orders.now item) }
{
    let mut items = Vec::new(alloc);
    for order in orders {
        if order.second == item {
            items.push(order.first as u32)?;
        }
    }
    Ok(items)
}

/// Whether all of these systems are placed.
fn are_placed(systems: &[u32], placed: &[bool]) -> bool
    ensures { result ≡ list_all (λ m. get_or placed.now m false) systems.now }
{
    for system in systems {
        if (*system as usize) >= placed.len() || !placed[*system as usize] {
            return false;
        }
    }
    true
}

/// The lowest level of the systems that are not placed.
fn lowest_open(systems: &[System], placed: &[bool]) -> Option<u32>
    requires { length systems.now ≡ length placed.now }
    ensures { TellsLowest systems.now placed.now result }
{
    let mut lowest = None;
    for (number, system) in systems.iter().enumerate() {
        lowest = lower(lowest, placed[number], system.level());
    }
    lowest
}

// The lower of a level that may be there and that of a system, unless it is placed.
fn lower(lowest: Option<u32>, placed: bool, level: u32) -> Option<u32>
    ensures { result ≡ lower_level lowest placed level }
{
    if placed {
        return lowest;
    }
    Some(lesser(lowest, level))
}

// The lesser of a number that may be there and one that is.
fn lesser(lowest: Option<u32>, level: u32) -> u32
    ensures { result ≡ lesser_level lowest level }
{
    match lowest {
        Some(known) if known < level => known,
        _ => level,
    }
}

/// The least system that is not placed, is of this level, and whose predecessors are all placed.
fn next_placed(systems: &[System], placed: &[bool], lowest: u32) -> Option<usize>
    requires { length systems.now ≡ length placed.now }
    ensures found { IfSome result (λ n. (n < length systems.now)
        × (can_place systems.now placed.now lowest n ≡ true)
        × ((k : ℕ) → k < n → can_place systems.now placed.now lowest k ≡ false)) }
    ensures none { IfNone result ((k : ℕ) → k < length systems.now
        → can_place systems.now placed.now lowest k ≡ false) }
{
    for (number, system) in systems.iter().enumerate() {
        if !placed[number]
            && system.level() == lowest
            && are_placed(system.predecessors(), placed)
        {
            return Some(number);
        }
    }
    None
}

/// The schedule order: always the least system that can come next, of the lowest level that is open.
pub(crate) fn order_of(alloc: Global, systems: &[System]) -> Result<Vec<u32>, AllocError>
    requires few { length systems.now ≤ 256 }
    requires falls { IsRankable (IsEdge systems.now) }
    requires sources { HasSourcesBelow systems.now }
    requires rising { AreRising systems.now }
    ensures order { IfOk result (λ order. IsScheduleOrder (schedule_of systems.now order.items)) }
    ensures short { IfOk result (λ order. length order.items ≤ length systems.now) }
{
    let mut placed = vec![in alloc; false; systems.len()]?;
    let mut order = Vec::new(alloc);
    loop {
        let Some(lowest) = lowest_open(systems, placed.as_slice()) else {
            return Ok(order);
        };
        let Some(number) = next_placed(systems, placed.as_slice(), lowest) else {
            unreachable!()
        };
        placed[number] = true;
        order.push(number as u32)?;
    }
}
