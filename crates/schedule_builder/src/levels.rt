// The levels of systems: how many sync points stand before each.

ghost use Rattle.std.specs.Prelude.{◌≡◌, ◌+◌, ℕ, ◌<◌, ◌≤◌, ◌⊎◌, true, is_some, length, get_or, IfOk};
ghost use Rattle.std.specs.List.{All};
ghost use Rattle.model.specs.Lists.{has};
ghost use Rattle.model.specs.declarations.ScheduleOrder.{IsScheduleOrder};
ghost use Rattle.cycle_search.specs.Cycles.{IsRankable};
ghost use Rattle.schedule_builder.specs.ScheduleOrder.{schedule_of, IsEdge, HasSourcesBelow, AreRising};
ghost use Rattle.schedule_builder.specs.Levels.{has_commands, deferring_before, IsGreatest, AreLevels, AreSyncs};

use crate::schedule_order::order_of;
use crate::system::System;
use cycle_search::Order;
use std::alloc::{AllocError, Global};

/// Whether a system has commands.
fn has_commands(systems: &[System], number: usize) -> bool
    ensures { result ≡ has_commands systems.now number }
{
    match systems.get(number) {
        Some(system) => system.params().spawns().is_some(),
        None => false,
    }
}

/// The systems with commands that plain orders put before a system.
fn deferring_before(
    alloc: Global,
    systems: &[System],
    plain: &[Order],
    number: usize,
) -> Result<Vec<u32>, AllocError>
    requires { length systems.now ≤ 256 }
    ensures { IfOk result (λ found. found.items ≡ deferring_before systems.now plain.now number) }
{
    let mut found = Vec::new(alloc);
    for order in plain {
        if order.second == number && has_commands(systems, order.first) {
            found.push(order.first as u32)?;
        }
    }
    Ok(found)
}

/// The level that is known of a system.
pub(crate) fn level_in(levels: &[u32], system: usize) -> u32
    ensures { result ≡ get_or levels.now system 0 }
{
    match levels.get(system) {
        Some(level) => *level,
        None => 0,
    }
}

/// The greatest of a number and of the levels of these systems, each with so much added.
fn greatest(start: u32, systems: &[u32], levels: &[u32], added: u32) -> u32
    requires low { (n : ℕ) → get_or levels.now n 0 ≤ 256 }
    requires little { added ≤ 1 }
    ensures { IsGreatest start systems.now levels.now added result }
{
    let mut level = start;
    for system in systems {
        level = greater(level, level_in(levels, *system as usize) + added);
    }
    level
}

// The greater of two numbers.
fn greater(one: u32, other: u32) -> u32
    ensures first { one ≤ result }
    ensures second { other ≤ result }
    ensures either { (result ≡ one) ⊎ (result ≡ other) }
{
    if one < other { other } else { one }
}

// So many times 0.
fn zeros(alloc: Global, count: usize) -> Result<Vec<u32>, AllocError>
    ensures long { IfOk result (λ numbers. length numbers.items ≡ count) }
    ensures zero { IfOk result (λ numbers. (n : ℕ) → get_or numbers.items n 0 ≡ 0) }
{
    vec![in alloc; 0u32; count]
}

/// By number the levels of systems, which come in an order in which what is before a system stands before it. `plain` are the edges of
/// the orders that don't ignore that commands are deferred.
fn levels_of(
    alloc: Global,
    systems: &[System],
    order: &[u32],
    plain: &[Order],
) -> Result<Vec<u32>, AllocError>
    requires few { length systems.now ≤ 256 }
    requires order { IsScheduleOrder (schedule_of systems.now order.now) }
    requires short { length order.now ≤ length systems.now }
    requires sources { HasSourcesBelow systems.now }
    requires within { (m n : ℕ) → has m (deferring_before systems.now plain.now n) ≡ true
        → IsEdge systems.now m n }
    ensures { IfOk result (λ levels. AreLevels systems.now plain.now levels.items) }
{
    let mut levels = zeros(alloc, systems.len())?;
    for number in order {
        let deferring = deferring_before(alloc, systems, plain, *number as usize)?;
        let predecessors = systems[*number as usize].predecessors();
        let level = greatest(0, predecessors, levels.as_slice(), 0);
        levels[*number as usize] = greatest(level, deferring.as_slice(), levels.as_slice(), 1);
    }
    Ok(levels)
}

/// By number the levels of systems that are of none yet.
pub(crate) fn found_levels(
    alloc: Global,
    systems: &[System],
    plain: &[Order],
) -> Result<Vec<u32>, AllocError>
    requires few { length systems.now ≤ 256 }
    requires falls { IsRankable (IsEdge systems.now) }
    requires sources { HasSourcesBelow systems.now }
    requires rising { AreRising systems.now }
    requires within { (m n : ℕ) → has m (deferring_before systems.now plain.now n) ≡ true
        → IsEdge systems.now m n }
    ensures { IfOk result (λ levels. AreLevels systems.now plain.now levels.items) }
{
    let order = order_of(alloc, systems)?;
    levels_of(alloc, systems, order.as_slice(), plain)
}

/// How many sync points there are: as many as the greatest level plus one, and one where there is none.
pub(crate) fn syncs_of(levels: &[u32]) -> u32
    requires { (n : ℕ) → get_or levels.now n 0 ≤ 256 }
    ensures syncs { AreSyncs levels.now result }
    ensures few { result ≤ 257 }
{
    let mut syncs = 1;
    for level in levels {
        syncs = greater(syncs, *level + 1);
    }
    syncs
}
