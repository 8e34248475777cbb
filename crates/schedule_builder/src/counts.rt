// What a run counts down: for each system those that wait for it and how many it waits for, and for each level its systems.

ghost use Rattle.std.specs.Prelude.{◌≡◌, ◌<◌, ◌≤◌, ℕ, true, [], length, get_or, map, cond, IfOk};
ghost use Rattle.number_set.specs.Members.{contains};
ghost use Rattle.model.specs.Counts.{count_below};
ghost use Rattle.schedule_builder.specs.Counts.{is_at, IsListing};

use crate::successors::Successors;
use crate::system::System;
use number_set::NumberSet;
use std::alloc::{AllocError, Global};

/// For each system those with an edge from it.
pub(crate) fn lists_after(
    alloc: Global,
    before: &[NumberSet],
) -> Result<Vec<Successors>, AllocError>
    requires { length before.now ≤ 256 }
    ensures long { IfOk result (λ lists. length lists.items ≡ length before.now) }
    ensures each { IfOk result (λ lists. (n : ℕ) → n < length before.now
        → IsListing
        (λ m. (m < length before.now) × (contains (get_or before.now m []) n ≡ true))
        (get_or lists.items n [])) }
{
    let mut lists = Vec::new(alloc);
    for number in 0..before.len() {
        lists.push(Successors::of_system(alloc, before, number as u32)?)?;
    }
    Ok(lists)
}

/// For each system how many have an edge to it.
pub(crate) fn counts_before(alloc: Global, before: &[NumberSet]) -> Result<Vec<u32>, AllocError>
    requires { length before.now ≤ 256 }
    ensures { IfOk result (λ counts. counts.items
        ≡ map (λ row. count_below (contains row) (length before.now)) before.now) }
{
    let count = before.len() as u32;
    before
        .iter()
        .map(|row| members_below(row, count))
        .collect(alloc)
}

// How many of the numbers below the bound are members.
#[tactic(auto, using(crate::proofs::Counting::counting))]
fn members_below(row: &NumberSet, bound: u32) -> u32
    ensures { result ≡ count_below (contains row.now) bound }
{
    let mut count = 0;
    for number in 0..bound {
        count += one_if(row.contains(number));
    }
    count
}

/// For each level how many systems have it.
pub(crate) fn counts_at(
    alloc: Global,
    systems: &[System],
    levels: u32,
) -> Result<Vec<u32>, AllocError>
    requires { length systems.now ≤ 256 }
    ensures long { IfOk result (λ counts. length counts.items ≡ levels) }
    ensures each { IfOk result (λ counts. (k : ℕ) → k < levels
        → get_or counts.items k 0 ≡ count_below (is_at systems.now k) (length systems.now)) }
{
    let mut counts = Vec::new(alloc);
    for level in 0..levels {
        counts.push(count_at(systems, level))?;
    }
    Ok(counts)
}

// How many systems have the level.
#[tactic(auto, using(crate::proofs::Counting::counting))]
fn count_at(systems: &[System], level: u32) -> u32
    requires { length systems.now ≤ 256 }
    ensures { result ≡ count_below (is_at systems.now level) (length systems.now) }
{
    let mut count = 0;
    for system in systems {
        count += one_if(system.level() == level);
    }
    count
}

// One where the test holds, else none.
fn one_if(test: bool) -> u32
    ensures { result ≡ cond test 1 0 }
{
    if test { 1 } else { 0 }
}
