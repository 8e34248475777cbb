// What each system of a schedule waits for, and which ones it conflicts with, as sets of numbers.

ghost use Rattle.std.specs.Prelude.{◌≡◌, ◌<◌, ◌≤◌, ◌+◌, ◌/◌, ◌||◌, ◌&&◌, ◌==◌, ℕ, true, length, IfOk};
ghost use Rattle.model.specs.Lists.{has};
ghost use Rattle.number_set.specs.Members.{contains};
ghost use Rattle.model.specs.access.Conflict.{Conflict};
ghost use Rattle.schedule_builder.specs.Rows.{IsRow, IsRival, IsBefore, AreRows, system_in};
ghost use Rattle.schedule_builder.specs.ScheduleOrder.{HasSourcesBelow};

use crate::system::System;
use access_set::Params;
use access_set::conflict::conflicts;
use number_set::NumberSet;
use std::alloc::{AllocError, Global};

/// For each system those with an edge to it.
pub(crate) fn rows_before(alloc: Global, systems: &[System]) -> Result<Vec<NumberSet>, AllocError>
    requires few { length systems.now ≤ 256 }
    requires sources { HasSourcesBelow systems.now }
    ensures { IfOk result (λ rows. AreRows (length systems.now) (length systems.now)
        (IsBefore systems.now) rows.items) }
{
    let mut rows = Vec::new(alloc);
    for system in systems {
        rows.push(row_before(alloc, systems.len() as u32, system.predecessors())?)?;
    }
    Ok(rows)
}

// The set of these systems.
fn row_before(alloc: Global, count: u32, predecessors: &[u32]) -> Result<NumberSet, AllocError>
    requires { (m : ℕ) → has m predecessors.now ≡ true → m < count }
    ensures { IfOk result (IsRow count (λ m. has m predecessors.now ≡ true)) }
{
    let mut row = NumberSet::new(alloc, count)?;
    for system in predecessors {
        row.insert(*system);
    }
    Ok(row)
}

/// For each system those that conflict with it.
pub(crate) fn rows_of_rivals(
    alloc: Global,
    systems: &[System],
) -> Result<Vec<NumberSet>, AllocError>
    requires { length systems.now ≤ 256 }
    ensures { IfOk result (λ rows. AreRows (length systems.now) (length systems.now)
        (IsRival systems.now) rows.items) }
{
    let mut rows = Vec::new(alloc);
    for number in 0..systems.len() {
        rows.push(row_of_clashes(alloc, systems, systems[number].params())?)?;
    }
    Ok(rows)
}

/// The systems that conflict with an access.
pub(crate) fn row_of_clashes(
    alloc: Global,
    systems: &[System],
    access: &Params,
) -> Result<NumberSet, AllocError>
    requires { length systems.now ≤ 256 }
    ensures { IfOk result (IsRow (length systems.now) (λ m. (m < length systems.now)
        × Conflict (system_in systems.now m).params access.now)) }
{
    let mut row = NumberSet::new(alloc, systems.len() as u32)?;
    for other in 0..systems.len() {
        insert_if(
            &mut row,
            other as u32,
            conflicts(systems[other].params(), access),
        );
    }
    Ok(row)
}

// Makes the number a member where the test holds.
fn insert_if(row: &mut NumberSet, number: u32, test: bool)
    requires { number / 64 < length row.old }
    ensures room { length row.new ≡ length row.old }
    ensures members { (n : ℕ)
        → contains row.new n ≡ ((test && (number == n)) || contains row.old n) }
{
    if !test {
        return;
    }
    row.insert(number);
}
