// For each system the conditions that cover it, and for each condition the systems that conflict with it.

ghost use Rattle.std.specs.Prelude.{◌≡◌, ◌<◌, ◌≤◌, ℕ, [], length, get_or, IfOk};
ghost use Rattle.schedule_builder.specs.Rows.{AreRows};
ghost use Rattle.schedule_builder.specs.Conditions.{IsClash, IsCovering, IsRisingListing};

use crate::ascending_list::Listing;
use crate::condition::Condition;
use crate::relations::row_of_clashes;
use crate::system::System;
use number_set::NumberSet;
use std::alloc::{AllocError, Global};

/// For each system the conditions that cover it.
pub(crate) fn lists_of_conditions(
    alloc: Global,
    systems: &[System],
    conditions: &[Condition],
) -> Result<Vec<Listing>, AllocError>
    requires systems { length systems.now ≤ 256 }
    requires conditions { length conditions.now ≤ 512 }
    ensures long { IfOk result (λ lists. length lists.items ≡ length systems.now) }
    ensures each { IfOk result (λ lists. (n : ℕ) → n < length systems.now
        → IsRisingListing (IsCovering conditions.now n) (get_or lists.items n [])) }
{
    let mut lists = Vec::new(alloc);
    for system in 0..systems.len() {
        lists.push(Listing::covering(alloc, conditions, system as u32)?)?;
    }
    Ok(lists)
}

/// For each condition the systems that conflict with it.
pub(crate) fn rows_of_clashes(
    alloc: Global,
    systems: &[System],
    conditions: &[Condition],
) -> Result<Vec<NumberSet>, AllocError>
    requires { length systems.now ≤ 256 }
    ensures { IfOk result (λ rows. AreRows (length systems.now) (length conditions.now)
        (IsClash systems.now conditions.now) rows.items) }
{
    let mut rows = Vec::new(alloc);
    for condition in conditions {
        rows.push(row_of_clashes(alloc, systems, condition.access())?)?;
    }
    Ok(rows)
}
