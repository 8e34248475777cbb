// The members of items, each by its number among the systems.

ghost use Rattle.std.specs.Prelude.{◌≡◌, ◌<◌, ◌≤◌, ◌^◌, ◌++◌, ◌∷◌, [], if◌then◌else◌, length, IfOk, OnOk};
ghost use Rattle.system_set.specs.Pairs.{hierarchy_of, ArePlaced};
ghost use Rattle.system_set.specs.Coverage.{AreCovered, AreNumbersTo};

use crate::edges::{Reaching, is_member_of, rows_of};
use cycle_search::Order;
use std::alloc::{AllocError, Global};
use std::marker::Model;

/// The members of an item, by their numbers among the systems, in rising order. Contracts see them.
pub struct Members {
    numbers: Vec<u32>,
}

// One function drops it wherever it is let go.
impl Drop for Members {
    fn drop(self) {
        let Members { numbers: _ } = self;
    }
}

impl Model for Members {
    ghost use Rattle.std.specs.Prelude.{ℕ, List};

    ghost Value = { List ℕ };

    ghost view = { λ m. m.numbers.items };
}

impl Members {
    /// The numbers.
    pub fn numbers(&self) -> &[u32]
        ensures { result.now ≡ self.now }
    {
        self.numbers.as_slice()
    }
}

/// For each of these items its members.
pub(crate) fn coverage_of(
    alloc: Global,
    sets: usize,
    items: usize,
    pairs: &[Order],
    covered: &[usize],
) -> Result<Vec<Members>, AllocError>
    requires placed { ArePlaced sets items pairs.now }
    requires few { items < 2 ^ 32 }
    ensures { IfOk result (λ lists. AreCovered (hierarchy_of sets items pairs.now) covered.now
        lists.items) }
{
    let rows = rows_of(alloc, sets, items, pairs)?;
    let mut lists = Vec::new(alloc);
    for item in covered {
        lists.push(members_in(alloc, sets, items, rows.as_slice(), *item)?)?;
    }
    Ok(lists)
}

// The members of an item.
fn members_in(
    alloc: Global,
    sets: usize,
    items: usize,
    rows: &[Reaching],
    item: usize,
) -> Result<Members, AllocError>
    requires rows { length rows.now ≡ sets }
    requires order { sets ≤ items }
    requires few { items < 2 ^ 32 }
    ensures { IfOk result (AreNumbersTo sets rows.now item items) }
{
    let mut numbers = Vec::new(alloc);
    for system in sets..items {
        let number = (system - sets) as u32;
        push_if(&mut numbers, number, is_member_of(sets, rows, item, system))?;
    }
    Ok(Members { numbers })
}

// Adds the number where the test holds.
fn push_if(numbers: &mut Vec<u32>, number: u32, test: bool) -> Result<(), AllocError>
    ensures { OnOk result (numbers.new.items
        ≡ (if test then numbers.old.items ++ number ∷ [] else numbers.old.items)) }
{
    if !test {
        return Ok(());
    }
    numbers.push(number)?;
    Ok(())
}
