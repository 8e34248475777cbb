// Numbers that stand once each, in rising order.

ghost use Rattle.std.specs.Prelude.{◌≡◌, ◌<◌, ◌^◌, ◌++◌, ◌⊎◌, ◌↔◌, ℕ, true, IfOk, OnOk, [], length, get_or};
ghost use Rattle.std.specs.List.{All};
ghost use Rattle.model.specs.Lists.{has, IsIn};
ghost use Rattle.cycle_search.specs.Orders.{IsBetween};
ghost use Rattle.system_set.specs.Pairs.{pairs_of};
ghost use Rattle.schedule_builder.specs.Asked.{AreSilences, other_in};
ghost use Rattle.schedule_builder.specs.Conditions.{IsCovering, IsRisingListing};

use crate::condition::Condition;
use cycle_search::Order;
use std::alloc::{AllocError, Global};
use std::marker::Model;

/// Numbers, each once, in rising order. Contracts see them.
#[derive(Drop)]
pub(crate) struct Listing {
    numbers: Vec<u32>,
}

impl Model for Listing {
    ghost use Rattle.std.specs.Prelude.{ℕ, List};

    ghost Value = { List ℕ };

    ghost view = { λ l. l.numbers.items };
}

impl Listing {
    /// The conditions that cover a system.
    pub(crate) fn covering(
        alloc: Global,
        conditions: &[Condition],
        system: u32,
    ) -> Result<Self, AllocError>
        requires { length conditions.now < 4294967296 }
        ensures { IfOk result (IsRisingListing (IsCovering conditions.now system)) }
    {
        let mut numbers = Vec::new(alloc);
        for (number, condition) in conditions.iter().enumerate() {
            if condition.is_covering(system) {
                numbers.push(number as u32)?;
            }
        }
        Ok(Listing { numbers })
    }

    /// The systems with which a pair has the system, either way.
    pub(crate) fn paired(alloc: Global, pairs: &[Order], system: usize) -> Result<Self, AllocError>
        requires { All (IsBetween (2 ^ 32)) pairs.now }
        ensures { IfOk result (λ others. (n : ℕ)
            → (has n others ≡ true)
            ↔ (IsIn (system, n) (pairs_of pairs.now)
            ⊎ IsIn (n, system) (pairs_of pairs.now))) }
    {
        let mut numbers = Vec::new(alloc);
        for pair in pairs {
            push_other(&mut numbers, *pair, system)?;
        }
        Ok(Listing { numbers })
    }

    /// The numbers.
    pub(crate) fn numbers(&self) -> &[u32]
        ensures { result.now ≡ self.now }
    {
        self.numbers.as_slice()
    }
}

// Adds what a pair has beside the system.
fn push_other(numbers: &mut Vec<u32>, pair: Order, system: usize) -> Result<(), AllocError>
    requires { IsBetween (2 ^ 32) pair }
    ensures { OnOk result (numbers.new.items ≡ numbers.old.items ++ other_in pair system) }
{
    if pair.first == system {
        numbers.push(pair.second as u32)?;
    }
    if pair.second == system {
        numbers.push(pair.first as u32)?;
    }
    Ok(())
}

/// For each system those with which a pair has it, either way.
pub(crate) fn silences_of(
    alloc: Global,
    count: usize,
    pairs: &[Order],
) -> Result<Vec<Listing>, AllocError>
    requires { All (IsBetween (2 ^ 32)) pairs.now }
    ensures { IfOk result (λ lists. AreSilences count pairs.now lists.items) }
{
    let mut lists = Vec::new(alloc);
    for system in 0..count {
        lists.push(Listing::paired(alloc, pairs, system)?)?;
    }
    Ok(lists)
}
