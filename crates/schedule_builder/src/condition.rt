// A run condition of a built schedule.

ghost use Rattle.std.specs.Prelude.{◌≡◌, IfOk};
ghost use Rattle.model.specs.Lists.{has};
ghost use Rattle.model.specs.access.Condition.{access_of_condition};

use access_set::Params;
use run_condition::Cond;
use std::alloc::{AllocError, Global};
use std::marker::Model;

/// A run condition of a built schedule: what it asks, and the systems that it covers. Contracts see these two.
pub struct Condition {
    cond: Cond,
    access: Params,
    covers: Vec<u32>,
}

// One function drops it wherever it is let go.
impl Drop for Condition {
    fn drop(self) {
        let Condition {
            cond: _,
            access: _,
            covers: _,
        } = self;
    }
}

impl Model for Condition {
    ghost use Rattle.std.specs.Prelude.{◌≡◌};
    ghost use Rattle.model.specs.access.Condition.{access_of_condition};
    ghost use Rattle.model.specs.steps.Schedule.{ScheduledCondition};
    ghost use Rattle.model.specs.steps.Codes.{scheduled_condition_code};

    ghost Value = { ScheduledCondition };

    ghost coded = { scheduled_condition_code };

    ghost view = { λ c. record { condition = c.cond; covers = c.covers.items } };

    ghost invariant = { λ c. c.access ≡ access_of_condition c.cond };
}

impl Condition {
    /// A condition that covers these systems. What it asks about is worked out here, once.
    pub(crate) fn new(alloc: Global, cond: Cond, covers: Vec<u32>) -> Result<Self, AllocError>
        ensures { IfOk result (λ made. made ≡ record { condition = cond; covers = covers.items }) }
    {
        let access = cond.access(alloc)?;
        Ok(Condition {
            cond,
            access,
            covers,
        })
    }

    /// What it asks.
    pub fn cond(&self) -> &Cond
        ensures { result.now ≡ self.now.condition }
    {
        &self.cond
    }

    /// What it asks about, all of it read.
    pub fn access(&self) -> &Params
        ensures { result.now ≡ access_of_condition self.now.condition }
    {
        &self.access
    }

    /// Whether it covers a system.
    pub fn is_covering(&self, system: u32) -> bool
        ensures { result ≡ has system self.now.covers }
    {
        has_number(self.covers.as_slice(), system)
    }

    /// The systems that it covers.
    pub fn covers(&self) -> &[u32]
        ensures { result.now ≡ self.now.covers }
    {
        self.covers.as_slice()
    }
}

/// Whether the number is among these.
pub(crate) fn has_number(numbers: &[u32], number: u32) -> bool
    ensures { result ≡ has number numbers.now }
{
    numbers.iter().any(|other| *other == number)
}
