// A built schedule, and what it says of its systems.

ghost use Rattle.std.specs.Prelude.{◌≡◌, ◌<◌, ℕ, length, get_or, IfOk};
ghost use Rattle.model.specs.access.SelfConflict.{ConflictWithin};
ghost use Rattle.model.specs.steps.Schedule.{system_at, condition_at, params_of, level_of, is_silenced};
ghost use Rattle.model.specs.steps.Built.{IsBuilt};
ghost use Rattle.schedule_builder.specs.Rows.{IsRow, IsBefore, IsRival, AreApart};
ghost use Rattle.model.specs.Counts.{count_below};
ghost use Rattle.schedule_builder.specs.Counts.{IsListing, IsAfter, waits_for, is_at};
ghost use Rattle.schedule_builder.specs.ScheduleOrder.{schedule_with};
ghost use Rattle.schedule_builder.specs.Conditions.{IsRisingListing, IsCovering, IsClash};

use crate::ascending_list::Listing;
pub use crate::condition::Condition;
use crate::condition::has_number;
use crate::condition_rows::{lists_of_conditions, rows_of_clashes};
use crate::counts::{counts_at, counts_before, lists_after};
use crate::relations::{rows_before, rows_of_rivals};
use crate::successors::Successors;
pub use crate::system::System;
use access_set::Params;
use number_set::NumberSet;
use std::alloc::{AllocError, Global};
use std::marker::Model;

/// A schedule as it was built. Contracts see a `Schedule` of the model; every value meets `IsBuilt`, and no system's parameters
/// conflict among themselves.
pub struct Built {
    systems: Vec<System>,
    conditions: Vec<Condition>,
    syncs: u32,
    order: Vec<u32>,
    silences: Vec<Listing>,
    asked_by: Vec<Listing>,
    clashes: Vec<NumberSet>,
    before: Vec<NumberSet>,
    rivals: Vec<NumberSet>,
    after: Vec<Successors>,
    waits: Vec<u32>,
    sizes: Vec<u32>,
}

// One function drops it wherever it is let go.
impl Drop for Built {
    fn drop(self) {
        let Built {
            systems: _,
            conditions: _,
            syncs: _,
            order: _,
            silences: _,
            asked_by: _,
            clashes: _,
            before: _,
            rivals: _,
            after: _,
            waits: _,
            sizes: _,
        } = self;
    }
}

impl Model for Built {
    ghost use Rattle.std.specs.Prelude.{[], None, ◌≡◌};
    ghost use Rattle.model.specs.steps.Schedule.{Schedule};
    ghost use Rattle.model.specs.steps.Built.{IsBuilt};
    ghost use Rattle.model.specs.steps.Codes.{schedule_code};
    ghost use Rattle.schedule_builder.specs.Rows.{HasRows, AreApart};
    ghost use Rattle.schedule_builder.specs.Counts.{HasCounts};
    ghost use Rattle.schedule_builder.specs.Conditions.{HasConditionRows};

    ghost Value = { Schedule };

    ghost coded = { schedule_code };

    ghost view = { λ b. record {
      systems = b.systems.items;
      conditions = b.conditions.items;
      syncs = b.syncs;
      order = b.order.items;
      silences = b.silences.items;
      sets = None;
    } };

    ghost invariant = { λ b. IsBuilt (record {
      systems = b.systems.items;
      conditions = b.conditions.items;
      syncs = b.syncs;
      order = b.order.items;
      silences = b.silences.items;
      sets = None;
    })
        × HasConditionRows b.systems.items b.conditions.items b.asked_by.items b.clashes.items
        × HasRows b.systems.items b.before.items b.rivals.items × AreApart b.systems.items
        × HasCounts b.systems.items b.after.items b.waits.items b.sizes.items };
}

impl Built {
    /// A schedule of its parts: the systems in declared order, the conditions by number, how many sync points there are, the schedule
    /// order, and for each system those with which it may be ambiguous. Asks that the parts meet `IsBuilt` and that no system's
    /// parameters conflict among themselves. What each system waits for, what waits for it, which ones it conflicts with, how many are
    /// on each level, which conditions cover it and which systems conflict with a condition is found out here, once.
    pub(crate) fn of_parts(
        alloc: Global,
        systems: Vec<System>,
        conditions: Vec<Condition>,
        syncs: u32,
        order: Vec<u32>,
        silences: Vec<Listing>,
    ) -> Result<Self, AllocError>
        requires built { IsBuilt (schedule_with systems.items conditions.items syncs order.items
            silences.items) }
        requires apart { AreApart systems.items }
        ensures { IfOk result (λ built. built
            ≡ schedule_with systems.items conditions.items syncs order.items silences.items) }
    {
        let before = rows_before(alloc, systems.as_slice())?;
        let rivals = rows_of_rivals(alloc, systems.as_slice())?;
        let after = lists_after(alloc, before.as_slice())?;
        let waits = counts_before(alloc, before.as_slice())?;
        let sizes = counts_at(alloc, systems.as_slice(), syncs)?;
        let asked_by = lists_of_conditions(alloc, systems.as_slice(), conditions.as_slice())?;
        let clashes = rows_of_clashes(alloc, systems.as_slice(), conditions.as_slice())?;
        Ok(Built {
            systems,
            conditions,
            syncs,
            order,
            silences,
            asked_by,
            clashes,
            before,
            rivals,
            after,
            waits,
            sizes,
        })
    }

    /// What holds of every built schedule.
    pub fn prove_law(&self)
        ensures { IsBuilt self.now }
    {
        let _ = &self.syncs;
    }

    /// No two parameters of one system conflict. Two of its queries don't, nor two that name a resource or an event
    /// kind that one of them writes.
    pub fn prove_apart(&self)
        ensures { (n : ℕ) → n < length self.now.systems → ConflictWithin (params_of self.now n)
            → ⊥ }
    {
        let _ = &self.syncs;
    }

    /// The run conditions, by number.
    pub fn conditions(&self) -> &[Condition]
        ensures { result.now ≡ self.now.conditions }
    {
        self.conditions.as_slice()
    }

    /// How many run conditions there are. They are numbered from 0 on.
    pub fn condition_count(&self) -> u32
        ensures { result ≡ length self.now.conditions }
    {
        self.conditions.len() as u32
    }

    /// The condition of a number.
    pub fn condition(&self, number: u32) -> &Condition
        requires { number < length self.now.conditions }
        ensures { result.now ≡ condition_at self.now number }
    {
        &self.conditions[number as usize]
    }

    /// The conditions that cover a system, in rising order.
    #[tactic(auto, unfolding(crate::specs::Conditions::HasConditionRows))]
    pub fn asked_by(&self, number: u32) -> &[u32]
        requires { number < length self.now.systems }
        ensures { IsRisingListing (IsCovering self.now.conditions number) result.now }
    {
        self.asked_by[number as usize].numbers()
    }

    /// The systems that conflict with what a condition asks about, as a set.
    #[tactic(auto, unfolding(crate::specs::Conditions::HasConditionRows))]
    pub fn clashes(&self, condition: u32) -> &NumberSet
        requires { condition < length self.now.conditions }
        ensures { IsRow (length self.now.systems)
            (IsClash self.now.systems self.now.conditions condition) result.now }
    {
        &self.clashes[condition as usize]
    }

    /// The systems, in declared order.
    pub fn systems(&self) -> &[System]
        ensures { result.now ≡ self.now.systems }
    {
        self.systems.as_slice()
    }

    /// How many systems there are. They are numbered from 0 on.
    pub fn count(&self) -> u32
        ensures { result ≡ length self.now.systems }
    {
        self.systems.len() as u32
    }

    /// The system of a number.
    pub fn system(&self, number: u32) -> &System
        requires { number < length self.now.systems }
        ensures { result.now ≡ system_at self.now number }
    {
        &self.systems[number as usize]
    }

    /// The parameters of a system.
    pub fn params(&self, number: u32) -> &Params
        requires { number < length self.now.systems }
        ensures { result.now ≡ params_of self.now number }
    {
        self.system(number).params()
    }

    /// The systems with an edge to a system.
    pub fn predecessors(&self, number: u32) -> &[u32]
        requires { number < length self.now.systems }
        ensures { result.now ≡ (system_at self.now number).predecessors }
    {
        self.system(number).predecessors()
    }

    /// The level of a system.
    pub fn level(&self, number: u32) -> u32
        requires { number < length self.now.systems }
        ensures { result ≡ level_of self.now number }
    {
        self.system(number).level()
    }

    /// How many sync points there are. They are numbered from 0 on.
    pub fn syncs(&self) -> u32
        ensures { result ≡ self.now.syncs }
    {
        self.syncs
    }

    /// The schedule order: each system once, after each system with an edge to it.
    pub fn order(&self) -> &[u32]
        ensures { result.now ≡ self.now.order }
    {
        self.order.as_slice()
    }

    /// Whether two systems are declared to be ambiguous with one another.
    pub fn is_silenced(&self, first: u32, second: u32) -> bool
        ensures { result ≡ is_silenced self.now first second }
    {
        match self.silences.get(first as usize) {
            Some(others) => has_number(others.numbers(), second),
            None => false,
        }
    }

    /// The systems with an edge to a system, as a set.
    pub fn before(&self, number: u32) -> &NumberSet
        requires { number < length self.now.systems }
        ensures { IsRow (length self.now.systems) (IsBefore self.now.systems number) result.now }
    {
        &self.before[number as usize]
    }

    /// The systems that conflict with a system, as a set.
    pub fn rivals(&self, number: u32) -> &NumberSet
        requires { number < length self.now.systems }
        ensures { IsRow (length self.now.systems) (IsRival self.now.systems number) result.now }
    {
        &self.rivals[number as usize]
    }

    /// The systems with an edge from a system, each once.
    #[tactic(auto, unfolding(crate::specs::Counts::HasCounts))]
    pub fn after(&self, number: u32) -> &[u32]
        requires { number < length self.now.systems }
        ensures { IsListing (IsAfter self.now.systems number) result.now }
    {
        self.after[number as usize].systems()
    }

    /// By number how many systems have an edge to each system.
    #[tactic(auto, unfolding(crate::specs::Counts::HasCounts))]
    pub fn waits(&self) -> &[u32]
        ensures { (n : ℕ)
            → get_or result.now n 0
            ≡ count_below (waits_for self.now.systems n) (length self.now.systems) }
    {
        self.waits.as_slice()
    }

    /// By number how many systems have each level.
    #[tactic(auto, unfolding(crate::specs::Counts::HasCounts))]
    pub fn sizes(&self) -> &[u32]
        ensures { (k : ℕ)
            → get_or result.now k 0
            ≡ count_below (is_at self.now.systems k) (length self.now.systems) }
    {
        self.sizes.as_slice()
    }
}
