// The systems with an edge from one, as a list.

ghost use Rattle.std.specs.Prelude.{◌≡◌, ◌<◌, ◌≤◌, ℕ, true, [], length, get_or, IfOk};
ghost use Rattle.number_set.specs.Members.{contains};
ghost use Rattle.schedule_builder.specs.Counts.{IsListing};

use number_set::NumberSet;
use std::alloc::{AllocError, Global};
use std::marker::Model;

/// The systems with an edge from one, each once. Contracts see their numbers.
#[derive(Drop)]
pub(crate) struct Successors {
    systems: Vec<u32>,
}

impl Model for Successors {
    ghost use Rattle.std.specs.Prelude.{ℕ, List};

    ghost Value = { List ℕ };

    ghost view = { λ s. s.systems.items };
}

impl Successors {
    /// Those of a system: in whose rows of predecessors it is.
    pub(crate) fn of_system(
        alloc: Global,
        before: &[NumberSet],
        system: u32,
    ) -> Result<Self, AllocError>
        requires { length before.now ≤ 256 }
        ensures { IfOk result (IsListing (λ m. (m < length before.now)
            × (contains (get_or before.now m []) system ≡ true))) }
    {
        let mut systems = Vec::new(alloc);
        for (number, row) in before.iter().enumerate() {
            if row.contains(system) {
                systems.push(number as u32)?;
            }
        }
        Ok(Successors { systems })
    }

    /// Their numbers.
    pub(crate) fn systems(&self) -> &[u32]
        ensures { result.now ≡ self.now }
    {
        self.systems.as_slice()
    }
}
