// Why sets are refused.

ghost use Rattle.std.specs.Prelude.{◌≡◌};
ghost use Rattle.system_set.specs.declared.fault.HierarchyFault.TheVariants.{Memory};

use std::alloc::{AllocError, AllocFailed};

/// Why sets are refused.
#[derive(Debug, Drop)]
pub enum HierarchyFault {
    /// The first set that is declared to be in itself.
    Loop(usize),
    /// Sets that hold one another in a circle, each declared to be in the next, from the earliest declared one, each once.
    Cycle(Vec<usize>),
    /// An allocation failed.
    Memory,
}

impl From<AllocError> for HierarchyFault {
    ghost from_gives = { λ _ fault. fault ≡ Memory };

    fn from(_error: AllocError) -> HierarchyFault {
        HierarchyFault::Memory
    }
}

impl<T: Drop> From<AllocFailed<T>> for HierarchyFault {
    ghost from_gives = { λ _ fault. fault ≡ Memory };

    fn from(_error: AllocFailed<T>) -> HierarchyFault {
        HierarchyFault::Memory
    }
}
