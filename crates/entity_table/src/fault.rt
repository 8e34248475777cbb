// Why a call of the id book is refused.

ghost use Rattle.std.specs.Prelude.{◌≡◌};
ghost use Rattle.entity_table.specs.declared.fault.GrantFault.TheVariants as grant_fault;

use std::alloc::AllocError;
use thiserror::Error;

/// Why no ids are granted.
#[derive(Clone, Copy, PartialEq, Eq, Debug, Error)]
pub enum GrantFault {
    /// Fewer indices are left than are asked for.
    #[error("the ids are spent")]
    IdsSpent,
    /// An allocation failed.
    #[error("out of memory")]
    Memory,
}

impl From<AllocError> for GrantFault {
    ghost from_gives = { λ _ e. e ≡ grant_fault.Memory };

    fn from(_error: AllocError) -> GrantFault {
        GrantFault::Memory
    }
}
