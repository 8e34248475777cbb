// Why a call of the store is refused.

ghost use Rattle.std.specs.Prelude.{◌≡◌};
ghost use Rattle.archetype_store.specs.declared.fault.StoreFault.TheVariants as store_fault;

pub use entity_table::fault::GrantFault;
use std::alloc::AllocError;
use thiserror::Error;

/// Why a change of an entity is refused.
#[derive(Clone, Copy, PartialEq, Eq, Debug, Error)]
pub enum StoreFault {
    /// The id names no entity that lives.
    #[error("the entity does not live")]
    NotAlive,
    /// An allocation failed.
    #[error("out of memory")]
    Memory,
}

impl From<AllocError> for StoreFault {
    ghost from_gives = { λ _ e. e ≡ store_fault.Memory };

    fn from(_error: AllocError) -> StoreFault {
        StoreFault::Memory
    }
}
