// What a host puts into a state between runs, and why it can't.

ghost use Rattle.std.specs.Prelude.{◌≡◌};
ghost use Rattle.body.specs.declared.input.PutFault.TheVariants as fault;
ghost use Rattle.body.specs.Inputs.{fault_of_grant, fault_of_send};

use archetype_store::fault::GrantFault;
use change_ticks::ClockSpent;
use entity_table::Entity;
use event_buffers::SendFault;
use kinds::{Event, Kind, Res, Value};
use std::alloc::AllocError;
use thiserror::Error;

/// What a host puts into a state between runs. Each input takes the next tick, and stamps what it changes with it.
#[derive(Drop)]
pub enum Input {
    /// A resource gets a value.
    SetResource(Res, i64),
    /// An event of a kind is sent, with its value. The next run shows it to each reader.
    Emit(Event, i64),
    /// A new entity lives, with these components. Where a kind comes twice the later one counts.
    Spawn(Vec<Value>),
    /// An entity gets a component, in place of the one of its kind. It is skipped where the entity doesn't live.
    Insert(Entity, Value),
    /// An entity loses its component of a kind. It is skipped where the entity doesn't live.
    Remove(Entity, Kind),
    /// An entity lives no more. It is skipped where the entity doesn't live.
    Despawn(Entity),
}

/// Why a state doesn't take an input. After each of these nothing has changed.
#[derive(Clone, Copy, PartialEq, Eq, Debug, Error)]
pub enum PutFault {
    /// An allocation failed.
    #[error("out of memory")]
    Memory,
    /// The clock gives no further tick.
    #[error("the clock is spent")]
    NoTick,
    /// The events of the kind get no further number.
    #[error("the event numbers are spent")]
    NoEventNumber,
    /// No index is left for a new entity.
    #[error("the ids are spent")]
    NoIds,
}

impl From<AllocError> for PutFault {
    ghost from_gives = { λ _ told. told ≡ fault.Memory };

    fn from(_error: AllocError) -> Self {
        PutFault::Memory
    }
}

impl From<ClockSpent> for PutFault {
    ghost from_gives = { λ _ told. told ≡ fault.NoTick };

    fn from(_error: ClockSpent) -> Self {
        PutFault::NoTick
    }
}

impl From<SendFault> for PutFault {
    ghost from_gives = { λ error told. told ≡ fault_of_send error };

    fn from(error: SendFault) -> Self {
        match error {
            SendFault::NumbersSpent => PutFault::NoEventNumber,
            SendFault::Memory => PutFault::Memory,
        }
    }
}

impl From<GrantFault> for PutFault {
    ghost from_gives = { λ error told. told ≡ fault_of_grant error };

    fn from(error: GrantFault) -> Self {
        match error {
            GrantFault::IdsSpent => PutFault::NoIds,
            GrantFault::Memory => PutFault::Memory,
        }
    }
}
