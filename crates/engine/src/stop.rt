// Why a run stops, as its steps tell it.

ghost use Rattle.std.specs.Prelude.{◌≡◌};
ghost use Rattle.engine.specs.declared.stop.Stop.TheVariants as stop;
ghost use Rattle.engine.specs.Stops.{stop_of_body, stop_of_grant, stop_of_send};

use archetype_store::fault::GrantFault;
use body::BodyFault;
use change_ticks::ClockSpent;
use event_buffers::SendFault;
use std::alloc::{AllocError, AllocFailed};

/// Why a step of a run stops it. A run reports it as a `RunFault`.
#[derive(Clone, Copy)]
pub enum Stop {
    /// An allocation failed.
    Memory,
    /// A worker's thread couldn't be started, or can't be waited for.
    NoWorker,
    /// The clock gives no further tick.
    NoTick,
    /// There are fewer vacant indices than the systems of a level are granted ids.
    NoIds,
    /// The events of a kind get no further number.
    NoEventNumber,
    /// The body refuses, with this number.
    Refused(u32),
}

impl From<AllocError> for Stop {
    ghost from_gives = { λ _ told. told ≡ stop.Memory };

    fn from(_error: AllocError) -> Self {
        Stop::Memory
    }
}

impl<T: Drop> From<AllocFailed<T>> for Stop {
    ghost from_gives = { λ _ told. told ≡ stop.Memory };

    fn from(_error: AllocFailed<T>) -> Self {
        Stop::Memory
    }
}

impl From<ClockSpent> for Stop {
    ghost from_gives = { λ _ told. told ≡ stop.NoTick };

    fn from(_error: ClockSpent) -> Self {
        Stop::NoTick
    }
}

impl From<BodyFault> for Stop {
    ghost from_gives = { λ error told. told ≡ stop_of_body error };

    fn from(error: BodyFault) -> Self {
        match error {
            BodyFault::Memory => Stop::Memory,
            BodyFault::Refused(number) => Stop::Refused(number),
        }
    }
}

impl From<SendFault> for Stop {
    ghost from_gives = { λ error told. told ≡ stop_of_send error };

    fn from(error: SendFault) -> Self {
        match error {
            SendFault::NumbersSpent => Stop::NoEventNumber,
            SendFault::Memory => Stop::Memory,
        }
    }
}

impl From<GrantFault> for Stop {
    ghost from_gives = { λ error told. told ≡ stop_of_grant error };

    fn from(error: GrantFault) -> Self {
        match error {
            GrantFault::IdsSpent => Stop::NoIds,
            GrantFault::Memory => Stop::Memory,
        }
    }
}
