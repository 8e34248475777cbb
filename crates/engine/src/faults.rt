// Why an engine isn't made, and why a run stops.

ghost use Rattle.std.specs.Prelude.{◌≡◌};
ghost use Rattle.engine.specs.declared.faults.NewFault.TheVariants as new_fault;
ghost use Rattle.engine.specs.declared.faults.RunFault.TheVariants as run_fault;
ghost use Rattle.engine.specs.declared.faults.SetFault.TheVariants as set_fault;
ghost use Rattle.engine.specs.Inputs.{fault_of_put};
ghost use Rattle.engine.specs.Stops.{fault_of};

use crate::stop::Stop;
use body::PutFault;
use std::alloc::AllocError;
use thiserror::Error;

/// Why an engine isn't made.
#[derive(Clone, Copy, PartialEq, Eq, Debug, Error)]
pub enum NewFault {
    /// The numbers of bodies, of memories, or of a memory's cursors are not those of the schedule.
    #[error("the numbers of bodies, memories and cursors are not those of the schedule")]
    Count,
    /// The body of this system, the least such one, doesn't fit the system's parameters.
    #[error("the body of system {0} does not fit its parameters")]
    Misfit(u32),
    /// An allocation failed.
    #[error("out of memory")]
    Memory,
}

/// Why a run stops. After each of these `run` leaves the engine spoiled.
#[derive(Clone, Copy, PartialEq, Eq, Debug, Error)]
pub enum RunFault {
    /// An allocation failed.
    #[error("out of memory")]
    Memory,
    /// The clock gives no further tick, or the events of a kind no further number.
    #[error("the clock is spent")]
    ClockSpent,
    /// There are fewer vacant indices than the systems of a level are granted ids, at the opening of a run or at a sync point.
    #[error("the ids are spent")]
    IdsSpent,
    /// An earlier run stopped.
    #[error("the engine is spoiled")]
    Spoiled,
    /// A worker's thread couldn't be started.
    #[error("a worker could not be started")]
    NoWorker,
    /// A body refused, with this number.
    #[error("a body refused with {0}")]
    BodyFault(u32),
}

/// Why an engine doesn't take an input. After each of these nothing has changed.
#[derive(Clone, Copy, PartialEq, Eq, Debug, Error)]
pub enum InputFault {
    /// An allocation failed.
    #[error("out of memory")]
    Memory,
    /// The clock gives no further tick, or the events of the kind no further number.
    #[error("the clock is spent")]
    ClockSpent,
    /// No index is left for a new entity.
    #[error("the ids are spent")]
    IdsSpent,
    /// A run stopped, and no state was set since.
    #[error("the engine is spoiled")]
    Spoiled,
}

/// Why an engine doesn't take a state. After each of these nothing has changed.
#[derive(Clone, Copy, PartialEq, Eq, Debug, Error)]
pub enum SetFault {
    /// The numbers of memories, or of a memory's cursors, are not those of the schedule.
    #[error("the numbers of memories and cursors are not those of the schedule")]
    Count,
    /// A body was lost with its thread, or doesn't fit its system any more.
    #[error("a body is lost")]
    Bodies,
    /// An allocation failed.
    #[error("out of memory")]
    Memory,
}

impl From<AllocError> for NewFault {
    ghost from_gives = { λ _ fault. fault ≡ new_fault.Memory };

    fn from(_error: AllocError) -> Self {
        NewFault::Memory
    }
}

impl From<AllocError> for RunFault {
    ghost from_gives = { λ _ fault. fault ≡ run_fault.Memory };

    fn from(_error: AllocError) -> Self {
        RunFault::Memory
    }
}

impl From<Stop> for RunFault {
    ghost from_gives = { λ error fault. fault ≡ fault_of error };

    fn from(error: Stop) -> Self {
        match error {
            Stop::Memory => RunFault::Memory,
            Stop::NoWorker => RunFault::NoWorker,
            Stop::NoTick | Stop::NoEventNumber => RunFault::ClockSpent,
            Stop::NoIds => RunFault::IdsSpent,
            Stop::Refused(number) => RunFault::BodyFault(number),
        }
    }
}

impl From<PutFault> for InputFault {
    ghost from_gives = { λ error told. told ≡ fault_of_put error };

    fn from(error: PutFault) -> Self {
        match error {
            PutFault::Memory => InputFault::Memory,
            PutFault::NoTick | PutFault::NoEventNumber => InputFault::ClockSpent,
            PutFault::NoIds => InputFault::IdsSpent,
        }
    }
}

impl From<AllocError> for SetFault {
    ghost from_gives = { λ _ fault. fault ≡ set_fault.Memory };

    fn from(_error: AllocError) -> Self {
        SetFault::Memory
    }
}
