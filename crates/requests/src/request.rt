// What a host asks for, and why a line is no request.

ghost use Rattle.std.specs.Prelude.{◌≡◌};
ghost use Rattle.requests.specs.declared.request.RequestFault.TheVariants as fault;
ghost use Rattle.requests.specs.Faults.{fault_of_read};

use body::Input;
use change_ticks::Tick;
use entity_table::Entity;
use kinds::Event;
use parsing::ReadError;
use query::Query;
use std::alloc::AllocError;
use thiserror::Error;

/// What a host asks for in a line.
#[derive(Drop)]
pub enum Request<'a> {
    /// Who answers, and what of.
    Hello,
    /// The number of runs: 0 to 4,096.
    Run(u32),
    /// That an input is put in.
    Put(Input),
    /// The state, as text.
    World,
    /// An entity, as text.
    Entity(Entity),
    /// The rows of a query, with what is new since a tick.
    Query(Tick, Query),
    /// The values of the resources.
    Resources,
    /// The kept events of a kind, from a number on.
    Events(Event, u64),
    /// The state without its ticks, as text.
    Values,
    /// The whole state, as text.
    Save,
    /// The digest of the values.
    Digest,
    /// That the state is kept under a name.
    Mark(&'a str),
    /// That the state is what was kept under a name.
    Back(&'a str),
    /// That what was kept under a name is let go.
    Forget(&'a str),
    /// That the session ends.
    Quit,
}

/// Why a line is no request.
#[derive(Clone, Copy, PartialEq, Eq, Debug, Error)]
pub enum RequestFault {
    /// The line is none of the requests.
    #[error("the line is no request")]
    Unknown,
    /// The line asks for the rows of a query that isn't one, or that has a fault.
    #[error("the request has no query that can be answered")]
    Query,
    /// An allocation failed. Nothing is said of the line.
    #[error("out of memory")]
    Memory,
}

impl From<AllocError> for RequestFault {
    ghost from_gives = { λ _ told. told ≡ fault.Memory };

    fn from(_error: AllocError) -> Self {
        RequestFault::Memory
    }
}

impl From<ReadError> for RequestFault {
    ghost from_gives = { λ error told. told ≡ fault_of_read error };

    fn from(error: ReadError) -> Self {
        match error {
            ReadError::Outside => RequestFault::Unknown,
            ReadError::Memory => RequestFault::Memory,
        }
    }
}
