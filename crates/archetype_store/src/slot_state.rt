// What an index is: its generation and its status.

ghost use Rattle.std.specs.Prelude.{◌≡◌};
ghost use Rattle.model.specs.state.State.{is_living};
ghost use Rattle.entity_table.specs.Status.{status_of};

use entity_table::Status;
use std::marker::Model;

/// The generation and the status of an index.
#[derive(Drop)]
pub struct SlotState {
    generation: u32,
    status: Status,
}

impl Model for SlotState {
    ghost use Rattle.entity_table.specs.Status.{status_of};
    ghost use Rattle.archetype_store.specs.Slot.{SlotValue};

    ghost Value = { SlotValue };

    ghost view = { λ s. record { generation = s.generation; status = status_of s.status } };
}

impl SlotState {
    // What is of this generation and this status.
    pub(crate) fn of(generation: u32, status: Status) -> Self
        ensures { result ≡ record { generation = generation; status = status_of status } }
    {
        SlotState { generation, status }
    }

    /// The generation.
    pub fn generation(&self) -> u32
        ensures { result ≡ self.now.generation }
    {
        self.generation
    }

    /// The status.
    pub fn status(&self) -> Status
        ensures { status_of result ≡ self.now.status }
    {
        self.status
    }

    /// Whether the entity of the index lives.
    pub fn is_living(&self) -> bool
        ensures { result ≡ is_living self.now.status }
    {
        matches!(self.status, Status::Living)
    }
}
