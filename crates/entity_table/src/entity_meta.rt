// One index: its generation and its status.

ghost use Rattle.std.specs.Prelude.{◌≡◌, []};
ghost use Rattle.model.specs.state.State.{fresh_slot, is_living, is_vacant, is_granted};
ghost use Rattle.model.specs.state.State.{Status as ModelStatus};
ghost use Rattle.model.specs.state.Ids.{granted_slot};
ghost use Rattle.model.specs.state.Commands.{freed};
ghost use Rattle.entity_table.specs.Ids.{vacated};
ghost use Rattle.entity_table.specs.Status.{status_of, empty_slot};

use crate::status::Status;
use std::marker::Model;

/// One index, which contracts see as a slot without components.
#[derive(Drop)]
pub(crate) struct EntityMeta {
    generation: u32,
    status: Status,
}

impl Model for EntityMeta {
    ghost use Rattle.std.specs.Prelude.{[]};
    ghost use Rattle.model.specs.state.State.{Slot};
    ghost use Rattle.entity_table.specs.Status.{status_of};

    ghost Value = { Slot };

    ghost view = { λ p. record {
      generation = p.generation;
      status = status_of p.status;
      row = [];
    } };
}

impl EntityMeta {
    /// A vacant index at generation 1.
    pub fn fresh() -> Self
        ensures { result ≡ fresh_slot }
    {
        EntityMeta {
            generation: 1,
            status: Status::Vacant,
        }
    }

    /// An index of this generation and status.
    pub fn of(generation: u32, status: Status) -> Self
        ensures { result ≡ empty_slot generation status }
    {
        EntityMeta { generation, status }
    }

    /// The same once more.
    pub fn copy(&self) -> Self
        ensures { result ≡ self.now }
    {
        EntityMeta {
            generation: self.generation,
            status: self.status,
        }
    }

    /// The generation.
    pub fn generation(&self) -> u32
        ensures { result ≡ self.now.generation }
    {
        self.generation
    }

    /// The status of the index.
    pub fn status(&self) -> Status
        ensures { status_of result ≡ self.now.status }
    {
        self.status
    }

    /// Whether the entity of the index lives.
    pub fn is_living(&self) -> bool
        ensures { result ≡ is_living self.now.status }
    {
        matches!(self.status, Status::Living)
    }

    /// Whether the index can be granted.
    pub fn is_vacant(&self) -> bool
        ensures { result ≡ is_vacant self.now.status }
    {
        matches!(self.status, Status::Vacant)
    }

    /// Whether the index was granted and is not settled.
    pub fn is_granted(&self) -> bool
        ensures { result ≡ is_granted self.now.status }
    {
        matches!(self.status, Status::Granted)
    }

    /// Grants the index.
    pub fn grant(&mut self)
        ensures { self.new ≡ granted_slot self.old }
    {
        self.status = Status::Granted;
    }

    /// Takes a grant back: the index is vacant at the generation that it has.
    pub fn take_back(&mut self)
        ensures { self.new ≡ vacated self.old }
    {
        self.status = Status::Vacant;
    }

    /// Makes the entity of the index live.
    pub fn spawn(&mut self)
        ensures { self.new
            ≡ record { generation = self.old.generation; status = ModelStatus.Living; row = [] } }
    {
        self.status = Status::Living;
    }

    /// Frees the index: it is vacant with one more generation, or retired where that can't grow.
    pub fn free(&mut self)
        ensures { self.new ≡ freed self.old }
    {
        if self.generation == u32::MAX {
            self.status = Status::Retired;
        } else {
            self.generation += 1;
            self.status = Status::Vacant;
        }
    }
}
