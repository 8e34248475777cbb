// What is wrong within one place of a program file.

ghost use Rattle.std.specs.Prelude.{◌≡◌};
ghost use Rattle.program_file.specs.PlaceFault.{fault_at, place_fault_of, IsOfPlace};
ghost use Rattle.program_file.specs.declared.place_fault.PlaceFault.TheVariants.{Memory};

use crate::fault::FileFault;
use crate::place::Place;
use parsing::ReadError;
use std::alloc::{AllocError, AllocFailed};

/// Why a place of a program file is not read. A caller that knows the place adds it.
#[derive(Clone, Copy, PartialEq, Eq, Debug)]
pub enum PlaceFault {
    /// A key is unknown or missing, or its value is none that the key can have.
    Value,
    /// A text is outside its grammar.
    Text,
    /// An allocation failed.
    Memory,
}

impl PlaceFault {
    /// The fault that is reported of a place.
    pub fn at(self, place: Place) -> FileFault
        ensures fault { result ≡ fault_at place self }
        ensures of_place { IsOfPlace result }
    {
        match self {
            PlaceFault::Value => FileFault::Value(place),
            PlaceFault::Text => FileFault::Text(place),
            PlaceFault::Memory => FileFault::Memory,
        }
    }
}

impl From<AllocError> for PlaceFault {
    ghost from_gives = { λ _ fault. fault ≡ Memory };

    fn from(_error: AllocError) -> PlaceFault {
        PlaceFault::Memory
    }
}

impl<T: Drop> From<AllocFailed<T>> for PlaceFault {
    ghost from_gives = { λ _ fault. fault ≡ Memory };

    fn from(_error: AllocFailed<T>) -> PlaceFault {
        PlaceFault::Memory
    }
}

impl From<ReadError> for PlaceFault {
    ghost from_gives = { λ error fault. fault ≡ place_fault_of error };

    fn from(error: ReadError) -> PlaceFault {
        match error {
            ReadError::Outside => PlaceFault::Text,
            ReadError::Memory => PlaceFault::Memory,
        }
    }
}
