// Why a program file is not read.

ghost use Rattle.std.specs.Prelude.{◌≡◌, Some};
ghost use Rattle.program_file.specs.FaultText.{file_fault_text};
ghost use Rattle.program_file.specs.declared.fault.FileFault.TheVariants.{Memory};

use crate::place::Place;
use std::alloc::{AllocError, AllocFailed};
use std::error::Error;
use std::fmt;

/// Why a program file is not read. It is printed as the line that reports it, without its end.
#[derive(Clone, Copy, PartialEq, Eq, Debug)]
pub enum FileFault {
    /// The file is no TOML document.
    Document,
    /// A key is unknown or missing, or its value is none that the key can have.
    Value(Place),
    /// A query or an instruction is outside its grammar.
    Text(Place),
    /// An allocation failed.
    Memory,
}

impl fmt::Display for FileFault {
    ghost output = { λ fault. Some (file_fault_text fault) };

    fn fmt<W: fmt::Write>(&self, f: &mut fmt::Formatter<W>) -> fmt::Result {
        match self {
            FileFault::Document => write!(f, "refused P1"),
            FileFault::Value(place) => write!(f, "refused P2 {place}"),
            FileFault::Text(place) => write!(f, "refused P3 {place}"),
            FileFault::Memory => write!(f, "error memory"),
        }
    }
}

impl Error for FileFault {}

impl From<AllocError> for FileFault {
    ghost from_gives = { λ _ fault. fault ≡ Memory };

    fn from(_error: AllocError) -> FileFault {
        FileFault::Memory
    }
}

impl<T: Drop> From<AllocFailed<T>> for FileFault {
    ghost from_gives = { λ _ fault. fault ≡ Memory };

    fn from(_error: AllocFailed<T>) -> FileFault {
        FileFault::Memory
    }
}
