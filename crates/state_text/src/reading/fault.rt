// Why a text is no state.

ghost use Rattle.std.specs.Prelude.{◌≡◌};
ghost use Rattle.state_text.specs.declared.reading.fault.LineFault.TheVariants as line;
ghost use Rattle.state_text.specs.declared.reading.fault.StateFault.TheVariants as whole;

use std::alloc::AllocError;
use thiserror::Error;

/// Why a text is read as no state. Lines are counted from 1.
#[derive(Clone, Copy, PartialEq, Eq, Debug, Error)]
pub enum StateFault {
    /// This line isn't spelled as a line of a state at its place, or it is missing.
    #[error("line {0} is no line of a state")]
    Outside(usize),
    /// This line is spelled as one, and no state has it.
    #[error("line {0} is of no state")]
    NoState(usize),
    /// An allocation failed.
    #[error("out of memory")]
    Memory,
}

// Why a line is refused.
#[derive(Clone, Copy)]
pub(crate) enum LineFault {
    // It is spelled otherwise.
    Outside,
    // No state has it.
    NoState,
    // An allocation failed.
    Memory,
}

impl LineFault {
    // The fault of a text in which this line is refused.
    pub(crate) fn at(self, line: usize) -> StateFault
        ensures { self ≡ LineFault.Memory → result ≡ StateFault.Memory }
    {
        match self {
            LineFault::Outside => StateFault::Outside(line),
            LineFault::NoState => StateFault::NoState(line),
            LineFault::Memory => StateFault::Memory,
        }
    }
}

impl From<AllocError> for LineFault {
    ghost from_gives = { λ _ e. e ≡ line.Memory };

    fn from(_error: AllocError) -> Self {
        LineFault::Memory
    }
}

impl From<AllocError> for StateFault {
    ghost from_gives = { λ _ e. e ≡ whole.Memory };

    fn from(_error: AllocError) -> Self {
        StateFault::Memory
    }
}
