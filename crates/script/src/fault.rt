// Why a script is refused.

ghost use Rattle.std.specs.Prelude.{◌≡◌, Some};
ghost use Rattle.script.specs.Faults.{cause_number, cause_text, least};
ghost use Rattle.script.specs.declared.fault.CheckFault.TheVariants as check_fault;

use std::alloc::AllocError;
use std::fmt;
use thiserror::Error;

/// A fault of a block or an instruction. Printed as the program reports it.
#[derive(Clone, Copy, PartialEq, Eq, Debug)]
pub enum Cause {
    /// X1: the block names no query of the system, or a kind is not fetched by the query. Or the target has no `mut`
    /// term, or the query shows no entity.
    NotFetched,
    /// X2: the system does not name a resource that is read, or does not write one that is a target. Or it doesn't
    /// read the events of the block, or write those that are emitted. Or there is no event at hand.
    NotDeclared,
    /// X3: the kind has no such field, or another number of them.
    NoField,
    /// X4: more instructions are skipped than come after in the block.
    PastEnd,
    /// X5: there is no such register.
    NoRegister,
    /// X6: a command is issued and the system has no Commands, or is granted no id for the slot. Or a slot is spawned
    /// by code that may run more than once, or was spawned by an earlier instruction of the system.
    NotGranted,
}

impl Cause {
    // The number that it is reported by.
    fn number(self) -> u32
        ensures { result ≡ cause_number self }
    {
        match self {
            Cause::NotFetched => 1,
            Cause::NotDeclared => 2,
            Cause::NoField => 3,
            Cause::PastEnd => 4,
            Cause::NoRegister => 5,
            Cause::NotGranted => 6,
        }
    }

    // The one with the lesser number, where there are two.
    pub(crate) fn least(first: Option<Cause>, second: Option<Cause>) -> Option<Cause>
        ensures { result ≡ least first second }
    {
        match (first, second) {
            (Some(cause), Some(other)) if other.number() < cause.number() => Some(other),
            (Some(cause), _) => Some(cause),
            (None, other) => other,
        }
    }
}

impl fmt::Display for Cause {
    ghost output = { λ cause. Some (cause_text cause) };

    fn fmt<W: fmt::Write>(&self, f: &mut fmt::Formatter<W>) -> fmt::Result {
        write!(f, "X{}", self.number())
    }
}

/// The first fault of a script. A block's own fault is reported at instruction 0.
#[derive(Clone, Copy, PartialEq, Eq, Debug, Error)]
#[error("block {block}, instruction {instruction}")]
pub struct ScriptFault {
    /// The fault.
    pub cause: Cause,
    /// The number of the block, from 0.
    pub block: usize,
    /// The number of the instruction in its block, from 0.
    pub instruction: usize,
}

/// Why a script isn't made.
#[derive(Clone, Copy, PartialEq, Eq, Debug, Error)]
pub enum CheckFault {
    /// Its first fault.
    #[error("{0}")]
    Script(ScriptFault),
    /// An allocation failed.
    #[error("error memory")]
    Memory,
}

impl From<AllocError> for CheckFault {
    ghost from_gives = { λ _ fault. fault ≡ check_fault.Memory };

    fn from(_error: AllocError) -> CheckFault {
        CheckFault::Memory
    }
}

impl From<ScriptFault> for CheckFault {
    ghost from_gives = { λ error fault. fault ≡ check_fault.Script error };

    fn from(error: ScriptFault) -> CheckFault {
        CheckFault::Script(error)
    }
}
