// Why the program ends with another status than 0, each reported by one line.

ghost use Rattle.std.specs.Prelude.{◌≡◌, Some};
ghost use Rattle.program.specs.Fault.{status_of, fault_text, fault_of_read, fault_of_file, fault_of_build, fault_of_grant, fault_of_text, IsScriptFault};
ghost use Rattle.program.specs.declared.fault.Fault.TheVariants.{Memory, Write};

use archetype_store::fault::GrantFault;
use executor_core::StepFault;
use program_file::FileFault;
use schedule_builder::BuildFault;
use script::{Cause, ScriptFault};
use std::alloc::{AllocError, AllocFailed, Global};
use std::error::Error;
use std::fmt;
use streams::{ReadFault, WriteFault};
use trace_checker::TextFault;
use trace_checker::check::number_of;

/// Why the work is not done. It is printed as the line that the standard error gets, without its end.
#[derive(Drop)]
pub enum Fault {
    /// The program file is longer than its limit.
    TooLong,
    /// The program file is not read, for another cause than memory.
    Content(FileFault),
    /// The schedule is refused, for another cause than memory.
    Build(BuildFault),
    /// The script of a system is refused.
    Script {
        cause: Cause,
        system: String,
        block: usize,
        instruction: usize,
    },
    /// A trace is longer than its limit: one that is read, or one that would be written.
    TraceTooLong,
    /// This line of a trace, counted from 1, is outside the grammar, or has no end.
    TraceLine(usize),
    /// This line of a trace, counted from 1, begins another run than the next one, or is a step before any run.
    TraceOrder(usize),
    /// At this line of a trace, counted from 1, archetypes are wanted and missing, or present and not wanted. The
    /// line itself may be missing.
    TraceLists(usize),
    /// This step of this run of a trace, both counted from 1, is the first that may not come, for this fault.
    BadStep {
        run: usize,
        step: usize,
        fault: StepFault,
    },
    /// All steps of this run of a trace, counted from 1, are lawful, and some are missing.
    UnfinishedRun {
        run: usize,
    },
    /// This step of this run of a trace, both counted from 1, is the first whose recorded answer isn't what its condition means there.
    WrongAnswer {
        run: usize,
        step: usize,
    },
    /// The first recorded archetypes that aren't those of the living entities there. This run of a trace, counted
    /// from 1, recorded them after this step, or at its opening for 0.
    WrongSets {
        run: usize,
        step: usize,
    },
    /// The clock has no next tick.
    ClockSpent,
    /// No ids are left: for the entities of the file, or for a system at its start.
    IdsSpent,
    /// The body of a system refused. No script does.
    BodyRefused,
    /// A file can't be read.
    File,
    /// A write failed.
    Write,
    /// An allocation failed.
    Memory,
    /// A worker's thread couldn't be started.
    NoWorker,
}

impl fmt::Display for Fault {
    ghost output = { λ fault. Some (fault_text fault) };

    fn fmt<W: fmt::Write>(&self, f: &mut fmt::Formatter<W>) -> fmt::Result {
        match self {
            Fault::TooLong => write!(f, "refused P4"),
            Fault::Content(fault) => write!(f, "{fault}"),
            Fault::Build(fault) => write!(f, "{fault}"),
            Fault::Script {
                cause,
                system,
                block,
                instruction,
            } => write!(f, "refused {cause} {system} {block} {instruction}"),
            Fault::TraceTooLong => write!(f, "refused L3"),
            Fault::TraceLine(line) => write!(f, "refused L1 {line}"),
            Fault::TraceOrder(line) => write!(f, "refused L2 {line}"),
            Fault::TraceLists(line) => write!(f, "refused L4 {line}"),
            Fault::BadStep { run, step, fault } => {
                let number = number_of(*fault);
                write!(f, "refused run {run} step {step} S{number}")
            }
            Fault::UnfinishedRun { run } => write!(f, "refused run {run} unfinished"),
            Fault::WrongAnswer { run, step } => write!(f, "refused run {run} step {step} answer"),
            Fault::WrongSets { run, step } => write!(f, "refused run {run} step {step} sets"),
            Fault::ClockSpent => write!(f, "refused E2"),
            Fault::IdsSpent => write!(f, "refused E3"),
            Fault::BodyRefused => write!(f, "refused E6"),
            Fault::File => write!(f, "error file"),
            Fault::Write => write!(f, "error write"),
            Fault::Memory => write!(f, "error memory"),
            Fault::NoWorker => write!(f, "error worker"),
        }
    }
}

impl fmt::Debug for Fault {
    ghost debug_output = { λ fault. Some (fault_text fault) };

    fn fmt<W: fmt::Write>(&self, f: &mut fmt::Formatter<W>) -> fmt::Result {
        fmt::Display::fmt(self, f)
    }
}

impl Error for Fault {}

impl Fault {
    /// The exit status: 1 where the content is refused, 3 where input, output, memory or a thread fail.
    pub fn status(&self) -> u8
        ensures { result ≡ status_of self.now }
    {
        match self {
            Fault::File | Fault::Write | Fault::Memory | Fault::NoWorker => 3,
            _ => 1,
        }
    }

    /// The fault of the script of the system of this name. It is `Memory` where an allocation fails for the name.
    pub fn of_script(alloc: Global, name: &str, fault: ScriptFault) -> Fault
        ensures { IsScriptFault name.now fault result }
    {
        match String::from_str(alloc, name) {
            Ok(system) => Fault::Script {
                cause: fault.cause,
                system,
                block: fault.block,
                instruction: fault.instruction,
            },
            Err(_) => Fault::Memory,
        }
    }
}

impl From<AllocError> for Fault {
    ghost from_gives = { λ _ fault. fault ≡ Memory };

    fn from(_error: AllocError) -> Fault {
        Fault::Memory
    }
}

impl<T: Drop> From<AllocFailed<T>> for Fault {
    ghost from_gives = { λ _ fault. fault ≡ Memory };

    fn from(_error: AllocFailed<T>) -> Fault {
        Fault::Memory
    }
}

impl From<ReadFault> for Fault {
    ghost from_gives = { λ error fault. fault ≡ fault_of_read error };

    fn from(error: ReadFault) -> Fault {
        match error {
            ReadFault::TooLong => Fault::TooLong,
            ReadFault::Failed => Fault::File,
            ReadFault::Memory => Fault::Memory,
        }
    }
}

impl From<FileFault> for Fault {
    ghost from_gives = { λ error fault. fault ≡ fault_of_file error };

    fn from(error: FileFault) -> Fault {
        match error {
            FileFault::Memory => Fault::Memory,
            error => Fault::Content(error),
        }
    }
}

impl From<BuildFault> for Fault {
    ghost from_gives = { λ error fault. fault ≡ fault_of_build error };

    fn from(error: BuildFault) -> Fault {
        match error {
            BuildFault::Memory => Fault::Memory,
            error => Fault::Build(error),
        }
    }
}

impl From<GrantFault> for Fault {
    ghost from_gives = { λ error fault. fault ≡ fault_of_grant error };

    fn from(error: GrantFault) -> Fault {
        match error {
            GrantFault::IdsSpent => Fault::IdsSpent,
            GrantFault::Memory => Fault::Memory,
        }
    }
}

impl From<TextFault> for Fault {
    ghost from_gives = { λ error fault. fault ≡ fault_of_text error };

    fn from(error: TextFault) -> Fault {
        match error {
            TextFault::Line(line) => Fault::TraceLine(line),
            TextFault::Order(line) => Fault::TraceOrder(line),
            TextFault::Lists(line) => Fault::TraceLists(line),
            TextFault::Memory => Fault::Memory,
        }
    }
}

impl From<WriteFault> for Fault {
    ghost from_gives = { λ _ fault. fault ≡ Write };

    fn from(_error: WriteFault) -> Fault {
        Fault::Write
    }
}
