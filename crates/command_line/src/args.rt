// The command line.

ghost use Rattle.std.specs.Prelude.{◌≡◌};
ghost use Rattle.clap.specs.Words.{kind_of};
ghost use Rattle.command_line.specs.Args.{IsReportedBy, IsReportedOf, IsWithin, is_recorded, line_status_of, line_text_of};
ghost use Rattle.command_line.specs.declared.args.LineFault.TheVariants as line_fault;

use clap::Error;
use clap::error::ErrorKind;
use std::alloc::{AllocError, Global};

/// The work that a command line asks for.
#[derive(Clone, Copy, PartialEq, Eq, Debug)]
pub enum Work {
    /// A number of runs of the schedule, and the world that they leave.
    Run {
        /// How many runs, at most 1,000,000.
        times: u32,
        /// How many worker threads, at most 64. With none all is done on the program's own thread.
        workers: u8,
        /// Whether the traces of the runs are written.
        recorded: bool,
    },
    /// The report of which systems of the schedule race.
    Ambiguities,
    /// What the schedule says of the runs of a trace.
    Check,
    /// The runs of a trace taken again, and the world that they leave.
    Replay,
}

impl Work {
    /// Whether it is runs whose traces are written.
    pub fn is_recorded(&self) -> bool
        ensures { result ≡ is_recorded self.now }
    {
        match self {
            Work::Run { recorded, .. } => *recorded,
            Work::Ambiguities | Work::Check | Work::Replay => false,
        }
    }
}

/// What a command line asks for: some work on the schedule that a file declares.
#[derive(Clone, Copy, PartialEq, Eq, Debug)]
pub struct Args<'a> {
    /// The path of the program file.
    pub file: &'a str,
    /// The path of the trace that is read; empty where none is.
    pub trace: &'a str,
    /// The path of the file in which runs are recorded; empty where none are.
    pub record: &'a str,
    /// The work.
    pub work: Work,
    ghost within: { IsWithin work },
}

/// A command line that asks for no work.
#[derive(Debug, Drop)]
pub enum LineFault {
    /// Help is asked for.
    Help(String),
    /// The line is outside what the program takes.
    Usage(String),
    /// An allocation failed.
    Memory,
}

impl LineFault {
    /// The text that is printed, some lines of it.
    pub fn text(&self) -> &str
        ensures { result.now ≡ line_text_of self.now }
    {
        match self {
            LineFault::Help(text) | LineFault::Usage(text) => text.as_str(),
            LineFault::Memory => "error memory\n",
        }
    }

    /// The exit status: 0 for help, 2 for a line at fault, 3 where an allocation fails.
    pub fn status(&self) -> u8
        ensures { result ≡ line_status_of self.now }
    {
        match self {
            LineFault::Help(_) => 0,
            LineFault::Usage(_) => 2,
            LineFault::Memory => 3,
        }
    }

    /// A line outside what the program takes, reported by this text.
    pub fn usage(alloc: Global, text: &str) -> LineFault
        ensures { IsReportedBy text.now result }
    {
        match String::from_str(alloc, text) {
            Ok(text) => LineFault::Usage(text),
            Err(_) => LineFault::Memory,
        }
    }

    /// An answer of the parser without matches means this here. It is help where it was asked for. Otherwise it is a
    /// line at fault, reported by the parser's text.
    pub fn of(alloc: Global, error: &Error) -> LineFault
        ensures memory { kind_of error.now ≡ ErrorKind.OutOfMemory → result ≡ LineFault.Memory }
        ensures told { IsReportedOf (kind_of error.now) result }
    {
        if error.kind() == ErrorKind::OutOfMemory {
            return LineFault::Memory;
        }
        match error.to_string(alloc) {
            Ok(text) => LineFault::told_of(error.kind(), text),
            Err(_) => LineFault::Memory,
        }
    }

    // The same, where the parser's text is this.
    fn told_of(kind: ErrorKind, text: String) -> LineFault
        ensures { IsReportedOf kind result }
    {
        match kind {
            ErrorKind::DisplayHelp | ErrorKind::DisplayVersion => LineFault::Help(text),
            _ => LineFault::Usage(text),
        }
    }
}

impl From<AllocError> for LineFault {
    ghost from_gives = { λ _ fault. fault ≡ line_fault.Memory };

    fn from(_error: AllocError) -> LineFault {
        LineFault::Memory
    }
}
