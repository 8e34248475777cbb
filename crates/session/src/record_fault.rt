// Why a record is not taken again.

ghost use Rattle.std.specs.Prelude.{◌≡◌};
ghost use Rattle.session.specs.declared.record_fault.EntryFault.TheVariants as fault;
ghost use Rattle.session.specs.declared.record_fault.RecordFault.TheVariants as record_fault;

use crate::reply::Refusal;
use engine::RunFault;
use requests::RequestFault;
use std::alloc::AllocError;
use std::fmt;
use streams::WriteFault;
use trace_checker::check::number_of;
use trace_checker::{ReplayFault, TextFault};

/// Why an entry of a record is not taken again.
#[derive(Clone, Copy, PartialEq, Eq, Debug)]
pub enum EntryFault {
    /// It is cut short.
    Cut,
    /// It asks for nothing that a record has, or no reply to what is done stands behind it.
    Unknown,
    /// The text of its traces has this fault.
    Text(TextFault),
    /// It has another number of traces than of runs.
    Count,
    /// The recorded run of this number, from 1, is refused.
    Run(usize, ReplayFault),
    /// Its request is refused.
    Refused(Refusal),
    /// The reply is another than the one that was told.
    Reply,
    /// An allocation failed.
    Memory,
}

impl From<AllocError> for EntryFault {
    ghost from_gives = { λ _ told. told ≡ fault.Memory };

    fn from(_error: AllocError) -> Self {
        EntryFault::Memory
    }
}

impl From<TextFault> for EntryFault {
    fn from(fault: TextFault) -> Self {
        match fault {
            TextFault::Memory => EntryFault::Memory,
            fault => EntryFault::Text(fault),
        }
    }
}

impl From<RequestFault> for EntryFault {
    fn from(fault: RequestFault) -> Self {
        match fault {
            RequestFault::Memory => EntryFault::Memory,
            RequestFault::Unknown | RequestFault::Query => EntryFault::Unknown,
        }
    }
}

/// Why a record is not taken again.
#[derive(Clone, Copy, PartialEq, Eq, Debug)]
pub enum RecordFault {
    /// It begins with no line of a record, or with that of another program file.
    File,
    /// The bodies that are to run aren't those of the schedule, or the state of the session is lost.
    Bodies,
    /// The entry of this number, from 1, is not taken again.
    Entry(usize, EntryFault),
    /// A reply can't be written.
    Write,
    /// An allocation failed.
    Memory,
}

impl RecordFault {
    /// What the fault of the entry of this number is reported as.
    pub fn at_entry(number: usize, fault: EntryFault) -> Self {
        match fault {
            EntryFault::Memory => RecordFault::Memory,
            fault => RecordFault::Entry(number, fault),
        }
    }
}

impl From<WriteFault> for RecordFault {
    fn from(_error: WriteFault) -> Self {
        RecordFault::Write
    }
}

impl From<AllocError> for RecordFault {
    ghost from_gives = { λ _ told. told ≡ record_fault.Memory };

    fn from(_error: AllocError) -> Self {
        RecordFault::Memory
    }
}

impl fmt::Display for EntryFault {
    fn fmt<W: fmt::Write>(&self, f: &mut fmt::Formatter<W>) -> fmt::Result {
        match self {
            EntryFault::Cut => f.write_str("cut"),
            EntryFault::Unknown => f.write_str("line"),
            EntryFault::Text(TextFault::Line(line)) => write!(f, "L1 {line}"),
            EntryFault::Text(TextFault::Order(line)) => write!(f, "L2 {line}"),
            EntryFault::Text(TextFault::Lists(line)) => write!(f, "L4 {line}"),
            EntryFault::Count => f.write_str("runs"),
            EntryFault::Run(run, fault) => write_run(f, *run, *fault),
            EntryFault::Refused(why) => write!(f, "{why}"),
            EntryFault::Reply => f.write_str("reply"),
            EntryFault::Text(TextFault::Memory) | EntryFault::Memory => f.write_str("memory"),
        }
    }
}

// Why the recorded run of this number is not taken again.
fn write_run<W: fmt::Write>(
    f: &mut fmt::Formatter<W>,
    run: usize,
    fault: ReplayFault,
) -> fmt::Result {
    match fault {
        ReplayFault::Bad(step, fault) => {
            let number = number_of(fault);
            write!(f, "run {run} step {step} S{number}")
        }
        ReplayFault::Unfinished => write!(f, "run {run} unfinished"),
        ReplayFault::WrongAnswer(step) => write!(f, "run {run} step {step} answer"),
        ReplayFault::WrongSets(step) => write!(f, "run {run} step {step} sets"),
        ReplayFault::Run(RunFault::ClockSpent) => write!(f, "run {run} E2"),
        ReplayFault::Run(RunFault::IdsSpent) => write!(f, "run {run} E3"),
        ReplayFault::Run(RunFault::BodyFault(_)) => write!(f, "run {run} E6"),
        ReplayFault::Run(_) => write!(f, "run {run} memory"),
    }
}

impl fmt::Display for RecordFault {
    fn fmt<W: fmt::Write>(&self, f: &mut fmt::Formatter<W>) -> fmt::Result {
        match self {
            RecordFault::File => f.write_str("refused file"),
            RecordFault::Bodies => f.write_str("refused bodies"),
            RecordFault::Entry(number, fault) => write!(f, "refused entry {number} {fault}"),
            RecordFault::Write => f.write_str("error write"),
            RecordFault::Memory => f.write_str("error memory"),
        }
    }
}
