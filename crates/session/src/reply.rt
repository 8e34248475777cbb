// What is replied to a request.

ghost use Rattle.std.specs.Prelude.{◌≡◌, []};
ghost use Rattle.session.specs.Replies.{line_count};

use engine::RunFault;
use entity_table::Entity;
use executor_core::Trace;
use std::alloc::Global;
use std::fmt;

/// Why a request is refused. Nothing has changed then.
#[derive(Clone, Copy, PartialEq, Eq, Debug)]
pub enum Refusal {
    /// A run was lost, and no state was set since.
    Lost,
    /// The clock gives no further tick, or the events of the kind no further number.
    ClockSpent,
    /// No index is left for a new entity.
    IdsSpent,
    /// No state is kept under the name.
    NoMark,
    /// 64 states are kept already, none under the name.
    ManyMarks,
    /// The line is no request.
    Unknown,
    /// The line is too long.
    TooLong,
    /// The query can't be answered.
    Query,
    /// This line of a text to be loaded is no line of a state, or it is missing.
    Outside(usize),
    /// This line of a text to be loaded is of no state.
    NoState(usize),
    /// The text to be loaded is too long.
    LongText,
    /// The state to be loaded hasn't the memories of the schedule.
    OtherMemories,
    /// The state to be loaded is one of another program file.
    OtherFile,
}

impl fmt::Display for Refusal {
    ghost use Rattle.std.specs.Prelude.{Some};
    ghost use Rattle.session.specs.Replies.{refusal_code};

    ghost output = { λ refusal. Some (refusal_code refusal) };

    fn fmt<W: fmt::Write>(&self, f: &mut fmt::Formatter<W>) -> fmt::Result {
        match self {
            Refusal::Lost => f.write_str("R1"),
            Refusal::ClockSpent => f.write_str("E2"),
            Refusal::IdsSpent => f.write_str("E3"),
            Refusal::NoMark => f.write_str("M1"),
            Refusal::ManyMarks => f.write_str("M2"),
            Refusal::Unknown => f.write_str("Q1"),
            Refusal::TooLong => f.write_str("Q2"),
            Refusal::Query => f.write_str("Q3"),
            Refusal::Outside(line) => write!(f, "T1 {line}"),
            Refusal::NoState(line) => write!(f, "T2 {line}"),
            Refusal::LongText => f.write_str("T3"),
            Refusal::OtherMemories => f.write_str("T4"),
            Refusal::OtherFile => f.write_str("T5"),
        }
    }
}

/// What a request shows, as lines.
#[derive(Drop)]
pub enum Shown {
    /// No line.
    Nothing,
    /// The id of a new entity.
    Id(Entity),
    /// `done` where an entity was changed, `passed` where it didn't live and the input was skipped.
    Changed(bool),
    /// These lines, each with its end.
    Lines(String),
}

impl fmt::Display for Shown {
    ghost use Rattle.std.specs.Prelude.{Some};
    ghost use Rattle.session.specs.Replies.{shown_text};

    ghost output = { λ shown. Some (shown_text shown) };

    fn fmt<W: fmt::Write>(&self, f: &mut fmt::Formatter<W>) -> fmt::Result {
        match self {
            Shown::Nothing => Ok(()),
            Shown::Id(entity) => writeln!(f, "{entity}"),
            Shown::Changed(true) => f.write_str("done\n"),
            Shown::Changed(false) => f.write_str("passed\n"),
            Shown::Lines(text) => f.write_str(text.as_str()),
        }
    }
}

impl Shown {
    /// How many lines there are.
    pub fn count(&self) -> usize
        ensures { result ≡ line_count self.now }
    {
        match self {
            Shown::Nothing => 0,
            Shown::Id(_) | Shown::Changed(_) => 1,
            Shown::Lines(text) => text.bytes().filter(|byte| *byte == b'\n').count(),
        }
    }
}

/// The reply to a request: one line, and behind it the lines that the request shows. Printed as they are sent.
#[derive(Drop)]
pub enum Reply {
    /// The request is done.
    Done {
        /// The clock then, 0 where the state is lost.
        clock: u64,
        /// What the request shows.
        shown: Shown,
    },
    /// The request is refused, and nothing has changed.
    Refused(Refusal),
    /// An allocation failed, and nothing has changed.
    Failed,
    /// A run failed, and the state is lost.
    Lost(RunFault),
}

/// The reply to a request, and the traces of the runs that were done for it.
#[derive(Drop)]
pub struct Answered {
    /// The reply.
    pub reply: Reply,
    /// A trace for each run.
    pub runs: Vec<Trace>,
}

impl Answered {
    // A reply behind which nothing was run.
    pub(crate) fn still(alloc: Global, reply: Reply) -> Self
        ensures reply { result.reply ≡ reply }
        ensures none { result.runs.items ≡ [] }
    {
        Answered {
            reply,
            runs: Vec::new(alloc),
        }
    }
}

impl fmt::Display for Reply {
    ghost use Rattle.std.specs.Prelude.{Some};
    ghost use Rattle.session.specs.Replies.{reply_text};

    ghost output = { λ reply. Some (reply_text reply) };

    fn fmt<W: fmt::Write>(&self, f: &mut fmt::Formatter<W>) -> fmt::Result {
        match self {
            Reply::Done { clock, shown } => {
                let count = shown.count();
                write!(f, "ok {count} {clock}\n{shown}")
            }
            Reply::Refused(refusal) => writeln!(f, "refused {refusal}"),
            Reply::Failed => f.write_str("error memory\n"),
            Reply::Lost(fault) => {
                let code = Loss(*fault);
                writeln!(f, "lost {code}")
            }
        }
    }
}

// Why a run failed, printed as its code.
#[derive(Clone, Copy)]
struct Loss(RunFault);

impl fmt::Display for Loss {
    ghost use Rattle.std.specs.Prelude.{Some};
    ghost use Rattle.session.specs.Replies.{loss_code};

    ghost output = { λ loss. Some (loss_code loss.0) };

    fn fmt<W: fmt::Write>(&self, f: &mut fmt::Formatter<W>) -> fmt::Result {
        f.write_str(match self.0 {
            RunFault::Memory => "memory",
            RunFault::ClockSpent => "E2",
            RunFault::IdsSpent => "E3",
            RunFault::Spoiled => "R1",
            RunFault::NoWorker => "worker",
            RunFault::BodyFault(_) => "E6",
        })
    }
}
