// Why a script is refused.

use crate::reason::Help;
use kinds::Kind;
use std::fmt;

/// Why a script is refused.
#[derive(Clone, Copy)]
pub enum ScriptReason<'a> {
    /// A block names a query that isn't there: its number, and how many there are.
    NoQuery(i64, usize),
    /// A word stands outside of a block with `each`.
    OutsideEach(&'a str),
    /// A component is read that a query of a system doesn't fetch.
    NotFetched(&'a str, Kind, i64, &'a str),
    /// A component is written that a query of a system has no `mut` term for.
    NotMut(&'a str, Kind, i64, &'a str),
    /// `row` stands where a query doesn't show entities.
    NoEntity(i64),
    /// A block is one of an event kind that its system doesn't read.
    EventUnread(&'a str),
    /// `event` stands outside of a block with `events`.
    OutsideEvents,
    /// A resource is read that the system doesn't name.
    ResUnread(&'a str),
    /// A resource is written that the system doesn't write.
    ResUnwritten(&'a str),
    /// An event is emitted of a kind that the system doesn't write.
    EventUnwritten(&'a str),
    /// A kind has no such field.
    NoField(Kind, &'a str),
    /// A component of a kind wants another number of values.
    WrongValues(Kind),
    /// More instructions are passed over than come behind.
    PastEnd(u32, usize),
    /// There is no such register.
    NoRegister(&'a str),
    /// A command of a system without `spawns`.
    NoCommands(&'a str),
    /// An id that isn't granted, of so many.
    NoSlot(&'a str, i64),
    /// A slot is spawned by code that may run more than once.
    SpawnedOften(&'a str),
    /// A slot was spawned before.
    SpawnedBefore(&'a str),
}

impl fmt::Display for ScriptReason<'_> {
    fn fmt<W: fmt::Write>(&self, f: &mut fmt::Formatter<W>) -> fmt::Result {
        match self {
            ScriptReason::NoQuery(number, count) => {
                write!(f, "`each` names query {number} of {count}")
            }
            ScriptReason::OutsideEach(word) => {
                write!(f, "`{word}` stands outside of a block with `each`")
            }
            ScriptReason::NotFetched(word, kind, query, system) => {
                let kind = kind.name();
                write!(
                    f,
                    "`{word}` stands here, and query {query} of `{system}` has no `{kind}`"
                )
            }
            ScriptReason::NotMut(word, kind, query, system) => {
                let kind = kind.name();
                write!(
                    f,
                    "`{word}` is written, and query {query} of `{system}` has no `mut {kind}`"
                )
            }
            ScriptReason::NoEntity(query) => {
                write!(f, "`row` stands here, and query {query} has no `entity`")
            }
            ScriptReason::EventUnread(kind) => write!(f, "`events` names `{kind}`, not in `reads`"),
            ScriptReason::OutsideEvents => {
                write!(f, "`event` stands outside of a block with `events`")
            }
            ScriptReason::ResUnread(word) => {
                write!(f, "`{word}` is read, and is in neither `res` nor `res_mut`")
            }
            ScriptReason::ResUnwritten(word) => {
                write!(f, "`{word}` is written, and is not in `res_mut`")
            }
            other => other.write_other(f),
        }
    }
}

impl<'a> ScriptReason<'a> {
    // The same of what is left.
    fn write_other<W: fmt::Write>(&self, f: &mut fmt::Formatter<W>) -> fmt::Result {
        match self {
            ScriptReason::EventUnwritten(word) => {
                write!(f, "`{word}` is emitted, and is not in `writes`")
            }
            ScriptReason::NoField(kind, word) => {
                let kind = kind.name();
                write!(f, "`{kind}` has no field `{word}`")
            }
            ScriptReason::WrongValues(kind) => {
                let (kind, width) = (kind.name(), kind.width());
                write!(
                    f,
                    "`insert` of `{kind}` wants a value for each field, {width}"
                )
            }
            ScriptReason::PastEnd(passed, behind) => {
                write!(f, "it passes over {passed}, of {behind} that come behind")
            }
            ScriptReason::NoRegister(word) => write!(f, "there is no register `{word}`"),
            ScriptReason::NoCommands(word) => {
                write!(f, "`{word}` is a command, and the system has no `spawns`")
            }
            ScriptReason::NoSlot(word, count) => {
                write!(f, "`{word}` is not granted: `spawns` is {count}")
            }
            ScriptReason::SpawnedOften(word) => {
                write!(
                    f,
                    "`{word}` is spawned in a block that may run more than once"
                )
            }
            ScriptReason::SpawnedBefore(word) => write!(f, "`{word}` was spawned before"),
            _ => Ok(()),
        }
    }

    /// Whether it is told of the query of its block.
    pub fn is_of_query(self) -> bool {
        matches!(
            self,
            ScriptReason::NotFetched(..) | ScriptReason::NotMut(..) | ScriptReason::NoEntity(_)
        )
    }

    /// What to do.
    pub fn help(self) -> Help<'a> {
        match self {
            ScriptReason::OutsideEach(_) => Help::Add("each", "0"),
            ScriptReason::NotFetched(_, kind, ..) => Help::Term("read", kind),
            ScriptReason::NotMut(_, kind, ..) => Help::Term("mut", kind),
            ScriptReason::OutsideEvents => Help::Add("events", "\"Hit\""),
            ScriptReason::NoField(kind, _) => Help::Fields(kind),
            ScriptReason::WrongValues(kind) => Help::Insert(kind),
            ScriptReason::NoCommands(_) => Help::Add("spawns", "0"),
            other => Help::Words(other.help_words()),
        }
    }

    // The same of what is told in words.
    fn help_words(self) -> &'static str {
        match self {
            ScriptReason::NoQuery(..) => "queries are numbered from 0",
            ScriptReason::NoEntity(_) => "add the term `entity` to it",
            ScriptReason::EventUnread(_) => "add it to `reads`",
            ScriptReason::ResUnread(_) => "add it to `res`",
            ScriptReason::ResUnwritten(_) => "add it to `res_mut`",
            ScriptReason::EventUnwritten(_) => "add it to `writes`",
            other => other.help_of_numbers(),
        }
    }

    // The same of numbers that are out of range.
    fn help_of_numbers(self) -> &'static str {
        match self {
            ScriptReason::PastEnd(..) => "pass over fewer",
            ScriptReason::NoRegister(_) => "registers are `r0` to `r7`",
            ScriptReason::NoSlot(..) => "ids are numbered from 0: grant more",
            ScriptReason::SpawnedOften(_) => "spawn it in a block that runs once",
            ScriptReason::SpawnedBefore(_) => "spawn another one, and grant more",
            _ => "",
        }
    }
}
