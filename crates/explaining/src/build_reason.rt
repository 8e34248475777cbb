// Why a schedule is refused.

use crate::names::Names;
use crate::reason::Help;
use kinds::Kind;
use std::fmt;

/// Why a schedule is refused.
#[derive(Clone, Copy)]
pub enum BuildReason<'a> {
    /// No item of a list has this name, and whether a system has it.
    NoItem(Names<'a>, &'a str, bool),
    /// Two items have this name.
    Twice(&'a str),
    /// A set is in itself.
    InItself(&'a str),
    /// Sets hold one another.
    Circle(&'a [String]),
    /// An item is ordered with itself.
    OrderedWithItself(&'a str),
    /// Items wait for one another.
    Cycle(&'a [String]),
    /// An item is ordered with a set that holds it.
    WithHolder(&'a str, &'a str),
    /// Two sets are ordered, and share a system.
    Sharing(&'a str, &'a str, &'a str),
    /// Two queries of a system can meet on a kind.
    Meets(&'a str, usize, usize, Kind),
    /// A resource or event kind stands twice in what a system touches.
    TouchedTwice(&'a str, &'a str),
    /// Two parameters of a system conflict.
    Conflict(&'a str),
    /// A query requires a kind that it excludes, fetches one twice, or has an `opt` term of one that it excludes.
    BadQuery(u32, Option<Kind>),
    /// A condition writes.
    Writes,
    /// A limit is passed.
    OverLimit(u32),
}

// How many names are told at most.
const MOST_NAMED: usize = 24;

// Names with commas between.
#[derive(Clone, Copy)]
struct Listed<'a>(&'a [String]);

impl fmt::Display for Listed<'_> {
    fn fmt<W: fmt::Write>(&self, f: &mut fmt::Formatter<W>) -> fmt::Result {
        let named = self.0.len().min(MOST_NAMED);
        let mut between = "";
        for name in &self.0[..named] {
            let name = name.as_str();
            write!(f, "{between}`{name}`")?;
            between = ", ";
        }
        match self.0.len() - named {
            0 => Ok(()),
            others => write!(f, " and {others} others"),
        }
    }
}

impl fmt::Display for BuildReason<'_> {
    fn fmt<W: fmt::Write>(&self, f: &mut fmt::Formatter<W>) -> fmt::Result {
        match self {
            BuildReason::NoItem(names, name, _) => {
                write!(f, "no {} is called `{name}`", names.what())
            }
            BuildReason::Twice(name) => write!(f, "`{name}` is declared twice"),
            BuildReason::InItself(name) => write!(f, "the set `{name}` is in itself"),
            BuildReason::Circle(names) => {
                let names = Listed(names);
                write!(f, "these sets are in one another: {names}")
            }
            BuildReason::OrderedWithItself(name) => write!(f, "`{name}` is ordered with itself"),
            BuildReason::Cycle(names) => {
                let names = Listed(names);
                write!(f, "these wait for one another: {names}")
            }
            other => other.write_orders(f),
        }
    }
}

impl<'a> BuildReason<'a> {
    // The same of orders with sets.
    fn write_orders<W: fmt::Write>(&self, f: &mut fmt::Formatter<W>) -> fmt::Result {
        match self {
            BuildReason::WithHolder(item, set) => {
                write!(f, "`{item}` is ordered with `{set}`, which holds it")
            }
            BuildReason::Sharing(first, second, system) => {
                write!(
                    f,
                    "`{first}` and `{second}` are ordered, and share `{system}`"
                )
            }
            other => other.write_other(f),
        }
    }

    // The same of parameters and limits.
    fn write_other<W: fmt::Write>(&self, f: &mut fmt::Formatter<W>) -> fmt::Result {
        match self {
            BuildReason::Meets(system, first, second, kind) => {
                let kind = kind.name();
                write!(
                    f,
                    "queries {first} and {second} of `{system}` can meet on `{kind}`"
                )
            }
            BuildReason::TouchedTwice(system, word) => {
                write!(f, "`{system}` writes `{word}`, and names it twice")
            }
            BuildReason::Conflict(system) => write!(f, "two parameters of `{system}` conflict"),
            BuildReason::BadQuery(case, kind) => {
                let kind = kind_words(*kind);
                match case {
                    1 => write!(f, "a query requires and excludes {kind}"),
                    2 => write!(f, "a query fetches {kind} twice"),
                    _ => write!(f, "a query has an `opt` term of {kind}, which it excludes"),
                }
            }
            BuildReason::Writes => write!(f, "a condition writes"),
            BuildReason::OverLimit(limit) => write!(f, "{}", limit_words(*limit)),
            _ => Ok(()),
        }
    }

    /// The names that go round in a circle; none of another reason.
    pub fn circle(self) -> &'a [String] {
        match self {
            BuildReason::Circle(names) => names,
            BuildReason::Cycle(names) => names,
            _ => &[],
        }
    }

    /// What to do.
    pub fn help(self) -> Help<'a> {
        match self {
            BuildReason::NoItem(names, name, false) => Help::Near(names, name),
            BuildReason::OverLimit(_) => Help::None,
            other => Help::Words(other.help_words()),
        }
    }

    // The same of what is told in words.
    fn help_words(self) -> &'static str {
        match self {
            BuildReason::NoItem(..) => {
                "it is a system: `in` names sets; `before` and `after` name systems too"
            }
            BuildReason::Twice(_) => "sets and systems share their names: rename one",
            BuildReason::InItself(_) | BuildReason::Circle(_) => "take one of these names away",
            BuildReason::OrderedWithItself(_) | BuildReason::Cycle(_) => {
                "take one of these orders away"
            }
            BuildReason::WithHolder(..) => "order it with members of the set",
            BuildReason::Sharing(..) => "take the system out of one of them",
            other => other.help_of_parameters(),
        }
    }

    // The same of parameters.
    fn help_of_parameters(self) -> &'static str {
        match self {
            BuildReason::Meets(..) => {
                "keep them apart: `with K` in one, `without K` in the other"
            }
            BuildReason::TouchedTwice(..) | BuildReason::Conflict(_) => {
                "what is written may be read too: name it once"
            }
            BuildReason::BadQuery(..) => "drop one of these terms",
            BuildReason::Writes => "a condition only reads: write `read` for `mut`",
            _ => "",
        }
    }
}

// The name of a kind, where it is known.
fn kind_words(kind: Option<Kind>) -> &'static str {
    match kind {
        Some(kind) => kind.name(),
        None => "a kind",
    }
}

// Which limit is passed.
fn limit_words(limit: u32) -> &'static str {
    match limit {
        1 => "a file has at most 256 systems",
        2 => "a file has at most 64 sets",
        3 => "a file has at most 512 conditions",
        4 => "a system has at most 8 queries",
        _ => "a system is granted at most 1,024 ids in a run",
    }
}
