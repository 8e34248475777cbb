// Why a step may not come, in words.

use std::fmt;

/// What a step is about.
#[derive(Clone, Copy)]
pub enum Subject<'a> {
    /// Nothing.
    None,
    /// A system, by its name.
    System(&'a str),
    /// A condition, by its number.
    Condition(u32),
    /// A sync point, by its number.
    Sync(u32),
}

impl fmt::Display for Subject<'_> {
    fn fmt<W: fmt::Write>(&self, f: &mut fmt::Formatter<W>) -> fmt::Result {
        match self {
            Subject::None => Ok(()),
            Subject::System(name) => write!(f, "`{name}`"),
            Subject::Condition(number) => write!(f, "condition {number}"),
            Subject::Sync(number) => write!(f, "sync point {number}"),
        }
    }
}

/// Why a step may not come: two subjects, with words between and behind them.
#[derive(Clone, Copy)]
pub struct Phrase<'a> {
    /// The first subject.
    pub first: Subject<'a>,
    /// The words behind it.
    pub between: &'static str,
    /// The second subject.
    pub second: Subject<'a>,
    /// The words behind that.
    pub behind: &'static str,
}

impl<'a> Phrase<'a> {
    /// Words behind a subject.
    pub fn of(first: Subject<'a>, behind: &'static str) -> Phrase<'a> {
        Phrase {
            first,
            between: "",
            second: Subject::None,
            behind,
        }
    }

    /// Two subjects, with words between and behind them.
    pub fn with(
        first: Subject<'a>,
        between: &'static str,
        second: Subject<'a>,
        behind: &'static str,
    ) -> Phrase<'a> {
        Phrase {
            first,
            between,
            second,
            behind,
        }
    }
}

impl fmt::Display for Phrase<'_> {
    fn fmt<W: fmt::Write>(&self, f: &mut fmt::Formatter<W>) -> fmt::Result {
        let Phrase {
            first,
            between,
            second,
            behind,
        } = self;
        write!(f, "{first}{between}{second}{behind}")
    }
}
