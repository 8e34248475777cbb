// What is found in a file: why it is refused, and the words that it is refused for.

use crate::reason::Reason;
use crate::target::{Label, Mark, Target};

/// A reason, with what it is told of: one target, two, or none.
#[derive(Clone, Copy)]
pub struct Found<'a> {
    /// The reason.
    pub reason: Reason<'a>,
    /// What it is told of.
    pub first: Option<Mark<'a>>,
    /// What is marked beside it.
    pub second: Option<Mark<'a>>,
}

impl<'a> Found<'a> {
    /// A reason that is told of no target.
    pub fn bare(reason: Reason<'a>) -> Found<'a> {
        Found {
            reason,
            first: None,
            second: None,
        }
    }

    /// A reason that is told of one target.
    pub fn of(reason: Reason<'a>, target: Target<'a>) -> Found<'a> {
        let label = Label::None;
        Found {
            reason,
            first: Some(Mark { target, label }),
            second: None,
        }
    }

    /// The same with another target beside it.
    pub fn beside(self, target: Target<'a>, words: &'static str) -> Found<'a> {
        let label = Label::Words(words);
        Found {
            reason: self.reason,
            first: self.first,
            second: Some(Mark { target, label }),
        }
    }
}
