// What of a program file is marked.

use crate::owner::Owner;
use crate::word::Word;
use std::fmt;

/// What is marked of a key of a table.
#[derive(Clone, Copy)]
pub enum Part<'a> {
    /// The table itself: its header, or its braces.
    Table,
    /// The key.
    Key,
    /// The value.
    Value,
    /// A word of the text that the value is, behind so many bytes.
    Word {
        text: &'a str,
        from: usize,
        word: &'a str,
    },
}

/// What is marked of a program file: a part of a key of a table, or of an item of the array there.
#[derive(Clone, Copy)]
pub struct Target<'a> {
    /// The table.
    pub owner: Owner<'a>,
    /// The key.
    pub key: &'a str,
    /// The number of the item.
    pub item: Option<usize>,
    /// What is marked.
    pub part: Part<'a>,
}

impl<'a> Target<'a> {
    /// A table.
    pub fn table(owner: Owner<'a>) -> Target<'a> {
        Target {
            owner,
            key: "",
            item: None,
            part: Part::Table,
        }
    }

    /// A key.
    pub fn key(owner: Owner<'a>, key: &'a str) -> Target<'a> {
        Target {
            owner,
            key,
            item: None,
            part: Part::Key,
        }
    }

    /// The value at a key, or of an item of the array there.
    pub fn value(owner: Owner<'a>, key: &'a str, item: Option<usize>) -> Target<'a> {
        Target {
            owner,
            key,
            item,
            part: Part::Value,
        }
    }

    /// The text at a key, or of an item of the array there.
    pub fn text(owner: Owner<'a>, key: &'a str, item: Option<usize>, text: &'a str) -> Target<'a> {
        let part = Part::Word {
            text,
            from: 0,
            word: text,
        };
        Target {
            owner,
            key,
            item,
            part,
        }
    }

    /// A word of the same text.
    pub fn within(self, word: Word<'a>) -> Target<'a> {
        match self.part {
            Part::Word { text, .. } => Target {
                owner: self.owner,
                key: self.key,
                item: self.item,
                part: Part::Word {
                    text,
                    from: word.from,
                    word: word.text,
                },
            },
            _ => self,
        }
    }
}

/// What is said of a mark.
#[derive(Clone, Copy)]
pub enum Label<'a> {
    /// Nothing.
    None,
    /// These words.
    Words(&'static str),
    /// An order of two items.
    Order(&'a str, &'a str),
    /// An item in a set.
    In(&'a str, &'a str),
}

impl fmt::Display for Label<'_> {
    fn fmt<W: fmt::Write>(&self, f: &mut fmt::Formatter<W>) -> fmt::Result {
        match self {
            Label::None => Ok(()),
            Label::Words(words) => write!(f, "{words}"),
            Label::Order(first, second) => write!(f, "`{first}` before `{second}`"),
            Label::In(item, set) => write!(f, "`{item}` in `{set}`"),
        }
    }
}

/// A target, with what is said of it.
#[derive(Clone, Copy)]
pub struct Mark<'a> {
    /// The target.
    pub target: Target<'a>,
    /// What is said of it.
    pub label: Label<'a>,
}
