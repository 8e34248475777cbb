// What to do about a reason, in words.

use crate::names::{Names, similar};
use crate::reason::Help;
use kinds::Kind;
use std::alloc::{AllocError, Global};

// How many names of a list are told at most.
const MOST_NAMED: usize = 24;

/// What to do, in a line; empty where nothing is known.
pub fn text_of_help(alloc: Global, help: Help<'_>) -> Result<String, AllocError> {
    match help {
        Help::None => Ok(String::new(alloc)),
        Help::Words(words) => String::from_str(alloc, words),
        Help::Write(words) => format!(in alloc; "write `{words}`"),
        Help::Add(key, value) => format!(in alloc; "add `{key} = {value}`"),
        Help::Bracket(text) => format!(in alloc; "put it into brackets: `[\"{text}\"]`"),
        Help::Double(key) => format!(in alloc; "write `[[{key}]]` in place of `[{key}]`"),
        Help::Component(kind) => text_of_component(alloc, kind),
        Help::Fields(kind) => String::from_str(alloc, fields_of(kind)),
        Help::Insert(kind) => text_of_insert(alloc, kind),
        Help::Term(word, kind) => {
            let kind = kind.name();
            format!(in alloc; "have `{word} {kind}` in the query")
        }
        Help::Range(key) => format!(in alloc; "`{key}` is from 0 to 4,294,967,295"),
        Help::Near(names, word) => text_of_near(alloc, names, word),
    }
}

// The fields of a kind.
fn fields_of(kind: Kind) -> &'static str {
    match kind.width() {
        0 => "it has no fields",
        1 => "its field is `v`",
        _ => "its fields are `x` and `y`",
    }
}

// How components of a kind are inserted.
fn text_of_insert(alloc: Global, kind: Kind) -> Result<String, AllocError> {
    let name = kind.name();
    match kind.width() {
        0 => format!(in alloc; "write `insert W {name}`"),
        1 => format!(in alloc; "write `insert W {name} S`"),
        _ => format!(in alloc; "write `insert W {name} S S`"),
    }
}

// A component of a kind.
fn text_of_component(alloc: Global, kind: Kind) -> Result<String, AllocError> {
    let name = kind.name();
    match kind.width() {
        0 => format!(in alloc; "`{name}` has no fields: `{name} = []`"),
        1 => format!(in alloc; "its field is `v`: `{name} = [1]`"),
        _ => format!(in alloc; "its fields are `x` and `y`: `{name} = [1, 2]`"),
    }
}

// The name that is similar to a word, or else all.
fn text_of_near(alloc: Global, names: Names<'_>, word: &str) -> Result<String, AllocError> {
    let list = names.list(alloc)?;
    match similar(alloc, word, list.as_slice())? {
        Some(name) => {
            let what = similar_words(names);
            format!(in alloc; "a {what} exists: `{name}`")
        }
        None => text_of_all(alloc, names, list.as_slice()),
    }
}

/// A word, and the name that is similar to it and is to be written in its place, where there is one.
pub fn name_in<'a>(
    alloc: Global,
    help: Help<'a>,
) -> Result<Option<(&'a str, &'a str)>, AllocError> {
    let Help::Near(names, word) = help else {
        return Ok(None);
    };
    let list = names.list(alloc)?;
    match similar(alloc, word, list.as_slice())? {
        Some(name) => Ok(Some((word, name))),
        None => Ok(None),
    }
}

// What a similar name is called.
fn similar_words(names: Names<'_>) -> &'static str {
    match names {
        Names::Keys(_) => "key with a similar name",
        Names::Words(_) => "similar word",
        _ => "similar name",
    }
}

// All names of a list.
fn text_of_all(alloc: Global, names: Names<'_>, list: &[&str]) -> Result<String, AllocError> {
    let what = names.what();
    if list.is_empty() {
        return format!(in alloc; "there is no {what}");
    }
    let mut text = String::from_str(alloc, "there are ")?;
    let named = list.len().min(MOST_NAMED);
    let mut between = "";
    for name in &list[..named] {
        write!(text, "{between}`{name}`")?;
        between = ", ";
    }
    if named < list.len() {
        let others = list.len() - named;
        write!(text, " and {others} others")?;
    }
    Ok(text)
}
