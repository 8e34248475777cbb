// Where a name stands twice in a list.

use explaining::item_text;
use explaining::owner::{Owner, items_at};
use explaining::target::Target;
use lints::Lint;
use lints::lint::{Holder, Listed};
use program_file::Place;
use toml::{Table, Value};

// Lists of more names aren't looked at.
const MOST_NAMES: usize = 64;

/// A name that stands twice at a key of a table.
#[derive(Clone, Copy)]
pub struct Twice<'a> {
    /// The table.
    pub owner: Owner<'a>,
    /// The key.
    pub key: &'static str,
    /// The name.
    pub word: &'a str,
    /// Where it stands first.
    pub first: Option<Target<'a>>,
    /// Where it stands again.
    pub again: Option<Target<'a>>,
}

/// The name that stands twice, for a lint that says so.
pub(crate) fn twice_of<'a>(document: &'a Table, lint: Lint) -> Twice<'a> {
    match lint {
        Lint::SaidTwice { holder, list } => {
            let owner = Owner::of(document, place_of(holder));
            twice_in(document, owner, key_of(list), "")
        }
        Lint::RepeatedRes { system, res } => {
            let owner = Owner::of(document, Place::System(system));
            twice_in(document, owner, "res", res.name())
        }
        Lint::RepeatedEvents { system, event } => {
            let owner = Owner::of(document, Place::System(system));
            twice_in(document, owner, "reads", event.name())
        }
        _ => none_in(Owner::of(document, Place::Top), ""),
    }
}

// The place of a set or a system.
fn place_of(holder: Holder) -> Place {
    match holder {
        Holder::Set(number) => Place::Set(number),
        Holder::System(number) => Place::System(number),
    }
}

// The key of a list.
fn key_of(list: Listed) -> &'static str {
    match list {
        Listed::In => "in",
        Listed::Before => "before",
        Listed::After => "after",
        Listed::BeforeIgnoreDeferred => "before_ignore_deferred",
        Listed::AfterIgnoreDeferred => "after_ignore_deferred",
        Listed::AmbiguousWith => "ambiguous_with",
    }
}

// No name.
fn none_in<'a>(owner: Owner<'a>, key: &'static str) -> Twice<'a> {
    Twice {
        owner,
        key,
        word: "",
        first: None,
        again: None,
    }
}

// The name that stands twice at a key of a table: this one, or any where it is empty.
fn twice_in<'a>(document: &'a Table, owner: Owner<'a>, key: &'static str, name: &str) -> Twice<'a> {
    let Some(table) = owner.table(document) else {
        return none_in(owner, key);
    };
    let items = items_at(table, key);
    for again in 0..items.len() {
        let word = item_text(items, again);
        let is_wanted = if name.is_empty() {
            again < MOST_NAMES
        } else {
            word == name
        };
        if is_wanted {
            if let Some(first) = first_in(items, again, word) {
                return Twice {
                    owner,
                    key,
                    word,
                    first: Some(Target::text(owner, key, Some(first), word)),
                    again: Some(Target::text(owner, key, Some(again), word)),
                };
            }
        }
    }
    none_in(owner, key)
}

// The first of so many texts that is a word.
fn first_in(items: &[Value], count: usize, word: &str) -> Option<usize> {
    for number in 0..count {
        if item_text(items, number) == word {
            return Some(number);
        }
    }
    None
}
