// The sets, systems and orders that a document declares.

use crate::keys::item_text;
use crate::owner::{Owner, items_at, table_of, text_at};
use crate::target::Target;
use program_file::Place;
use toml::Table;

/// The keys of items that an item comes before.
pub const BEFORE_KEYS: [&str; 2] = ["before", "before_ignore_deferred"];

/// The keys of items that an item comes after.
pub const AFTER_KEYS: [&str; 2] = ["after", "after_ignore_deferred"];

/// How many sets and systems a document declares.
pub fn item_count(document: &Table) -> usize {
    let sets = items_at(document, "set").len();
    sets.saturating_add(items_at(document, "system").len())
}

/// The set or system of this number, sets first.
pub fn item_at<'a>(document: &'a Table, number: usize) -> Option<(Owner<'a>, &'a Table)> {
    let sets = items_at(document, "set").len();
    let place = if number < sets {
        Place::Set(number)
    } else {
        Place::System(number - sets)
    };
    let owner = Owner::of(document, place);
    Some((owner, owner.table(document)?))
}

/// The first set or system of a name, behind so many.
pub fn item_named<'a>(
    document: &'a Table,
    name: &str,
    behind: usize,
) -> Option<(usize, Owner<'a>, &'a Table)> {
    for number in behind..item_count(document) {
        let (owner, table) = item_at(document, number)?;
        if owner.name == name {
            return Some((number, owner, table));
        }
    }
    None
}

/// The text of the array at a key that is a name.
pub fn named_at<'a>(
    owner: Owner<'a>,
    table: &'a Table,
    key: &'static str,
    name: &str,
) -> Option<Target<'a>> {
    let items = items_at(table, key);
    for number in 0..items.len() {
        let text = item_text(items, number);
        if text == name {
            return Some(Target::text(owner, key, Some(number), text));
        }
    }
    None
}

/// The first declared order of an item before another: where it is declared.
pub fn first_order<'a>(document: &'a Table, first: &str, second: &str) -> Option<Target<'a>> {
    for number in 0..item_count(document) {
        let (owner, table) = item_at(document, number)?;
        let target = order_of_item(owner, table, first, second);
        if target.is_some() {
            return target;
        }
    }
    for (number, value) in items_at(document, "chain").iter().enumerate() {
        let owner = Owner::of(document, Place::Chain(number));
        let target = order_in_chain(owner, table_of(value)?, first, second);
        if target.is_some() {
            return target;
        }
    }
    None
}

// The same of the orders of an item.
fn order_of_item<'a>(
    owner: Owner<'a>,
    table: &'a Table,
    first: &str,
    second: &str,
) -> Option<Target<'a>> {
    if owner.name == first {
        let target = named_among(owner, table, BEFORE_KEYS, second);
        if target.is_some() {
            return target;
        }
    }
    if owner.name == second {
        return named_among(owner, table, AFTER_KEYS, first);
    }
    None
}

// The first text of the arrays at two keys that is a name.
fn named_among<'a>(
    owner: Owner<'a>,
    table: &'a Table,
    keys: [&'static str; 2],
    name: &str,
) -> Option<Target<'a>> {
    for key in keys {
        let target = named_at(owner, table, key, name);
        if target.is_some() {
            return target;
        }
    }
    None
}

// The first order of an item before another in a chain.
fn order_in_chain<'a>(
    owner: Owner<'a>,
    table: &'a Table,
    first: &str,
    second: &str,
) -> Option<Target<'a>> {
    let items = items_at(table, "items");
    for number in 1..items.len() {
        let text = item_text(items, number);
        if item_text(items, number - 1) == first && text == second {
            return Some(Target::text(owner, "items", Some(number), text));
        }
    }
    None
}

/// The condition text of this number, those of sets first: the item, the number of the text there, and the text.
pub fn condition_at<'a>(
    document: &'a Table,
    condition: usize,
) -> Option<(Owner<'a>, usize, &'a str)> {
    let mut behind = condition;
    for number in 0..item_count(document) {
        let (owner, table) = item_at(document, number)?;
        let items = items_at(table, "if");
        if behind < items.len() {
            return Some((owner, behind, item_text(items, behind)));
        }
        behind -= items.len();
    }
    None
}

/// The name of a table, as it is marked.
pub fn name_of<'a>(owner: Owner<'a>, table: &'a Table) -> Target<'a> {
    Target::text(owner, "name", None, text_at(table, "name"))
}
