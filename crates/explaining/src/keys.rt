// The keys and values of a place: the first thing that its reader refuses.

use crate::finding::Found;
use crate::names::Names;
use crate::owner::{Owner, items_at, table_of, text_of};
use crate::reason::{KeyReason, Reason};
use crate::target::Target;
use kinds::{Event, Kind, Res};
use program_file::Place;
use tokens::name::is_name;
use toml::{Table, Value};

/// What a key wants.
#[derive(Clone, Copy, PartialEq, Eq)]
pub enum Wants {
    /// A name.
    Name,
    /// The name of a resource.
    Resource,
    /// The name of an event kind.
    Event,
    /// A text.
    Text,
    /// A truth value.
    Flag,
    /// A number of 32 bits.
    Number,
    /// An integer.
    Integer,
    /// A table.
    Table,
    /// An array of names.
    Names,
    /// An array of names of resources.
    Resources,
    /// An array of names of event kinds.
    Events,
    /// An array of texts.
    Texts,
    /// An array of integers.
    Integers,
    /// An array of tables.
    Tables,
}

/// The keys of a table, in the order in which they are read, and the one that has to be there, if one has.
#[derive(Clone, Copy)]
pub struct Schema {
    /// The keys, and what each wants.
    pub rules: &'static [(&'static str, Wants)],
    /// The key that has to be there; empty where none has.
    pub required: &'static str,
}

const TOP: Schema = Schema {
    rules: &[
        ("resources", Wants::Table),
        ("entity", Wants::Tables),
        ("set", Wants::Tables),
        ("system", Wants::Tables),
        ("chain", Wants::Tables),
    ],
    required: "",
};

const SET: Schema = Schema {
    rules: &[
        ("name", Wants::Name),
        ("in", Wants::Names),
        ("before", Wants::Names),
        ("after", Wants::Names),
        ("before_ignore_deferred", Wants::Names),
        ("after_ignore_deferred", Wants::Names),
        ("ambiguous_with", Wants::Names),
        ("if", Wants::Texts),
    ],
    required: "name",
};

const SYSTEM: Schema = Schema {
    rules: &[
        ("name", Wants::Name),
        ("in", Wants::Names),
        ("before", Wants::Names),
        ("after", Wants::Names),
        ("before_ignore_deferred", Wants::Names),
        ("after_ignore_deferred", Wants::Names),
        ("ambiguous_with", Wants::Names),
        ("if", Wants::Texts),
        ("query", Wants::Texts),
        ("res", Wants::Resources),
        ("res_mut", Wants::Resources),
        ("reads", Wants::Events),
        ("writes", Wants::Events),
        ("spawns", Wants::Number),
        ("do", Wants::Tables),
    ],
    required: "name",
};

const BLOCK: Schema = Schema {
    rules: &[
        ("each", Wants::Number),
        ("events", Wants::Event),
        ("code", Wants::Texts),
    ],
    required: "code",
};

const CHAIN: Schema = Schema {
    rules: &[("items", Wants::Names), ("ignore_deferred", Wants::Flag)],
    required: "items",
};

/// What the reader of a place refuses first of its keys and values.
pub fn of_place<'a>(document: &'a Table, place: Place) -> Option<Found<'a>> {
    let owner = Owner::of(document, place);
    let table = owner.table(document)?;
    match place {
        Place::Top => of_table(owner, table, TOP),
        Place::Resources | Place::Entity(_) => of_members(owner, table),
        Place::Set(_) => of_table(owner, table, SET),
        Place::Chain(_) => of_table(owner, table, CHAIN),
        Place::System(_) => match of_table(owner, table, SYSTEM) {
            Some(found) => Some(found),
            None => of_blocks(owner, table),
        },
    }
}

// The same of the blocks of a system.
fn of_blocks<'a>(owner: Owner<'a>, system: &'a Table) -> Option<Found<'a>> {
    for (block, value) in items_at(system, "do").iter().enumerate() {
        if let Some(table) = table_of(value) {
            let found = of_table(owner.with_block(block), table, BLOCK);
            if found.is_some() {
                return found;
            }
        }
    }
    None
}

// What is refused of a table whose keys are those of a schema: a key that is none of them, one that isn't there, two that exclude one another, a value.
fn of_table<'a>(owner: Owner<'a>, table: &'a Table, schema: Schema) -> Option<Found<'a>> {
    if let Some(key) = unknown_in(table, schema.rules) {
        return Some(unknown(owner, key, schema.rules));
    }
    let required = schema.required;
    if !required.is_empty() && !table.contains_key(required) {
        return Some(missing(owner, required));
    }
    if owner.block.is_some() && table.contains_key("each") && table.contains_key("events") {
        return Some(both(owner));
    }
    of_rules(owner, table, schema.rules)
}

// A key that is none of these.
fn unknown<'a>(
    owner: Owner<'a>,
    key: &'a str,
    rules: &'static [(&'static str, Wants)],
) -> Found<'a> {
    let reason = KeyReason::Unknown { key, owner, rules };
    Found::of(Reason::Key(reason), Target::key(owner, key))
}

// A key that isn't there.
fn missing<'a>(owner: Owner<'a>, key: &'static str) -> Found<'a> {
    let reason = KeyReason::Missing { key, owner };
    Found::of(Reason::Key(reason), Target::table(owner))
}

// Two keys that exclude one another.
fn both<'a>(owner: Owner<'a>) -> Found<'a> {
    let reason = Reason::Key(KeyReason::Both(owner));
    let found = Found::of(reason, Target::key(owner, "each"));
    found.beside(Target::key(owner, "events"), "and here")
}

// The first key of a table that is none of these.
fn unknown_in<'a>(table: &'a Table, rules: &[(&'static str, Wants)]) -> Option<&'a str> {
    for key in table.keys() {
        if !has_rule(rules, key.as_str()) {
            return Some(key.as_str());
        }
    }
    None
}

// Whether a key is one of these.
fn has_rule(rules: &[(&'static str, Wants)], key: &str) -> bool {
    for (name, _) in rules {
        if *name == key {
            return true;
        }
    }
    false
}

// The first value of a table that isn't what its key wants.
fn of_rules<'a>(
    owner: Owner<'a>,
    table: &'a Table,
    rules: &[(&'static str, Wants)],
) -> Option<Found<'a>> {
    for (key, wants) in rules {
        let key = *key;
        if let Some(value) = table.get(key) {
            let found = of_value(owner, key, *wants, value);
            if found.is_some() {
                return found;
            }
        }
    }
    None
}

// What is refused of the resources, or of the components of an entity.
fn of_members<'a>(owner: Owner<'a>, table: &'a Table) -> Option<Found<'a>> {
    for (key, value) in table.iter() {
        let key = key.as_str();
        let found = if owner.place == Place::Resources {
            of_resource(owner, key, value)
        } else {
            of_component(owner, key, value)
        };
        if found.is_some() {
            return found;
        }
    }
    None
}

// What is refused of a resource.
fn of_resource<'a>(owner: Owner<'a>, key: &'a str, value: &'a Value) -> Option<Found<'a>> {
    if Res::named(key).is_none() {
        let reason = KeyReason::NotNamed(Names::Resources, key);
        return Some(Found::of(Reason::Key(reason), Target::key(owner, key)));
    }
    of_value(owner, key, Wants::Integer, value)
}

// What is refused of a component.
fn of_component<'a>(owner: Owner<'a>, key: &'a str, value: &'a Value) -> Option<Found<'a>> {
    let Some(kind) = Kind::named(key) else {
        let reason = KeyReason::NotNamed(Names::Kinds, key);
        return Some(Found::of(Reason::Key(reason), Target::key(owner, key)));
    };
    if let Some(items) = value.as_array() {
        if items.len() != kind.width() {
            let reason = KeyReason::WrongCount(kind, items.len());
            return Some(Found::of(Reason::Key(reason), Target::value(owner, key, None)));
        }
    }
    of_value(owner, key, Wants::Integers, value)
}

// What is refused of a value.
fn of_value<'a>(
    owner: Owner<'a>,
    key: &'a str,
    wants: Wants,
    value: &'a Value,
) -> Option<Found<'a>> {
    let Some(inner) = wants.item() else {
        return of_scalar(owner, key, None, wants, value);
    };
    let Some(items) = value.as_array() else {
        return Some(mistyped(owner, key, None, wants, value));
    };
    for number in 0..items.len() {
        let found = of_scalar(owner, key, Some(number), inner, &items.as_slice()[number]);
        if found.is_some() {
            return found;
        }
    }
    None
}

// What is refused of a value that isn't an array, at a key or in the array there.
fn of_scalar<'a>(
    owner: Owner<'a>,
    key: &'a str,
    item: Option<usize>,
    wants: Wants,
    value: &'a Value,
) -> Option<Found<'a>> {
    if !wants.takes(value) {
        return Some(mistyped(owner, key, item, wants, value));
    }
    match value.as_str() {
        Some(text) => of_name(owner, key, item, wants, text),
        None if wants == Wants::Number => of_number(owner, key, value.as_integer()?),
        None => None,
    }
}

// What is refused of a text at a key or in the array there.
fn of_name<'a>(
    owner: Owner<'a>,
    key: &'a str,
    item: Option<usize>,
    wants: Wants,
    text: &'a str,
) -> Option<Found<'a>> {
    let reason = of_text(wants, text)?;
    Some(Found::of(Reason::Key(reason), Target::text(owner, key, item, text)))
}

// What is refused of an integer that is to have 32 bits.
fn of_number<'a>(owner: Owner<'a>, key: &'a str, number: i64) -> Option<Found<'a>> {
    if u32::try_from(number).is_ok() {
        return None;
    }
    let reason = KeyReason::OutOfRange(key, number);
    Some(Found::of(Reason::Key(reason), Target::value(owner, key, None)))
}

// A value of another type than its key wants, or an item of its array.
fn mistyped<'a>(
    owner: Owner<'a>,
    key: &'a str,
    item: Option<usize>,
    wants: Wants,
    value: &'a Value,
) -> Found<'a> {
    let reason = KeyReason::Mistyped {
        key,
        item,
        owner,
        wants,
        value,
    };
    Found::of(Reason::Key(reason), Target::value(owner, key, item))
}

// What is refused of a text that is to be a name.
fn of_text(wants: Wants, text: &str) -> Option<KeyReason<'_>> {
    match wants {
        Wants::Name if !is_name(text) => Some(KeyReason::NoName(text)),
        Wants::Resource if Res::named(text).is_none() => {
            Some(KeyReason::NotNamed(Names::Resources, text))
        }
        Wants::Event if Event::named(text).is_none() => {
            Some(KeyReason::NotNamed(Names::Events, text))
        }
        _ => None,
    }
}

impl Wants {
    // What is wanted of the items, where an array is.
    fn item(self) -> Option<Wants> {
        match self {
            Wants::Names => Some(Wants::Name),
            Wants::Resources => Some(Wants::Resource),
            Wants::Events => Some(Wants::Event),
            Wants::Texts => Some(Wants::Text),
            Wants::Integers => Some(Wants::Integer),
            Wants::Tables => Some(Wants::Table),
            _ => None,
        }
    }

    // Whether a value is of the type that is wanted, which is no array.
    fn takes(self, value: &Value) -> bool {
        match self {
            Wants::Name | Wants::Resource | Wants::Event | Wants::Text => value.is_str(),
            Wants::Number | Wants::Integer => value.is_integer(),
            Wants::Flag => value.is_bool(),
            Wants::Table => value.is_table(),
            _ => false,
        }
    }
}

/// The text of an item of an array, empty where it is none.
pub fn item_text(items: &[Value], number: usize) -> &str {
    match items.get(number) {
        Some(item) => text_of(item),
        None => "",
    }
}
