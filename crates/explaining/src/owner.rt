// The tables of a program file, by what they are called.

use program_file::Place;
use std::fmt;
use toml::{Table, Value};

/// A table of a program file: that of a place, or a block of a system.
#[derive(Clone, Copy)]
pub struct Owner<'a> {
    /// The place.
    pub place: Place,
    /// The number of the block, of one of a system.
    pub block: Option<usize>,
    /// The name of the set or the system; empty where it has none.
    pub name: &'a str,
}

impl<'a> Owner<'a> {
    /// The table of a place.
    pub fn of(document: &'a Table, place: Place) -> Owner<'a> {
        let owner = Owner {
            place,
            block: None,
            name: "",
        };
        let name = match owner.table(document) {
            Some(table) => text_at(table, "name"),
            None => "",
        };
        Owner {
            place,
            block: None,
            name,
        }
    }

    /// A block of the same system.
    pub fn with_block(self, block: usize) -> Owner<'a> {
        Owner {
            place: self.place,
            block: Some(block),
            name: self.name,
        }
    }

    /// The table itself, if it is there.
    pub fn table(self, document: &'a Table) -> Option<&'a Table> {
        let table = match array_of(self.place) {
            Some((key, number)) => table_of(items_at(document, key).get(number)?)?,
            None if self.place == Place::Resources => table_of(document.get("resources")?)?,
            None => document,
        };
        match self.block {
            Some(block) => table_of(items_at(table, "do").get(block)?),
            None => Some(table),
        }
    }
}

impl fmt::Display for Owner<'_> {
    fn fmt<W: fmt::Write>(&self, f: &mut fmt::Formatter<W>) -> fmt::Result {
        if let Some(block) = self.block {
            write!(f, "block {block} of ")?;
        }
        let name = self.name;
        match self.place {
            Place::Top => write!(f, "the file"),
            Place::Resources => write!(f, "`resources`"),
            Place::Set(_) if !name.is_empty() => write!(f, "set `{name}`"),
            Place::System(_) if !name.is_empty() => write!(f, "system `{name}`"),
            place => write!(f, "{place}"),
        }
    }
}

/// The key of the array that a place is an item of, and its number there.
pub fn array_of(place: Place) -> Option<(&'static str, usize)> {
    match place {
        Place::Top | Place::Resources => None,
        Place::Entity(number) => Some(("entity", number)),
        Place::Set(number) => Some(("set", number)),
        Place::System(number) => Some(("system", number)),
        Place::Chain(number) => Some(("chain", number)),
    }
}

/// The items of the array at a key, none where it is no array.
pub fn items_at<'a>(table: &'a Table, key: &str) -> &'a [Value] {
    match table.get(key) {
        Some(Value::Array(items)) => items.as_slice(),
        _ => &[],
    }
}

/// The table that a value is.
pub fn table_of(value: &Value) -> Option<&Table> {
    value.as_table()
}

/// The text that a value is, empty where it is none.
pub fn text_of(value: &Value) -> &str {
    value.as_str().unwrap_or("")
}

/// The text at a key, empty where there is none.
pub fn text_at<'a>(table: &'a Table, key: &str) -> &'a str {
    match table.get(key) {
        Some(value) => text_of(value),
        None => "",
    }
}
