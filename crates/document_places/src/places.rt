// The spots of the keys and values of a document.

use std::alloc::{AllocError, Global};
use std::collections::BTreeMap;

/// The places of a key and its value, by bytes of the text. The key of a table with a header is the header, with its
/// brackets, and it has no value. An item of an array has no key. What isn't there begins and ends at 0.
#[derive(Clone, Copy, Debug)]
pub struct Spot {
    /// Where the key begins, and where it ends.
    pub key: (usize, usize),
    /// Where the value begins, and where it ends.
    pub value: (usize, usize),
    // How many items it has, of an array.
    items: usize,
}

/// The spots of a document, by number. The document itself has number 0.
#[derive(Drop)]
pub struct Places {
    spots: Vec<Spot>,
    members: BTreeMap<(usize, String), usize>,
    items: BTreeMap<(usize, usize), usize>,
}

impl Places {
    // Those of an empty document.
    pub(crate) fn new(alloc: Global) -> Result<Places, AllocError> {
        let mut places = Places {
            spots: Vec::new(alloc),
            members: BTreeMap::new(alloc),
            items: BTreeMap::new(alloc),
        };
        let _document = places.add((0, 0))?;
        Ok(places)
    }

    /// The spot of this number.
    pub fn spot(&self, number: usize) -> Option<Spot> {
        self.spots.get(number).copied()
    }

    /// The number of the item at a key of a table.
    pub fn member(
        &self,
        alloc: Global,
        table: usize,
        key: &str,
    ) -> Result<Option<usize>, AllocError> {
        let at = (table, String::from_str(alloc, key)?);
        Ok(self.members.get(&at).copied())
    }

    /// The number of an item of an array, by its place from 0.
    pub fn item(&self, array: usize, place: usize) -> Option<usize> {
        self.items.get(&(array, place)).copied()
    }

    // The table that is meant where a key with more parts goes on: the last of an array of tables.
    fn table_of(&self, number: usize) -> usize {
        match self.spot(number) {
            Some(spot) if spot.items > 0 => {
                self.item(number, spot.items.saturating_sub(1))
                    .unwrap_or(number)
            }
            _ => number,
        }
    }

    // Adds a spot. Gives its number.
    fn add(&mut self, key: (usize, usize)) -> Result<usize, AllocError> {
        let number = self.spots.len();
        self.spots.push(Spot {
            key,
            value: (0, 0),
            items: 0,
        })?;
        Ok(number)
    }

    // What stands at a key of a table, which is added where nothing does.
    pub(crate) fn enter(
        &mut self,
        table: usize,
        key: String,
        span: (usize, usize),
    ) -> Result<usize, AllocError> {
        let at = (table, key);
        if let Some(number) = self.members.get(&at) {
            return Ok(*number);
        }
        let number = self.add(span)?;
        let _none = self.members.insert(at, number)?;
        Ok(number)
    }

    // What stands at the end of these keys from a table on.
    pub(crate) fn along(
        &mut self,
        table: usize,
        keys: Vec<String>,
        span: (usize, usize),
    ) -> Result<usize, AllocError> {
        let mut number = table;
        for key in keys {
            let entered = self.enter(number, key, span)?;
            number = self.table_of(entered);
        }
        Ok(number)
    }

    // The next item of an array.
    pub(crate) fn push_item(
        &mut self,
        array: usize,
        span: (usize, usize),
    ) -> Result<usize, AllocError> {
        let number = self.add(span)?;
        let mut place = 0;
        if let Some(spot) = self.spots.get_mut(array) {
            place = spot.items;
            spot.items = place.saturating_add(1);
        }
        let _none = self.items.insert((array, place), number)?;
        Ok(number)
    }

    // Says where the key of a spot stands.
    pub(crate) fn set_key(&mut self, number: usize, key: (usize, usize)) {
        if let Some(spot) = self.spots.get_mut(number) {
            spot.key = key;
        }
    }

    // Says where the value of a spot stands.
    pub(crate) fn set_value(&mut self, number: usize, value: (usize, usize)) {
        if let Some(spot) = self.spots.get_mut(number) {
            spot.value = value;
        }
    }
}
