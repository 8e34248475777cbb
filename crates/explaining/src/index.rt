// The sets and systems of a document by their names, and what holds them.

use crate::keys::item_text;
use crate::orders::{AFTER_KEYS, BEFORE_KEYS, item_at, item_count};
use crate::owner::{Owner, items_at, table_of};
use crate::target::Target;
use program_file::Place;
use std::alloc::{AllocError, Global};
use std::collections::BTreeMap;
use toml::{Table, Value};

/// The numbers of the sets and systems of a document, sets first, by name.
#[derive(Drop)]
pub struct Index<'a> {
    /// The document.
    pub document: &'a Table,
    numbers: BTreeMap<String, usize>,
}

impl<'a> Index<'a> {
    /// Those of a document.
    pub fn of(alloc: Global, document: &'a Table) -> Result<Index<'a>, AllocError> {
        let mut numbers = BTreeMap::new(alloc);
        for number in 0..item_count(document) {
            if let Some((owner, _)) = item_at(document, number) {
                let name = String::from_str(alloc, owner.name)?;
                let _before = numbers.insert(name, number)?;
            }
        }
        Ok(Index { document, numbers })
    }

    // Whether an item of this name is flagged.
    fn is_flagged(&self, flags: &[bool], name: &str) -> bool {
        match self.numbers.get(name) {
            Some(number) => is_set(flags, *number),
            None => false,
        }
    }

    /// A flag for each set and system: whether it is the one of a name, or a set that holds it, at any depth.
    pub fn holders(&self, alloc: Global, name: &str) -> Result<Vec<bool>, AllocError> {
        let count = item_count(self.document);
        let mut flags = vec![in alloc; false; count]?;
        let mut open = Vec::new(alloc);
        self.flag(&mut flags, &mut open, name)?;
        for _ in 0..count {
            let Some(number) = open.pop() else {
                break;
            };
            if let Some((_, table)) = item_at(self.document, number) {
                self.flag_all(&mut flags, &mut open, items_at(table, "in"))?;
            }
        }
        Ok(flags)
    }

    // Flags the items of some names, where they aren't flagged yet.
    fn flag_all(
        &self,
        flags: &mut Vec<bool>,
        open: &mut Vec<usize>,
        names: &[Value],
    ) -> Result<(), AllocError> {
        for number in 0..names.len() {
            self.flag(flags, open, item_text(names, number))?;
        }
        Ok(())
    }

    // Flags the item of a name, where it isn't flagged yet.
    fn flag(
        &self,
        flags: &mut Vec<bool>,
        open: &mut Vec<usize>,
        name: &str,
    ) -> Result<(), AllocError> {
        if let Some(number) = self.numbers.get(name) {
            let number = *number;
            if number < flags.len() && !flags[number] {
                flags[number] = true;
                open.push(number)?;
            }
        }
        Ok(())
    }

    /// The first declared order of one of some items before one of others: where it is declared.
    pub fn order_between(&self, firsts: &[bool], seconds: &[bool]) -> Option<Target<'a>> {
        for number in 0..item_count(self.document) {
            let (owner, table) = item_at(self.document, number)?;
            if is_set(firsts, number) {
                let target = self.flagged_at(owner, table, BEFORE_KEYS, seconds);
                if target.is_some() {
                    return target;
                }
            }
            if is_set(seconds, number) {
                let target = self.flagged_at(owner, table, AFTER_KEYS, firsts);
                if target.is_some() {
                    return target;
                }
            }
        }
        for (number, value) in items_at(self.document, "chain").iter().enumerate() {
            let owner = Owner::of(self.document, Place::Chain(number));
            let target = self.order_in_chain(owner, table_of(value)?, firsts, seconds);
            if target.is_some() {
                return target;
            }
        }
        None
    }

    // The first text of the arrays at two keys that is the name of a flagged item.
    fn flagged_at(
        &self,
        owner: Owner<'a>,
        table: &'a Table,
        keys: [&'static str; 2],
        flags: &[bool],
    ) -> Option<Target<'a>> {
        for key in keys {
            let items = items_at(table, key);
            for number in 0..items.len() {
                let text = item_text(items, number);
                if self.is_flagged(flags, text) {
                    return Some(Target::text(owner, key, Some(number), text));
                }
            }
        }
        None
    }

    // The first item of a chain that is one of some, behind one of others.
    fn order_in_chain(
        &self,
        owner: Owner<'a>,
        table: &'a Table,
        firsts: &[bool],
        seconds: &[bool],
    ) -> Option<Target<'a>> {
        let items = items_at(table, "items");
        for number in 1..items.len() {
            let text = item_text(items, number);
            if self.is_flagged(firsts, item_text(items, number - 1))
                && self.is_flagged(seconds, text)
            {
                return Some(Target::text(owner, "items", Some(number), text));
            }
        }
        None
    }
}

// Whether a flag is set.
fn is_set(flags: &[bool], number: usize) -> bool {
    flags.get(number).copied().unwrap_or(false)
}
