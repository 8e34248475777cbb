// Where what is marked stands in the text of a file.

ghost use Rattle.std.specs.Prelude.{IfOk, IfSome};
ghost use Rattle.explaining.specs.Marked.{IsMarked};

use crate::owner::{Owner, array_of};
use crate::spans::span_at;
use crate::target::{Part, Target};
use document_places::{Places, Spot};
use program_file::Place;
use std::alloc::{AllocError, Global};
use text_marks::Span;

/// The text of a file, and where its keys and values stand.
#[derive(Drop)]
pub struct Site<'a> {
    /// The text.
    pub text: &'a str,
    places: Places,
}

impl<'a> Site<'a> {
    /// That of a text.
    pub fn of(alloc: Global, text: &'a str) -> Result<Site<'a>, AllocError> {
        Ok(Site {
            text,
            places: Places::of(alloc, text)?,
        })
    }

    /// Where a target stands, if it is found there. What is marked reads as it.
    pub fn span_of(&self, alloc: Global, target: Target<'_>) -> Result<Option<Span>, AllocError>
        ensures { IfOk result (λ found. IfSome found (IsMarked self.now.text.now
            target.entry.key.now target.entry.part)) }
    {
        match self.spot_of(alloc, target)? {
            Some(spot) => span_at(alloc, self.text, spot, target.key, target.part),
            None => Ok(None),
        }
    }

    // The spot of a target.
    fn spot_of(&self, alloc: Global, target: Target<'_>) -> Result<Option<Spot>, AllocError> {
        let Some(table) = self.number_of(alloc, target.owner)? else {
            return Ok(None);
        };
        let number = match target.part {
            Part::Table => Some(table),
            _ => self.places.member(alloc, table, target.key)?,
        };
        let number = match (number, target.item) {
            (Some(number), Some(item)) => self.places.item(number, item),
            (number, _) => number,
        };
        match number {
            Some(number) => Ok(self.places.spot(number)),
            None => Ok(None),
        }
    }

    // The number of the spot of a table.
    fn number_of(&self, alloc: Global, owner: Owner<'_>) -> Result<Option<usize>, AllocError> {
        let table = match array_of(owner.place) {
            Some((key, number)) => self.item_at(alloc, 0, key, number)?,
            None if owner.place == Place::Resources => self.places.member(alloc, 0, "resources")?,
            None => Some(0),
        };
        match (table, owner.block) {
            (Some(table), Some(block)) => self.item_at(alloc, table, "do", block),
            (table, _) => Ok(table),
        }
    }

    // The number of the spot of an item of the array at a key of a table.
    fn item_at(
        &self,
        alloc: Global,
        table: usize,
        key: &str,
        item: usize,
    ) -> Result<Option<usize>, AllocError> {
        match self.places.member(alloc, table, key)? {
            Some(array) => Ok(self.places.item(array, item)),
            None => Ok(None),
        }
    }
}
