// The places of changes by their index.

ghost use Rattle.std.specs.Prelude.{ℕ, ◌≡◌, ◌≤◌, ◌<◌, ◌==◌, cond, length, get_or, None, Some, OnOk};
ghost use Rattle.command_queue.specs.ChangePlaces.{place_told};

use indexmap::IndexMap;
use std::alloc::{AllocError, Global};

// The places of changes by their index: in a list for the first indices, in a map for the others. The list is as long as the greatest index in
// it, so it serves where changes are not far fewer than indices.
#[derive(Drop)]
pub(crate) struct ChangePlaces {
    // Indices below this one are those of the list.
    listed: usize,
    list: Vec<Option<usize>>,
    map: IndexMap<u32, usize>,
}

// Makes a list so long. The further indices have no place.
fn lengthen(list: &mut Vec<Option<usize>>, count: usize) -> Result<(), AllocError>
    ensures same { (q : ℕ) → get_or list.new.items q None ≡ get_or list.old.items q None }
    ensures long { OnOk result (count ≤ length list.new.items) }
{
    if list.len() < count {
        list.resize(count, None)?;
    }
    Ok(())
}

// Notes the place of an index in a list.
fn note(list: &mut Vec<Option<usize>>, index: usize, place: usize)
    requires { index < length list.old.items }
    ensures { (q : ℕ)
        → get_or list.new.items q None
        ≡ cond (index == q) (Some place) (get_or list.old.items q None) }
{
    list[index] = Some(place);
}

impl ChangePlaces {
    // No places. Those of indices below this one will stand in a list.
    pub(crate) fn new(alloc: Global, listed: usize) -> Self
        ensures { (q : ℕ) → place_told result q ≡ None }
    {
        ChangePlaces {
            listed,
            list: Vec::new(alloc),
            map: IndexMap::new(alloc),
        }
    }

    // The place of an index.
    pub(crate) fn get(&self, index: u32) -> Option<usize>
        ensures { result ≡ place_told self.now index }
    {
        if (index as usize) < self.listed {
            if (index as usize) < self.list.len() {
                self.list[index as usize]
            } else {
                None
            }
        } else {
            self.map.get(&index).copied()
        }
    }

    // Notes the place of an index.
    pub(crate) fn insert(&mut self, index: u32, place: usize) -> Result<(), AllocError>
        ensures { OnOk result ((q : ℕ)
            → place_told self.new q ≡ cond (index == q) (Some place) (place_told self.old q)) }
    {
        if (index as usize) < self.listed {
            lengthen(&mut self.list, index as usize + 1)?;
            note(&mut self.list, index as usize, place);
        } else {
            self.map.insert(index, place)?;
        }
        Ok(())
    }
}
