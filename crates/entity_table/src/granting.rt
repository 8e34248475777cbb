// Grants: how many ids are asked for, the lists that they come into, and one grant after the other.

ghost use Rattle.std.specs.Prelude.{◌≡◌, ◌++◌, ◌+◌, ◌-◌, ◌≤◌, [], ◌∷◌, length, map, min, sum, vec_len, vec_capacity, OnOk};
ghost use Rattle.model.specs.state.State.{most_indices};
ghost use Rattle.model.specs.state.Ids as ids;
ghost use Rattle.model.specs.state.Ids.{vacant_indices, granted_ids};
ghost use Rattle.entity_table.specs.Granting.{AreRoomy};

use crate::entity_meta::EntityMeta;
use crate::min_heap::MinHeap;
use model::Entity;
use std::alloc::{AllocError, Global};

/// The sum of the counts, or the greatest number where they come to more.
pub(crate) fn sum_of(counts: &[u32]) -> usize
    ensures { result ≡ min (sum counts.now) usize.MAX }
{
    let mut total: usize = 0;
    for count in counts {
        total = total.saturating_add(*count as usize);
    }
    total
}

/// Makes these lists ready for the ids of each count: a list for each, empty and with room for as many ids. What was in them is gone. The
/// lists that are there keep their room, so where that is enough no memory is taken.
pub(crate) fn make_ready(
    alloc: Global,
    counts: &[u32],
    lists: &mut Vec<Vec<Entity>>,
) -> Result<(), AllocError>
    ensures { OnOk result (AreRoomy 0 counts.now lists.new.items) }
{
    make_so_many(alloc, counts.len(), lists)?;
    for (place, count) in counts.iter().enumerate() {
        make_empty(&mut lists[place], *count as usize)?;
    }
    Ok(())
}

// Makes them so many lists.
fn make_so_many(alloc: Global, count: usize, lists: &mut Vec<Vec<Entity>>) -> Result<(), AllocError>
    ensures { OnOk result (length lists.new.items ≡ count) }
{
    lists.truncate(count);
    for _ in lists.len()..count {
        lists.push(Vec::new(alloc))?;
    }
    Ok(())
}

// Makes a list empty, with room for so many ids.
fn make_empty(list: &mut Vec<Entity>, count: usize) -> Result<(), AllocError>
    ensures empty { list.new.items ≡ [] }
    ensures room { OnOk result (count ≤ vec_capacity list.new) }
{
    list.clear();
    list.reserve(count)
}

/// Grants the ids of each count after those of the counts before it, into its list. There is room for all of them.
pub(crate) fn grant_lists(
    places: &mut Vec<EntityMeta>,
    vacant: &mut MinHeap,
    lists: &mut Vec<Vec<Entity>>,
    counts: &[u32],
)
    requires kept { vacant.old.rising ≡ vacant_indices places.old.items }
    requires few { length places.old.items + (sum counts.now - length vacant.old.rising)
        ≤ most_indices }
    requires room { vec_len places.old + (sum counts.now - length vacant.old.rising)
        ≤ vec_capacity places.old }
    requires lists { AreRoomy 0 counts.now lists.old.items }
    ensures grants { places.new.items ≡ ids.grant_each counts.now places.old.items }
    ensures ids { map (λ list. list.items) lists.new.items
        ≡ ids.ids_of_each counts.now places.old.items }
    ensures kept { vacant.new.rising ≡ vacant_indices places.new.items }
    ensures room { vacant.old.room ≤ vacant.new.room }
{
    for (place, count) in counts.iter().enumerate() {
        grant_each(places, vacant, &mut lists[place], *count);
    }
}

/// Grants `count` ids one after the other, for which there is room.
pub(crate) fn grant_each(
    places: &mut Vec<EntityMeta>,
    vacant: &mut MinHeap,
    granted: &mut Vec<Entity>,
    count: u32,
)
    requires kept { vacant.old.rising ≡ vacant_indices places.old.items }
    requires few { length places.old.items + (count - length vacant.old.rising) ≤ most_indices }
    requires room { vec_len places.old + (count - length vacant.old.rising)
        ≤ vec_capacity places.old }
    requires granted_room { vec_len granted.old + count ≤ vec_capacity granted.old }
    ensures grants { places.new.items ≡ ids.grant count places.old.items }
    ensures ids { granted.new.items ≡ granted.old.items ++ granted_ids count places.old.items }
    ensures kept { vacant.new.rising ≡ vacant_indices places.new.items }
    ensures capacity { vec_capacity places.old ≤ vec_capacity places.new }
    ensures room { vacant.old.room ≤ vacant.new.room }
{
    for _ in 0..count {
        let e = grant_one(places, vacant);
        let _ = granted.push(e);
    }
}

// Grants one id: the least vacant index, or else the next after the last, for which there is room.
fn grant_one(places: &mut Vec<EntityMeta>, vacant: &mut MinHeap) -> Entity
    requires kept { vacant.old.rising ≡ vacant_indices places.old.items }
    requires few { length places.old.items + (1 - length vacant.old.rising) ≤ most_indices }
    requires room { vec_len places.old + (1 - length vacant.old.rising) ≤ vec_capacity places.old }
    ensures grants { places.new.items ≡ ids.grant 1 places.old.items }
    ensures id { granted_ids 1 places.old.items ≡ result ∷ [] }
    ensures kept { vacant.new.rising ≡ vacant_indices places.new.items }
    ensures len { length vacant.new.rising ≡ length vacant.old.rising - 1 }
    ensures places { vec_len places.new ≡ vec_len places.old + (1 - length vacant.old.rising) }
    ensures capacity { vec_capacity places.old ≤ vec_capacity places.new }
    ensures room { vacant.new.room ≡ vacant.old.room }
{
    match vacant.pop() {
        Some(index) => {
            let place = &mut places[index as usize];
            place.grant();
            Entity {
                index,
                generation: place.generation(),
            }
        }
        None => {
            let index = places.len() as u32;
            let mut place = EntityMeta::fresh();
            place.grant();
            let _ = places.push(place);
            Entity {
                index,
                generation: 1,
            }
        }
    }
}
