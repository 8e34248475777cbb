// The id book.

ghost use Rattle.std.specs.Prelude.{◌≡◌, ◌++◌, ◌∷◌, ◌≤◌, ◌<◌, ◌↔◌, ℕ, true, false, [], length, map, All, IsTrue, IfSome, IfNone, IfOk, OnOk, OnErr, IsErrOf};
ghost use Rattle.model.specs.Lists.{update_at};
ghost use Rattle.model.specs.state.State.{most_indices, is_vacant, is_granted};
ghost use Rattle.model.specs.state.Ids as ids;
ghost use Rattle.model.specs.state.Commands.{is_alive, spawned, freed};
ghost use Rattle.model.specs.state.Commands as commands;
ghost use Rattle.model.specs.state.Shape.{IsSlot};
ghost use Rattle.entity_table.specs.Status.{status_of, empty_slot};
ghost use Rattle.entity_table.specs.Ids.{slot_at, lives_at, living_count, IsGranted, AreApart, IsBook, IsKept, settled};

use crate::entity_meta::EntityMeta;
use crate::fault::GrantFault;
use crate::granting::{grant_each, grant_lists, make_ready, sum_of};
use crate::min_heap::MinHeap;
use crate::status::Status;
use model::Entity;
use std::alloc::{AllocError, Global};
use std::marker::Model;
use std::snapshot::Snapshot;

/// How many indices there may be.
pub const MOST_INDICES: usize = 1_048_576;

/// The id book: for each index its generation and what it is. Contracts see the slots by index, without components. An index past
/// the end is vacant at generation 1.
///
/// The vacant indices are kept apart, the least first. The time of a grant of n ids among k vacant ones grows as n
/// times the logarithm of k, however many indices there are. Room for every index to be vacant is made by the grant
/// that brings it.
#[derive(Drop)]
pub struct EntityTable {
    places: Vec<EntityMeta>,
    vacant: MinHeap,
    // How many entities live.
    living: u32,
}

impl Model for EntityTable {
    ghost use Rattle.std.specs.Prelude.{List};
    ghost use Rattle.model.specs.state.State.{Slot};
    ghost use Rattle.entity_table.specs.Ids.{IsCounted};

    ghost Value = { List Slot };

    ghost view = { λ t. t.places.items };

    ghost invariant = { λ t. IsCounted t.places.items t.vacant t.living };
}

impl EntityTable {
    /// No indices.
    pub fn new(alloc: Global) -> Self
        ensures { result ≡ [] }
    {
        EntityTable {
            places: Vec::new(alloc),
            vacant: MinHeap::new(alloc),
            living: 0,
        }
    }

    /// The same indices once more. Where an allocation fails there is no copy.
    pub fn copy(&self, alloc: Global) -> Result<Self, AllocError>
        ensures { IfOk result (λ copy. copy ≡ self.now) }
    {
        let places = copied_places(alloc, &self.places)?;
        let vacant = self.vacant.copy(alloc, self.places.len())?;
        Ok(EntityTable {
            places,
            vacant,
            living: self.living,
        })
    }

    /// How many indices there are: past them every index is vacant at generation 1.
    pub fn len(&self) -> u32
        ensures value { result ≡ length self.now }
        ensures book { IsBook self.now }
    {
        self.places.len() as u32
    }

    /// How many entities live. The book keeps the count, so this looks at no index.
    pub fn living(&self) -> u32
        ensures { result ≡ living_count self.now }
    {
        self.living
    }

    /// The generation of an index.
    pub fn generation(&self, index: u32) -> u32
        ensures { result ≡ (slot_at self.now index).generation }
    {
        match self.places.get(index as usize) {
            Some(place) => place.generation(),
            None => 1,
        }
    }

    /// The status of an index.
    pub fn status(&self, index: u32) -> Status
        ensures { status_of result ≡ (slot_at self.now index).status }
    {
        match self.places.get(index as usize) {
            Some(place) => place.status(),
            None => Status::Vacant,
        }
    }

    /// Whether an entity lives.
    pub fn lives(&self, e: Entity) -> bool
        ensures value { result ≡ is_alive self.now e }
        ensures within { IsTrue result → e.index < length self.now }
    {
        match self.places.get(e.index as usize) {
            Some(place) => place.is_living() && place.generation() == e.generation,
            None => false,
        }
    }

    /// The living entity of the least index from this one on. It looks at each index on the way.
    pub fn next_living(&self, from: u32) -> Option<Entity>
        ensures lives { IfSome result (λ e. (from ≤ e.index) × (is_alive self.now e ≡ true)) }
        ensures least { IfSome result (λ e. (k : ℕ) → from ≤ k → k < e.index
            → lives_at self.now k ≡ false) }
        ensures none { IfNone result ((k : ℕ) → from ≤ k → lives_at self.now k ≡ false) }
    {
        next_living_in(self.places.as_slice(), from)
    }

    /// Grants `count` ids: the least vacant indices, at their generations. It makes the room that `settle`, `release` and `despawn`
    /// need later. After an error nothing has changed.
    pub fn grant(&mut self, alloc: Global, count: u32) -> Result<Vec<Entity>, GrantFault>
        ensures ok { IfOk result (λ granted. granted.items ≡ ids.granted_ids count self.old) }
        ensures granted { OnOk result (self.new ≡ ids.grant count self.old) }
        ensures each { IfOk result (λ granted. All (IsGranted self.new) granted.items) }
        ensures apart { IfOk result (λ granted. AreApart granted.items) }
        ensures spent { IsErrOf result GrantFault.IdsSpent ↔ (ids.has_ids count self.old ≡ false) }
        ensures err { OnErr result (self.new ≡ self.old) }
    {
        let had = self.places.len();
        let missing = (count as usize).saturating_sub(self.vacant.len());
        if MOST_INDICES < had + missing {
            return Err(GrantFault::IdsSpent);
        }
        let mut granted = Vec::with_capacity(alloc, count as usize)?;
        self.places.reserve(missing)?;
        self.vacant.make_room(had + missing)?;
        grant_each(&mut self.places, &mut self.vacant, &mut granted, count);
        Ok(granted)
    }

    /// Grants several numbers of ids at once, as a grant of each after the others would. They are the least vacant
    /// indices, at their generations, first those of the first number. They come into a list for each number, in
    /// place of the earlier ones: lists that are long enough take no memory. It makes the room that `settle`,
    /// `release` and `despawn` need later. It is refused where fewer indices are left than are asked for in all, and
    /// where an allocation fails. After an error nothing of the book has changed.
    pub fn grant_level(
        &mut self,
        alloc: Global,
        counts: &[u32],
        granted: &mut Vec<Vec<Entity>>,
    ) -> Result<(), GrantFault>
        ensures ok { OnOk result (map (λ list. list.items) granted.new.items
            ≡ ids.ids_of_each counts.now self.old) }
        ensures granted { OnOk result (self.new ≡ ids.grant_each counts.now self.old) }
        ensures spent { IsErrOf result GrantFault.IdsSpent
            ↔ (ids.has_ids_for_each counts.now self.old ≡ false) }
        ensures err { OnErr result (self.new ≡ self.old) }
    {
        let had = self.places.len();
        let missing = sum_of(counts).saturating_sub(self.vacant.len());
        if MOST_INDICES < had.saturating_add(missing) {
            return Err(GrantFault::IdsSpent);
        }
        make_ready(alloc, counts, granted)?;
        self.places.reserve(missing)?;
        self.vacant.make_room(had + missing)?;
        grant_lists(&mut self.places, &mut self.vacant, granted, counts);
        Ok(())
    }

    /// Adds the index behind the last one, at this generation and status: a table is built again from one that was written down. `IdsSpent`
    /// where no index is left. After an error nothing has changed.
    pub fn push(&mut self, generation: u32, status: Status) -> Result<(), GrantFault>
        requires { IsSlot (λ kind. 0) 0 (empty_slot generation status) }
        ensures ok { OnOk result (self.new ≡ self.old ++ empty_slot generation status ∷ []) }
        ensures spent { IsErrOf result GrantFault.IdsSpent ↔ (length self.old ≡ most_indices) }
        ensures err { OnErr result (self.new ≡ self.old) }
    {
        let index = self.places.len();
        if index == MOST_INDICES {
            return Err(GrantFault::IdsSpent);
        }
        self.places.reserve(1)?;
        self.vacant.make_room(index + 1)?;
        self.places
            .push_reserved(EntityMeta::of(generation, status));
        match status {
            Status::Vacant => self.vacant.push(index as u32),
            Status::Living => self.living += 1,
            Status::Granted | Status::Retired => {}
        }
        Ok(())
    }

    /// Takes back the id that a grant of one gave, as if nobody had asked for it. It takes no memory.
    pub fn take_back(&mut self, e: Entity, before: Snapshot<EntityTable>)
        requires book { IsBook before.value }
        requires granted { ids.grant 1 before.value ≡ self.old }
        requires id { ids.granted_ids 1 before.value ≡ e ∷ [] }
        ensures { self.new ≡ before.value }
    {
        // An index that was vacant before came back once, so only a new one has generation 1.
        if e.generation == 1 {
            let _ = self.places.pop();
        } else {
            let place = &mut self.places[e.index as usize];
            place.take_back();
            self.vacant.push(e.index);
        }
    }

    /// Makes the entity of a granted id live.
    pub fn spawn_at(&mut self, e: Entity)
        requires { IsGranted self.old e }
        ensures { self.new ≡ update_at e.index (spawned e.generation) self.old }
    {
        let place = &mut self.places[e.index as usize];
        place.spawn();
        self.living += 1;
    }

    /// Settles granted ids, none of them named twice: the used ones live, the unused ones are freed. It allocates nothing.
    pub fn settle(&mut self, used: &[Entity], unused: &[Entity])
        requires used { All (IsGranted self.old) used.now }
        requires unused { All (IsGranted self.old) unused.now }
        requires apart { AreApart (used.now ++ unused.now) }
        ensures { self.new ≡ settled used.now unused.now self.old }
    {
        for e in used {
            self.spawn_at(*e);
        }
        self.release(unused);
    }

    /// Frees each index named that is still granted: it is vacant with one more generation, or retired where that can't grow. It takes
    /// no memory.
    pub fn release(&mut self, ids: &[Entity])
        ensures { self.new ≡ commands.release ids.now self.old }
    {
        for id in ids {
            if self.is_granted(id.index) {
                self.release_one(id.index);
            }
        }
    }

    /// Frees the index of an entity that lives, so that its id names nothing. It allocates nothing.
    pub fn despawn(&mut self, e: Entity)
        requires { is_alive self.old e ≡ true }
        ensures { self.new ≡ update_at e.index freed self.old }
    {
        free_in(&mut self.places, &mut self.vacant, e.index);
        self.living -= 1;
    }

    // Whether the index was granted and is not settled.
    fn is_granted(&self, index: u32) -> bool
        ensures { result ≡ is_granted (slot_at self.now index).status }
    {
        match self.places.get(index as usize) {
            Some(place) => place.is_granted(),
            None => false,
        }
    }

    // Frees a granted index: as many live as before.
    fn release_one(&mut self, index: u32)
        requires { is_granted (slot_at self.old index).status ≡ true }
        ensures { self.new ≡ update_at index freed self.old }
    {
        free_in(&mut self.places, &mut self.vacant, index);
    }
}

// Frees an index that isn't vacant. There is room for it among the vacant ones, since there is for all indices.
fn free_in(places: &mut Vec<EntityMeta>, vacant: &mut MinHeap, index: u32)
    requires kept { IsKept places.old.items vacant.old }
    requires within { index < length places.old.items }
    requires held { is_vacant (slot_at places.old.items index).status ≡ false }
    ensures freed { places.new.items ≡ update_at index freed places.old.items }
    ensures kept { IsKept places.new.items vacant.new }
{
    let place = &mut places[index as usize];
    place.free();
    if place.is_vacant() {
        vacant.push(index);
    }
}

// The same indices once more.
fn copied_places(alloc: Global, places: &[EntityMeta]) -> Result<Vec<EntityMeta>, AllocError>
    ensures { IfOk result (λ copies. copies.items ≡ places.now) }
{
    let mut copies = Vec::with_capacity(alloc, places.len())?;
    for place in places {
        copies.push_reserved(place.copy());
    }
    Ok(copies)
}

// The living entity of the least index from this one on.
fn next_living_in(places: &[EntityMeta], from: u32) -> Option<Entity>
    requires { length places.now ≤ most_indices }
    ensures lives { IfSome result (λ e. (from ≤ e.index) × (is_alive places.now e ≡ true)) }
    ensures least { IfSome result (λ e. (k : ℕ) → from ≤ k → k < e.index
        → lives_at places.now k ≡ false) }
    ensures none { IfNone result ((k : ℕ) → from ≤ k → lives_at places.now k ≡ false) }
{
    for index in from as usize..places.len() {
        let place = &places[index];
        if place.is_living() {
            return Some(Entity {
                index: index as u32,
                generation: place.generation(),
            });
        }
    }
    None
}
