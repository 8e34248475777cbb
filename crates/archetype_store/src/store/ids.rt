// The ids of a world: granted, alive, settled and freed.

ghost use Rattle.std.specs.Prelude.{◌≡◌, ◌++◌, ◌+◌, ◌≤◌, ◌<◌, ◌↔◌, ℕ, true, false, Some, length, map, is_some, All, IfSome, IfNone, IfOk, OnOk, OnErr, IsErrOf};
ghost use Rattle.model.specs.state.Commands.{is_alive, spawned};
ghost use Rattle.entity_table.specs.Ids.{slot_at, lives_at, IsGranted, settled, AreApart};
ghost use Rattle.archetype_store.specs.Slot.{value_of_slot, bare_of};
ghost use Rattle.archetype_store.specs.Store.{with_slots, with_slot};
ghost use Rattle.model.specs.state.Ids as ids;
ghost use Rattle.model.specs.state.Commands as commands;

use crate::fault::GrantFault;
use crate::slot_state::SlotState;
use crate::store::World;
use entity_table::Entity;
use std::alloc::Global;

impl World {
    /// Grants `count` ids: the least vacant indices, at their generations. After an error nothing has changed.
    pub fn grant(&mut self, alloc: Global, count: u32) -> Result<Vec<Entity>, GrantFault>
        ensures ok { IfOk result (λ granted. granted.items
            ≡ ids.granted_ids count self.old.state.slots) }
        ensures granted { OnOk result (self.new.state
            ≡ with_slots (ids.grant count) self.old.state) }
        ensures each { IfOk result (λ granted. All (IsGranted self.new.state.slots) granted.items) }
        ensures apart { IfOk result (λ granted. AreApart granted.items) }
        ensures spent { IsErrOf result GrantFault.IdsSpent
            ↔ (ids.has_ids count self.old.state.slots ≡ false) }
        ensures layout { self.new.layout ≡ self.old.layout }
        ensures err { OnErr result (self.new ≡ self.old) }
    {
        let granted = self.ids.grant(alloc, count)?;
        Ok(granted)
    }

    /// Grants several numbers of ids at once, as a grant of each after the others would. They are the least vacant
    /// indices, at their generations, first those of the first number. They come into a list for each number, in
    /// place of the earlier ones: lists that are long enough take no memory. It is refused where fewer indices are
    /// left than are asked for in all, and where an allocation fails. After an error nothing of the world has
    /// changed.
    pub fn grant_level(
        &mut self,
        alloc: Global,
        counts: &[u32],
        granted: &mut Vec<Vec<Entity>>,
    ) -> Result<(), GrantFault>
        ensures ok { OnOk result (map (λ list. list.items) granted.new.items
            ≡ ids.ids_of_each counts.now self.old.state.slots) }
        ensures granted { OnOk result (self.new.state
            ≡ with_slots (ids.grant_each counts.now) self.old.state) }
        ensures spent { IsErrOf result GrantFault.IdsSpent
            ↔ (ids.has_ids_for_each counts.now self.old.state.slots ≡ false) }
        ensures layout { self.new.layout ≡ self.old.layout }
        ensures err { OnErr result (self.new ≡ self.old) }
    {
        self.ids.grant_level(alloc, counts, granted)?;
        Ok(())
    }

    /// Makes the entity of a granted id live, without components.
    pub fn spawn_at(&mut self, e: Entity)
        requires { IsGranted self.old.state.slots e }
        ensures state { self.new.state ≡ with_slot e.index (spawned e.generation) self.old.state }
        ensures layout { self.new.layout ≡ self.old.layout }
    {
        self.ids.spawn_at(e);
    }

    /// Settles granted ids, none of them named twice: the used ones live without components, the unused ones are freed.
    pub fn settle(&mut self, used: &[Entity], unused: &[Entity])
        requires used { All (IsGranted self.old.state.slots) used.now }
        requires unused { All (IsGranted self.old.state.slots) unused.now }
        requires apart { AreApart (used.now ++ unused.now) }
        ensures state { self.new.state ≡ with_slots (settled used.now unused.now) self.old.state }
        ensures layout { self.new.layout ≡ self.old.layout }
    {
        self.ids.settle(used, unused);
    }

    /// Frees each index named that is still granted: it is vacant with one more generation, or retired where that can't grow.
    pub fn release(&mut self, ids: &[Entity])
        ensures state { self.new.state ≡ with_slots (commands.release ids.now) self.old.state }
        ensures layout { self.new.layout ≡ self.old.layout }
    {
        self.ids.release(ids);
    }

    /// Whether an entity lives.
    pub fn lives(&self, e: Entity) -> bool
        ensures { result ≡ is_alive self.now.state.slots e }
    {
        self.ids.lives(e)
    }

    /// The living entity of the least index from this one on.
    pub fn next_living(&self, index: u32) -> Option<Entity>
        ensures lives { IfSome result (λ e. (index ≤ e.index)
            × (is_alive self.now.state.slots e ≡ true)) }
        ensures least { IfSome result (λ e. (k : ℕ) → index ≤ k → k < e.index
            → lives_at self.now.state.slots k ≡ false) }
        ensures none { IfNone result ((k : ℕ) → index ≤ k
            → lives_at self.now.state.slots k ≡ false) }
    {
        self.ids.next_living(index)
    }

    /// The entity of an index, where it lives without components. It touches no column.
    pub fn bare_at(&self, index: u32) -> Option<Entity>
        ensures { result ≡ bare_of index (slot_at self.now.state.slots index) }
    {
        let e = Entity {
            index,
            generation: self.ids.generation(index),
        };
        if !self.ids.lives(e) {
            return None;
        }
        self.rows.prove_rows();
        if self.rows.place(index).is_some() {
            return None;
        }
        Some(e)
    }

    /// How many indices the world has: past them every index is vacant at generation 1.
    pub fn slot_count(&self) -> u32
        ensures { result ≡ length self.now.state.slots }
    {
        self.ids.len()
    }

    /// The generation and the status of an index.
    pub fn slot_at(&self, index: u32) -> SlotState
        requires { index < length self.now.state.slots }
        ensures { result ≡ value_of_slot (slot_at self.now.state.slots index) }
    {
        SlotState::of(self.ids.generation(index), self.ids.status(index))
    }
}
