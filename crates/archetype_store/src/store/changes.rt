// What is done to the components of entities: changes of several at once, and of one.

ghost use Rattle.std.specs.List.{AllByRecursion};
ghost use Rattle.std.specs.Prelude.{◌≡◌, ◌≤◌, ◌<◌, ◌↔◌, true, false, [], map, is_some, IfOk, OnOk, OnErr, IsErrOf};
ghost use Rattle.kinds.specs.Kind.{kind_number};
ghost use Rattle.model.specs.state.Commands.{is_alive, freed, with_row};
ghost use Rattle.model.specs.state.Rows.{insert_component, remove_component, row_at};
ghost use Rattle.archetype_store.specs.Changes.{changed, slot_left, AreOfOtherIndices, CanChange};
ghost use Rattle.archetype_store.specs.Layout.{AreAllHome};
ghost use Rattle.archetype_store.specs.Row.{component_of};
ghost use Rattle.archetype_store.specs.Slot.{cell_of};
ghost use Rattle.archetype_store.specs.Store.{with_slots, with_slot};

use crate::change::{EntityChange, Fate};
use crate::components::{put_component, take_component};
use crate::fault::StoreFault;
use crate::row_moves::change_rows;
use crate::settling::settle_all;
use crate::store::World;
use change_ticks::Tick;
use column_store::Components;
use entity_table::Entity;
use kinds::{Component, Kind};
use std::alloc::{AllocError, Global};
use std::mem;

// The list of more changes than these is not kept: it would hold some 50 MB for as long as the world is there.
const MOST_KEPT: usize = 262_144;

impl World {
    /// Frees the index of an entity, so that its id names nothing, and drops its components. After an error nothing has
    /// changed.
    pub fn despawn(&mut self, e: Entity) -> Result<(), StoreFault>
        requires { AreAllHome self.old.layout }
        ensures ok { OnOk result (self.new.state ≡ with_slot e.index freed self.old.state) }
        ensures dead { IsErrOf result StoreFault.NotAlive
            ↔ (is_alive self.old.state.slots e ≡ false) }
        ensures err { OnErr result (self.new ≡ self.old) }
        ensures home { AreAllHome self.new.layout }
    {
        if !self.lives(e) {
            return Err(StoreFault::NotAlive);
        }
        self.change_one(e, Fate::Dies)?;
        Ok(())
    }

    /// Inserts a component of an entity at a tick. A component of the kind that it has already is replaced and keeps
    /// its added stamp. After an error nothing has changed.
    pub fn insert<C: Component>(
        &mut self,
        e: Entity,
        component: C,
        tick: Tick,
    ) -> Result<(), StoreFault>
        requires past { tick ≤ self.old.state.clock }
        requires home { AreAllHome self.old.layout }
        ensures ok { OnOk result (self.new.state
            ≡ with_slot e.index (with_row (insert_component tick C.NUMBER (C.words component)))
            self.old.state) }
        ensures dead { IsErrOf result StoreFault.NotAlive
            ↔ (is_alive self.old.state.slots e ≡ false) }
        ensures err { OnErr result (self.new ≡ self.old) }
        ensures home { AreAllHome self.new.layout }
    {
        if !self.lives(e) {
            return Err(StoreFault::NotAlive);
        }
        self.prove_shape();
        let mut row = self.row_of(e.index)?;
        put_component(&mut row, component.into_value(), tick)?;
        self.change_one(e, Fate::Lives(row))?;
        Ok(())
    }

    /// Removes the component of a kind of an entity. Where it has none, nothing changes, and no memory is asked for. After an error nothing
    /// has changed.
    pub fn remove(&mut self, e: Entity, kind: Kind) -> Result<(), StoreFault>
        requires { AreAllHome self.old.layout }
        ensures ok { OnOk result (self.new.state
            ≡ with_slot e.index (with_row (remove_component (kind_number kind)))
            self.old.state) }
        ensures dead { IsErrOf result StoreFault.NotAlive
            ↔ (is_alive self.old.state.slots e ≡ false) }
        ensures err { OnErr result (self.new ≡ self.old) }
        ensures home { AreAllHome self.new.layout }
        ensures absent { IsErrOf result StoreFault.Memory
            → is_some (cell_of self.old.state.slots e (kind_number kind)) ≡ true }
    {
        if !self.lives(e) {
            return Err(StoreFault::NotAlive);
        }
        if !self.has(e, kind) {
            return Ok(());
        }
        self.prove_shape();
        let mut row = self.row_of(e.index)?;
        take_component(&mut row, kind.number());
        self.change_one(e, Fate::Lives(row))?;
        Ok(())
    }

    // The components of an index.
    fn row_of(&self, index: u32) -> Result<Components, AllocError>
        requires { AreAllHome self.now.layout }
        ensures { IfOk result (λ row. map component_of row.items
            ≡ row_at self.now.state.slots index) }
    {
        self.prove_home();
        let mut row = Components::new(*self.change_list.allocator());
        self.components(index, &mut row)?;
        Ok(row)
    }

    // Makes the change of one entity. Where an allocation fails nothing has changed.
    fn change_one(&mut self, entity: Entity, fate: Fate) -> Result<(), AllocError>
        requires home { AreAllHome self.old.layout }
        requires can { CanChange self.old.state (record { entity = entity; fate = fate }) }
        ensures ok { OnOk result (self.new.state
            ≡ with_slot entity.index (slot_left fate) self.old.state) }
        ensures err { OnErr result (self.new ≡ self.old) }
        ensures home { AreAllHome self.new.layout }
    {
        self.change(&[EntityChange { entity, fate }])
    }

    /// Makes these changes, no two of one index. An entity that is left alive has just the components of its change,
    /// and no other entity changes. Where an allocation fails nothing has changed.
    pub fn change(&mut self, changes: &[EntityChange]) -> Result<(), AllocError>
        requires home { AreAllHome self.old.layout }
        requires apart { AreOfOtherIndices changes.now }
        requires can { AllByRecursion (CanChange self.old.state) changes.now }
        ensures ok { OnOk result (self.new.state
            ≡ with_slots (changed changes.now) self.old.state) }
        ensures err { OnErr result (self.new ≡ self.old) }
        ensures home { AreAllHome self.new.layout }
    {
        let alloc = *self.change_list.allocator();
        change_rows(alloc, &mut self.rows, &mut self.index, changes)?;
        settle_all(&mut self.ids, changes);
        Ok(())
    }

    /// A list for changes, without elements: in the room of the changes that were made before, where it was kept. Contracts see no such list.
    pub fn take_change_list(&mut self, alloc: Global) -> Vec<EntityChange>
        ensures list { result.items ≡ [] }
        ensures same { self.new ≡ self.old }
    {
        let mut list = mem::replace(&mut self.change_list, Vec::new(alloc));
        list.clear();
        list
    }

    /// Keeps a list of changes that are made as scratch for the next ones. That of very many is dropped.
    pub fn keep_change_list(&mut self, mut list: Vec<EntityChange>)
        ensures { self.new ≡ self.old }
    {
        if list.capacity() <= MOST_KEPT {
            list.clear();
            self.change_list = list;
        }
    }
}
