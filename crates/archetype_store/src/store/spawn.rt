// What is done to a world between runs: a new entity, a tick that is given back, and an index of a world that is built again.

ghost use Rattle.std.specs.List.{AllByRecursion};
ghost use Rattle.std.specs.Prelude.{◌≡◌, ◌-◌, ◌↔◌, ◌∷◌, ◌++◌, false, [], length, map, IfOk, OnErr, OnOk, IsErrOf};
ghost use Rattle.kinds.specs.Components.{widths};
ghost use Rattle.model.specs.sessions.Inputs.{next_id};
ghost use Rattle.model.specs.state.Rows.{IsRising};
ghost use Rattle.model.specs.state.Shape.{IsComponent, IsSlot, IsWorld};
ghost use Rattle.model.specs.state.State.{most_indices};
ghost use Rattle.entity_table.specs.Status.{empty_slot};
ghost use Rattle.archetype_store.specs.Changes.{with_new};
ghost use Rattle.archetype_store.specs.Layout.{AreAllHome};
ghost use Rattle.archetype_store.specs.Row.{component_of};
ghost use Rattle.archetype_store.specs.Store.{at_clock, with_slots};
ghost use Rattle.model.specs.state.Ids as ids;

use crate::change::{EntityChange, Fate};
use crate::fault::GrantFault;
use crate::row_moves::change_rows;
use crate::settling::{prove_book, settle_all};
use crate::store::World;
use column_store::Components;
use entity_table::{Entity, Status};
use std::alloc::Global;
use std::snapshot::Snapshot;

impl World {
    /// Makes a new entity with these components, in rising kinds, at the least vacant index. `IdsSpent` where no index is left. After an error
    /// nothing has changed.
    pub fn spawn(&mut self, alloc: Global, components: Components) -> Result<Entity, GrantFault>
        requires home { AreAllHome self.old.layout }
        requires rising { IsRising (map component_of components.items) }
        requires components { AllByRecursion (IsComponent widths self.old.state.clock) (map
            component_of components.items) }
        ensures id { IfOk result (λ e. e ≡ next_id self.old.state.slots) }
        ensures ok { OnOk result (self.new.state
            ≡ with_slots (with_new (map component_of components.items)) self.old.state) }
        ensures spent { IsErrOf result GrantFault.IdsSpent
            ↔ (ids.has_ids 1 self.old.state.slots ≡ false) }
        ensures err { OnErr result (self.new ≡ self.old) }
        ensures home { AreAllHome self.new.layout }
    {
        let before = Snapshot::of(&self.ids);
        prove_book(&self.ids);
        let granted = self.ids.grant(alloc, 1)?;
        let entity = granted[0];
        let changes = [EntityChange {
            entity,
            fate: Fate::Lives(components),
        }];
        match change_rows(alloc, &mut self.rows, &mut self.index, &changes) {
            Ok(()) => {
                settle_all(&mut self.ids, &changes);
                Ok(entity)
            }
            Err(_) => {
                self.ids.take_back(entity, before);
                Err(GrantFault::Memory)
            }
        }
    }

    /// Adds the index behind the last one, at this generation and status, without components: a world is built again from one that was written
    /// down. `IdsSpent` where no index is left. After an error nothing has changed.
    pub fn push_slot(&mut self, generation: u32, status: Status) -> Result<(), GrantFault>
        requires { IsSlot (λ kind. 0) 0 (empty_slot generation status) }
        ensures ok { OnOk result (self.new.state
            ≡ with_slots (λ slots. slots ++ empty_slot generation status ∷ []) self.old.state) }
        ensures spent { IsErrOf result GrantFault.IdsSpent
            ↔ (length self.old.state.slots ≡ most_indices) }
        ensures layout { self.new.layout ≡ self.old.layout }
        ensures err { OnErr result (self.new ≡ self.old) }
    {
        self.ids.push(generation, status)?;
        Ok(())
    }

    /// Takes the last tick of the clock back, which no stamp of the world has yet.
    pub fn give_back_tick(&mut self)
        requires { IsWorld widths (at_clock (self.old.state.clock - 1) self.old.state) }
        ensures state { self.new.state ≡ at_clock (self.old.state.clock - 1) self.old.state }
        ensures layout { self.new.layout ≡ self.old.layout }
    {
        self.clock.back();
    }
}
