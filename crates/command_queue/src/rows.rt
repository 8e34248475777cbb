// The components that an entity is left with, changed as commands tell.

ghost use Rattle.std.specs.Prelude.{◌≡◌, ◌==◌, ◌&&◌, true, OnOk};
ghost use Rattle.kinds.specs.Value.{value_number, value_words};
ghost use Rattle.model.specs.state.Rows.{insert_component, remove_component, row_at};
ghost use Rattle.archetype_store.specs.Layout.{AreAllHome};
ghost use Rattle.archetype_store.specs.Changes.{components_left};
ghost use Rattle.command_queue.specs.Pending.{is_left_alive};

use archetype_store::components::{put_component, take_component};
use archetype_store::{EntityChange, Fate, World};
use change_ticks::Tick;
use kinds::Value;
use std::alloc::AllocError;

// Reads the components that an entity has in a world into those that it is left with.
pub(crate) fn fill_kept(change: &mut EntityChange, world: &World) -> Result<(), AllocError>
    requires home { AreAllHome world.now.layout }
    requires lasts { is_left_alive change.old.fate ≡ true }
    ensures entity { change.new.entity ≡ change.old.entity }
    ensures lasts { is_left_alive change.new.fate ≡ true }
    ensures row { OnOk result (components_left change.new.fate
        ≡ row_at world.now.state.slots change.old.entity.index) }
{
    let index = change.entity.index;
    world.prove_home();
    match &mut change.fate {
        Fate::Lives(components) => world.components(index, components),
        Fate::Dies => unreachable!(),
    }
}

// Inserts a component at a tick among those that an entity is left with.
pub(crate) fn insert_kept(
    change: &mut EntityChange,
    value: Value,
    tick: Tick,
) -> Result<(), AllocError>
    requires { is_left_alive change.old.fate ≡ true }
    ensures entity { change.new.entity ≡ change.old.entity }
    ensures lasts { is_left_alive change.new.fate ≡ true }
    ensures row { OnOk result (components_left change.new.fate
        ≡ insert_component tick (value_number value) (value_words value)
        (components_left change.old.fate)) }
{
    match &mut change.fate {
        Fate::Lives(components) => put_component(components, value, tick),
        Fate::Dies => unreachable!(),
    }
}

// Removes the component of a kind from those that an entity is left with.
pub(crate) fn remove_kept(change: &mut EntityChange, number: u32)
    requires { is_left_alive change.old.fate ≡ true }
    ensures entity { change.new.entity ≡ change.old.entity }
    ensures lasts { is_left_alive change.new.fate ≡ true }
    ensures row { components_left change.new.fate
        ≡ remove_component number (components_left change.old.fate) }
{
    match &mut change.fate {
        Fate::Lives(components) => take_component(components, number),
        Fate::Dies => unreachable!(),
    }
}

// Whether a change leaves an entity of its index alive at a generation.
pub(crate) fn keeps(change: &EntityChange, generation: u32) -> bool
    ensures { result
        ≡ (is_left_alive change.now.fate && (change.now.entity.generation == generation)) }
{
    match &change.fate {
        Fate::Lives(_) => change.entity.generation == generation,
        Fate::Dies => false,
    }
}
