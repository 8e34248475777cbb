// The world as a program file gives it: entity i of the file at index i with generation 1, all at tick 1.

ghost use Rattle.std.specs.Prelude.{◌≡◌, ◌≤◌, [], map, length, IfErr, IfOk, OnOk};
ghost use Rattle.model.specs.state.Loaded.{row_given};
ghost use Rattle.model.specs.state.State.{resource_count};
ghost use Rattle.archetype_store.specs.Layout.{AreAllHome};
ghost use Rattle.archetype_store.specs.Row.{component_of};
ghost use Rattle.program.specs.Refused.{IsUngiven};
ghost use Rattle.program.specs.Load.{given_of, entity_given, loaded_world, with_resources, with_entities, AreGiven};

use crate::fault::Fault;
use archetype_store::components::put_component;
use archetype_store::{EntityChange, Fate, World};
use change_ticks::{Clock, Tick};
use column_store::Components;
use entity_table::Entity;
use kinds::{Res, Value};
use std::alloc::{AllocError, Global};

// The tick at which a file is loaded.
const LOADING: Tick = 1;

/// The world of these entities, each with its components, and of these values of the resources, by number.
pub fn world_of(
    alloc: Global,
    entities: &[Vec<Value>],
    resources: &[i64; 8],
) -> Result<World, Fault>
    ensures world { IfOk result (λ world. world.state
        ≡ loaded_world (map entity_given entities.now) resources.now) }
    ensures home { IfOk result (λ world. AreAllHome world.layout) }
    ensures refused { IfErr result (IsUngiven (length entities.now)) }
{
    let mut world = World::new(alloc, Clock::at(LOADING))?;
    give_resources(&mut world, resources);
    give_entities(alloc, &mut world, entities)?;
    Ok(world)
}

// Gives each resource its value.
fn give_resources(world: &mut World, values: &[i64; 8])
    requires clock { 1 ≤ world.old.state.clock }
    requires count { length world.old.state.resources ≡ resource_count }
    ensures resources { world.new.state ≡ with_resources values.now world.old.state }
    ensures layout { world.new.layout ≡ world.old.layout }
{
    for (number, value) in values.iter().enumerate() {
        world.set_res(Res::ALL[number], *value, LOADING);
    }
}

// Gives a world without entities these ones.
fn give_entities(alloc: Global, world: &mut World, entities: &[Vec<Value>]) -> Result<(), Fault>
    requires clock { 1 ≤ world.old.state.clock }
    requires empty { world.old.state.slots ≡ [] }
    requires home { AreAllHome world.old.layout }
    ensures given { OnOk result (world.new.state
        ≡ with_entities (map entity_given entities.now) world.old.state) }
    ensures home { AreAllHome world.new.layout }
    ensures refused { IfErr result (IsUngiven (length entities.now)) }
{
    let Ok(count) = u32::try_from(entities.len()) else {
        return Err(Fault::IdsSpent);
    };
    let ids = world.grant(alloc, count)?;
    let changes = changes_of(alloc, &ids, entities)?;
    world.change(&changes)?;
    Ok(())
}

// What becomes of the ids of these entities: each lives, with its components.
fn changes_of(
    alloc: Global,
    ids: &[Entity],
    entities: &[Vec<Value>],
) -> Result<Vec<EntityChange>, AllocError>
    requires { length ids.now ≡ length entities.now }
    ensures { IfOk result (λ changes. AreGiven ids.now (map entity_given entities.now)
        changes.items) }
{
    let mut changes = Vec::with_capacity(alloc, entities.len())?;
    for (index, values) in entities.iter().enumerate() {
        let fate = Fate::Lives(row_of(alloc, values.as_slice())?);
        let entity = ids[index];
        changes.push(EntityChange { entity, fate })?;
    }
    Ok(changes)
}

// The components of an entity as the store has them: in rising kinds, all added as the file is loaded.
fn row_of(alloc: Global, values: &[Value]) -> Result<Components, AllocError>
    ensures { IfOk result (λ row. map component_of row.items
        ≡ row_given (map given_of values.now)) }
{
    let mut row = Components::with_capacity(alloc, values.len())?;
    for value in values {
        put_component(&mut row, *value, LOADING)?;
    }
    Ok(row)
}
