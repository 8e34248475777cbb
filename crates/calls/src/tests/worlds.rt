// Worlds that tests begin with: entities that live, and components that they are given.

ghost use Rattle.std.specs.Prelude.{◌≡◌, ◌≤◌, All, IfSome};
ghost use Rattle.entity_table.specs.Ids.{IsGranted, AreApart};
ghost use Rattle.archetype_store.specs.Layout.{AreAllHome};

use archetype_store::World;
use change_ticks::Clock;
use entity_table::Entity;
use kinds::Component;
use kinds::component::{Frozen, Health, Hidden};
use std::alloc::Global;

/// The first entity of a world.
pub const FIRST: Entity = Entity {
    index: 0,
    generation: 1,
};

// The second one.
const SECOND: Entity = Entity {
    index: 1,
    generation: 1,
};

/// The component of a kind of an entity, where all columns are at home.
pub(crate) fn component_of<C: Component>(world: &World, e: Entity) -> Option<C>
    requires { AreAllHome world.now.layout }
{
    world.prove_home();
    world.get::<C>(e)
}

/// A world at a clock in which nothing lives.
pub(crate) fn empty_world(alloc: Global, clock: Clock) -> Option<Box<World>>
    ensures clock { IfSome result (λ world. 1 ≤ world.value.state.clock) }
    ensures home { IfSome result (λ world. AreAllHome world.value.layout) }
{
    // Proves that the clock isn't before tick 1.
    let _now = clock.now();
    Box::new(alloc, World::empty(alloc, clock)).ok()
}

/// A world at a clock in which the first entity lives, without components.
pub(crate) fn world_of_one(alloc: Global, clock: Clock) -> Option<Box<World>>
    ensures clock { IfSome result (λ world. 1 ≤ world.value.state.clock) }
    ensures home { IfSome result (λ world. AreAllHome world.value.layout) }
{
    let mut world = empty_world(alloc, clock)?;
    let granted = world.grant(alloc, 1).ok()?;
    settle_used(&mut world, granted.as_slice());
    Some(world)
}

/// Gives the first entity a component at tick 1. None where it does not live, or an allocation fails.
pub(crate) fn put<C: Component>(world: &mut World, component: C) -> Option<()>
    requires clock { 1 ≤ world.old.state.clock }
    requires home { AreAllHome world.old.layout }
    ensures clock { 1 ≤ world.new.state.clock }
    ensures home { AreAllHome world.new.layout }
{
    give(world, FIRST, component)
}

/// Gives an entity a component at tick 1. None where it does not live, or an allocation fails.
pub(crate) fn give<C: Component>(world: &mut World, entity: Entity, component: C) -> Option<()>
    requires clock { 1 ≤ world.old.state.clock }
    requires home { AreAllHome world.old.layout }
    ensures clock { 1 ≤ world.new.state.clock }
    ensures home { AreAllHome world.new.layout }
{
    world.insert(entity, component, 1).ok()
}

/// A world of two entities with health, of which the first is frozen and the second hidden.
pub(crate) fn frozen_and_hidden(alloc: Global) -> Option<Box<World>>
    ensures home { IfSome result (λ world. AreAllHome world.value.layout) }
{
    let mut world = world_of_many(alloc, Clock::at(1), 2)?;
    put(&mut world, Health { v: 1 })?;
    put(&mut world, Frozen {})?;
    give(&mut world, SECOND, Health { v: 1 })?;
    give(&mut world, SECOND, Hidden {})?;
    Some(world)
}

/// Settles all of these granted ids as used.
pub(crate) fn settle_used(world: &mut World, ids: &[Entity])
    requires granted { All (IsGranted world.old.state.slots) ids.now }
    requires apart { AreApart ids.now }
    ensures clock { world.new.state.clock ≡ world.old.state.clock }
    ensures layout { world.new.layout ≡ world.old.layout }
{
    world.settle(ids, &[]);
}

/// Settles three granted ids: the first and the last as used, and the one between them as unused.
pub(crate) fn settle_three(world: &mut World, ids: [Entity; 3])
    requires granted { All (IsGranted world.old.state.slots) ids }
    requires apart { AreApart ids }
    ensures clock { world.new.state.clock ≡ world.old.state.clock }
    ensures layout { world.new.layout ≡ world.old.layout }
{
    let [first, between, last] = ids;
    world.settle(&[first, last], &[between]);
}

/// A world at a clock in which so many entities live, without components.
pub(crate) fn world_of_many(alloc: Global, clock: Clock, count: u32) -> Option<Box<World>>
    ensures clock { IfSome result (λ world. 1 ≤ world.value.state.clock) }
    ensures home { IfSome result (λ world. AreAllHome world.value.layout) }
{
    let mut world = empty_world(alloc, clock)?;
    let granted = world.grant(alloc, count).ok()?;
    settle_used(&mut world, granted.as_slice());
    Some(world)
}
