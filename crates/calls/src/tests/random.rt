// Worlds made at random, and both plans of a query beside a look at each of their entities.

ghost use Rattle.std.specs.Prelude.{◌≤◌};
ghost use Rattle.archetype_store.specs.Layout.{AreAllHome};

use crate::tests::plans::{are_planned, entity};
use crate::tests::worlds::world_of_many;
use archetype_store::{StoreFault, World};
use change_ticks::Clock;
use entity_table::Entity;
use kinds::Kind;
use kinds::component::{Frozen, Health, Hidden};
use query::Query;
use query_plan::shape_of;
use std::alloc::Global;

// How many worlds there are, how many entities each has at first, and how many changes come before its shape is registered, and after.
const WORLDS: u32 = 1000;

const ENTITIES: u32 = 12;

const CHANGES: u32 = 16;

// The number after another one, of those that are taken for random.
fn following(number: u64) -> u64 {
    number
        .wrapping_mul(6364136223846793005)
        .wrapping_add(1442695040888963407)
}

// Does to a world what a number says: an entity gains a kind or loses one, or lives no more. None where an allocation fails.
fn change(world: &mut World, number: u64) -> Option<()>
    requires clock { 1 ≤ world.old.state.clock }
    requires home { AreAllHome world.old.layout }
    ensures clock { 1 ≤ world.new.state.clock }
    ensures home { AreAllHome world.new.layout }
{
    let e = entity((number >> 40) as u32 % ENTITIES);
    let done = match (number >> 60) as u32 {
        0..4 => world.insert(e, Health { v: 1 }, 1),
        4..7 => world.insert(e, Frozen {}, 1),
        7..10 => world.insert(e, Hidden {}, 1),
        10..12 => world.remove(e, Kind::Health),
        12 => world.remove(e, Kind::Frozen),
        13..15 => world.remove(e, Kind::Hidden),
        _ => world.despawn(e),
    };
    match done {
        Err(StoreFault::Memory) => None,
        _ => Some(()),
    }
}

// Changes a world at random, and returns the number after those that were taken.
fn shuffle(world: &mut World, first: u64) -> Option<u64>
    requires clock { 1 ≤ world.old.state.clock }
    requires home { AreAllHome world.old.layout }
    ensures clock { 1 ≤ world.new.state.clock }
    ensures home { AreAllHome world.new.layout }
{
    let mut number = first;
    for _ in 0..CHANGES {
        change(world, number)?;
        number = following(number);
    }
    Some(number)
}

// What a query asks for.
#[derive(Clone, Copy)]
enum Asked {
    Healthy,
    Thawed,
    Shown,
    Concealed,
}

impl Asked {
    // What a number says.
    fn of(number: u64) -> Self {
        match (number >> 62) as u32 {
            0 => Asked::Healthy,
            1 => Asked::Thawed,
            2 => Asked::Shown,
            _ => Asked::Concealed,
        }
    }

    // Its text.
    fn text(self) -> &'static str {
        match self {
            Asked::Healthy => "read Health",
            Asked::Thawed => "mut Health, without Frozen",
            Asked::Shown => "with Frozen, without Hidden",
            Asked::Concealed => "read Health, with Hidden, with Frozen",
        }
    }

    // Whether it asks for an entity.
    fn fits(self, world: &World, e: Entity) -> bool {
        let is_healthy = world.has(e, Kind::Health);
        let is_frozen = world.has(e, Kind::Frozen);
        let is_hidden = world.has(e, Kind::Hidden);
        match self {
            Asked::Healthy => is_healthy,
            Asked::Thawed => is_healthy && !is_frozen,
            Asked::Shown => is_frozen && !is_hidden,
            Asked::Concealed => is_healthy && is_hidden && is_frozen,
        }
    }
}

// The indices of the entities that are asked for, by a look at each.
fn indices(alloc: Global, world: &World, asked: Asked) -> Option<Vec<u32>> {
    let mut found = Vec::new(alloc);
    for index in 0..ENTITIES {
        if asked.fits(world, entity(index)) {
            found.push(index).ok()?;
        }
    }
    Some(found)
}

// Whether both plans of a query have the rows that are asked for, in a world of which this is the first number.
fn is_planned(alloc: Global, first: u64) -> Option<bool> {
    let mut world = world_of_many(alloc, Clock::at(1), ENTITIES)?;
    let number = shuffle(&mut world, first)?;
    let asked = Asked::of(number);
    let query = Query::read(alloc, asked.text()).ok()?;
    let shape = world.register(&shape_of(&query)).ok()?;
    shuffle(&mut world, number)?;
    let wanted = indices(alloc, &world, asked)?;
    are_planned(alloc, &world, &query, shape, &wanted)
}

/// In a thousand worlds made at random, whose shapes are registered half-way, both plans of a query have the rows that it asks for.
pub(crate) fn random_worlds(alloc: Global) -> Option<bool> {
    let mut number = 1;
    for _ in 0..WORLDS {
        if !is_planned(alloc, number)? {
            return Some(false);
        }
        number = following(number);
    }
    Some(true)
}
