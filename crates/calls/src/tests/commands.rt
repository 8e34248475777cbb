// Commands in runs: the order in which a level is granted its ids and its commands are done.

ghost use Rattle.std.specs.Prelude.{IfSome};
ghost use Rattle.archetype_store.specs.Layout.{AreAllHome};

use crate::tests::bodies::TestBody;
use crate::tests::engines::{Systems, TestEngine, commanding};
use crate::tests::runs::Way;
use crate::tests::worlds::{FIRST, component_of, empty_world, put, world_of_one};
use archetype_store::World;
use body::State;
use change_ticks::Clock;
use engine::{Engine, RunFault};
use entity_table::Entity;
use kinds::component::{Health, Score};
use script::Rounds;
use std::alloc::Global;

// The second entity of a world.
const SECOND: Entity = Entity {
    index: 1,
    generation: 1,
};

// A world in which one entity lives, with health.
fn world(alloc: Global) -> Option<Box<World>>
    ensures home { IfSome result (λ world. AreAllHome world.value.layout) }
{
    let mut world = world_of_one(alloc, Clock::at(1))?;
    put(&mut world, Health { v: 1 })?;
    Some(world)
}

/// An engine of two systems of one level, each of which gives what has health a score.
pub(crate) fn scoring(alloc: Global) -> Option<TestEngine> {
    let mut systems = Systems::new(alloc);
    for instruction in ["insert row Score 1", "insert row Score 2"] {
        let params = commanding(alloc, "entity, read Health", 0)?;
        systems.follow(alloc, params, Rounds::EachRow(0), &[instruction])?;
    }
    systems.engine(alloc, world(alloc)?)
}

// The score of an entity.
fn score(engine: &Engine<TestBody>, entity: Entity) -> Option<Score> {
    component_of::<Score>(engine.state().world(), entity)
}

/// Whether the first entity has this score.
pub(crate) fn has_score(engine: &Engine<TestBody>, v: i64) -> bool {
    score(engine, FIRST) == Some(Score { v })
}

/// An engine of two systems of one level, each of which spawns an entity and gives it a score, over a world in which nothing lives.
pub(crate) fn spawners(alloc: Global) -> Option<TestEngine> {
    let mut systems = Systems::new(alloc);
    for instruction in ["insert g0 Score 1", "insert g0 Score 2"] {
        let params = commanding(alloc, "", 1)?;
        systems.follow(alloc, params, Rounds::Once, &["spawn g0", instruction])?;
    }
    systems.engine(alloc, empty_world(alloc, Clock::at(1))?)
}

/// A run that is kept leaves the state as it was where an allocation fails, and once more taken it spawns its entities.
pub(crate) fn kept_again(alloc: Global) -> Option<bool> {
    let mut engine = spawners(alloc)?;
    let mut is_kept = true;
    let refused = Way::Kept.run(&mut engine, alloc, 1);
    if refused.is_some() {
        is_kept = refused == Some(RunFault::Memory) && is_begun(engine.state());
        if Way::Kept.run(&mut engine, alloc, 1).is_some() {
            return None;
        }
    }
    Some(is_kept && have_spawned(&engine))
}

// Whether nothing has run: nothing lives, and the clock stands where it stood.
fn is_begun(state: &State) -> bool {
    state.world().next_living(0) == None && state.world().now() == 1
}

/// Whether the first system spawned the lesser id and the second the greater.
pub(crate) fn have_spawned(engine: &Engine<TestBody>) -> bool {
    has_score(engine, 1) && score(engine, SECOND) == Some(Score { v: 2 })
}
