// A schedule with levels: in which the systems are, and what is ready in turn.

ghost use Rattle.std.specs.Prelude.{};

use access_set::Params;
use executor_core::{Core, Ready, Step};
use schedule_builder::builder::build;
use schedule_builder::{Built, ChainDesc, ItemDesc, ScheduleDesc, SystemDesc};
use std::alloc::Global;

// What is ready in turn where each start is finished at once.
const IN_TURN: [Step; 10] = [
    Step::Start(0),
    Step::Finish(0),
    Step::Start(3),
    Step::Finish(3),
    Step::Sync(0),
    Step::Start(1),
    Step::Finish(1),
    Step::Start(2),
    Step::Finish(2),
    Step::Sync(1),
];

// A name.
fn name(alloc: Global, text: &str) -> Option<String> {
    String::from_str(alloc, text).ok()
}

// What a system is that is granted so many ids, and gives commands where it is.
fn params(alloc: Global, spawns: Option<u32>) -> Params {
    let mut params = Params::new(alloc);
    if let Some(spawns) = spawns {
        params.set_spawns(spawns);
    }
    params
}

// Systems a, b, c and u, of which a and b give commands: a comes before b, and b before c, whatever it defers.
fn declared(alloc: Global) -> Option<ScheduleDesc> {
    let mut first = ItemDesc::new(alloc, name(alloc, "a")?);
    first.add_before(name(alloc, "b")?).ok()?;
    let mut second = ItemDesc::new(alloc, name(alloc, "b")?);
    second.add_before_ignore_deferred(name(alloc, "c")?).ok()?;
    let third = ItemDesc::new(alloc, name(alloc, "c")?);
    let other = ItemDesc::new(alloc, name(alloc, "u")?);
    let mut desc = ScheduleDesc::new(alloc);
    for (item, spawns) in [
        (first, Some(1)),
        (second, Some(1)),
        (third, None),
        (other, None),
    ] {
        desc.add_system(SystemDesc::of_item(item, params(alloc, spawns)))
            .ok()?;
    }
    Some(desc)
}

// Their schedule.
fn plain(alloc: Global) -> Option<Box<Built>> {
    Box::new(alloc, build(alloc, declared(alloc)?).ok()?).ok()
}

// The same with a chain of b and c.
fn chained(alloc: Global) -> Option<Box<Built>> {
    let mut chain = ChainDesc::new(alloc, false);
    chain.add_item(name(alloc, "b")?).ok()?;
    chain.add_item(name(alloc, "c")?).ok()?;
    let mut desc = declared(alloc)?;
    desc.add_chain(chain).ok()?;
    Box::new(alloc, build(alloc, desc).ok()?).ok()
}

// Whether the systems of a schedule have these levels, and each level a sync point.
fn has_levels(built: &Built, levels: &[u32], syncs: u32) -> bool {
    let mut has = built.systems().len() == levels.len() && built.syncs() == syncs;
    for (system, level) in built.systems().iter().zip(levels) {
        has = has && system.level() == *level;
    }
    has
}

// What is offered where a step is to come; a finish isn't.
fn offer(step: Step) -> Option<Ready> {
    match step {
        Step::Start(system) => Some(Ready::Start(system)),
        Step::Sync(level) => Some(Ready::Sync(level)),
        _ => None,
    }
}

// Whether a core offers these steps and takes them, one after the other, and is complete then.
fn goes_through(core: &mut Core<'_>, steps: &[Step]) -> bool {
    for step in steps {
        let wanted = offer(*step);
        if wanted.is_some() && core.ready() != wanted {
            return false;
        }
        if core.step(*step).is_err() {
            return false;
        }
    }
    core.complete() && core.ready() == None
}

// Whether a core of a schedule that has taken no step does.
fn is_in_turn(alloc: Global, built: &Built) -> Option<bool> {
    let mut core = Box::new(alloc, Core::new(alloc, built).ok()?).ok()?;
    Some(goes_through(&mut core, &IN_TURN))
}

/// The levels are 0, 1, 1 and 0, and the order is a, u, b, c, in which the systems are ready. With a chain of b and c, c has level 2.
pub(crate) fn levels(alloc: Global) -> Option<bool> {
    let built = plain(alloc)?;
    let is_plain = has_levels(&built, &[0, 1, 1, 0], 2) && built.order() == [0, 3, 1, 2].as_slice();
    let is_chained = has_levels(&*chained(alloc)?, &[0, 1, 2, 0], 3);
    Some(is_plain && is_chained && is_in_turn(alloc, &built)?)
}
