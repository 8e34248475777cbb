// Small programs whose runs are kept, on this thread and on two. Where an allocation or a thread is refused the runs are taken once more.

ghost use Rattle.std.specs.Prelude.{};

use crate::tests::engines::{Systems, TestEngine, commanding, params};
use crate::tests::gates::{Rule, TestGate};
use crate::tests::moving::{moving, position};
use crate::tests::runs::{ONCE, Plan, Way, run_on_threads};
use crate::tests::worlds::{component_of, empty_world};
use body::State;
use change_ticks::Clock;
use engine::RunFault;
use entity_table::Entity;
use kinds::Res;
use kinds::component::{Position, Score};
use script::Rounds;
use std::alloc::Global;
use std::sync::Wait;
use std::thread::Threads;

/// A small program.
#[derive(Clone, Copy)]
pub enum Row {
    /// A system that moves what has a velocity, in three runs.
    Moves,
    /// A system that is granted two ids and spawns an entity with a score, in three runs.
    Spawns,
    /// A system that spawns an entity with a score and, after it, one that counts those, in one run.
    Counts,
}

// An engine of a system that is granted two ids and spawns an entity with score 7.
fn spawning(alloc: Global) -> Option<TestEngine> {
    let mut systems = Systems::new(alloc);
    let code = ["spawn g0", "insert g0 Score 7"];
    systems.follow(alloc, commanding(alloc, "", 2)?, Rounds::Once, &code)?;
    systems.engine(alloc, empty_world(alloc, Clock::at(1))?)
}

// An engine of a system that spawns an entity with score 1 and, after it, one that adds to the total for each score.
fn counting(alloc: Global) -> Option<TestEngine> {
    let mut systems = Systems::new(alloc);
    let code = ["spawn g0", "insert g0 Score 1"];
    systems.follow(alloc, commanding(alloc, "", 1)?, Rounds::Once, &code)?;
    let mut counter = params(alloc, "with Score")?;
    counter.add_res_mut(Res::Total).ok()?;
    systems.follow(alloc, counter, Rounds::EachRow(0), &["add Total 1"])?;
    systems.chain(alloc, empty_world(alloc, Clock::at(1))?)
}

// Whether the entities of these ids have a score of 7, and nothing else lives.
fn have_seven(state: &State, ids: &[(u32, u32)]) -> bool {
    let mut next = 0;
    let mut have = true;
    for (index, generation) in ids {
        let entity = Entity {
            index: *index,
            generation: *generation,
        };
        have = have
            && state.world().next_living(next) == Some(entity)
            && component_of::<Score>(state.world(), entity) == Some(Score { v: 7 });
        next = index.saturating_add(1);
    }
    have && state.world().next_living(next) == None
}

impl Row {
    // Its engine.
    fn engine(self, alloc: Global) -> Option<TestEngine> {
        match self {
            Row::Moves => moving(alloc, Clock::at(1)),
            Row::Spawns => spawning(alloc),
            Row::Counts => counting(alloc),
        }
    }

    // How many runs it has.
    fn times(self) -> u32 {
        match self {
            Row::Moves | Row::Spawns => 3,
            Row::Counts => 1,
        }
    }

    // Whether a state is what its runs leave.
    fn is_left(self, state: &State) -> bool {
        match self {
            Row::Moves => position(state) == Some(Position { x: 3, y: -6 }),
            Row::Spawns => have_seven(state, &[(0, 1), (1, 2), (2, 2)]),
            Row::Counts => state.world().res(Res::Total) == 1,
        }
    }

    // Whether these runs were refused for want of memory or of a thread, and left no trace.
    fn is_refused(self, fault: RunFault, state: &State) -> bool {
        let is_want = match fault {
            RunFault::Memory | RunFault::NoWorker => true,
            _ => false,
        };
        is_want && state.world().now() == 1 && !self.is_left(state)
    }
}

/// Runs of a program that are kept leave what they are to on this thread, also where they are taken once more. None where an allocation fails.
pub(crate) fn kept(alloc: Global, row: Row) -> Option<bool> {
    let mut engine = row.engine(alloc)?;
    let mut is_kept = true;
    if let Some(fault) = Way::Kept.run(&mut engine, alloc, row.times()) {
        is_kept = row.is_refused(fault, engine.state());
        if Way::Kept.run(&mut engine, alloc, row.times()).is_some() {
            return None;
        }
    }
    Some(is_kept && row.is_left(engine.state()))
}

/// And so they do on two threads.
pub(crate) fn kept_on_threads<R: Threads + Wait + Copy + Send + Sync + 'static>(
    runtime: R,
    alloc: Global,
    row: Row,
) -> Option<bool> {
    let gate = TestGate::new(alloc, Rule::Open)?;
    let plan = Plan {
        times: row.times(),
        is_kept: true,
        ..ONCE
    };
    let mut engine = row.engine(alloc)?;
    let mut is_kept = true;
    if let Err(fault) = run_on_threads(runtime, &gate, alloc, plan, &mut engine) {
        is_kept = row.is_refused(fault, engine.state());
        run_on_threads(runtime, &gate, alloc, plan, &mut engine).ok()?;
    }
    Some(is_kept && row.is_left(engine.state()))
}
