// Runs on threads: how many systems run at once, in which order they come back, what a refusal does, and many runs.

ghost use Rattle.std.specs.Prelude.{};

use crate::tests::bodies::TestBody;
use crate::tests::commands::{has_score, have_spawned, scoring, spawners};
use crate::tests::engines::{Systems, TestEngine, params};
use crate::tests::gates::{Rule, TestGate};
use crate::tests::runs::{ONCE, Plan, Ran, Way, run_on_threads};
use crate::tests::trials::{Cast, Trial, Wanted};
use crate::tests::worlds::{empty_world, frozen_and_hidden};
use access_set::Params;
use change_ticks::Clock;
use engine::RunFault;
use std::alloc::Global;
use std::sync::{Arc, Wait};
use std::thread::Threads;

/// An engine that is to run on threads, how, and the gate of its workers.
#[derive(Drop)]
struct Setup {
    // The gate that is looked at afterwards: that of the workers, or one at which bodies meet.
    place: Arc<TestGate, Global>,
    gate: Arc<TestGate, Global>,
    engine: TestEngine,
    plan: Plan,
    ran: Ran,
}

impl Setup {
    // That of an engine. At the place bodies meet, or starts are held.
    fn of(
        alloc: Global,
        place: Arc<TestGate, Global>,
        meets: bool,
        engine: TestEngine,
        plan: Plan,
    ) -> Option<Self> {
        let gate = if meets {
            TestGate::new(alloc, Rule::Open)?
        } else {
            Arc::try_clone(&place).ok()?
        };
        Some(Setup {
            place,
            gate,
            engine,
            plan,
            ran: Ran {
                traces: 0,
                is_recorded: false,
            },
        })
    }

    // That of a trial. None where an allocation fails.
    fn new(alloc: Global, trial: &Trial) -> Option<Self> {
        let place = TestGate::with_patience(alloc, trial.rule, trial.patience)?;
        let engine = cast_engine(alloc, trial.cast, &place)?;
        let meets = match trial.cast {
            Cast::Meeting(_) | Cast::Querying(_, _) => true,
            _ => false,
        };
        Setup::of(alloc, place, meets, engine, trial.plan)
    }

    // Runs the engine on threads, and keeps what it left. Answers the fault, none where all ran.
    fn run<R: Threads + Wait + Copy + Send + Sync + 'static>(
        &mut self,
        runtime: R,
        alloc: Global,
    ) -> Option<RunFault> {
        match run_on_threads(runtime, &self.gate, alloc, self.plan, &mut self.engine) {
            Ok(ran) => {
                self.ran = ran;
                None
            }
            Err(fault) => Some(fault),
        }
    }

    // Whether what is wanted is so.
    fn is_so(&self, wanted: Wanted) -> bool {
        let place = &self.place;
        match wanted {
            Wanted::Met(count) => place.most() == count,
            Wanted::FivePassed => place.passed() == (62, 62) && place.faults() == 0,
            Wanted::Traces(count) => self.ran.traces == count,
            Wanted::Recorded => place.faults() == 0 && self.ran.is_recorded,
            Wanted::Score(v) => place.faults() == 0 && has_score(&self.engine, v),
            Wanted::IdsInOrder => place.faults() == 0 && have_spawned(&self.engine),
        }
    }
}

/// Whether a trial runs, and what is wanted of it is so afterwards. None where an allocation fails, or its run stops.
pub(crate) fn judged<R: Threads + Wait + Copy + Send + Sync + 'static>(
    runtime: R,
    alloc: Global,
    trial: &Trial,
) -> Option<bool> {
    let mut setup = Setup::new(alloc, trial)?;
    match setup.run(runtime, alloc) {
        None => Some(setup.is_so(trial.wanted)),
        Some(_fault) => None,
    }
}

// The engine of who runs in a trial, at a gate.
fn cast_engine(alloc: Global, cast: Cast, gate: &Arc<TestGate, Global>) -> Option<TestEngine> {
    match cast {
        Cast::Idle(count) => answering(alloc, count, false),
        Cast::Meeting(count) => meeting(alloc, count, gate),
        Cast::Querying(first, second) => querying(alloc, [first, second], gate),
        Cast::Watching(count) => watching(alloc, count, gate),
        Cast::Scoring => scoring(alloc),
        Cast::Spawning => spawners(alloc),
    }
}

// An engine of so many systems that touch nothing, and one more that refuses with 7 where one is to.
fn answering(alloc: Global, count: u32, refuses: bool) -> Option<TestEngine> {
    let mut systems = Systems::new(alloc);
    for _ in 0..count {
        systems.add(Params::new(alloc), TestBody::Answer(None))?;
    }
    if refuses {
        systems.add(Params::new(alloc), TestBody::Answer(Some(7)))?;
    }
    systems.engine(alloc, empty_world(alloc, Clock::at(1))?)
}

// An engine of so many systems that meet at a place.
fn meeting(alloc: Global, count: u32, place: &Arc<TestGate, Global>) -> Option<TestEngine> {
    let mut systems = Systems::new(alloc);
    for _ in 0..count {
        let place = Arc::try_clone(place).ok()?;
        systems.add(Params::new(alloc), TestBody::Meet(place))?;
    }
    systems.engine(alloc, empty_world(alloc, Clock::at(1))?)
}

// An engine of two systems with these queries that meet at a place, over an entity that is frozen and one that is hidden.
fn querying(
    alloc: Global,
    queries: [&str; 2],
    place: &Arc<TestGate, Global>,
) -> Option<TestEngine> {
    let mut systems = Systems::new(alloc);
    for query in &queries {
        let place = Arc::try_clone(place).ok()?;
        systems.add(params(alloc, query)?, TestBody::Meet(place))?;
    }
    systems.engine(alloc, frozen_and_hidden(alloc)?)
}

// An engine of so many systems that look at a gate.
fn watching(alloc: Global, count: u32, gate: &Arc<TestGate, Global>) -> Option<TestEngine> {
    let mut systems = Systems::new(alloc);
    for _ in 0..count {
        let gate = Arc::try_clone(gate).ok()?;
        systems.add(Params::new(alloc), TestBody::Watch(gate))?;
    }
    systems.engine(alloc, empty_world(alloc, Clock::at(1))?)
}

/// A body that refuses stops its run, and the next one finds the engine spoiled.
pub(crate) fn refuse(alloc: Global) -> Option<bool> {
    let mut engine = answering(alloc, 1, true)?;
    let calls = [
        (1, Some(RunFault::BodyFault(7))),
        (1, Some(RunFault::Spoiled)),
    ];
    Some(Way::Plain.runs_are(&mut engine, alloc, &calls))
}

// Four starts at once on four threads, one of which refuses.
fn refusing(alloc: Global) -> Option<Setup> {
    let gate = TestGate::new(alloc, Rule::Gather(4))?;
    let engine = answering(alloc, 3, true)?;
    let plan = Plan { workers: 4, ..ONCE };
    Setup::of(alloc, gate, false, engine, plan)
}

/// And so it does on four threads, while three others run beside it.
pub(crate) fn refuse_on_threads<R: Threads + Wait + Copy + Send + Sync + 'static>(
    runtime: R,
    alloc: Global,
) -> Option<bool> {
    let mut setup = refusing(alloc)?;
    let is_refused = setup.run(runtime, alloc) == Some(RunFault::BodyFault(7));
    let is_spoiled = setup.run(runtime, alloc) == Some(RunFault::Spoiled);
    Some(is_refused && is_spoiled && setup.place.most() == 4)
}

/// In runs that are kept it spoils nothing: it may refuse three times, each time before the three others beside it run.
pub(crate) fn refuse_kept_on_threads<R: Threads + Wait + Copy + Send + Sync + 'static>(
    runtime: R,
    alloc: Global,
) -> Option<bool> {
    let mut engine = answering(alloc, 3, true)?;
    let plan = Plan {
        workers: 4,
        is_kept: true,
        ..ONCE
    };
    let mut is_kept = true;
    for _ in 0..3 {
        let gate = TestGate::new(alloc, Rule::Await(4))?;
        let fault = run_on_threads(runtime, &gate, alloc, plan, &mut engine).err();
        is_kept = is_kept && fault == Some(RunFault::BodyFault(7)) && gate.faults() == 0;
    }
    Some(is_kept && !engine.is_spoiled())
}
