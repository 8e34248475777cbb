// Runs of engines: on this thread, and on threads of a scope.

ghost use Rattle.std.specs.Prelude.{};

use crate::tests::bodies::TestBody;
use crate::tests::gates::TestGate;
use body::Body;
use engine::{Engine, RunFault};
use executor_core::{Step, Trace};
use std::alloc::Global;
use std::sync::Wait;
use std::thread;
use std::thread::{Scope, Threads};
use worker_pool::{Single, Workers};

/// How an engine is run on this thread.
#[derive(Clone, Copy)]
pub enum Way {
    /// By `run`.
    Plain,
    /// By `run_kept`, which leaves no trace of a fault.
    Kept,
}

impl Way {
    /// Runs an engine so many times on this thread. Tells the fault that stopped it, if one did.
    pub(crate) fn run<B: Body>(
        self,
        engine: &mut Engine<B>,
        alloc: Global,
        times: u32,
    ) -> Option<RunFault> {
        match self {
            Way::Plain => engine.run(alloc, times, &Single).err(),
            Way::Kept => engine.run_kept(alloc, times, &Single).err(),
        }
    }

    /// Whether runs, so many at each call, stop by these faults, or by none.
    pub(crate) fn runs_are(
        self,
        engine: &mut Engine<TestBody>,
        alloc: Global,
        calls: &[(u32, Option<RunFault>)],
    ) -> bool {
        for (times, fault) in calls {
            if self.run(engine, alloc, *times) != *fault {
                return false;
            }
        }
        true
    }
}

/// On how many threads an engine runs, how often, and whether each start has a thread of its own.
#[derive(Clone, Copy)]
pub struct Plan {
    /// How many starts run at once, at least one and at most 64.
    pub workers: usize,
    /// How many runs there are.
    pub times: u32,
    /// Whether each start has a thread of its own.
    pub in_threads: bool,
    /// Whether a fault of the runs leaves no trace.
    pub is_kept: bool,
    /// The steps that the first run may record.
    pub records: &'static [[Step; 7]],
}

/// What runs left.
#[derive(Clone, Copy)]
pub struct Ran {
    /// How many traces there are.
    pub traces: usize,
    /// Whether the steps of the first are some that they may be.
    pub is_recorded: bool,
}

/// One run on two threads, which outlast a start.
pub const ONCE: Plan = Plan {
    workers: 2,
    times: 1,
    in_threads: false,
    is_kept: false,
    records: &[],
};

// What these traces are.
fn seen(traces: &[Trace], records: &[[Step; 7]]) -> Ran {
    let is_recorded = match traces.first() {
        Some(trace) => records
            .iter()
            .any(|record| record.as_slice() == trace.steps()),
        None => false,
    };
    Ran {
        traces: traces.len(),
        is_recorded,
    }
}

// Runs an engine on threads of a scope.
fn run_in_scope<'s, E: 's, R: Threads + Wait + Copy + Send + 's, B: Body + 's>(
    scope: &Scope<'s, E>,
    runtime: R,
    gate: &'s TestGate,
    alloc: Global,
    plan: Plan,
    engine: &mut Engine<B>,
) -> Result<Ran, RunFault> {
    let workers = plan.workers.max(1).min(64);
    let mut mode = Workers::new(workers, scope, runtime, gate);
    if plan.in_threads {
        mode = mode.each_in_a_thread();
    }
    let traces = if plan.is_kept {
        engine.run_kept(alloc, plan.times, &mode)?
    } else {
        engine.run(alloc, plan.times, &mode)?
    };
    Ok(seen(traces.as_slice(), plan.records))
}

/// Runs an engine on threads of a scope of its own.
pub(crate) fn run_on_threads<R: Threads + Wait + Copy + Send + Sync + 'static, B: Body + 'static>(
    runtime: R,
    gate: &TestGate,
    alloc: Global,
    plan: Plan,
    engine: &mut Engine<B>,
) -> Result<Ran, RunFault> {
    thread::scope(
        thread::scope_env(),
        &runtime,
        |scope| -> Result<Ran, RunFault> {
            run_in_scope(scope, runtime, gate, alloc, plan, engine)
        },
    )
}
