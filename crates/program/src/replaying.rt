// The recorded runs of a trace, taken again.

ghost use Rattle.std.specs.Prelude.{◌≡◌, ◌⊎◌, map, length, string_bytes, IfOk, IfErr, Some};
ghost use Rattle.model.specs.state.Loaded.{loaded};
ghost use Rattle.archetype_store.specs.Layout.{AreAllHome};
ghost use Rattle.engine.specs.Meanings.{Suits};
ghost use Rattle.model.specs.runs.Replays.{IsReplayed};
ghost use Rattle.model.specs.steps.Schedule.{recording};
ghost use Rattle.program.specs.Load.{entity_given};
ghost use Rattle.program.specs.Refused.{IsUnreplayed, IsUngiven};
ghost use Rattle.program.specs.Replayed.{AreReplayed, IsOfReplay, IsRefusedAmong, IsRefusedRun, IsTextOfReplay, fault_of_replay};
ghost use Rattle.program.specs.Setup.{AreScriptsOf, meanings_of_scripts, script_suits};

use crate::answer::Answer;
use crate::checking::traces_of;
use crate::fault::Fault;
use crate::world::world_of;
use body::State;
use engine::RunFault;
use engine::first_state::first_state;
use executor_core::Trace;
use kinds::Value;
use schedule_builder::Built;
use script::ScriptBody;
use state_lines::world::text_of_world;
use std::alloc::Global;
use std::io::Read;
use trace_checker::replay::{replay, replay_by};
use trace_checker::{Checker, ReplayFault};

/// The world that the recorded runs of a trace leave. Each is taken again on one thread, from the state that the run
/// before it leaves. The first begins at these entities and resources as loaded. The first that is refused ends it.
/// The trace is read before the world is made.
pub fn replay_trace<T: Read>(
    alloc: Global,
    built: &Built,
    mut bodies: Vec<ScriptBody>,
    entities: &[Vec<Value>],
    resources: &[i64; 8],
    trace: &mut T,
) -> Result<Answer, Fault>
    requires { AreScriptsOf built.now bodies.items }
    ensures text { IfOk result (λ answer. IsTextOfReplay built.now
        (meanings_of_scripts built.now bodies.items)
        (loaded built.now (map entity_given entities.now) resources.now) (T.remaining trace.old)
        (string_bytes answer.text)) }
    ensures status { IfOk result (λ answer. answer.status ≡ 0) }
    ensures stopped { IfErr result (IsUnreplayed built.now
        (meanings_of_scripts built.now bodies.items)
        (loaded built.now (map entity_given entities.now) resources.now) (length entities.now)
        (T.remaining trace.old)) }
{
    let traces = traces_of(alloc, trace)?;
    let world = world_of(alloc, entities, resources)?;
    let first = first_state(alloc, built, world)?;
    let last = replay_runs(
        alloc,
        built,
        bodies.as_mut_slice(),
        first,
        traces.as_slice(),
    )?;
    Ok(Answer {
        text: text_of_world(alloc, traces.len() as u32, last.world(), last.passed_over())?,
        traces: String::new(alloc),
        status: 0,
    })
}

// Takes recorded runs again, each from the state that the run before it leaves.
fn replay_runs(
    alloc: Global,
    built: &Built,
    bodies: &mut [ScriptBody],
    mut state: State,
    traces: &[Trace],
) -> Result<State, Fault>
    requires { Suits script_suits built.now (map Some bodies.old) state }
    ensures replayed { IfOk result (λ left. AreReplayed built.now
        (meanings_of_scripts built.now bodies.old) state traces.now left) }
    ensures refused { IfErr result (IsRefusedAmong built.now
        (meanings_of_scripts built.now bodies.old) state traces.now) }
{
    let mut checker = Checker::new(built);
    let mut number = 0;
    for trace in traces {
        number += 1;
        state = match replay_by(alloc, built, &mut checker, bodies, state, trace) {
            Ok(left) => left,
            Err(fault) => return Err(fault_of_replay(fault, number)),
        };
    }
    Ok(state)
}

/// Takes the recorded run of this number again.
pub fn replay_run(
    alloc: Global,
    built: &Built,
    bodies: &mut [ScriptBody],
    state: State,
    trace: &Trace,
    run: usize,
) -> Result<State, Fault>
    requires { Suits script_suits built.now (map Some bodies.old) state }
    ensures replayed { IfOk result (IsReplayed (recording built.now trace.now.sets)
        (meanings_of_scripts built.now bodies.old) state trace.now.steps) }
    ensures refused { IfErr result (IsRefusedRun built.now
        (meanings_of_scripts built.now bodies.old) state trace.now run) }
    ensures suits { IfOk result (λ left. Suits script_suits built.now (map Some bodies.new) left) }
    ensures meanings { meanings_of_scripts built.now bodies.new
        ≡ meanings_of_scripts built.now bodies.old }
{
    match replay(alloc, built, bodies, state, trace) {
        Ok(left) => Ok(left),
        Err(fault) => Err(fault_of_replay(fault, run)),
    }
}

// What is told of the recorded run of this number, whose replay stops so.
fn fault_of_replay(fault: ReplayFault, run: usize) -> Fault
    requires { IsOfReplay fault }
    ensures { result ≡ fault_of_replay run fault }
{
    match fault {
        ReplayFault::Bad(step, fault) => Fault::BadStep { run, step, fault },
        ReplayFault::Unfinished => Fault::UnfinishedRun { run },
        ReplayFault::WrongAnswer(step) => Fault::WrongAnswer { run, step },
        ReplayFault::WrongSets(step) => Fault::WrongSets { run, step },
        ReplayFault::Run(RunFault::Memory) => Fault::Memory,
        ReplayFault::Run(RunFault::ClockSpent) => Fault::ClockSpent,
        ReplayFault::Run(RunFault::IdsSpent) => Fault::IdsSpent,
        ReplayFault::Run(RunFault::BodyFault(_)) => Fault::BodyRefused,
        ReplayFault::Run(RunFault::NoWorker) => unreachable!(),
        ReplayFault::Run(RunFault::Spoiled) => unreachable!(),
    }
}
