// The world after each sync point of a recorded run.

ghost use Rattle.std.specs.Prelude.{◌≡◌, ◌++◌, [], map, Some, IfOk, OnOk, string_bytes};
ghost use Rattle.body.specs.Out.{AreOut};
ghost use Rattle.body.specs.Steps.{store_of};
ghost use Rattle.engine.specs.Meanings.{AllKeepWithin, AreFit, Suits, meanings};
ghost use Rattle.model.specs.steps.Lawful.{IsLawful};
ghost use Rattle.model.specs.steps.Schedule.{recording};
ghost use Rattle.findings.specs.Worlds.{head_text, scene_text, worlds_text};
ghost use Rattle.trace_checker.specs.Standing.{StandsBefore};

use body::{Body, State};
use engine::fitting::prove_fitting_keep;
use engine::{Deferred, RunState};
use executor_core::{Step, Trace};
use schedule_builder::Built;
use state_lines::world::text_of_world;
use std::alloc::{AllocError, Global};
use trace_checker::ReplayFault;
use trace_checker::replay::take;

/// The worlds after the sync points of a lawful run, by the number of runs before it, from its opening on: of each the numbers of the run and of the step, and the
/// sync point, in a line of its own, and then its text, as a world behind the runs before it. The steps are taken as a replay takes them, and neither recorded
/// answers nor recorded archetypes are compared here.
pub(crate) fn worlds_of<B: Body>(
    alloc: Global,
    built: &Built,
    bodies: &mut [B],
    start: State,
    trace: &Trace,
    before: u32,
) -> Result<String, ReplayFault>
    requires suits { Suits B.fits built.now (map Some bodies.old) start }
    requires lawful { IsLawful (recording built.now trace.now.sets) trace.now.steps }
    ensures told { IfOk result (λ text. string_bytes text
        ≡ worlds_text built.now (meanings B.meaning built.now (map Some bodies.old)) start
        before trace.now.steps) }
    ensures fit { OnOk result (AreFit B.fits built.now (map Some bodies.new)) }
    ensures meanings { meanings B.meaning built.now (map Some bodies.new)
        ≡ meanings B.meaning built.now (map Some bodies.old) }
{
    start.prove_shape();
    prove_fitting_keep(built, bodies);
    let run = RunState {
        alloc,
        state: start.into_open(),
        deferred: Deferred::new(alloc, built)?,
    };
    worlds_in(built, bodies, run, trace, before)
}

// The same from a state within a run in which nothing is deferred.
fn worlds_in<B: Body>(
    built: &Built,
    bodies: &mut [B],
    first: RunState,
    trace: &Trace,
    before: u32,
) -> Result<String, ReplayFault>
    requires stands { StandsBefore B.fits built.now (map Some bodies.old) first.deferred
        first.state }
    requires keep { AllKeepWithin built.now (meanings B.meaning built.now (map Some bodies.old)) }
    requires lawful { IsLawful (recording built.now trace.now.sets) trace.now.steps }
    ensures told { IfOk result (λ text. string_bytes text
        ≡ worlds_text built.now (meanings B.meaning built.now (map Some bodies.old))
        first.state.state before trace.now.steps) }
    ensures fit { OnOk result (AreFit B.fits built.now (map Some bodies.new)) }
    ensures meanings { meanings B.meaning built.now (map Some bodies.new)
        ≡ meanings B.meaning built.now (map Some bodies.old) }
{
    built.prove_law();
    first.state.prove_law();
    let mut text = String::new(first.alloc);
    let mut run = first;
    run.open(built)?;
    let mut number = 0;
    let steps = trace.steps();
    for step in steps {
        number += 1;
        take(built, bodies, &mut run, *step, number)?;
        run = told_after(&mut text, run, *step, number, before)?;
    }
    Ok(text)
}

// Adds the world after the step of this number, where it is a sync point.
fn told_after(
    text: &mut String,
    run: RunState,
    step: Step,
    number: usize,
    before: u32,
) -> Result<RunState, AllocError>
    requires out { AreOut (store_of run.state) [] }
    ensures told { OnOk result (string_bytes text.new
        ≡ string_bytes text.old ++ scene_text before number step run.state.state) }
    ensures state { IfOk result (λ later. later.state.state ≡ run.state.state) }
    ensures deferred { IfOk result (λ later. later.deferred ≡ run.deferred) }
    ensures out { IfOk result (λ later. AreOut (store_of later.state) []) }
{
    let Step::Sync(point) = step else {
        return Ok(run);
    };
    run.state.prove_law();
    let RunState {
        alloc,
        state,
        deferred,
    } = run;
    let state = state.into_state();
    push_head(text, before, number, point)?;
    let world = text_of_world(alloc, before, state.world(), state.passed_over())?;
    text.push_str(world.as_str())?;
    Ok(RunState {
        alloc,
        state: state.into_open(),
        deferred,
    })
}

// Adds the line before a world.
fn push_head(text: &mut String, before: u32, step: usize, point: u32) -> Result<(), AllocError>
    ensures { OnOk result (string_bytes text.new
        ≡ string_bytes text.old ++ head_text before step point) }
{
    let run = u64::from(before) + 1;
    writeln!(text, "== run {run} step {step} sync {point}")
}
