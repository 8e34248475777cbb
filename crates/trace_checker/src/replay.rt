// A recorded run taken again on one thread, each system whole at its start.

ghost use Rattle.std.specs.Prelude.{◌≡◌, ◌≢◌, ◌⊎◌, ◌<◌, ℕ, [], suc, Result, length, map, slice_get, MatchOption, false, Some, Err, IfOk, IfErr, OnOk, IsTrue};
ghost use Rattle.model.specs.state.Agreement.{AgreesWithAll};
ghost use Rattle.model.specs.state.State.{State as Now};
ghost use Rattle.model.specs.shown.Input.{shown};
ghost use Rattle.model.specs.shown.Outcome.{untouched};
ghost use Rattle.model.specs.steps.Lawful.{IsLawful, IsComplete};
ghost use Rattle.model.specs.declared.steps.Step.TheVariants.{Start as Begin, Sync};
ghost use Rattle.model.specs.steps.Schedule.{level_of, recording};
ghost use Rattle.model.specs.state.Shape.{AreIdsFor};
ghost use Rattle.kinds.specs.Components.{widths};
ghost use Rattle.body.specs.Keeps.{CanBeShown};
ghost use Rattle.body.specs.Out.{AreOut};
ghost use Rattle.body.specs.Steps.{store_of};
ghost use Rattle.engine.specs.declared.faults.RunFault.TheVariants.{Memory};
ghost use Rattle.engine.specs.Deferred.{commands_at, grants_at, run_with};
ghost use Rattle.engine.specs.Meanings.{meanings, AllKeepWithin, Suits};
ghost use Rattle.engine.specs.Stops.{StopsBy, fault_of};
ghost use Rattle.trace_checker.specs.declared.replay.ReplayFault.TheVariants.{Run};
ghost use Rattle.model.specs.runs.Causes.{serial_cause_of};
ghost use Rattle.model.specs.runs.Replays.{IsListOf, IsStepTaken};
ghost use Rattle.trace_checker.specs.Standing.{StandsBefore, StandsBetween};
ghost use Rattle.trace_checker.specs.ReplayFaults.{AreWrongHere, HasRun, IsKnown, IsReplay, IsReplayFault, IsStepFault, list_at};

use crate::check::Verdict;
use crate::checking::{Checker, syncs_of};
use body::{Body, BodyFault, State, View};
use engine::fitting::prove_fitting_keep;
use engine::{Deferred, RunFault, RunState, Stop};
use executor_core::{Step, StepFault, Trace};
use model::KindSets;
use schedule_builder::Built;
use std::alloc::{AllocError, Global};
use thiserror::Error;

/// Why a replay stops.
#[derive(Clone, Copy, PartialEq, Eq, Debug, Error)]
pub enum ReplayFault {
    /// This step, counted from 1, is the first that may not come, for this fault.
    #[error("step {0} may not come")]
    Bad(usize, StepFault),
    /// All steps are lawful, and some are missing.
    #[error("steps are missing")]
    Unfinished,
    /// This step, counted from 1, is the first whose recorded answer isn't what its condition means there.
    #[error("the recorded answer of step {0} is not what its condition means there")]
    WrongAnswer(usize),
    /// The first recorded archetypes that aren't those of the living entities there. They were recorded after this
    /// step, counted from 1, or at the opening for 0.
    #[error("the kind sets recorded after step {0} are not those of the living entities")]
    WrongSets(usize),
    /// What stops a run: a failed allocation, of a tick, of ids or of an event number, or a body that refuses.
    #[error("{0}")]
    Run(RunFault),
}

impl From<AllocError> for ReplayFault {
    ghost from_gives = { λ _ fault. fault ≡ Run Memory };

    fn from(_error: AllocError) -> Self {
        ReplayFault::Run(RunFault::Memory)
    }
}

impl From<Stop> for ReplayFault {
    ghost from_gives = { λ error fault. fault ≡ Run (fault_of error) };

    fn from(error: Stop) -> Self {
        ReplayFault::Run(RunFault::from(error))
    }
}

/// Takes a recorded run again, on one thread: each step in recorded order, and each system whole at its start. The
/// commands of its body are done at the sync point of its level. The steps are checked first, as `check` does. A
/// condition is asked where it was asked, and the recorded answer is compared with the true one. Where the trace
/// records archetypes, those at the opening and after each sync point are compared with those of the living entities.
/// The state that is left is that of the recorded run, stamp for stamp, however many systems ran at once. Where the
/// schedule is settled it agrees with what any one run with true answers leaves. That run begins at any state that
/// agrees with the one before. Each fault drops the state. The bodies that have run mean what they meant.
pub fn replay<B: Body>(
    alloc: Global,
    built: &Built,
    bodies: &mut [B],
    state: State,
    trace: &Trace,
) -> Result<State, ReplayFault>
    requires { Suits B.fits built.now (map Some bodies.old) state }
    ensures replayed { IsReplay built.now (meanings B.meaning built.now (map Some bodies.old)) state
        trace.now result }
    ensures only { (other : Result Now ReplayFault)
        → IsReplay built.now (meanings B.meaning built.now (map Some bodies.old)) state trace.now
        other
        → (other ≡ Err (ReplayFault.Run RunFault.Memory))
        ⊎ ((result ≡ Err (ReplayFault.Run RunFault.Memory)) ⊎ (result ≡ other)) }
    ensures agreement { IfOk result (λ final. AgreesWithAll widths built.now
        (meanings B.meaning built.now (map Some bodies.old)) state 1 final) }
    ensures meanings { meanings B.meaning built.now (map Some bodies.new)
        ≡ meanings B.meaning built.now (map Some bodies.old) }
    ensures suits { IfOk result (λ final. Suits B.fits built.now (map Some bodies.new) final) }
{
    let mut checker = Checker::new(built);
    replay_by(alloc, built, &mut checker, bodies, state, trace)
}

/// Takes a recorded run again, as `replay` does, with a checker of the schedule, which serves for runs after runs.
pub fn replay_by<B: Body>(
    alloc: Global,
    built: &Built,
    checker: &mut Checker,
    bodies: &mut [B],
    state: State,
    trace: &Trace,
) -> Result<State, ReplayFault>
    requires same { checker.old ≡ built.now }
    requires suits { Suits B.fits built.now (map Some bodies.old) state }
    ensures replayed { IsReplay built.now (meanings B.meaning built.now (map Some bodies.old)) state
        trace.now result }
    ensures only { (other : Result Now ReplayFault)
        → IsReplay built.now (meanings B.meaning built.now (map Some bodies.old)) state trace.now
        other
        → (other ≡ Err (ReplayFault.Run RunFault.Memory))
        ⊎ ((result ≡ Err (ReplayFault.Run RunFault.Memory)) ⊎ (result ≡ other)) }
    ensures agreement { IfOk result (λ final. AgreesWithAll widths built.now
        (meanings B.meaning built.now (map Some bodies.old)) state 1 final) }
    ensures meanings { meanings B.meaning built.now (map Some bodies.new)
        ≡ meanings B.meaning built.now (map Some bodies.old) }
    ensures schedule { checker.new ≡ checker.old }
    ensures suits { IfOk result (λ final. Suits B.fits built.now (map Some bodies.new) final) }
{
    built.prove_law();
    state.prove_shape();
    prove_fitting_keep(built, bodies);
    match checker.check(alloc, built, trace)? {
        Verdict::Complete => {}
        Verdict::Unfinished => return Err(ReplayFault::Unfinished),
        Verdict::Bad(step, fault) => return Err(ReplayFault::Bad(step, fault)),
    }
    let mut run = RunState {
        alloc,
        state: state.into_open(),
        deferred: Deferred::new(alloc, built)?,
    };
    take_steps(built, bodies, &mut run, trace)?;
    run.state.prove_law();
    Ok(run.state.into_state())
}

// Takes all steps of a recorded run, from its opening on, where no system has deferred anything.
fn take_steps<B: Body>(
    built: &Built,
    bodies: &mut [B],
    run: &mut RunState,
    trace: &Trace,
) -> Result<(), ReplayFault>
    requires stands { StandsBefore B.fits built.now (map Some bodies.old) run.old.deferred
        run.old.state }
    requires keep { AllKeepWithin built.now (meanings B.meaning built.now (map Some bodies.old)) }
    requires lawful { IsLawful (recording built.now trace.now.sets) trace.now.steps }
    requires complete { IsComplete (recording built.now trace.now.sets) trace.now.steps }
    ensures replayed { OnOk result (IsReplay built.now
        (meanings B.meaning built.now (map Some bodies.old)) run.old.state.state trace.now
        (Ok run.new.state.state)) }
    ensures stopped { IfErr result (IsReplayFault built.now
        (meanings B.meaning built.now (map Some bodies.old)) run.old.state.state trace.now) }
    ensures suits { OnOk result (Suits B.fits built.now (map Some bodies.new) run.new.state.state) }
    ensures out { OnOk result (AreOut (store_of run.new.state) []) }
    ensures meanings { meanings B.meaning built.now (map Some bodies.new)
        ≡ meanings B.meaning built.now (map Some bodies.old) }
{
    built.prove_law();
    run.state.prove_law();
    trace.prove_law();
    run.open(built)?;
    compare_sets(run, trace, 0, 0)?;
    let mut number = 0;
    let mut place = 0;
    let steps = trace.steps();
    for step in steps {
        number += 1;
        place += syncs_of(*step);
        take(built, bodies, run, *step, number)?;
        compare_after(run, trace, *step, place, number)?;
    }
    Ok(())
}

// Compares the kind sets that are recorded at a place, if they are, with those of the living entities, after the step of this number.
fn compare_sets(
    run: &RunState,
    trace: &Trace,
    place: usize,
    number: usize,
) -> Result<(), ReplayFault>
    requires listed { MatchOption trace.now.sets (Unit {0}) (λ lists. place < length lists) }
    ensures right { OnOk result (IsListOf (list_at trace.now.sets place) (Some (run_with
        run.now.state.state run.now.deferred))) }
    ensures wrong { IfErr result (AreWrongHere (list_at trace.now.sets place)
        run.now.state.state.world.slots number) }
{
    let Some(lists) = trace.sets() else {
        return Ok(());
    };
    let there = run.state.kind_sets(run.alloc)?;
    judge_sets(&lists[place], &there, number)?;
    Ok(())
}

// Judges the kind sets that are recorded after the step of this number by those of the living entities there. Exactly where they differ they are
// refused, and for nothing else.
fn judge_sets(recorded: &KindSets, there: &KindSets, number: usize) -> Result<(), ReplayFault>
    ensures right { OnOk result (recorded.now ≡ there.now) }
    ensures wrong { IfErr result (λ fault. (fault ≡ ReplayFault.WrongSets number)
        × (recorded.now ≢ there.now)) }
{
    if recorded.is_same(there) {
        return Ok(());
    }
    Err(ReplayFault::WrongSets(number))
}

// The same right after a step, up to which there are so many sync points: where it is one of them.
fn compare_after(
    run: &RunState,
    trace: &Trace,
    step: Step,
    place: usize,
    number: usize,
) -> Result<(), ReplayFault>
    requires listed { MatchOption trace.now.sets (Unit {0}) (λ lists. place < length lists) }
    ensures right { OnOk result ((k : ℕ) → step ≡ Sync k
        → IsListOf (list_at trace.now.sets place) (Some (run_with run.now.state.state
        run.now.deferred))) }
    ensures wrong { IfErr result (λ fault. ((k : ℕ) × (step ≡ Sync k))
        × AreWrongHere (list_at trace.now.sets place) run.now.state.state.world.slots number
        fault) }
{
    let Step::Sync(_) = step else {
        return Ok(());
    };
    compare_sets(run, trace, place, number)
}

/// Takes the step of this number. A system that starts has deferred nothing and was granted ids that it can be given.
/// Those of the level above a sync point have deferred nothing either.
pub fn take<B: Body>(
    built: &Built,
    bodies: &mut [B],
    run: &mut RunState,
    step: Step,
    number: usize,
) -> Result<(), ReplayFault>
    requires stands { StandsBetween B.fits built.now (map Some bodies.old) run.old.deferred
        run.old.state }
    requires keep { AllKeepWithin built.now (meanings B.meaning built.now (map Some bodies.old)) }
    requires known { IsKnown built.now step }
    requires fresh { (n : ℕ) → step ≡ Begin n → commands_at run.old.deferred n ≡ [] }
    requires given { (n : ℕ) → step ≡ Begin n
        → AreIdsFor built.now n (grants_at run.old.deferred n) }
    requires waits { (k n : ℕ) → step ≡ Sync k → level_of built.now n ≡ suc k
        → commands_at run.old.deferred n ≡ [] }
    ensures taken { OnOk result (IsStepTaken built.now
        (meanings B.meaning built.now (map Some bodies.old))
        (run_with run.old.state.state run.old.deferred) step (run_with run.new.state.state
        run.new.deferred)) }
    ensures stopped { IfErr result (IsStepFault built.now
        (meanings B.meaning built.now (map Some bodies.old))
        (run_with run.old.state.state run.old.deferred) step number) }
    ensures stands { OnOk result (StandsBetween B.fits built.now (map Some bodies.new)
        run.new.deferred run.new.state) }
    ensures meanings { meanings B.meaning built.now (map Some bodies.new)
        ≡ meanings B.meaning built.now (map Some bodies.old) }
{
    run.state.prove_law();
    match step {
        Step::Cond(condition, recorded) => {
            let answer = run.ask(built, condition)?;
            judge_answer(answer, recorded, number)?;
            Ok(())
        }
        Step::Start(system) => {
            start(built, bodies, run, system)?;
            Ok(())
        }
        Step::Skip(_) | Step::Finish(_) => Ok(()),
        Step::Sync(point) => {
            run.sync(built, point)?;
            Ok(())
        }
    }
}

// Judges the answer that the step of this number records by what its condition answers there. Exactly where they differ it is refused, and for
// nothing else.
fn judge_answer(answer: bool, recorded: bool, number: usize) -> Result<(), ReplayFault>
    ensures right { OnOk result (answer ≡ recorded) }
    ensures wrong { IfErr result (λ fault. (fault ≡ ReplayFault.WrongAnswer number)
        × (answer ≢ recorded)) }
{
    if answer == recorded {
        return Ok(());
    }
    Err(ReplayFault::WrongAnswer(number))
}

// A whole start: the system is shown the state, its body runs, and what comes of it is laid over the state at once.
fn start<B: Body>(
    built: &Built,
    bodies: &mut [B],
    run: &mut RunState,
    system: u32,
) -> Result<(), Stop>
    requires known { system < length built.now.systems }
    requires stands { StandsBetween B.fits built.now (map Some bodies.old) run.old.deferred
        run.old.state }
    requires keep { AllKeepWithin built.now (meanings B.meaning built.now (map Some bodies.old)) }
    requires fresh { commands_at run.old.deferred system ≡ [] }
    requires given { AreIdsFor built.now system (grants_at run.old.deferred system) }
    ensures taken { OnOk result (IsStepTaken built.now
        (meanings B.meaning built.now (map Some bodies.old))
        (run_with run.old.state.state run.old.deferred) (Begin system) (run_with
        run.new.state.state run.new.deferred)) }
    ensures stopped { IfErr result (StopsBy false (λ met. serial_cause_of built.now
        (meanings B.meaning built.now (map Some bodies.old)) (Begin system) (run_with
        run.old.state.state run.old.deferred)
        ≡ Some met)) }
    ensures stands { OnOk result (StandsBetween B.fits built.now (map Some bodies.new)
        run.new.deferred run.new.state) }
    ensures meanings { meanings B.meaning built.now (map Some bodies.new)
        ≡ meanings B.meaning built.now (map Some bodies.old) }
{
    run.state.prove_law();
    run.state.prove_shape();
    let mut view = run.show(built, system)?;
    let answer = run_body(bodies, system as usize, &mut view);
    run.close(system, answer, view)?;
    Ok(())
}

// Runs the body of a system on a view in which nothing is written yet.
fn run_body<B: Body>(bodies: &mut [B], system: usize, view: &mut View) -> Result<(), BodyFault>
    requires known { system < length bodies.old }
    requires fits { (body : B) → slice_get bodies.old system ≡ Some body
        → IsTrue (B.fits body view.old.params) }
    requires showing { CanBeShown view.old.params view.old.shown }
    requires untouched { view.old.outcome ≡ untouched view.old.params view.old.shown }
    ensures { HasRun B.meaning B.fits bodies.old system view.old bodies.new view.new result }
{
    let body = &mut bodies[system];
    body.run(view)
}
