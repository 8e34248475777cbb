// Recorded runs of one schedule are judged one after the other, by one core for all.

ghost use Rattle.std.specs.Prelude.{ℕ, ◌≡◌, ◌+◌, ◌≤◌, ◌<◌, List, [], ◌∷◌, Option, MatchOption, Some, get_or, length, IfOk, IfErr, IfSome, OnErr, OnOk};
ghost use Rattle.model.specs.declared.steps.Step.{Step as AStep};
ghost use Rattle.model.specs.declared.steps.Step.TheVariants.{Sync as Synced};
ghost use Rattle.model.specs.steps.Schedule.{recording};
ghost use Rattle.model.specs.steps.Faults.{IsFirstFault};
ghost use Rattle.model.specs.steps.Lawful.{syncs_in};
ghost use Rattle.executor_core.specs.Stands.{AreMeetings, Stands};
ghost use Rattle.engine.specs.Latest.{IsCoreFor};
ghost use Rattle.trace_checker.specs.declared.check.Verdict.{Verdict};
ghost use Rattle.trace_checker.specs.Verdicts.{IsVerdict, sets_so_far};

use crate::check::Verdict;
use engine::resting::{RestingCore, core_in};
use executor_core::{Core, Step, StepFault, Trace};
use model::KindSets;
use schedule_builder::Built;
use std::alloc::{AllocError, Global};
use std::marker::Model;
use std::snapshot::Snapshot;

/// Judges recorded runs of a schedule, each by itself. One core serves all that record archetypes. It finds anew who
/// meets whom only where a run opens with other archetypes than those by which it knows it. Contracts see the
/// schedule.
#[derive(Drop)]
pub struct Checker {
    built: Snapshot<Built>,
    resting: Option<RestingCore>,
}

impl Model for Checker {
    ghost use Rattle.std.specs.Prelude.{IfSome};
    ghost use Rattle.model.specs.steps.Codes.{schedule_code};
    ghost use Rattle.model.specs.steps.Schedule.{Schedule};
    ghost use Rattle.engine.specs.Latest.{IsCoreFor};

    ghost Value = { Schedule };

    ghost coded = { schedule_code };

    ghost view = { λ c. c.built.value };

    ghost invariant = { λ c. IfSome c.resting (λ it. IsCoreFor it.room c.built.value it.sets) };
}

// What was judged of a recorded run, and how many sync points were accepted.
#[derive(Clone, Copy)]
struct Judged {
    verdict: Verdict,
    syncs: usize,
}

impl Checker {
    /// For runs of this schedule.
    pub fn new(built: &Built) -> Self
        ensures { result ≡ built.now }
    {
        Checker {
            built: Snapshot::of(built),
            resting: None,
        }
    }

    /// What the schedule says of a trace, as `check` says it.
    pub fn check(
        &mut self,
        alloc: Global,
        built: &Built,
        trace: &Trace,
    ) -> Result<Verdict, AllocError>
        requires { self.old ≡ built.now }
        ensures verdict { IfOk result (λ verdict. IsVerdict built.now trace.now verdict) }
        ensures only { (other : Verdict) → IsVerdict built.now trace.now other
            → IfOk result (λ verdict. verdict ≡ other) }
        ensures schedule { self.new ≡ self.old }
    {
        let mut core = opened(alloc, built, trace, self.resting.take())?;
        let judged = judge(built, &mut core, trace);
        self.rest(alloc, trace, core, judged.syncs)?;
        Ok(judged.verdict)
    }

    // Puts by the core that has judged a run of which it accepted so many sync points, where the run records kind sets.
    fn rest(
        &mut self,
        alloc: Global,
        trace: &Trace,
        core: Core<'_>,
        syncs: usize,
    ) -> Result<(), AllocError>
        requires same { core.schedule ≡ self.old }
        requires knows { MatchOption trace.now.sets (Unit {0}) (λ lists. (syncs < length lists)
            × AreMeetings core (get_or lists syncs [])) }
        ensures { self.new ≡ self.old }
    {
        if let Some(lists) = trace.sets() {
            let sets = lists[syncs].copy(alloc)?;
            self.resting = Some(RestingCore {
                room: core.into_room(),
                sets,
            });
        }
        Ok(())
    }
}

// A core at the opening of a recorded run: one that was put by goes on, where the run records kind sets.
fn opened<'a>(
    alloc: Global,
    built: &'a Built,
    trace: &Trace,
    resting: Option<RestingCore>,
) -> Result<Core<'a>, AllocError>
    requires { IfSome resting (λ it. IsCoreFor it.room built.now it.sets) }
    ensures schedule { IfOk result (λ core. core.schedule ≡ built.now) }
    ensures stands { IfOk result (λ core. Stands core (sets_so_far trace.now.sets []) []) }
{
    trace.prove_law();
    match trace.sets() {
        Some(lists) => begun(alloc, built, &lists[0], resting),
        None => Core::new(alloc, built),
    }
}

// A core for a run that records these kind sets at its opening.
fn begun<'a>(
    alloc: Global,
    built: &'a Built,
    sets: &KindSets,
    resting: Option<RestingCore>,
) -> Result<Core<'a>, AllocError>
    requires { IfSome resting (λ it. IsCoreFor it.room built.now it.sets) }
    ensures schedule { IfOk result (λ core. core.schedule ≡ built.now) }
    ensures stands { IfOk result (λ core. Stands core (Some (sets.now ∷ [])) []) }
{
    let mut core = core_in(alloc, built, sets, resting)?;
    core.begin_same(alloc)?;
    Ok(core)
}

// Judges the steps of a recorded run by a core that has accepted none. Afterwards the core knows who meets whom in the kind sets at the sync point
// that it accepted last.
fn judge(built: &Built, core: &mut Core<'_>, trace: &Trace) -> Judged
    requires same { core.old.schedule ≡ built.now }
    requires stands { Stands core.old (sets_so_far trace.now.sets []) [] }
    ensures verdict { IsVerdict built.now trace.now result.verdict }
    ensures only { (other : Verdict) → IsVerdict built.now trace.now other
        → result.verdict ≡ other }
    ensures knows { MatchOption trace.now.sets (Unit {0}) (λ lists. (result.syncs < length lists)
        × AreMeetings core.new (get_or lists result.syncs [])) }
    ensures schedule { core.new.schedule ≡ core.old.schedule }
{
    trace.prove_law();
    let mut number = 0;
    let mut syncs = 0;
    let steps = trace.steps();
    for step in steps {
        number += 1;
        let more = syncs_of(*step);
        let next = syncs + more;
        if let Err(fault) = take(core, *step, trace, next) {
            return Judged {
                verdict: Verdict::Bad(number, fault),
                syncs,
            };
        }
        syncs = next;
    }
    if core.complete() {
        return Judged {
            verdict: Verdict::Complete,
            syncs,
        };
    }
    Judged {
        verdict: Verdict::Unfinished,
        syncs,
    }
}

// Takes a step of a recorded run, up to which there are so many sync points.
fn take(core: &mut Core, step: Step, trace: &Trace, place: usize) -> Result<(), StepFault>
    requires listed { (k : ℕ) → step ≡ Synced k
        → MatchOption trace.now.sets (Unit {0}) (λ lists. place < length lists) }
    ensures fault { (sets : Option (List (List ℕ))) (h : List AStep) → Stands core.old sets h
        → IfErr result (λ fault. IsFirstFault (recording core.old.schedule sets) h step fault) }
    ensures stands { OnOk result ((h : List AStep)
        → Stands core.old (sets_so_far trace.now.sets h) h → place ≡ syncs_in (step ∷ h)
        → Stands core.new (sets_so_far trace.now.sets (step ∷ h)) (step ∷ h)) }
    ensures unchanged { OnErr result (core.new ≡ core.old) }
    ensures schedule { core.new.schedule ≡ core.old.schedule }
{
    let Step::Sync(point) = step else {
        return core.step(step);
    };
    match trace.sets() {
        Some(lists) => pass(core, lists, point, place),
        None => core.step(step),
    }
}

// Takes a sync point of a run that records kind sets, those at this place after it. Where they are those before it, the core keeps who meets
// whom.
fn pass(core: &mut Core, lists: &[KindSets], point: u32, place: usize) -> Result<(), StepFault>
    requires { place < length lists.now }
    ensures fault { (sets : Option (List (List ℕ))) (h : List AStep) → Stands core.old sets h
        → IfErr result (λ fault. IsFirstFault (recording core.old.schedule sets) h (Synced point)
        fault) }
    ensures stands { OnOk result ((h : List AStep)
        → Stands core.old (sets_so_far (Some lists.now) h) h
        → place ≡ syncs_in (Synced point ∷ h)
        → Stands core.new (sets_so_far (Some lists.now) (Synced point ∷ h)) (Synced point
        ∷ h)) }
    ensures unchanged { OnErr result (core.new ≡ core.old) }
    ensures schedule { core.new.schedule ≡ core.old.schedule }
{
    if place > 0 && lists[place].is_same(&lists[place - 1]) {
        return core.sync_same(point);
    }
    core.sync_in(point, &lists[place])
}

// How many sync points a step is: one or none.
pub(crate) fn syncs_of(step: Step) -> usize
    ensures counted { (h : List AStep) → syncs_in (step ∷ h) ≡ syncs_in h + result }
    ensures one { result ≤ 1 }
{
    match step {
        Step::Sync(_) => 1,
        Step::Cond(_, _) | Step::Start(_) | Step::Skip(_) | Step::Finish(_) => 0,
    }
}
