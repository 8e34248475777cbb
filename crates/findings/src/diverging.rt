// Where two traces of one file part: the first run after which the worlds that they leave differ, and the first step in which their lists do.

ghost use Rattle.std.specs.Prelude.{◌≡◌, ◌≢◌, ◌+◌, ◌<◌, ◌≤◌, ◌^◌, true, false, length, map, slice_get, Some, None, IfErr, IfOk, IsSome, IsSomeAnd, MatchOption, OnOk, string_bytes};
ghost use Rattle.engine.specs.Meanings.{HasMemories, Suits};
ghost use Rattle.findings.specs.Apart.{IsFirstApart};
ghost use Rattle.findings.specs.Parting.{AreAllReplayed, IsDifferenceOf, IsParting, IsPartingAt, recorded_steps};
ghost use Rattle.findings.specs.Refusals.{IsUnparted};
ghost use Rattle.model.specs.runs.Replays.{IsReplayed};
ghost use Rattle.model.specs.steps.Schedule.{recording};
ghost use Rattle.state_lines.specs.WorldText.{world_text};
ghost use Rattle.program.specs.Replayed.{IsRefusedRun};
ghost use Rattle.program.specs.Setup.{AreScriptsOf, meanings_of_scripts, script_suits};

use body::State;
use executor_core::{Step, Trace};
use program::Fault;
use program::replaying::replay_run;
use schedule_builder::Built;
use script::ScriptBody;
use state_lines::world::text_of_world;
use std::alloc::Global;

/// What two traces come to.
#[derive(Drop)]
pub enum Parting {
    /// The worlds are the same after each run, and both traces have this many.
    None(usize),
    /// The worlds are the same after each of the first runs, and one trace has more.
    Longer(usize),
    /// After this run, counted from 1, the worlds differ for the first time: their texts.
    After(usize, String, String),
}

/// Where the first steps differ.
#[derive(Clone, Copy)]
pub struct Place {
    /// The run, counted from 1.
    pub run: usize,
    /// The step, counted from 1.
    pub step: usize,
    /// The step of the first trace, where it has one.
    pub one: Option<Step>,
    /// The step of the second, where it has one.
    pub other: Option<Step>,
}

/// Where two traces part: the first run after which the texts of the worlds differ. All runs of both are taken again,
/// each trace from a state of its own. Each run begins at the state that the run before it leaves. For each run
/// number the first trace's run comes first. The first run that is refused ends it.
pub fn parting_of(
    alloc: Global,
    built: &Built,
    bodies: &mut [ScriptBody],
    first: State,
    second: State,
    one: &[Trace],
    other: &[Trace],
) -> Result<Parting, Fault>
    requires memories { HasMemories built.now first }
    requires beside { HasMemories built.now second }
    requires fitting { AreScriptsOf built.now bodies.old }
    requires few { length one.now < 2 ^ 32 }
    ensures parting { IfOk result (IsParting built.now (meanings_of_scripts built.now bodies.old) 0
        first second one.now other.now) }
    ensures replayed { OnOk result (AreAllReplayed built.now
        (meanings_of_scripts built.now bodies.old) first one.now) }
    ensures replayed_other { OnOk result (AreAllReplayed built.now
        (meanings_of_scripts built.now bodies.old) second other.now) }
    ensures refused { IfErr result (IsUnparted built.now (meanings_of_scripts built.now bodies.old)
        first second one.now other.now) }
{
    let both = one.len().min(other.len());
    let (mut left, mut beside) = (first, second);
    let mut told = None;
    for run in 0..one.len().max(other.len()) {
        left = taken(alloc, built, bodies, left, one, run)?;
        beside = taken(alloc, built, bodies, beside, other, run)?;
        told = told_behind(alloc, told, run, both, &left, &beside)?;
    }
    Ok(told.unwrap_or(Parting::None(one.len())))
}

// Takes the run at a place again, where a trace has one.
fn taken(
    alloc: Global,
    built: &Built,
    bodies: &mut [ScriptBody],
    state: State,
    traces: &[Trace],
    run: usize,
) -> Result<State, Fault>
    requires { Suits script_suits built.now (map Some bodies.old) state }
    ensures refused { IfErr result (λ fault. IsSomeAnd (slice_get traces.now run) (λ trace.
        IsRefusedRun built.now (meanings_of_scripts built.now bodies.old) state trace (run + 1)
        fault)) }
    ensures replayed { IfOk result (λ left. MatchOption (slice_get traces.now run) (left ≡ state)
        (λ trace. IsReplayed (recording built.now trace.sets)
        (meanings_of_scripts built.now bodies.old) state trace.steps left)) }
    ensures suits { IfOk result (λ left. Suits script_suits built.now (map Some bodies.new) left) }
    ensures meanings { meanings_of_scripts built.now bodies.new
        ≡ meanings_of_scripts built.now bodies.old }
{
    match traces.get(run) {
        Some(trace) => replay_run(alloc, built, bodies, state, trace, run + 1),
        None => Ok(state),
    }
}

/// What two lists of runs come to, as far as it is known behind a run, where both have so many, by the states that it leaves: what was known before
/// it, else that one of them has no such run, else that the worlds differ.
pub fn told_behind(
    alloc: Global,
    told: Option<Parting>,
    run: usize,
    both: usize,
    left: &State,
    beside: &State,
) -> Result<Option<Parting>, Fault>
    requires few { both < 2 ^ 32 }
    ensures kept { IsSome told → IfOk result (λ now. now ≡ told) }
    ensures longer { told ≡ None → both ≤ run
        → IfOk result (λ now. now ≡ Some (Parting.Longer run)) }
    ensures after { told ≡ None → run < both → IfOk result (λ now. MatchOption now
        (world_text (run + 1) left.now ≡ world_text (run + 1) beside.now)
        (IsPartingAt (run + 1) left.now beside.now)) }
    ensures memory { IfErr result (λ fault. fault ≡ Fault.Memory) }
{
    if told.is_some() {
        return Ok(told);
    }
    if run >= both {
        return Ok(Some(Parting::Longer(run)));
    }
    let number = run + 1;
    let text = text_of(alloc, number as u32, left)?;
    let text_beside = text_of(alloc, number as u32, beside)?;
    if are_apart(text.as_str(), text_beside.as_str()) {
        return Ok(Some(Parting::After(number, text, text_beside)));
    }
    Ok(None)
}

// Whether two texts differ.
fn are_apart(one: &str, other: &str) -> bool
    ensures apart { result ≡ true → one.now ≢ other.now }
    ensures same { result ≡ false → one.now ≡ other.now }
{
    one != other
}

// The text of a state after so many runs.
fn text_of(alloc: Global, runs: u32, state: &State) -> Result<String, Fault>
    ensures text { IfOk result (λ text. string_bytes text ≡ world_text runs state.now) }
    ensures memory { IfErr result (λ fault. fault ≡ Fault.Memory) }
{
    Ok(text_of_world(alloc, runs, state.world(), state.passed_over())?)
}

/// The first step in which two traces differ. Each run before its run has the same steps in both, and so do the steps
/// before it in its run. None where all runs have the same steps; a run that one trace alone has then has none.
pub fn first_difference(one: &[Trace], other: &[Trace]) -> Option<Place>
    ensures { IsDifferenceOf one.now other.now result }
{
    for run in 0..one.len().max(other.len()) {
        let steps = steps_at(one, run);
        let beside = steps_at(other, run);
        let step = first_step(steps, beside);
        let (first, second) = (step_at(steps, step), step_at(beside, step));
        if !is_same_step(first, second) {
            return Some(Place {
                run: run.saturating_add(1),
                step: step.saturating_add(1),
                one: first,
                other: second,
            });
        }
    }
    None
}

// The steps of a run, none where there is no such run.
fn steps_at(traces: &[Trace], run: usize) -> &[Step]
    ensures { result.now ≡ recorded_steps traces.now run }
{
    match traces.get(run) {
        Some(trace) => trace.steps(),
        None => &[],
    }
}

// The first place at which two lists of steps differ, or where both end.
fn first_step(one: &[Step], other: &[Step]) -> usize
    ensures { IsFirstApart one.now other.now result }
{
    for place in 0..one.len() {
        if !is_same_step(step_at(one, place), step_at(other, place)) {
            return place;
        }
    }
    one.len()
}

// The step at a place, where there is one.
fn step_at(steps: &[Step], place: usize) -> Option<Step>
    ensures { result ≡ slice_get steps.now place }
{
    steps.get(place).copied()
}

// Whether two steps are the same, where there are any.
fn is_same_step(one: Option<Step>, other: Option<Step>) -> bool
    ensures same { result ≡ true → one ≡ other }
    ensures apart { result ≡ false → one ≢ other }
{
    match (one, other) {
        (Some(step), Some(beside)) => step == beside,
        (None, None) => true,
        _ => false,
    }
}
