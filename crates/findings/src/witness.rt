// Witnesses: two lists of one run in which two that race come in either order, and the worlds that they leave.

ghost use Rattle.std.specs.Prelude.{◌≡◌, ◌<◌, length, IfErr, IfOk, IfSome, IsTrue, string_bytes, map, Some};
ghost use Rattle.engine.specs.Meanings.{HasMemories, Suits};
ghost use Rattle.findings.specs.Refusals.{IsUnwitnessed};
ghost use Rattle.findings.specs.Witness.{IsLeftBy, IsOutcome, IsWitness};
ghost use Rattle.program.specs.Replayed.{IsRefusedRun};
ghost use Rattle.program.specs.Setup.{AreScriptsOf, fits_at, meanings_of_scripts, script_suits};

use crate::listing::{Turn, is_in_turn, list_of};
use ambiguity_report::Pair;
use body::State;
use executor_core::{Step, Trace};
use program::Fault;
use program::replaying::replay_run;
use schedule_builder::Built;
use script::ScriptBody;
use state_lines::world::text_of_world;
use std::alloc::{AllocError, Global};

/// A complete lawful list of a run, with the text of the world that it leaves.
#[derive(Drop)]
pub struct RunOutcome {
    /// The list.
    pub list: Trace,
    /// The text of the world that it leaves.
    pub world: String,
}

/// Two lists for a pair: in the first what races comes before the system, in the second behind it.
#[derive(Drop)]
pub struct Witness {
    /// The list in which it comes before the system.
    pub before: RunOutcome,
    /// The list in which it comes behind.
    pub behind: RunOutcome,
}

/// A witness of a pair, in the run of this number, from the state with which it begins. In each of its lists the two
/// come in one of the orders. The list is lawful and complete, with true answers. None where no list was found.
pub fn witness_of(
    alloc: Global,
    built: &Built,
    bodies: &mut [ScriptBody],
    first: &State,
    number: u32,
    pair: Pair,
) -> Result<Option<Witness>, Fault>
    requires { HasMemories built.now first.now }
    ensures refused { IfErr result (IsUnwitnessed built.now
        (meanings_of_scripts built.now bodies.old) first.now number) }
    ensures witness { IfOk result (λ found. IfSome found (IsWitness built.now
        (meanings_of_scripts built.now bodies.old) first.now number pair)) }
    ensures meanings { meanings_of_scripts built.now bodies.new
        ≡ meanings_of_scripts built.now bodies.old }
{
    let Some(before) = outcome_in(alloc, built, bodies, first, number, turn_of(pair, false))? else {
        return Ok(None);
    };
    let Some(behind) = outcome_in(alloc, built, bodies, first, number, turn_of(pair, true))? else {
        return Ok(None);
    };
    Ok(Some(Witness { before, behind }))
}

// The order of a pair.
fn turn_of(pair: Pair, swapped: bool) -> Turn
    ensures racer { result.racer ≡ pair.first }
    ensures system { result.system ≡ pair.second }
    ensures swapped { result.swapped ≡ swapped }
{
    Turn {
        racer: pair.first,
        system: pair.second,
        swapped,
    }
}

// A list in which a pair comes in this order. Answers of conditions are guessed first; the first that a replay tells to be wrong is turned, and all
// before it stay, so that there are no more tries than conditions, and one.
#[tactic(auto, using(crate::proofs::Fitting::fitting_suit))]
fn outcome_in(
    alloc: Global,
    built: &Built,
    bodies: &mut [ScriptBody],
    first: &State,
    number: u32,
    turn: Turn,
) -> Result<Option<RunOutcome>, Fault>
    requires { HasMemories built.now first.now }
    ensures refused { IfErr result (IsUnwitnessed built.now
        (meanings_of_scripts built.now bodies.old) first.now number) }
    ensures outcome { IfOk result (λ found. IfSome found (IsOutcome built.now
        (meanings_of_scripts built.now bodies.old) first.now number turn.racer turn.system
        turn.swapped)) }
    ensures meanings { meanings_of_scripts built.now bodies.new
        ≡ meanings_of_scripts built.now bodies.old }
{
    let mut answers = vec![in alloc; true; built.condition_count() as usize]?;
    for _ in 0..u64::from(built.condition_count()) + 1 {
        let list = list_of(alloc, built, turn, answers.as_slice())?;
        if !is_in_turn(list.steps(), turn) {
            return Ok(None);
        }
        if !are_fitting(built, bodies) {
            return Ok(None);
        }
        match left_by(alloc, built, bodies, first, &list, number) {
            Ok(world) => return Ok(Some(RunOutcome { list, world })),
            Err(Fault::WrongAnswer { step, .. }) => turn_answer(&mut answers, list.steps(), step),
            Err(fault) => return Err(fault),
        }
    }
    Ok(None)
}

// The text of the world that a list of the run of this number leaves.
fn left_by(
    alloc: Global,
    built: &Built,
    bodies: &mut [ScriptBody],
    first: &State,
    list: &Trace,
    number: u32,
) -> Result<String, Fault>
    requires { Suits script_suits built.now (map Some bodies.old) first.now }
    ensures refused { IfErr result (IsRefusedRun built.now
        (meanings_of_scripts built.now bodies.old) first.now list.now number) }
    ensures left { IfOk result (λ text. IsLeftBy built.now
        (meanings_of_scripts built.now bodies.old) first.now number list.now (string_bytes
        text)) }
    ensures meanings { meanings_of_scripts built.now bodies.new
        ≡ meanings_of_scripts built.now bodies.old }
{
    let start = first.copy(alloc)?;
    let left = replay_run(alloc, built, bodies, start, list, number as usize)?;
    Ok(text_of_world(alloc, number, left.world(), left.passed_over())?)
}

/// Whether each script fits its system.
pub(crate) fn are_fitting(built: &Built, bodies: &[ScriptBody]) -> bool
    ensures { IsTrue result → AreScriptsOf built.now bodies.now }
{
    if bodies.len() != built.count() as usize {
        return false;
    }
    for system in 0..built.count() {
        if !is_fitting(built, bodies, system) {
            return false;
        }
    }
    true
}

// Whether the script of a system fits it.
fn is_fitting(built: &Built, bodies: &[ScriptBody], system: u32) -> bool
    requires count { length bodies.now ≡ length built.now.systems }
    requires known { system < length built.now.systems }
    ensures { result ≡ fits_at built.now bodies.now system }
{
    bodies[system as usize].fits(built.params(system))
}

/// Turns the answer of the condition that the step of this number asks, counted from 1.
pub(crate) fn turn_answer(answers: &mut Vec<bool>, steps: &[Step], step: usize) {
    if let Some(Step::Cond(condition, answer)) = steps.get(step.saturating_sub(1)) {
        let place = *condition as usize;
        if place < answers.len() {
            answers[place] = !*answer;
        }
    }
}
