// The state behind some runs, each in schedule order on one thread.

ghost use Rattle.std.specs.Prelude.{◌≡◌, ◌+◌, IfErr, IfOk, OnOk};
ghost use Rattle.engine.specs.Meanings.{HasMemories};
ghost use Rattle.findings.specs.Behind.{IsBehind, IsNext};
ghost use Rattle.findings.specs.Refusals.{IsUnreached, IsUnwitnessed};
ghost use Rattle.program.specs.Setup.{meanings_of_scripts};

use crate::listing::{Turn, list_of};
use crate::witness::{are_fitting, turn_answer};
use ambiguity_report::report::Racer;
use body::State;
use program::Fault;
use program::replaying::replay_run;
use schedule_builder::Built;
use script::ScriptBody;
use std::alloc::Global;

// No system comes first: none has this number.
const NO_TURN: Turn = Turn {
    racer: Racer::System(u32::MAX),
    system: u32::MAX,
    swapped: false,
};

/// The state behind so many runs, each from the state that the one before leaves. Each is complete and lawful, with
/// true answers, and takes systems in schedule order, one at a time. The first that is refused ends it.
pub fn state_behind(
    alloc: Global,
    built: &Built,
    bodies: &mut [ScriptBody],
    first: State,
    count: u32,
) -> Result<State, Fault>
    requires { HasMemories built.now first }
    ensures behind { IfOk result (IsBehind built.now (meanings_of_scripts built.now bodies.old)
        first count) }
    ensures memories { IfOk result (HasMemories built.now) }
    ensures refused { IfErr result (IsUnreached built.now
        (meanings_of_scripts built.now bodies.old) first count) }
    ensures meanings { OnOk result (meanings_of_scripts built.now bodies.new
        ≡ meanings_of_scripts built.now bodies.old) }
{
    let mut state = first;
    for before in 0..count {
        state = after_one(alloc, built, bodies, state, before)?;
    }
    Ok(state)
}

// The state behind one run more. Answers of conditions are guessed first; the first that a replay tells to be wrong is turned, and all before it stay,
// so that there are no more tries than conditions, and one. Scripts that were loaded fit: a failed allocation is told only where one fails.
#[tactic(auto, using(crate::proofs::Fitting::fitting_suit))]
fn after_one(
    alloc: Global,
    built: &Built,
    bodies: &mut [ScriptBody],
    state: State,
    before: u32,
) -> Result<State, Fault>
    requires { HasMemories built.now state }
    ensures next { IfOk result (IsNext built.now (meanings_of_scripts built.now bodies.old)
        state) }
    ensures refused { IfErr result (IsUnwitnessed built.now
        (meanings_of_scripts built.now bodies.old) state (before + 1)) }
    ensures memories { IfOk result (HasMemories built.now) }
    ensures meanings { OnOk result (meanings_of_scripts built.now bodies.new
        ≡ meanings_of_scripts built.now bodies.old) }
{
    let mut answers = vec![in alloc; true; built.condition_count() as usize]?;
    for _ in 0..u64::from(built.condition_count()) + 1 {
        let list = list_of(alloc, built, NO_TURN, answers.as_slice())?;
        if !are_fitting(built, bodies) {
            return Err(Fault::Memory);
        }
        let start = state.copy(alloc)?;
        match replay_run(alloc, built, bodies, start, &list, before as usize + 1) {
            Ok(left) => return Ok(left),
            Err(Fault::WrongAnswer { step, .. }) => turn_answer(&mut answers, list.steps(), step),
            Err(fault) => return Err(fault),
        }
    }
    Err(Fault::Memory)
}
