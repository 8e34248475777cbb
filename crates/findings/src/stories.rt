// Recorded runs as a story: the world after each of their sync points.

ghost use Rattle.std.specs.Prelude.{◌≡◌, ◌<◌, ◌^◌, ◌+◌, length, map, Some, IfErr, IfOk, OnOk, string_bytes};
ghost use Rattle.engine.specs.Meanings.{AreFit, HasMemories, Suits};
ghost use Rattle.findings.specs.Refusals.{IsUntold};
ghost use Rattle.findings.specs.Stories.{IsStory, count_text, is_asked as is_asked_of, told_text};
ghost use Rattle.model.specs.runs.Replays.{IsReplayed};
ghost use Rattle.model.specs.steps.Lawful.{IsLawful};
ghost use Rattle.model.specs.steps.Schedule.{recording};
ghost use Rattle.program.specs.Replayed.{IsRefusedRun};
ghost use Rattle.program.specs.Setup.{AreScriptsOf, meanings_of_scripts, script_suits};
ghost use Rattle.findings.specs.Worlds.{worlds_text};

use crate::worlds::worlds_of;
use body::State;
use executor_core::Trace;
use program::Fault;
use program::replaying::replay_run;
use schedule_builder::Built;
use script::ScriptBody;
use std::alloc::Global;

/// A story as far as it is told.
#[derive(Drop)]
pub struct Story {
    /// Its text.
    pub text: String,
    /// How many runs it has told of or passed over.
    pub runs: u32,
    /// The run that is shown, counted from 1, or all.
    pub asked: Option<u32>,
}

/// The runs of a trace, taken again one after the other. It has their number, and the world after each sync point of
/// the run that is asked for, counted from 1, or of all. Each world is printed as one behind the runs before it.
pub fn story_of(
    alloc: Global,
    built: &Built,
    bodies: &mut [ScriptBody],
    first: State,
    traces: &[Trace],
    asked: Option<u32>,
) -> Result<String, Fault>
    requires memories { HasMemories built.now first }
    requires fitting { AreScriptsOf built.now bodies.old }
    requires few { length traces.now < 2 ^ 32 }
    ensures story { IfOk result (λ text. IsStory built.now
        (meanings_of_scripts built.now bodies.old) asked 0 first traces.now
        (count_text (length traces.now)) (string_bytes text)) }
    ensures refused { IfErr result (IsUntold built.now (meanings_of_scripts built.now bodies.old)
        first traces.now) }
{
    let mut text = String::new(alloc);
    let count = traces.len();
    writeln!(text, "runs {count}")?;
    let begun = Story {
        text,
        runs: 0,
        asked,
    };
    let told = tell_runs(alloc, built, bodies, first, traces, begun)?;
    Ok(told.text)
}

/// A story that goes on with these runs, taken again one after the other from a state. Where one is refused, so is the story.
pub fn tell_runs(
    alloc: Global,
    built: &Built,
    bodies: &mut [ScriptBody],
    first: State,
    traces: &[Trace],
    begun: Story,
) -> Result<Story, Fault>
    requires suits { Suits script_suits built.now (map Some bodies.old) first }
    requires few { begun.runs + length traces.now < 2 ^ 32 }
    ensures story { IfOk result (λ told. IsStory built.now
        (meanings_of_scripts built.now bodies.old) begun.asked begun.runs first traces.now
        (string_bytes begun.text) (string_bytes told.text)) }
    ensures runs { IfOk result (λ told. told.runs ≡ begun.runs + length traces.now) }
    ensures asked { IfOk result (λ told. told.asked ≡ begun.asked) }
    ensures refused { begun.runs ≡ 0 → IfErr result (IsUntold built.now
        (meanings_of_scripts built.now bodies.old) first traces.now) }
    ensures fit { OnOk result (AreFit script_suits built.now (map Some bodies.new)) }
    ensures meanings { meanings_of_scripts built.now bodies.new
        ≡ meanings_of_scripts built.now bodies.old }
{
    let Story {
        mut text,
        runs: mut before,
        asked,
    } = begun;
    let mut state = first;
    for trace in traces {
        let part = Part {
            before,
            is_told: is_asked(asked, before + 1),
        };
        let (left, told) = taken(alloc, built, bodies, state, trace, part)?;
        text.push_str(told.as_str())?;
        state = left;
        before += 1;
    }
    Ok(Story {
        text,
        runs: before,
        asked,
    })
}

// A run: how many come before it, and whether it is shown.
#[derive(Clone, Copy)]
struct Part {
    before: u32,
    is_told: bool,
}

// Whether the run of this number is asked for.
fn is_asked(asked: Option<u32>, number: u32) -> bool
    ensures { result ≡ is_asked_of asked number }
{
    match asked {
        Some(run) => run == number,
        None => true,
    }
}

// Takes a run again, and returns its worlds, where they are asked for.
fn taken(
    alloc: Global,
    built: &Built,
    bodies: &mut [ScriptBody],
    state: State,
    trace: &Trace,
    part: Part,
) -> Result<(State, String), Fault>
    requires { Suits script_suits built.now (map Some bodies.old) state }
    ensures replayed { IfOk result (λ left. IsReplayed (recording built.now trace.now.sets)
        (meanings_of_scripts built.now bodies.old) state trace.now.steps left.0) }
    ensures refused { IfErr result (IsRefusedRun built.now
        (meanings_of_scripts built.now bodies.old) state trace.now (part.before + 1)) }
    ensures told { IfOk result (λ left. string_bytes left.1
        ≡ told_text part.is_told built.now (meanings_of_scripts built.now bodies.old) state
        part.before trace.now.steps) }
    ensures suits { IfOk result (λ left. Suits script_suits built.now (map Some bodies.new)
        left.0) }
    ensures meanings { meanings_of_scripts built.now bodies.new
        ≡ meanings_of_scripts built.now bodies.old }
{
    if part.is_told {
        return told_run(alloc, built, bodies, state, trace, part.before);
    }
    let number = part.before as usize + 1;
    let left = replay_run(alloc, built, bodies, state, trace, number)?;
    Ok((left, String::new(alloc)))
}

// Takes a run again that is shown: from a copy of its state it is taken once more for its worlds.
fn told_run(
    alloc: Global,
    built: &Built,
    bodies: &mut [ScriptBody],
    state: State,
    trace: &Trace,
    before: u32,
) -> Result<(State, String), Fault>
    requires { Suits script_suits built.now (map Some bodies.old) state }
    ensures replayed { IfOk result (λ left. IsReplayed (recording built.now trace.now.sets)
        (meanings_of_scripts built.now bodies.old) state trace.now.steps left.0) }
    ensures refused { IfErr result (IsRefusedRun built.now
        (meanings_of_scripts built.now bodies.old) state trace.now (before + 1)) }
    ensures told { IfOk result (λ left. string_bytes left.1
        ≡ worlds_text built.now (meanings_of_scripts built.now bodies.old) state before
        trace.now.steps) }
    ensures suits { IfOk result (λ left. Suits script_suits built.now (map Some bodies.new)
        left.0) }
    ensures meanings { meanings_of_scripts built.now bodies.new
        ≡ meanings_of_scripts built.now bodies.old }
{
    let start = state.copy(alloc)?;
    let left = replay_run(alloc, built, bodies, state, trace, before as usize + 1)?;
    let told = told_of(alloc, built, bodies, start, trace, before)?;
    Ok((left, told))
}

// The worlds of a run that has been taken again, found by taking its steps once more from the state from which it was taken: what stops it now is memory.
fn told_of(
    alloc: Global,
    built: &Built,
    bodies: &mut [ScriptBody],
    start: State,
    trace: &Trace,
    before: u32,
) -> Result<String, Fault>
    requires suits { Suits script_suits built.now (map Some bodies.old) start }
    requires lawful { IsLawful (recording built.now trace.now.sets) trace.now.steps }
    ensures told { IfOk result (λ text. string_bytes text
        ≡ worlds_text built.now (meanings_of_scripts built.now bodies.old) start before
        trace.now.steps) }
    ensures memory { IfErr result (λ fault. fault ≡ Fault.Memory) }
    ensures fit { OnOk result (AreFit script_suits built.now (map Some bodies.new)) }
    ensures meanings { meanings_of_scripts built.now bodies.new
        ≡ meanings_of_scripts built.now bodies.old }
{
    match worlds_of(alloc, built, bodies, start, trace, before) {
        Ok(text) => Ok(text),
        Err(_) => Err(Fault::Memory),
    }
}
