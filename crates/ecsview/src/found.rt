// What is found, as text: witnesses of races, where two traces part, and the worlds of a run.

ghost use Rattle.std.specs.Prelude.{◌≡◌, ◌<◌, ◌^◌, ◌++◌, ◌⊎◌, ℕ, List, length, map, IfErr, IfOk, OnOk, string_bytes};
ghost use Rattle.ecsview.specs.Found.{AreRaces, IsDivergeText, IsFindingText, IsRacesText, IsStepsText, first_of, meanings_of, parting_status, races_line};
ghost use Rattle.ecsview.specs.Refusals.{IsUncompared, IsUnfound, IsUnshown};
ghost use Rattle.engine.specs.Meanings.{HasMemories};
ghost use Rattle.findings.specs.Parting.{AreAllReplayed, IsParting};
ghost use Rattle.findings.specs.Refusals.{IsUnparted, IsUnwitnessed};
ghost use Rattle.model.specs.state.Loaded.{loaded as loaded_state};
ghost use Rattle.program.specs.Load.{entity_given};
ghost use Rattle.program.specs.Refused.{IsTraceUnread, IsUngiven};
ghost use Rattle.program.specs.Setup.{AreScriptsOf, meanings_of_scripts};

use ambiguity_report::Pair;
use ambiguity_report::report::report;
use body::State;
use executor_core::Trace;
use findings::behind::state_behind;
use findings::diverging::{Parting, first_difference, parting_of};
use findings::loading::opening;
use findings::stories::story_of;
use findings::texts::{push_pair, push_witness, text_of_parting};
use findings::witness::{Witness, witness_of};
use kinds::Value;
use program::checking::traces_of;
use program::{Fault, Loaded};
use schedule_builder::Built;
use script::ScriptBody;
use std::alloc::{AllocError, Global};
use std::io::Read;

/// A witness for each pair that races, in the run of this number, from a state that the runs before it leave.
pub fn races_text(alloc: Global, loaded: Loaded<'_>, number: u32) -> Result<String, Fault>
    ensures text { IfOk result (λ text. IsRacesText loaded.entry number (string_bytes text)) }
    ensures refused { IfErr result (λ fault. IsUngiven (length loaded.entry.entities.items) fault
        ⊎ IsUnfound loaded.entry number fault) }
{
    let Loaded {
        built,
        names,
        mut bodies,
        entities,
        resources,
    } = loaded;
    let pairs = report(alloc, &built)?;
    let first = begun(alloc, &built, entities.as_slice(), &resources)?;
    let names = names.as_slice();
    let bodies = bodies.as_mut_slice();
    let state = state_behind(alloc, &built, bodies, first, number.saturating_sub(1))?;
    let start = Beginning { number, state };
    let text = witnesses_of(alloc, &built, names, bodies, &start, pairs.as_slice())?;
    Ok(text)
}

// With what a run begins: its number, and the state.
#[derive(Drop)]
struct Beginning {
    number: u32,
    state: State,
}

// The same of these pairs.
fn witnesses_of(
    alloc: Global,
    built: &Built,
    names: &[&str],
    bodies: &mut [ScriptBody],
    start: &Beginning,
    pairs: &[Pair],
) -> Result<String, Fault>
    requires { HasMemories built.now start.now.state }
    ensures refused { IfErr result (IsUnwitnessed built.now
        (meanings_of_scripts built.now bodies.old) start.now.state start.now.number) }
    ensures races { IfOk result (λ text. AreRaces built.now
        (meanings_of_scripts built.now bodies.old) start.now.state start.now.number
        (map (λ name. name.now) names.now) pairs.now (races_line (length pairs.now))
        (string_bytes text)) }
{
    let mut text = String::new(alloc);
    let (count, number) = (pairs.len(), start.number);
    writeln!(text, "races {count}")?;
    for pair in pairs {
        push_pair(&mut text, names, number, *pair)?;
        let found = witness_of(alloc, built, bodies, &start.state, number, *pair)?;
        push_found(alloc, &mut text, names, number, *pair, found)?;
    }
    Ok(text)
}

// Adds a witness of a pair, where there is one.
fn push_found(
    alloc: Global,
    text: &mut String,
    names: &[&str],
    number: u32,
    pair: Pair,
    found: Option<Witness>,
) -> Result<(), AllocError>
    ensures { OnOk result ((more : List ℕ)
        × IsFindingText (map (λ name. name.now) names.now) number pair found more
        × (string_bytes text.new ≡ string_bytes text.old ++ more)) }
{
    match found {
        Some(witness) => push_witness(alloc, text, names, number, pair, &witness),
        None => writeln!(text, "-- no witness in run {number}"),
    }
}

/// Where two traces part, all runs of which are taken again, and the status: 0 where the worlds agree and both have as many runs.
pub fn diverge_text<F: Read>(
    alloc: Global,
    loaded: Loaded<'_>,
    trace: &mut F,
    other: &mut F,
) -> Result<(String, u8), Fault>
    requires { AreScriptsOf loaded.built loaded.bodies.items }
    ensures text { IfOk result (λ shown. IsDivergeText loaded.entry (F.remaining trace.old)
        (F.remaining other.old) shown.1 (string_bytes shown.0)) }
    ensures refused { IfErr result (λ fault. IsTraceUnread (F.remaining trace.old) fault
        ⊎ (IsTraceUnread (F.remaining other.old) fault
        ⊎ (IsUngiven (length loaded.entry.entities.items) fault
        ⊎ IsUncompared loaded.entry (F.remaining trace.old) (F.remaining other.old)
        fault))) }
{
    let one = traces_of(alloc, trace)?;
    let two = traces_of(alloc, other)?;
    let (runs, others) = (one.as_slice(), two.as_slice());
    let parting = parting_in(alloc, loaded, runs, others)?;
    let place = first_difference(runs, others);
    let text = text_of_parting(alloc, &parting, place, (runs.len(), others.len()))?;
    Ok((text, status_of(&parting)))
}

// The exit status: 0 where the worlds agree after each run, and both traces have as many.
fn status_of(parting: &Parting) -> u8
    ensures { result ≡ parting_status parting.now }
{
    match parting {
        Parting::None(_) => 0,
        Parting::Longer(_) | Parting::After(..) => 1,
    }
}

// Where these runs part, on what a file declares.
fn parting_in(
    alloc: Global,
    loaded: Loaded<'_>,
    one: &[Trace],
    two: &[Trace],
) -> Result<Parting, Fault>
    requires fitting { AreScriptsOf loaded.built loaded.bodies.items }
    requires few { length one.now < 2 ^ 32 }
    ensures parting { IfOk result (IsParting loaded.entry.built (meanings_of loaded.entry) 0
        (first_of loaded.entry) (first_of loaded.entry) one.now two.now) }
    ensures replayed { OnOk result (AreAllReplayed loaded.entry.built (meanings_of loaded.entry)
        (first_of loaded.entry) one.now) }
    ensures replayed_other { OnOk result (AreAllReplayed loaded.entry.built
        (meanings_of loaded.entry) (first_of loaded.entry) two.now) }
    ensures refused { IfErr result (λ fault. IsUngiven (length loaded.entry.entities.items) fault
        ⊎ IsUnparted loaded.entry.built (meanings_of loaded.entry) (first_of loaded.entry)
        (first_of loaded.entry) one.now two.now fault) }
{
    let Loaded {
        built,
        mut bodies,
        entities,
        resources,
        ..
    } = loaded;
    let first = begun(alloc, &built, entities.as_slice(), &resources)?;
    let second = begun(alloc, &built, entities.as_slice(), &resources)?;
    let bodies = bodies.as_mut_slice();
    let parting = parting_of(alloc, &built, bodies, first, second, one, two)?;
    Ok(parting)
}

/// The worlds after the sync points of the run of a trace that is asked for, counted from 1, or of all.
pub fn steps_text<T: Read>(
    alloc: Global,
    loaded: Loaded<'_>,
    trace: &mut T,
    asked: Option<u32>,
) -> Result<String, Fault>
    requires { AreScriptsOf loaded.built loaded.bodies.items }
    ensures text { IfOk result (λ text. IsStepsText loaded.entry (T.remaining trace.old) asked
        (string_bytes text)) }
    ensures refused { IfErr result (λ fault. IsTraceUnread (T.remaining trace.old) fault
        ⊎ (IsUngiven (length loaded.entry.entities.items) fault
        ⊎ IsUnshown loaded.entry (T.remaining trace.old) fault)) }
{
    let traces = traces_of(alloc, trace)?;
    let Loaded {
        built,
        mut bodies,
        entities,
        resources,
        ..
    } = loaded;
    let first = begun(alloc, &built, entities.as_slice(), &resources)?;
    let bodies = bodies.as_mut_slice();
    let text = story_of(alloc, &built, bodies, first, traces.as_slice(), asked)?;
    Ok(text)
}

// The state with which the first run begins.
fn begun(
    alloc: Global,
    built: &Built,
    entities: &[Vec<Value>],
    resources: &[i64; 8],
) -> Result<State, Fault>
    ensures memories { IfOk result (HasMemories built.now) }
    ensures refused { IfErr result (IsUngiven (length entities.now)) }
    ensures first { IfOk result (λ state. state
        ≡ loaded_state built.now (map entity_given entities.now) resources.now) }
{
    let state = opening(alloc, built, entities, resources)?;
    Ok(state)
}
