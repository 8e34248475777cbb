// The texts of what is found.

ghost use Rattle.std.specs.Prelude.{◌≡◌, ◌≢◌, ◌≤◌, ◌<◌, ◌+◌, ◌||◌, ◌++◌, ℕ, List, true, false, length, map, slice_get, flat_map, option_map, option_to_list, is_some, IfSome, IfNone, IfOk, OnOk, string_bytes};
ghost use Rattle.std.specs.Str.Lines.{lines};
ghost use Rattle.findings.specs.Apart.{IsFirstApart};
ghost use Rattle.findings.specs.Texts.{AreRows, IsApart, IsApartBy, IsDifference, IsInPlace, IsOfEntity, IsPartingText, IsSideOf, IsWitnessText, agreement_line, apart_text, is_same, left_text, line_at, marked_line, named_line, named_step, orders_text, pair_text, place_line, row_text, step_or_none};

use crate::diverging::{Parting, Place};
use crate::witness::{RunOutcome, Witness};
use ambiguity_report::Pair;
use executor_core::Step;
use printing::report;
use printing::report::{name_of, push_racer};
use std::alloc::{AllocError, Global};
use trace_checker::Line;
use trace_checker::write::push_run;

/// Adds a pair: its names, and on what the two conflict; and the number of the run that is looked at.
pub fn push_pair(
    text: &mut String,
    names: &[&str],
    number: u32,
    pair: Pair,
) -> Result<(), AllocError>
    ensures { OnOk result (string_bytes text.new
        ≡ string_bytes text.old ++ pair_text (map (λ name. name.now) names.now) number pair) }
{
    text.push_str("== ")?;
    report::push_pair(text, names, pair)?;
    writeln!(text, "-- run {number} alone")
}

/// Adds a witness of a pair, in the run of this number: both lists with the worlds that they leave, and the first line in which these differ.
pub fn push_witness(
    alloc: Global,
    text: &mut String,
    names: &[&str],
    number: u32,
    pair: Pair,
    witness: &Witness,
) -> Result<(), AllocError>
    ensures { OnOk result ((more : List ℕ)
        × IsWitnessText (map (λ name. name.now) names.now) number pair witness.now more
        × (string_bytes text.new ≡ string_bytes text.old ++ more)) }
{
    push_orders(text, names, number, pair, witness)?;
    push_difference(
        alloc,
        text,
        witness.before.world.as_str(),
        witness.behind.world.as_str(),
    )?;
    Ok(())
}

// Adds both lists of a witness, each behind the line of what comes first in it.
fn push_orders(
    text: &mut String,
    names: &[&str],
    number: u32,
    pair: Pair,
    witness: &Witness,
) -> Result<(), AllocError>
    ensures { OnOk result (string_bytes text.new
        ≡ string_bytes text.old
        ++ orders_text (map (λ name. name.now) names.now) number pair witness.now) }
{
    text.push_str("-- ")?;
    push_racer(text, names, pair.first)?;
    text.push_str(" first\n")?;
    push_left(text, names, number, &witness.before)?;
    let name = name_of(names, pair.second);
    writeln!(text, "-- {name} first")?;
    push_left(text, names, number, &witness.behind)
}

// Adds a list, its steps by names, and the world that it leaves.
fn push_left(
    text: &mut String,
    names: &[&str],
    number: u32,
    outcome: &RunOutcome,
) -> Result<(), AllocError>
    ensures { OnOk result (string_bytes text.new
        ≡ string_bytes text.old
        ++ left_text (map (λ name. name.now) names.now) number outcome.now) }
{
    push_run(text, number, &outcome.list)?;
    push_named(text, names, outcome.list.steps())?;
    text.push_str("-- leaves\n")?;
    text.push_str(outcome.world.as_str())?;
    Ok(())
}

// Adds the line of steps by the names of their systems.
fn push_named(text: &mut String, names: &[&str], steps: &[Step]) -> Result<(), AllocError>
    ensures { OnOk result (string_bytes text.new
        ≡ string_bytes text.old ++ named_line (map (λ name. name.now) names.now) steps.now) }
{
    text.push_str("-- order")?;
    push_named_steps(text, names, steps)?;
    text.push_str("\n")?;
    Ok(())
}

// Adds these steps by the names of their systems.
fn push_named_steps(text: &mut String, names: &[&str], steps: &[Step]) -> Result<(), AllocError>
    ensures { OnOk result (string_bytes text.new
        ≡ string_bytes text.old
        ++ flat_map (named_step (map (λ name. name.now) names.now)) steps.now) }
{
    for step in steps {
        push_named_step(text, names, *step)?;
    }
    Ok(())
}

// Adds a step by the name of its system.
fn push_named_step(text: &mut String, names: &[&str], step: Step) -> Result<(), AllocError>
    ensures { OnOk result (string_bytes text.new
        ≡ string_bytes text.old ++ named_step (map (λ name. name.now) names.now) step) }
{
    match step {
        Step::Start(system) => {
            let name = name_of(names, system);
            write!(text, " {name}")
        }
        Step::Skip(system) => {
            let name = name_of(names, system);
            write!(text, " {name}=skipped")
        }
        Step::Cond(condition, true) => write!(text, " #{condition}=yes"),
        Step::Cond(condition, false) => write!(text, " #{condition}=no"),
        Step::Finish(_) => Ok(()),
        Step::Sync(_) => {
            text.push_str(" |")?;
            Ok(())
        }
    }
}

// Adds the first line in which two texts differ, or that they are equal.
fn push_difference(
    alloc: Global,
    text: &mut String,
    one: &str,
    other: &str,
) -> Result<(), AllocError>
    ensures { OnOk result ((more : List ℕ) × IsDifference one.now other.now more
        × (string_bytes text.new ≡ string_bytes text.old ++ more)) }
{
    if one == other {
        text.push_str("-- equal\n")?;
        return Ok(());
    }
    let lines = lines_of(alloc, one)?;
    let beside = lines_of(alloc, other)?;
    let place = first_apart(lines.as_slice(), beside.as_slice());
    push_apart(text, lines.as_slice(), beside.as_slice(), place)?;
    Ok(())
}

// The lines of a text.
fn lines_of<'a>(alloc: Global, text: &'a str) -> Result<Vec<&'a str>, AllocError>
    ensures { IfOk result (λ found. map (λ line. line.now) found.items ≡ lines text.now) }
{
    let mut found = Vec::new(alloc);
    for line in text.lines() {
        found.push(line)?;
    }
    Ok(found)
}

/// The first place at which two lists of lines differ, or where both end.
pub fn first_apart(lines: &[&str], beside: &[&str]) -> usize
    ensures { IsFirstApart (map (λ line. line.now) lines.now) (map (λ line. line.now) beside.now)
        result }
{
    for place in 0..lines.len() {
        if !are_same(line_of(lines, place), line_of(beside, place)) {
            return place;
        }
    }
    lines.len()
}

// The line at a place, where there is one.
fn line_of<'a>(lines: &[&'a str], place: usize) -> Option<&'a str>
    ensures { option_map (λ line. line.now) result
        ≡ slice_get (map (λ line. line.now) lines.now) place }
{
    lines.get(place).copied()
}

// Whether two lines are the same, where there are any.
fn are_same(line: Option<&str>, other: Option<&str>) -> bool
    ensures same { result ≡ true
        → option_map (λ line. line.now) line.entry ≡ option_map (λ line. line.now) other.entry }
    ensures apart { result ≡ false
        → option_map (λ line. line.now) line.entry ≢ option_map (λ line. line.now) other.entry }
{
    match (line, other) {
        (Some(one), Some(two)) => one == two,
        (None, None) => true,
        _ => false,
    }
}

// Adds the lines at a place of two texts, behind its number.
fn push_apart(
    text: &mut String,
    lines: &[&str],
    beside: &[&str],
    place: usize,
) -> Result<(), AllocError>
    requires { place ≤ length lines.now }
    ensures { OnOk result (string_bytes text.new
        ≡ string_bytes text.old
        ++ apart_text (map (λ line. line.now) lines.now) (map (λ line. line.now) beside.now)
        place) }
{
    let number = place + 1;
    writeln!(text, "-- line {number} differs")?;
    push_line_at(text, lines, place)?;
    push_line_at(text, beside, place)
}

// Adds the line at a place, an empty one where there is none.
fn push_line_at(text: &mut String, lines: &[&str], place: usize) -> Result<(), AllocError>
    ensures { OnOk result (string_bytes text.new
        ≡ string_bytes text.old ++ line_at (map (λ line. line.now) lines.now) place) }
{
    if let Some(line) = lines.get(place) {
        text.push_str(line)?;
    }
    text.push_str("\n")?;
    Ok(())
}

/// The text of where two traces part: whether the worlds agree, the first step in which the lists differ, and the lines that differ.
pub fn text_of_parting(
    alloc: Global,
    parting: &Parting,
    place: Option<Place>,
    runs: (usize, usize),
) -> Result<String, AllocError>
    ensures { IfOk result (λ text. IsPartingText parting.now place runs.0 runs.1 (string_bytes
        text)) }
{
    let mut text = String::new(alloc);
    push_agreement(&mut text, parting, runs)?;
    push_place(&mut text, place)?;
    push_lines_of(alloc, &mut text, parting)?;
    Ok(text)
}

// Adds whether the worlds agree.
fn push_agreement(
    text: &mut String,
    parting: &Parting,
    runs: (usize, usize),
) -> Result<(), AllocError>
    ensures { OnOk result (string_bytes text.new
        ≡ string_bytes text.old ++ agreement_line parting.now runs.0 runs.1) }
{
    match parting {
        Parting::None(count) => writeln!(text, "worlds agree after each of {count} runs"),
        Parting::Longer(count) => {
            let (one, other) = runs;
            writeln!(
                text,
                "worlds agree after each of {count} runs, of {one} and {other}"
            )
        }
        Parting::After(run, _, _) => writeln!(text, "worlds differ after run {run}"),
    }
}

/// Adds the first step in which the lists of two traces differ.
pub fn push_place(text: &mut String, place: Option<Place>) -> Result<(), AllocError>
    ensures { OnOk result (string_bytes text.new ≡ string_bytes text.old ++ place_line place) }
{
    let Some(place) = place else {
        text.push_str("lists are the same\n")?;
        return Ok(());
    };
    let (run, step) = (place.run, place.step);
    write!(text, "lists differ in run {run} step {step}: ")?;
    push_step(text, place.one)?;
    text.push_str(" | ")?;
    push_step(text, place.other)?;
    text.push_str("\n")?;
    Ok(())
}

// Adds a step, as a trace spells it, or that there is none.
fn push_step(text: &mut String, step: Option<Step>) -> Result<(), AllocError>
    ensures { OnOk result (string_bytes text.new ≡ string_bytes text.old ++ step_or_none step) }
{
    match step {
        Some(step) => {
            let line = Line::Take(step);
            write!(text, "{line}")
        }
        None => {
            text.push_str("none")?;
            Ok(())
        }
    }
}

/// Adds the lines in which two worlds differ, where they do.
pub fn push_lines_of(alloc: Global, text: &mut String, parting: &Parting) -> Result<(), AllocError>
    ensures { OnOk result ((more : List ℕ) × IsApartBy parting.now more
        × (string_bytes text.new ≡ string_bytes text.old ++ more)) }
{
    if let Parting::After(_, one, other) = parting {
        push_lines(alloc, text, one.as_str(), other.as_str())?;
    }
    Ok(())
}

// Adds the lines in which two texts differ: `-` before those of the first, `+` before those of the second. Lines of entities go by their indices.
fn push_lines(alloc: Global, text: &mut String, one: &str, other: &str) -> Result<(), AllocError>
    ensures { OnOk result ((more : List ℕ) × IsApart one.now other.now more
        × (string_bytes text.new ≡ string_bytes text.old ++ more)) }
{
    let lines = lines_of(alloc, one)?;
    let beside = lines_of(alloc, other)?;
    push_rows(text, lines.as_slice(), beside.as_slice())?;
    Ok(())
}

// Adds what the rows of two lists of lines tell.
fn push_rows(text: &mut String, lines: &[&str], beside: &[&str]) -> Result<(), AllocError>
    ensures { OnOk result ((more : List ℕ)
        × AreRows (map (λ line. line.now) lines.now) (map (λ line. line.now) beside.now) more
        × (string_bytes text.new ≡ string_bytes text.old ++ more)) }
{
    let mut at = 0;
    let mut beside_at = 0;
    while at < lines.len() || beside_at < beside.len() {
        let (one, two) = row_of(line_of(lines, at), line_of(beside, beside_at));
        push_row(text, one, two)?;
        at = behind(at, one);
        beside_at = behind(beside_at, two);
    }
    Ok(())
}

// Adds what a row says.
fn push_row(text: &mut String, one: Option<&str>, two: Option<&str>) -> Result<(), AllocError>
    ensures { OnOk result (string_bytes text.new
        ≡ string_bytes text.old
        ++ row_text (
          option_map (λ line. line.now) one.entry,
          option_map (λ line. line.now)
              two.entry,
        )) }
{
    if is_same_line(one, two) {
        return Ok(());
    }
    push_marked(text, "- ", one)?;
    push_marked(text, "+ ", two)
}

// Whether both lines are there, and the same.
fn is_same_line(line: Option<&str>, other: Option<&str>) -> bool
    ensures { result
        ≡ is_same (option_map (λ line. line.now) line.entry) (option_map (λ line. line.now)
        other.entry) }
{
    match (line, other) {
        (Some(one), Some(two)) => one == two,
        _ => false,
    }
}

// Adds a line with a mark, where there is one.
fn push_marked(text: &mut String, mark: &str, line: Option<&str>) -> Result<(), AllocError>
    ensures { OnOk result (string_bytes text.new
        ≡ string_bytes text.old
        ++ marked_line mark.now (option_map (λ line. line.now) line.entry)) }
{
    match line {
        Some(line) => writeln!(text, "{mark}{line}"),
        None => Ok(()),
    }
}

// The place behind a line, where there is one.
fn behind(place: usize, line: Option<&str>) -> usize
    requires { place < usize.MAX }
    ensures { result ≡ place + length (option_to_list (option_map (λ line. line.now) line.entry)) }
{
    match line {
        Some(_) => place + 1,
        None => place,
    }
}

// The row that is next: the line of the lower entity, and both where they are of one, or of none.
fn row_of<'a>(line: Option<&'a str>, other: Option<&'a str>) -> (Option<&'a str>, Option<&'a str>)
    ensures one { IsSideOf line.entry result.0 }
    ensures two { IsSideOf other.entry result.1 }
    ensures some { is_some line.entry || is_some other.entry ≡ true
        → is_some result.0 || is_some result.1 ≡ true }
    ensures placed { IsInPlace (option_map (λ line. line.now) result.0)
        (option_map (λ line. line.now) result.1) (option_map (λ line. line.now) line.entry)
        (option_map (λ line. line.now) other.entry) }
{
    match (line, other) {
        (Some(one), Some(two)) => row_of_both(one, two),
        _ => (line, other),
    }
}

// The same of lines that are there.
fn row_of_both<'a>(one: &'a str, two: &'a str) -> (Option<&'a str>, Option<&'a str>)
    ensures one { IsSideOf (Some one.entry) result.0 }
    ensures two { IsSideOf (Some two.entry) result.1 }
    ensures some { is_some result.0 || is_some result.1 ≡ true }
    ensures placed { IsInPlace (option_map (λ line. line.now) result.0)
        (option_map (λ line. line.now) result.1) (Some one.now) (Some two.now) }
{
    match (entity_of(one), entity_of(two)) {
        (None, Some(_)) => (None, Some(two)),
        (Some(_), None) => (Some(one), None),
        (Some(entity), Some(counterpart)) if entity < counterpart => (Some(one), None),
        (Some(entity), Some(counterpart)) if counterpart < entity => (None, Some(two)),
        _ => (Some(one), Some(two)),
    }
}

// The index of the entity that a line of a world is of.
fn entity_of(line: &str) -> Option<u32>
    ensures entity { IfSome result (λ index. IsOfEntity index line.now) }
    ensures none { IfNone result ((index : ℕ) → IsOfEntity index line.now → ⊥) }
{
    match line.split_once('v') {
        Some((index, _)) => index.parse::<u32>().ok(),
        None => None,
    }
}
