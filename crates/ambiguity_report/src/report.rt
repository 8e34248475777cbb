// The report: each two that race, and whether a schedule is settled.

ghost use Rattle.std.specs.Prelude.{◌≡◌, ◌<◌, ◌+◌, ◌↔◌, ℕ, true, length, Some, IfOk, OnOk, MatchOption, IsTrue};
ghost use Rattle.std.specs.Option.{is_some};
ghost use Rattle.model.specs.access.Conflict.{IsLeastDatum};
ghost use Rattle.model.specs.steps.Schedule.{params_of};
ghost use Rattle.model.specs.steps.Ambiguity.{HasNoFilter, Settled};
ghost use Rattle.access_set.specs.Datum.{datum_of};
ghost use Rattle.ambiguity_report.specs.declared.races.Racer.{Racer};
ghost use Rattle.ambiguity_report.specs.declared.races.Racer.TheVariants.{System, Condition};
ghost use Rattle.ambiguity_report.specs.Paths.{ArePaths, AreAllPaths};
ghost use Rattle.ambiguity_report.specs.Races.{IsKnown, IsRace, access_of_racer};
ghost use Rattle.ambiguity_report.specs.Report.{IsReport, IsReportTo};

use crate::before::{Paths, all_paths, paths_of};
pub use crate::races::Racer;
use access_set::Datum;
use access_set::datum::why;
use schedule_builder::Built;
use std::alloc::{AllocError, Global};

/// A system and what races with it, and the least datum on which they conflict. The lower of two systems comes first.
#[derive(Clone, Copy, PartialEq, Eq, Debug)]
pub struct Pair {
    /// What races with the system.
    pub first: Racer,
    /// The number of the system.
    pub second: u32,
    /// What both touch and one writes.
    pub datum: Datum,
    /// Whether the two are systems that are declared to be ambiguous with one another.
    pub silenced: bool,
}

/// The pairs of systems that conflict with neither before the other. Then those of a condition and a system that
/// conflict. The system is no member of the condition, nor before every member, nor after any. Each pair comes once,
/// in rising order of its numbers. Fails only for a failed allocation.
pub fn report(alloc: Global, built: &Built) -> Result<Vec<Pair>, AllocError>
    ensures { IfOk result (λ pairs. IsReport built.now pairs.items) }
{
    let all = all_paths(alloc, built)?;
    let mut pairs = Vec::new(alloc);
    for system in 0..built.count() {
        add_pairs(&mut pairs, built, Racer::System(system), all.as_slice())?;
    }
    for condition in 0..built.condition_count() {
        add_pairs(
            &mut pairs,
            built,
            Racer::Condition(condition),
            all.as_slice(),
        )?;
    }
    Ok(pairs)
}

/// Whether a schedule is settled: nothing races with any of its systems. Where a system has commands, no query of a
/// system or condition may have an `added` or `changed` term either.
pub fn is_settled(built: &Built) -> bool
    ensures { IsTrue result ↔ Settled built.now }
{
    if has_races(built) {
        return false;
    }
    if !has_spawners(built) {
        return true;
    }
    is_unfiltered(built)
}

// Whether something races with a system.
fn has_races(built: &Built) -> bool
    ensures { IsTrue result
        ↔ ((n : ℕ) × (n < length built.now.systems)
        × ((first : Racer) × IsRace built.now first n)) }
{
    for system in 0..built.count() {
        if has_race(built, system) {
            return true;
        }
    }
    false
}

// Whether a system has commands.
fn has_spawners(built: &Built) -> bool
    ensures { IsTrue result
        ↔ ((n : ℕ) × (n < length built.now.systems)
        × (is_some (params_of built.now n).spawns ≡ true)) }
{
    for system in 0..built.count() {
        if built.params(system).spawns().is_some() {
            return true;
        }
    }
    false
}

/// Whether no query of a system or condition has an `added` or `changed` term.
pub fn is_unfiltered(built: &Built) -> bool
    ensures { IsTrue result ↔ HasNoFilter built.now }
{
    for system in 0..built.count() {
        if built.params(system).has_filter() {
            return false;
        }
    }
    for condition in 0..built.condition_count() {
        if built.condition(condition).access().has_filter() {
            return false;
        }
    }
    true
}

// Adds the pairs of what races with systems, where those ahead of it are there.
fn add_pairs(
    pairs: &mut Vec<Pair>,
    built: &Built,
    first: Racer,
    all: &[Paths],
) -> Result<(), AllocError>
    requires known { IsKnown built.now first }
    requires paths { AreAllPaths built.now (length built.now.systems) all.now }
    requires ahead { IsReportTo built.now first 0 pairs.old.items }
    ensures { OnOk result (IsReportTo built.now first (length built.now.systems) pairs.new.items) }
{
    for second in 0..built.count() {
        add_pair(pairs, built, first, second, &all[second as usize])?;
    }
    Ok(())
}

// Adds a pair where it races with the system of these paths.
fn add_pair(
    pairs: &mut Vec<Pair>,
    built: &Built,
    first: Racer,
    second: u32,
    paths: &Paths,
) -> Result<(), AllocError>
    requires first { IsKnown built.now first }
    requires second { second < length built.now.systems }
    requires paths { ArePaths built.now second paths.now }
    requires ahead { IsReportTo built.now first second pairs.old.items }
    ensures { OnOk result (IsReportTo built.now first (second + 1) pairs.new.items) }
{
    if let Some(datum) = datum_between(built, first, second, paths) {
        let pair = Pair {
            first,
            second,
            datum,
            silenced: first.is_silenced(built, second),
        };
        pairs.push(pair)?;
        return Ok(());
    }
    Ok(())
}

// The least datum on which it conflicts with the system of these paths, where they race.
fn datum_between(built: &Built, first: Racer, second: u32, paths: &Paths) -> Option<Datum>
    requires first { IsKnown built.now first }
    requires second { second < length built.now.systems }
    requires paths { ArePaths built.now second paths.now }
    ensures { MatchOption result
        (IsRace built.now first second → ⊥)
        (λ datum. IsRace built.now first second
        × IsLeastDatum (access_of_racer built.now first) (params_of built.now second)
        (Some (datum_of datum))) }
{
    if first.is_racing(built, second, paths) {
        let one = first.access(built);
        let other = built.params(second);
        return why(one, other);
    }
    None
}

// Whether a system races with one below it, or with a condition.
fn has_race(built: &Built, system: u32) -> bool
    requires { system < length built.now.systems }
    ensures { IsTrue result ↔ ((first : Racer) × IsRace built.now first system) }
{
    let paths = paths_of(built, system);
    if has_race_below(built, system, &paths) {
        return true;
    }
    has_race_with_condition(built, system, &paths)
}

// Whether the system of these paths races with one below it.
fn has_race_below(built: &Built, system: u32, paths: &Paths) -> bool
    requires known { system < length built.now.systems }
    requires paths { ArePaths built.now system paths.now }
    ensures { IsTrue result ↔ ((m : ℕ) × IsRace built.now (System m) system) }
{
    for first in 0..system {
        if Racer::System(first).is_racing(built, system, paths) {
            return true;
        }
    }
    false
}

// Whether the system of these paths races with a condition.
fn has_race_with_condition(built: &Built, system: u32, paths: &Paths) -> bool
    requires known { system < length built.now.systems }
    requires paths { ArePaths built.now system paths.now }
    ensures { IsTrue result ↔ ((c : ℕ) × IsRace built.now (Condition c) system) }
{
    for condition in 0..built.condition_count() {
        if Racer::Condition(condition).is_racing(built, system, paths) {
            return true;
        }
    }
    false
}
