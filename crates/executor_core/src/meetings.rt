// The rows of a core: for each system and each condition the systems that meet it.

ghost use Rattle.std.specs.Prelude.{ℕ, ◌≡◌, ◌+◌, ◌/◌, ◌<◌, ◌⊎◌, ◌↔◌, true, Some, length, IfOk};
ghost use Rattle.number_set.specs.Members.{contains};
ghost use Rattle.model.specs.access.Conflict.{Conflict};
ghost use Rattle.model.specs.access.Meeting.{Meet};
ghost use Rattle.model.specs.steps.Schedule.{params_of};
ghost use Rattle.schedule_builder.specs.Rows.{IsRow, IsRival, AreRows};
ghost use Rattle.schedule_builder.specs.Conditions.{IsClash};
ghost use Rattle.executor_core.specs.Judges.{AreRoomy};
ghost use Rattle.executor_core.specs.Meetings.{IsMeeting, IsClashing};

use access_set::Params;
use access_set::meeting::meet_in;
use number_set::NumberSet;
use schedule_builder::Built;
use std::alloc::{AllocError, Global};

/// For each system those that conflict with it.
pub(crate) fn rivals_of(alloc: Global, built: &Built) -> Result<Vec<NumberSet>, AllocError>
    ensures { IfOk result (λ rows. AreRows (length built.now.systems) (length built.now.systems)
        (IsRival built.now.systems) rows.items) }
{
    let mut rows = Vec::new(alloc);
    for number in 0..built.count() {
        rows.push(built.rivals(number).copy(alloc)?)?;
    }
    Ok(rows)
}

/// For each condition those that conflict with what it asks about.
pub(crate) fn clashes_of(alloc: Global, built: &Built) -> Result<Vec<NumberSet>, AllocError>
    ensures { IfOk result (λ rows. AreRows (length built.now.systems) (length built.now.conditions)
        (IsClash built.now.systems built.now.conditions) rows.items) }
{
    let mut rows = Vec::new(alloc);
    for number in 0..built.condition_count() {
        rows.push(built.clashes(number).copy(alloc)?)?;
    }
    Ok(rows)
}

/// Makes the rows of systems anew: those that meet each of them where these are the archetypes that are there.
pub(crate) fn renew_met(rows: &mut [NumberSet], built: &Built, sets: &[u32])
    requires { AreRoomy (length built.now.systems) (length built.now.systems) rows.old }
    ensures { AreRows (length built.now.systems) (length built.now.systems)
        (IsMeeting built.now sets.now) rows.new }
{
    for number in 0..built.count() {
        renew_row(
            &mut rows[number as usize],
            built,
            built.rivals(number),
            built.params(number),
            sets,
        );
    }
}

/// Makes the rows of conditions anew: those that meet what each of them asks about.
pub(crate) fn renew_clashed(rows: &mut [NumberSet], built: &Built, sets: &[u32])
    requires { AreRoomy (length built.now.systems) (length built.now.conditions) rows.old }
    ensures { AreRows (length built.now.systems) (length built.now.conditions)
        (IsClashing built.now sets.now) rows.new }
{
    for number in 0..built.condition_count() {
        renew_row(
            &mut rows[number as usize],
            built,
            built.clashes(number),
            built.condition(number).access(),
            sets,
        );
    }
}

// Makes a row anew: those of the rivals of an access that meet it. Where there are none no system is looked at.
fn renew_row(row: &mut NumberSet, built: &Built, rivals: &NumberSet, access: &Params, sets: &[u32])
    requires room { length row.old ≡ length built.now.systems / 64 + 1 }
    requires rivals { (m : ℕ)
        → (contains rivals.now m ≡ true)
        ↔ ((m < length built.now.systems) × Conflict (params_of built.now m) access.now) }
    ensures { IsRow (length built.now.systems)
        (λ m. (m < length built.now.systems)
        × Meet (Some sets.now) (params_of built.now m) access.now)
        row.new }
{
    if rivals.is_empty() {
        row.clear();
        return;
    }
    note_rivals(row, built, rivals, access, sets);
}

// Makes a row anew, by a look at each system.
fn note_rivals(
    row: &mut NumberSet,
    built: &Built,
    rivals: &NumberSet,
    access: &Params,
    sets: &[u32],
)
    requires room { length row.old ≡ length built.now.systems / 64 + 1 }
    requires rivals { (m : ℕ)
        → (contains rivals.now m ≡ true)
        ↔ ((m < length built.now.systems) × Conflict (params_of built.now m) access.now) }
    ensures { IsRow (length built.now.systems)
        (λ m. (m < length built.now.systems)
        × Meet (Some sets.now) (params_of built.now m) access.now)
        row.new }
{
    row.clear();
    for system in 0..built.count() {
        note_meeting(row, system, built, rivals, access, sets);
    }
}

// Makes a system a member where it is one of the rivals and meets the access.
fn note_meeting(
    row: &mut NumberSet,
    system: u32,
    built: &Built,
    rivals: &NumberSet,
    access: &Params,
    sets: &[u32],
)
    requires known { system < length built.now.systems }
    requires room { length row.old ≡ length built.now.systems / 64 + 1 }
    ensures room { length row.new ≡ length row.old }
    ensures members { (m : ℕ)
        → (contains row.new m ≡ true)
        ↔ ((contains row.old m ≡ true)
        ⊎ ((system ≡ m) × (contains rivals.now m ≡ true)
        × Meet (Some sets.now) (params_of built.now m) access.now)) }
{
    if !rivals.contains(system) {
        return;
    }
    if !meet_in(built.params(system), access, sets) {
        return;
    }
    row.insert(system);
}
