// Where two records of one file part: in their requests, in the steps of their runs, and in the worlds that their entries leave.

ghost use Rattle.std.specs.Prelude.{◌≡◌, ◌<◌, ◌^◌, flat_map, length, map, slice_get, Some, IfOk, MatchOption, OnOk, string_bytes};
ghost use Rattle.engine.specs.Meanings.{AreFit};
ghost use Rattle.findings.specs.Parting.{IsPartingBy};
ghost use Rattle.program.specs.Setup.{meanings_of_scripts, script_suits};
ghost use Rattle.session.specs.Live.{state_in};
ghost use Rattle.session.specs.Records.{traces_in};
ghost use Rattle.session_records.specs.Diverging.{AreAllRetaken, IsDivergence, IsRetaken, status_of as told_status};

use crate::reading::entries_of;
use crate::texts::{push_agreement, push_requests};
use executor_core::Trace;
use findings::diverging::{Parting, first_difference, told_behind};
use findings::texts::{push_lines_of, push_place};
use script::ScriptBody;
use session::entry::{Deed, Entry};
use session::replaying::{begin_again, redo};
use session::{RecordFault, Session};
use std::alloc::{AllocError, Global};

/// A session that takes the entries of a record again, with the bodies for its runs.
#[derive(Drop)]
pub struct Retaker {
    /// The session, in the state from which the record goes on.
    pub session: Session<ScriptBody>,
    /// The bodies, one for each system.
    pub bodies: Vec<ScriptBody>,
}

/// Where two records part, each taken again by a session of its own, entry for entry, the first record's first: the first entry after which the
/// worlds differ, the first whose requests differ, the first step in which their runs differ, and the lines in which the worlds differ. The
/// status is 0 where the worlds agree and both have as many entries, and else 1.
pub fn divergence_of(
    alloc: Global,
    one: Retaker,
    journal: &[u8],
    other: Retaker,
    beside: &[u8],
) -> Result<(String, u8), RecordFault>
    ensures { IfOk result (λ told. IsDivergence one other journal.now beside.now told.1
        (string_bytes told.0)) }
{
    let front = begin_again(alloc, &one.session, one.bodies.as_slice(), journal)?;
    let front_beside = begin_again(alloc, &other.session, other.bodies.as_slice(), beside)?;
    let entries = entries_of(alloc, front)?.items;
    let others = entries_of(alloc, front_beside)?.items;
    let (shown, shown_beside) = (entries.as_slice(), others.as_slice());
    let parting = parting_of(alloc, one, other, shown, shown_beside)?;
    let mut text = String::new(alloc);
    push_agreement(&mut text, &parting, (shown.len(), shown_beside.len()))?;
    push_requests(alloc, &mut text, shown, shown_beside)?;
    let (runs, runs_beside) = (runs_of(alloc, entries)?, runs_of(alloc, others)?);
    push_place(
        &mut text,
        first_difference(runs.as_slice(), runs_beside.as_slice()),
    )?;
    push_lines_of(alloc, &mut text, &parting)?;
    Ok((text, status_of(&parting)))
}

// The status, by the first entry after which the worlds differ.
fn status_of(parting: &Parting) -> u8
    ensures { result ≡ told_status parting.now }
{
    match parting {
        Parting::None(_) => 0,
        Parting::Longer(_) | Parting::After(..) => 1,
    }
}

// The first entry after which the worlds of two records differ. All entries of both are taken again.
fn parting_of(
    alloc: Global,
    one: Retaker,
    other: Retaker,
    entries: &[Entry<'_>],
    others: &[Entry<'_>],
) -> Result<Parting, RecordFault>
    requires fit { AreFit script_suits one.session.engine.schedule (map Some one.bodies.items) }
    requires fit_beside { AreFit script_suits other.session.engine.schedule (map Some
        other.bodies.items) }
    requires few { length entries.now < 2 ^ 32 }
    ensures parting { IfOk result (IsPartingBy
        (IsRetaken (meanings_of_scripts one.session.engine.schedule one.bodies.items))
        (IsRetaken (meanings_of_scripts other.session.engine.schedule other.bodies.items))
        state_in 0 one.session other.session entries.now others.now) }
    ensures taken { OnOk result (AreAllRetaken (meanings_of_scripts one.session.engine.schedule
        one.bodies.items) one.session entries.now) }
    ensures beside { OnOk result (AreAllRetaken (meanings_of_scripts
        other.session.engine.schedule other.bodies.items) other.session others.now) }
{
    let Retaker {
        mut session,
        mut bodies,
    } = one;
    let Retaker {
        session: mut session_beside,
        bodies: mut bodies_beside,
    } = other;
    let scripts = bodies.as_mut_slice();
    let scripts_beside = bodies_beside.as_mut_slice();
    let both = entries.len().min(others.len());
    let mut told = None;
    for place in 0..entries.len().max(others.len()) {
        take(alloc, &mut session, scripts, entries, place)?;
        take(alloc, &mut session_beside, scripts_beside, others, place)?;
        let (left, beside) = (session.engine().state(), session_beside.engine().state());
        told = match told_behind(alloc, told, place, both, left, beside) {
            Ok(told) => told,
            Err(_) => return Err(RecordFault::Memory),
        };
    }
    Ok(told.unwrap_or(Parting::None(entries.len())))
}

// Takes the entry at a place again, where there is one.
fn take(
    alloc: Global,
    session: &mut Session<ScriptBody>,
    bodies: &mut [ScriptBody],
    entries: &[Entry<'_>],
    place: usize,
) -> Result<(), RecordFault>
    requires { AreFit script_suits session.old.engine.schedule (map Some bodies.old) }
    ensures taken { OnOk result (MatchOption (slice_get entries.now place)
        (session.new ≡ session.old)
        (λ read. IsRetaken (meanings_of_scripts session.old.engine.schedule bodies.old)
        session.old read session.new)) }
    ensures schedule { OnOk result (session.new.engine.schedule ≡ session.old.engine.schedule) }
    ensures fit { OnOk result (AreFit script_suits session.old.engine.schedule (map Some bodies.new)) }
    ensures meanings { OnOk result (meanings_of_scripts session.old.engine.schedule bodies.new
        ≡ meanings_of_scripts session.old.engine.schedule bodies.old) }
{
    let Some(entry) = entries.get(place) else {
        return Ok(());
    };
    let mut told = String::new(alloc);
    match redo(alloc, session, bodies, entry, &mut told) {
        Ok(()) => Ok(()),
        Err(fault) => Err(RecordFault::at_entry(place.saturating_add(1), fault)),
    }
}

// The traces of all that these entries ran, in order.
fn runs_of(alloc: Global, entries: Vec<Entry<'_>>) -> Result<Vec<Trace>, AllocError>
    ensures { IfOk result (λ runs. runs.items
        ≡ flat_map (λ entry. traces_in entry.deed) entries.entry.items) }
{
    let mut runs = Vec::new(alloc);
    for entry in entries {
        let Entry {
            line: _,
            deed,
            told: _,
        } = entry;
        match deed {
            Deed::Does(_request, mut traces) => runs.append(&mut traces)?,
            Deed::Loads(_load, _text) => {}
        }
    }
    Ok(runs)
}
