// Records taken again: requests by the session, runs by their traces.

ghost use Rattle.std.specs.Prelude.{◌≡◌, ◌++◌, true, false, length, map, string_bytes, IfOk, IfSome, IsTrue, OnOk, Some};
ghost use Rattle.engine.specs.Meanings.{AreFit, Suits, meanings};
ghost use Rattle.model.specs.sessions.Sessions.{AreReplayedRuns};
ghost use Rattle.requests.specs.Asked.{Asked as asked};
ghost use Rattle.session.specs.Entries.{is_done};
ghost use Rattle.session.specs.Live.{is_lost};
ghost use Rattle.session.specs.Records.{HasTakenAs, IsRedone, IsReadEntry, IsTakenAgain, IsTakenAs, head_line};

use crate::entry::{Deed, Entry, head_of, read_entry};
use crate::play::{is_recorded, spell};
use crate::record_fault::{EntryFault, RecordFault};
use crate::reply::{Answered, Refusal, Reply, Shown};
use crate::session::Session;
use body::{Body, State};
use engine::SetFault;
use engine::fitting::check_parts;
use executor_core::Trace;
use requests::Request;
use schedule_builder::Built;
use std::alloc::{AllocError, Global};
use std::io::Write;
use streams::writing::write_whole;
use trace_checker::Checker;
use trace_checker::replay::replay_by;

/// How far a record was taken again.
#[derive(Clone, Copy, PartialEq, Eq, Debug)]
pub struct Taken<'a> {
    /// How many entries.
    pub entries: usize,
    /// What is left behind them: an entry that is cut short, or nothing.
    pub rest: &'a [u8],
}

/// The first line of a record of a session.
pub fn head_of_record<B: Body>(alloc: Global, session: &Session<B>) -> Result<String, AllocError>
    ensures { IfOk result (λ head. string_bytes head ≡ head_line session.now.file) }
{
    head_of(alloc, session.file)
}

/// Takes the entries of a record again, one by one, and writes what is replied to each. Requests are answered by the session, and runs are taken
/// again by these bodies, one thread and the recorded order. Each is to be replied as it was. The session is then in the state that the record led
/// to. The first entry that is refused, or replied otherwise, ends it; one that is cut short is left, as the last one is where a program was
/// stopped while it wrote.
pub fn replay_record<'a, B: Body, O: Write>(
    alloc: Global,
    session: &mut Session<B>,
    bodies: &mut [B],
    journal: &'a [u8],
    out: &mut O,
) -> Result<Taken<'a>, RecordFault>
    ensures { IfOk result (λ taken. IsTakenAgain B.meaning (meanings B.meaning
        session.old.engine.schedule (map Some bodies.old)) session.old session.new journal.now
        taken.rest.now (O.contents out.old) (O.contents out.new)) }
{
    let mut rest = begin_again(alloc, session, bodies, journal)?;
    let mut text = String::new(alloc);
    for entries in 0..usize::MAX {
        let Some((entry, behind)) = next_entry(alloc, rest, entries)? else {
            return Ok(Taken { entries, rest });
        };
        if let Err(fault) = redo(alloc, session, bodies, &entry, &mut text) {
            return Err(RecordFault::at_entry(entries + 1, fault));
        }
        write_whole(out, text.as_str())?;
        rest = behind;
    }
    let entries = usize::MAX;
    Ok(Taken { entries, rest })
}

/// What stands behind the first line of a record that these bodies are to take again. `Bodies` where they aren't those
/// of the schedule, or the state of the session is lost; `File` where the first line is another than that of its file.
pub fn begin_again<'a, B: Body>(
    alloc: Global,
    session: &Session<B>,
    bodies: &[B],
    journal: &'a [u8],
) -> Result<&'a [u8], RecordFault>
    ensures behind { IfOk result (λ rest. journal.now ≡ head_line session.now.file ++ rest.now) }
    ensures there { OnOk result (is_lost session.now ≡ false) }
    ensures fit { OnOk result (AreFit B.fits session.now.engine.schedule (map Some bodies.now)) }
{
    if session.engine.is_spoiled() || !fit(session, bodies) {
        return Err(RecordFault::Bodies);
    }
    let head = head_of(alloc, session.file)?;
    let Some((front, rest)) = journal.split_at_checked(head.len()) else {
        return Err(RecordFault::File);
    };
    if front != head.as_bytes() {
        return Err(RecordFault::File);
    }
    Ok(rest)
}

/// The entry behind so many others, and what stands behind it. None where the text ends, before it or within it.
pub fn next_entry(
    alloc: Global,
    text: &[u8],
    before: usize,
) -> Result<Option<(Entry<'_>, &[u8])>, RecordFault>
    ensures { IfOk result (λ found. IfSome found (λ read. IsReadEntry text.now read.0 read.1.now)) }
{
    if text.is_empty() {
        return Ok(None);
    }
    match read_entry(alloc, text) {
        Ok(read) => Ok(Some(read)),
        Err(EntryFault::Cut) => Ok(None),
        Err(fault) => Err(RecordFault::at_entry(before.saturating_add(1), fault)),
    }
}

// Whether these bodies are those of the schedule.
fn fit<B: Body>(session: &Session<B>, bodies: &[B]) -> bool
    ensures { IsTrue result → AreFit B.fits session.now.engine.schedule (map Some bodies.now) }
{
    let engine = &session.engine;
    check_parts(engine.schedule(), bodies, engine.state()).is_ok()
}

/// Takes an entry again, and spells what is replied into `told`. A run is taken again by these bodies, one thread and the recorded order; all else
/// is answered by the session. It is to be replied as it was.
pub fn redo<B: Body>(
    alloc: Global,
    session: &mut Session<B>,
    bodies: &mut [B],
    entry: &Entry<'_>,
    told: &mut String,
) -> Result<(), EntryFault>
    requires { AreFit B.fits session.old.engine.schedule (map Some bodies.old) }
    ensures taken { OnOk result (HasTakenAs B.meaning (meanings B.meaning
        session.old.engine.schedule (map Some bodies.old)) session.old session.new entry.now
        (string_bytes told.new)) }
    ensures schedule { OnOk result (session.new.engine.schedule ≡ session.old.engine.schedule) }
    ensures fit { OnOk result (AreFit B.fits session.old.engine.schedule (map Some bodies.new)) }
    ensures meanings { OnOk result (meanings B.meaning session.old.engine.schedule (map Some
        bodies.new)
        ≡ meanings B.meaning session.old.engine.schedule (map Some bodies.old)) }
{
    let reply = take(alloc, session, bodies, &entry.deed)?;
    spell(told, &reply)?;
    if told.as_bytes() != entry.told {
        return Err(EntryFault::Reply);
    }
    Ok(())
}

// Does what is recorded again.
fn take<B: Body>(
    alloc: Global,
    session: &mut Session<B>,
    bodies: &mut [B],
    deed: &Deed<'_>,
) -> Result<Reply, EntryFault>
    requires { AreFit B.fits session.old.engine.schedule (map Some bodies.old) }
    ensures taken { IfOk result (λ reply. IsTakenAs B.meaning (meanings B.meaning
        session.old.engine.schedule (map Some bodies.old)) session.old deed.now reply session.new
        × (is_done reply ≡ true)) }
    ensures schedule { IfOk result (λ reply. session.new.engine.schedule
        ≡ session.old.engine.schedule) }
    ensures fit { IfOk result (λ reply. AreFit B.fits session.old.engine.schedule (map Some
        bodies.new)) }
    ensures meanings { IfOk result (λ reply. meanings B.meaning session.old.engine.schedule (map
        Some bodies.new)
        ≡ meanings B.meaning session.old.engine.schedule (map Some bodies.old)) }
{
    match deed {
        Deed::Does(Request::Run(times), traces) => {
            if traces.len() != *times as usize {
                return Err(EntryFault::Count);
            }
            session.retake(alloc, bodies, traces.as_slice())
        }
        Deed::Does(request, traces) => {
            if !is_recorded(request) {
                return Err(EntryFault::Unknown);
            }
            if !traces.is_empty() {
                return Err(EntryFault::Count);
            }
            let Answered { reply, runs: _ } = session.answer_here(alloc, request);
            done(reply)
        }
        Deed::Loads(load, text) => done(session.load(alloc, *load, text)),
    }
}

// A reply to what is done.
fn done(reply: Reply) -> Result<Reply, EntryFault>
    ensures done { IfOk result (λ same. (same ≡ reply) × (is_done same ≡ true)) }
{
    match reply {
        Reply::Refused(why) => Err(EntryFault::Refused(why)),
        Reply::Failed => Err(EntryFault::Memory),
        Reply::Lost(_) => Err(EntryFault::Unknown),
        done => Ok(done),
    }
}

impl<B: Body> Session<B> {
    // Takes recorded runs again by these bodies, from the state as it is.
    fn retake(
        &mut self,
        alloc: Global,
        bodies: &mut [B],
        traces: &[Trace],
    ) -> Result<Reply, EntryFault>
        requires { AreFit B.fits self.old.engine.schedule (map Some bodies.old) }
        ensures taken { IfOk result (λ reply. IsRedone B.meaning (meanings B.meaning
            self.old.engine.schedule (map Some bodies.old)) self.old (asked.Run (length traces.now))
            traces.now reply self.new) }
        ensures done { IfOk result (λ reply. is_done reply ≡ true) }
        ensures schedule { self.new.engine.schedule ≡ self.old.engine.schedule }
        ensures fit { IfOk result (λ done. AreFit B.fits self.old.engine.schedule (map Some
            bodies.new)) }
        ensures meanings { meanings B.meaning self.old.engine.schedule (map Some bodies.new)
            ≡ meanings B.meaning self.old.engine.schedule (map Some bodies.old) }
    {
        if self.engine.is_spoiled() {
            return Err(EntryFault::Refused(Refusal::Lost));
        }
        let state = self.engine.take_state(alloc);
        let state = replay_runs(alloc, self.engine.schedule(), bodies, state, traces)?;
        match self.engine.set_state(alloc, state) {
            Ok(()) => Ok(self.done(Shown::Nothing)),
            Err(SetFault::Memory) => Err(EntryFault::Memory),
            Err(SetFault::Count) => unreachable!(),
            Err(SetFault::Bodies) => unreachable!(),
        }
    }
}

// Takes recorded runs again, each from the state that the one before leaves.
fn replay_runs<B: Body>(
    alloc: Global,
    built: &Built,
    bodies: &mut [B],
    mut state: State,
    traces: &[Trace],
) -> Result<State, EntryFault>
    requires { Suits B.fits built.now (map Some bodies.old) state }
    ensures replayed { IfOk result (λ left. AreReplayedRuns built.now (meanings B.meaning built.now
        (map Some bodies.old)) state traces.now left) }
    ensures suits { IfOk result (λ left. Suits B.fits built.now (map Some bodies.new) left) }
    ensures meanings { meanings B.meaning built.now (map Some bodies.new)
        ≡ meanings B.meaning built.now (map Some bodies.old) }
{
    let mut checker = Checker::new(built);
    let mut number = 0;
    for trace in traces {
        number += 1;
        state = match replay_by(alloc, built, &mut checker, bodies, state, trace) {
            Ok(left) => left,
            Err(fault) => return Err(EntryFault::Run(number, fault)),
        };
    }
    Ok(state)
}
