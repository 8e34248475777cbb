// A session played on a reader and a writer: a request a line, and a reply to each before the next is read.

ghost use Rattle.std.specs.Prelude.{ℕ, ◌≡◌, ◌++◌, List, [], if◌then◌else◌, false, string_bytes, true, IfErr, MatchOption, OnOk};
ghost use Rattle.requests.specs.Asked.{asked_of};
ghost use Rattle.parsing.specs.Reads.{SpellsOnly};
ghost use Rattle.requests.specs.Load.{IsLoad};
ghost use Rattle.session.specs.Answers.{IsAnswer};
ghost use Rattle.session.specs.Entries.{AreRunsOf, HasEntry, HaveText, entry_text, is_done, is_recorded, kept, line_entry, when_done};
ghost use Rattle.session.specs.Played.{IsLoadTurn, IsNoted, IsPlayed, IsTurn, fault_of_read};
ghost use Rattle.session.specs.Body.{IsKnownAs};
ghost use Rattle.session.specs.Plays.{IsLoadReply, IsNoLoad, IsReplied, Sent, is_quit, unasked_reply};
ghost use Rattle.session.specs.Replies.{reply_text};
ghost use Rattle.session.specs.Saved.{IsLoadAnswer};
ghost use Rattle.trace_checker.specs.Grammar.{trace_text};
ghost use Rattle.session.specs.declared.play.PlayFault.TheVariants as play_fault;

use crate::body_lines::{Follows, add_line, read_body};
use crate::reply::{Answered, Refusal, Reply};
use crate::session::Session;
use body::Body;
use engine::Crew;
use executor_core::Trace;
use requests::{Load, Request, RequestFault, read_load, read_request};
use std::alloc::{AllocError, Global};
use std::io::{BufRead, Write};
use std::str;
use streams::lines::{Line, next_line};
use streams::writing::{write_bytes, write_whole};
use streams::{ReadFault, WriteFault};
use thiserror::Error;
use trace_checker::write::text_of_traces;
use worker_pool::Mode;

/// The most bytes of a line.
pub const MOST_BYTES: u32 = 65_536;

/// Why a session ends before its host says so.
#[derive(Clone, Copy, PartialEq, Eq, Debug, Error)]
pub enum PlayFault {
    /// The requests can't be read.
    #[error("the input can't be read")]
    Read,
    /// An entry can't be recorded.
    #[error("the record can't be written")]
    Record,
    /// A reply can't be written.
    #[error("the output can't be written")]
    Write,
    /// An allocation failed for the text of a reply, or for the room of lines.
    #[error("an allocation fails")]
    Memory,
}

impl From<AllocError> for PlayFault {
    ghost from_gives = { λ _ fault. fault ≡ play_fault.Memory };

    fn from(_error: AllocError) -> Self {
        PlayFault::Memory
    }
}

impl From<ReadFault> for PlayFault {
    ghost from_gives = { λ error fault. fault ≡ fault_of_read error };

    fn from(error: ReadFault) -> Self {
        match error {
            ReadFault::Memory => PlayFault::Memory,
            ReadFault::TooLong | ReadFault::Failed => PlayFault::Read,
        }
    }
}

impl From<WriteFault> for PlayFault {
    ghost from_gives = { λ _ fault. fault ≡ play_fault.Write };

    fn from(_error: WriteFault) -> Self {
        PlayFault::Write
    }
}

/// What is replied to a line: the reply, whether it is the last one, and the traces of what it ran.
#[derive(Drop)]
pub struct Replied {
    /// The reply.
    pub reply: Reply,
    /// Whether the session ends behind it.
    pub is_last: bool,
    /// A trace for each run.
    pub runs: Vec<Trace>,
}

impl Replied {
    // What a line came to for which nothing was run, and which ends no session.
    fn plain(alloc: Global, reply: Reply) -> Self
        ensures reply { result.reply ≡ reply }
        ensures goes_on { result.is_last ≡ false }
        ensures none { result.runs.items ≡ [] }
    {
        Replied {
            reply,
            is_last: false,
            runs: Vec::new(alloc),
        }
    }
}

// What a session keeps from line to line: its workers, and the room of the lists of a line and of an entry.
struct Room<B: Body> {
    alloc: Global,
    crew: Crew<B>,
    line: Vec<u8>,
    entry: Vec<u8>,
}

/// Plays a session. It reads requests, a line each and behind a `load` as many as it says. It writes the reply to
/// each, whole and in one call where the writer takes it, before it reads the next one. It ends behind `quit`, or
/// where the input ends. A last line without its end is not done, nor is a `load` behind which lines are wanting.
/// Where a record is kept, each request that changed something is recorded before its reply is written, with the
/// traces of its runs and its reply, and so is each digest. Workers live from the first run until the session ends.
pub fn play<'s, B: Body + 's, M: Mode<'s>, R: BufRead, O: Write, J: Write>(
    alloc: Global,
    session: &mut Session<B>,
    mode: &M,
    requests: &mut R,
    out: &mut O,
    journal: &mut Option<J>,
) -> Result<(), PlayFault>
    ensures { IsPlayed B.meaning (M.has_scope mode.now) (M.width mode.now) session.old session.new
        (record {
          input = R.remaining requests.old;
          output = O.contents out.old;
          recorded = kept J.contents journal.old;
        })
        (record {
          input = R.remaining requests.new;
          output = O.contents out.new;
          recorded = kept J.contents journal.new;
        }) result }
{
    let mut room = Room {
        alloc,
        crew: Crew::new(),
        line: Vec::new(alloc),
        entry: Vec::new(alloc),
    };
    let played = play_by(session, mode, &mut room, requests, out, journal);
    let Room {
        alloc: _,
        crew,
        line: _,
        entry: _,
    } = room;
    crew.end(mode);
    played
}

// Plays a session, its runs by a crew.
fn play_by<'s, B: Body + 's, M: Mode<'s>, R: BufRead, O: Write, J: Write>(
    session: &mut Session<B>,
    mode: &M,
    room: &mut Room<B>,
    requests: &mut R,
    out: &mut O,
    journal: &mut Option<J>,
) -> Result<(), PlayFault>
    ensures { IsPlayed B.meaning (M.has_scope mode.now) (M.width mode.now) session.old session.new
        (record {
          input = R.remaining requests.old;
          output = O.contents out.old;
          recorded = kept J.contents journal.old;
        })
        (record {
          input = R.remaining requests.new;
          output = O.contents out.new;
          recorded = kept J.contents journal.new;
        }) result }
{
    room.line.reserve(MOST_BYTES as usize + 1)?;
    let mut text = String::new(room.alloc);
    for _ in 0..u64::MAX {
        let recorded = journal.is_some();
        let Some(turn) = turn(session, mode, room, requests, recorded)? else {
            return Ok(());
        };
        spell(&mut text, &turn.reply)?;
        note(
            room.alloc,
            journal,
            &mut room.entry,
            turn.runs.as_slice(),
            text.as_str(),
        )?;
        write_whole(out, text.as_str())?;
        if turn.is_last {
            return Ok(());
        }
    }
    Err(PlayFault::Read)
}

// Reads the next line, in the room of a list, and acts on it. Its entry, up to the traces of what it ran, is in the room of another, where a
// record is kept. None at the end of the lines.
fn turn<'s, B: Body + 's, M: Mode<'s>, R: BufRead>(
    session: &mut Session<B>,
    mode: &M,
    room: &mut Room<B>,
    requests: &mut R,
    recorded: bool,
) -> Result<Option<Replied>, PlayFault>
    ensures { IsTurn B.meaning (M.has_scope mode.now) (M.width mode.now) recorded
        room.new.entry.items session.old session.new (R.remaining requests.old)
        (R.remaining requests.new) result }
{
    match next_line(requests, MOST_BYTES, &mut room.line)? {
        Line::End => Ok(None),
        Line::TooLong => {
            room.entry.clear();
            Ok(Some(Replied::plain(room.alloc, Reply::Refused(Refusal::TooLong))))
        }
        Line::Whole => match load_of(room.line.as_slice()) {
            Some(load) => take_load(session, load, room, requests, recorded),
            None => Ok(Some(reply_to(session, mode, room))),
        },
    }
}

/// What a line asks to load. None where it asks for something else, or for nothing.
pub fn load_of(line: &[u8]) -> Option<Load>
    ensures { MatchOption result (IsNoLoad line.now) (SpellsOnly IsLoad line.now) }
{
    let Ok(text) = str::from_utf8(line) else {
        return None;
    };
    read_load(text)
}

// Reads the lines that follow a `load`, and acts on them. No reply where the input ends before.
fn take_load<B: Body, R: BufRead>(
    session: &mut Session<B>,
    load: Load,
    room: &mut Room<B>,
    requests: &mut R,
    recorded: bool,
) -> Result<Option<Replied>, PlayFault>
    ensures { IsLoadTurn room.old.line.items load recorded room.new.entry.items session.old
        session.new (R.remaining requests.old) (R.remaining requests.new) result }
{
    room.entry.clear();
    let begun = add_line(room.line.as_slice(), &mut room.entry);
    let mut text = Vec::new(room.alloc);
    let Some(known) = read_body(requests, load.lines, &mut room.line, &mut text)? else {
        return Ok(None);
    };
    let known = known.behind(begun);
    let reply = act_on(session, load, known, text.as_slice(), room, recorded);
    Ok(Some(Replied::plain(room.alloc, reply)))
}

// Loads a text of which this is known, and adds it to its entry, where a record is kept. What is not done has none.
fn act_on<B: Body>(
    session: &mut Session<B>,
    load: Load,
    known: Follows,
    text: &[u8],
    room: &mut Room<B>,
    recorded: bool,
) -> Reply
    ensures replied { (whole : List ℕ) → IsKnownAs known whole text.now → IsLoadReply session.old
        load whole result session.new }
    ensures done { is_done result ≡ true → known ≡ Follows.Whole }
    ensures entry { recorded ≡ true → room.new.entry.items
        ≡ when_done result (room.old.entry.items ++ text.now) }
{
    match known {
        Follows::Whole => load_text(session, load, text, room, recorded),
        Follows::Failed => {
            room.entry.clear();
            Reply::Failed
        }
        Follows::TooLong => {
            room.entry.clear();
            Reply::Refused(Refusal::LongText)
        }
    }
}

// Loads a text, and adds it to its entry, where a record is kept.
fn load_text<B: Body>(
    session: &mut Session<B>,
    load: Load,
    text: &[u8],
    room: &mut Room<B>,
    recorded: bool,
) -> Reply
    ensures loaded { IsLoadAnswer session.old load text.now result session.new }
    ensures entry { recorded ≡ true → room.new.entry.items
        ≡ when_done result (room.old.entry.items ++ text.now) }
{
    if recorded && room.entry.extend_from_slice(text).is_err() {
        room.entry.clear();
        return Reply::Failed;
    }
    let reply = session.load(room.alloc, load, text);
    keep_where(is_done(&reply), &mut room.entry);
    reply
}

// Empties an entry of what is not done.
fn keep_where(done: bool, entry: &mut Vec<u8>)
    ensures { entry.new.items ≡ if done then entry.old.items else [] }
{
    if !done {
        entry.clear();
    }
}

// Whether what was asked for is done.
fn is_done(reply: &Reply) -> bool
    ensures { result ≡ is_done reply.now }
{
    matches!(reply, Reply::Done { .. })
}

// Writes an entry into the record, if one is kept: behind it the traces of what was run, and the text of the reply. An empty one is none.
fn note<J: Write>(
    alloc: Global,
    journal: &mut Option<J>,
    entry: &mut Vec<u8>,
    runs: &[Trace],
    told: &str,
) -> Result<(), PlayFault>
    requires { HaveText runs.now }
    ensures { IsNoted (kept J.contents journal.old) (kept J.contents journal.new) (entry_text
        entry.old.items runs.now told.now) result }
{
    let Some(record) = journal else {
        return Ok(());
    };
    if entry.is_empty() {
        return Ok(());
    }
    complete(alloc, entry, runs, told)?;
    match write_bytes(record, entry.as_slice()) {
        Ok(()) => Ok(()),
        Err(_) => Err(PlayFault::Record),
    }
}

// Adds to an entry the traces of what was run, and the text of the reply.
fn complete(alloc: Global, entry: &mut Vec<u8>, runs: &[Trace], told: &str) -> Result<(), PlayFault>
    requires { HaveText runs.now }
    ensures whole { OnOk result (entry.new.items ≡ entry.old.items ++ (trace_text runs.now
        ++ told.now)) }
    ensures memory { IfErr result (λ fault. fault ≡ PlayFault.Memory) }
{
    if !runs.is_empty() {
        let Ok(text) = text_of_traces(alloc, runs, usize::MAX) else {
            return Err(PlayFault::Memory);
        };
        entry.extend_from_slice(text.as_bytes())?;
    }
    entry.extend_from_slice(told.as_bytes())?;
    Ok(())
}

// Spells a reply, in the room of a list.
pub(crate) fn spell(text: &mut String, reply: &Reply) -> Result<(), AllocError>
    ensures { OnOk result (string_bytes text.new ≡ reply_text reply.now) }
{
    text.clear();
    write!(text, "{reply}")
}

// What the line in the room of a list comes to, its runs by a crew.
fn reply_to<'s, B: Body + 's, M: Mode<'s>>(
    session: &mut Session<B>,
    mode: &M,
    room: &mut Room<B>,
) -> Replied
    ensures replied { IsReplied B.meaning (M.has_scope mode.now) (M.width mode.now) session.old
        room.old.line.items result.reply result.is_last session.new }
    ensures entry { HasEntry B.meaning (M.width mode.now) session.old (Sent.Line
        room.old.line.items) result.reply true room.new.entry.items result.runs.items session.new }
    ensures text { HaveText result.runs.items }
{
    let alloc = room.alloc;
    room.entry.clear();
    let Ok(line) = str::from_utf8(room.line.as_slice()) else {
        return Replied::plain(alloc, Reply::Refused(Refusal::Unknown));
    };
    if let Err(_) = add_line(line.as_bytes(), &mut room.entry) {
        room.entry.clear();
        return Replied::plain(alloc, Reply::Failed);
    }
    match read_request(alloc, line) {
        Ok(request) => answer(
            alloc,
            session,
            mode,
            &mut room.crew,
            &request,
            &mut room.entry,
        ),
        Err(fault) => {
            room.entry.clear();
            Replied::plain(alloc, unasked(fault))
        }
    }
}

/// What is replied to a line that asks for nothing.
pub fn unasked(fault: RequestFault) -> Reply
    ensures { result ≡ unasked_reply fault }
{
    match fault {
        RequestFault::Unknown => Reply::Refused(Refusal::Unknown),
        RequestFault::Query => Reply::Refused(Refusal::Query),
        RequestFault::Memory => Reply::Failed,
    }
}

// Answers a request, and makes its line its entry.
fn answer<'s, B: Body + 's, M: Mode<'s>>(
    alloc: Global,
    session: &mut Session<B>,
    mode: &M,
    crew: &mut Crew<B>,
    request: &Request<'_>,
    entry: &mut Vec<u8>,
) -> Replied
    ensures answer { IsAnswer B.meaning (M.has_scope mode.now) (M.width mode.now) session.old
        (asked_of request.now) result.reply session.new }
    ensures ends { result.is_last ≡ is_quit (asked_of request.now) }
    ensures runs { AreRunsOf B.meaning (M.width mode.now) session.old (asked_of request.now)
        result.reply result.runs.items session.new }
    ensures entry { entry.new.items ≡ line_entry (asked_of request.now) entry.old.items
        result.reply }
    ensures text { HaveText result.runs.items }
{
    let Answered { reply, runs } = session.answer(alloc, request, mode, crew);
    if !is_done(&reply) || !is_recorded(request) {
        entry.clear();
    }
    Replied {
        reply,
        is_last: is_quit(request),
        runs,
    }
}

// Whether a request is recorded, where it is done: it may change something, or asks for a digest.
pub(crate) fn is_recorded(request: &Request<'_>) -> bool
    ensures { result ≡ is_recorded (asked_of request.now) }
{
    matches!(
        request,
        Request::Run(_)
            | Request::Put(_)
            | Request::Mark(_)
            | Request::Back(_)
            | Request::Forget(_)
            | Request::Digest
    )
}

// Whether a request ends the session.
fn is_quit(request: &Request<'_>) -> bool
    ensures { result ≡ is_quit (asked_of request.now) }
{
    matches!(request, Request::Quit)
}
