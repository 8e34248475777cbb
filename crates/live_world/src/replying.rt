// What bytes that a host sends come to.

ghost use Rattle.std.specs.Prelude.{◌≡◌, Bool, false};
ghost use Rattle.live_world.specs.Sent.{IsReplyTo};
ghost use Rattle.parsing.specs.Reads.{SpellsOnly};
ghost use Rattle.program.specs.Setup.{script_means};
ghost use Rattle.requests.specs.Load.{IsLoad};
ghost use Rattle.session.specs.Body.{AreLines};
ghost use Rattle.session.specs.Plays.{IsLoadReply, IsReplied};

use crate::lines::{are_lines, parted};
use requests::{Load, read_request};
use script::ScriptBody;
use session::play::{MOST_BYTES, load_of, unasked};
use session::{Refusal, Reply, Session};
use std::alloc::Global;
use std::str;

// The most bytes of the lines that follow a request.
const MOST_BODY_BYTES: usize = 268_435_456;

/// The reply to bytes that a host sends: a line within the limit, with its end or without; or a line that asks to
/// load, with its end, and all lines that are to follow it. Other bytes are no request. Runs are done on the
/// caller's thread.
pub fn reply_to(alloc: Global, session: &mut Session<ScriptBody>, sent: &[u8]) -> Reply
    ensures { IsReplyTo sent.now session.old result session.new }
{
    let (line, rest) = parted(sent);
    if line.len() > MOST_BYTES as usize {
        return Reply::Refused(Refusal::TooLong);
    }
    match load_of(line) {
        Some(load) if are_lines(load.lines, rest) => load_lines(alloc, session, load, rest),
        None if rest.is_empty() => answer(alloc, session, line),
        Some(_) | None => Reply::Refused(Refusal::Unknown),
    }
}

// The reply to lines that are to be loaded.
fn load_lines(alloc: Global, session: &mut Session<ScriptBody>, load: Load, text: &[u8]) -> Reply
    ensures { IsLoadReply session.old load text.now result session.new }
{
    if text.len() > MOST_BODY_BYTES {
        return Reply::Refused(Refusal::LongText);
    }
    session.load(alloc, load, text)
}

// The reply to a line that asks not to load.
fn answer(alloc: Global, session: &mut Session<ScriptBody>, line: &[u8]) -> Reply
    ensures { (last : Bool) × IsReplied script_means false 1 session.old line.now result last
        session.new }
{
    let Ok(text) = str::from_utf8(line) else {
        return Reply::Refused(Refusal::Unknown);
    };
    match read_request(alloc, text) {
        Ok(request) => session.answer_here(alloc, &request).reply,
        Err(fault) => unasked(fault),
    }
}
