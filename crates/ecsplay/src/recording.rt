// Records of sessions: how one is begun, and what is told of one that is taken again.

ghost use Rattle.std.specs.Prelude.{◌≤◌, length, IfErr, IfOk, OnOk};
ghost use Rattle.std.specs.Io.KnownBytes.{Appends};
ghost use Rattle.ecsplay.specs.Retaken.{HasResumed, IsReplayedWhole, begun_text, digest_line};
ghost use Rattle.streams.specs.Writing.{AppendsFront};

use program::Fault;
use program::hosting::scripts_of;
use script::ScriptBody;
use session::replaying::{head_of_record, replay_record};
use session::{EntryFault, RecordFault, Session};
use session_records::told::{MOST_RECORD_BYTES, Told};
use state_text::digest::{digest_of, hex_of};
use std::alloc::Global;
use std::io::{self, Read, Write};
use streams::reading::read_whole;
use streams::writing::{write_bytes, write_whole};

/// A writer that takes everything, and keeps nothing.
#[derive(Clone, Copy)]
pub struct Nowhere;

impl Write for Nowhere {
    fn write(&mut self, buf: &[u8]) -> io::Result<usize> {
        Ok(buf.len())
    }

    fn flush(&mut self) -> io::Result<()> {
        Ok(())
    }
}

/// Takes a record again into a session of the file with these bytes, and writes its replies. Gives its bytes up to an entry that is cut short.
pub fn resume<R: Read, O: Write>(
    alloc: Global,
    session: &mut Session<ScriptBody>,
    file: &[u8],
    source: &mut R,
    out: &mut O,
) -> Result<Vec<u8>, Told>
    requires { length file.now ≤ 1048576 }
    ensures { IfOk result (λ front. HasResumed file.now session.old session.new (R.remaining
        source.old) front.items (O.contents out.old, O.contents out.new)) }
{
    let mut bodies = scripts_of(alloc, file)?;
    let mut bytes = read_whole(alloc, source, MOST_RECORD_BYTES)?;
    let taken = replay_record(alloc, session, bodies.as_mut_slice(), bytes.as_slice(), out)?;
    let length = bytes.len() - taken.rest.len();
    bytes.truncate(length);
    Ok(bytes)
}

/// Begins a record of a session: with its first line, or with a record from whose end the session goes on.
pub fn begin<J: Write>(
    alloc: Global,
    session: &Session<ScriptBody>,
    before: &[u8],
    journal: &mut J,
) -> Result<(), Fault>
    ensures ok { IfOk result (λ done. Appends (J.contents journal.old) (J.contents journal.new)
        (begun_text session.now.file before.now)) }
    ensures err { IfErr result (λ fault. AppendsFront (J.contents journal.old) (J.contents
        journal.new) (begun_text session.now.file before.now)) }
{
    if before.is_empty() {
        let head = head_of_record(alloc, session)?;
        write_whole(journal, head.as_str())?;
    } else {
        write_bytes(journal, before)?;
    }
    Ok(())
}

/// Takes a record again, which is whole, and writes its replies, and behind them the digest of the state that it leads to, if one is there. Gives
/// the exit status.
pub fn replay<R: Read, O: Write>(
    alloc: Global,
    session: &mut Session<ScriptBody>,
    file: &[u8],
    source: &mut R,
    out: &mut O,
) -> Result<(), Told>
    requires { length file.now ≤ 1048576 }
    ensures { IfOk result (λ done. IsReplayedWhole file.now session.old session.new (R.remaining
        source.old) (O.contents out.old, O.contents out.new)) }
{
    let mut bodies = scripts_of(alloc, file)?;
    let bytes = read_whole(alloc, source, MOST_RECORD_BYTES)?;
    let taken = replay_record(alloc, session, bodies.as_mut_slice(), bytes.as_slice(), out)?;
    if !taken.rest.is_empty() {
        let number = taken.entries.saturating_add(1);
        return Err(Told::Refused(RecordFault::Entry(number, EntryFault::Cut)));
    }
    write_digest(alloc, session, out)?;
    Ok(())
}

// Writes the line of the digest of a session's state, if one is there.
fn write_digest<O: Write>(
    alloc: Global,
    session: &Session<ScriptBody>,
    out: &mut O,
) -> Result<(), Told>
    ensures { OnOk result (Appends (O.contents out.old) (O.contents out.new) (digest_line
        session.now)) }
{
    let engine = session.engine();
    if engine.is_spoiled() {
        return Ok(());
    }
    let digest = hex_of(digest_of(alloc, engine.state())?);
    let line = format!(in alloc; "digest {digest}\n")?;
    write_whole(out, line.as_str())?;
    Ok(())
}
