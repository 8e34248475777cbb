// What is found in records of sessions, on readers and writers.

ghost use Rattle.std.specs.Prelude.{◌≤◌, length, IfOk};
ghost use Rattle.std.specs.Io.KnownBytes.{Consumes};
ghost use Rattle.ecsview.specs.Recorded.{HasOpened, IsRecordAnswer, IsRecordViewed};

use crate::args::Work;
use crate::viewing::Shown;
use live_world::opening::session_of;
use program::Fault;
use program::file::bytes_of;
use program::hosting::scripts_of;
use program::serve::tell;
use session_records::diverging::{Retaker, divergence_of};
use session_records::stories::story_of_record;
use session_records::told::{MOST_RECORD_BYTES, Told, report};
use std::alloc::Global;
use std::io::{Read, Write};
use streams::reading::read_whole;
use streams::writing::write_whole;

/// What is asked of records of sessions.
#[derive(Clone, Copy, PartialEq, Eq, Debug)]
pub enum RecordWork {
    /// The story of a record: of the run of this number, counted from 1, or of all.
    Steps(Option<u32>),
    /// Where two records part.
    Diverge,
}

/// The first bytes of a reader: those that one read gives.
pub fn read_front<'a, R: Read>(reader: &mut R, room: &'a mut [u8]) -> &'a [u8]
    ensures { Consumes (R.remaining reader.old) (R.remaining reader.new) result.now }
{
    match reader.read(room) {
        Ok(count) => &room[..count],
        Err(_) => &[],
    }
}

/// What some work is on records, where TRACE begins as one, with these bytes.
pub fn record_work(work: Work, front: &[u8]) -> Option<RecordWork> {
    if front != b"record ".as_slice() {
        return None;
    }
    match work {
        Work::Steps(run) => Some(RecordWork::Steps(run)),
        Work::Diverge => Some(RecordWork::Diverge),
        _ => None,
    }
}

/// Does some work on a program file and records of sessions of it: `steps` or `diverge`. The text goes to `out`, whole; what goes wrong is reported to
/// `faults` in one line. Gives the exit status.
pub fn view_record<F: Read, O: Write, E: Write>(
    alloc: Global,
    work: RecordWork,
    file: &mut F,
    trace: &mut F,
    other: &mut F,
    out: &mut O,
    faults: &mut E,
) -> u8
    ensures { IsRecordViewed work (F.remaining file.old) (F.remaining trace.old)
        (F.remaining other.old) result (O.contents out.old, O.contents out.new)
        (E.contents faults.old, E.contents faults.new) }
{
    let shown = match found_in(alloc, work, file, trace, other) {
        Ok(shown) => shown,
        Err(told) => return report(alloc, faults, &told),
    };
    match write_whole(out, shown.text.as_str()) {
        Ok(()) => shown.status,
        Err(error) => tell(alloc, faults, &Fault::from(error)),
    }
}

// What is found on a program file.
fn found_in<F: Read>(
    alloc: Global,
    work: RecordWork,
    file: &mut F,
    trace: &mut F,
    other: &mut F,
) -> Result<Shown, Told>
    ensures { IfOk result (IsRecordAnswer work (F.remaining file.old) (F.remaining trace.old)
        (F.remaining other.old)) }
{
    let bytes = bytes_of(alloc, file)?;
    let one = opened(alloc, bytes.as_slice())?;
    let journal = read_whole(alloc, trace, MOST_RECORD_BYTES)?;
    match work {
        RecordWork::Steps(asked) => {
            let Retaker {
                mut session,
                mut bodies,
            } = one;
            let bodies = bodies.as_mut_slice();
            let text = story_of_record(alloc, &mut session, bodies, journal.as_slice(), asked)?;
            Ok(Shown { text, status: 0 })
        }
        RecordWork::Diverge => {
            let two = opened(alloc, bytes.as_slice())?;
            let beside = read_whole(alloc, other, MOST_RECORD_BYTES)?;
            let (text, status) = divergence_of(
                alloc,
                one,
                journal.as_slice(),
                two,
                beside.as_slice(),
            )?;
            Ok(Shown { text, status })
        }
    }
}

// A session of a program file with these bytes, and its scripts once more.
fn opened(alloc: Global, bytes: &[u8]) -> Result<Retaker, Fault>
    requires { length bytes.now ≤ 1048576 }
    ensures { IfOk result (HasOpened bytes.now) }
{
    let session = session_of(alloc, 0, bytes)?;
    let bodies = scripts_of(alloc, bytes)?;
    Ok(Retaker { session, bodies })
}
