// Sessions on readers and writers.

ghost use Rattle.std.specs.Prelude.{◌≡◌, ◌≤◌};
ghost use Rattle.ecsplay.specs.Hosted.{EndsWith, IsHosted, fault_of_play};
ghost use Rattle.session.specs.Entries.{kept};

use program::Fault;
use program::serve::tell;
use script::ScriptBody;
use session::Session;
use session::play::{PlayFault, play};
use std::alloc::Global;
use std::io::{BufRead, Write};
use std::thread::Scope;
use worker_pool::{Mode, NoGate, Workers};

/// Plays a session to its end, its runs in the mode, and gives the exit status: 0 where it ended behind `quit` or at
/// the end of the requests. A failure is reported to `faults` in one line, with status 3.
pub fn host<'s, M: Mode<'s>, R: BufRead, O: Write, E: Write, J: Write>(
    alloc: Global,
    session: &mut Session<ScriptBody>,
    mode: &M,
    requests: &mut R,
    out: &mut O,
    faults: &mut E,
    journal: &mut Option<J>,
) -> u8
    ensures { IsHosted (M.has_scope mode.now) (M.width mode.now) session.old session.new
        (record {
          input = R.remaining requests.old;
          output = O.contents out.old;
          recorded = kept J.contents journal.old;
        })
        (record {
          input = R.remaining requests.new;
          output = O.contents out.new;
          recorded = kept J.contents journal.new;
        }) result (E.contents faults.old, E.contents faults.new) }
{
    let played = play(alloc, session, mode, requests, out, journal);
    status_of(alloc, played, faults)
}

// The exit status of a session, with its failure reported.
fn status_of<E: Write>(alloc: Global, played: Result<(), PlayFault>, faults: &mut E) -> u8
    ensures { EndsWith played result (E.contents faults.old, E.contents faults.new) }
{
    match played {
        Ok(()) => 0,
        Err(fault) => tell(alloc, faults, &fault_of(fault)),
    }
}

// What a session that ended early is reported as.
fn fault_of(fault: PlayFault) -> Fault
    ensures { result ≡ fault_of_play fault }
{
    match fault {
        PlayFault::Read => Fault::File,
        PlayFault::Record | PlayFault::Write => Fault::Write,
        PlayFault::Memory => Fault::Memory,
    }
}

// The gate of the program's workers, which lets all pass.
const NO_GATE: NoGate = NoGate;

/// The mode of a session with `workers` workers, at least one and at most 64, in threads of the scope.
pub fn workers_in<'a, 's, V: 's, H>(
    scope: &'a Scope<'s, V>,
    runtime: H,
    workers: u8,
) -> Workers<'a, 's, V, H, NoGate>
    ensures { 1 ≤ workers → workers ≤ 64 → result.count ≡ workers }
{
    let count = workers.max(1).min(64) as usize;
    Workers::new(count, scope, runtime, &NO_GATE)
}
