// The work of a command line on worker threads.

ghost use Rattle.std.specs.Prelude.{◌≤◌, true};
ghost use Rattle.program.specs.Served.{IsServed};

use crate::serve::serve;
use command_line::Args;
use std::alloc::Global;
use std::io::{Read, Write};
use std::sync::Wait;
use std::thread::{Scope, Threads};
use worker_pool::{NoGate, Workers};

// The gate of the program's workers, which lets all pass.
const NO_GATE: NoGate = NoGate;

/// Does the work of a command line with `workers` workers, at least one and at most 64, in threads of the scope.
pub fn serve_in_scope<
    's,
    V: 's,
    H: Threads + Wait + Copy + Send + 's,
    F: Read,
    T: Read,
    R: Write,
    O: Write,
    E: Write,
>(
    scope: &Scope<'s, V>,
    runtime: H,
    workers: u8,
    alloc: Global,
    args: &Args<'_>,
    file: &mut F,
    trace: &mut T,
    traces: &mut R,
    out: &mut O,
    faults: &mut E,
) -> u8
    ensures { 1 ≤ workers → workers ≤ 64
        → IsServed true workers args.now.work (F.remaining file.old) (T.remaining trace.old) result
        (O.contents out.old, O.contents out.new) (R.contents traces.old, R.contents traces.new)
        (E.contents faults.old, E.contents faults.new) }
{
    let count = workers.max(1).min(64) as usize;
    let mode = Workers::new(count, scope, runtime, &NO_GATE);
    serve(alloc, args, &mode, file, trace, traces, out, faults)
}
