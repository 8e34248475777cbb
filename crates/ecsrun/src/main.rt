// The program: its command line and its streams.
#![tactic(auto)]

ghost use Rattle.std.specs.Prelude.{◌≡◌, IfErr, IfOk, None, OnOk, Some, false};
ghost use Rattle.command_line.specs.Asked.{asked_by, asked_of, ecsrun_program};
ghost use Rattle.command_line.specs.Grammar.{IsNoWork, asked_for};
ghost use Rattle.command_line.specs.declared.args.LineFault.{LineFault};
ghost use Rattle.program.specs.LineReported.{IsLineReported};
ghost use Rattle.program.specs.Served.{IsKept, IsServed};

use command_line::words::words_of;
use command_line::{Args, Work};
use program::line_faults::tell_line_fault;
use program::serve::serve;
use program::stand_ins::open_stand_ins;
use program::workers::serve_in_scope;
use program::{Created, Opened};
use std::alloc::Global;
use std::io::Write;
use std::process::ExitCode;
use std::sync::Wait;
use std::thread::Threads;
use std::{fs, thread};
use worker_pool::Single;

// What a command line asks for. The exit status of one that is at fault, which is reported.
fn args_of<'a, O: Write, E: Write>(
    alloc: Global,
    words: &'a [String],
    out: &mut O,
    faults: &mut E,
) -> Result<Args<'a>, u8>
    ensures asked { IfOk result (λ args. asked_for asked_by ecsrun_program words.now
        ≡ Some (asked_of args)) }
    ensures silent { OnOk result (IsKept (O.contents out.old, O.contents out.new)
        × IsKept (E.contents faults.old, E.contents faults.new)) }
    ensures told { IfErr result (λ status. (fault : LineFault)
        × IsNoWork asked_by ecsrun_program words.now fault
        × IsLineReported fault status (O.contents out.old, O.contents out.new)
        (E.contents faults.old, E.contents faults.new)) }
{
    match Args::read(alloc, words) {
        Ok(args) => Ok(args),
        Err(fault) => Err(tell_line_fault(alloc, out, faults, &fault)),
    }
}

// The work of a command line, all of it on one thread. (No contract can say what bytes the files and the streams have.)
fn serve_here(rt: HostRuntime, args: &Args<'_>) -> u8
    ensures { IsServed false 1 args.now.work None None result (None, None) (None, None) (
      None,
      None,
    ) }
{
    serve(
        rt.alloc(),
        args,
        &Single,
        &mut Opened::from(fs::open(&rt, args.file)),
        &mut Opened::from(fs::open(&rt, args.trace)),
        &mut Created::new(rt, args.record),
        &mut rt.stdout(),
        &mut rt.stderr(),
    )
}

// The work of a command line with so many workers, in threads of a runtime. The streams are opened in the scope of these threads.
fn serve_on_threads<H: Threads + Wait + Copy + Send + Sync + 'static>(
    threads: H,
    rt: HostRuntime,
    workers: u8,
    args: &Args<'_>,
) -> u8 {
    thread::scope(thread::scope_env(), &threads, |scope| {
        serve_in_scope(
            scope,
            threads,
            workers,
            rt.alloc(),
            args,
            &mut Opened::from(fs::open(&rt, args.file)),
            &mut Opened::from(fs::open(&rt, args.trace)),
            &mut Created::new(rt, args.record),
            &mut rt.stdout(),
            &mut rt.stderr(),
        )
    })
}

fn main(rt: HostRuntime) -> ExitCode {
    let _stand_ins = open_stand_ins(&rt);
    let mut out = rt.stdout();
    let mut faults = rt.stderr();
    let words: Vec<String> = match words_of(&rt) {
        Ok(words) => words,
        Err(fault) => {
            let status = tell_line_fault(rt.alloc(), &mut out, &mut faults, &fault);
            return ExitCode::from(status);
        }
    };
    let args = match args_of(rt.alloc(), words.as_slice(), &mut out, &mut faults) {
        Ok(args) => args,
        Err(status) => return ExitCode::from(status),
    };
    let status = match args.work {
        Work::Run { workers, .. } if workers > 0 => serve_on_threads(rt, rt, workers, &args),
        _ => serve_here(rt, &args),
    };
    ExitCode::from(status)
}
