// The program for hosts: it keeps the engine of a file, and answers requests, a line each; and takes what was recorded of it again.
#![tactic(auto)]

mod args;
mod hosting;
mod recording;

use args::{Args, Work};
use command_line::words::words_of;
use hosting::{host, workers_in};
use live_world::opening::session_of;
use program::file::bytes_of;
use program::line_faults::tell_line_fault;
use program::serve::tell;
use program::stand_ins::open_stand_ins;
use program::{Created, Fault, Opened};
use recording::{Nowhere, begin, replay, resume};
use script::ScriptBody;
use session::Session;
use session_records::told::{Told, report};
use std::io::BufReader;
use std::process::ExitCode;
use std::sync::Wait;
use std::thread::Threads;
use std::{fs, thread};
use worker_pool::Single;

// The file in which a session is recorded, if it is.
type Journal<'a> = Option<Created<'a, HostRuntime>>;

// Plays a session, all of it on one thread.
fn play_here(rt: HostRuntime, session: &mut Session<ScriptBody>, journal: &mut Journal<'_>) -> u8 {
    let mut faults = rt.stderr();
    let Ok(mut requests) = BufReader::new(rt.alloc(), rt.stdin()) else {
        return tell(rt.alloc(), &mut faults, &Fault::Memory);
    };
    host(
        rt.alloc(),
        session,
        &Single,
        &mut requests,
        &mut rt.stdout(),
        &mut faults,
        journal,
    )
}

// Plays a session with so many workers, in threads of a runtime.
fn play_on_threads<H: Threads + Wait + Copy + Send + Sync + 'static>(
    threads: H,
    rt: HostRuntime,
    workers: u8,
    session: &mut Session<ScriptBody>,
    journal: &mut Journal<'_>,
) -> u8 {
    thread::scope(thread::scope_env(), &threads, |scope| {
        let mut faults = rt.stderr();
        let Ok(mut requests) = BufReader::new(rt.alloc(), rt.stdin()) else {
            return tell(rt.alloc(), &mut faults, &Fault::Memory);
        };
        host(
            rt.alloc(),
            session,
            &workers_in(scope, threads, workers),
            &mut requests,
            &mut rt.stdout(),
            &mut faults,
            journal,
        )
    })
}

// Plays a session on a file: from the end of a record, if one is named, and recorded, if that is asked for.
fn play_file<H: Threads + Wait + Copy + Send + Sync + 'static>(
    threads: H,
    rt: HostRuntime,
    file: &str,
    workers: u8,
    record: &str,
    from: &str,
) -> Result<u8, Told> {
    let bytes = bytes_of(rt.alloc(), &mut Opened::from(fs::open(&rt, file)))?;
    let mut session = session_of(rt.alloc(), workers, bytes.as_slice())?;
    let mut before = Vec::new(rt.alloc());
    if !from.is_empty() {
        let mut source = Opened::from(fs::open(&rt, from));
        before = resume(
            rt.alloc(),
            &mut session,
            bytes.as_slice(),
            &mut source,
            &mut Nowhere,
        )?;
    }
    let mut journal = None;
    if !record.is_empty() {
        let mut created = Created::new(rt, record);
        begin(rt.alloc(), &session, before.as_slice(), &mut created)?;
        journal = Some(created);
    }
    Ok(if workers > 0 {
        play_on_threads(threads, rt, workers, &mut session, &mut journal)
    } else {
        play_here(rt, &mut session, &mut journal)
    })
}

// Takes a record of a session on a file again.
fn replay_file(rt: HostRuntime, file: &str, record: &str) -> Result<u8, Told> {
    let bytes = bytes_of(rt.alloc(), &mut Opened::from(fs::open(&rt, file)))?;
    let mut session = session_of(rt.alloc(), 0, bytes.as_slice())?;
    let mut source = Opened::from(fs::open(&rt, record));
    replay(
        rt.alloc(),
        &mut session,
        bytes.as_slice(),
        &mut source,
        &mut rt.stdout(),
    )?;
    Ok(0)
}

// Does what a command line asks for.
fn done<H: Threads + Wait + Copy + Send + Sync + 'static>(
    threads: H,
    rt: HostRuntime,
    args: &Args<'_>,
) -> Result<u8, Told> {
    match args.work {
        Work::Play {
            workers,
            record,
            from,
        } => play_file(threads, rt, args.file, workers, record, from),
        Work::Replay { record } => replay_file(rt, args.file, record),
    }
}

fn main(rt: HostRuntime) -> ExitCode {
    let _stand_ins = open_stand_ins(&rt);
    let mut out = rt.stdout();
    let mut faults = rt.stderr();
    let words: Vec<String> = match words_of(&rt) {
        Ok(words) => words,
        Err(fault) => {
            let status = tell_line_fault(rt.alloc(), &mut out, &mut faults, &fault);
            return ExitCode::from(status);
        }
    };
    let args = match Args::read(rt.alloc(), words.as_slice()) {
        Ok(args) => args,
        Err(fault) => {
            let status = tell_line_fault(rt.alloc(), &mut out, &mut faults, &fault);
            return ExitCode::from(status);
        }
    };
    match done(rt, rt, &args) {
        Ok(status) => ExitCode::from(status),
        Err(told) => ExitCode::from(report(rt.alloc(), &mut faults, &told)),
    }
}
