// What `ecsrun` takes, and what its command line asks for.

ghost use Rattle.std.specs.Prelude.{◌≡◌, IfErr, IfOk, IfSome, Some};
ghost use Rattle.clap.specs.Words.{found_of, rows_of, subcommand_rows_of};
ghost use Rattle.command_line.specs.Args.{IsWithin};
ghost use Rattle.command_line.specs.Asked.{asked_by, asked_of, asked_on, ecsrun_program, runs_asked, work_asked};
ghost use Rattle.command_line.specs.Grammar.{IsIdle, IsNoWork, app_of_grammar, asked_for, work_in};

use crate::args::{Args, LineFault, Work};
use crate::grammar::{Argument, Grammar, Subcommand};
use crate::values::{is_given, number_or, value_of};
use clap::ArgMatches;
use std::alloc::Global;

const MOST_TIMES: u32 = 1_000_000;

const MOST_WORKERS: u32 = 64;

const FILE: Argument = Argument {
    id: "file",
    long: "",
    value: "FILE",
    help: "the program file; exit status 1: refused, 2: usage, 3: input, output",
    range: None,
};

const TIMES: Argument = Argument {
    id: "times",
    long: "times",
    value: "N",
    help: "how many runs, 0 to 1000000, 1 if left out",
    range: Some((0, 1_000_000)),
};

const WORKERS: Argument = Argument {
    id: "workers",
    long: "workers",
    value: "W",
    help: "how many workers, 0 to 64; 0 (one thread) if left out",
    range: Some((0, 64)),
};

const RECORD: Argument = Argument {
    id: "record",
    long: "trace",
    value: "OUT",
    help: "the file to record the runs in; none if left out",
    range: None,
};

const TRACE: Argument = Argument {
    id: "trace",
    long: "",
    value: "TRACE",
    help: "the file of recorded runs; exit status 1: one isn't complete",
    range: None,
};

const GRAMMAR: Grammar = Grammar {
    program: "ecsrun",
    subcommands: &[
        Subcommand {
            name: "run",
            about: "runs a file and prints the world: ecsrun run a.toml --times 9",
            arguments: &[FILE, TIMES, WORKERS, RECORD],
        },
        Subcommand {
            name: "check",
            about: "prints what a schedule says of runs: ecsrun check a.toml a.trace",
            arguments: &[FILE, TRACE],
        },
        Subcommand {
            name: "replay",
            about: "takes recorded runs again: ecsrun replay a.toml a.trace",
            arguments: &[FILE, TRACE],
        },
        Subcommand {
            name: "ambiguities",
            about: "prints which systems race: ecsrun ambiguities a.toml",
            arguments: &[FILE],
        },
    ],
};

impl<'a> Args<'a> {
    /// Reads the words of a command line, of which the first is the program's own name. It is
    /// `run FILE [--times N] [--workers W] [--trace OUT]`, `check FILE TRACE`, `replay FILE TRACE` or
    /// `ambiguities FILE`. N is from 0 to 1,000,000, and 1 if it is left out. W is from 0 to 64, and 0 if it is left
    /// out. Numbers are spelled in decimal digits alone. Where a line has `--help` it is asked for, whatever other
    /// fault the line has.
    pub fn read(alloc: Global, words: &'a [String]) -> Result<Args<'a>, LineFault>
        ensures within { IfOk result (λ args. IsWithin args.work) }
        ensures ok { IfOk result (λ args. asked_for asked_by ecsrun_program words.now
            ≡ Some (asked_of args)) }
        ensures err { IfErr result (IsNoWork asked_by ecsrun_program words.now) }
    {
        let grammar = grammar();
        let matches = grammar.read(alloc, words)?;
        Args::of_matches(alloc, &matches)
    }

    // What the matches of a line ask for.
    fn of_matches(alloc: Global, matches: &ArgMatches<'a>) -> Result<Args<'a>, LineFault>
        ensures ok { IfOk result (λ args. work_in asked_by (subcommand_rows_of matches.now)
            ≡ Some (asked_of args)) }
        ensures err { IfErr result (IsIdle (work_in asked_by (subcommand_rows_of matches.now))) }
    {
        match matches.subcommand() {
            Some((name, found)) => Args::of_command(alloc, name, found),
            None => Err(LineFault::usage(alloc, "error: no command is named\n")),
        }
    }

    // What a command of this name with these values asks for.
    fn of_command(alloc: Global, name: &str, found: &ArgMatches<'a>) -> Result<Args<'a>, LineFault>
        ensures ok { IfOk result (λ args. asked_by name.now (rows_of (found_of found.now))
            ≡ Some (asked_of args)) }
        ensures err { IfErr result (IsIdle (asked_by name.now (rows_of (found_of found.now)))) }
    {
        match work_of(name, found) {
            Some(work) => Ok(Args::of(found, work)),
            None => Err(LineFault::usage(alloc, "error: a number has digits alone\n")),
        }
    }

    // The work, on the files that the matches name.
    fn of(found: &ArgMatches<'a>, work: Work) -> Args<'a>
        requires { IsWithin work }
        ensures { asked_of result ≡ asked_on (rows_of (found_of found.now)) work }
    {
        Args {
            file: value_of(found, "file"),
            trace: value_of(found, "trace"),
            record: value_of(found, "record"),
            work,
        }
    }
}

// These commands, which are those of the definitions.
fn grammar() -> Grammar
    ensures { app_of_grammar result ≡ ecsrun_program }
{
    GRAMMAR
}

// The work of a command of this name with these values.
fn work_of(name: &str, found: &ArgMatches<'_>) -> Option<Work>
    ensures within { IfSome result IsWithin }
    ensures work { result ≡ work_asked name.now (rows_of (found_of found.now)) }
{
    match name {
        "run" => runs_of(found),
        "check" => Some(Work::Check),
        "replay" => Some(Work::Replay),
        "ambiguities" => Some(Work::Ambiguities),
        _ => None,
    }
}

// The runs that the values of `run` ask for.
fn runs_of(run: &ArgMatches<'_>) -> Option<Work>
    ensures within { IfSome result IsWithin }
    ensures runs { result ≡ runs_asked (rows_of (found_of run.now)) }
{
    let times = number_or(run, "times", MOST_TIMES, 1)?;
    let workers = number_or(run, "workers", MOST_WORKERS, 0)?;
    let recorded = is_given(run, "record");
    Some(Work::Run {
        times,
        workers: workers as u8,
        recorded,
    })
}
