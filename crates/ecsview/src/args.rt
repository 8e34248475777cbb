// The command line.

ghost use Rattle.std.specs.Prelude.{◌≡◌, IfErr, IfOk, Some, codes};
ghost use Rattle.clap.specs.Words.{first_of, found_of, rows_of, subcommand_rows_of};
ghost use Rattle.command_line.specs.Grammar.{IsIdle, IsNoWork, app_of_grammar, asked_for, work_in};
ghost use Rattle.ecsview.specs.Asked.{asked_by, asked_of, asked_on, ecsview_program, races_asked, races_behind, steps_asked, steps_of_run, work_asked};

use crate::asking::{Asking, asking_of};
use crate::part::{Part, part_of};
use clap::ArgMatches;
use command_line::LineFault;
use command_line::grammar::{Argument, Grammar, Subcommand};
use command_line::values::{number_between, value_of};
use std::alloc::Global;

/// The work that is asked for.
#[derive(Clone, Copy, PartialEq, Eq, Debug)]
pub enum Work {
    /// A drawing of the schedule.
    Schedule,
    /// A drawing of these runs of a trace.
    Lanes(Part),
    /// A witness for each pair that races, in the run of this number.
    Races(u32),
    /// Where two traces part.
    Diverge,
    /// The worlds after the sync points of a run of a trace, counted from 1, or of all.
    Steps(Option<u32>),
    /// Why the file is refused, or what of it is likely a mistake, as is asked.
    Explain(Asking),
}

/// What a command line asks for: some work on the schedule that a file declares.
#[derive(Clone, Copy, PartialEq, Eq, Debug)]
pub struct Args<'a> {
    /// The path of the program file.
    pub file: &'a str,
    /// The path of the trace; empty where none is read.
    pub trace: &'a str,
    /// The path of the second trace; empty where none is read.
    pub other: &'a str,
    /// The work.
    pub work: Work,
}

const FILE: Argument = Argument {
    id: "file",
    long: "",
    value: "FILE",
    help: "the program file; exit status 1: refused, 2: usage, 3: input, output",
    range: None,
};

const TRACE: Argument = Argument {
    id: "trace",
    long: "",
    value: "TRACE",
    help: "the file of recorded runs",
    range: None,
};

const OTHER: Argument = Argument {
    id: "other",
    long: "",
    value: "OTHER",
    help: "the file of other recorded runs; exit status 1: the two part",
    range: None,
};

const RUN: Argument = Argument {
    id: "run",
    long: "run",
    value: "N",
    help: "the run to show, from 1; all if left out",
    range: Some((1, 4_294_967_295)),
};

const RUNS: Argument = Argument {
    id: "runs",
    long: "runs",
    value: "A..B",
    help: "the runs to draw, from A to B; the first 50 if left out",
    range: None,
};

const DENY: Argument = Argument {
    id: "deny",
    long: "deny",
    value: "warnings",
    help: "status 1 if there are warnings",
    range: None,
};

const AFTER: Argument = Argument {
    id: "after",
    long: "after",
    value: "N",
    help: "looks at the run behind N runs; at the first if left out",
    range: Some((0, 4_294_967_294)),
};

const NAME: Argument = Argument {
    id: "name",
    long: "",
    value: "NAME",
    help: "1 to 16 times a resource, \"count(with Health)\" or \"sum(Health.v)\"",
    range: None,
};

const TIMES: Argument = Argument {
    id: "times",
    long: "times",
    value: "N",
    help: "how many runs, 0 to 1000000; has to be given",
    range: Some((0, 1_000_000)),
};

const EVERY: Argument = Argument {
    id: "every",
    long: "every",
    value: "K",
    help: "a row after each K runs, 1 if left out; up to 100000",
    range: Some((1, 1_000_000)),
};

const FORMAT: Argument = Argument {
    id: "format",
    long: "format",
    value: "text|json",
    help: "texts, or for each finding a line of JSON",
    range: None,
};

const OF_TRACE: Argument = Argument {
    id: "trace",
    long: "trace",
    value: "TRACE",
    help: "a file of recorded runs, which is explained as well",
    range: None,
};

const SERIES_FORMAT: Argument = Argument {
    id: "format",
    long: "format",
    value: "csv|svg",
    help: "lines or a chart; csv if left out",
    range: None,
};

const GRAMMAR: Grammar = Grammar {
    program: "ecsview",
    subcommands: &[
        Subcommand {
            name: "schedule",
            about: "draws the schedule, as SVG: ecsview schedule a.toml > a.svg",
            arguments: &[FILE],
        },
        Subcommand {
            name: "lanes",
            about: "draws recorded runs, as SVG: ecsview lanes a.toml a.trace > a.svg",
            arguments: &[FILE, TRACE, RUNS],
        },
        Subcommand {
            name: "races",
            about: "prints two orders for each pair that races: ecsview races a.toml",
            arguments: &[FILE, AFTER],
        },
        Subcommand {
            name: "diverge",
            about: "prints where two traces part: ecsview diverge a.toml a.trace b.trace",
            arguments: &[FILE, TRACE, OTHER],
        },
        Subcommand {
            name: "steps",
            about: "prints worlds of recorded runs: ecsview steps a.toml a.trace --run 2",
            arguments: &[FILE, TRACE, RUN],
        },
        Subcommand {
            name: "explain",
            about: "why a file is refused, or what a code means: ecsview explain a.toml",
            arguments: &[FILE, DENY, FORMAT, OF_TRACE],
        },
        Subcommand {
            name: "series",
            about: "prints numbers of new runs: ecsview series a.toml --times 9 Total",
            arguments: &[FILE, NAME, TIMES, EVERY, SERIES_FORMAT],
        },
        Subcommand {
            name: "cost",
            about: "measures how long systems run: ecsview cost a.toml --times 1000",
            arguments: &[FILE, TIMES],
        },
    ],
};

impl<'a> Args<'a> {
    /// Reads the words of a command line, of which the first is the program's own name: `schedule FILE`,
    /// `lanes FILE TRACE [--runs A..B]`, `races FILE [--after N]`, `diverge FILE TRACE OTHER`,
    /// `steps FILE TRACE [--run N]` or `explain FILE [--deny warnings] [--format text|json] [--trace TRACE]`. Runs are
    /// counted from 1, N of `--after` from 0, all in decimal digits alone. Where a line has `--help` it is asked for,
    /// whatever other fault the line has.
    pub fn read(alloc: Global, words: &'a [String]) -> Result<Args<'a>, LineFault>
        ensures ok { IfOk result (λ args. asked_for asked_by ecsview_program words.now
            ≡ Some (asked_of args)) }
        ensures err { IfErr result (IsNoWork asked_by ecsview_program words.now) }
    {
        let grammar = grammar();
        let matches = grammar.read(alloc, words)?;
        Args::of_matches(alloc, &matches)
    }

    // What the matches of a line ask for.
    fn of_matches(alloc: Global, matches: &ArgMatches<'a>) -> Result<Args<'a>, LineFault>
        ensures ok { IfOk result (λ args. work_in asked_by (subcommand_rows_of matches.now)
            ≡ Some (asked_of args)) }
        ensures err { IfErr result (IsIdle (work_in asked_by (subcommand_rows_of matches.now))) }
    {
        match matches.subcommand() {
            Some((name, found)) => Args::of_command(alloc, name, found),
            None => Err(LineFault::usage(alloc, "error: no command is named\n")),
        }
    }

    // What a command of this name with these values asks for.
    fn of_command(alloc: Global, name: &str, found: &ArgMatches<'a>) -> Result<Args<'a>, LineFault>
        ensures ok { IfOk result (λ args. asked_by name.now (rows_of (found_of found.now))
            ≡ Some (asked_of args)) }
        ensures err { IfErr result (IsIdle (asked_by name.now (rows_of (found_of found.now)))) }
    {
        match work_of(name, found) {
            Some(work) => Ok(Args::of(found, work)),
            None => Err(LineFault::usage(alloc, misused(name))),
        }
    }

    // The work, on the files that the matches name.
    fn of(found: &ArgMatches<'a>, work: Work) -> Args<'a>
        ensures { asked_of result ≡ asked_on (rows_of (found_of found.now)) work }
    {
        Args {
            file: value_of(found, "file"),
            trace: value_of(found, "trace"),
            other: value_of(found, "other"),
            work,
        }
    }
}

// These commands, which are those of the definitions.
fn grammar() -> Grammar
    ensures { app_of_grammar result ≡ ecsview_program }
{
    GRAMMAR
}

// The work of a command of this name with these values.
fn work_of(name: &str, found: &ArgMatches<'_>) -> Option<Work>
    ensures { result ≡ work_asked name.now (rows_of (found_of found.now)) }
{
    match name {
        "schedule" => Some(Work::Schedule),
        "lanes" => Some(Work::Lanes(part_of(found)?)),
        "races" => races_of(found),
        "diverge" => Some(Work::Diverge),
        "steps" => steps_of(found),
        "explain" => Some(Work::Explain(asking_of(found)?)),
        _ => None,
    }
}

// What is told where an option of a command of this name has a value that it can't have.
fn misused(name: &str) -> &'static str {
    match name {
        "explain" => "error: what is denied is `warnings`, a format is `text` or `json`\n",
        "races" => "error: `--after` takes a number of runs, in digits alone\n",
        _ => "error: runs are counted from 1, in digits alone\n",
    }
}

// The races of the run behind as many as an option names, or of the first.
fn races_of(found: &ArgMatches<'_>) -> Option<Work>
    ensures { result ≡ races_asked (first_of (codes "after") (rows_of (found_of found.now))) }
{
    match found.get_str("after") {
        Some(text) => races_behind(text),
        None => Some(Work::Races(1)),
    }
}

// The races of the run behind so many.
fn races_behind(text: &str) -> Option<Work>
    ensures { result ≡ races_behind text.now }
{
    let runs = number_between(text, 0, u32::MAX - 1)?;
    Some(Work::Races(runs + 1))
}

// The steps of the run that an option names, or of all.
fn steps_of(found: &ArgMatches<'_>) -> Option<Work>
    ensures { result ≡ steps_asked (first_of (codes "run") (rows_of (found_of found.now))) }
{
    match found.get_str("run") {
        Some(text) => steps_of_run(text),
        None => Some(Work::Steps(None)),
    }
}

// The steps of the run of this number.
fn steps_of_run(text: &str) -> Option<Work>
    ensures { result ≡ steps_of_run text.now }
{
    let run = number_between(text, 1, u32::MAX)?;
    Some(Work::Steps(Some(run)))
}
