// The command line.

ghost use Rattle.std.specs.Prelude.{◌≡◌, IfErr, IfOk, Some, codes, option_map};
ghost use Rattle.clap.specs.Words.{first_of, found_of, rows_of, subcommand_rows_of};
ghost use Rattle.command_line.specs.Grammar.{IsIdle, IsNoWork, app_of_grammar, asked_for, work_in};
ghost use Rattle.command_line.specs.Values.{number_between};
ghost use Rattle.ecsplay.specs.Asked.{asked_by, asked_of, ecsplay_program, workers_asked};

use clap::ArgMatches;
use command_line::LineFault;
use command_line::grammar::{Argument, Grammar, Subcommand};
use command_line::values::{number_between, value_of};
use std::alloc::Global;

/// What is done with the schedule that a file declares.
#[derive(Clone, Copy, PartialEq, Eq, Debug)]
pub enum Work<'a> {
    /// A session.
    Play {
        /// How many worker threads, at most 64. With none all is done on the program's own thread.
        workers: u8,
        /// The path of the file in which the session is recorded; empty where it isn't.
        record: &'a str,
        /// The path of the record from whose end the session goes on; empty where it begins anew.
        from: &'a str,
    },
    /// A session that was recorded is taken again.
    Replay {
        /// The path of the record.
        record: &'a str,
    },
}

/// What a command line asks for.
#[derive(Clone, Copy, PartialEq, Eq, Debug)]
pub struct Args<'a> {
    /// The path of the program file.
    pub file: &'a str,
    /// What is done with it.
    pub work: Work<'a>,
}

const MOST_WORKERS: u32 = 64;

const FILE: Argument = Argument {
    id: "file",
    long: "",
    value: "FILE",
    help: "the program file; exit status 1: refused, 2: usage, 3: input, output",
    range: None,
};

const WORKERS: Argument = Argument {
    id: "workers",
    long: "workers",
    value: "W",
    help: "how many workers, 0 to 64; 0 (one thread) if left out",
    range: Some((0, 64)),
};

const RECORD: Argument = Argument {
    id: "record",
    long: "record",
    value: "OUT",
    help: "records what changes the state, for `replay`",
    range: None,
};

const FROM: Argument = Argument {
    id: "from",
    long: "from",
    value: "RECORD",
    help: "goes on where a record ends",
    range: None,
};

const RECORDED: Argument = Argument {
    id: "recorded",
    long: "",
    value: "RECORD",
    help: "a record of a session of the file",
    range: None,
};

const GRAMMAR: Grammar = Grammar {
    program: "ecsplay",
    subcommands: &[
        Subcommand {
            name: "play",
            about: "keeps an engine, and answers requests: ecsplay play a.toml",
            arguments: &[FILE, WORKERS, RECORD, FROM],
        },
        Subcommand {
            name: "replay",
            about: "takes a recorded session again: ecsplay replay a.toml a.record",
            arguments: &[FILE, RECORDED],
        },
    ],
};

impl<'a> Args<'a> {
    /// Reads the words of a command line, of which the first is the program's own name:
    /// `play FILE [--workers W] [--record OUT] [--from RECORD]`, where W is from 0 to 64, spelled in decimal digits
    /// alone, and 0 if it is left out, or `replay FILE RECORD`. Where a line has `--help` it is asked for, whatever
    /// other fault the line has.
    pub fn read(alloc: Global, words: &'a [String]) -> Result<Args<'a>, LineFault>
        ensures ok { IfOk result (λ args. asked_for asked_by ecsplay_program words.now
            ≡ Some (asked_of args)) }
        ensures err { IfErr result (IsNoWork asked_by ecsplay_program words.now) }
    {
        let grammar = grammar();
        let matches = grammar.read(alloc, words)?;
        Args::of_matches(alloc, &matches)
    }

    // What the matches of a line ask for.
    fn of_matches(alloc: Global, matches: &ArgMatches<'a>) -> Result<Args<'a>, LineFault>
        ensures ok { IfOk result (λ args. work_in asked_by (subcommand_rows_of matches.now)
            ≡ Some (asked_of args)) }
        ensures err { IfErr result (IsIdle (work_in asked_by (subcommand_rows_of matches.now))) }
    {
        match matches.subcommand() {
            Some((name, found)) => Args::of_command(alloc, name, found),
            None => Err(LineFault::usage(alloc, "error: no command is named\n")),
        }
    }

    // What a command of this name with these values asks for.
    fn of_command(alloc: Global, name: &str, found: &ArgMatches<'a>) -> Result<Args<'a>, LineFault>
        ensures ok { IfOk result (λ args. asked_by name.now (rows_of (found_of found.now))
            ≡ Some (asked_of args)) }
        ensures err { IfErr result (IsIdle (asked_by name.now (rows_of (found_of found.now)))) }
    {
        match Args::of(name, found) {
            Some(args) => Ok(args),
            None => Err(LineFault::usage(alloc, "error: a number has digits alone\n")),
        }
    }

    // The same, where it asks for something.
    fn of(name: &str, found: &ArgMatches<'a>) -> Option<Args<'a>>
        ensures { option_map asked_of result ≡ asked_by name.now (rows_of (found_of found.now)) }
    {
        let file = value_of(found, "file");
        match name {
            "play" => {
                let workers = workers_of(found)?;
                let record = value_of(found, "record");
                let from = value_of(found, "from");
                let work = Work::Play {
                    workers,
                    record,
                    from,
                };
                Some(Args { file, work })
            }
            "replay" => {
                let record = value_of(found, "recorded");
                let work = Work::Replay { record };
                Some(Args { file, work })
            }
            _ => None,
        }
    }
}

// This command, which is that of the definitions.
fn grammar() -> Grammar
    ensures { app_of_grammar result ≡ ecsplay_program }
{
    GRAMMAR
}

// How many workers an option asks for, none where it is left out.
fn workers_of(found: &ArgMatches<'_>) -> Option<u8>
    ensures { result ≡ workers_asked (first_of (codes "workers") (rows_of (found_of found.now))) }
{
    match found.get_str("workers") {
        Some(text) => workers_in(text),
        None => Some(0),
    }
}

// How many workers a text asks for.
fn workers_in(text: &str) -> Option<u8>
    ensures { result ≡ number_between 0 64 text.now }
{
    let workers = number_between(text, 0, MOST_WORKERS)?;
    Some(workers as u8)
}
