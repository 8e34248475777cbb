// What is told of what is found, in words.

ghost use Rattle.std.specs.Prelude.{◌≡◌};
ghost use Rattle.warnings.specs.Lines.{lint_code};

use crate::places::skip_in;
use crate::repeats::{Twice, twice_of};
use ambiguity_report::Pair;
use ambiguity_report::report::Racer;
use explaining::owner::Owner;
use kinds::Kind;
use lints::Lint;
use program_file::Place;
use std::alloc::{AllocError, Global};
use toml::Table;

/// The word of a lint.
pub(crate) fn code_of(lint: Lint) -> &'static str
    ensures { result.now ≡ lint_code lint }
{
    match lint {
        Lint::UnusedMut { .. } | Lint::UnusedResMut { .. } | Lint::UnusedWrites { .. } => {
            "unused_write"
        }
        Lint::UnreadTerm { .. }
        | Lint::UnreadEntity { .. }
        | Lint::UnreadRes { .. }
        | Lint::UnreadEvents { .. } => "unread_term",
        Lint::NoMatch { .. } => "no_match",
        Lint::NoCommand { .. } | Lint::UnusedSlot { .. } => "unused_spawns",
        Lint::UnsetRegister { .. } => "unset_register",
        Lint::UnreadRegister { .. } => "unread_register",
        Lint::SaidTwice { .. } | Lint::RepeatedRes { .. } | Lint::RepeatedEvents { .. } => {
            "said_twice"
        }
        Lint::EmptyCode { .. } => "empty_code",
        Lint::CrossingSkip { .. } => "crossing_skip",
        Lint::Unreachable { .. } => "unreachable",
        Lint::NoMembers(_) => "no_members",
        Lint::LoneChain(_) => "lone_chain",
        Lint::ConstantCondition { .. } => "constant_condition",
        Lint::UnreadEvent(_) => "unread_event",
        Lint::UnwrittenEvent(_) => "unwritten_event",
        Lint::UnwrittenRes(_) => "unwritten_resource",
        Lint::Race(_) => "race",
    }
}

// The name of a system.
fn system_name<'a>(document: &'a Table, system: usize) -> &'a str {
    Owner::of(document, Place::System(system)).name
}

/// What is found, in a line.
pub(crate) fn headline_of(
    alloc: Global,
    document: &Table,
    lint: Lint,
) -> Result<String, AllocError> {
    match lint {
        Lint::UnusedMut { system, kind, .. } => never(
            alloc,
            document,
            system,
            "writes",
            kind.name(),
        ),
        Lint::UnreadTerm { system, kind, .. } => never(
            alloc,
            document,
            system,
            "uses",
            kind.name(),
        ),
        Lint::UnreadRes { system, res } => never(alloc, document, system, "uses", res.name()),
        Lint::UnusedResMut { system, res } => never(alloc, document, system, "writes", res.name()),
        Lint::UnusedWrites { system, event } => {
            never(alloc, document, system, "emits", event.name())
        }
        Lint::UnreadEvents { system, event } => {
            let (name, event) = (system_name(document, system), event.name());
            format!(in alloc; "`{name}` has no block for events `{event}`")
        }
        Lint::UnreadEntity { system, query } => {
            let name = system_name(document, system);
            format!(in alloc; "`{name}` gives no command about a row of query {query}")
        }
        Lint::NoMatch { kind, .. } => {
            let kind = kind.name();
            format!(in alloc; "no entity has `{kind}`, and no system inserts it")
        }
        other => headline_of_other(alloc, document, other),
    }
}

// What a system never does.
fn never(
    alloc: Global,
    document: &Table,
    system: usize,
    verb: &str,
    what: &str,
) -> Result<String, AllocError> {
    let name = system_name(document, system);
    format!(in alloc; "`{name}` never {verb} `{what}`")
}

// The same of commands, blocks, sets and the whole file.
fn headline_of_other(alloc: Global, document: &Table, lint: Lint) -> Result<String, AllocError> {
    match lint {
        Lint::NoCommand { system } => {
            let name = system_name(document, system);
            format!(in alloc; "`{name}` has Commands, and gives none")
        }
        Lint::UnusedSlot { system, slot } => {
            let name = system_name(document, system);
            format!(in alloc; "`{name}` is granted an id `g{slot}`, and never names it")
        }
        Lint::EmptyCode { system, block } => {
            let name = system_name(document, system);
            format!(in alloc; "block {block} of `{name}` has no instruction")
        }
        Lint::CrossingSkip { .. } => {
            String::from_str(alloc, "this goes on amid what a comparison guards")
        }
        Lint::Unreachable { .. } => String::from_str(alloc, "this is never done"),
        Lint::NoMembers(set) => {
            let name = Owner::of(document, Place::Set(set)).name;
            format!(in alloc; "no system is in the set `{name}`")
        }
        Lint::UnreadEvent(event) => {
            let name = event.name();
            format!(in alloc; "events `{name}` are written, and nothing reads them")
        }
        Lint::UnwrittenEvent(event) => {
            let name = event.name();
            format!(in alloc; "events `{name}` are asked for, and nothing writes them")
        }
        Lint::UnwrittenRes(res) => {
            let name = res.name();
            format!(in alloc; "`{name}` is 0 at the start, and nothing writes it")
        }
        Lint::Race(pair) => headline_of_race(alloc, document, pair),
        other => headline_of_names(alloc, document, other),
    }
}

// The same of registers, lists of names and chains.
fn headline_of_names(alloc: Global, document: &Table, lint: Lint) -> Result<String, AllocError> {
    match lint {
        Lint::UnsetRegister { system, register } => {
            let name = system_name(document, system);
            format!(in alloc; "`{name}` reads `r{register}`, and never sets it")
        }
        Lint::UnreadRegister { system, register } => {
            let name = system_name(document, system);
            format!(in alloc; "`{name}` sets `r{register}`, and never reads it")
        }
        Lint::LoneChain(_) => String::from_str(alloc, "this chain orders nothing"),
        Lint::ConstantCondition { condition, says } => {
            let often = if says { "always" } else { "never" };
            format!(in alloc;
                "condition {condition} {often} says yes: nothing writes what it asks for"
            )
        }
        other => {
            let Twice {
                owner,
                key,
                word,
                ..
            } = twice_of(document, other);
            format!(in alloc; "`{word}` stands twice in `{key}` of {owner}")
        }
    }
}

// What is told of two that race.
fn headline_of_race(alloc: Global, document: &Table, pair: Pair) -> Result<String, AllocError> {
    let second = system_name(document, pair.second as usize);
    let datum = pair.datum.name();
    match pair.first {
        Racer::System(first) => {
            let first = system_name(document, first as usize);
            format!(in alloc; "`{first}` and `{second}` race on `{datum}`")
        }
        Racer::Condition(number) => {
            format!(in alloc; "condition {number} and `{second}` race on `{datum}`")
        }
    }
}

/// The word of a term, and the one to write in its place before its kind, where that is what to do.
pub(crate) fn terms_of(lint: Lint) -> Option<(&'static str, &'static str, Kind)> {
    match lint {
        Lint::UnusedMut { kind, .. } => Some(("mut", "read", kind)),
        Lint::UnreadTerm { kind, .. } => Some(("read", "with", kind)),
        _ => None,
    }
}

/// What to do, in a line.
pub(crate) fn help_of(alloc: Global, document: &Table, lint: Lint) -> Result<String, AllocError> {
    match lint {
        Lint::UnusedMut { kind, .. } => {
            let kind = kind.name();
            format!(in alloc; "`read {kind}` lets others read beside it")
        }
        Lint::UnreadTerm { kind, .. } => {
            let kind = kind.name();
            format!(in alloc; "`with {kind}` asks for it, and lets others write beside it")
        }
        Lint::UnusedResMut { .. } => {
            String::from_str(
                alloc,
                "`res` in place of `res_mut` lets others read beside it",
            )
        }
        Lint::UnreadEvents { event, .. } => {
            let event = event.name();
            format!(in alloc; "add a block with `events = \"{event}\"`, or take it away")
        }
        Lint::NoMatch { kind, .. } => {
            let kind = kind.name();
            format!(in alloc; "give an entity `{kind}`: until then the query has no row")
        }
        Lint::NoMembers(set) => {
            let name = Owner::of(document, Place::Set(set)).name;
            format!(in alloc; "add `in = [\"{name}\"]` to a system: orders with it order nothing")
        }
        Lint::CrossingSkip {
            system,
            block,
            first,
            second,
        } => help_of_skips(alloc, document, (system, block), (first, second)),
        Lint::Race(pair) => help_of_race(alloc, document, pair),
        other => String::from_str(alloc, help_words(other)),
    }
}

// What to do where no name is told.
fn help_words(lint: Lint) -> &'static str {
    match lint {
        Lint::UnreadEntity { .. } | Lint::UnreadRes { .. } | Lint::UnusedWrites { .. } => {
            "take it away"
        }
        Lint::NoCommand { .. } => "take `spawns` away: then nothing waits for its commands",
        Lint::UnusedSlot { .. } => "name it in a command, or grant fewer",
        Lint::EmptyCode { .. } => "write an instruction, or take the block away",
        Lint::Unreachable { .. } => "take it away, or the instruction before it",
        Lint::UnsetRegister { .. } => "it is always 0: set it somewhere, or write 0",
        Lint::UnreadRegister { .. } => "read it somewhere, or take it away",
        Lint::SaidTwice { .. } | Lint::RepeatedRes { .. } | Lint::RepeatedEvents { .. } => {
            "once is enough: take one away"
        }
        Lint::LoneChain(_) => "a chain has two items or more, each before the next",
        Lint::ConstantCondition { says: true, .. } => "take it away: it holds nothing back",
        Lint::ConstantCondition { .. } => "what it is of never runs: write what it asks for",
        Lint::UnreadEvent(_) => "name it at `reads` of a system, or take it away",
        Lint::UnwrittenEvent(_) => "name it at `writes` of a system that emits it",
        Lint::UnwrittenRes(_) => "give it a value in `resources`, or write it: `res_mut`",
        _ => "",
    }
}

// Which counts end before what the second guards, or behind it.
fn help_of_skips(
    alloc: Global,
    document: &Table,
    (system, block): (usize, usize),
    (first, second): (usize, usize),
) -> Result<String, AllocError> {
    let before = second.saturating_sub(first).saturating_sub(1);
    let behind = second
        .saturating_sub(first)
        .saturating_add(skip_in(document, system, block, second));
    if before == 0 {
        return format!(in alloc; "{behind} passes over all");
    }
    format!(in alloc; "{before} asks the comparison too, {behind} passes over all")
}

// What to do about a race.
fn help_of_race(alloc: Global, document: &Table, pair: Pair) -> Result<String, AllocError> {
    let second = system_name(document, pair.second as usize);
    match pair.first {
        Racer::System(first) => {
            let first = system_name(document, first as usize);
            format!(in alloc; "order them, or `ambiguous_with = [\"{second}\"]` in `{first}`")
        }
        Racer::Condition(_) => {
            format!(in alloc; "order `{second}` before or after all that the condition is of")
        }
    }
}
