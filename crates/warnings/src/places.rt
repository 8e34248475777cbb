// Which words of a program file are marked for what is found.

use crate::registers::register_of;
use crate::repeats::twice_of;
use access_set::Datum;
use ambiguity_report::Pair;
use ambiguity_report::report::Racer;
use explaining::item_text;
use explaining::orders::{condition_at, name_of, named_at};
use explaining::owner::{Owner, items_at, table_of};
use explaining::target::{Label, Mark, Target};
use explaining::terms::{FETCHING, REQUIRING, TOUCHING, WRITING, term_with};
use explaining::word::Word;
use lints::Lint;
use parsing::integer::read_number;
use program_file::Place;
use toml::Table;

// A query of a system, by their numbers.
#[derive(Clone, Copy)]
struct At {
    system: usize,
    query: usize,
}

// A block of a system, by their numbers.
#[derive(Clone, Copy)]
struct Within {
    system: usize,
    block: usize,
}

/// The words that are marked: the first is the one that is told of.
#[derive(Clone, Copy)]
pub struct Marks<'a> {
    /// What is told of.
    pub first: Option<Mark<'a>>,
    /// What is marked beside it.
    pub second: Option<Mark<'a>>,
}

// What is marked of one target, or of none.
fn one<'a>(target: Option<Target<'a>>) -> Marks<'a> {
    Marks {
        first: marked(target, Label::None),
        second: None,
    }
}

// A target with a label.
fn marked<'a>(target: Option<Target<'a>>, label: Label<'a>) -> Option<Mark<'a>> {
    let target = target?;
    Some(Mark { target, label })
}

/// The words that are marked for what is found in a document.
pub(crate) fn marks_of<'a>(document: &'a Table, lint: Lint) -> Marks<'a> {
    match lint {
        Lint::UnusedMut {
            system,
            query,
            kind,
        } => one(term_of(document, At { system, query }, WRITING, kind.name())),
        Lint::UnreadTerm {
            system,
            query,
            kind,
        } => one(term_of(document, At { system, query }, FETCHING, kind.name())),
        Lint::UnreadEntity { system, query } => {
            one(term_of(document, At { system, query }, &["entity"], ""))
        }
        Lint::NoMatch {
            system,
            query,
            kind,
        } => one(term_of(document, At { system, query }, REQUIRING, kind.name())),
        Lint::UnreadRes { system, res } => one(name_at(document, system, "res", res.name())),
        Lint::UnusedResMut { system, res } => {
            one(name_at(document, system, "res_mut", res.name()))
        }
        Lint::UnreadEvents { system, event } => {
            one(name_at(document, system, "reads", event.name()))
        }
        Lint::UnusedWrites { system, event } => {
            one(name_at(document, system, "writes", event.name()))
        }
        other => marks_of_code(document, other),
    }
}

// The same of commands, blocks and sets.
fn marks_of_code<'a>(document: &'a Table, lint: Lint) -> Marks<'a> {
    match lint {
        Lint::NoCommand { system } | Lint::UnusedSlot { system, .. } => {
            let owner = Owner::of(document, Place::System(system));
            one(Some(Target::value(owner, "spawns", None)))
        }
        Lint::EmptyCode { system, block } => {
            let owner = Owner::of(document, Place::System(system)).with_block(block);
            one(Some(code_or_block(document, owner)))
        }
        Lint::CrossingSkip {
            system,
            block,
            first,
            second,
        } => marks_of_skips(document, Within { system, block }, first, second),
        Lint::Unreachable {
            system,
            block,
            instruction,
        } => marks_of_unreachable(document, Within { system, block }, instruction),
        Lint::NoMembers(set) => {
            let owner = Owner::of(document, Place::Set(set));
            one(named(document, owner))
        }
        other => marks_of_file(document, other),
    }
}

// The same of events, resources and races.
fn marks_of_file<'a>(document: &'a Table, lint: Lint) -> Marks<'a> {
    match lint {
        Lint::UnreadEvent(event) => one(first_named(document, "writes", event.name())),
        Lint::UnwrittenEvent(event) => one(read_or_asked(document, "reads", event.name())),
        Lint::UnwrittenRes(res) => one(read_or_asked(document, "res", res.name())),
        Lint::Race(pair) => marks_of_race(document, pair),
        other => marks_of_names(document, other),
    }
}

// The same of registers, lists of names and chains.
fn marks_of_names<'a>(document: &'a Table, lint: Lint) -> Marks<'a> {
    match lint {
        Lint::UnsetRegister { system, register } | Lint::UnreadRegister { system, register } => {
            one(register_of(document, system, register))
        }
        Lint::ConstantCondition { condition, .. } => match asked(document, condition) {
            Some((target, _)) => one(Some(target)),
            None => one(None),
        },
        Lint::LoneChain(number) => {
            let owner = Owner::of(document, Place::Chain(number));
            one(Some(Target::value(owner, "items", None)))
        }
        other => {
            let twice = twice_of(document, other);
            Marks {
                first: marked(twice.again, Label::None),
                second: marked(twice.first, Label::Words("first here")),
            }
        }
    }
}

// The name of a table.
fn named<'a>(document: &'a Table, owner: Owner<'a>) -> Option<Target<'a>> {
    Some(name_of(owner, owner.table(document)?))
}

// The term of a query that begins with one of some words and has a kind.
fn term_of<'a>(document: &'a Table, at: At, words: &[&str], kind: &str) -> Option<Target<'a>> {
    let owner = Owner::of(document, Place::System(at.system));
    let items = items_at(owner.table(document)?, "query");
    let text = item_text(items, at.query);
    let target = Target::text(owner, "query", Some(at.query), text);
    match term_with(Word::whole(text), words, kind) {
        Some((term, _)) => Some(target.within(term)),
        None => Some(target),
    }
}

// The text of the array at a key of a system that is a name.
fn name_at<'a>(
    document: &'a Table,
    system: usize,
    key: &'static str,
    name: &str,
) -> Option<Target<'a>> {
    let owner = Owner::of(document, Place::System(system));
    named_at(owner, owner.table(document)?, key, name)
}

// The code of a block, or the block where it has none.
fn code_or_block<'a>(document: &'a Table, owner: Owner<'a>) -> Target<'a> {
    match owner.table(document) {
        Some(table) if table.contains_key("code") => Target::key(owner, "code"),
        _ => Target::table(owner),
    }
}

// An instruction of a block.
fn instruction<'a>(document: &'a Table, at: Within, number: usize) -> Option<Target<'a>> {
    let owner = Owner::of(document, Place::System(at.system)).with_block(at.block);
    let items = items_at(owner.table(document)?, "code");
    Some(Target::text(owner, "code", Some(number), item_text(items, number)))
}

// Two instructions of which what they skip crosses.
fn marks_of_skips<'a>(document: &'a Table, at: Within, first: usize, second: usize) -> Marks<'a> {
    Marks {
        first: marked(last_word(document, at, first), Label::None),
        second: marked(instruction(document, at, second), Label::None),
    }
}

// The last word of an instruction.
fn last_word<'a>(document: &'a Table, at: Within, number: usize) -> Option<Target<'a>> {
    let target = instruction(document, at, number)?;
    let owner = Owner::of(document, Place::System(at.system)).with_block(at.block);
    let text = item_text(items_at(owner.table(document)?, "code"), number);
    Some(target.within(last_of(Word::whole(text))))
}

// The last word of a text.
fn last_of<'t>(text: Word<'t>) -> Word<'t> {
    let kept = text.trimmed();
    match kept.text.rfind(' ') {
        Some(at) => kept.split(at.saturating_add(1)).1,
        None => kept,
    }
}

// An instruction that is never done, and the one before it.
fn marks_of_unreachable<'a>(document: &'a Table, at: Within, number: usize) -> Marks<'a> {
    let before = number.saturating_sub(1);
    Marks {
        first: marked(instruction(document, at, number), Label::None),
        second: marked(
            instruction(document, at, before),
            Label::Words("always skips it"),
        ),
    }
}

// The first text of the arrays at a key of the systems that is a name.
fn first_named<'a>(document: &'a Table, key: &'static str, name: &str) -> Option<Target<'a>> {
    for system in 0..items_at(document, "system").len() {
        let target = name_at(document, system, key, name);
        if target.is_some() {
            return target;
        }
    }
    None
}

// The same, or else the first condition with the name.
fn read_or_asked<'a>(document: &'a Table, key: &'static str, name: &'a str) -> Option<Target<'a>> {
    match first_named(document, key, name) {
        Some(target) => Some(target),
        None => first_asked(document, name),
    }
}

// The first condition with a name.
fn first_asked<'a>(document: &'a Table, name: &'a str) -> Option<Target<'a>> {
    for key in ["set", "system"] {
        for number in 0..items_at(document, key).len() {
            let place = if key == "set" {
                Place::Set(number)
            } else {
                Place::System(number)
            };
            let target = asked_in(document, Owner::of(document, place), name);
            if target.is_some() {
                return target;
            }
        }
    }
    None
}

// The first condition of a table with a name.
fn asked_in<'a>(document: &'a Table, owner: Owner<'a>, name: &'a str) -> Option<Target<'a>> {
    let items = items_at(owner.table(document)?, "if");
    for number in 0..items.len() {
        let text = item_text(items, number);
        if let Some(from) = text.find(name) {
            let target = Target::text(owner, "if", Some(number), text);
            return Some(target.within(Word { from, text: name }));
        }
    }
    None
}

// What two touch that race.
fn marks_of_race<'a>(document: &'a Table, pair: Pair) -> Marks<'a> {
    let first = match pair.first {
        Racer::System(system) => touched(document, system, pair.datum),
        Racer::Condition(condition) => asked(document, condition),
    };
    let (target, label) = match first {
        Some((target, true)) => (Some(target), Label::Words("written here")),
        Some((target, false)) => (Some(target), Label::Words("read here")),
        None => (None, Label::None),
    };
    let second = match touched(document, pair.second, pair.datum) {
        Some((target, true)) => marked(Some(target), Label::Words("and written here")),
        Some((target, false)) => marked(Some(target), Label::Words("and read here")),
        None => None,
    };
    Marks {
        first: marked(target, label),
        second,
    }
}

// A condition by its number.
fn asked<'a>(document: &'a Table, condition: u32) -> Option<(Target<'a>, bool)> {
    let (owner, number, text) = condition_at(document, condition as usize)?;
    Some((Target::text(owner, "if", Some(number), text), false))
}

// Where a system touches a datum, and whether it writes it.
fn touched<'a>(document: &'a Table, system: u32, datum: Datum) -> Option<(Target<'a>, bool)> {
    let system = system as usize;
    let (written, read) = match datum {
        Datum::Resource(_) => ("res_mut", "res"),
        Datum::Event(_) => ("writes", "reads"),
        Datum::Kind(kind) => return touched_in_queries(document, system, kind.name()),
    };
    match name_at(document, system, written, datum.name()) {
        Some(target) => Some((target, true)),
        None => Some((name_at(document, system, read, datum.name())?, false)),
    }
}

// The first term of the queries of a system that writes a kind, or else that touches it.
fn touched_in_queries<'a>(
    document: &'a Table,
    system: usize,
    kind: &str,
) -> Option<(Target<'a>, bool)> {
    match first_term(document, system, WRITING, kind) {
        Some(target) => Some((target, true)),
        None => Some((first_term(document, system, TOUCHING, kind)?, false)),
    }
}

// The first term of the queries of a system that begins with one of some words and has a kind.
fn first_term<'a>(
    document: &'a Table,
    system: usize,
    words: &[&str],
    kind: &str,
) -> Option<Target<'a>> {
    let owner = Owner::of(document, Place::System(system));
    let items = items_at(owner.table(document)?, "query");
    for number in 0..items.len() {
        let text = item_text(items, number);
        if let Some((term, _)) = term_with(Word::whole(text), words, kind) {
            let target = Target::text(owner, "query", Some(number), text);
            return Some(target.within(term));
        }
    }
    None
}

/// How many instructions an instruction of a block skips, 0 where it is none that does.
pub(crate) fn skip_in(document: &Table, system: usize, block: usize, number: usize) -> usize {
    let owner = Owner::of(document, Place::System(system)).with_block(block);
    let Some(table) = owner.table(document) else {
        return 0;
    };
    let text = item_text(items_at(table, "code"), number);
    match read_number(last_of(Word::whole(text)).text) {
        Some(count) => count as usize,
        None => 0,
    }
}
