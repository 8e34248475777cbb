// The names and texts for which a schedule is refused.

use crate::build_reason::BuildReason;
use crate::conflicts::of_conflict;
use crate::finding::Found;
use crate::index::Index;
use crate::keys::item_text;
use crate::names::Names;
use crate::orders::{
    condition_at, first_order, item_at, item_count, item_named, name_of, named_at,
};
use crate::owner::{Owner, items_at, table_of};
use crate::reason::Reason;
use crate::target::{Label, Mark, Target};
use crate::terms::{EXCLUDING, FETCHING, REQUIRING, query_in, term_with};
use crate::word::Word;
use kinds::Kind;
use program_file::Place;
use schedule_builder::BuildFault;
use std::alloc::{AllocError, Global};
use toml::{Table, Value};

// The keys at which an item names others, in the order in which they are looked up.
const NAME_KEYS: [&str; 6] = [
    "in",
    "before",
    "after",
    "before_ignore_deferred",
    "after_ignore_deferred",
    "ambiguous_with",
];

// The limits: systems, sets, queries of a system, ids of a system.
const MOST_SYSTEMS: usize = 256;

const MOST_SETS: usize = 64;

const MOST_CONDITIONS: usize = 512;

const MOST_QUERIES: usize = 8;

const MOST_IDS: i64 = 1024;

/// What is found in a document of which the schedule is refused.
pub fn of_fault<'a>(
    alloc: Global,
    document: &'a Table,
    fault: &'a BuildFault,
) -> Result<Option<Found<'a>>, AllocError> {
    match fault {
        BuildFault::SelfConflict(name) => of_conflict(alloc, document, name),
        other => Ok(of_declarations(document, other)),
    }
}

// The same of a fault that is told of declarations as they stand.
fn of_declarations<'a>(document: &'a Table, fault: &'a BuildFault) -> Option<Found<'a>> {
    match fault {
        BuildFault::UnknownName(name) => of_unknown(document, name),
        BuildFault::DuplicateName(name) => of_twice(document, name),
        BuildFault::HierarchyLoop(name) => of_loop(document, name),
        BuildFault::HierarchyCycle(names) => Some(of_names(BuildReason::Circle(names))),
        BuildFault::DependencyLoop(name) => of_self_order(document, name),
        BuildFault::DependencyCycle(names) => Some(of_names(BuildReason::Cycle(names))),
        BuildFault::CrossDependency { item, set } => of_holder(document, item, set),
        BuildFault::SetsIntersect {
            first,
            second,
            system,
        } => of_sharing(document, first, second, system),
        BuildFault::BadQuery { owner, query, case } => of_query(document, owner, *query, *case),
        BuildFault::BadConditionQuery {
            condition,
            query,
            case,
        } => of_condition_query(document, *condition, *query, *case),
        BuildFault::ConditionWrites(condition) => of_writes(document, *condition),
        BuildFault::OverLimit(limit) => of_limit(document, *limit),
        BuildFault::SelfConflict(_) | BuildFault::Memory => None,
    }
}

// Names that go round in a circle, each step of which is marked.
fn of_names(reason: BuildReason<'_>) -> Found<'_> {
    Found::bare(Reason::Build(reason))
}

/// What is marked for a step of the circle of a reason, by its number: an item in a set, or an order.
pub fn mark_of_step<'a>(
    alloc: Global,
    index: &Index<'a>,
    reason: BuildReason<'a>,
    at: usize,
) -> Result<Option<Mark<'a>>, AllocError> {
    let (item, next) = step_of(reason.circle(), at);
    let (target, label) = match reason {
        BuildReason::Cycle(_) => (
            order_of(alloc, index, item, next)?,
            Label::Order(item, next),
        ),
        _ => (set_of(index.document, item, next), Label::In(item, next)),
    };
    match target {
        Some(target) => Ok(Some(Mark { target, label })),
        None => Ok(None),
    }
}

// A step of a circle of names: the name of this number, and the next.
fn step_of(names: &[String], at: usize) -> (&str, &str) {
    let first = names.get(at);
    let next = names.get(at.saturating_add(1)).or(names.first());
    match (first, next) {
        (Some(first), Some(next)) => (first.as_str(), next.as_str()),
        _ => ("", ""),
    }
}

// Where an item is said to be in a set.
fn set_of<'a>(document: &'a Table, item: &str, set: &str) -> Option<Target<'a>> {
    let (_, owner, table) = item_named(document, item, 0)?;
    named_at(owner, table, "in", set)
}

// The first name that is looked up and isn't there.
fn of_unknown<'a>(document: &'a Table, name: &'a str) -> Option<Found<'a>> {
    let is_system = item_named(document, name, 0).is_some();
    for number in 0..item_count(document) {
        let (owner, table) = item_at(document, number)?;
        if let Some(target) = unknown_in(owner, table, name, is_system) {
            return Some(of_no_item(document, name, is_system, target));
        }
    }
    for number in 0..items_at(document, "chain").len() {
        let owner = Owner::of(document, Place::Chain(number));
        if let Some(target) = named_at(owner, owner.table(document)?, "items", name) {
            return Some(of_no_item(document, name, false, target));
        }
    }
    None
}

// The first text of an item that is a name: where that is a system's, of the sets that the item is in.
fn unknown_in<'a>(
    owner: Owner<'a>,
    table: &'a Table,
    name: &str,
    is_system: bool,
) -> Option<Target<'a>> {
    for key in NAME_KEYS {
        if key == "in" || !is_system {
            let target = named_at(owner, table, key, name);
            if target.is_some() {
                return target;
            }
        }
    }
    None
}

// A name that is none of a set, or of a set or a system.
fn of_no_item<'a>(
    document: &'a Table,
    name: &'a str,
    is_system: bool,
    target: Target<'a>,
) -> Found<'a> {
    let names = if target.key == "in" {
        Names::Sets(document)
    } else {
        Names::Items(document)
    };
    let reason = BuildReason::NoItem(names, name, is_system);
    Found::of(Reason::Build(reason), target)
}

// The first two items of a name.
fn of_twice<'a>(document: &'a Table, name: &'a str) -> Option<Found<'a>> {
    let (number, first, table) = item_named(document, name, 0)?;
    let (_, second, other) = item_named(document, name, number.saturating_add(1))?;
    let reason = Reason::Build(BuildReason::Twice(name));
    let found = Found::of(reason, name_of(second, other));
    Some(found.beside(name_of(first, table), "first here"))
}

// A set that is in itself.
fn of_loop<'a>(document: &'a Table, name: &'a str) -> Option<Found<'a>> {
    let target = set_of(document, name, name)?;
    Some(Found::of(Reason::Build(BuildReason::InItself(name)), target))
}

// An item that is ordered with itself.
fn of_self_order<'a>(document: &'a Table, name: &'a str) -> Option<Found<'a>> {
    let target = first_order(document, name, name)?;
    let reason = BuildReason::OrderedWithItself(name);
    Some(Found::of(Reason::Build(reason), target))
}

// An item that is ordered with a set that holds it.
fn of_holder<'a>(document: &'a Table, item: &'a str, set: &'a str) -> Option<Found<'a>> {
    let target = match first_order(document, item, set) {
        Some(target) => target,
        None => first_order(document, set, item)?,
    };
    let reason = BuildReason::WithHolder(item, set);
    Some(Found::of(Reason::Build(reason), target))
}

// Two sets that are ordered, and share a system.
fn of_sharing<'a>(
    document: &'a Table,
    first: &'a str,
    second: &'a str,
    system: &'a str,
) -> Option<Found<'a>> {
    let target = first_order(document, first, second)?;
    let reason = BuildReason::Sharing(first, second, system);
    let found = Found::of(Reason::Build(reason), target);
    match item_named(document, system, 0) {
        Some((_, owner, table)) => Some(found.beside(name_of(owner, table), "in both")),
        None => Some(found),
    }
}

/// Where an item is ordered before another: itself, or a set that holds it.
pub fn order_of<'a>(
    alloc: Global,
    index: &Index<'a>,
    first: &str,
    second: &str,
) -> Result<Option<Target<'a>>, AllocError> {
    let target = first_order(index.document, first, second);
    if target.is_some() {
        return Ok(target);
    }
    let firsts = index.holders(alloc, first)?;
    let seconds = index.holders(alloc, second)?;
    Ok(index.order_between(firsts.as_slice(), seconds.as_slice()))
}

// ---- queries of systems and conditions

// A query of a system that is at fault.
fn of_query<'a>(document: &'a Table, owner: &'a str, query: usize, case: u32) -> Option<Found<'a>> {
    let (_, owner, table) = item_named(document, owner, 0)?;
    let text = item_text(items_at(table, "query"), query);
    let target = Target::text(owner, "query", Some(query), text);
    Some(of_terms(target, Word::whole(text), case))
}

// A query of a condition that is at fault.
fn of_condition_query<'a>(
    document: &'a Table,
    condition: usize,
    query: usize,
    case: u32,
) -> Option<Found<'a>> {
    let (owner, number, text) = condition_at(document, condition)?;
    let target = Target::text(owner, "if", Some(number), text);
    Some(of_terms(target, query_in(Word::whole(text), query)?, case))
}

// The terms for which a query is at fault.
fn of_terms<'a>(target: Target<'a>, query: Word<'a>, case: u32) -> Found<'a> {
    let (words, others) = match case {
        1 => (REQUIRING, EXCLUDING),
        2 => (FETCHING, FETCHING),
        _ => (&["opt"] as &[&str], EXCLUDING),
    };
    for kind in Kind::ALL {
        if let Some((term, rest)) = term_with(query, words, kind.name()) {
            let from = if case == 2 { rest } else { query };
            if let Some((other, _)) = term_with(from, others, kind.name()) {
                let reason = Reason::Build(BuildReason::BadQuery(case, Some(kind)));
                let found = Found::of(reason, target.within(term));
                let beside = target.within(other);
                return found.beside(beside, "and here");
            }
        }
    }
    Found::of(Reason::Build(BuildReason::BadQuery(case, None)), target)
}

// A condition that writes.
fn of_writes<'a>(document: &'a Table, condition: usize) -> Option<Found<'a>> {
    let (owner, number, text) = condition_at(document, condition)?;
    let target = Target::text(owner, "if", Some(number), text);
    let from = text.find("mut ").unwrap_or(0);
    let reason = Reason::Build(BuildReason::Writes);
    Some(Found::of(reason, target.within(Word { from, text: "mut" })))
}

// ---- limits

// The first thing that is one too many.
fn of_limit<'a>(document: &'a Table, limit: u32) -> Option<Found<'a>> {
    let target = match limit {
        1 => Target::table(Owner::of(document, Place::System(MOST_SYSTEMS))),
        2 => Target::table(Owner::of(document, Place::Set(MOST_SETS))),
        3 => {
            let (owner, number, text) = condition_at(document, MOST_CONDITIONS)?;
            Target::text(owner, "if", Some(number), text)
        }
        _ => system_over(document, limit)?,
    };
    Some(Found::of(Reason::Build(BuildReason::OverLimit(limit)), target))
}

// The first system that has too many queries, or is granted too many ids.
fn system_over<'a>(document: &'a Table, limit: u32) -> Option<Target<'a>> {
    for (number, value) in items_at(document, "system").iter().enumerate() {
        let owner = Owner::of(document, Place::System(number));
        let table = table_of(value)?;
        let queries = items_at(table, "query");
        if limit == 4 && queries.len() > MOST_QUERIES {
            let text = item_text(queries, MOST_QUERIES);
            return Some(Target::text(owner, "query", Some(MOST_QUERIES), text));
        }
        if limit == 5 {
            if let Some(Value::Integer(count)) = table.get("spawns") {
                if *count > MOST_IDS {
                    return Some(Target::value(owner, "spawns", None));
                }
            }
        }
    }
    None
}
