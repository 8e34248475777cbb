// The parameters of a system that conflict.

use crate::build_reason::BuildReason;
use crate::finding::Found;
use crate::keys::item_text;
use crate::orders::{item_named, name_of, named_at};
use crate::owner::{Owner, items_at};
use crate::reason::Reason;
use crate::target::Target;
use crate::terms::{TOUCHING, WRITING, has_term, term_with};
use crate::word::Word;
use access_set::Params;
use access_set::datum::{Datum, why};
use kinds::Kind;
use parsing::ReadError;
use query::Query;
use std::alloc::{AllocError, Global};
use toml::{Table, Value};

// So many queries of a system are compared; a schedule takes fewer.
const MOST_COMPARED: usize = 32;

// Two queries that conflict on a kind, by their numbers.
#[derive(Clone, Copy)]
struct Meeting {
    first: usize,
    second: usize,
    kind: Kind,
}

/// Two parameters of a system that conflict.
pub fn of_conflict<'a>(
    alloc: Global,
    document: &'a Table,
    name: &'a str,
) -> Result<Option<Found<'a>>, AllocError> {
    let Some((_, owner, table)) = item_named(document, name, 0) else {
        return Ok(None);
    };
    let queries = items_at(table, "query");
    let meeting = first_meeting_in(alloc, queries)?;
    Ok(Some(of_system(owner, table, meeting)))
}

// The parameters of a system that conflict: what it names twice, two queries, or what isn't known.
fn of_system<'a>(owner: Owner<'a>, table: &'a Table, meeting: Option<Meeting>) -> Found<'a> {
    let found = of_touched(owner, table, "res_mut", "res").or(of_touched(
        owner, table, "writes", "reads",
    ));
    match (found, meeting) {
        (Some(found), _) => found,
        (None, Some(meeting)) => of_meeting(owner, items_at(table, "query"), meeting),
        (None, None) => {
            let reason = Reason::Build(BuildReason::Conflict(owner.name));
            Found::of(reason, name_of(owner, table))
        }
    }
}

// The first two queries that conflict.
fn first_meeting_in(alloc: Global, queries: &[Value]) -> Result<Option<Meeting>, AllocError> {
    let params = params_of(alloc, queries)?;
    Ok(first_meeting(params.as_slice()))
}

// A resource or event kind that is written and named twice.
fn of_touched<'a>(
    owner: Owner<'a>,
    table: &'a Table,
    written: &'static str,
    read: &'static str,
) -> Option<Found<'a>> {
    let items = items_at(table, written);
    for number in 0..items.len() {
        let word = item_text(items, number);
        let beside = match named_at(owner, table, read, word) {
            Some(target) => Some(target),
            None => named_at(owner, table, written, word),
        };
        if let Some(beside) = beside {
            if beside.key == read || beside.item != Some(number) {
                let reason = Reason::Build(BuildReason::TouchedTwice(owner.name, word));
                let target = Target::text(owner, written, Some(number), word);
                return Some(Found::of(reason, target).beside(beside, "and here"));
            }
        }
    }
    None
}

// The first queries, each by itself.
fn params_of(alloc: Global, queries: &[Value]) -> Result<Vec<Params>, AllocError> {
    let mut params = Vec::new(alloc);
    for number in 0..queries.len().min(MOST_COMPARED) {
        match Query::read(alloc, item_text(queries, number)) {
            Ok(query) => params.push(Params::of_query(alloc, query)?)?,
            Err(ReadError::Memory) => return Err(AllocError),
            Err(ReadError::Outside) => break,
        }
    }
    Ok(params)
}

// The first two of these that conflict.
fn first_meeting(params: &[Params]) -> Option<Meeting> {
    for second in 1..params.len() {
        for first in 0..second {
            if let Some(Datum::Kind(kind)) = why(&params[first], &params[second]) {
                return Some(Meeting {
                    first,
                    second,
                    kind,
                });
            }
        }
    }
    None
}

// The terms for which two queries conflict.
fn of_meeting<'a>(owner: Owner<'a>, queries: &'a [Value], meeting: Meeting) -> Found<'a> {
    let Meeting {
        first,
        second,
        kind,
    } = meeting;
    let (one, other) = (item_text(queries, first), item_text(queries, second));
    let (words, others) = if has_term(one, WRITING, kind.name()) {
        (WRITING, TOUCHING)
    } else {
        (TOUCHING, WRITING)
    };
    let reason = Reason::Build(BuildReason::Meets(owner.name, first, second, kind));
    let target = of_term(owner, first, one, words, kind);
    let found = Found::of(reason, target);
    found.beside(of_term(owner, second, other, others, kind), "and here")
}

// The term of a query that begins with one of these words and has a kind, or else the query.
fn of_term<'a>(
    owner: Owner<'a>,
    number: usize,
    text: &'a str,
    words: &[&str],
    kind: Kind,
) -> Target<'a> {
    let target = Target::text(owner, "query", Some(number), text);
    match term_with(Word::whole(text), words, kind.name()) {
        Some((term, _)) => target.within(term),
        None => target,
    }
}
