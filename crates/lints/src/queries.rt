// What is found of the queries of a system.

ghost use Rattle.std.specs.Prelude.{◌≡◌, ◌<◌, OnOk, length, get_or, []};
ghost use Rattle.std.specs.List.{list_any};
ghost use Rattle.kinds.specs.Kind.{kind_count, kind_number};
ghost use Rattle.model.specs.Lists.{is_number};
ghost use Rattle.model.specs.access.QueryFaults.{required};
ghost use Rattle.query.specs.Term.{term_of};
ghost use Rattle.lints.specs.Collected.{Adds, Among};
ghost use Rattle.lints.specs.Kinds.{requires_kind};
ghost use Rattle.lints.specs.Lints.{IsOfKind, IsOfKinds, IsOfQueries, IsOfQuery, is_entity, is_no_match, is_reading, is_unread_entity, is_unread_term, is_unused_mut, kind_at, reads, shows_entity, works};

use crate::adding::add_where;
use crate::deeds::{Deed, Thing, done_at, done_by};
use crate::lint::Lint;
use kinds::Kind;
use query::{Query, Term};
use script::Block;
use std::alloc::AllocError;

// Whether a term reads a kind and doesn't write it.
fn is_reading(kind: Kind, term: Term) -> bool
    ensures { result ≡ is_reading (kind_number kind) (term_of term) }
{
    match term {
        Term::Read(own) | Term::Opt(own) => own.number() == kind.number(),
        _ => false,
    }
}

// Whether one of these does.
fn any_reading(kind: Kind, terms: &[Term]) -> bool
    ensures { result ≡ list_any (λ t. is_reading (kind_number kind) (term_of t)) terms.now }
{
    terms.iter().any(|term| is_reading(kind, *term))
}

// Whether a query has such a term.
#[tactic(auto, using(query::proofs::Terms::of_kinds))]
fn reads(query: &Query, kind: Kind) -> bool
    ensures { result ≡ reads query.now (kind_number kind) }
{
    any_reading(kind, query.terms())
}

// Whether one of these terms requires a kind.
fn any_requiring(kind: Kind, terms: &[Term]) -> bool
    ensures { result
        ≡ list_any (λ t. is_number (kind_number kind) (required (term_of t))) terms.now }
{
    terms.iter().any(|term| term.requires_kind(kind))
}

// Whether a query requires a kind.
#[tactic(auto, using(query::proofs::Terms::of_kinds))]
pub(crate) fn requires_kind(query: &Query, kind: Kind) -> bool
    ensures { result ≡ requires_kind query.now (kind_number kind) }
{
    any_requiring(kind, query.terms())
}

// Whether a term shows the entities of its rows.
fn is_entity(term: Term) -> bool
    ensures { result ≡ is_entity (term_of term) }
{
    match term {
        Term::Entity => true,
        _ => false,
    }
}

// Whether one of these does.
fn any_entity(terms: &[Term]) -> bool
    ensures { result ≡ list_any (λ t. is_entity (term_of t)) terms.now }
{
    terms.iter().any(|term| is_entity(*term))
}

// Whether a query shows the entities of its rows.
#[tactic(auto, using(query::proofs::Terms::of_kinds))]
fn shows_entity(query: &Query) -> bool
    ensures { result ≡ shows_entity query.now }
{
    any_entity(query.terms())
}

// Whether a system with these blocks has code.
pub(crate) fn works(blocks: &[Block]) -> bool
    ensures { result ≡ works blocks.now }
{
    done_by(Deed::Anything, blocks)
}

// Whether a `mut` term of a kind is never written.
fn is_unused_mut(blocks: &[Block], query: &Query, number: usize, kind: Kind) -> bool
    ensures { result ≡ is_unused_mut blocks.now query.now number kind }
{
    let deed = Deed::Writes(Thing::Component(kind));
    works(blocks) && (query.writes(kind) && !done_at(number, deed, blocks))
}

// Whether a `read` or `opt` term of a kind is never used.
fn is_unread_term(blocks: &[Block], query: &Query, number: usize, kind: Kind) -> bool
    ensures { result ≡ is_unread_term blocks.now query.now number kind }
{
    let deed = Deed::Uses(Thing::Component(kind));
    works(blocks) && (reads(query, kind) && !done_at(number, deed, blocks))
}

// Whether the entities of its rows are shown for no command.
fn is_unread_entity(blocks: &[Block], query: &Query, number: usize) -> bool
    ensures { result ≡ is_unread_entity blocks.now query.now number }
{
    works(blocks) && (shows_entity(query) && !done_at(number, Deed::OfRow, blocks))
}

// Whether a kind is required, and not present.
fn is_no_match(is_present: bool, query: &Query, kind: Kind) -> bool
    ensures { result ≡ is_no_match is_present query.now kind }
{
    requires_kind(query, kind) && !is_present
}

// A query of a system, by their numbers.
#[derive(Clone, Copy)]
pub struct At {
    /// The number of the system.
    pub system: usize,
    /// The number of the query.
    pub query: usize,
}

// Adds what is found of a kind in a query, of which it is known whether it is on some entity.
fn add_of_kind(
    found: &mut Vec<Lint>,
    blocks: &[Block],
    query: &Query,
    at: At,
    kind: Kind,
    is_present: bool,
) -> Result<(), AllocError>
    ensures { OnOk result (Adds
        (IsOfKind blocks.now is_present at.system at.query query.now kind) found.old.items
        found.new.items) }
{
    let is_unused = is_unused_mut(blocks, query, at.query, kind);
    let is_unread = is_unread_term(blocks, query, at.query, kind);
    let is_unmatched = is_no_match(is_present, query, kind);
    let At { system, query } = at;
    add_where(
        found,
        is_unused,
        Lint::UnusedMut {
            system,
            query,
            kind,
        },
    )?;
    add_where(
        found,
        is_unread,
        Lint::UnreadTerm {
            system,
            query,
            kind,
        },
    )?;
    add_where(
        found,
        is_unmatched,
        Lint::NoMatch {
            system,
            query,
            kind,
        },
    )?;
    Ok(())
}

// Adds what is found of the kind of this number.
fn add_of_number(
    found: &mut Vec<Lint>,
    blocks: &[Block],
    query: &Query,
    at: At,
    number: usize,
    present: &[bool],
) -> Result<(), AllocError>
    requires known { number < kind_count }
    requires present { length present.now ≡ kind_count }
    ensures { OnOk result (Adds
        (IsOfKinds blocks.now present.now at.system at.query query.now number) found.old.items
        found.new.items) }
{
    let kind = kind_at(number);
    add_of_kind(found, blocks, query, at, kind, present[number])?;
    Ok(())
}

// The kind of a number.
#[tactic(auto, unfolding(crate::specs::Lints::kind_at))]
fn kind_at(number: usize) -> Kind
    requires { number < kind_count }
    ensures { result ≡ kind_at number }
{
    Kind::ALL[number]
}

// Adds what is found of a query.
fn add_of_query(
    found: &mut Vec<Lint>,
    blocks: &[Block],
    query: &Query,
    at: At,
    present: &[bool],
) -> Result<(), AllocError>
    requires { length present.now ≡ kind_count }
    ensures { OnOk result (Adds (IsOfQuery blocks.now present.now at.system at.query query.now)
        found.old.items found.new.items) }
{
    let is_unread = is_unread_entity(blocks, query, at.query);
    let unread = Lint::UnreadEntity {
        system: at.system,
        query: at.query,
    };
    add_where(found, is_unread, unread)?;
    add_of_kinds(found, blocks, query, at, present)?;
    Ok(())
}

// Adds what is found of the kinds in a query.
fn add_of_kinds(
    found: &mut Vec<Lint>,
    blocks: &[Block],
    query: &Query,
    at: At,
    present: &[bool],
) -> Result<(), AllocError>
    requires { length present.now ≡ kind_count }
    ensures { OnOk result (Adds
        (Among kind_count (IsOfKinds blocks.now present.now at.system at.query query.now))
        found.old.items found.new.items) }
{
    for number in 0..Kind::COUNT {
        add_of_number(found, blocks, query, at, number, present)?;
    }
    Ok(())
}

// Adds what is found of the queries of a system, of which each kind that is on some entity is known.
pub(crate) fn add_of_queries(
    found: &mut Vec<Lint>,
    blocks: &[Block],
    queries: &[Query],
    system: usize,
    present: &[bool],
) -> Result<(), AllocError>
    requires { length present.now ≡ kind_count }
    ensures { OnOk result (Adds
        (Among (length queries.now) (IsOfQueries blocks.now present.now system queries.now))
        found.old.items found.new.items) }
{
    for query in 0..queries.len() {
        let at = At { system, query };
        add_of_query(found, blocks, &queries[query], at, present)?;
    }
    Ok(())
}
