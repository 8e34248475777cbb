// What is wrong with a query by itself.

ghost use Rattle.std.specs.Prelude.{◌≡◌, map, Some, None, MatchResult};
ghost use Rattle.std.specs.List.{list_any};
ghost use Rattle.std.specs.Option.{option_map};
ghost use Rattle.kinds.specs.Kind.{kind_number};
ghost use Rattle.model.specs.access.QueryFaults.{required, excluded, optional, fetched, is_misnumbered, requires_excluded, fetches_twice, opts_excluded, has_many_ors, misuses_or, query_fault};
ghost use Rattle.query.specs.Term.{term_of};
ghost use Rattle.query.specs.Named.{any_names, names_excluded};
ghost use Rattle.query.specs.BadQuery.{fault_number, bad_query_text};

use crate::query::{Query, any_requires};
use crate::term::Term;
use kinds::Kind;
use std::error::Error;
use std::fmt;

/// A fault of a query. Printed as its number.
#[derive(Clone, Copy, PartialEq, Eq, Debug)]
pub enum BadQuery {
    /// 1: one term requires a kind that another excludes.
    RequiredExcluded,
    /// 2: two terms fetch one kind.
    FetchedTwice,
    /// 3: an `opt` term has a kind that another term excludes.
    OptExcluded,
    /// 4: there are more than two `or` terms, or one without two to four alternatives.
    OrMisused,
}

impl BadQuery {
    /// The number of the fault: of several, the least is reported.
    pub fn number(self) -> u32
        ensures { result ≡ fault_number self }
    {
        match self {
            BadQuery::RequiredExcluded => 1,
            BadQuery::FetchedTwice => 2,
            BadQuery::OptExcluded => 3,
            BadQuery::OrMisused => 4,
        }
    }
}

impl fmt::Display for BadQuery {
    ghost output = { λ fault. Some (bad_query_text fault) };

    fn fmt<W: fmt::Write>(&self, f: &mut fmt::Formatter<W>) -> fmt::Result {
        match self {
            BadQuery::RequiredExcluded => f.write_str("1"),
            BadQuery::FetchedTwice => f.write_str("2"),
            BadQuery::OptExcluded => f.write_str("3"),
            BadQuery::OrMisused => f.write_str("4"),
        }
    }
}

impl Error for BadQuery {}

impl Query {
    /// Whether the query is without fault, or the least fault that holds.
    pub fn check(&self) -> Result<(), BadQuery>
        ensures { MatchResult result (λ _. query_fault self.now ≡ None) (λ fault. query_fault
            self.now
            ≡ Some (fault_number fault)) }
    {
        let terms = self.terms();
        if requires_excluded(terms) {
            return Err(BadQuery::RequiredExcluded);
        }
        if fetches_twice(terms) {
            return Err(BadQuery::FetchedTwice);
        }
        if opts_excluded(terms) {
            return Err(BadQuery::OptExcluded);
        }
        if misuses_or(terms) {
            return Err(BadQuery::OrMisused);
        }
        Ok(())
    }
}

// Whether the terms require a kind that they exclude. Each kind is looked for once, so many terms take no more than their
// number times that of the kinds.
fn requires_excluded(terms: &[Term]) -> bool
    ensures { result ≡ requires_excluded (map term_of terms.now) }
{
    any_required_excluded(Kind::every(), terms)
}

// Whether the terms require and exclude one of the kinds.
fn any_required_excluded(kinds: &[Kind], terms: &[Term]) -> bool
    ensures { result
        ≡ list_any (λ kind. names_excluded required terms.now (kind_number kind)) kinds.now }
{
    kinds.iter().any(|kind| is_required_excluded(*kind, terms))
}

// Whether the terms require and exclude the kind.
fn is_required_excluded(kind: Kind, terms: &[Term]) -> bool
    ensures { result ≡ names_excluded required terms.now (kind_number kind) }
{
    if any_requires(terms, kind) {
        return any_excludes(terms, kind);
    }
    false
}

// Whether some of the terms excludes the kind.
fn any_excludes(terms: &[Term], kind: Kind) -> bool
    ensures { result ≡ any_names excluded terms.now (kind_number kind) }
{
    terms.iter().any(|term| term.excludes(kind))
}

// Whether a kind is fetched by two of the terms.
fn fetches_twice(terms: &[Term]) -> bool
    ensures { result ≡ fetches_twice (map term_of terms.now) }
{
    let mut rest = terms;
    while let Some((term, others)) = rest.split_first() {
        if let Some(kind) = term.fetched() {
            if any_fetches(others, kind) {
                return true;
            }
        }
        rest = others;
    }
    false
}

// Whether one of the terms fetches the kind.
fn any_fetches(terms: &[Term], kind: Kind) -> bool
    ensures { result ≡ any_names fetched terms.now (kind_number kind) }
{
    terms.iter().any(|term| term.fetches(kind))
}

// Whether the terms have an `opt` term of a kind that they exclude.
fn opts_excluded(terms: &[Term]) -> bool
    ensures { result ≡ opts_excluded (map term_of terms.now) }
{
    any_opt_excluded(Kind::every(), terms)
}

// Whether the terms have an `opt` term of one of the kinds and exclude it.
fn any_opt_excluded(kinds: &[Kind], terms: &[Term]) -> bool
    ensures { result
        ≡ list_any (λ kind. names_excluded optional terms.now (kind_number kind)) kinds.now }
{
    kinds.iter().any(|kind| is_opt_excluded(*kind, terms))
}

// Whether the terms have an `opt` term of the kind and exclude it.
fn is_opt_excluded(kind: Kind, terms: &[Term]) -> bool
    ensures { result ≡ names_excluded optional terms.now (kind_number kind) }
{
    if any_opts(terms, kind) {
        return any_excludes(terms, kind);
    }
    false
}

// Whether some of the terms is an `opt` term of the kind.
fn any_opts(terms: &[Term], kind: Kind) -> bool
    ensures { result ≡ any_names optional terms.now (kind_number kind) }
{
    terms.iter().any(|term| term.is_optional(kind))
}

// Whether there are more than two `or` terms, or one without two to four alternatives.
fn misuses_or(terms: &[Term]) -> bool
    ensures { result ≡ misuses_or (map term_of terms.now) }
{
    if has_many_ors(terms) {
        return true;
    }
    any_misnumbered(terms)
}

/// Whether there are more than two `or` terms.
pub(crate) fn has_many_ors(terms: &[Term]) -> bool
    ensures { result ≡ has_many_ors (map term_of terms.now) }
{
    let mut count: usize = 0;
    for term in terms {
        if term.is_or() {
            count += 1;
        }
    }
    2 < count
}

// Whether one is an `or` term without two to four alternatives.
#[tactic(auto, using(crate::proofs::Terms::any_of_terms))]
fn any_misnumbered(terms: &[Term]) -> bool
    ensures { result ≡ list_any is_misnumbered (map term_of terms.now) }
{
    any_misnumbered_term(terms)
}

// Whether one of these terms is an `or` term without two to four alternatives.
fn any_misnumbered_term(terms: &[Term]) -> bool
    ensures { result ≡ list_any (λ t. is_misnumbered (term_of t)) terms.now }
{
    terms.iter().any(|term| term.is_misnumbered())
}
