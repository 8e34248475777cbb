// A query: the list of its terms.

ghost use Rattle.std.specs.Prelude.{◌≡◌, [], ◌∷◌, ◌++◌, map, OnOk, OnErr, IfOk};
ghost use Rattle.std.specs.List.{list_any};
ghost use Rattle.kinds.specs.Kind.{kind_number};
ghost use Rattle.model.specs.Lists.{is_number};
ghost use Rattle.model.specs.access.Query.{touched, written, touches, writes, is_filter};
ghost use Rattle.model.specs.access.QueryFaults.{required};
ghost use Rattle.query.specs.Term.{term_of};

use crate::term::Term;
use kinds::Kind;
use smallvec::SmallVec;
use std::alloc::{AllocError, Global};
use std::marker::Model;

/// A query: its terms in order. Contracts see the list of terms, each over the number of its kind.
pub struct Query {
    terms: SmallVec<Term, 4>,
}

// One function drops it wherever it is let go.
impl Drop for Query {
    fn drop(self) {
        let Query { terms: _ } = self;
    }
}

impl Model for Query {
    ghost use Rattle.std.specs.Prelude.{List, map};
    ghost use Rattle.model.specs.access.Query.{Term};
    ghost use Rattle.query.specs.Term.{term_of};

    ghost Value = { List Term };

    ghost view = { λ q. map term_of q.terms.items };
}

impl Query {
    /// The query without terms, which matches every entity.
    pub fn new(alloc: Global) -> Self
        ensures { result ≡ [] }
    {
        Query {
            terms: SmallVec::new(alloc),
        }
    }

    /// The query with these terms.
    pub fn of_terms(alloc: Global, terms: &[Term]) -> Result<Self, AllocError>
        ensures { IfOk result (λ query. query ≡ map term_of terms.now) }
    {
        Ok(Query {
            terms: SmallVec::from_slice(alloc, terms)?,
        })
    }

    /// Adds a term at the end. Where an allocation fails the query stays as it was.
    pub fn push(&mut self, term: Term) -> Result<(), AllocError>
        ensures ok { OnOk result (self.new ≡ self.old ++ term_of term ∷ []) }
        ensures err { OnErr result (self.new ≡ self.old) }
    {
        self.terms.push(term)?;
        Ok(())
    }

    /// The terms, in order.
    pub fn terms(&self) -> &[Term]
        ensures { map term_of result.now ≡ self.now }
    {
        self.terms.as_slice()
    }

    /// Whether a term of the query touches the kind.
    #[tactic(auto, using(crate::proofs::Terms::any_of_terms))]
    pub fn touches(&self, kind: Kind) -> bool
        ensures { result ≡ touches self.now (kind_number kind) }
    {
        any_touches(self.terms(), kind)
    }

    /// Whether a term of the query writes the kind.
    #[tactic(auto, using(crate::proofs::Terms::any_of_terms))]
    pub fn writes(&self, kind: Kind) -> bool
        ensures { result ≡ writes self.now (kind_number kind) }
    {
        any_writes(self.terms(), kind)
    }

    /// Whether some term is an `added` or `changed` term.
    #[tactic(auto, using(crate::proofs::Terms::any_of_terms))]
    pub fn has_filter(&self) -> bool
        ensures { result ≡ list_any is_filter self.now }
    {
        any_filter(self.terms())
    }
}

// Whether some of the terms touches the kind.
fn any_touches(terms: &[Term], kind: Kind) -> bool
    ensures { result
        ≡ list_any (λ t. is_number (kind_number kind) (touched (term_of t))) terms.now }
{
    terms.iter().any(|term| term.touches(kind))
}

// Whether some of the terms writes the kind.
fn any_writes(terms: &[Term], kind: Kind) -> bool
    ensures { result
        ≡ list_any (λ t. is_number (kind_number kind) (written (term_of t))) terms.now }
{
    terms.iter().any(|term| term.writes(kind))
}

// Whether some of the terms is an `added` or `changed` term.
fn any_filter(terms: &[Term]) -> bool
    ensures { result ≡ list_any (λ t. is_filter (term_of t)) terms.now }
{
    terms.iter().any(|term| term.is_filter())
}

// Whether some of the terms requires the kind.
pub(crate) fn any_requires(terms: &[Term], kind: Kind) -> bool
    ensures { result
        ≡ list_any (λ t. is_number (kind_number kind) (required (term_of t))) terms.now }
{
    terms.iter().any(|term| term.requires_kind(kind))
}
