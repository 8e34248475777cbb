// The kinds of a query as the bits of words, so that two queries are compared a word at a time.

ghost use Rattle.std.specs.Prelude.{◌≡◌, ◌||◌, ◌++◌, ℕ, map, IfOk};
ghost use Rattle.std.specs.List.{list_any, list_all};
ghost use Rattle.std.specs.Option.{option_map};
ghost use Rattle.kinds.specs.Kind.{kind_number};
ghost use Rattle.query.specs.Term.{term_of};
ghost use Rattle.query.specs.Alternative.{alternative_of, alternatives_of, listed};
ghost use Rattle.model.specs.Lists.{is_number};
ghost use Rattle.model.specs.access.Query.{touched, written, holds_in};
ghost use Rattle.model.specs.access.Conflict.{choices};
ghost use Rattle.model.specs.access.QueryFaults.{required, excluded};
ghost use Rattle.access_set.specs.Footprints.{has_bit, with_bit, way_with, kinds_shared, way_of_both, kinds_met, met_in, footprints_meet, footprints_meet_at, is_writing, IsWords, IsFootprint};
ghost use Rattle.access_set.specs.MeetsIn.{footprint_matches, footprints_meet_by};

use kinds::Kind;
use kinds::kind::prove_kinds_apart;
use query::{Alternative, Alternatives, Query, Term};
use smallvec::SmallVec;
use std::alloc::{AllocError, Global};

/// What a query touches, and what it asks of the kinds of an entity.
pub(crate) struct Footprint {
    /// What its terms but the `or` terms name.
    pub(crate) words: Words,
    /// The alternatives of its `or` terms, term by term.
    pub(crate) choices: SmallVec<Alternatives, 1>,
}

// One function drops it wherever it is let go.
impl Drop for Footprint {
    fn drop(self) {
        let Footprint {
            words: _,
            choices: _,
        } = self;
    }
}

/// The kinds that a query touches, writes, requires and excludes: in each word the bits of their numbers.
#[derive(Clone, Copy)]
pub(crate) struct Words {
    /// Those that it touches.
    pub(crate) touched: u64,
    /// Those that it writes.
    pub(crate) written: u64,
    /// Those that an entity must have.
    pub(crate) required: u64,
    /// Those that an entity must lack.
    pub(crate) excluded: u64,
}

/// The kinds that an entity must have and those that it must lack to match two queries in one way: with some alternatives of their
/// `or` terms taken.
#[derive(Clone, Copy)]
pub(crate) struct Way {
    /// Those that it must have.
    pub(crate) required: u64,
    /// Those that it must lack.
    pub(crate) excluded: u64,
}

impl Footprint {
    /// The footprint of a query. It takes memory where the query has more than one `or` term.
    pub(crate) fn of_query(alloc: Global, query: &Query) -> Result<Self, AllocError>
        ensures { IfOk result (IsFootprint query.now) }
    {
        prove_kinds_apart();
        Ok(Footprint {
            words: Words::of_query(query),
            choices: choices_of(alloc, query.terms())?,
        })
    }

    /// Whether two queries of these footprints conflict.
    pub(crate) fn meets(&self, other: &Footprint) -> bool
        ensures { result ≡ footprints_meet self.now other.now }
    {
        let shared = self.words.shared(other.words);
        let way = self.words.way(other.words);
        met_in(
            shared,
            way,
            self.choices.as_slice(),
            other.choices.as_slice(),
        )
    }

    /// Whether they conflict at the kind.
    pub(crate) fn meets_at(&self, other: &Footprint, kind: Kind) -> bool
        ensures { result ≡ footprints_meet_at self.now other.now (kind_number kind) }
    {
        let shared = self.words.shared(other.words) & with_bit(0, kind);
        let way = self.words.way(other.words);
        met_in(
            shared,
            way,
            self.choices.as_slice(),
            other.choices.as_slice(),
        )
    }

    /// Whether two queries of these footprints conflict by the set of kinds of a word.
    pub(crate) fn meets_by(&self, other: &Footprint, set: u64) -> bool
        ensures { result ≡ footprints_meet_by self.now other.now set }
    {
        self.matches(set) && other.matches(set) && self.words.shared(other.words) & set != 0
    }

    // Whether the set of kinds of a word matches a query of this footprint.
    #[tactic(auto, using(crate::proofs::MeetsIn::of_choices))]
    fn matches(&self, set: u64) -> bool
        ensures { result ≡ footprint_matches set self.now }
    {
        self.words.required & set == self.words.required
            && self.words.excluded & set == 0
            && is_chosen_of_each(self.choices.as_slice(), set)
    }

    /// Whether a query of this footprint can match without its `or` terms, and writes.
    pub(crate) fn is_writing(&self) -> bool
        ensures { result ≡ is_writing self.now }
    {
        self.words.written != 0 && self.words.required & self.words.excluded == 0
    }
}

impl Words {
    // The words of a query.
    fn of_query(query: &Query) -> Self
        ensures { IsWords query.now result }
    {
        let mut words = Words {
            touched: 0,
            written: 0,
            required: 0,
            excluded: 0,
        };
        for term in query.terms() {
            words = words.with_term(*term);
        }
        words
    }

    // The words with one more term.
    fn with_term(self, term: Term) -> Self
        ensures touched { (kind : ℕ)
            → has_bit result.touched kind
            ≡ (is_number kind (touched (term_of term)) || has_bit self.touched kind) }
        ensures written { (kind : ℕ)
            → has_bit result.written kind
            ≡ (is_number kind (written (term_of term)) || has_bit self.written kind) }
        ensures required { (kind : ℕ)
            → has_bit result.required kind
            ≡ (is_number kind (required (term_of term)) || has_bit self.required kind) }
        ensures excluded { (kind : ℕ)
            → has_bit result.excluded kind
            ≡ (is_number kind (excluded (term_of term)) || has_bit self.excluded kind) }
    {
        Words {
            touched: with_kind(self.touched, term.touched()),
            written: with_kind(self.written, term.written()),
            required: with_kind(self.required, term.required()),
            excluded: with_kind(self.excluded, term.excluded()),
        }
    }

    // The kinds that both touch and one writes.
    fn shared(self, other: Words) -> u64
        ensures { result ≡ kinds_shared self other }
    {
        self.touched & other.touched & (self.written | other.written)
    }

    // What an entity must have and lack to match both, before an alternative of an `or` term is taken.
    fn way(self, other: Words) -> Way
        ensures { result ≡ way_of_both self other }
    {
        Way {
            required: self.required | other.required,
            excluded: self.excluded | other.excluded,
        }
    }
}

impl Way {
    // The way with one more alternative taken.
    fn with(self, alternative: Alternative) -> Self
        ensures { result ≡ way_with (alternative_of alternative) self }
    {
        match alternative {
            Alternative::With(kind) => Way {
                required: with_bit(self.required, kind),
                excluded: self.excluded,
            },
            Alternative::Without(kind) => Way {
                required: self.required,
                excluded: with_bit(self.excluded, kind),
            },
        }
    }

    // Of the shared kinds those that an entity may have that matches both queries in this way.
    fn kinds_met(self, shared: u64) -> u64
        ensures { result ≡ kinds_met shared self }
    {
        if self.required & self.excluded != 0 {
            return 0;
        }
        shared ^ (shared & self.excluded)
    }
}

// The alternatives of the `or` terms, term by term.
fn choices_of(alloc: Global, terms: &[Term]) -> Result<SmallVec<Alternatives, 1>, AllocError>
    ensures { IfOk result (λ list. map alternatives_of list.items
        ≡ choices (map term_of terms.now)) }
{
    let mut list = SmallVec::new(alloc);
    for term in terms {
        if let Some(alternatives) = term.choice() {
            list.push(alternatives)?;
        }
    }
    Ok(list)
}

// Whether an entity that matches both queries may have a shared kind, in some way that goes on from this one with an alternative of
// each choice.
fn met_in(shared: u64, way: Way, choices: &[Alternatives], more: &[Alternatives]) -> bool
    ensures { result
        ≡ met_in shared way (map alternatives_of choices.now ++ map alternatives_of more.now) }
{
    let Some((alternatives, rest)) = choices.split_first() else {
        if more.is_empty() {
            return way.kinds_met(shared) != 0;
        }
        return met_in(shared, way, more, &[]);
    };
    for alternative in alternatives.as_slice() {
        if met_in(shared, way.with(*alternative), rest, more) {
            return true;
        }
    }
    false
}

// Whether an alternative of each choice holds of the set of kinds of a word.
fn is_chosen_of_each(choices: &[Alternatives], set: u64) -> bool
    ensures { result
        ≡ list_all
        (λ alternatives. list_any (λ a. holds_in (has_bit set) (alternative_of a)) (listed
        alternatives))
        choices.now }
{
    choices
        .iter()
        .all(|alternatives| is_chosen_of(alternatives.as_slice(), set))
}

// Whether one of these alternatives holds of it.
fn is_chosen_of(alternatives: &[Alternative], set: u64) -> bool
    ensures { result ≡ list_any (λ a. holds_in (has_bit set) (alternative_of a)) alternatives.now }
{
    alternatives
        .iter()
        .any(|alternative| holds_in(*alternative, set))
}

// Whether the alternative holds of it.
fn holds_in(alternative: Alternative, set: u64) -> bool
    ensures { result ≡ holds_in (has_bit set) (alternative_of alternative) }
{
    match alternative {
        Alternative::With(kind) => has_kind(set, kind),
        Alternative::Without(kind) => !has_kind(set, kind),
    }
}

// Whether it has the kind.
fn has_kind(set: u64, kind: Kind) -> bool
    ensures { result ≡ has_bit set (kind_number kind) }
{
    prove_kinds_apart();
    (set >> kind.number()) & 1 == 1
}

// The word with the bit of the kind, where there is one.
fn with_kind(word: u64, kind: Option<Kind>) -> u64
    ensures { (number : ℕ)
        → has_bit result number
        ≡ (is_number number (option_map kind_number kind) || has_bit word number) }
{
    prove_kinds_apart();
    match kind {
        None => word,
        Some(kind) => with_bit(word, kind),
    }
}

// The word with the bit of the kind.
fn with_bit(word: u64, kind: Kind) -> u64
    ensures { result ≡ with_bit (kind_number kind) word }
{
    prove_kinds_apart();
    word | (1 << kind.number())
}
