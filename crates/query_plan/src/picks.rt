// The columns that the rows of a query are in.

ghost use Rattle.std.specs.Prelude.{◌≡◌, ◌==◌, ◌<◌, ◌++◌, length, map, IfOk, OnOk};
ghost use Rattle.std.specs.List.{list_any, list_all, AllByRecursion};
ghost use Rattle.kinds.specs.Kind.{kind_number};
ghost use Rattle.model.specs.Lists.{has};
ghost use Rattle.model.specs.access.Query.{matches, holds_in, admits as term_admits};
ghost use Rattle.query.specs.Alternative.{alternative_of};
ghost use Rattle.query.specs.Term.{term_of};
ghost use Rattle.query_plan.specs.Candidates.{picked_at};
ghost use Rattle.query_plan.specs.Picks.{picked_in, picked_of, pick_seen};

use archetype_store::World;
use kinds::Kind;
use query::{Alternative, Presence, Query, Term};
use std::alloc::AllocError;

/// A column that the rows of a query are in.
#[derive(Clone, Copy, PartialEq, Eq)]
pub struct Pick {
    /// The number of its archetype among those that have entities, from 0.
    pub archetype: usize,
    /// The kind of its components.
    pub kind: Kind,
    /// Whether the query writes it.
    pub is_written: bool,
}

// The columns that the rows of a query are in: of each of these archetypes that the query matches those of the kinds that it touches, in
// the order of the archetypes and then of the kinds. They stand in the room of a list.
pub(crate) fn picks_in(
    query: &Query,
    world: &World,
    archetypes: &[usize],
    room: Vec<Pick>,
) -> Result<Vec<Pick>, AllocError>
    requires { AllByRecursion (λ n. n < length world.now.layout) archetypes.now }
    ensures { IfOk result (λ picks. map pick_seen picks.items
        ≡ picked_at query.now world.now.layout archetypes.now) }
{
    let mut picks = room;
    picks.clear();
    for archetype in archetypes {
        let view = world.archetype(*archetype);
        pick_of(&mut picks, query, *archetype, view.kinds)?;
    }
    Ok(picks)
}

// Picks the columns of an archetype of these kinds.
fn pick_of(
    picks: &mut Vec<Pick>,
    query: &Query,
    archetype: usize,
    kinds: &[Kind],
) -> Result<(), AllocError>
    ensures { OnOk result (map pick_seen picks.new.items
        ≡ map pick_seen picks.old.items
        ++ picked_of query.now archetype (map kind_number kinds.now)) }
{
    if matches_kinds(query, kinds) {
        pick_in(picks, query, archetype, kinds)?;
    }
    Ok(())
}

// Picks the columns of these kinds that a query touches.
fn pick_in(
    picks: &mut Vec<Pick>,
    query: &Query,
    archetype: usize,
    kinds: &[Kind],
) -> Result<(), AllocError>
    ensures { OnOk result (map pick_seen picks.new.items
        ≡ map pick_seen picks.old.items
        ++ picked_in query.now archetype (map kind_number kinds.now)) }
{
    for kind in kinds {
        if !query.touches(*kind) {
            continue;
        }
        picks.push(Pick {
            archetype,
            kind: *kind,
            is_written: query.writes(*kind),
        })?;
    }
    Ok(())
}

/// Whether a query matches these kinds.
#[tactic(auto, using(crate::proofs::RowLists::over_terms))]
pub fn matches_kinds(query: &Query, kinds: &[Kind]) -> bool
    ensures { result ≡ matches query.now (λ kind. has kind (map kind_number kinds.now)) }
{
    admit_all(query.terms(), kinds)
}

// Whether each of the terms admits these kinds.
fn admit_all(terms: &[Term], kinds: &[Kind]) -> bool
    ensures { result
        ≡ list_all
        (λ term. term_admits (λ kind. has kind (map kind_number kinds.now)) (term_of term))
        terms.now }
{
    terms.iter().all(|term| admits(*term, kinds))
}

// Whether a term admits these kinds.
fn admits(term: Term, kinds: &[Kind]) -> bool
    ensures { result ≡ term_admits (λ kind. has kind (map kind_number kinds.now)) (term_of term) }
{
    match term.presence() {
        Presence::Free => true,
        Presence::Has(kind) => is_among(kind, kinds),
        Presence::Lacks(kind) => !is_among(kind, kinds),
        Presence::AnyOf(alternatives) => any_holds(alternatives.as_slice(), kinds),
    }
}

// Whether one of the alternatives holds of these kinds.
#[tactic(auto, using(query::proofs::Terms::of_kinds))]
fn any_holds(alternatives: &[Alternative], kinds: &[Kind]) -> bool
    ensures { result
        ≡ list_any (holds_in (λ kind. has kind (map kind_number kinds.now))) (map alternative_of
        alternatives.now) }
{
    any_alternative(alternatives, kinds)
}

// Whether one of them does, alternative by alternative.
fn any_alternative(alternatives: &[Alternative], kinds: &[Kind]) -> bool
    ensures { result
        ≡ list_any (λ a. holds_in (λ kind. has kind (map kind_number kinds.now)) (alternative_of a))
        alternatives.now }
{
    alternatives
        .iter()
        .any(|alternative| holds(*alternative, kinds))
}

// Whether the alternative holds of these kinds.
fn holds(alternative: Alternative, kinds: &[Kind]) -> bool
    ensures { result
        ≡ holds_in (λ kind. has kind (map kind_number kinds.now)) (alternative_of alternative) }
{
    match alternative {
        Alternative::With(kind) => is_among(kind, kinds),
        Alternative::Without(kind) => !is_among(kind, kinds),
    }
}

// Whether a kind is among these.
#[tactic(auto, using(query::proofs::Terms::of_kinds))]
fn is_among(kind: Kind, kinds: &[Kind]) -> bool
    ensures { result ≡ has (kind_number kind) (map kind_number kinds.now) }
{
    any_is(kind, kinds)
}

// Whether one of these kinds is this one.
fn any_is(kind: Kind, kinds: &[Kind]) -> bool
    ensures { result ≡ list_any (λ other. kind_number other == kind_number kind) kinds.now }
{
    kinds.iter().any(|other| other.number() == kind.number())
}
