// On what two accesses conflict: of all that they can meet on, the least.

ghost use Rattle.std.specs.Prelude.{◌≡◌, ◌<◌, ◌||◌, ℕ, List, true, Some};
ghost use Rattle.std.specs.List.{list_any};
ghost use Rattle.std.specs.Option.{option_map};
ghost use Rattle.kinds.specs.Kind.{kind_number, kind_count};
ghost use Rattle.kinds.specs.Res.{res_number, event_number};
ghost use Rattle.model.specs.Lists.{IsIn};
ghost use Rattle.model.specs.access.Query.{Term, touches};
ghost use Rattle.model.specs.access.Access.{names_resource, names_event};
ghost use Rattle.model.specs.access.Conflict.{ConflictAt, IsLeastDatum, conflict_at};
ghost use Rattle.model.specs.access.Conflict.Datum.{OfKind, OfResource, OfEvent};
ghost use Rattle.access_set.specs.Footprints.{footprints_meet_at};
ghost use Rattle.access_set.specs.Datum.{datum_of, datum_name, IsLeastAt, AreKnownKinds};

use crate::footprint::Footprint;
use crate::params::{Params, has_event, has_resource};
use kinds::kind::prove_kinds_apart;
use kinds::{Event, Kind, Res};
use query::Query;
use std::fmt;

/// What two accesses can meet on. Printed as its name.
#[derive(Clone, Copy, PartialEq, Eq, Debug)]
pub enum Datum {
    /// A kind of components.
    Kind(Kind),
    /// A resource.
    Resource(Res),
    /// A kind of events.
    Event(Event),
}

impl Datum {
    /// The name of the kind, the resource or the event kind.
    pub fn name(self) -> &'static str
        ensures { result.now ≡ datum_name self }
    {
        match self {
            Datum::Kind(kind) => kind.name(),
            Datum::Resource(resource) => resource.name(),
            Datum::Event(event) => event.name(),
        }
    }
}

impl fmt::Display for Datum {
    ghost output = { λ datum. Some (datum_name datum) };

    fn fmt<W: fmt::Write>(&self, f: &mut fmt::Formatter<W>) -> fmt::Result {
        f.write_str(self.name())
    }
}

/// The least datum on which two accesses conflict: kinds come first, then resources, then event kinds, each by number. None where
/// they don't conflict.
pub fn why(a: &Params, b: &Params) -> Option<Datum>
    ensures { IsLeastDatum a.now b.now (option_map datum_of result) }
{
    if let Some(kind) = least_kind(a, b) {
        return Some(Datum::Kind(kind));
    }
    if let Some(resource) = least_resource(a, b) {
        return Some(Datum::Resource(resource));
    }
    match least_event(a, b) {
        Some(event) => Some(Datum::Event(event)),
        None => None,
    }
}

// The least kind at which they conflict.
fn least_kind(a: &Params, b: &Params) -> Option<Kind>
    ensures { IsLeastAt (λ kind. ConflictAt a.now b.now (OfKind kind)) (option_map kind_number
        result) }
{
    are_known_kinds(a.queries());
    for kind in Kind::every() {
        if conflict_at_kind(a, b, *kind) {
            return Some(*kind);
        }
    }
    None
}

// Whether they conflict at the kind.
fn conflict_at_kind(a: &Params, b: &Params, kind: Kind) -> bool
    ensures { result ≡ conflict_at a.now b.now (OfKind (kind_number kind)) }
{
    prove_kinds_apart();
    any_meets_at(a.footprints(), b.footprints(), kind)
}

// Whether some of these footprints meets some of the others at the kind.
fn any_meets_at(footprints: &[Footprint], others: &[Footprint], kind: Kind) -> bool
    ensures { result
        ≡ list_any (λ f. list_any (λ g. footprints_meet_at f g (kind_number kind)) others.now)
        footprints.now }
{
    footprints
        .iter()
        .any(|footprint| meets_any_at(footprint, others, kind))
}

// Whether the footprint meets some of the others at the kind.
fn meets_any_at(footprint: &Footprint, others: &[Footprint], kind: Kind) -> bool
    ensures { result
        ≡ list_any (λ g. footprints_meet_at footprint.now g (kind_number kind)) others.now }
{
    others.iter().any(|other| footprint.meets_at(other, kind))
}

// What queries touch has the number of a kind.
fn are_known_kinds(queries: &[Query])
    ensures { (query : List Term) → IsIn query queries.now → AreKnownKinds query }
{
    for query in queries {
        are_known_kinds_of(query);
    }
}

// What a query touches has the number of a kind.
fn are_known_kinds_of(query: &Query)
    ensures { AreKnownKinds query.now }
{
    prove_kinds_apart();
    let _ = query.terms();
}

// The least resource at which they conflict.
fn least_resource(a: &Params, b: &Params) -> Option<Res>
    ensures { IsLeastAt (λ number. ConflictAt a.now b.now (OfResource number)) (option_map
        res_number result) }
{
    are_known_resources(a);
    for resource in Res::ALL {
        if conflict_at_resource(a, b, resource) {
            return Some(resource);
        }
    }
    None
}

// Whether they conflict at the resource.
fn conflict_at_resource(a: &Params, b: &Params, resource: Res) -> bool
    ensures { result ≡ conflict_at a.now b.now (OfResource (res_number resource)) }
{
    if !a.names_resource(resource) {
        return false;
    }
    if !b.names_resource(resource) {
        return false;
    }
    if has_resource(a.res_mut(), resource) {
        return true;
    }
    has_resource(b.res_mut(), resource)
}

// What parameters name is the number of a resource.
fn are_known_resources(a: &Params)
    ensures { (number : ℕ) → names_resource a.now number ≡ true → number < 8 }
{
    let _ = a.res();
    let _ = a.res_mut();
}

// The least event kind at which they conflict.
fn least_event(a: &Params, b: &Params) -> Option<Event>
    ensures { IsLeastAt (λ kind. ConflictAt a.now b.now (OfEvent kind)) (option_map event_number
        result) }
{
    are_known_events(a);
    for event in Event::ALL {
        if conflict_at_event(a, b, event) {
            return Some(event);
        }
    }
    None
}

// Whether they conflict at the event kind.
fn conflict_at_event(a: &Params, b: &Params, event: Event) -> bool
    ensures { result ≡ conflict_at a.now b.now (OfEvent (event_number event)) }
{
    if !a.names_event(event) {
        return false;
    }
    if !b.names_event(event) {
        return false;
    }
    if has_event(a.writes(), event) {
        return true;
    }
    has_event(b.writes(), event)
}

// What parameters name is the number of an event kind.
fn are_known_events(a: &Params)
    ensures { (kind : ℕ) → names_event a.now kind ≡ true → kind < 4 }
{
    let _ = a.reads();
    let _ = a.writes();
}
