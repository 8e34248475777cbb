// When two accesses conflict: with an alternative taken of each `or` term, of all sets of kinds that could match two queries the
// least is enough, and that is asked of the words of both.

ghost use Rattle.std.specs.Prelude.{◌≡◌, ◌↔◌, IsTrue};
ghost use Rattle.std.specs.List.{list_any};
ghost use Rattle.kinds.specs.Res.{res_number, event_number};
ghost use Rattle.model.specs.access.Access.{names_resource, names_event};
ghost use Rattle.model.specs.access.Conflict.{Conflict};
ghost use Rattle.access_set.specs.Footprints.{footprints_meet};
ghost use Rattle.access_set.specs.Meets.{MeetAtKind, MeetAtResource, MeetAtEvent};

use crate::footprint::Footprint;
use crate::params::Params;
use kinds::{Event, Res};

/// Whether two accesses conflict. They do if they name a resource or an event kind that one of them writes. They also
/// do if some set of kinds matches a query of each and holds a kind that both touch and one writes.
pub fn conflicts(a: &Params, b: &Params) -> bool
    ensures { IsTrue result ↔ Conflict a.now b.now }
{
    if meet_at_kind(a, b) {
        return true;
    }
    if meet_at_resource(a, b) {
        return true;
    }
    meet_at_event(a, b)
}

// Whether they conflict at a kind of components.
fn meet_at_kind(a: &Params, b: &Params) -> bool
    ensures { IsTrue result ↔ MeetAtKind a.now b.now }
{
    any_meets(a.footprints(), b.footprints())
}

// Whether some of these footprints meets some of the others.
fn any_meets(footprints: &[Footprint], others: &[Footprint]) -> bool
    ensures { result ≡ list_any (λ f. list_any (footprints_meet f) others.now) footprints.now }
{
    footprints
        .iter()
        .any(|footprint| meets_any(footprint, others))
}

/// Whether the footprint meets some of the others.
pub(crate) fn meets_any(footprint: &Footprint, others: &[Footprint]) -> bool
    ensures { result ≡ list_any (footprints_meet footprint.now) others.now }
{
    others.iter().any(|other| footprint.meets(other))
}

/// Whether they conflict at a resource.
pub(crate) fn meet_at_resource(a: &Params, b: &Params) -> bool
    ensures { IsTrue result ↔ MeetAtResource a.now b.now }
{
    if writes_named_resource(a, b) {
        return true;
    }
    writes_named_resource(b, a)
}

// Whether the one writes a resource that the other names.
#[tactic(auto, using(crate::proofs::Meets::any_of_numbers))]
fn writes_named_resource(one: &Params, other: &Params) -> bool
    ensures { result ≡ list_any (names_resource other.now) one.now.res_mut }
{
    any_resource_named(one.res_mut(), other)
}

// Whether one of these resources is named.
fn any_resource_named(resources: &[Res], other: &Params) -> bool
    ensures { result ≡ list_any (λ x. names_resource other.now (res_number x)) resources.now }
{
    resources
        .iter()
        .any(|resource| other.names_resource(*resource))
}

/// Whether they conflict at an event kind.
pub(crate) fn meet_at_event(a: &Params, b: &Params) -> bool
    ensures { IsTrue result ↔ MeetAtEvent a.now b.now }
{
    if writes_named_event(a, b) {
        return true;
    }
    writes_named_event(b, a)
}

// Whether the one writes an event kind that the other names.
#[tactic(auto, using(crate::proofs::Meets::any_of_numbers))]
fn writes_named_event(one: &Params, other: &Params) -> bool
    ensures { result ≡ list_any (names_event other.now) one.now.writes }
{
    any_event_named(one.writes(), other)
}

// Whether one of these event kinds is named.
fn any_event_named(events: &[Event], other: &Params) -> bool
    ensures { result ≡ list_any (λ x. names_event other.now (event_number x)) events.now }
{
    events.iter().any(|event| other.names_event(*event))
}
