// When two accesses meet: they conflict by one of the sets of kinds that are there.

ghost use Rattle.std.specs.Prelude.{◌≡◌, ◌↔◌, Some, IsTrue};
ghost use Rattle.std.specs.List.{list_any};
ghost use Rattle.model.specs.access.Meeting.{Meet};
ghost use Rattle.access_set.specs.MeetsIn.{footprints_meet_by, MeetAtKindIn};

use crate::conflict::{meet_at_event, meet_at_resource};
use crate::footprint::Footprint;
use crate::params::Params;

/// Whether two accesses meet where these archetypes are present, each by its number. They do if they name a resource
/// or an event kind that one of them writes. They also do if an archetype matches a query of each and holds a kind
/// that both touch and one writes.
pub fn meet_in(a: &Params, b: &Params, sets: &[u32]) -> bool
    ensures { IsTrue result ↔ Meet (Some sets.now) a.now b.now }
{
    if meet_at_kind_in(a, b, sets) {
        return true;
    }
    if meet_at_resource(a, b) {
        return true;
    }
    meet_at_event(a, b)
}

// Whether they meet at a kind of components.
fn meet_at_kind_in(a: &Params, b: &Params, sets: &[u32]) -> bool
    ensures { IsTrue result ↔ MeetAtKindIn sets.now a.now b.now }
{
    any_meets_in(a.footprints(), b.footprints(), sets)
}

// Whether some of these footprints meets some of the others by one of the sets.
fn any_meets_in(footprints: &[Footprint], others: &[Footprint], sets: &[u32]) -> bool
    ensures { result
        ≡ list_any (λ f. list_any (λ g. list_any (footprints_meet_by f g) sets.now) others.now)
        footprints.now }
{
    footprints
        .iter()
        .any(|footprint| meets_any_in(footprint, others, sets))
}

// Whether the footprint meets some of the others by one of the sets.
fn meets_any_in(footprint: &Footprint, others: &[Footprint], sets: &[u32]) -> bool
    ensures { result
        ≡ list_any (λ g. list_any (footprints_meet_by footprint.now g) sets.now) others.now }
{
    others.iter().any(|other| meets_in(footprint, other, sets))
}

// Whether two footprints meet by one of the sets.
fn meets_in(footprint: &Footprint, other: &Footprint, sets: &[u32]) -> bool
    ensures { result ≡ list_any (footprints_meet_by footprint.now other.now) sets.now }
{
    sets.iter()
        .any(|set| footprint.meets_by(other, u64::from(*set)))
}
