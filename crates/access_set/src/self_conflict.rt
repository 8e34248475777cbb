// When the parameters of one system conflict among themselves.

ghost use Rattle.std.specs.Prelude.{◌≡◌, ◌<◌, ◌↔◌, IsTrue, map, length};
ghost use Rattle.std.specs.Bool.{MatchBool};
ghost use Rattle.std.specs.List.{list_any};
ghost use Rattle.kinds.specs.Res.{res_number, event_number};
ghost use Rattle.model.specs.Lists.{has};
ghost use Rattle.model.specs.access.QueryFaults.{has_twice};
ghost use Rattle.model.specs.access.SelfConflict.{ConflictWithin, two_meet, writes_beside, conflict_within};
ghost use Rattle.access_set.specs.Footprints.{MeetsBeside, HasMeetingWriter};

use crate::footprint::Footprint;
use crate::params::{Params, has_event, has_resource};
use kinds::{Event, Res};

/// Whether two parameters conflict: two of the queries, or two that name a resource or an event kind that one of them writes. A query
/// that writes is compared with all others; as soon as two conflict no more are.
pub fn conflicts_within(params: &Params) -> bool
    ensures { IsTrue result ↔ ConflictWithin params.now }
{
    conflict_within(params)
}

// Whether two parameters conflict.
fn conflict_within(params: &Params) -> bool
    ensures { result ≡ conflict_within params.now }
{
    if two_meet(params) {
        return true;
    }
    if writes_resource_beside(params) {
        return true;
    }
    writes_event_beside(params)
}

// Whether two of the queries conflict.
fn two_meet(params: &Params) -> bool
    ensures { result ≡ two_meet params.now.queries }
{
    has_meeting_writer(params.footprints())
}

// Whether one of these that writes meets another.
fn has_meeting_writer(footprints: &[Footprint]) -> bool
    ensures { MatchBool result (HasMeetingWriter footprints.now) (HasMeetingWriter footprints.now
        → ⊥) }
{
    for number in 0..footprints.len() {
        if footprints[number].is_writing() && meets_beside(footprints, number) {
            return true;
        }
    }
    false
}

// Whether one of these meets another.
fn meets_beside(footprints: &[Footprint], number: usize) -> bool
    requires { number < length footprints.now }
    ensures { MatchBool result (MeetsBeside footprints.now number) (MeetsBeside footprints.now
        number
        → ⊥) }
{
    for other in 0..footprints.len() {
        if number != other && footprints[number].meets(&footprints[other]) {
            return true;
        }
    }
    false
}

// Whether a resource is written twice, or read and written.
fn writes_resource_beside(params: &Params) -> bool
    ensures { result ≡ writes_beside params.now.res params.now.res_mut }
{
    if has_resource_twice(params.res_mut()) {
        return true;
    }
    any_resource_read(params.res_mut(), params.res())
}

// Whether a resource stands twice among these.
fn has_resource_twice(resources: &[Res]) -> bool
    ensures { result ≡ has_twice (map res_number resources.now) }
{
    let mut rest = resources;
    while let Some((resource, others)) = rest.split_first() {
        if has_resource(others, *resource) {
            return true;
        }
        rest = others;
    }
    false
}

// Whether one of the written resources is read.
#[tactic(auto, using(crate::proofs::Meets::any_of_numbers))]
fn any_resource_read(written: &[Res], read: &[Res]) -> bool
    ensures { result
        ≡ list_any (λ n. has n (map res_number read.now)) (map res_number written.now) }
{
    any_resource_of(written, read)
}

// Whether one of the written resources is read, resource by resource.
fn any_resource_of(written: &[Res], read: &[Res]) -> bool
    ensures { result ≡ list_any (λ x. has (res_number x) (map res_number read.now)) written.now }
{
    written.iter().any(|resource| has_resource(read, *resource))
}

// Whether an event kind is written twice, or read and written.
fn writes_event_beside(params: &Params) -> bool
    ensures { result ≡ writes_beside params.now.reads params.now.writes }
{
    if has_event_twice(params.writes()) {
        return true;
    }
    any_event_read(params.writes(), params.reads())
}

// Whether an event kind stands twice among these.
fn has_event_twice(events: &[Event]) -> bool
    ensures { result ≡ has_twice (map event_number events.now) }
{
    let mut rest = events;
    while let Some((event, others)) = rest.split_first() {
        if has_event(others, *event) {
            return true;
        }
        rest = others;
    }
    false
}

// Whether one of the written event kinds is read.
#[tactic(auto, using(crate::proofs::Meets::any_of_numbers))]
fn any_event_read(written: &[Event], read: &[Event]) -> bool
    ensures { result
        ≡ list_any (λ n. has n (map event_number read.now)) (map event_number written.now) }
{
    any_event_of(written, read)
}

// Whether one of the written event kinds is read, kind by kind.
fn any_event_of(written: &[Event], read: &[Event]) -> bool
    ensures { result
        ≡ list_any (λ x. has (event_number x) (map event_number read.now)) written.now }
{
    written.iter().any(|event| has_event(read, *event))
}
