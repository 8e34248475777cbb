// What is found of the whole of a file: kinds, events, resources, sets and races.

ghost use Rattle.std.specs.Prelude.{◌≡◌, ◌<◌, ◌==◌, nat_lt, OnOk, IfOk, length};
ghost use Rattle.std.specs.List.{list_any};
ghost use Rattle.kinds.specs.Kind.{kind_number};
ghost use Rattle.lints.specs.Collected.{Adds, Among};
ghost use Rattle.lints.specs.Lints.{has_value_of, IsOfChain, IsOfEventKind, IsOfEventKinds, IsOfRace, IsOfSet, IsOfStart, is_asked_for, is_changed, is_given, is_heard, is_inserted, is_named, is_named_by_condition, is_named_by_system, is_never_written, is_present, is_read_by_system, is_unread, is_unwritten, is_value_of, is_written, is_zero, present_kinds};

use crate::adding::add_where;
use crate::deeds::{Deed, done_by};
use crate::lint::Lint;
use crate::system::{event_at, res_at};
use ambiguity_report::Pair;
use kinds::{Event, Kind, Res, Value};
use program_file::{ChainTable, SystemTable};
use schedule_builder::Built;
use std::alloc::{AllocError, Global};

// Whether a component is of a kind.
fn is_value_of(kind: Kind, value: &Value) -> bool
    ensures { result ≡ is_value_of kind value.now }
{
    value.number() == kind.number()
}

// Whether one of these components is of a kind.
fn has_value_of(kind: Kind, entity: &[Value]) -> bool
    ensures { result ≡ has_value_of kind entity.now }
{
    entity.iter().any(|value| is_value_of(kind, value))
}

// Whether a component of a kind is on an entity.
fn is_given(entities: &[Vec<Value>], kind: Kind) -> bool
    ensures { result ≡ is_given entities.now kind }
{
    entities
        .iter()
        .any(|entity| has_value_of(kind, entity.as_slice()))
}

// Whether a system inserts one.
fn is_inserted(systems: &[SystemTable<'_>], kind: Kind) -> bool
    ensures { result ≡ is_inserted systems.now kind }
{
    systems.iter().any(|table| done_by(Deed::Inserts(kind), table.blocks.as_slice()))
}

// Whether one is on an entity, or is inserted.
fn is_present(entities: &[Vec<Value>], systems: &[SystemTable<'_>], kind: Kind) -> bool
    ensures { result ≡ is_present entities.now systems.now kind }
{
    is_given(entities, kind) || is_inserted(systems, kind)
}

// The same of each kind, by number.
pub(crate) fn present_kinds(
    alloc: Global,
    entities: &[Vec<Value>],
    systems: &[SystemTable<'_>],
) -> Result<Vec<bool>, AllocError>
    ensures { IfOk result (λ present. present.items ≡ present_kinds entities.now systems.now) }
{
    Kind::ALL
        .iter()
        .map(|kind| is_present(entities, systems, *kind))
        .collect(alloc)
}

// Whether a system writes events of a kind.
pub(crate) fn is_written(built: &Built, event: Event) -> bool
    ensures { result ≡ is_written built.now event }
{
    built
        .systems()
        .iter()
        .any(|system| system.params().writes_event(event))
}

// Whether a system reads them.
fn is_read_by_system(built: &Built, event: Event) -> bool
    ensures { result ≡ is_read_by_system built.now event }
{
    built
        .systems()
        .iter()
        .any(|system| system.params().reads_event(event))
}

// Whether a condition asks for them.
fn is_asked_for(built: &Built, event: Event) -> bool
    ensures { result ≡ is_asked_for built.now event }
{
    built
        .conditions()
        .iter()
        .any(|condition| condition.access().reads_event(event))
}

// Whether one or the other is so.
fn is_heard(built: &Built, event: Event) -> bool
    ensures { result ≡ is_heard built.now event }
{
    is_read_by_system(built, event) || is_asked_for(built, event)
}

// Whether a system writes a resource.
pub(crate) fn is_changed(built: &Built, res: Res) -> bool
    ensures { result ≡ is_changed built.now res }
{
    built
        .systems()
        .iter()
        .any(|system| system.params().writes_resource(res))
}

// Whether a system names it.
fn is_named_by_system(built: &Built, res: Res) -> bool
    ensures { result ≡ is_named_by_system built.now res }
{
    built
        .systems()
        .iter()
        .any(|system| system.params().names_resource(res))
}

// Whether a condition asks for it.
fn is_named_by_condition(built: &Built, res: Res) -> bool
    ensures { result ≡ is_named_by_condition built.now res }
{
    built
        .conditions()
        .iter()
        .any(|condition| condition.access().names_resource(res))
}

// Whether one or the other is so.
fn is_named(built: &Built, res: Res) -> bool
    ensures { result ≡ is_named built.now res }
{
    is_named_by_system(built, res) || is_named_by_condition(built, res)
}

// Whether a resource is named that is 0 and stays so.
fn is_never_written(built: &Built, is_zero: bool, res: Res) -> bool
    ensures { result ≡ is_never_written built.now is_zero res }
{
    is_zero && (is_named(built, res) && !is_changed(built, res))
}

// Whether events are written, and nothing hears them.
fn is_unread(built: &Built, event: Event) -> bool
    ensures { result ≡ is_unread built.now event }
{
    is_written(built, event) && !is_heard(built, event)
}

// Whether something hears them, and none is written.
fn is_unwritten(built: &Built, event: Event) -> bool
    ensures { result ≡ is_unwritten built.now event }
{
    is_heard(built, event) && !is_written(built, event)
}

// Adds what is found of an event kind.
fn add_of_event(found: &mut Vec<Lint>, built: &Built, event: Event) -> Result<(), AllocError>
    ensures { OnOk result (Adds (IsOfEventKind built.now event) found.old.items
        found.new.items) }
{
    let is_unread = is_unread(built, event);
    let is_unwritten = is_unwritten(built, event);
    add_where(found, is_unread, Lint::UnreadEvent(event))?;
    add_where(found, is_unwritten, Lint::UnwrittenEvent(event))?;
    Ok(())
}

// Adds what is found of the event kind of a number.
fn add_of_event_number(
    found: &mut Vec<Lint>,
    built: &Built,
    number: usize,
) -> Result<(), AllocError>
    requires { number < 4 }
    ensures { OnOk result (Adds (IsOfEventKinds built.now number) found.old.items
        found.new.items) }
{
    add_of_event(found, built, event_at(number))?;
    Ok(())
}

// Adds what is found of the event kinds.
pub(crate) fn add_of_event_kinds(found: &mut Vec<Lint>, built: &Built) -> Result<(), AllocError>
    ensures { OnOk result (Adds (Among 4 (IsOfEventKinds built.now)) found.old.items
        found.new.items) }
{
    for number in 0..Event::COUNT {
        add_of_event_number(found, built, number)?;
    }
    Ok(())
}

// Whether the value of a number is 0.
fn is_zero(values: &[i64; 8], number: usize) -> bool
    requires { number < 8 }
    ensures { result ≡ is_zero values.now number }
{
    values[number] == 0
}

// Adds what is found of the resource of a number.
fn add_of_start(
    found: &mut Vec<Lint>,
    built: &Built,
    values: &[i64; 8],
    number: usize,
) -> Result<(), AllocError>
    requires { number < 8 }
    ensures { OnOk result (Adds (IsOfStart built.now values.now number) found.old.items
        found.new.items) }
{
    let res = res_at(number);
    let is = is_never_written(built, is_zero(values, number), res);
    add_where(found, is, Lint::UnwrittenRes(res))?;
    Ok(())
}

// Adds what is found of the resources, which have these values at the start.
pub(crate) fn add_of_starts(
    found: &mut Vec<Lint>,
    built: &Built,
    values: &[i64; 8],
) -> Result<(), AllocError>
    ensures { OnOk result (Adds (Among 8 (IsOfStart built.now values.now)) found.old.items
        found.new.items) }
{
    for number in 0..Res::COUNT {
        add_of_start(found, built, values, number)?;
    }
    Ok(())
}

// Whether there are none.
fn is_empty(numbers: &[u32]) -> bool
    ensures { result ≡ (length numbers.now == 0) }
{
    numbers.is_empty()
}

// Adds what is found of a set.
fn add_of_set(found: &mut Vec<Lint>, members: &[Vec<u32>], number: usize) -> Result<(), AllocError>
    requires { number < length members.now }
    ensures { OnOk result (Adds (IsOfSet members.now number) found.old.items found.new.items) }
{
    let is = is_empty(members[number].as_slice());
    add_where(found, is, Lint::NoMembers(number))?;
    Ok(())
}

// Adds what is found of the sets, which have these members.
pub(crate) fn add_of_sets(found: &mut Vec<Lint>, members: &[Vec<u32>]) -> Result<(), AllocError>
    ensures { OnOk result (Adds (Among (length members.now) (IsOfSet members.now))
        found.old.items found.new.items) }
{
    for number in 0..members.len() {
        add_of_set(found, members, number)?;
    }
    Ok(())
}

// Whether there are fewer than two.
fn is_lone(items: &[&str]) -> bool
    ensures { result ≡ nat_lt (length items.now) 2 }
{
    items.len() < 2
}

// Adds what is found of a chain.
fn add_of_chain(
    found: &mut Vec<Lint>,
    chains: &[ChainTable<'_>],
    number: usize,
) -> Result<(), AllocError>
    requires { number < length chains.now }
    ensures { OnOk result (Adds (IsOfChain chains.now number) found.old.items found.new.items) }
{
    let is = is_lone(chains[number].items.as_slice());
    add_where(found, is, Lint::LoneChain(number))?;
    Ok(())
}

// Adds what is found of the chains.
pub(crate) fn add_of_chains(
    found: &mut Vec<Lint>,
    chains: &[ChainTable<'_>],
) -> Result<(), AllocError>
    ensures { OnOk result (Adds (Among (length chains.now) (IsOfChain chains.now))
        found.old.items found.new.items) }
{
    for number in 0..chains.len() {
        add_of_chain(found, chains, number)?;
    }
    Ok(())
}

// Adds what is found of a pair that races.
fn add_of_race(found: &mut Vec<Lint>, pairs: &[Pair], number: usize) -> Result<(), AllocError>
    requires { number < length pairs.now }
    ensures { OnOk result (Adds (IsOfRace pairs.now number) found.old.items found.new.items) }
{
    let pair = pairs[number];
    add_where(found, !pair.silenced, Lint::Race(pair))?;
    Ok(())
}

// Adds what is found of the pairs that race.
pub(crate) fn add_of_races(found: &mut Vec<Lint>, pairs: &[Pair]) -> Result<(), AllocError>
    ensures { OnOk result (Adds (Among (length pairs.now) (IsOfRace pairs.now))
        found.old.items found.new.items) }
{
    for number in 0..pairs.len() {
        add_of_race(found, pairs, number)?;
    }
    Ok(())
}
