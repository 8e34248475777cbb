// Orders of sets: of which sets each member stands before each member of another, so that one arrow stands for all these edges.

ghost use Rattle.std.specs.Prelude.{◌≡◌, ◌++◌, ◌*◌, nat_lt, length, map, IfOk, OnOk};
ghost use Rattle.model.specs.Lists.{has};
ghost use Rattle.model.specs.steps.Schedule.{system_at};
ghost use Rattle.schedule_drawing.specs.Arrows.{are_before as are_before_in, arrow_if, arrows_from, arrows_of as arrows_in, arrows_to, first_in as first_of, is_above as is_above_in, is_arrow as is_arrow_in, is_less_from, is_more as is_more_in, is_told as is_told_in, is_whole as is_whole_in, is_within as is_within_in, last_in as last_of, members_at as members_in, stands_for as stands_for_in};

use schedule_builder::Built;
use std::alloc::{AllocError, Global};

/// An arrow from the frame of a set to that of another, by their numbers.
#[derive(Clone, Copy)]
pub struct Arrow {
    /// The set from which it leads.
    pub from: u32,
    /// The set to which it leads.
    pub to: u32,
}

/// The arrows between sets with these members, where no set holds a system for the drawing.
pub(crate) fn arrows_of(
    alloc: Global,
    built: &Built,
    holders: &[Option<u32>],
    sets: &[Vec<u32>],
) -> Result<Vec<Arrow>, AllocError>
    ensures { IfOk result (λ arrows. arrows.items
        ≡ arrows_in built.now holders.now (map (λ members. members.items) sets.now)) }
{
    if !holders.is_empty() {
        return Ok(Vec::new(alloc));
    }
    every_arrow(alloc, built, sets)
}

// The arrows from all sets.
fn every_arrow(alloc: Global, built: &Built, sets: &[Vec<u32>]) -> Result<Vec<Arrow>, AllocError>
    ensures { IfOk result (λ arrows. arrows.items
        ≡ arrows_from built.now (map (λ members. members.items) sets.now) 0
        (map (λ members. members.items) sets.now)) }
{
    let mut arrows = Vec::new(alloc);
    let mut number = 0u32;
    for _members in sets {
        add_arrows(&mut arrows, built, sets, number)?;
        number = number.saturating_add(1);
    }
    Ok(arrows)
}

// Adds the arrows from a set.
fn add_arrows(
    arrows: &mut Vec<Arrow>,
    built: &Built,
    sets: &[Vec<u32>],
    from: u32,
) -> Result<(), AllocError>
    ensures { OnOk result (arrows.new.items
        ≡ arrows.old.items
        ++ arrows_to built.now (map (λ members. members.items) sets.now) from 0
        (map (λ members. members.items) sets.now)) }
{
    let mut number = 0u32;
    for _members in sets {
        add_if(arrows, built, sets, from, number)?;
        number = number.saturating_add(1);
    }
    Ok(())
}

// Adds an arrow, where there is one.
fn add_if(
    arrows: &mut Vec<Arrow>,
    built: &Built,
    sets: &[Vec<u32>],
    from: u32,
    to: u32,
) -> Result<(), AllocError>
    ensures { OnOk result (arrows.new.items
        ≡ arrows.old.items
        ++ arrow_if built.now (map (λ members. members.items) sets.now) from to) }
{
    if is_arrow(built, sets, from, to) {
        arrows.push(Arrow { from, to })?;
    }
    Ok(())
}

// Whether an arrow leads from a set to another.
fn is_arrow(built: &Built, sets: &[Vec<u32>], from: u32, to: u32) -> bool
    ensures { result
        ≡ is_arrow_in built.now (map (λ members. members.items) sets.now) from to }
{
    let (first, second) = (members_at(sets, from), members_at(sets, to));
    are_several(first, second) && is_whole(built, first, second) && !is_less(built, sets, from, to)
}

// Whether there is more than one edge from each of some systems to each of others.
fn are_several(members: &[u32], others: &[u32]) -> bool
    ensures { result ≡ nat_lt 1 (length members.now * length others.now) }
{
    match (members.len(), others.len()) {
        (0, _) | (_, 0) | (1, 1) => false,
        _ => true,
    }
}

// Whether larger sets say as much as an arrow between two sets would.
fn is_less(built: &Built, sets: &[Vec<u32>], from: u32, to: u32) -> bool
    ensures { result
        ≡ is_less_from built.now (map (λ members. members.items) sets.now) from to 0
        (map (λ members. members.items) sets.now) }
{
    let mut number = 0u32;
    for _members in sets {
        if is_more(built, sets, from, to, number) {
            return true;
        }
        number = number.saturating_add(1);
    }
    false
}

// Whether an order of two sets says no more than one with this set in place of one of them.
fn is_more(built: &Built, sets: &[Vec<u32>], from: u32, to: u32, other: u32) -> bool
    ensures { result
        ≡ is_more_in built.now (map (λ members. members.items) sets.now) from to other }
{
    let (first, second) = (members_at(sets, from), members_at(sets, to));
    let members = members_at(sets, other);
    is_above(sets, from, other) && is_whole(built, members, second)
        || is_above(sets, to, other) && is_whole(built, first, members)
}

// Whether a set holds all of another, and more; or the same, and is declared before it.
fn is_above(sets: &[Vec<u32>], set: u32, other: u32) -> bool
    ensures { result ≡ is_above_in (map (λ members. members.items) sets.now) set other }
{
    let (members, others) = (members_at(sets, set), members_at(sets, other));
    is_within(members, others) && (!is_within(others, members) || other < set)
}

// Whether each of some systems is one of others.
fn is_within(members: &[u32], others: &[u32]) -> bool
    ensures { result ≡ is_within_in members.now others.now }
{
    members.iter().all(|member| has_member(others, *member))
}

/// Whether a system is one of these.
pub(crate) fn has_member(members: &[u32], system: u32) -> bool
    ensures { result ≡ has system members.now }
{
    members.iter().any(|member| *member == system)
}

// Whether each of some systems has an edge to each of others.
fn is_whole(built: &Built, members: &[u32], others: &[u32]) -> bool
    ensures { result ≡ is_whole_in built.now members.now others.now }
{
    others
        .iter()
        .all(|other| are_before(built, members, *other))
}

// Whether each of some systems has an edge to this one.
fn are_before(built: &Built, members: &[u32], system: u32) -> bool
    ensures { result ≡ are_before_in built.now members.now system }
{
    members.iter().all(|member| is_edge(built, *member, system))
}

// Whether a system has an edge to another.
fn is_edge(built: &Built, first: u32, second: u32) -> bool
    ensures { result ≡ has first (system_at built.now second).predecessors }
{
    match built.systems().get(second as usize) {
        Some(found) => has_member(found.predecessors(), first),
        None => false,
    }
}

/// The members of a set.
pub(crate) fn members_at(sets: &[Vec<u32>], set: u32) -> &[u32]
    ensures { result.now ≡ members_in (map (λ members. members.items) sets.now) set }
{
    match sets.get(set as usize) {
        Some(members) => members.as_slice(),
        None => &[],
    }
}

/// Whether an arrow stands for an edge.
pub(crate) fn is_told(sets: &[Vec<u32>], arrows: &[Arrow], first: u32, second: u32) -> bool
    ensures { result
        ≡ is_told_in (map (λ members. members.items) sets.now) arrows.now first second }
{
    arrows
        .iter()
        .any(|arrow| stands_for(sets, *arrow, first, second))
}

// Whether this arrow does.
fn stands_for(sets: &[Vec<u32>], arrow: Arrow, first: u32, second: u32) -> bool
    ensures { result
        ≡ stands_for_in (map (λ members. members.items) sets.now) first second arrow }
{
    has_member(members_at(sets, arrow.from), first)
        && has_member(members_at(sets, arrow.to), second)
}

/// The last of these systems in schedule order.
pub(crate) fn last_in(members: &[u32], order: &[u32]) -> u32
    ensures { result ≡ last_of members.now 0 order.now }
{
    let mut found = 0u32;
    for system in order {
        if has_member(members, *system) {
            found = *system;
        }
    }
    found
}

/// The first of these systems in schedule order.
pub(crate) fn first_in(members: &[u32], order: &[u32]) -> u32
    ensures { result ≡ first_of members.now order.now }
{
    for system in order {
        if has_member(members, *system) {
            return *system;
        }
    }
    0
}
