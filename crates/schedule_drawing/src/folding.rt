// Which systems stand for others where a drawing is folded: of those that one set holds, the first of each level.

ghost use Rattle.std.specs.Prelude.{◌≡◌, map, IfOk};
ghost use Rattle.schedule_drawing.specs.Folding.{holder_of as holder_in, holders_from, holders_of as holders_in, first_from, leader_for as leader_in, leaders_of as leaders_in, first_in_order, is_held_at, led_from};

use crate::arrows::has_member;
use crate::places::{leader_of, level_of};
use schedule_builder::Built;
use std::alloc::{AllocError, Global};

// A drawing of more systems is folded.
const MOST_SYSTEMS: u32 = 60;

/// For each system the set that holds it, where the drawing is folded: the first of these sets of which it is a member.
pub(crate) fn holders_of(
    alloc: Global,
    built: &Built,
    sets: &[Vec<u32>],
) -> Result<Vec<Option<u32>>, AllocError>
    ensures { IfOk result (λ holders. holders.items
        ≡ holders_in built.now (map (λ members. members.items) sets.now)) }
{
    if built.count() <= MOST_SYSTEMS {
        return Ok(Vec::new(alloc));
    }
    every_holder(alloc, built, sets)
}

// For each system the first of these sets of which it is a member.
fn every_holder(
    alloc: Global,
    built: &Built,
    sets: &[Vec<u32>],
) -> Result<Vec<Option<u32>>, AllocError>
    ensures { IfOk result (λ holders. holders.items
        ≡ holders_from (map (λ members. members.items) sets.now) 0 built.now.systems) }
{
    let mut holders = Vec::new(alloc);
    let mut number = 0u32;
    let systems = built.systems();
    for _system in systems {
        holders.push(first_set(sets, number))?;
        number = number.saturating_add(1);
    }
    Ok(holders)
}

// The first of these sets of which a system is a member.
fn first_set(sets: &[Vec<u32>], system: u32) -> Option<u32>
    ensures { result ≡ first_from system 0 (map (λ members. members.items) sets.now) }
{
    let mut number = 0u32;
    for members in sets {
        if has_member(members.as_slice(), system) {
            return Some(number);
        }
        number = number.saturating_add(1);
    }
    None
}

/// The set that holds a system.
pub(crate) fn holder_of(holders: &[Option<u32>], system: u32) -> Option<u32>
    ensures { result ≡ holder_in holders.now system }
{
    match holders.get(system as usize) {
        Some(holder) => *holder,
        None => None,
    }
}

/// The leaders of systems that these sets hold.
pub(crate) fn leaders_of(
    alloc: Global,
    built: &Built,
    holders: &[Option<u32>],
) -> Result<Vec<u32>, AllocError>
    ensures { IfOk result (λ leaders. leaders.items ≡ leaders_in built.now holders.now) }
{
    let mut leaders = Vec::new(alloc);
    let mut number = 0u32;
    let systems = built.systems();
    for _system in systems {
        leaders.push(leader_for(built, holders, number))?;
        number = number.saturating_add(1);
    }
    Ok(leaders)
}

// The leader of a system: itself, or the first in schedule order that the same set holds, of its level.
fn leader_for(built: &Built, holders: &[Option<u32>], system: u32) -> u32
    ensures { result ≡ leader_in built.now holders.now system }
{
    match holder_of(holders, system) {
        None => system,
        Some(set) => first_held(built, holders, set, level_of(built, system), system),
    }
}

// The first system in schedule order that a set holds, of a level; another where there is none.
fn first_held(built: &Built, holders: &[Option<u32>], set: u32, level: u32, other: u32) -> u32
    ensures { result ≡ first_in_order built.now holders.now set level other built.now.order }
{
    let order = built.order();
    for system in order {
        if is_held(built, holders, set, level, *system) {
            return *system;
        }
    }
    other
}

// Whether a set holds a system, of a level.
fn is_held(built: &Built, holders: &[Option<u32>], set: u32, level: u32, system: u32) -> bool
    ensures { result ≡ is_held_at built.now holders.now set level system }
{
    match holder_of(holders, system) {
        Some(holder) => holder == set && level_of(built, system) == level,
        None => false,
    }
}

/// How many systems have this leader.
pub(crate) fn led_by(built: &Built, leaders: &[u32], leader: u32) -> u32
    ensures { result ≡ led_from leaders.now leader 0 built.now.order }
{
    let mut count = 0u32;
    let order = built.order();
    for system in order {
        if leader_of(leaders, *system) == leader {
            count = count.saturating_add(1);
        }
    }
    count
}
