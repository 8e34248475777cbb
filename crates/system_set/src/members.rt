// The members of a set: what reaches it is marked, from the set on downwards, until every pair is looked at.

ghost use Rattle.std.specs.Prelude.{◌≡◌, ◌<◌, ◌==◌, ◌||◌, ◌++◌, ◌∷◌, [], if◌then◌else◌, length, IfOk, IfSome, IfNone, OnOk};
ghost use Rattle.std.specs.List.{All};
ghost use Rattle.model.specs.declarations.Hierarchy.{AreMembers};
ghost use Rattle.cycle_search.specs.Orders.{IsBetween};
ghost use Rattle.system_set.specs.Pairs.{hierarchy_of, ArePlaced, AreSound, IsSpread, IsOpenAt, AreMarked, is_marked, is_open_pair};

use cycle_search::Order;
use std::alloc::{AllocError, Global};

/// The members of a set, by the pairs of an item and a set that it is in.
pub(crate) fn members_of(
    alloc: Global,
    sets: usize,
    items: usize,
    pairs: &[Order],
    set: usize,
) -> Result<Vec<usize>, AllocError>
    requires { ArePlaced sets items pairs.now }
    ensures { IfOk result (λ members. AreMembers (hierarchy_of sets items pairs.now) set
        members.items) }
{
    let lists = places_by_set(alloc, items, pairs)?;
    let marks = marks_of(alloc, items, pairs, lists.as_slice(), set)?;
    let members = marked_systems(alloc, sets, marks.as_slice())?;
    Ok(members)
}

/// Whether each item reaches the set. What `places_by_set` gives of the pairs makes it quick.
pub(crate) fn marks_of(
    alloc: Global,
    items: usize,
    pairs: &[Order],
    lists: &[Vec<usize>],
    set: usize,
) -> Result<Vec<bool>, AllocError>
    requires { All (IsBetween items) pairs.now }
    ensures long { IfOk result (λ marks. length marks.items ≡ items) }
    ensures sound { IfOk result (λ marks. AreSound pairs.now set marks.items) }
    ensures whole { IfOk result (λ marks. All (IsSpread marks.items set) pairs.now) }
{
    let mut marks = vec![in alloc; false; items]?;
    let places = places_downwards(alloc, items, pairs, lists, set)?;
    for place in &places {
        if *place < pairs.len() {
            spread(pairs, *place, set, marks.as_mut_slice());
        }
    }
    loop {
        match first_open(pairs, set, marks.as_slice()) {
            None => return Ok(marks),
            Some(place) => {
                marks[pairs[place].first] = true;
            }
        }
    }
}

// Marks the item of the pair at a place, where its set is this one or is marked.
fn spread(pairs: &[Order], place: usize, set: usize, marks: &mut [bool])
    requires between { All (IsBetween (length marks.old)) pairs.now }
    requires known { place < length pairs.now }
    requires sound { AreSound pairs.now set marks.old }
    ensures { AreSound pairs.now set marks.new }
{
    if !leads(pairs[place], set, marks) {
        return;
    }
    marks[pairs[place].first] = true;
}

// The first pair whose item is not marked, though its set is this one or is marked.
fn first_open(pairs: &[Order], set: usize, marks: &[bool]) -> Option<usize>
    requires { All (IsBetween (length marks.now)) pairs.now }
    ensures found { IfSome result (λ place. (place < length pairs.now)
        × IsOpenAt pairs.now set marks.now place) }
    ensures none { IfNone result (All (IsSpread marks.now set) pairs.now) }
{
    for place in 0..pairs.len() {
        if is_open(pairs[place], set, marks) {
            return Some(place);
        }
    }
    None
}

// Whether the item of a pair is not marked, though its set is this one or is marked.
fn is_open(pair: Order, set: usize, marks: &[bool]) -> bool
    requires { IsBetween (length marks.now) pair }
    ensures { result ≡ is_open_pair marks.now set pair }
{
    !marks[pair.first] && leads(pair, set, marks)
}

// Whether the set of a pair is this one or is marked.
fn leads(pair: Order, set: usize, marks: &[bool]) -> bool
    requires { IsBetween (length marks.now) pair }
    ensures { result ≡ ((pair.second == set) || is_marked marks.now pair.second) }
{
    pair.second == set || marks[pair.second]
}

// The marked systems, in order.
fn marked_systems(alloc: Global, sets: usize, marks: &[bool]) -> Result<Vec<usize>, AllocError>
    ensures { IfOk result (λ members. AreMarked sets marks.now (length marks.now) members.items) }
{
    let mut members = Vec::new(alloc);
    for item in sets..marks.len() {
        push_if(&mut members, item, marks[item])?;
    }
    Ok(members)
}

// Adds the item where the test holds.
fn push_if(members: &mut Vec<usize>, item: usize, test: bool) -> Result<(), AllocError>
    ensures { OnOk result (members.new.items
        ≡ (if test then members.old.items ++ item ∷ [] else members.old.items)) }
{
    if !test {
        return Ok(());
    }
    members.push(item)?;
    Ok(())
}

// The places of pairs in an order in which one look at each is enough: those of this set, then those of the sets in it, and
// so on. They are a guess, after which each pair is looked at once more.
fn places_downwards(
    alloc: Global,
    items: usize,
    pairs: &[Order],
    lists: &[Vec<usize>],
    set: usize,
) -> Result<Vec<usize>, AllocError> {
    let mut seen = vec![in alloc; false; items]?;
    let mut open = Vec::new(alloc);
    open.push(set)?;
    let mut places = Vec::new(alloc);
    for _ in 0..=pairs.len() {
        let Some(holder) = open.pop() else { break };
        if holder < lists.len() && holder < seen.len() && !seen[holder] {
            seen[holder] = true;
            for place in &lists[holder] {
                places.push(*place)?;
                if *place < pairs.len() {
                    open.push(pairs[*place].first)?;
                }
            }
        }
    }
    Ok(places)
}

/// For each item the places of the pairs that put something into it.
pub(crate) fn places_by_set(
    alloc: Global,
    items: usize,
    pairs: &[Order],
) -> Result<Vec<Vec<usize>>, AllocError>
    ensures { IfOk result (λ lists. length lists.items ≡ items) }
{
    let mut lists = Vec::new(alloc);
    for _ in 0..items {
        lists.push(Vec::new(alloc))?;
    }
    for (place, pair) in pairs.iter().enumerate() {
        if pair.second < lists.len() {
            lists[pair.second].push(place)?;
        }
    }
    Ok(lists)
}
