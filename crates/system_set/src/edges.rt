// The edges of systems that orders give, each order from the members of one item to those of another.

ghost use Rattle.std.specs.Prelude.{◌≡◌, ◌≤◌, ◌<◌, ◌==◌, ◌&&◌, ◌||◌, ◌++◌, ◌∷◌, [], ℕ, true, if◌then◌else◌, length, IfOk, OnOk};
ghost use Rattle.std.specs.Bool.{MatchBool};
ghost use Rattle.std.specs.List.{All};
ghost use Rattle.cycle_search.specs.Orders.{IsBetween};
ghost use Rattle.system_set.specs.Pairs.{pairs_of, hierarchy_of, ArePlaced, is_marked};
ghost use Rattle.system_set.specs.Edges.{AreRows, IsRow, AreMarked, AreMarkedSeconds, IsLedTo, HasEdgesTo, AreEdges, has_member};

use crate::members::{marks_of, places_by_set};
use cycle_search::Order;
use std::alloc::{AllocError, Global};
use std::marker::Model;

/// What reaches a set, by a mark for each item. Contracts see the marks.
#[derive(Drop)]
pub(crate) struct Reaching {
    marks: Vec<bool>,
}

impl Model for Reaching {
    ghost use Rattle.std.specs.Prelude.{Bool, List};

    ghost Value = { List Bool };

    ghost view = { λ r. r.marks.items };
}

impl Reaching {
    // Whether the item does.
    fn has(&self, item: usize) -> bool
        ensures { result ≡ is_marked self.now item }
    {
        match self.marks.get(item) {
            Some(mark) => *mark,
            None => false,
        }
    }
}

/// The edges of systems that orders give, each system by its number among the systems. Each pair of systems is looked at, with the items that
/// the first leads to, so it is for as many as a schedule may have.
pub(crate) fn edges_of(
    alloc: Global,
    sets: usize,
    items: usize,
    pairs: &[Order],
    orders: &[Order],
) -> Result<Vec<Order>, AllocError>
    requires placed { ArePlaced sets items pairs.now }
    requires between { All (IsBetween items) orders.now }
    ensures { IfOk result (λ edges. AreEdges (hierarchy_of sets items pairs.now)
        (pairs_of orders.now) edges.items) }
{
    let rows = rows_of(alloc, sets, items, pairs)?;
    let mut edges = Vec::new(alloc);
    for system in sets..items {
        let marks = marked_after(alloc, sets, items, rows.as_slice(), orders, system)?;
        let seconds = numbers_of(alloc, marks.as_slice())?;
        push_edges(
            sets,
            items,
            rows.as_slice(),
            seconds.as_slice(),
            system,
            &mut edges,
        )?;
    }
    Ok(edges)
}

/// What reaches each set.
pub(crate) fn rows_of(
    alloc: Global,
    sets: usize,
    items: usize,
    pairs: &[Order],
) -> Result<Vec<Reaching>, AllocError>
    requires { ArePlaced sets items pairs.now }
    ensures { IfOk result (λ rows. AreRows (hierarchy_of sets items pairs.now) sets rows.items) }
{
    let lists = places_by_set(alloc, items, pairs)?;
    let mut rows = Vec::new(alloc);
    for set in 0..sets {
        rows.push(row_of(alloc, sets, items, pairs, lists.as_slice(), set)?)?;
    }
    Ok(rows)
}

// What reaches a set.
fn row_of(
    alloc: Global,
    sets: usize,
    items: usize,
    pairs: &[Order],
    lists: &[Vec<usize>],
    set: usize,
) -> Result<Reaching, AllocError>
    requires { ArePlaced sets items pairs.now }
    ensures { IfOk result (IsRow (hierarchy_of sets items pairs.now) set) }
{
    let marks = marks_of(alloc, items, pairs, lists, set)?;
    Ok(Reaching { marks })
}

/// Whether a system is a member of an item.
pub(crate) fn is_member_of(sets: usize, rows: &[Reaching], item: usize, system: usize) -> bool
    requires { length rows.now ≡ sets }
    ensures { result ≡ has_member sets rows.now item system }
{
    if item < sets {
        rows[item].has(system)
    } else {
        item == system
    }
}

// The items that orders lead to from those of which the system is a member, by marks.
fn marked_after(
    alloc: Global,
    sets: usize,
    items: usize,
    rows: &[Reaching],
    orders: &[Order],
    system: usize,
) -> Result<Vec<bool>, AllocError>
    requires rows { length rows.now ≡ sets }
    requires between { All (IsBetween items) orders.now }
    ensures { IfOk result (λ marks. AreMarkedSeconds sets rows.now (pairs_of orders.now) system
        marks.items) }
{
    let mut marks = vec![in alloc; false; items]?;
    for order in orders {
        mark_if(
            &mut marks,
            order.second,
            is_member_of(sets, rows, order.first, system),
        );
    }
    Ok(marks)
}

// The numbers of the marked items, in rising order.
fn numbers_of(alloc: Global, marks: &[bool]) -> Result<Vec<usize>, AllocError>
    ensures { IfOk result (λ numbers. AreMarked marks.now numbers.items) }
{
    let mut numbers = Vec::new(alloc);
    for item in 0..marks.len() {
        push_number(&mut numbers, item, marks[item])?;
    }
    Ok(numbers)
}

// Adds the number where the test holds.
fn push_number(numbers: &mut Vec<usize>, number: usize, test: bool) -> Result<(), AllocError>
    ensures { OnOk result (numbers.new.items
        ≡ (if test then numbers.old.items ++ number ∷ [] else numbers.old.items)) }
{
    if !test {
        return Ok(());
    }
    numbers.push(number)?;
    Ok(())
}

// Marks an item where the test holds.
fn mark_if(marks: &mut Vec<bool>, item: usize, test: bool)
    requires { item < length marks.old.items }
    ensures long { length marks.new.items ≡ length marks.old.items }
    ensures marked { (n : ℕ)
        → is_marked marks.new.items n ≡ ((test && (item == n)) || is_marked marks.old.items n) }
{
    if !test {
        return;
    }
    marks[item] = true;
}

// Whether a system is a member of one of these items.
fn is_led_to(sets: usize, rows: &[Reaching], seconds: &[usize], system: usize) -> bool
    requires { length rows.now ≡ sets }
    ensures { MatchBool result (IsLedTo sets rows.now seconds.now system) (IsLedTo sets rows.now
        seconds.now system
        → ⊥) }
{
    for second in seconds {
        if is_member_of(sets, rows, *second, system) {
            return true;
        }
    }
    false
}

// Adds the edges of a system to the members of these items.
fn push_edges(
    sets: usize,
    items: usize,
    rows: &[Reaching],
    seconds: &[usize],
    system: usize,
    edges: &mut Vec<Order>,
) -> Result<(), AllocError>
    requires rows { length rows.now ≡ sets }
    requires system { sets ≤ system }
    requires few { sets ≤ items }
    ensures { OnOk result (HasEdgesTo sets rows.now seconds.now system items edges.old.items
        edges.new.items) }
{
    for other in sets..items {
        let edge = Order {
            first: system - sets,
            second: other - sets,
        };
        push_if(edges, edge, is_led_to(sets, rows, seconds, other))?;
    }
    Ok(())
}

// Adds the edge where the test holds.
fn push_if(edges: &mut Vec<Order>, edge: Order, test: bool) -> Result<(), AllocError>
    ensures { OnOk result (edges.new.items
        ≡ (if test then edges.old.items ++ edge ∷ [] else edges.old.items)) }
{
    if !test {
        return Ok(());
    }
    edges.push(edge)?;
    Ok(())
}
