// Ranks that fall along orders, and where none can be given.

ghost use Rattle.std.specs.Prelude.{◌≡◌, ℕ, ◌<◌, ◌≤◌, ◌↔◌, ◌^◌, ◌*◌, length, IfOk, IfSome, IfNone, IsTrue, Option, None, Some, IsSome};
ghost use Rattle.std.specs.Bool.{OnTrue};
ghost use Rattle.std.specs.List.{All};
ghost use Rattle.cycle_search.specs.Orders.{IsBetween};
ghost use Rattle.cycle_search.specs.Cycles.{height_of, IsRanked, PointsOn, IsStuck, IsAbove, IsFalling, HasHeightsBelow};

use crate::order::Order;
use std::alloc::{AllocError, Global};

/// The ranks of items, where they have one, and for each other item one that it is ordered before and has none either.
#[derive(Drop)]
pub(crate) struct Settled {
    /// The ranks, by number.
    pub(crate) ranks: Vec<Option<usize>>,
    /// The items that follow, by number.
    pub(crate) next: Vec<Option<usize>>,
}

/// How many orders begin with each item.
fn count_firsts(alloc: Global, count: usize, orders: &[Order]) -> Result<Vec<usize>, AllocError> {
    let mut counts = vec![in alloc; 0usize; count]?;
    for order in orders {
        if let Some(open) = counts.get_mut(order.first) {
            *open = open.saturating_add(1);
        }
    }
    Ok(counts)
}

/// For each item the items that are ordered before it.
fn lists_of_firsts(
    alloc: Global,
    count: usize,
    orders: &[Order],
) -> Result<Vec<Vec<usize>>, AllocError> {
    let mut lists = Vec::new(alloc);
    for _ in 0..count {
        lists.push(Vec::new(alloc))?;
    }
    for order in orders {
        if order.second < lists.len() {
            lists[order.second].push(order.first)?;
        }
    }
    Ok(lists)
}

/// The items that nothing follows, by how many orders begin with each.
fn last_items(alloc: Global, counts: &[usize]) -> Result<Vec<usize>, AllocError> {
    let mut items = Vec::new(alloc);
    for (number, count) in counts.iter().enumerate() {
        if *count == 0 {
            items.push(number)?;
        }
    }
    Ok(items)
}

/// Takes one from the count of each of these items, and adds those of which nothing is left.
fn release(
    counts: &mut [usize],
    items: &[usize],
    ready: &mut Vec<usize>,
) -> Result<(), AllocError> {
    for item in items {
        if *item < counts.len() {
            counts[*item] = counts[*item].saturating_sub(1);
            if counts[*item] == 0 {
                ready.push(*item)?;
            }
        }
    }
    Ok(())
}

/// Ranks, found by placing each item once all that follow it are placed. They are a guess, which its caller looks over.
fn guess(alloc: Global, count: usize, orders: &[Order]) -> Result<Vec<Option<usize>>, AllocError>
    ensures { IfOk result (λ ranks. length ranks.items ≡ count) }
{
    let mut counts = count_firsts(alloc, count, orders)?;
    let lists = lists_of_firsts(alloc, count, orders)?;
    let mut ranks = vec![in alloc; None; count]?;
    let mut ready = last_items(alloc, counts.as_slice())?;
    for height in 0..count {
        let Some(item) = ready.pop() else { break };
        if item < ranks.len() && item < lists.len() {
            ranks[item] = Some(height);
            release(counts.as_mut_slice(), lists[item].as_slice(), &mut ready)?;
        }
    }
    Ok(ranks)
}

/// Whether every height is below the count.
fn are_below(ranks: &[Option<usize>], count: usize) -> bool
    ensures { OnTrue result (HasHeightsBelow ranks.now count) }
{
    for height in ranks {
        if let Some(high) = height {
            if *high >= count {
                return false;
            }
        }
    }
    true
}

/// Whether an order leads to a lower height, where its first item has one.
fn is_falling(first: Option<usize>, second: Option<usize>) -> bool
    ensures { IsTrue result ↔ IsAbove first second }
{
    match (first, second) {
        (None, _) => true,
        (Some(_), None) => false,
        (Some(high), Some(low)) => low < high,
    }
}

/// Whether every order leads to a lower height.
fn are_falling(orders: &[Order], ranks: &[Option<usize>]) -> bool
    requires { All (IsBetween (length ranks.now)) orders.now }
    ensures { OnTrue result (All (IsFalling ranks.now) orders.now) }
{
    for order in orders {
        if !is_falling(ranks[order.first], ranks[order.second]) {
            return false;
        }
    }
    true
}

/// Ranks to begin with: the guess where it is lawful, and else none.
fn first_heights(
    alloc: Global,
    count: usize,
    orders: &[Order],
) -> Result<Vec<Option<usize>>, AllocError>
    requires { All (IsBetween count) orders.now }
    ensures long { IfOk result (λ ranks. length ranks.items ≡ count) }
    ensures ranked { IfOk result (λ ranks. IsRanked orders.now ranks.items count) }
{
    let ranks = guess(alloc, count, orders)?;
    if are_below(ranks.as_slice(), count) && are_falling(orders, ranks.as_slice()) {
        return Ok(ranks);
    }
    Ok(vec![in alloc; None; count]?)
}

/// For each item an item without a height that it is ordered before, where there is one.
fn open_seconds(
    alloc: Global,
    orders: &[Order],
    ranks: &[Option<usize>],
) -> Result<Vec<Option<usize>>, AllocError>
    requires { All (IsBetween (length ranks.now)) orders.now }
    ensures { IfOk result (λ next. PointsOn orders.now ranks.now next.items) }
{
    let mut next = vec![in alloc; None; ranks.len()]?;
    for order in orders {
        if ranks[order.second].is_none() {
            next[order.first] = Some(order.second);
        }
    }
    Ok(next)
}

/// The first item without a height that is ordered before none without one.
fn first_placeable(ranks: &[Option<usize>], next: &[Option<usize>]) -> Option<usize>
    requires { length ranks.now ≡ length next.now }
    ensures found { IfSome result (λ n. (n < length ranks.now) × (height_of ranks.now n ≡ None)
        × (height_of next.now n ≡ None)) }
    ensures none { IfNone result (IsStuck ranks.now next.now) }
{
    for number in 0..ranks.len() {
        if ranks[number].is_none() && next[number].is_none() {
            return Some(number);
        }
    }
    None
}

/// Ranks for as many items as can have them, so that each other item is ordered before another without one.
pub(crate) fn settle(alloc: Global, count: usize, orders: &[Order]) -> Result<Settled, AllocError>
    requires { All (IsBetween count) orders.now }
    ensures long { IfOk result (λ s. length s.ranks.items ≡ count) }
    ensures ranked { IfOk result (λ s. IsRanked orders.now s.ranks.items (2 * count)) }
    ensures points { IfOk result (λ s. PointsOn orders.now s.ranks.items s.next.items) }
    ensures stuck { IfOk result (λ s. IsStuck s.ranks.items s.next.items) }
{
    let mut ranks = first_heights(alloc, count, orders)?;
    let mut level = count;
    loop {
        let next = open_seconds(alloc, orders, ranks.as_slice())?;
        match first_placeable(ranks.as_slice(), next.as_slice()) {
            None => return Ok(Settled { ranks, next }),
            Some(item) => {
                ranks[item] = Some(level);
                level += 1;
            }
        }
    }
}
