// A cycle of orders, where there is one.

ghost use Rattle.std.specs.Prelude.{◌≡◌, ℕ, ◌<◌, ◌++◌, true, length, take, drop, nat_lt, IfOk, IfSome, IfNone, IsSome, IsTrue, Option, None, Some, slice_index};
ghost use Rattle.std.specs.List.{All, IsFirstBest};
ghost use Rattle.model.specs.Lists.{has};
ghost use Rattle.cycle_search.specs.Orders.{IsBetween};
ghost use Rattle.cycle_search.specs.Cycles.{height_of, GoesOn, Points, IsStep, IsRankable, IsRound, BeginsLeast, TellsRound};

use crate::order::Order;
use crate::ranks::settle;
use std::alloc::{AllocError, Global};

/// The place of an item on a path that it is on.
fn place_on(path: &[usize], item: usize) -> usize
    requires { has item path.now ≡ true }
    ensures within { result < length path.now }
    ensures there { slice_index path.now result ≡ item }
{
    for (place, other) in path.iter().enumerate() {
        if *other == item {
            return place;
        }
    }
    unreachable!()
}

/// A round trip, by going from one item to the next until one comes again.
fn go_round(alloc: Global, start: usize, next: &[Option<usize>]) -> Result<Vec<usize>, AllocError>
    requires goes { GoesOn next.now }
    requires from { start < length next.now }
    requires on { IsSome (height_of next.now start) }
    ensures { IfOk result (λ items. IsRound (Points next.now) items.items) }
{
    let mut seen = vec![in alloc; false; next.len()]?;
    let mut path = Vec::new(alloc);
    let mut current = start;
    while !seen[current] {
        seen[current] = true;
        path.push(current)?;
        let Some(following) = next[current] else {
            unreachable!()
        };
        current = following;
    }
    let from = place_on(path.as_slice(), current);
    Vec::from_slice(alloc, &path[from..])
}

/// The place of the least item.
fn least_place(items: &[usize]) -> usize
    requires { 0 < length items.now }
    ensures { IsFirstBest nat_lt items.now (length items.now) result }
{
    let mut least = 0;
    for place in 1..items.len() {
        if items[place] < items[least] {
            least = place;
        }
    }
    least
}

/// The same round trip from its least item.
fn from_least(alloc: Global, items: &[usize]) -> Result<Vec<usize>, AllocError>
    requires { 0 < length items.now }
    ensures { IfOk result (λ turned. (least : ℕ)
        × IsFirstBest nat_lt items.now (length items.now) least
        × (turned.items ≡ drop least items.now ++ take least items.now)) }
{
    let least = least_place(items);
    let mut turned = Vec::from_slice(alloc, &items[least..])?;
    turned.extend_from_slice(&items[..least])?;
    Ok(turned)
}

/// The first item without a height.
fn first_open(ranks: &[Option<usize>]) -> Option<usize>
    ensures found { IfSome result (λ n. (n < length ranks.now) × (height_of ranks.now n ≡ None)) }
    ensures none { IfNone result ((n : ℕ) → n < length ranks.now → IsSome (height_of ranks.now n)) }
{
    for (item, height) in ranks.iter().enumerate() {
        if height.is_none() {
            return Some(item);
        }
    }
    None
}

/// A round trip by orders, from its least item; where there is none, the items have ranks that fall along orders.
pub fn find_cycle(
    alloc: Global,
    count: usize,
    orders: &[Order],
) -> Result<Option<Vec<usize>>, AllocError>
    requires { All (IsBetween count) orders.now }
    ensures { IfOk result (TellsRound orders.now) }
{
    let settled = settle(alloc, count, orders)?;
    match first_open(settled.ranks.as_slice()) {
        None => Ok(None),
        Some(item) => {
            let items = go_round(alloc, item, settled.next.as_slice())?;
            Ok(Some(from_least(alloc, items.as_slice())?))
        }
    }
}
