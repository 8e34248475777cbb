// Ordered sets that share a system.

ghost use Rattle.std.specs.Prelude.{◌≡◌, ◌<◌, ℕ, length, IfOk, IfSome, IfNone};
ghost use Rattle.system_set.specs.Pairs.{pairs_of, hierarchy_of, ArePlaced};
ghost use Rattle.system_set.specs.Ordered.{TellsShared, TellsSharing, IsBoth};

use crate::members::{marks_of, places_by_set};
use cycle_search::Order;
use std::alloc::{AllocError, Global};

/// Two ordered sets that share a system, by their numbers.
#[derive(Clone, Copy, PartialEq, Eq, Debug)]
pub struct Sharing {
    /// The set that comes first.
    pub first: usize,
    /// The set that comes second.
    pub second: usize,
    /// The least system that is a member of both.
    pub system: usize,
}

/// The first order of two sets that share a system.
pub(crate) fn first_sharing(
    alloc: Global,
    sets: usize,
    items: usize,
    pairs: &[Order],
    orders: &[Order],
) -> Result<Option<Sharing>, AllocError>
    requires { ArePlaced sets items pairs.now }
    ensures { IfOk result (TellsSharing (hierarchy_of sets items pairs.now) (pairs_of orders.now)) }
{
    let lists = places_by_set(alloc, items, pairs)?;
    for order in orders {
        if let Some(system) = least_shared(alloc, sets, items, pairs, lists.as_slice(), *order)? {
            return Ok(Some(Sharing {
                first: order.first,
                second: order.second,
                system,
            }));
        }
    }
    Ok(None)
}

// The least system that the sets of an order share.
fn least_shared(
    alloc: Global,
    sets: usize,
    items: usize,
    pairs: &[Order],
    lists: &[Vec<usize>],
    order: Order,
) -> Result<Option<usize>, AllocError>
    requires { ArePlaced sets items pairs.now }
    ensures { IfOk result (TellsShared (hierarchy_of sets items pairs.now) order) }
{
    if order.first >= sets || order.second >= sets {
        return Ok(None);
    }
    let first = marks_of(alloc, items, pairs, lists, order.first)?;
    let second = marks_of(alloc, items, pairs, lists, order.second)?;
    Ok(least_in_both(sets, first.as_slice(), second.as_slice()))
}

// The least system that is marked in both lists.
fn least_in_both(sets: usize, first: &[bool], second: &[bool]) -> Option<usize>
    requires { length first.now ≡ length second.now }
    ensures found { IfSome result (λ n. IsBoth sets first.now second.now n
        × ((m : ℕ) → m < n → IsBoth sets first.now second.now m → ⊥)) }
    ensures none { IfNone result ((m : ℕ) → m < length first.now
        → IsBoth sets first.now second.now m → ⊥) }
{
    for item in sets..first.len() {
        if first[item] && second[item] {
            return Some(item);
        }
    }
    None
}
