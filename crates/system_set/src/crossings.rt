// Orders between an item and a set that holds it.

ghost use Rattle.std.specs.Prelude.{◌≡◌, ◌<◌, IfOk};
ghost use Rattle.std.specs.List.{All};
ghost use Rattle.cycle_search.specs.Orders.{IsBetween};
ghost use Rattle.system_set.specs.Pairs.{pairs_of, hierarchy_of, ArePlaced};
ghost use Rattle.system_set.specs.Ordered.{TellsReach, TellsCrossed, TellsCrossing};

use crate::members::{marks_of, places_by_set};
use cycle_search::Order;
use std::alloc::{AllocError, Global};

/// The item and the set of the first order between an item and a set that holds it.
pub(crate) fn first_crossing(
    alloc: Global,
    sets: usize,
    items: usize,
    pairs: &[Order],
    orders: &[Order],
) -> Result<Option<Order>, AllocError>
    requires placed { ArePlaced sets items pairs.now }
    requires between { All (IsBetween items) orders.now }
    ensures { IfOk result (TellsCrossing (hierarchy_of sets items pairs.now) (pairs_of
        orders.now)) }
{
    let lists = places_by_set(alloc, items, pairs)?;
    for order in orders {
        if let Some(crossing) = crossing_of(alloc, sets, items, pairs, lists.as_slice(), *order)? {
            return Ok(Some(crossing));
        }
    }
    Ok(None)
}

// The item of an order and the set that holds it.
fn crossing_of(
    alloc: Global,
    sets: usize,
    items: usize,
    pairs: &[Order],
    lists: &[Vec<usize>],
    order: Order,
) -> Result<Option<Order>, AllocError>
    requires placed { ArePlaced sets items pairs.now }
    requires between { IsBetween items order }
    ensures { IfOk result (TellsCrossed (hierarchy_of sets items pairs.now) order) }
{
    if reaches(alloc, sets, items, pairs, lists, order.first, order.second)? {
        return Ok(Some(order));
    }
    if reaches(alloc, sets, items, pairs, lists, order.second, order.first)? {
        return Ok(Some(Order {
            first: order.second,
            second: order.first,
        }));
    }
    Ok(None)
}

// Whether an item reaches a set.
fn reaches(
    alloc: Global,
    sets: usize,
    items: usize,
    pairs: &[Order],
    lists: &[Vec<usize>],
    item: usize,
    set: usize,
) -> Result<bool, AllocError>
    requires placed { ArePlaced sets items pairs.now }
    requires known { item < items }
    ensures { IfOk result (TellsReach (hierarchy_of sets items pairs.now) item set) }
{
    if set >= sets {
        return Ok(false);
    }
    let marks = marks_of(alloc, items, pairs, lists, set)?;
    Ok(marks[item])
}
