// Cycles of items, where orders and the edges that they give between members lead back. A set stands as a node between its members,
// so that an order of two sets is one step, however many members they have.

ghost use Rattle.std.specs.Prelude.{◌≡◌, ◌+◌, ◌*◌, ◌<◌, ◌^◌, ◌++◌, ℕ, map, IfOk, OnOk};
ghost use Rattle.std.specs.List.{All};
ghost use Rattle.model.specs.declarations.Edges.{HasNoLoop, HasNoCrossing, AreApart};
ghost use Rattle.cycle_search.specs.Cycles.{IsStep, IsRankable};
ghost use Rattle.cycle_search.specs.Orders.{IsBetween};
ghost use Rattle.system_set.specs.Pairs.{pairs_of, hierarchy_of, ArePlaced};
ghost use Rattle.system_set.specs.Nodes.{enter_of, leave_of, enter_step, leave_step, cross_step, steps_of, items_among, TellsCycle};

use cycle_search::{Order, find_cycle};
use std::alloc::{AllocError, Global};

/// A cycle of items by orders and by the edges that they give, from its earliest declared item.
pub(crate) fn cycle_of_items(
    alloc: Global,
    sets: usize,
    items: usize,
    pairs: &[Order],
    orders: &[Order],
) -> Result<Option<Vec<usize>>, AllocError>
    requires placed { ArePlaced sets items pairs.now }
    requires ranked { IsRankable (IsStep pairs.now) }
    requires between { All (IsBetween items) orders.now }
    requires no_loop { HasNoLoop (pairs_of orders.now) }
    requires no_crossing { HasNoCrossing (hierarchy_of sets items pairs.now) (pairs_of orders.now) }
    requires apart { AreApart (hierarchy_of sets items pairs.now) (pairs_of orders.now) }
    ensures { IfOk result (TellsCycle (hierarchy_of sets items pairs.now) (pairs_of orders.now)) }
{
    let count = node_count(sets, items)?;
    let steps = steps_between(alloc, sets, items, pairs, orders)?;
    match find_cycle(alloc, count, steps.as_slice())? {
        None => Ok(None),
        Some(nodes) => Ok(Some(items_in(alloc, items, nodes.as_slice())?)),
    }
}

// How many nodes there are. There is no memory for more than numbers can count.
fn node_count(sets: usize, items: usize) -> Result<usize, AllocError>
    ensures { IfOk result (λ count. count ≡ items + sets + sets) }
{
    let Some(entered) = items.checked_add(sets) else {
        return Err(AllocError);
    };
    let Some(count) = entered.checked_add(sets) else {
        return Err(AllocError);
    };
    Ok(count)
}

// The node by which an item is entered.
fn enter(sets: usize, items: usize, number: usize) -> usize
    requires { items + sets + sets < 2 ^ 64 }
    ensures { result ≡ enter_of sets items number }
{
    if number < sets {
        items + number
    } else {
        number
    }
}

// The node by which an item is left.
fn leave(sets: usize, items: usize, number: usize) -> usize
    requires { items + sets + sets < 2 ^ 64 }
    ensures { result ≡ leave_of sets items number }
{
    if number < sets {
        items + sets + number
    } else {
        number
    }
}

// The steps between nodes.
fn steps_between(
    alloc: Global,
    sets: usize,
    items: usize,
    pairs: &[Order],
    orders: &[Order],
) -> Result<Vec<Order>, AllocError>
    requires { items + sets + sets < 2 ^ 64 }
    ensures { IfOk result (λ steps. steps.items ≡ steps_of sets items pairs.now orders.now) }
{
    let mut steps = Vec::new(alloc);
    push_enters(sets, items, pairs, &mut steps)?;
    push_leaves(sets, items, pairs, &mut steps)?;
    steps.extend_from_slice(orders)?;
    push_crossings(sets, items, orders, &mut steps)?;
    Ok(steps)
}

// Adds the steps from where a set is entered to where what is in it is.
fn push_enters(
    sets: usize,
    items: usize,
    pairs: &[Order],
    steps: &mut Vec<Order>,
) -> Result<(), AllocError>
    requires { items + sets + sets < 2 ^ 64 }
    ensures { OnOk result (steps.new.items
        ≡ steps.old.items ++ map (enter_step sets items) pairs.now) }
{
    for pair in pairs {
        steps.push(Order {
            first: enter(sets, items, pair.second),
            second: enter(sets, items, pair.first),
        })?;
    }
    Ok(())
}

// Adds the steps from where an item is left to where the set that it is in is.
fn push_leaves(
    sets: usize,
    items: usize,
    pairs: &[Order],
    steps: &mut Vec<Order>,
) -> Result<(), AllocError>
    requires { items + sets + sets < 2 ^ 64 }
    ensures { OnOk result (steps.new.items
        ≡ steps.old.items ++ map (leave_step sets items) pairs.now) }
{
    for pair in pairs {
        steps.push(Order {
            first: leave(sets, items, pair.first),
            second: leave(sets, items, pair.second),
        })?;
    }
    Ok(())
}

// Adds the steps from where the first item of an order is left to where the second is entered.
fn push_crossings(
    sets: usize,
    items: usize,
    orders: &[Order],
    steps: &mut Vec<Order>,
) -> Result<(), AllocError>
    requires { items + sets + sets < 2 ^ 64 }
    ensures { OnOk result (steps.new.items
        ≡ steps.old.items ++ map (cross_step sets items) orders.now) }
{
    for order in orders {
        steps.push(Order {
            first: leave(sets, items, order.first),
            second: enter(sets, items, order.second),
        })?;
    }
    Ok(())
}

// Those of some nodes that are items.
fn items_in(alloc: Global, items: usize, nodes: &[usize]) -> Result<Vec<usize>, AllocError>
    ensures { IfOk result (λ found. found.items ≡ items_among items nodes.now) }
{
    let mut found = Vec::new(alloc);
    for node in nodes {
        if *node < items {
            found.push(*node)?;
        }
    }
    Ok(found)
}
