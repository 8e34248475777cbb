// Which items are in which sets.

ghost use Rattle.std.specs.Prelude.{◌≡◌, ◌+◌, ◌<◌, ◌≤◌, ◌^◌, ◌++◌, ◌∷◌, [], ℕ, length, get_or, IfOk, IfErr, IfSome, IfNone, OnOk, OnErr};
ghost use Rattle.std.specs.List.{All};
ghost use Rattle.model.specs.declarations.Hierarchy.{IsHeld, HasNoSelf, HasNoSetCycle, AreMembers};
ghost use Rattle.model.specs.declarations.Edges.{HasNoLoop, HasNoCrossing, AreApart};
ghost use Rattle.cycle_search.specs.Cycles.{IsStep, IsRankable};
ghost use Rattle.cycle_search.specs.Orders.{IsBetween};
ghost use Rattle.system_set.specs.Pairs.{IsHierarchyFault, TellsSelf, lesser_of, with_self, pairs_of};
ghost use Rattle.system_set.specs.Nodes.{TellsCycle};
ghost use Rattle.system_set.specs.Ordered.{TellsCrossing, TellsSharing};
ghost use Rattle.system_set.specs.Edges.{AreEdges};
ghost use Rattle.system_set.specs.Coverage.{AreCovered};

use crate::coverage::{Members, coverage_of};
use crate::crossings::first_crossing;
use crate::cycles::cycle_of_items;
use crate::edges::edges_of;
use crate::fault::HierarchyFault;
use crate::members::members_of;
use crate::sharing::{Sharing, first_sharing};
use cycle_search::{Order, find_cycle};
use std::alloc::{AllocError, Global};
use std::marker::Model;

/// Items by number, sets before systems, and which of them are declared to be in which sets.
#[derive(Drop)]
pub struct SetHierarchy {
    sets: usize,
    items: usize,
    inside: Vec<Order>,
}

impl Model for SetHierarchy {
    ghost use Rattle.model.specs.declarations.Hierarchy.{Hierarchy};
    ghost use Rattle.system_set.specs.Pairs.{pairs_of, ArePlaced};

    ghost Value = { Hierarchy };

    ghost view = { λ h. record {
      sets = h.sets;
      items = h.items;
      inside = pairs_of h.inside.items;
    } };

    ghost invariant = { λ h. ArePlaced h.sets h.items h.inside.items };
}

impl SetHierarchy {
    /// `sets` sets and `systems` systems after them, with nothing in any set.
    pub fn new(alloc: Global, sets: usize, systems: usize) -> Self
        requires { sets + systems < 2 ^ 64 }
        ensures { result ≡ record { sets = sets; items = sets + systems; inside = [] } }
    {
        SetHierarchy {
            sets,
            items: sets + systems,
            inside: Vec::new(alloc),
        }
    }

    /// Declares that the item is in the set. Where an allocation fails nothing is declared.
    pub fn put(&mut self, item: usize, set: usize) -> Result<(), AllocError>
        requires item_known { item < self.old.items }
        requires set_known { set < self.old.sets }
        ensures ok { OnOk result (self.new
            ≡ record self.old { inside = self.old.inside ++ (item, set) ∷ [] }) }
        ensures err { OnErr result (self.new ≡ self.old) }
    {
        self.inside.push(Order {
            first: item,
            second: set,
        })?;
        Ok(())
    }

    /// Refuses a set that is in itself, or sets that hold one another in a circle. Without either, sets have ranks
    /// that rise inwards.
    pub fn check(&self, alloc: Global) -> Result<(), HierarchyFault>
        ensures no_self { OnOk result (HasNoSelf self.now) }
        ensures no_cycle { OnOk result (HasNoSetCycle self.now) }
        ensures ranked { OnOk result (IsRankable (IsHeld self.now)) }
        ensures fault { IfErr result (IsHierarchyFault self.now) }
    {
        match least_self(self.inside.as_slice()) {
            Some(set) => Err(HierarchyFault::Loop(set)),
            None => self.check_circles(alloc),
        }
    }

    // Refuses sets that hold one another in a circle.
    fn check_circles(&self, alloc: Global) -> Result<(), HierarchyFault>
        requires { HasNoSelf self.now }
        ensures no_self { OnOk result (HasNoSelf self.now) }
        ensures no_cycle { OnOk result (HasNoSetCycle self.now) }
        ensures ranked { OnOk result (IsRankable (IsHeld self.now)) }
        ensures fault { IfErr result (IsHierarchyFault self.now) }
    {
        match find_cycle(alloc, self.items, self.inside.as_slice())? {
            None => Ok(()),
            Some(items) => Err(HierarchyFault::Cycle(items)),
        }
    }

    /// The members of a set: the systems that are in it, or in a set that reaches it, in declared order.
    pub fn members(&self, alloc: Global, set: usize) -> Result<Vec<usize>, AllocError>
        ensures { IfOk result (λ members. AreMembers self.now set members.items) }
    {
        members_of(alloc, self.sets, self.items, self.inside.as_slice(), set)
    }

    /// The item and the set of the first order between an item and a set that holds it.
    pub fn crossing(&self, alloc: Global, orders: &[Order]) -> Result<Option<Order>, AllocError>
        requires { All (IsBetween self.now.items) orders.now }
        ensures { IfOk result (TellsCrossing self.now (pairs_of orders.now)) }
    {
        first_crossing(alloc, self.sets, self.items, self.inside.as_slice(), orders)
    }

    /// The first order of two sets that share a system, with the least declared system that they share.
    pub fn sharing(&self, alloc: Global, orders: &[Order]) -> Result<Option<Sharing>, AllocError>
        ensures { IfOk result (TellsSharing self.now (pairs_of orders.now)) }
    {
        first_sharing(alloc, self.sets, self.items, self.inside.as_slice(), orders)
    }

    /// A cycle of items by orders and by the edges that they give, from its earliest declared item. Asks that nothing that is looked for
    /// before it was found. As many nodes are looked at as there are items and sets, and as many steps as there are pairs and orders.
    pub fn cycle(&self, alloc: Global, orders: &[Order]) -> Result<Option<Vec<usize>>, AllocError>
        requires between { All (IsBetween self.now.items) orders.now }
        requires ranked { IsRankable (IsHeld self.now) }
        requires no_loop { HasNoLoop (pairs_of orders.now) }
        requires no_crossing { HasNoCrossing self.now (pairs_of orders.now) }
        requires apart { AreApart self.now (pairs_of orders.now) }
        ensures { IfOk result (TellsCycle self.now (pairs_of orders.now)) }
    {
        cycle_of_items(alloc, self.sets, self.items, self.inside.as_slice(), orders)
    }

    /// The edges of systems that orders give: from each member of the first item of an order to each member of the second. Systems have
    /// their numbers among the systems. Each pair of systems is looked at, so it is for as many as a schedule may have.
    pub fn edges(&self, alloc: Global, orders: &[Order]) -> Result<Vec<Order>, AllocError>
        requires { All (IsBetween self.now.items) orders.now }
        ensures { IfOk result (λ edges. AreEdges self.now (pairs_of orders.now) edges.items) }
    {
        edges_of(alloc, self.sets, self.items, self.inside.as_slice(), orders)
    }

    /// For each of these items its members by their numbers among the systems, in rising order. A system is its own
    /// only member. The items that reach each set are found once, and then each system is looked at for each of these
    /// items.
    pub fn coverage(&self, alloc: Global, items: &[usize]) -> Result<Vec<Members>, AllocError>
        requires { self.now.items < 2 ^ 32 }
        ensures { IfOk result (λ lists. AreCovered self.now items.now lists.items) }
    {
        coverage_of(alloc, self.sets, self.items, self.inside.as_slice(), items)
    }
}

// The least item that a pair puts into itself.
fn least_self(pairs: &[Order]) -> Option<usize>
    ensures { TellsSelf pairs.now (length pairs.now) result }
{
    let mut least = None;
    for pair in pairs {
        least = with_self(least, *pair);
    }
    least
}

// The least item that is put into itself, with one more pair.
fn with_self(least: Option<usize>, pair: Order) -> Option<usize>
    ensures { result ≡ with_self least pair }
{
    if pair.first != pair.second {
        return least;
    }
    lesser(least, pair.first)
}

// The lesser of a number that may be there and one that is.
fn lesser(least: Option<usize>, number: usize) -> Option<usize>
    ensures { result ≡ lesser_of least number }
{
    match least {
        Some(known) if known < number => Some(known),
        _ => Some(number),
    }
}
