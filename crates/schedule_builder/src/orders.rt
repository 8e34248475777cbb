// What is in which sets, and the declared orders, by the numbers of items.

ghost use Rattle.std.specs.Prelude.{◌≡◌, ◌≤◌, ◌<◌, ◌++◌, map, flat_map, IfOk, IfErr, OnOk, string_bytes, length};
ghost use Rattle.model.specs.declarations.Walks.{EachIs};
ghost use Rattle.model.specs.declarations.Declarations.{items_of, item_at, number_of, bounded, names_in, names_along, looked_up, orders_before, orders_after, orders_in, plain_orders_in, orders_along, plain_orders_along, hierarchy_of, declared_orders, plain_orders, declared_silences};
ghost use Rattle.model.specs.declarations.Refusals.{IsKnown, KnowsNames};
ghost use Rattle.system_set.specs.Pairs.{ArePlaced, pairs_of};
ghost use Rattle.schedule_builder.specs.Answers.{IsAnswered};
ghost use Rattle.schedule_builder.specs.Orders.{TellsPlaces, IsLacking, TellsLoop, AreDeclared, link};

use crate::desc::{ChainDesc, ItemDesc, ScheduleDesc};
use crate::fault::BuildFault;
use cycle_search::Order;
use std::alloc::{AllocError, Global};
use std::collections::BTreeMap;
use system_set::SetHierarchy;

/// What is declared, by the numbers of items: each item with each set that it is in, the orders, and of these the plain ones, which
/// don't ignore that commands are deferred.
#[derive(Drop)]
pub(crate) struct Resolved {
    /// The items and their sets.
    pub(crate) inside: Vec<Order>,
    /// The orders.
    pub(crate) orders: Vec<Order>,
    /// The plain orders.
    pub(crate) plain: Vec<Order>,
    /// The items that may be ambiguous.
    pub(crate) silences: Vec<Order>,
}

/// The number of the item with a name; where there is none, how many items there are.
fn place_of(desc: &ScheduleDesc, places: &BTreeMap<String, usize>, name: &String) -> usize
    requires { TellsPlaces desc.now places.now }
    ensures { result ≡ number_of desc.now (string_bytes name.now) }
{
    match places.get(name.as_str()) {
        Some(place) => *place,
        None => desc.count(),
    }
}

// ---- names

/// Refuses the first of these names that none of the first `bound` items has.
fn check_names(
    desc: &ScheduleDesc,
    places: &BTreeMap<String, usize>,
    bound: usize,
    names: &[String],
) -> Result<(), BuildFault>
    requires told { TellsPlaces desc.now places.now }
    requires few { bound ≤ length (items_of desc.now) }
    ensures known { OnOk result (EachIs (IsKnown desc.now) (bounded bound (map string_bytes
        names.now))) }
    ensures lacking { IfErr result (IsLacking desc.now (bounded bound (map string_bytes
        names.now))) }
{
    for name in names {
        if place_of(desc, places, name) >= bound {
            return Err(BuildFault::UnknownName(name.clone()?));
        }
    }
    Ok(())
}

/// Refuses the first name that an item looks up and that is not known: of the sets that it is in, then of items.
fn check_item(
    desc: &ScheduleDesc,
    places: &BTreeMap<String, usize>,
    sets: usize,
    count: usize,
    item: &ItemDesc,
) -> Result<(), BuildFault>
    requires told { TellsPlaces desc.now places.now }
    requires sets { sets ≤ length (items_of desc.now) }
    requires items { count ≤ length (items_of desc.now) }
    ensures known { OnOk result (EachIs (IsKnown desc.now) (names_in sets count item.now)) }
    ensures lacking { IfErr result (IsLacking desc.now (names_in sets count item.now)) }
{
    check_names(desc, places, sets, item.inside())?;
    let firsts = item.before();
    check_names(desc, places, count, firsts)?;
    check_names(desc, places, count, item.after())?;
    check_names(desc, places, count, item.before_ignore_deferred())?;
    check_names(desc, places, count, item.after_ignore_deferred())?;
    check_names(desc, places, count, item.ambiguous_with())
}

/// Refuses the first name that an item looks up and that is not known.
fn check_items(desc: &ScheduleDesc, places: &BTreeMap<String, usize>) -> Result<(), BuildFault>
    requires { TellsPlaces desc.now places.now }
    ensures known { OnOk result (EachIs (IsKnown desc.now) (flat_map
        (names_in (length desc.now.sets) (length (items_of desc.now))) (items_of
        desc.now))) }
    ensures lacking { IfErr result (IsLacking desc.now (flat_map
        (names_in (length desc.now.sets) (length (items_of desc.now))) (items_of
        desc.now))) }
{
    let sets = desc.sets().len();
    let count = desc.count();
    for number in 0..count {
        check_item(desc, places, sets, count, desc.item(number))?;
    }
    Ok(())
}

/// Refuses the first name that a chain looks up and that is not known.
fn check_chains(desc: &ScheduleDesc, places: &BTreeMap<String, usize>) -> Result<(), BuildFault>
    requires { TellsPlaces desc.now places.now }
    ensures known { OnOk result (EachIs (IsKnown desc.now) (flat_map
        (names_along (length (items_of desc.now))) desc.now.chains)) }
    ensures lacking { IfErr result (IsLacking desc.now (flat_map
        (names_along (length (items_of desc.now))) desc.now.chains)) }
{
    let count = desc.count();
    let chains = desc.chains();
    for chain in chains {
        check_names(desc, places, count, chain.items())?;
    }
    Ok(())
}

/// Refuses the first name that is looked up and that is not known.
fn check_all_names(desc: &ScheduleDesc, places: &BTreeMap<String, usize>) -> Result<(), BuildFault>
    requires { TellsPlaces desc.now places.now }
    ensures known { OnOk result (EachIs (IsKnown desc.now) (looked_up desc.now)) }
    ensures lacking { IfErr result (IsLacking desc.now (looked_up desc.now)) }
{
    check_items(desc, places)?;
    check_chains(desc, places)
}

// ---- orders

/// Adds the orders of an item before the items of these names.
fn push_before(
    desc: &ScheduleDesc,
    places: &BTreeMap<String, usize>,
    number: usize,
    names: &[String],
    orders: &mut Vec<Order>,
) -> Result<(), AllocError>
    requires { TellsPlaces desc.now places.now }
    ensures { OnOk result (pairs_of orders.new.items
        ≡ pairs_of orders.old.items
        ++ orders_before desc.now number (map string_bytes names.now)) }
{
    for name in names {
        let second = place_of(desc, places, name);
        orders.push(Order {
            first: number,
            second,
        })?;
    }
    Ok(())
}

/// Adds the orders of an item after the items of these names.
fn push_after(
    desc: &ScheduleDesc,
    places: &BTreeMap<String, usize>,
    number: usize,
    names: &[String],
    orders: &mut Vec<Order>,
) -> Result<(), AllocError>
    requires { TellsPlaces desc.now places.now }
    ensures { OnOk result (pairs_of orders.new.items
        ≡ pairs_of orders.old.items
        ++ orders_after desc.now number (map string_bytes names.now)) }
{
    for name in names {
        let first = place_of(desc, places, name);
        orders.push(Order {
            first,
            second: number,
        })?;
    }
    Ok(())
}

/// Adds the order of a number before another, where it is there.
fn push_link(
    previous: Option<usize>,
    second: usize,
    orders: &mut Vec<Order>,
) -> Result<(), AllocError>
    ensures { OnOk result (pairs_of orders.new.items
        ≡ pairs_of orders.old.items ++ link previous second) }
{
    if let Some(first) = previous {
        orders.push(Order { first, second })?;
    }
    Ok(())
}

/// Adds the orders of a chain: each item before the next.
fn push_along(
    desc: &ScheduleDesc,
    places: &BTreeMap<String, usize>,
    chain: &ChainDesc,
    orders: &mut Vec<Order>,
) -> Result<(), AllocError>
    requires { TellsPlaces desc.now places.now }
    ensures { OnOk result (pairs_of orders.new.items
        ≡ pairs_of orders.old.items ++ orders_along desc.now chain.now) }
{
    let names = chain.items();
    let mut previous = None;
    for name in names {
        let place = place_of(desc, places, name);
        push_link(previous, place, orders)?;
        previous = Some(place);
    }
    Ok(())
}

/// Adds the orders of a chain that doesn't ignore deferred commands.
fn push_plain_along(
    desc: &ScheduleDesc,
    places: &BTreeMap<String, usize>,
    chain: &ChainDesc,
    orders: &mut Vec<Order>,
) -> Result<(), AllocError>
    requires { TellsPlaces desc.now places.now }
    ensures { OnOk result (pairs_of orders.new.items
        ≡ pairs_of orders.old.items ++ plain_orders_along desc.now chain.now) }
{
    if chain.ignores_deferred() {
        return Ok(());
    }
    push_along(desc, places, chain, orders)
}

/// Adds the plain orders of an item.
fn push_plain(
    desc: &ScheduleDesc,
    places: &BTreeMap<String, usize>,
    number: usize,
    orders: &mut Vec<Order>,
) -> Result<(), AllocError>
    requires told { TellsPlaces desc.now places.now }
    requires known { number < length (items_of desc.now) }
    ensures { OnOk result (pairs_of orders.new.items
        ≡ pairs_of orders.old.items
        ++ plain_orders_in desc.now number (item_at desc.now number)) }
{
    let item = desc.item(number);
    push_before(desc, places, number, item.before(), orders)?;
    push_after(desc, places, number, item.after(), orders)
}

/// Adds the orders of an item.
fn push_orders(
    desc: &ScheduleDesc,
    places: &BTreeMap<String, usize>,
    number: usize,
    orders: &mut Vec<Order>,
) -> Result<(), AllocError>
    requires told { TellsPlaces desc.now places.now }
    requires known { number < length (items_of desc.now) }
    ensures { OnOk result (pairs_of orders.new.items
        ≡ pairs_of orders.old.items ++ orders_in desc.now number (item_at desc.now number)) }
{
    let item = desc.item(number);
    push_plain(desc, places, number, orders)?;
    push_before(desc, places, number, item.before_ignore_deferred(), orders)?;
    push_after(desc, places, number, item.after_ignore_deferred(), orders)
}

/// What is in which sets.
fn inside_of(
    alloc: Global,
    desc: &ScheduleDesc,
    places: &BTreeMap<String, usize>,
) -> Result<Vec<Order>, AllocError>
    requires { TellsPlaces desc.now places.now }
    ensures { IfOk result (λ inside. pairs_of inside.items ≡ (hierarchy_of desc.now).inside) }
{
    let mut pairs = Vec::new(alloc);
    for number in 0..desc.count() {
        let item = desc.item(number);
        push_before(desc, places, number, item.inside(), &mut pairs)?;
    }
    Ok(pairs)
}

/// The declared orders, in order.
fn orders_of(
    alloc: Global,
    desc: &ScheduleDesc,
    places: &BTreeMap<String, usize>,
) -> Result<Vec<Order>, AllocError>
    requires { TellsPlaces desc.now places.now }
    ensures { IfOk result (λ orders. pairs_of orders.items ≡ declared_orders desc.now) }
{
    let mut orders = Vec::new(alloc);
    for number in 0..desc.count() {
        push_orders(desc, places, number, &mut orders)?;
    }
    let chains = desc.chains();
    for chain in chains {
        push_along(desc, places, chain, &mut orders)?;
    }
    Ok(orders)
}

/// The plain orders, in order.
fn plain_orders_of(
    alloc: Global,
    desc: &ScheduleDesc,
    places: &BTreeMap<String, usize>,
) -> Result<Vec<Order>, AllocError>
    requires { TellsPlaces desc.now places.now }
    ensures { IfOk result (λ orders. pairs_of orders.items ≡ plain_orders desc.now) }
{
    let mut orders = Vec::new(alloc);
    for number in 0..desc.count() {
        push_plain(desc, places, number, &mut orders)?;
    }
    let chains = desc.chains();
    for chain in chains {
        push_plain_along(desc, places, chain, &mut orders)?;
    }
    Ok(orders)
}

/// The pairs of items that may be ambiguous, in order.
fn silences_of(
    alloc: Global,
    desc: &ScheduleDesc,
    places: &BTreeMap<String, usize>,
) -> Result<Vec<Order>, AllocError>
    requires { TellsPlaces desc.now places.now }
    ensures { IfOk result (λ pairs. pairs_of pairs.items ≡ declared_silences desc.now) }
{
    let mut pairs = Vec::new(alloc);
    for number in 0..desc.count() {
        let item = desc.item(number);
        push_before(desc, places, number, item.ambiguous_with(), &mut pairs)?;
    }
    Ok(pairs)
}

/// What is in which sets, the declared orders, and which items may be ambiguous. The error is the first name looked up that no item has, or no set where it is that
/// of a set to be in.
pub(crate) fn resolve(
    alloc: Global,
    desc: &ScheduleDesc,
    places: &BTreeMap<String, usize>,
) -> Result<Resolved, BuildFault>
    requires { TellsPlaces desc.now places.now }
    ensures declared { IfOk result (λ r. AreDeclared desc.now r.inside.items r.orders.items
        r.plain.items r.silences.items) }
    ensures known { OnOk result (KnowsNames desc.now) }
    ensures refused { IfErr result (IsAnswered desc.now) }
{
    check_all_names(desc, places)?;
    Ok(Resolved {
        inside: inside_of(alloc, desc, places)?,
        orders: orders_of(alloc, desc, places)?,
        plain: plain_orders_of(alloc, desc, places)?,
        silences: silences_of(alloc, desc, places)?,
    })
}

/// The hierarchy of these pairs of an item and a set that it is in.
pub(crate) fn hierarchy_from(
    alloc: Global,
    desc: &ScheduleDesc,
    inside: &[Order],
) -> Result<SetHierarchy, AllocError>
    requires placed { ArePlaced (length desc.now.sets) (length (items_of desc.now)) inside.now }
    requires declared { pairs_of inside.now ≡ (hierarchy_of desc.now).inside }
    ensures { IfOk result (λ h. h ≡ hierarchy_of desc.now) }
{
    let mut hierarchy = SetHierarchy::new(alloc, desc.sets().len(), desc.systems().len());
    for pair in inside {
        hierarchy.put(pair.first, pair.second)?;
    }
    Ok(hierarchy)
}

/// The item of the first order of an item with itself.
pub(crate) fn first_loop(orders: &[Order]) -> Option<usize>
    ensures { TellsLoop (pairs_of orders.now) result }
{
    for order in orders {
        if order.first == order.second {
            return Some(order.first);
        }
    }
    None
}
