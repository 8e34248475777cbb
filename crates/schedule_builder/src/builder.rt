// The builder: refusals in their order, and else the schedule.

ghost use Rattle.std.specs.Prelude.{◌≡◌, ℕ, ◌<◌, ◌≤◌, ◌^◌, length, map, get_or, string_bytes, unwrap_or, [], IfOk, IfErr, OnOk};
ghost use Rattle.std.specs.Bool.{MatchBool};
ghost use Rattle.std.specs.List.{All};
ghost use Rattle.model.specs.declarations.Hierarchy.{IsHeld};
ghost use Rattle.model.specs.declarations.Edges.{HasNoLoop, HasNoCrossing, IsFollowed};
ghost use Rattle.model.specs.declarations.Declarations.{items_of, name_of, system_name, declared_at, hierarchy_of, declared_orders, plain_orders};
ghost use Rattle.model.specs.declarations.Refusals.{IsNamed, IsNested, IsApart, IsOrdered, HasNoSelfConflict, HasGoodQueries, HasGoodConditions, AreReading, IsWithinLimits, HasManyQueries, HasManySpawns, granted_to, IsBuildable, names_of};
ghost use Rattle.model.specs.declarations.ScheduleOrder.{HasDeclaredSystems, HasDeclaredEdges, HasLevels, HasDeclaredConditions, HasDeclaredSilences, IsScheduleOrder};
ghost use Rattle.cycle_search.specs.Cycles.{IsStep, IsRankable};
ghost use Rattle.cycle_search.specs.Orders.{IsBetween};
ghost use Rattle.system_set.specs.Pairs.{pairs_of};
ghost use Rattle.system_set.specs.Edges.{AreEdges};
ghost use Rattle.schedule_builder.specs.Answers.{IsAnswered};
ghost use Rattle.schedule_builder.specs.Orders.{AreDeclared, AreOrders, IsWhole};
ghost use Rattle.system_set.specs.Coverage.{AreCovered};
ghost use Rattle.schedule_builder.specs.Asked.{asked_of, owners_of, AreDeclaredSilences};
ghost use Rattle.schedule_builder.specs.ScheduleOrder.{AreScheduled, system_with};
ghost use Rattle.schedule_builder.specs.Levels.{AreLevelledBy};

use crate::ascending_list::{Listing, silences_of};
use crate::built::{Built, System};
use crate::condition_faults::{
    conditions_of, first_bad_condition, first_writing, owners_of, scheduled_conditions,
};
use crate::desc::{ScheduleDesc, SystemDesc};
use crate::fault::BuildFault;
use crate::levels::{found_levels, level_in, syncs_of};
use crate::names::{first_repeated, places_of};
use crate::orders::{Resolved, first_loop, hierarchy_from, resolve};
use crate::query_faults::first_bad;
use crate::schedule_order::{order_of, predecessors_of};
use crate::self_conflicts::first_conflicting;
use access_set::Params;
use cycle_search::Order;
use run_condition::Cond;
use std::alloc::{AllocError, Global};
use system_set::{HierarchyFault, Members, SetHierarchy};

/// The most systems that a schedule has.
const SYSTEMS: usize = 256;

// How many sets it has at most.
const SETS: usize = 64;

// How many conditions it has at most.
const CONDITIONS: usize = 512;

// How many queries a system may have.
const QUERIES: usize = 8;

// How many ids a system may be given at a start.
const SPAWNS: u32 = 1024;

/// The name of an item.
fn name_at(alloc: Global, desc: &ScheduleDesc, number: usize) -> Result<String, AllocError>
    requires { number < length (items_of desc.now) }
    ensures { IfOk result (λ name. string_bytes name ≡ name_of desc.now number) }
{
    String::from_str(alloc, desc.item(number).name())
}

/// The name of a system.
fn system_name_at(alloc: Global, desc: &ScheduleDesc, number: usize) -> Result<String, AllocError>
    requires { number < length desc.now.systems }
    ensures { IfOk result (λ name. string_bytes name ≡ system_name desc.now number) }
{
    String::from_str(alloc, desc.system(number).item().name())
}

/// The names of these items.
fn names_at(
    alloc: Global,
    desc: &ScheduleDesc,
    numbers: &[usize],
) -> Result<Vec<String>, AllocError>
    requires { All (λ n. n < length (items_of desc.now)) numbers.now }
    ensures { IfOk result (λ names. map string_bytes names.items ≡ names_of desc.now numbers.now) }
{
    let mut names = Vec::new(alloc);
    for number in numbers {
        names.push(name_at(alloc, desc, *number)?)?;
    }
    Ok(names)
}

/// What is declared by number, where every name is that of one item.
fn resolved(alloc: Global, desc: &ScheduleDesc) -> Result<Resolved, BuildFault>
    ensures declared { IfOk result (λ r. AreDeclared desc.now r.inside.items r.orders.items
        r.plain.items r.silences.items) }
    ensures named { OnOk result (IsNamed desc.now) }
    ensures refused { IfErr result (IsAnswered desc.now) }
{
    let places = places_of(alloc, desc)?;
    let resolved = resolve(alloc, desc, &places)?;
    match first_repeated(desc, &places) {
        None => Ok(resolved),
        Some(number) => Err(BuildFault::DuplicateName(name_at(alloc, desc, number)?)),
    }
}

/// Refuses a set that is in itself, and sets that hold one another in a circle.
fn check_hierarchy(
    alloc: Global,
    desc: &ScheduleDesc,
    hierarchy: &SetHierarchy,
) -> Result<(), BuildFault>
    requires declared { hierarchy.now ≡ hierarchy_of desc.now }
    requires named { IsNamed desc.now }
    requires whole { IsWhole desc.now }
    ensures nested { OnOk result (IsNested desc.now) }
    ensures ranked { OnOk result (IsRankable (IsHeld hierarchy.now)) }
    ensures refused { IfErr result (IsAnswered desc.now) }
{
    match hierarchy.check(alloc) {
        Ok(()) => Ok(()),
        Err(HierarchyFault::Loop(set)) => {
            Err(BuildFault::HierarchyLoop(name_at(alloc, desc, set)?))
        }
        Err(HierarchyFault::Cycle(sets)) => Err(BuildFault::HierarchyCycle(names_at(
            alloc,
            desc,
            sets.as_slice(),
        )?)),
        Err(HierarchyFault::Memory) => Err(BuildFault::Memory),
    }
}

/// Refuses an order of an item with itself.
fn check_loops(alloc: Global, desc: &ScheduleDesc, orders: &[Order]) -> Result<(), BuildFault>
    requires orders { AreOrders desc.now orders.now }
    requires whole { IsWhole desc.now }
    requires nested { IsNested desc.now }
    ensures no_loop { OnOk result (HasNoLoop (pairs_of orders.now)) }
    ensures refused { IfErr result (IsAnswered desc.now) }
{
    match first_loop(orders) {
        None => Ok(()),
        Some(item) => Err(BuildFault::DependencyLoop(name_at(alloc, desc, item)?)),
    }
}

/// Refuses an order between an item and a set that holds it.
fn check_crossings(
    alloc: Global,
    desc: &ScheduleDesc,
    hierarchy: &SetHierarchy,
    orders: &[Order],
) -> Result<(), BuildFault>
    requires declared { hierarchy.now ≡ hierarchy_of desc.now }
    requires orders { AreOrders desc.now orders.now }
    requires whole { IsWhole desc.now }
    requires nested { IsNested desc.now }
    requires no_loop { HasNoLoop (pairs_of orders.now) }
    ensures no_crossing { OnOk result (HasNoCrossing hierarchy.now (pairs_of orders.now)) }
    ensures refused { IfErr result (IsAnswered desc.now) }
{
    match hierarchy.crossing(alloc, orders)? {
        None => Ok(()),
        Some(crossing) => {
            let item = name_at(alloc, desc, crossing.first)?;
            let set = name_at(alloc, desc, crossing.second)?;
            Err(BuildFault::CrossDependency { item, set })
        }
    }
}

/// Refuses two ordered sets that share a system.
fn check_sharing(
    alloc: Global,
    desc: &ScheduleDesc,
    hierarchy: &SetHierarchy,
    orders: &[Order],
) -> Result<(), BuildFault>
    requires declared { hierarchy.now ≡ hierarchy_of desc.now }
    requires orders { AreOrders desc.now orders.now }
    requires whole { IsWhole desc.now }
    requires nested { IsNested desc.now }
    requires no_loop { HasNoLoop (pairs_of orders.now) }
    requires no_crossing { HasNoCrossing hierarchy.now (pairs_of orders.now) }
    ensures apart { OnOk result (IsApart desc.now) }
    ensures refused { IfErr result (IsAnswered desc.now) }
{
    match hierarchy.sharing(alloc, orders)? {
        None => Ok(()),
        Some(sharing) => {
            let first = name_at(alloc, desc, sharing.first)?;
            let second = name_at(alloc, desc, sharing.second)?;
            let system = name_at(alloc, desc, sharing.system)?;
            Err(BuildFault::SetsIntersect {
                first,
                second,
                system,
            })
        }
    }
}

/// Refuses a cycle of items.
fn check_cycles(
    alloc: Global,
    desc: &ScheduleDesc,
    hierarchy: &SetHierarchy,
    orders: &[Order],
) -> Result<(), BuildFault>
    requires declared { hierarchy.now ≡ hierarchy_of desc.now }
    requires orders { AreOrders desc.now orders.now }
    requires whole { IsWhole desc.now }
    requires ranked { IsRankable (IsHeld hierarchy.now) }
    requires apart { IsApart desc.now }
    ensures ordered { OnOk result (IsOrdered desc.now) }
    ensures rankable { OnOk result (IsRankable (IsFollowed hierarchy.now (pairs_of orders.now))) }
    ensures refused { IfErr result (IsAnswered desc.now) }
{
    match hierarchy.cycle(alloc, orders)? {
        None => Ok(()),
        Some(items) => Err(BuildFault::DependencyCycle(names_at(alloc, desc, items.as_slice())?)),
    }
}

/// Refuses orders that are at fault: an order of an item with itself, one between an item and a set that holds it, one of two sets that
/// share a system, and a cycle of items.
fn check_orders(
    alloc: Global,
    desc: &ScheduleDesc,
    hierarchy: &SetHierarchy,
    orders: &[Order],
) -> Result<(), BuildFault>
    requires declared { hierarchy.now ≡ hierarchy_of desc.now }
    requires orders { AreOrders desc.now orders.now }
    requires whole { IsWhole desc.now }
    requires ranked { IsRankable (IsHeld hierarchy.now) }
    requires nested { IsNested desc.now }
    ensures ordered { OnOk result (IsOrdered desc.now) }
    ensures rankable { OnOk result (IsRankable (IsFollowed hierarchy.now (pairs_of orders.now))) }
    ensures refused { IfErr result (IsAnswered desc.now) }
{
    check_loops(alloc, desc, orders)?;
    check_crossings(alloc, desc, hierarchy, orders)?;
    check_sharing(alloc, desc, hierarchy, orders)?;
    check_cycles(alloc, desc, hierarchy, orders)
}

/// Refuses a system whose parameters conflict among themselves.
fn check_self_conflicts(alloc: Global, desc: &ScheduleDesc) -> Result<(), BuildFault>
    requires { IsOrdered desc.now }
    ensures apart { OnOk result (HasNoSelfConflict desc.now) }
    ensures refused { IfErr result (IsAnswered desc.now) }
{
    match first_conflicting(desc) {
        None => Ok(()),
        Some(number) => Err(BuildFault::SelfConflict(system_name_at(alloc, desc, number)?)),
    }
}

/// Refuses a query at fault.
fn check_queries(alloc: Global, desc: &ScheduleDesc) -> Result<(), BuildFault>
    requires ordered { IsOrdered desc.now }
    requires apart { HasNoSelfConflict desc.now }
    ensures good { OnOk result (HasGoodQueries desc.now) }
    ensures refused { IfErr result (IsAnswered desc.now) }
{
    match first_bad(desc) {
        None => Ok(()),
        Some((system, query, case)) => {
            let owner = system_name_at(alloc, desc, system)?;
            Err(BuildFault::BadQuery { owner, query, case })
        }
    }
}

/// Refuses a condition with a query at fault.
fn check_condition_queries(
    alloc: Global,
    desc: &ScheduleDesc,
    conditions: &[&Cond],
) -> Result<(), BuildFault>
    requires asked { map (λ c. c.now) conditions.now ≡ asked_of desc.now }
    requires ordered { IsOrdered desc.now }
    requires apart { HasNoSelfConflict desc.now }
    requires good { HasGoodQueries desc.now }
    ensures good { OnOk result (HasGoodConditions desc.now) }
    ensures refused { IfErr result (IsAnswered desc.now) }
{
    match first_bad_condition(alloc, conditions)? {
        None => Ok(()),
        Some((condition, query, case)) => Err(BuildFault::BadConditionQuery {
            condition,
            query,
            case,
        }),
    }
}

/// Refuses a condition that writes.
fn check_reading(alloc: Global, desc: &ScheduleDesc, conditions: &[&Cond]) -> Result<(), BuildFault>
    requires asked { map (λ c. c.now) conditions.now ≡ asked_of desc.now }
    requires ordered { IsOrdered desc.now }
    requires apart { HasNoSelfConflict desc.now }
    requires good { HasGoodQueries desc.now }
    requires good_conditions { HasGoodConditions desc.now }
    ensures reading { OnOk result (AreReading desc.now) }
    ensures refused { IfErr result (IsAnswered desc.now) }
{
    match first_writing(alloc, conditions)? {
        None => Ok(()),
        Some(condition) => Err(BuildFault::ConditionWrites(condition)),
    }
}

/// Refuses a limit that is passed.
fn check_limits(desc: &ScheduleDesc, conditions: &[&Cond]) -> Result<(), BuildFault>
    requires asked { map (λ c. c.now) conditions.now ≡ asked_of desc.now }
    requires ordered { IsOrdered desc.now }
    requires apart { HasNoSelfConflict desc.now }
    requires good { HasGoodQueries desc.now }
    requires good_conditions { HasGoodConditions desc.now }
    requires reading { AreReading desc.now }
    ensures within { OnOk result (IsWithinLimits desc.now) }
    ensures refused { IfErr result (IsAnswered desc.now) }
{
    if desc.systems().len() > SYSTEMS {
        return Err(BuildFault::OverLimit(1));
    }
    if desc.sets().len() > SETS {
        return Err(BuildFault::OverLimit(2));
    }
    if conditions.len() > CONDITIONS {
        return Err(BuildFault::OverLimit(3));
    }
    if has_too_many_queries(desc) {
        return Err(BuildFault::OverLimit(4));
    }
    if has_too_many_spawns(desc) {
        return Err(BuildFault::OverLimit(5));
    }
    Ok(())
}

// Whether a system has more queries than it may.
fn has_too_many_queries(desc: &ScheduleDesc) -> bool
    ensures { MatchBool result (HasManyQueries desc.now) ((n : ℕ)
        → length (declared_at desc.now n).params.queries ≤ 8) }
{
    for number in 0..desc.systems().len() {
        if desc.system(number).params().queries().len() > QUERIES {
            return true;
        }
    }
    false
}

// Whether a system is given more ids than it may.
fn has_too_many_spawns(desc: &ScheduleDesc) -> bool
    ensures { MatchBool result (HasManySpawns desc.now) ((n : ℕ) → granted_to desc.now n ≤ 1024) }
{
    for number in 0..desc.systems().len() {
        if ids_of(desc.system(number)) > SPAWNS {
            return true;
        }
    }
    false
}

// How many ids a system is given at a start.
fn ids_of(system: &SystemDesc) -> u32
    ensures { result ≡ unwrap_or system.now.params.spawns 0 }
{
    system.params().spawns().unwrap_or(0)
}

/// Refuses what is at fault in systems and conditions and in how many there are of anything.
fn check_systems(alloc: Global, desc: &ScheduleDesc) -> Result<(), BuildFault>
    requires { IsOrdered desc.now }
    ensures buildable { OnOk result (IsBuildable desc.now) }
    ensures refused { IfErr result (IsAnswered desc.now) }
{
    check_self_conflicts(alloc, desc)?;
    check_queries(alloc, desc)?;
    let conditions = conditions_of(alloc, desc)?;
    check_condition_queries(alloc, desc, conditions.as_slice())?;
    check_reading(alloc, desc, conditions.as_slice())?;
    check_limits(desc, conditions.as_slice())
}

/// What is found of systems: their edges, those of the plain orders, which don't ignore that commands are deferred, the systems that each
/// condition covers, and for each system those with which it may be ambiguous.
#[derive(Drop)]
struct Relations {
    edges: Vec<Order>,
    plain: Vec<Order>,
    coverage: Vec<Members>,
    silences: Vec<Listing>,
}

/// What edges, conditions and silences give to systems.
fn relations_of(
    alloc: Global,
    desc: &ScheduleDesc,
    hierarchy: &SetHierarchy,
    resolved: &Resolved,
) -> Result<Relations, AllocError>
    requires hierarchy { hierarchy.now ≡ hierarchy_of desc.now }
    requires declared { AreDeclared desc.now resolved.now.inside.items resolved.now.orders.items
        resolved.now.plain.items resolved.now.silences.items }
    requires whole { IsWhole desc.now }
    requires few_sets { length desc.now.sets ≤ 64 }
    requires few_systems { length desc.now.systems ≤ 256 }
    ensures edges { IfOk result (λ found. AreEdges (hierarchy_of desc.now)
        (declared_orders desc.now) found.edges.items) }
    ensures plain { IfOk result (λ found. AreEdges (hierarchy_of desc.now) (plain_orders desc.now)
        found.plain.items) }
    ensures coverage { IfOk result (λ found. AreCovered (hierarchy_of desc.now) (owners_of desc.now)
        found.coverage.items) }
    ensures silences { IfOk result (λ found. AreDeclaredSilences desc.now found.silences.items) }
{
    let owners = owners_of(alloc, desc)?;
    let edges = hierarchy.edges(alloc, resolved.orders.as_slice())?;
    let plain = hierarchy.edges(alloc, resolved.plain.as_slice())?;
    let coverage = hierarchy.coverage(alloc, owners.as_slice())?;
    let pairs = hierarchy.edges(alloc, resolved.silences.as_slice())?;
    let silences = silences_of(alloc, desc.systems().len(), pairs.as_slice())?;
    Ok(Relations {
        edges,
        plain,
        coverage,
        silences,
    })
}

/// What is found of systems, where nothing is at fault.
fn checked(alloc: Global, desc: &ScheduleDesc) -> Result<Relations, BuildFault>
    ensures edges { IfOk result (λ found. AreEdges (hierarchy_of desc.now)
        (declared_orders desc.now) found.edges.items) }
    ensures plain { IfOk result (λ found. AreEdges (hierarchy_of desc.now) (plain_orders desc.now)
        found.plain.items) }
    ensures coverage { IfOk result (λ found. AreCovered (hierarchy_of desc.now) (owners_of desc.now)
        found.coverage.items) }
    ensures silences { IfOk result (λ found. AreDeclaredSilences desc.now found.silences.items) }
    ensures rankable { OnOk result (IsRankable (IsFollowed (hierarchy_of desc.now) (declared_orders
        desc.now))) }
    ensures buildable { OnOk result (IsBuildable desc.now) }
    ensures refused { IfErr result (IsAnswered desc.now) }
{
    let resolved = resolved(alloc, desc)?;
    let hierarchy = hierarchy_from(alloc, desc, resolved.inside.as_slice())?;
    check_hierarchy(alloc, desc, &hierarchy)?;
    check_orders(alloc, desc, &hierarchy, resolved.orders.as_slice())?;
    check_systems(alloc, desc)?;
    Ok(relations_of(alloc, desc, &hierarchy, &resolved)?)
}

/// The systems with the predecessors that edges give them, of no level yet.
fn scheduled(alloc: Global, params: Vec<Params>, edges: &[Order]) -> Result<Vec<System>, AllocError>
    requires { All (IsBetween (2 ^ 32)) edges.now }
    ensures { IfOk result (λ built. AreScheduled edges.now [] (map system_with params.items)
        built.items) }
{
    let mut built = Vec::new(alloc);
    for touched in params {
        let predecessors = predecessors_of(alloc, edges, built.len())?;
        built.push(System::new(touched, predecessors, 0))?;
    }
    Ok(built)
}

/// The systems, each with its level.
fn levelled(alloc: Global, systems: Vec<System>, levels: &[u32]) -> Result<Vec<System>, AllocError>
    ensures { IfOk result (λ built. AreLevelledBy levels.now systems.items built.items) }
{
    let mut built = Vec::new(alloc);
    for system in systems {
        let level = level_in(levels, built.len());
        built.push(system.at_level(level))?;
    }
    Ok(built)
}

/// The schedule of declared sets, systems and chains. It has an edge from each member of the first item of a declared
/// order to each member of the second. It has the level of each system, and as many sync points as there are levels.
/// It has the conditions, those of sets before those of systems, each of which covers the members of its item. It has
/// the pairs of systems that may be ambiguous, and the schedule order. Nothing is built where something is at fault,
/// and the first fault is reported. First come a name that no item has, or no set to be in, and an item with an
/// earlier item's name. Then come a set in itself, sets in a circle, and an item ordered with itself. Then come an
/// order between an item and a set that holds it, two ordered sets that share a system, and a cycle of items. Then
/// come a system of which two parameters conflict, a query at fault, those of systems before those of conditions, and
/// a condition that writes. Last come the limits: more than 256 systems, 64 sets or 512 conditions, or a system with
/// more than 8 queries or 1,024 ids.
pub fn build(alloc: Global, desc: ScheduleDesc) -> Result<Built, BuildFault>
    ensures buildable { OnOk result (IsBuildable desc) }
    ensures systems { IfOk result (HasDeclaredSystems desc) }
    ensures edges { IfOk result (HasDeclaredEdges desc) }
    ensures levels { IfOk result (HasLevels desc) }
    ensures order { IfOk result IsScheduleOrder }
    ensures conditions { IfOk result (HasDeclaredConditions desc) }
    ensures silences { IfOk result (HasDeclaredSilences desc) }

    // A failed allocation says nothing of what is declared.
    ensures refused { IfErr result (IsAnswered desc) }
{
    let found = checked(alloc, &desc)?;
    let parts = desc.into_parts(alloc)?;
    let flat = scheduled(alloc, parts.params, found.edges.as_slice())?;
    let levels = found_levels(alloc, flat.as_slice(), found.plain.as_slice())?;
    let syncs = syncs_of(levels.as_slice());
    let systems = levelled(alloc, flat, levels.as_slice())?;
    let order = order_of(alloc, systems.as_slice())?;
    let conditions = scheduled_conditions(alloc, parts.conditions, found.coverage.as_slice())?;
    let built = Built::of_parts(alloc, systems, conditions, syncs, order, found.silences)?;
    Ok(built)
}
