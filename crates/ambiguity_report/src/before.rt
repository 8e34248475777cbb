// Which systems of a built schedule are before which.

ghost use Rattle.std.specs.Prelude.{◌≡◌, ◌<◌, ◌||◌, ◌==◌, ◌↔◌, false, get_or, length, IsTrue, IfOk};
ghost use Rattle.std.specs.List.{list_any, All, Any};
ghost use Rattle.model.specs.steps.Ambiguity.{Before};
ghost use Rattle.ambiguity_report.specs.Paths.{AreReached, AreReaching, ArePaths, AreAllPaths};

use schedule_builder::Built;
use std::alloc::{AllocError, Global};

/// The most systems that a schedule has.
const SYSTEMS: usize = 256;

/// The paths of edges at a system, by a mark for each system.
#[derive(Drop)]
pub(crate) struct Paths {
    // Whether a path leads there.
    reached: [bool; SYSTEMS],
    // Whether a path leads from there.
    reaching: [bool; SYSTEMS],
}

/// The paths at each system.
pub(crate) fn all_paths(alloc: Global, built: &Built) -> Result<Vec<Paths>, AllocError>
    ensures { IfOk result (λ all. AreAllPaths built.now (length built.now.systems) all.items) }
{
    let mut all = Vec::new(alloc);
    for system in 0..built.count() {
        all.push(paths_of(built, system))?;
    }
    Ok(all)
}

/// The paths at a system. The schedule order is gone through twice, forth and back.
pub(crate) fn paths_of(built: &Built, system: u32) -> Paths
    ensures { ArePaths built.now system result }
{
    Paths {
        reached: reached_from(built, system),
        reaching: reaching_to(built, system),
    }
}

// For each system whether a path of edges leads to it from the first. In the schedule order each system stands after those that
// have an edge to it.
fn reached_from(built: &Built, first: u32) -> [bool; SYSTEMS]
    ensures { AreReached built.now first result }
{
    built.prove_law();
    let mut reached = [false; SYSTEMS];
    for number in built.order() {
        let next = any_marked(built.predecessors(*number), first, &reached);
        let place = *number as usize;
        reached[place] = next;
    }
    reached
}

// For each system whether a path of edges leads from it to the last. Against the schedule order each system stands after those to
// which it has an edge.
fn reaching_to(built: &Built, last: u32) -> [bool; SYSTEMS]
    ensures { AreReaching built.now last result }
{
    built.prove_law();
    let order = built.order();
    let mut reaching = [false; SYSTEMS];
    for place in (0..order.len()).rev() {
        let next = any_marked(built.after(order[place]), last, &reaching);
        let number = order[place] as usize;
        reaching[number] = next;
    }
    reaching
}

// Whether one of the systems is this one, or marked.
fn any_marked(systems: &[u32], system: u32, marks: &[bool]) -> bool
    ensures { result ≡ list_any (λ n. (n == system) || get_or marks.now n false) systems.now }
{
    systems
        .iter()
        .any(|number| is_marked(*number, system, marks))
}

// Whether the system is this one, or marked.
fn is_marked(number: u32, system: u32, marks: &[bool]) -> bool
    ensures { result ≡ ((number == system) || get_or marks.now number false) }
{
    if number == system {
        return true;
    }
    mark_of(marks, number)
}

// The mark of a system, and no mark where there is none.
fn mark_of(marks: &[bool], number: u32) -> bool
    ensures { result ≡ get_or marks.now number false }
{
    match marks.get(number as usize) {
        Some(mark) => *mark,
        None => false,
    }
}

/// Whether the system of these paths is before another: by a path of edges, or by a lower level.
pub(crate) fn is_before(built: &Built, system: u32, other: u32, paths: &Paths) -> bool
    requires system { system < length built.now.systems }
    requires other { other < length built.now.systems }
    requires paths { ArePaths built.now system paths.now }
    ensures { IsTrue result ↔ Before built.now system other }
{
    let here = built.level(system);
    let there = built.level(other);
    if here < there {
        return true;
    }
    mark_of(&paths.reached, other)
}

/// Whether another system is before the system of these paths.
pub(crate) fn is_after(built: &Built, system: u32, other: u32, paths: &Paths) -> bool
    requires system { system < length built.now.systems }
    requires other { other < length built.now.systems }
    requires paths { ArePaths built.now system paths.now }
    ensures { IsTrue result ↔ Before built.now other system }
{
    let here = built.level(system);
    let there = built.level(other);
    if there < here {
        return true;
    }
    mark_of(&paths.reaching, other)
}

/// Whether the system of these paths is before each of these.
pub(crate) fn is_before_each(built: &Built, system: u32, others: &[u32], paths: &Paths) -> bool
    requires system { system < length built.now.systems }
    requires others { All (λ other. other < length built.now.systems) others.now }
    requires paths { ArePaths built.now system paths.now }
    ensures { IsTrue result ↔ All (Before built.now system) others.now }
{
    for other in others {
        if !is_before(built, system, *other, paths) {
            return false;
        }
    }
    true
}

/// Whether one of these is before the system of these paths.
pub(crate) fn is_after_any(built: &Built, system: u32, others: &[u32], paths: &Paths) -> bool
    requires system { system < length built.now.systems }
    requires others { All (λ other. other < length built.now.systems) others.now }
    requires paths { ArePaths built.now system paths.now }
    ensures { IsTrue result ↔ Any (λ other. Before built.now other system) others.now }
{
    for other in others {
        if is_after(built, system, *other, paths) {
            return true;
        }
    }
    false
}
