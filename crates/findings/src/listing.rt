// Lists of one run in which one of two things comes before the other: all else that can come before both does, so that the two stand side by side.

ghost use Rattle.std.specs.Prelude.{◌≡◌, None, OnOk, IfOk};
ghost use Rattle.findings.specs.Witness.{asks as asks_in, begins as begins_in, is_in_turn as is_in_turn_of, is_of_racer as is_step_of};

use ambiguity_report::report::Racer;
use executor_core::{Core, Step, Trace};
use model::KindSets;
use schedule_builder::Built;
use std::alloc::{AllocError, Global};

/// Which of two things comes first in a list: what races with a system, or the system.
#[derive(Clone, Copy)]
pub struct Turn {
    /// What races with the system.
    pub racer: Racer,
    /// The system.
    pub system: u32,
    /// Whether the system comes first.
    pub swapped: bool,
}

/// A list of one run on one thread, by these answers of conditions. It records no archetypes.
pub fn list_of(
    alloc: Global,
    built: &Built,
    turn: Turn,
    answers: &[bool],
) -> Result<Trace, AllocError>
    ensures { IfOk result (λ trace. trace.sets ≡ None) }
{
    let mut core = Core::new(alloc, built)?;
    let mut trace = Trace::new(alloc);
    let mut point = 0u32;
    let mut beside = false;
    for _ in 0..most_steps(built) {
        let Some(step) = next_step(built, &core, turn, answers, point, beside) else {
            break;
        };
        point = point_after(point, step);
        beside = is_of_racer(step, turn.racer) || begins(step, turn.system);
        take(alloc, &mut core, &mut trace, step)?;
    }
    Ok(trace)
}

// The next sync point, after a step.
fn point_after(point: u32, step: Step) -> u32 {
    match step {
        Step::Sync(_) => point.saturating_add(1),
        Step::Cond(_, _) | Step::Start(_) | Step::Skip(_) | Step::Finish(_) => point,
    }
}

// How many steps a list has at most.
fn most_steps(built: &Built) -> u64 {
    u64::from(built.condition_count()) + 2 * u64::from(built.count()) + u64::from(built.syncs())
}

// Takes a step, and behind a start its finish.
fn take(alloc: Global, core: &mut Core<'_>, trace: &mut Trace, step: Step) -> Result<(), AllocError>
    requires { trace.old.sets ≡ None }
    ensures { OnOk result (trace.new.sets ≡ None) }
{
    note(alloc, core, trace, step)?;
    if let Step::Start(system) = step {
        note(alloc, core, trace, Step::Finish(system))?;
    }
    Ok(())
}

// Takes a step by itself.
fn note(alloc: Global, core: &mut Core<'_>, trace: &mut Trace, step: Step) -> Result<(), AllocError>
    requires { trace.old.sets ≡ None }
    ensures { OnOk result (trace.new.sets ≡ None) }
{
    let _ = core.step(step);
    match step {
        Step::Sync(point) => trace.push_sync(point, KindSets::none(alloc)),
        Step::Cond(_, _) | Step::Start(_) | Step::Skip(_) | Step::Finish(_) => trace.push(step),
    }
}

// The next step: beside one of the two the other; else what any other system offers in schedule order, then the first of the two, then the second,
// then a sync point.
fn next_step(
    built: &Built,
    core: &Core<'_>,
    turn: Turn,
    answers: &[bool],
    point: u32,
    beside: bool,
) -> Option<Step> {
    if beside {
        if let Some(step) = held(core, turn, answers) {
            return Some(step);
        }
    }
    for system in built.order() {
        if let Some(step) = offer(built, core, turn, answers, *system) {
            return Some(step);
        }
    }
    if let Some(step) = held(core, turn, answers) {
        return Some(step);
    }
    accepted(core, Step::Sync(point))
}

// The step, where it may come.
fn accepted(core: &Core<'_>, step: Step) -> Option<Step> {
    match core.may(step) {
        Ok(()) => Some(step),
        Err(_) => None,
    }
}

// What a system offers, but for what is held back: to ask one of its conditions, to start or to be skipped.
fn offer(
    built: &Built,
    core: &Core<'_>,
    turn: Turn,
    answers: &[bool],
    system: u32,
) -> Option<Step> {
    if system >= built.count() {
        return None;
    }
    for condition in built.asked_by(system) {
        if !is_held_condition(turn, *condition) {
            if let Some(step) = accepted(core, ask(answers, *condition)) {
                return Some(step);
            }
        }
    }
    if is_held_system(turn, system) {
        return None;
    }
    begin(core, system)
}

// The step by which a condition is asked.
fn ask(answers: &[bool], condition: u32) -> Step {
    match answers.get(condition as usize) {
        Some(answer) => Step::Cond(condition, *answer),
        None => Step::Cond(condition, true),
    }
}

// The step by which a system begins.
fn begin(core: &Core<'_>, system: u32) -> Option<Step> {
    if let Some(step) = accepted(core, Step::Start(system)) {
        return Some(step);
    }
    accepted(core, Step::Skip(system))
}

// Whether a condition is one of the two.
fn is_held_condition(turn: Turn, condition: u32) -> bool {
    match turn.racer {
        Racer::Condition(held) => held == condition,
        Racer::System(_) => false,
    }
}

// Whether a system is one of the two.
fn is_held_system(turn: Turn, system: u32) -> bool {
    match turn.racer {
        Racer::System(held) => held == system || turn.system == system,
        Racer::Condition(_) => turn.system == system,
    }
}

// What the first of the two offers, and else the second.
fn held(core: &Core<'_>, turn: Turn, answers: &[bool]) -> Option<Step> {
    if turn.swapped {
        if let Some(step) = begin(core, turn.system) {
            return Some(step);
        }
        return race(core, turn.racer, answers);
    }
    if let Some(step) = race(core, turn.racer, answers) {
        return Some(step);
    }
    begin(core, turn.system)
}

// What that offers which races with the system.
fn race(core: &Core<'_>, racer: Racer, answers: &[bool]) -> Option<Step> {
    match racer {
        Racer::System(system) => begin(core, system),
        Racer::Condition(condition) => accepted(core, ask(answers, condition)),
    }
}

/// Whether of the two that comes first which is to, in these steps.
pub fn is_in_turn(steps: &[Step], turn: Turn) -> bool
    ensures { result ≡ is_in_turn_of turn.racer turn.system turn.swapped steps.now }
{
    for step in steps {
        if is_of_racer(*step, turn.racer) {
            return !turn.swapped;
        }
        if begins(*step, turn.system) {
            return turn.swapped;
        }
    }
    false
}

// Whether a step is that of what races: a start or a skip, or a condition that is asked.
fn is_of_racer(step: Step, racer: Racer) -> bool
    ensures { result ≡ is_step_of racer step }
{
    match racer {
        Racer::System(system) => begins(step, system),
        Racer::Condition(condition) => asks(step, condition),
    }
}

// Whether a system starts or is skipped by a step.
fn begins(step: Step, system: u32) -> bool
    ensures { result ≡ begins_in system step }
{
    match step {
        Step::Start(number) | Step::Skip(number) => number == system,
        Step::Cond(_, _) | Step::Finish(_) | Step::Sync(_) => false,
    }
}

// Whether a condition is asked by a step.
fn asks(step: Step, condition: u32) -> bool
    ensures { result ≡ asks_in condition step }
{
    match step {
        Step::Cond(number, _) => number == condition,
        Step::Start(_) | Step::Skip(_) | Step::Finish(_) | Step::Sync(_) => false,
    }
}
