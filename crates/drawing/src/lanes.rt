// The drawing of the steps of a run, on an axis of steps: a lane for each system that runs at once.

ghost use Rattle.std.specs.Prelude.{◌≡◌, ◌+◌, ◌++◌, [], None, nat_lt, if◌then◌else◌, set, position, get_or, OnOk, IfOk};
ghost use Rattle.drawing.specs.ShapeText.{capped};
ghost use Rattle.drawing.specs.Lanes.{step_x as x_of_step, lane_y as y_of_lane, is_free, runs_in, lane_for, lanes_after, with_running, with_free, answer_shapes, skip_shapes, sync_shapes, start_shapes, bar_shapes, finish_shapes, from_of, step_shapes, steps_shapes, running_after, tallied_at, tally_of as tally_over, at_once as told_at_once, frame_shapes, bottom_of, run_shapes};

use crate::shape::{Label, Shape, Style};
use model::Step;
use std::alloc::{AllocError, Global};

/// A system that runs, and the number of the step that started it, from 0.
#[derive(Clone, Copy)]
pub struct Running {
    /// The system.
    pub system: u32,
    /// The step.
    pub from: u32,
}

/// How many systems ran: at this place, at most, and in all places where some did.
#[derive(Clone, Copy)]
pub struct Tally {
    /// How many run now.
    pub now: u64,
    /// How many ran at once at most.
    pub most: u64,
    /// After each step how many run, added up.
    pub sum: u64,
    /// After how many steps some run.
    pub busy: u64,
}

// Where the first step stands, and how far each is from the next.
const LEFT: u64 = 60;

const PITCH: u64 = 56;

// From a run's upper edge: to what is written of conditions and skips, and to the first lane; how high a lane and a bar are.
const ASKED: u64 = 34;

const LANES: u64 = 56;

const LANE: u64 = 34;

const BAR: u64 = 24;

// How much stands below the lanes.
const FOOT: u64 = 40;

/// The place of a step, by its number from 0.
pub fn step_x(at: u32) -> u64
    ensures { result ≡ x_of_step at }
{
    LEFT + PITCH * u64::from(at)
}

// Where a lane stands below a run's upper edge.
fn lane_y(top: u64, lane: u64) -> u64
    ensures { result ≡ y_of_lane top lane }
{
    top.saturating_add(LANES)
        .saturating_add(LANE.saturating_mul(lane))
}

/// Adds the drawing of a run, of this number, below a place. Gives where it ends.
pub fn add_run(
    alloc: Global,
    shapes: &mut Vec<Shape>,
    steps: &[Step],
    run: u32,
    top: u64,
) -> Result<u64, AllocError>
    ensures drawn { OnOk result (shapes.new.items
        ≡ shapes.old.items ++ run_shapes run top steps.now) }
    ensures end { IfOk result (λ end. end ≡ capped (bottom_of top steps.now + 40)) }
{
    let tally = tally_of(steps);
    let bottom = lane_y(top, tally.most);
    add_frame(shapes, run, top, bottom, steps.len() as u64, tally)?;
    add_steps(alloc, shapes, steps, top, bottom)?;
    Ok(bottom.saturating_add(FOOT))
}

// Adds the drawings of these steps.
fn add_steps(
    alloc: Global,
    shapes: &mut Vec<Shape>,
    steps: &[Step],
    top: u64,
    bottom: u64,
) -> Result<(), AllocError>
    ensures { OnOk result (shapes.new.items
        ≡ shapes.old.items ++ steps_shapes top bottom [] 0 steps.now) }
{
    let mut lanes = Vec::new(alloc);
    let mut at = 0u32;
    for step in steps {
        add_step(shapes, lanes.as_slice(), *step, at, top, bottom)?;
        move_lanes(&mut lanes, *step, at)?;
        at = at.saturating_add(1);
    }
    Ok(())
}

// Adds what stands round the steps of a run: its number, its axis, and how many ran at once.
fn add_frame(
    shapes: &mut Vec<Shape>,
    run: u32,
    top: u64,
    bottom: u64,
    steps: u64,
    tally: Tally,
) -> Result<(), AllocError>
    ensures { OnOk result (shapes.new.items
        ≡ shapes.old.items ++ frame_shapes run top bottom steps tally) }
{
    shapes.push(Shape::Text {
        x: 8,
        y: top.saturating_add(14),
        label: Label::Run(run),
        style: Style::Axis,
    })?;
    shapes.push(Shape::Line {
        x: LEFT,
        y: bottom,
        to_x: LEFT.saturating_add(PITCH.saturating_mul(steps)),
        to_y: bottom,
        style: Style::Axis,
    })?;
    shapes.push(Shape::Text {
        x: 8,
        y: bottom.saturating_add(18),
        label: at_once(tally),
        style: Style::Axis,
    })?;
    Ok(())
}

// How many ran at once, as it is written.
fn at_once(tally: Tally) -> Label
    ensures { result ≡ told_at_once tally }
{
    if tally.busy == 0 {
        return Label::AtOnce {
            most: tally.most,
            whole: 0,
            hundredths: 0,
        };
    }
    Label::AtOnce {
        most: tally.most,
        whole: tally.sum / tally.busy,
        hundredths: 100u64.saturating_mul(tally.sum % tally.busy) / tally.busy,
    }
}

// How many systems ran over these steps.
fn tally_of(steps: &[Step]) -> Tally
    ensures { result ≡ tally_over steps.now }
{
    let mut tally = Tally {
        now: 0,
        most: 0,
        sum: 0,
        busy: 0,
    };
    for step in steps {
        tally = tallied(tally, *step);
    }
    tally
}

// The same with a step more.
fn tallied(tally: Tally, step: Step) -> Tally
    ensures { result ≡ tallied_at tally (running_after tally.now step) }
{
    let now = match step {
        Step::Start(_) => tally.now.saturating_add(1),
        Step::Finish(_) => tally.now.saturating_sub(1),
        Step::Cond(_, _) | Step::Skip(_) | Step::Sync(_) => tally.now,
    };
    Tally {
        now,
        most: tally.most.max(now),
        sum: tally.sum.saturating_add(now),
        busy: busier(tally.busy, now),
    }
}

// A count with one more, where some run.
fn busier(busy: u64, now: u64) -> u64
    ensures { result ≡ (if nat_lt 0 now then capped (busy + 1) else busy) }
{
    if now > 0 {
        busy.saturating_add(1)
    } else {
        busy
    }
}

// Adds the drawing of a step of this number, where the lanes are these.
fn add_step(
    shapes: &mut Vec<Shape>,
    lanes: &[Option<Running>],
    step: Step,
    at: u32,
    top: u64,
    bottom: u64,
) -> Result<(), AllocError>
    ensures { OnOk result (shapes.new.items
        ≡ shapes.old.items ++ step_shapes top bottom lanes.now at step) }
{
    let x = step_x(at);
    match step {
        Step::Cond(condition, answer) => add_answer(shapes, condition, answer, x, top),
        Step::Skip(system) => add_skip(shapes, system, x, top),
        Step::Sync(point) => add_sync(shapes, point, x, top, bottom),
        Step::Start(_) => add_start(shapes, x, lane_y(top, free_lane(lanes) as u64)),
        Step::Finish(system) => add_finish(shapes, lanes, system, x, top),
    }
}

// Adds a system that finishes, where it runs in some lane.
fn add_finish(
    shapes: &mut Vec<Shape>,
    lanes: &[Option<Running>],
    system: u32,
    x: u64,
    top: u64,
) -> Result<(), AllocError>
    ensures { OnOk result (shapes.new.items
        ≡ shapes.old.items
        ++ finish_shapes system lanes.now (position (runs_in system) lanes.now) x top) }
{
    let Some(lane) = lane_of(lanes, system) else {
        return Ok(());
    };
    let from = began_in(lanes, lane);
    add_bar(shapes, system, step_x(from), x, lane_y(top, lane as u64))
}

// The step that started what runs in a lane, 0 where nothing does.
fn began_in(lanes: &[Option<Running>], lane: usize) -> u32
    ensures { result ≡ from_of (get_or lanes.now lane None) }
{
    match lanes.get(lane) {
        Some(Some(running)) => running.from,
        Some(None) | None => 0,
    }
}

// Adds a condition that is asked, and whether it answered yes.
fn add_answer(
    shapes: &mut Vec<Shape>,
    condition: u32,
    answer: bool,
    x: u64,
    top: u64,
) -> Result<(), AllocError>
    ensures { OnOk result (shapes.new.items
        ≡ shapes.old.items ++ answer_shapes condition answer x top) }
{
    let style = if answer {
        Style::Condition
    } else {
        Style::Refused
    };
    let y = top.saturating_add(ASKED);
    shapes.push(Shape::Diamond {
        x,
        y,
        title: Label::Asked(condition),
        style,
    })?;
    shapes.push(Shape::Text {
        x: x.saturating_add(10),
        y: y.saturating_add(4),
        label: Label::Number(condition),
        style,
    })?;
    Ok(())
}

// Adds a system that is skipped.
fn add_skip(shapes: &mut Vec<Shape>, system: u32, x: u64, top: u64) -> Result<(), AllocError>
    ensures { OnOk result (shapes.new.items ≡ shapes.old.items ++ skip_shapes system x top) }
{
    let y = top.saturating_add(ASKED);
    shapes.push(Shape::Rect {
        x: x.saturating_sub(4),
        y: y.saturating_sub(4),
        width: 8,
        height: 8,
        style: Style::Skipped,
    })?;
    shapes.push(Shape::Text {
        x: x.saturating_add(8),
        y: y.saturating_add(4),
        label: Label::System(system),
        style: Style::Skipped,
    })?;
    Ok(())
}

// Adds a sync point.
fn add_sync(
    shapes: &mut Vec<Shape>,
    point: u32,
    x: u64,
    top: u64,
    bottom: u64,
) -> Result<(), AllocError>
    ensures { OnOk result (shapes.new.items ≡ shapes.old.items ++ sync_shapes point x top bottom) }
{
    shapes.push(Shape::Line {
        x,
        y: top.saturating_add(20),
        to_x: x,
        to_y: bottom,
        style: Style::Sync,
    })?;
    shapes.push(Shape::Text {
        x: x.saturating_sub(14),
        y: top.saturating_add(14),
        label: Label::Sync(point),
        style: Style::Sync,
    })?;
    Ok(())
}

// Adds the place where a system starts.
fn add_start(shapes: &mut Vec<Shape>, x: u64, y: u64) -> Result<(), AllocError>
    ensures { OnOk result (shapes.new.items ≡ shapes.old.items ++ start_shapes x y) }
{
    shapes.push(Shape::Line {
        x,
        y,
        to_x: x,
        to_y: y.saturating_add(BAR),
        style: Style::Running,
    })?;
    Ok(())
}

// Adds a system that ran, from its start to its finish.
fn add_bar(
    shapes: &mut Vec<Shape>,
    system: u32,
    x: u64,
    to_x: u64,
    y: u64,
) -> Result<(), AllocError>
    ensures { OnOk result (shapes.new.items ≡ shapes.old.items ++ bar_shapes system x to_x y) }
{
    shapes.push(Shape::Rect {
        x,
        y,
        width: to_x.saturating_sub(x),
        height: BAR,
        style: Style::Running,
    })?;
    shapes.push(Shape::Text {
        x: x.saturating_add(4),
        y: y.saturating_add(16),
        label: Label::System(system),
        style: Style::Running,
    })?;
    Ok(())
}

// Moves systems into and out of lanes at a step of this number.
fn move_lanes(lanes: &mut Vec<Option<Running>>, step: Step, at: u32) -> Result<(), AllocError>
    ensures { OnOk result (lanes.new.items ≡ lanes_after lanes.old.items at step) }
{
    match step {
        Step::Start(system) => take_lane(lanes, Running { system, from: at }),
        Step::Finish(system) => {
            leave_lane(lanes, system);
            Ok(())
        }
        Step::Cond(_, _) | Step::Skip(_) | Step::Sync(_) => Ok(()),
    }
}

// Puts a system that starts into the first lane that is free.
fn take_lane(lanes: &mut Vec<Option<Running>>, running: Running) -> Result<(), AllocError>
    ensures { OnOk result (lanes.new.items
        ≡ with_running lanes.old.items running (position is_free lanes.old.items)) }
{
    if let Some(lane) = first_free(lanes.as_slice()) {
        put(lanes, lane, Some(running));
        return Ok(());
    }
    lanes.push(Some(running))?;
    Ok(())
}

// Takes a system that finishes out of its lane.
fn leave_lane(lanes: &mut Vec<Option<Running>>, system: u32)
    ensures { lanes.new.items
        ≡ with_free lanes.old.items (position (runs_in system) lanes.old.items) }
{
    if let Some(lane) = lane_of(lanes.as_slice(), system) {
        put(lanes, lane, None);
    }
}

// Puts something into a lane, where there is that lane.
fn put(lanes: &mut Vec<Option<Running>>, lane: usize, running: Option<Running>)
    ensures { lanes.new.items ≡ set lanes.old.items lane running }
{
    if lane < lanes.len() {
        lanes[lane] = running;
    }
}

// The first lane that is free.
fn first_free(lanes: &[Option<Running>]) -> Option<usize>
    ensures { result ≡ position is_free lanes.now }
{
    lanes.iter().position(|lane| lane.is_none())
}

// The first lane that is free, which may be a new one.
fn free_lane(lanes: &[Option<Running>]) -> usize
    ensures { result ≡ lane_for lanes.now }
{
    first_free(lanes).unwrap_or(lanes.len())
}

// The lane of a system that runs.
fn lane_of(lanes: &[Option<Running>], system: u32) -> Option<usize>
    ensures { result ≡ position (runs_in system) lanes.now }
{
    lanes.iter().position(|lane| is_running(lane, system))
}

// Whether a system runs in a lane.
fn is_running(lane: &Option<Running>, system: u32) -> bool
    ensures { result ≡ runs_in system lane.now }
{
    match lane {
        Some(running) => running.system == system,
        None => false,
    }
}
