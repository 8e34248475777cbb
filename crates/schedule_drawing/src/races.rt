// What races, in the drawing of a schedule: a red line between two boxes, by the datum on which the two conflict.

ghost use Rattle.std.specs.Prelude.{◌≡◌, ◌++◌, ◌<◌, ◌^◌, get_or, set, if◌then◌else◌, OnOk};
ghost use Rattle.drawing.specs.declared.shape.Style.{Style};
ghost use Rattle.model.specs.steps.Schedule.{condition_at};
ghost use Rattle.schedule_drawing.specs.Drawn.{races_shapes};
ghost use Rattle.schedule_drawing.specs.Marks.{boxes_number, boxes_of as boxes_in, datum_y as datum_height, lowest_after, race_by, race_shapes, race_style as race_style_in, race_without, stands_for_racer};

use crate::marks::bend;
use crate::places::{column_x, leader_of, level_of, row_of, row_y};
use ambiguity_report::Pair;
use ambiguity_report::report::Racer;
use drawing::{Label, Shape, Style};
use number_set::NumberSet;
use schedule_builder::Built;
use std::alloc::{AllocError, Global};

// So many lines have their datum.
const MOST_TOLD: u32 = 100;

// No schedule has more systems.
const MOST_SYSTEMS: u32 = 256;

// From the upper edge of a box to where lines of what races leave it.
const DOWN: u64 = 22;

/// Adds what races, of pairs with the same two boxes the first: a red line, and the datum.
pub(crate) fn add_races(
    alloc: Global,
    shapes: &mut Vec<Shape>,
    built: &Built,
    leaders: &[u32],
    pairs: &[Pair],
) -> Result<(), AllocError>
    ensures { OnOk result (shapes.new.items
        ≡ shapes.old.items ++ races_shapes built.now leaders.now pairs.now) }
{
    let mut drawn = NumberSet::new(alloc, MOST_SYSTEMS * MOST_SYSTEMS)?;
    let mut left = MOST_TOLD;
    let mut lowest = vec![in alloc; 0u64; built.syncs() as usize + 1]?;
    for pair in pairs {
        let boxes = boxes_of(built, leaders, *pair);
        if drawn.contains(boxes) {
            continue;
        }
        drawn.insert(boxes);
        add_race(shapes, built, leaders, left, &mut lowest, *pair)?;
        left = left.saturating_sub(1);
    }
    Ok(())
}

// The two boxes of a pair, as one number.
fn boxes_of(built: &Built, leaders: &[u32], pair: Pair) -> u32
    ensures boxes { result ≡ boxes_in built.now leaders.now pair }
    ensures few { result < 2 ^ 16 }
{
    let first = stands_for(built, pair.first, pair.second);
    number_of_boxes(leader_of(leaders, first), leader_of(leaders, pair.second))
}

// The number of two boxes.
fn number_of_boxes(leader: u32, other: u32) -> u32
    ensures boxes { result ≡ boxes_number leader other }
    ensures few { result < 2 ^ 16 }
{
    leader % MOST_SYSTEMS * MOST_SYSTEMS + other % MOST_SYSTEMS
}

// Adds a pair, where so many more have their datum, which is written no higher than this, by its level.
fn add_race(
    shapes: &mut Vec<Shape>,
    built: &Built,
    leaders: &[u32],
    left: u32,
    lowest: &mut Vec<u64>,
    pair: Pair,
) -> Result<(), AllocError>
    ensures drawn { OnOk result (shapes.new.items
        ≡ shapes.old.items ++ race_shapes built.now leaders.now left lowest.old.items pair) }
    ensures next { OnOk result (lowest.new.items
        ≡ lowest_after built.now leaders.now left lowest.old.items pair) }
{
    let first = stands_for(built, pair.first, pair.second);
    let from = Port {
        level: level_of(built, first),
        row: row_of(built, leaders, first),
    };
    let to = Port {
        level: level_of(built, pair.second),
        row: row_of(built, leaders, pair.second),
    };
    if left == 0 {
        return add_without(shapes, pair, from, to);
    }
    let y = datum_y(lowest_at(lowest.as_slice(), to.level), from.row, to.row);
    put(lowest, to.level, y.saturating_add(13));
    add_by(shapes, pair, from, to, y)
}

// The number at a place, 0 where there is none.
fn lowest_at(lowest: &[u64], level: u32) -> u64
    ensures { result ≡ get_or lowest.now level 0 }
{
    match lowest.get(level as usize) {
        Some(found) => *found,
        None => 0,
    }
}

// Puts a number at a place, where there is one.
fn put(lowest: &mut Vec<u64>, level: u32, y: u64)
    ensures { lowest.new.items ≡ set lowest.old.items level y }
{
    let place = level as usize;
    if place < lowest.len() {
        lowest[place] = y;
    }
}

// Where a line begins or ends: beside the box of a level and a row.
#[derive(Clone, Copy)]
struct Port {
    level: u32,
    row: u32,
}

// Where the datum of a pair is written, between its rows.
fn datum_y(lowest: u64, row: u32, to_row: u32) -> u64
    ensures { result ≡ datum_height lowest row to_row }
{
    let between = (row_y(row) + DOWN + (row_y(to_row) + DOWN)) / 2;
    between.max(lowest)
}

// Adds a line from a box to the datum at this height, and from there to another.
fn add_by(
    shapes: &mut Vec<Shape>,
    pair: Pair,
    from: Port,
    to: Port,
    at: u64,
) -> Result<(), AllocError>
    ensures { OnOk result (shapes.new.items
        ≡ shapes.old.items ++ race_by pair from.level from.row to.level to.row at) }
{
    let (x, y) = (column_x(from.level), row_y(from.row) + DOWN);
    let (to_x, to_y) = (column_x(to.level), row_y(to.row) + DOWN);
    let style = race_style(pair);
    shapes.push(Shape::Curve {
        x,
        y,
        near: x - 30,
        far: to_x - 36,
        to_x: to_x - 62,
        to_y: at,
        style,
    })?;
    shapes.push(Shape::Curve {
        x: to_x - 62,
        y: at,
        near: to_x - 36,
        far: to_x - 30,
        to_x,
        to_y,
        style,
    })?;
    shapes.push(Shape::Text {
        x: to_x - 66,
        y: at.saturating_add(4),
        label: Label::Datum(pair.datum),
        style,
    })?;
    Ok(())
}

// Adds a line from a box to another.
fn add_without(shapes: &mut Vec<Shape>, pair: Pair, from: Port, to: Port) -> Result<(), AllocError>
    ensures { OnOk result (shapes.new.items
        ≡ shapes.old.items ++ race_without pair from.level from.row to.level to.row) }
{
    let out = bend(from.row, to.row);
    let (x, to_x) = (column_x(from.level), column_x(to.level));
    shapes.push(Shape::Curve {
        x,
        y: row_y(from.row) + DOWN,
        near: x - out,
        far: to_x - out,
        to_x,
        to_y: row_y(to.row) + DOWN,
        style: race_style(pair),
    })?;
    Ok(())
}

// How what races looks.
fn race_style(pair: Pair) -> Style
    ensures { result ≡ race_style_in pair }
{
    if pair.silenced {
        Style::Silenced
    } else {
        Style::Race
    }
}

// The system at which what races with another is drawn: itself, or the first that a condition covers.
fn stands_for(built: &Built, racer: Racer, other: u32) -> u32
    ensures { result ≡ stands_for_racer built.now racer other }
{
    match racer {
        Racer::System(system) => system,
        Racer::Condition(condition) => first_covered(built, condition, other),
    }
}

// The first system that a condition covers; another where there is none.
fn first_covered(built: &Built, condition: u32, other: u32) -> u32
    ensures { result ≡ get_or (condition_at built.now condition).covers 0 other }
{
    match built.conditions().get(condition as usize) {
        Some(found) => first_of(found.covers(), other),
        None => other,
    }
}

// The first of these numbers; another where there is none.
fn first_of(numbers: &[u32], other: u32) -> u32
    ensures { result ≡ get_or numbers.now 0 other }
{
    match numbers.first() {
        Some(first) => *first,
        None => other,
    }
}
