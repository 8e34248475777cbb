// The shapes of each thing in a schedule, by itself.

ghost use Rattle.std.specs.Prelude.{◌≡◌, ◌++◌, ◌∷◌, [], ◌<◌, ◌^◌, if◌then◌else◌, map, OnOk};
ghost use Rattle.std.specs.List.{list_any};
ghost use Rattle.drawing.specs.declared.shape.Shape.{Shape};
ghost use Rattle.drawing.specs.declared.shape.Style.{Style};
ghost use Rattle.schedule_drawing.specs.Folding.{holder_of as holder_in};
ghost use Rattle.schedule_drawing.specs.Marks.{box_label, box_title, box_shapes, edge_shapes, edge_untold, edges_shapes, sync_shapes, side_shapes, end_shapes, name_shapes, frame_shapes, place_from, diamond_shapes, diamond_at, told_diamond, arrow_shapes, arrow_between, arrow_style as arrow_style_in, waits_for_some as waits_for_some_in, is_framed as is_framed_in, is_at_place, bend as bend_of, is_deferring as is_deferring_in, inset as inset_of};

use crate::arrows::{Arrow, first_in, is_told, last_in, members_at};
use crate::folding::{holder_of, led_by};
use crate::places::{column_x, leader_of, level_of, row_of, row_y};
use drawing::{Label, Shape, Style};
use schedule_builder::{Built, Condition};
use std::alloc::AllocError;

// How wide and high a box is.
const WIDTH: u64 = 210;

const HEIGHT: u64 = 30;

// From a box to the middle of the gap between two rows.
const GAP: u64 = 41;

// From a box to the bottom of a frame that is right behind it, which has room for a condition.
const FOOT: u64 = 20;

// From the upper edge of a box to where lines leave it, and to where they come to it.
const OUT: u64 = 21;

const IN: u64 = 9;

/// Adds a sync point: a bar behind the column of its level.
pub(crate) fn add_sync(shapes: &mut Vec<Shape>, point: u32, bottom: u64) -> Result<(), AllocError>
    ensures { OnOk result (shapes.new.items ≡ shapes.old.items ++ sync_shapes bottom point) }
{
    let x = column_x(point) + 295;
    shapes.push(Shape::Line {
        x,
        y: 24,
        to_x: x,
        to_y: bottom,
        style: Style::Sync,
    })?;
    shapes.push(Shape::Text {
        x: x - 16,
        y: 18,
        label: Label::Sync(point),
        style: Style::Sync,
    })?;
    Ok(())
}

/// Adds a system that leads: its box, and its name or that of the set that holds it, with how many systems it leads. Others have no box.
pub(crate) fn add_box(
    shapes: &mut Vec<Shape>,
    built: &Built,
    holders: &[Option<u32>],
    leaders: &[u32],
    system: u32,
) -> Result<(), AllocError>
    ensures { OnOk result (shapes.new.items
        ≡ shapes.old.items ++ box_shapes built.now holders.now leaders.now system) }
{
    if leader_of(leaders, system) != system {
        return Ok(());
    }
    let title = title_of(built, holders, leaders, system);
    let label = label_of(built, holders, leaders, system);
    let x = column_x(level_of(built, system));
    let y = row_y(row_of(built, leaders, system));
    shapes.push(Shape::Titled {
        x,
        y,
        width: WIDTH,
        height: HEIGHT,
        title,
        style: Style::System,
    })?;
    shapes.push(Shape::Text {
        x: x + 7,
        y: y + 19,
        label,
        style: Style::System,
    })?;
    Ok(())
}

// What is written in the box of a system.
fn label_of(built: &Built, holders: &[Option<u32>], leaders: &[u32], system: u32) -> Label
    ensures { result ≡ box_label built.now leaders.now system (holder_in holders.now system) }
{
    match holder_of(holders, system) {
        Some(set) => Label::Members(set, led_by(built, leaders, system)),
        None => Label::System(system),
    }
}

// The title of the box of a system: what it reads and writes, or of a box that holds several what is written in it.
fn title_of(built: &Built, holders: &[Option<u32>], leaders: &[u32], system: u32) -> Label
    ensures { result ≡ box_title built.now leaders.now system (holder_in holders.now system) }
{
    match holder_of(holders, system) {
        Some(_) => label_of(built, holders, leaders, system),
        None => Label::Touched(system),
    }
}

/// How far a line between two rows of one column leaves it.
pub(crate) fn bend(row: u32, other: u32) -> u64
    ensures { result ≡ bend_of row other }
{
    let between = u64::from(row.max(other) - row.min(other));
    20 + 8 * between.min(8)
}

/// Adds the edges that lead to a system, but for those for which an arrow stands.
pub(crate) fn add_edges(
    shapes: &mut Vec<Shape>,
    built: &Built,
    leaders: &[u32],
    sets: &[Vec<u32>],
    arrows: &[Arrow],
    system: u32,
) -> Result<(), AllocError>
    ensures { OnOk result (shapes.new.items
        ≡ shapes.old.items
        ++ edges_shapes built.now leaders.now (map (λ members. members.items) sets.now)
        arrows.now system) }
{
    let Some(found) = built.systems().get(system as usize) else {
        return Ok(());
    };
    for before in found.predecessors() {
        let told = is_told(sets, arrows, *before, system);
        add_untold(shapes, built, leaders, told, *before, system)?;
    }
    Ok(())
}

// Adds an edge, where it isn't told by an arrow.
fn add_untold(
    shapes: &mut Vec<Shape>,
    built: &Built,
    leaders: &[u32],
    told: bool,
    first: u32,
    second: u32,
) -> Result<(), AllocError>
    ensures { OnOk result (shapes.new.items
        ≡ shapes.old.items
        ++ (if told then [] else edge_shapes built.now leaders.now second first)) }
{
    if told {
        return Ok(());
    }
    add_edge(shapes, built, leaders, first, second)
}

// Adds an edge: to a later column straight on, and within one beside it.
fn add_edge(
    shapes: &mut Vec<Shape>,
    built: &Built,
    leaders: &[u32],
    first: u32,
    second: u32,
) -> Result<(), AllocError>
    ensures { OnOk result (shapes.new.items
        ≡ shapes.old.items ++ edge_shapes built.now leaders.now second first) }
{
    let (level, to_level) = (level_of(built, first), level_of(built, second));
    let (row, to_row) = (
        row_of(built, leaders, first),
        row_of(built, leaders, second),
    );
    let style = edge_style(is_deferring(built, first, second));
    let (x, y) = (column_x(level) + WIDTH, row_y(row) + OUT);
    let to_y = row_y(to_row) + IN;
    if level == to_level {
        let out = x + bend(row, to_row);
        shapes.push(Shape::Curve {
            x,
            y,
            near: out,
            far: out,
            to_x: x,
            to_y,
            style,
        })?;
        return Ok(());
    }
    let to_x = column_x(to_level);
    shapes.push(Shape::Curve {
        x,
        y,
        near: x + 70,
        far: to_x - 70,
        to_x,
        to_y,
        style,
    })?;
    Ok(())
}

// How an edge looks.
fn edge_style(deferring: bool) -> Style
    ensures { result ≡ (if deferring then Style.Deferring else Style.Edge) }
{
    if deferring {
        Style::Deferring
    } else {
        Style::Edge
    }
}

// Whether an edge waits for commands: its first system has them, and a sync point stands between the two.
fn is_deferring(built: &Built, first: u32, second: u32) -> bool
    ensures { result ≡ is_deferring_in built.now first second }
{
    match built.systems().get(first as usize) {
        Some(found) => {
            found.params().spawns().is_some() && level_of(built, first) < level_of(built, second)
        }
        None => false,
    }
}

// How far the frame of a set is from the boxes.
fn inset(set: u32) -> u64
    ensures { result ≡ inset_of set }
{
    6 + 11 * u64::from(set % 3)
}

// Whether a member of a set stands in a row of a level.
fn is_framed(built: &Built, leaders: &[u32], members: &[u32], level: u32, row: u32) -> bool
    ensures { result ≡ is_framed_in built.now leaders.now members.now level row }
{
    members
        .iter()
        .any(|member| is_at(built, leaders, *member, level, row))
}

// Whether a system stands in a row of a level.
fn is_at(built: &Built, leaders: &[u32], system: u32, level: u32, row: u32) -> bool
    ensures { result ≡ is_at_place built.now leaders.now level row system }
{
    level_of(built, system) == level && row_of(built, leaders, system) == row
}

/// Adds the frame of a set round a member: a line on each side, one above and below where no member stands there, and the name of the set
/// above the first.
pub(crate) fn add_frame(
    shapes: &mut Vec<Shape>,
    built: &Built,
    leaders: &[u32],
    members: &[u32],
    set: u32,
    system: u32,
) -> Result<(), AllocError>
    ensures { OnOk result (shapes.new.items
        ≡ shapes.old.items ++ frame_shapes built.now leaders.now members.now set system) }
{
    let level = level_of(built, system);
    let row = row_of(built, leaders, system);
    let opens = row == 0 || !is_framed(built, leaders, members, level, row.saturating_sub(1));
    let closes = !is_framed(built, leaders, members, level, row.saturating_add(1));
    let out = inset(set);
    let (left, right) = (column_x(level) - out, column_x(level) + WIDTH + out);
    let y = row_y(row);
    let top = if opens { y - out } else { y - GAP };
    let bottom = if closes {
        y + HEIGHT + FOOT + out
    } else {
        y + HEIGHT + GAP
    };
    add_sides(shapes, left, right, top, bottom)?;
    add_end(shapes, opens, left, right, top)?;
    add_end(shapes, closes, left, right, bottom)?;
    add_set_name(shapes, opens, set, left, top)
}

// Adds the lines on the sides of a frame.
fn add_sides(
    shapes: &mut Vec<Shape>,
    left: u64,
    right: u64,
    top: u64,
    bottom: u64,
) -> Result<(), AllocError>
    ensures { OnOk result (shapes.new.items
        ≡ shapes.old.items ++ side_shapes left right top bottom) }
{
    add_set_line(shapes, left, top, left, bottom)?;
    add_set_line(shapes, right, top, right, bottom)
}

// Adds the line above or below a frame, where it ends there.
fn add_end(
    shapes: &mut Vec<Shape>,
    ends: bool,
    left: u64,
    right: u64,
    y: u64,
) -> Result<(), AllocError>
    ensures { OnOk result (shapes.new.items ≡ shapes.old.items ++ end_shapes ends left right y) }
{
    if ends {
        return add_set_line(shapes, left, y, right, y);
    }
    Ok(())
}

// Adds a line of a frame.
fn add_set_line(
    shapes: &mut Vec<Shape>,
    x: u64,
    y: u64,
    to_x: u64,
    to_y: u64,
) -> Result<(), AllocError>
    ensures { OnOk result (shapes.new.items
        ≡ shapes.old.items ++ Shape.Line x y to_x to_y Style.Set ∷ []) }
{
    shapes.push(Shape::Line {
        x,
        y,
        to_x,
        to_y,
        style: Style::Set,
    })?;
    Ok(())
}

// Adds the name of a set, where its frame begins.
fn add_set_name(
    shapes: &mut Vec<Shape>,
    opens: bool,
    set: u32,
    left: u64,
    top: u64,
) -> Result<(), AllocError>
    requires { left < 2 ^ 63 }
    ensures { OnOk result (shapes.new.items ≡ shapes.old.items ++ name_shapes opens set left top) }
{
    if opens {
        shapes.push(Shape::Text {
            x: left + 8 + 70 * u64::from(set / 3 % 3),
            y: top.saturating_sub(3),
            label: Label::Set(set),
            style: Style::Set,
        })?;
    }
    Ok(())
}

/// Adds a condition, of this number, at a system that it covers.
pub(crate) fn add_diamond(
    shapes: &mut Vec<Shape>,
    built: &Built,
    leaders: &[u32],
    condition: u32,
    system: u32,
) -> Result<(), AllocError>
    ensures { OnOk result (shapes.new.items
        ≡ shapes.old.items ++ diamond_shapes built.now leaders.now condition system) }
{
    let place = place_among(built.conditions(), condition, system);
    let x = column_x(level_of(built, system));
    let y = row_y(row_of(built, leaders, system));
    add_diamond_at(shapes, condition, place, x, y)
}

// So many conditions have their texts below a box.
const MOST_TOLD: u32 = 3;

// Adds a condition at a box: the first below it, with their texts, and others on its upper edge.
fn add_diamond_at(
    shapes: &mut Vec<Shape>,
    condition: u32,
    place: u32,
    x: u64,
    y: u64,
) -> Result<(), AllocError>
    requires x { x < 2 ^ 63 }
    requires y { y < 2 ^ 63 }
    ensures { OnOk result (shapes.new.items
        ≡ shapes.old.items ++ diamond_at condition place x y) }
{
    let title = Label::Asked(condition);
    let style = Style::Condition;
    if place < MOST_TOLD {
        return add_told(shapes, condition, x, y + 46 + 16 * u64::from(place));
    }
    let x = x + 14 + 20 * u64::from(place);
    shapes.push(Shape::Diamond { x, y, title, style })?;
    Ok(())
}

// Adds a condition with its text.
fn add_told(shapes: &mut Vec<Shape>, condition: u32, x: u64, y: u64) -> Result<(), AllocError>
    requires { x < 2 ^ 63 }
    ensures { OnOk result (shapes.new.items ≡ shapes.old.items ++ told_diamond condition x y) }
{
    let style = Style::Condition;
    shapes.push(Shape::Diamond {
        x: x + 12,
        y: y.saturating_sub(4),
        title: Label::Asked(condition),
        style,
    })?;
    shapes.push(Shape::Text {
        x: x + 24,
        y,
        label: Label::Condition(condition),
        style,
    })?;
    Ok(())
}

// How many conditions of lower numbers cover a system.
fn place_among(conditions: &[Condition], condition: u32, system: u32) -> u32
    ensures { result ≡ place_from system 0 condition conditions.now }
{
    let mut place = 0u32;
    let mut left = condition;
    for other in conditions {
        if left == 0 {
            return place;
        }
        left -= 1;
        if other.is_covering(system) {
            place = place.saturating_add(1);
        }
    }
    place
}

/// Adds an arrow between the frames of two sets with these members: from beside the last system of the first to beside the first of the second.
pub(crate) fn add_arrow(
    shapes: &mut Vec<Shape>,
    built: &Built,
    sets: &[Vec<u32>],
    arrow: Arrow,
) -> Result<(), AllocError>
    ensures { OnOk result (shapes.new.items
        ≡ shapes.old.items
        ++ arrow_shapes built.now (map (λ members. members.items) sets.now) arrow) }
{
    let (members, others) = (members_at(sets, arrow.from), members_at(sets, arrow.to));
    let first = last_in(members, built.order());
    let second = first_in(others, built.order());
    let style = arrow_style(built, members, others);
    add_arrow_between(shapes, built, arrow, first, second, style)
}

// Adds an arrow from beside a system to beside another.
fn add_arrow_between(
    shapes: &mut Vec<Shape>,
    built: &Built,
    arrow: Arrow,
    first: u32,
    second: u32,
    style: Style,
) -> Result<(), AllocError>
    ensures { OnOk result (shapes.new.items
        ≡ shapes.old.items ++ arrow_between built.now arrow first second style) }
{
    let (level, to_level) = (level_of(built, first), level_of(built, second));
    let (row, to_row) = (row_of(built, &[], first), row_of(built, &[], second));
    let side = column_x(level) + WIDTH;
    let (x, y) = (side + inset(arrow.from), row_y(row) + OUT);
    let to_y = row_y(to_row) + IN;
    if level == to_level {
        let out = side + 28 + bend(row, to_row);
        shapes.push(Shape::Curve {
            x,
            y,
            near: out,
            far: out,
            to_x: side + inset(arrow.to),
            to_y,
            style,
        })?;
        return Ok(());
    }
    let end = column_x(to_level);
    shapes.push(Shape::Curve {
        x,
        y,
        near: side + 98,
        far: end - 98,
        to_x: end - inset(arrow.to),
        to_y,
        style,
    })?;
    Ok(())
}

// How an arrow from some systems to others looks.
fn arrow_style(built: &Built, members: &[u32], others: &[u32]) -> Style
    ensures { result ≡ arrow_style_in built.now members.now others.now }
{
    order_style(are_waiting(built, members, others))
}

// The style of an arrow.
fn order_style(deferring: bool) -> Style
    ensures { result ≡ (if deferring then Style.DeferringOrder else Style.Order) }
{
    if deferring {
        Style::DeferringOrder
    } else {
        Style::Order
    }
}

// Whether one of some systems waits for commands of one of others.
fn are_waiting(built: &Built, members: &[u32], others: &[u32]) -> bool
    ensures { result ≡ list_any (waits_for_some_in built.now members.now) others.now }
{
    others
        .iter()
        .any(|other| waits_for_some(built, members, *other))
}

// Whether a system waits for commands of one of others.
fn waits_for_some(built: &Built, members: &[u32], system: u32) -> bool
    ensures { result ≡ waits_for_some_in built.now members.now system }
{
    members
        .iter()
        .any(|member| is_deferring(built, *member, system))
}
