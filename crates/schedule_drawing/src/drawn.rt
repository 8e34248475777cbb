// The whole drawing of a schedule.

ghost use Rattle.std.specs.Prelude.{◌≡◌, ◌++◌, map, flat_map, OnOk, IfOk};
ghost use Rattle.schedule_drawing.specs.Drawn.{conditions_from, schedule_shapes, sets_from, syncs_from, drawn_height, drawn_width, lowest_from, reach_of as reach_in, shapes_by, things_shapes};
ghost use Rattle.schedule_drawing.specs.Marks.{arrow_shapes, box_shapes, diamond_shapes, edges_shapes, frame_shapes};

use crate::arrows::{Arrow, arrows_of};
use crate::folding::{holders_of, leaders_of};
use crate::marks::{add_arrow, add_box, add_diamond, add_edges, add_frame, add_sync};
use crate::places::{column_x, row_y, rows_of};
use crate::races::add_races;
use ambiguity_report::Pair;
use drawing::Shape;
use schedule_builder::Built;
use std::alloc::{AllocError, Global};

/// The drawing of a schedule: how large it is, and its shapes in order.
#[derive(Drop)]
pub struct Drawn {
    /// How wide it is.
    pub width: u64,
    /// How high it is.
    pub height: u64,
    /// The shapes.
    pub shapes: Vec<Shape>,
}

/// The drawing of a schedule whose sets have these members, and in which these pairs race. It has sync points, frames
/// of sets, arrows between them, edges, systems, conditions and races. Where there are more than 60 systems it is
/// folded. Those of one level that one set holds share one box, and sets have no frames.
pub fn draw_schedule(
    alloc: Global,
    built: &Built,
    sets: &[Vec<u32>],
    pairs: &[Pair],
) -> Result<Drawn, AllocError>
    ensures shapes { IfOk result (λ drawn. drawn.shapes.items
        ≡ schedule_shapes built.now (map (λ members. members.items) sets.now) pairs.now) }
    ensures width { IfOk result (λ drawn. drawn.width ≡ drawn_width built.now) }
    ensures height { IfOk result (λ drawn. drawn.height ≡ drawn_height drawn.shapes.items) }
{
    let holders = holders_of(alloc, built, sets)?;
    let leaders = leaders_of(alloc, built, holders.as_slice())?;
    let arrows = arrows_of(alloc, built, holders.as_slice(), sets)?;
    let folded = Folded {
        holders: holders.as_slice(),
        leaders: leaders.as_slice(),
        arrows: arrows.as_slice(),
    };
    let shapes = shapes_of(alloc, built, &folded, sets, pairs)?;
    Ok(Drawn {
        width: column_x(built.syncs()),
        height: lowest_of(shapes.as_slice()).saturating_add(24),
        shapes,
    })
}

// Which sets hold systems, which systems lead, and which arrows are drawn.
#[derive(Clone, Copy)]
struct Folded<'a> {
    holders: &'a [Option<u32>],
    leaders: &'a [u32],
    arrows: &'a [Arrow],
}

// All shapes.
fn shapes_of(
    alloc: Global,
    built: &Built,
    folded: &Folded<'_>,
    sets: &[Vec<u32>],
    pairs: &[Pair],
) -> Result<Vec<Shape>, AllocError>
    ensures { IfOk result (λ shapes. shapes.items
        ≡ shapes_by built.now folded.now.holders.now folded.now.leaders.now
        (map (λ members. members.items) sets.now) folded.now.arrows.now pairs.now) }
{
    let mut shapes = Vec::new(alloc);
    let bottom = row_y(rows_of(built, folded.leaders));
    add_syncs(&mut shapes, built.syncs(), bottom)?;
    if folded.holders.is_empty() {
        add_sets(&mut shapes, built, folded.leaders, sets)?;
    }
    add_arrows(&mut shapes, built, sets, folded.arrows)?;
    add_things(&mut shapes, built, folded, sets)?;
    add_races(alloc, &mut shapes, built, folded.leaders, pairs)?;
    Ok(shapes)
}

// Adds the edges, systems and conditions.
fn add_things(
    shapes: &mut Vec<Shape>,
    built: &Built,
    folded: &Folded<'_>,
    sets: &[Vec<u32>],
) -> Result<(), AllocError>
    ensures { OnOk result (shapes.new.items
        ≡ shapes.old.items
        ++ things_shapes built.now folded.now.holders.now folded.now.leaders.now
        (map (λ members. members.items) sets.now) folded.now.arrows.now) }
{
    add_all_edges(shapes, built, folded.leaders, sets, folded.arrows)?;
    add_boxes(shapes, built, folded.holders, folded.leaders)?;
    add_conditions(shapes, built, folded.leaders)
}

// How far down these shapes reach.
fn lowest_of(shapes: &[Shape]) -> u64
    ensures { result ≡ lowest_from 0 shapes.now }
{
    let mut lowest = 0u64;
    for shape in shapes {
        lowest = lowest.max(reach_of(*shape));
    }
    lowest
}

// How far down what is written, or a straight line, reaches.
fn reach_of(shape: Shape) -> u64
    ensures { result ≡ reach_in shape }
{
    match shape {
        Shape::Line { y, to_y, .. } => y.max(to_y),
        Shape::Text { y, .. } => y,
        _ => 0,
    }
}

// Adds all arrows.
fn add_arrows(
    shapes: &mut Vec<Shape>,
    built: &Built,
    sets: &[Vec<u32>],
    arrows: &[Arrow],
) -> Result<(), AllocError>
    ensures { OnOk result (shapes.new.items
        ≡ shapes.old.items
        ++ flat_map (arrow_shapes built.now (map (λ members. members.items) sets.now))
        arrows.now) }
{
    for arrow in arrows {
        add_arrow(shapes, built, sets, *arrow)?;
    }
    Ok(())
}

// Adds so many sync points.
#[tactic(auto, using(crate::proofs::Syncs::syncs_next))]
fn add_syncs(shapes: &mut Vec<Shape>, count: u32, bottom: u64) -> Result<(), AllocError>
    ensures { OnOk result (shapes.new.items ≡ shapes.old.items ++ syncs_from bottom 0 count) }
{
    let mut left = count;
    let mut point = 0u32;
    while left > 0 {
        add_sync(shapes, point, bottom)?;
        point = point.saturating_add(1);
        left -= 1;
    }
    Ok(())
}

// Adds the frames of sets with these members.
fn add_sets(
    shapes: &mut Vec<Shape>,
    built: &Built,
    leaders: &[u32],
    sets: &[Vec<u32>],
) -> Result<(), AllocError>
    ensures { OnOk result (shapes.new.items
        ≡ shapes.old.items
        ++ sets_from built.now leaders.now 0 (map (λ members. members.items) sets.now)) }
{
    let mut number = 0u32;
    for members in sets {
        add_frames(shapes, built, leaders, members.as_slice(), number)?;
        number = number.saturating_add(1);
    }
    Ok(())
}

// Adds the frame of a set with these members.
fn add_frames(
    shapes: &mut Vec<Shape>,
    built: &Built,
    leaders: &[u32],
    members: &[u32],
    set: u32,
) -> Result<(), AllocError>
    ensures { OnOk result (shapes.new.items
        ≡ shapes.old.items
        ++ flat_map (frame_shapes built.now leaders.now members.now set) members.now) }
{
    for member in members {
        add_frame(shapes, built, leaders, members, set, *member)?;
    }
    Ok(())
}

// Adds all edges for which no arrow stands, by the systems to which they lead.
fn add_all_edges(
    shapes: &mut Vec<Shape>,
    built: &Built,
    leaders: &[u32],
    sets: &[Vec<u32>],
    arrows: &[Arrow],
) -> Result<(), AllocError>
    ensures { OnOk result (shapes.new.items
        ≡ shapes.old.items
        ++ flat_map
        (edges_shapes built.now leaders.now (map (λ members. members.items) sets.now)
        arrows.now)
        built.now.order) }
{
    let order = built.order();
    for system in order {
        add_edges(shapes, built, leaders, sets, arrows, *system)?;
    }
    Ok(())
}

// Adds all systems, in schedule order.
fn add_boxes(
    shapes: &mut Vec<Shape>,
    built: &Built,
    holders: &[Option<u32>],
    leaders: &[u32],
) -> Result<(), AllocError>
    ensures { OnOk result (shapes.new.items
        ≡ shapes.old.items
        ++ flat_map (box_shapes built.now holders.now leaders.now) built.now.order) }
{
    let order = built.order();
    for system in order {
        add_box(shapes, built, holders, leaders, *system)?;
    }
    Ok(())
}

// Adds all conditions.
fn add_conditions(shapes: &mut Vec<Shape>, built: &Built, leaders: &[u32]) -> Result<(), AllocError>
    ensures { OnOk result (shapes.new.items
        ≡ shapes.old.items ++ conditions_from built.now leaders.now 0 built.now.conditions) }
{
    let mut number = 0u32;
    let conditions = built.conditions();
    for condition in conditions {
        add_diamonds(shapes, built, leaders, number, condition.covers())?;
        number = number.saturating_add(1);
    }
    Ok(())
}

// Adds a condition at the systems that it covers.
fn add_diamonds(
    shapes: &mut Vec<Shape>,
    built: &Built,
    leaders: &[u32],
    condition: u32,
    covers: &[u32],
) -> Result<(), AllocError>
    ensures { OnOk result (shapes.new.items
        ≡ shapes.old.items
        ++ flat_map (diamond_shapes built.now leaders.now condition) covers.now) }
{
    for system in covers {
        add_diamond(shapes, built, leaders, condition, *system)?;
    }
    Ok(())
}
