// The text of a drawing, as SVG.

ghost use Rattle.std.specs.Prelude.{◌≡◌, ◌++◌, [], map, get_or, flat_map, OnOk, IfOk, string_bytes};
ghost use Rattle.drawing.specs.ShapeText.{attribute, attributes, bare_text, point_text, points_text, corners_text, opening, rect_opening, diamond_opening, label_text, runs_text, short_text, texts_of, titled_end, written_text, shape_text, rect_text, line_text, curve_text, text_opening, at_once_text, head_text, drawing_text};

use crate::shape::{Label, Shape, Style, Words};
use std::alloc::{AllocError, Global};

/// How a drawing begins.
pub const OPENER: &str = "<svg xmlns='http://www.w3.org/2000/svg'";

/// How each class of shapes looks.
pub const RULES: &str =
    "<style>svg{background:#fff}text{font:11px sans-serif;fill:#222;stroke:#fff;stroke-width:3px;paint-order:stroke;pointer-events:none}path,line{fill:none;stroke:#555}rect{fill:#fff;stroke:#222}rect.system{fill:#eef4fb}rect.running{fill:#cfe6cf}rect.skipped{fill:#eee;stroke-dasharray:2 2}line.set{stroke:#8a6db1}text.set{fill:#6b4f94}text.system,text.running{stroke:none}path.edge,path.deferring,path.order{marker-end:url(#tip)}path.order{stroke:#6b4f94;stroke-width:2}.deferring{stroke-dasharray:5 3}line.sync{stroke:#bbb;stroke-width:5}text.sync{fill:#888}polygon{fill:#ffe9a8;stroke:#8a6d00}polygon.refused{fill:#fff}path.race{stroke:#c00}path.silenced{stroke:#c00;stroke-dasharray:2 3}text.race,text.silenced{fill:#c00;text-anchor:end}text.skipped{fill:#888}line.axis{stroke:#ccc}</style>\n<defs><marker id='tip' viewBox='0 0 8 8' refX='8' refY='4' markerWidth='7' markerHeight='7' orient='auto'><path d='M 0 0 L 8 4 L 0 8'/></marker></defs>\n";

/// The text of a drawing of this width and height, whose labels name these texts by number: its shapes in order.
pub fn text_of_drawing(
    alloc: Global,
    words: &Words<'_>,
    width: u64,
    height: u64,
    shapes: &[Shape],
) -> Result<String, AllocError>
    ensures { IfOk result (λ text. string_bytes text
        ≡ drawing_text OPENER.now RULES.now (texts_of words.now) width height shapes.now) }
{
    let mut text = String::new(alloc);
    push_head(&mut text, OPENER, RULES, width, height)?;
    push_shapes(&mut text, words, shapes)?;
    text.push_str("</svg>\n")?;
    Ok(text)
}

// Adds the head of a drawing.
fn push_head(
    text: &mut String,
    opener: &str,
    rules: &str,
    width: u64,
    height: u64,
) -> Result<(), AllocError>
    ensures { OnOk result (string_bytes text.new
        ≡ string_bytes text.old ++ head_text opener.now rules.now width height) }
{
    text.push_str(opener)?;
    push_numbers(text, "width", width, "height", height)?;
    text.push_str(">\n")?;
    text.push_str(rules)?;
    Ok(())
}

// Adds an attribute that is a number.
fn push_number(text: &mut String, name: &str, value: u64) -> Result<(), AllocError>
    ensures { OnOk result (string_bytes text.new
        ≡ string_bytes text.old ++ attribute name.now value) }
{
    write!(text, " {name}='{value}'")
}

// Adds two of them.
fn push_numbers(
    text: &mut String,
    name: &str,
    value: u64,
    other: &str,
    more: u64,
) -> Result<(), AllocError>
    ensures { OnOk result (string_bytes text.new
        ≡ string_bytes text.old ++ attributes name.now value other.now more) }
{
    push_number(text, name, value)?;
    push_number(text, other, more)
}

// Adds a place.
fn push_point(text: &mut String, x: u64, y: u64) -> Result<(), AllocError>
    ensures { OnOk result (string_bytes text.new ≡ string_bytes text.old ++ point_text x y) }
{
    write!(text, " {x} {y}")
}

// Adds two places.
fn push_points(text: &mut String, x: u64, y: u64, to_x: u64, to_y: u64) -> Result<(), AllocError>
    ensures { OnOk result (string_bytes text.new
        ≡ string_bytes text.old ++ points_text x y to_x to_y) }
{
    push_point(text, x, y)?;
    push_point(text, to_x, to_y)
}

// Adds the beginning of a shape, with its class.
fn push_opening(text: &mut String, name: &str, style: Style) -> Result<(), AllocError>
    ensures { OnOk result (string_bytes text.new
        ≡ string_bytes text.old ++ opening name.now style) }
{
    write!(text, "<{name} class='{style}'")
}

// Adds the texts of these shapes.
fn push_shapes(text: &mut String, words: &Words<'_>, shapes: &[Shape]) -> Result<(), AllocError>
    ensures { OnOk result (string_bytes text.new
        ≡ string_bytes text.old ++ flat_map (shape_text (texts_of words.now)) shapes.now) }
{
    for shape in shapes {
        push_shape(text, words, *shape)?;
    }
    Ok(())
}

// Adds the text of a shape.
fn push_shape(text: &mut String, words: &Words<'_>, shape: Shape) -> Result<(), AllocError>
    ensures { OnOk result (string_bytes text.new
        ≡ string_bytes text.old ++ shape_text (texts_of words.now) shape) }
{
    match shape {
        Shape::Titled {
            x,
            y,
            width,
            height,
            title,
            style,
        } => {
            push_rect_opening(text, x, y, width, height, style)?;
            push_titled_end(text, words, "rect", title)
        }
        Shape::Diamond { x, y, title, style } => {
            push_diamond_opening(text, x, y, style)?;
            push_titled_end(text, words, "polygon", title)
        }
        Shape::Text { x, y, label, style } => {
            push_text_opening(text, x, y, style)?;
            push_written(text, words, label)
        }
        Shape::Rect { .. } => push_bare(text, shape),
        Shape::Line { .. } => push_bare(text, shape),
        Shape::Curve { .. } => push_bare(text, shape),
    }
}

// Adds the text of a shape without words, and nothing of one that has some.
fn push_bare(text: &mut String, shape: Shape) -> Result<(), AllocError>
    ensures { OnOk result (string_bytes text.new ≡ string_bytes text.old ++ bare_text shape) }
{
    match shape {
        Shape::Rect {
            x,
            y,
            width,
            height,
            style,
        } => push_rect(text, x, y, width, height, style),
        Shape::Line {
            x,
            y,
            to_x,
            to_y,
            style,
        } => push_line(text, x, y, to_x, to_y, style),
        Shape::Curve {
            x,
            y,
            near,
            far,
            to_x,
            to_y,
            style,
        } => push_curve(text, x, y, near, far, to_x, to_y, style),
        Shape::Titled { .. } => Ok(()),
        Shape::Diamond { .. } => Ok(()),
        Shape::Text { .. } => Ok(()),
    }
}

// Adds the text of a box.
fn push_rect(
    text: &mut String,
    x: u64,
    y: u64,
    width: u64,
    height: u64,
    style: Style,
) -> Result<(), AllocError>
    ensures { OnOk result (string_bytes text.new
        ≡ string_bytes text.old ++ rect_text x y width height style) }
{
    push_rect_opening(text, x, y, width, height, style)?;
    text.push_str("/>\n")?;
    Ok(())
}

// Adds the beginning of a box.
fn push_rect_opening(
    text: &mut String,
    x: u64,
    y: u64,
    width: u64,
    height: u64,
    style: Style,
) -> Result<(), AllocError>
    ensures { OnOk result (string_bytes text.new
        ≡ string_bytes text.old ++ rect_opening x y width height style) }
{
    push_opening(text, "rect", style)?;
    push_numbers(text, "x", x, "y", y)?;
    push_numbers(text, "width", width, "height", height)
}

// Adds the end of a shape with this title.
fn push_titled_end(
    text: &mut String,
    words: &Words<'_>,
    name: &str,
    title: Label,
) -> Result<(), AllocError>
    ensures { OnOk result (string_bytes text.new
        ≡ string_bytes text.old ++ titled_end name.now (texts_of words.now) title) }
{
    text.push_str("><title>")?;
    push_label(text, words, title)?;
    writeln!(text, "</title></{name}>")
}

// Adds the text of a straight line.
fn push_line(
    text: &mut String,
    x: u64,
    y: u64,
    to_x: u64,
    to_y: u64,
    style: Style,
) -> Result<(), AllocError>
    ensures { OnOk result (string_bytes text.new
        ≡ string_bytes text.old ++ line_text x y to_x to_y style) }
{
    push_opening(text, "line", style)?;
    push_numbers(text, "x1", x, "y1", y)?;
    push_numbers(text, "x2", to_x, "y2", to_y)?;
    text.push_str("/>\n")?;
    Ok(())
}

// Adds the text of a curve.
fn push_curve(
    text: &mut String,
    x: u64,
    y: u64,
    near: u64,
    far: u64,
    to_x: u64,
    to_y: u64,
    style: Style,
) -> Result<(), AllocError>
    ensures { OnOk result (string_bytes text.new
        ≡ string_bytes text.old ++ curve_text x y near far to_x to_y style) }
{
    push_opening(text, "path", style)?;
    write!(text, " d='M {x} {y} C")?;
    push_points(text, near, y, far, to_y)?;
    write!(text, " {to_x} {to_y}'/>\n")?;
    Ok(())
}

// How far the corners of a diamond are from its middle.
const HALF: u64 = 8;

// Adds the beginning of a diamond, which lies far enough from the upper and left edges.
fn push_diamond_opening(text: &mut String, x: u64, y: u64, style: Style) -> Result<(), AllocError>
    ensures { OnOk result (string_bytes text.new
        ≡ string_bytes text.old ++ diamond_opening x y style) }
{
    push_opening(text, "polygon", style)?;
    text.push_str(" points='")?;
    push_corners(text, x, y)?;
    text.push_str("'")?;
    Ok(())
}

// Adds the corners of a diamond.
fn push_corners(text: &mut String, x: u64, y: u64) -> Result<(), AllocError>
    ensures { OnOk result (string_bytes text.new ≡ string_bytes text.old ++ corners_text x y) }
{
    let (left, above) = (x.saturating_sub(HALF), y.saturating_sub(HALF));
    let (right, below) = (x.saturating_add(HALF), y.saturating_add(HALF));
    push_points(text, left, y, x, above)?;
    push_points(text, right, y, x, below)
}

// Adds the beginning of something written.
fn push_text_opening(text: &mut String, x: u64, y: u64, style: Style) -> Result<(), AllocError>
    ensures { OnOk result (string_bytes text.new
        ≡ string_bytes text.old ++ text_opening x y style) }
{
    push_opening(text, "text", style)?;
    push_numbers(text, "x", x, "y", y)?;
    text.push_str(">")?;
    Ok(())
}

// Adds what is written, with its end.
fn push_written(text: &mut String, words: &Words<'_>, label: Label) -> Result<(), AllocError>
    ensures { OnOk result (string_bytes text.new
        ≡ string_bytes text.old ++ written_text (texts_of words.now) label) }
{
    push_label(text, words, label)?;
    text.push_str("</text>\n")?;
    Ok(())
}

// Adds what is written.
fn push_label(text: &mut String, words: &Words<'_>, label: Label) -> Result<(), AllocError>
    ensures { OnOk result (string_bytes text.new
        ≡ string_bytes text.old ++ label_text (texts_of words.now) label) }
{
    match label {
        Label::System(system) => push_name(text, words.names, system),
        Label::Set(set) => push_name(text, words.sets, set),
        Label::Members(set, count) => {
            push_name(text, words.sets, set)?;
            write!(text, " ({count})")
        }
        Label::Condition(condition) => push_short(text, words.conditions, condition),
        Label::Asked(condition) => push_name(text, words.conditions, condition),
        Label::Number(condition) => write!(text, "#{condition}"),
        Label::Touched(system) => push_name(text, words.touched, system),
        Label::Sync(point) => write!(text, "sync {point}"),
        Label::Datum(datum) => write!(text, "{datum}"),
        Label::Run(run) => write!(text, "run {run}"),
        Label::Runs { first, last, all } => write!(text, "runs {first} to {last} of {all}"),
        Label::Foreign => {
            text.push_str(FOREIGN)?;
            Ok(())
        }
        Label::AtOnce {
            most,
            whole,
            hundredths,
        } => push_at_once(text, most, whole, hundredths),
    }
}

// What is written above runs of a trace that was recorded of another file.
const FOREIGN: &str = "run 1 opens with other archetypes than the file has";

// Adds the text of a number.
fn push_name(text: &mut String, names: &[&str], number: u32) -> Result<(), AllocError>
    ensures { OnOk result (string_bytes text.new
        ≡ string_bytes text.old ++ get_or (map (λ name. name.now) names.now) number []) }
{
    text.push_str(name_of(names, number))?;
    Ok(())
}

// What is written of a condition has at most so many bytes.
const MOST_BYTES: usize = 44;

// Adds the text of a condition, or its number where the text is long.
fn push_short(text: &mut String, conditions: &[&str], condition: u32) -> Result<(), AllocError>
    ensures { OnOk result (string_bytes text.new
        ≡ string_bytes text.old
        ++ short_text condition (get_or (map (λ name. name.now) conditions.now) condition [])) }
{
    let asked = name_of(conditions, condition);
    if asked.len() <= MOST_BYTES {
        text.push_str(asked)?;
        return Ok(());
    }
    write!(text, "#{condition}")
}

// Adds how many ran at once.
fn push_at_once(text: &mut String, most: u64, whole: u64, hundredths: u64) -> Result<(), AllocError>
    ensures { OnOk result (string_bytes text.new
        ≡ string_bytes text.old ++ at_once_text most whole hundredths) }
{
    let tens = hundredths / 10;
    let ones = hundredths % 10;
    write!(text, "{most} at once at most, {whole}.")?;
    write!(text, "{tens}{ones} in the mean")
}

// The name of a number, and no text where there is none.
fn name_of<'a>(names: &[&'a str], number: u32) -> &'a str
    ensures { result.now ≡ get_or (map (λ name. name.now) names.now) number [] }
{
    match names.get(number as usize) {
        Some(name) => *name,
        None => "",
    }
}
