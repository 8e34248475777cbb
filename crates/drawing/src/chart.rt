// A chart: lines over runs, between axes with round numbers, as SVG.

ghost use Rattle.std.specs.Prelude.{◌≡◌, ◌++◌, ◌≤ℤ◌, flat_map, pos, IfOk, OnOk, string_bytes};
ghost use Rattle.drawing.specs.ChartText.{HasPlots, across, line_text, place_text, plots_text, y_of as height_of};

use crate::svg::OPENER;
use std::alloc::{AllocError, Global};

/// A value after so many runs.
#[derive(Clone, Copy)]
pub struct Point {
    /// How many runs.
    pub run: u32,
    /// The value.
    pub value: i64,
}

/// A line of a chart.
#[derive(Drop)]
pub struct Plot<'a> {
    /// Its name, which has no letter that SVG reads otherwise.
    pub name: &'a str,
    /// Its points, in order.
    pub points: Vec<Point>,
}

/// What stands at the edges of a chart: the least and the greatest value, and the last run.
#[derive(Clone, Copy)]
pub struct Scale {
    /// The value at the lower edge.
    pub low: i64,
    /// The value at the upper edge.
    pub high: i64,
    /// The run at the right edge.
    pub last: u32,
}

/// How the parts of a chart look: the lines differ in their dashes, and in the shapes of their marks.
pub const CHART_RULES: &str =
    "<style>svg{background:#fff}text{font:12px sans-serif;fill:#222}text.end{text-anchor:end}text.mid{text-anchor:middle}line{stroke:#ddd}line.axis{stroke:#222}polyline,path{stroke:currentColor;stroke-width:1.5;stroke-linejoin:round}polyline{fill:none}path{fill:currentColor}.c0{color:#0072b2}.c1{color:#d55e00}.c2{color:#009e73}.c3{color:#222}.c4{color:#cc79a7}.c5{color:#56b4e9}.c6{color:#e69f00}.c7{color:#777}.d1{stroke-dasharray:7 3}.d2{stroke-dasharray:2 2}.d3{stroke-dasharray:9 3 2 3}</style>\n";

// Where the field of the lines begins, and how wide and high it is.
const LEFT: u64 = 150;

const TOP: u64 = 20;

const WIDTH: u64 = 1000;

const HEIGHT: u64 = 400;

// How far an entry of the legend is from the next one.
const ENTRY: u64 = 20;

// How many marks a line has at most.
const MARKS: usize = 8;

// The shapes of marks, from a place on.
const GLYPHS: [&str; 4] = [
    "m-4 0a4 4 0 1 0 8 0a4 4 0 1 0-8 0",
    "m-4-4h8v8h-8z",
    "m0-5l5 9h-10z",
    "m0-5l5 5l-5 5l-5-5z",
];

/// The text of a chart of some lines: the axes and the legend, and behind them the lines, each with all its points in order, at the places that their runs
/// and their values have between the edges.
pub fn text_of_chart(alloc: Global, plots: &[Plot<'_>]) -> Result<String, AllocError>
    ensures { IfOk result (λ text. HasPlots plots.now (string_bytes text)) }
{
    let scale = scale_of(plots);
    let mut text = String::new(alloc);
    push_frame(&mut text, scale, plots)?;
    push_plots(&mut text, scale, plots)?;
    text.push_str("</svg>\n")?;
    Ok(text)
}

// The edges of a chart: round numbers that have all values between them, and the last run.
fn scale_of(plots: &[Plot<'_>]) -> Scale {
    let mut last = 1;
    let mut low = i64::MAX;
    let mut high = i64::MIN;
    for plot in plots {
        for point in &plot.points {
            last = point.run.max(last);
            low = point.value.min(low);
            high = point.value.max(high);
        }
    }
    if high < low {
        (low, high) = (0, 0);
    }
    let step = step_of(high.abs_diff(low));
    let beyond = high.rem_euclid(step);
    let is_round = beyond == 0 && low < high;
    let missing = if is_round {
        0
    } else {
        step.saturating_sub(beyond)
    };
    Scale {
        low: low.saturating_sub(low.rem_euclid(step)),
        high: high.saturating_add(missing),
        last,
    }
}

// A round number: the least of 1, 2, 5, 10 and so on by which a span has at most five steps.
fn step_of(span: u64) -> i64
    ensures { pos 1 ≤ℤ result }
{
    let mut unit = 1i64;
    for _ in 0..18 {
        for times in &[1, 2, 5] {
            let step = unit.saturating_mul(*times).max(1);
            if span / step.unsigned_abs().max(1) <= 5 {
                return step;
            }
        }
        unit = unit.saturating_mul(10);
    }
    unit.max(1)
}

// Where a run stands across.
fn x_of(scale: Scale, run: u32) -> u64
    ensures { result ≡ across scale run }
{
    LEFT + u64::from(run) * WIDTH / u64::from(scale.last.max(1))
}

// Where a value stands, from above.
fn y_of(scale: Scale, value: i64) -> u128
    ensures { result ≡ height_of scale value }
{
    let above = u128::from(scale.high.abs_diff(value));
    let span = u128::from(scale.high.abs_diff(scale.low).max(1));
    u128::from(TOP) + above * u128::from(HEIGHT) / span
}

// Adds what stands round the lines: the head, the axes and the legend.
fn push_frame(text: &mut String, scale: Scale, plots: &[Plot<'_>]) -> Result<(), AllocError> {
    let width = LEFT + WIDTH + 40;
    let height = (plots.len() as u64)
        .saturating_mul(ENTRY)
        .saturating_add(TOP + HEIGHT + 60);
    writeln!(text, "{OPENER} width='{width}' height='{height}'>")?;
    text.push_str(CHART_RULES)?;
    push_heights(text, scale)?;
    push_runs(text, scale)?;
    let mut y = TOP + HEIGHT + 60;
    for (number, plot) in plots.iter().enumerate() {
        push_entry(text, number, plot.name, y)?;
        push_marks(text, scale, number, plot.points.as_slice())?;
        y = y.saturating_add(ENTRY);
    }
    Ok(())
}

// Adds the lines across with their values.
fn push_heights(text: &mut String, scale: Scale) -> Result<(), AllocError> {
    let step = step_of(scale.high.abs_diff(scale.low));
    let right = LEFT + WIDTH;
    let mut value = scale.low;
    for _ in 0..13 {
        if scale.high < value {
            break;
        }
        let y = y_of(scale, value);
        let word = y.saturating_add(4);
        writeln!(text, "<line x1='{LEFT}' y1='{y}' x2='{right}' y2='{y}'/>")?;
        writeln!(text, "<text class='end' x='142' y='{word}'>{value}</text>")?;
        value = value.saturating_add(step);
    }
    Ok(())
}

// Adds the axis of runs.
fn push_runs(text: &mut String, scale: Scale) -> Result<(), AllocError> {
    let step = step_of(u64::from(scale.last)).unsigned_abs();
    let (right, below) = (LEFT + WIDTH, TOP + HEIGHT);
    let (tick, word) = (below + 5, below + 20);
    writeln!(
        text,
        "<line class='axis' x1='{LEFT}' y1='{below}' x2='{right}' y2='{below}'/>"
    )?;
    let mut run = 0u64;
    for _ in 0..13 {
        let Ok(at) = u32::try_from(run) else { break };
        if scale.last < at {
            break;
        }
        let x = x_of(scale, at);
        writeln!(
            text,
            "<line class='axis' x1='{x}' y1='{below}' x2='{x}' y2='{tick}'/>"
        )?;
        writeln!(text, "<text class='mid' x='{x}' y='{word}'>{run}</text>")?;
        run = run.saturating_add(step);
    }
    let word = word + 17;
    writeln!(text, "<text class='end' x='{right}' y='{word}'>runs</text>")
}

// Adds an entry of the legend.
fn push_entry(text: &mut String, number: usize, name: &str, y: u64) -> Result<(), AllocError> {
    let (color, dash) = (number % 8, number % 4);
    let word = y.saturating_add(4);
    writeln!(
        text,
        "<polyline class='c{color} d{dash}' points='150,{y} 200,{y}'/>"
    )?;
    push_mark(text, number, 175, u128::from(y))?;
    writeln!(text, "<text x='210' y='{word}'>{name}</text>")
}

// Adds the marks of the line of a number: at some of its points, each line at other ones.
fn push_marks(
    text: &mut String,
    scale: Scale,
    number: usize,
    points: &[Point],
) -> Result<(), AllocError> {
    let apart = (points.len() / MARKS).max(1);
    for (at, point) in points.iter().enumerate() {
        if at % apart == number % apart {
            push_mark(
                text,
                number,
                x_of(scale, point.run),
                y_of(scale, point.value),
            )?;
        }
    }
    Ok(())
}

// Adds a mark of the line of a number.
fn push_mark(text: &mut String, number: usize, x: u64, y: u128) -> Result<(), AllocError> {
    let color = number % 8;
    let glyph = GLYPHS[(number % 4 + number / 4) % 4];
    writeln!(text, "<path class='c{color}' d='M{x} {y}{glyph}'/>")
}

// Adds lines, each with its marks before it.
fn push_plots(text: &mut String, scale: Scale, plots: &[Plot<'_>]) -> Result<(), AllocError>
    ensures { OnOk result (string_bytes text.new
        ≡ string_bytes text.old ++ plots_text scale 0 plots.now) }
{
    for (number, plot) in plots.iter().enumerate() {
        push_plot(text, scale, number, plot.points.as_slice())?;
    }
    Ok(())
}

// Adds the line of a number.
fn push_plot(
    text: &mut String,
    scale: Scale,
    number: usize,
    points: &[Point],
) -> Result<(), AllocError>
    ensures { OnOk result (string_bytes text.new
        ≡ string_bytes text.old ++ line_text scale number points.now) }
{
    let (color, dash) = (number % 8, number % 4);
    write!(text, "<polyline class='c{color} d{dash}' points='")?;
    push_points(text, scale, points)?;
    text.push_str("'/>\n")?;
    Ok(())
}

// Adds places, a space before each.
fn push_points(text: &mut String, scale: Scale, points: &[Point]) -> Result<(), AllocError>
    ensures { OnOk result (string_bytes text.new
        ≡ string_bytes text.old ++ flat_map (place_text scale) points.now) }
{
    for point in points {
        push_place(text, scale, *point)?;
    }
    Ok(())
}

// Adds the place of a point behind a space.
fn push_place(text: &mut String, scale: Scale, point: Point) -> Result<(), AllocError>
    ensures { OnOk result (string_bytes text.new
        ≡ string_bytes text.old ++ place_text scale point) }
{
    let (x, y) = (x_of(scale, point.run), y_of(scale, point.value));
    write!(text, " {x},{y}")
}
