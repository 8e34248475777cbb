// Rows as a chart.

ghost use Rattle.std.specs.Prelude.{◌≡◌, ◌≤◌, map, IfOk};
ghost use Rattle.series.specs.Chart.{HasChart, point_of as point_in, thinned};

use crate::rows::Row;
use drawing::chart::{Plot, Point, text_of_chart};
use std::alloc::{AllocError, Global};

// How many rows a chart shows at most.
const MOST_ROWS: usize = 1000;

/// The rows of series with these names as a chart with a line for each. Of more than 1,000 rows it shows every second one, or every third one and so on,
/// beginning with the first: the least such step by which no more than 1,000 are shown.
pub fn chart_of(alloc: Global, names: &[&str], rows: &[Row]) -> Result<String, AllocError>
    ensures { IfOk result (HasChart (map (λ name. name.now) names.now) rows.now) }
{
    let step = rows.len().saturating_sub(1) / MOST_ROWS + 1;
    let mut plots = Vec::with_capacity(alloc, names.len())?;
    for (number, name) in names.iter().enumerate() {
        let points = points_of(alloc, rows, step, number)?;
        plots.push(Plot {
            name: *name,
            points,
        })?;
    }
    text_of_chart(alloc, plots.as_slice())
}

// The points of a series in every so many-th row.
fn points_of(
    alloc: Global,
    rows: &[Row],
    step: usize,
    number: usize,
) -> Result<Vec<Point>, AllocError>
    requires { 1 ≤ step }
    ensures { IfOk result (λ points. points.items ≡ thinned number step 0 rows.now) }
{
    let mut points = Vec::new(alloc);
    for (at, row) in rows.iter().enumerate() {
        if at % step == 0 {
            points.push(point_of(row, number))?;
        }
    }
    Ok(points)
}

// The point of a series in a row.
fn point_of(row: &Row, number: usize) -> Point
    ensures { result ≡ point_in number row.now }
{
    let value = match row.values.get(number) {
        Some(value) => *value,
        None => 0,
    };
    Point {
        run: row.run,
        value,
    }
}
