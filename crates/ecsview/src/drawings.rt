// The drawings of a schedule, and of the runs of a trace.

ghost use Rattle.std.specs.Prelude.{◌≡◌, ◌<◌, ◌++◌, ◌⊎◌, ◌↔◌, IfErr, IfOk, IsTrue, OnOk, length, option_map, string_bytes};
ghost use Rattle.std.specs.List.{AllByRecursion};
ghost use Rattle.ecsview.specs.Drawings.{IsForeign, IsLanesText, IsLawfulRun, IsScheduleText, drawn_shapes, foreign_shapes, heading_shapes, height_from, lanes_from, lanes_width, longest_from, opening_sets as opening_sets_of, part_of as part_in, runs_top, top_below, top_of};
ghost use Rattle.ecsview.specs.Refusals.{IsBadAmong, IsBadRun, IsUndrawn};
ghost use Rattle.program.specs.Refused.{IsTraceUnread, IsUngiven};

use crate::part::Part;
use ambiguity_report::report::report;
use drawing::lanes::add_run;
use drawing::svg::{OPENER, RULES, text_of_drawing};
use drawing::{Label, Shape, Style, Words};
use executor_core::Trace;
use findings::Loaded;
use findings::loading::opening;
use model::KindSets;
use program::Fault;
use program::checking::traces_of;
use schedule_builder::Built;
use schedule_drawing::Drawn;
use schedule_drawing::drawn::draw_schedule;
use schedule_drawing::titles::{conditions_of, touched_of};
use std::alloc::{AllocError, Global};
use std::io::Read;
use trace_checker::Verdict;
use trace_checker::check::check;

/// The drawing of a schedule, as SVG.
pub fn schedule_text(alloc: Global, loaded: &Loaded<'_>) -> Result<String, Fault>
    ensures text { IfOk result (λ text. IsScheduleText OPENER.now RULES.now loaded.now (string_bytes
        text)) }
    ensures memory { IfErr result (λ fault. fault ≡ Fault.Memory) }
{
    let pairs = report(alloc, &loaded.file.built)?;
    let members = loaded.sets.members.as_slice();
    let drawn = draw_schedule(alloc, &loaded.file.built, members, pairs.as_slice())?;
    let conditions = conditions_of(alloc, &loaded.file.built)?;
    let touched = touched_of(alloc, &loaded.file.built)?;
    let (conditions, touched) = (
        strs_of(alloc, conditions.as_slice())?,
        strs_of(alloc, touched.as_slice())?,
    );
    let words = Words {
        names: loaded.file.names.as_slice(),
        sets: loaded.sets.names.as_slice(),
        conditions: conditions.as_slice(),
        touched: touched.as_slice(),
    };
    let shapes = drawn.shapes.as_slice();
    Ok(text_of_drawing(alloc, &words, drawn.width, drawn.height, shapes)?)
}

// These texts, lent.
fn strs_of<'a>(alloc: Global, texts: &'a [String]) -> Result<Vec<&'a str>, AllocError> {
    let mut strs = Vec::with_capacity(alloc, texts.len())?;
    for text in texts {
        strs.push(text.as_str())?;
    }
    Ok(strs)
}

// What the drawing of runs has to its right.
const MARGIN: u64 = 100;

/// The drawing of a part of the runs of a trace, as SVG. A run of which a step may not come is refused, whichever are
/// drawn. One that isn't complete has its recorded steps drawn. A line above them says where the first run opens with
/// other archetypes than the world of the file has.
pub fn lanes_text<T: Read>(
    alloc: Global,
    loaded: &Loaded<'_>,
    trace: &mut T,
    part: Part,
) -> Result<String, Fault>
    ensures text { IfOk result (λ text. IsLanesText OPENER.now RULES.now loaded.now
        (T.remaining trace.old) part (string_bytes text)) }
    ensures refused { IfErr result (λ fault. IsTraceUnread (T.remaining trace.old) fault
        ⊎ (IsUndrawn loaded.now.file.built (T.remaining trace.old) fault
        ⊎ IsUngiven (length loaded.now.file.entities.items) fault)) }
{
    let traces = traces_of(alloc, trace)?;
    let runs = traces.as_slice();
    check_steps(alloc, &loaded.file.built, runs)?;
    let foreign = is_foreign(alloc, loaded, runs)?;
    let conditions = conditions_of(alloc, &loaded.file.built)?;
    let conditions = strs_of(alloc, conditions.as_slice())?;
    let words = Words {
        names: loaded.file.names.as_slice(),
        sets: &[],
        conditions: conditions.as_slice(),
        touched: &[],
    };
    let drawn = part_of(runs, part);
    let lanes = drawn_of(alloc, drawn, part, runs.len(), foreign)?;
    let shapes = lanes.shapes.as_slice();
    Ok(text_of_drawing(alloc, &words, lanes.width, lanes.height, shapes)?)
}

// Whether the first run opens with other archetypes than the world of the file has, where it records any.
fn is_foreign(alloc: Global, loaded: &Loaded<'_>, traces: &[Trace]) -> Result<bool, Fault>
    ensures judged { IfOk result (λ foreign. IsTrue foreign ↔ IsForeign loaded.now traces.now) }
    ensures refused { IfErr result (IsUngiven (length loaded.now.file.entities.items)) }
{
    let Some(recorded) = opening_sets(traces) else {
        return Ok(false);
    };
    let file = &loaded.file;
    let first = opening(
        alloc,
        &file.built,
        file.entities.as_slice(),
        &file.resources,
    )?;
    let there = first.world().kind_sets(alloc)?;
    Ok(!recorded.is_same(&there))
}

// The archetypes with which the first of some runs opens, where it records any.
fn opening_sets(traces: &[Trace]) -> Option<&KindSets>
    ensures { option_map (λ sets. sets.now) result ≡ opening_sets_of traces.now }
{
    let trace = traces.first()?;
    trace.sets()?.first()
}

// The runs of a part.
fn part_of(traces: &[Trace], part: Part) -> &[Trace]
    ensures { result.now ≡ part_in part traces.now }
{
    let from = (part.first.saturating_sub(1) as usize).min(traces.len());
    let to = (part.last as usize).min(traces.len()).max(from);
    &traces[from..to]
}

// The drawing of some of so many runs, of a trace of another file or not.
fn drawn_of(
    alloc: Global,
    drawn: &[Trace],
    part: Part,
    count: usize,
    foreign: bool,
) -> Result<Drawn, AllocError>
    ensures width { IfOk result (λ lanes. lanes.width ≡ lanes_width (longest_from 0 drawn.now)) }
    ensures height { IfOk result (λ lanes. lanes.height
        ≡ height_from (runs_top foreign (length drawn.now) count) drawn.now) }
    ensures shapes { IfOk result (λ lanes. lanes.shapes.items
        ≡ drawn_shapes foreign part count drawn.now) }
{
    let mut shapes = Vec::new(alloc);
    let above = add_heading(&mut shapes, part, drawn.len(), count)?;
    let top = add_foreign(&mut shapes, foreign, above)?;
    let height = add_runs(alloc, &mut shapes, drawn, part.first.saturating_sub(1), top)?;
    let width = width_of(drawn);
    Ok(Drawn {
        width,
        height,
        shapes,
    })
}

// Adds what is written above runs that aren't all. Gives where they begin.
fn add_heading(
    shapes: &mut Vec<Shape>,
    part: Part,
    drawn: usize,
    count: usize,
) -> Result<u64, AllocError>
    ensures shapes { OnOk result (shapes.new.items
        ≡ shapes.old.items ++ heading_shapes part drawn count) }
    ensures top { IfOk result (λ top. top ≡ top_of drawn count) }
{
    if drawn == count {
        return Ok(10);
    }
    shapes.push(Shape::Text {
        x: 8,
        y: 18,
        label: Label::Runs {
            first: part.first,
            last: part.last,
            all: count as u64,
        },
        style: Style::Axis,
    })?;
    Ok(30)
}

// Adds what is written, below a place, above the runs of a trace of another file. Gives where they begin.
fn add_foreign(shapes: &mut Vec<Shape>, foreign: bool, above: u64) -> Result<u64, AllocError>
    requires { above < 100 }
    ensures shapes { OnOk result (shapes.new.items
        ≡ shapes.old.items ++ foreign_shapes foreign above) }
    ensures top { IfOk result (λ top. top ≡ top_below foreign above) }
{
    if !foreign {
        return Ok(above);
    }
    shapes.push(Shape::Text {
        x: 8,
        y: above + 8,
        label: Label::Foreign,
        style: Style::Axis,
    })?;
    Ok(above + 20)
}

// Refuses the first run of which a step may not come.
fn check_steps(alloc: Global, built: &Built, traces: &[Trace]) -> Result<(), Fault>
    ensures lawful { OnOk result (AllByRecursion (IsLawfulRun built.now) traces.now) }
    ensures refused { IfErr result (IsBadAmong built.now traces.now) }
{
    let mut run = 0usize;
    for trace in traces {
        run += 1;
        check_run(alloc, built, trace, run)?;
    }
    Ok(())
}

// Refuses the run of this number where a step of it may not come.
fn check_run(alloc: Global, built: &Built, trace: &Trace, run: usize) -> Result<(), Fault>
    ensures lawful { OnOk result (IsLawfulRun built.now trace.now) }
    ensures refused { IfErr result (IsBadRun built.now trace.now run) }
{
    match check(alloc, built, trace)? {
        Verdict::Bad(step, fault) => Err(Fault::BadStep { run, step, fault }),
        Verdict::Complete => Ok(()),
        Verdict::Unfinished => Ok(()),
    }
}

// How wide the drawing of runs is.
fn width_of(traces: &[Trace]) -> u64
    ensures { result ≡ lanes_width (longest_from 0 traces.now) }
{
    let mut longest = 0u64;
    for trace in traces {
        longest = longest.max(trace.steps().len() as u64);
    }
    let width = 56u64.saturating_mul(longest).saturating_add(MARGIN);
    width.max(360)
}

// Adds the drawings of runs behind so many, one below the other. Gives where the last ends.
fn add_runs(
    alloc: Global,
    shapes: &mut Vec<Shape>,
    traces: &[Trace],
    before: u32,
    above: u64,
) -> Result<u64, AllocError>
    ensures drawn { OnOk result (shapes.new.items
        ≡ shapes.old.items ++ lanes_from before above traces.now) }
    ensures end { IfOk result (λ end. end ≡ height_from above traces.now) }
{
    let mut top = above;
    let mut run = before;
    for trace in traces {
        run = run.saturating_add(1);
        top = add_run(alloc, shapes, trace.steps(), run, top)?;
    }
    Ok(top)
}
