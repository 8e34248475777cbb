// What is told of a trace that is refused: a headline, which of its lines, what of the program file, and what to do.

use crate::blame::{Case, condition_target, name_of};
use crate::next::next_words;
use crate::past::Past;
use crate::recorded::{Recorded, recorded_run};
use crate::rows::{first_line, line_of, step_at};
use crate::texts::{Words, line_words, lists_words, order_words, text_of_sets};
use diagnostics::{Finding, Sheet};
use explaining::index::Index;
use explaining::order_of;
use explaining::site::Site;
use explaining::target::{Label, Mark, Target};
use explaining::telling::{add_span, sheet_of};
use model::{Step, StepFault};
use program::Fault;
use schedule_builder::Built;
use std::alloc::{AllocError, Global};
use text_marks::{Excerpt, Span};
use toml::Table;

/// A trace, the program file that it is a trace of, and the schedule that this declares.
#[derive(Clone, Copy)]
pub struct Scene<'a> {
    /// The text of the trace.
    pub trace: &'a [u8],
    /// Its path.
    pub trace_path: &'a str,
    /// The text of the program file.
    pub file: &'a [u8],
    /// Its path.
    pub file_path: &'a str,
    /// The document that it is.
    pub document: &'a Table,
    /// The schedule.
    pub built: &'a Built,
}

/// What is told of a trace that is refused with a fault.
pub fn finding_of_trace<'b>(
    alloc: Global,
    scene: Scene<'b>,
    fault: &Fault,
) -> Result<Finding<'b>, AllocError> {
    match fault {
        Fault::TraceLine(line) => {
            let span = line_of(scene.trace, *line);
            of_line(alloc, scene, span, line_words(scene.trace, span))
        }
        Fault::TraceOrder(line) => {
            let span = line_of(scene.trace, *line);
            of_line(alloc, scene, span, order_words(scene.trace, span))
        }
        Fault::TraceLists(line) => {
            let span = line_of(scene.trace, *line);
            of_line(alloc, scene, span, lists_words(scene.trace, span))
        }
        other => of_run(alloc, scene, other),
    }
}

// The same of one that is read.
fn of_run<'b>(alloc: Global, scene: Scene<'b>, fault: &Fault) -> Result<Finding<'b>, AllocError> {
    let (run, step) = match fault {
        Fault::BadStep { run, step, .. } => (*run, *step),
        Fault::UnfinishedRun { run } => (*run, 0),
        Fault::WrongAnswer { run, step } => (*run, *step),
        Fault::WrongSets { run, step } => (*run, *step),
        _ => return of_whole(alloc, scene, fault),
    };
    let Some(recorded) = recorded_run(alloc, scene.trace, run)? else {
        return of_whole(alloc, scene, fault);
    };
    match fault {
        Fault::BadStep { fault, .. } => of_step(alloc, scene, &recorded, (run, step), *fault),
        Fault::UnfinishedRun { .. } => of_unfinished(alloc, scene, &recorded, run),
        Fault::WrongAnswer { .. } => of_answer(alloc, scene, &recorded, step),
        _ => of_sets(alloc, scene, &recorded, (run, step)),
    }
}

// The same of one for which no line is at fault.
fn of_whole<'b>(alloc: Global, scene: Scene<'b>, fault: &Fault) -> Result<Finding<'b>, AllocError> {
    let (message, help) = match fault {
        Fault::TraceTooLong => (
            "the trace has over 67,108,864 bytes",
            "split it: a trace has at most 67,108,864 bytes",
        ),
        Fault::ClockSpent => ("the clock has no next tick, or an event no next number", ""),
        Fault::IdsSpent => (
            "no ids are left for the entities of the file, or for a system",
            "",
        ),
        Fault::BodyRefused => ("the body of a system refused", ""),
        _ => ("the trace is refused", ""),
    };
    let message = String::from_str(alloc, message)?;
    let help = String::from_str(alloc, help)?;
    Finding::of(alloc, message, sheet(alloc, scene), help)
}

// Nothing is marked of the trace.
fn sheet<'b>(alloc: Global, scene: Scene<'b>) -> Sheet<'b> {
    Sheet {
        path: scene.trace_path,
        excerpt: Excerpt::new(alloc),
    }
}

// A line that is at fault.
fn of_line<'b>(
    alloc: Global,
    scene: Scene<'b>,
    span: Span,
    words: Words,
) -> Result<Finding<'b>, AllocError> {
    let mut marked = sheet(alloc, scene);
    add_span(&mut marked.excerpt, scene.trace, span, String::new(alloc))?;
    let message = String::from_str(alloc, words.message)?;
    let help = String::from_str(alloc, words.help)?;
    Finding::of(alloc, message, marked, help)
}

// Marks a step of a run, by its place from 0, where the line reads as it.
fn mark_step<'b>(
    alloc: Global,
    marked: &mut Sheet<'b>,
    scene: Scene<'b>,
    recorded: &Recorded,
    place: usize,
    words: &str,
) -> Result<(), AllocError> {
    let Some(line) = recorded.rows.steps.get(place) else {
        return Ok(());
    };
    let Some(step) = recorded.trace.steps().get(place) else {
        return Ok(());
    };
    if let Some(span) = step_at(alloc, scene.trace, *line, *step)? {
        let label = String::from_str(alloc, words)?;
        add_span(&mut marked.excerpt, scene.trace, span, label)?;
    }
    Ok(())
}

// A step that may not come.
fn of_step<'b>(
    alloc: Global,
    scene: Scene<'b>,
    recorded: &Recorded,
    (run, step): (usize, usize),
    fault: StepFault,
) -> Result<Finding<'b>, AllocError> {
    let place = step.saturating_sub(1);
    let Some(at) = recorded.trace.steps().get(place) else {
        return of_whole(alloc, scene, &Fault::Memory);
    };
    let mut marked = sheet(alloc, scene);
    mark_step(alloc, &mut marked, scene, recorded, place, "")?;
    if fault == StepFault::Unknown {
        let message = unknown_words(alloc, scene, (run, step), *at)?;
        return noted(alloc, scene, message, marked);
    }
    let case = Case {
        built: scene.built,
        document: scene.document,
        past: recorded.past(place),
        sets: recorded.sets_before(place),
        step: *at,
    };
    let blame = case.blame(fault);
    if let Some((place, words)) = blame.beside {
        mark_step(alloc, &mut marked, scene, recorded, place, words)?;
    }
    let message = format!(in alloc; "{}", blame.phrase)?;
    let help = String::from_str(alloc, blame.help)?;
    let mut finding = Finding::of(alloc, message, marked, help)?;
    let mark = mark_in_file(alloc, scene, blame.target, blame.order)?;
    add_file(alloc, &mut finding, scene, mark)?;
    Ok(finding)
}

// What is marked of the program file: a target, or else the order of two items.
fn mark_in_file<'m>(
    alloc: Global,
    scene: Scene<'m>,
    target: Option<Target<'m>>,
    order: Option<(&'m str, &'m str)>,
) -> Result<Option<Mark<'m>>, AllocError> {
    if let Some(target) = target {
        let label = Label::None;
        return Ok(Some(Mark { target, label }));
    }
    let Some((first, second)) = order else {
        return Ok(None);
    };
    let index = Index::of(alloc, scene.document)?;
    match order_of(alloc, &index, first, second)? {
        Some(target) => {
            let label = Label::Order(first, second);
            Ok(Some(Mark { target, label }))
        }
        None => Ok(None),
    }
}

// Adds what is marked of the program file, where that is found there.
fn add_file<'b>(
    alloc: Global,
    finding: &mut Finding<'b>,
    scene: Scene<'b>,
    mark: Option<Mark<'_>>,
) -> Result<(), AllocError> {
    if mark.is_none() {
        return Ok(());
    }
    let site = Site::of(alloc, str::from_utf8(scene.file).unwrap_or(""))?;
    let marked = sheet_of(alloc, &site, scene.file_path, [mark, None])?;
    if !marked.excerpt.is_empty() {
        finding.sheets.push(marked)?;
    }
    Ok(())
}

// What a step names that the schedule hasn't.
fn unknown_words(
    alloc: Global,
    scene: Scene<'_>,
    (run, step): (usize, usize),
    at: Step,
) -> Result<String, AllocError> {
    let (what, number, count) = match at {
        Step::Cond(condition, _) => ("condition", condition, scene.built.condition_count()),
        Step::Start(system) | Step::Skip(system) | Step::Finish(system) => {
            ("system", system, scene.built.count())
        }
        Step::Sync(sync) => ("sync point", sync, scene.built.syncs()),
    };
    let are = if count == 1 { "is" } else { "are" };
    format!(in alloc; "step {step} of run {run} names {what} {number}, and there {are} {count}")
}

// A finding with the note that the file may be another one.
fn noted<'b>(
    alloc: Global,
    scene: Scene<'b>,
    message: String,
    marked: Sheet<'b>,
) -> Result<Finding<'b>, AllocError> {
    let mut finding = Finding::of(alloc, message, marked, String::new(alloc))?;
    let path = scene.file_path;
    finding.note = format!(in alloc; "a trace of another file, or {path} was changed")?;
    Ok(finding)
}

// A run of which steps are missing.
fn of_unfinished<'b>(
    alloc: Global,
    scene: Scene<'b>,
    recorded: &Recorded,
    run: usize,
) -> Result<Finding<'b>, AllocError> {
    let mut marked = sheet(alloc, scene);
    let span = recorded.rows.last;
    add_span(&mut marked.excerpt, scene.trace, span, String::new(alloc))?;
    let message = format!(in alloc; "run {run} wants more steps")?;
    let help = next_words(alloc, scene, recorded.trace.steps())?;
    Finding::of(alloc, message, marked, help)
}

// A condition whose answer isn't the recorded one.
fn of_answer<'b>(
    alloc: Global,
    scene: Scene<'b>,
    recorded: &Recorded,
    step: usize,
) -> Result<Finding<'b>, AllocError> {
    let place = step.saturating_sub(1);
    let Some(Step::Cond(condition, answer)) = recorded.trace.steps().get(place) else {
        return of_whole(alloc, scene, &Fault::Memory);
    };
    let mut marked = sheet(alloc, scene);
    mark_step(alloc, &mut marked, scene, recorded, place, "")?;
    let (says, said) = if *answer {
        ("no", "yes")
    } else {
        ("yes", "no")
    };
    let message = format!(in alloc;
        "condition {condition} says {says} there, and the trace {said}"
    )?;
    let mut finding = noted(alloc, scene, message, marked)?;
    let mark = mark_in_file(
        alloc,
        scene,
        condition_target(scene.document, *condition),
        None,
    )?;
    add_file(alloc, &mut finding, scene, mark)?;
    Ok(finding)
}

// Archetypes that aren't those of the living entities.
fn of_sets<'b>(
    alloc: Global,
    scene: Scene<'b>,
    recorded: &Recorded,
    (run, step): (usize, usize),
) -> Result<Finding<'b>, AllocError> {
    let before = if step == 0 {
        recorded.rows.opening
    } else {
        line_before(recorded, step)
    };
    let part = Span {
        start: before.end.saturating_add(1),
        end: scene.trace.len(),
    };
    let mut marked = sheet(alloc, scene);
    let label = text_of_sets(alloc, recorded.sets_before(step))?;
    add_span(
        &mut marked.excerpt,
        scene.trace,
        first_line(scene.trace, part),
        label,
    )?;
    let message = if step == 0 {
        format!(in alloc; "other archetypes are there as run {run} begins")?
    } else {
        format!(in alloc; "other archetypes are there behind step {step} of run {run}")?
    };
    noted(alloc, scene, message, marked)
}

// The line of a step of a run, counted from 1.
fn line_before(recorded: &Recorded, step: usize) -> Span {
    match recorded.rows.steps.get(step.saturating_sub(1)) {
        Some(line) => *line,
        None => recorded.rows.last,
    }
}
