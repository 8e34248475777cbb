// The lines of a trace: where its runs, their steps and their archetypes stand.

ghost use Rattle.std.specs.Prelude.{◌≡◌, IfOk, IfSome, true};
ghost use Rattle.text_marks.specs.Lines.{Spells};
ghost use Rattle.trace_checker.specs.Grammar.{step_text};
ghost use Rattle.trace_reasons.specs.Rows.{IsStepAt};

use model::Step;
use parsing::ReadError;
use std::alloc::{AllocError, Global};
use text_marks::Span;
use text_marks::marks::spells;
use trace_checker::line::Line;

/// The lines of one run of a trace.
#[derive(Drop)]
pub struct Rows {
    /// The line that begins the run.
    pub opening: Span,
    /// Those of its steps.
    pub steps: Vec<Span>,
    /// Its last line.
    pub last: Span,
}

/// The lines of the run of this number, counted from 1. None where the trace has fewer.
pub fn rows_of(alloc: Global, text: &[u8], run: usize) -> Result<Option<Rows>, AllocError> {
    let mut found = None;
    let mut rest = Span {
        start: 0,
        end: text.len(),
    };
    let mut count = 0usize;
    for _ in 0..text.len() {
        let line = first_line(text, rest);
        match first_byte(text, line) {
            Some(b'R') => {
                count = count.saturating_add(1);
                if count > run {
                    return Ok(found);
                }
                if count == run {
                    found = Some(opened(alloc, line));
                }
            }
            byte => found = with_line(found, line, byte)?,
        }
        rest.start = line.end.saturating_add(1);
        if rest.start >= rest.end {
            break;
        }
    }
    Ok(found)
}

// A run of which only the first line is known.
fn opened(alloc: Global, line: Span) -> Rows {
    Rows {
        opening: line,
        steps: Vec::new(alloc),
        last: line,
    }
}

// The same with one line more, where a run was begun: a step, or archetypes.
fn with_line(
    found: Option<Rows>,
    line: Span,
    byte: Option<u8>,
) -> Result<Option<Rows>, AllocError> {
    let Some(mut rows) = found else {
        return Ok(None);
    };
    rows.last = line;
    if byte != Some(b'A') {
        rows.steps.push(line)?;
    }
    Ok(Some(rows))
}

// The first byte of a line.
fn first_byte(text: &[u8], line: Span) -> Option<u8> {
    text.get(line.start..line.end)?.first().copied()
}

/// The first line of a part of a text, without its end.
pub fn first_line(text: &[u8], part: Span) -> Span {
    let mut end = part.start;
    for place in part.start..part.end.min(text.len()) {
        if text[place] == b'\n' {
            break;
        }
        end = place.saturating_add(1);
    }
    Span {
        start: part.start,
        end,
    }
}

/// The line of this number, counted from 1, without its end: behind the last one the text's end.
pub fn line_of(text: &[u8], number: usize) -> Span {
    let mut start = 0;
    let mut count = 1usize;
    for place in 0..text.len() {
        if count >= number {
            break;
        }
        if text[place] == b'\n' {
            count = count.saturating_add(1);
            start = place.saturating_add(1);
        }
    }
    if count < number {
        start = text.len();
    }
    let end = text.len();
    first_line(text, Span { start, end })
}

/// A line, where it reads as this step.
pub fn step_at(
    alloc: Global,
    text: &[u8],
    line: Span,
    step: Step,
) -> Result<Option<Span>, AllocError>
    ensures { IfOk result (λ found. IfSome found (IsStepAt text.now step)) }
{
    let Some(bytes) = there(text, line) else {
        return Ok(None);
    };
    if is_step(alloc, bytes, step)? {
        Ok(Some(line))
    } else {
        Ok(None)
    }
}

// Whether a line is that of a step.
fn is_step(alloc: Global, bytes: &[u8], step: Step) -> Result<bool, AllocError>
    ensures { IfOk result (λ yes. yes ≡ true → bytes.now ≡ step_text step) }
{
    match Line::read(alloc, bytes) {
        Ok(Line::Take(read)) => Ok(read == step),
        Ok(_) | Err(ReadError::Outside) => Ok(false),
        Err(ReadError::Memory) => Err(AllocError),
    }
}

// What stands at a span.
fn there(text: &[u8], span: Span) -> Option<&[u8]>
    ensures { IfSome result (λ bytes. Spells text.now span bytes.now) }
{
    let bytes = text.get(span.start..span.end)?;
    if spells(text, span, bytes) {
        Some(bytes)
    } else {
        None
    }
}
