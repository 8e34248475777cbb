// Excerpts of a text: the lines with marks, and below each what is marked.

use crate::lines::Line;
use crate::marks::{Mark, Span};
use crate::shown::shown;
use std::alloc::{AllocError, Global};
use unicode_width::UnicodeWidthStr;

// How many characters of a line are shown at most, and how many of these before its first mark.
const MOST_SHOWN: usize = 100;

const SHOWN_BEFORE: usize = 40;

/// A mark, with what is said of it.
#[derive(Debug, Drop)]
pub struct Labelled<'a> {
    /// The mark.
    pub mark: Mark<'a>,
    /// What is marked, also where that is several lines.
    pub span: Span,
    /// Whether the excerpt is of this mark: it has `^` below it, and others have `-`.
    pub is_first: bool,
    /// The text behind it, empty for none.
    pub label: String,
}

/// Where an excerpt is of: the path, the sign before it, and the columns for the numbers of lines.
#[derive(Clone, Copy, Debug)]
pub struct Place<'a> {
    /// The path of the text.
    pub path: &'a str,
    /// The sign before the path.
    pub sign: &'static str,
    /// How many columns the numbers of lines have.
    pub gutter: usize,
}

/// An excerpt of a text: some marks, of which one is the first.
#[derive(Debug, Drop)]
pub struct Excerpt<'a> {
    marks: Vec<Labelled<'a>>,
}

impl<'a> Excerpt<'a> {
    /// An excerpt without marks.
    pub fn new(alloc: Global) -> Excerpt<'a> {
        Excerpt {
            marks: Vec::new(alloc),
        }
    }

    /// Whether nothing is marked.
    pub fn is_empty(&self) -> bool {
        self.marks.is_empty()
    }

    /// The marks, as they were added.
    pub fn marks(&self) -> &[Labelled<'a>] {
        self.marks.as_slice()
    }

    /// Adds the mark of a span, with what is said of it. The first that is added is the one that the excerpt is of.
    pub fn add(&mut self, mark: Mark<'a>, span: Span, label: String) -> Result<(), AllocError> {
        let is_first = self.marks.is_empty();
        self.marks.push(Labelled {
            mark,
            span,
            is_first,
            label,
        })?;
        Ok(())
    }

    /// How many digits the greatest number of a line has, at least one.
    pub fn gutter(&self) -> usize {
        let mut most = 0;
        for labelled in &self.marks {
            most = labelled.mark.line.number.max(most);
        }
        digits(most)
    }

    /// Adds the place of the first mark, as `PATH:LINE:COLUMN`, and below it each line with marks, in order, and what is marked of it. A long line comes again
    /// for a mark that isn't where it was shown.
    pub fn push(
        &mut self,
        alloc: Global,
        text: &mut String,
        place: Place<'_>,
    ) -> Result<(), AllocError> {
        let gutter = place.gutter;
        push_place(alloc, text, place, self.marks.as_slice())?;
        if self.marks.is_empty() {
            return Ok(());
        }
        push_times(text, ' ', gutter.saturating_add(1))?;
        text.push_str("|\n")?;
        self.marks
            .sort_by_key(|labelled| (labelled.mark.line.number, labelled.mark.from))?;
        let mut number = 0;
        let mut window = Window {
            skipped: 0,
            is_cut: false,
        };
        for labelled in &self.marks {
            let is_new = labelled.mark.line.number != number;
            if is_new || is_outside(alloc, window, labelled.mark)? {
                number = labelled.mark.line.number;
                window = push_line(alloc, text, gutter, labelled.mark)?;
            }
            push_below(alloc, text, gutter, window, labelled)?;
        }
        Ok(())
    }
}

// Which characters of a line are shown: those behind so many, and whether all of them are.
#[derive(Clone, Copy)]
struct Window {
    skipped: usize,
    is_cut: bool,
}

// Whether a mark begins behind what is shown of its line.
fn is_outside(alloc: Global, window: Window, mark: Mark<'_>) -> Result<bool, AllocError> {
    if !window.is_cut {
        return Ok(false);
    }
    let lead = shown(alloc, mark.before())?.as_str().chars().count();
    Ok(lead >= window.skipped.saturating_add(MOST_SHOWN))
}

// Adds where the first of some marks is.
fn push_place(
    alloc: Global,
    text: &mut String,
    place: Place<'_>,
    marks: &[Labelled<'_>],
) -> Result<(), AllocError> {
    push_times(text, ' ', place.gutter)?;
    let path = shown(alloc, place.path.as_bytes())?;
    let sign = place.sign;
    write!(text, "{sign} {path}")?;
    match marks.iter().find(|labelled| labelled.is_first) {
        Some(labelled) => {
            let number = labelled.mark.line.number;
            let column = labelled.mark.column();
            writeln!(text, ":{number}:{column}")
        }
        None => text.push_str("\n"),
    }
}

// Adds a line, with its number, as much as is shown around a mark.
fn push_line(
    alloc: Global,
    text: &mut String,
    gutter: usize,
    mark: Mark<'_>,
) -> Result<Window, AllocError> {
    let Line { number, bytes, .. } = mark.line;
    let line = shown(alloc, bytes)?;
    let lead = shown(alloc, mark.before())?.as_str().chars().count();
    let count = line.as_str().chars().count();
    let window = Window {
        skipped: if count > MOST_SHOWN {
            lead.saturating_sub(SHOWN_BEFORE)
        } else {
            0
        },
        is_cut: count > MOST_SHOWN,
    };
    push_times(text, ' ', gutter.saturating_sub(digits(number)))?;
    write!(text, "{number} | ")?;
    push_window(text, line.as_str(), window)?;
    text.push_str("\n")?;
    Ok(window)
}

// Adds what is shown of a line.
fn push_window(text: &mut String, line: &str, window: Window) -> Result<(), AllocError> {
    if !window.is_cut {
        return text.push_str(line);
    }
    if window.skipped > 0 {
        text.push_str("...")?;
    }
    let mut rest = line.chars();
    for _ in 0..window.skipped {
        let _skipped = rest.next();
    }
    for _ in 0..MOST_SHOWN {
        match rest.next() {
            Some(char) => text.push(char)?,
            None => return Ok(()),
        }
    }
    match rest.next() {
        Some(_) => text.push_str("..."),
        None => Ok(()),
    }
}

// Adds what is below a line of a mark of it.
fn push_below(
    alloc: Global,
    text: &mut String,
    gutter: usize,
    window: Window,
    labelled: &Labelled<'_>,
) -> Result<(), AllocError> {
    let lead = shown(alloc, labelled.mark.before())?;
    let word = shown(alloc, labelled.mark.bytes())?;
    let dots = if window.skipped > 0 { 3 } else { 0 };
    push_times(text, ' ', gutter.saturating_add(1))?;
    text.push_str("| ")?;
    push_times(
        text,
        ' ',
        width_behind(lead.as_str(), window.skipped).saturating_add(dots),
    )?;
    let sign = if labelled.is_first { '^' } else { '-' };
    push_times(text, sign, word.as_str().width().clamp(1, MOST_SHOWN))?;
    let label = labelled.label.as_str();
    if !label.is_empty() {
        write!(text, " {label}")?;
    }
    text.push_str("\n")
}

// How many columns a text takes behind so many of its characters.
fn width_behind(text: &str, skipped: usize) -> usize {
    let mut rest = text.chars();
    for _ in 0..skipped {
        let _skipped = rest.next();
    }
    rest.as_str().width()
}

// Adds a character so many times.
fn push_times(text: &mut String, char: char, times: usize) -> Result<(), AllocError> {
    for _ in 0..times {
        text.push(char)?;
    }
    Ok(())
}

// How many digits a number has.
fn digits(number: usize) -> usize {
    let mut rest = number / 10;
    let mut count = 1usize;
    for _ in 0..20 {
        if rest == 0 {
            return count;
        }
        rest /= 10;
        count = count.saturating_add(1);
    }
    count
}
