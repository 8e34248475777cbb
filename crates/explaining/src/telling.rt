// What is found, as it is told: a headline, what is marked of the file, and what to do.

use crate::build_reason::BuildReason;
use crate::finding::Found;
use crate::help::{name_in, text_of_help};
use crate::index::Index;
use crate::reason::Reason;
use crate::schedules::mark_of_step;
use crate::site::Site;
use crate::target::Mark;
use diagnostics::{Finding, Sheet};
use std::alloc::{AllocError, Global};
use text_marks::marks::mark_of;
use text_marks::{Excerpt, Span};
use toml::Table;

// How many steps of a circle are marked at most.
const MOST_STEPS: usize = 12;

/// What is told of a file with these bytes at a path that are no document.
pub fn finding_of_bytes<'b>(
    alloc: Global,
    bytes: &'b [u8],
    path: &'b str,
    found: Found<'_>,
) -> Result<Finding<'b>, AllocError> {
    let mut excerpt = Excerpt::new(alloc);
    if let Some(span) = found.reason.span() {
        add_span(&mut excerpt, bytes, span, String::new(alloc))?;
    }
    finding_of(alloc, Sheet { path, excerpt }, found.reason)
}

/// The same of a file that is a document.
pub fn finding_of_document<'b>(
    alloc: Global,
    bytes: &'b [u8],
    document: &Table,
    path: &'b str,
    found: Found<'_>,
) -> Result<Finding<'b>, AllocError> {
    let mut excerpt = Excerpt::new(alloc);
    let site = Site::of(alloc, str::from_utf8(bytes).unwrap_or(""))?;
    add_mark(alloc, &mut excerpt, &site, found.first)?;
    add_mark(alloc, &mut excerpt, &site, found.second)?;
    if let Reason::Build(reason) = found.reason {
        if !reason.circle().is_empty() {
            add_steps(alloc, &mut excerpt, &site, document, reason)?;
        }
    }
    finding_of(alloc, Sheet { path, excerpt }, found.reason)
}

// Adds a mark for each step of the circle of a reason, of many for the first ones.
fn add_steps<'a>(
    alloc: Global,
    excerpt: &mut Excerpt<'a>,
    site: &Site<'a>,
    document: &Table,
    reason: BuildReason<'_>,
) -> Result<(), AllocError> {
    let index = Index::of(alloc, document)?;
    for at in 0..reason.circle().len().min(MOST_STEPS) {
        let mark = mark_of_step(alloc, &index, reason, at)?;
        add_mark(alloc, excerpt, site, mark)?;
    }
    Ok(())
}

/// What is marked of a file at a path: two targets, where they are found in it.
pub fn sheet_of<'b>(
    alloc: Global,
    site: &Site<'b>,
    path: &'b str,
    marks: [Option<Mark<'_>>; 2],
) -> Result<Sheet<'b>, AllocError> {
    let mut excerpt = Excerpt::new(alloc);
    add_mark(alloc, &mut excerpt, site, marks[0])?;
    add_mark(alloc, &mut excerpt, site, marks[1])?;
    Ok(Sheet { path, excerpt })
}

// What is told of a reason, with what is marked.
fn finding_of<'b>(
    alloc: Global,
    sheet: Sheet<'b>,
    reason: Reason<'_>,
) -> Result<Finding<'b>, AllocError> {
    let message = format!(in alloc; "{reason}")?;
    let help = text_of_help(alloc, reason.help())?;
    let finding = Finding::of(alloc, message, sheet, help)?;
    match name_in(alloc, reason.help())? {
        Some((word, new)) => Ok(finding.with_edit(word, String::from_str(alloc, new)?)),
        None => Ok(finding),
    }
}

// Adds a mark, where it is found in the file.
fn add_mark<'a>(
    alloc: Global,
    excerpt: &mut Excerpt<'a>,
    site: &Site<'a>,
    mark: Option<Mark<'_>>,
) -> Result<(), AllocError> {
    let Some(mark) = mark else {
        return Ok(());
    };
    match site.span_of(alloc, mark.target)? {
        Some(span) => {
            let label = format!(in alloc; "{}", mark.label)?;
            add_span(excerpt, site.text.as_bytes(), span, label)
        }
        None => Ok(()),
    }
}

/// Marks a span of a text.
pub fn add_span<'a>(
    excerpt: &mut Excerpt<'a>,
    bytes: &'a [u8],
    span: Span,
    label: String,
) -> Result<(), AllocError> {
    match mark_of(bytes, span) {
        Some(mark) => excerpt.add(mark, span, label),
        None => Ok(()),
    }
}
