// Findings as people read them: a headline, excerpts, what there is to know and what to do.

use crate::finding::{Finding, Sheet};
use std::alloc::{AllocError, Global};
use text_marks::excerpts::Place;
use text_marks::shown::shown;

// How many characters of a headline, of a note, and of what to do, are told at most.
const MOST_TOLD: usize = 400;

/// What is told of a finding: the headline, behind it each excerpt, what there is to know, and what to do, each in lines of its own.
pub fn text_of_finding(alloc: Global, finding: Finding<'_>) -> Result<String, AllocError> {
    let gutter = gutter_of(finding.sheets.as_slice());
    let Finding {
        message,
        mut sheets,
        note,
        help,
        ..
    } = finding;
    let mut text = told(alloc, message.as_str())?;
    text.push_str("\n")?;
    push_sheets(alloc, &mut text, sheets.as_mut_slice(), gutter)?;
    push_remark(alloc, &mut text, gutter, "note", note.as_str())?;
    push_remark(alloc, &mut text, gutter, "help", help.as_str())?;
    Ok(text)
}

/// The same, and the beginning of one line more.
pub fn text_with_gutter(alloc: Global, finding: Finding<'_>) -> Result<String, AllocError> {
    let gutter = gutter_of(finding.sheets.as_slice());
    let mut text = text_of_finding(alloc, finding)?;
    push_gutter(&mut text, gutter)?;
    Ok(text)
}

/// A line of words as it is told: of a long one the beginning.
pub fn told(alloc: Global, words: &str) -> Result<String, AllocError> {
    let line = shown(alloc, words.as_bytes())?;
    let mut text = String::new(alloc);
    let mut rest = line.as_str().chars();
    for _ in 0..MOST_TOLD {
        match rest.next() {
            Some(char) => text.push(char)?,
            None => return Ok(text),
        }
    }
    if rest.next().is_some() {
        text.push_str("...")?;
    }
    Ok(text)
}

// How many digits the greatest number of a line has, at least one.
fn gutter_of(sheets: &[Sheet<'_>]) -> usize {
    let mut most = 1;
    for sheet in sheets {
        most = sheet.excerpt.gutter().max(most);
    }
    most
}

// Adds excerpts, one below the other.
fn push_sheets(
    alloc: Global,
    text: &mut String,
    sheets: &mut [Sheet<'_>],
    gutter: usize,
) -> Result<(), AllocError> {
    let mut sign = "-->";
    for number in 0..sheets.len() {
        let sheet = &mut sheets[number];
        let place = Place {
            path: sheet.path,
            sign,
            gutter,
        };
        sheet.excerpt.push(alloc, text, place)?;
        sign = ":::";
    }
    Ok(())
}

// Adds a line of what there is to know or to do, where that is known.
fn push_remark(
    alloc: Global,
    text: &mut String,
    gutter: usize,
    word: &str,
    words: &str,
) -> Result<(), AllocError> {
    if words.is_empty() {
        return Ok(());
    }
    push_gutter(text, gutter)?;
    let line = told(alloc, words)?;
    writeln!(text, " = {word}: {line}")
}

// Adds the spaces below the numbers of lines.
fn push_gutter(text: &mut String, gutter: usize) -> Result<(), AllocError> {
    for _ in 0..gutter {
        text.push_str(" ")?;
    }
    Ok(())
}
