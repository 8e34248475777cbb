// What is marked of a text.

ghost use Rattle.std.specs.Prelude.{◌≡◌, ◌↔◌, IfSome, IsTrue};
ghost use Rattle.text_marks.specs.Lines.{IsMark, Spells};

use crate::lines::{Line, line_at};
use crate::shown::char_count;

/// A span of a text: its bytes from `start` to before `end`.
#[derive(Clone, Copy, PartialEq, Eq, Debug)]
pub struct Span {
    /// Where it begins.
    pub start: usize,
    /// Where it ends.
    pub end: usize,
}

/// The marked part of a line of a text.
#[derive(Clone, Copy, Debug)]
pub struct Mark<'a> {
    /// The line.
    pub line: Line<'a>,
    /// How many of its bytes come before the mark.
    pub from: usize,
    /// How many come before the mark's end.
    pub to: usize,
}

impl<'a> Mark<'a> {
    /// The bytes of its line before it.
    pub fn before(self) -> &'a [u8] {
        self.line.bytes.get(..self.from).unwrap_or(&[])
    }

    /// The bytes that are marked.
    pub fn bytes(self) -> &'a [u8] {
        self.line.bytes.get(self.from..self.to).unwrap_or(&[])
    }

    /// Its column, from 1, in characters.
    pub fn column(self) -> usize {
        char_count(self.before()).saturating_add(1)
    }
}

/// The mark of a span of a text: of several lines the first has it. None where the span doesn't lie in the text.
pub fn mark_of(text: &[u8], span: Span) -> Option<Mark<'_>>
    ensures { IfSome result (IsMark text.now span) }
{
    if span.end < span.start || text.len() < span.end {
        return None;
    }
    let line = line_at(text, span.start);
    Some(Mark {
        line,
        from: span.start - line.start,
        to: (span.end - line.start).min(line.bytes.len()),
    })
}

/// Whether the bytes of a span of a text are these.
pub fn spells(text: &[u8], span: Span, word: &[u8]) -> bool
    ensures { IsTrue result ↔ Spells text.now span word.now }
{
    match text.get(span.start..span.end) {
        Some(bytes) => bytes == word,
        None => false,
    }
}
