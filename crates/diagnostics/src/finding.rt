// What is found, in words, and what of files is marked for it.

ghost use Rattle.std.specs.Prelude.{◌≡◌};
ghost use Rattle.diagnostics.specs.Json.{level_word};

use std::alloc::{AllocError, Global};
use text_marks::{Excerpt, Span};

/// How much a finding weighs.
#[derive(Clone, Copy, PartialEq, Eq, Debug)]
pub enum Level {
    /// Something is refused.
    Error,
    /// Something is likely a mistake.
    Warning,
}

impl Level {
    /// The word for it.
    pub fn word(self) -> &'static str
        ensures { result.now ≡ level_word self }
    {
        match self {
            Level::Error => "error",
            Level::Warning => "warning",
        }
    }
}

/// What a finding is, without words: its code, and how much it weighs.
#[derive(Clone, Copy, Debug)]
pub struct Heading<'a> {
    /// The code.
    pub code: &'a str,
    /// How much it weighs.
    pub level: Level,
}

/// What is marked of a file.
#[derive(Debug, Drop)]
pub struct Sheet<'a> {
    /// The path of the file.
    pub path: &'a str,
    /// The marks.
    pub excerpt: Excerpt<'a>,
}

/// What to write in a place of the first file.
#[derive(Debug, Drop)]
pub struct Edit {
    /// The place.
    pub span: Span,
    /// What to write there.
    pub new: String,
}

/// What is found.
#[derive(Debug, Drop)]
pub struct Finding<'a> {
    /// What is wrong, in a line.
    pub message: String,
    /// What is marked of files: of the first what the finding is told of.
    pub sheets: Vec<Sheet<'a>>,
    /// What there is to know; empty for nothing.
    pub note: String,
    /// What to do; empty where nothing is known.
    pub help: String,
    /// The same as an edit, where that is known.
    pub edit: Option<Edit>,
}

impl<'a> Finding<'a> {
    /// A finding without a note and an edit, told of one file.
    pub fn of(
        alloc: Global,
        message: String,
        sheet: Sheet<'a>,
        help: String,
    ) -> Result<Finding<'a>, AllocError> {
        let mut sheets = Vec::new(alloc);
        sheets.push(sheet)?;
        Ok(Finding {
            message,
            sheets,
            note: String::new(alloc),
            help,
            edit: None,
        })
    }

    /// The same, with a text to write in place of what the finding is told of, where just this word is marked there.
    pub fn with_edit(self, word: &str, new: String) -> Finding<'a> {
        let mut finding = self;
        if let Some(span) = finding.span_of(word) {
            finding.edit = Some(Edit { span, new });
        }
        finding
    }

    // Where what the finding is told of is marked, where that is just this word.
    fn span_of(&self, word: &str) -> Option<Span> {
        let labelled = self.sheets.first()?.excerpt.marks().first()?;
        if labelled.mark.bytes() == word.as_bytes() {
            Some(labelled.span)
        } else {
            None
        }
    }
}
