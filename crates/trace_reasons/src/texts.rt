// What is told of lines of a trace that is not read, and of archetypes.

use kinds::Kind;
use std::alloc::{AllocError, Global};
use text_marks::Span;

// How many archetypes are told at most.
const MOST_TOLD: usize = 8;

/// What is wrong with a line, and what to do.
#[derive(Clone, Copy)]
pub struct Words {
    /// What is wrong.
    pub message: &'static str,
    /// What to do.
    pub help: &'static str,
}

// The bytes of a line.
fn bytes_of(text: &[u8], line: Span) -> &[u8] {
    text.get(line.start..line.end).unwrap_or(&[])
}

/// Of a line outside of the grammar.
pub fn line_words(text: &[u8], line: Span) -> Words {
    let bytes = bytes_of(text, line);
    if text.starts_with(b"record ") {
        return Words {
            message: "this is no line of a trace",
            help: "it is a record of a session: `ecsplay replay FILE RECORD` takes it again",
        };
    }
    if line.end >= text.len() {
        return Words {
            message: "the last line has no end",
            help: "it may be cut short: a line ends with a line feed",
        };
    }
    let help = if bytes.first() == Some(&b'[') || bytes.contains(&b'=') {
        "is it a program file? FILE comes first, and the trace behind `--trace`"
    } else {
        "a line is `R n`, `C c 1`, `C c 0`, `S n`, `K n`, `F n`, `Y k` or `A`"
    };
    Words {
        message: "this is no line of a trace",
        help,
    }
}

/// Of a line that is out of order.
pub fn order_words(text: &[u8], line: Span) -> Words {
    match bytes_of(text, line).first() {
        Some(b'R') => Words {
            message: "another run comes next",
            help: "runs are numbered from 1, in order",
        },
        _ => Words {
            message: "a step stands before the first run",
            help: "a run begins with `R 1`",
        },
    }
}

/// Of a line where archetypes are wanted or aren't.
pub fn lists_words(text: &[u8], line: Span) -> Words {
    match bytes_of(text, line).first() {
        Some(b'A') => Words {
            message: "archetypes stand where none are wanted",
            help: "they stand behind the line of a run and that of a sync point, or nowhere",
        },
        _ => Words {
            message: "archetypes are wanted here",
            help: "the second line has some: so each run and each sync point has",
        },
    }
}

/// Archetypes by the names of their kinds: of many the first.
pub fn text_of_sets(alloc: Global, sets: Option<&[u32]>) -> Result<String, AllocError> {
    let mut text = String::new(alloc);
    let Some(sets) = sets else {
        return Ok(text);
    };
    let told = sets.len().min(MOST_TOLD);
    let mut between = "recorded: ";
    for set in &sets[..told] {
        text.push_str(between)?;
        push_set(&mut text, *set)?;
        between = ", ";
    }
    if told < sets.len() {
        text.push_str(", ..")?;
    }
    if sets.is_empty() {
        text.push_str("recorded: none")?;
    }
    Ok(text)
}

// Adds the names of the kinds of an archetype.
fn push_set(text: &mut String, set: u32) -> Result<(), AllocError> {
    let mut between = "";
    for kind in Kind::ALL {
        if set.checked_shr(kind.number()).unwrap_or(0) % 2 == 1 {
            text.push_str(between)?;
            text.push_str(kind.name())?;
            between = "+";
        }
    }
    if between.is_empty() {
        text.push_str("no kinds")?;
    }
    Ok(())
}
