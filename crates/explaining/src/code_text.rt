// Why a text is no instruction.

use crate::condition_text::of_event;
use crate::text_reason::{Blame, TextReason};
use crate::word::Word;
use kinds::Kind;
use parsing::integer::read_number;
use script::{Source, Subject, Target};

/// What an instruction wants of a word.
#[derive(Clone, Copy, PartialEq, Eq)]
pub enum Operand {
    /// What is written.
    Target,
    /// What is read.
    Source,
    /// How many instructions are passed over.
    Count,
    /// A kind.
    Kind,
    /// An event kind.
    Event,
    /// Whom a command is about.
    Subject,
    /// An id that is granted.
    Slot,
}

/// The form of an instruction: its word, what it wants behind that, and all of it as it is written.
#[derive(Clone, Copy)]
pub struct Form {
    /// The word.
    pub word: &'static str,
    /// What it wants.
    pub operands: &'static [Operand],
    /// Its form: D is what is written, S what is read, K a kind, E an event kind, W whom a command is about, I a number, N a count.
    pub form: &'static str,
}

const CHANGE: &[Operand] = &[Operand::Target, Operand::Source];

const COMPARE: &[Operand] = &[Operand::Source, Operand::Source, Operand::Count];

const FORMS: &[Form] = &[
    Form {
        word: "set",
        operands: CHANGE,
        form: "set D S",
    },
    Form {
        word: "add",
        operands: CHANGE,
        form: "add D S",
    },
    Form {
        word: "sub",
        operands: CHANGE,
        form: "sub D S",
    },
    Form {
        word: "mul",
        operands: CHANGE,
        form: "mul D S",
    },
    Form {
        word: "min",
        operands: CHANGE,
        form: "min D S",
    },
    Form {
        word: "max",
        operands: CHANGE,
        form: "max D S",
    },
    Form {
        word: "less",
        operands: COMPARE,
        form: "less S S N",
    },
    Form {
        word: "equal",
        operands: COMPARE,
        form: "equal S S N",
    },
    Form {
        word: "greater",
        operands: COMPARE,
        form: "greater S S N",
    },
    Form {
        word: "has",
        operands: &[Operand::Kind, Operand::Count],
        form: "has K N",
    },
    Form {
        word: "emit",
        operands: &[Operand::Event, Operand::Source],
        form: "emit E S",
    },
    Form {
        word: "spawn",
        operands: &[Operand::Slot],
        form: "spawn gI",
    },
    Form {
        word: "insert",
        operands: &[Operand::Subject, Operand::Kind],
        form: "insert W K S ..",
    },
    Form {
        word: "remove",
        operands: &[Operand::Subject, Operand::Kind],
        form: "remove W K",
    },
    Form {
        word: "despawn",
        operands: &[Operand::Subject],
        form: "despawn W",
    },
];

/// The words of the instructions.
pub const INSTRUCTIONS: [&str; 15] = [
    "set", "add", "sub", "mul", "min", "max", "less", "equal", "greater", "has", "emit", "spawn",
    "insert", "remove", "despawn",
];

/// The word for which a text is no instruction.
pub fn of_instruction<'t>(text: Word<'t>) -> Option<Blame<'t>> {
    let (first, rest) = text.first();
    if first.is_empty() {
        return Some(Blame::of(text, TextReason::EmptyCode));
    }
    match form_of(first.text) {
        Some(form) => of_operands(first, rest, form),
        None => Some(Blame::of(first, TextReason::NoInstruction(first.text))),
    }
}

/// The form of an instruction.
pub fn form_of(word: &str) -> Option<Form> {
    for form in FORMS {
        if form.word == word {
            return Some(*form);
        }
    }
    None
}

// The word for which some words aren't those that an instruction wants.
fn of_operands<'t>(first: Word<'t>, words: Word<'t>, form: Form) -> Option<Blame<'t>> {
    let mut rest = words;
    for operand in form.operands {
        let (word, more) = rest.first();
        if word.is_empty() {
            return Some(Blame::of(first, TextReason::WantsMore(form.word, form.form)));
        }
        let blame = of_operand(word, *operand);
        if blame.is_some() {
            return blame;
        }
        rest = more;
    }
    if form.word == "insert" {
        return of_values(rest);
    }
    if rest.is_empty() {
        return None;
    }
    Some(Blame::of(rest, TextReason::WantsFewer(form.word, form.form)))
}

// The word for which one of some isn't a value.
fn of_values<'t>(words: Word<'t>) -> Option<Blame<'t>> {
    let mut rest = words;
    for _ in 0..words.text.len() {
        let (word, more) = rest.first();
        if word.is_empty() {
            return None;
        }
        let blame = of_operand(word, Operand::Source);
        if blame.is_some() {
            return blame;
        }
        rest = more;
    }
    None
}

// A word that isn't what is wanted there.
fn of_operand<'t>(word: Word<'t>, operand: Operand) -> Option<Blame<'t>> {
    let text = word.text;
    let is_there = match operand {
        Operand::Event => return of_event(word),
        Operand::Kind if Kind::named(text).is_none() => {
            return Some(Blame::of(word, TextReason::NoKind(text)));
        }
        Operand::Kind => true,
        Operand::Target => Target::read(text).is_some(),
        Operand::Source => Source::read(text).is_some(),
        Operand::Subject => Subject::read(text).is_some(),
        Operand::Count => read_number(text).unwrap_or(0) > 0,
        Operand::Slot => is_slot(text),
    };
    if is_there {
        return None;
    }
    Some(Blame::of(word, TextReason::NoOperand(text, operand)))
}

// Whether a word is a slot of an id.
fn is_slot(text: &str) -> bool {
    match text.strip_prefix('g') {
        Some(number) => read_number(number).is_some(),
        None => false,
    }
}
