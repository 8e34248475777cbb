// Why a text of a place is none of its form.

use crate::code_text::{INSTRUCTIONS, Operand};
use crate::condition_text::CONDITIONS;
use crate::names::Names;
use crate::query_text::TERM_WORDS;
use crate::reason::Help;
use crate::word::Word;
use kinds::Kind;
use std::fmt;

/// Why a text of a place is none of its form: a query, a condition or an instruction.
#[derive(Clone, Copy)]
pub enum TextReason<'a> {
    /// A tab, or another space, stands in it.
    OddSpace(&'a str),
    /// A word begins no term.
    NoTerm(&'a str),
    /// A term is empty.
    EmptyTerm,
    /// A word wants a kind behind it.
    WantsKind(&'a str),
    /// More words stand behind a term than it wants.
    TooManyWords(&'a str),
    /// A word begins no alternative.
    NoAlternative(&'a str),
    /// An `or` term has another number of alternatives than two to four.
    OrCount(usize),
    /// A query has a third `or` term.
    ThirdOr,
    /// A word is no kind.
    NoKind(&'a str),
    /// A word is no resource.
    NoResource(&'a str),
    /// A word is no event kind.
    NoEvent(&'a str),
    /// A word is no integer.
    NoInteger(&'a str),
    /// A word is no condition.
    NoCondition(&'a str),
    /// A condition is missing.
    NothingThere,
    /// A condition has no brackets.
    NoBrackets(&'a str),
    /// A condition wants brackets.
    WantsBrackets(&'a str, &'static str),
    /// A condition wants another number of words in its brackets.
    WrongParts(&'a str, &'static str),
    /// A bracket isn't closed.
    Unclosed,
    /// A condition wants two of them.
    WantsTwo,
    /// More stands behind a condition.
    MoreBehind,
    /// Conditions nest too deep.
    TooDeep,
    /// An instruction is empty.
    EmptyCode,
    /// A word is no instruction.
    NoInstruction(&'a str),
    /// An instruction wants more words.
    WantsMore(&'static str, &'static str),
    /// An instruction wants fewer words.
    WantsFewer(&'static str, &'static str),
    /// A word isn't what an instruction wants there.
    NoOperand(&'a str, Operand),
}

/// The word of a text for which it is refused.
#[derive(Clone, Copy)]
pub struct Blame<'t> {
    /// The word.
    pub word: Word<'t>,
    /// What is wrong with it.
    pub reason: TextReason<'t>,
}

impl<'t> Blame<'t> {
    /// What is wrong with a word.
    pub fn of(word: Word<'t>, reason: TextReason<'t>) -> Blame<'t> {
        Blame { word, reason }
    }
}

impl fmt::Display for TextReason<'_> {
    fn fmt<W: fmt::Write>(&self, f: &mut fmt::Formatter<W>) -> fmt::Result {
        match self {
            TextReason::OddSpace("\t") => write!(f, "a tab stands in a text"),
            TextReason::OddSpace(_) => write!(f, "another space than U+0020 stands in a text"),
            TextReason::NoTerm(word) => write!(f, "no term begins with `{word}`"),
            TextReason::EmptyTerm => write!(f, "a term is empty"),
            TextReason::WantsKind(word) => write!(f, "`{word}` wants a kind"),
            TextReason::TooManyWords(word) => {
                write!(f, "more words stand behind `{word}` than it wants")
            }
            TextReason::NoAlternative(word) => write!(f, "no alternative begins with `{word}`"),
            TextReason::OrCount(count) => {
                write!(f, "`or` wants two to four alternatives, and has {count}")
            }
            TextReason::ThirdOr => write!(f, "a query has at most two `or` terms"),
            TextReason::NoKind(word) => write!(f, "no kind is called `{word}`"),
            TextReason::NoResource(word) => write!(f, "no resource is called `{word}`"),
            TextReason::NoEvent(word) => write!(f, "no event kind is called `{word}`"),
            TextReason::NoInteger(word) => write!(f, "`{word}` is no integer"),
            other => other.write_other(f),
        }
    }
}

impl TextReason<'_> {
    // The same of a condition and an instruction.
    fn write_other<W: fmt::Write>(&self, f: &mut fmt::Formatter<W>) -> fmt::Result {
        match self {
            TextReason::NoCondition(word) => write!(f, "no condition is called `{word}`"),
            TextReason::NothingThere => write!(f, "a condition is missing"),
            TextReason::NoBrackets(word) => write!(f, "`{word}` has no brackets"),
            TextReason::WantsBrackets(word, _) => {
                write!(f, "`{word}` wants something in brackets")
            }
            TextReason::WrongParts(word, _) => {
                write!(f, "`{word}` wants something else in its brackets")
            }
            TextReason::Unclosed => write!(f, "a bracket is not closed"),
            TextReason::WantsTwo => write!(f, "`and` and `or` want two conditions"),
            TextReason::MoreBehind => write!(f, "more stands behind the end of the condition"),
            TextReason::TooDeep => write!(f, "`not`, `and` and `or` nest at most 16 deep"),
            TextReason::EmptyCode => write!(f, "an instruction is empty"),
            TextReason::NoInstruction(word) => write!(f, "no instruction is called `{word}`"),
            TextReason::WantsMore(word, _) => write!(f, "`{word}` wants more words"),
            TextReason::WantsFewer(word, _) => {
                write!(f, "more words stand behind `{word}` than it wants")
            }
            TextReason::NoOperand(word, operand) => write!(f, "`{word}` is {operand}"),
            _ => Ok(()),
        }
    }
}

// What a word isn't that an instruction wants there.
impl fmt::Display for Operand {
    fn fmt<W: fmt::Write>(&self, f: &mut fmt::Formatter<W>) -> fmt::Result {
        let words = match self {
            Operand::Target => "nothing that is written",
            Operand::Source => "no value",
            Operand::Count => "no number of instructions",
            Operand::Kind => "no kind",
            Operand::Event => "no event kind",
            Operand::Subject => "nobody that a command is about",
            Operand::Slot => "no id that is granted",
        };
        write!(f, "{words}")
    }
}

impl<'a> TextReason<'a> {
    /// What to do.
    pub fn help(self) -> Help<'a> {
        match self {
            TextReason::NoTerm(word) => help_of_term(word),
            TextReason::WantsKind(_) => Help::Near(Names::Kinds, ""),
            TextReason::NoAlternative(word) => Help::Near(Names::Words(&["with", "without"]), word),
            TextReason::NoKind(word) => Help::Near(Names::Kinds, word),
            TextReason::NoResource(word) => Help::Near(Names::Resources, word),
            TextReason::NoEvent(word) => Help::Near(Names::Events, word),
            TextReason::NoCondition(word) => help_of_condition(word),
            TextReason::NoInstruction(word) => help_of_instruction(word),
            TextReason::NoOperand(_, operand) => help_of_operand(operand),
            other => other.help_in_words(),
        }
    }

    // The same of what is told in words, or by a form to write.
    fn help_in_words(self) -> Help<'a> {
        let form = self.form();
        if form.is_empty() {
            Help::Words(self.help_words())
        } else {
            Help::Write(form)
        }
    }

    // The form to write; empty where it is told in words what to do.
    fn form(self) -> &'static str {
        match self {
            TextReason::OrCount(_) => "or with Frozen with Hidden",
            TextReason::NothingThere | TextReason::NoBrackets(_) => "run_once",
            TextReason::WantsBrackets(_, form) | TextReason::WrongParts(_, form) => form,
            TextReason::WantsTwo => "and(run_once, on_event(Hit))",
            TextReason::WantsMore(_, form) | TextReason::WantsFewer(_, form) => form,
            _ => "",
        }
    }

    // What to do, in words.
    fn help_words(self) -> &'static str {
        match self {
            TextReason::OddSpace(_) => "use U+0020, the space of the space bar",
            TextReason::EmptyTerm => "take a comma away, or write a term",
            TextReason::TooManyWords(_) => "terms have a comma between them",
            TextReason::ThirdOr => "make two queries of it",
            TextReason::NoInteger(_) => "write decimal digits, with a minus before them or not",
            TextReason::Unclosed => "`)` is wanted here",
            TextReason::MoreBehind => "two conditions are two texts, or `and(.., ..)`",
            TextReason::TooDeep => "give a set above it a condition of its own",
            TextReason::EmptyCode => "take it away, or write one: `set Total 1`",
            _ => "",
        }
    }
}

// What to do about a word that begins no term.
fn help_of_term(word: &str) -> Help<'_> {
    if Kind::named(word).is_some() {
        return Help::Words("a word stands before a kind: `read K`, or `mut K` to write it");
    }
    if word == "write" {
        return Help::Words("write `mut K`, which reads and writes");
    }
    match word.strip_prefix('&') {
        Some("mut") => Help::Words("write `mut K` for `&mut K`"),
        Some(_) => Help::Words("write `read K` for `&K`, and `mut K` for `&mut K`"),
        None => Help::Near(Names::Words(&TERM_WORDS), word),
    }
}

// What to do about a word that is no condition.
fn help_of_condition(word: &str) -> Help<'_> {
    match word {
        "resource_exists" | "resource" => Help::Write("resource_equals(Mode, 1)"),
        "any" => Help::Write("any_with(with Frozen)"),
        _ => Help::Near(Names::Words(&CONDITIONS), word),
    }
}

// What to do about a word that is no instruction.
fn help_of_instruction(word: &str) -> Help<'_> {
    match word {
        "inc" => Help::Write("add D 1"),
        "dec" => Help::Write("sub D 1"),
        "mov" | "let" => Help::Write("set D S"),
        "if" => Help::Words("`less S S N`, `equal S S N` and `greater S S N` pass over N others"),
        _ => Help::Near(Names::Words(&INSTRUCTIONS), word),
    }
}

// What to do about a word that isn't what an instruction wants there.
fn help_of_operand(operand: Operand) -> Help<'static> {
    match operand {
        Operand::Target => {
            Help::Words("write a register (`r0`), a field (`Position.x`) or a resource (`Total`)")
        }
        Operand::Source => Help::Words(
            "write an integer, `event`, a register (`r0`), a field (`Position.x`) or a resource",
        ),
        Operand::Count => Help::Words("write how many instructions are passed over: 1 or more"),
        Operand::Kind => Help::Near(Names::Kinds, ""),
        Operand::Event => Help::Near(Names::Events, ""),
        Operand::Subject => Help::Words("write `row`, or an id that is granted (`g0`)"),
        Operand::Slot => Help::Words("write an id that is granted (`g0`)"),
    }
}
