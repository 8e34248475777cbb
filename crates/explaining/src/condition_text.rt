// Why a text is no condition.

use crate::query_text::of_query;
use crate::text_reason::{Blame, TextReason};
use crate::word::Word;
use kinds::{Event, Res};
use parsing::integer::read_integer;

// How deep `not`, `and` and `or` may nest.
const DEEPEST: u32 = 16;

// What stands in the brackets of a condition.
#[derive(Clone, Copy, PartialEq, Eq)]
enum Inside {
    // It has none.
    Nothing,
    // Words or a query.
    Words,
    // A condition.
    One,
    // Two conditions.
    Two,
}

// A condition: its name, a form of it, and what stands in its brackets.
#[derive(Clone, Copy)]
struct Form {
    name: &'static str,
    text: &'static str,
    inside: Inside,
}

// The conditions.
const FORMS: &[Form] = &[
    Form {
        name: "run_once",
        text: "run_once",
        inside: Inside::Nothing,
    },
    Form {
        name: "resource_equals",
        text: "resource_equals(Mode, 1)",
        inside: Inside::Words,
    },
    Form {
        name: "resource_at_least",
        text: "resource_at_least(Mode, 1)",
        inside: Inside::Words,
    },
    Form {
        name: "resource_changed",
        text: "resource_changed(Mode)",
        inside: Inside::Words,
    },
    Form {
        name: "any_with",
        text: "any_with(with Frozen)",
        inside: Inside::Words,
    },
    Form {
        name: "on_event",
        text: "on_event(Hit)",
        inside: Inside::Words,
    },
    Form {
        name: "not",
        text: "not(run_once)",
        inside: Inside::One,
    },
    Form {
        name: "and",
        text: "and(run_once, on_event(Hit))",
        inside: Inside::Two,
    },
    Form {
        name: "or",
        text: "or(run_once, on_event(Hit))",
        inside: Inside::Two,
    },
];

/// The names of the conditions.
pub const CONDITIONS: [&str; 9] = [
    "run_once",
    "resource_equals",
    "resource_at_least",
    "resource_changed",
    "any_with",
    "on_event",
    "not",
    "and",
    "or",
];

// What is left of a text, how many conditions that hold others are open, and a bit for each of these, the inmost first, where a second one is to come.
#[derive(Clone, Copy)]
struct Reader<'t> {
    rest: Word<'t>,
    depth: u32,
    lefts: u32,
}

// What comes of a turn: more to read, or the end, with the word for which the text is refused.
enum Turn<'t> {
    On(Reader<'t>),
    End(Option<Blame<'t>>),
}

// A turn that ends with a word.
fn ended<'t>(word: Word<'t>, reason: TextReason<'t>) -> Turn<'t> {
    Turn::End(Some(Blame::of(word, reason)))
}

/// The word for which a text is no condition.
pub fn of_condition<'t>(text: Word<'t>) -> Option<Blame<'t>> {
    let mut reader = Reader {
        rest: text,
        depth: 0,
        lefts: 0,
    };
    for _ in 0..text.text.len().saturating_add(1) {
        match reader.turn() {
            Turn::On(next) => reader = next,
            Turn::End(blame) => return blame,
        }
    }
    None
}

impl<'t> Reader<'t> {
    // The same with another rest.
    fn at(self, rest: Word<'t>) -> Reader<'t> {
        Reader {
            rest,
            depth: self.depth,
            lefts: self.lefts,
        }
    }

    // One condition, up to the first that it holds, and what closes behind it.
    fn turn(self) -> Turn<'t> {
        let (front, rest) = self.rest.before(&['(', ')', ',']);
        let word = front.trimmed();
        if word.is_empty() {
            return ended(word, TextReason::NothingThere);
        }
        let Some(form) = form_of(word.text) else {
            return ended(word, TextReason::NoCondition(word.text));
        };
        match rest.behind('(') {
            Some(inside) => self.at(inside).within(word, form),
            None if form.inside == Inside::Nothing => self.at(rest).close(),
            None => ended(word, TextReason::WantsBrackets(word.text, form.text)),
        }
    }

    // A condition, behind its opening bracket.
    fn within(self, word: Word<'t>, form: Form) -> Turn<'t> {
        match form.inside {
            Inside::Nothing => ended(word, TextReason::NoBrackets(word.text)),
            Inside::Words => self.leaf(word, form.text),
            Inside::One => self.open(word, 0),
            Inside::Two => self.open(word, 1),
        }
    }

    // Goes into a condition that holds others.
    fn open(self, word: Word<'t>, left: u32) -> Turn<'t> {
        if self.depth >= DEEPEST {
            return ended(word, TextReason::TooDeep);
        }
        Turn::On(Reader {
            rest: self.rest,
            depth: self.depth.saturating_add(1),
            lefts: self.lefts.saturating_mul(2).saturating_add(left),
        })
    }

    // A condition that holds no others, behind its opening bracket, and what closes behind it.
    fn leaf(self, word: Word<'t>, form: &'static str) -> Turn<'t> {
        let (inside, rest) = self.rest.before(&[')', '(']);
        let blame = of_parts(word, inside, form);
        if blame.is_some() {
            return Turn::End(blame);
        }
        match rest.behind(')') {
            Some(behind) => self.at(behind).close(),
            None => ended(rest, TextReason::Unclosed),
        }
    }

    // What comes behind a condition that has ended.
    fn close(self) -> Turn<'t> {
        let mut reader = self;
        for _ in 0..DEEPEST.saturating_add(1) {
            let rest = reader.rest.trimmed();
            if reader.depth == 0 {
                return reader.end(rest);
            }
            if reader.lefts % 2 == 1 {
                return match rest.behind(',') {
                    Some(behind) => Turn::On(Reader {
                        rest: behind,
                        depth: reader.depth,
                        lefts: reader.lefts.saturating_sub(1),
                    }),
                    None => ended(rest, TextReason::WantsTwo),
                };
            }
            match rest.behind(')') {
                Some(behind) => {
                    reader = Reader {
                        rest: behind,
                        depth: reader.depth.saturating_sub(1),
                        lefts: reader.lefts / 2,
                    };
                }
                None => return ended(rest, TextReason::Unclosed),
            }
        }
        Turn::End(None)
    }

    // What comes behind the whole condition.
    fn end(self, rest: Word<'t>) -> Turn<'t> {
        if rest.is_empty() {
            return Turn::End(None);
        }
        ended(rest, TextReason::MoreBehind)
    }
}

// The form of a condition.
fn form_of(word: &str) -> Option<Form> {
    for form in FORMS {
        if form.name == word {
            return Some(*form);
        }
    }
    None
}

// The word for which what stands in the brackets of a condition isn't what it wants.
fn of_parts<'t>(word: Word<'t>, inside: Word<'t>, form: &'static str) -> Option<Blame<'t>> {
    if word.text == "any_with" {
        return of_query(inside);
    }
    let (first, more) = inside.before(&[',']);
    let first = first.trimmed();
    let wants_two = word.text == "resource_equals" || word.text == "resource_at_least";
    let second = more.behind(',');
    if second.is_some() != wants_two || first.is_empty() {
        return Some(Blame::of(word, TextReason::WrongParts(word.text, form)));
    }
    let blame = if word.text == "on_event" {
        of_event(first)
    } else {
        of_resource(first)
    };
    match (blame, second) {
        (None, Some(second)) => of_integer(second.trimmed()),
        (blame, _) => blame,
    }
}

// A word that is the name of no resource.
fn of_resource<'t>(word: Word<'t>) -> Option<Blame<'t>> {
    match Res::named(word.text) {
        Some(_) => None,
        None => Some(Blame::of(word, TextReason::NoResource(word.text))),
    }
}

/// A word that is the name of no event kind.
pub fn of_event<'t>(word: Word<'t>) -> Option<Blame<'t>> {
    match Event::named(word.text) {
        Some(_) => None,
        None => Some(Blame::of(word, TextReason::NoEvent(word.text))),
    }
}

// A word that is no integer.
fn of_integer<'t>(word: Word<'t>) -> Option<Blame<'t>> {
    match read_integer(word.text) {
        Some(_) => None,
        None => Some(Blame::of(word, TextReason::NoInteger(word.text))),
    }
}
