// Why a text is no query.

use crate::text_reason::{Blame, TextReason};
use crate::word::Word;
use kinds::Kind;

// How many `or` terms a query has at most, and how many alternatives one has at least and at most.
const MOST_ORS: usize = 2;

const LEAST_ALTERNATIVES: usize = 2;

const MOST_ALTERNATIVES: usize = 4;

/// The words that begin a term of a kind.
pub const TERM_WORDS: [&str; 9] = [
    "read", "mut", "opt", "with", "without", "added", "changed", "or", "entity",
];

/// The word for which a text is no query. One of no term is one.
pub fn of_query<'t>(text: Word<'t>) -> Option<Blame<'t>> {
    if text.trimmed().is_empty() {
        return None;
    }
    let mut rest = text;
    let mut ors = 0usize;
    for _ in 0..text.text.len().saturating_add(1) {
        let (part, more) = rest.before(&[',']);
        let blame = of_term(part.trimmed());
        if blame.is_some() {
            return blame;
        }
        let word = part.first().0;
        if word.text == "or" {
            ors = ors.saturating_add(1);
            if ors > MOST_ORS {
                return Some(Blame::of(word, TextReason::ThirdOr));
            }
        }
        rest = more.behind(',')?;
    }
    None
}

// The word for which a text is no term.
fn of_term<'t>(term: Word<'t>) -> Option<Blame<'t>> {
    if term.is_empty() {
        return Some(Blame::of(term, TextReason::EmptyTerm));
    }
    let (first, rest) = term.first();
    match first.text {
        "entity" if rest.is_empty() => None,
        "entity" => Some(Blame::of(rest, TextReason::TooManyWords(first.text))),
        "or" => of_alternatives(first, rest),
        "read" | "mut" | "opt" | "with" | "without" | "added" | "changed" => {
            let (blame, more) = of_kind(first, rest);
            if blame.is_none() && !more.is_empty() {
                return Some(Blame::of(more, TextReason::TooManyWords(first.text)));
            }
            blame
        }
        _ => Some(Blame::of(first, TextReason::NoTerm(first.text))),
    }
}

// The word for which no kind stands behind a word, and what is behind the kind.
fn of_kind<'t>(first: Word<'t>, rest: Word<'t>) -> (Option<Blame<'t>>, Word<'t>) {
    let (name, more) = rest.first();
    if name.is_empty() {
        return (
            Some(Blame::of(first, TextReason::WantsKind(first.text))),
            more,
        );
    }
    if Kind::named(name.text).is_none() {
        return (Some(Blame::of(name, TextReason::NoKind(name.text))), more);
    }
    (None, more)
}

// The word for which the alternatives of an `or` term are none.
fn of_alternatives<'t>(first: Word<'t>, words: Word<'t>) -> Option<Blame<'t>> {
    let mut rest = words;
    let mut count = 0usize;
    for _ in 0..words.text.len() {
        if rest.is_empty() {
            break;
        }
        let (word, more) = rest.first();
        if word.text != "with" && word.text != "without" {
            return Some(Blame::of(word, TextReason::NoAlternative(word.text)));
        }
        let (blame, behind) = of_kind(word, more);
        if blame.is_some() {
            return blame;
        }
        rest = behind;
        count = count.saturating_add(1);
    }
    if (LEAST_ALTERNATIVES..=MOST_ALTERNATIVES).contains(&count) {
        return None;
    }
    Some(Blame::of(first, TextReason::OrCount(count)))
}
