// The terms of a query text that a reader took.

use crate::word::Word;

/// The words of terms that read or write a component.
pub const FETCHING: &[&str] = &["read", "mut", "opt"];

/// The words of terms that touch a kind.
pub const TOUCHING: &[&str] = &["read", "mut", "opt", "added", "changed"];

/// The words of terms that require a kind.
pub const REQUIRING: &[&str] = &["read", "mut", "with", "added", "changed"];

/// The word of terms that exclude a kind.
pub const EXCLUDING: &[&str] = &["without"];

/// The word of terms that write a component.
pub const WRITING: &[&str] = &["mut"];

/// The first term that begins with one of these words and has a kind of this name, or any where the name is empty; and what stands behind it.
pub fn term_with<'t>(text: Word<'t>, words: &[&str], kind: &str) -> Option<(Word<'t>, Word<'t>)> {
    let mut rest = text;
    for _ in 0..text.text.len().saturating_add(1) {
        let (part, more) = rest.before(&[',']);
        let term = part.trimmed();
        let (first, name) = term.first();
        if has_word(words, first.text) && (kind.is_empty() || name.text == kind) {
            return Some((term, more));
        }
        rest = more.behind(',')?;
    }
    None
}

/// Whether a text has such a term.
pub fn has_term(text: &str, words: &[&str], kind: &str) -> bool {
    term_with(Word::whole(text), words, kind).is_some()
}

/// Whether a word is one of these.
pub fn has_word(words: &[&str], word: &str) -> bool {
    for other in words {
        if *other == word {
            return true;
        }
    }
    false
}

/// The query of this number in a condition text, from the left.
pub fn query_in<'t>(text: Word<'t>, number: usize) -> Option<Word<'t>> {
    let mut rest = text;
    for _ in 0..number {
        rest = behind_query(rest)?.1;
    }
    Some(behind_query(rest)?.0)
}

// The first query of a condition text, and what is behind it.
fn behind_query<'t>(text: Word<'t>) -> Option<(Word<'t>, Word<'t>)> {
    let at = text.text.find("any_with")?;
    let (_front, named) = text.split(at);
    let (_name, inside) = named.before(&['(']);
    Some(inside.behind('(')?.before(&[')']))
}
