// The parts of a text at its brackets and commas.

ghost use Rattle.std.specs.Prelude.{◌≡◌, ◌++◌};
ghost use Rattle.std.specs.List.{position, position_or_len};
ghost use Rattle.std.specs.Option.{option_map};
ghost use Rattle.parsing.specs.Reads.{Reads};
ghost use Rattle.run_condition.specs.Grammar.{is_mark, ArePlain};
ghost use Rattle.run_condition.specs.Fronts.{StartsMark, Closes, IsClosing, IsBehind};

use parsing::words::is_blank;

// Whether the byte is a bracket or a comma.
fn is_mark(byte: u8) -> bool
    ensures { result ≡ is_mark byte }
{
    byte == b'(' || byte == b')' || byte == b','
}

// The place of the first bracket or comma.
fn mark_in(bytes: &[u8]) -> Option<usize>
    ensures { result ≡ position is_mark bytes.now }
{
    bytes.iter().position(|byte| is_mark(*byte))
}

// Where the first bracket or comma is, or how long the text is.
fn first_mark(text: &str) -> usize
    ensures { result ≡ position_or_len is_mark text.now }
{
    match mark_in(text.as_bytes()) {
        Some(place) => place,
        None => text.len(),
    }
}

// What stands before the first bracket or comma, and the rest, which begins with it.
pub(crate) fn cut(text: &str) -> (&str, &str)
    ensures whole { text.now ≡ result.0.now ++ result.1.now }
    ensures head { ArePlain result.0.now }
    ensures rest { StartsMark result.1.now }
{
    text.split_at(first_mark(text))
}

// What follows an opening bracket at the front.
pub(crate) fn behind_opening(text: &str) -> Option<&str>
    ensures { IsBehind 40 text.now result }
{
    text.strip_prefix('(')
}

// What follows a closing bracket at the front.
fn behind_closing(text: &str) -> Option<&str>
    ensures { IsBehind 41 text.now result }
{
    text.strip_prefix(')')
}

// What follows a comma at the front.
pub(crate) fn behind_comma(text: &str) -> Option<&str>
    ensures { IsBehind 44 text.now result }
{
    text.strip_prefix(',')
}

// What follows a closing bracket and the spaces behind it, where that is the end, a closing bracket or a comma.
pub(crate) fn closed(text: &str) -> Option<&str>
    ensures { Reads Closes text.now (option_map (λ rest. rest.now) result) }
{
    let (gap, rest) = cut(text);
    if !is_blank(gap) {
        return None;
    }
    match behind_opening(rest) {
        Some(_) => None,
        None => Some(rest),
    }
}

// What follows a closing bracket at the front, and the spaces behind it.
pub(crate) fn closing(text: &str) -> Option<&str>
    ensures { Reads IsClosing text.now (option_map (λ rest. rest.now) result) }
{
    match behind_closing(text) {
        Some(after) => closed(after),
        None => None,
    }
}
