// Spans of a text: what stands there is read before it is marked.

ghost use Rattle.std.specs.Prelude.{◌≡◌, ◌⊎◌, IfOk, IfSome, string_bytes, true};
ghost use Rattle.explaining.specs.Marked.{BeginsAt, IsKeyOrHeader, IsMarked, IsTextAt, IsValueAt, ReadsKey, ReadsText, ReadsValue};
ghost use Rattle.text_marks.specs.Lines.{Spells};

use crate::target::Part;
use document_places::Spot;
use std::alloc::{AllocError, Global};
use text_marks::Span;
use text_marks::marks::spells;
use toml::Value;
use toml_parser::text::first;
use toml_parser::{ParseError, dotted_key, quoted, starts_string};

/// Where a part of a key of a text stands that has this spot. What is marked reads as it: of a key, of a text and of a word of a text.
pub fn span_at(
    alloc: Global,
    text: &str,
    spot: Spot,
    key: &str,
    part: Part<'_>,
) -> Result<Option<Span>, AllocError>
    ensures { IfOk result (λ found. IfSome found (IsMarked text.now key.now part.entry)) }
{
    let value = span_of(spot.value);
    match part {
        Part::Table => Ok(table_span(text, spot)),
        Part::Key => key_span(alloc, text, spot, key),
        Part::Value => value_span(alloc, text, spot, key),
        Part::Word {
            text: whole,
            from,
            word,
        } => word_span(alloc, text, value, whole, from, word),
    }
}

// A span by its ends.
fn span_of(ends: (usize, usize)) -> Span {
    Span {
        start: ends.0,
        end: ends.1,
    }
}

// What stands at a span.
fn there(text: &str, span: Span) -> Option<&str>
    ensures { IfSome result (λ word. Spells text.now span word.now) }
{
    let word = text.get(span.start..span.end)?;
    if spells(text.as_bytes(), span, word.as_bytes()) {
        Some(word)
    } else {
        None
    }
}

// A span at which a byte stands first.
fn opened(text: &str, span: Span, byte: u8) -> Option<Span>
    ensures { IfSome result (BeginsAt text.now byte) }
{
    let word = there(text, span)?;
    if first(word) == byte {
        Some(span)
    } else {
        None
    }
}

// The braces of a table, or else its header.
fn table_span(text: &str, spot: Spot) -> Option<Span>
    ensures { IfSome result (λ span. BeginsAt text.now 123 span ⊎ BeginsAt text.now 91 span) }
{
    match opened(text, span_of(spot.value), b'{') {
        Some(span) => Some(span),
        None => opened(text, span_of(spot.key), b'['),
    }
}

// The key of a spot, where this one stands there, by itself or as the last of several parts, or else its header.
fn key_span(alloc: Global, text: &str, spot: Spot, key: &str) -> Result<Option<Span>, AllocError>
    ensures { IfOk result (λ found. IfSome found (IsKeyOrHeader text.now key.now)) }
{
    let span = span_of(spot.key);
    let bare = Span {
        start: span.start,
        end: span.start.saturating_add(key.len()),
    };
    if spells(text.as_bytes(), bare, key.as_bytes()) {
        return Ok(Some(bare));
    }
    if let Some(word) = there(text, span) {
        if is_key(alloc, word, key)? {
            return Ok(Some(span));
        }
    }
    Ok(opened(text, span, b'['))
}

// The value of a spot, where one stands there, or else its key.
fn value_span(alloc: Global, text: &str, spot: Spot, key: &str) -> Result<Option<Span>, AllocError>
    ensures { IfOk result (λ found. IfSome found (λ span. IsValueAt text.now span
        ⊎ IsKeyOrHeader text.now key.now span)) }
{
    let span = span_of(spot.value);
    if let Some(word) = there(text, span) {
        if is_value(alloc, word)? {
            return Ok(Some(span));
        }
    }
    key_span(alloc, text, spot, key)
}

// A word of a text that is quoted at a span, behind so many of its bytes: where the text has escapes, all of it.
fn word_span(
    alloc: Global,
    text: &str,
    span: Span,
    whole: &str,
    from: usize,
    word: &str,
) -> Result<Option<Span>, AllocError>
    ensures { IfOk result (λ found. IfSome found (λ span. Spells text.now span word.now
        ⊎ IsTextAt text.now whole.now span)) }
{
    let Some(quoted) = there(text, span) else {
        return Ok(None);
    };
    if !is_text(alloc, quoted, whole)? {
        return Ok(None);
    }
    match behind_quote(text, span, whole, from, word) {
        Some(marked) => Ok(Some(marked)),
        None => Ok(Some(span)),
    }
}

// Where a word of a text stands that begins behind its quote, of one byte or three, and a line feed or not.
fn behind_quote(text: &str, span: Span, whole: &str, from: usize, word: &str) -> Option<Span>
    ensures { IfSome result (λ span. Spells text.now span word.now) }
{
    for lead in [1usize, 3, 4, 5] {
        let start = span.start.saturating_add(lead);
        let end = start.saturating_add(whole.len());
        let begins = start.saturating_add(from);
        let marked = Span {
            start: begins,
            end: begins.saturating_add(word.len()),
        };
        let is_whole = spells(text.as_bytes(), Span { start, end }, whole.as_bytes());
        if is_whole && spells(text.as_bytes(), marked, word.as_bytes()) {
            return Some(marked);
        }
    }
    None
}

// Whether a text is a key of which this is the last part.
fn is_key(alloc: Global, there: &str, key: &str) -> Result<bool, AllocError>
    ensures { IfOk result (λ yes. yes ≡ true → ReadsKey key.now there.now) }
{
    match dotted_key(alloc, there) {
        Ok((read, rest)) => Ok(rest.is_empty() && is_word(&read.last, key)),
        Err(ParseError::OutOfMemory) => Err(AllocError),
        Err(ParseError::At(..)) => Ok(false),
    }
}

// Whether a text that was read is this one.
fn is_word(read: &String, word: &str) -> bool
    ensures { (result ≡ true) → string_bytes read.now ≡ word.now }
{
    read.as_str() == word
}

// Whether a text is this one in quotes.
fn is_text(alloc: Global, there: &str, text: &str) -> Result<bool, AllocError>
    ensures { IfOk result (λ yes. yes ≡ true → ReadsText text.now there.now) }
{
    if !starts_string(there) {
        return Ok(false);
    }
    match quoted(alloc, there) {
        Ok((read, rest)) => Ok(rest.is_empty() && is_word(&read, text)),
        Err(ParseError::OutOfMemory) => Err(AllocError),
        Err(ParseError::At(..)) => Ok(false),
    }
}

// Whether a text is a value.
fn is_value(alloc: Global, there: &str) -> Result<bool, AllocError>
    ensures { IfOk result (λ yes. yes ≡ true → ReadsValue there.now) }
{
    match Value::from_str(alloc, there) {
        Ok(_value) => Ok(true),
        Err(error) if error.is_memory() => Err(AllocError),
        Err(_) => Ok(false),
    }
}
