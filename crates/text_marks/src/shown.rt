// How the bytes of a line are shown.

use std::alloc::{AllocError, Global};

// What stands for a byte or a character that isn't shown.
const REPLACEMENT: char = '\u{FFFD}';

/// A text as it is shown. A tab is four spaces, and a last carriage return is left away. Another control character,
/// one that turns the direction of writing, or a byte outside of UTF-8 is U+FFFD.
pub fn shown(alloc: Global, bytes: &[u8]) -> Result<String, AllocError> {
    let mut text = String::new(alloc);
    let kept = without_return(bytes);
    match str::from_utf8(kept) {
        Ok(chars) => push_chars(&mut text, chars)?,
        Err(_) => push_bytes(&mut text, kept)?,
    }
    Ok(text)
}

// The same bytes without a carriage return at their end.
fn without_return(bytes: &[u8]) -> &[u8] {
    match bytes.split_last() {
        Some((b'\r', kept)) => kept,
        _ => bytes,
    }
}

// Adds characters as they are shown.
fn push_chars(text: &mut String, chars: &str) -> Result<(), AllocError> {
    for char in chars.chars() {
        match char {
            '\t' => text.push_str("    ")?,
            _ if is_hidden(char) => text.push(REPLACEMENT)?,
            _ => text.push(char)?,
        }
    }
    Ok(())
}

// Adds bytes of which some are no text: those of ASCII as they are shown, and U+FFFD for each other.
fn push_bytes(text: &mut String, bytes: &[u8]) -> Result<(), AllocError> {
    for byte in bytes {
        match *byte {
            b'\t' => text.push_str("    ")?,
            b' '..=b'~' => text.push(*byte as char)?,
            _ => text.push(REPLACEMENT)?,
        }
    }
    Ok(())
}

// Whether a character is a control character, or one that turns the direction of writing.
fn is_hidden(char: char) -> bool {
    char.is_control()
        || matches!(char, '\u{61C}' | '\u{200E}' | '\u{200F}' | '\u{202A}'..='\u{202E}' | '\u{2066}'..='\u{2069}')
}

/// How many characters bytes are: where some are no text, how many bytes.
pub fn char_count(bytes: &[u8]) -> usize {
    match str::from_utf8(bytes) {
        Ok(text) => text.chars().count(),
        Err(_) => bytes.len(),
    }
}
