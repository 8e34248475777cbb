// The words of the command line, as texts.

ghost use Rattle.std.specs.Prelude.{◌≡◌, IfErr};

use crate::args::LineFault;
use std::alloc::{AllocError, Global};
use std::env::FillError;
use std::rt::Env;

// With how many bytes of room a word is first asked for, and how often that doubles.
const FIRST_ROOM: usize = 256;

const MOST_DOUBLINGS: u32 = 24;

/// The words of the command line, of which the first is the program's own name, each as a text. In a word that is no
/// text each byte that is in no letter is written as a NUL and the letter of its number. No word has a NUL. Fails
/// only for a failed allocation.
pub fn words_of<R: Env + AllocGlobal>(rt: &R) -> Result<Vec<String>, LineFault>
    ensures { IfErr result (λ fault. fault ≡ LineFault.Memory) }
{
    match texts_of(rt) {
        Ok(words) => Ok(words),
        Err(AllocError) => Err(LineFault::Memory),
    }
}

// The words as texts.
fn texts_of<R: Env + AllocGlobal>(rt: &R) -> Result<Vec<String>, AllocError> {
    let mut words = Vec::new(rt.alloc());
    for number in 0..usize::MAX {
        let Some(bytes) = word_at(rt, number)? else {
            break;
        };
        words.push(text_of_bytes(rt.alloc(), bytes.as_slice())?)?;
    }
    Ok(words)
}

// The bytes of the word of this number. None where there are fewer words.
fn word_at<R: Env + AllocGlobal>(rt: &R, number: usize) -> Result<Option<Vec<u8>>, AllocError> {
    let mut room = FIRST_ROOM;
    for _ in 0..MOST_DOUBLINGS {
        let mut bytes = vec![in rt.alloc(); 0u8; room]?;
        match rt.arg(number, bytes.as_mut_slice()) {
            Ok(count) => {
                bytes.truncate(count);
                return Ok(Some(bytes));
            }
            Err(FillError::NotPresent) => return Ok(None),
            Err(FillError::TooLong) => room = room.saturating_mul(2),
        }
    }
    Err(AllocError)
}

// Some bytes as a text, in which a byte that is in no letter stands behind a NUL.
fn text_of_bytes(alloc: Global, bytes: &[u8]) -> Result<String, AllocError> {
    let mut text = String::new(alloc);
    for chunk in bytes.utf8_chunks() {
        text.push_str(chunk.valid())?;
        for byte in chunk.invalid() {
            text.push('\0')?;
            text.push(char::from(*byte))?;
        }
    }
    Ok(text)
}
