// Texts written whole.

ghost use Rattle.std.specs.Prelude.{◌≡◌, ◌<◌, ◌≤◌, length, take, string_bytes, IfOk, MatchResult};
ghost use Rattle.std.specs.Io.KnownBytes.{Appends, Keeps};
ghost use Rattle.streams.specs.Writing.{WritesWhole, first_line_of, line_of};

use std::alloc::{AllocError, Global};
use std::io::{ErrorKind, Write};
use thiserror::Error;

/// A writer that refused a text, or a part of one.
#[derive(Clone, Copy, PartialEq, Eq, Debug, Error)]
#[error("the output can't be written")]
pub struct WriteFault;

/// Writes a text, as [`write_bytes`] writes its bytes.
pub fn write_whole<W: Write>(writer: &mut W, text: &str) -> Result<(), WriteFault>
    ensures { WritesWhole (W.contents writer.old) (W.contents writer.new) result text.now }
{
    write_bytes(writer, text.as_bytes())
}

/// Writes bytes and flushes the writer. A call that was interrupted is taken up again. A writer that fails, or takes nothing, is a fault,
/// and then it holds a beginning of the bytes.
pub fn write_bytes<W: Write>(writer: &mut W, bytes: &[u8]) -> Result<(), WriteFault>
    ensures { WritesWhole (W.contents writer.old) (W.contents writer.new) result bytes.now }
{
    let mut rest = bytes;
    while !rest.is_empty() {
        let count = write_part(writer, rest)?;
        rest = &rest[count..];
    }
    flush(writer)
}

// Writes some of these bytes, at least one, and returns how many.
fn write_part<W: Write>(writer: &mut W, bytes: &[u8]) -> Result<usize, WriteFault>
    ensures some { IfOk result (λ count. 0 < count) }
    ensures within { IfOk result (λ count. count ≤ length bytes.now) }
    ensures taken { MatchResult result
        (λ count. Appends (W.contents writer.old) (W.contents writer.new) (take count bytes.now))
        (λ _. Keeps (W.contents writer.old) (W.contents writer.new)) }
{
    for _ in 0..u64::MAX {
        match writer.write(bytes) {
            Ok(0) => return Err(WriteFault),
            Ok(count) => return Ok(count),
            Err(error) if error.kind() == ErrorKind::Interrupted => {}
            Err(_) => return Err(WriteFault),
        }
    }
    Err(WriteFault)
}

// Sees that what a writer took is written.
fn flush<W: Write>(writer: &mut W) -> Result<(), WriteFault>
    ensures { Keeps (W.contents writer.old) (W.contents writer.new) }
{
    for _ in 0..u64::MAX {
        match writer.flush() {
            Ok(()) => return Ok(()),
            Err(error) if error.kind() == ErrorKind::Interrupted => {}
            Err(_) => return Err(WriteFault),
        }
    }
    Err(WriteFault)
}

/// The first line of a text, with its end, to be written in one call. Fails only for a failed allocation.
pub fn ended_line(alloc: Global, text: &str) -> Result<String, AllocError>
    ensures { IfOk result (λ line. string_bytes line ≡ line_of text.now) }
{
    let line = first_line(text);
    format!(in alloc; "{line}\n")
}

// The first line of a text, without its end.
#[tactic(auto, using(crate::proofs::Parts::whole_line))]
fn first_line(text: &str) -> &str
    ensures { result.now ≡ first_line_of text.now }
{
    match text.split_once('\n') {
        Some((line, _)) => line,
        None => text,
    }
}
