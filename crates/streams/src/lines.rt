// The lines of a reader, within a limit, in whatever pieces its bytes come.

ghost use Rattle.std.specs.Prelude.{◌≡◌, ◌<◌, ◌≤◌, length, vec_capacity, IfOk, OnErr, IsErrOf};
ghost use Rattle.std.specs.Io.KnownBytes.{Keeps};
ghost use Rattle.streams.specs.Lines.{GivesLine, LosesPart, TakesShown};

use crate::reading::ReadFault;
use memchr::memchr;
use std::io::{BufRead, ErrorKind};

/// The next line of a reader.
#[derive(Clone, Copy, PartialEq, Eq, Debug)]
pub enum Line {
    /// A line within the limit.
    Whole,
    /// A line with more bytes than the limit.
    TooLong,
    /// No line: the input ends before the next end of a line.
    End,
}

/// The next line of a reader, with at most `limit` bytes, in `line` without its end, the byte 10.
///
/// A line that is too long is skipped to its end. Bytes behind the last end of a line are no line, and are skipped too. A line is
/// given as soon as the reader shows its end. With room for one byte more than the limit, `line` takes no memory. A reader that fails is
/// `Failed`; a read that was interrupted is taken up again. An error loses at most a part of the line, without its end.
pub fn next_line<R: BufRead>(
    reader: &mut R,
    limit: u32,
    line: &mut Vec<u8>,
) -> Result<Line, ReadFault>
    ensures given { IfOk result (GivesLine limit (R.remaining reader.old) (R.remaining reader.new)
        line.new.items) }
    ensures err { OnErr result (LosesPart (R.remaining reader.old) (R.remaining reader.new)) }
    ensures fault { IsErrOf result ReadFault.TooLong → ⊥ }
    ensures memory { IsErrOf result ReadFault.Memory → vec_capacity line.old ≤ limit }
    ensures capacity { vec_capacity line.old ≤ vec_capacity line.new }
{
    line.clear();
    let room = limit as usize + 1;
    for _ in 0..u64::MAX {
        match take_shown(reader, room, line)? {
            Shown::Part => {}
            Shown::Rest if line.len() < room => return Ok(Line::Whole),
            Shown::Rest => return Ok(Line::TooLong),
            Shown::Nothing => return Ok(Line::End),
        }
    }
    Err(ReadFault::Failed)
}

// What a reader shows of a line.
enum Shown {
    // Some of its bytes, or none yet.
    Part,
    // All that was left of it, and its end.
    Rest,
    // That no byte is left.
    Nothing,
}

// Takes from the reader what it shows of a line, and its end. `line` gets of these bytes what it has room for.
fn take_shown<R: BufRead>(
    reader: &mut R,
    room: usize,
    line: &mut Vec<u8>,
) -> Result<Shown, ReadFault>
    requires { length line.old.items ≤ room }
    ensures taken { IfOk result (TakesShown room (R.remaining reader.old) (R.remaining reader.new)
        line.old.items line.new.items) }
    ensures err { OnErr result (Keeps (R.remaining reader.old) (R.remaining reader.new)) }
    ensures fault { IsErrOf result ReadFault.TooLong → ⊥ }
    ensures memory { IsErrOf result ReadFault.Memory → vec_capacity line.old < room }
    ensures capacity { vec_capacity line.old ≤ vec_capacity line.new }
{
    let shown = match reader.fill_buf() {
        Ok(shown) => shown,
        Err(error) if error.kind() == ErrorKind::Interrupted => return Ok(Shown::Part),
        Err(_) => return Err(ReadFault::Failed),
    };
    let end = memchr(b'\n', shown);
    let part = &shown[..end.unwrap_or(shown.len())];
    let kept = part.len().min(room - line.len());
    if line.extend_from_slice(&part[..kept]).is_err() {
        return Err(ReadFault::Memory);
    }
    let (count, what) = match end {
        Some(end) => (end + 1, Shown::Rest),
        None if shown.is_empty() => (0, Shown::Nothing),
        None => (shown.len(), Shown::Part),
    };
    reader.consume(count);
    Ok(what)
}

#[cfg(test)]
mod tests {
    use super::*;
    use std::io::BufReader;
    use std::test::Fail;

    // A text, and of its next lines the first bytes and the counts, with at most three bytes a line.
    const LINES: [(&str, &[(Line, &str)]); 5] = [
        ("", &[(Line::End, "")]),
        (
            "a\n\nabc\n",
            &[
                (Line::Whole, "a"),
                (Line::Whole, ""),
                (Line::Whole, "abc"),
                (Line::End, ""),
            ],
        ),
        (
            "abcd\nb\n",
            &[(Line::TooLong, "abcd"), (Line::Whole, "b"), (Line::End, "")],
        ),
        (
            "abcdefghijk\nb",
            &[(Line::TooLong, "abcd"), (Line::End, "b")],
        ),
        ("abcdefg", &[(Line::End, "abcd"), (Line::End, "")]),
    ];

    #[test]
    fn lines_are_read(rt: HostRuntime) -> Result<(), Fail> {
        for capacity in [1, 2, 3, 64] {
            for (text, lines) in LINES {
                let mut reader = BufReader::with_capacity(rt.alloc(), capacity, text.as_bytes())?;
                let mut line = Vec::new(rt.alloc());
                for (what, bytes) in lines {
                    assert_eq!(rt;
                        next_line(&mut reader, 3, &mut line),
                        Ok(*what),
                        "in {text}"
                    );
                    assert_eq!(rt; line.as_slice(), bytes.as_bytes(), "in {text}");
                }
            }
        }
        Ok(())
    }
}
