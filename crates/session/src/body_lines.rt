// The lines that follow a request.

ghost use Rattle.std.specs.Prelude.{ℕ, ◌≡◌, ◌++◌, List, [], Ok, OnOk};
ghost use Rattle.session.specs.Body.{IsKnownAs, PassesLine, ReadsBody, TakesLine, ended};

use crate::play::MOST_BYTES;
use std::alloc::AllocError;
use std::io::BufRead;
use streams::ReadFault;
use streams::lines::{Line, next_line};

/// The most bytes of the lines that follow a request.
pub const MOST_BODY_BYTES: u32 = 268_435_456;

// What is known of lines that follow a request.
#[derive(Clone, Copy)]
pub(crate) enum Follows {
    // They are all there.
    Whole,
    // They are too long.
    TooLong,
    // An allocation failed.
    Failed,
}

impl Follows {
    // What is known of them behind a line whose entry was begun, or was not.
    pub(crate) fn behind(self, begun: Result<(), AllocError>) -> Follows
        ensures known { (text body : List ℕ) → IsKnownAs self text body → IsKnownAs result text
            body }
        ensures begun { result ≡ Follows.Whole → begun ≡ Ok tt }
    {
        match begun {
            Ok(()) => self,
            Err(_) => Follows::Failed,
        }
    }
}

// Reads so many lines into a list, which is empty, also where they are too long or an allocation fails, so that the next line is the one behind
// them. None where the input ends before.
pub(crate) fn read_body<R: BufRead>(
    requests: &mut R,
    count: u32,
    line: &mut Vec<u8>,
    body: &mut Vec<u8>,
) -> Result<Option<Follows>, ReadFault>
    requires { body.old.items ≡ [] }
    ensures { ReadsBody count (R.remaining requests.old) (R.remaining requests.new) body.new.items
        result }
{
    let mut known = Follows::Whole;
    for read in 0..count {
        match take_line(requests, known, line, body)? {
            Some(next) => known = next,
            None => return Ok(None),
        }
    }
    Ok(Some(known))
}

// Reads one more line, and adds it to those before where all of them are there.
fn take_line<R: BufRead>(
    requests: &mut R,
    known: Follows,
    line: &mut Vec<u8>,
    body: &mut Vec<u8>,
) -> Result<Option<Follows>, ReadFault>
    ensures { TakesLine known (R.remaining requests.old) (R.remaining requests.new) body.old.items
        body.new.items result }
{
    match known {
        Follows::Whole => match next_line(requests, MOST_BODY_BYTES, line) {
            Ok(Line::Whole) => Ok(Some(with_line(line.as_slice(), body))),
            Ok(Line::TooLong) => Ok(Some(Follows::TooLong)),
            Ok(Line::End) => Ok(None),
            Err(ReadFault::Memory) => pass_over(requests, Follows::Failed, line),
            Err(fault) => Err(fault),
        },
        Follows::TooLong | Follows::Failed => pass_over(requests, known, line),
    }
}

// Passes over a line, or over the rest of one.
fn pass_over<R: BufRead>(
    requests: &mut R,
    known: Follows,
    line: &mut Vec<u8>,
) -> Result<Option<Follows>, ReadFault>
    ensures { PassesLine known (R.remaining requests.old) (R.remaining requests.new) result }
{
    match next_line(requests, MOST_BYTES, line)? {
        Line::Whole | Line::TooLong => Ok(Some(known)),
        Line::End => Ok(None),
    }
}

// What is known of lines with one more, which is added.
fn with_line(line: &[u8], body: &mut Vec<u8>) -> Follows
    ensures { IsKnownAs result (body.old.items ++ ended line.now) body.new.items }
{
    let length = body.len() as u64 + line.len() as u64 + 1;
    if length > MOST_BODY_BYTES as u64 {
        return Follows::TooLong;
    }
    match add_line(line, body) {
        Ok(()) => Follows::Whole,
        Err(_) => Follows::Failed,
    }
}

// Adds a line with its end.
pub(crate) fn add_line(line: &[u8], body: &mut Vec<u8>) -> Result<(), AllocError>
    ensures { OnOk result (body.new.items ≡ body.old.items ++ ended line.now) }
{
    body.extend_from_slice(line)?;
    body.push(b'\n')?;
    Ok(())
}
