// The lines of a trace's text.

ghost use Rattle.std.specs.Prelude.{◌≡◌, ◌≢◌, get_or, IsErrOf};
ghost use Rattle.std.specs.Fmt.{WritesOnOk};
ghost use Rattle.parsing.specs.Reads.{Reads, ReadsUnlessMemory};
ghost use Rattle.trace_checker.specs.Grammar.{IsLine, IsAnswerTail, sets_text};

use crate::numeral::numeral_of;
use crate::sets::sets_of;
use model::{KindSets, Step};
use parsing::ReadError;
use std::alloc::Global;
use std::fmt;

/// A line of a trace's text.
#[derive(Drop)]
pub enum Line {
    /// The run of this number begins.
    Begin(u32),
    /// The next step of the run.
    Take(Step),
    /// The archetypes of the living entities, at the opening of the run or after the sync point before.
    There(KindSets),
}

impl fmt::Display for Line {
    ghost use Rattle.std.specs.Prelude.{Some};
    ghost use Rattle.trace_checker.specs.Grammar.{line_text};

    ghost output = { λ line. Some (line_text line) };

    fn fmt<W: fmt::Write>(&self, f: &mut fmt::Formatter<W>) -> fmt::Result {
        match self {
            Line::Begin(run) => write!(f, "R {run}"),
            Line::Take(Step::Cond(condition, true)) => write!(f, "C {condition} 1"),
            Line::Take(Step::Cond(condition, false)) => write!(f, "C {condition} 0"),
            Line::Take(Step::Start(system)) => write!(f, "S {system}"),
            Line::Take(Step::Skip(system)) => write!(f, "K {system}"),
            Line::Take(Step::Finish(system)) => write!(f, "F {system}"),
            Line::Take(Step::Sync(sync)) => write!(f, "Y {sync}"),
            Line::There(sets) => {
                let text = SetsText(sets);
                write!(f, "{text}")
            }
        }
    }
}

/// A line of archetypes.
#[derive(Clone, Copy)]
pub(crate) struct SetsText<'a>(pub &'a KindSets);

impl fmt::Display for SetsText<'_> {
    ghost use Rattle.std.specs.Prelude.{Some, ◌∷◌};
    ghost use Rattle.trace_checker.specs.Grammar.{sets_text};

    ghost output = { λ sets. Some (65 ∷ sets_text sets.0.now) };

    fn fmt<W: fmt::Write>(&self, f: &mut fmt::Formatter<W>) -> fmt::Result {
        write!(f, "A")?;
        write_numbers(f, self.0.numbers())
    }
}

// Writes numbers, a space before each.
fn write_numbers<W: fmt::Write>(f: &mut fmt::Formatter<W>, numbers: &[u32]) -> fmt::Result
    ensures { WritesOnOk W.write_str_gives f.old result (sets_text numbers.now) f.new }
{
    for number in numbers {
        write!(f, " {number}")?;
    }
    Ok(())
}

impl Line {
    /// Reads a line without its end. Only one that begins as a line of archetypes takes memory.
    pub fn read(alloc: Global, bytes: &[u8]) -> Result<Line, ReadError>
        ensures reads { ReadsUnlessMemory IsLine bytes.now result }
        ensures memory { IsErrOf result ReadError.Memory → get_or bytes.now 0 0 ≡ 65 }
    {
        if let [b'A', tail @ ..] = bytes {
            return Ok(Line::There(sets_of(alloc, tail)?));
        }
        match plain_line(bytes) {
            Some(line) => Ok(line),
            None => Err(ReadError::Outside),
        }
    }
}

// Reads a line without kind sets, without its end.
fn plain_line(bytes: &[u8]) -> Option<Line>
    requires { get_or bytes.now 0 0 ≢ 65 }
    ensures { Reads IsLine bytes.now result }
{
    match bytes {
        [b'R', b' ', number @ ..] => Some(Line::Begin(numeral_of(number)?)),
        [b'S', b' ', number @ ..] => Some(Line::Take(Step::Start(numeral_of(number)?))),
        [b'K', b' ', number @ ..] => Some(Line::Take(Step::Skip(numeral_of(number)?))),
        [b'F', b' ', number @ ..] => Some(Line::Take(Step::Finish(numeral_of(number)?))),
        [b'Y', b' ', number @ ..] => Some(Line::Take(Step::Sync(numeral_of(number)?))),
        [b'C', b' ', tail @ ..] => {
            let (condition, answer) = answer_of(tail)?;
            Some(Line::Take(Step::Cond(condition, answer)))
        }
        _ => None,
    }
}

/// Reads the number of a condition and its answer, 1 or 0 behind a space.
fn answer_of(bytes: &[u8]) -> Option<(u32, bool)>
    ensures { Reads IsAnswerTail bytes.now result }
{
    if bytes.len() < 2 {
        return None;
    }
    let (number, tail) = bytes.split_at(bytes.len() - 2);
    if tail[0] != b' ' {
        return None;
    }
    let answer = match tail[1] {
        b'1' => true,
        b'0' => false,
        _ => return None,
    };
    Some((numeral_of(number)?, answer))
}
