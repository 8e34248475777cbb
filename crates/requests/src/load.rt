// The request behind which the text of a state follows.

ghost use Rattle.parsing.specs.Reads.{Reads};
ghost use Rattle.requests.specs.Load.{EndsLoad, IsBehindLoad, IsLoad};

use parsing::integer::read_number;
use parsing::words::is_blank;
use tokens::first_word::first_word;

/// A host asks that the state becomes the one whose text follows.
#[derive(Clone, Copy, PartialEq, Eq, Debug)]
pub struct Load {
    /// How many lines follow.
    pub lines: u32,
    /// Whether the state may be one of another program file.
    pub anyway: bool,
}

/// Reads `load`, how many lines follow, and `anyway`, if the line has it: one or more spaces between, and any number
/// at either end. None for any other line. It takes no memory, so that the lines that follow are never taken for
/// requests.
pub fn read_load(line: &str) -> Option<Load>
    ensures { Reads IsLoad line.now result }
{
    match first_word(line)? {
        ("load", rest) => behind_load(rest),
        _ => None,
    }
}

// What stands behind the word `load`.
fn behind_load(text: &str) -> Option<Load>
    ensures { Reads IsBehindLoad text.now result }
{
    let (lines, rest) = first_word(text)?;
    Some(Load {
        lines: read_number(lines)?,
        anyway: end_of_load(rest)?,
    })
}

// Whether `anyway` ends the request; none where something else does.
fn end_of_load(text: &str) -> Option<bool>
    ensures { Reads EndsLoad text.now result }
{
    let Some((word, rest)) = first_word(text) else {
        return Some(false);
    };
    if word == "anyway" && is_blank(rest) {
        return Some(true);
    }
    None
}
