// Which runs of a record are drawn, as a command line asks for them.

ghost use Rattle.std.specs.Prelude.{◌≡◌, ◌==◌, codes};
ghost use Rattle.std.specs.List.{after_first, before_first};
ghost use Rattle.clap.specs.Words.{first_of, found_of, rows_of};
ghost use Rattle.ecsview.specs.Part.{part_asked, part_spelled};

use clap::ArgMatches;
use command_line::values::number_between;

/// Some runs of a record: the first and the last, counted from 1.
#[derive(Clone, Copy, PartialEq, Eq, Debug)]
pub struct Part {
    /// The first.
    pub first: u32,
    /// The last.
    pub last: u32,
}

// Where none are named, these are drawn.
const FIRST_RUNS: Part = Part { first: 1, last: 50 };

/// The runs that `--runs A..B` names, from A to B; the first 50 where it is left out. None where it isn't of that form.
pub(crate) fn part_of(found: &ArgMatches<'_>) -> Option<Part>
    ensures { result ≡ part_asked (first_of (codes "runs") (rows_of (found_of found.now))) }
{
    match found.get_str("runs") {
        Some(text) => part_in(text),
        None => Some(FIRST_RUNS),
    }
}

// The runs that a text spells.
fn part_in(text: &str) -> Option<Part>
    ensures { result ≡ part_spelled text.now }
{
    let (first, rest) = at_dot(text);
    let (between, last) = at_dot(rest);
    if !between.is_empty() {
        return None;
    }
    let first = number_between(first, 1, u32::MAX)?;
    let last = number_between(last, first, u32::MAX)?;
    Some(Part { first, last })
}

// What comes before the first dot of a text, and behind it.
#[tactic(auto, using(std::proofs::lemmas::Str::Pattern::split_once_first))]
fn at_dot(text: &str) -> (&str, &str)
    ensures before { result.0.now ≡ before_first (λ b. b == 46) text.now }
    ensures behind { result.1.now ≡ after_first (λ b. b == 46) text.now }
{
    match text.split_once('.') {
        Some((before, behind)) => (before, behind),
        None => (text, ""),
    }
}
