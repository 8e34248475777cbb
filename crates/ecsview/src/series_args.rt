// The words of the command `series`.

ghost use Rattle.std.specs.Prelude.{◌≡◌, [], ◌∷◌, ◌++◌, IfOk, OnOk};
ghost use Rattle.ecsview.specs.SeriesAsked.{AreNamed, IsFitting};

use crate::sorted::{Choice, Sorted};
use command_line::LineFault;
use kinds::{Kind, Res};
use series::Series;
use series::reading::NameFault;
use std::alloc::{AllocError, Global};
use strsim::osa_distance;

/// How rows are told.
#[derive(Clone, Copy, PartialEq, Eq, Debug)]
pub enum Format {
    /// As lines with commas between the values.
    Csv,
    /// As a chart.
    Svg,
}

/// What `series` is asked for.
#[derive(Drop)]
pub struct SeriesArgs<'a> {
    /// The path of the program file.
    pub file: &'a str,
    /// How many runs at most.
    pub times: u32,
    /// After how many runs each a row is told.
    pub every: u32,
    /// How rows are told.
    pub format: Format,
    /// The names of the series.
    pub names: Vec<&'a str>,
    /// The series.
    pub series: Vec<Series>,
}

// How many runs there are at most, how many rows behind the first, and how many series.
const MOST_TIMES: u32 = 1_000_000;

const MOST_ROWS: u32 = 100_000;

const MOST_SERIES: usize = 16;

// What is told where words are missing, or there would be too many rows.
const NEEDS: &str =
    "error: `series` needs FILE, `--times N` and 1 to 16 names of series: `ecsview series --help` tells more\n";

const MANY: &str = "error: there would be more than 100000 rows: have a larger K in `--every K`\n";

impl<'a> SeriesArgs<'a> {
    /// Reads the words of a command line, of which the first are the program's own name and `series`: FILE and one to 16 names, `--times N`, and perhaps
    /// `--every K`, and `--format` with `csv` or `svg`.
    pub fn read(alloc: Global, words: &'a [String]) -> Result<SeriesArgs<'a>, LineFault>
        ensures { IfOk result IsFitting }
    {
        let sorted = Sorted::of(
            alloc,
            words,
            &[Choice::Times, Choice::Every, Choice::Format],
        )?;
        let times = sorted.number(alloc, Choice::Times, 0, MOST_TIMES)?;
        let every = sorted.number(alloc, Choice::Every, 1, MOST_TIMES)?;
        let every = every.unwrap_or(1).max(1);
        let format = sorted.format(alloc)?;
        let Sorted { others, given: _ } = sorted;
        let (Some(times), [file, names @ ..]) = (times, others.as_slice()) else {
            return Err(LineFault::usage(alloc, NEEDS));
        };
        if names.is_empty() || MOST_SERIES < names.len() {
            return Err(LineFault::usage(alloc, NEEDS));
        }
        if MOST_ROWS < times / every {
            return Err(LineFault::usage(alloc, MANY));
        }
        let (names, series) = series_of(alloc, names)?;
        Ok(SeriesArgs {
            file: *file,
            times,
            every,
            format,
            names,
            series,
        })
    }
}

// The series of these names.
fn series_of<'a>(alloc: Global, words: &[&'a str]) -> Result<(Vec<&'a str>, Vec<Series>), LineFault>
    ensures { IfOk result (λ both. AreNamed both.1.items both.0.items) }
{
    let mut names = Vec::new(alloc);
    let mut series = Vec::new(alloc);
    for word in words {
        match Series::read(alloc, word) {
            Ok(one) => push(&mut series, one)?,
            Err(fault) => return Err(misnamed(alloc, word, fault)),
        }
        push(&mut names, *word)?;
    }
    Ok((names, series))
}

/// Adds an item.
pub fn push<T: Drop>(items: &mut Vec<T>, item: T) -> Result<(), AllocError>
    ensures { OnOk result (items.new.items ≡ items.old.items ++ item ∷ []) }
{
    items.push(item)?;
    Ok(())
}

// What is told of a text that names no series.
fn misnamed(alloc: Global, word: &str, fault: NameFault) -> LineFault {
    match line_of(alloc, word, fault) {
        Ok(line) => LineFault::Usage(line),
        Err(_) => LineFault::Memory,
    }
}

// The line of it.
fn line_of(alloc: Global, word: &str, fault: NameFault) -> Result<String, AllocError> {
    let mut line = String::new(alloc);
    write!(line, "error: `{word}` names no series: ")?;
    match fault {
        NameFault::Unknown => {
            line.push_str("it is no resource, no `count(QUERY)` and no `sum(KIND.FIELD)`")?;
            push_similar_parts(alloc, &mut line, word)?;
        }
        NameFault::Query => {
            line.push_str("what is counted is no query")?;
            push_similar_parts(alloc, &mut line, word)?;
        }
        NameFault::BadQuery => line.push_str("the query has terms that contradict one another")?,
        NameFault::New => line.push_str("`added` and `changed` can't be counted")?,
        NameFault::Field => {
            line.push_str("what is summed is no field of a kind")?;
            push_similar_parts(alloc, &mut line, word)?;
        }
        NameFault::Memory => return Err(AllocError),
    }
    line.push_str("\n")?;
    Ok(line)
}

// The words of queries and series, beside the names of kinds and resources.
const WORDS: [&str; 9] = [
    "count", "sum", "entity", "read", "mut", "opt", "with", "without", "changed",
];

// Adds the names that are similar to the words of a text, each behind a semicolon.
fn push_similar_parts(alloc: Global, line: &mut String, text: &str) -> Result<(), AllocError> {
    for word in text.split(|letter: char| !letter.is_ascii_alphabetic()) {
        push_similar(alloc, line, word)?;
    }
    Ok(())
}

// Words that are longer have no similar names, nor have those of fewer letters.
const MOST_LETTERS: usize = 96;

const LEAST_LETTERS: usize = 3;

// Adds the name that is nearest to a word, where one is similar and none is the word itself.
fn push_similar(alloc: Global, line: &mut String, word: &str) -> Result<(), AllocError> {
    if word.len() < LEAST_LETTERS || MOST_LETTERS < word.len() {
        return Ok(());
    }
    let mut nearest = ("", word.len() / 3 + 1);
    for res in &Res::ALL {
        nearest = nearer(alloc, word, res.name(), nearest)?;
    }
    for kind in &Kind::ALL {
        nearest = nearer(alloc, word, kind.name(), nearest)?;
    }
    for name in &WORDS {
        nearest = nearer(alloc, word, name, nearest)?;
    }
    let (name, distance) = nearest;
    if distance == 0 || name.is_empty() {
        return Ok(());
    }
    write!(line, "; `{name}` is similar")
}

// The nearer of a name and of one that is so far from a word.
fn nearer<'n>(
    alloc: Global,
    word: &str,
    name: &'n str,
    nearest: (&'n str, usize),
) -> Result<(&'n str, usize), AllocError> {
    let distance = osa_distance(alloc, word, name)?;
    if distance < nearest.1 {
        Ok((name, distance))
    } else {
        Ok(nearest)
    }
}
