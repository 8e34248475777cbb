// The words of a command that takes any number of them: its options with their values, and the others.

use crate::series_args::{Format, push};
use command_line::LineFault;
use command_line::values::number_between;
use std::alloc::{AllocError, Global};

/// An option.
#[derive(Clone, Copy, PartialEq, Eq, Debug)]
pub enum Choice {
    /// How many runs.
    Times,
    /// After how many runs each a row is told.
    Every,
    /// How rows are told.
    Format,
}

impl Choice {
    /// Its name.
    pub fn name(self) -> &'static str {
        match self {
            Choice::Times => "--times",
            Choice::Every => "--every",
            Choice::Format => "--format",
        }
    }
}

/// The words of a command.
#[derive(Drop)]
pub struct Sorted<'a> {
    /// The options that are given, with their values.
    pub given: Vec<(Choice, &'a str)>,
    /// The other words.
    pub others: Vec<&'a str>,
}

impl<'a> Sorted<'a> {
    /// Sorts the words of a command line behind the first two. The command takes these options, each once, as `--times 9` or `--times=9`.
    pub fn of(
        alloc: Global,
        words: &'a [String],
        choices: &[Choice],
    ) -> Result<Sorted<'a>, LineFault> {
        let mut sorted = Sorted {
            given: Vec::new(alloc),
            others: Vec::new(alloc),
        };
        let mut wanted = None;
        for word in words.get(2..).unwrap_or(&[]) {
            wanted = sorted.take(alloc, choices, wanted, word.as_str())?;
        }
        match wanted {
            None => Ok(sorted),
            Some(choice) => Err(of_option(alloc, choice.name(), "has no value")),
        }
    }

    // Takes a word: it is the value of the option that wants one, an option, or another word. Gives the option that wants a value then.
    fn take(
        &mut self,
        alloc: Global,
        choices: &[Choice],
        wanted: Option<Choice>,
        word: &'a str,
    ) -> Result<Option<Choice>, LineFault> {
        if let Some(choice) = wanted {
            self.give(alloc, choice, word)?;
            return Ok(None);
        }
        if !word.starts_with("--") {
            push(&mut self.others, word)?;
            return Ok(None);
        }
        match word.split_once('=') {
            Some((name, value)) => {
                let choice = choice_of(alloc, choices, name)?;
                self.give(alloc, choice, value)?;
                Ok(None)
            }
            None => Ok(Some(choice_of(alloc, choices, word)?)),
        }
    }

    // Gives an option its value, which it must not have yet.
    fn give(&mut self, alloc: Global, choice: Choice, value: &'a str) -> Result<(), LineFault> {
        if self.value(choice).is_some() {
            return Err(of_option(alloc, choice.name(), "is given twice"));
        }
        push(&mut self.given, (choice, value))?;
        Ok(())
    }

    // The value of an option, where it is given.
    fn value(&self, choice: Choice) -> Option<&'a str> {
        for (given, value) in &self.given {
            if *given == choice {
                return Some(*value);
            }
        }
        None
    }

    /// The number that is given for an option, if it is; it has to be one from `least` to `most`.
    pub fn number(
        &self,
        alloc: Global,
        choice: Choice,
        least: u32,
        most: u32,
    ) -> Result<Option<u32>, LineFault> {
        let Some(text) = self.value(choice) else {
            return Ok(None);
        };
        match number_between(text, least, most) {
            Some(number) => Ok(Some(number)),
            None => Err(misnumbered(alloc, choice, least, most)),
        }
    }

    /// How rows are told: as lines, unless a chart is asked for.
    pub fn format(&self, alloc: Global) -> Result<Format, LineFault> {
        match self.value(Choice::Format) {
            None | Some("csv") => Ok(Format::Csv),
            Some("svg") => Ok(Format::Svg),
            Some(_) => Err(of_option(alloc, "--format", "is `csv` or `svg`")),
        }
    }
}

/// Whether the words of a command line are those of the command of this name, and no help is asked for.
pub fn asks_work(words: &[String], name: &str) -> bool {
    let asked = words.get(1).is_some_and(|word| word.as_str() == name);
    asked && !words.iter().any(|word| is_help(word.as_str()))
}

// Whether a word asks for help.
fn is_help(word: &str) -> bool {
    word == "--help" || word == "-h"
}

// The option of a name, among these.
fn choice_of(alloc: Global, choices: &[Choice], name: &str) -> Result<Choice, LineFault> {
    for choice in choices {
        if choice.name() == name {
            return Ok(*choice);
        }
    }
    Err(of_option(alloc, name, "is no option of this command"))
}

// A line at fault for this of an option.
fn of_option(alloc: Global, name: &str, what: &str) -> LineFault {
    fault_of(format!(in alloc; "error: `{name}` {what}\n"))
}

// A line at fault for a number that isn't one from `least` to `most`.
fn misnumbered(alloc: Global, choice: Choice, least: u32, most: u32) -> LineFault {
    let name = choice.name();
    fault_of(format!(in alloc;
        "error: `{name}` is a number from {least} to {most}, in digits alone\n"
    ))
}

// A line at fault that is reported by a text.
fn fault_of(text: Result<String, AllocError>) -> LineFault {
    match text {
        Ok(text) => LineFault::Usage(text),
        Err(_) => LineFault::Memory,
    }
}
