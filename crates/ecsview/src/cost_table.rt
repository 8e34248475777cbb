// The table of what runs cost.

use crate::series_args::push;
use executor_core::Trace;
use model::Step;
use std::alloc::{AllocError, Global};
use std::sync::Arc;
use std::sync::atomic::Ordering;
use timing::Tally;

/// How often a system came.
#[derive(Clone, Copy)]
pub struct Count {
    /// Its starts.
    pub starts: u64,
    /// Its skips.
    pub skips: u64,
}

// What a system cost.
#[derive(Clone, Copy)]
struct Cost {
    count: Count,
    rows: u64,
    nanos: u64,
}

/// What was counted in runs.
#[derive(Drop)]
pub struct Counts {
    /// Of each system.
    pub systems: Vec<Count>,
    /// How many conditions were asked.
    pub asked: u64,
    /// How many sync points were done.
    pub syncs: u64,
    /// How many nanoseconds it took in all.
    pub nanos: u64,
}

impl Counts {
    /// Nothing so far, of so many systems.
    pub fn new(alloc: Global, count: usize) -> Result<Counts, AllocError> {
        let mut systems = Vec::with_capacity(alloc, count)?;
        for _ in 0..count {
            push(
                &mut systems,
                Count {
                    starts: 0,
                    skips: 0,
                },
            )?;
        }
        Ok(Counts {
            systems,
            asked: 0,
            syncs: 0,
            nanos: 0,
        })
    }

    /// Adds time.
    pub fn spend(&mut self, nanos: u64) {
        self.nanos = self.nanos.saturating_add(nanos);
    }

    /// Adds the steps of these runs.
    pub fn add(&mut self, traces: &[Trace]) {
        for trace in traces {
            for step in trace.steps() {
                self.step(*step);
            }
        }
    }

    // Adds a step.
    fn step(&mut self, step: Step) {
        match step {
            Step::Cond(..) => self.asked = self.asked.saturating_add(1),
            Step::Sync(_) => self.syncs = self.syncs.saturating_add(1),
            Step::Start(system) => self.come(system, 1, 0),
            Step::Skip(system) => self.come(system, 0, 1),
            Step::Finish(_) => {}
        }
    }

    // Adds starts and skips of a system.
    fn come(&mut self, system: u32, starts: u64, skips: u64) {
        let number = system as usize;
        if number < self.systems.len() {
            let count = self.systems[number];
            self.systems[number] = Count {
                starts: count.starts.saturating_add(starts),
                skips: count.skips.saturating_add(skips),
            };
        }
    }
}

// How wide the columns are.
const NAME: usize = 32;

const NUMBER: usize = 12;

/// The table of so many runs: a line for each system, and what all took.
pub fn table_of(
    alloc: Global,
    times: u32,
    names: &[&str],
    counts: &Counts,
    tallies: &[Arc<Tally, Global>],
) -> Result<String, AllocError> {
    let mut text = String::new(alloc);
    writeln!(
        text,
        "runs {times}, on one thread; times are measured, and no two calls give the same"
    )?;
    push_left(&mut text, "system")?;
    for head in &["starts", "skips", "rows/start", "us", "ns/start", "share"] {
        push_right(&mut text, head)?;
    }
    text.push_str("\n")?;
    let mut bodies = 0u64;
    for (number, name) in names.iter().enumerate() {
        if let (Some(count), Some(tally)) = (counts.systems.get(number), tallies.get(number)) {
            let nanos = tally.nanos.load(Ordering::SeqCst);
            let cost = Cost {
                count: *count,
                rows: tally.rows.load(Ordering::SeqCst),
                nanos,
            };
            push_system(alloc, &mut text, name, cost, counts.nanos)?;
            bodies = bodies.saturating_add(nanos);
        }
    }
    let rest = counts.nanos.saturating_sub(bodies);
    let (asked, syncs) = (counts.asked, counts.syncs);
    push_sum(alloc, &mut text, "all systems", bodies, counts.nanos)?;
    push_sum(alloc, &mut text, "all else", rest, counts.nanos)?;
    writeln!(
        text,
        "all else: {asked} conditions, {syncs} sync points, and the choice of what starts and of its rows"
    )?;
    Ok(text)
}

// Adds the line of a system.
fn push_system(
    alloc: Global,
    text: &mut String,
    name: &str,
    cost: Cost,
    whole: u64,
) -> Result<(), AllocError> {
    let Cost { count, rows, nanos } = cost;
    let Count { starts, skips } = count;
    push_left(text, name)?;
    push_right(text, format!(in alloc; "{starts}")?.as_str())?;
    push_right(text, format!(in alloc; "{skips}")?.as_str())?;
    let tenths = u128::from(rows) * 10 / u128::from(starts.max(1));
    push_right(text, tenths_of(alloc, tenths, "")?.as_str())?;
    push_times(alloc, text, nanos)?;
    let each = nanos / starts.max(1);
    push_right(text, format!(in alloc; "{each}")?.as_str())?;
    push_share(alloc, text, nanos, whole)
}

// Adds the line of a sum.
fn push_sum(
    alloc: Global,
    text: &mut String,
    name: &str,
    nanos: u64,
    whole: u64,
) -> Result<(), AllocError> {
    push_left(text, name)?;
    for _ in 0..3 {
        push_right(text, "")?;
    }
    push_times(alloc, text, nanos)?;
    push_right(text, "")?;
    push_share(alloc, text, nanos, whole)
}

// Adds microseconds.
fn push_times(alloc: Global, text: &mut String, nanos: u64) -> Result<(), AllocError> {
    let micros = nanos / 1000;
    push_right(text, format!(in alloc; "{micros}")?.as_str())
}

// Adds the share of a time in another, and ends the line.
fn push_share(alloc: Global, text: &mut String, nanos: u64, whole: u64) -> Result<(), AllocError> {
    let tenths = u128::from(nanos) * 1000 / u128::from(whole.max(1));
    push_right(text, tenths_of(alloc, tenths, "%")?.as_str())?;
    text.push_str("\n")?;
    Ok(())
}

// A number of tenths, with one place behind the point, and a unit.
fn tenths_of(alloc: Global, tenths: u128, unit: &str) -> Result<String, AllocError> {
    let (whole, part) = (tenths / 10, tenths % 10);
    format!(in alloc; "{whole}.{part}{unit}")
}

// Adds a word, and spaces behind it up to the width of a name.
fn push_left(text: &mut String, word: &str) -> Result<(), AllocError> {
    text.push_str(word)?;
    push_spaces(text, NAME.saturating_sub(word.len()))
}

// Adds a word, and spaces before it up to the width of a number: one at least.
fn push_right(text: &mut String, word: &str) -> Result<(), AllocError> {
    push_spaces(text, NUMBER.saturating_sub(word.len()).max(1))?;
    text.push_str(word)?;
    Ok(())
}

// Adds so many spaces.
fn push_spaces(text: &mut String, count: usize) -> Result<(), AllocError> {
    for _ in 0..count {
        text.push_str(" ")?;
    }
    Ok(())
}
