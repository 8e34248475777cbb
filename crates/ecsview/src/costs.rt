// What new runs of a file cost, measured.

ghost use Rattle.std.specs.Prelude.{◌≡◌};

use crate::cost_table::{Counts, table_of};
use crate::meanings::print;
use crate::series_args::push;
use crate::series_view::fault_of;
use crate::sorted::{Choice, Sorted};
use command_line::LineFault;
use engine::Engine;
use findings::Loaded;
use findings::loading::{load, opening};
use program::Fault;
use program::file::bytes_of;
use program::serve::tell;
use program_file::document_of;
use schedule_builder::Built;
use script::ScriptBody;
use std::alloc::{AllocError, Global};
use std::io::{Read, Write};
use std::sync::Arc;
use std::time::{Clock, Instant};
use timing::{Tally, Timed, nanos_since};

/// What `cost` is asked for.
#[derive(Clone, Copy)]
pub struct CostArgs<'a> {
    /// The path of the program file.
    pub file: &'a str,
    /// How many runs.
    pub times: u32,
}

// How many runs there are at most.
const MOST_TIMES: u32 = 1_000_000;

// How many runs one call of the engine takes: the steps of these runs stand in memory.
const RUNS_AT_ONCE: u32 = 256;

impl<'a> CostArgs<'a> {
    /// Reads the words of a command line, of which the first are the program's own name and `cost`: FILE and `--times N`.
    pub fn read(alloc: Global, words: &'a [String]) -> Result<CostArgs<'a>, LineFault> {
        let sorted = Sorted::of(alloc, words, &[Choice::Times])?;
        let times = sorted.number(alloc, Choice::Times, 1, MOST_TIMES)?;
        let Sorted { others, given: _ } = sorted;
        match (times, others.as_slice()) {
            (Some(times), [file]) => Ok(CostArgs { file: *file, times }),
            _ => Err(LineFault::usage(
                alloc,
                "error: `cost` needs FILE and `--times N`: `ecsview cost --help` tells more\n",
            )),
        }
    }
}

/// Measures new runs of a program file, on this thread, and prints what each system took. The text goes to `out`, whole; what goes wrong is reported to
/// `faults` in one line, and then nothing is printed. Gives the exit status.
pub fn view_costs<C: Clock + Send + Drop + Copy, F: Read, O: Write, E: Write>(
    alloc: Global,
    clock: C,
    args: &CostArgs<'_>,
    file: &mut F,
    out: &mut O,
    faults: &mut E,
) -> u8 {
    match cost_text(alloc, clock, args.times, file) {
        Ok(text) => print(alloc, text.as_str(), out, faults),
        Err(fault) => tell(alloc, faults, &fault),
    }
}

// What so many runs of a file cost.
fn cost_text<C: Clock + Send + Drop + Copy, F: Read>(
    alloc: Global,
    clock: C,
    times: u32,
    file: &mut F,
) -> Result<String, Fault> {
    let bytes = bytes_of(alloc, file)?;
    let document = document_of(alloc, bytes.as_slice())?;
    let Loaded { file, sets: _ } = load(alloc, &document)?;
    let first = opening(
        alloc,
        &file.built,
        file.entities.as_slice(),
        &file.resources,
    )?;
    let program::Loaded {
        built,
        names,
        bodies,
        entities: _,
        resources: _,
    } = file;
    let tallies = tallies_of(alloc, bodies.len())?;
    let bodies = timed_of(alloc, clock, &built, bodies, tallies.as_slice())?;
    // As many bodies as systems, and each fits: what stops this is memory.
    let Ok(mut engine) = Engine::new(alloc, built, bodies, first) else {
        return Err(Fault::Memory);
    };
    let mut counts = Counts::new(alloc, names.len())?;
    run_measured(alloc, clock, &mut engine, times, &mut counts)?;
    Ok(table_of(alloc, times, names.as_slice(), &counts, tallies.as_slice())?)
}

// A tally for each of so many systems.
fn tallies_of(alloc: Global, count: usize) -> Result<Vec<Arc<Tally, Global>>, AllocError> {
    let mut tallies = Vec::with_capacity(alloc, count)?;
    for _ in 0..count {
        push(&mut tallies, Arc::new(alloc, Tally::new())?)?;
    }
    Ok(tallies)
}

// Bodies round these, each with a tally of its own.
fn timed_of<C: Clock + Send + Drop + Copy>(
    alloc: Global,
    clock: C,
    built: &Built,
    bodies: Vec<ScriptBody>,
    tallies: &[Arc<Tally, Global>],
) -> Result<Vec<Timed<ScriptBody, C>>, AllocError> {
    let mut timed = Vec::with_capacity(alloc, bodies.len())?;
    let mut number = 0u32;
    for inner in bodies {
        let Some(tally) = tallies.get(number as usize) else {
            break;
        };
        let queries = queries_of(built, number);
        let tally = tally.clone()?;
        push(
            &mut timed,
            Timed {
                inner,
                clock,
                queries,
                tally,
            },
        )?;
        number = number.saturating_add(1);
    }
    Ok(timed)
}

// How many queries a system has.
fn queries_of(built: &Built, system: u32) -> usize {
    if system < built.count() {
        built.params(system).queries().len()
    } else {
        0
    }
}

// Runs the schedule so many times, and counts what was done.
fn run_measured<C: Clock + Send + Drop + Copy>(
    alloc: Global,
    clock: C,
    engine: &mut Engine<Timed<ScriptBody, C>>,
    times: u32,
    counts: &mut Counts,
) -> Result<(), Fault> {
    let mut done = 0;
    while done < times {
        let count = (times - done).min(RUNS_AT_ONCE);
        let begun = Instant::now(&clock);
        let traces = match engine.run_here(alloc, count) {
            Ok(traces) => traces,
            Err(fault) => return Err(fault_of(fault)),
        };
        counts.spend(nanos_since(&clock, begun));
        counts.add(traces.as_slice());
        done += count;
    }
    Ok(())
}
