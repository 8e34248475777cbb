// The rows of series over the runs of an engine.

ghost use Rattle.std.specs.Prelude.{◌≡◌, ◌≤◌, [], ◌∷◌, ◌++◌, IfErr, IfOk, IsFalse, OnOk};
ghost use Rattle.engine.specs.Meanings.{meanings};
ghost use Rattle.series.specs.declared.rows.Row.{Row};
ghost use Rattle.series.specs.Rows.{AreRows, AreStoppedWithin, IsRowOf, LeadOn};

use crate::series::{Series, values_in};
use body::{Body, State};
use engine::{Engine, RunFault};
use std::alloc::{AllocError, Global};

/// The values of series after so many runs.
#[derive(Drop)]
pub struct Row {
    /// How many runs came before.
    pub run: u32,
    /// The values, in order.
    pub values: Vec<i64>,
}

// How many runs one call of the engine takes: the steps of these runs stand in memory.
const RUNS_AT_ONCE: u32 = 256;

/// Runs the schedule on this thread, and gives the values of series before the first run, and after each `every` runs as long as there are no more than
/// `times`.
pub fn rows_of_runs<B: Body>(
    alloc: Global,
    engine: &mut Engine<B>,
    series: &[Series],
    times: u32,
    every: u32,
) -> Result<Vec<Row>, RunFault>
    requires sound { IsFalse engine.old.spoiled }
    requires some { 1 ≤ every }
    ensures rows { IfOk result (λ rows. AreRows engine.old.schedule
        (meanings B.meaning engine.old.schedule engine.old.bodies) series.now every times
        engine.old.state rows.items) }
    ensures stopped { IfErr result (AreStoppedWithin engine.old.schedule
        (meanings B.meaning engine.old.schedule engine.old.bodies) times engine.old.state) }
{
    let mut rows = Vec::new(alloc);
    add_row(alloc, &mut rows, 0, series, engine.state())?;
    let mut run = 0;
    while every <= times - run {
        run_on(alloc, engine, every)?;
        run += every;
        add_row(alloc, &mut rows, run, series, engine.state())?;
    }
    Ok(rows)
}

// Adds the row of a state behind so many runs.
fn add_row(
    alloc: Global,
    rows: &mut Vec<Row>,
    run: u32,
    series: &[Series],
    state: &State,
) -> Result<(), AllocError>
    ensures { OnOk result ((row : Row) × IsRowOf series.now run state.now row
        × (rows.new.items ≡ rows.old.items ++ row ∷ [])) }
{
    let values = values_in(alloc, series, state.world())?;
    rows.push(Row { run, values })?;
    Ok(())
}

// Runs the schedule so many times more.
fn run_on<B: Body>(alloc: Global, engine: &mut Engine<B>, times: u32) -> Result<(), RunFault>
    requires { IsFalse engine.old.spoiled }
    ensures led { OnOk result (LeadOn engine.old.schedule
        (meanings B.meaning engine.old.schedule engine.old.bodies) times engine.old.state
        engine.new.state) }
    ensures schedule { engine.new.schedule ≡ engine.old.schedule }
    ensures meant { OnOk result (meanings B.meaning engine.old.schedule engine.new.bodies
        ≡ meanings B.meaning engine.old.schedule engine.old.bodies) }
    ensures sound { OnOk result (IsFalse engine.new.spoiled) }
    ensures stopped { IfErr result (AreStoppedWithin engine.old.schedule
        (meanings B.meaning engine.old.schedule engine.old.bodies) times engine.old.state) }
{
    let mut done = 0;
    while done < times {
        let count = (times - done).min(RUNS_AT_ONCE);
        engine.run_here(alloc, count)?;
        done += count;
    }
    Ok(())
}
