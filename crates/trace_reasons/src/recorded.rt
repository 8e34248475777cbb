// A run of a trace: what it records, and its lines.

use crate::past::Past;
use crate::rows::{Rows, rows_of};
use executor_core::Trace;
use std::alloc::{AllocError, Global};
use trace_checker::TextFault;
use trace_checker::read::read_traces;

/// A run of a trace.
#[derive(Drop)]
pub struct Recorded {
    /// What it records.
    pub trace: Trace,
    /// Its lines.
    pub rows: Rows,
}

/// The run of this number, counted from 1, of a trace with this text.
pub fn recorded_run(
    alloc: Global,
    text: &[u8],
    run: usize,
) -> Result<Option<Recorded>, AllocError> {
    let traces = match read_traces(alloc, text) {
        Ok(traces) => traces,
        Err(TextFault::Memory) => return Err(AllocError),
        Err(_) => return Ok(None),
    };
    let Some(rows) = rows_of(alloc, text, run)? else {
        return Ok(None);
    };
    let mut number = 0usize;
    for trace in traces {
        number = number.saturating_add(1);
        if number == run {
            return Ok(Some(Recorded { trace, rows }));
        }
    }
    Ok(None)
}

impl Recorded {
    /// The steps before one, by its place from 0.
    pub fn past(&self, place: usize) -> Past<'_> {
        let steps = self.trace.steps();
        Past {
            steps: steps.get(..place).unwrap_or(&[]),
        }
    }

    /// The archetypes that are recorded last before a step, by its place from 0, if any are.
    pub fn sets_before(&self, place: usize) -> Option<&[u32]> {
        let lists = self.trace.sets()?;
        let list = lists.get(self.past(place).syncs() as usize)?;
        Some(list.numbers())
    }
}
