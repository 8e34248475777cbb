// The record of runs: the text of their traces, while that may be written.

ghost use Rattle.std.specs.Prelude.{◌≡◌, ◌<◌, ◌+◌, ◌^◌, ◌∷◌, ◌++◌, [], List, length, IfOk};
ghost use Rattle.model.specs.steps.Schedule.{Recorded};
ghost use Rattle.program.specs.Recorded.{IsKeptOf};

use crate::checking::MOST_TRACE_BYTES;
use executor_core::Trace;
use std::alloc::AllocError;
use trace_checker::write::push_run;

/// The record with these runs behind those that it has: none where their text has more than 67,108,864 bytes.
pub fn note_all(
    text: Option<String>,
    before: u32,
    traces: &[Trace],
) -> Result<Option<String>, AllocError>
    requires { before + length traces.now < 2 ^ 32 }
    ensures { IfOk result (λ kept. (others : List Recorded) → length others ≡ before
        → IsKeptOf others text → IsKeptOf (others ++ traces.now) kept) }
{
    let Some((trace, others)) = traces.split_first() else {
        return Ok(text);
    };
    let text = note(text, before + 1, trace)?;
    note_all(text, before + 1, others)
}

// What is kept of a record once the run of this number stands behind those that it has.
fn note(text: Option<String>, number: u32, trace: &Trace) -> Result<Option<String>, AllocError>
    ensures { IfOk result (λ kept. (others : List Recorded) → length others + 1 ≡ number
        → IsKeptOf others text → IsKeptOf (others ++ trace.now ∷ []) kept) }
{
    let Some(mut text) = text else {
        return Ok(None);
    };
    push_run(&mut text, number, trace)?;
    if text.as_bytes().len() > MOST_TRACE_BYTES {
        return Ok(None);
    }
    Ok(Some(text))
}
