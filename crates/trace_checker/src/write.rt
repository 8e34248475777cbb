// The text of traces.

ghost use Rattle.std.specs.Prelude.{◌≡◌, ◌<◌, ◌≤◌, ◌^◌, ◌++◌, ◌∷◌, [], length, string_bytes, IfOk, OnOk, IsErrOf};
ghost use Rattle.trace_checker.specs.Grammar.{AreAlike, AreWithin, lines_text, run_lines, sets_line, trace_text};

use crate::line::{Line, SetsText};
use executor_core::Trace;
use model::Step;
use std::alloc::{AllocError, Global};
use thiserror::Error;

/// Why no text is written.
#[derive(Clone, Copy, PartialEq, Eq, Debug, Error)]
pub enum WriteFault {
    /// The text would be longer than it may be.
    #[error("the text would be too long")]
    TooLong,
    /// An allocation failed.
    #[error("an allocation fails")]
    Memory,
}

impl From<AllocError> for WriteFault {
    ghost use Rattle.std.specs.Prelude.{◌≡◌};
    ghost use Rattle.trace_checker.specs.declared.write.WriteFault.TheVariants.{Memory};

    ghost from_gives = { λ _ e. e ≡ Memory };

    fn from(_error: AllocError) -> WriteFault {
        WriteFault::Memory
    }
}

/// The text of traces, all of which record archetypes or none, which has at most `limit` bytes. It ends with the first run that passes them.
pub fn text_of_traces(alloc: Global, traces: &[Trace], limit: usize) -> Result<String, WriteFault>
    requires count { length traces.now < 2 ^ 32 }
    requires alike { AreAlike traces.now }
    ensures written { IfOk result (λ text. string_bytes text ≡ trace_text traces.now) }
    ensures within { IfOk result (λ text. length (string_bytes text) ≤ limit) }
    ensures long { IsErrOf result WriteFault.TooLong → limit < length (trace_text traces.now) }
{
    let mut text = String::new(alloc);
    let mut number = 0;
    for trace in traces {
        number += 1;
        push_run(&mut text, number, trace)?;
        if text.as_bytes().len() > limit {
            return Err(WriteFault::TooLong);
        }
    }
    Ok(text)
}

/// Adds the lines of a run of this number to a text.
pub fn push_run(text: &mut String, number: u32, trace: &Trace) -> Result<(), AllocError>
    ensures { OnOk result (string_bytes text.new
        ≡ string_bytes text.old ++ lines_text (run_lines number trace.now)) }
{
    trace.prove_law();
    let steps = trace.steps();
    push_line(text, Line::Begin(number))?;
    push_sets(text, trace, 0)?;
    let mut place = 0;
    for step in steps {
        push_line(text, Line::Take(*step))?;
        if let Step::Sync(_) = step {
            place += 1;
            push_sets(text, trace, place)?;
        }
    }
    Ok(())
}

// Adds the line of the kind sets that a run records at a place, where it records them.
fn push_sets(text: &mut String, trace: &Trace, place: usize) -> Result<(), AllocError>
    requires { AreWithin place trace.now.sets }
    ensures { OnOk result (string_bytes text.new
        ≡ string_bytes text.old ++ lines_text (sets_line trace.now.sets place)) }
{
    let Some(lists) = trace.sets() else {
        return Ok(());
    };
    let sets = SetsText(&lists[place]);
    writeln!(text, "{sets}")
}

// Adds a line and its end.
fn push_line(text: &mut String, line: Line) -> Result<(), AllocError>
    ensures { OnOk result (string_bytes text.new
        ≡ string_bytes text.old ++ lines_text (line ∷ [])) }
{
    writeln!(text, "{line}")
}
