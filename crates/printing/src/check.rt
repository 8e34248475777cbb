// The text of what a schedule says of runs.

ghost use Rattle.std.specs.Prelude.{◌≡◌, ◌++◌, OnOk, IfOk, string_bytes};
ghost use Rattle.printing.specs.CheckText.{verdict_line, check_text};

use std::alloc::{AllocError, Global};
use trace_checker::Verdict;

/// The text of the verdicts on runs, a line for each: `run N complete`, `run N unfinished` or `run N bad STEP SK`. N
/// is from 1; STEP is the number of the step at fault, and K that of the fault.
pub fn text_of_check(alloc: Global, verdicts: &[Verdict]) -> Result<String, AllocError>
    ensures { IfOk result (λ text. string_bytes text ≡ check_text verdicts.now) }
{
    let mut text = String::new(alloc);
    let mut number = 0;
    for verdict in verdicts {
        number += 1;
        push_verdict(&mut text, number, *verdict)?;
    }
    Ok(text)
}

// Adds the line of a run.
fn push_verdict(text: &mut String, number: usize, verdict: Verdict) -> Result<(), AllocError>
    ensures { OnOk result (string_bytes text.new
        ≡ string_bytes text.old ++ verdict_line number verdict) }
{
    writeln!(text, "run {number} {verdict}")
}
