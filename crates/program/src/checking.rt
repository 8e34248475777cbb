// What a schedule says of a trace that is read.

ghost use Rattle.std.specs.Prelude.{◌≡◌, string_bytes, IfOk, IfErr, IfSome, OnOk};
ghost use Rattle.std.specs.List.{list_all};
ghost use Rattle.trace_checker.specs.Grammar.{AreFitting, trace_text};
ghost use Rattle.trace_checker.specs.Verdicts.{is_complete};
ghost use Rattle.program.specs.Checked.{IsCheckOf};
ghost use Rattle.program.specs.Fault.{fault_of_trace};
ghost use Rattle.program.specs.Refused.{IsTraceUnread};
ghost use Rattle.program.specs.Said.{IsShortTrace};

use crate::answer::Answer;
use crate::fault::Fault;
use executor_core::Trace;
use printing::check::text_of_check;
use schedule_builder::Built;
use std::alloc::Global;
use std::io::Read;
use streams::ReadFault;
use streams::reading::read_whole;
use trace_checker::Verdict;
use trace_checker::check::check_all;
use trace_checker::read::read_traces;

/// No text of traces has more bytes, read or written.
pub const MOST_TRACE_BYTES: usize = 67_108_864;

/// What a schedule says of each run of a trace, a line for each. The exit status is 0 where all of them are complete.
pub fn check_trace<T: Read>(alloc: Global, built: &Built, trace: &mut T) -> Result<Answer, Fault>
    ensures done { IfOk result (λ answer. IsCheckOf built.now (T.remaining trace.old) answer.status
        (string_bytes answer.text)) }
    ensures refused { IfErr result (IsTraceUnread (T.remaining trace.old)) }
{
    let traces = traces_of(alloc, trace)?;
    let verdicts = check_all(alloc, built, traces.as_slice())?;
    let text = text_of_check(alloc, verdicts.as_slice())?;
    let status = if are_complete(verdicts.as_slice()) {
        0
    } else {
        1
    };
    Ok(Answer {
        text,
        traces: String::new(alloc),
        status,
    })
}

/// The traces that a reader has, at most 67,108,864 bytes.
pub fn traces_of<T: Read>(alloc: Global, trace: &mut T) -> Result<Vec<Trace>, Fault>
    ensures fitting { IfOk result (λ traces. AreFitting traces.items) }
    ensures within { OnOk result (IfSome (T.remaining trace.old) IsShortTrace) }
    ensures read { IfOk result (λ traces. IfSome (T.remaining trace.old) (λ bytes. bytes
        ≡ trace_text traces.items)) }
    ensures refused { IfErr result (IsTraceUnread (T.remaining trace.old)) }
{
    let bytes = match read_whole(alloc, trace, MOST_TRACE_BYTES) {
        Ok(bytes) => bytes,
        Err(fault) => return Err(fault_of_trace(fault)),
    };
    Ok(read_traces(alloc, bytes.as_slice())?)
}

// What is told where a trace is not read to its end.
fn fault_of_trace(fault: ReadFault) -> Fault
    ensures { result ≡ fault_of_trace fault }
{
    match fault {
        ReadFault::TooLong => Fault::TraceTooLong,
        ReadFault::Failed => Fault::File,
        ReadFault::Memory => Fault::Memory,
    }
}

// Whether all runs are complete.
fn are_complete(verdicts: &[Verdict]) -> bool
    ensures { result ≡ list_all is_complete verdicts.now }
{
    verdicts.iter().all(|verdict| verdict.is_complete())
}
