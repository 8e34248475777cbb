// Traces are read from their text.

ghost use Rattle.std.specs.Prelude.{ℕ, suc, ◌<◌, ◌≡◌, ◌++◌, ◌∷◌, [], List, length, get_or, true, false, IfOk, IfErr, IsTrue, ◌↔◌, IsErrOf};
ghost use Rattle.std.specs.List.{position};
ghost use Rattle.parsing.specs.Reads.{SpellsNone, SpellsOnly};
ghost use Rattle.model.specs.steps.Schedule.{Recorded};
ghost use Rattle.trace_checker.specs.Grammar.{is_end, AreFitting, IsLineBefore, lines_from, trace_text};
ghost use Rattle.trace_checker.specs.declared.line.Line.TheVariants.{Begin, Take, There};
ghost use Rattle.trace_checker.specs.declared.read.Due.TheVariants.{Nothing};
ghost use Rattle.trace_checker.specs.TextFaults.{AreBegun, IsLineFault, IsListsFault, IsOrderFault, IsOutOfOrder, begun_runs, fault_of_line, is_due, is_listed, is_misplaced, lines_so_far};

use crate::line::Line;
use executor_core::Trace;
use model::{KindSets, Step};
use parsing::ReadError;
use std::alloc::{AllocError, AllocFailed, Global};
use thiserror::Error;

/// Why a text is not read. Lines are counted from 1, and the first line at fault is reported, for one line the first of these faults.
#[derive(Clone, Copy, PartialEq, Eq, Debug, Error)]
pub enum TextFault {
    /// This line is outside the grammar, or is the last one and has no end.
    #[error("line {0} is no line of a trace")]
    Line(usize),
    /// This line begins another run than the next one, or is a step before any run.
    #[error("line {0} is out of order")]
    Order(usize),
    /// At this line archetypes are wanted and it has none or is missing, or it has them where none are wanted. They
    /// are wanted behind the line that begins a run and behind that of a sync point. This is so only where the second
    /// line of the text begins as one of them.
    #[error("line {0} is where kind sets are wanted, or tells them where none are")]
    Lists(usize),
    /// An allocation failed: nothing is said of the text.
    #[error("an allocation fails")]
    Memory,
}

impl From<AllocError> for TextFault {
    ghost use Rattle.std.specs.Prelude.{◌≡◌};
    ghost use Rattle.trace_checker.specs.declared.read.TextFault.TheVariants.{Memory};

    ghost from_gives = { λ _ e. e ≡ Memory };

    fn from(_error: AllocError) -> TextFault {
        TextFault::Memory
    }
}

impl<T: Drop> From<AllocFailed<T>> for TextFault {
    ghost use Rattle.std.specs.Prelude.{◌≡◌};
    ghost use Rattle.trace_checker.specs.declared.read.TextFault.TheVariants.{Memory};

    ghost from_gives = { λ _ e. e ≡ Memory };

    fn from(_error: AllocFailed<T>) -> TextFault {
        TextFault::Memory
    }
}

/// The part begun in a text with archetypes, which waits for them.
#[derive(Clone, Copy)]
pub enum Due {
    /// Nothing.
    Nothing,
    /// The next run, for those of its opening.
    Opening,
    /// The last run, for those after this sync point.
    After(u32),
}

/// Reads the traces of runs, one after the other: exactly where the text is that of some runs, as those.
pub fn read_traces(alloc: Global, text: &[u8]) -> Result<Vec<Trace>, TextFault>
    ensures read { IfOk result (λ traces. text.now ≡ trace_text traces.items) }
    ensures fitting { IfOk result (λ traces. AreFitting traces.items) }
    ensures only { (runs : List Recorded) → AreFitting runs → text.now ≡ trace_text runs
        → IfErr result (λ fault. fault ≡ TextFault.Memory) }
    ensures same { (runs : List Recorded) → AreFitting runs → text.now ≡ trace_text runs
        → IfOk result (λ traces. traces.items ≡ runs) }
    ensures line { (n : ℕ) → IsErrOf result (TextFault.Line n) → IsLineFault n text.now }
    ensures order { (n : ℕ) → IsErrOf result (TextFault.Order n) → IsOrderFault n text.now }
    ensures lists { (n : ℕ) → IsErrOf result (TextFault.Lists n) → IsListsFault n text.now }
{
    let lists = lists_in(text);
    let mut traces = Vec::new(alloc);
    let mut due = Due::Nothing;
    let mut rest = text;
    let mut count = 0;
    while !rest.is_empty() {
        count += 1;
        let (line, behind) = match first_line(alloc, rest) {
            Ok(found) => found,
            Err(error) => return Err(unread_line(error, count)),
        };
        if is_out_of_order(&traces, due, &line) {
            return Err(TextFault::Order(count));
        }
        if stands_wrong(due, &line) {
            return Err(TextFault::Lists(count));
        }
        due = add_line(alloc, lists, &mut traces, due, line)?;
        rest = behind;
    }
    match due {
        Due::Nothing => Ok(traces),
        Due::Opening | Due::After(_) => Err(TextFault::Lists(count + 1)),
    }
}

// What is told of the line of this number, which is not read: that it is no line, or that an allocation failed.
fn unread_line(error: ReadError, number: usize) -> TextFault
    ensures { result ≡ fault_of_line error number }
{
    match error {
        ReadError::Outside => TextFault::Line(number),
        ReadError::Memory => TextFault::Memory,
    }
}

// Whether a text has kind sets.
fn lists_in(text: &[u8]) -> bool
    ensures { result ≡ is_listed text.now }
{
    match end_of(text) {
        Some(end) => end + 1 < text.len() && text[end + 1] == b'A',
        None => false,
    }
}

// The first line of a text, and what follows it.
fn first_line(alloc: Global, text: &[u8]) -> Result<(Line, &[u8]), ReadError>
    ensures found { IfOk result (λ found. SpellsOnly IsLineBefore text.now (found.0, found.1.now)) }
    ensures outside { IsErrOf result ReadError.Outside → SpellsNone IsLineBefore text.now }
    ensures memory { IsErrOf result ReadError.Memory → get_or text.now 0 0 ≡ 65 }
{
    let Some(end) = end_of(text) else {
        return Err(ReadError::Outside);
    };
    match Line::read(alloc, &text[..end]) {
        Ok(line) => Ok((line, &text[end + 1..])),
        Err(error) => Err(error),
    }
}

// Where the first line of a text ends.
fn end_of(text: &[u8]) -> Option<usize>
    ensures { result ≡ position is_end text.now }
{
    text.iter().position(|byte| *byte == b'\n')
}

// Whether a line begins another run than the next one, or is a step before any run.
fn is_out_of_order(traces: &[Trace], due: Due, line: &Line) -> bool
    ensures { IsTrue result ↔ IsOutOfOrder (begun_runs traces.now due) line.now }
{
    let begun = match due {
        Due::Opening => traces.len() + 1,
        Due::Nothing | Due::After(_) => traces.len(),
    };
    match line {
        Line::Begin(run) => *run as usize != begun + 1,
        Line::Take(_) => begun == 0,
        Line::There(_) => false,
    }
}

// Whether a line is another one where kind sets are due, or has them where none are.
fn stands_wrong(due: Due, line: &Line) -> bool
    ensures { result ≡ is_misplaced due line.now }
{
    let told = matches!(line, Line::There(_));
    match due {
        Due::Nothing => told,
        Due::Opening | Due::After(_) => !told,
    }
}

// Adds a line that is in order and in its place, and answers what is due then.
fn add_line(
    alloc: Global,
    lists: bool,
    traces: &mut Vec<Trace>,
    due: Due,
    line: Line,
) -> Result<Due, AllocError>
    requires begun { AreBegun lists traces.old.items due }
    requires in_order { IsOutOfOrder (begun_runs traces.old.items due) line → ⊥ }
    requires placed { is_misplaced due line ≡ false }
    ensures begun { IfOk result (λ next. AreBegun lists traces.new.items next) }
    ensures added { IfOk result (λ next. lines_so_far traces.new.items next
        ≡ lines_so_far traces.old.items due ++ line ∷ []) }
{
    match line {
        Line::Begin(_) => begin(alloc, lists, traces),
        Line::Take(step) => take_step(lists, traces, step),
        Line::There(sets) => note_sets(alloc, traces, due, sets),
    }
}

// Begins the next run.
fn begin(alloc: Global, lists: bool, traces: &mut Vec<Trace>) -> Result<Due, AllocError>
    requires { AreBegun lists traces.old.items Nothing }
    ensures begun { IfOk result (λ next. AreBegun lists traces.new.items next) }
    ensures added { IfOk result (λ next. lines_so_far traces.new.items next
        ≡ lines_from 1 traces.old.items ++ Begin (suc (length traces.old.items)) ∷ []) }
{
    if lists {
        return Ok(Due::Opening);
    }
    traces.push(Trace::new(alloc))?;
    Ok(Due::Nothing)
}

// Adds a step to the last run.
fn take_step(lists: bool, traces: &mut Vec<Trace>, step: Step) -> Result<Due, AllocError>
    requires begun { AreBegun lists traces.old.items Nothing }
    requires filled { 0 < length traces.old.items }
    ensures begun { IfOk result (λ next. AreBegun lists traces.new.items next) }
    ensures added { IfOk result (λ next. lines_so_far traces.new.items next
        ≡ lines_from 1 traces.old.items ++ Take step ∷ []) }
{
    if lists {
        if let Step::Sync(sync) = step {
            return Ok(Due::After(sync));
        }
    }
    let Some(trace) = traces.last_mut() else {
        unreachable!()
    };
    trace.push(step)?;
    Ok(Due::Nothing)
}

// Adds the kind sets that are due.
fn note_sets(
    alloc: Global,
    traces: &mut Vec<Trace>,
    due: Due,
    sets: KindSets,
) -> Result<Due, AllocError>
    requires begun { AreBegun true traces.old.items due }
    requires due { is_due due ≡ true }
    ensures begun { IfOk result (λ next. AreBegun true traces.new.items next) }
    ensures added { IfOk result (λ next. lines_so_far traces.new.items next
        ≡ lines_so_far traces.old.items due ++ There sets ∷ []) }
{
    match due {
        Due::Nothing => unreachable!(),
        Due::Opening => traces.push(Trace::new_in(alloc, sets)?)?,
        Due::After(sync) => {
            let Some(trace) = traces.last_mut() else {
                unreachable!()
            };
            trace.push_sync(sync, sets)?;
        }
    }
    Ok(Due::Nothing)
}
