// Why a program file is refused, or that it is accepted.

ghost use Rattle.std.specs.Prelude.{◌≡◌, ◌++◌, ◌⊎◌, ◌∷◌, [], codes, IfErr, IfOk, string_bytes, true};
ghost use Rattle.program.specs.Fault.{fault_text};
ghost use Rattle.ecsview.specs.Explained.{AreFound, IsAccepted, IsAcceptedIn, IsAcceptedText, IsFaultIn, IsFaultLine, IsOfFile, IsToldTo, accepted_line, accepted_status, build_code, code_of, file_code, script_code, step_code, trace_code, warnings_line};
ghost use Rattle.toml.specs.View.{table_view};

use crate::args::{Args, Work};
use crate::asking::{Asking, Format};
use crate::viewing::Shown;
use ambiguity_report::report::{is_settled, report};
use diagnostics::json::json_of_finding;
use diagnostics::text::text_with_gutter;
use diagnostics::{Finding, Heading, Level};
use executor_core::StepFault;
use explaining::{Found, explain, telling};
use findings::Loaded;
use lints::Lint;
use lints::linting::lints_of;
use program::Fault;
use program_file::{FileFault, ProgramFile, document_of};
use schedule_builder::{BuildFault, Built};
use script::{Cause, ScriptFault};
use std::alloc::{AllocError, Global};
use toml::Table;
use warnings::telling::{json_of_lints, text_of_lints};

/// A program file: its bytes, its path, and the document that it is.
#[derive(Clone, Copy)]
pub struct Text<'a> {
    /// The bytes.
    pub bytes: &'a [u8],
    /// The path.
    pub path: &'a str,
    /// The document.
    pub document: &'a Table,
}

/// What is answered to some work on a file with these bytes that is refused with a fault: where the file is to be explained, why it is.
pub fn explained(alloc: Global, args: &Args<'_>, bytes: &[u8], fault: Fault) -> Result<Shown, Fault>
    ensures told { IfOk result (IsToldTo args.now.work fault) }
    ensures kept { IfErr result (λ told. (told ≡ fault) ⊎ (told ≡ Fault.Memory)) }
{
    match args.work {
        Work::Explain(asking) if is_of_file(&fault) => {
            let finding = finding_of(alloc, bytes, args.file, &fault)?;
            let text = text_of_fault(alloc, asking.format, &fault, finding)?;
            Ok(Shown { text, status: 1 })
        }
        _ => Err(fault),
    }
}

// Whether a fault is one of a program file.
fn is_of_file(fault: &Fault) -> bool
    ensures { (result ≡ true) → IsOfFile fault.now }
{
    matches!(
        fault,
        Fault::TooLong | Fault::Content(_) | Fault::Build(_) | Fault::Script { .. }
    )
}

/// What is told of a fault in a format.
pub fn text_of_fault(
    alloc: Global,
    format: Format,
    fault: &Fault,
    finding: Finding<'_>,
) -> Result<String, AllocError>
    ensures { IfOk result (λ text. IsFaultIn format fault.now (string_bytes text)) }
{
    match format {
        Format::Text => {
            let body = text_with_gutter(alloc, finding)?;
            explanation(alloc, fault, body.as_str())
        }
        Format::Json => line_of_fault(alloc, fault, finding),
    }
}

// The text of a fault: its code, what is told of it, and its line.
fn explanation(alloc: Global, fault: &Fault, body: &str) -> Result<String, AllocError>
    ensures { IfOk result (λ text. string_bytes text
        ≡ codes "error[" ++ (code_of fault.now ++ (codes "]: " ++ (body.now
        ++ (codes " = ecsrun: " ++ (fault_text fault.now ++ 10 ∷ [])))))) }
{
    let code = code_of(fault);
    format!(in alloc; "error[{code}]: {body} = ecsrun: {fault}\n")
}

// The line of JSON of a fault.
fn line_of_fault(alloc: Global, fault: &Fault, finding: Finding<'_>) -> Result<String, AllocError>
    ensures { IfOk result (λ text. IsFaultLine fault.now (string_bytes text)) }
{
    let heading = Heading {
        code: code_of(fault),
        level: Level::Error,
    };
    let told = format!(in alloc; "{fault}")?;
    let mut line = json_of_finding(alloc, heading, &finding, Some(told.as_str()))?;
    line.push_str("\n")?;
    Ok(line)
}

// The code of a fault.
fn code_of(fault: &Fault) -> &'static str
    ensures { result.now ≡ code_of fault.now }
{
    match fault {
        Fault::TooLong => "P4",
        Fault::Content(fault) => file_code(fault),
        Fault::Build(fault) => build_code(fault),
        Fault::Script { cause, .. } => script_code(*cause),
        Fault::BadStep { fault, .. } => step_code(*fault),
        other => trace_code(other),
    }
}

// The code of a fault of a step.
fn step_code(fault: StepFault) -> &'static str
    ensures { result.now ≡ step_code fault }
{
    match fault {
        StepFault::Unknown => "S1",
        StepFault::Repeated => "S2",
        StepFault::NotReady => "S3",
        StepFault::ConditionOpen => "S4",
        StepFault::ConditionFalse => "S5",
        StepFault::ConditionTrue => "S6",
        StepFault::Conflict => "S7",
        StepFault::NotRunning => "S8",
        StepFault::LevelOpen => "S9",
    }
}

// The code of a fault of a trace, or of its replay.
fn trace_code(fault: &Fault) -> &'static str
    ensures { result.now ≡ trace_code fault.now }
{
    match fault {
        Fault::TraceTooLong => "L3",
        Fault::TraceLine(_) => "L1",
        Fault::TraceOrder(_) => "L2",
        Fault::TraceLists(_) => "L4",
        Fault::UnfinishedRun { .. } => "unfinished",
        Fault::WrongAnswer { .. } => "answer",
        Fault::WrongSets { .. } => "sets",
        Fault::ClockSpent => "E2",
        Fault::IdsSpent => "E3",
        Fault::BodyRefused => "E6",
        _ => "",
    }
}

// The code of a fault of a document.
fn file_code(fault: &FileFault) -> &'static str
    ensures { result.now ≡ file_code fault.now }
{
    match fault {
        FileFault::Document => "P1",
        FileFault::Value(_) => "P2",
        FileFault::Text(_) => "P3",
        FileFault::Memory => "",
    }
}

// The code of a fault of a schedule.
fn build_code(fault: &BuildFault) -> &'static str
    ensures { result.now ≡ build_code fault.now }
{
    match fault {
        BuildFault::UnknownName(_) => "B1",
        BuildFault::DuplicateName(_) => "B2",
        BuildFault::HierarchyLoop(_) => "B3",
        BuildFault::HierarchyCycle(_) => "B4",
        BuildFault::DependencyLoop(_) => "B5",
        BuildFault::DependencyCycle(_) => "B6",
        BuildFault::CrossDependency { .. } => "B7",
        BuildFault::SetsIntersect { .. } => "B8",
        BuildFault::SelfConflict(_) => "B9",
        BuildFault::BadQuery { .. } | BuildFault::BadConditionQuery { .. } => "B10",
        BuildFault::ConditionWrites(_) => "B11",
        BuildFault::OverLimit(_) => "B12",
        BuildFault::Memory => "",
    }
}

// The code of a fault of a script.
fn script_code(cause: Cause) -> &'static str
    ensures { result.now ≡ script_code cause }
{
    match cause {
        Cause::NotFetched => "X1",
        Cause::NotDeclared => "X2",
        Cause::NoField => "X3",
        Cause::PastEnd => "X4",
        Cause::NoRegister => "X5",
        Cause::NotGranted => "X6",
    }
}

// What is told of a fault of a file with these bytes at a path.
fn finding_of<'b>(
    alloc: Global,
    bytes: &'b [u8],
    path: &'b str,
    fault: &Fault,
) -> Result<Finding<'b>, AllocError> {
    match document_of(alloc, bytes) {
        Ok(document) => {
            let found = found_in(alloc, &document, fault)?;
            telling::finding_of_document(alloc, bytes, &document, path, found)
        }
        Err(FileFault::Memory) => Err(AllocError),
        Err(_) => {
            let found = explain::of_bytes(alloc, bytes)?;
            telling::finding_of_bytes(alloc, bytes, path, found)
        }
    }
}

// What is found of a fault in a document.
fn found_in<'a>(
    alloc: Global,
    document: &'a Table,
    fault: &'a Fault,
) -> Result<Found<'a>, AllocError> {
    match fault {
        Fault::Content(fault) => explain::of_content(alloc, document, *fault),
        Fault::Build(fault) => explain::of_build(alloc, document, fault),
        Fault::Script {
            cause,
            system,
            block,
            instruction,
        } => {
            let fault = ScriptFault {
                cause: *cause,
                block: *block,
                instruction: *instruction,
            };
            Ok(explain::of_script(document, system.as_str(), fault))
        }
        _ => Ok(explain::of_length()),
    }
}

/// What is answered where a file that is to be explained is accepted, which declares this: what of it is likely a mistake, how much of that there
/// is, and whether its schedule is settled. Where warnings are denied and there are some, the status is 1.
pub fn accepted(
    alloc: Global,
    source: Text<'_>,
    loaded: &Loaded<'_>,
    asking: Asking,
) -> Result<Shown, AllocError>
    ensures { IfOk result (IsAccepted (table_view source.entry.document.now) loaded.now asking) }
{
    let found = found_of(alloc, source.document, loaded)?;
    let built = &loaded.file.built;
    let text = text_of_found(alloc, source, asking.format, built, found.as_slice())?;
    Ok(Shown {
        text,
        status: accepted_status(asking.denies, found.len()),
    })
}

// What is told of what is likely a mistake, in a format.
fn text_of_found(
    alloc: Global,
    source: Text<'_>,
    format: Format,
    built: &Built,
    found: &[Lint],
) -> Result<String, AllocError>
    ensures { IfOk result (λ text. IsAcceptedIn format built.now found.now (string_bytes text)) }
{
    let Text {
        bytes,
        path,
        document,
    } = source;
    match format {
        Format::Text => {
            let body = text_of_lints(alloc, bytes, document, path, found)?;
            accepted_text(alloc, built, body.as_str(), found.len())
        }
        Format::Json => json_of_lints(alloc, bytes, document, path, found),
    }
}

// What is likely a mistake.
fn found_of(alloc: Global, document: &Table, loaded: &Loaded<'_>) -> Result<Vec<Lint>, AllocError>
    ensures { IfOk result (λ found. AreFound (table_view document.now) loaded.now found.items) }
{
    let tables = match ProgramFile::read(alloc, document) {
        Ok(tables) => tables,
        // It was read before, so this is memory.
        Err(_) => return Err(AllocError),
    };
    let built = &loaded.file.built;
    let pairs = report(alloc, built)?;
    let members = loaded.sets.members.as_slice();
    let found = lints_of(alloc, &tables, built, members, pairs.as_slice())?;
    Ok(found)
}

// The status, by whether warnings are denied and how many there are.
fn accepted_status(denies: bool, count: usize) -> u8
    ensures { result ≡ accepted_status denies count }
{
    if denies && 0 < count { 1 } else { 0 }
}

// The text of so many warnings, and what is told behind them.
fn accepted_text(
    alloc: Global,
    built: &Built,
    body: &str,
    count: usize,
) -> Result<String, AllocError>
    ensures { IfOk result (λ text. IsAcceptedText built.now count (string_bytes text)) }
{
    let settled = is_settled(built);
    let warnings = warnings_line(alloc, count)?;
    let line = accepted_line(settled);
    format!(in alloc; "{body}{warnings}{line}")
}

// The line that says how many warnings there are, of some.
fn warnings_line(alloc: Global, count: usize) -> Result<String, AllocError>
    ensures { IfOk result (λ line. string_bytes line ≡ warnings_line count) }
{
    match count {
        0 => Ok(String::new(alloc)),
        1 => String::from_str(alloc, "1 warning\n"),
        _ => format!(in alloc; "{count} warnings\n"),
    }
}

// The line of a file that is accepted, by whether its schedule is settled.
fn accepted_line(settled: bool) -> &'static str
    ensures { result.now ≡ accepted_line settled }
{
    if settled {
        "accepted, and settled: all runs of it agree\n"
    } else {
        "accepted, and not settled: runs of it may differ\n"
    }
}
