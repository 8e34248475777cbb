// A trace that is explained, with the program file that it is a trace of.

ghost use Rattle.std.specs.Prelude.{◌≡◌, ◌⊎◌, IfErr, IfNone, IfOk, IfSome, Some, length, map, string_bytes, true, false};
ghost use Rattle.ecsview.specs.Explained.{IsFaultIn};
ghost use Rattle.ecsview.specs.Traced.{HasTraceLine, IsAcceptedWith, IsOfTrace, IsRefusedWith, IsReplayedOn, IsTraceTold};
ghost use Rattle.model.specs.state.Loaded.{loaded as loaded_state};
ghost use Rattle.program.specs.Fault.{fault_of_trace};
ghost use Rattle.program.specs.Load.{entity_given};
ghost use Rattle.program.specs.Refused.{IsUnreplayed};
ghost use Rattle.program.specs.Setup.{AreScriptsOf, meanings_of_scripts};
ghost use Rattle.toml.specs.View.{table_view};

use crate::asking::{Asking, Format};
use crate::explained::{Text, accepted, text_of_fault};
use crate::viewing::Shown;
use findings::Loaded;
use kinds::Value;
use program::Fault;
use program::checking::MOST_TRACE_BYTES;
use program::replaying::replay_trace;
use schedule_builder::Built;
use script::ScriptBody;
use std::alloc::{AllocError, Global};
use std::io::Read;
use streams::ReadFault;
use streams::reading::read_whole;
use trace_reasons::telling::{Scene, finding_of_trace};

/// What is answered where a file that is to be explained is accepted, which declares this. Where a trace of it is to be explained as well, its runs are
/// taken again: either they are as they were recorded, or it is told why the trace is refused, and the status is 1.
pub fn accepted_with<'x, T: Read>(
    alloc: Global,
    source: Text<'x>,
    asking: Asking,
    loaded: Loaded<'_>,
    path: &'x str,
    trace: &mut T,
) -> Result<Shown, Fault>
    requires { AreScriptsOf loaded.file.built loaded.file.bodies.items }
    ensures answered { IfOk result (IsAcceptedWith (table_view source.entry.document.now)
        loaded.entry asking (T.remaining trace.old)) }
    ensures refused { IfErr result (IsRefusedWith loaded.entry asking (T.remaining trace.old)) }
{
    let shown = accepted(alloc, source, &loaded, asking)?;
    if !asking.traced {
        return Ok(shown);
    }
    let Loaded { file, sets: _ } = loaded;
    let program::Loaded {
        built,
        names: _,
        bodies,
        entities,
        resources,
    } = file;
    let Judged { bytes, fault } = judge_trace(
        alloc,
        &built,
        bodies,
        entities.as_slice(),
        &resources,
        trace,
    );
    match fault {
        None => Ok(with_line(asking.format, shown)?),
        Some(fault) => {
            let scene = Scene {
                trace: bytes.as_slice(),
                trace_path: path,
                file: source.bytes,
                file_path: source.path,
                document: source.document,
                built: &built,
            };
            explained_trace(alloc, scene, asking.format, fault)
        }
    }
}

// What is told of an accepted file, and that the trace is accepted as well.
fn with_line(format: Format, shown: Shown) -> Result<Shown, AllocError>
    ensures { IfOk result (HasTraceLine format shown) }
{
    let Shown { mut text, status } = shown;
    if let Format::Text = format {
        text.push_str("trace accepted: it replays as it was recorded\n")?;
    }
    Ok(Shown { text, status })
}

// A trace, and why it is refused, if it is.
#[derive(Drop)]
struct Judged {
    bytes: Vec<u8>,
    fault: Option<Fault>,
}

// The trace that a reader has, and why it is refused, if it is, on a schedule with these scripts, from these entities and resources.
fn judge_trace<T: Read>(
    alloc: Global,
    built: &Built,
    bodies: Vec<ScriptBody>,
    entities: &[Vec<Value>],
    resources: &[i64; 8],
    trace: &mut T,
) -> Judged
    requires { AreScriptsOf built.now bodies.items }
    ensures replayed { IfNone result.fault (IsReplayedOn built.now
        (meanings_of_scripts built.now bodies.items)
        (loaded_state built.now (map entity_given entities.now) resources.now)
        (T.remaining trace.old)) }
    ensures refused { IfSome result.fault (IsUnreplayed built.now
        (meanings_of_scripts built.now bodies.items)
        (loaded_state built.now (map entity_given entities.now) resources.now)
        (length entities.now) (T.remaining trace.old)) }
{
    match read_whole(alloc, trace, MOST_TRACE_BYTES) {
        Ok(bytes) => {
            let text = bytes.as_slice();
            let fault = refusal(alloc, built, bodies, entities, resources, text);
            Judged { bytes, fault }
        }
        Err(fault) => Judged {
            bytes: Vec::new(alloc),
            fault: Some(fault_of_trace(fault)),
        },
    }
}

// Why a trace of this text is refused, if it is.
fn refusal(
    alloc: Global,
    built: &Built,
    bodies: Vec<ScriptBody>,
    entities: &[Vec<Value>],
    resources: &[i64; 8],
    text: &[u8],
) -> Option<Fault>
    requires { AreScriptsOf built.now bodies.items }
    ensures replayed { IfNone result (IsReplayedOn built.now
        (meanings_of_scripts built.now bodies.items)
        (loaded_state built.now (map entity_given entities.now) resources.now)
        (Some text.now)) }
    ensures refused { IfSome result (IsUnreplayed built.now
        (meanings_of_scripts built.now bodies.items)
        (loaded_state built.now (map entity_given entities.now) resources.now)
        (length entities.now) (Some text.now)) }
{
    let mut reader = text;
    match replay_trace(alloc, built, bodies, entities, resources, &mut reader) {
        Ok(_answer) => None,
        Err(fault) => Some(fault),
    }
}

// What is told where a trace is not read to its end.
fn fault_of_trace(fault: ReadFault) -> Fault
    ensures { result ≡ fault_of_trace fault }
{
    match fault {
        ReadFault::TooLong => Fault::TraceTooLong,
        ReadFault::Failed => Fault::File,
        ReadFault::Memory => Fault::Memory,
    }
}

// What is told of a trace that is refused with a fault.
fn explained_trace(
    alloc: Global,
    scene: Scene<'_>,
    format: Format,
    fault: Fault,
) -> Result<Shown, Fault>
    ensures told { IfOk result (IsTraceTold format fault) }
    ensures kept { IfErr result (λ told. (told ≡ Fault.Memory)
        ⊎ ((told ≡ fault) × (IsOfTrace fault → ⊥))) }
{
    if !is_of_trace(&fault) {
        return Err(fault);
    }
    let finding = finding_of_trace(alloc, scene, &fault)?;
    let text = text_of_fault(alloc, format, &fault, finding)?;
    Ok(Shown { text, status: 1 })
}

// Whether a fault is one of a trace.
fn is_of_trace(fault: &Fault) -> bool
    ensures yes { (result ≡ true) → IsOfTrace fault.now }
    ensures no { (result ≡ false) → IsOfTrace fault.now → ⊥ }
{
    matches!(
        fault,
        Fault::TraceTooLong
            | Fault::TraceLine(_)
            | Fault::TraceOrder(_)
            | Fault::TraceLists(_)
            | Fault::BadStep { .. }
            | Fault::UnfinishedRun { .. }
            | Fault::WrongAnswer { .. }
            | Fault::WrongSets { .. }
            | Fault::ClockSpent
            | Fault::IdsSpent
            | Fault::BodyRefused
    )
}
