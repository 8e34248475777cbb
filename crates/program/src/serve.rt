// The work of a command line, on readers and writers.

ghost use Rattle.std.specs.Prelude.{◌≡◌, ◌∷◌, [], map, length, string_bytes, IfOk, IfErr, IfSome, None, Some, OnOk, IsFalse};
ghost use Rattle.archetype_store.specs.Layout.{AreAllHome};
ghost use Rattle.engine.specs.Meanings.{meanings};
ghost use Rattle.program.specs.Fault.{fault_text};
ghost use Rattle.program.specs.Recorded.{HaveNoted, HaveRun, IsTextOfRuns};
ghost use Rattle.program.specs.Refused.{IsRefusedBy, IsStoppedRun, IsUnread, IsUnrun};
ghost use Rattle.program.specs.Said.{IsOfShortText, IsShortFile};
ghost use Rattle.program.specs.Served.{HasGainedFront, IsAnswerTo, IsServed, IsTextOfReport, Tells, WritesRecord};
ghost use Rattle.toml.specs.Parse.{parse_document};
ghost use Rattle.toml.specs.View.{table_view};
ghost use Rattle.engine.specs.FirstState.{first_state};
ghost use Rattle.program.specs.Setup.{AreScriptsOf, meanings_of_scripts, script_means};
ghost use Rattle.streams.specs.Writing.{line_of};

use crate::answer::Answer;
use crate::checking::check_trace;
use crate::fault::Fault;
use crate::file::bytes_of;
use crate::hosting::begun;
use crate::loading::{Loaded, load};
use crate::recording::note_all;
use crate::replaying::replay_trace;
use crate::world::world_of;
use ambiguity_report::report::{is_settled, report};
use archetype_store::World;
use command_line::{Args, Work};
use engine::{Engine, RunFault};
use executor_core::Trace;
use printing::report::text_of_report;
use program_file::{ProgramFile, document_of};
use schedule_builder::Built;
use script::ScriptBody;
use state_lines::world::text_of_world;
use std::alloc::{AllocError, Global};
use std::io::{Read, Write};
use streams::WriteFault;
use streams::writing::{ended_line, write_whole};
use toml::Table;
use worker_pool::Mode;

/// Does the work of a command line. It reads the program file, and the trace where one is checked or replayed. It
/// writes the answer to `out`. This is the world that the runs of its schedule in the mode leave, or the report of
/// its races. Or it is its verdict on the trace, or the world that the runs of the trace leave. Runs that are
/// recorded are written to `traces` first. A failure is reported to `faults` in one line, and nothing more is. Gives
/// the exit status. It is 0 where the work is done, 1 where the content is refused or a run of the trace is not
/// complete. It is 3 where input, output, memory or a thread fail.
pub fn serve<'s, M: Mode<'s>, F: Read, T: Read, R: Write, O: Write, E: Write>(
    alloc: Global,
    args: &Args<'_>,
    mode: &M,
    file: &mut F,
    trace: &mut T,
    traces: &mut R,
    out: &mut O,
    faults: &mut E,
) -> u8
    ensures { IsServed (M.has_scope mode.now) (M.width mode.now) args.now.work
        (F.remaining file.old) (T.remaining trace.old) result
        (O.contents out.old, O.contents out.new) (R.contents traces.old, R.contents traces.new)
        (E.contents faults.old, E.contents faults.new) }
{
    let answer = match answer(alloc, args.work, mode, file, trace) {
        Ok(answer) => answer,
        Err(fault) => return tell(alloc, faults, &fault),
    };
    if let Err(error) = write_record(traces, args.work, answer.traces.as_str()) {
        return tell(alloc, faults, &Fault::from(error));
    }
    match write_whole(out, answer.text.as_str()) {
        Ok(()) => answer.status,
        Err(error) => tell(alloc, faults, &Fault::from(error)),
    }
}

// What is answered to some work on a program file. What was read of the file is dropped before the first run.
fn answer<'s, M: Mode<'s>, F: Read, T: Read>(
    alloc: Global,
    work: Work,
    mode: &M,
    file: &mut F,
    trace: &mut T,
) -> Result<Answer, Fault>
    ensures done { IfOk result (λ answer. IsAnswerTo (M.width mode.now) work (F.remaining file.old)
        (T.remaining trace.old) answer) }
    ensures refused { IfErr result (IsRefusedBy (M.has_scope mode.now) (M.width mode.now)
        (F.remaining file.old) (T.remaining trace.old) work) }
{
    let document = document_in(alloc, file)?;
    let tables = ProgramFile::read(alloc, &document)?;
    let Loaded {
        built,
        names,
        bodies,
        entities,
        resources,
    } = load(alloc, tables)?;
    let (times, recorded) = match work {
        Work::Ambiguities => return report_of(alloc, &built, names.as_slice()),
        Work::Check => return check_trace(alloc, &built, trace),
        Work::Replay => {
            return replay_trace(alloc, &built, bodies, &entities, &resources, trace);
        }
        Work::Run {
            times,
            recorded,
            ..
        } => (times, recorded),
    };
    drop(names);
    drop(document);
    let world = world_of(alloc, entities.as_slice(), &resources)?;
    drop(entities);
    run(alloc, times, recorded, mode, built, bodies, world)
}

/// The document that a file is, which has at most 1,048,576 bytes.
pub fn document_in<F: Read>(alloc: Global, file: &mut F) -> Result<Table, Fault>
    ensures read { IfOk result (λ table. IfSome (F.remaining file.old) (λ text. parse_document text
        ≡ Some (table_view table))) }
    ensures within { OnOk result (IfSome (F.remaining file.old) IsShortFile) }
    ensures short { IfOk result (λ table. IsOfShortText (table_view table)) }
    ensures refused { IfErr result (IsUnread (F.remaining file.old)) }
{
    let bytes = bytes_of(alloc, file)?;
    Ok(document_of(alloc, bytes.as_slice())?)
}

// The report of a schedule whose systems have these names.
fn report_of(alloc: Global, built: &Built, names: &[&str]) -> Result<Answer, Fault>
    ensures report { IfOk result (λ answer. IsTextOfReport (map (λ name. name.now) names.now)
        built.now (string_bytes answer.text)) }
    ensures status { IfOk result (λ answer. answer.status ≡ 0) }
    ensures memory { IfErr result (λ fault. fault ≡ Fault.Memory) }
{
    let pairs = report(alloc, built)?;
    let settled = is_settled(built);
    Ok(Answer {
        text: text_of_report(alloc, names, pairs.as_slice(), settled)?,
        traces: String::new(alloc),
        status: 0,
    })
}

// The world that so many runs of a schedule leave, and their record.
fn run<'s, M: Mode<'s>>(
    alloc: Global,
    times: u32,
    recorded: bool,
    mode: &M,
    built: Built,
    bodies: Vec<ScriptBody>,
    world: World,
) -> Result<Answer, Fault>
    requires scripts { AreScriptsOf built bodies.items }
    requires home { AreAllHome world.layout }
    ensures runs { IfOk result (λ answer. IsTextOfRuns (M.width mode.now) built
        (meanings_of_scripts built bodies.items) (first_state built world.state) times recorded
        (string_bytes answer.text) (string_bytes answer.traces)) }
    ensures status { IfOk result (λ answer. answer.status ≡ 0) }
    ensures stopped { IfErr result (IsUnrun (M.has_scope mode.now) (M.width mode.now) built
        (meanings_of_scripts built bodies.items) times (first_state built world.state)
        recorded) }
{
    let mut engine = begun(alloc, built, bodies, world)?;
    let traces = run_times(alloc, &mut engine, times, recorded, mode)?;
    let state = engine.state();
    Ok(Answer {
        text: text_of_world(alloc, times, state.world(), state.passed_over())?,
        traces,
        status: 0,
    })
}

// How many runs one call of the engine takes: its workers begin and end with the call, and the steps of these runs stand in memory.
const RUNS_AT_ONCE: u32 = 256;

// Runs a schedule so many times, one run after the other, and gives their record. The steps of runs are dropped before the next ones
// begin. Runs go on where their record is too long already: what stops one of them is reported first.
fn run_times<'s, M: Mode<'s>>(
    alloc: Global,
    engine: &mut Engine<ScriptBody>,
    times: u32,
    recorded: bool,
    mode: &M,
) -> Result<String, Fault>
    requires { IsFalse engine.old.spoiled }
    ensures noted { IfOk result (λ text. HaveNoted (M.width mode.now) engine.old.schedule
        (meanings script_means engine.old.schedule engine.old.bodies) engine.old.state times
        recorded engine.new.state (string_bytes text)) }
    ensures stopped { IfErr result (IsUnrun (M.has_scope mode.now) (M.width mode.now)
        engine.old.schedule (meanings script_means engine.old.schedule engine.old.bodies) times
        engine.old.state recorded) }
{
    let mut text = Some(String::new(alloc));
    let mut done = 0;
    while done < times {
        let count = (times - done).min(RUNS_AT_ONCE);
        let traces = run_some(alloc, engine, count, mode)?;
        if recorded {
            text = note_all(text, done, traces.as_slice())?;
        }
        done += count;
    }
    let noted = kept_text(text)?;
    Ok(noted)
}

// What is kept of a record. A record of which nothing is kept is too long, and no other fault is told of it.
fn kept_text(text: Option<String>) -> Result<String, Fault>
    ensures kept { IfOk result (λ noted. text ≡ Some noted) }
    ensures long { IfErr result (λ fault. (fault ≡ Fault.TraceTooLong) × (text ≡ None)) }
{
    match text {
        Some(text) => Ok(text),
        None => Err(Fault::TraceTooLong),
    }
}

// Runs a schedule so many times.
fn run_some<'s, M: Mode<'s>>(
    alloc: Global,
    engine: &mut Engine<ScriptBody>,
    times: u32,
    mode: &M,
) -> Result<Vec<Trace>, Fault>
    requires { IsFalse engine.old.spoiled }
    ensures count { IfOk result (λ traces. length traces.items ≡ times) }
    ensures ran { IfOk result (λ traces. HaveRun (M.width mode.now) engine.old.schedule
        (meanings script_means engine.old.schedule engine.old.bodies) engine.old.state
        traces.items engine.new.state) }
    ensures schedule { engine.new.schedule ≡ engine.old.schedule }
    ensures meant { OnOk result (meanings script_means engine.old.schedule engine.new.bodies
        ≡ meanings script_means engine.old.schedule engine.old.bodies) }
    ensures sound { OnOk result (IsFalse engine.new.spoiled) }
    ensures stopped { IfErr result (IsStoppedRun (M.has_scope mode.now) (M.width mode.now)
        engine.old.schedule (meanings script_means engine.old.schedule engine.old.bodies) times
        engine.old.state) }
{
    match engine.run(alloc, times, mode) {
        Ok(traces) => Ok(traces),
        Err(RunFault::Memory) => Err(Fault::Memory),
        Err(RunFault::ClockSpent) => Err(Fault::ClockSpent),
        Err(RunFault::IdsSpent) => Err(Fault::IdsSpent),
        Err(RunFault::NoWorker) => Err(Fault::NoWorker),
        Err(RunFault::BodyFault(_)) => Err(Fault::BodyRefused),
        Err(RunFault::Spoiled) => unreachable!(),
    }
}

// Writes the record of runs that are recorded, and of other work nothing.
fn write_record<R: Write>(traces: &mut R, work: Work, text: &str) -> Result<(), WriteFault>
    ensures { WritesRecord work (R.contents traces.old, R.contents traces.new) result text.now }
{
    if work.is_recorded() {
        return write_whole(traces, text);
    }
    Ok(())
}

/// Tells of a fault in one line, written in one call where the writer takes it whole, and gives the exit status. The status stays where
/// the line can't be written. Where an allocation fails for the line, that is reported, with its status.
pub fn tell<E: Write>(alloc: Global, faults: &mut E, fault: &Fault) -> u8
    ensures { Tells fault.now result (E.contents faults.old, E.contents faults.new) }
{
    match fault_line(alloc, fault) {
        Ok(line) => {
            tell_line(faults, line.as_str());
            fault.status()
        }
        Err(_) => {
            tell_line(faults, "error memory\n");
            Fault::Memory.status()
        }
    }
}

// The line of a fault, with its end.
fn fault_line(alloc: Global, fault: &Fault) -> Result<String, AllocError>
    ensures { IfOk result (λ line. string_bytes line ≡ line_of (fault_text fault.now)) }
{
    let text = fault.to_string(alloc)?;
    ended_line(alloc, text.as_str())
}

// Writes a line, as far as the writer takes it.
pub(crate) fn tell_line<E: Write>(faults: &mut E, line: &str)
    ensures { HasGainedFront (E.contents faults.old, E.contents faults.new) line.now }
{
    let _ = write_whole(faults, line);
}
