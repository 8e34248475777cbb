// The rows of series over new runs of a file, as text.

ghost use Rattle.std.specs.Prelude.{◌≡◌, IfErr, IfOk, IsFalse};
ghost use Rattle.ecsview.specs.SeriesAsked.{IsFitting};
ghost use Rattle.ecsview.specs.SeriesViewed.{AreRowsStopped, AreRowsTold, AreTold, IsBegun, IsSeriesRefused, IsSeriesText, IsSeriesViewed, IsUnbegun, told_of};

use crate::meanings::print;
use crate::series_args::{Format, SeriesArgs};
use engine::{Engine, RunFault};
use program::Fault;
use program::file::bytes_of;
use program::hosting::engine_of;
use program::serve::tell;
use script::ScriptBody;
use series::Row;
use series::chart::chart_of;
use series::csv::csv_of;
use series::rows::rows_of_runs;
use std::alloc::{AllocError, Global};
use std::io::{Read, Write};

/// Prints the rows of series over new runs of a program file, on this thread. The text goes to `out`, whole; what goes wrong is reported to `faults` in one
/// line, and then nothing is printed. Gives the exit status.
pub fn view_series<F: Read, O: Write, E: Write>(
    alloc: Global,
    args: &SeriesArgs<'_>,
    file: &mut F,
    out: &mut O,
    faults: &mut E,
) -> u8
    requires { IsFitting args.now }
    ensures { IsSeriesViewed args.now (F.remaining file.old) result
        (O.contents out.old, O.contents out.new) (E.contents faults.old, E.contents faults.new) }
{
    match series_text(alloc, args, file) {
        Ok(text) => print(alloc, text.as_str(), out, faults),
        Err(fault) => tell(alloc, faults, &fault),
    }
}

// The text of the rows.
fn series_text<F: Read>(alloc: Global, args: &SeriesArgs<'_>, file: &mut F) -> Result<String, Fault>
    requires { IsFitting args.now }
    ensures text { IfOk result (IsSeriesText args.now (F.remaining file.old)) }
    ensures refused { IfErr result (IsSeriesRefused args.now (F.remaining file.old)) }
{
    let mut engine = begun(alloc, file)?;
    rows_text(alloc, args, &mut engine)
}

// The engine of a program file.
fn begun<F: Read>(alloc: Global, file: &mut F) -> Result<Engine<ScriptBody>, Fault>
    ensures begun { IfOk result (IsBegun (F.remaining file.old)) }
    ensures refused { IfErr result (IsUnbegun (F.remaining file.old)) }
{
    let bytes = bytes_of(alloc, file)?;
    engine_of(alloc, bytes.as_slice())
}

// The text of the rows of an engine.
fn rows_text(
    alloc: Global,
    args: &SeriesArgs<'_>,
    engine: &mut Engine<ScriptBody>,
) -> Result<String, Fault>
    requires fitting { IsFitting args.now }
    requires sound { IsFalse engine.old.spoiled }
    ensures text { IfOk result (AreRowsTold args.now engine.old) }
    ensures stopped { IfErr result (AreRowsStopped args.now engine.old) }
{
    let series = args.series.as_slice();
    match rows_of_runs(alloc, engine, series, args.times, args.every) {
        Ok(rows) => match told(alloc, args, rows.as_slice()) {
            Ok(text) => Ok(text),
            Err(_) => Err(Fault::Memory),
        },
        Err(fault) => Err(fault_of(fault)),
    }
}

// Rows as text.
fn told(alloc: Global, args: &SeriesArgs<'_>, rows: &[Row]) -> Result<String, AllocError>
    ensures { IfOk result (AreTold args.now rows.now) }
{
    let names = args.names.as_slice();
    match args.format {
        Format::Csv => csv_of(alloc, names, rows),
        Format::Svg => chart_of(alloc, names, rows),
    }
}

/// The fault that tells why runs on one thread stop.
pub fn fault_of(fault: RunFault) -> Fault
    ensures { result ≡ told_of fault }
{
    match fault {
        RunFault::Memory | RunFault::Spoiled => Fault::Memory,
        RunFault::ClockSpent => Fault::ClockSpent,
        RunFault::IdsSpent => Fault::IdsSpent,
        RunFault::NoWorker => Fault::NoWorker,
        RunFault::BodyFault(_) => Fault::BodyRefused,
    }
}
