// The work of a command line, on readers and writers.

ghost use Rattle.std.specs.Prelude.{IfErr, IfOk};
ghost use Rattle.ecsview.specs.Answer.{IsAnswer, IsAnsweredOn};
ghost use Rattle.ecsview.specs.Refusals.{IsRefusal, IsRefusalOn};
ghost use Rattle.ecsview.specs.Style.{svg_opener, svg_rules};
ghost use Rattle.ecsview.specs.Viewed.{IsViewed};
ghost use Rattle.program.specs.Setup.{AreScriptsOf};
ghost use Rattle.toml.specs.View.{table_view};

use crate::args::{Args, Work};
use crate::drawings::{lanes_text, schedule_text};
use crate::explained::{Text, explained};
use crate::found::{diverge_text, races_text, steps_text};
use crate::traced::accepted_with;
use drawing::svg::{OPENER, RULES};
use findings::Loaded;
use findings::loading::load;
use program::Fault;
use program::file::bytes_of;
use program::serve::tell;
use program_file::document_of;
use std::alloc::Global;
use std::io::{Read, Write};
use streams::writing::write_whole;
use toml::Table;

/// The answer to a command: the text that is printed, and the exit status.
#[derive(Drop)]
pub struct Shown {
    /// The text that is printed.
    pub text: String,
    /// The exit status.
    pub status: u8,
}

/// Does the work of a command line on a program file and the traces that it names. The text of its answer goes to
/// `out`, whole; what goes wrong is reported to `faults` in one line, and nothing else is. Gives the exit status: 0
/// or 1 where all is printed, otherwise that of the fault.
pub fn view<F: Read, O: Write, E: Write>(
    alloc: Global,
    args: &Args<'_>,
    file: &mut F,
    trace: &mut F,
    other: &mut F,
    out: &mut O,
    faults: &mut E,
) -> u8
    ensures { IsViewed svg_opener svg_rules args.now.work (F.remaining file.old)
        (F.remaining trace.old) (F.remaining other.old) result
        (O.contents out.old, O.contents out.new) (E.contents faults.old, E.contents faults.new) }
{
    let view = match view_of(alloc, args, file, trace, other) {
        Ok(view) => view,
        Err(fault) => return tell(alloc, faults, &fault),
    };
    match write_whole(out, view.text.as_str()) {
        Ok(()) => view.status,
        Err(error) => tell(alloc, faults, &Fault::from(error)),
    }
}

// What is answered to a command on a program file.
fn view_of<F: Read>(
    alloc: Global,
    args: &Args<'_>,
    file: &mut F,
    trace: &mut F,
    other: &mut F,
) -> Result<Shown, Fault>
    ensures answered { IfOk result (IsAnsweredOn OPENER.now RULES.now args.now.work
        (F.remaining file.old) (F.remaining trace.old) (F.remaining other.old)) }
    ensures refused { IfErr result (IsRefusalOn args.now.work (F.remaining file.old)
        (F.remaining trace.old) (F.remaining other.old)) }
{
    let bytes = match bytes_of(alloc, file) {
        Ok(bytes) => bytes,
        Err(fault) => return explained(alloc, args, &[], fault),
    };
    let document = match document_of(alloc, bytes.as_slice()) {
        Ok(document) => document,
        Err(fault) => return explained(alloc, args, bytes.as_slice(), Fault::from(fault)),
    };
    match load(alloc, &document) {
        Ok(loaded) => {
            let of = Source {
                args,
                bytes: bytes.as_slice(),
                document: &document,
            };
            answer(alloc, of, loaded, trace, other)
        }
        Err(fault) => explained(alloc, args, bytes.as_slice(), fault),
    }
}

// What is asked for, and the program file: its bytes, and the document that they are.
#[derive(Clone, Copy)]
struct Source<'a> {
    args: &'a Args<'a>,
    bytes: &'a [u8],
    document: &'a Table,
}

// The same on what a file declares.
fn answer<F: Read>(
    alloc: Global,
    of: Source<'_>,
    loaded: Loaded<'_>,
    trace: &mut F,
    other: &mut F,
) -> Result<Shown, Fault>
    requires { AreScriptsOf loaded.file.built loaded.file.bodies.items }
    ensures answered { IfOk result (IsAnswer OPENER.now RULES.now (table_view of.entry.document.now) of.entry.args.now.work loaded.entry
        (F.remaining trace.old) (F.remaining other.old)) }
    ensures refused { IfErr result (IsRefusal of.entry.args.now.work loaded.entry (F.remaining trace.old) (F.remaining
        other.old)) }
{
    match of.args.work {
        Work::Schedule => {
            let text = schedule_text(alloc, &loaded)?;
            Ok(Shown { text, status: 0 })
        }
        Work::Lanes(part) => {
            let text = lanes_text(alloc, &loaded, trace, part)?;
            Ok(Shown { text, status: 0 })
        }
        Work::Races(number) => {
            let text = races_text(alloc, loaded.file, number)?;
            Ok(Shown { text, status: 0 })
        }
        Work::Diverge => {
            let (text, status) = diverge_text(alloc, loaded.file, trace, other)?;
            Ok(Shown { text, status })
        }
        Work::Steps(run) => {
            let text = steps_text(alloc, loaded.file, trace, run)?;
            Ok(Shown { text, status: 0 })
        }
        Work::Explain(asking) => {
            let source = Text {
                bytes: of.bytes,
                path: of.args.file,
                document: of.document,
            };
            accepted_with(alloc, source, asking, loaded, of.args.trace, trace)
        }
    }
}
