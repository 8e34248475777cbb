// The command line of the program, and what is told where it asks for no work.

ghost use Rattle.std.specs.Prelude.{◌≡◌, IfErr, IfOk, OnOk, Some};
ghost use Rattle.command_line.specs.Grammar.{asked_for};
ghost use Rattle.ecsview.specs.Asked.{asked_by, asked_of, ecsview_program};
ghost use Rattle.ecsview.specs.Unasked.{IsUnasked, asks_version};
ghost use Rattle.program.specs.Served.{IsKept};

use crate::args::Args;
use program::line_faults::{print_asked, tell_line_fault};
use std::alloc::Global;
use std::io::Write;

/// The line that tells the version.
pub const VERSION_LINE: &str = "ecsview 0.9.0\n";

/// What a command line asks for. The exit status of one that asks for no work, once its answer is printed or told: `--version` by itself prints
/// the version.
pub fn args_of<'a, O: Write, E: Write>(
    alloc: Global,
    words: &'a [String],
    out: &mut O,
    faults: &mut E,
) -> Result<Args<'a>, u8>
    ensures asked { IfOk result (λ args. asked_for asked_by ecsview_program words.now
        ≡ Some (asked_of args)) }
    ensures silent { OnOk result (IsKept (O.contents out.old, O.contents out.new)
        × IsKept (E.contents faults.old, E.contents faults.new)) }
    ensures told { IfErr result (λ status. IsUnasked VERSION_LINE.now words.now status
        (O.contents out.old, O.contents out.new) (E.contents faults.old, E.contents faults.new)) }
{
    if asks_version(words) {
        return Err(print_asked(alloc, out, faults, VERSION_LINE));
    }
    match Args::read(alloc, words) {
        Ok(args) => Ok(args),
        Err(fault) => Err(tell_line_fault(alloc, out, faults, &fault)),
    }
}

// Whether the version is asked for, by one word behind the program's own name.
fn asks_version(words: &[String]) -> bool
    ensures { result ≡ asks_version words.now }
{
    match words {
        [_, word] => word.as_str() == "--version",
        _ => false,
    }
}
