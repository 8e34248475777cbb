// What a code of a refusal means.

ghost use Rattle.ecsview.specs.Meanings.{IsTextPrinted};

use crate::args::{Args, Work};
use explaining::codes::meaning_of;
use program::Fault;
use program::serve::tell;
use std::alloc::Global;
use std::io::Write;
use streams::writing::write_whole;

/// What the code means that stands in place of the file that is to be explained; None where none does.
pub fn meaning(args: &Args<'_>) -> Option<&'static str> {
    match args.work {
        Work::Explain(_) => meaning_of(args.file),
        _ => None,
    }
}

/// Prints a text, whole, or reports in one line that it can't be. Gives the exit status.
pub fn print<O: Write, E: Write>(alloc: Global, text: &str, out: &mut O, faults: &mut E) -> u8
    ensures { IsTextPrinted text.now result (O.contents out.old, O.contents out.new) (
      E.contents
          faults.old,
      E.contents faults.new,
    ) }
{
    match write_whole(out, text) {
        Ok(()) => 0,
        Err(error) => tell(alloc, faults, &Fault::from(error)),
    }
}
