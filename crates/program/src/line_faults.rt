// What is printed for a command line that asks for no work.

ghost use Rattle.program.specs.LineReported.{IsAskedText, IsLineReported};

use crate::fault::Fault;
use crate::serve::{tell, tell_line};
use command_line::LineFault;
use std::alloc::Global;
use std::io::Write;
use streams::writing::write_whole;

/// Prints help or reports what is wrong, for a command line that asks for no work, and gives the exit status. Help goes to `out`, and what is at fault to `faults`. Where help can't
/// be written that is reported as a failure of the output is.
pub fn tell_line_fault<O: Write, E: Write>(
    alloc: Global,
    out: &mut O,
    faults: &mut E,
    fault: &LineFault,
) -> u8
    ensures { IsLineReported fault.now result (O.contents out.old, O.contents out.new) (
      E.contents
          faults.old,
      E.contents faults.new,
    ) }
{
    match fault {
        LineFault::Help(text) => print_asked(alloc, out, faults, text.as_str()),
        LineFault::Usage(_) | LineFault::Memory => {
            tell_line(faults, fault.text());
            fault.status()
        }
    }
}

/// Prints a text that a command line asks for in place of work, such as help, and gives the exit status. Where it can't be written that is
/// reported as a failure of the output is.
pub fn print_asked<O: Write, E: Write>(alloc: Global, out: &mut O, faults: &mut E, text: &str) -> u8
    ensures { IsAskedText text.now result (O.contents out.old, O.contents out.new) (
      E.contents
          faults.old,
      E.contents faults.new,
    ) }
{
    match write_whole(out, text) {
        Ok(()) => 0,
        Err(error) => tell(alloc, faults, &Fault::from(error)),
    }
}
