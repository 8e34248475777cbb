// What is told of a record that is not taken again.

ghost use Rattle.session_records.specs.Reported.{IsReported};

use program::Fault;
use program::serve::tell;
use session::RecordFault;
use std::alloc::{AllocError, Global};
use std::fmt;
use std::io::Write;
use streams::writing::write_whole;
use streams::{ReadFault, WriteFault};

/// The most bytes of a record that is read.
pub const MOST_RECORD_BYTES: usize = 268_435_456;

/// Why a record is not taken again.
#[derive(Drop)]
pub enum Told {
    /// It has more bytes than one may have.
    TooLong,
    /// The record, or an entry of it, is refused.
    Refused(RecordFault),
    /// What else goes wrong.
    Fault(Fault),
}

impl From<Fault> for Told {
    fn from(fault: Fault) -> Self {
        Told::Fault(fault)
    }
}

impl From<AllocError> for Told {
    fn from(_error: AllocError) -> Self {
        Told::Fault(Fault::Memory)
    }
}

impl From<ReadFault> for Told {
    fn from(fault: ReadFault) -> Self {
        match fault {
            ReadFault::TooLong => Told::TooLong,
            ReadFault::Failed => Told::Fault(Fault::File),
            ReadFault::Memory => Told::Fault(Fault::Memory),
        }
    }
}

impl From<WriteFault> for Told {
    fn from(_error: WriteFault) -> Self {
        Told::Fault(Fault::Write)
    }
}

impl From<RecordFault> for Told {
    fn from(fault: RecordFault) -> Self {
        match fault {
            RecordFault::Write => Told::Fault(Fault::Write),
            RecordFault::Memory => Told::Fault(Fault::Memory),
            fault => Told::Refused(fault),
        }
    }
}

impl fmt::Display for Told {
    fn fmt<W: fmt::Write>(&self, f: &mut fmt::Formatter<W>) -> fmt::Result {
        match self {
            Told::TooLong => f.write_str("refused L3"),
            Told::Refused(fault) => write!(f, "{fault}"),
            Told::Fault(fault) => write!(f, "{fault}"),
        }
    }
}

/// Reports why a record is not taken again, in one line, and gives the exit status.
pub fn report<E: Write>(alloc: Global, faults: &mut E, told: &Told) -> u8
    ensures { IsReported told.now result (E.contents faults.old, E.contents faults.new) }
{
    match told {
        Told::Fault(fault) => tell(alloc, faults, fault),
        Told::TooLong | Told::Refused(_) => match told_line(alloc, told) {
            Ok(line) => {
                let _ = write_whole(faults, line.as_str());
                1
            }
            Err(_) => tell(alloc, faults, &Fault::Memory),
        },
    }
}

// The line that tells it.
fn told_line(alloc: Global, told: &Told) -> Result<String, AllocError> {
    format!(in alloc; "{told}\n")
}
