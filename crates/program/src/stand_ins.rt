// What stands where a standard stream is closed.

ghost use Rattle.std.specs.Prelude.{◌∷◌};
ghost use Rattle.std.specs.List.{AllByRecursion};
ghost use Rattle.program.specs.StandIns.{IsStandIn};

use std::fs;
use std::fs::File;
use std::os::fd::AsRawFd;
use std::rt::Files;

// The numbers of the standard streams end with this one.
const LAST_STREAM: i32 = 2;

/// Opens the root folder in the place of each standard stream that is closed. The system gives the least free number
/// to a file that is opened. So without these the next file that the program opens would be such a stream, and get
/// what is written to it. A folder gives and takes no bytes. So each read and each write of such a stream fails, for
/// as long as the result is kept.
pub fn open_stand_ins<R: Files<File = File>>(files: &R) -> [Option<File>; 3]
    ensures { AllByRecursion IsStandIn result }
{
    [stand_in(files), stand_in(files), stand_in(files)]
}

// The root folder, where it has the place of a standard stream.
fn stand_in<R: Files<File = File>>(files: &R) -> Option<File>
    ensures { IsStandIn result }
{
    let folder = fs::open(files, "/").ok()?;
    if folder.as_raw_fd() > LAST_STREAM {
        return None;
    }
    Some(folder)
}
