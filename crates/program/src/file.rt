// A program file as bytes.

ghost use Rattle.std.specs.Prelude.{◌≡◌, ◌≤◌, vec_len, IfOk, IfErr, IfSome};
ghost use Rattle.program.specs.Refused.{IsUnread};

use crate::fault::Fault;
use std::alloc::Global;
use std::io::Read;
use streams::reading::read_whole;

const MOST_BYTES: usize = 1_048_576;

/// All bytes of a program file, at most 1,048,576. A longer one is `TooLong`, and one that can't be read to its end `File`.
pub fn bytes_of<R: Read>(alloc: Global, reader: &mut R) -> Result<Vec<u8>, Fault>
    ensures within { IfOk result (λ bytes. vec_len bytes ≤ 1048576) }
    ensures whole { IfOk result (λ bytes. IfSome (R.remaining reader.old) (λ all. bytes.items
        ≡ all)) }
    ensures refused { IfErr result (IsUnread (R.remaining reader.old)) }
{
    match read_whole(alloc, reader, MOST_BYTES) {
        Ok(bytes) => Ok(bytes),
        Err(fault) => Err(Fault::from(fault)),
    }
}
