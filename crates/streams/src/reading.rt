// Readers read to their end.

ghost use Rattle.std.specs.Prelude.{◌≡◌, ◌<◌, ◌≤◌, length, vec_len, IfOk, IfSome, IsErrOf};

use std::alloc::Global;
use std::io::{ErrorKind, Read};
use thiserror::Error;

/// Why a reader is not read to its end.
#[derive(Clone, Copy, PartialEq, Eq, Debug, Error)]
pub enum ReadFault {
    /// More bytes came than the limit.
    #[error("the input is too long")]
    TooLong,
    /// A read failed.
    #[error("the input can't be read")]
    Failed,
    /// An allocation failed.
    #[error("an allocation fails")]
    Memory,
}

/// All bytes of a reader, at most `limit`.
///
/// A reader that fails is `Failed`; a read that was interrupted is taken up again. After an error the reader may be
/// anywhere.
pub fn read_whole<R: Read>(
    alloc: Global,
    reader: &mut R,
    limit: usize,
) -> Result<Vec<u8>, ReadFault>
    ensures within { IfOk result (λ bytes. vec_len bytes ≤ limit) }
    ensures whole { IfOk result (λ bytes. IfSome (R.remaining reader.old) (λ all. bytes.items
        ≡ all)) }
    ensures long { IsErrOf result ReadFault.TooLong
        → IfSome (R.remaining reader.old) (λ all. limit < length all) }
{
    let mut bytes = Vec::new(alloc);
    let mut buffer = [0u8; 4096];
    for _ in 0..u64::MAX {
        let count = match reader.read(&mut buffer) {
            Ok(count) => count,
            Err(error) if error.kind() == ErrorKind::Interrupted => continue,
            Err(_) => return Err(ReadFault::Failed),
        };
        if count == 0 {
            return Ok(bytes);
        }
        if limit - bytes.len() < count {
            return Err(ReadFault::TooLong);
        }
        if bytes.extend_from_slice(&buffer[..count]).is_err() {
            return Err(ReadFault::Memory);
        }
    }
    Err(ReadFault::Failed)
}
