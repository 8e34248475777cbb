// The session of a program file.

ghost use Rattle.std.specs.Prelude.{◌≤◌, length, None, Some, false, IfErr, IfOk};
ghost use Rattle.command_line.specs.declared.args.Work.TheVariants as work;
ghost use Rattle.live_world.specs.Opened.{IsOpened};
ghost use Rattle.program.specs.Refused.{IsRefusedBy};

use crate::greeting::greeting_of;
use program::Fault;
use program::hosting::engine_of;
use script::ScriptBody;
use session::Session;
use sha2::{Digest, Sha256};
use std::alloc::Global;

/// The most bytes of a program file.
pub const MOST_FILE_BYTES: usize = 1_048_576;

/// The session of a program file, which is to run with this number of workers: its engine as its runs begin, and the
/// greeting. The file is refused as a command that runs it no time is.
pub fn session_of(alloc: Global, workers: u8, file: &[u8]) -> Result<Session<ScriptBody>, Fault>
    requires { length file.now ≤ 1048576 }
    ensures opened { IfOk result (IsOpened file.now workers) }
    ensures refused { IfErr result (IsRefusedBy false 1 (Some file.now) None (work.Run 0 0 false)) }
{
    let engine = engine_of(alloc, file)?;
    let digest = Sha256::digest(file);
    let greeting = greeting_of(alloc, digest, engine.schedule(), workers)?;
    Ok(Session::new(alloc, engine, digest, greeting))
}
