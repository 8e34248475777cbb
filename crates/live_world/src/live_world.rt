// A world that stays in a process, and what it last replied.

ghost use Rattle.std.specs.Prelude.{◌≡◌, None, Some, false, string_bytes, IfErr, IfOk};
ghost use Rattle.command_line.specs.declared.args.Work.TheVariants as work;
ghost use Rattle.live_world.specs.Opened.{IsOpened};
ghost use Rattle.live_world.specs.Sent.{HasAsked, told_in};
ghost use Rattle.program.specs.Refused.{IsRefusedBy};

use crate::opening::{MOST_FILE_BYTES, session_of};
use crate::replying::reply_to;
use program::Fault;
use script::ScriptBody;
use session::{Reply, Session};
use std::alloc::{AllocError, Global};

/// The session of a program file, on one thread, and what it last replied.
#[derive(Drop)]
pub struct LiveWorld {
    /// The session.
    pub session: Session<ScriptBody>,
    /// The last reply; none before the first request.
    pub told: Option<Reply>,
}

impl LiveWorld {
    /// Opens the world of a program file. The file is refused as a command that runs it no time is.
    pub fn open(alloc: Global, file: &[u8]) -> Result<LiveWorld, Fault>
        ensures opened { IfOk result (λ world. IsOpened file.now 0 world.session) }
        ensures untold { IfOk result (λ world. world.told ≡ None) }
        ensures refused { IfErr result (IsRefusedBy false 1 (Some file.now) None (work.Run 0 0
            false)) }
    {
        if file.len() > MOST_FILE_BYTES {
            return Err(Fault::TooLong);
        }
        let session = session_of(alloc, 0, file)?;
        Ok(LiveWorld {
            session,
            told: None,
        })
    }

    /// Does what these bytes ask for, and keeps the reply, as [`reply_to`] has them.
    pub fn ask(&mut self, alloc: Global, sent: &[u8])
        ensures { HasAsked sent.now self.old self.new }
    {
        self.told = Some(reply_to(alloc, &mut self.session, sent));
    }

    /// The text of the last reply; empty before the first request.
    pub fn text(&self, alloc: Global) -> Result<String, AllocError>
        ensures { IfOk result (λ text. string_bytes text ≡ told_in self.now) }
    {
        match &self.told {
            Some(reply) => reply.to_string(alloc),
            None => Ok(String::new(alloc)),
        }
    }
}
