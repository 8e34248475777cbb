// What the calls of C do, and how they end.

ghost use Rattle.std.specs.Prelude.{◌≡◌, IfErr, IfOk, string_bytes};
ghost use Rattle.libecs.specs.Calls.{HasAnswered, HasOpened, HasReplied, HasTold, IsGiven, IsNew, IsRefusal, IsUnopened, status_number};
ghost use Rattle.libecs.specs.Handle.{world_in};
ghost use Rattle.live_world.specs.Sent.{told_in};
ghost use Rattle.program.specs.Fault.{fault_text};
ghost use Rattle.streams.specs.Writing.{line_of};

use crate::handle::Handle;
use live_world::LiveWorld;
use program::Fault;
use std::alloc::{AllocError, Global};
use streams::writing::ended_line;

/// How a call ends.
#[derive(Clone, Copy, PartialEq, Eq, Debug)]
pub enum Status {
    /// It is done.
    Done,
    /// The program file is refused.
    Refused,
    /// No world is open.
    Closed,
    /// An allocation failed.
    Memory,
    /// A world is open already.
    Open,
}

impl Status {
    /// Its number in C.
    pub fn number(self) -> u32
        ensures { result ≡ status_number self }
    {
        match self {
            Status::Done => 0,
            Status::Refused => 1,
            Status::Closed => 2,
            Status::Memory => 3,
            Status::Open => 4,
        }
    }
}

/// Opens the world of a program file in a handle that holds none. The line of a file that is refused is written to
/// `out`.
pub fn open(
    alloc: Global,
    handle: &mut Handle,
    file: &[u8],
    out: &mut [u8],
    wanted: &mut usize,
) -> Status
    ensures { HasOpened file.now (world_in handle.old) (world_in handle.new)
        (out.old, out.new) wanted.new result }
{
    if handle.is_open {
        give(&[], out, wanted);
        return Status::Open;
    }
    match opened(alloc, file) {
        Ok(world) => {
            *handle = Handle::of(world);
            give(&[], out, wanted);
            Status::Done
        }
        Err(fault) => refuse(alloc, &fault, out, wanted),
    }
}

// The world of a program file, in a box.
fn opened(alloc: Global, file: &[u8]) -> Result<Box<LiveWorld>, Fault>
    ensures opened { IfOk result (λ world. IsNew file.now world.value) }
    ensures refused { IfErr result (IsUnopened file.now) }
{
    let world = LiveWorld::open(alloc, file)?;
    Ok(Box::new(alloc, world)?)
}

// Writes the line of a fault, and gives the status.
fn refuse(alloc: Global, fault: &Fault, out: &mut [u8], wanted: &mut usize) -> Status
    ensures { IsRefusal fault.now (out.old, out.new) wanted.new result }
{
    if fault.status() == 1 {
        if let Ok(line) = line_of_fault(alloc, fault) {
            give(line.as_bytes(), out, wanted);
            return Status::Refused;
        }
    }
    give(&[], out, wanted);
    Status::Memory
}

// The line of a fault, with its end.
fn line_of_fault(alloc: Global, fault: &Fault) -> Result<String, AllocError>
    ensures { IfOk result (λ line. string_bytes line ≡ line_of (fault_text fault.now)) }
{
    let text = fault.to_string(alloc)?;
    ended_line(alloc, text.as_str())
}

/// Does what these bytes ask for in the world that is open, and writes the reply to `out`.
pub fn request(
    alloc: Global,
    handle: &mut Handle,
    sent: &[u8],
    out: &mut [u8],
    wanted: &mut usize,
) -> Status
    ensures { HasAnswered sent.now (world_in handle.old) (world_in handle.new)
        (out.old, out.new) wanted.new result }
{
    let Some(mut world) = handle.take(alloc) else {
        give(&[], out, wanted);
        return Status::Closed;
    };
    world.ask(alloc, sent);
    let status = tell(alloc, &world, out, wanted);
    *handle = Handle::of(world);
    status
}

/// Writes the last reply of the world that is open to `out` once more.
pub fn reply(alloc: Global, handle: &mut Handle, out: &mut [u8], wanted: &mut usize) -> Status
    ensures kept { world_in handle.new ≡ world_in handle.old }
    ensures told { HasReplied (world_in handle.old) (out.old, out.new) wanted.new result }
{
    let Some(world) = handle.take(alloc) else {
        give(&[], out, wanted);
        return Status::Closed;
    };
    let status = tell(alloc, &world, out, wanted);
    *handle = Handle::of(world);
    status
}

// Writes the last reply of a world.
fn tell(alloc: Global, world: &LiveWorld, out: &mut [u8], wanted: &mut usize) -> Status
    ensures { HasTold (told_in world.now) (out.old, out.new) wanted.new result }
{
    match world.text(alloc) {
        Ok(text) => {
            give(text.as_bytes(), out, wanted);
            Status::Done
        }
        Err(_) => {
            give(&[], out, wanted);
            Status::Memory
        }
    }
}

// Writes bytes at the front of `out` where they fit, and tells how many they are.
fn give(bytes: &[u8], out: &mut [u8], wanted: &mut usize)
    ensures { IsGiven bytes.now (out.old, out.new) wanted.new }
{
    let count = bytes.len();
    *wanted = count;
    if count <= out.len() {
        out[..count].copy_from_slice(bytes);
    }
}
