// The engine for C: a world that stays open, asked by the lines that `ecsplay` takes, on the thread of its caller.
#![tactic(auto)]

ghost use Rattle.std.specs.Prelude.{◌≡◌, None};
ghost use Rattle.libecs.specs.Calls.{EndsAs, HasAnswered, HasOpened, HasReplied};
ghost use Rattle.libecs.specs.Handle.{world_in};

pub mod calls;
pub mod handle;
pub mod kept;

use crate::handle::Handle;
use std::alloc::Global;

/// The version of these functions.
#[unsafe(no_mangle)]
pub extern "C" fn ecs_version() -> u32
    ensures { result ≡ 1 }
{
    1
}

/// Opens the world of a program file, in a handle that holds none: status 0. Else nothing has changed. 1: the file
/// is refused, and the line that tells why is given as a reply is. 3: an allocation failed. 4: the handle holds a
/// world.
#[unsafe(no_mangle)]
pub extern "C" fn ecs_open(
    alloc: Global,
    world: &mut Handle,
    file: &[u8],
    out: &mut [u8],
    wanted: &mut usize,
) -> u32
    ensures { EndsAs (HasOpened file.now (world_in world.old) (world_in world.new)
        (out.old, out.new) wanted.new) result }
{
    calls::open(alloc, world, file, out, wanted).number()
}

/// Does what a line asks for, and gives the reply: status 0. The bytes are a line, with its end or without; behind a
/// `load` stand the lines that follow it. The reply is written at the front of `out` if it fits, and `wanted` is its
/// length. 2: no world is open. 3: an allocation failed for the text of the reply, which is kept for `ecs_reply`.
#[unsafe(no_mangle)]
pub extern "C" fn ecs_request(
    alloc: Global,
    world: &mut Handle,
    request: &[u8],
    out: &mut [u8],
    wanted: &mut usize,
) -> u32
    ensures { EndsAs (HasAnswered request.now (world_in world.old) (world_in world.new)
        (out.old, out.new) wanted.new) result }
{
    calls::request(alloc, world, request, out, wanted).number()
}

/// Gives the last reply once more, as `ecs_request` gives it; it is empty before the first request. Nothing has
/// changed.
#[unsafe(no_mangle)]
pub extern "C" fn ecs_reply(
    alloc: Global,
    world: &mut Handle,
    out: &mut [u8],
    wanted: &mut usize,
) -> u32
    ensures kept { world_in world.new ≡ world_in world.old }
    ensures told { EndsAs (HasReplied (world_in world.old) (out.old, out.new) wanted.new) result }
{
    calls::reply(alloc, world, out, wanted).number()
}

/// Closes the world that is open, if one is, and gives its memory back.
#[unsafe(no_mangle)]
pub extern "C" fn ecs_close(alloc: Global, world: &mut Handle)
    ensures { world_in world.new ≡ None }
{
    *world = Handle::closed(alloc);
}
