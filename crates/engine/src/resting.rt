// A core that rests between runs, with what it knows: it goes on in the next run, of the same call or of a later one.

ghost use Rattle.std.specs.Prelude.{IfOk, IfSome};
ghost use Rattle.engine.specs.Latest.{IsCoreFor};

use executor_core::{Core, CoreRoom};
use model::KindSets;
use schedule_builder::Built;
use std::alloc::{AllocError, Global};

/// A core that is put by between runs, and the archetypes in which it knows who meets whom.
#[derive(Drop)]
pub struct RestingCore {
    /// The core.
    pub room: CoreRoom,
    /// The archetypes.
    pub sets: KindSets,
}

/// A core for a schedule, which knows who meets whom in these archetypes. One that was put by goes on: it finds that anew only where its archetypes are
/// others.
pub fn core_in<'a>(
    alloc: Global,
    built: &'a Built,
    sets: &KindSets,
    resting: Option<RestingCore>,
) -> Result<Core<'a>, AllocError>
    requires { IfSome resting (λ it. IsCoreFor it.room built.now it.sets) }
    ensures { IfOk result (λ core. IsCoreFor core built.now sets.now) }
{
    let Some(RestingCore { room, sets: known }) = resting else {
        let core = Core::new_in(alloc, built, sets)?;
        return Ok(core);
    };
    let mut core = room.into_core(built);
    if known.is_same(sets) {
        return Ok(core);
    }
    core.begin_in(alloc, sets)?;
    Ok(core)
}
