// The engine of a program file, for who keeps it.

ghost use Rattle.std.specs.Prelude.{◌≡◌, ◌≤◌, false, length, map, None, Some, IfErr, IfOk};
ghost use Rattle.archetype_store.specs.Layout.{AreAllHome};
ghost use Rattle.command_line.specs.declared.args.Work.TheVariants as work;
ghost use Rattle.engine.specs.FirstState.{first_state};
ghost use Rattle.program.specs.Hosted.{AreScriptsIn, IsEngineOf};
ghost use Rattle.program.specs.Refused.{IsRefusedBy};
ghost use Rattle.program.specs.Setup.{AreScriptsOf};

use crate::fault::Fault;
use crate::loading::{Loaded, load};
use crate::world::world_of;
use archetype_store::World;
use engine::first_state::first_state;
use engine::{Engine, NewFault};
use program_file::{ProgramFile, document_of};
use schedule_builder::Built;
use script::ScriptBody;
use std::alloc::Global;

/// The engine of a program file, which has at most 1,048,576 bytes, as its runs begin. It has the schedule, the
/// scripts, and the entities and resources as loaded. It is refused as a command that runs the file no time is.
pub fn engine_of(alloc: Global, bytes: &[u8]) -> Result<Engine<ScriptBody>, Fault>
    requires { length bytes.now ≤ 1048576 }
    ensures begun { IfOk result (IsEngineOf bytes.now) }
    ensures refused { IfErr result (IsRefusedBy false 1 (Some bytes.now) None
        (work.Run 0 0 false)) }
{
    let document = document_of(alloc, bytes)?;
    let tables = ProgramFile::read(alloc, &document)?;
    let Loaded {
        built,
        names: _,
        bodies,
        entities,
        resources,
    } = load(alloc, tables)?;
    let world = world_of(alloc, entities.as_slice(), &resources)?;
    begun(alloc, built, bodies, world)
}

/// The scripts of a program file, which has at most 1,048,576 bytes: one for each system, in their order. It is refused as `engine_of` refuses it.
pub fn scripts_of(alloc: Global, bytes: &[u8]) -> Result<Vec<ScriptBody>, Fault>
    requires { length bytes.now ≤ 1048576 }
    ensures scripts { IfOk result (λ scripts. AreScriptsIn bytes.now scripts.items) }
    ensures refused { IfErr result (IsRefusedBy false 1 (Some bytes.now) None
        (work.Run 0 0 false)) }
{
    let document = document_of(alloc, bytes)?;
    let tables = ProgramFile::read(alloc, &document)?;
    let Loaded { bodies, .. } = load(alloc, tables)?;
    Ok(bodies)
}

/// The engine of a schedule and its scripts, over a world.
pub(crate) fn begun(
    alloc: Global,
    built: Built,
    bodies: Vec<ScriptBody>,
    world: World,
) -> Result<Engine<ScriptBody>, Fault>
    requires scripts { AreScriptsOf built bodies.items }
    requires home { AreAllHome world.layout }
    ensures begun { IfOk result (λ engine. engine
        ≡ record {
          schedule = built;
          bodies = map Some bodies.items;
          state = first_state built world.state;
          spoiled = false;
        }) }
    ensures memory { IfErr result (λ fault. fault ≡ Fault.Memory) }
{
    let state = first_state(alloc, &built, world)?;
    match Engine::new(alloc, built, bodies, state) {
        Ok(engine) => Ok(engine),
        Err(NewFault::Memory) => Err(Fault::Memory),
        Err(NewFault::Count) => unreachable!(),
        Err(NewFault::Misfit(_)) => unreachable!(),
    }
}
