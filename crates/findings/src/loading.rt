// A program file that is accepted: its schedule, its scripts, and the world with which it begins.

ghost use Rattle.std.specs.Prelude.{◌≡◌, ℕ, List, Option, Some, length, map, IfErr, IfOk, IfSome};
ghost use Rattle.findings.specs.Loaded.{IsLoaded};
ghost use Rattle.findings.specs.Refusals.{IsUnloaded};
ghost use Rattle.model.specs.state.Loaded.{loaded as loaded_state};
ghost use Rattle.program.specs.Load.{entity_given};
ghost use Rattle.program.specs.Refused.{IsUngiven};
ghost use Rattle.program.specs.Said.{IsShortFile};
ghost use Rattle.toml.specs.Parse.{parse_document};
ghost use Rattle.toml.specs.View.{table_view};

use crate::sets::{Sets, sets_of};
use body::State;
use engine::first_state::first_state;
use kinds::Value;
use program::Fault;
use program::world::world_of;
use program_file::ProgramFile;
use schedule_builder::Built;
use std::alloc::Global;
use toml::Table;

/// What a program file declares, where the builder accepts it and each script fits, with its sets.
#[derive(Drop)]
pub struct Loaded<'a> {
    /// The schedule, its scripts, and what its runs begin with.
    pub file: program::Loaded<'a>,
    /// The sets.
    pub sets: Sets<'a>,
}

/// The declarations of a document, whose text is no longer than a program file may be.
pub fn load<'a>(alloc: Global, document: &'a Table) -> Result<Loaded<'a>, Fault>
    ensures loaded { IfOk result (λ found. (bytes : Option (List ℕ))
        → IfSome bytes IsShortFile
        → IfSome bytes (λ text. parse_document text ≡ Some (table_view document.now))
        → IsLoaded bytes found) }
    ensures refused { IfErr result (λ fault. (bytes : Option (List ℕ))
        → IfSome bytes IsShortFile
        → IfSome bytes (λ text. parse_document text ≡ Some (table_view document.now))
        → IsUnloaded bytes fault) }
{
    let tables = ProgramFile::read(alloc, document)?;
    let sets = sets_of(alloc, tables.sets.as_slice(), tables.systems.as_slice())?;
    let file = program::loading::load(alloc, tables)?;
    Ok(Loaded { file, sets })
}

/// The state with which the first run begins.
pub fn opening(
    alloc: Global,
    built: &Built,
    entities: &[Vec<Value>],
    resources: &[i64; 8],
) -> Result<State, Fault>
    ensures first { IfOk result (λ state. state
        ≡ loaded_state built.now (map entity_given entities.now) resources.now) }
    ensures refused { IfErr result (IsUngiven (length entities.now)) }
{
    let world = world_of(alloc, entities, resources)?;
    Ok(first_state(alloc, built, world)?)
}
