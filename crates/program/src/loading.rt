// What a program file declares: its schedule, its scripts, and the entities and resources with which its runs begin.

ghost use Rattle.std.specs.Prelude.{IfErr, IfOk};
ghost use Rattle.program.specs.Loaded.{IsLoadedOf, IsNotLoaded};

use crate::fault::Fault;
use crate::schedule::{bodies_of, declare, names_of};
use kinds::Value;
use program_file::ProgramFile;
use schedule_builder::Built;
use schedule_builder::builder::build;
use script::ScriptBody;
use std::alloc::Global;

/// What the tables of a program file declare, where the builder accepts it and each script fits.
#[derive(Drop)]
pub struct Loaded<'a> {
    /// The schedule.
    pub built: Built,
    /// The names of its systems, by number.
    pub names: Vec<&'a str>,
    /// The script of each system.
    pub bodies: Vec<ScriptBody>,
    /// The entities.
    pub entities: Vec<Vec<Value>>,
    /// The values of the resources, by number.
    pub resources: [i64; 8],
}

/// What these tables declare. The builder's fault, or that of the first script that doesn't fit its system, where there is one.
pub fn load<'a>(alloc: Global, tables: ProgramFile<'a>) -> Result<Loaded<'a>, Fault>
    ensures loaded { IfOk result (IsLoadedOf tables.entry) }
    ensures refused { IfErr result (IsNotLoaded tables.entry) }
{
    let ProgramFile {
        resources,
        entities,
        sets,
        systems,
        chains,
    } = tables;
    let (desc, codes) = declare(alloc, sets, systems, chains.as_slice())?;
    let built = build(alloc, desc)?;
    let names = names_of(alloc, codes.as_slice())?;
    let bodies = bodies_of(alloc, &built, codes)?;
    Ok(Loaded {
        built,
        names,
        bodies,
        entities,
        resources,
    })
}
