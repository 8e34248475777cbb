// All that is found.

ghost use Rattle.std.specs.Prelude.{◌≡◌, ◌<◌, OnOk, IfOk, length};
ghost use Rattle.kinds.specs.Kind.{kind_count};
ghost use Rattle.lints.specs.Collected.{Adds, Among};
ghost use Rattle.lints.specs.Lints.{AreLints, IsOfTable};

use crate::constants::{Known, add_of_conditions};
use crate::file::{
    add_of_chains, add_of_event_kinds, add_of_races, add_of_sets, add_of_starts, present_kinds,
};
use crate::lint::Lint;
use crate::repeats::add_of_set_items;
use crate::system::add_of_system;
use ambiguity_report::Pair;
use program_file::{ProgramFile, SystemTable};
use schedule_builder::Built;
use std::alloc::{AllocError, Global};

/// What of a program file is likely a mistake: the file, the schedule that it declares, the members of its sets, and the pairs of its report. No more than fifty are found:
/// those of systems first, then those of sets, chains, conditions, events, resources and races.
pub fn lints_of(
    alloc: Global,
    file: &ProgramFile<'_>,
    built: &Built,
    members: &[Vec<u32>],
    pairs: &[Pair],
) -> Result<Vec<Lint>, AllocError>
    ensures { IfOk result (λ found. AreLints file.now built.now members.now pairs.now
        found.items) }
{
    let mut found = Vec::new(alloc);
    let systems = file.systems.as_slice();
    let present = present_kinds(alloc, file.entities.as_slice(), systems)?;
    add_of_systems(&mut found, systems, present.as_slice())?;
    add_of_sets(&mut found, members)?;
    add_of_set_items(&mut found, file.sets.as_slice())?;
    add_of_chains(&mut found, file.chains.as_slice())?;
    let known = Known {
        built,
        values: &file.resources,
        present: present.as_slice(),
    };
    add_of_conditions(&mut found, &known)?;
    add_of_event_kinds(&mut found, built)?;
    add_of_starts(&mut found, built, &file.resources)?;
    add_of_races(&mut found, pairs)?;
    Ok(found)
}

// Adds what is found of a system.
fn add_of_table(
    found: &mut Vec<Lint>,
    tables: &[SystemTable<'_>],
    number: usize,
    present: &[bool],
) -> Result<(), AllocError>
    requires known { number < length tables.now }
    requires present { length present.now ≡ kind_count }
    ensures { OnOk result (Adds (IsOfTable present.now tables.now number) found.old.items
        found.new.items) }
{
    add_of_system(found, &tables[number], number, present)?;
    Ok(())
}

// Adds what is found of the systems.
fn add_of_systems(
    found: &mut Vec<Lint>,
    tables: &[SystemTable<'_>],
    present: &[bool],
) -> Result<(), AllocError>
    requires { length present.now ≡ kind_count }
    ensures { OnOk result (Adds (Among (length tables.now) (IsOfTable present.now tables.now))
        found.old.items found.new.items) }
{
    for number in 0..tables.len() {
        add_of_table(found, tables, number, present)?;
    }
    Ok(())
}
