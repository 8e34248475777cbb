// The schedule that a program file declares, and the scripts of its systems.

ghost use Rattle.std.specs.Prelude.{◌≡◌, ◌<◌, [], ◌++◌, true, map, length, IfErr, IfOk, OnOk};
ghost use Rattle.kinds.specs.Res.{res_number, event_number};
ghost use Rattle.model.specs.access.Access.{no_params};
ghost use Rattle.program.specs.Said.{declared_said, item_said, system_said, chain_said, names_said, script_said};
ghost use Rattle.program.specs.Refused.{IsScriptRefused, IsUnscripted};
ghost use Rattle.model.specs.steps.Schedule as schedule;
ghost use Rattle.script.specs.Faults.{fits};
ghost use Rattle.program.specs.Setup.{declared_names, AreScriptsOf};

use crate::fault::Fault;
use access_set::Params;
use kinds::{Event, Res};
use program_file::{ChainTable, ItemTable, SystemTable};
use query::Query;
use run_condition::Cond;
use schedule_builder::{Built, ChainDesc, ItemDesc, ScheduleDesc, SystemDesc};
use script::{Block, CheckFault, ScriptBody};
use std::alloc::{AllocError, Global};

/// What a system of a program file does: the name by which it is reported, and its blocks.
#[derive(Drop)]
pub(crate) struct Code<'a> {
    /// The name of the system.
    pub(crate) name: &'a str,
    /// Its blocks, in the order of the file.
    pub(crate) blocks: Vec<Block>,
}

/// The schedule that these sets, systems and chains declare, and what each of the systems does.
pub(crate) fn declare<'a>(
    alloc: Global,
    sets: Vec<ItemTable<'a>>,
    rows: Vec<SystemTable<'a>>,
    chains: &[ChainTable<'a>],
) -> Result<(ScheduleDesc, Vec<Code<'a>>), AllocError>
    ensures said { IfOk result (λ declared. declared.0
        ≡ declared_said sets.entry.items rows.entry.items chains.now) }
    ensures blocks { IfOk result (λ declared. map (λ code. code.blocks) declared.1.items
        ≡ map (λ row. row.blocks) rows.entry.items) }
    ensures count { IfOk result (λ declared. length declared.1.items ≡ length declared.0.systems) }
    ensures names { IfOk result (λ declared. map (λ code. code.name.now) declared.1.items
        ≡ declared_names declared.0) }
{
    let mut desc = declare_sets(alloc, sets)?;
    let mut codes = Vec::with_capacity(alloc, rows.len())?;
    for row in rows {
        let (system, code) = system_of(alloc, row)?;
        desc.add_system(system)?;
        codes.push(code)?;
    }
    declare_chains(alloc, chains, &mut desc)?;
    Ok((desc, codes))
}

// Declares these chains.
fn declare_chains(
    alloc: Global,
    chains: &[ChainTable<'_>],
    desc: &mut ScheduleDesc,
) -> Result<(), AllocError>
    ensures { OnOk result (desc.new
        ≡ record desc.old { chains = desc.old.chains ++ map chain_said chains.now }) }
{
    for chain in chains {
        desc.add_chain(chain_of(alloc, chain)?)?;
    }
    Ok(())
}

// A declared chain.
fn chain_of(alloc: Global, table: &ChainTable<'_>) -> Result<ChainDesc, AllocError>
    ensures { IfOk result (λ chain. chain ≡ chain_said table.now) }
{
    let mut chain = ChainDesc::new(alloc, table.ignores_deferred);
    for name in &table.items {
        chain.add_item(String::from_str(alloc, name)?)?;
    }
    Ok(chain)
}

// The schedule of these sets, without systems and chains yet.
fn declare_sets(alloc: Global, sets: Vec<ItemTable<'_>>) -> Result<ScheduleDesc, AllocError>
    ensures { IfOk result (λ desc. desc
        ≡ record { sets = map item_said sets.entry.items; systems = []; chains = [] }) }
{
    let mut desc = ScheduleDesc::new(alloc);
    for set in sets {
        desc.add_set(item_of(alloc, set)?)?;
    }
    Ok(desc)
}

// A declared system, and what it does.
fn system_of<'a>(
    alloc: Global,
    table: SystemTable<'a>,
) -> Result<(SystemDesc, Code<'a>), AllocError>
    ensures said { IfOk result (λ declared. declared.0 ≡ system_said table.entry) }
    ensures name { IfOk result (λ declared. declared.1.name ≡ table.entry.item.name) }
    ensures blocks { IfOk result (λ declared. declared.1.blocks ≡ table.entry.blocks) }
{
    let name = table.item.name;
    let item = item_of(alloc, table.item)?;
    let mut params = params_of(alloc, table.queries, table.spawns)?;
    add_resources(&mut params, table.res.as_slice(), table.res_mut.as_slice())?;
    add_events(&mut params, table.reads.as_slice(), table.writes.as_slice())?;
    let code = Code {
        name,
        blocks: table.blocks,
    };
    Ok((SystemDesc::of_item(item, params), code))
}

// A declared item.
fn item_of(alloc: Global, table: ItemTable<'_>) -> Result<ItemDesc, AllocError>
    ensures { IfOk result (λ item. item ≡ item_said table.entry) }
{
    let mut item = ItemDesc::new(alloc, String::from_str(alloc, table.name)?);
    add_sets(alloc, &table, &mut item)?;
    add_orders(alloc, &table, &mut item)?;
    add_ignoring(alloc, &table, &mut item)?;
    add_ambiguities(alloc, &table, &mut item)?;
    add_conditions(table.conditions, &mut item)?;
    Ok(item)
}

// Declares the sets that an item is in.
fn add_sets(alloc: Global, table: &ItemTable<'_>, item: &mut ItemDesc) -> Result<(), AllocError>
    ensures { OnOk result (item.new
        ≡ record item.old { inside = item.old.inside ++ names_said table.now.inside.items }) }
{
    for name in &table.inside {
        item.add_in(String::from_str(alloc, name)?)?;
    }
    Ok(())
}

// Declares the orders of an item that wait for commands.
fn add_orders(alloc: Global, table: &ItemTable<'_>, item: &mut ItemDesc) -> Result<(), AllocError>
    ensures { OnOk result (item.new
        ≡ record item.old {
          before = item.old.before
              ++ names_said table.now.before.items;
          after = item.old.after
              ++ names_said table.now.after.items;
        }) }
{
    for name in &table.before {
        item.add_before(String::from_str(alloc, name)?)?;
    }
    for name in &table.after {
        item.add_after(String::from_str(alloc, name)?)?;
    }
    Ok(())
}

// Declares the orders of an item that ignore that commands are deferred.
fn add_ignoring(alloc: Global, table: &ItemTable<'_>, item: &mut ItemDesc) -> Result<(), AllocError>
    ensures { OnOk result (item.new
        ≡ record item.old {
          before_ignore_deferred = item.old.before_ignore_deferred
              ++ names_said table.now.before_ignore_deferred.items;
          after_ignore_deferred = item.old.after_ignore_deferred
              ++ names_said table.now.after_ignore_deferred.items;
        }) }
{
    for name in &table.before_ignore_deferred {
        item.add_before_ignore_deferred(String::from_str(alloc, name)?)?;
    }
    for name in &table.after_ignore_deferred {
        item.add_after_ignore_deferred(String::from_str(alloc, name)?)?;
    }
    Ok(())
}

// Declares with which items an item may be ambiguous.
fn add_ambiguities(
    alloc: Global,
    table: &ItemTable<'_>,
    item: &mut ItemDesc,
) -> Result<(), AllocError>
    ensures { OnOk result (item.new
        ≡ record item.old {
          ambiguous_with = item.old.ambiguous_with
              ++ names_said table.now.ambiguous_with.items;
        }) }
{
    for name in &table.ambiguous_with {
        item.add_ambiguous_with(String::from_str(alloc, name)?)?;
    }
    Ok(())
}

// Declares that an item runs on these conditions.
fn add_conditions(conditions: Vec<Cond>, item: &mut ItemDesc) -> Result<(), AllocError>
    ensures { OnOk result (item.new
        ≡ record item.old { conditions = item.old.conditions ++ conditions.items }) }
{
    for condition in conditions {
        item.add_condition(condition)?;
    }
    Ok(())
}

// The parameters of a system that touches nothing, with Commands where there is a count of ids that it is granted.
fn granted(alloc: Global, spawns: Option<u32>) -> Params
    ensures { result ≡ record no_params { spawns = spawns } }
{
    let mut params = Params::new(alloc);
    if let Some(count) = spawns {
        params.set_spawns(count);
    }
    params
}

// The parameters of a system with these queries, with Commands where there is a count of ids that it is granted, and nothing else.
fn params_of(alloc: Global, queries: Vec<Query>, spawns: Option<u32>) -> Result<Params, AllocError>
    ensures { IfOk result (λ params. params
        ≡ record no_params { queries = queries.items; spawns = spawns }) }
{
    let mut params = granted(alloc, spawns);
    for query in queries {
        params.add_query(query)?;
    }
    Ok(params)
}

// Adds each of these resources, which are read, and each of those, which are written.
fn add_resources(params: &mut Params, res: &[Res], res_mut: &[Res]) -> Result<(), AllocError>
    ensures { OnOk result (params.new
        ≡ record params.old {
          res = params.old.res
              ++ map res_number res.now;
          res_mut = params.old.res_mut
              ++ map res_number res_mut.now;
        }) }
{
    for resource in res {
        params.add_res(*resource)?;
    }
    for resource in res_mut {
        params.add_res_mut(*resource)?;
    }
    Ok(())
}

// Adds a reader of each of these event kinds, and a writer of each of those.
fn add_events(params: &mut Params, reads: &[Event], writes: &[Event]) -> Result<(), AllocError>
    ensures { OnOk result (params.new
        ≡ record params.old {
          reads = params.old.reads
              ++ map event_number reads.now;
          writes = params.old.writes
              ++ map event_number writes.now;
        }) }
{
    for event in reads {
        params.add_reads(*event)?;
    }
    for event in writes {
        params.add_writes(*event)?;
    }
    Ok(())
}

/// The names of the systems, by number.
pub(crate) fn names_of<'a>(alloc: Global, codes: &[Code<'a>]) -> Result<Vec<&'a str>, AllocError>
    ensures { IfOk result (λ names. map (λ name. name.now) names.items
        ≡ map (λ code. code.name.now) codes.now) }
{
    let mut names = Vec::with_capacity(alloc, codes.len())?;
    for code in codes {
        names.push(code.name)?;
    }
    Ok(names)
}

/// The scripts of the systems of a schedule, each of the blocks of its code. The first that doesn't fit its system is reported with the
/// system's name.
pub(crate) fn bodies_of(
    alloc: Global,
    built: &Built,
    codes: Vec<Code<'_>>,
) -> Result<Vec<ScriptBody>, Fault>
    requires { length codes.items ≡ length built.now.systems }
    ensures fitting { IfOk result (λ bodies. AreScriptsOf built.now bodies.items) }
    ensures said { IfOk result (λ bodies. bodies.items
        ≡ map (λ code. script_said code.blocks) codes.entry.items) }
    ensures refused { IfErr result (IsUnscripted built.now
        (map (λ code. code.name.now) codes.entry.items) (map (λ code. script_said code.blocks)
        codes.entry.items)) }
{
    let mut bodies = Vec::with_capacity(alloc, codes.len())?;
    for code in codes {
        let body = body_of(alloc, built, bodies.len(), code)?;
        bodies.push(body)?;
    }
    Ok(bodies)
}

// The script of a system.
fn body_of(alloc: Global, built: &Built, system: usize, code: Code<'_>) -> Result<ScriptBody, Fault>
    requires { system < length built.now.systems }
    ensures said { IfOk result (λ body. body ≡ script_said code.entry.blocks) }
    ensures fit { IfOk result (λ body. fits (schedule.params_of built.now system) body ≡ true) }
    ensures refused { IfErr result (IsScriptRefused built.now system code.entry.name.now
        (script_said code.entry.blocks)) }
{
    let params = built.systems()[system].params();
    match ScriptBody::check(alloc, params, code.blocks) {
        Ok(body) => Ok(body),
        Err(CheckFault::Script(fault)) => Err(Fault::of_script(alloc, code.name, fault)),
        Err(CheckFault::Memory) => Err(Fault::Memory),
    }
}
