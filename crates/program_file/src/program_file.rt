// What a program file says.

ghost use Rattle.std.specs.Prelude.{IfOk, IfErr, All, map, codes};
ghost use Rattle.program_file.specs.PlaceFault.{IsNoText, IsNoValue, IsOfPlace, NoneIs};
ghost use Rattle.program_file.specs.Faults.{HasBlockKeys, HasBlocks, HasChain, HasEntity, HasItem, HasItemKeys, HasSet, HasSetKeys, HasSystem, HasSystemKeys, HasTop, HasTouchedKeys, IsFaultOf, IsListFault, IsUnkeyed, IsWrong};
ghost use Rattle.tokens.specs.Name.{IsName};
ghost use Rattle.program_file.specs.Keys.{HasOnly, HasTable, HasTables, lent_members};
ghost use Rattle.program_file.specs.Tables.{keys_of_document, AreValuesIn, AreResourcesIn, IsComponentIn, IsEntityIn, AreEntitiesIn, IsSystemIn, AreSetsIn, AreSystemsIn, AreChainsIn, IsItemIn, IsSetIn, IsChainIn, IsBlockTextsIn, AreBlockTextsIn, IsCodeOf, IsRead, IsItemTextsIn, IsItemRead, AreTouchedIn, IsSystemTextsIn, IsSystemRead, AreTextsOf};
ghost use Rattle.program_file.specs.Readings.{AreSpelled};
ghost use Rattle.run_condition.specs.Grammar.{IsCondition};
ghost use Rattle.std.specs.List.{AllZip};
ghost use Rattle.toml.specs.View.{view, table_view};

use crate::fault::FileFault;
use crate::keys::{
    events_at, flag_at, integer_at, integers_of, name_at, names_at, number_at, refuse_missing,
    refuse_unknown, resources_at, table_at, tables_at, texts_at,
};
use crate::place::Place;
use crate::place_fault::PlaceFault;
use crate::readings::{conditions_of, instructions_of, queries_of};
use crate::rounds::rounds_of;
use kinds::{Event, Kind, Res, Value};
use query::Query;
use run_condition::Cond;
use script::{Block, Rounds};
use std::alloc::Global;
use toml::Table;

/// A program file: the values of its resources, its entities, its sets, its systems and its chains, in the order of the file.
#[derive(Drop)]
pub struct ProgramFile<'a> {
    /// The value of each resource, by its number, 0 where the file gives none.
    pub resources: [i64; 8],
    /// The components of each entity, in the order of their keys.
    pub entities: Vec<Vec<Value>>,
    /// The sets.
    pub sets: Vec<ItemTable<'a>>,
    /// The systems.
    pub systems: Vec<SystemTable<'a>>,
    /// The chains.
    pub chains: Vec<ChainTable<'a>>,
}

/// A set of a program file, or what a system has besides its queries and blocks.
#[derive(Drop)]
pub struct ItemTable<'a> {
    /// Its name.
    pub name: &'a str,
    /// The names of the sets that it is in.
    pub inside: Vec<&'a str>,
    /// The names of the items that it runs before.
    pub before: Vec<&'a str>,
    /// The names of the items that it runs after.
    pub after: Vec<&'a str>,
    /// The names of the items that it runs before whatever commands are deferred.
    pub before_ignore_deferred: Vec<&'a str>,
    /// The names of the items that it runs after whatever commands are deferred.
    pub after_ignore_deferred: Vec<&'a str>,
    /// The names of the items with which it may be ambiguous.
    pub ambiguous_with: Vec<&'a str>,
    /// The conditions on which it runs, in order.
    pub conditions: Vec<Cond>,
}

/// A chain of a program file.
#[derive(Drop)]
pub struct ChainTable<'a> {
    /// The names of its items, each of which runs before the next.
    pub items: Vec<&'a str>,
    /// Whether these orders ignore that commands are deferred.
    pub ignores_deferred: bool,
}

/// A system of a program file.
#[derive(Drop)]
pub struct SystemTable<'a> {
    /// Its name, the sets that it is in, and what it runs before and after.
    pub item: ItemTable<'a>,
    /// Its queries, in order.
    pub queries: Vec<Query>,
    /// The resources that it reads, in order.
    pub res: Vec<Res>,
    /// The resources that it writes, in order.
    pub res_mut: Vec<Res>,
    /// The event kinds that it reads, in order.
    pub reads: Vec<Event>,
    /// The event kinds that it writes, in order.
    pub writes: Vec<Event>,
    /// How many ids it is granted at each start, where it has Commands.
    pub spawns: Option<u32>,
    /// Its blocks.
    pub blocks: Vec<Block>,
}

// A set, or what a system has besides its queries and blocks, whose conditions are texts.
#[derive(Drop)]
struct ItemTexts<'a> {
    name: &'a str,
    inside: Vec<&'a str>,
    before: Vec<&'a str>,
    after: Vec<&'a str>,
    before_ignore_deferred: Vec<&'a str>,
    after_ignore_deferred: Vec<&'a str>,
    ambiguous_with: Vec<&'a str>,
    conditions: Vec<&'a str>,
}

// A block whose instructions are texts.
#[derive(Drop)]
struct BlockTexts<'a> {
    rounds: Rounds,
    code: Vec<&'a str>,
}

// What a system touches besides the columns of its queries.
#[derive(Drop)]
struct Touched {
    res: Vec<Res>,
    res_mut: Vec<Res>,
    reads: Vec<Event>,
    writes: Vec<Event>,
    spawns: Option<u32>,
}

// A system whose conditions, queries and instructions are texts.
#[derive(Drop)]
struct SystemTexts<'a> {
    item: ItemTexts<'a>,
    queries: Vec<&'a str>,
    touched: Touched,
    blocks: Vec<BlockTexts<'a>>,
}

const TOP_KEYS: [&str; 5] = ["resources", "entity", "set", "system", "chain"];

// The names of the resources, by number.
const RESOURCE_KEYS: [&str; Res::COUNT] = [
    "Round", "Gravity", "Total", "Seed", "Limit", "Alarm", "Mode", "Step",
];

const SET_KEYS: [&str; 8] = [
    "name",
    "in",
    "before",
    "after",
    "before_ignore_deferred",
    "after_ignore_deferred",
    "ambiguous_with",
    "if",
];

const SYSTEM_KEYS: [&str; 15] = [
    "name",
    "in",
    "before",
    "after",
    "before_ignore_deferred",
    "after_ignore_deferred",
    "ambiguous_with",
    "if",
    "query",
    "res",
    "res_mut",
    "reads",
    "writes",
    "spawns",
    "do",
];

const CHAIN_KEYS: [&str; 2] = ["items", "ignore_deferred"];

const BLOCK_KEYS: [&str; 3] = ["each", "events", "code"];

impl<'a> ProgramFile<'a> {
    /// Reads a document. The places are looked at in this order: the top, the resources, each entity, each set, each system,
    /// each chain. A fault is reported with its place.
    pub fn read(alloc: Global, document: &'a Table) -> Result<ProgramFile<'a>, FileFault>
        ensures keys { IfOk result (λ _. HasOnly keys_of_document (table_view document.now)) }
        ensures resources { IfOk result (λ file. AreResourcesIn (table_view document.now)
            file.resources) }
        ensures entities { IfOk result (λ file. AreEntitiesIn (table_view document.now)
            file.entities.items) }
        ensures sets { IfOk result (λ file. AreSetsIn (table_view document.now) file.sets.items) }
        ensures systems { IfOk result (λ file. AreSystemsIn (table_view document.now)
            file.systems.items) }
        ensures chains { IfOk result (λ file. AreChainsIn (table_view document.now)
            file.chains.items) }
        ensures err { IfErr result IsOfPlace }
        ensures fault { IfErr result (IsFaultOf (table_view document.now)) }
    {
        let top = Top::read(alloc, document).map_err(|fault| fault.at(Place::Top))?;
        let resources = resources_of(top.resources).map_err(|fault| fault.at(Place::Resources))?;
        let entities = entities_of(alloc, top.entities.as_slice())?;
        let sets = sets_of(alloc, top.sets.as_slice())?;
        let systems = systems_of(alloc, top.systems.as_slice())?;
        let chains = chains_of(alloc, top.chains.as_slice())?;
        Ok(ProgramFile {
            resources,
            entities,
            sets,
            systems,
            chains,
        })
    }
}

// The components of each entity.
fn entities_of(alloc: Global, tables: &[&Table]) -> Result<Vec<Vec<Value>>, FileFault>
    ensures ok { IfOk result (λ entities. AllZip
        (λ table components. IsEntityIn (table_view table.now) components.items) tables.now
        entities.items) }
    ensures err { IfErr result IsOfPlace }
    ensures fault { IfErr result (IsListFault (λ number. Place.Entity number) HasEntity IsEntityIn
        (map (λ inner. table_view inner.now) tables.now)) }
{
    let mut entities = Vec::new(alloc);
    for (number, table) in tables.iter().enumerate() {
        let entity = components_of(alloc, table).map_err(|fault| fault.at(Place::Entity(number)))?;
        entities.push(entity)?;
    }
    Ok(entities)
}

// The sets.
fn sets_of<'a>(alloc: Global, tables: &[&'a Table]) -> Result<Vec<ItemTable<'a>>, FileFault>
    ensures ok { IfOk result (λ sets. AllZip (λ table set. IsSetIn (table_view table.now) set)
        tables.now sets.items) }
    ensures err { IfErr result IsOfPlace }
    ensures fault { IfErr result (IsListFault (λ number. Place.Set number) HasSetKeys IsSetIn
        (map (λ inner. table_view inner.now) tables.now)) }
{
    let mut sets = Vec::new(alloc);
    for (number, table) in tables.iter().enumerate() {
        let set = set_of(alloc, table).map_err(|fault| fault.at(Place::Set(number)))?;
        sets.push(set)?;
    }
    Ok(sets)
}

// The systems.
fn systems_of<'a>(alloc: Global, tables: &[&'a Table]) -> Result<Vec<SystemTable<'a>>, FileFault>
    ensures ok { IfOk result (λ systems. AllZip
        (λ table system. IsSystemIn (table_view table.now) system) tables.now systems.items) }
    ensures err { IfErr result IsOfPlace }
    ensures fault { IfErr result (IsListFault (λ number. Place.System number) HasSystemKeys
        IsSystemIn (map (λ inner. table_view inner.now) tables.now)) }
{
    let mut systems = Vec::new(alloc);
    for (number, table) in tables.iter().enumerate() {
        let system = SystemTable::read(alloc, table).map_err(|fault| fault.at(Place::System(
            number,
        )))?;
        systems.push(system)?;
    }
    Ok(systems)
}

// The chains.
fn chains_of<'a>(alloc: Global, tables: &[&'a Table]) -> Result<Vec<ChainTable<'a>>, FileFault>
    ensures ok { IfOk result (λ chains. AllZip
        (λ table chain. IsChainIn (table_view table.now) chain) tables.now chains.items) }
    ensures err { IfErr result IsOfPlace }
    ensures fault { IfErr result (IsListFault (λ number. Place.Chain number) HasChain IsChainIn
        (map (λ inner. table_view inner.now) tables.now)) }
{
    let mut chains = Vec::new(alloc);
    for (number, table) in tables.iter().enumerate() {
        let chain = ChainTable::read(alloc, table).map_err(|fault| fault.at(Place::Chain(number)))?;
        chains.push(chain)?;
    }
    Ok(chains)
}

// Reads the table of a set.
fn set_of<'a>(alloc: Global, table: &'a Table) -> Result<ItemTable<'a>, PlaceFault>
    ensures ok { IfOk result (IsSetIn (table_view table.now)) }
    ensures wrong { IfErr result (IsWrong (HasSetKeys (table_view table.now)) (HasSet (table_view
        table.now))) }
{
    refuse_unknown(table, SET_KEYS.as_slice())?;
    ItemTable::read(alloc, table)
}

impl<'a> ItemTable<'a> {
    /// Reads what a set and a system both have in their tables: all its keys, then its texts.
    pub fn read(alloc: Global, table: &'a Table) -> Result<ItemTable<'a>, PlaceFault>
        ensures named { IfOk result (λ item. IsName item.name.now) }
        ensures inside { IfOk result (λ item. All (λ name. IsName name.now) item.inside.items) }
        ensures before { IfOk result (λ item. All (λ name. IsName name.now) item.before.items) }
        ensures after { IfOk result (λ item. All (λ name. IsName name.now) item.after.items) }
        ensures said { IfOk result (IsItemIn (table_view table.now)) }
        ensures wrong { IfErr result (IsWrong (HasItemKeys (table_view table.now)) (HasItem
            (table_view table.now))) }
    {
        read_item(alloc, ItemTexts::read(alloc, table)?)
    }
}

impl<'a> ItemTexts<'a> {
    // Reads the keys that a set and a system both have.
    fn read(alloc: Global, table: &'a Table) -> Result<ItemTexts<'a>, PlaceFault>
        ensures said { IfOk result (IsItemTextsIn (table_view table.now)) }
        ensures unkeyed { IfErr result (IsUnkeyed (HasItemKeys (table_view table.now))) }
    {
        Ok(ItemTexts {
            name: name_at(table, "name")?,
            inside: names_at(alloc, table, "in")?,
            before: names_at(alloc, table, "before")?,
            after: names_at(alloc, table, "after")?,
            before_ignore_deferred: names_at(alloc, table, "before_ignore_deferred")?,
            after_ignore_deferred: names_at(alloc, table, "after_ignore_deferred")?,
            ambiguous_with: names_at(alloc, table, "ambiguous_with")?,
            conditions: texts_at(alloc, table, "if")?,
        })
    }
}

// The same item, its conditions read.
fn read_item<'a>(alloc: Global, texts: ItemTexts<'a>) -> Result<ItemTable<'a>, PlaceFault>
    ensures ok { IfOk result (IsItemRead texts.entry) }
    ensures only { IfErr result IsNoValue }
    ensures refused { IfErr result (NoneIs (λ conditions. AreSpelled IsCondition conditions
        (map (λ text. text.now) texts.entry.conditions.items))) }
{
    let conditions = conditions_of(alloc, texts.conditions.as_slice())?;
    Ok(ItemTable {
        name: texts.name,
        inside: texts.inside,
        before: texts.before,
        after: texts.after,
        before_ignore_deferred: texts.before_ignore_deferred,
        after_ignore_deferred: texts.after_ignore_deferred,
        ambiguous_with: texts.ambiguous_with,
        conditions,
    })
}

impl<'a> ChainTable<'a> {
    /// Reads the table of a chain.
    pub fn read(alloc: Global, table: &'a Table) -> Result<ChainTable<'a>, PlaceFault>
        ensures names { IfOk result (λ chain. All (λ name. IsName name.now) chain.items.items) }
        ensures said { IfOk result (IsChainIn (table_view table.now)) }
        ensures only { IfErr result IsNoText }
        ensures refused { IfErr result (NoneIs (IsChainIn (table_view table.now))) }
    {
        refuse_unknown(table, CHAIN_KEYS.as_slice())?;
        refuse_missing(table, "items")?;
        Ok(ChainTable {
            items: names_at(alloc, table, "items")?,
            ignores_deferred: flag_at(table, "ignore_deferred")?,
        })
    }
}

impl<'a> SystemTable<'a> {
    /// Reads the table of a system: all its keys, then its texts.
    pub fn read(alloc: Global, table: &'a Table) -> Result<SystemTable<'a>, PlaceFault>
        ensures named { IfOk result (λ system. IsName system.item.name.now) }
        ensures inside { IfOk result (λ system. All (λ name. IsName name.now)
            system.item.inside.items) }
        ensures before { IfOk result (λ system. All (λ name. IsName name.now)
            system.item.before.items) }
        ensures after { IfOk result (λ system. All (λ name. IsName name.now)
            system.item.after.items) }
        ensures said { IfOk result (IsSystemIn (table_view table.now)) }
        ensures wrong { IfErr result (IsWrong (HasSystemKeys (table_view table.now)) (HasSystem
            (table_view table.now))) }
    {
        read_system(alloc, SystemTexts::read(alloc, table)?)
    }
}

impl<'a> SystemTexts<'a> {
    // Reads the keys of a system.
    fn read(alloc: Global, table: &'a Table) -> Result<SystemTexts<'a>, PlaceFault>
        ensures ok { IfOk result (IsSystemTextsIn (table_view table.now)) }
        ensures unkeyed { IfErr result (IsUnkeyed (HasSystemKeys (table_view table.now))) }
    {
        refuse_unknown(table, SYSTEM_KEYS.as_slice())?;
        Ok(SystemTexts {
            item: ItemTexts::read(alloc, table)?,
            queries: texts_at(alloc, table, "query")?,
            touched: Touched::read(alloc, table)?,
            blocks: blocks_of(alloc, table)?,
        })
    }
}

impl Touched {
    // Reads the keys of the resources and events of a system, and how many ids it is granted.
    fn read(alloc: Global, table: &Table) -> Result<Touched, PlaceFault>
        ensures ok { IfOk result (AreTouchedIn (table_view table.now)) }
        ensures unkeyed { IfErr result (IsUnkeyed (HasTouchedKeys (table_view table.now))) }
    {
        Ok(Touched {
            res: resources_at(alloc, table, "res")?,
            res_mut: resources_at(alloc, table, "res_mut")?,
            reads: events_at(alloc, table, "reads")?,
            writes: events_at(alloc, table, "writes")?,
            spawns: number_at(table, "spawns")?,
        })
    }
}

// The same system, its texts read.
fn read_system<'a>(alloc: Global, texts: SystemTexts<'a>) -> Result<SystemTable<'a>, PlaceFault>
    ensures ok { IfOk result (IsSystemRead texts.entry) }
    ensures only { IfErr result IsNoValue }
    ensures refused { IfErr result (NoneIs (AreTextsOf texts.entry)) }
{
    let SystemTexts {
        item,
        queries,
        touched,
        blocks,
    } = texts;
    let table = read_item(alloc, item)?;
    let asked = queries_of(alloc, queries.as_slice())?;
    let code = read_blocks(alloc, blocks.as_slice())?;
    let Touched {
        res,
        res_mut,
        reads,
        writes,
        spawns,
    } = touched;
    Ok(SystemTable {
        item: table,
        queries: asked,
        res,
        res_mut,
        reads,
        writes,
        spawns,
        blocks: code,
    })
}

// The tables at the top of a document.
#[derive(Drop)]
struct Top<'a> {
    resources: Option<&'a Table>,
    entities: Vec<&'a Table>,
    sets: Vec<&'a Table>,
    systems: Vec<&'a Table>,
    chains: Vec<&'a Table>,
}

impl<'a> Top<'a> {
    fn read(alloc: Global, document: &'a Table) -> Result<Top<'a>, PlaceFault>
        ensures keys { IfOk result (λ _. HasOnly keys_of_document (table_view document.now)) }
        ensures resources { IfOk result (λ top. HasTable (codes "resources")
            (lent_members top.resources) (table_view document.now)) }
        ensures entities { IfOk result (λ top. HasTables (codes "entity")
            (map (λ inner. table_view inner.now) top.entities.items) (table_view
            document.now)) }
        ensures sets { IfOk result (λ top. HasTables (codes "set")
            (map (λ inner. table_view inner.now) top.sets.items) (table_view document.now)) }
        ensures systems { IfOk result (λ top. HasTables (codes "system")
            (map (λ inner. table_view inner.now) top.systems.items) (table_view document.now)) }
        ensures chains { IfOk result (λ top. HasTables (codes "chain")
            (map (λ inner. table_view inner.now) top.chains.items) (table_view document.now)) }
        ensures unkeyed { IfErr result (IsUnkeyed (HasTop (table_view document.now))) }
    {
        refuse_unknown(document, TOP_KEYS.as_slice())?;
        Ok(Top {
            resources: table_at(document, "resources")?,
            entities: tables_at(alloc, document, "entity")?,
            sets: tables_at(alloc, document, "set")?,
            systems: tables_at(alloc, document, "system")?,
            chains: tables_at(alloc, document, "chain")?,
        })
    }
}

// The values of the resources, by number.
fn resources_of(table: Option<&Table>) -> Result<[i64; Res::COUNT], PlaceFault>
    ensures ok { IfOk result (AreValuesIn (lent_members table.entry)) }
    ensures only { IfErr result IsNoText }
    ensures refused { IfErr result (NoneIs (AreValuesIn (lent_members table.entry))) }
{
    match table {
        None => Ok([0; Res::COUNT]),
        Some(table) => values_of(table),
    }
}

// The values of the resources by their table.
fn values_of(table: &Table) -> Result<[i64; Res::COUNT], PlaceFault>
    ensures ok { IfOk result (AreValuesIn (table_view table.now)) }
    ensures only { IfErr result IsNoText }
    ensures refused { IfErr result (NoneIs (AreValuesIn (table_view table.now))) }
{
    refuse_unknown(table, RESOURCE_KEYS.as_slice())?;
    let mut values = [0; Res::COUNT];
    for (number, key) in RESOURCE_KEYS.iter().enumerate() {
        values[number] = integer_at(table, key)?;
    }
    Ok(values)
}

// The components of an entity.
fn components_of(alloc: Global, table: &Table) -> Result<Vec<Value>, PlaceFault>
    ensures ok { IfOk result (λ components. IsEntityIn (table_view table.now) components.items) }
    ensures only { IfErr result IsNoText }
    ensures refused { IfErr result (NoneIs (IsEntityIn (table_view table.now))) }
{
    let mut components = Vec::new(alloc);
    for (key, value) in table.iter() {
        components.push(component_of(alloc, key.as_str(), value)?)?;
    }
    Ok(components)
}

// The component whose kind has this name, and this array of its fields.
fn component_of(alloc: Global, name: &str, value: &toml::Value) -> Result<Value, PlaceFault>
    ensures ok { IfOk result (IsComponentIn name.now (view value.now)) }
    ensures only { IfErr result IsNoText }
    ensures refused { IfErr result (NoneIs (IsComponentIn name.now (view value.now))) }
{
    let kind = Kind::named(name).ok_or(PlaceFault::Value)?;
    let fields = integers_of(alloc, value)?;
    if fields.len() != kind.width() {
        return Err(PlaceFault::Value);
    }
    Ok(Value::of(kind, fields.as_slice()))
}

impl<'a> BlockTexts<'a> {
    // Reads the keys of a block.
    fn read(alloc: Global, table: &'a Table) -> Result<BlockTexts<'a>, PlaceFault>
        ensures ok { IfOk result (IsBlockTextsIn (table_view table.now)) }
        ensures unkeyed { IfErr result (IsUnkeyed (HasBlockKeys (table_view table.now))) }
    {
        refuse_unknown(table, BLOCK_KEYS.as_slice())?;
        refuse_missing(table, "code")?;
        Ok(BlockTexts {
            rounds: rounds_of(table)?,
            code: texts_at(alloc, table, "code")?,
        })
    }
}

// The blocks of a system, with their texts.
fn blocks_of<'a>(alloc: Global, table: &'a Table) -> Result<Vec<BlockTexts<'a>>, PlaceFault>
    ensures ok { IfOk result (λ blocks. AreBlockTextsIn (table_view table.now) blocks.items) }
    ensures unkeyed { IfErr result (IsUnkeyed (HasBlocks (table_view table.now))) }
{
    let tables = tables_at(alloc, table, "do")?;
    let mut blocks = Vec::new(alloc);
    for block in &tables {
        blocks.push(BlockTexts::read(alloc, block)?)?;
    }
    Ok(blocks)
}

// The blocks, their texts read.
fn read_blocks(alloc: Global, blocks: &[BlockTexts<'_>]) -> Result<Vec<Block>, PlaceFault>
    ensures ok { IfOk result (λ read. AllZip IsRead blocks.now read.items) }
    ensures only { IfErr result IsNoValue }
    ensures refused { IfErr result (NoneIs (AllZip IsCodeOf blocks.now)) }
{
    let mut read = Vec::new(alloc);
    for block in blocks {
        read.push(read_block(alloc, block)?)?;
    }
    Ok(read)
}

// A block, its texts read.
fn read_block(alloc: Global, block: &BlockTexts<'_>) -> Result<Block, PlaceFault>
    ensures ok { IfOk result (IsRead block.now) }
    ensures only { IfErr result IsNoValue }
    ensures refused { IfErr result (NoneIs (IsCodeOf block.now)) }
{
    Ok(Block {
        rounds: block.rounds,
        code: instructions_of(alloc, block.code.as_slice())?,
    })
}
