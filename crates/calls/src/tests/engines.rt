// Engines of systems with some parameters and bodies, and scripts.

ghost use Rattle.std.specs.Prelude.{};
ghost use Rattle.archetype_store.specs.Layout.{AreAllHome};

use crate::tests::bodies::TestBody;
use access_set::Params;
use archetype_store::World;
use body::{Body, State};
use engine::first_state::first_state;
use engine::{Engine, NewFault};
use query::Query;
use schedule_builder::builder::build;
use schedule_builder::{Built, ChainDesc, ScheduleDesc, SystemDesc};
use script::{Block, Instruction, Rounds, ScriptBody};
use std::alloc::Global;

/// The parameters of a system with this query.
pub(crate) fn params(alloc: Global, query: &str) -> Option<Params> {
    let mut params = Params::new(alloc);
    params.add_query(Query::read(alloc, query).ok()?).ok()?;
    Some(params)
}

/// The parameters of a system with this query that gives commands and is granted so many ids.
pub(crate) fn commanding(alloc: Global, query: &str, spawns: u32) -> Option<Params> {
    let mut params = params(alloc, query)?;
    params.set_spawns(spawns);
    Some(params)
}

/// The script of these instructions, in one block.
pub(crate) fn script(
    alloc: Global,
    params: &Params,
    rounds: Rounds,
    instructions: &[&str],
) -> Option<ScriptBody> {
    let code = code(alloc, instructions)?;
    let mut blocks = Vec::new(alloc);
    blocks.push(Block { rounds, code }).ok()?;
    ScriptBody::check(alloc, params, blocks).ok()
}

// What these texts say.
fn code(alloc: Global, instructions: &[&str]) -> Option<Vec<Instruction>> {
    let mut code = Vec::new(alloc);
    for instruction in instructions {
        code.push(Instruction::read(alloc, instruction).ok()?).ok()?;
    }
    Some(code)
}

/// The schedule of systems with these parameters, in no order.
pub(crate) fn built_of(alloc: Global, params: Vec<Params>) -> Option<Box<Built>> {
    let desc = declared(alloc, params)?;
    Box::new(alloc, build(alloc, desc).ok()?).ok()
}

// The same where each system but the first comes after the one before it.
fn chained(alloc: Global, params: Vec<Params>) -> Option<Box<Built>> {
    let mut desc = declared(alloc, params)?;
    let mut chain = ChainDesc::new(alloc, false);
    for system in desc.systems() {
        chain
            .add_item(String::from_str(alloc, system.item().name()).ok()?)
            .ok()?;
    }
    desc.add_chain(chain).ok()?;
    Box::new(alloc, build(alloc, desc).ok()?).ok()
}

// Systems with these parameters, each named by its number.
fn declared(alloc: Global, params: Vec<Params>) -> Option<ScheduleDesc> {
    let mut desc = ScheduleDesc::new(alloc);
    let mut number = 0u32;
    for params in params {
        add_system(&mut desc, alloc, number, params)?;
        number = number.wrapping_add(1);
    }
    Some(desc)
}

// Adds a system that is named by a number.
fn add_system(desc: &mut ScheduleDesc, alloc: Global, number: u32, params: Params) -> Option<()> {
    let name = format!(in alloc; "s{number}").ok()?;
    desc.add_system(SystemDesc::new(alloc, name, params)).ok()
}

// The state in which an engine of a schedule begins, over a world.
fn begun(alloc: Global, built: &Built, world: Box<World>) -> Option<Box<State>>
    requires { AreAllHome world.value.layout }
{
    Box::new(
        alloc,
        first_state(alloc, built, Box::into_inner(world)).ok()?,
    )
    .ok()
}

/// An engine of systems with these parameters and bodies, over a world, or why there is none. Engines, worlds and what they are made of stand in
/// boxes in these tests, since each function that holds one by value is dear to prove.
pub(crate) fn made<B: Body>(
    alloc: Global,
    world: Box<World>,
    params: Vec<Params>,
    bodies: Vec<B>,
) -> Option<Result<Box<Engine<B>>, NewFault>>
    requires { AreAllHome world.value.layout }
{
    let built = built_of(alloc, params)?;
    engine_of(alloc, built, world, bodies)
}

// The same of a schedule.
fn engine_of<B: Body>(
    alloc: Global,
    built: Box<Built>,
    world: Box<World>,
    bodies: Vec<B>,
) -> Option<Result<Box<Engine<B>>, NewFault>>
    requires { AreAllHome world.value.layout }
{
    let state = begun(alloc, &built, world)?;
    match Engine::new(
        alloc,
        Box::into_inner(built),
        bodies,
        Box::into_inner(state),
    ) {
        Ok(engine) => Some(Ok(Box::new(alloc, engine).ok()?)),
        Err(fault) => Some(Err(fault)),
    }
}

/// An engine of a test.
pub type TestEngine = Box<Engine<TestBody>>;

/// Systems of an engine: the parameters and the body of each.
#[derive(Drop)]
pub struct Systems {
    params: Vec<Params>,
    bodies: Vec<TestBody>,
}

impl Systems {
    /// No system.
    pub(crate) fn new(alloc: Global) -> Self {
        Systems {
            params: Vec::new(alloc),
            bodies: Vec::new(alloc),
        }
    }

    /// Adds a system. None where an allocation fails.
    pub(crate) fn add(&mut self, params: Params, body: TestBody) -> Option<()> {
        self.params.push(params).ok()?;
        self.bodies.push(body).ok()
    }

    /// Adds a system with this query that follows a script.
    pub(crate) fn follow(
        &mut self,
        alloc: Global,
        params: Params,
        rounds: Rounds,
        instructions: &[&str],
    ) -> Option<()> {
        let script = script(alloc, &params, rounds, instructions)?;
        self.add(params, TestBody::Follow(script))
    }

    /// The engine of these systems over a world.
    pub(crate) fn engine(self, alloc: Global, world: Box<World>) -> Option<TestEngine>
        requires { AreAllHome world.value.layout }
    {
        made(alloc, world, self.params, self.bodies)?.ok()
    }

    /// The engine of these systems over a world, each after the one before it.
    pub(crate) fn chain(self, alloc: Global, world: Box<World>) -> Option<TestEngine>
        requires { AreAllHome world.value.layout }
    {
        let built = chained(alloc, self.params)?;
        engine_of(alloc, built, world, self.bodies)?.ok()
    }
}
