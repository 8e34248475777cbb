// What the systems of a schedule leave for the sync points of their levels: the commands of those that finished, and the ids that each was
// granted.

ghost use Rattle.std.specs.Prelude.{◌≡◌, ◌==◌, ◌<◌, ◌↔◌, ℕ, [], suc, true, false, length, get_or, All, IfErr, IfOk, IsErrOf, OnOk};
ghost use Rattle.model.specs.Lists.{IsIn, is_there};
ghost use Rattle.model.specs.state.Commands.{release};
ghost use Rattle.model.specs.steps.Schedule.{Schedule, level_of};
ghost use Rattle.model.specs.state.Ids.{grant_each, ids_of_each};
ghost use Rattle.model.specs.runs.RunState.{after_commands, after_grant, after_sync, can_sync, counts_of_level, has_ids_for_level, has_tick, spawners_of_level, systems_of_level};
ghost use Rattle.model.specs.state.KindSets.{kind_sets_of};
ghost use Rattle.command_queue.specs.Commands.{commands_of};
ghost use Rattle.body.specs.Steps.{with_slots_in};
ghost use Rattle.engine.specs.Deferred.{AreInHand, IsDeferredFor, IsNothingDeferred, commands_at, emptied, grants_at, grants_of, no_spawners, nothing_deferred, run_with, with_commands, with_each_grant};
ghost use Rattle.engine.specs.Shows.{NoneRunsIn};
ghost use Rattle.engine.specs.Stops.{CannotSync, LacksTick, StopsBy, TellsOf};

use crate::granting::{Spawners, spawners_of};
use crate::stop::Stop;
use archetype_store::fault::GrantFault;
use body::OpenState;
use command_queue::CommandBuffer;
use entity_table::Entity;
use schedule_builder::Built;
use std::alloc::{AllocError, Global};
use std::marker::Model;
use std::mem;

// The systems of a level, in schedule order. Contracts see their numbers.
#[derive(Drop)]
pub(crate) struct Level {
    pub(crate) systems: Vec<u32>,
}

impl Model for Level {
    ghost use Rattle.std.specs.Prelude.{ℕ, List};

    ghost Value = { List ℕ };

    ghost view = { λ l. l.systems.items };
}

// The ids granted to a system. Contracts see them.
#[derive(Drop)]
pub(crate) struct Granted {
    pub(crate) ids: Vec<Entity>,
}

impl Model for Granted {
    ghost use Rattle.std.specs.Prelude.{List};
    ghost use Rattle.model.specs.declared.entities.Entity.{Entity};

    ghost Value = { List Entity };

    ghost view = { λ g. g.ids.items };
}

impl Granted {
    // Takes these ids, and gives its list of before in their place.
    pub(crate) fn exchange(&mut self, ids: &mut Vec<Entity>)
        ensures { self.new ≡ ids.old.items }
    {
        mem::swap(&mut self.ids, ids);
    }
}

/// What the systems of a schedule leave for the sync points of their levels. Contracts see the systems of each level
/// in schedule order, and those of them that have commands, with how many ids each is granted. By system they see the
/// commands and the ids granted. The room of a buffer is used again once its commands are done, and that of a list of
/// ids by a later grant.
#[derive(Drop)]
pub struct Deferred {
    levels: Vec<Level>,
    spawners: Vec<Spawners>,
    commands: Vec<CommandBuffer>,
    grants: Vec<Granted>,
    // Whether something may be deferred: else there is no command and no id.
    has_some: bool,
}

impl Model for Deferred {
    ghost use Rattle.std.specs.Prelude.{◌≡◌, ℕ, [], false, get_or};
    ghost use Rattle.engine.specs.Deferred.{DeferredValue};

    ghost Value = { DeferredValue };

    ghost view = { λ l. record {
      levels = l.levels.items;
      spawners = l.spawners.items;
      commands = l.commands.items;
      grants = l.grants.items;
    } };

    ghost invariant = { λ l. l.has_some ≡ false
        → ((n : ℕ) → get_or l.commands.items n [] ≡ [])
        × ((n : ℕ) → get_or l.grants.items n [] ≡ []) };
}

impl Deferred {
    /// Nothing is deferred, for a schedule.
    pub fn new(alloc: Global, built: &Built) -> Result<Self, AllocError>
        ensures suits { IfOk result (IsDeferredFor built.now) }
        ensures nothing { IfOk result IsNothingDeferred }
    {
        built.prove_law();
        let levels = levels_of(alloc, built)?;
        let spawners = spawners_of(alloc, built, &levels)?;
        let mut commands = Vec::new(alloc);
        let mut grants = Vec::new(alloc);
        for _system in 0..built.count() {
            commands.push(CommandBuffer::new(alloc))?;
            grants.push(Granted {
                ids: Vec::new(alloc),
            })?;
        }
        Ok(Deferred {
            levels,
            spawners,
            commands,
            grants,
            has_some: false,
        })
    }

    /// Nothing is deferred, for no schedule.
    pub(crate) fn none(alloc: Global) -> Self
        ensures { result ≡ nothing_deferred }
    {
        Deferred {
            levels: Vec::new(alloc),
            spawners: Vec::new(alloc),
            commands: Vec::new(alloc),
            grants: Vec::new(alloc),
            has_some: false,
        }
    }

    /// Drops what is deferred; the room of buffers stays.
    pub fn clear(&mut self)
        ensures suits { (s : Schedule) → IsDeferredFor s self.old → IsDeferredFor s self.new }
        ensures nothing { IsNothingDeferred self.new }
    {
        if !self.has_some {
            return;
        }
        empty_commands(&mut self.commands);
        empty_grants(&mut self.grants);
        self.has_some = false;
    }

    /// The buffer of a system that has deferred nothing, for its next commands.
    pub fn take_buffer(&mut self, alloc: Global, system: usize) -> CommandBuffer
        requires known { system < length self.old.commands }
        requires none { commands_at self.old system ≡ [] }
        ensures empty { result ≡ [] }
        ensures same { self.new ≡ self.old }
    {
        mem::replace(&mut self.commands[system], CommandBuffer::new(alloc))
    }

    /// The ids granted to a system.
    pub fn granted(&self, system: usize) -> &[Entity]
        requires known { system < length self.now.grants }
        ensures { result.now ≡ grants_at self.now system }
    {
        let granted = &self.grants[system];
        granted.ids.as_slice()
    }

    /// The grant for a level: its systems with commands, in schedule order, each take the least vacant indices at their generations. Where there
    /// are too few nothing has changed.
    pub(crate) fn grant(
        &mut self,
        alloc: Global,
        built: &Built,
        state: &mut OpenState,
        level: u32,
    ) -> Result<(), GrantFault>
        requires suits { IsDeferredFor built.now self.old }
        ensures granted { OnOk result (run_with state.new.state self.new
            ≡ after_grant built.now level (run_with state.old.state self.old)) }
        ensures layout { OnOk result (state.new.layout ≡ state.old.layout) }
        ensures has { OnOk result (has_ids_for_level built.now level (run_with state.old.state
            self.old)
            ≡ true) }
        ensures suits { OnOk result (IsDeferredFor built.now self.new) }
        ensures in_hand { OnOk result (AreInHand state.old.state.world.slots self.old
            → ((n : ℕ) → level_of built.now n ≡ level → commands_at self.old n ≡ [])
            → AreInHand state.new.state.world.slots self.new) }
        ensures spent { IsErrOf result GrantFault.IdsSpent
            ↔ has_ids_for_level built.now level (run_with state.old.state self.old) ≡ false }
    {
        built.prove_law();
        if built.syncs() <= level {
            return Ok(());
        }
        if self.grants_none(level) {
            return Ok(());
        }
        self.has_some = true;
        let spawners = &mut self.spawners[level as usize];
        spawners.grant(alloc, state, &mut self.grants)?;
        Ok(())
    }

    // Whether no system of a level is granted ids.
    fn grants_none(&self, level: u32) -> bool
        requires { level < length self.now.spawners }
        ensures { result ≡ length (get_or self.now.spawners level no_spawners).systems == 0 }
    {
        self.spawners[level as usize].is_empty()
    }

    /// Keeps the commands of a system that finished.
    pub fn keep(&mut self, system: usize, commands: CommandBuffer)
        requires known { system < length self.old.commands }
        ensures { self.new ≡ with_commands system commands self.old }
    {
        if commands.is_empty() {
            self.commands[system] = commands;
            return;
        }
        self.has_some = true;
        self.commands[system] = commands;
    }

    /// A sync point: the commands of the systems of the level are done, the ids granted to them that were not spawned are freed, and then the
    /// systems of the level above it are granted theirs. Whether there were commands: else the archetypes stay as they are. After a stop the
    /// state is of no more use.
    pub(crate) fn sync(
        &mut self,
        alloc: Global,
        built: &Built,
        state: &mut OpenState,
        point: u32,
    ) -> Result<bool, Stop>
        requires known { point < built.now.syncs }
        requires home { NoneRunsIn built.now self.old state.old }
        requires fresh { (n : ℕ) → level_of built.now n ≡ suc point → commands_at self.old n ≡ [] }
        ensures synced { OnOk result (run_with state.new.state self.new
            ≡ after_sync built.now point (run_with state.old.state self.old)) }
        ensures can { OnOk result (can_sync built.now point (run_with state.old.state self.old)
            ≡ true) }
        ensures home { OnOk result (NoneRunsIn built.now self.new state.new) }
        ensures quiet { IfOk result (λ commanded. commanded ≡ false
            → kind_sets_of state.new.state.world.slots
            ≡ kind_sets_of state.old.state.world.slots) }
        ensures stopped { IfErr result (StopsBy false (CannotSync built.now point (run_with
            state.old.state self.old))) }
        ensures told { TellsOf (LacksTick state.old.state) result }
    {
        built.prove_law();
        let commanded = self.finish_level(alloc, built, state, point)?;
        self.grant(alloc, built, state, point + 1)?;
        Ok(commanded)
    }

    // The first part of a sync point: the clock moves to the next tick, the commands of the systems of the level are done in schedule order at
    // that tick, and the ids granted to them that were not spawned are freed. Whether there were commands: else the kind sets stay as they are.
    // After a stop the state is of no more use.
    fn finish_level(
        &mut self,
        alloc: Global,
        built: &Built,
        state: &mut OpenState,
        point: u32,
    ) -> Result<bool, Stop>
        requires known { point < built.now.syncs }
        requires home { NoneRunsIn built.now self.old state.old }
        ensures synced { OnOk result (run_with state.new.state self.new
            ≡ after_commands built.now point (run_with state.old.state self.old)) }
        ensures ticked { OnOk result (has_tick state.old.state ≡ true) }
        ensures home { OnOk result (NoneRunsIn built.now self.new state.new) }
        ensures quiet { IfOk result (λ commanded. commanded ≡ false
            → kind_sets_of state.new.state.world.slots
            ≡ kind_sets_of state.old.state.world.slots) }
        ensures stopped { IfErr result (StopsBy false (LacksTick state.old.state)) }
        ensures told { TellsOf (LacksTick state.old.state) result }
    {
        built.prove_law();
        let tick = state.next()?;
        if !self.has_some {
            return Ok(false);
        }
        let systems = systems_of(&self.levels, point);
        let commanded = have_commands(&self.commands, systems);
        state.apply(alloc, &self.commands, systems, tick)?;
        free_ids(state, &self.grants, systems);
        clear_places(&mut self.commands, &mut self.grants, systems);
        Ok(commanded)
    }
}

// Drops all commands; the room of buffers stays.
fn empty_commands(commands: &mut [CommandBuffer])
    ensures { (n : ℕ) → get_or commands.new n [] ≡ [] }
{
    for buffer in commands {
        buffer.clear();
    }
}

// Drops all ids.
fn empty_grants(grants: &mut [Granted])
    ensures { (n : ℕ) → get_or grants.new n [] ≡ [] }
{
    for granted in grants {
        granted.ids.clear();
    }
}

// The systems of a level.
fn systems_of(levels: &[Level], level: u32) -> &[u32]
    requires { level < length levels.now }
    ensures { result.now ≡ get_or levels.now level [] }
{
    let level = &levels[level as usize];
    level.systems.as_slice()
}

// Whether these systems have commands.
fn have_commands(commands: &[CommandBuffer], level: &[u32]) -> bool
    requires { All (λ n. n < length commands.now) level.now }
    ensures { result ≡ is_there (commands_of commands.now level.now) }
{
    for system in level {
        if !commands[*system as usize].is_empty() {
            return true;
        }
    }
    false
}

// Drops what these systems deferred; the room of buffers stays.
fn clear_places(commands: &mut [CommandBuffer], grants: &mut [Granted], level: &[u32])
    requires commands { All (λ n. n < length commands.old) level.now }
    requires grants { All (λ n. n < length grants.old) level.now }
    ensures commands { commands.new ≡ emptied level.now commands.old }
    ensures grants { grants.new ≡ emptied level.now grants.old }
{
    for system in level {
        let place = *system as usize;
        commands[place].clear();
        let granted = &mut grants[place];
        granted.ids.clear();
    }
}

// Frees each id granted to these systems that is granted still.
fn free_ids(state: &mut OpenState, grants: &[Granted], level: &[u32])
    requires { All (λ n. n < length grants.now) level.now }
    ensures { state.new
        ≡ record {
          state = with_slots_in
              (release (grants_of grants.now level.now) state.old.state.world.slots)
              state.old.state;
          layout = state.old.layout;
        } }
{
    for system in level {
        let granted = &grants[*system as usize];
        state.release(&granted.ids);
    }
}

// The systems of each level, in schedule order.
fn levels_of(alloc: Global, built: &Built) -> Result<Vec<Level>, AllocError>
    ensures count { IfOk result (λ levels. length levels.items ≡ built.now.syncs) }
    ensures each { IfOk result (λ levels. (k : ℕ) → k < built.now.syncs
        → get_or levels.items k [] ≡ systems_of_level built.now k) }
{
    built.prove_law();
    let mut levels = no_levels(alloc, built.syncs())?;
    for system in built.order() {
        let level = &mut levels[built.level(*system) as usize];
        level.systems.push(*system)?;
    }
    Ok(levels)
}

// So many levels without a system.
fn no_levels(alloc: Global, count: u32) -> Result<Vec<Level>, AllocError>
    ensures count { IfOk result (λ levels. length levels.items ≡ count) }
    ensures each { IfOk result (λ levels. (k : ℕ) → get_or levels.items k [] ≡ []) }
{
    let mut levels = Vec::new(alloc);
    for _level in 0..count {
        levels.push(Level {
            systems: Vec::new(alloc),
        })?;
    }
    Ok(levels)
}
