// What commands make of entities, kept until it is done in the world.

ghost use Rattle.std.specs.Prelude.{ℕ, ◌≡◌, ◌≤◌, ◌∷◌, [], true, None, Some, map, min, suc, OnOk, IfOk};
ghost use Rattle.kinds.specs.Kind.{kind_number};
ghost use Rattle.kinds.specs.Value.{value_number, value_words};
ghost use Rattle.model.specs.state.State.{most_passed_over};
ghost use Rattle.model.specs.state.Commands.{apply_command, apply_buffer};
ghost use Rattle.model.specs.shown.Outcome.{spawned_by};
ghost use Rattle.model.specs.shown.Outcome.Command.{Insert, Remove, Despawn};
ghost use Rattle.archetype_store.specs.Layout.{AreAllHome};
ghost use Rattle.archetype_store.specs.Changes.{AreOfOtherIndices};
ghost use Rattle.command_queue.specs.Commands.{command_of, index_in};
ghost use Rattle.command_queue.specs.Pending.{bare_change, place_of, put_change, AreInTurn, ArePlaced, IsNoted, IsLast, IsKnownPlace, IsPending, target_of, Stands, IsOpen, CanSpawn};

use crate::change_places::ChangePlaces;
use crate::command::Command;
use crate::rows::{fill_kept, insert_kept, keeps, remove_kept};
use archetype_store::{EntityChange, Fate, World};
use change_ticks::Tick;
use column_store::Components;
use entity_table::Entity;
use kinds::{Kind, Value};
use std::alloc::{AllocError, Global};

// For so many indices a command the places of changes stand in a list: it costs less than a map as long as commands are not far fewer than
// indices.
const INDICES: usize = 16;

// The greatest count of commands passed over.
const MOST_PASSED_OVER: u64 = 1 << 62;

// How an entity stands once the commands so far are done.
#[derive(Clone, Copy)]
pub(crate) enum EntityState {
    // It lives, as the change at this place leaves it.
    Changed(usize),
    // It lives, and no command changed it.
    Unchanged,
    // It doesn't live.
    Dead,
}

// What the commands so far make of entities: the last change of each, and how many commands were passed over.
#[derive(Drop)]
pub(crate) struct Pending {
    pub(crate) changes: Vec<EntityChange>,
    // The place of each change by its index, once a command came whose index is before that of the last change: up to then indices rise.
    places: Option<ChangePlaces>,
    // The places of indices below this one are kept in a list.
    listed: usize,
    pub(crate) passed_over: u64,
}

// The index of the entity of a command.
fn index_of(command: Command) -> u32
    ensures { result ≡ index_in command }
{
    match command {
        Command::Spawn(e) => e.index,
        Command::Insert(e, _value) => e.index,
        Command::Remove(e, _kind) => e.index,
        Command::Despawn(e) => e.index,
    }
}

// Whether an index isn't before that of the last change.
fn comes_last(changes: &[EntityChange], index: u32) -> bool
    requires apart { AreOfOtherIndices changes.now }
    ensures { result ≡ true → AreInTurn changes.now → IsLast changes.now index }
{
    let count = changes.len();
    if count == 0 {
        return true;
    }
    changes[count - 1].entity.index <= index
}

// Notes the place of the change of a further index, where places are kept.
fn note_place(places: &mut Option<ChangePlaces>, index: u32, place: usize) -> Result<(), AllocError>
    ensures { OnOk result (IsNoted places.old index place places.new) }
{
    if let Some(places) = places {
        places.insert(index, place)?;
    }
    Ok(())
}

// The place of each change by its index, for indices below this one by a list.
fn places_of(
    alloc: Global,
    listed: usize,
    changes: &[EntityChange],
) -> Result<ChangePlaces, AllocError>
    requires { AreOfOtherIndices changes.now }
    ensures { IfOk result (λ places. ArePlaced (Some places) changes.now) }
{
    let mut places = ChangePlaces::new(alloc, listed);
    for place in 0..changes.len() {
        places.insert(changes[place].entity.index, place)?;
    }
    Ok(places)
}

impl Pending {
    // No command was done, with room for the changes of so many in this list.
    pub(crate) fn new(mut changes: Vec<EntityChange>, commands: usize) -> Result<Self, AllocError>
        requires { changes.items ≡ [] }
        ensures changes { IfOk result (λ pending. pending.changes.items ≡ []) }
        ensures places { IfOk result (λ pending. ArePlaced pending.places []) }
        ensures passed { IfOk result (λ pending. pending.passed_over ≡ 0) }
    {
        changes.reserve(commands)?;
        Ok(Pending {
            changes,
            places: None,
            listed: commands.saturating_mul(INDICES),
            passed_over: 0,
        })
    }

    // Has the places of changes kept, where an index is before that of the last one.
    fn tell(&mut self, alloc: Global, index: u32) -> Result<(), AllocError>
        requires apart { AreOfOtherIndices self.old.changes.items }
        requires placed { ArePlaced self.old.places self.old.changes.items }
        ensures changes { self.new.changes ≡ self.old.changes }
        ensures passed { self.new.passed_over ≡ self.old.passed_over }
        ensures placed { ArePlaced self.new.places self.new.changes.items }
        ensures told { OnOk result (IsKnownPlace self.new.places self.new.changes.items index) }
    {
        if let Some(_places) = &self.places {
            return Ok(());
        }
        if comes_last(&self.changes, index) {
            return Ok(());
        }
        let places = places_of(alloc, self.listed, &self.changes)?;
        self.places = Some(places);
        Ok(())
    }

    // Adds the first change of an index.
    fn add(&mut self, change: EntityChange) -> Result<(), AllocError>
        requires placed { ArePlaced self.old.places self.old.changes.items }
        requires told { IsKnownPlace self.old.places self.old.changes.items change.entity.index }
        requires first { place_of change.entity.index self.old.changes.items ≡ None }
        ensures changes { OnOk result (self.new.changes.items
            ≡ put_change change self.old.changes.items) }
        ensures placed { OnOk result (ArePlaced self.new.places self.new.changes.items) }
        ensures passed { self.new.passed_over ≡ self.old.passed_over }
    {
        note_place(&mut self.places, change.entity.index, self.changes.len())?;
        self.changes.push(change)?;
        Ok(())
    }

    // Adds the first change of an index: its entity lives, without components.
    fn add_bare(&mut self, alloc: Global, e: Entity) -> Result<(), AllocError>
        requires placed { ArePlaced self.old.places self.old.changes.items }
        requires told { IsKnownPlace self.old.places self.old.changes.items e.index }
        requires first { place_of e.index self.old.changes.items ≡ None }
        ensures changes { OnOk result (self.new.changes.items
            ≡ put_change (bare_change e) self.old.changes.items) }
        ensures placed { OnOk result (ArePlaced self.new.places self.new.changes.items) }
        ensures passed { self.new.passed_over ≡ self.old.passed_over }
    {
        note_place(&mut self.places, e.index, self.changes.len())?;
        self.changes.push(EntityChange {
            entity: e,
            fate: Fate::Lives(Components::new(alloc)),
        })?;
        Ok(())
    }

    // Counts a command that is passed over.
    fn pass_over(&mut self)
        ensures changes { self.new.changes ≡ self.old.changes }
        ensures places { self.new.places ≡ self.old.places }
        ensures passed { self.new.passed_over ≡ min (suc self.old.passed_over) most_passed_over }
    {
        if self.passed_over < MOST_PASSED_OVER {
            self.passed_over += 1;
        } else {
            self.passed_over = MOST_PASSED_OVER;
        }
    }

    // The place of the change of an index. The change that came last is looked at first, since the commands of an entity mostly follow one another.
    fn place(&self, index: u32) -> Option<usize>
        requires apart { AreOfOtherIndices self.now.changes.items }
        requires placed { ArePlaced self.now.places self.now.changes.items }
        requires told { IsKnownPlace self.now.places self.now.changes.items index }
        ensures { result ≡ place_of index self.now.changes.items }
    {
        let count = self.changes.len();
        if count == 0 {
            return None;
        }
        if self.changes[count - 1].entity.index == index {
            return Some(count - 1);
        }
        match &self.places {
            None => None,
            Some(places) => places.get(index),
        }
    }

    // How an entity stands.
    fn find(&self, world: &World, e: Entity) -> EntityState
        requires pending { IsPending world.now.state self.now }
        requires told { IsKnownPlace self.now.places self.now.changes.items e.index }
        ensures { Stands world.now.state.slots self.now.changes.items e result }
    {
        match self.place(e.index) {
            None => {
                if world.lives(e) {
                    EntityState::Unchanged
                } else {
                    EntityState::Dead
                }
            }
            Some(place) => {
                if keeps(&self.changes[place], e.generation) {
                    EntityState::Changed(place)
                } else {
                    EntityState::Dead
                }
            }
        }
    }

    // The place of the change of an entity that lives: where it had none it gets one, which leaves it as it is.
    fn open(&mut self, alloc: Global, world: &World, e: Entity) -> Result<Option<usize>, AllocError>
        requires home { AreAllHome world.now.layout }
        requires pending { IsPending world.now.state self.old }
        requires told { IsKnownPlace self.old.places self.old.changes.items e.index }
        ensures pending { OnOk result (IsPending world.now.state self.new) }
        ensures same { OnOk result (target_of world.now.state self.new
            ≡ target_of world.now.state self.old) }
        ensures open { IfOk result (IsOpen world.now.state.slots self.new.changes.items e) }
    {
        match self.find(world, e) {
            EntityState::Dead => Ok(None),
            EntityState::Changed(place) => Ok(Some(place)),
            EntityState::Unchanged => {
                // Proves that the components of a world are of its shape.
                let _now = world.now();
                let place = self.changes.len();
                self.add_bare(alloc, e)?;
                fill_kept(&mut self.changes[place], world)?;
                Ok(Some(place))
            }
        }
    }

    // Inserts a component of an entity that lives.
    fn insert(
        &mut self,
        alloc: Global,
        world: &World,
        e: Entity,
        value: Value,
        tick: Tick,
    ) -> Result<(), AllocError>
        requires past { tick ≤ world.now.state.clock }
        requires home { AreAllHome world.now.layout }
        requires pending { IsPending world.now.state self.old }
        requires told { IsKnownPlace self.old.places self.old.changes.items e.index }
        ensures pending { OnOk result (IsPending world.now.state self.new) }
        ensures done { OnOk result (target_of world.now.state self.new
            ≡ apply_command tick (target_of world.now.state self.old) (Insert e
            (value_number value) (value_words value))) }
    {
        match self.open(alloc, world, e)? {
            None => self.pass_over(),
            Some(place) => insert_kept(&mut self.changes[place], value, tick)?,
        }
        Ok(())
    }

    // Removes the component of a kind of an entity that lives.
    fn remove(
        &mut self,
        alloc: Global,
        world: &World,
        e: Entity,
        kind: Kind,
    ) -> Result<(), AllocError>
        requires home { AreAllHome world.now.layout }
        requires pending { IsPending world.now.state self.old }
        requires told { IsKnownPlace self.old.places self.old.changes.items e.index }
        ensures pending { OnOk result (IsPending world.now.state self.new) }
        ensures done { (tick : ℕ)
            → OnOk result (target_of world.now.state self.new
            ≡ apply_command tick (target_of world.now.state self.old) (Remove e (kind_number
            kind))) }
    {
        match self.open(alloc, world, e)? {
            None => self.pass_over(),
            Some(place) => remove_kept(&mut self.changes[place], kind.number()),
        }
        Ok(())
    }

    // An entity that lives dies.
    fn despawn(&mut self, world: &World, e: Entity) -> Result<(), AllocError>
        requires pending { IsPending world.now.state self.old }
        requires told { IsKnownPlace self.old.places self.old.changes.items e.index }
        ensures pending { OnOk result (IsPending world.now.state self.new) }
        ensures done { (tick : ℕ)
            → OnOk result (target_of world.now.state self.new
            ≡ apply_command tick (target_of world.now.state self.old) (Despawn e)) }
    {
        match self.find(world, e) {
            EntityState::Dead => self.pass_over(),
            EntityState::Changed(place) => self.changes[place].fate = Fate::Dies,
            EntityState::Unchanged => self.add(EntityChange {
                entity: e,
                fate: Fate::Dies,
            })?,
        }
        Ok(())
    }

    // Does one command, where the place of the change of its entity is kept.
    fn known_command(
        &mut self,
        alloc: Global,
        world: &World,
        command: Command,
        tick: Tick,
    ) -> Result<(), AllocError>
        requires past { tick ≤ world.now.state.clock }
        requires home { AreAllHome world.now.layout }
        requires pending { IsPending world.now.state self.old }
        requires told { IsKnownPlace self.old.places self.old.changes.items (index_in command) }
        requires spawns { CanSpawn (target_of world.now.state self.old).slots (spawned_by
            (command_of command ∷ [])) }
        ensures pending { OnOk result (IsPending world.now.state self.new) }
        ensures done { OnOk result (target_of world.now.state self.new
            ≡ apply_command tick (target_of world.now.state self.old) (command_of command)) }
    {
        match command {
            Command::Spawn(e) => {
                self.add_bare(alloc, e)?;
                Ok(())
            }
            Command::Insert(e, value) => self.insert(alloc, world, e, value, tick),
            Command::Remove(e, kind) => self.remove(alloc, world, e, kind),
            Command::Despawn(e) => self.despawn(world, e),
        }
    }

    // Does one command.
    fn command(
        &mut self,
        alloc: Global,
        world: &World,
        command: Command,
        tick: Tick,
    ) -> Result<(), AllocError>
        requires past { tick ≤ world.now.state.clock }
        requires home { AreAllHome world.now.layout }
        requires pending { IsPending world.now.state self.old }
        requires spawns { CanSpawn (target_of world.now.state self.old).slots (spawned_by
            (command_of command ∷ [])) }
        ensures pending { OnOk result (IsPending world.now.state self.new) }
        ensures done { OnOk result (target_of world.now.state self.new
            ≡ apply_command tick (target_of world.now.state self.old) (command_of command)) }
    {
        self.tell(alloc, index_of(command))?;
        self.known_command(alloc, world, command, tick)
    }

    // Does the commands of a buffer, in order of issue.
    pub(crate) fn buffer(
        &mut self,
        alloc: Global,
        world: &World,
        commands: &[Command],
        tick: Tick,
    ) -> Result<(), AllocError>
        requires past { tick ≤ world.now.state.clock }
        requires home { AreAllHome world.now.layout }
        requires pending { IsPending world.now.state self.old }
        requires spawns { CanSpawn (target_of world.now.state self.old).slots (spawned_by (map
            command_of commands.now)) }
        ensures pending { OnOk result (IsPending world.now.state self.new) }
        ensures done { OnOk result (target_of world.now.state self.new
            ≡ apply_buffer tick (target_of world.now.state self.old) (map command_of
            commands.now)) }
    {
        for command in commands {
            self.command(alloc, world, *command, tick)?;
        }
        Ok(())
    }
}
