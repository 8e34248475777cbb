// The ids that a system is granted at its start, and the commands that it issues.

ghost use Rattle.std.specs.Prelude.{◌≡◌, ◌<◌, true, false, [], None, length, is_some, OnOk, OnErr};
ghost use Rattle.kinds.specs.Kind.{kind_number};
ghost use Rattle.kinds.specs.Value.{value_number, value_words};
ghost use Rattle.model.specs.shown.Outcome.Command.{Spawn, Insert, Remove, Despawn};
ghost use Rattle.body.specs.Issued.{IssuedSeen, granted_in, with_issued};

use access_set::Params;
use command_queue::CommandBuffer;
use entity_table::Entity;
use kinds::{Kind, Value};
use std::alloc::{AllocError, Global};
use std::marker::Model;
use std::mem;

/// How many ids a system is granted at each start where it has Commands, those of this start, and the commands so far.
#[derive(Drop)]
pub(crate) struct ViewCommands {
    spawns: Option<u32>,
    granted: Vec<Entity>,
    commands: CommandBuffer,
}

impl Model for ViewCommands {
    ghost use Rattle.std.specs.Prelude.{◌≡◌, false, [], is_some};
    ghost use Rattle.body.specs.Issued.{IssuedSeen};

    ghost Value = { IssuedSeen };

    ghost view = { λ v. record {
      spawns = v.spawns;
      granted = v.granted.items;
      commands = v.commands;
    } };

    ghost invariant = { λ v. is_some v.spawns ≡ false → v.commands ≡ [] };
}

impl ViewCommands {
    // No ids, and no command.
    pub(crate) fn blank(alloc: Global) -> Self
        ensures { result ≡ record { spawns = None; granted = []; commands = [] } }
    {
        ViewCommands {
            spawns: None,
            granted: Vec::new(alloc),
            commands: CommandBuffer::new(alloc),
        }
    }

    // The ids of a start, in the room of those of the start before, and no command.
    pub(crate) fn open(
        &mut self,
        params: &Params,
        granted: &[Entity],
        commands: CommandBuffer,
    ) -> Result<(), AllocError>
        requires { commands ≡ [] }
        ensures { OnOk result (self.new
            ≡ record { spawns = params.now.spawns; granted = granted.now; commands = [] }) }
    {
        if !self.granted.is_empty() || !granted.is_empty() {
            refill(&mut self.granted, granted)?;
        }
        self.spawns = params.spawns();
        self.commands = commands;
        Ok(())
    }

    // What holds of all.
    pub(crate) fn prove_law(&self)
        ensures { is_some self.now.spawns ≡ false → self.now.commands ≡ [] }
    {
        let _spawns = self.spawns;
    }

    // The id of a slot.
    pub(crate) fn granted(&self, slot: usize) -> Entity
        requires { slot < length self.now.granted }
        ensures { result ≡ granted_in self.now.granted slot }
    {
        self.granted[slot]
    }

    // The entity of a slot is to live.
    pub(crate) fn spawn(&mut self, slot: usize) -> Result<(), AllocError>
        requires slot { slot < length self.old.granted }
        requires declared { is_some self.old.spawns ≡ true }
        ensures ok { OnOk result (self.new
            ≡ with_issued (Spawn (granted_in self.old.granted slot)) self.old) }
        ensures err { OnErr result (self.new ≡ self.old) }
    {
        let entity = self.granted[slot];
        self.commands.spawn(entity)
    }

    // An entity is to have a component.
    pub(crate) fn insert(&mut self, e: Entity, value: Value) -> Result<(), AllocError>
        requires { is_some self.old.spawns ≡ true }
        ensures ok { OnOk result (self.new
            ≡ with_issued (Insert e (value_number value) (value_words value)) self.old) }
        ensures err { OnErr result (self.new ≡ self.old) }
    {
        self.commands.insert_value(e, value)
    }

    // An entity is to have no component of a kind.
    pub(crate) fn remove(&mut self, e: Entity, kind: Kind) -> Result<(), AllocError>
        requires { is_some self.old.spawns ≡ true }
        ensures ok { OnOk result (self.new ≡ with_issued (Remove e (kind_number kind)) self.old) }
        ensures err { OnErr result (self.new ≡ self.old) }
    {
        self.commands.remove(e, kind)
    }

    // An entity is to live no more.
    pub(crate) fn despawn(&mut self, e: Entity) -> Result<(), AllocError>
        requires { is_some self.old.spawns ≡ true }
        ensures ok { OnOk result (self.new ≡ with_issued (Despawn e) self.old) }
        ensures err { OnErr result (self.new ≡ self.old) }
    {
        self.commands.despawn(e)
    }

    // Takes the commands, in order of issue.
    pub(crate) fn take_commands(&mut self) -> CommandBuffer
        ensures { result ≡ self.old.commands }
    {
        let none = CommandBuffer::new(*self.granted.allocator());
        mem::replace(&mut self.commands, none)
    }
}

// These entities, in the room of those before.
#[inline(never)]
fn refill(list: &mut Vec<Entity>, entities: &[Entity]) -> Result<(), AllocError>
    ensures { OnOk result (list.new.items ≡ entities.now) }
{
    list.clear();
    list.extend_from_slice(entities)
}
