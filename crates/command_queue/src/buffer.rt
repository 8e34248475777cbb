// The commands of one system.

ghost use Rattle.std.specs.Prelude.{◌≡◌, ◌==◌, ◌++◌, ◌∷◌, [], OnOk, OnErr, length, map};
ghost use Rattle.model.specs.shown.Outcome.Command.{Spawn, Insert, Remove, Despawn};
ghost use Rattle.kinds.specs.Kind.{kind_number};
ghost use Rattle.kinds.specs.Value.{value_number, value_words};
ghost use Rattle.command_queue.specs.Commands.{command_of};

use crate::command::Command;
use entity_table::Entity;
use kinds::{Component, Kind, Value};
use std::alloc::{AllocError, Global};
use std::marker::Model;

/// The commands that one system issued, in order of issue. Contracts see them by the numbers of kinds and the words of components.
pub struct CommandBuffer {
    commands: Vec<Command>,
}

// One function drops it wherever it is let go.
impl Drop for CommandBuffer {
    fn drop(self) {
        let CommandBuffer { commands: _ } = self;
    }
}

impl Model for CommandBuffer {
    ghost use Rattle.std.specs.Prelude.{List, map};
    ghost use Rattle.model.specs.shown.Outcome as outcome;
    ghost use Rattle.command_queue.specs.Commands.{command_of};

    ghost Value = { List outcome.Command };

    ghost view = { λ b. map command_of b.commands.items };
}

impl CommandBuffer {
    /// No command was issued.
    pub fn new(alloc: Global) -> Self
        ensures { result ≡ [] }
    {
        CommandBuffer {
            commands: Vec::new(alloc),
        }
    }

    /// The entity of a granted id is to live. Where an allocation fails nothing is issued.
    pub fn spawn(&mut self, e: Entity) -> Result<(), AllocError>
        ensures ok { OnOk result (self.new ≡ self.old ++ Spawn e ∷ []) }
        ensures err { OnErr result (self.new ≡ self.old) }
    {
        self.issue(Command::Spawn(e))
    }

    /// The entity is to have a component. Where an allocation fails nothing is issued.
    pub fn insert<C: Component>(&mut self, e: Entity, component: C) -> Result<(), AllocError>
        ensures ok { OnOk result (self.new
            ≡ self.old ++ Insert e C.NUMBER (C.words component) ∷ []) }
        ensures err { OnErr result (self.new ≡ self.old) }
    {
        self.insert_value(e, component.into_value())
    }

    /// The entity is to have a component of any kind. Where an allocation fails nothing is issued.
    pub fn insert_value(&mut self, e: Entity, value: Value) -> Result<(), AllocError>
        ensures ok { OnOk result (self.new
            ≡ self.old ++ Insert e (value_number value) (value_words value) ∷ []) }
        ensures err { OnErr result (self.new ≡ self.old) }
    {
        self.issue(Command::Insert(e, value))
    }

    /// The entity is to have no component of a kind. Where an allocation fails nothing is issued.
    pub fn remove(&mut self, e: Entity, kind: Kind) -> Result<(), AllocError>
        ensures ok { OnOk result (self.new ≡ self.old ++ Remove e (kind_number kind) ∷ []) }
        ensures err { OnErr result (self.new ≡ self.old) }
    {
        self.issue(Command::Remove(e, kind))
    }

    /// The entity is to live no more. Where an allocation fails nothing is issued.
    pub fn despawn(&mut self, e: Entity) -> Result<(), AllocError>
        ensures ok { OnOk result (self.new ≡ self.old ++ Despawn e ∷ []) }
        ensures err { OnErr result (self.new ≡ self.old) }
    {
        self.issue(Command::Despawn(e))
    }

    // Issues a command after the others.
    fn issue(&mut self, command: Command) -> Result<(), AllocError>
        ensures ok { OnOk result (self.new ≡ self.old ++ command_of command ∷ []) }
        ensures err { OnErr result (self.new ≡ self.old) }
    {
        self.commands.push(command)?;
        Ok(())
    }

    /// Whether no command was issued.
    pub fn is_empty(&self) -> bool
        ensures { result ≡ (length self.now == 0) }
    {
        self.commands.is_empty()
    }

    /// Forgets all commands. The room stays for others.
    pub fn clear(&mut self)
        ensures { self.new ≡ [] }
    {
        self.commands.clear();
    }

    /// The commands, in order of issue.
    pub fn commands(&self) -> &[Command]
        ensures { map command_of result.now ≡ self.now }
    {
        self.commands.as_slice()
    }
}
