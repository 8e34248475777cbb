// One command.

use entity_table::Entity;
use kinds::{Kind, Value};

/// What a system asks of the structure of the world. A command on an entity that doesn't live when it is done is skipped.
#[derive(Clone, Copy)]
pub enum Command {
    /// The entity of an id that was granted to the system lives, with no component.
    Spawn(Entity),
    /// The entity has this component. Where it has the kind already the value is replaced and counts as changed;
    /// otherwise it is added.
    Insert(Entity, Value),
    /// The entity has no component of this kind.
    Remove(Entity, Kind),
    /// The entity lives no more.
    Despawn(Entity),
}
