// What becomes of entities at a sync point.

ghost use Rattle.std.specs.Prelude.{◌≡◌};
ghost use Rattle.archetype_store.specs.Changes.{row_left};

use column_store::{Components, StampedValue};
use entity_table::Entity;

/// The state in which an entity is left.
pub enum Fate {
    /// It lives, with these components, in rising kinds.
    Lives(Components),
    /// It lives no more.
    Dies,
}

// One function drops it wherever it is let go.
impl Drop for Fate {
    fn drop(self) {
        match self {
            Fate::Lives(_components) => {}
            Fate::Dies => {}
        }
    }
}

/// The change of an entity that lives, or whose id is granted.
pub struct EntityChange {
    /// The entity.
    pub entity: Entity,
    /// The state in which it is left.
    pub fate: Fate,
}

// One function drops it wherever it is let go.
impl Drop for EntityChange {
    fn drop(self) {
        let EntityChange { entity: _, fate: _ } = self;
    }
}

impl EntityChange {
    /// The components that the entity is left with.
    pub fn components(&self) -> &[StampedValue]
        ensures { result.now ≡ row_left self.now.fate }
    {
        match &self.fate {
            Fate::Lives(components) => components.as_slice(),
            Fate::Dies => &[],
        }
    }
}
