// A row of a query by archetype: whose it is, and where its components are.

use entity_table::Entity;

/// A row of a query. Contracts call a row without components one of the archetype after the last, at the place of its index.
#[derive(Clone, Copy, PartialEq, Eq)]
pub struct Row {
    /// The entity of the row.
    pub entity: Entity,
    /// The number of its archetype among those that have entities, from 0; after the last one for an entity without components.
    pub archetype: u32,
    /// Its place among the entities of the archetype; its index for an entity without components.
    pub place: u32,
}
