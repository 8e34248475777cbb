// The lines of a state as they are printed: its world, an entity, the rows of a query, its resources, its kept events.
#![tactic(auto)]

pub mod events;
pub mod rows;
pub mod world;
