// The store: what the world holds by entity, its resources and its clock. Components stand in tables, one for each archetype.
#![tactic(auto)]

pub mod change;
mod columns;
pub mod components;
mod entity_rows;
pub mod fault;
mod kind_sets;
pub mod laws;
mod locations;
mod owning;
mod resources;
mod row_moves;
mod settling;
pub mod shapes;
pub mod slot_state;
pub mod store;
mod table_index;
mod table_words;
mod tables;

pub use change::{EntityChange, Fate};
pub use fault::StoreFault;
pub use shapes::Shape;
pub use slot_state::SlotState;
pub use store::World;
