// The id book: which indices are vacant, granted, living or retired, and the ids of entities.
#![tactic(auto)]

mod entity_meta;
pub mod fault;
mod granting;
mod min_heap;
pub mod status;
pub mod table;

pub use fault::GrantFault;
pub use model::entities::Entity;
pub use status::Status;
pub use table::EntityTable;
