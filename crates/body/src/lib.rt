// Bodies: what a system is shown at its start, what it writes, and how that is laid over the world.
#![tactic(auto)]

mod closing;
mod columns;
mod condition_answer;
pub mod field_words;
pub mod input;
mod kept_plan;
pub mod memory;
pub mod open_state;
mod opening;
mod plans;
mod room;
pub mod row_order;
mod same_terms;
mod slot_table;
pub mod state;
pub mod system_body;
mod turns;
pub mod view;
pub mod view_column;
mod view_commands;
pub mod view_query;
mod view_values;

pub use input::{Input, PutFault};
pub use memory::Memory;
pub use open_state::OpenState;
pub use room::QueryRoom;
pub use row_order::RowOrder;
pub use state::{Memories, State};
pub use system_body::{Body, BodyFault};
pub use view::View;
pub use view_column::{ColumnAccess, ViewColumn};
pub use view_query::{ColumnIndex, ViewQuery};
