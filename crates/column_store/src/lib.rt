// Tables: the components of the entities of one archetype, in typed columns with stamps.
#![tactic(auto)]

mod column;
mod column_slot;
mod columns;
mod entity_list;
mod gap_list;
pub mod laws;
mod order;
mod packed;
mod packs;
mod row_numbers;
pub mod row_order;
pub mod stamped;
pub mod table;

pub use row_order::RowOrder;
pub use stamped::{Components, StampedColumn, StampedValue};
pub use table::Table;
