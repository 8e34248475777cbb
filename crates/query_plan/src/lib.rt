// The rows of queries: which entities, where each stands, and the columns that they are in.
#![tactic(auto)]

mod archetype_rows;
mod filter;
mod index_walk;
pub mod kept_rows;
pub mod matched_rows;
mod merge;
pub mod picks;
pub mod plan;
pub mod planned;
pub mod row;
pub mod row_buffers;
pub mod shape;
pub mod spares;

ghost use Rattle.query_plan.specs.Standing.{HomeTellsPicks};

/// Where all columns are at home, so are those that a query picks.
pub fn prove_picks_home()
    ensures { HomeTellsPicks }
{}

pub use kept_rows::Rows;
pub use matched_rows::MatchedRows;
pub use picks::Pick;
pub use planned::Plan;
pub use row::Row;
pub use row_buffers::RowBuffers;
pub use shape::shape_of;
pub use spares::Spares;
