// Queries: what their terms ask of an entity and show of it, their texts, and what is wrong with one by itself.
#![tactic(auto)]

mod alternative;
mod check;
mod query;
mod reading;
mod term;

pub use alternative::{Alternative, Alternatives};
pub use check::BadQuery;
pub use query::Query;
pub use term::{Presence, Term};
