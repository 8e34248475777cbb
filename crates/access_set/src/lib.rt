// What a system may touch: its parameters, and when two of them conflict.
#![tactic(auto)]

pub mod conflict;
pub mod datum;
mod footprint;
pub mod meeting;
pub mod params;
pub mod self_conflict;

pub use datum::Datum;
pub use params::Params;
