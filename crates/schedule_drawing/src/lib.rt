// The drawing of a schedule: systems in their levels, sets round them, edges, sync points, conditions, and what races.
#![tactic(auto)]

pub mod arrows;
pub mod drawn;
mod folding;
mod marks;
mod places;
mod races;
pub mod titles;

pub use drawn::Drawn;
