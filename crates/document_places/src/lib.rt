// Where the keys and values of a document stand in its text, found by a walk of its own. What is found is a hint: whoever marks a spot compares what stands
// there first.
#![tactic(auto)]

pub mod places;
mod walk;

pub use places::{Places, Spot};
