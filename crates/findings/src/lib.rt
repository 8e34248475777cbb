// What is found in a program file (its schedule, scripts, world and sets), in its schedule and in traces: a witness of each race, where two traces part, the worlds of a run, and their texts.
#![tactic(auto)]

pub mod behind;
pub mod diverging;
pub mod listing;
pub mod loading;
pub mod sets;
pub mod stories;
pub mod texts;
pub mod witness;
mod worlds;

pub use loading::Loaded;
pub use sets::Sets;
