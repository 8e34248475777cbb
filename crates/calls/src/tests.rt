// The tests, by what they are of, and what sets them up.

pub mod again;
pub mod board;
pub mod bodies;
pub mod commands;
pub mod engines;
pub mod gates;
pub mod inputs;
pub mod levels;
pub mod moving;
pub mod plans;
pub mod random;
pub mod resources;
pub mod rows;
pub mod runs;
pub mod store;
pub mod threads;
pub mod trials;
pub mod worlds;
