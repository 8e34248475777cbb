// Commands: what systems ask of the structure of the world, kept in order of issue until a sync point, and done there.
#![tactic(auto)]

pub mod apply;
pub mod buffer;
mod change_places;
pub mod command;
mod pending;
mod rows;

pub use buffer::CommandBuffer;
pub use command::Command;
