// Worlds of program files that stay live: how one is opened, how it greets, and what bytes that a host sends come to.
#![tactic(auto)]

pub mod greeting;
pub mod lines;
pub mod live_world;
pub mod opening;
pub mod replying;

pub use live_world::LiveWorld;
