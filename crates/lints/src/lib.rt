// What of a program file is likely a mistake, where nothing of it is refused.
#![tactic(auto)]

mod adding;
mod blocks;
mod constants;
mod deeds;
mod file;
pub mod lint;
pub mod linting;
mod queries;
mod repeats;
mod skips;
mod system;

pub use lint::Lint;
