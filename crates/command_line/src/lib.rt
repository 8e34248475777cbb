// The command line: its words, the commands that a parser reads in them, and what a user asks for.
#![tactic(auto)]

pub mod args;
pub mod grammar;
mod reading;
pub mod values;
pub mod words;

pub use args::{Args, LineFault, Work};
