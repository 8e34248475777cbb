// Bodies that note how long they run.
#![tactic(auto)]

pub mod timed;

pub use timed::{Tally, Timed, nanos_since};
