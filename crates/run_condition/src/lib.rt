// Run conditions: what they are, and how they are read.
#![tactic(auto)]

mod access;
mod cond;
mod fronts;
mod reading;
mod word;

pub use cond::{Cond, Tree};
