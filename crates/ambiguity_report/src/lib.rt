// What races in a built schedule: systems that conflict with neither before the other, and conditions with systems outside them.
#![tactic(auto)]

mod before;
mod races;
pub mod report;

pub use report::Pair;
