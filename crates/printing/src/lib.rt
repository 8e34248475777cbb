// What the program prints: the texts of an ambiguity report, and of what is said of traces.
#![tactic(auto)]

pub mod check;
pub mod report;
