// Sets of small numbers, as bits.
#![tactic(auto)]

pub mod number_set;

pub use number_set::NumberSet;
