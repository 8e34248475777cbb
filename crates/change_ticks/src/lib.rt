// Ticks: the clock that gives them, and the stamps by which changes are found.
#![tactic(auto)]

pub mod clock;
pub mod stamp;

pub use clock::{Clock, ClockSpent, Tick};
pub use stamp::Stamp;
