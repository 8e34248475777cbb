// Why a recorded trace is refused, for people: which of its lines, what of the program file, and what to do.
#![tactic(auto)]

mod blame;
mod next;
mod past;
pub mod phrase;
mod recorded;
mod rows;
pub mod telling;
mod texts;
