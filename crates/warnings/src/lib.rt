// What is told of what is likely a mistake in a program file: which word of which line, and what to do.
#![tactic(auto)]

mod places;
mod registers;
mod repeats;
pub mod telling;
mod words;
