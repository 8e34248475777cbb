// Reading of texts: what a reader promises, and the parts of which every text of a program is made.
#![tactic(auto)]

pub mod integer;
pub mod parts;
pub mod read_error;
pub mod words;

pub use read_error::ReadError;
