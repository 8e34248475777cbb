// Findings as they are told: for people a text with excerpts of files, for programs a line of JSON.
#![tactic(auto)]

pub mod finding;
pub mod json;
pub mod text;

pub use finding::{Edit, Finding, Heading, Level, Sheet};
