// Records of sessions of program files: what is told where one is not taken again, their stories, and where two of them part.
#![tactic(auto)]

pub mod diverging;
pub mod reading;
pub mod stories;
mod texts;
pub mod told;
