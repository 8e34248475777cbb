// Traces: their text, and what a schedule says of one.
#![tactic(auto)]

pub mod check;
pub mod checking;
pub mod line;
mod numeral;
pub mod read;
pub mod replay;
mod sets;
pub mod write;

pub use check::Verdict;
pub use checking::Checker;
pub use line::Line;
pub use read::TextFault;
pub use replay::ReplayFault;
pub use write::WriteFault;
