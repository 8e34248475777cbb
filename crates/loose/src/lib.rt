// A box as its pointer, and back.
#![tactic(auto)]

pub mod loose;

pub use loose::Loose;
