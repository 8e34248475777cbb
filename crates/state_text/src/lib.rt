// The text of a whole state, read and written, the text of its values, and the digest of these.
#![tactic(auto)]

pub mod digest;
mod events;
mod form;
mod head;
pub mod laws;
mod memories;
pub mod reading;
mod resources;
mod slots;
#[cfg(test)]
mod tests;
pub mod text;
mod words;

pub use digest::{Hex, digest_of, hex_of};
pub use reading::{StateFault, read_state};
pub use text::{text_of_state, values_of_state};
