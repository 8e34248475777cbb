// Requests: what a host asks for, read from a line.
#![tactic(auto)]

mod arguments;
mod command;
mod components;
pub mod laws;
pub mod load;
mod reading;
mod request;
#[cfg(test)]
mod tests;
mod words;

pub use load::{Load, read_load};
pub use reading::read_request;
pub use request::{Request, RequestFault};
