// Orders of items by number, and a cycle of them where there is one.
#![tactic(auto)]

pub mod cycle;
pub mod order;
mod ranks;

pub use cycle::find_cycle;
pub use order::Order;
