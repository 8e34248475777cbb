// A board on which one lead posts jobs, and from which hands take them: each job is taken and collected at most once, with an outcome of its own.
#![tactic(auto)]

pub mod bells;
pub mod board;
pub mod hand;
pub mod lead;
mod plays;
pub mod rule;
pub mod slot_state;
pub mod task;
pub mod view;
pub mod words;

pub use bells::{Bell, Ring};
pub use board::Board;
pub use hand::Hand;
pub use lead::Lead;
pub use rule::{HandOff, hand_off_holds};
pub use slot_state::SlotState;
pub use task::{JobNumber, Task};
pub use view::{Content, View};
pub use words::{Deeds, Place, Slot, Words};
