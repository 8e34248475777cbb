// Sessions: an engine that stays between requests, the states that a host keeps by name, and the replies.
#![tactic(auto)]

mod answering;
mod body_lines;
pub mod entry;
mod file_line;
pub mod laws;
pub mod marks;
pub mod play;
pub mod record_fault;
pub mod replaying;
pub mod reply;
mod saving;
pub mod session;

pub use marks::Marks;
pub use record_fault::{EntryFault, RecordFault};
pub use reply::{Answered, Refusal, Reply, Shown};
pub use session::Session;
