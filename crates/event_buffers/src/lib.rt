// The events of each kind that are kept, with their numbers: two buffers a kind, of which the older is dropped when a run opens.
#![tactic(auto)]

pub mod buffers;
pub mod lists;
pub mod queue;

pub use buffers::Events;
pub use lists::{EventList, EventLists};
pub use queue::{Queue, SendFault, Unread};
