// Why a program file is refused, for people: which word of which line, and what to do.
#![tactic(auto)]

mod build_reason;
mod code_text;
pub mod codes;
mod condition_text;
mod conflicts;
pub mod explain;
pub mod finding;
mod help;
pub mod index;
mod keys;
mod names;
pub mod orders;
pub mod owner;
mod query_text;
mod reason;
mod schedules;
mod script_reason;
mod scripts;
pub mod site;
mod spans;
pub mod target;
pub mod telling;
pub mod terms;
mod text_reason;
mod texts;
pub mod word;

pub use finding::Found;
pub use keys::item_text;
pub use schedules::order_of;
