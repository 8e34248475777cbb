// Which steps of a run may come: which are accepted, which fault is reported of one that isn't, and what is ready.
#![tactic(auto)]

mod counts;
pub mod executor;
mod judge;
mod meetings;
mod offer;
pub mod trace;

pub use executor::Core;
pub use executor::room::CoreRoom;
pub use model::steps::{Ready, Step, StepFault};
pub use trace::Trace;
