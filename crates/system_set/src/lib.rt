// Sets of systems: which items are in which sets, whether sets hold one another in a circle, and the members of each.
#![tactic(auto)]

mod coverage;
mod crossings;
mod cycles;
mod edges;
mod fault;
mod hierarchy;
mod members;
mod sharing;

pub use coverage::Members;
pub use fault::HierarchyFault;
pub use hierarchy::SetHierarchy;
pub use sharing::Sharing;
