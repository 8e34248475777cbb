// The builder: declared systems and orders become a built schedule, or the first thing at fault is reported.
#![tactic(auto)]

mod ascending_list;
pub mod builder;
pub mod built;
pub mod condition;
mod condition_faults;
mod condition_rows;
mod counts;
pub mod desc;
mod desc_parts;
pub mod fault;
mod levels;
mod names;
mod orders;
mod query_faults;
mod relations;
mod schedule_order;
mod self_conflicts;
mod successors;
pub mod system;

pub use built::Built;
pub use condition::Condition;
pub use desc::{ChainDesc, ItemDesc, ScheduleDesc, SystemDesc};
pub use fault::BuildFault;
pub use system::System;
