// What a command line asks for, done on readers and writers: the schedule, the scripts and the world that a file gives, the runs, what is
// reported of them, and the faults.
#![tactic(auto)]

mod answer;
pub mod checking;
pub mod created;
pub mod fault;
pub mod file;
pub mod hosting;
pub mod line_faults;
pub mod loading;
pub mod opened;
pub mod recording;
pub mod replaying;
mod schedule;
pub mod serve;
pub mod stand_ins;
pub mod workers;
pub mod world;

pub use created::Created;
pub use fault::Fault;
pub use loading::Loaded;
pub use opened::Opened;
