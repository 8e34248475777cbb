// Streams: readers read to their end or line by line, and texts written whole. A call that was interrupted is taken up again; else the first failure answers.
#![tactic(auto)]

pub mod lines;
pub mod reading;
pub mod writing;

pub use lines::Line;
pub use reading::ReadFault;
pub use writing::WriteFault;
