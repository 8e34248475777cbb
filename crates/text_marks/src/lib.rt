// Places in a text: its lines, what of a line is marked, and excerpts of the text that show it.
#![tactic(auto)]

pub mod excerpts;
pub mod lines;
pub mod marks;
pub mod shown;

pub use excerpts::Excerpt;
pub use lines::Line;
pub use marks::{Mark, Span};
