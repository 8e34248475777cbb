// Program files: their documents, and what these say: names, keys, texts.
#![tactic(auto)]

mod document;
mod fault;
mod keys;
mod place;
mod place_fault;
mod program_file;
mod readings;
mod rounds;

pub use document::document_of;
pub use fault::FileFault;
pub use place::Place;
pub use program_file::{ChainTable, ItemTable, ProgramFile, SystemTable};
