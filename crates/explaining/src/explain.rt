// What is found in a file that is refused.

use crate::finding::Found;
use crate::reason::Reason;
use crate::{keys, schedules, scripts, texts};
use program_file::FileFault;
use schedule_builder::BuildFault;
use script::ScriptFault;
use std::alloc::{AllocError, Global};
use toml::Table;

/// What is found in a file that is longer than its limit.
pub fn of_length<'a>() -> Found<'a> {
    Found::bare(Reason::TooLong)
}

/// What is found in bytes that are no document.
pub fn of_bytes<'a>(alloc: Global, bytes: &[u8]) -> Result<Found<'a>, AllocError> {
    match toml::table_from_slice(alloc, bytes) {
        Err(error) if error.is_memory() => Err(AllocError),
        Err(error) => Ok(Found::bare(Reason::Document(error))),
        Ok(_) => Ok(Found::bare(Reason::Other("this is no document"))),
    }
}

/// What is found in a document of which a place is refused.
pub fn of_content<'a>(
    alloc: Global,
    document: &'a Table,
    fault: FileFault,
) -> Result<Found<'a>, AllocError> {
    let found = match fault {
        FileFault::Value(place) => keys::of_place(document, place),
        FileFault::Text(place) => texts::of_place(alloc, document, place)?,
        _ => None,
    };
    Ok(found_or_bare(found))
}

/// What is found in a document of which the schedule is refused.
pub fn of_build<'a>(
    alloc: Global,
    document: &'a Table,
    fault: &'a BuildFault,
) -> Result<Found<'a>, AllocError> {
    let found = schedules::of_fault(alloc, document, fault)?;
    Ok(found_or_bare(found))
}

/// What is found in a document of which a script is refused: that of a system, for an instruction of a block.
pub fn of_script<'a>(document: &'a Table, system: &str, fault: ScriptFault) -> Found<'a> {
    let ScriptFault {
        cause,
        block,
        instruction,
    } = fault;
    found_or_bare(scripts::of_script(document, system, cause, block, instruction))
}

// What was found, if anything was.
fn found_or_bare<'a>(found: Option<Found<'a>>) -> Found<'a> {
    match found {
        Some(found) => found,
        None => Found::bare(Reason::Other("the file is refused")),
    }
}
