// A program file as a document.

ghost use Rattle.std.specs.Prelude.{◌≡◌, Some, None, IfErr, IfOk, IsErrOf};
ghost use Rattle.program_file.specs.PlaceFault.{IsOfBytes};
ghost use Rattle.std.specs.Str.{IsUtf8};
ghost use Rattle.toml.specs.Parse.{parse_document};
ghost use Rattle.toml.specs.View.{table_view};

use crate::fault::FileFault;
use std::alloc::Global;
use toml::Table;

/// The document that the bytes of a program file are. Bytes that are none are `Document`.
pub fn document_of(alloc: Global, bytes: &[u8]) -> Result<Table, FileFault>
    ensures ok { IfOk result (λ table. IsUtf8 bytes.now
        × (parse_document bytes.now ≡ Some (table_view table))) }
    ensures refused { IsErrOf result FileFault.Document → IsUtf8 bytes.now
        → parse_document bytes.now ≡ None }
    ensures only { IfErr result IsOfBytes }
{
    match toml::table_from_slice(alloc, bytes) {
        Ok(table) => Ok(table),
        Err(error) if error.is_memory() => Err(FileFault::Memory),
        Err(_) => Err(FileFault::Document),
    }
}
