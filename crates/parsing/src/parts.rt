// Parts with commas between.

ghost use Rattle.std.specs.Prelude.{IfOk, map};
ghost use Rattle.parsing.specs.Parts.{ArePartsOf};

use std::alloc::{AllocError, Global};

/// The parts of a text between its commas, in order. A text without a comma is one part, and a part may be empty.
pub fn parts_of<'a>(alloc: Global, text: &'a str) -> Result<Vec<&'a str>, AllocError>
    ensures { IfOk result (λ parts. ArePartsOf (map (λ part. part.now) parts.items) text.now) }
{
    text.split(',').collect(alloc)
}
