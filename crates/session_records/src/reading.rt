// The entries of a record, read from its text.

ghost use Rattle.std.specs.Prelude.{◌≡◌, ◌++◌, ◌∷◌, [], ◌<◌, ◌^◌, length, IfOk, OnOk};
ghost use Rattle.session_records.specs.Entries.{AreEntries};

use session::RecordFault;
use session::entry::Entry;
use session::replaying::next_entry;
use std::alloc::{AllocError, Global};

/// The entries of a record, in order.
#[derive(Drop)]
pub struct Entries<'a> {
    /// They.
    pub items: Vec<Entry<'a>>,
    /// What is left behind them: an entry that is cut short, or nothing.
    pub rest: &'a [u8],
}

/// The entries that a text has, which stands behind the first line of a record. The first that can't be read ends it, and so does memory, or an entry
/// past 4,294,967,294 others.
pub fn entries_of(alloc: Global, text: &[u8]) -> Result<Entries<'_>, RecordFault>
    ensures read { IfOk result (λ found. AreEntries text.now found.items.items found.rest.now) }
    ensures few { IfOk result (λ found. length found.items.items < 2 ^ 32) }
{
    let mut items = Vec::new(alloc);
    let mut rest = text;
    for before in 0..4_294_967_295_usize {
        let Some((entry, behind)) = next_entry(alloc, rest, before)? else {
            return Ok(Entries { items, rest });
        };
        push(&mut items, entry)?;
        rest = behind;
    }
    Err(RecordFault::Memory)
}

// Adds an entry.
fn push<'a>(items: &mut Vec<Entry<'a>>, entry: Entry<'a>) -> Result<(), AllocError>
    ensures { OnOk result (items.new.items ≡ items.old.items ++ entry.entry ∷ []) }
{
    items.push(entry)?;
    Ok(())
}
