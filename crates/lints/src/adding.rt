// How what is found is kept.

ghost use Rattle.std.specs.Prelude.{OnOk};
ghost use Rattle.lints.specs.Collected.{Adds, Tested};

use crate::lint::Lint;
use std::alloc::AllocError;

// No more is found than so many.
const MOST_LINTS: usize = 50;

// Adds what is told where a test holds, unless the list is full.
#[tactic(auto, using(crate::proofs::Growing::adds_full, crate::proofs::Growing::adds_pushed, crate::proofs::Growing::adds_untold))]
pub(crate) fn add_where(found: &mut Vec<Lint>, is: bool, lint: Lint) -> Result<(), AllocError>
    ensures { OnOk result (Adds (Tested is lint) found.old.items found.new.items) }
{
    if found.len() >= MOST_LINTS {
        return Ok(());
    }
    if is {
        found.push(lint)?;
        return Ok(());
    }
    Ok(())
}
