// Kind sets as traces spell them.

ghost use Rattle.std.specs.Prelude.{ℕ, ◌≡◌, ◌≢◌, ◌<◌, ◌≤◌, length, get_or, IfSome, IfNone};
ghost use Rattle.parsing.specs.Reads.{ReadsUnlessMemory, SpellsOnly, SpellsNone};
ghost use Rattle.trace_checker.specs.Grammar.{AreSets, IsNumberBefore};

use crate::numeral::numeral_of;
use model::KindSets;
use parsing::ReadError;
use std::alloc::Global;

// Less than this is the number of any set of kinds.
const SET_LIMIT: u32 = 1_048_576;

/// Reads archetypes: numbers that rise, a space before each.
pub(crate) fn sets_of(alloc: Global, bytes: &[u8]) -> Result<KindSets, ReadError>
    ensures { ReadsUnlessMemory AreSets bytes.now result }
{
    let mut sets = KindSets::none(alloc);
    let mut rest = bytes;
    let mut least = 0;
    while !rest.is_empty() {
        let Some((number, behind)) = next_number(rest) else {
            return Err(ReadError::Outside);
        };
        if number < least || number >= SET_LIMIT {
            return Err(ReadError::Outside);
        }
        sets.add(number)?;
        least = number + 1;
        rest = behind;
    }
    Ok(sets)
}

// A number behind a space, and what follows it.
fn next_number(bytes: &[u8]) -> Option<(u32, &[u8])>
    ensures found { IfSome result (λ found. SpellsOnly IsNumberBefore bytes.now (
      found.0,
      found.1.now,
    )) }
    ensures none { IfNone result (SpellsNone IsNumberBefore bytes.now) }
{
    let [b' ', tail @ ..] = bytes else {
        return None;
    };
    let end = end_of_number(tail);
    let number = numeral_of(&tail[..end])?;
    Some((number, &tail[end..]))
}

// Where the first space is, or the end.
fn end_of_number(bytes: &[u8]) -> usize
    ensures within { result ≤ length bytes.now }
    ensures before { (k : ℕ) → k < result → get_or bytes.now k 0 ≢ 32 }
    ensures space { result < length bytes.now → get_or bytes.now result 0 ≡ 32 }
{
    let mut end = 0;
    while end < bytes.len() && bytes[end] != b' ' {
        end += 1;
    }
    end
}
