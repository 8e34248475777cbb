// The words behind a command, one by one.

ghost use Rattle.std.specs.Prelude.{map};
ghost use Rattle.std.specs.Option.{option_map};
ghost use Rattle.parsing.specs.Reads.{Reads};
ghost use Rattle.requests.specs.Grammar.{IsTimes, IsId};
ghost use Rattle.requests.specs.Parts.{IsOnly, ArePair};

use entity_table::Entity;
use parsing::integer::read_number;

const MOST_TIMES: u32 = 4096;

/// The one word that the words are.
pub(crate) fn only<'a>(words: &[&'a str]) -> Option<&'a str>
    ensures { Reads IsOnly (map (λ word. word.now) words.now)
        (option_map (λ word. word.now) result) }
{
    match words {
        [word] => Some(word),
        _ => None,
    }
}

/// The two words that the words are.
pub(crate) fn pair<'a>(words: &[&'a str]) -> Option<(&'a str, &'a str)>
    ensures { Reads ArePair (map (λ word. word.now) words.now)
        (option_map (λ pair. (pair.0.now, pair.1.now)) result) }
{
    match words {
        [first, second] => Some((first, second)),
        _ => None,
    }
}

/// Reads how often to run: up to 4,096 times.
pub(crate) fn read_times(word: &str) -> Option<u32>
    ensures { Reads IsTimes word.now result }
{
    let times = read_number(word)?;
    if times <= MOST_TIMES {
        return Some(times);
    }
    None
}

/// Reads an id, as `7v2`.
pub(crate) fn read_id(word: &str) -> Option<Entity>
    ensures { Reads IsId word.now result }
{
    let (index, generation) = word.split_once('v')?;
    Some(Entity {
        index: read_number(index)?,
        generation: read_number(generation)?,
    })
}
