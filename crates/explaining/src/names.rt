// Lists of names, and the one that is nearest to a word.

ghost use Rattle.std.specs.Prelude.{◌<◌, length, IfOk, IfSome};
ghost use Rattle.explaining.specs.Near.{IsNear, IsNearest};

use crate::keys::Wants;
use crate::orders::{item_at, item_count};
use crate::owner::items_at;
use kinds::{Event, Kind, Res};
use std::alloc::{AllocError, Global};
use strsim::osa_distance;
use toml::Table;

// Words that are longer have no similar names.
const MOST_BYTES: usize = 96;

/// A list of names.
#[derive(Clone, Copy)]
pub enum Names<'a> {
    /// The kinds of components.
    Kinds,
    /// The resources.
    Resources,
    /// The kinds of events.
    Events,
    /// These words.
    Words(&'static [&'static str]),
    /// The keys of a table.
    Keys(&'static [(&'static str, Wants)]),
    /// The sets of a document.
    Sets(&'a Table),
    /// The sets and systems of a document.
    Items(&'a Table),
}

impl<'a> Names<'a> {
    /// What one of the names stands for.
    pub fn what(self) -> &'static str {
        match self {
            Names::Kinds => "kind",
            Names::Resources => "resource",
            Names::Events => "event kind",
            Names::Words(_) => "word",
            Names::Keys(_) => "key",
            Names::Sets(_) => "set",
            Names::Items(_) => "set or system",
        }
    }

    /// The names.
    pub fn list(self, alloc: Global) -> Result<Vec<&'a str>, AllocError> {
        let mut names = Vec::new(alloc);
        for number in 0..self.count() {
            if let Some(name) = self.name(number) {
                names.push(name)?;
            }
        }
        Ok(names)
    }

    // How many there are.
    fn count(self) -> usize {
        match self {
            Names::Kinds => Kind::COUNT,
            Names::Resources => Res::COUNT,
            Names::Events => Event::COUNT,
            Names::Words(words) => words.len(),
            Names::Keys(rules) => rules.len(),
            Names::Sets(document) => items_at(document, "set").len(),
            Names::Items(document) => item_count(document),
        }
    }

    // The one of this number.
    fn name(self, number: usize) -> Option<&'a str> {
        match self {
            Names::Kinds => Some(Kind::ALL.as_slice().get(number)?.name()),
            Names::Resources => Some(Res::ALL.as_slice().get(number)?.name()),
            Names::Events => Some(Event::ALL.as_slice().get(number)?.name()),
            Names::Words(words) => words.get(number).copied(),
            Names::Keys(rules) => Some(rules.get(number)?.0),
            Names::Sets(document) | Names::Items(document) => {
                Some(item_at(document, number)?.0.name)
            }
        }
    }
}

/// A name, by its number, and how far it is from a word.
#[derive(Clone, Copy)]
pub struct Candidate {
    /// The number of the name.
    pub number: usize,
    /// How many of its characters are other ones, more or fewer; two that are swapped count once.
    pub distance: usize,
}

/// The name that is similar to a word: none is nearer, and as few characters differ as a third of the longer of the two, or one, but not all. A word of
/// more than 96 bytes is similar to none.
pub fn similar<'n>(
    alloc: Global,
    word: &str,
    names: &[&'n str],
) -> Result<Option<&'n str>, AllocError>
    ensures { IfOk result (λ found. IfSome found (IsNear word.now names.now)) }
{
    if names.is_empty() || word.len() > MOST_BYTES {
        return Ok(None);
    }
    let nearest = nearest_of(alloc, word, names)?;
    let name = names[nearest.number];
    let longer = word.chars().count().max(name.chars().count());
    let most = (longer / 3).max(1).min(longer.saturating_sub(1));
    if nearest.distance <= most {
        Ok(Some(name))
    } else {
        Ok(None)
    }
}

// The name that is nearest to a word, the first of several.
fn nearest_of(alloc: Global, word: &str, names: &[&str]) -> Result<Candidate, AllocError>
    requires { 0 < length names.now }
    ensures { IfOk result (IsNearest word.now names.now (length names.now)) }
{
    let distance = osa_distance(alloc, word, names[0])?;
    let mut nearest = Candidate {
        number: 0,
        distance,
    };
    for number in 1..names.len() {
        let distance = osa_distance(alloc, word, names[number])?;
        if distance < nearest.distance {
            nearest = Candidate { number, distance };
        }
    }
    Ok(nearest)
}
