// The places of a program file.

ghost use Rattle.std.specs.Prelude.{Some};
ghost use Rattle.program_file.specs.FaultText.{place_text};

use std::fmt;

/// A place of a program file, as a refusal names it. Entities, sets, systems and chains are numbered from 0 in the
/// order of the file.
#[derive(Clone, Copy, PartialEq, Eq, Debug)]
pub enum Place {
    /// The keys at the top.
    Top,
    /// The table of resources.
    Resources,
    /// An entity.
    Entity(usize),
    /// A set.
    Set(usize),
    /// A system, with its blocks.
    System(usize),
    /// A chain.
    Chain(usize),
}

impl fmt::Display for Place {
    ghost output = { λ place. Some (place_text place) };

    fn fmt<W: fmt::Write>(&self, f: &mut fmt::Formatter<W>) -> fmt::Result {
        match self {
            Place::Top => write!(f, "top"),
            Place::Resources => write!(f, "resources"),
            Place::Entity(number) => write!(f, "entity {number}"),
            Place::Set(number) => write!(f, "set {number}"),
            Place::System(number) => write!(f, "system {number}"),
            Place::Chain(number) => write!(f, "chain {number}"),
        }
    }
}
