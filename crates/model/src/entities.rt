// The id of an entity.

ghost use Rattle.std.specs.Prelude.{◌++◌, ◌∷◌, decimal, Some};

use std::fmt;

/// An id: an index with a generation, printed as `0v1`. Once its entity is despawned it names nothing.
#[derive(Clone, Copy, PartialEq, Eq, Debug)]
pub struct Entity {
    /// The index, below 1,048,576.
    pub index: u32,
    /// The generation, 1 at first.
    pub generation: u32,
}

impl fmt::Display for Entity {
    ghost output = { λ e. Some (decimal e.index ++ (118 ∷ decimal e.generation)) };

    fn fmt<W: fmt::Write>(&self, f: &mut fmt::Formatter<W>) -> fmt::Result {
        write!(f, "{}v{}", self.index, self.generation)
    }
}
