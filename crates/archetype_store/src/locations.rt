// Where the entities of indices are: in which table, and at which generation.

ghost use Rattle.std.specs.Prelude.{◌≡◌, ◌<◌, ◌≤◌, ℕ, length, OnOk};
ghost use Rattle.archetype_store.specs.RowNumbers.{number_of_row};
ghost use Rattle.archetype_store.specs.Storage.{place_of};

use entity_table::Entity;
use std::alloc::AllocError;

// The generation of an entity that has components, and the table that has its row.
#[derive(Clone, Copy)]
pub(crate) struct EntityLocation {
    pub(crate) generation: u32,
    pub(crate) table: usize,
}

/// Where the components of an entity are: in which archetype, and at which place.
#[derive(Clone, Copy)]
pub struct RowPlace {
    /// The entity.
    pub entity: Entity,
    /// The number of its archetype among those that have entities, from 0.
    pub archetype: usize,
    /// Its place among the entities of the archetype.
    pub place: usize,
}

// Makes room for the place of an index, which is none, and for the number of its row. After an error there may be room for some, which no
// index can tell.
pub(crate) fn reach(
    places: &mut Vec<Option<EntityLocation>>,
    numbers: &mut Vec<usize>,
    index: u32,
) -> Result<(), AllocError>
    requires { length places.old.items ≤ length numbers.old.items }
    ensures same { (k : ℕ) → place_of places.new.items k ≡ place_of places.old.items k }
    ensures numbers { (k : ℕ)
        → number_of_row numbers.new.items k ≡ number_of_row numbers.old.items k }
    ensures ok { OnOk result (index < length places.new.items) }
    ensures longer { length places.old.items ≤ length places.new.items }
    ensures as_many { length places.new.items ≤ length numbers.new.items }
{
    while numbers.len() <= index as usize {
        numbers.push(0)?;
    }
    while places.len() <= index as usize {
        places.push(None)?;
    }
    Ok(())
}
