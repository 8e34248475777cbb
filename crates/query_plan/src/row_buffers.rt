// Buffers of rows, and the other lists of plans, which are used again.

ghost use Rattle.std.specs.Prelude.{◌≡◌};

use crate::picks::Pick;
use crate::row::Row;
use crate::spares::Spares;
use std::alloc::Global;

/// Lists of plans that nobody reads any more. A plan of a query takes its lists from here and gives them back. So a
/// start takes no memory for its rows once one like it was planned. A list that is taken has no elements.
#[derive(Drop)]
pub struct RowBuffers {
    /// Buffers of rows.
    pub rows: Spares<Vec<Row>>,
    /// Lists for the numbers of the archetypes that are planned among.
    pub archetypes: Spares<Vec<usize>>,
    /// Lists for their marks.
    pub marks: Spares<Vec<bool>>,
    /// Lists of the columns that are picked.
    pub picks: Spares<Vec<Pick>>,
}

impl RowBuffers {
    /// Nothing is kept. Allocates nothing.
    pub fn new(alloc: Global) -> Self
        ensures rows { result.rows ≡ 0 }
        ensures archetypes { result.archetypes ≡ 0 }
        ensures marks { result.marks ≡ 0 }
        ensures picks { result.picks ≡ 0 }
    {
        RowBuffers {
            rows: Spares::new(alloc),
            archetypes: Spares::new(alloc),
            marks: Spares::new(alloc),
            picks: Spares::new(alloc),
        }
    }
}
