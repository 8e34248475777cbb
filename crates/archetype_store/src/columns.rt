// Columns of the store by the archetypes that they are of.

use column_store::StampedColumn;
use kinds::Kind;
use std::alloc::Global;
use std::sync::Arc;

/// Which column: that of a kind of the archetype of a number, among those with entities.
#[derive(Clone, Copy)]
pub struct ColumnAt {
    /// The number of the archetype.
    pub archetype: usize,
    /// The kind.
    pub kind: Kind,
}

/// A column that has left the store, to be written.
#[derive(Drop)]
pub struct TakenColumn {
    /// The number of its archetype.
    pub archetype: usize,
    /// A component for each entity of the archetype, in its order.
    pub column: StampedColumn,
}

/// A column of the store, to be read.
#[derive(Drop)]
pub struct SharedColumn {
    /// The number of its archetype.
    pub archetype: usize,
    /// A component for each entity of the archetype, in its order.
    pub column: Arc<StampedColumn, Global>,
}
