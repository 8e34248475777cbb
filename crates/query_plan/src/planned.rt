// What is planned of a query.

use crate::matched_rows::MatchedRows;
use crate::picks::Pick;

/// The plan of a query on a world: its rows, and the columns that they are in.
#[derive(Drop)]
pub struct Plan {
    /// The places of the rows, in rising index.
    pub rows: MatchedRows,
    /// The columns, of archetypes that have entities alone.
    pub picks: Vec<Pick>,
    /// How many archetypes have entities.
    pub archetypes: u32,
}
