// How a row of a table is read as the components of its entity.

ghost use Rattle.column_store.specs.Components.{ComponentsRise, CellsAreTheirs, WritesAreTheirs};

/// The components of a row are in strictly rising kinds. They have the cells that the row
/// has, and a write of a cell is a write of the component.
pub fn rows_are_components()
    ensures rise { ComponentsRise }
    ensures cells { CellsAreTheirs }
    ensures writes { WritesAreTheirs }
{}
