// What columns that come home are to the state.

ghost use Rattle.archetype_store.specs.Lending.{KindsAreHome};
ghost use Rattle.archetype_store.specs.Overlays.{ColumnsAreOverlays, TakenAreOverlays, TakenClose};

/// Take a column whose cells are those of the state after writes at a tick. It lays these writes over the state when
/// it comes home, also after others.
pub fn columns_are_overlays()
    ensures { ColumnsAreOverlays }
{}

/// Columns whose cells are those of the state after writes at a tick lay these writes over the state when they come home.
pub fn taken_are_overlays()
    ensures { TakenAreOverlays }
{}

/// Where they have all that is written, the state is then that of the overlay of all writes.
pub fn taken_close()
    ensures { TakenClose }
{}

/// Where all columns are at home, that of each kind of an archetype is.
pub fn prove_kinds_home()
    ensures { KindsAreHome }
{}
