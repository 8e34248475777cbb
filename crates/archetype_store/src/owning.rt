// Columns that are read elsewhere too, taken for their tables alone before rows change, and copies of tables, whose columns are theirs alone.

ghost use Rattle.std.specs.Prelude.{◌≡◌, map, IfOk, OnOk};
ghost use Rattle.column_store.specs.Table.{owned};
ghost use Rattle.archetype_store.specs.Tables.{AreHome, AreOwned, AreAllAlike};

use column_store::Table;
use std::alloc::{AllocError, Global};

// Tables of the same kinds and rows, where all columns are at home. The columns of the copies are theirs alone.
pub(crate) fn copied_tables(alloc: Global, tables: &[Table]) -> Result<Vec<Table>, AllocError>
    requires { AreHome tables.now }
    ensures { IfOk result (λ copies. copies.items ≡ map owned tables.now) }
{
    let mut copies = Vec::with_capacity(alloc, tables.len())?;
    for table in tables {
        copies.push_reserved(table.copy(alloc)?);
    }
    Ok(copies)
}

// Takes the columns of these tables for them alone. Where an allocation fails some of them may be.
fn own_each(tables: &mut [Table], alloc: Global) -> Result<(), AllocError>
    requires { AreHome tables.old }
    ensures ok { OnOk result (AreOwned tables.new) }
    ensures alike { AreAllAlike tables.old tables.new }
{
    if let Some((table, other_tables)) = tables.split_first_mut() {
        table.own(alloc)?;
        own_each(other_tables, alloc)?;
    }
    Ok(())
}

// The same of a vector of tables.
pub(crate) fn own_tables(tables: &mut Vec<Table>) -> Result<(), AllocError>
    requires { AreHome tables.old.items }
    ensures ok { OnOk result (AreOwned tables.new.items) }
    ensures alike { AreAllAlike tables.old.items tables.new.items }
{
    let alloc = *tables.allocator();
    own_each(tables, alloc)
}
