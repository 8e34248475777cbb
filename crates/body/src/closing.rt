// The columns of the queries of a view as they come home.

ghost use Rattle.std.specs.Prelude.{◌≡◌, [], ◌∷◌, map};
ghost use Rattle.std.specs.List.{AllByRecursion};
ghost use Rattle.archetype_store.specs.Lending.{CanComeHome, all_home};
ghost use Rattle.body.specs.HeldColumns.{held_seen};
ghost use Rattle.body.specs.Lent.{lent_of, lent_after};
ghost use Rattle.body.specs.Sheet.{Sheet, WritesReach};
ghost use Rattle.body.specs.Together.{words_of_sheet};

use crate::room::QueryRoom;
use crate::view_column::{ColumnAccess, ViewColumn};
use crate::view_query::ViewQuery;
use archetype_store::World;
use query_plan::spares::give_list;

// Brings a column home, where it was lent.
fn put_held(held: ViewColumn, world: &mut World)
    requires { CanComeHome (lent_of (held_seen held ∷ [])) world.old }
    ensures { world.new ≡ all_home (lent_of (held_seen held ∷ [])) world.old }
{
    let ViewColumn {
        archetype,
        cells,
        world: _,
    } = held;
    match cells {
        ColumnAccess::Written(column) => world.put_column(archetype, column),
        ColumnAccess::Read(_) => {}
    }
}

// Brings the columns of a query home. It allocates nothing, and gives back the room of their list.
#[inline(always)]
pub(crate) fn put_columns(columns: Vec<ViewColumn>, world: &mut World) -> Vec<ViewColumn>
    requires { CanComeHome (lent_of (map held_seen columns.items)) world.old }
    ensures { world.new ≡ all_home (lent_of (map held_seen columns.items)) world.old }
{
    let mut columns = columns;
    while let Some(held) = columns.pop() {
        put_held(held, world);
    }
    columns
}

// Brings the columns of queries home, with what was written there: all of it is in columns that the world lent. No query is left, and the room of
// their list stays. Their own lists go to this room.
#[inline(always)]
pub(crate) fn put_home(queries: &mut Vec<ViewQuery>, world: &mut World, room: &mut QueryRoom)
    requires { CanComeHome (lent_after queries.old.items) world.old }
    ensures home { world.new ≡ all_home (lent_after queries.old.items) world.old }
    ensures reach { AllByRecursion (λ (s : Sheet). WritesReach (words_of_sheet s) s.taken)
        queries.old.items }
    ensures none { queries.new.items ≡ [] }
{
    if queries.is_empty() {
        return;
    }
    put_each_home(queries, world, room);
}

// The same query by query, the last first.
#[inline(never)]
fn put_each_home(queries: &mut Vec<ViewQuery>, world: &mut World, room: &mut QueryRoom)
    requires { CanComeHome (lent_after queries.old.items) world.old }
    ensures home { world.new ≡ all_home (lent_after queries.old.items) world.old }
    ensures reach { AllByRecursion (λ (s : Sheet). WritesReach (words_of_sheet s) s.taken)
        queries.old.items }
    ensures none { queries.new.items ≡ [] }
{
    while let Some(query) = queries.pop() {
        let columns = query.close(room);
        give_list(&mut room.columns, put_columns(columns, world));
    }
}
