// The shapes of the queries of a schedule, which a state keeps.

ghost use Rattle.std.specs.Prelude.{◌≡◌};

use body::State;
use query::Query;
use schedule_builder::Built;
use std::alloc::AllocError;

// Keeps the shapes of the queries of all systems and conditions. Nothing that contracts see changes.
pub(crate) fn keep_shapes(built: &Built, state: &mut State) -> Result<(), AllocError>
    ensures { state.new ≡ state.old }
{
    for system in built.systems() {
        keep_each(system.params().queries(), state)?;
    }
    for condition in built.conditions() {
        keep_each(condition.access().queries(), state)?;
    }
    Ok(())
}

// Keeps the shapes of these queries.
fn keep_each(queries: &[Query], state: &mut State) -> Result<(), AllocError>
    ensures { state.new ≡ state.old }
{
    for query in queries {
        state.keep_shape(query)?;
    }
    Ok(())
}
