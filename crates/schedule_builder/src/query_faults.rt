// Queries at fault.

ghost use Rattle.std.specs.Prelude.{◌≡◌};
ghost use Rattle.model.specs.access.QueryFaults.{query_fault};
ghost use Rattle.schedule_builder.specs.Queries.{TellsFault, TellsFirstFault};

use crate::desc::ScheduleDesc;
use query::Query;

/// The number of the least fault of a query.
pub(crate) fn fault_of(query: &Query) -> Option<u32>
    ensures { result ≡ query_fault query.now }
{
    match query.check() {
        Ok(()) => None,
        Err(fault) => Some(fault.number()),
    }
}

/// The first of these queries at fault, by its number, with its least fault.
fn first_at_fault(queries: &[Query]) -> Option<(usize, u32)>
    ensures { TellsFault queries.now result }
{
    for (number, query) in queries.iter().enumerate() {
        if let Some(case) = fault_of(query) {
            return Some((number, case));
        }
    }
    None
}

/// The first system with a query at fault and its first such query, by their numbers, with the least fault of that query.
pub(crate) fn first_bad(desc: &ScheduleDesc) -> Option<(usize, usize, u32)>
    ensures { TellsFirstFault desc.now result }
{
    for system in 0..desc.systems().len() {
        match first_at_fault(desc.system(system).params().queries()) {
            None => {}
            Some((number, case)) => return Some((system, number, case)),
        }
    }
    None
}
