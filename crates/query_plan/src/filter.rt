// The filters of a query in one archetype: each a column whose stamps are compared with a last run.

ghost use Rattle.std.specs.Prelude.{◌≡◌, ◌<◌, ◌++◌, ◌∷◌, [], ℕ, List, true, length, map, slice_get, IfOk, IfSome, IfNone};
ghost use Rattle.std.specs.List.{list_all, AllByRecursion};
ghost use Rattle.model.specs.state.State.{Component};
ghost use Rattle.model.specs.shown.Input as input;
ghost use Rattle.archetype_store.specs.Layout.{archetype_at};
ghost use Rattle.query.specs.Term.{term_of};
ghost use Rattle.query_plan.specs.Standing.{IsFilterHome, is_newer};
ghost use Rattle.query_plan.specs.Filters.{IsFilterOf, AreFiltersOf};
ghost use Rattle.query_plan.specs.FilterLists.{filters_in};

use archetype_store::World;
use change_ticks::stamp::newer;
use column_store::StampedColumn;
use query::Term;
use std::alloc::{AllocError, Global};
use std::slice;

// A filter: of the components of a column those pass that were added, or else changed, after a last run.
#[derive(Clone, Copy)]
pub(crate) struct Filter<'a> {
    pub(crate) column: &'a StampedColumn,
    pub(crate) is_added: bool,
}

// Two filters.
#[derive(Clone, Copy)]
pub(crate) struct Pair<'a> {
    pub(crate) filters: [Filter<'a>; 2],
}

// Filters, in order. One or two stand here, so that no list is made for them.
#[derive(Drop)]
pub(crate) enum Filters<'a> {
    Without,
    One(Filter<'a>),
    Two(Pair<'a>),
    Several(Vec<Filter<'a>>),
}

impl<'a> Filters<'a> {
    // The filters.
    pub(crate) fn as_slice(&self) -> &[Filter<'a>]
        ensures { result.now ≡ filters_in self.now }
    {
        match self {
            Filters::Without => &[],
            Filters::One(filter) => slice::from_ref(filter),
            Filters::Two(pair) => &pair.filters,
            Filters::Several(filters) => filters.as_slice(),
        }
    }

    // The same with one more at the end.
    fn with(self, alloc: Global, filter: Filter<'a>) -> Result<Self, AllocError>
        ensures { IfOk result (λ filters. filters_in filters
            ≡ filters_in self.entry ++ filter.entry ∷ []) }
    {
        match self {
            Filters::Without => Ok(Filters::One(filter)),
            Filters::One(first) => Ok(Filters::Two(Pair {
                filters: [first, filter],
            })),
            Filters::Two(pair) => {
                let mut filters = Vec::from_array(alloc, pair.filters)?;
                filters.push(filter)?;
                Ok(Filters::Several(filters))
            }
            Filters::Several(mut filters) => {
                filters.push(filter)?;
                Ok(Filters::Several(filters))
            }
        }
    }
}

// The filters of these terms among the entities of the archetype of a number. It allocates only where there are more than two.
pub(crate) fn filters_of<'w>(
    alloc: Global,
    terms: &[Term],
    world: &'w World,
    archetype: usize,
) -> Result<Filters<'w>, AllocError>
    requires { AllByRecursion
        (λ term. IsFilterHome (archetype_at world.now.layout archetype) (term_of term)) terms.now }
    ensures { IfOk result (λ filters. AreFiltersOf world.now.state.slots
        (archetype_at world.now.layout archetype).entities (map term_of terms.now) (filters_in
        filters)) }
{
    let mut filters = Filters::Without;
    for term in terms {
        let Some(filter) = filter_of(*term, world, archetype) else {
            continue;
        };
        filters = filters.with(alloc, filter)?;
    }
    Ok(filters)
}

// The filter of a term, where it is one.
fn filter_of(term: Term, world: &World, archetype: usize) -> Option<Filter<'_>>
    requires { IsFilterHome (archetype_at world.now.layout archetype) (term_of term) }
    ensures some { IfSome result (IsFilterOf world.now.state.slots
        (archetype_at world.now.layout archetype).entities (term_of term)) }
    ensures none { IfNone result ((last : ℕ) (row : List Component)
        → input.passes last row (term_of term) ≡ true) }
{
    match term {
        Term::Added(kind) => Some(Filter {
            column: world.column(archetype, kind),
            is_added: true,
        }),
        Term::Changed(kind) => Some(Filter {
            column: world.column(archetype, kind),
            is_added: false,
        }),
        _ => None,
    }
}

// Whether the components at a place pass these filters.
pub(crate) fn passes_all(filters: &[Filter<'_>], place: usize, last_run: u64) -> bool
    requires { AllByRecursion (λ f. place < length f.column.now.cells) filters.now }
    ensures { result
        ≡ list_all (λ f. is_newer last_run f.is_added (slice_get f.column.now.cells place))
        filters.now }
{
    for filter in filters {
        if !passes(filter.column, filter.is_added, place, last_run) {
            return false;
        }
    }
    true
}

// Whether the component at a place was added, or else changed, after a last run.
fn passes(column: &StampedColumn, is_added: bool, place: usize, last_run: u64) -> bool
    requires { place < length column.now.cells }
    ensures { result ≡ is_newer last_run is_added (slice_get column.now.cells place) }
{
    let stamp = column.stamp(place);
    if is_added {
        newer(stamp.added, last_run)
    } else {
        newer(stamp.changed, last_run)
    }
}
