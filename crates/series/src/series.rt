// A series, and its value in a world.

ghost use Rattle.std.specs.Prelude.{◌≡◌, ◌<◌, map, length, get_or, pos, IfOk};
ghost use Rattle.archetype_store.specs.Layout.{AreAllHome};
ghost use Rattle.archetype_store.specs.Row.{component_of};
ghost use Rattle.kinds.specs.Value.{value_words};
ghost use Rattle.query_plan.specs.Places.{rows_of_places, IsCounted};
ghost use Rattle.series.specs.Values.{axis_place, count_of, cut, field_in, sum_of, value_of, values_of};

use archetype_store::World;
use column_store::{Components, StampedValue};
use kinds::Res;
use query::Query;
use query_plan::plan::plan;
use query_plan::{MatchedRows, RowBuffers, prove_picks_home};
use script::{Axis, Field};
use std::alloc::{AllocError, Global};

/// A number of a state.
#[derive(Drop)]
pub enum Series {
    /// The value of a resource.
    Resource(Res),
    /// How many entities a query matches.
    Count(Query),
    /// The sum of a field over all entities that have its component, cut to the least or greatest value of 64 bits where it doesn't fit.
    Sum(Field),
}

impl Series {
    /// Its value in a world.
    pub fn value(&self, alloc: Global, world: &World) -> Result<i64, AllocError>
        requires { AreAllHome world.now.layout }
        ensures { IfOk result (λ value. value ≡ value_of world.now.state self.now) }
    {
        match self {
            Series::Resource(res) => Ok(world.res(*res)),
            Series::Count(query) => count_in(alloc, query, world),
            Series::Sum(field) => sum_in(alloc, *field, world),
        }
    }
}

/// The values of some series in a world, in order.
pub fn values_in(alloc: Global, series: &[Series], world: &World) -> Result<Vec<i64>, AllocError>
    requires { AreAllHome world.now.layout }
    ensures { IfOk result (λ values. values.items ≡ values_of world.now.state series.now) }
{
    let mut values = Vec::with_capacity(alloc, series.len())?;
    for one in series {
        values.push(one.value(alloc, world)?)?;
    }
    Ok(values)
}

// How many entities a query matches.
fn count_in(alloc: Global, query: &Query, world: &World) -> Result<i64, AllocError>
    requires { AreAllHome world.now.layout }
    ensures { IfOk result (λ count. count ≡ pos (count_of query.now world.now.state.slots)) }
{
    // All columns are at home, so those that the query picks are.
    world.prove_laid();
    prove_picks_home();
    let mut room = RowBuffers::new(alloc);
    let plan = plan(alloc, query, world, 0, &mut room)?;
    let count = count_at(&plan.rows, world);
    Ok(count as i64)
}

// How many rows stand at these places.
fn count_at(rows: &MatchedRows, _world: &World) -> usize
    requires { IsCounted _world.now.layout rows.now }
    ensures count { result ≡ length (rows_of_places _world.now.layout rows.now) }
    ensures small { result < 9223372036854775808 }
{
    match rows {
        MatchedRows::All(_archetype, count) => *count as usize,
        MatchedRows::Listed(rows) => rows.len(),
    }
}

// The sum of a field over all entities that have its component, cut to 64 bits.
fn sum_in(alloc: Global, field: Field, world: &World) -> Result<i64, AllocError>
    requires { AreAllHome world.now.layout }
    ensures { IfOk result (λ sum. sum ≡ cut (sum_of field world.now.state.slots)) }
{
    world.prove_home();
    let mut total = 0i128;
    let mut components = Components::new(alloc);
    for index in 0..world.slot_count() {
        world.components(index, &mut components)?;
        total += i128::from(field_at(&components, field));
    }
    Ok(total.clamp(i128::from(i64::MIN), i128::from(i64::MAX)) as i64)
}

// A field of these components of an entity; 0 where the entity has no component of its kind.
fn field_at(components: &[StampedValue], field: Field) -> i64
    ensures { result ≡ field_in field (map component_of components.now) }
{
    let kind = field.kind.number();
    let place = place_of(field.axis);
    for stored in components {
        if stored.value.number() == kind {
            return word_at(stored, place);
        }
    }
    0
}

// The word at a place of a component, and 0 past its words.
fn word_at(stored: &StampedValue, place: usize) -> i64
    ensures { result ≡ get_or (value_words stored.now.value) place (pos 0) }
{
    match stored.value.words().as_slice().get(place) {
        Some(word) => *word,
        None => 0,
    }
}

// The place of a letter among the words of a component that has it.
fn place_of(axis: Axis) -> usize
    ensures { result ≡ axis_place axis }
{
    match axis {
        Axis::X | Axis::V => 0,
        Axis::Y => 1,
    }
}
