// The rows of a query found by one walk over the indices: so where it matches several archetypes no lists of rows are merged.

ghost use Rattle.std.specs.Prelude.{◌≡◌, ◌<◌, ℕ, true, false, length, map, IfSome, IfNone, IfOk, OnOk};
ghost use Rattle.std.specs.List.{list_any, AllByRecursion};
ghost use Rattle.model.specs.Lists.{is_there};
ghost use Rattle.model.specs.access.Query.{matches};
ghost use Rattle.model.specs.shown.Input as input;
ghost use Rattle.model.specs.state.Rows.{row_at as components_at};
ghost use Rattle.archetype_store.specs.Layout.{IsLayoutOf};
ghost use Rattle.query.specs.Term.{term_of};
ghost use Rattle.query_plan.specs.Candidates.{AreCandidates};
ghost use Rattle.query_plan.specs.Marks.{asks_stamps as term_asks_stamps, AreMarks, AreMarksAmong, IsRowOf};
ghost use Rattle.query_plan.specs.Standing.{is_row_at, IsStanding};

use crate::picks::matches_kinds;
use crate::row::Row;
use crate::row_buffers::RowBuffers;
use crate::spares::{give_list, take_list};
use archetype_store::World;
use query::{Query, Term};
use std::alloc::{AllocError, Global};

// How many archetypes a query matches, and how many entities they have. Nothing rests on it but which way is taken.
#[derive(Clone, Copy)]
struct Matched {
    archetypes: usize,
    entities: usize,
}

// The rows of a query by a walk over all indices, in rising index, where it is likely that they are found sooner so than archetype by archetype.
// The archetypes that it matches are among these.
pub(crate) fn walked(
    alloc: Global,
    query: &Query,
    world: &World,
    archetypes: &[usize],
    room: &mut RowBuffers,
) -> Result<Option<Vec<Row>>, AllocError>
    requires { AreCandidates query.now world.now.layout archetypes.now }
    ensures rows { IfOk result (λ found. IfSome found (λ rows. (last : ℕ)
        → map (λ row. row.entity) rows.items
        ≡ map (λ row. row.entity) (input.rows_of query.now last
        world.now.state.slots))) }
    ensures places { IfOk result (λ found. IfSome found (λ rows. AllByRecursion
        (IsStanding world.now.state.slots world.now.layout) rows.items)) }
{
    if archetypes.len() < 2 {
        return Ok(None);
    }
    if asks_stamps(query) {
        return Ok(None);
    }
    let mut marks = take_list(&mut room.marks, alloc);
    let found = walked_by(alloc, query, world, archetypes, &mut marks, room);
    give_list(&mut room.marks, marks);
    found
}

// Whether a query asks for stamps: where it doesn't, who is matched is a row.
#[tactic(auto, using(query::proofs::Terms::of_kinds))]
fn asks_stamps(query: &Query) -> bool
    ensures { result ≡ list_any term_asks_stamps query.now }
{
    any_asks_stamps(query.terms())
}

// Whether one of these terms does.
fn any_asks_stamps(terms: &[Term]) -> bool
    ensures { result ≡ list_any (λ term. term_asks_stamps (term_of term)) terms.now }
{
    terms.iter().any(|term| is_filter(*term))
}

// Whether a term asks for stamps.
fn is_filter(term: Term) -> bool
    ensures { result ≡ term_asks_stamps (term_of term) }
{
    match term {
        Term::Added(_kind) => true,
        Term::Changed(_kind) => true,
        _ => false,
    }
}

// The same rows, with a list for the marks of archetypes.
fn walked_by(
    alloc: Global,
    query: &Query,
    world: &World,
    archetypes: &[usize],
    marks: &mut Vec<bool>,
    room: &mut RowBuffers,
) -> Result<Option<Vec<Row>>, AllocError>
    requires among { AreCandidates query.now world.now.layout archetypes.now }
    requires free { list_any term_asks_stamps query.now ≡ false }
    ensures rows { IfOk result (λ found. IfSome found (λ rows. (last : ℕ)
        → map (λ row. row.entity) rows.items
        ≡ map (λ row. row.entity) (input.rows_of query.now last
        world.now.state.slots))) }
    ensures places { IfOk result (λ found. IfSome found (λ rows. AllByRecursion
        (IsStanding world.now.state.slots world.now.layout) rows.items)) }
{
    let matched = mark(query, world, archetypes, marks)?;
    let takes_bare = matches_kinds(query, &[]);
    if !is_sooner(world.slot_count(), takes_bare, matched) {
        return Ok(None);
    }
    let rows = walk(
        alloc,
        query,
        world,
        marks,
        takes_bare,
        matched.entities,
        room,
    )?;
    Ok(Some(rows))
}

// Marks which of these archetypes a query matches, in a list with a mark for each archetype of the world.
fn mark(
    query: &Query,
    world: &World,
    archetypes: &[usize],
    marks: &mut Vec<bool>,
) -> Result<Matched, AllocError>
    requires { AllByRecursion (λ n. n < length world.now.layout) archetypes.now }
    ensures { OnOk result (AreMarksAmong query.now world.now.layout archetypes.now
        marks.new.items) }
{
    marks.clear();
    marks.resize(world.archetype_count(), false)?;
    let mut matched = Matched {
        archetypes: 0,
        entities: 0,
    };
    for archetype in archetypes {
        let view = world.archetype(*archetype);
        if !matches_kinds(query, view.kinds) {
            continue;
        }
        marks[*archetype] = true;
        matched.archetypes = matched.archetypes.saturating_add(1);
        matched.entities = matched.entities.saturating_add(view.entities.len());
    }
    Ok(matched)
}

// Whether a walk over so many slots is likely sooner at its end than the lists of two archetypes or more are merged by halves: it looks at five
// slots at most for each four rows that merges would move. Where entities without components are rows too, all slots are looked at anyway.
fn is_sooner(slots: u32, takes_bare: bool, matched: Matched) -> bool {
    if matched.archetypes < 2 {
        return false;
    }
    let halvings = matched.archetypes.ilog2() as usize;
    takes_bare || slots as usize / 5 * 4 <= matched.entities.saturating_mul(halvings)
}

// The rows of a query that asks for no stamps, index by index. There is room for so many from the start.
fn walk(
    alloc: Global,
    query: &Query,
    world: &World,
    marks: &[bool],
    takes_bare: bool,
    likely: usize,
    room: &mut RowBuffers,
) -> Result<Vec<Row>, AllocError>
    requires marks { AreMarks query.now world.now.layout marks.now }
    requires free { list_any term_asks_stamps query.now ≡ false }
    requires bare { takes_bare ≡ matches query.now (λ kind. false) }
    ensures rows { IfOk result (λ rows. (last : ℕ)
        → map (λ row. row.entity) rows.items
        ≡ map (λ row. row.entity) (input.rows_of query.now last world.now.state.slots)) }
    ensures places { IfOk result (λ rows. AllByRecursion
        (IsStanding world.now.state.slots world.now.layout) rows.items) }
{
    // Tells who is in an archetype.
    world.prove_laid();
    let Ok(count) = u32::try_from(world.archetype_count()) else {
        return Err(AllocError);
    };
    let mut rows = take_list(&mut room.rows, alloc);
    rows.reserve(likely)?;
    for index in 0..world.slot_count() {
        let Some(row) = row_at(query, world, marks, takes_bare, count, index)? else {
            continue;
        };
        rows.push(row)?;
    }
    Ok(rows)
}

// The row of an index, where it is one of the query.
fn row_at(
    _query: &Query,
    world: &World,
    marks: &[bool],
    takes_bare: bool,
    count: u32,
    index: u32,
) -> Result<Option<Row>, AllocError>
    requires laid { IsLayoutOf world.now.state.slots world.now.layout }
    requires marks { AreMarks _query.now world.now.layout marks.now }
    requires free { list_any term_asks_stamps _query.now ≡ false }
    requires bare { takes_bare ≡ matches _query.now (λ kind. false) }
    requires count { count ≡ length world.now.layout }
    ensures some { IfOk result (λ found. IfSome found (IsRowOf _query.now world.now.state.slots
        world.now.layout index)) }
    ensures none { IfOk result (λ found. IfNone found ((last : ℕ)
        → is_row_at _query.now last world.now.state.slots index ≡ false)) }
{
    let Some(at) = world.row_place(index) else {
        if !takes_bare {
            return Ok(None);
        }
        return Ok(bare_row_at(_query, world, count, index));
    };
    if !marks[at.archetype] {
        return Ok(None);
    }
    let Ok(place) = u32::try_from(at.place) else {
        return Err(AllocError);
    };
    Ok(Some(Row {
        entity: at.entity,
        archetype: at.archetype as u32,
        place,
    }))
}

// The row of an index that has no components, where an entity of it lives.
fn bare_row_at(_query: &Query, world: &World, count: u32, index: u32) -> Option<Row>
    requires bare { matches _query.now (λ kind. false) ≡ true }
    requires none { is_there (components_at world.now.state.slots index) ≡ false }
    requires count { count ≡ length world.now.layout }
    ensures some { IfSome result (IsRowOf _query.now world.now.state.slots world.now.layout index) }
    ensures none { IfNone result ((last : ℕ)
        → is_row_at _query.now last world.now.state.slots index ≡ false) }
{
    let entity = world.bare_at(index)?;
    Some(Row {
        entity,
        archetype: count,
        place: index,
    })
}
