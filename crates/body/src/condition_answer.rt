// A condition is asked part by part. Both sides of `and` and `or` are asked, so that each reader is known to have read.

ghost use Rattle.std.specs.Prelude.{◌≡◌, IfOk};
ghost use Rattle.std.specs.List.{AllByRecursion};
ghost use Rattle.model.specs.Lists.{is_there, head_or, tail_of};
ghost use Rattle.model.specs.state.State.{State};
ghost use Rattle.model.specs.state.Events.{unread, queue_of};
ghost use Rattle.model.specs.shown.Input.{rows_of};
ghost use Rattle.model.specs.access.Condition.{holds, cursors_after, queries_of};
ghost use Rattle.kinds.specs.Res.{event_number};
ghost use Rattle.query_plan.specs.Standing.{ArePickedHome};
ghost use Rattle.run_condition.specs.Tree.{condition_of};
ghost use Rattle.body.specs.Evaluated.{IsMeant};

use archetype_store::World;
use change_ticks::Tick;
use event_buffers::Events;
use kinds::Event;
use query::Query;
use query_plan::plan::plan_by;
use query_plan::spares::give_list;
use query_plan::{RowBuffers, shape_of};
use run_condition::{Cond, Tree};
use std::alloc::{AllocError, Global};

// What a condition answers, and what is left of the cursors.
#[derive(Clone, Copy)]
struct Evaluated<'a> {
    answer: bool,
    cursors: &'a [u64],
}

/// What a condition answers in a state with this world and these events, for who asked it last at a tick (0 where it was never asked), and
/// whose event readers have these cursors, in order. Asks that the columns that its queries touch are at home. Its queries are planned in buffers
/// of this room, so that it takes no memory once one like it was asked. Fails only for a failed allocation.
pub(crate) fn ask(
    alloc: Global,
    cond: &Cond,
    world: &World,
    events: &Events,
    last_run: Tick,
    cursors: &[u64],
    room: &mut RowBuffers,
) -> Result<bool, AllocError>
    requires { AllByRecursion (λ query. ArePickedHome query world.now.layout) (queries_of
        cond.now) }
    ensures { IfOk result (λ answer. (state : State) → state.world ≡ world.now.state
        → state.events ≡ events.now → answer ≡ holds cond.now last_run cursors.now state) }
{
    let part = evaluate(alloc, cond.tree(), world, events, last_run, cursors, room)?;
    Ok(part.answer)
}

// What the parts of a condition answer. The cursors of its readers come first.
fn evaluate<'a>(
    alloc: Global,
    tree: &Tree,
    world: &World,
    events: &Events,
    last_run: Tick,
    cursors: &'a [u64],
    room: &mut RowBuffers,
) -> Result<Evaluated<'a>, AllocError>
    requires home { AllByRecursion (λ query. ArePickedHome query world.now.layout) (queries_of
        (condition_of tree.now)) }
    ensures answer { IfOk result (λ part. IsMeant (condition_of tree.now) world.now.state events.now
        last_run cursors.now part.answer) }
    ensures cursors { IfOk result (λ part. part.cursors.now
        ≡ cursors_after (condition_of tree.now) cursors.now) }
{
    match tree {
        Tree::RunOnce => Ok(answered(last_run == 0, cursors)),
        Tree::ResourceEquals(res, value) => Ok(answered(world.res(*res) == *value, cursors)),
        Tree::ResourceAtLeast(res, value) => Ok(answered(*value <= world.res(*res), cursors)),
        Tree::ResourceChanged(res) => Ok(answered(last_run < world.res_changed(*res), cursors)),
        Tree::AnyWith(query) => {
            let answer = has_row(alloc, query, world, last_run, room)?;
            Ok(answered(answer, cursors))
        }
        Tree::OnEvent(event) => Ok(first_read(events, *event, cursors)),
        Tree::Not(inner) => {
            let part = evaluate(alloc, inner, world, events, last_run, cursors, room)?;
            Ok(answered(!part.answer, part.cursors))
        }
        Tree::And(left, right) => {
            let one = evaluate(alloc, left, world, events, last_run, cursors, room)?;
            let other = evaluate(alloc, right, world, events, last_run, one.cursors, room)?;
            Ok(answered(one.answer & other.answer, other.cursors))
        }
        Tree::Or(left, right) => {
            let one = evaluate(alloc, left, world, events, last_run, cursors, room)?;
            let other = evaluate(alloc, right, world, events, last_run, one.cursors, room)?;
            Ok(answered(one.answer | other.answer, other.cursors))
        }
    }
}

// An answer, where these cursors are left.
fn answered<'a>(answer: bool, cursors: &'a [u64]) -> Evaluated<'a>
    ensures answer { result.answer ≡ answer }
    ensures cursors { result.cursors.now ≡ cursors.now }
{
    Evaluated { answer, cursors }
}

// Whether a query has a row. The buffers of its plan go back to the room.
fn has_row(
    alloc: Global,
    query: &Query,
    world: &World,
    last_run: Tick,
    room: &mut RowBuffers,
) -> Result<bool, AllocError>
    requires { ArePickedHome query.now world.now.layout }
    ensures { IfOk result (λ answer. answer
        ≡ is_there (rows_of query.now last_run world.now.state.slots)) }
{
    let shape = shape_of(query).number();
    let plan = plan_by(alloc, world, shape, query, last_run, room)?;
    let is_empty = plan.rows.is_empty(world);
    plan.rows.give_back(room);
    give_list(&mut room.picks, plan.picks);
    Ok(!is_empty)
}

// Whether an event of the kind is there from the first cursor on, 0 where there is none.
fn first_read<'a>(events: &Events, event: Event, cursors: &'a [u64]) -> Evaluated<'a>
    ensures answer { result.answer
        ≡ is_there (unread (queue_of events.now (event_number event)) (head_or 0 cursors.now)) }
    ensures cursors { result.cursors.now ≡ tail_of cursors.now }
{
    match cursors.split_first() {
        Some((cursor, rest)) => answered(has_unread(events, event, *cursor), rest),
        None => answered(has_unread(events, event, 0), cursors),
    }
}

// Whether an event of the kind is there from a cursor on.
fn has_unread(events: &Events, event: Event, cursor: u64) -> bool
    ensures { result ≡ is_there (unread (queue_of events.now (event_number event)) cursor) }
{
    let found = events.unread(event, cursor);
    is_any(found.older) | is_any(found.newer)
}

// Whether there is a value.
fn is_any(values: &[i64]) -> bool
    ensures { result ≡ is_there values.now }
{
    !values.is_empty()
}
