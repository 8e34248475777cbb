// The queries of a view as they are opened over a world.

ghost use Rattle.std.specs.Prelude.{◌≡◌, ◌<◌, ℕ, List, [], true, map, IfOk, IfSome, IsTrue, OnOk, OnErr};
ghost use Rattle.std.specs.List.{AllByRecursion};
ghost use Rattle.std.specs.Vec.{vec_len};
ghost use Rattle.model.specs.shown.Input.{rows_of};
ghost use Rattle.model.specs.access.SelfConflict.{TwoConflictAt};
ghost use Rattle.model.specs.shown.Outcome.{untouched_rows, untouched_cells};
ghost use Rattle.archetype_store.specs.Layout.{Archetype};
ghost use Rattle.query_plan.specs.Picks.{pick_seen};
ghost use Rattle.query_plan.specs.Standing.{ArePickedHome};
ghost use Rattle.body.specs.KeptPlans.{forms_of, AreOver, IsStampFree, AsksForKinds};
ghost use Rattle.body.specs.Lent.{AreLent, lent_of, lent_in, with_away, with_back};
ghost use Rattle.body.specs.Opened.{ArePickedOf};
ghost use Rattle.body.specs.Out.{IsWrittenBy};
ghost use Rattle.body.specs.Picked.{AreRequestsOf};
ghost use Rattle.body.specs.SeenOver.{AreTogether};
ghost use Rattle.body.specs.Sheet.{Sheet};

use crate::closing::put_home;
use crate::columns::{ColumnRequests, take_picked};
use crate::kept_plan::{KeptPlan, PlanParts, is_lasting, keep, slots_again};
use crate::room::QueryRoom;
use crate::slot_table::{fill_slots, no_slots};
use crate::turns::turn_length;
use crate::view_query::{ColumnIndex, ViewQuery};
use archetype_store::World;
use change_ticks::Tick;
use query::Query;
use query_plan::plan::plan_by;
use query_plan::spares::{give_list, take_list};
use query_plan::{Pick, Rows, shape_of};
use std::alloc::{AllocError, Global};
use std::snapshot::Snapshot;

// The most room that plans which are kept take in all, in listed rows.
pub(crate) const MOST_ROOM: usize = 1_048_576;

// How much room the numbers of the columns of an archetype take, and a pick with its place, in listed rows.
const ROOM_OF_ARCHETYPE: usize = 10;

const ROOM_OF_PICK: usize = 2;

// The world as it is, without bytes.
fn seen_now(world: &World) -> Snapshot<World>
    ensures { result.value ≡ world.now }
{
    Snapshot::of(world)
}

// How many runs have to begin without a change of entities before plans are kept: the one that is on, and one before it.
const CALM_RUNS: u32 = 2;

// How much room a plan takes, in listed rows.
fn room_of(rows: &Rows, picks: u32, archetypes: u32) -> usize {
    let listed = match rows.as_listed() {
        Some(listed) => listed.len(),
        None => 0,
    };
    let tables = (archetypes as usize).saturating_add(1);
    listed
        .saturating_add(tables.saturating_mul(ROOM_OF_ARCHETYPE))
        .saturating_add((picks as usize).saturating_mul(ROOM_OF_PICK))
}

// Whether the plan of a query that takes so much room is kept: no entity changed in the run before, it lasts, and there is room for it, which is
// then taken.
fn is_kept(query: &Query, size: usize, room: &mut QueryRoom) -> bool
    ensures free { IsTrue result → IsStampFree query.now }
    ensures kinds { IsTrue result → AsksForKinds query.now }
{
    if room.calm_runs < CALM_RUNS || room.room_left < size {
        return false;
    }
    if !is_lasting(query) {
        return false;
    }
    room.room_left -= size;
    true
}

// These rows, such that they can be shared where their plan is kept.
fn readied(alloc: Global, rows: Rows, is_kept: bool) -> Result<Rows, AllocError>
    ensures { IfOk result (λ same. same ≡ rows) }
{
    if is_kept {
        rows.into_shared(alloc)
    } else {
        Ok(rows)
    }
}

// The parts of a plan that is kept, with its picks, where there is memory for them.
fn parts_of(
    alloc: Global,
    is_kept: bool,
    picks: Vec<Pick>,
    slots: &[ColumnIndex],
    rows: &Rows,
    room: &mut QueryRoom,
) -> Option<PlanParts>
    ensures kept { IfSome result (λ parts. is_kept ≡ true) }
    ensures picks { IfSome result (λ parts. parts.picks.items ≡ picks.items) }
    ensures slots { IfSome result (λ parts. parts.slots.items ≡ slots.now) }
    ensures rows { IfSome result (λ parts. parts.rows ≡ rows.now) }
    ensures requests { IfSome result (λ parts. AreRequestsOf (map pick_seen parts.picks.items)
        parts.requests.own.items parts.requests.read.items) }
{
    if !is_kept {
        give_list(&mut room.rows.picks, picks);
        return None;
    }
    let Ok(slots) = slots_again(alloc, slots, room) else {
        return None;
    };
    let Ok(rows) = rows.share(alloc) else {
        return None;
    };
    let mut requests = ColumnRequests::none(alloc);
    if requests.fill(picks.as_slice()).is_err() {
        return None;
    }
    let turn = turn_length(&rows);
    Some(PlanParts {
        picks,
        requests,
        slots,
        rows,
        turn,
        mark: room.next_mark(),
    })
}

// A query as it is opened over a world at a tick to come: it shows its rows, and the columns that it writes are away. Where its plan lasts it is
// added to those that are kept. After an error the world is as it was.
#[inline(never)]
pub(crate) fn open_query(
    alloc: Global,
    query: &Query,
    world: &mut World,
    last_run: Tick,
    tick: Tick,
    room: &mut QueryRoom,
    plans: &mut Vec<KeptPlan>,
) -> Result<ViewQuery, AllocError>
    requires home { ArePickedHome query.now world.old.layout }
    requires coming { world.old.state.clock < tick }
    requires planned { AreOver (forms_of world.old.layout) plans.old.items }
    ensures terms { IfOk result (λ q. q.terms ≡ query.now) }
    ensures rows { IfOk result (λ q. q.rows ≡ rows_of query.now last_run world.old.state.slots) }
    ensures untouched { IfOk result (λ q. q.cells ≡ untouched_rows q.terms q.rows) }
    ensures taken { IfOk result (λ q. ArePickedOf query.now world.old q.taken) }
    ensures tick { IfOk result (λ q. q.tick ≡ tick) }
    ensures away { IfOk result (λ q. world.new
        ≡ record {
          state = world.old.state;
          layout = with_away (lent_of q.taken) world.old.layout;
        }) }
    ensures planned { AreOver (forms_of world.old.layout) plans.new.items }
    ensures err { OnErr result (world.new ≡ world.old) }
{
    // Tell how the layout is that of the state, and that no stamp is above the clock.
    world.prove_laid();
    let _now = world.now();
    let before = seen_now(world);
    let shape = shape_of(query).number();
    let plan = plan_by(alloc, world, shape, query, last_run, &mut room.rows)?;
    let Ok(count) = u32::try_from(plan.picks.len()) else {
        return Err(AllocError);
    };
    let mut slots = no_slots(
        take_list(&mut room.slots, alloc),
        plan.archetypes as usize + 1,
    )?;
    let found = Rows::of(alloc, plan.rows, world)?;
    let size = room_of(&found, count, plan.archetypes);
    let lasts = is_kept(query, size, room);
    let rows = readied(alloc, found, lasts)?;
    let columns = take_picked(alloc, plan.picks.as_slice(), world, room)?;
    fill_slots(&mut slots, query.terms(), columns.as_slice(), count);
    let parts = parts_of(alloc, lasts, plan.picks, &slots, &rows, room);
    keep(alloc, query, before, parts, plans);
    Ok(ViewQuery::open(tick, query, slots, rows, columns))
}

// The plan of a query among these, where there is one.
fn plan_of<'a>(plans: &'a [KeptPlan], query: &Query) -> Option<&'a KeptPlan>
    ensures terms { IfSome result (λ plan. plan.now.terms ≡ query.now) }
    ensures over { IfSome result (λ plan. (forms : List Archetype) → AreOver forms plans.now
        → plan.now.forms ≡ forms) }
{
    for plan in plans {
        if plan.is_of(query) {
            return Some(plan);
        }
    }
    None
}

// A query as it is opened, by its plan where one is kept.
fn open_next(
    alloc: Global,
    query: &Query,
    world: &mut World,
    last_run: Tick,
    tick: Tick,
    room: &mut QueryRoom,
    plans: &mut Vec<KeptPlan>,
) -> Result<ViewQuery, AllocError>
    requires home { ArePickedHome query.now world.old.layout }
    requires coming { world.old.state.clock < tick }
    requires planned { AreOver (forms_of world.old.layout) plans.old.items }
    ensures terms { IfOk result (λ q. q.terms ≡ query.now) }
    ensures rows { IfOk result (λ q. q.rows ≡ rows_of query.now last_run world.old.state.slots) }
    ensures untouched { IfOk result (λ q. q.cells ≡ untouched_rows q.terms q.rows) }
    ensures taken { IfOk result (λ q. ArePickedOf query.now world.old q.taken) }
    ensures tick { IfOk result (λ q. q.tick ≡ tick) }
    ensures away { IfOk result (λ q. world.new
        ≡ record {
          state = world.old.state;
          layout = with_away (lent_of q.taken) world.old.layout;
        }) }
    ensures planned { AreOver (forms_of world.old.layout) plans.new.items }
    ensures err { OnErr result (world.new ≡ world.old) }
{
    match plan_of(plans, query) {
        Some(plan) => plan.open(alloc, world, tick, room),
        None => open_query(alloc, query, world, last_run, tick, room, plans),
    }
}

// Leaves no query in a list, mostly one that has none.
#[inline(always)]
fn clear_list(opened: &mut Vec<ViewQuery>)
    ensures items { opened.new.items ≡ [] }
    ensures len { vec_len opened.new ≡ 0 }
{
    if !opened.is_empty() {
        opened.clear();
    }
}

// Queries as they are opened over a world at a tick to come, in the room of a list. Where the plan of one is kept it is opened by it, else its plan
// is kept if it lasts. After an error the world is as it was, and the list is empty.
pub(crate) fn open_queries(
    alloc: Global,
    opened: &mut Vec<ViewQuery>,
    queries: &[Query],
    world: &mut World,
    last_run: Tick,
    tick: Tick,
    room: &mut QueryRoom,
    plans: &mut Vec<KeptPlan>,
) -> Result<(), AllocError>
    requires home { AllByRecursion (λ query. ArePickedHome query world.old.layout) queries.now }
    requires apart { (kind : ℕ) → TwoConflictAt queries.now kind → ⊥ }
    requires coming { world.old.state.clock < tick }
    requires planned { AreOver (forms_of world.old.layout) plans.old.items }
    ensures terms { OnOk result (map (λ (q : Sheet). q.terms) opened.new.items ≡ queries.now) }
    ensures rows { OnOk result (map (λ (q : Sheet). q.rows) opened.new.items
        ≡ map (λ query. rows_of query last_run world.old.state.slots) queries.now) }
    ensures untouched { OnOk result (map (λ (q : Sheet). q.cells) opened.new.items
        ≡ untouched_cells (map (λ (q : Sheet). q.terms) opened.new.items) (map
        (λ (q : Sheet). q.rows) opened.new.items)) }
    ensures written { OnOk result (AllByRecursion (IsWrittenBy queries.now world.old.layout)
        (lent_in (map (λ (q : Sheet). q.taken) opened.new.items))) }
    ensures together { OnOk result (AreTogether tick opened.new.items) }
    ensures lent { OnOk result (AreLent world.new (map (λ (q : Sheet). q.taken) opened.new.items)) }
    ensures away { OnOk result (world.new
        ≡ record {
          state = world.old.state;
          layout = with_away (lent_in (map (λ (q : Sheet). q.taken) opened.new.items))
              world.old.layout;
        }) }
    ensures back { OnOk result (with_back (lent_in (map (λ (q : Sheet). q.taken) opened.new.items))
        world.new.layout
        ≡ world.old.layout) }
    ensures planned { AreOver (forms_of world.old.layout) plans.new.items }
    ensures none { OnErr result (opened.new.items ≡ []) }
    ensures err { OnErr result (world.new ≡ world.old) }
{
    // Tell how the layout is that of the state, and that no stamp is above the clock.
    world.prove_laid();
    let _now = world.now();
    clear_list(opened);
    opened.reserve(queries.len())?;
    for query in queries {
        match open_next(alloc, query, world, last_run, tick, room, plans) {
            Ok(one) => opened.push_reserved(one),
            Err(_) => {
                put_home(opened, world, room);
                return Err(AllocError);
            }
        }
    }
    Ok(())
}
