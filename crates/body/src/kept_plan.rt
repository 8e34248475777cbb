// The plan of a query, kept for the next starts: it holds as long as no entity changes.

ghost use Rattle.std.specs.Prelude.{◌≡◌, ◌<◌, ℕ, true, map, IfOk, IfSome, IsTrue, OnOk, OnErr};
ghost use Rattle.std.specs.List.{AllByRecursion};
ghost use Rattle.model.specs.shown.Input.{rows_of};
ghost use Rattle.model.specs.shown.Outcome.{untouched_rows};
ghost use Rattle.query_plan.specs.Picks.{pick_seen};
ghost use Rattle.query_plan.specs.Standing.{ArePickedHome};
ghost use Rattle.body.specs.HeldColumns.{slots_seen};
ghost use Rattle.body.specs.KeptPlans.{forms_of, AreOver, IsKeptPlan, IsStampFree, AsksForKinds};
ghost use Rattle.body.specs.Lent.{lent_of, with_away};
ghost use Rattle.body.specs.Opened.{ArePickedOf};
ghost use Rattle.body.specs.Picked.{AreRequestsOf};

use crate::columns::{ColumnRequests, take_requested};
use crate::room::QueryRoom;
use crate::same_terms::same_terms;
use crate::view_query::{ColumnIndex, ViewQuery};
use archetype_store::World;
use change_ticks::Tick;
use query::Query;
use query_plan::picks::matches_kinds;
use query_plan::spares::take_list;
use query_plan::{Pick, Rows};
use std::alloc::{AllocError, Global};
use std::marker::Model;
use std::snapshot::Snapshot;

// What is planned of a query: the columns that it picks, where they are, which column has what, and its rows.
#[derive(Drop)]
pub(crate) struct PlanParts {
    pub(crate) picks: Vec<Pick>,
    pub(crate) requests: ColumnRequests,
    pub(crate) slots: Vec<ColumnIndex>,
    pub(crate) rows: Rows,
    // How many rows stand in turn, one with another, as far as was looked.
    pub(crate) turn: usize,
    // Another for each plan of a state, and not 0.
    pub(crate) mark: u64,
}

// The plan of a query over a world. It holds over each world with the same archetypes of the same entities.
pub(crate) struct KeptPlan {
    query: Query,
    parts: PlanParts,
    world: Snapshot<World>,
}

// One function drops it wherever it is let go.
impl Drop for KeptPlan {
    fn drop(self) {
        let KeptPlan {
            query: _,
            parts: _,
            world: _,
        } = self;
    }
}

impl Model for KeptPlan {
    ghost use Rattle.std.specs.Prelude.{map};
    ghost use Rattle.query_plan.specs.Picks.{pick_seen};
    ghost use Rattle.body.specs.HeldColumns.{slots_seen};
    ghost use Rattle.body.specs.KeptPlans.{KeptSeen, forms_of, IsKept};

    ghost Value = { KeptSeen };

    ghost view = { λ p. record { terms = p.query; forms = forms_of p.world.value.layout } };

    ghost invariant = { λ p. IsKept p.query p.world.value (map pick_seen p.parts.picks.items)
        p.parts.requests.own.items p.parts.requests.read.items
        (map slots_seen p.parts.slots.items) p.parts.rows };
}

impl KeptPlan {
    // The plan of these parts of a query over a world.
    pub(crate) fn of(
        alloc: Global,
        query: &Query,
        world: Snapshot<World>,
        parts: PlanParts,
    ) -> Result<Self, AllocError>
        requires plan { IsKeptPlan query.now world.value (map pick_seen parts.picks.items)
            (map slots_seen parts.slots.items) parts.rows }
        requires requests { AreRequestsOf (map pick_seen parts.picks.items)
            parts.requests.own.items parts.requests.read.items }
        ensures { IfOk result (λ plan. plan
            ≡ record { terms = query.now; forms = forms_of world.value.layout }) }
    {
        Ok(KeptPlan {
            query: Query::of_terms(alloc, query.terms())?,
            parts,
            world,
        })
    }

    // Whether this is the plan of a query.
    pub(crate) fn is_of(&self, query: &Query) -> bool
        ensures { IsTrue result → self.now.terms ≡ query.now }
    {
        same_terms(self.query.terms(), query.terms())
    }

    // The query as it is opened by its plan over a world at a tick to come. After an error the world is as it was.
    pub(crate) fn open(
        &self,
        alloc: Global,
        world: &mut World,
        tick: Tick,
        room: &mut QueryRoom,
    ) -> Result<ViewQuery, AllocError>
        requires forms { self.now.forms ≡ forms_of world.old.layout }
        requires home { ArePickedHome self.now.terms world.old.layout }
        requires coming { world.old.state.clock < tick }
        ensures terms { IfOk result (λ q. q.terms ≡ self.now.terms) }
        ensures rows { IfOk result (λ q. (last : ℕ)
            → q.rows ≡ rows_of self.now.terms last world.old.state.slots) }
        ensures untouched { IfOk result (λ q. q.cells ≡ untouched_rows q.terms q.rows) }
        ensures taken { IfOk result (λ q. ArePickedOf self.now.terms world.old q.taken) }
        ensures tick { IfOk result (λ q. q.tick ≡ tick) }
        ensures away { IfOk result (λ q. world.new
            ≡ record {
              state = world.old.state;
              layout = with_away (lent_of q.taken) world.old.layout;
            }) }
        ensures err { OnErr result (world.new ≡ world.old) }
    {
        // Tell how the layout is that of the state, that no entity is in an archetype twice, and that no stamp is above the clock.
        world.prove_laid();
        world.prove_apart();
        let _now = world.now();
        let rows = self.parts.rows.share(alloc)?;
        let slots = slots_again(alloc, &self.parts.slots, room)?;
        let list = take_list(&mut room.columns, alloc);
        let requests = &self.parts.requests;
        let columns = take_requested(alloc, self.parts.picks.as_slice(), requests, world, list)?;
        let turn = self.parts.turn;
        let query = ViewQuery::open_by(tick, &self.query, slots, rows, columns, turn);
        Ok(query.marked(self.parts.mark))
    }
}

// These slots once more, in a list of this room.
pub(crate) fn slots_again(
    alloc: Global,
    slots: &[ColumnIndex],
    room: &mut QueryRoom,
) -> Result<Vec<ColumnIndex>, AllocError>
    ensures { IfOk result (λ copy. copy.items ≡ slots.now) }
{
    let mut copy = take_list(&mut room.slots, alloc);
    copy.extend_from_slice(slots)?;
    Ok(copy)
}

// Whether the plan of a query may be kept: what its rows are depends on no stamps, and each has components.
pub(crate) fn is_lasting(query: &Query) -> bool
    ensures free { IsTrue result → IsStampFree query.now }
    ensures kinds { IsTrue result → AsksForKinds query.now }
{
    !query.has_filter() && !matches_kinds(query, &[])
}

// Adds a plan of these parts of a query over a world to those that are kept, where there are parts, and memory for it.
pub(crate) fn keep(
    alloc: Global,
    query: &Query,
    world: Snapshot<World>,
    parts: Option<PlanParts>,
    plans: &mut Vec<KeptPlan>,
)
    requires plan { IfSome parts (λ p. IsKeptPlan query.now world.value (map pick_seen
        p.picks.items) (map slots_seen p.slots.items) p.rows) }
    requires requests { IfSome parts (λ p. AreRequestsOf (map pick_seen p.picks.items)
        p.requests.own.items p.requests.read.items) }
    requires over { AreOver (forms_of world.value.layout) plans.old.items }
    ensures { AreOver (forms_of world.value.layout) plans.new.items }
{
    let Some(parts) = parts else {
        return;
    };
    let Ok(plan) = KeptPlan::of(alloc, query, world, parts) else {
        return;
    };
    let _kept = plans.push(plan);
}
