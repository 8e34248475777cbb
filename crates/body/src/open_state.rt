// A state in a run: a tick, a system shown what it may see, an outcome laid over the world, a condition asked.

ghost use Rattle.std.specs.Prelude.{◌≡◌, ◌+◌, ◌<◌, ◌≤◌, ◌↔◌, ◌++◌, List, [], false, map, min, length, get_or, All, IfOk, IsTrue, OnOk, OnErr, IsErr, IsErrOf};
ghost use Rattle.std.specs.List.{AllByRecursion};
ghost use Rattle.kinds.specs.Res.{event_number};
ghost use Rattle.model.specs.state.State.{most_indices, most_passed_over, no_memory, register_count};
ghost use Rattle.model.specs.state.Ids as ids;
ghost use Rattle.model.specs.state.KindSets.{kind_sets_of};
ghost use Rattle.model.specs.state.Commands.{apply_buffer, release};
ghost use Rattle.model.specs.shown.Outcome.{spawned_by};
ghost use Rattle.entity_table.specs.Ids.{IsGranted, AreApart};
ghost use Rattle.command_queue.specs.Commands.{commands_of};
ghost use Rattle.model.specs.Lists.{update_at};
ghost use Rattle.model.specs.access.Condition.{holds, queries_of};
ghost use Rattle.model.specs.access.SelfConflict.{ConflictWithin};
ghost use Rattle.model.specs.shown.Input as input;
ghost use Rattle.model.specs.shown.Outcome as outcome;
ghost use Rattle.model.specs.shown.Outcome.{events_sent};
ghost use Rattle.model.specs.shown.Overlay.{has_event_numbers};
ghost use Rattle.model.specs.runs.RunState.{has_tick, next_tick, opening, memory_after_run, memory_of_condition, memory_of_system, with_registers};
ghost use Rattle.archetype_store.specs.Layout.{AreAllHome, IsLayoutOf};
ghost use Rattle.query_plan.specs.Standing.{ArePickedHome};
ghost use Rattle.body.specs.Columns.{Column};
ghost use Rattle.body.specs.Lent.{AreLent, lent_in, with_away, with_back};
ghost use Rattle.body.specs.Out.{IsWrittenBy, AreOut};
ghost use Rattle.body.specs.Steps.{AreInTime, HasShape, asked_at, at_clock, laid, noted, store_of, target_in, with_slots_in, with_target};

mod input;

use crate::condition_answer::ask;
use crate::memory::Memory;
use crate::plans::Plans;
use crate::room::Room;
use crate::state::State;
use crate::view::View;
use access_set::Params;
use archetype_store::World;
use archetype_store::fault::GrantFault;
use change_ticks::clock::LAST_TICK;
use change_ticks::{ClockSpent, Tick};
use command_queue::CommandBuffer;
use command_queue::apply::apply;
use entity_table::Entity;
use event_buffers::{Events, SendFault};
use kinds::Event;
use model::KindSets;
use run_condition::Cond;
use std::alloc::{AllocError, Global};
use std::marker::Model;

// The greatest count of commands passed over.
const MOST_PASSED_OVER: u64 = 1 << 62;

/// A state in a run. While views are open over it, the columns that they write are away. Contracts see the state of
/// the definitions, and the layout of components. In that state a column that is away has the components with which
/// it left. No last run is above the clock, and each memory has its registers.
pub struct OpenState {
    pub(crate) world: World,
    pub(crate) events: Events,
    pub(crate) systems: Vec<Memory>,
    pub(crate) conditions: Vec<Memory>,
    pub(crate) passed_over: u64,
    // For the next starts.
    pub(crate) room: Room,
    pub(crate) plans: Plans,
}

// One function drops it wherever it is let go.
impl Drop for OpenState {
    fn drop(self) {
        let OpenState {
            world: _,
            events: _,
            systems: _,
            conditions: _,
            passed_over: _,
            room: _,
            plans: _,
        } = self;
    }
}

impl Model for OpenState {
    ghost use Rattle.body.specs.KeptPlans.{forms_of};
    ghost use Rattle.body.specs.Steps.{StateValue, ArePartsOf, counted_state};

    ghost Value = { StateValue };

    ghost view = { λ s. record {
      state = counted_state s.world.state s.events s.systems.items
          s.conditions.items s.passed_over;
      layout = s.world.layout;
    } };

    ghost invariant = { λ s. ArePartsOf s.world.state.clock s.systems.items s.conditions.items
        s.passed_over s.plans (forms_of s.world.layout) };
}

impl OpenState {
    /// The state when all columns have come home.
    pub fn into_state(self) -> State
        requires { AreAllHome self.layout }
        ensures { result ≡ self.state }
    {
        State { open: self }
    }

    /// Every state keeps this: there aren't too many indices, the layout is that of the world, and no last run is
    /// above the clock.
    pub fn prove_law(&self)
        ensures few { length self.now.state.world.slots ≤ most_indices }
        ensures laid { IsLayoutOf self.now.state.world.slots self.now.layout }
        ensures memories { AreInTime self.now.state.world.clock self.now.state.systems
            self.now.state.conditions }
    {
        self.world.prove_laid();
        let _ = self.world.now();
    }

    /// The sets of kinds of the living entities.
    pub fn kind_sets(&self, alloc: Global) -> Result<KindSets, AllocError>
        ensures { IfOk result (λ sets. sets ≡ kind_sets_of self.now.state.world.slots) }
    {
        let _ = self.world.now();
        self.world.kind_sets(alloc)
    }

    /// What holds of every state, whatever the schedule.
    pub fn prove_shape(&self)
        ensures { HasShape self.now.state }
    {
        let _ = self.world.now();
        self.events.prove_law();
        self.events.prove_shape();
    }

    /// The opening of a run. It moves the clock to the next tick, and drops the older buffer of the events of each
    /// kind, whose newer one becomes the older. At the last tick the clock is spent and nothing changes.
    #[tactic(auto, using(crate::proofs::Times::all_later))]
    pub fn begin(&mut self) -> Result<(), ClockSpent>
        ensures ok { OnOk result (self.new
            ≡ record { state = opening self.old.state; layout = self.old.layout }) }
        ensures spent { IsErr result ↔ (has_tick self.old.state ≡ false) }
        ensures err { OnErr result (self.new ≡ self.old) }
    {
        let _ = self.world.now();
        self.world.next()?;
        self.events.update();
        self.room.queries.begin();
        Ok(())
    }

    /// The tick to come, to which `next` would move the clock. At the last tick there is none.
    pub fn coming(&self) -> Result<Tick, ClockSpent>
        ensures ok { IfOk result (λ tick. tick ≡ next_tick self.now.state) }
        ensures spent { IsErr result ↔ (has_tick self.now.state ≡ false) }
    {
        let now = self.world.now();
        if now < LAST_TICK {
            Ok(now + 1)
        } else {
            Err(ClockSpent)
        }
    }

    /// Moves the clock to the next tick, and gives that tick. At the last tick the clock is spent and nothing changes.
    #[tactic(auto, using(crate::proofs::Times::all_later))]
    pub fn next(&mut self) -> Result<Tick, ClockSpent>
        ensures ok { IfOk result (λ tick. tick ≡ next_tick self.old.state) }
        ensures moved { OnOk result (self.new
            ≡ record {
              state = at_clock (next_tick self.old.state) self.old.state;
              layout = self.old.layout;
            }) }
        ensures spent { IsErr result ↔ (has_tick self.old.state ≡ false) }
        ensures err { OnErr result (self.new ≡ self.old) }
    {
        let _ = self.world.now();
        self.world.next()
    }

    /// Grants `count` ids: the least vacant indices, at their generations. After an error nothing has changed.
    pub fn grant(&mut self, alloc: Global, count: u32) -> Result<Vec<Entity>, GrantFault>
        ensures ok { IfOk result (λ granted. granted.items
            ≡ ids.granted_ids count self.old.state.world.slots) }
        ensures granted { OnOk result (self.new
            ≡ record {
              state = with_slots_in (ids.grant count self.old.state.world.slots)
                  self.old.state;
              layout = self.old.layout;
            }) }
        ensures spent { IsErrOf result GrantFault.IdsSpent
            ↔ (ids.has_ids count self.old.state.world.slots ≡ false) }
        ensures err { OnErr result (self.new ≡ self.old) }
    {
        self.world.grant(alloc, count)
    }

    /// Grants several numbers of ids at once: the least vacant indices, at their generations, first those of the
    /// first number. They come into a list for each number, in place of the earlier ones: lists that are long enough
    /// take no memory. It is refused where fewer indices are left than are asked for in all, and where an allocation
    /// fails. After an error nothing of the state has changed.
    pub fn grant_level(
        &mut self,
        alloc: Global,
        counts: &[u32],
        granted: &mut Vec<Vec<Entity>>,
    ) -> Result<(), GrantFault>
        ensures ok { OnOk result (map (λ list. list.items) granted.new.items
            ≡ ids.ids_of_each counts.now self.old.state.world.slots) }
        ensures granted { OnOk result (self.new
            ≡ record {
              state = with_slots_in
                  (ids.grant_each counts.now self.old.state.world.slots) self.old.state;
              layout = self.old.layout;
            }) }
        ensures spent { IsErrOf result GrantFault.IdsSpent
            ↔ (ids.has_ids_for_each counts.now self.old.state.world.slots ≡ false) }
        ensures err { OnErr result (self.new ≡ self.old) }
    {
        self.world.grant_level(alloc, counts, granted)
    }

    /// Does the commands of the buffers of these numbers at a tick that isn't above the clock. One buffer comes after
    /// the other, each in its order of issue. Where an allocation fails nothing has changed.
    pub fn apply(
        &mut self,
        alloc: Global,
        buffers: &[CommandBuffer],
        order: &[u32],
        tick: Tick,
    ) -> Result<(), AllocError>
        requires past { tick ≤ self.old.state.world.clock }
        requires home { AreAllHome self.old.layout }
        requires known { All (λ n. n < length buffers.now) order.now }
        requires granted { All (IsGranted self.old.state.world.slots) (spawned_by (commands_of
            buffers.now order.now)) }
        requires apart { AreApart (spawned_by (commands_of buffers.now order.now)) }
        ensures applied { OnOk result (self.new.state
            ≡ with_target
            (apply_buffer tick (target_in self.old.state) (commands_of buffers.now
            order.now))
            self.old.state) }
        ensures err { OnErr result (self.new ≡ self.old) }
        ensures home { AreAllHome self.new.layout }
    {
        if are_empty(buffers, order) {
            return Ok(());
        }
        self.plans.clear();
        let passed = apply(alloc, &mut self.world, buffers, order, tick)?;
        self.passed_over = counted_on(self.passed_over, passed);
        self.plans.forget(&self.world);
        self.room.forget();
        Ok(())
    }

    /// Frees each of these ids that is still granted.
    pub fn release(&mut self, granted: &[Entity])
        ensures { self.new
            ≡ record {
              state = with_slots_in (release granted.now self.old.state.world.slots)
                  self.old.state;
              layout = self.old.layout;
            } }
    {
        self.world.release(granted);
    }

    /// The view of a system with these parameters on the state, with these ids granted, and nothing written yet. Its
    /// writes will count as changed at a tick to come. The columns that it may write leave the state, by move, and
    /// those that it reads are shared. It reuses a view that was closed, if there is one. After an error the state is
    /// as it was.
    pub fn open(
        &mut self,
        alloc: Global,
        params: &Params,
        system: usize,
        tick: Tick,
        granted: &[Entity],
        commands: CommandBuffer,
    ) -> Result<Box<View>, AllocError>
        requires empty { commands ≡ [] }
        requires known { system < length self.old.state.systems }
        requires home { AllByRecursion (λ query. ArePickedHome query self.old.layout)
            params.now.queries }
        requires apart { ConflictWithin params.now → ⊥ }
        requires coming { self.old.state.world.clock < tick }
        ensures params { IfOk result (λ view. view.value.params ≡ params.now) }
        ensures shown { IfOk result (λ view. view.value.shown
            ≡ input.shown params.now (memory_of_system self.old.state system) self.old.state
            granted.now) }
        ensures untouched { IfOk result (λ view. view.value.outcome
            ≡ outcome.untouched params.now view.value.shown) }
        ensures tick { IfOk result (λ view. view.value.opening.tick ≡ tick) }
        ensures written { IfOk result (λ view. AllByRecursion
            (IsWrittenBy params.now.queries self.old.layout) (lent_in
            view.value.opening.taken)) }
        ensures lent { IfOk result (λ view. AreLent (store_of self.new) view.value.opening.taken) }
        ensures out { IfOk result (λ view. (others : List (List Column))
            → AreOut (store_of self.old) others
            → AreOut (store_of self.new) (others ++ view.value.opening.taken)) }
        ensures away { IfOk result (λ view. self.new
            ≡ record {
              state = self.old.state;
              layout = with_away (lent_in view.value.opening.taken) self.old.layout;
            }) }
        ensures back { IfOk result (λ view. with_back (lent_in view.value.opening.taken)
            self.new.layout
            ≡ self.old.layout) }
        ensures err { OnErr result (self.new ≡ self.old) }
    {
        let mut view = kept_or_blank(alloc, self.room.views.take(), params)?;
        self.room.lend_order(system, &mut view);
        let mut plans = self.plans.take(alloc, system);
        let opened = view.open_planned(
            alloc,
            params,
            &self.systems[system],
            &self.events,
            &mut self.world,
            tick,
            granted,
            commands,
            &mut self.room.queries,
            &mut plans,
        );
        self.plans.put(alloc, system, plans);
        opened?;
        Ok(view)
    }

    /// Notes the run of a system with these parameters at a tick, which isn't above the clock. Its last run is then,
    /// and its readers have been shown all that is kept.
    pub fn note(&mut self, system: usize, params: &Params, tick: Tick)
        requires known { system < length self.old.state.systems }
        requires readers { length (memory_of_system self.old.state system).cursors
            ≡ length params.now.reads }
        requires past { tick ≤ self.old.state.world.clock }
        ensures { self.new
            ≡ record {
              state = noted system params.now.reads tick self.old.state;
              layout = self.old.layout;
            } }
    {
        ran_at(
            &mut self.systems,
            system,
            tick,
            params.reads(),
            &self.events,
        );
    }

    /// The answer of a condition on the state, by the tick at which it was last asked and the events that its readers
    /// have read. Fails only for a failed allocation.
    pub fn ask(&mut self, alloc: Global, condition: usize, cond: &Cond) -> Result<bool, AllocError>
        requires known { condition < length self.old.state.conditions }
        requires home { AllByRecursion (λ query. ArePickedHome query self.old.layout) (queries_of
            cond.now) }
        ensures answer { IfOk result (λ answer. answer
            ≡ holds cond.now (memory_of_condition self.old.state condition).last_run
            (memory_of_condition self.old.state condition).cursors self.old.state) }
        ensures same { self.new ≡ self.old }
    {
        let memory = &self.conditions[condition];
        ask(
            alloc,
            cond,
            &self.world,
            &self.events,
            memory.last_run(),
            memory.cursors(),
            &mut self.room.queries.rows,
        )
    }

    /// Notes that a condition with these parameters was asked at a tick, which isn't above the clock. That is its
    /// last run, and its readers have read all that is kept.
    pub fn note_condition(&mut self, condition: usize, access: &Params, tick: Tick)
        requires known { condition < length self.old.state.conditions }
        requires readers { length (memory_of_condition self.old.state condition).cursors
            ≡ length access.now.reads }
        requires past { tick ≤ self.old.state.world.clock }
        ensures { self.new
            ≡ record {
              state = asked_at condition access.now.reads tick self.old.state;
              layout = self.old.layout;
            } }
    {
        ran_at(
            &mut self.conditions,
            condition,
            tick,
            access.reads(),
            &self.events,
        );
    }

    /// Brings the columns of a view of a system home. So it lays the writes over the state, at the tick of the view,
    /// which isn't above the clock. They are components, resources, events, and the registers of the system. Columns
    /// of other views stay away, and the view is kept for a start to come. Where an event gets no number, or an
    /// allocation fails, the state is of no more use. The commands.
    pub fn close(&mut self, view: Box<View>, system: usize) -> Result<CommandBuffer, SendFault>
        requires known { system < length self.old.state.systems }
        requires lent { AreLent (store_of self.old) view.value.opening.taken }
        requires past { view.value.opening.tick ≤ self.old.state.world.clock }
        ensures laid { OnOk result (self.new
            ≡ record {
              state = laid system view.value.opening.tick view.value self.old.state;
              layout = with_back (lent_in view.value.opening.taken) self.old.layout;
            }) }
        ensures out { OnOk result ((front rest : List (List Column))
            → AreOut (store_of self.old) (front ++ (view.value.opening.taken ++ rest))
            → AreOut (store_of self.new) (front ++ rest)) }
        ensures commands { IfOk result (λ commands. commands ≡ view.value.outcome.commands) }
        ensures spent { IsErrOf result SendFault.NumbersSpent
            ↔ (has_event_numbers (events_sent view.value.params.writes view.value.outcome.events)
            self.old.state.events
            ≡ false) }
    {
        self.world.prove_laid();
        let mut view = view;
        view.send(&mut self.events)?;
        let (registers, commands) = view.close(&mut self.world, &mut self.room.queries);
        keep_registers(&mut self.systems, system, registers);
        self.room
            .keep_order(*self.systems.allocator(), system, &mut view);
        self.room.views.give(view);
        Ok(commands)
    }
}

// Whether none of the buffers of these numbers has commands.
fn are_empty(buffers: &[CommandBuffer], order: &[u32]) -> bool
    requires { All (λ n. n < length buffers.now) order.now }
    ensures { IsTrue result → commands_of buffers.now order.now ≡ [] }
{
    let Some((number, others)) = order.split_first() else {
        return true;
    };
    if !buffers[*number as usize].is_empty() {
        return false;
    }
    are_empty(buffers, others)
}

// Notes a run at a tick in a memory, with readers of these event kinds.
fn ran_at(memories: &mut [Memory], at: usize, tick: Tick, reads: &[Event], events: &Events)
    requires known { at < length memories.old }
    requires readers { length (get_or memories.old at no_memory).cursors ≡ length reads.now }
    ensures { memories.new
        ≡ update_at at (memory_after_run tick (map event_number reads.now) events.now)
        memories.old }
{
    let memory = &mut memories[at];
    memory.ran(tick, reads, events);
}

// Puts registers into the memory of a system.
fn keep_registers(memories: &mut [Memory], system: usize, registers: [i64; 8])
    requires { system < length memories.old }
    ensures memories { memories.new ≡ update_at system (with_registers registers) memories.old }
    ensures count { length registers ≡ register_count }
{
    let memory = &mut memories[system];
    memory.set_registers(registers);
}

// So many commands passed over and so many more, cut at the greatest count.
fn counted_on(before: u64, more: u64) -> u64
    ensures { result ≡ min (before + more) most_passed_over }
{
    let sum = before.saturating_add(more);
    if sum < MOST_PASSED_OVER {
        sum
    } else {
        MOST_PASSED_OVER
    }
}

// A view that is to be opened: one that was closed, where one is kept, else a new one.
fn kept_or_blank(
    alloc: Global,
    kept: Option<Box<View>>,
    params: &Params,
) -> Result<Box<View>, AllocError> {
    match kept {
        Some(view) => Ok(view),
        None => Ok(Box::new(alloc, View::blank(alloc, params))?),
    }
}
