// A view: what a system is shown at its start, and its outcome so far, where the columns lie.

ghost use Rattle.std.specs.Prelude.{◌≡◌, ◌↔◌, ◌+◌, ◌<◌, ◌≤◌, ℕ, true, false, [], length, get_or, pos, option_map, is_some, unwrap_or, IfOk, IsErrOf, IsTrue, OnOk, OnErr, IfSome};
ghost use Rattle.std.specs.List.{AllByRecursion};
ghost use Rattle.kinds.specs.Kind.{kind_number};
ghost use Rattle.kinds.specs.Res.{res_number, event_number};
ghost use Rattle.kinds.specs.Components.{widths};
ghost use Rattle.kinds.specs.Value.{value_number, value_words};
ghost use Rattle.model.specs.Lists.{has, IsIn};
ghost use Rattle.model.specs.state.State.{State, register_count};
ghost use Rattle.model.specs.access.Access.{names_resource};
ghost use Rattle.model.specs.access.Query.{writes};
ghost use Rattle.model.specs.access.SelfConflict.{ConflictWithin};
ghost use Rattle.model.specs.shown.Input.{shown};
ghost use Rattle.model.specs.shown.Outcome.{events_sent, spawned_by, untouched, words_written};
ghost use Rattle.model.specs.shown.Overlay.{has_event_numbers, queues_after};
ghost use Rattle.model.specs.shown.Outcome.Command.{Spawn, Insert, Remove, Despawn};
ghost use Rattle.query_plan.specs.Standing.{ArePickedHome};
ghost use Rattle.archetype_store.specs.Overlays.{AreReached};
ghost use Rattle.body.specs.Fields.{field_read, with_fields, with_listed_fields};
ghost use Rattle.body.specs.KeptPlans.{forms_of, AreOver};
ghost use Rattle.body.specs.Laid.{world_after};
ghost use Rattle.body.specs.Lent.{AreLent, lent_in, with_away, with_back};
ghost use Rattle.body.specs.Orders.{IsOrder};
ghost use Rattle.body.specs.Out.{IsWrittenBy};
ghost use Rattle.body.specs.SeenOver.{blank_seen};
ghost use Rattle.body.specs.Turns.{AreInTurnAt};
ghost use Rattle.body.specs.Seen.{query_at, rows_at, places_at, row_at, read_at, with_written, resource_read, with_resource, with_register, events_shown, with_emitted, granted_at, with_command};

use crate::closing::put_home;
use crate::kept_plan::KeptPlan;
use crate::memory::Memory;
use crate::opening::open_queries;
use crate::room::QueryRoom;
use crate::row_order::RowOrder;
use crate::view_commands::ViewCommands;
use crate::view_query::ViewQuery;
use crate::view_values::ViewValues;
use access_set::Params;
use archetype_store::World;
use change_ticks::Tick;
use command_queue::CommandBuffer;
use entity_table::Entity;
use event_buffers::{EventLists, Events, SendFault};
use kinds::{Component, Event, Fields, Kind, Res, Value};
use std::alloc::{AllocError, Global};
use std::marker::Model;
use std::mem;

/// A system reads the world through a view, as shown at its start, and writes into it. Contracts see the parameters,
/// what is shown, the outcome so far, and what it was opened over.
pub struct View {
    tick: Tick,
    queries: Vec<ViewQuery>,
    values: ViewValues,
    unread: EventLists,
    sent: EventLists,
    issued: ViewCommands,
    // The list of the order of rows that was asked for last.
    order: RowOrder,
}

// One function drops it wherever it is let go.
impl Drop for View {
    fn drop(self) {
        let View {
            tick: _,
            queries: _,
            values: _,
            unread: _,
            sent: _,
            issued: _,
            order: _,
        } = self;
    }
}

impl Model for View {
    ghost use Rattle.body.specs.Seen.{Seen};

    ghost Value = { Seen };

    ghost use Rattle.body.specs.SeenOver.{seen_over, AreTogether};

    ghost view = { λ v. seen_over v.tick v.queries.items v.values v.unread v.sent v.issued };

    ghost invariant = { λ v. AreTogether v.tick v.queries.items };
}

impl View {
    // A view that is to be opened, which has no queries. Allocates nothing.
    pub(crate) fn blank(alloc: Global, params: &Params) -> Self
        ensures { result ≡ blank_seen params.now }
    {
        View {
            tick: 0,
            queries: Vec::new(alloc),
            values: ViewValues::blank(params),
            unread: EventLists::new(alloc),
            sent: EventLists::new(alloc),
            issued: ViewCommands::blank(alloc),
            order: RowOrder::new(alloc),
        }
    }

    /// The view of a system with these parameters and this memory on a world and its events, with these ids granted,
    /// and nothing written. Its writes will count as changed at a tick to come. Its commands go into a buffer that
    /// has none. The columns that it may write leave the world, by move, and those that it reads are shared. The
    /// earlier use of the view is forgotten, and its lists are scratch. After an error the world is as it was, and
    /// the view is of no more use.
    pub fn open(
        &mut self,
        alloc: Global,
        params: &Params,
        memory: &Memory,
        events: &Events,
        world: &mut World,
        tick: Tick,
        granted: &[Entity],
        commands: CommandBuffer,
        room: &mut QueryRoom,
    ) -> Result<(), AllocError>
        requires empty { commands ≡ [] }
        requires home { AllByRecursion (λ query. ArePickedHome query world.old.layout)
            params.now.queries }
        requires apart { ConflictWithin params.now → ⊥ }
        requires coming { world.old.state.clock < tick }
        ensures params { OnOk result (self.new.params ≡ params.now) }
        ensures shown { OnOk result ((state : State) → state.world ≡ world.old.state
            → state.events ≡ events.now
            → self.new.shown ≡ shown params.now memory.now state granted.now) }
        ensures untouched { OnOk result (self.new.outcome
            ≡ untouched self.new.params self.new.shown) }
        ensures tick { OnOk result (self.new.opening.tick ≡ tick) }
        ensures written { OnOk result (AllByRecursion
            (IsWrittenBy params.now.queries world.old.layout) (lent_in
            self.new.opening.taken)) }
        ensures lent { OnOk result (AreLent world.new self.new.opening.taken) }
        ensures away { OnOk result (world.new
            ≡ record {
              state = world.old.state;
              layout = with_away (lent_in self.new.opening.taken) world.old.layout;
            }) }
        ensures back { OnOk result (with_back (lent_in self.new.opening.taken) world.new.layout
            ≡ world.old.layout) }
        ensures err { OnErr result (world.new ≡ world.old) }
    {
        self.open_planned(
            alloc,
            params,
            memory,
            events,
            world,
            tick,
            granted,
            commands,
            room,
            &mut Vec::new(alloc),
        )
    }

    // The same by these plans, which hold over the world. Those that are made for it and last are added to them.
    pub(crate) fn open_planned(
        &mut self,
        alloc: Global,
        params: &Params,
        memory: &Memory,
        events: &Events,
        world: &mut World,
        tick: Tick,
        granted: &[Entity],
        commands: CommandBuffer,
        room: &mut QueryRoom,
        plans: &mut Vec<KeptPlan>,
    ) -> Result<(), AllocError>
        requires empty { commands ≡ [] }
        requires home { AllByRecursion (λ query. ArePickedHome query world.old.layout)
            params.now.queries }
        requires apart { ConflictWithin params.now → ⊥ }
        requires coming { world.old.state.clock < tick }
        requires planned { AreOver (forms_of world.old.layout) plans.old.items }
        ensures params { OnOk result (self.new.params ≡ params.now) }
        ensures shown { OnOk result ((state : State) → state.world ≡ world.old.state
            → state.events ≡ events.now
            → self.new.shown ≡ shown params.now memory.now state granted.now) }
        ensures untouched { OnOk result (self.new.outcome
            ≡ untouched self.new.params self.new.shown) }
        ensures tick { OnOk result (self.new.opening.tick ≡ tick) }
        ensures written { OnOk result (AllByRecursion
            (IsWrittenBy params.now.queries world.old.layout) (lent_in
            self.new.opening.taken)) }
        ensures lent { OnOk result (AreLent world.new self.new.opening.taken) }
        ensures away { OnOk result (world.new
            ≡ record {
              state = world.old.state;
              layout = with_away (lent_in self.new.opening.taken) world.old.layout;
            }) }
        ensures back { OnOk result (with_back (lent_in self.new.opening.taken) world.new.layout
            ≡ world.old.layout) }
        ensures planned { AreOver (forms_of world.old.layout) plans.new.items }
        ensures err { OnErr result (world.new ≡ world.old) }
    {
        self.unread
            .open_unread(alloc, params.reads(), memory.cursors(), events)?;
        self.sent.open_empty(alloc, params.writes())?;
        self.issued.open(params, granted, commands)?;
        self.values.open(params, memory, world);
        open_queries(
            alloc,
            &mut self.queries,
            params.queries(),
            world,
            memory.last_run(),
            tick,
            room,
            plans,
        )?;
        self.tick = tick;
        Ok(())
    }

    /// Every view keeps this: it shows rows for each query, and has commands only where its system has Commands.
    pub fn prove_law(&self)
        ensures rows { length self.now.shown.rows ≡ length self.now.params.queries }
        ensures commands { is_some self.now.params.spawns ≡ false → self.now.outcome.commands ≡ [] }
    {
        self.issued.prove_law();
    }

    /// Sends the events that were emitted. Where one gets no number none is sent; where an allocation fails those of some kinds may have been.
    pub fn send(&self, events: &mut Events) -> Result<(), SendFault>
        ensures ok { OnOk result (events.new
            ≡ queues_after (events_sent self.now.params.writes self.now.outcome.events)
            events.old) }
        ensures spent { IsErrOf result SendFault.NumbersSpent
            ↔ (has_event_numbers (events_sent self.now.params.writes self.now.outcome.events)
            events.old
            ≡ false) }
    {
        self.sent.send(events)
    }

    /// Brings the columns home, and so lays what was written over the world, and writes its resources. All else of the world stays. All that
    /// was written is written in columns that the world lent. The registers, as they are in the end, and the commands. The lists of its queries
    /// go to this room, and the view is of use to be opened again alone.
    pub fn close(&mut self, world: &mut World, room: &mut QueryRoom) -> ([i64; 8], CommandBuffer)
        requires lent { AreLent world.old self.old.opening.taken }
        requires past { self.old.opening.tick ≤ world.old.state.clock }
        ensures home { world.new
            ≡ record {
              state = world_after self.old.opening.tick self.old world.old.state;
              layout = with_back (lent_in self.old.opening.taken) world.old.layout;
            } }
        ensures reach { AreReached world.old.layout (lent_in self.old.opening.taken) (words_written
            self.old.params.queries self.old.shown.rows self.old.outcome.cells) }
        ensures registers { result.0 ≡ self.old.outcome.registers }
        ensures commands { result.1 ≡ self.old.outcome.commands }
    {
        // Tell how the layout is that of the state, and that no stamp is above the clock.
        world.prove_laid();
        let _now = world.now();
        put_home(&mut self.queries, world, room);
        self.values.lay(self.tick, world);
        (self.values.registers(), self.issued.take_commands())
    }

    /// How many rows a query has.
    pub fn rows(&self, query: usize) -> usize
        requires { query < length self.now.shown.rows }
        ensures { result ≡ length (rows_at self.now.shown query) }
    {
        let query = &self.queries[query];
        query.rows()
    }

    /// The entity of a row of a query.
    pub fn entity(&self, query: usize, row: usize) -> Entity
        requires query { query < length self.now.shown.rows }
        requires row { row < length (rows_at self.now.shown query) }
        ensures { result ≡ (row_at self.now.shown query row).entity }
    {
        let query = &self.queries[query];
        query.entity(row)
    }

    /// The component of a row of a query: the one written there, or the one shown if none was written. None exactly
    /// where the entity has none of the kind, or no term of the query fetches it.
    pub fn get<C: Component>(&self, query: usize, row: usize) -> Option<C>
        requires query { query < length self.now.shown.rows }
        requires row { row < length (rows_at self.now.shown query) }
        ensures { option_map C.words result ≡ read_at self.now query row C.NUMBER }
    {
        let query = &self.queries[query];
        query.get(row)
    }

    /// Writes a component of a row of a query.
    pub fn set<C: Component>(&mut self, query: usize, row: usize, component: C)
        requires query { query < length self.old.shown.rows }
        requires row { row < length (rows_at self.old.shown query) }
        requires mut_term { IsTrue (writes (query_at self.old.params query) C.NUMBER) }
        ensures { self.new ≡ with_written self.old query row C.NUMBER (C.words component) }
    {
        self.write(query, row, component.into_value());
    }

    /// The value of a resource that is read or written: the one written, or the one shown if none was written.
    pub fn res(&self, resource: Res) -> i64
        requires { IsTrue (names_resource self.now.params (res_number resource)) }
        ensures { result ≡ resource_read self.now (res_number resource) }
    {
        self.values.res(resource)
    }

    /// Writes a resource that has a `ResMut`.
    pub fn set_res(&mut self, resource: Res, value: i64)
        requires { IsTrue (has (res_number resource) self.old.params.res_mut) }
        ensures { self.new ≡ with_resource self.old (res_number resource) value }
    {
        self.values.set_res(resource, value);
    }

    /// The events that are shown of a kind that is read, oldest first. Where several readers are of the kind, those of the first.
    pub fn events(&self, kind: Event) -> &[i64]
        requires { IsTrue (has (event_number kind) self.now.params.reads) }
        ensures { result.now ≡ events_shown self.now.params self.now.shown (event_number kind) }
    {
        self.unread.of_kind(kind)
    }

    /// Emits an event of a kind that is written. Where an allocation fails nothing changes.
    pub fn emit(&mut self, kind: Event, value: i64) -> Result<(), AllocError>
        requires { IsTrue (has (event_number kind) self.old.params.writes) }
        ensures ok { OnOk result (self.new ≡ with_emitted self.old (event_number kind) value) }
        ensures err { OnErr result (self.new ≡ self.old) }
    {
        self.sent.push(kind, value)
    }

    /// The id of a slot, granted at the start.
    pub fn granted(&self, slot: usize) -> Entity
        requires { slot < length self.now.shown.granted }
        ensures { result ≡ granted_at self.now.shown slot }
    {
        self.issued.granted(slot)
    }

    /// The entity of a slot is to live from the sync point on, with no component. Where an allocation fails nothing changes.
    pub fn spawn(&mut self, slot: usize) -> Result<(), AllocError>
        requires declared { is_some self.old.params.spawns ≡ true }
        requires slot { slot < length self.old.shown.granted }
        requires unspawned { IsIn (granted_at self.old.shown slot) (spawned_by
            self.old.outcome.commands)
            → ⊥ }
        ensures ok { OnOk result (self.new
            ≡ with_command self.old (Spawn (granted_at self.old.shown slot))) }
        ensures err { OnErr result (self.new ≡ self.old) }
    {
        self.issued.spawn(slot)
    }

    /// An entity is to have a component from the sync point on. Where an allocation fails nothing changes.
    pub fn insert<C: Component>(&mut self, e: Entity, component: C) -> Result<(), AllocError>
        requires { is_some self.old.params.spawns ≡ true }
        ensures ok { OnOk result (self.new
            ≡ with_command self.old (Insert e C.NUMBER (C.words component))) }
        ensures err { OnErr result (self.new ≡ self.old) }
    {
        self.issued.insert(e, component.into_value())
    }

    /// An entity is to have no component of a kind from the sync point on. Where an allocation fails nothing changes.
    pub fn remove(&mut self, e: Entity, kind: Kind) -> Result<(), AllocError>
        requires { is_some self.old.params.spawns ≡ true }
        ensures ok { OnOk result (self.new ≡ with_command self.old (Remove e (kind_number kind))) }
        ensures err { OnErr result (self.new ≡ self.old) }
    {
        self.issued.remove(e, kind)
    }

    /// An entity is to live no more from the sync point on. Where an allocation fails nothing changes.
    pub fn despawn(&mut self, e: Entity) -> Result<(), AllocError>
        requires { is_some self.old.params.spawns ≡ true }
        ensures ok { OnOk result (self.new ≡ with_command self.old (Despawn e)) }
        ensures err { OnErr result (self.new ≡ self.old) }
    {
        self.issued.despawn(e)
    }

    /// A register: the value put there last, or the one shown if none was put.
    pub fn reg(&self, register: usize) -> i64
        requires { register < register_count }
        ensures { result ≡ get_or self.now.outcome.registers register (pos 0) }
    {
        self.values.reg(register)
    }

    /// Puts a value into a register.
    pub fn set_reg(&mut self, register: usize, value: i64)
        requires { register < register_count }
        ensures { self.new ≡ with_register self.old register value }
    {
        self.values.set_reg(register, value);
    }

    /// The fields of the component of a kind in a row of a query: those written there, or those shown if none were
    /// written. None where there is no component.
    pub fn words(&self, query: usize, row: usize, kind: Kind) -> Option<Fields>
        requires query { query < length self.now.shown.rows }
        requires row { row < length (rows_at self.now.shown query) }
        ensures { result ≡ read_at self.now query row (kind_number kind) }
    {
        let query = &self.queries[query];
        query.words(row, kind)
    }

    /// Writes the component of a kind with these fields in a row of a query that has a `mut` term of the kind.
    pub fn set_words(&mut self, query: usize, row: usize, kind: Kind, words: &[i64])
        requires query { query < length self.old.shown.rows }
        requires row { row < length (rows_at self.old.shown query) }
        requires mut_term { IsTrue (writes (query_at self.old.params query) (kind_number kind)) }
        requires width { length words.now ≡ widths (kind_number kind) }
        ensures { self.new ≡ with_written self.old query row (kind_number kind) words.now }
    {
        self.write(query, row, Value::of(kind, words));
    }

    /// An entity is to have the component of a kind with these fields from the sync point on. Where an allocation fails nothing changes.
    pub fn insert_words(&mut self, e: Entity, kind: Kind, words: &[i64]) -> Result<(), AllocError>
        requires declared { is_some self.old.params.spawns ≡ true }
        requires width { length words.now ≡ widths (kind_number kind) }
        ensures ok { OnOk result (self.new
            ≡ with_command self.old (Insert e (kind_number kind) words.now)) }
        ensures err { OnErr result (self.new ≡ self.old) }
    {
        self.issued.insert(e, Value::of(kind, words))
    }

    // Writes a component of any kind of a row of a query.
    fn write(&mut self, query: usize, row: usize, value: Value)
        requires query { query < length self.old.shown.rows }
        requires row { row < length (rows_at self.old.shown query) }
        requires mut_term { IsTrue (writes (query_at self.old.params query) (value_number value)) }
        ensures { self.new
            ≡ with_written self.old query row (value_number value) (value_words value) }
    {
        let query = &mut self.queries[query];
        query.write(row, value);
    }
}

impl View {
    /// The values of a field of a kind in the rows of a query from one on, as many as there is room for. Each is the
    /// one written there, or the one shown if none was written. 0 where a row has not the kind, where no term of the
    /// query fetches it, and where the kind has no such field.
    pub fn read_field(
        &self,
        query: usize,
        kind: Kind,
        place: usize,
        from: usize,
        values: &mut [i64],
    )
        requires query { query < length self.now.shown.rows }
        requires rows { from + length values.old ≤ length (rows_at self.now.shown query) }
        ensures length { length values.new ≡ length values.old }
        ensures values { (i : ℕ) → i < length values.old
            → get_or values.new i (pos 0)
            ≡ field_read self.now query (from + i) (kind_number kind) place }
    {
        let query = &self.queries[query];
        query.read_field(kind, from, place, values);
    }

    /// Writes values into a field of a kind in the rows of a query from one on, a value a row. The query has a `mut` term of the kind, and the
    /// other field of each component stays.
    pub fn write_field(
        &mut self,
        query: usize,
        kind: Kind,
        place: usize,
        from: usize,
        values: &[i64],
    )
        requires query { query < length self.old.shown.rows }
        requires rows { from + length values.now ≤ length (rows_at self.old.shown query) }
        requires mut_term { IsTrue (writes (query_at self.old.params query) (kind_number kind)) }
        requires place { place < widths (kind_number kind) }
        ensures { self.new ≡ with_fields self.old query (kind_number kind) place from values.now }
    {
        let query = &mut self.queries[query];
        query.write_field(kind, from, place, values);
    }
}

impl View {
    /// The stored order of the rows of a query. By it many more of them are contiguous, as far as was looked, than in
    /// rising index. A field of many is best read and written so. None where nothing is gained by it. Its list is
    /// that of an order that was given back, if any.
    pub fn order(&mut self, query: usize) -> Result<Option<RowOrder>, AllocError>
        requires { query < length self.old.shown.rows }
        ensures order { IfOk result (λ found. IfSome found (λ order. IsOrder
            (length (rows_at self.old.shown query)) order)) }
        ensures same { self.new ≡ self.old }
    {
        let mut order = self.take_order();
        let query = &self.queries[query];
        if query.put_in_order(&mut order)? {
            return Ok(Some(order));
        }
        self.give_order(order);
        Ok(None)
    }

    // The list of an order.
    fn take_order(&mut self) -> RowOrder
        ensures { self.new ≡ self.old }
    {
        self.order.take()
    }

    // Whether its order is that of a plan that is kept.
    pub(crate) fn has_kept_order(&self) -> bool {
        self.order.is_kept()
    }

    // Swaps its order with this one.
    pub(crate) fn swap_order(&mut self, order: &mut RowOrder)
        ensures { self.new ≡ self.old }
    {
        mem::swap(&mut self.order, order);
    }

    /// Keeps an order that is done with, so that the next one has its list.
    pub fn give_order(&mut self, order: RowOrder)
        ensures { self.new ≡ self.old }
    {
        self.order = order;
    }

    /// How many of the rows of a query with these numbers are contiguous, from the first on. Each is at the place
    /// behind that of the one before, in one archetype.
    pub fn rows_in_turn(&self, query: usize, rows: &[u32]) -> usize
        requires query { query < length self.now.shown.rows }
        requires some { 0 < length rows.now }
        requires rows { (i : ℕ) → i < length rows.now
            → get_or rows.now i 0 < length (rows_at self.now.shown query) }
        ensures some { 0 < result }
        ensures most { result ≤ length rows.now }
        ensures turn { AreInTurnAt (places_at self.now.opening query) rows.now result }
    {
        let query = &self.queries[query];
        query.rows_in_turn(rows)
    }

    /// The values of a field of a kind in the rows of a query with these numbers, which are contiguous. Each is the
    /// one written there, or the one shown if none was written. 0 where a row has not the kind, where no term of the
    /// query fetches it, and where the kind has no such field.
    pub fn read_rows(
        &self,
        query: usize,
        kind: Kind,
        place: usize,
        rows: &[u32],
        values: &mut [i64],
    )
        requires query { query < length self.now.shown.rows }
        requires room { length values.old ≡ length rows.now }
        requires rows { (i : ℕ) → i < length rows.now
            → get_or rows.now i 0 < length (rows_at self.now.shown query) }
        requires turn { AreInTurnAt (places_at self.now.opening query) rows.now (length rows.now) }
        ensures length { length values.new ≡ length values.old }
        ensures values { (i : ℕ) → i < length values.old
            → get_or values.new i (pos 0)
            ≡ field_read self.now query (get_or rows.now i 0) (kind_number kind) place }
    {
        let query = &self.queries[query];
        query.read_rows(kind, place, rows, values);
    }

    /// Writes values into a field of a kind in the rows of a query with these numbers, which are contiguous, a value
    /// a row. The query has a `mut` term of the kind, and the other field of each component stays.
    pub fn write_rows(
        &mut self,
        query: usize,
        kind: Kind,
        place: usize,
        rows: &[u32],
        values: &[i64],
    )
        requires query { query < length self.old.shown.rows }
        requires room { length values.now ≡ length rows.now }
        requires rows { (i : ℕ) → i < length rows.now
            → get_or rows.now i 0 < length (rows_at self.old.shown query) }
        requires turn { AreInTurnAt (places_at self.old.opening query) rows.now (length rows.now) }
        requires mut_term { IsTrue (writes (query_at self.old.params query) (kind_number kind)) }
        requires place { place < widths (kind_number kind) }
        ensures { self.new
            ≡ with_listed_fields self.old query (kind_number kind) place rows.now values.now }
    {
        let query = &mut self.queries[query];
        query.write_rows(kind, place, rows, values);
    }
}

// A value of a type that may be sent to workers, and shared with them.
fn may_be_sent<T: Send + Sync>(_value: &T) {}

// Views and their queries are such.
fn _views_may_be_sent(view: &View, query: &ViewQuery) {
    may_be_sent(view);
    may_be_sent(query);
}
