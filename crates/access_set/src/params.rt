// The parameters of a system.

ghost use Rattle.std.specs.Prelude.{◌≡◌, ◌==◌, [], ◌∷◌, ◌++◌, map, IfOk, OnOk, OnErr, Some};
ghost use Rattle.kinds.specs.Res.{res_number, event_number};
ghost use Rattle.std.specs.List.{list_any};
ghost use Rattle.model.specs.access.Access.{no_params, names_resource, names_event, has_filter};
ghost use Rattle.model.specs.access.Query.{is_filter};
ghost use Rattle.model.specs.Lists.{has};
ghost use Rattle.access_set.specs.Footprints.{AreFootprints};
ghost use Rattle.access_set.specs.Union.{union};

use crate::footprint::Footprint;
use kinds::{Event, Res};
use query::Query;
use std::alloc::{AllocError, Global};
use std::marker::Model;

/// The parameters of a system: its queries, the resources that it reads (`Res`) and writes (`ResMut`), and the events
/// that it reads and writes. Where it has Commands, also how many ids it is granted at a start. Contracts see the
/// lists, with resources and event kinds by number.
pub struct Params {
    queries: Vec<Query>,
    footprints: Vec<Footprint>,
    res: Vec<Res>,
    res_mut: Vec<Res>,
    reads: Vec<Event>,
    writes: Vec<Event>,
    spawns: Option<u32>,
}

// One function drops it wherever it is let go.
impl Drop for Params {
    fn drop(self) {
        let Params {
            queries: _,
            footprints: _,
            res: _,
            res_mut: _,
            reads: _,
            writes: _,
            spawns: _,
        } = self;
    }
}

impl Model for Params {
    ghost use Rattle.std.specs.Prelude.{map};
    ghost use Rattle.model.specs.access.Access as access;
    ghost use Rattle.kinds.specs.Res.{res_number, event_number};
    ghost use Rattle.access_set.specs.Footprints.{AreFootprints};

    ghost Value = { access.Params };

    ghost view = { λ p. record {
      queries = p.queries.items;
      res = map res_number p.res.items;
      res_mut = map res_number p.res_mut.items;
      reads = map event_number p.reads.items;
      writes = map event_number p.writes.items;
      spawns = p.spawns;
    } };

    ghost invariant = { λ p. AreFootprints p.queries.items p.footprints.items };
}

impl Params {
    /// The parameters of a system that touches nothing.
    pub fn new(alloc: Global) -> Self
        ensures { result ≡ no_params }
    {
        Params {
            queries: Vec::new(alloc),
            footprints: Vec::new(alloc),
            res: Vec::new(alloc),
            res_mut: Vec::new(alloc),
            reads: Vec::new(alloc),
            writes: Vec::new(alloc),
            spawns: None,
        }
    }

    /// What a query alone touches. It wants memory for a list of one query.
    pub fn of_query(alloc: Global, query: Query) -> Result<Self, AllocError>
        ensures { IfOk result (λ access. access ≡ record no_params { queries = query ∷ [] }) }
    {
        let mut access = Params::new(alloc);
        access.add_query(query)?;
        Ok(access)
    }

    /// What both touch: the queries, resources and event kinds of the one, then those of the other. The ids are those of the one. Where memory
    /// fails both are dropped.
    pub fn union(self, other: Params) -> Result<Self, AllocError>
        ensures { IfOk result (λ both. both ≡ union self other) }
    {
        let Params {
            mut queries,
            mut footprints,
            mut res,
            mut res_mut,
            mut reads,
            mut writes,
            spawns,
        } = self;
        let Params {
            queries: mut more_queries,
            footprints: mut more_footprints,
            res: mut more_res,
            res_mut: mut more_res_mut,
            reads: mut more_reads,
            writes: mut more_writes,
            spawns: _,
        } = other;
        queries.append(&mut more_queries)?;
        footprints.append(&mut more_footprints)?;
        res.append(&mut more_res)?;
        res_mut.append(&mut more_res_mut)?;
        reads.append(&mut more_reads)?;
        writes.append(&mut more_writes)?;
        Ok(Params {
            queries,
            footprints,
            res,
            res_mut,
            reads,
            writes,
            spawns,
        })
    }

    /// Adds a query after the others. Where an allocation fails the parameters stay as they were.
    pub fn add_query(&mut self, query: Query) -> Result<(), AllocError>
        ensures ok { OnOk result (self.new
            ≡ record self.old { queries = self.old.queries ++ query ∷ [] }) }
        ensures err { OnErr result (self.new ≡ self.old) }
    {
        let alloc = *self.queries.allocator();
        self.footprints.push(Footprint::of_query(alloc, &query)?)?;
        if let Err(fault) = self.queries.push(query) {
            self.footprints.pop();
            return Err(fault.into());
        }
        Ok(())
    }

    /// Adds a resource that is read (`Res`) after the others. Where an allocation fails the parameters stay as they were.
    pub fn add_res(&mut self, resource: Res) -> Result<(), AllocError>
        ensures ok { OnOk result (self.new
            ≡ record self.old { res = self.old.res ++ res_number resource ∷ [] }) }
        ensures err { OnErr result (self.new ≡ self.old) }
    {
        self.res.push(resource)?;
        Ok(())
    }

    /// Adds a resource that is written (`ResMut`) after the others. Where an allocation fails the parameters stay as they were.
    pub fn add_res_mut(&mut self, resource: Res) -> Result<(), AllocError>
        ensures ok { OnOk result (self.new
            ≡ record self.old { res_mut = self.old.res_mut ++ res_number resource ∷ [] }) }
        ensures err { OnErr result (self.new ≡ self.old) }
    {
        self.res_mut.push(resource)?;
        Ok(())
    }

    /// Adds a reader of events of a kind after the others. A kind that is named twice has two readers. Where an allocation fails the parameters
    /// stay as they were.
    pub fn add_reads(&mut self, event: Event) -> Result<(), AllocError>
        ensures ok { OnOk result (self.new
            ≡ record self.old { reads = self.old.reads ++ event_number event ∷ [] }) }
        ensures err { OnErr result (self.new ≡ self.old) }
    {
        self.reads.push(event)?;
        Ok(())
    }

    /// Adds a writer of events of a kind after the others. Where an allocation fails the parameters stay as they were.
    pub fn add_writes(&mut self, event: Event) -> Result<(), AllocError>
        ensures ok { OnOk result (self.new
            ≡ record self.old { writes = self.old.writes ++ event_number event ∷ [] }) }
        ensures err { OnErr result (self.new ≡ self.old) }
    {
        self.writes.push(event)?;
        Ok(())
    }

    /// Gives the system Commands, with `count` ids that it is granted at each start.
    pub fn set_spawns(&mut self, count: u32)
        ensures { self.new ≡ record self.old { spawns = Some count } }
    {
        self.spawns = Some(count);
    }

    /// The queries, in order.
    pub fn queries(&self) -> &[Query]
        ensures queries { result.now ≡ self.now.queries }
    {
        self.queries.as_slice()
    }

    /// The footprints of the queries, in order.
    pub(crate) fn footprints(&self) -> &[Footprint]
        ensures { AreFootprints self.now.queries result.now }
    {
        self.footprints.as_slice()
    }

    /// The resources that are read (`Res`), in order.
    pub fn res(&self) -> &[Res]
        ensures { map res_number result.now ≡ self.now.res }
    {
        self.res.as_slice()
    }

    /// The resources that are written (`ResMut`), in order.
    pub fn res_mut(&self) -> &[Res]
        ensures { map res_number result.now ≡ self.now.res_mut }
    {
        self.res_mut.as_slice()
    }

    /// The event kinds that are read, in order.
    pub fn reads(&self) -> &[Event]
        ensures { map event_number result.now ≡ self.now.reads }
    {
        self.reads.as_slice()
    }

    /// The event kinds that are written, in order.
    pub fn writes(&self) -> &[Event]
        ensures { map event_number result.now ≡ self.now.writes }
    {
        self.writes.as_slice()
    }

    /// How many ids are granted at a start, where the system has Commands.
    pub fn spawns(&self) -> Option<u32>
        ensures { result ≡ self.now.spawns }
    {
        self.spawns
    }

    /// Whether some query has an `added` or `changed` term.
    pub fn has_filter(&self) -> bool
        ensures { result ≡ has_filter self.now }
    {
        any_filter(self.queries())
    }

    /// Whether the resource is read or written.
    pub fn names_resource(&self, resource: Res) -> bool
        ensures { result ≡ names_resource self.now (res_number resource) }
    {
        if has_resource(self.res(), resource) {
            return true;
        }
        has_resource(self.res_mut(), resource)
    }

    /// Whether the resource is written (`ResMut`).
    pub fn writes_resource(&self, resource: Res) -> bool
        ensures { result ≡ has (res_number resource) self.now.res_mut }
    {
        has_resource(self.res_mut(), resource)
    }

    /// Whether the event kind is read.
    pub fn reads_event(&self, event: Event) -> bool
        ensures { result ≡ has (event_number event) self.now.reads }
    {
        has_event(self.reads(), event)
    }

    /// Whether the event kind is written.
    pub fn writes_event(&self, event: Event) -> bool
        ensures { result ≡ has (event_number event) self.now.writes }
    {
        has_event(self.writes(), event)
    }

    /// Whether the event kind is read or written.
    pub fn names_event(&self, event: Event) -> bool
        ensures { result ≡ names_event self.now (event_number event) }
    {
        if has_event(self.reads(), event) {
            return true;
        }
        has_event(self.writes(), event)
    }
}

// Whether some of the queries has an `added` or `changed` term.
fn any_filter(queries: &[Query]) -> bool
    ensures { result ≡ list_any (λ query. list_any is_filter query) queries.now }
{
    queries.iter().any(|query| query.has_filter())
}

/// Whether the resource is among these.
#[tactic(auto, using(crate::proofs::Meets::any_of_numbers))]
pub(crate) fn has_resource(resources: &[Res], resource: Res) -> bool
    ensures { result ≡ has (res_number resource) (map res_number resources.now) }
{
    any_resource(resources, resource.number())
}

// Whether one of these resources has the number.
fn any_resource(resources: &[Res], number: u32) -> bool
    ensures { result ≡ list_any (λ x. res_number x == number) resources.now }
{
    resources.iter().any(|x| x.number() == number)
}

/// Whether the event kind is among these.
#[tactic(auto, using(crate::proofs::Meets::any_of_numbers))]
pub(crate) fn has_event(events: &[Event], event: Event) -> bool
    ensures { result ≡ has (event_number event) (map event_number events.now) }
{
    any_event(events, event.number())
}

// Whether one of these event kinds has the number.
fn any_event(events: &[Event], number: u32) -> bool
    ensures { result ≡ list_any (λ x. event_number x == number) events.now }
{
    events.iter().any(|x| x.number() == number)
}
