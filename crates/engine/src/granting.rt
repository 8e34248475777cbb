// Which systems of a level are granted ids, how many each, and where those are noted.

ghost use Rattle.std.specs.Prelude.{◌≡◌, ◌==◌, ◌<◌, ◌↔◌, false, length, map, filter, All, IfOk, IsErrOf, OnOk};
ghost use Rattle.std.specs.Option.{is_some};
ghost use Rattle.model.specs.state.Ids.{grant_each, has_ids_for_each, ids_of_each};
ghost use Rattle.model.specs.steps.Schedule.{params_of};
ghost use Rattle.model.specs.runs.RunState.{spawns_of};
ghost use Rattle.body.specs.Steps.{with_slots_in};
ghost use Rattle.engine.specs.Deferred.{noted_each, spawners_among};

use crate::deferred::{Granted, Level};
use archetype_store::fault::GrantFault;
use body::OpenState;
use entity_table::Entity;
use schedule_builder::Built;
use std::alloc::{AllocError, Global};
use std::marker::Model;

// The systems of a level that have commands, in schedule order, and how many ids each of them is granted. Contracts see both. The lists
// that the next grant fills are room, which no contract sees.
#[derive(Drop)]
pub(crate) struct Spawners {
    systems: Vec<u32>,
    counts: Vec<u32>,
    given: Vec<Vec<Entity>>,
}

impl Model for Spawners {
    ghost use Rattle.engine.specs.Deferred.{SpawnersValue};

    ghost Value = { SpawnersValue };

    ghost view = { λ l. record { systems = l.systems.items; counts = l.counts.items } };
}

impl Spawners {
    // Whether there is none.
    pub(crate) fn is_empty(&self) -> bool
        ensures { result ≡ length self.now.systems == 0 }
    {
        self.systems.is_empty()
    }

    // Grants each of these systems its ids, and notes them in its place. The list that held its ids before is room for the next grant: once two
    // were made, a grant takes no memory for ids.
    pub(crate) fn grant(
        &mut self,
        alloc: Global,
        state: &mut OpenState,
        grants: &mut [Granted],
    ) -> Result<(), GrantFault>
        requires { All (λ n. n < length grants.old) self.old.systems }
        ensures same { self.new ≡ self.old }
        ensures granted { OnOk result (state.new
            ≡ record {
              state = with_slots_in
                  (grant_each self.old.counts state.old.state.world.slots)
                  state.old.state;
              layout = state.old.layout;
            }) }
        ensures noted { OnOk result (grants.new
            ≡ noted_each self.old.systems
            (ids_of_each self.old.counts state.old.state.world.slots) grants.old) }
        ensures spent { IsErrOf result GrantFault.IdsSpent
            ↔ (has_ids_for_each self.old.counts state.old.state.world.slots ≡ false) }
    {
        state.grant_level(alloc, &self.counts, &mut self.given)?;
        note_grants(grants, &self.systems, &mut self.given);
        Ok(())
    }
}

// Of each of these levels the systems that have commands.
pub(crate) fn spawners_of(
    alloc: Global,
    built: &Built,
    levels: &[Level],
) -> Result<Vec<Spawners>, AllocError>
    requires { All (All (λ n. n < length built.now.systems)) levels.now }
    ensures { IfOk result (λ spawners. spawners.items ≡ map (spawners_among built.now) levels.now) }
{
    let mut spawners = Vec::new(alloc);
    for level in levels {
        spawners.push(spawners_in(alloc, built, &level.systems)?)?;
    }
    Ok(spawners)
}

// Those of these systems that have commands.
fn spawners_in(alloc: Global, built: &Built, level: &[u32]) -> Result<Spawners, AllocError>
    requires { All (λ n. n < length built.now.systems) level.now }
    ensures { IfOk result (λ spawners. spawners ≡ spawners_among built.now level.now) }
{
    let mut systems = Vec::new(alloc);
    let mut counts = Vec::new(alloc);
    for system in level {
        if let Some(count) = built.params(*system).spawns() {
            systems.push(*system)?;
            counts.push(count)?;
        }
    }
    Ok(Spawners {
        systems,
        counts,
        given: Vec::new(alloc),
    })
}

// Notes the ids that these systems were granted. The lists of before come into the places of theirs.
fn note_grants(grants: &mut [Granted], systems: &[u32], given: &mut [Vec<Entity>])
    requires { All (λ n. n < length grants.old) systems.now }
    ensures { grants.new ≡ noted_each systems.now (map (λ ids. ids.items) given.old) grants.old }
{
    for (place, system) in systems.iter().enumerate() {
        if place < given.len() {
            let granted = &mut grants[*system as usize];
            granted.exchange(&mut given[place]);
        }
    }
}
