// What the runs of a call have in hand beside the state: a core, the kind sets that are there, and the traces so far.

ghost use Rattle.std.specs.Prelude.{◌≡◌, ◌∷◌, ◌++◌, [], true, Some, is_some, IfOk, IfSome, OnOk};
ghost use Rattle.executor_core.specs.Stands.{AreMeetings, Stands};
ghost use Rattle.executor_core.specs.Traces.{latest_list};
ghost use Rattle.engine.specs.Latest.{IsCoreFor, IsFollowing};

use crate::resting::{RestingCore, core_in};
use body::OpenState;
use executor_core::{Core, Trace};
use model::KindSets;
use schedule_builder::Built;
use std::alloc::{AllocError, Global};

/// The traces of the runs of a call, the core that has taken their steps, and the archetypes that are there between them. The core stands in a box: a
/// loop that holds it by itself is dear to check.
#[derive(Drop)]
pub(crate) struct Recording<'a> {
    /// The core.
    pub(crate) core: Box<Core<'a>>,
    /// The archetypes, in which the core knows who meets whom.
    pub(crate) sets: KindSets,
    /// The traces, one for each run.
    pub(crate) traces: Vec<Trace>,
}

impl<'a> Recording<'a> {
    /// Before the first run of a call. A core that was put by goes on: it finds anew who meets whom only where other archetypes are there.
    pub(crate) fn open(
        alloc: Global,
        built: &'a Built,
        state: &OpenState,
        resting: Option<RestingCore>,
    ) -> Result<Self, AllocError>
        requires { IfSome resting (λ it. IsCoreFor it.room built.now it.sets) }
        ensures traces { IfOk result (λ recording. recording.traces.items ≡ []) }
        ensures following { IfOk result (λ recording. IsFollowing recording.core.value built.now
            recording.sets state.now.state.world.slots) }
    {
        let sets = state.kind_sets(alloc)?;
        let core = core_in(alloc, built, &sets, resting)?;
        Ok(Recording {
            core: Box::new(alloc, core)?,
            sets,
            traces: Vec::new(alloc),
        })
    }

    /// Adds the trace of a run, and keeps the archetypes that it recorded last.
    pub(crate) fn add(&mut self, alloc: Global, trace: Trace) -> Result<(), AllocError>
        requires { is_some (latest_list trace) ≡ true }
        ensures traces { OnOk result (self.new.traces.items ≡ self.old.traces.items ++ trace ∷ []) }
        ensures sets { OnOk result (Some self.new.sets ≡ latest_list trace) }
        ensures core { self.new.core ≡ self.old.core }
    {
        let Some(latest) = trace.latest() else {
            unreachable!()
        };
        if !latest.is_same(&self.sets) {
            self.sets = latest.copy(alloc)?;
        }
        self.traces.push(trace)?;
        Ok(())
    }

    /// The traces, and the core, put by.
    pub(crate) fn end(self) -> (Vec<Trace>, RestingCore)
        ensures traces { result.0 ≡ self.entry.traces }
        ensures core { (result.1.room ≡ self.entry.core.value)
            × (result.1.sets ≡ self.entry.sets) }
    {
        let Recording { core, sets, traces } = self;
        let room = Box::into_inner(core).into_room();
        (traces, RestingCore { room, sets })
    }
}

/// Begins a core again for a run that opens with the archetypes in which it knows who meets whom, and what is recorded of it.
pub(crate) fn begin(
    alloc: Global,
    built: &Built,
    core: &mut Core<'_>,
    sets: &KindSets,
) -> Result<Trace, AllocError>
    requires { AreMeetings core.old sets.now }
    ensures steps { IfOk result (λ trace. trace.steps ≡ []) }
    ensures sets { IfOk result (λ trace. trace.sets ≡ Some (sets.now ∷ [])) }
    ensures stands { OnOk result (Stands core.new (Some (sets.now ∷ [])) []) }
    ensures schedule { core.new.schedule ≡ core.old.schedule }
{
    let opening = sets.copy(alloc)?;
    core.begin_same(alloc)?;
    Trace::of_run(alloc, built, opening)
}
