// What is recorded of a run.

ghost use Rattle.std.specs.Prelude.{◌≡◌, ◌<◌, ◌∷◌, [], reverse, IfOk, OnErr, OnOk, None, Some, option_map};
ghost use Rattle.std.specs.Vec.{vec_len, vec_capacity};
ghost use Rattle.model.specs.declared.steps.Step.TheVariants.{Sync as Synced};
ghost use Rattle.executor_core.specs.Stands.{AreListed, IsPlainStep, room};
ghost use Rattle.executor_core.specs.Traces.{latest_list, with_list};

use model::{KindSets, Step};
use schedule_builder::Built;
use std::alloc::{AllocError, Global};
use std::marker::Model;

/// The record of a run: its steps, and, where it records them, the archetypes present, at its opening and after each
/// sync point. Contracts see the steps with the latest first, as a history, and the lists of archetypes with that of
/// the opening first.
pub struct Trace {
    steps: Vec<Step>,
    sets: Option<Vec<KindSets>>,
}

// One function drops it wherever it is let go.
impl Drop for Trace {
    fn drop(self) {
        let Trace { steps: _, sets: _ } = self;
    }
}

impl Model for Trace {
    ghost use Rattle.std.specs.Prelude.{reverse, option_map};
    ghost use Rattle.model.specs.steps.Schedule.{Recorded};
    ghost use Rattle.executor_core.specs.Stands.{AreListed};

    ghost Value = { Recorded };

    ghost view = { λ t. record {
      steps = reverse t.steps.items;
      sets = option_map (λ lists. lists.items) t.sets;
    } };

    ghost invariant = { λ t. AreListed (option_map (λ lists. lists.items) t.sets) (reverse
        t.steps.items) };
}

impl Trace {
    /// That of a run without steps that records no archetypes.
    pub fn new(alloc: Global) -> Self
        ensures steps { result.steps ≡ [] }
        ensures sets { result.sets ≡ None }
    {
        Trace {
            steps: Vec::new(alloc),
            sets: None,
        }
    }

    /// That of a run without steps that records archetypes: these at its opening.
    pub fn new_in(alloc: Global, opening: KindSets) -> Result<Self, AllocError>
        ensures steps { IfOk result (λ trace. trace.steps ≡ []) }
        ensures sets { IfOk result (λ trace. trace.sets ≡ Some (opening ∷ [])) }
    {
        let mut lists = Vec::new(alloc);
        lists.push(opening)?;
        Ok(Trace {
            steps: Vec::new(alloc),
            sets: Some(lists),
        })
    }

    /// The same for a run of a schedule, with room for the record from its opening to its end. A caller that pushes
    /// no more takes no further memory for steps.
    pub fn of_run(alloc: Global, built: &Built, opening: KindSets) -> Result<Self, AllocError>
        ensures steps { IfOk result (λ trace. trace.steps ≡ []) }
        ensures sets { IfOk result (λ trace. trace.sets ≡ Some (opening ∷ [])) }
    {
        let mut lists = Vec::with_capacity(alloc, built.syncs() as usize + 1)?;
        lists.push(opening)?;
        Ok(Trace {
            steps: Vec::with_capacity(alloc, most_steps(built))?,
            sets: Some(lists),
        })
    }

    /// Adds a step: where archetypes are recorded, any but a sync point. Where an allocation fails the trace stays as it was.
    pub fn push(&mut self, step: Step) -> Result<(), AllocError>
        requires plain { IsPlainStep self.old.sets step }
        ensures steps { OnOk result (self.new.steps ≡ step ∷ self.old.steps) }
        ensures sets { OnOk result (self.new.sets ≡ self.old.sets) }
        ensures err { OnErr result (self.new ≡ self.old) }
    {
        if self.steps.len() == self.steps.capacity() {
            make_room(&mut self.steps)?;
        }
        self.steps.push_reserved(step);
        Ok(())
    }

    /// Adds a sync point, and the archetypes after it, where they are recorded.
    pub fn push_sync(&mut self, sync: u32, sets: KindSets) -> Result<(), AllocError>
        ensures steps { OnOk result (self.new.steps ≡ Synced sync ∷ self.old.steps) }
        ensures sets { OnOk result (self.new.sets ≡ with_list sets self.old.sets) }
        ensures err { OnErr result (self.new ≡ self.old) }
    {
        let Some(lists) = &mut self.sets else {
            self.steps.push(Step::Sync(sync))?;
            return Ok(());
        };
        lists.reserve(1)?;
        self.steps.push(Step::Sync(sync))?;
        let Ok(()) = lists.push(sets) else {
            unreachable!()
        };
        Ok(())
    }

    /// The steps, the oldest first.
    pub fn steps(&self) -> &[Step]
        ensures { self.now.steps ≡ reverse result.now }
    {
        &self.steps
    }

    /// The archetypes at the opening and after each sync point, if they are recorded.
    pub fn sets(&self) -> Option<&[KindSets]>
        ensures { self.now.sets ≡ option_map (λ lists. lists.now) result }
    {
        match &self.sets {
            Some(lists) => Some(lists),
            None => None,
        }
    }

    /// The archetypes recorded last, if they are recorded.
    pub fn latest(&self) -> Option<&KindSets>
        ensures { option_map (λ sets. sets.now) result ≡ latest_list self.now }
    {
        match &self.sets {
            Some(lists) => lists.last(),
            None => None,
        }
    }

    /// There are as many lists as places to record them at.
    pub fn prove_law(&self)
        ensures { AreListed self.now.sets self.now.steps }
    {
        let _ = &self.steps;
    }
}

// Makes room for a step more, where there is none.
#[cold]
#[inline(never)]
fn make_room(steps: &mut Vec<Step>) -> Result<(), AllocError>
    ensures items { steps.new.items ≡ steps.old.items }
    ensures room { OnOk result (vec_len steps.new < vec_capacity steps.new) }
{
    steps.reserve(1)
}

// How many steps a run of a schedule has at most: each condition is asked once, each system starts and ends, each sync point is done.
fn most_steps(built: &Built) -> usize
    ensures { result ≡ room built.now }
{
    let systems = built.count() as usize;
    let conditions = built.condition_count() as usize;
    conditions + 2 * systems + built.syncs() as usize
}
