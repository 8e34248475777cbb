// The next turn of a run.

ghost use Rattle.std.specs.Prelude.{ℕ, ◌≡◌, ◌<◌, ◌≤◌, false, List, Option};
ghost use Rattle.model.specs.steps.Schedule.{recording};
ghost use Rattle.model.specs.declared.steps.Step.{Step as Action};
ghost use Rattle.executor_core.specs.Stands.{Stands};
ghost use Rattle.engine.specs.Stage.{IsTurn};

use executor_core::{Core, Ready, Step};

/// What a coordinator does next.
#[derive(Clone, Copy)]
pub enum Turn {
    /// Does what is ready.
    Take(Ready),
    /// Takes a job that comes back.
    Collect,
}

/// A step that a coordinator has done, and whether commands were done with it: only then may other archetypes be there than before.
#[derive(Clone, Copy)]
pub(crate) struct Done {
    /// The step.
    pub(crate) step: Step,
    /// Whether commands were done.
    pub(crate) commanded: bool,
}

impl Done {
    /// A step with which no commands were done.
    pub(crate) fn plain(step: Step) -> Self
        ensures { result ≡ record { step = step; commanded = false } }
    {
        Done {
            step,
            commanded: false,
        }
    }
}

/// What is next, by how many systems run and for how many there is room: what is ready where there is room, else a job that comes back. None
/// where nothing is ready and nothing runs.
pub(crate) fn next_turn(core: &Core<'_>, running: usize, width: usize) -> Option<Turn>
    requires room { running ≤ width }
    requires some { 0 < width }
    requires stands { (sets : Option (List (List ℕ))) × (h : List Action) × Stands core.now sets h }
    ensures { (sets : Option (List (List ℕ))) (h : List Action) → Stands core.now sets h
        → IsTurn (recording core.now.schedule sets) h running width result }
{
    if running == width {
        return Some(Turn::Collect);
    }
    match core.ready() {
        Some(ready) => Some(Turn::Take(ready)),
        None => {
            if running == 0 {
                return None;
            }
            Some(Turn::Collect)
        }
    }
}
