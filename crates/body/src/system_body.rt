// What runs in a system: a meaning, and code that keeps to it.

ghost use Rattle.std.specs.Prelude.{◌≡◌, ℕ, Bool, Result, IsTrue};
ghost use Rattle.model.specs.access.Access.{Params as Uses};
ghost use Rattle.model.specs.shown.Input.{Shown};
ghost use Rattle.model.specs.shown.Outcome.{Outcome, untouched};
ghost use Rattle.body.specs.Answers.{Answers};
ghost use Rattle.body.specs.Keeps.{CanBeShown, KeepsWithin};

use crate::view::View;
use access_set::Params;
use thiserror::Error;

/// Why a body stops.
#[derive(Clone, Copy, PartialEq, Eq, Debug, Error)]
pub enum BodyFault {
    /// An allocation failed.
    #[error("out of memory")]
    Memory,
    /// The body refuses, with a number of its own.
    #[error("refused with {0}")]
    Refused(u32),
}

/// What runs in a system. `meaning` is what the body makes of parameters and what is shown: an outcome, or the number of a refusal. `fits`
/// says which parameters it keeps within.
pub trait Body: Send + Drop {
    ghost meaning: { Self → Uses → Shown → Result Outcome ℕ };

    ghost fits: { Self → Uses → Bool };

    /// Whether the body keeps within these parameters. If so, it can run with them, and each outcome that it means is within them.
    fn fits(&self, params: &Params) -> bool
        ensures exact { result ≡ fits self.now params.now }
        ensures keeps { IsTrue result → KeepsWithin params.now (meaning self.now params.now) };

    /// Runs the body on a view that shows what a system with its parameters can be shown, and in which nothing is
    /// written yet. It leaves there the outcome that it means by what it is shown, or answers the refusal that it
    /// means. It may report a failed allocation at any time. Its meaning, and what it fits, stay.
    fn run(&mut self, view: &mut View) -> Result<(), BodyFault>
        requires fits { IsTrue (fits self.old view.old.params) }
        requires showing { CanBeShown view.old.params view.old.shown }
        requires untouched { view.old.outcome ≡ untouched view.old.params view.old.shown }
        ensures answer { Answers (meaning self.old view.old.params view.old.shown) view.new result }
        ensures shown { view.new.shown ≡ view.old.shown }
        ensures params { view.new.params ≡ view.old.params }
        ensures opening { view.new.opening ≡ view.old.opening }
        ensures same_meaning { meaning self.new ≡ meaning self.old }
        ensures same_fit { fits self.new ≡ fits self.old };
}

impl Body for Box<dyn Body + Send> {
    ghost meaning = { λ b. (Body-box b).meaning b.value };

    ghost fits = { λ b. (Body-box b).fits b.value };

    fn fits(&self, params: &Params) -> bool {
        (**self).fits(params)
    }

    fn run(&mut self, view: &mut View) -> Result<(), BodyFault> {
        (**self).run(view)
    }
}
