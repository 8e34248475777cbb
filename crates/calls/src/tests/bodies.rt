// Bodies of the tests, all of one type, so that their engines are.

ghost use Rattle.std.specs.Prelude.{◌≡◌, Ok, IsTrue};
ghost use Rattle.body.specs.Keeps.{CanBeShown};
ghost use Rattle.model.specs.shown.Outcome.{untouched};
ghost use Rattle.calls.specs.Bodies.{answered, tallied, refused_at_one, may_tally, may_refuse, may_always};
ghost use Rattle.calls.specs.declared.tests.bodies.TestBody.TheVariants.{Answer, Tally, Refuse, Watch, Meet, Follow};

use crate::tests::gates::TestGate;
use access_set::Params;
use body::{Body, BodyFault, View};
use kinds::Res;
use script::ScriptBody;
use std::alloc::Global;
use std::sync::Arc;
use worker_pool::Gate;

/// What a system of a test does.
#[derive(Drop)]
pub enum TestBody {
    /// It writes nothing, or refuses with a number.
    Answer(Option<u32>),
    /// It adds the step to the total, and counts its runs in register 0.
    Tally,
    /// It refuses with 7 where the round is 1.
    Refuse,
    /// It looks whether somebody is past a gate.
    Watch(Arc<TestGate, Global>),
    /// It waits for others to run with it, at a gate of its own.
    Meet(Arc<TestGate, Global>),
    /// It follows a script.
    Follow(ScriptBody),
}

impl Body for TestBody {
    ghost meaning = { λ body params shown. elim body [
      | Answer refusal ↦ answered refusal params shown
      | Tally ↦ Ok (tallied params shown)
      | Refuse ↦ refused_at_one params shown
      | Watch gate ↦ Ok (untouched params shown)
      | Meet gate ↦ Ok (untouched params shown)
      | Follow script ↦ ⟦<ScriptBody as Body>⟧.meaning script params shown
    ] };

    ghost fits = { λ body params. elim body [
      | Answer refusal ↦ may_always params
      | Tally ↦ may_tally params
      | Refuse ↦ may_refuse params
      | Watch gate ↦ may_always params
      | Meet gate ↦ may_always params
      | Follow script ↦ ⟦<ScriptBody as Body>⟧.fits script params
    ] };

    fn fits(&self, params: &Params) -> bool {
        match self {
            TestBody::Answer(_) => true,
            TestBody::Tally => {
                params.writes_resource(Res::Total) && params.names_resource(Res::Step)
            }
            TestBody::Refuse => params.names_resource(Res::Round),
            TestBody::Watch(_) => true,
            TestBody::Meet(_) => true,
            TestBody::Follow(script) => Body::fits(script, params),
        }
    }

    fn run(&mut self, view: &mut View) -> Result<(), BodyFault> {
        match self {
            TestBody::Answer(None) => Ok(()),
            TestBody::Answer(Some(number)) => Err(BodyFault::Refused(*number)),
            TestBody::Tally => {
                tally(view);
                Ok(())
            }
            TestBody::Refuse if view.res(Res::Round) == 1 => Err(BodyFault::Refused(7)),
            TestBody::Refuse => Ok(()),
            TestBody::Watch(gate) => {
                gate.look();
                Ok(())
            }
            TestBody::Meet(gate) => {
                gate.enter(0);
                gate.leave(0);
                Ok(())
            }
            TestBody::Follow(script) => Body::run(script, view),
        }
    }
}

// Adds the step to the total, and counts in register 0.
fn tally(view: &mut View)
    requires fits { IsTrue (may_tally view.old.params) }
    requires showing { CanBeShown view.old.params view.old.shown }
    requires untouched { view.old.outcome ≡ untouched view.old.params view.old.shown }
    ensures outcome { view.new.outcome ≡ tallied view.old.params view.old.shown }
    ensures shown { view.new.shown ≡ view.old.shown }
    ensures params { view.new.params ≡ view.old.params }
    ensures opening { view.new.opening ≡ view.old.opening }
{
    let total = view.res(Res::Total).saturating_add(view.res(Res::Step));
    view.set_res(Res::Total, total);
    let runs = view.reg(0).saturating_add(1);
    view.set_reg(0, runs);
}
