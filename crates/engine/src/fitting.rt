// Which bodies fit the systems of a schedule.

ghost use Rattle.std.specs.Prelude.{◌≡◌, ◌<◌, ◌↔◌, ℕ, length, map, true, false, Some, Err, IfSome, IfNone, IfOk, OnOk, IsErrOf, IsTrue};
ghost use Rattle.model.specs.runs.RunState.{body_of};
ghost use Rattle.model.specs.steps.Schedule.{params_of};
ghost use Rattle.body.specs.Keeps.{KeepsWithin};
ghost use Rattle.engine.specs.Meanings.{meanings, fits_at, AllKeepWithin, IsFirstMisfit, Miscounts, Suits};

use crate::faults::NewFault;
use crate::first_state::lacks_memories;
use body::{Body, State};
use schedule_builder::Built;

/// Refuses bodies and a state that are not those of a schedule: `Count` where there isn't a body and a memory for each system and a memory for
/// each condition, each memory with a cursor for each event reader, else `Misfit` for the least system whose body doesn't fit its parameters.
pub fn check_parts<B: Body>(built: &Built, bodies: &[B], state: &State) -> Result<(), NewFault>
    ensures suits { OnOk result (Suits B.fits built.now (map Some bodies.now) state.now) }
    ensures keep { OnOk result (AllKeepWithin built.now (meanings B.meaning built.now (map Some
        bodies.now))) }
    ensures count { IsErrOf result NewFault.Count
        ↔ Miscounts built.now (map Some bodies.now) state.now }
    ensures misfit { (n : ℕ)
        → IsErrOf result (NewFault.Misfit n)
        ↔ IsFirstMisfit B.fits built.now (map Some bodies.now) state.now n }
    ensures memory { result ≡ Err NewFault.Memory → ⊥ }
{
    if bodies.len() != built.count() as usize {
        return Err(NewFault::Count);
    }
    if lacks_memories(built, state) {
        return Err(NewFault::Count);
    }
    match first_misfit(built, bodies) {
        Some(system) => Err(NewFault::Misfit(system)),
        None => Ok(()),
    }
}

/// The least system whose body doesn't fit its parameters. Where there is none, each body keeps within them.
pub(crate) fn first_misfit<B: Body>(built: &Built, bodies: &[B]) -> Option<u32>
    requires { length bodies.now ≡ length built.now.systems }
    ensures known { IfSome result (λ n. n < length built.now.systems) }
    ensures misfit { IfSome result (λ n. fits_at B.fits built.now (map Some bodies.now) n ≡ false) }
    ensures least { IfSome result (λ n. (m : ℕ) → m < n
        → fits_at B.fits built.now (map Some bodies.now) m ≡ true) }
    ensures none { IfNone result ((m : ℕ) → m < length built.now.systems
        → fits_at B.fits built.now (map Some bodies.now) m ≡ true) }
    ensures keep { IfNone result (AllKeepWithin built.now (meanings B.meaning built.now (map Some
        bodies.now))) }
{
    for system in 0..built.count() {
        if !body_fits(built, bodies, system) {
            return Some(system);
        }
    }
    None
}

// Whether the body of a system fits its parameters. If so, it keeps within them.
#[tactic(auto, using(crate::proofs::BodiesAtHome::at_body))]
fn body_fits<B: Body>(built: &Built, bodies: &[B], system: u32) -> bool
    requires count { length bodies.now ≡ length built.now.systems }
    requires known { system < length built.now.systems }
    ensures exact { result ≡ fits_at B.fits built.now (map Some bodies.now) system }
    ensures keeps { IsTrue result
        → KeepsWithin (params_of built.now system) (body_of
        (meanings B.meaning built.now (map Some bodies.now)) system) }
{
    bodies[system as usize].fits(built.params(system))
}

/// Bodies that fit their systems keep within the parameters of each.
pub fn prove_fitting_keep<B: Body>(built: &Built, bodies: &[B])
    requires count { length bodies.now ≡ length built.now.systems }
    requires fit { (n : ℕ) → n < length built.now.systems
        → fits_at B.fits built.now (map Some bodies.now) n ≡ true }
    ensures { AllKeepWithin built.now (meanings B.meaning built.now (map Some bodies.now)) }
{
    match first_misfit(built, bodies) {
        Some(_) => unreachable!(),
        None => {}
    }
}
