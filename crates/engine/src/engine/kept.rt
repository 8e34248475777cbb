// Runs that leave no trace of a fault: a copy of the state is taken first, and put back where they stop.

ghost use Rattle.std.specs.Prelude.{◌≡◌, ◌↔◌, false, Err, IfErr, IfOk, IsErrOf, IsTrue, OnErr};
ghost use Rattle.engine.specs.Deferred.{IsDeferredFor};
ghost use Rattle.engine.specs.Meanings.{meanings, AllKeepWithin, Suits};
ghost use Rattle.engine.specs.RunsAs.{RunsAs};
ghost use Rattle.engine.specs.Stops.{StopsAs};

use crate::deferred::Deferred;
use crate::engine::Engine;
use crate::faults::RunFault;
use body::state::State;
use body::system_body::Body;
use executor_core::Trace;
use std::alloc::{AllocError, Global};
use worker_pool::Mode;

// What an engine is put back to: a copy of its state, and nothing deferred.
#[derive(Drop)]
struct SpareParts {
    state: State,
    deferred: Deferred,
}

impl<B: Body> Engine<B> {
    /// Runs the schedule `times` times, as `run` does where it answers `Ok`. A fault leaves no trace. The state is as
    /// it was at the call, and the bodies are home and mean what they meant. The engine isn't spoiled, so runs may go
    /// on. A copy of the state is taken first: `Memory` also where an allocation fails for it. Where the mode has
    /// threads the bodies run in workers of the whole call, also in a mode with a thread for each start. So none is
    /// lost. On an engine that is spoiled already the answer is `Spoiled`, and nothing changes.
    pub fn run_kept<'s, M: Mode<'s>>(
        &mut self,
        alloc: Global,
        times: u32,
        mode: &M,
    ) -> Result<Vec<Trace>, RunFault>
    where
        B: 's,
        ensures ran { IfOk result (λ traces. RunsAs (M.width mode.now) self.old.schedule
            (meanings B.meaning self.old.schedule self.old.bodies) times self.old.state
            self.new.state traces.items) }
        ensures stopped { IfErr result (StopsAs (M.has_scope mode.now) (M.width mode.now)
            self.old.schedule (meanings B.meaning self.old.schedule self.old.bodies) times
            self.old.state) }
        ensures kept { OnErr result (self.new.state ≡ self.old.state) }
        ensures spoiled { IsErrOf result RunFault.Spoiled ↔ IsTrue self.old.spoiled }
        ensures spoils { self.new.spoiled ≡ self.old.spoiled }
        ensures unchanged { result ≡ Err RunFault.Spoiled → self.new ≡ self.old }
        ensures schedule { self.new.schedule ≡ self.old.schedule }
        ensures meanings { meanings B.meaning self.old.schedule self.new.bodies
            ≡ meanings B.meaning self.old.schedule self.old.bodies }
    {
        if self.is_spoiled() {
            return Err(RunFault::Spoiled);
        }
        let spare = self.spare_parts(alloc)?;
        let keeping = mode.keeping();
        match self.run(alloc, times, &keeping) {
            Ok(traces) => Ok(traces),
            Err(fault) => {
                self.put_back(spare);
                Err(fault)
            }
        }
    }

    /// Whether a run failed, and no state was set since. Where none did there are bodies and memories for the schedule.
    pub fn is_spoiled(&self) -> bool
        ensures value { result ≡ self.now.spoiled }
        ensures suits { self.now.spoiled ≡ false
            → Suits B.fits self.now.schedule self.now.bodies self.now.state }
        ensures keep { self.now.spoiled ≡ false
            → AllKeepWithin self.now.schedule (meanings B.meaning self.now.schedule
            self.now.bodies) }
    {
        self.spoiled
    }

    // What the engine can be put back to.
    fn spare_parts(&self, alloc: Global) -> Result<SpareParts, AllocError>
        ensures state { IfOk result (λ spare. spare.state ≡ self.now.state) }
        ensures deferred { IfOk result (λ spare. IsDeferredFor self.now.schedule spare.deferred) }
    {
        let state = self.state.copy(alloc)?;
        let deferred = Deferred::new(alloc, &self.built)?;
        Ok(SpareParts { state, deferred })
    }

    // Puts the engine back, whose bodies are there.
    fn put_back(&mut self, spare: SpareParts)
        requires suits { Suits B.fits self.old.schedule self.old.bodies spare.state }
        requires keep { AllKeepWithin self.old.schedule (meanings B.meaning self.old.schedule
            self.old.bodies) }
        requires deferred { IsDeferredFor self.old.schedule spare.deferred }
        ensures { self.new
            ≡ record {
              schedule = self.old.schedule;
              bodies = self.old.bodies;
              state = spare.state;
              spoiled = false;
            } }
    {
        let SpareParts { state, deferred } = spare;
        self.state = state;
        self.deferred = deferred;
        self.spoiled = false;
    }
}
