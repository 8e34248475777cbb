// Runs on the thread of the caller, which know nothing of threads.

ghost use Rattle.std.specs.Prelude.{◌≡◌, ◌↔◌, false, Err, IfErr, IfOk, IsErr, IsErrOf, IsTrue};
ghost use Rattle.engine.specs.Meanings.{meanings, AreFit};
ghost use Rattle.engine.specs.RunsAs.{RunsAs};
ghost use Rattle.engine.specs.Stops.{StopsAs};

use crate::bodies::Bodies;
use crate::coordinator::run_times_here;
use crate::deferred::Deferred;
use crate::engine::Engine;
use crate::faults::RunFault;
use crate::run_state::RunState;
use body::{Body, State};
use executor_core::Trace;
use model::{runs_are_sound, single_runs_are_one, wide_of_one_is_single};
use std::alloc::Global;
use std::mem;

impl<B: Body> Engine<B> {
    /// Runs the schedule `times` times on the thread of the caller, as `run` does in a mode with room for one system and no threads. It is written
    /// without code of threads, for libraries whose hosts may start none.
    pub fn run_here(&mut self, alloc: Global, times: u32) -> Result<Vec<Trace>, RunFault>
        ensures ran { IfOk result (λ traces. RunsAs 1 self.old.schedule
            (meanings B.meaning self.old.schedule self.old.bodies) times self.old.state
            self.new.state traces.items) }
        ensures stopped { IfErr result (StopsAs false 1 self.old.schedule
            (meanings B.meaning self.old.schedule self.old.bodies) times self.old.state) }
        ensures spoiled { IsErrOf result RunFault.Spoiled ↔ IsTrue self.old.spoiled }
        ensures spoils { IsTrue self.new.spoiled ↔ IsErr result }
        ensures unchanged { result ≡ Err RunFault.Spoiled → self.new ≡ self.old }
        ensures schedule { self.new.schedule ≡ self.old.schedule }
        ensures meanings { meanings B.meaning self.old.schedule self.new.bodies
            ≡ meanings B.meaning self.old.schedule self.old.bodies }
        ensures fit { self.old.spoiled ≡ false → AreFit B.fits self.old.schedule self.new.bodies }
    {
        if self.spoiled {
            return Err(RunFault::Spoiled);
        }
        self.built.prove_law();
        self.state.prove_shape();
        self.spoiled = true;
        let state = mem::replace(&mut self.state, State::empty(alloc)).into_open();
        let deferred = mem::replace(&mut self.deferred, Deferred::none(alloc));
        let mut bodies = mem::replace(&mut self.bodies, Bodies::none(alloc));
        let mut run = RunState {
            alloc,
            state,
            deferred,
        };
        let traces = run_times_here(&self.built, &mut run, &mut bodies, &mut self.resting, times);
        runs_are_sound();
        wide_of_one_is_single();
        single_runs_are_one();
        self.bodies = bodies;
        let traces = match traces {
            Ok(traces) => traces,
            Err(stop) => return Err(RunFault::from(stop)),
        };
        self.state = run.state.into_state();
        self.deferred = run.deferred;
        self.spoiled = false;
        Ok(traces)
    }
}
