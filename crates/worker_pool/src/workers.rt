// Threads of a scope: workers that stand and take one job after the other, or a thread for each job.

ghost use Rattle.std.specs.Prelude.{◌≡◌, ◌<◌, ◌≤◌, true, false};

use crate::mode::{Gate, JoinThreads, Mode, Signals, SpawnThreads};
use crossbeam_channel::{Receiver, Sender};
use job_board::{Bell, Ring};
use std::sync::Wait;
use std::thread::{JoinHandle, Promise, PromisedHandle, Scope, Threads};

/// Some systems at once, in threads of a scope, through a gate.
#[derive(Drop)]
pub struct Workers<'a, 's, E, R, G> {
    count: usize,
    stand: bool,
    scope: &'a Scope<'s, E>,
    runtime: R,
    gate: &'s G,
    ghost some: { 0 < count },
}

impl<'a, 's, E: 's, R, G> Workers<'a, 's, E, R, G> {
    /// `count` systems at once, at least one and at most 64, by as many workers, through the gate. Each is a thread
    /// of the scope, and takes one job after the other. It lives from its first use to the end of the pool.
    pub fn new(count: usize, scope: &'a Scope<'s, E>, runtime: R, gate: &'s G) -> Self
        requires some { 1 ≤ count }
        requires few { count ≤ 64 }
        ensures count { result.count ≡ count }
        ensures stands { result.stand ≡ true }
    {
        Workers {
            count,
            stand: true,
            scope,
            runtime,
            gate,
        }
    }

    /// As many systems at once, each in a thread of the scope that begins with it and ends with it.
    pub fn each_in_a_thread(mut self) -> Self
        ensures count { result.count ≡ self.entry.count }
        ensures stands { result.stand ≡ false }
    {
        self.stand = false;
        self
    }
}

/// A channel on which numbers of starts are sent.
#[derive(Clone, Copy)]
pub struct ChannelSignals<R> {
    runtime: R,
}

impl<R: Wait + Copy + Send> Signals for ChannelSignals<R> {
    ghost waits = { λ _. true };

    fn ring(&self, to: &Sender<u64>, number: u64) {
        let _ = to.send(&self.runtime, number);
    }

    fn hear(&self, from: &Receiver<u64>) -> Option<u64> {
        from.recv(&self.runtime).ok()
    }

    fn listen(&self, bell: &Bell, heard: u64) {
        bell.sleep(&self.runtime, heard);
    }

    fn stand_still(&self) {
        for _ in self.runtime.forever() {}
        unreachable!()
    }
}

impl<'a, 's, E: 's, R: Threads, G> SpawnThreads<'s> for Workers<'a, 's, E, R, G> {
    type Environment = E;

    ghost has_scope = { λ _. true };

    fn scope(&self) -> Option<&Scope<'s, E>> {
        Some(self.scope)
    }
}

impl<'a, 's, E: 's, R: Threads + Wait, G> JoinThreads for Workers<'a, 's, E, R, G> {
    ghost joins = { λ _. true };

    fn join<T: Drop, P: Promise<T>>(&self, child: PromisedHandle<T, P>) -> Option<T> {
        Some(child.join(&self.runtime))
    }

    fn see_off(&self, worker: JoinHandle<()>) {
        worker.join(&self.runtime);
    }

    fn listen(&self, bell: &Bell, heard: u64) -> bool {
        bell.sleep(&self.runtime, heard);
        true
    }

    fn stand_still(&self) {
        for _ in self.runtime.forever() {}
        unreachable!()
    }
}

impl<'a, 's, E: 's, R: Threads + Wait + Copy + Send + 's, G: Gate + 's> Mode<'s>
    for Workers<'a, 's, E, R, G> {
    type Signals = ChannelSignals<R>;

    type Gate = G;

    ghost width = { λ w. w.count };

    ghost stands = { λ w. w.stand };

    fn width(&self) -> usize {
        self.count
    }

    fn standing(&self) -> usize {
        if self.stand { self.count } else { 0 }
    }

    fn signals(&self) -> ChannelSignals<R> {
        ChannelSignals {
            runtime: self.runtime,
        }
    }

    fn gate(&self) -> &'s G {
        self.gate
    }

    fn keeping(&self) -> Self {
        Workers {
            count: self.count,
            stand: true,
            scope: self.scope,
            runtime: self.runtime,
            gate: self.gate,
        }
    }

    fn prove_waits(&self) {}
}
