// One thread: the bodies run where they are brought back.

ghost use Rattle.std.specs.Prelude.{false};

use crate::mode::{Gate, JoinThreads, Mode, Signals, SpawnThreads};
use crossbeam_channel::{Receiver, Sender};
use job_board::Bell;
use std::thread::{JoinHandle, Promise, PromisedHandle, Scope};

/// One thread: each start is finished before anything else is done.
#[derive(Clone, Copy, PartialEq, Eq, Debug, Default)]
pub struct Single;

/// A gate that lets all pass at once.
#[derive(Clone, Copy, PartialEq, Eq, Debug, Default)]
pub struct NoGate;

/// Signals of which none is heard.
#[derive(Clone, Copy, PartialEq, Eq, Debug, Default)]
pub struct NoSignals;

// The gate of a run on one thread.
const NO_GATE: NoGate = NoGate;

impl Gate for NoGate {
    fn enter(&self, _number: u64) {}

    fn leave(&self, _number: u64) {}
}

impl Signals for NoSignals {
    ghost waits = { λ _. false };

    fn ring(&self, _to: &Sender<u64>, _number: u64) {}

    fn hear(&self, _from: &Receiver<u64>) -> Option<u64> {
        None
    }

    fn listen(&self, _bell: &Bell, _heard: u64) {}

    fn stand_still(&self) {}
}

impl<'s> SpawnThreads<'s> for Single {
    type Environment = ();

    ghost has_scope = { λ _. false };

    fn scope(&self) -> Option<&Scope<'s, ()>> {
        None
    }
}

impl JoinThreads for Single {
    ghost joins = { λ _. false };

    fn join<T: Drop, P: Promise<T>>(&self, _child: PromisedHandle<T, P>) -> Option<T> {
        None
    }

    fn see_off(&self, _worker: JoinHandle<()>) {}

    fn listen(&self, _bell: &Bell, _heard: u64) -> bool {
        false
    }

    fn stand_still(&self) {}
}

impl<'s> Mode<'s> for Single {
    type Signals = NoSignals;

    type Gate = NoGate;

    ghost width = { λ _. 1 };

    ghost stands = { λ _. false };

    fn width(&self) -> usize {
        1
    }

    fn standing(&self) -> usize {
        0
    }

    fn signals(&self) -> NoSignals {
        NoSignals
    }

    fn gate(&self) -> &'s NoGate {
        &NO_GATE
    }

    fn keeping(&self) -> Self {
        *self
    }

    fn prove_waits(&self) {}
}
