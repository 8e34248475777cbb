// A gate of workers that holds starts by a rule, and counts them.

ghost use Rattle.std.specs.Prelude.{};

use std::alloc::Global;
use std::sync::Arc;
use std::sync::atomic::{AtomicU64, Ordering};
use std::thread;
use worker_pool::Gate;

/// How often a start that is held looks whether it may pass, at most: more often than it takes until all others have come.
pub const PATIENCE: u64 = 20_000_000;

/// Which starts a gate holds, and how long.
#[derive(Clone, Copy)]
pub enum Rule {
    /// None.
    Open,
    /// Each, until this number is past the gate at once.
    Gather(u64),
    /// The first of these, until the second has left.
    Hold(u64, u64),
    /// Each but this one, until it has left.
    Await(u64),
}

/// A gate that holds starts by a rule until its patience is at an end. It needs no lock, so no runtime: who waits lets others run, and looks
/// again. It notes how many starts are past it at once at most, and, as bits, the numbers below 64 of those that enter and leave.
#[derive(Drop)]
pub struct TestGate {
    rule: Rule,
    patience: u64,
    inside: AtomicU64,
    most: AtomicU64,
    entered: AtomicU64,
    left: AtomicU64,
    faults: AtomicU64,
}

impl TestGate {
    /// A gate that nobody has passed. None where an allocation fails.
    pub(crate) fn new(alloc: Global, rule: Rule) -> Option<Arc<TestGate, Global>> {
        TestGate::with_patience(alloc, rule, PATIENCE)
    }

    /// A gate of which a start that is held looks so often whether it may pass.
    pub(crate) fn with_patience(
        alloc: Global,
        rule: Rule,
        patience: u64,
    ) -> Option<Arc<TestGate, Global>> {
        let gate = TestGate {
            rule,
            patience,
            inside: AtomicU64::new(0),
            most: AtomicU64::new(0),
            entered: AtomicU64::new(0),
            left: AtomicU64::new(0),
            faults: AtomicU64::new(0),
        };
        Arc::new(alloc, gate).ok()
    }

    /// How many starts were past the gate at once, at most.
    pub(crate) fn most(&self) -> u64 {
        self.most.load(Ordering::SeqCst)
    }

    /// Which starts entered, and which left.
    pub(crate) fn passed(&self) -> (u64, u64) {
        let entered = self.entered.load(Ordering::SeqCst);
        (entered, self.left.load(Ordering::SeqCst))
    }

    /// How many starts entered or left twice, left before they entered, ran with nobody inside, or were held until the patience was at an end.
    pub(crate) fn faults(&self) -> u64 {
        self.faults.load(Ordering::SeqCst)
    }

    /// Notes a fault where nobody is past the gate.
    pub(crate) fn look(&self) {
        let left = self.left.load(Ordering::SeqCst);
        let entered = self.entered.load(Ordering::SeqCst);
        self.note(entered == left);
    }

    // Notes a fault, if there is one.
    fn note(&self, is_fault: bool) {
        self.faults.fetch_add(u64::from(is_fault), Ordering::SeqCst);
    }

    // Whether the start of this number is held no longer.
    fn may_pass(&self, number: u64) -> bool {
        match self.rule {
            Rule::Open => true,
            Rule::Gather(wanted) => self.most() >= wanted,
            Rule::Hold(held, awaited) => number != held || self.has_left(awaited),
            Rule::Await(awaited) => number == awaited || self.has_left(awaited),
        }
    }

    // Whether the start of this number has left.
    fn has_left(&self, number: u64) -> bool {
        self.left.load(Ordering::SeqCst) & bit(number) != 0
    }

    // Counts a start that comes in.
    fn count(&self, number: u64) {
        let others = self.inside.fetch_add(1, Ordering::SeqCst);
        self.most
            .fetch_max(others.saturating_add(1), Ordering::SeqCst);
        let before = self.entered.fetch_or(bit(number), Ordering::SeqCst);
        self.note(before & bit(number) != 0);
    }
}

// The bit of a start.
fn bit(number: u64) -> u64 {
    1 << (number % 64)
}

impl Gate for TestGate {
    fn enter(&self, number: u64) {
        self.count(number);
        for _ in 0..self.patience {
            if self.may_pass(number) {
                return;
            }
            thread::yield_now();
        }
        self.note(true);
    }

    fn leave(&self, number: u64) {
        self.inside.fetch_sub(1, Ordering::SeqCst);
        let before = self.left.fetch_or(bit(number), Ordering::SeqCst);
        let entered = self.entered.load(Ordering::SeqCst);
        self.note(before & bit(number) != 0 || entered & bit(number) == 0);
    }
}
