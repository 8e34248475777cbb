// Bells, on which those wait who find nothing to do. They lie beside the board and say nothing of it.

use std::sync::Wait;
use std::sync::atomic::{AtomicU64, Ordering};
use std::thread;

// How often one looks at a bell before it sleeps: so many rounds, and behind each others may run.
const ROUNDS: usize = 20;

const LOOKS: usize = 100;

/// What some ring, and others wait for. Its calls promise nothing, since no proof can name what an atomic word holds.
/// All that is proved of a board holds however often a bell rings, and whenever it is heard.
pub trait Ring {
    /// How often it has rung. Who waits asks this first, then looks for what it waits for, and sleeps if it finds nothing.
    fn heard(&self) -> u64;

    /// Waits until it has rung after `heard`, or less.
    fn sleep<R: Wait>(&self, rt: &R, heard: u64);

    /// Rings, and wakes one of those that sleep.
    fn ring_one(&self);

    /// Rings, and wakes all that sleep.
    fn ring_all(&self);
}

/// A bell: a count of its rings, on which others sleep. It has two lines of memory to itself, so that a ring doesn't take the line from those who look
/// at another bell.
#[derive(Default, Drop)]
pub struct Bell {
    rings: AtomicU64,
    sleepers: AtomicU64,
    _rest: [u64; 14],
}

impl Ring for Bell {
    fn heard(&self) -> u64 {
        self.rings.load(Ordering::SeqCst)
    }

    fn sleep<R: Wait>(&self, rt: &R, heard: u64) {
        if self.rings_soon(heard) {
            return;
        }
        self.sleepers.fetch_add(1, Ordering::SeqCst);
        if self.heard() == heard {
            self.rings.park(rt, (heard & 0xffff_ffff) as u32);
        }
        self.sleepers.fetch_sub(1, Ordering::SeqCst);
    }

    fn ring_one(&self) {
        self.rings.fetch_add(1, Ordering::SeqCst);
        if self.sleepers.load(Ordering::SeqCst) != 0 {
            self.rings.wake_one();
        }
    }

    fn ring_all(&self) {
        self.rings.fetch_add(1, Ordering::SeqCst);
        if self.sleepers.load(Ordering::SeqCst) != 0 {
            self.rings.wake_all();
        }
    }
}

impl Bell {
    // A sleep and a wake cost more than a while of looking.
    fn rings_soon(&self, heard: u64) -> bool {
        for _ in 0..ROUNDS {
            for _ in 0..LOOKS {
                if self.heard() != heard {
                    return true;
                }
            }
            thread::yield_now();
        }
        false
    }
}

// The bells of a board: what hands wait for is a job or the end, what the lead waits for is an outcome.
#[derive(Default, Drop)]
pub(crate) struct Bells {
    pub(crate) hands: Bell,
    pub(crate) lead: Bell,
}
