// A body round another, which notes how long it runs and how many rows it is shown.

ghost use Rattle.std.specs.Prelude.{◌≡◌, ◌≤◌, ◌==◌, ◌&&◌, length};

use access_set::Params;
use body::{Body, BodyFault, View};
use std::alloc::Global;
use std::io;
use std::sync::Arc;
use std::sync::atomic::{AtomicU64, Ordering};
use std::time::{Clock, Instant};

/// What the starts of a system took, added up.
#[derive(Drop)]
pub struct Tally {
    /// How many nanoseconds.
    pub nanos: AtomicU64,
    /// How many rows its queries had.
    pub rows: AtomicU64,
}

impl Tally {
    /// Nothing so far.
    pub fn new() -> Self {
        Tally {
            nanos: AtomicU64::new(0),
            rows: AtomicU64::new(0),
        }
    }
}

/// A body that means what another one means, and fits where that fits and has so many queries.
#[derive(Drop)]
pub struct Timed<B: Body, C: Clock + Send + Drop> {
    /// The other body.
    pub inner: B,
    /// The clock.
    pub clock: C,
    /// How many queries its system has.
    pub queries: usize,
    /// What its starts took.
    pub tally: Arc<Tally, Global>,
}

impl<B: Body, C: Clock + Send + Drop> Body for Timed<B, C> {
    ghost meaning = { λ timed. B.meaning timed.inner };

    ghost fits = { λ timed params. B.fits timed.inner params && (length params.queries == timed.queries) };

    fn fits(&self, params: &Params) -> bool {
        self.inner.fits(params) && params.queries().len() == self.queries
    }

    fn run(&mut self, view: &mut View) -> Result<(), BodyFault> {
        self.tally
            .rows
            .fetch_add(rows_of(view, self.queries), Ordering::SeqCst);
        let begun = Instant::now(&self.clock);
        let done = self.inner.run(view);
        self.tally
            .nanos
            .fetch_add(nanos_since(&self.clock, begun), Ordering::SeqCst);
        done
    }
}

// How many rows the first so many queries have.
fn rows_of(view: &View, queries: usize) -> u64
    requires { queries ≤ length view.now.shown.rows }
{
    let mut rows = 0u64;
    for query in 0..queries {
        rows = rows.saturating_add(view.rows(query) as u64);
    }
    rows
}

/// How many nanoseconds have passed; 0 where the clock can't be read.
pub fn nanos_since<C: Clock>(clock: &C, begun: io::Result<Instant>) -> u64 {
    match (begun, Instant::now(clock)) {
        (Ok(begun), Ok(ended)) => {
            u64::try_from(ended.duration_since(begun).as_nanos()).unwrap_or(u64::MAX)
        }
        _ => 0,
    }
}
