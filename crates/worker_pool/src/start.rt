// A job: a body to be run on a view, and what comes of it.

ghost use Rattle.std.specs.Prelude.{◌≡◌, IsTrue};
ghost use Rattle.model.specs.shown.Outcome.{untouched};
ghost use Rattle.body.specs.Keeps.{CanBeShown};
ghost use Rattle.worker_pool.specs.Ran.{Ran};

use body::{Body, BodyFault, View};
use std::snapshot::Snapshot;
use std::thread::Promise;

/// A body that a system starts with. It fits the parameters of the view. The view shows what a system with these can
/// be shown, and nothing is written in it yet.
#[derive(Drop)]
pub struct Start<B: Body> {
    /// The number of the start in its run, which a gate is called with.
    pub number: u64,
    /// The system.
    pub system: u32,
    /// Its body.
    pub body: B,
    /// Its view, in a box: a job is moved often, and a view is large.
    pub view: Box<View>,
    ghost fits: { IsTrue (B.fits body view.value.params) },
    ghost showing: { CanBeShown view.value.params view.value.shown },
    ghost untouched: { view.value.outcome ≡ untouched view.value.params view.value.shown },
}

/// A body that has run.
#[derive(Drop)]
pub struct JobResult<B> {
    /// The number of its start.
    pub number: u64,
    /// The system.
    pub system: u32,
    /// Its body.
    pub body: B,
    /// Its view, with what it wrote.
    pub view: Box<View>,
    /// What it answered.
    pub answer: Result<(), BodyFault>,
}

// What a thread promises of its result: the body of this start has run.
#[derive(Drop)]
pub(crate) struct JobResultOf<B: Body> {
    pub(crate) start: Snapshot<Start<B>>,
}

impl<B: Body> JobResultOf<B> {
    pub(crate) fn of(start: &Start<B>) -> Self
        ensures { result.start.value ≡ start.now }
    {
        JobResultOf {
            start: Snapshot::of(start),
        }
    }
}

impl<B: Body> Promise<JobResult<B>> for JobResultOf<B> {
    ghost kept_by = { λ p d. Ran B.meaning B.fits p.start.value.number p.start.value.system
        p.start.value.body p.start.value.view.value d.number d.system d.body d.view.value
        d.answer };
}
