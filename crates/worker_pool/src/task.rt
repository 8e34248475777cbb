// The jobs of a board: starts, and what comes of them.

ghost use Rattle.std.specs.Prelude.{◌≡◌, ℕ};
ghost use Rattle.worker_pool.specs.Ran.{Ran};

use crate::start::{JobResult, Start};
use body::Body;
use job_board::Task;
use std::marker::PhantomData;

/// Jobs that are run, each with the number of its start.
pub trait Runs: Task {
    ghost number: { Self.Job → ℕ };

    /// The number of the start, which a gate is called with.
    fn number(job: &Self::Job) -> u64
        ensures { result ≡ number job.now };

    /// Runs a job.
    fn run(job: Self::Job) -> Self::Outcome
        ensures { Self.answers job result };
}

/// Starts of systems with bodies of a type.
#[derive(Drop)]
pub struct StartTask<B: Body> {
    body: PhantomData<B>,
}

impl<B: Body> Task for StartTask<B> {
    type Job = Start<B>;

    type Outcome = JobResult<B>;

    ghost answers = { λ s d. Ran B.meaning B.fits s.number s.system s.body s.view.value d.number
        d.system d.body d.view.value d.answer };
}

impl<B: Body> Runs for StartTask<B> {
    ghost number = { λ start. start.number };

    fn number(start: &Start<B>) -> u64 {
        start.number
    }

    fn run(start: Start<B>) -> JobResult<B> {
        let Start {
            number,
            system,
            mut body,
            mut view,
        } = start;
        let answer = body.run(&mut view);
        JobResult {
            number,
            system,
            body,
            view,
            answer,
        }
    }
}
