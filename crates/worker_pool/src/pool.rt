// The jobs that are out, and how they are handed out and come back.

ghost use Rattle.std.specs.Prelude.{◌≡◌, ℕ, ◌+◌, ◌<◌, true, false, Err, [], ◌∷◌, ◌++◌, ◌⊎◌, length, slice_get, remove, IfOk, IfSome, IfNone, IsSome, IsTrue, IsSomeAnd, OnOk, OnErr};
ghost use Rattle.worker_pool.specs.Ran.{Ran};

use crate::fault::HandOutFault;
use crate::mode::Mode;
use crate::standing::Standing;
use crate::start::{JobResult, Start};
use crate::threaded::Threaded;
use body::Body;
use std::alloc::{AllocError, Global};
use std::marker::Model;

// Where the jobs run.
#[derive(Drop)]
enum Form<B: Body> {
    // Here, or each in a thread of its own.
    Threads(Threaded<B>),
    // In workers that stand.
    Stands(Standing<B>),
}

/// The jobs that are out. Contracts see them as a list, in the order in which they were handed out.
#[derive(Drop)]
pub struct Pool<B: Body> {
    form: Form<B>,
}

impl<B: Body> Model for Pool<B> {
    ghost use Rattle.std.specs.Prelude.{List};
    ghost use Rattle.worker_pool.specs.JobOut.{JobOut};
    ghost use Rattle.worker_pool.specs.declared.pool.Form.TheVariants.{Threads, Stands};

    ghost Value = { List (JobOut B) };

    ghost view = { λ p. elim p.form [
      | Threads jobs ↦ jobs
      | Stands stand ↦ stand.jobs
    ] };
}

impl<B: Body> Pool<B> {
    /// A pool with no job out and no worker.
    pub fn new(alloc: Global) -> Self
        ensures { result ≡ [] }
    {
        Pool {
            form: Form::Threads(Threaded::new(alloc)),
        }
    }

    /// A pool with no job out, for a call, of up to `workers` workers. One is the thread that hands jobs out: it does
    /// jobs that no other has taken while it waits for one. The others are started as jobs want them, and live until
    /// `end` sends them away. With 0 there is none.
    pub fn begin(alloc: Global, workers: usize) -> Result<Self, AllocError>
        ensures { IfOk result (λ p. p ≡ []) }
    {
        let form = if workers == 0 {
            Form::Threads(Threaded::new(alloc))
        } else {
            Form::Stands(Standing::open(alloc, workers)?)
        };
        Ok(Pool { form })
    }

    /// How many jobs are out.
    pub fn count(&self) -> usize
        ensures { result ≡ length self.now }
    {
        match &self.form {
            Form::Threads(jobs) => jobs.count(),
            Form::Stands(jobs) => jobs.count(),
        }
    }

    /// Hands a job out: to a worker, or a thread of its own, where the mode has a scope. Otherwise it is kept to be
    /// run when it is brought back. After an error nothing is handed out, and the job comes back. This is so where an
    /// allocation fails, no worker has room for it, or no thread can be started for one. It is lost only where a
    /// thread of its own can't be started. So it never is in a mode whose workers live until the end of a call.
    pub fn hand_out<'s, M: Mode<'s>>(
        &mut self,
        mode: &M,
        start: Start<B>,
    ) -> Result<(), HandOutFault<B>>
    where
        B: 's,
        ensures ok { OnOk result (self.new
            ≡ self.old
            ++ record {
              number = start.number;
              system = start.system;
              body = start.body;
              view = start.view.value;
              there = M.has_scope mode.now;
            }
            ∷ []) }
        ensures err { OnErr result (self.new ≡ self.old) }
        ensures only { OnErr result ((result ≡ Err (HandOutFault.Memory start))
            ⊎ (((result ≡ Err (HandOutFault.NoWorker start)) × (M.has_scope mode.now ≡ true))
            ⊎ ((result ≡ Err HandOutFault.Lost) × (M.has_scope mode.now ≡ true)
            × (M.stands mode.now ≡ false)))) }
    {
        match &mut self.form {
            Form::Threads(jobs) => {
                let scope = mode.scope();
                if scope.is_some() && mode.standing() > 0 {
                    return Err(HandOutFault::NoWorker(start));
                }
                jobs.give(scope, mode.signals(), mode.gate(), start)
            }
            Form::Stands(jobs) => match mode.scope() {
                Some(scope) => jobs.give(scope, mode.signals(), mode.gate(), start),
                None => Err(HandOutFault::Memory(start)),
            },
        }
    }

    /// Brings one job back, that of whichever worker is done, once it is: what comes of it has the number of its start. None only where the
    /// mode can't wait for a worker; that job is lost.
    pub fn bring_back<'s, M: Mode<'s>>(&mut self, mode: &M) -> Option<JobResult<B>>
    where
        B: 's,
        requires { 0 < length self.old }
        ensures ran { IfSome result (λ done. (i : ℕ)
            × IsSomeAnd (slice_get self.old i) (λ job. Ran B.meaning B.fits job.number
            job.system job.body job.view done.number done.system done.body
            done.view.value done.answer)
            × (self.new ≡ remove self.old i)) }
        ensures none { IfNone result ((i : ℕ)
            × IsSomeAnd (slice_get self.old i) (λ job. job.there ≡ true)) }
        ensures joins { IsTrue (M.joins mode.now) → IsSome result }
        ensures shorter { length self.new + 1 ≡ length self.old }
    {
        match &mut self.form {
            Form::Threads(jobs) => jobs.bring_back(mode.signals(), mode),
            Form::Stands(jobs) => jobs.bring_back(mode.gate(), mode),
        }
    }

    /// Ends a pool: its workers leave, and each is waited for. Tells how many jobs were still out: they are lost.
    pub fn end<'s, M: Mode<'s>>(self, mode: &M) -> usize
    where
        B: 's,
        ensures { result ≡ length self }
    {
        match self.form {
            Form::Threads(jobs) => jobs.count(),
            Form::Stands(jobs) => jobs.end(mode),
        }
    }
}
