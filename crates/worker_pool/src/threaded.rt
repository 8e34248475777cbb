// Jobs that are out where no worker stands: each is kept to be run here, or has a thread of its own.

ghost use Rattle.std.specs.Prelude.{◌≡◌, ℕ, ◌+◌, ◌<◌, true, Err, [], ◌∷◌, ◌++◌, ◌⊎◌, length, is_some, slice_get, slice_index_or, remove, IfOk, IfSome, IfNone, IsSome, IsTrue, IsSomeAnd, OnOk, OnErr};
ghost use Rattle.worker_pool.specs.Ran.{Ran};

use crate::fault::HandOutFault;
use crate::mode::{Gate, JoinThreads, Signals};
use crate::start::{JobResult, JobResultOf, Start};
use crate::task::{Runs, StartTask};
use body::Body;
use crossbeam_channel::{Receiver, Sender};
use std::alloc::{AllocError, Global};
use std::marker::Model;
use std::thread::{PromisedHandle, Scope};

// How many notices a channel holds.
const MOST_NOTICES: usize = 64;

// A job that is out: kept to be run here, or in a thread.
#[derive(Drop)]
enum Work<B: Body> {
    Here(Start<B>),
    There(PromisedHandle<JobResult<B>, JobResultOf<B>>),
}

// A job that is out, with the number of its start.
#[derive(Drop)]
struct PendingJob<B: Body> {
    number: u64,
    work: Work<B>,
}

impl<B: Body> Model for PendingJob<B> {
    ghost use Rattle.std.specs.Prelude.{true, false};
    ghost use Rattle.worker_pool.specs.JobOut.{JobOut};
    ghost use Rattle.worker_pool.specs.declared.threaded.Work.TheVariants.{Here, There};

    ghost Value = { JobOut B };

    ghost view = { λ o. elim o.work [
      | Here start ↦ record {
        number = start.number;
        system = start.system;
        body = start.body;
        view = start.view.value;
        there = false;
      }
      | There child ↦ record {
        number = child.promise.start.value.number;
        system = child.promise.start.value.system;
        body = child.promise.start.value.body;
        view = child.promise.start.value.view.value;
        there = true;
      }
    ] };
}

impl<B: Body> PendingJob<B> {
    // Whether a notice is of this job.
    fn is_told(&self, number: u64) -> bool {
        self.number == number
    }

    // What comes of the job.
    fn finish<J: JoinThreads>(self, mode: &J) -> Option<JobResult<B>>
        ensures ran { IfSome result (λ done. Ran B.meaning B.fits self.number self.system self.body
            self.view done.number done.system done.body done.view.value done.answer) }
        ensures none { IfNone result (self.there ≡ true) }
        ensures joins { IsTrue (J.joins mode.now) → IsSome result }
    {
        match self.work {
            Work::Here(start) => Some(StartTask::<B>::run(start)),
            Work::There(child) => mode.join(child),
        }
    }
}

// Takes what is at a place out of a list. The last one, as the only one is, leaves nothing to shift.
fn take_out<T>(list: &mut Vec<T>, at: usize) -> T
    requires { at < length list.old.items }
    ensures value { result ≡ slice_index_or list.old.items at result }
    ensures items { list.new.items ≡ remove list.old.items at }
    ensures len { length list.new.items + 1 ≡ length list.old.items }
{
    if at + 1 == list.len() {
        return list.take_last();
    }
    list.remove(at)
}

// Where threads tell that they are done.
#[derive(Drop)]
struct Notices {
    bell: Sender<u64>,
    heard: Receiver<u64>,
}

// What a thread rings when it is done. The first that is asked for makes the channel.
fn bell_of(alloc: Global, notices: &mut Option<Notices>) -> Result<Sender<u64>, AllocError> {
    if let Some(made) = notices {
        return made.bell.clone();
    }
    let (bell, heard) = crossbeam_channel::bounded(alloc, MOST_NOTICES)?;
    let rung = bell.clone()?;
    *notices = Some(Notices { bell, heard });
    Ok(rung)
}

/// Jobs that are out, each kept to be run here, or in a thread of its own. Contracts see them as a list, in the order in which they were handed out.
#[derive(Drop)]
pub struct Threaded<B: Body> {
    alloc: Global,
    out: Vec<PendingJob<B>>,
    notices: Option<Notices>,
}

impl<B: Body> Model for Threaded<B> {
    ghost use Rattle.std.specs.Prelude.{List};
    ghost use Rattle.worker_pool.specs.JobOut.{JobOut};

    ghost Value = { List (JobOut B) };

    ghost view = { λ p. p.out.items };
}

impl<B: Body> Threaded<B> {
    // No job is out.
    pub(crate) fn new(alloc: Global) -> Self
        ensures { result ≡ [] }
    {
        Threaded {
            alloc,
            out: Vec::new(alloc),
            notices: None,
        }
    }

    // How many jobs are out.
    pub(crate) fn count(&self) -> usize
        ensures { result ≡ length self.now }
    {
        self.out.len()
    }

    // The place of a job that is done, the first where no notice has come.
    fn place_of_done<N: Signals>(&self, signals: N) -> usize
        requires { 0 < length self.now }
        ensures { result < length self.now }
    {
        let Some(notices) = &self.notices else {
            return 0;
        };
        let number = signals.hear(&notices.heard).unwrap_or(0);
        for place in 0..self.out.len() {
            if self.out[place].is_told(number) {
                return place;
            }
        }
        0
    }

    // Hands a job out to a thread of the scope, or keeps it where there is none. After an error nothing is handed out: where an allocation fails the
    // job comes back, and it is lost where no thread can be started.
    pub(crate) fn give<'s, E: 's, N: Signals + 's, G: Gate>(
        &mut self,
        scope: Option<&Scope<'s, E>>,
        signals: N,
        gate: &'s G,
        start: Start<B>,
    ) -> Result<(), HandOutFault<B>>
    where
        B: 's,
        ensures ok { OnOk result (self.new
            ≡ self.old
            ++ record {
              number = start.number;
              system = start.system;
              body = start.body;
              view = start.view.value;
              there = is_some scope.entry;
            }
            ∷ []) }
        ensures err { OnErr result (self.new ≡ self.old) }
        ensures only { OnErr result ((result ≡ Err (HandOutFault.Memory start))
            ⊎ ((result ≡ Err HandOutFault.Lost) × (is_some scope.entry ≡ true))) }
    {
        let Ok(()) = self.out.reserve(1) else {
            return Err(HandOutFault::Memory(start));
        };
        let number = start.number;
        let work = match scope {
            None => Work::Here(start),
            Some(scope) => {
                let Ok(bell) = bell_of(self.alloc, &mut self.notices) else {
                    return Err(HandOutFault::Memory(start));
                };
                let promise = JobResultOf::of(&start);
                let job = move || {
                    gate.enter(number);
                    let done = StartTask::<B>::run(start);
                    gate.leave(number);
                    signals.ring(&bell, number);
                    done
                };
                match scope.spawn_with(promise, job) {
                    Ok(child) => Work::There(child),
                    Err(_refused) => return Err(HandOutFault::Lost),
                }
            }
        };
        let Ok(()) = self.out.push(PendingJob { number, work }) else {
            unreachable!()
        };
        Ok(())
    }

    // Brings one job back, that of whichever thread is done, once it is. None only where the mode can't wait for a thread; that job is lost.
    pub(crate) fn bring_back<N: Signals, J: JoinThreads>(
        &mut self,
        signals: N,
        mode: &J,
    ) -> Option<JobResult<B>>
        requires { 0 < length self.old }
        ensures ran { IfSome result (λ done. (i : ℕ)
            × IsSomeAnd (slice_get self.old i) (λ job. Ran B.meaning B.fits job.number
            job.system job.body job.view done.number done.system done.body
            done.view.value done.answer)
            × (self.new ≡ remove self.old i)) }
        ensures none { IfNone result ((i : ℕ)
            × IsSomeAnd (slice_get self.old i) (λ job. job.there ≡ true)) }
        ensures joins { IsTrue (J.joins mode.now) → IsSome result }
        ensures shorter { length self.new + 1 ≡ length self.old }
    {
        let at = self.place_of_done(signals);
        take_out(&mut self.out, at).finish(mode)
    }
}
