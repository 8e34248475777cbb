// How the systems of a run are executed: on how many threads, and what these threads ask of who waits for them.

ghost use Rattle.std.specs.Prelude.{◌≡◌, ℕ, ◌<◌, Bool, true, is_some, IfSome, IsSome, IsTrue, MatchBool};

use crossbeam_channel::{Receiver, Sender};
use job_board::Bell;
use std::thread::{JoinHandle, Promise, PromisedHandle, Scope};

/// What a worker passes before and after it runs a body. It is called with the number of the start.
pub trait Gate: Send + Sync + Drop {
    /// Before the body runs.
    fn enter(&self, number: u64);

    /// After the body has run.
    fn leave(&self, number: u64);
}

/// The scope in which the threads of a run are started, or none.
pub trait SpawnThreads<'s> {
    /// What the scope's threads may borrow.
    type Environment: 's;

    ghost has_scope: { Self → Bool };

    /// The scope, none where no thread is started.
    fn scope(&self) -> Option<&Scope<'s, Self::Environment>>
        ensures { is_some result ≡ has_scope self.now };
}

/// How a thread's result is waited for, and how what workers do.
pub trait JoinThreads {
    ghost joins: { Self → Bool };

    /// The result of a thread, none where it can't be had.
    fn join<T: Drop, P: Promise<T>>(&self, child: PromisedHandle<T, P>) -> Option<T>
        ensures kept { IfSome result (λ r. P.kept_by child.promise r) }
        ensures joined { IsTrue (joins self.now) → IsSome result };

    /// Waits until a worker has left, where that can be waited for.
    fn see_off(&self, worker: JoinHandle<()>);

    /// Waits until a bell has rung after `heard`, or less. False where that can't be waited for.
    fn listen(&self, bell: &Bell, heard: u64) -> bool
        ensures { IsTrue (joins self.now) → result ≡ true };

    /// Does not come back where threads can be waited for.
    fn stand_still(&self)
        ensures { IsTrue (joins self.now) → ⊥ };
}

/// How a worker signals that it is done, and how that is received.
pub trait Signals: Copy + Send {
    ghost waits: { Self → Bool };

    /// Signals that the start of this number is done.
    fn ring(&self, to: &Sender<u64>, number: u64);

    /// The number of a start that is done, none where none is heard.
    fn hear(&self, from: &Receiver<u64>) -> Option<u64>;

    /// Waits until a bell has rung after `heard`, or less.
    fn listen(&self, bell: &Bell, heard: u64);

    /// Does not come back where it can wait.
    fn stand_still(&self)
        ensures { IsTrue (waits self.now) → ⊥ };
}

/// How the systems of a run are executed.
pub trait Mode<'s>: SpawnThreads<'s> + JoinThreads + Drop {
    /// How its workers signal that they are done.
    type Signals: Signals + 's;
    /// What its workers pass.
    type Gate: Gate + 's;

    ghost width: { Self → ℕ };

    ghost stands: { Self → Bool };

    /// How many systems may run at once, at least one.
    fn width(&self) -> usize
        ensures width { result ≡ width self.now }
        ensures some { 0 < result };

    /// How many workers may live until the end of a call, 0 where each start has a thread of its own, or none.
    fn standing(&self) -> usize
        ensures { MatchBool (stands self.now) (0 < result) (result ≡ 0) };

    /// How its workers signal that they are done.
    fn signals(&self) -> Self::Signals;

    /// The gate of its workers.
    fn gate(&self) -> &'s Self::Gate;

    /// The same mode, but with workers that live until the end of a call wherever it has threads. A job that none of
    /// them can take comes back.
    fn keeping(&self) -> Self
        ensures stands { stands result ≡ Self.has_scope result }
        ensures scope { Self.has_scope result ≡ Self.has_scope self.now }
        ensures width { width result ≡ width self.now };

    /// Proves that threads can be waited for where they are started.
    fn prove_waits(&self)
        ensures { IsTrue (Self.has_scope self.now) → IsTrue (Self.joins self.now) };
}
