// What lies in a slot, and what a seat at the board has done.

ghost use Rattle.std.specs.Prelude.{◌≡◌};

use crate::task::JobNumber;
use std::alloc::Global;
use std::collections::LinkedList;

/// The content of a slot that is posted or finished.
#[derive(Drop)]
pub enum Content<J, O> {
    /// A job that nobody has taken yet.
    Job(J),
    /// The outcome of a job, which is not collected yet.
    Outcome(O),
}

impl<J: Drop, O: Drop> Content<J, O> {
    // The job in a slot that has one.
    pub(crate) fn into_job(slot: Option<Content<J, O>>) -> J
        requires { (j : J) × (slot ≡ Some (Content.Job j)) }
        ensures { slot ≡ Some (Content.Job result) }
    {
        match slot {
            Some(Content::Job(job)) => job,
            _ => unreachable!(),
        }
    }

    // The outcome in a slot that has one.
    pub(crate) fn into_outcome(slot: Option<Content<J, O>>) -> O
        requires { (o : O) × (slot ≡ Some (Content.Outcome o)) }
        ensures { slot ≡ Some (Content.Outcome result) }
    {
        match slot {
            Some(Content::Outcome(outcome)) => outcome,
            _ => unreachable!(),
        }
    }
}

/// The deeds of a seat, and what it has read. No value of it is made: it is for proofs alone.
pub struct View<J, O> {
    /// Whether it is the lead's.
    pub leads: bool,
    /// The jobs that it posted, with their numbers.
    pub posted: LinkedList<(JobNumber, J), Global>,
    /// The outcomes that it collected, with the numbers of their jobs.
    pub collected: LinkedList<(JobNumber, O), Global>,
    /// The free slots that it holds, the one that it came by last first.
    pub free: LinkedList<u64, Global>,
    /// Whether it closed the board.
    pub closed: bool,
    /// The jobs that it took, each with its number and its slot.
    pub taken: LinkedList<(JobNumber, (u64, J)), Global>,
    /// The numbers of the jobs that it did.
    pub done: LinkedList<JobNumber, Global>,
    /// What it read, each with the number of its word.
    pub read: LinkedList<(u64, u64), Global>,
}
