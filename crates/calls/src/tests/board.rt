// A board of jobs by itself: what it hands on, and that hands on threads of their own take each job once.

ghost use Rattle.std.specs.Prelude.{◌≡◌, false};
ghost use Rattle.job_board.specs.Ends.{lead_view};

use job_board::{Board, Hand, Lead, Task};
use std::alloc::Global;
use std::sync::Wait;
use std::thread::{Threads, join};

// A job is a number, and its outcome is the same number.
struct Same;

impl Task for Same {
    type Job = u64;

    type Outcome = u64;

    ghost answers = { λ j o. o ≡ j };
}

// Whether a job is posted under a number, or under none.
fn is_posted(lead: &mut Lead<Same>, job: u64, number: Option<u64>) -> bool
    requires { (lead_view lead.old).closed ≡ false }
    ensures { (lead_view lead.new).closed ≡ false }
{
    lead.post(job).ok() == number
}

// Whether a job is taken and done, and in between there is nothing to take or to collect.
fn is_done(lead: &mut Lead<Same>, hand: &mut Hand<Same>, job: u64) -> Option<bool>
    requires { (lead_view lead.old).closed ≡ false }
    ensures { (lead_view lead.new).closed ≡ false }
{
    let (number, taken) = hand.try_take()?;
    if hand.try_take().is_some() {
        return None;
    }
    let early = lead.try_collect();
    hand.done(number, taken);
    Some(early == None && (number, taken) == (1, job))
}

/// On a board of one slot a job is posted once the one before it is collected, with its outcome; the hand takes what is posted, once.
pub(crate) fn one_slot(alloc: Global) -> Option<bool> {
    let (mut lead, mut hands) = Board::new::<Same>(alloc, 1, 1).ok()?;
    let mut hand = hands.pop()?;
    Some(
        hand.try_take() == None
            && is_posted(&mut lead, 4, Some(1))
            && is_posted(&mut lead, 5, None)
            && lead.try_collect() == None
            && is_done(&mut lead, &mut hand, 4)?
            && is_posted(&mut lead, 5, None)
            && lead.try_collect() == Some((1, 4))
            && is_posted(&mut lead, 5, Some(2)),
    )
}

/// A hand that waits takes the job that is posted, the lead that waits collects its outcome, and once the board is closed a hand waits no longer.
pub(crate) fn waits<R: Wait>(runtime: &R, alloc: Global) -> Option<bool> {
    let Ok((mut lead, mut hands)) = Board::new::<Same>(alloc, 1, 1) else {
        return None;
    };
    let mut hand = hands.pop()?;
    let Ok(posted) = lead.post(4) else {
        return None;
    };
    let (number, job) = hand.take_wait(runtime)?;
    hand.done(number, job);
    let collected = lead.collect_wait(runtime);
    lead.close();
    let is_over = hand.take_wait(runtime) == None;
    Some(posted == 1 && (number, job) == (1, 4) && collected == (1, 4) && is_over)
}

// Takes a job that waits and does it. Answers its number, 0 where none waits.
fn do_one(mut hand: Hand<Same>) -> u64 {
    let Some((number, job)) = hand.try_take() else {
        return 0;
    };
    hand.done(number, job);
    number
}

// Whether jobs 1 and 2 come out, each once with its own outcome, and nothing else.
fn are_out(lead: &mut Lead<Same>) -> Option<bool> {
    let (first, one) = lead.try_collect()?;
    let (second, other) = lead.try_collect()?;
    let are_both = (first, second) == (1, 2) || (first, second) == (2, 1);
    let are_own = one == first.wrapping_add(3) && other == second.wrapping_add(3);
    Some(are_both && are_own && lead.try_collect() == None)
}

/// Of two jobs that wait in two slots, each of two hands in threads of their own takes one, and each comes out once.
pub(crate) fn two_hands<R: Threads>(runtime: &R, alloc: Global) -> Option<bool> {
    let (mut lead, mut hands) = Board::new::<Same>(alloc, 2, 2).ok()?;
    let second = hands.pop()?;
    let first = hands.pop()?;
    let are_posted = is_posted(&mut lead, 4, Some(1)) && is_posted(&mut lead, 5, Some(2));
    let (one, other) = join(runtime, move || do_one(first), move || do_one(second));
    let are_taken = (one, other) == (1, 2) || (one, other) == (2, 1);
    Some(are_posted && are_taken && are_out(&mut lead)?)
}
