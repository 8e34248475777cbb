// The lead of a board: it posts jobs and collects their outcomes.
ghost use Rattle.std.specs.Prelude.{◌≡◌, ◌+◌, ◌<◌, ◌≤◌, ◌^◌, true, false, length, vec_capacity};
ghost use Rattle.std.specs.Arc.{arc_value};
ghost use Rattle.job_board.specs.Views.{IsTally};
ghost use Rattle.job_board.specs.Held.{IsStack};

use crate::bells::{Bell, Bells, Ring};
use crate::plays::{Claim, Close, Collect, Post, Seek};
use crate::slot_state::SlotState;
use crate::task::{JobNumber, Task};
use crate::view::Content;
use crate::words::{Place, Words};
use std::alloc::{AllocError, Global};
use std::sync::{Arc, Wait};

// The greatest number of a job: four times that and 3 fits a word.
const LAST: JobNumber = (1 << 62) - 1;

/// The one that posts jobs on a board, and collects their outcomes.
#[derive(Drop)]
pub struct Lead<T: Task> {
    board: Arc<Words<T>, Global>,
    bells: Arc<Bells, Global>,
    seat: Place<T>,
    free: Vec<usize>,
    slots: usize,
    posted: JobNumber,
    ghost seated: { seat.table_id ≡ (arc_value board).shared.table_id },
    ghost sized: { ((arc_value board).shared.table_id.slots ≡ slots)
        × ((arc_value board).shared.table_id.words ≡ slots + 1) },
    ghost leads: { seat.me.0.leads ≡ true },
    ghost stack: { IsStack slots free.items seat.me.0 seat.me.1 },
    ghost roomy: { slots ≤ vec_capacity free },
    ghost counted: { (posted ≡ length seat.me.0.posted)
        × (posted < 2 ^ 62)
        × (length seat.me.0.free + length seat.me.0.posted ≡ slots + length seat.me.0.collected) },
    ghost tally: { IsTally seat.me.0 },
}

impl<T: Task> Lead<T> {
    ghost use Rattle.std.specs.Prelude.{ℕ, ◌≢◌, ◌⊎◌, ◌-◌, List, [], ◌∷◌, MatchOption, IfOk};
    ghost use Rattle.job_board.specs.Words.{finished_word};
    ghost use Rattle.job_board.specs.Views.{opener, opened, having_read, after_post, after_collect, after_close, HasPosted, Uncollected, NoneFinished, FoundOutcome, IsPost};
    ghost use Rattle.job_board.specs.Ends.{lead_view, lead_slots, lead_table, lead_bell};

    // A lead that takes its seat at a new board, and makes each slot its own.
    pub(crate) fn open(
        alloc: Global,
        board: Arc<Words<T>, Global>,
        bells: Arc<Bells, Global>,
        mut seat: Place<T>,
        slots: usize,
    ) -> Result<Lead<T>, AllocError>
        requires table { (seat.table_id ≡ (arc_value board).shared.table_id)
            × ((arc_value board).shared.table_id.slots ≡ slots)
            × ((arc_value board).shared.table_id.words ≡ slots + 1) }
        requires first { seat.me ≡ (opener, []) }
        ensures slots { IfOk result (λ l. (lead_slots l ≡ slots)
            × (lead_table l ≡ (arc_value board).shared.table_id)) }
        ensures view { IfOk result (λ l. (free : List ℕ) × (read : List (ℕ × ℕ))
            × (lead_view l ≡ opened free read)) }
    {
        let mut free = Vec::with_capacity(alloc, slots)?;
        for claimed in 0..slots {
            let slot = slots - 1 - claimed;
            board.shared.load::<Claim>(&mut seat, slot);
            free.push_reserved(slot);
        }
        Ok(Lead {
            board,
            bells,
            seat,
            free,
            slots,
            posted: 0,
        })
    }

    /// Posts a job under the next number, and rings for a hand. Hands the job back where every slot holds a job that is not collected, or no number is
    /// left.
    pub fn post(&mut self, job: T::Job) -> Result<JobNumber, T::Job>
        requires { (lead_view self.old).closed ≡ false }
        ensures posted { IsPost (lead_slots self.old) job (lead_view self.old) (lead_view self.new)
            result }
        ensures slots { lead_slots self.new ≡ lead_slots self.old }
    {
        let number = self.post_quietly(job)?;
        self.call_hand();
        Ok(number)
    }

    /// Posts a job as `post` does, but rings for no hand: one that is awake and looks takes it, until `call_hand` rings for it.
    pub fn post_quietly(&mut self, job: T::Job) -> Result<JobNumber, T::Job>
        requires { (lead_view self.old).closed ≡ false }
        ensures posted { IsPost (lead_slots self.old) job (lead_view self.old) (lead_view self.new)
            result }
        ensures slots { lead_slots self.new ≡ lead_slots self.old }
    {
        if self.posted == LAST {
            return Err(job);
        }
        let Some(slot) = self.free.pop() else {
            return Err(job);
        };
        let number = self.posted + 1;
        let word = SlotState::Posted(number).word();
        let words = &self.board.shared;
        let _ = words.exchange(&mut self.seat, slot, Some(Content::Job(job)));
        words.swap::<Post>(&mut self.seat, slot, word);
        self.posted = number;
        Ok(number)
    }

    /// The slot of the job that is posted next. None where each holds a job that is not collected.
    pub fn next_slot(&self) -> Option<usize> {
        self.free.last().copied()
    }

    /// Rings for a hand, and wakes one that sleeps.
    pub fn call_hand(&self) {
        self.bells.hands.ring_one();
    }

    // Looks at one slot, and collects what is finished there.
    fn collect_slot(&mut self, slot: usize) -> Option<(JobNumber, T::Outcome)>
        requires { slot < lead_slots self.old }
        ensures collected { MatchOption result
            ((found : ℕ)
            × ((n : ℕ) → found ≢ finished_word n)
            × (lead_view self.new ≡ having_read (lead_view self.old) ((slot, found) ∷ [])))
            (λ t. (lead_view self.new ≡ after_collect
            (having_read (lead_view self.old) ((slot, finished_word t.0) ∷ [])) t.0 t.1 slot)
            × Uncollected (lead_view self.old) t.0
            × ((j : T.Job) × HasPosted (lead_view self.old) t.0 j × T.answers j t.1)) }
        ensures slots { lead_slots self.new ≡ lead_slots self.old }
    {
        let words = &self.board.shared;
        let seen = words.load::<Seek>(&mut self.seat, slot);
        let SlotState::Finished(number) = SlotState::of_word(seen) else {
            return None;
        };
        words.compare_exchange::<Collect<T>>(&mut self.seat, slot, seen, 0);
        let content = words.exchange(&mut self.seat, slot, None);
        self.free.push_reserved(slot);
        Some((number, Content::into_outcome(content)))
    }

    /// Collects the outcome of a job, with its number: that of the first slot that shows one. It looks at each slot once at most, and waits for nobody.
    pub fn try_collect(&mut self) -> Option<(JobNumber, T::Outcome)>
        ensures collected { MatchOption result
            ((gained : List (ℕ × ℕ))
            × (lead_view self.new ≡ having_read (lead_view self.old) gained)
            × NoneFinished (lead_slots self.old) gained)
            (λ t. (gained : List (ℕ × ℕ)) × (slot : ℕ)
            × (lead_view self.new
            ≡ after_collect (having_read (lead_view self.old) gained) t.0 t.1 slot)
            × Uncollected (lead_view self.old) t.0
            × ((j : T.Job) × HasPosted (lead_view self.old) t.0 j × T.answers j t.1)
            × FoundOutcome slot t.0 gained) }
        ensures slots { lead_slots self.new ≡ lead_slots self.old }
    {
        for slot in 0..self.slots {
            if let Some(collected) = self.collect_slot(slot) {
                return Some(collected);
            }
        }
        None
    }

    /// Waits until it collects an outcome.
    pub fn collect_wait<R: Wait>(&mut self, rt: &R) -> (JobNumber, T::Outcome)
        requires { (n : ℕ) × (j : T.Job) × HasPosted (lead_view self.old) n j
            × Uncollected (lead_view self.old) n }
        ensures collected { (gained : List (ℕ × ℕ)) × (slot : ℕ)
            × (lead_view self.new
            ≡ after_collect (having_read (lead_view self.old) gained) result.0 result.1 slot)
            × Uncollected (lead_view self.old) result.0
            × ((j : T.Job) × HasPosted (lead_view self.old) result.0 j × T.answers j result.1) }
        ensures slots { lead_slots self.new ≡ lead_slots self.old }
    {
        for _ in rt.forever() {
            let heard = self.bells.lead.heard();
            if let Some(collected) = self.try_collect() {
                return collected;
            }
            self.bells.lead.sleep(rt, heard);
        }
        unreachable!()
    }

    /// The bell that rings when a job is done.
    pub fn bell(&self) -> &Bell
        ensures { result.now ≡ lead_bell self.now }
    {
        &self.bells.lead
    }

    /// Numbers rise from 1, what is collected was posted, and no more is collected than posted.
    pub fn prove_law(&self)
        ensures numbers { IsTally (lead_view self.now) }
        ensures counts { (length (lead_view self.now).collected
            ≤ length (lead_view self.now).posted)
            × (length (lead_view self.now).posted < 2 ^ 62) }
    {}

    /// Closes the board: hands that wait for a job wait no longer.
    pub fn close(&mut self)
        ensures closed { lead_view self.new ≡ after_close (lead_view self.old) }
        ensures slots { lead_slots self.new ≡ lead_slots self.old }
    {
        self.board
            .shared
            .swap::<Close>(&mut self.seat, self.slots, 1);
        self.bells.hands.ring_all();
    }
}
