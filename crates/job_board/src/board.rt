// A new board.
ghost use Rattle.std.specs.Prelude.{◌≡◌, ℕ, List, [], ◌∷◌, length, IfOk};
ghost use mathlib.Core.Option.{some};
ghost use lib.ListN.{get_elem?};
ghost use Rattle.job_board.specs.Views.{opened, newcomer, having_read};
ghost use Rattle.job_board.specs.Ends.{lead_view, lead_slots, lead_table, hand_view, hand_slots, hand_table};

use crate::bells::Bells;
use crate::hand::Hand;
use crate::lead::Lead;
use crate::task::Task;
use crate::words::Words;
use atomic_table::Table;
use std::alloc::{AllocError, Global};
use std::sync::Arc;

/// A board with slots for jobs.
pub struct Board;

impl Board {
    /// The lead and the hands of a new board, on which nothing is posted. Each slot is the lead's. A hand has looked
    /// once whether the board is closed, and has done nothing more.
    pub fn new<T: Task>(
        alloc: Global,
        slots: usize,
        hands: usize,
    ) -> Result<(Lead<T>, Vec<Hand<T>>), AllocError>
        ensures lead { IfOk result (λ b. (lead_slots b.0 ≡ slots)
            × ((free : List ℕ) × (read : List (ℕ × ℕ)) × (lead_view b.0 ≡ opened free read))) }
        ensures count { IfOk result (λ b. length b.1.items ≡ hands) }
        ensures hands { IfOk result (λ b. (at : ℕ) (h : _) → get_elem? b.1.items at ≡ some h
            → (hand_table h ≡ lead_table b.0) × (hand_slots h ≡ slots)
            × ((found : ℕ) × (hand_view h ≡ having_read newcomer ((slots, found) ∷ [])))) }
    {
        let Some(count) = slots.checked_add(1) else {
            return Err(AllocError);
        };
        let words = Vec::from_elem(alloc, 0u64, count)?;
        let (table, seat): (Words<T>, _) = Table::vacant(alloc, words.as_slice(), slots, &())?;
        let board = Arc::new(alloc, table)?;
        let bells = Arc::new(alloc, Bells::default())?;
        let mut all = Vec::with_capacity(alloc, hands)?;
        for made in 0..hands {
            let words = Arc::try_clone(&board)?;
            let rung = Arc::try_clone(&bells)?;
            let hand = Hand::join(alloc, words, rung, slots)?;
            all.push_reserved(hand);
        }
        let lead = Lead::open(alloc, board, bells, seat, slots)?;
        Ok((lead, all))
    }
}
