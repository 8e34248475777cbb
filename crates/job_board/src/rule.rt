// What holds of a board between any two steps.
ghost use Rattle.std.specs.Prelude.{length};
ghost use Rattle.job_board.specs.HandsOff.{HandsOff};
ghost use Rattle.job_board.specs.Board.{ClosingFits};

use crate::task::Task;
use crate::view::{Content, View};
use atomic_table::TableRule;
use std::marker::PhantomData;

/// The rule of a board: each job is taken and collected at most once, and the outcome that is collected answers it.
pub struct HandOff<T> {
    task: PhantomData<T>,
}

impl<T: Task> TableRule<Option<Content<T::Job, T::Outcome>>, View<T::Job, T::Outcome>, ()>
    for HandOff<T> {
    ghost use Rattle.job_board.specs.Views.{opener};
    ghost use Rattle.job_board.specs.Board.{IsBoard};

    ghost holds = { λ _. IsBoard T.answers };

    ghost first = { λ _. opener };
}

/// Between any two steps of its seats a board hands jobs on so. No number is posted twice. A taken job was posted
/// under its number and is taken once. A done job was taken by the hand that did it. A collected one was done, is
/// collected once, and answers the job that was posted under its number. Only the lead closes the board, and the word
/// behind those of the slots is 1 exactly where it has. So a seat that has read 1 there has read that the board is
/// closed.
pub fn hand_off_holds<T: Task>()
    ensures jobs { (s : _)
        → ⟦<HandOff<T> as TableRule<Option<Content<T::Job, T::Outcome>>, View<T::Job, T::Outcome>, ()>>⟧.holds tt s
        → HandsOff T.answers (length s.homes) s.views }
    ensures closing { (s : _)
        → ⟦<HandOff<T> as TableRule<Option<Content<T::Job, T::Outcome>>, View<T::Job, T::Outcome>, ()>>⟧.holds tt s
        → ClosingFits s.views s.words (length s.homes) }
{}
