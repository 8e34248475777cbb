// What the word of a slot says.
ghost use Rattle.std.specs.Prelude.{◌≡◌};
ghost use Rattle.job_board.specs.Words.{Shows, word_of, IsSmall};

use crate::task::JobNumber;

/// How far the job in a slot is.
#[derive(Clone, Copy)]
pub enum SlotState {
    /// There is no job in it.
    Free,
    /// The job waits.
    Posted(JobNumber),
    /// A hand has taken it.
    Taken(JobNumber),
    /// Its outcome lies in the slot.
    Finished(JobNumber),
}

impl SlotState {
    /// What a word says.
    pub fn of_word(word: u64) -> SlotState
        ensures { Shows word result }
    {
        let number = word / 4;
        match word % 4 {
            1 => SlotState::Posted(number),
            2 => SlotState::Taken(number),
            3 => SlotState::Finished(number),
            _ => SlotState::Free,
        }
    }

    /// The word that says it.
    pub fn word(self) -> u64
        requires { IsSmall self }
        ensures { result ≡ word_of self }
    {
        match self {
            SlotState::Free => 0,
            SlotState::Posted(number) => 4 * number + 1,
            SlotState::Taken(number) => 4 * number + 2,
            SlotState::Finished(number) => 4 * number + 3,
        }
    }
}
