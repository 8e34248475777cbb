// The table of a board: for each slot a word, and behind them one that is 1 once the board is closed.

use crate::rule::HandOff;
use crate::task::Task;
use crate::view::{Content, View};
use atomic_table::{Seat, Table};
use std::alloc::Global;

/// What lies in a slot.
pub type Slot<T> = Option<Content<<T as Task>::Job, <T as Task>::Outcome>>;

/// The deeds of a seat.
pub type Deeds<T> = View<<T as Task>::Job, <T as Task>::Outcome>;

/// A seat at the board.
pub type Place<T> = Seat<Slot<T>, Deeds<T>>;

/// The words and slots of a board.
pub type Words<T> = Table<Slot<T>, Deeds<T>, (), HandOff<T>, Global>;
