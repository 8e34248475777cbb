// Rows that stand one after the other in one archetype: their fields are read and written where the columns have them, in one go.

ghost use Rattle.std.specs.Prelude.{◌≡◌, ℕ, ◌+◌, ◌<◌, ◌≤◌, true, length, get_or};
ghost use Rattle.body.specs.Turns.{AreInTurn, AreInTurnAt};

use query_plan::{Row, Rows};

// Whether a row stands so many places behind a first one, in its archetype.
fn is_behind(first: Row, row: Row, by: usize) -> bool
    ensures archetype { result ≡ true → row.archetype ≡ first.archetype }
    ensures place { result ≡ true → row.place ≡ first.place + by }
{
    row.archetype == first.archetype
        && first.place <= row.place
        && (row.place - first.place) as usize == by
}

// How many rows from one on stand in turn, at the most so many.
pub(crate) fn in_turn(rows: &Rows, row: usize, most: usize) -> usize
    requires some { 0 < most }
    requires within { row + most ≤ length rows.now }
    ensures some { 0 < result }
    ensures most { result ≤ most }
    ensures turn { AreInTurn rows.now row result }
{
    if let Some(_archetype) = rows.archetype() {
        return most;
    }
    // Proves that numbers of rows fit.
    let _count = rows.len();
    let first = rows.at(row);
    let mut count = 1;
    while count < most {
        let next = rows.at(row + count);
        if !is_behind(first, next, count) {
            return count;
        }
        count += 1;
    }
    count
}

// How many of the rows with these numbers stand in turn, from the first on.
pub(crate) fn listed_in_turn(rows: &Rows, listed: &[u32]) -> usize
    requires some { 0 < length listed.now }
    requires within { (i : ℕ) → i < length listed.now → get_or listed.now i 0 < length rows.now }
    ensures some { 0 < result }
    ensures most { result ≤ length listed.now }
    ensures turn { AreInTurnAt rows.now listed.now result }
{
    let first = rows.at(listed[0] as usize);
    let mut count = 1;
    while count < listed.len() {
        let next = rows.at(listed[count] as usize);
        if !is_behind(first, next, count) {
            return count;
        }
        count += 1;
    }
    count
}

// How many rows are looked at to tell how many stand in turn.
const LOOKED_AT: usize = 128;

// From how many rows in turn on, one with another, they are read and written in one go.
pub(crate) const IN_TURN: usize = 4;

// From how many on nothing is gained by another order.
pub(crate) const LONG_TURN: usize = 16;

// How many rows stand in turn, one with another, where so many were looked at that stand in so many turns. Of one turn alone it isn't known
// how long it goes on.
fn mean_turn(rows: usize, turns: usize) -> usize
    requires { turns ≤ rows }
    ensures { 0 < result }
{
    if turns <= 1 { usize::MAX } else { rows / turns }
}

// How many rows stand in turn, one with another, as far as is looked: a guess, by which rows are read and written, and nothing more.
pub(crate) fn turn_length(rows: &Rows) -> usize
    ensures { 0 < result }
{
    let count = rows.len();
    let end = if count < LOOKED_AT { count } else { LOOKED_AT };
    let mut row = 0;
    let mut turns = 0;
    while row < end {
        row += in_turn(rows, row, end - row);
        turns += 1;
    }
    mean_turn(end, turns)
}

// The same of the rows with these numbers.
pub(crate) fn listed_turn_length(rows: &Rows, listed: &[u32]) -> usize
    requires { (i : ℕ) → i < length listed.now → get_or listed.now i 0 < length rows.now }
    ensures { 0 < result }
{
    let count = listed.len();
    let end = if count < LOOKED_AT { count } else { LOOKED_AT };
    let mut done = 0;
    let mut turns = 0;
    while done < end {
        done += listed_in_turn(rows, &listed[done..end]);
        turns += 1;
    }
    mean_turn(end, turns)
}
