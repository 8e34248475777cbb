// The head of a text of a state, and the lines of counts, read.

ghost use Rattle.std.specs.Prelude.{◌≡◌, ◌<◌, ◌≤◌, ◌^◌, ◌∷◌, ℕ, List, codes, map, IfOk};
ghost use Rattle.model.specs.state.State.{last_tick, most_passed_over};
ghost use Rattle.state_text.specs.LineWords.{head_words, count_words, AreLines};
ghost use Rattle.state_text.specs.Reading.{Gives, GivesBefore};

use crate::reading::fault::LineFault;
use crate::reading::lines::Lines;
use crate::reading::words::number_of;
use change_ticks::Tick;
use change_ticks::clock::LAST_TICK;
use std::alloc::Global;

// The greatest count of commands passed over.
const MOST_PASSED_OVER: u64 = 1 << 62;

// How many lines there are behind those that every text has.
#[derive(Clone, Copy)]
pub(crate) struct Head {
    // A line a system.
    pub(crate) systems: u64,
    // A line a condition.
    pub(crate) conditions: u64,
    // A line a slot.
    pub(crate) slots: u64,
}

// The first line.
pub(crate) fn read_head(alloc: Global, lines: &mut Lines<'_>) -> Result<Head, LineFault>
    ensures { (systems conditions slots : ℕ) (more : List (List (List ℕ)))
        → systems < 2 ^ 64 → conditions < 2 ^ 64 → slots < 2 ^ 64
        → AreLines (head_words systems conditions slots ∷ more) lines.old.rest.now
        → GivesBefore result (record {
          systems = systems;
          conditions = conditions;
          slots = slots;
        }) more lines.new.rest.now }
{
    head_of(&lines.words(alloc)?)
}

// The line of the clock, which stands at one of its ticks.
pub(crate) fn read_clock(alloc: Global, lines: &mut Lines<'_>) -> Result<Tick, LineFault>
    ensures least { IfOk result (λ clock. 1 ≤ clock) }
    ensures most { IfOk result (λ clock. clock ≤ last_tick) }
    ensures all { (clock : ℕ) (more : List (List (List ℕ))) → 1 ≤ clock → clock ≤ last_tick
        → AreLines (count_words (codes "clock") clock ∷ more) lines.old.rest.now
        → GivesBefore result clock more lines.new.rest.now }
{
    let tick = count_of(&lines.words(alloc)?, "clock")?;
    if tick == 0 || LAST_TICK < tick {
        return Err(LineFault::NoState);
    }
    Ok(tick)
}

// The line of the count of commands passed over.
pub(crate) fn read_passed_over(alloc: Global, lines: &mut Lines<'_>) -> Result<u64, LineFault>
    ensures most { IfOk result (λ count. count ≤ most_passed_over) }
    ensures all { (count : ℕ) (more : List (List (List ℕ))) → count ≤ most_passed_over
        → AreLines (count_words (codes "passed") count ∷ more) lines.old.rest.now
        → GivesBefore result count more lines.new.rest.now }
{
    let count = count_of(&lines.words(alloc)?, "passed")?;
    if MOST_PASSED_OVER < count {
        return Err(LineFault::NoState);
    }
    Ok(count)
}

// The counts of the first line.
fn head_of(words: &[&str]) -> Result<Head, LineFault>
    ensures { (systems conditions slots : ℕ) → systems < 2 ^ 64 → conditions < 2 ^ 64
        → slots < 2 ^ 64
        → map (λ word. word.now) words.now ≡ head_words systems conditions slots
        → Gives result (record {
          systems = systems;
          conditions = conditions;
          slots = slots;
        }) }
{
    let ["state", "1", systems, conditions, slots] = words else {
        return Err(LineFault::Outside);
    };
    Ok(Head {
        systems: number_of(systems)?,
        conditions: number_of(conditions)?,
        slots: number_of(slots)?,
    })
}

// The count of a line that begins with this word.
fn count_of(words: &[&str], name: &str) -> Result<u64, LineFault>
    ensures { (count : ℕ) → count < 2 ^ 64
        → map (λ word. word.now) words.now ≡ count_words name.now count → Gives result count }
{
    let [first, count] = words else {
        return Err(LineFault::Outside);
    };
    if *first != name {
        return Err(LineFault::Outside);
    }
    number_of(count)
}
