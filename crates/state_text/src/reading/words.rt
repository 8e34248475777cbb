// Words of lines of a state.

ghost use Rattle.std.specs.Prelude.{◌≡◌, ◌<◌, ◌≤◌, ◌^◌, ℕ, ℤ, List, map, FitsSigned, IfOk};
ghost use Rattle.std.specs.Int.{w64};
ghost use Rattle.std.specs.Fmt.{decimal, signed_decimal};
ghost use Rattle.std.specs.List.{AllByRecursion};
ghost use Rattle.state_text.specs.Reading.{Gives, UnlessMemory};

use crate::reading::fault::LineFault;
use change_ticks::Tick;
use parsing::integer::read_integer;
use std::alloc::Global;
use tokens::long_number::read_long_number;

// The number that a word is.
pub(crate) fn number_of(word: &str) -> Result<u64, LineFault>
    ensures { (n : ℕ) → n < 2 ^ 64 → word.now ≡ decimal n → Gives result n }
{
    read_long_number(word).ok_or(LineFault::Outside)
}

// The integer that a word is.
pub(crate) fn integer_of(word: &str) -> Result<i64, LineFault>
    ensures { (z : ℤ) → FitsSigned w64 z → word.now ≡ signed_decimal z → Gives result z }
{
    read_integer(word).ok_or(LineFault::Outside)
}

// The tick that a word is, which isn't above the clock.
pub(crate) fn tick_of(word: &str, clock: Tick) -> Result<Tick, LineFault>
    ensures past { IfOk result (λ tick. tick ≤ clock) }
    ensures all { (tick : ℕ) → tick ≤ clock → word.now ≡ decimal tick → Gives result tick }
{
    let tick = number_of(word)?;
    if clock < tick {
        return Err(LineFault::NoState);
    }
    Ok(tick)
}

// The numbers that words are.
pub(crate) fn numbers_of(alloc: Global, words: &[&str]) -> Result<Vec<u64>, LineFault>
    ensures { (ns : List ℕ) → AllByRecursion (λ n. n < 2 ^ 64) ns
        → map (λ word. word.now) words.now ≡ map decimal ns
        → UnlessMemory result (λ numbers. numbers.items ≡ ns) }
{
    let mut numbers = Vec::with_capacity(alloc, words.len())?;
    for word in words {
        numbers.push_reserved(number_of(word)?);
    }
    Ok(numbers)
}

// The integers that words are.
pub(crate) fn integers_of(alloc: Global, words: &[&str]) -> Result<Vec<i64>, LineFault>
    ensures { (zs : List ℤ) → AllByRecursion (FitsSigned w64) zs
        → map (λ word. word.now) words.now ≡ map signed_decimal zs
        → UnlessMemory result (λ integers. integers.items ≡ zs) }
{
    let mut integers = Vec::with_capacity(alloc, words.len())?;
    for word in words {
        integers.push_reserved(integer_of(word)?);
    }
    Ok(integers)
}
