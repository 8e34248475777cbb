// Sets of numbers below a bound: one bit for each number, 64 to a word, so that two sets are compared a word at a time.

ghost use Rattle.std.specs.Prelude.{◌≡◌, ◌<◌, ◌+◌, ◌/◌, ◌↔◌, ◌||◌, ◌==◌, ℕ, true, false, length, IsTrue, IfOk};
ghost use Rattle.number_set.specs.Members.{contains, HasNone, SharesOnly};

use std::alloc::{AllocError, Global};
use std::marker::Model;

/// How many numbers a word holds.
const BITS: u32 = 64;

/// A set of numbers below a bound that is fixed when it is made. Contracts see its words, and its members by `contains`.
pub struct NumberSet {
    words: Vec<u64>,
}

// One function drops it wherever it is let go.
impl Drop for NumberSet {
    fn drop(self) {
        let NumberSet { words: _ } = self;
    }
}

impl Model for NumberSet {
    ghost use Rattle.std.specs.Prelude.{ℕ, List};

    ghost Value = { List ℕ };

    ghost view = { λ s. s.words.items };
}

impl NumberSet {
    /// The empty set, with room for the numbers up to the bound.
    pub fn new(alloc: Global, bound: u32) -> Result<Self, AllocError>
        ensures room { IfOk result (λ set. length set ≡ bound / 64 + 1) }
        ensures empty { IfOk result (λ set. (n : ℕ) → contains set n ≡ false) }
    {
        let words = vec![in alloc; 0u64; (bound / BITS) as usize + 1]?;
        Ok(NumberSet { words })
    }

    /// Whether the number is a member. No number that there is no room for is one.
    pub fn contains(&self, number: u32) -> bool
        ensures { result ≡ contains self.now number }
    {
        holds(self.words.as_slice(), number)
    }

    /// Whether no number is a member.
    pub fn is_empty(&self) -> bool
        ensures { IsTrue result ↔ HasNone self.now }
    {
        are_empty(self.words.as_slice())
    }

    /// Makes the number a member. Asks that there is room for it.
    pub fn insert(&mut self, number: u32)
        requires { number / 64 < length self.old }
        ensures room { length self.new ≡ length self.old }
        ensures members { (n : ℕ) → contains self.new n ≡ ((number == n) || contains self.old n) }
    {
        put(self.words.as_mut_slice(), number);
    }

    /// A set with the same room and the same members.
    pub fn copy(&self, alloc: Global) -> Result<Self, AllocError>
        ensures { IfOk result (λ set. set ≡ self.now) }
    {
        let words = Vec::from_slice(alloc, self.words.as_slice())?;
        Ok(NumberSet { words })
    }

    /// Takes out every member. The room stays.
    pub fn clear(&mut self)
        ensures room { length self.new ≡ length self.old }
        ensures empty { (n : ℕ) → contains self.new n ≡ false }
    {
        self.words.fill(0);
    }

    /// Whether each number that is a member of both this set and the other is one of the allowed. All have the same room.
    pub fn shares_only(&self, other: &NumberSet, allowed: &NumberSet) -> bool
        requires other { length self.now ≡ length other.now }
        requires allowed { length self.now ≡ length allowed.now }
        ensures { IsTrue result ↔ SharesOnly self.now other.now allowed.now }
    {
        share_only(
            self.words.as_slice(),
            other.words.as_slice(),
            allowed.words.as_slice(),
        )
    }
}

// Whether the bit of the number is set.
fn holds(words: &[u64], number: u32) -> bool
    ensures { result ≡ contains words.now number }
{
    match words.get((number / BITS) as usize) {
        Some(word) => (*word >> (number % BITS)) & 1 == 1,
        None => false,
    }
}

// Sets the bit of the number.
fn put(words: &mut [u64], number: u32)
    requires { number / 64 < length words.old }
    ensures { (n : ℕ) → contains words.new n ≡ ((number == n) || contains words.old n) }
{
    let word = (number / BITS) as usize;
    words[word] = words[word] | (1 << (number % BITS));
}

// Whether no bit is set.
fn are_empty(words: &[u64]) -> bool
    ensures { IsTrue result ↔ HasNone words.now }
{
    for index in 0..words.len() {
        if words[index] != 0 {
            return false;
        }
    }
    true
}

// Whether each bit that is in the first and the second words is one of the third.
fn share_only(first: &[u64], second: &[u64], third: &[u64]) -> bool
    requires second { length first.now ≡ length second.now }
    requires third { length first.now ≡ length third.now }
    ensures { IsTrue result ↔ SharesOnly first.now second.now third.now }
{
    for index in 0..first.len() {
        let shared = first[index] & second[index];
        if shared & third[index] != shared {
            return false;
        }
    }
    true
}
