// Counts that go down.

ghost use Rattle.std.specs.Prelude.{ℕ, ◌≡◌, ◌≢◌, ◌+◌, ◌<◌, ◌↔◌, true, false, cond, length, get_or, take, IsTrue, IfOk, OnOk, OnErr};
ghost use Rattle.model.specs.Lists.{has};

use std::alloc::{AllocError, Global};
use std::marker::Model;

/// Counts by number. Contracts see the list; past its end nothing is left of a count.
#[derive(Drop)]
pub(crate) struct Counts {
    counts: Vec<u32>,
}

impl Model for Counts {
    ghost use Rattle.std.specs.Prelude.{ℕ, List};

    ghost Value = { List ℕ };

    ghost view = { λ c. c.counts.items };
}

impl Counts {
    /// These counts.
    pub(crate) fn new(alloc: Global, counts: &[u32]) -> Result<Self, AllocError>
        ensures { IfOk result (λ made. made ≡ counts.now) }
    {
        Ok(Counts {
            counts: Vec::from_slice(alloc, counts)?,
        })
    }

    // How many there are.
    fn len(&self) -> usize
        ensures { result ≡ length self.now }
    {
        self.counts.len()
    }

    // Takes on these counts, of which there are as many.
    fn set(&mut self, counts: &[u32])
        requires { length self.old ≡ length counts.now }
        ensures { self.new ≡ counts.now }
    {
        self.counts.copy_from_slice(counts);
    }

    /// Whether nothing is left of the count.
    pub(crate) fn is_none(&self, number: u32) -> bool
        ensures { IsTrue result ↔ get_or self.now number 0 ≡ 0 }
    {
        match self.counts.get(number as usize) {
            Some(count) => *count == 0,
            None => true,
        }
    }

    /// Takes one from the count, of which something is left.
    pub(crate) fn lower(&mut self, number: u32)
        requires { 0 < get_or self.old number 0 }
        ensures lowered { get_or self.new number 0 + 1 ≡ get_or self.old number 0 }
        ensures rest { (n : ℕ) → n ≢ number → get_or self.new n 0 ≡ get_or self.old n 0 }
    {
        self.counts[number as usize] -= 1;
    }

    /// Takes one from each of the counts of these numbers, of which something is left. No number stands there twice.
    pub(crate) fn lower_each(&mut self, numbers: &[u32])
        requires above { (n : ℕ) → has n numbers.now ≡ true → 0 < get_or self.old n 0 }
        requires once { (i : ℕ) → i < length numbers.now
            → has (get_or numbers.now i 0) (take i numbers.now) ≡ false }
        ensures { (n : ℕ)
            → get_or self.new n 0 + cond (has n numbers.now) 1 0 ≡ get_or self.old n 0 }
    {
        for number in numbers {
            self.lower(*number);
        }
    }
}

/// Counts begin again with these. Memory is taken only where there were not as many. After an error all are as they were.
pub(crate) fn begin_again(
    alloc: Global,
    waits: &mut Counts,
    left: &mut Counts,
    first_waits: &[u32],
    first_left: &[u32],
) -> Result<(), AllocError>
    ensures waits { OnOk result (waits.new ≡ first_waits.now) }
    ensures left { OnOk result (left.new ≡ first_left.now) }
    ensures unchanged { OnErr result ((waits.new ≡ waits.old) × (left.new ≡ left.old)) }
{
    if waits.len() == first_waits.len() && left.len() == first_left.len() {
        waits.set(first_waits);
        left.set(first_left);
        return Ok(());
    }
    let made = Counts::new(alloc, first_waits)?;
    *left = Counts::new(alloc, first_left)?;
    *waits = made;
    Ok(())
}
