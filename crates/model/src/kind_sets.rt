// Lists of sets of kinds.

ghost use Rattle.std.specs.Prelude.{◌≡◌, ◌<◌, ◌≤◌, ◌↔◌, ℕ, [], length, get_or, IsTrue, IfOk, OnOk, OnErr};
ghost use Rattle.model.specs.declarations.Hierarchy.{IsRising};
ghost use Rattle.model.specs.state.KindSets.{AreSetNumbers, set_limit, with_number};

use std::alloc::{AllocError, Global};
use std::marker::Model;

/// Sets of kinds, each once, by their numbers: that of a set is the sum of 2^n over the numbers of its kinds. They rise, and each is less than
/// 1,048,576, which is 2^20.
#[derive(Drop)]
pub struct KindSets {
    numbers: Vec<u32>,
}

impl Model for KindSets {
    ghost use Rattle.std.specs.Prelude.{ℕ, List};
    ghost use Rattle.model.specs.state.KindSets.{AreSetNumbers};

    ghost Value = { List ℕ };

    ghost view = { λ sets. sets.numbers.items };

    ghost invariant = { λ sets. AreSetNumbers sets.numbers.items };
}

impl KindSets {
    /// None.
    pub fn none(alloc: Global) -> Self
        ensures { result ≡ [] }
    {
        KindSets {
            numbers: Vec::new(alloc),
        }
    }

    /// Adds the set of a number, where it isn't there. Where an allocation fails they stay as they were.
    pub fn add(&mut self, number: u32) -> Result<(), AllocError>
        requires { number < set_limit }
        ensures ok { OnOk result (self.new ≡ with_number number self.old) }
        ensures err { OnErr result (self.new ≡ self.old) }
    {
        add_number(&mut self.numbers, number)
    }

    /// A copy.
    pub fn copy(&self, alloc: Global) -> Result<Self, AllocError>
        ensures { IfOk result (λ sets. sets ≡ self.now) }
    {
        let numbers = Vec::from_slice(alloc, &self.numbers)?;
        Ok(KindSets { numbers })
    }

    /// Whether they are the same sets.
    pub fn is_same(&self, other: &KindSets) -> bool
        ensures { IsTrue result ↔ (self.now ≡ other.now) }
    {
        self.numbers.as_slice() == other.numbers.as_slice()
    }

    /// Their numbers.
    pub fn numbers(&self) -> &[u32]
        ensures { result.now ≡ self.now }
    {
        &self.numbers
    }

    /// The numbers rise, and none is past that of all kinds together.
    pub fn prove_law(&self)
        ensures { AreSetNumbers self.now }
    {
        let _ = &self.numbers;
    }
}

// How many of the first of rising ones are less than this number. It looks from the end: numbers are given in rising order for the most part.
fn lesser(numbers: &[u32], number: u32) -> usize
    requires { IsRising numbers.now }
    ensures within { result ≤ length numbers.now }
    ensures below { (k : ℕ) → k < result → get_or numbers.now k 0 < number }
    ensures least { result < length numbers.now → number ≤ get_or numbers.now result 0 }
{
    let mut place = numbers.len();
    while place > 0 && number <= numbers[place - 1] {
        place -= 1;
    }
    place
}

// Adds a number to rising ones, where it isn't there. Where an allocation fails they stay as they were.
fn add_number(numbers: &mut Vec<u32>, number: u32) -> Result<(), AllocError>
    requires { IsRising numbers.old.items }
    ensures ok { OnOk result (numbers.new.items ≡ with_number number numbers.old.items) }
    ensures err { OnErr result (numbers.new.items ≡ numbers.old.items) }
{
    let place = lesser(numbers, number);
    if place < numbers.len() && numbers[place] == number {
        return Ok(());
    }
    numbers.insert(place, number)?;
    Ok(())
}
