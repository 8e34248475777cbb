// What is used again: lists and boxes that nobody reads any more.

ghost use Rattle.std.specs.Prelude.{◌≡◌, ◌-◌, []};
ghost use Rattle.query_plan.specs.Spares.{IsTaken, IsGiven};

use std::alloc::Global;
use std::marker::Model;

/// Values that nobody reads any more, kept for who needs one. Contracts see how many there are.
#[derive(Drop)]
pub struct Spares<T: Drop> {
    kept: Vec<T>,
}

impl<T: Drop> Model for Spares<T> {
    ghost use Rattle.std.specs.Prelude.{ℕ, length};

    ghost Value = { ℕ };

    ghost view = { λ s. length s.kept.items };
}

impl<T: Drop> Spares<T> {
    /// None are kept. Allocates nothing.
    pub fn new(alloc: Global) -> Self
        ensures { result ≡ 0 }
    {
        Spares {
            kept: Vec::new(alloc),
        }
    }

    /// The one that was given last, where one is kept.
    pub fn take(&mut self) -> Option<T>
        ensures { IsTaken self.old result self.new }
    {
        self.kept.pop()
    }

    /// Keeps one more. Where an allocation fails for its place it is dropped.
    pub fn give(&mut self, spare: T)
        ensures { IsGiven self.old self.new }
    {
        let _kept = self.kept.push(spare);
    }
}

/// A list without elements: one of these, emptied, where one is kept.
pub fn take_list<T: Drop>(spares: &mut Spares<Vec<T>>, alloc: Global) -> Vec<T>
    ensures empty { result.items ≡ [] }
    ensures fewer { spares.new ≡ spares.old - 1 }
{
    let Some(mut list) = spares.take() else {
        return Vec::new(alloc);
    };
    list.clear();
    list
}

/// Keeps a list that has memory of its own.
pub fn give_list<T: Drop>(spares: &mut Spares<Vec<T>>, list: Vec<T>)
    ensures { IsGiven spares.old spares.new }
{
    if list.capacity() > 0 {
        spares.give(list);
    }
}
