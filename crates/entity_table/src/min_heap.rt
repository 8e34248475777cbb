// Numbers that come out the least first.

ghost use Rattle.std.specs.Prelude.{◌≡◌, ◌<◌, ◌≤◌, [], ◌∷◌, length, IfOk, OnOk, MatchOption};
ghost use Rattle.entity_table.specs.Rising.{insert_rising};

use std::alloc::{AllocError, Global};
use std::cmp::Reverse;
use std::collections::BinaryHeap;
use std::marker::Model;

/// Numbers, of which the least comes out first. Contracts see them rising, and for how many there is room. A number is put in and
/// taken out in a time that grows with the logarithm of how many there are.
#[derive(Drop)]
pub(crate) struct MinHeap {
    heap: BinaryHeap<Reverse<u32>>,
}

impl Model for MinHeap {
    ghost use Rattle.std.specs.BinaryHeap.{heap_items, heap_capacity, IsHeap};
    ghost use Rattle.entity_table.specs.Rising.{Numbers, rising_of, values_of, reverse_cmp};

    ghost Value = { Numbers };

    ghost view = { λ q. record {
      rising = rising_of (values_of (heap_items q.heap));
      room = heap_capacity q.heap;
    } };

    ghost invariant = { λ q. IsHeap reverse_cmp (heap_items q.heap) };
}

impl MinHeap {
    /// No numbers.
    pub fn new(alloc: Global) -> Self
        ensures { result.rising ≡ [] }
    {
        MinHeap {
            heap: BinaryHeap::new(alloc),
        }
    }

    /// The same numbers, with room for `room` in all.
    pub fn copy(&self, alloc: Global, room: usize) -> Result<Self, AllocError>
        ensures same { IfOk result (λ copy. copy.rising ≡ self.now.rising) }
        ensures room { IfOk result (λ copy. room ≤ copy.room) }
    {
        let mut numbers = Vec::with_capacity(alloc, room)?;
        numbers.extend_from_slice(self.heap.as_slice())?;
        let mut copy = MinHeap {
            heap: BinaryHeap::from(numbers),
        };
        copy.make_room(room)?;
        Ok(copy)
    }

    /// How many numbers there are.
    pub fn len(&self) -> usize
        ensures { result ≡ length self.now.rising }
    {
        self.heap.len()
    }

    /// Makes room for `count` numbers in all.
    pub fn make_room(&mut self, count: usize) -> Result<(), AllocError>
        ensures same { self.new.rising ≡ self.old.rising }
        ensures room { self.old.room ≤ self.new.room }
        ensures ok { OnOk result (count ≤ self.new.room) }
    {
        let missing = count.saturating_sub(self.heap.len());
        self.heap.reserve(missing)
    }

    /// Puts a number in. There is room for it, so this allocates nothing.
    pub fn push(&mut self, number: u32)
        requires { length self.old.rising < self.old.room }
        ensures numbers { self.new.rising ≡ insert_rising number self.old.rising }
        ensures room { self.old.room ≤ self.new.room }
    {
        let _ = self.heap.push(Reverse(number));
    }

    /// Takes the least number out.
    pub fn pop(&mut self) -> Option<u32>
        ensures least { MatchOption result ((self.old.rising ≡ []) × (self.new.rising ≡ []))
            (λ least. self.old.rising ≡ least ∷ self.new.rising) }
        ensures room { self.new.room ≡ self.old.room }
    {
        let least = self.heap.pop()?;
        Some(least.0)
    }
}
