// A list with a gap: numbers are put in and taken out at the gap, so that an edit costs what lies between its place and that of the edit
// before. Edits at rising places, or at falling ones, cost no more together than the list is long.

ghost use Rattle.std.specs.List.{insert, remove};
ghost use Rattle.std.specs.Prelude.{◌≡◌, ◌+◌, ◌<◌, ◌≤◌, ◌^◌, ◌++◌, ℕ, [], length, reverse, get_or, set, vec_len, vec_capacity, IfOk, OnOk};
ghost use Rattle.column_store.specs.RowOrder.{numbers_from, rows_in};

use crate::row_order::{RowOrder, number_at};
use std::alloc::{AllocError, Global};
use std::marker::Model;

// Numbers, in two lists: those before the gap, and those behind it, the last one first.
#[derive(Drop)]
pub(crate) struct GapList {
    front: Vec<u32>,
    back: Vec<u32>,
    // The place at which a number was replaced last.
    replaced: usize,
}

impl Model for GapList {
    ghost use Rattle.std.specs.Prelude.{◌+◌, ◌≤◌, ◌++◌, min, length, reverse, vec_capacity};
    ghost use Rattle.column_store.specs.EntityList.{GapListValue};

    ghost Value = { GapListValue };

    ghost view = { λ l. record {
      items = l.front.items
          ++ reverse l.back.items;
      room = min (vec_capacity l.front) (vec_capacity l.back);
    } };

    ghost invariant = { λ l. length l.front.items + length l.back.items
        ≤ min (vec_capacity l.front) (vec_capacity l.back) };
}

// The same numbers in a list with as much room.
fn copied_with_room(alloc: Global, numbers: &Vec<u32>) -> Result<Vec<u32>, AllocError>
    ensures items { IfOk result (λ copy. copy.items ≡ numbers.now.items) }
    ensures room { IfOk result (λ copy. vec_capacity numbers.now ≤ vec_capacity copy) }
{
    let mut copy = Vec::with_capacity(alloc, numbers.capacity())?;
    copy.extend_from_slice(numbers.as_slice())?;
    Ok(copy)
}

// Moves the gap to a place before it.
fn move_back(front: &mut Vec<u32>, back: &mut Vec<u32>, place: usize)
    requires room { vec_len front.old + vec_len back.old ≤ vec_capacity back.old }
    ensures items { front.new.items ++ reverse back.new.items
        ≡ front.old.items ++ reverse back.old.items }
    ensures place { place ≤ vec_len front.old → vec_len front.new ≡ place }
    ensures before { vec_len front.old < place → vec_len front.new ≡ vec_len front.old }
    ensures many { vec_len front.new + vec_len back.new ≡ vec_len front.old + vec_len back.old }
    ensures front_room { vec_capacity front.new ≡ vec_capacity front.old }
    ensures back_room { vec_capacity back.new ≡ vec_capacity back.old }
{
    while front.len() > place {
        let Some(number) = front.pop() else {
            unreachable!();
        };
        back.push_reserved(number);
    }
}

// Moves the gap to a place.
fn move_gap(front: &mut Vec<u32>, back: &mut Vec<u32>, place: usize)
    requires within { place ≤ vec_len front.old + vec_len back.old }
    requires front_room { vec_len front.old + vec_len back.old ≤ vec_capacity front.old }
    requires back_room { vec_len front.old + vec_len back.old ≤ vec_capacity back.old }
    ensures items { front.new.items ++ reverse back.new.items
        ≡ front.old.items ++ reverse back.old.items }
    ensures place { vec_len front.new ≡ place }
    ensures many { vec_len front.new + vec_len back.new ≡ vec_len front.old + vec_len back.old }
    ensures front_room { vec_capacity front.new ≡ vec_capacity front.old }
    ensures back_room { vec_capacity back.new ≡ vec_capacity back.old }
{
    move_back(front, back, place);
    while front.len() < place {
        let Some(number) = back.pop() else {
            unreachable!();
        };
        front.push_reserved(number);
    }
}

impl GapList {
    // No numbers.
    pub(crate) fn new(alloc: Global) -> Self
        ensures { result ≡ record { items = []; room = 0 } }
    {
        GapList {
            front: Vec::new(alloc),
            back: Vec::new(alloc),
            replaced: 0,
        }
    }

    // The same numbers, with as much room.
    pub(crate) fn copy(&self, alloc: Global) -> Result<Self, AllocError>
        ensures items { IfOk result (λ copy. copy.items ≡ self.now.items) }
        ensures room { IfOk result (λ copy. self.now.room ≤ copy.room) }
    {
        let front = copied_with_room(alloc, &self.front)?;
        let back = copied_with_room(alloc, &self.back)?;
        Ok(GapList {
            front,
            back,
            replaced: self.replaced,
        })
    }

    // How many numbers there are.
    pub(crate) fn len(&self) -> usize
        ensures { result ≡ length self.now.items }
    {
        self.front.len() + self.back.len()
    }

    // The count of numbers fits.
    fn prove_count(&self)
        ensures { length self.now.items < 2 ^ 64 }
    {
        self.len();
    }

    // The place of the gap, near which the next edit mostly is.
    pub(crate) fn gap(&self) -> usize
        ensures { result ≤ length self.now.items }
    {
        self.prove_count();
        self.front.len()
    }

    // The place at which a number was replaced last, near which the next one mostly is.
    pub(crate) fn replaced(&self) -> usize
        ensures { result ≤ length self.now.items }
    {
        self.replaced.min(self.len())
    }

    // Makes room for so many numbers in all.
    pub(crate) fn reserve(&mut self, count: usize) -> Result<(), AllocError>
        requires { length self.old.items ≤ count }
        ensures same { self.new ≡ record self.old { room = self.new.room } }
        ensures room { self.old.room ≤ self.new.room }
        ensures ok { OnOk result (count ≤ self.new.room) }
    {
        let front_missing = count - self.front.len();
        let back_missing = count - self.back.len();
        self.front.reserve(front_missing)?;
        self.back.reserve(back_missing)
    }

    // The numbers, as the order of rows.
    pub(crate) fn order(&self) -> RowOrder<'_>
        ensures { (count : ℕ) → rows_in count result ≡ self.now.items }
    {
        RowOrder::Listed(self.front.as_slice(), self.back.as_slice())
    }

    // The number at a place.
    pub(crate) fn at(&self, place: usize) -> u32
        requires { place < length self.now.items }
        ensures { result ≡ get_or self.now.items place 0 }
    {
        number_at(&self.front, &self.back, place)
    }

    // Has the numbers from 0 up to a count, for which there is room, in place of its own.
    pub(crate) fn count_up(&mut self, count: usize)
        requires room { count ≤ self.old.room }
        requires few { count < 2 ^ 32 }
        ensures { self.new ≡ record self.old { items = numbers_from 0 count } }
    {
        self.back.clear();
        list_up(&mut self.front, count);
    }

    // Replaces the number at a place.
    pub(crate) fn set(&mut self, place: usize, number: u32)
        requires { place < length self.old.items }
        ensures { self.new ≡ record self.old { items = set self.old.items place number } }
    {
        self.replaced = place;
        let count = self.front.len();
        if place < count {
            self.front[place] = number;
            return;
        }
        let behind = self.back.len() - 1 - (place - count);
        self.back[behind] = number;
    }

    // Puts a number in at a place, where there is room.
    pub(crate) fn insert(&mut self, place: usize, number: u32)
        requires within { place ≤ length self.old.items }
        requires room { length self.old.items < self.old.room }
        ensures { self.new ≡ record self.old { items = insert self.old.items place number } }
    {
        move_gap(&mut self.front, &mut self.back, place);
        self.front.push_reserved(number);
    }

    // Takes the number at a place out.
    pub(crate) fn remove(&mut self, place: usize)
        requires { place < length self.old.items }
        ensures { self.new ≡ record self.old { items = remove self.old.items place } }
    {
        move_gap(&mut self.front, &mut self.back, place + 1);
        self.front.pop();
    }
}

// Lists the numbers from 0 up to a count, where there is room for them.
fn list_up(numbers: &mut Vec<u32>, count: usize)
    requires room { count ≤ vec_capacity numbers.old }
    requires few { count < 2 ^ 32 }
    ensures numbers { numbers.new.items ≡ numbers_from 0 count }
    ensures many { vec_len numbers.new ≡ count }
    ensures room { vec_capacity numbers.new ≡ vec_capacity numbers.old }
{
    numbers.clear();
    for row in 0..count {
        numbers.push_reserved(row as u32);
    }
}
