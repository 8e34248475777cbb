// The kept events of one kind.

ghost use Rattle.std.specs.Prelude.{◌≡◌, ◌↔◌, ◌++◌, ◌≤◌, ◌+◌, length, true, IsErrOf, IfOk, OnOk, OnErr};
ghost use Rattle.model.specs.state.State.{empty_queue, last_tick};
ghost use Rattle.model.specs.state.Events.{send, send_all, can_send, unread, updated_queue};
ghost use Rattle.model.specs.state.Shape.{IsQueue};
ghost use Rattle.event_buffers.specs.Queue.{queue_of_parts, values_from};

use std::alloc::{AllocError, Global};
use std::marker::Model;
use std::mem;
use thiserror::Error;

/// The first event number that is not given, 2^62.
pub const NUMBER_LIMIT: u64 = 4_611_686_018_427_387_904;

/// Why an event is not sent.
#[derive(Clone, Copy, PartialEq, Eq, Debug, Error)]
pub enum SendFault {
    /// Every number below the limit is given.
    #[error("the event numbers are spent")]
    NumbersSpent,
    /// An allocation failed.
    #[error("an allocation fails")]
    Memory,
}

/// The events that a reader has not read, oldest first: those of the older buffer, then those of the newer one.
#[derive(Clone, Copy)]
pub struct Unread<'a> {
    /// Their values in the older buffer.
    pub older: &'a [i64],
    /// Their values in the newer buffer.
    pub newer: &'a [i64],
}

/// The kept events of one kind. Contracts see their numbers and values, where the newer buffer begins, and the next number.
/// Room is used again: an update gives nothing back.
#[derive(Drop)]
pub struct Queue {
    first: u64,
    older: Vec<i64>,
    newer: Vec<i64>,
}

impl Model for Queue {
    ghost use Rattle.std.specs.Prelude.{◌≤◌, ◌+◌, length};
    ghost use Rattle.model.specs.state.State.{EventQueue, last_tick};

    ghost Value = { EventQueue };

    ghost use Rattle.event_buffers.specs.Queue.{queue_of_parts};

    ghost view = { λ q. queue_of_parts q.first q.older.items q.newer.items };

    ghost invariant = { λ q. q.first + length q.older.items + length q.newer.items ≤ last_tick };
}

impl Queue {
    /// The queue of which no event was sent.
    pub fn new(alloc: Global) -> Self
        ensures { result ≡ empty_queue }
    {
        Queue {
            first: 0,
            older: Vec::new(alloc),
            newer: Vec::new(alloc),
        }
    }

    /// The queue of these values, of which the first older one has this number: a queue is built again from one that was written down.
    pub fn of(first: u64, older: Vec<i64>, newer: Vec<i64>) -> Self
        requires { first + length older.items + length newer.items ≤ last_tick }
        ensures { result ≡ queue_of_parts first older.items newer.items }
    {
        Queue {
            first,
            older,
            newer,
        }
    }

    /// The same queue once more. Where an allocation fails there is no copy.
    pub fn copy(&self, alloc: Global) -> Result<Self, AllocError>
        ensures { IfOk result (λ copy. copy ≡ self.now) }
    {
        let older = Vec::from_slice(alloc, self.older.as_slice())?;
        let newer = Vec::from_slice(alloc, self.newer.as_slice())?;
        Ok(Queue {
            first: self.first,
            older,
            newer,
        })
    }

    /// What holds of every queue: the kept events have the last numbers given.
    pub fn prove_shape(&self)
        ensures { IsQueue self.now }
    {
        let _ = &self.older;
    }

    /// The number of the next event.
    pub fn next(&self) -> u64
        ensures value { result ≡ self.now.next }
        ensures most { result ≤ last_tick }
    {
        self.first + self.older.len() as u64 + self.newer.len() as u64
    }

    /// The number at which the newer buffer begins.
    pub fn newer(&self) -> u64
        ensures { result ≡ self.now.newer }
    {
        self.first + self.older.len() as u64
    }

    /// Sends an event: it is kept in the newer buffer, at the next number. A refused one changes nothing.
    pub fn send(&mut self, value: i64) -> Result<(), SendFault>
        ensures ok { OnOk result (self.new ≡ send value self.old) }
        ensures spent { IsErrOf result SendFault.NumbersSpent ↔ (self.old.next ≡ last_tick) }
        ensures err { OnErr result (self.new ≡ self.old) }
    {
        if self.next() == NUMBER_LIMIT {
            return Err(SendFault::NumbersSpent);
        }
        match self.newer.push(value) {
            Ok(()) => Ok(()),
            Err(_) => Err(SendFault::Memory),
        }
    }

    /// Whether events with these values get numbers.
    pub fn can_send(&self, values: &[i64]) -> bool
        ensures { result ≡ can_send values.now self.now }
    {
        values.len() as u64 <= NUMBER_LIMIT - self.next()
    }

    // Sends events that all get numbers, in order. Where an allocation fails none is sent.
    pub(crate) fn send_numbered(&mut self, values: &[i64]) -> Result<(), AllocError>
        requires { can_send values.now self.old ≡ true }
        ensures ok { OnOk result (self.new ≡ send_all values.now self.old) }
        ensures err { OnErr result (self.new ≡ self.old) }
    {
        self.newer.extend_from_slice(values)
    }

    /// The kept events from a cursor on. Allocates nothing.
    pub fn unread(&self, cursor: u64) -> Unread<'_>
        ensures { result.older.now ++ result.newer.now ≡ unread self.now cursor }
    {
        let begin = self.first + self.older.len() as u64;
        Unread {
            older: from(self.older.as_slice(), self.first, cursor),
            newer: from(self.newer.as_slice(), begin, cursor),
        }
    }

    /// Drops the older buffer and makes the newer one the older. Allocates nothing and gives none back.
    pub fn update(&mut self)
        ensures { self.new ≡ updated_queue self.old }
    {
        let Queue {
            first,
            older,
            newer,
        } = self;
        *first += older.len() as u64;
        older.clear();
        mem::swap(older, newer);
    }
}

// The values from a cursor on, where the first has a number.
fn from(values: &[i64], first: u64, cursor: u64) -> &[i64]
    requires { first + length values.now ≤ last_tick }
    ensures { result.now ≡ values_from first values.now cursor }
{
    let passed = cursor.saturating_sub(first).min(values.len() as u64) as usize;
    &values[passed..]
}
