// The kept events of every kind.

ghost use Rattle.std.specs.Prelude.{◌≡◌, ◌↔◌, ◌++◌, ◌≤◌, true, IsErrOf, IfOk, OnOk, OnErr, map, replicate, length};
ghost use Rattle.std.specs.List.{AllByRecursion};
ghost use Rattle.kinds.specs.Res.{event_number};
ghost use Rattle.model.specs.Lists.{update_at};
ghost use Rattle.model.specs.state.State.{event_count, empty_queue, last_tick};
ghost use Rattle.model.specs.state.Events.{queue_of, send, send_all, can_send, unread, updated_queue};
ghost use Rattle.model.specs.state.Shape.{IsQueue};

use crate::queue::{Queue, SendFault, Unread};
use kinds::Event;
use std::alloc::{AllocError, Global};
use std::marker::Model;

/// The kept events of every kind. Contracts see the queue of each, by number.
pub struct Events {
    queues: [Queue; 4],
}

// One function drops it wherever it is let go.
impl Drop for Events {
    fn drop(self) {
        let Events { queues: _ } = self;
    }
}

impl Model for Events {
    ghost use Rattle.std.specs.Prelude.{List, ◌≡◌, length};
    ghost use Rattle.model.specs.state.State.{EventQueue, event_count};

    ghost Value = { List EventQueue };

    ghost view = { λ e. e.queues };

    ghost invariant = { λ e. length e.queues ≡ event_count };
}

impl Events {
    /// Events of which none was sent. Allocates nothing.
    pub fn new(alloc: Global) -> Self
        ensures { result ≡ replicate event_count empty_queue }
    {
        Events {
            queues: [
                Queue::new(alloc),
                Queue::new(alloc),
                Queue::new(alloc),
                Queue::new(alloc),
            ],
        }
    }

    /// The events of these queues, one for each kind by number.
    pub fn of_queues(queues: [Queue; 4]) -> Self
        ensures { result ≡ queues }
    {
        Events { queues }
    }

    /// The same events once more. Where an allocation fails there is no copy.
    pub fn copy(&self, alloc: Global) -> Result<Self, AllocError>
        ensures { IfOk result (λ copy. copy ≡ self.now) }
    {
        let hit = self.queues[0].copy(alloc)?;
        let heal = self.queues[1].copy(alloc)?;
        let spark = self.queues[2].copy(alloc)?;
        let done = self.queues[3].copy(alloc)?;
        Ok(Events {
            queues: [hit, heal, spark, done],
        })
    }

    /// There is a queue for each kind.
    pub fn prove_law(&self)
        ensures { length self.now ≡ event_count }
    {
        let _ = &self.queues;
    }

    /// The kept events of each kind have the last numbers given.
    pub fn prove_shape(&self)
        ensures { AllByRecursion IsQueue self.now }
    {
        self.queues[0].prove_shape();
        self.queues[1].prove_shape();
        self.queues[2].prove_shape();
        self.queues[3].prove_shape();
    }

    /// The number of the next event of a kind.
    pub fn next(&self, kind: Event) -> u64
        ensures value { result ≡ (queue_of self.now (event_number kind)).next }
        ensures most { result ≤ last_tick }
    {
        self.queues[kind.number() as usize].next()
    }

    /// The number at which the newer buffer of a kind begins.
    pub fn newer(&self, kind: Event) -> u64
        ensures { result ≡ (queue_of self.now (event_number kind)).newer }
    {
        self.queues[kind.number() as usize].newer()
    }

    /// Sends an event of a kind, with its value. A refused one changes nothing.
    pub fn send(&mut self, kind: Event, value: i64) -> Result<(), SendFault>
        ensures ok { OnOk result (self.new ≡ update_at (event_number kind) (send value) self.old) }
        ensures spent { IsErrOf result SendFault.NumbersSpent
            ↔ ((queue_of self.old (event_number kind)).next ≡ last_tick) }
        ensures err { OnErr result (self.new ≡ self.old) }
    {
        let queue = &mut self.queues[kind.number() as usize];
        queue.send(value)
    }

    /// Whether events of a kind with these values get numbers.
    pub fn can_send(&self, kind: Event, values: &[i64]) -> bool
        ensures { result ≡ can_send values.now (queue_of self.now (event_number kind)) }
    {
        self.queues[kind.number() as usize].can_send(values)
    }

    // Sends events of a kind that all get numbers, in order. Where an allocation fails none is sent.
    pub(crate) fn send_numbered(&mut self, kind: Event, values: &[i64]) -> Result<(), AllocError>
        requires { can_send values.now (queue_of self.old (event_number kind)) ≡ true }
        ensures ok { OnOk result (self.new
            ≡ update_at (event_number kind) (send_all values.now) self.old) }
        ensures err { OnErr result (self.new ≡ self.old) }
    {
        let queue = &mut self.queues[kind.number() as usize];
        queue.send_numbered(values)
    }

    /// The kept events of a kind from a cursor on. Allocates nothing.
    pub fn unread(&self, kind: Event, cursor: u64) -> Unread<'_>
        ensures { result.older.now ++ result.newer.now
            ≡ unread (queue_of self.now (event_number kind)) cursor }
    {
        self.queues[kind.number() as usize].unread(cursor)
    }

    /// Drops the older buffer of every kind and makes the newer one the older, as the opening of a run does. Allocates nothing, and keeps
    /// the room of the buffers.
    pub fn update(&mut self)
        ensures { self.new ≡ map updated_queue self.old }
    {
        for queue in self.queues.iter_mut() {
            queue.update();
        }
    }
}
