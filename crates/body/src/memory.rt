// What a system or a condition remembers between its runs.

ghost use Rattle.std.specs.Prelude.{◌≡◌, [], map, length, replicate, IfOk};
ghost use Rattle.kinds.specs.Res.{event_number};
ghost use Rattle.model.specs.state.Events.{queue_of};
ghost use Rattle.model.specs.state.Loaded.{first_memory};
ghost use Rattle.model.specs.runs.RunState.{memory_after_run, with_registers};

use change_ticks::Tick;
use event_buffers::Events;
use kinds::Event;
use std::alloc::{AllocError, Global};
use std::marker::Model;

/// The memory of a system or a condition. It has the tick of its last run, the cursor of each of its event readers in
/// order, and eight registers.
#[derive(Drop)]
pub struct Memory {
    last_run: Tick,
    cursors: Vec<u64>,
    registers: [i64; 8],
}

impl Model for Memory {
    ghost use Rattle.std.specs.Prelude.{◌≡◌, length};
    ghost use Rattle.model.specs.state.State.{Memory as ModelMemory, register_count};

    ghost Value = { ModelMemory };

    ghost view = { λ m. record {
      last_run = m.last_run;
      cursors = m.cursors.items;
      registers = m.registers;
    } };

    ghost invariant = { λ m. length m.registers ≡ register_count };
}

impl Memory {
    /// The memory of who has no event readers and never ran.
    pub fn new(alloc: Global) -> Self
        ensures { result ≡ first_memory [] }
    {
        Memory {
            last_run: 0,
            cursors: Vec::new(alloc),
            registers: [0; 8],
        }
    }

    /// The memory of who has readers of these event kinds and never ran.
    pub fn with_readers(alloc: Global, reads: &[Event]) -> Result<Self, AllocError>
        ensures { IfOk result (λ memory. memory ≡ first_memory (map event_number reads.now)) }
    {
        Ok(Memory {
            last_run: 0,
            cursors: zeros(alloc, reads.len())?,
            registers: [0; 8],
        })
    }

    /// The memory of these parts: it is built again from one that was written down.
    pub fn of(last_run: Tick, cursors: Vec<u64>, registers: [i64; 8]) -> Self
        ensures { result
            ≡ record { last_run = last_run; cursors = cursors.items; registers = registers } }
    {
        Memory {
            last_run,
            cursors,
            registers,
        }
    }

    /// The same memory once more. Where an allocation fails there is no copy.
    pub fn copy(&self, alloc: Global) -> Result<Self, AllocError>
        ensures { IfOk result (λ copy. copy ≡ self.now) }
    {
        let cursors = Vec::from_slice(alloc, self.cursors.as_slice())?;
        Ok(Memory {
            last_run: self.last_run,
            cursors,
            registers: self.registers,
        })
    }

    /// The tick of the last run, 0 before the first.
    pub fn last_run(&self) -> Tick
        ensures { result ≡ self.now.last_run }
    {
        self.last_run
    }

    /// The cursors of the event readers, in order.
    pub fn cursors(&self) -> &[u64]
        ensures { result.now ≡ self.now.cursors }
    {
        self.cursors.as_slice()
    }

    /// The registers.
    pub fn registers(&self) -> [i64; 8]
        ensures { result ≡ self.now.registers }
    {
        self.registers
    }

    /// Replaces the registers.
    pub fn set_registers(&mut self, registers: [i64; 8])
        ensures { self.new ≡ with_registers registers self.old }
    {
        self.registers = registers;
    }

    /// Remembers a run at a tick, in which the readers, of these event kinds, were shown all that was kept.
    pub fn ran(&mut self, tick: Tick, reads: &[Event], events: &Events)
        requires { length self.old.cursors ≡ length reads.now }
        ensures { self.new
            ≡ memory_after_run tick (map event_number reads.now) events.now self.old }
    {
        self.last_run = tick;
        move_to_ends(&mut self.cursors, reads, events);
    }
}

// The same memories once more.
pub(crate) fn copied_memories(alloc: Global, memories: &[Memory]) -> Result<Vec<Memory>, AllocError>
    ensures { IfOk result (λ copies. copies.items ≡ memories.now) }
{
    let mut copies = Vec::with_capacity(alloc, memories.len())?;
    for memory in memories {
        copies.push_reserved(memory.copy(alloc)?);
    }
    Ok(copies)
}

// So many cursors at the first event.
#[tactic(auto, using(crate::proofs::States::repeated))]
fn zeros(alloc: Global, count: usize) -> Result<Vec<u64>, AllocError>
    ensures { IfOk result (λ cursors. cursors.items ≡ replicate count 0) }
{
    let mut cursors = Vec::with_capacity(alloc, count)?;
    for _reader in 0..count {
        cursors.push(0)?;
    }
    Ok(cursors)
}

// Moves the cursor of each reader to the end of what was kept.
fn move_to_ends(cursors: &mut [u64], reads: &[Event], events: &Events)
    requires { length cursors.old ≡ length reads.now }
    ensures { cursors.new ≡ map (λ kind. (queue_of events.now (event_number kind)).next) reads.now }
{
    for at in 0..reads.len() {
        cursors[at] = events.next(reads[at]);
    }
}
