// The lines of the kept events, read.

ghost use Rattle.std.specs.Prelude.{◌≡◌, ◌∷◌, ℕ, List, length, map, FitsSigned};
ghost use Rattle.std.specs.Int.{w64};
ghost use Rattle.std.specs.List.{AllByRecursion};
ghost use Rattle.model.specs.state.State.{EventQueue, event_count};
ghost use Rattle.model.specs.state.Shape.{IsQueue};
ghost use Rattle.state_text.specs.StateText.{every_event};
ghost use Rattle.state_text.specs.LineWords.{AreLines, event_words, queues_before};
ghost use Rattle.state_text.specs.Reading.{Gives, GivesBefore};

use crate::reading::fault::LineFault;
use crate::reading::lines::Lines;
use crate::reading::words::{integers_of, number_of};
use event_buffers::queue::NUMBER_LIMIT;
use event_buffers::{Events, Queue};
use kinds::Event;
use std::alloc::Global;

// The kept events, a line a kind.
pub(crate) fn read_events(alloc: Global, lines: &mut Lines<'_>) -> Result<Events, LineFault>
    ensures { (queues : List EventQueue) (more : List (List (List ℕ)))
        → length queues ≡ event_count → AllByRecursion IsQueue queues
        → AllByRecursion (λ queue. AllByRecursion (λ e. FitsSigned w64 e.value) queue.kept) queues
        → AreLines (queues_before queues every_event more) lines.old.rest.now
        → GivesBefore result queues more lines.new.rest.now }
{
    let hit = read_queue(alloc, Event::Hit, lines)?;
    let heal = read_queue(alloc, Event::Heal, lines)?;
    let spark = read_queue(alloc, Event::Spark, lines)?;
    let done = read_queue(alloc, Event::Done, lines)?;
    Ok(Events::of_queues([hit, heal, spark, done]))
}

// The line of an event kind.
fn read_queue(alloc: Global, kind: Event, lines: &mut Lines<'_>) -> Result<Queue, LineFault>
    ensures { (queue : EventQueue) (more : List (List (List ℕ))) → IsQueue queue
        → AllByRecursion (λ e. FitsSigned w64 e.value) queue.kept
        → AreLines (event_words kind queue ∷ more) lines.old.rest.now
        → GivesBefore result queue more lines.new.rest.now }
{
    queue_of_words(alloc, kind, &lines.words(alloc)?)
}

// The queue of an event kind: the number at which the newer buffer begins, the next number, and the kept values.
fn queue_of_words(alloc: Global, kind: Event, words: &[&str]) -> Result<Queue, LineFault>
    ensures { (queue : EventQueue) → IsQueue queue
        → AllByRecursion (λ e. FitsSigned w64 e.value) queue.kept
        → map (λ word. word.now) words.now ≡ event_words kind queue → Gives result queue }
{
    let [name, newer, next, values @ ..] = words else {
        return Err(LineFault::Outside);
    };
    if *name != kind.name() {
        return Err(LineFault::Outside);
    }
    let newer = number_of(newer)?;
    let next = number_of(next)?;
    let values = integers_of(alloc, values)?;
    queue_of(alloc, newer, next, &values)
}

// The queue of kept values, whose numbers end before the next one.
fn queue_of(alloc: Global, newer: u64, next: u64, values: &[i64]) -> Result<Queue, LineFault>
    ensures { (queue : EventQueue) → IsQueue queue → newer ≡ queue.newer → next ≡ queue.next
        → values.now ≡ map (λ e. e.value) queue.kept → Gives result queue }
{
    let count = values.len() as u64;
    if next < count || NUMBER_LIMIT < next {
        return Err(LineFault::NoState);
    }
    let first = next - count;
    if newer < first || next < newer {
        return Err(LineFault::NoState);
    }
    let (older, newer) = values.split_at((newer - first) as usize);
    let older = Vec::from_slice(alloc, older)?;
    let newer = Vec::from_slice(alloc, newer)?;
    Ok(Queue::of(first, older, newer))
}
