// A state, read from its text.

ghost use Rattle.std.specs.Prelude.{◌≡◌, IfOk, IfErr};
ghost use Rattle.model.specs.state.State.{State as ModelState};
ghost use Rattle.body.specs.Steps.{HasShape};
ghost use Rattle.state_text.specs.Laws.{Fits};
ghost use Rattle.state_text.specs.StateText.{state_text};
ghost use Rattle.state_text.specs.LineWords.{AreLines, lines_of};
ghost use Rattle.state_text.specs.Reading.{Gives, IsNoStateText};

mod components;
mod events;
mod fault;
mod head;
mod lines;
mod memories;
mod resources;
mod slots;
mod words;

use crate::reading::events::read_events;
use crate::reading::fault::LineFault;
use crate::reading::head::{read_clock, read_head, read_passed_over};
use crate::reading::lines::Lines;
use crate::reading::memories::read_memories;
use crate::reading::resources::read_resources;
use crate::reading::slots::read_slots;
use crate::text::text_of_state;
use archetype_store::World;
use body::{Memories, State};
use change_ticks::Clock;
pub use fault::StateFault;
use std::alloc::Global;

/// The state of which this is the text. `Outside` names the first line that is spelled otherwise, `NoState` one that
/// says what no state has. A state that is read is written again and compared, so no other text is taken for one of a
/// state.
pub fn read_state(alloc: Global, text: &str) -> Result<State, StateFault>
    ensures found { IfOk result (λ state. text.now ≡ state_text state) }
    ensures only { IfOk result (λ state. (w : ModelState) → HasShape w → Fits w
        → text.now ≡ state_text w → state ≡ w) }
    ensures none { IfErr result (IsNoStateText text.now) }
{
    let mut lines = Lines::of(text);
    match state_of(alloc, &mut lines) {
        Ok(state) => confirmed(alloc, state, text),
        Err(fault) => Err(fault.at(lines.read)),
    }
}

// The state, if this is its text.
fn confirmed(alloc: Global, state: State, text: &str) -> Result<State, StateFault>
    ensures found { IfOk result (λ found. text.now ≡ state_text found) }
    ensures same { IfOk result (λ found. found ≡ state) }
    ensures none { IfErr result (λ fault. text.now ≡ state_text state
        → fault ≡ StateFault.Memory) }
{
    let written = text_of_state(alloc, &state)?;
    if written.as_str() == text {
        return Ok(state);
    }
    Err(StateFault::Outside(first_other(written.as_str(), text)))
}

// The number of the first line in which two texts differ.
fn first_other(one: &str, other: &str) -> usize {
    let pairs = one.bytes().zip(other.bytes());
    let same = pairs.take_while(|pair| pair.0 == pair.1);
    same.filter(|pair| pair.0 == b'\n')
        .count()
        .saturating_add(1)
}

// The state of which these are all lines.
fn state_of(alloc: Global, lines: &mut Lines<'_>) -> Result<State, LineFault>
    ensures { (w : ModelState) → HasShape w → Fits w
        → AreLines (lines_of w) lines.old.rest.now → Gives result w }
{
    let head = read_head(alloc, lines)?;
    let clock = read_clock(alloc, lines)?;
    let passed_over = read_passed_over(alloc, lines)?;
    let mut world = World::empty(alloc, Clock::at(clock));
    read_resources(alloc, &mut world, lines)?;
    let events = read_events(alloc, lines)?;
    let systems = read_memories(alloc, clock, "system", head.systems, lines)?;
    let conditions = read_memories(alloc, clock, "condition", head.conditions, lines)?;
    read_slots(alloc, &mut world, head.slots, lines)?;
    lines.end()?;
    let memories = Memories {
        systems,
        conditions,
    };
    Ok(State::counted(world, events, memories, passed_over))
}
