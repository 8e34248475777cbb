// The lines of the kept events of a kind.

ghost use Rattle.std.specs.Prelude.{◌≡◌, ◌+◌, ◌≤◌, ◌++◌, flat_map, length, string_bytes, IfOk, OnOk};
ghost use Rattle.event_buffers.specs.Queue.{numbered};
ghost use Rattle.kinds.specs.Res.{event_number};
ghost use Rattle.model.specs.state.Events.{queue_of};
ghost use Rattle.state_lines.specs.Looks.{event_line, event_lines};

use crate::world::push_count;
use event_buffers::Events;
use kinds::Event;
use std::alloc::{AllocError, Global};

/// The lines of the kept events of a kind. First comes the number of the next one, and then each from number `from`
/// on, with its number and its value.
pub fn lines_of_events(
    alloc: Global,
    events: &Events,
    kind: Event,
    from: u64,
) -> Result<String, AllocError>
    ensures { IfOk result (λ text. string_bytes text
        ≡ event_lines from (queue_of events.now (event_number kind))) }
{
    events.prove_shape();
    let next = events.next(kind);
    let unread = events.unread(kind, from);
    let newer = next - unread.newer.len() as u64;
    let older = newer - unread.older.len() as u64;
    let mut text = String::new(alloc);
    push_count(&mut text, "next", next)?;
    push_events(&mut text, older, unread.older)?;
    push_events(&mut text, newer, unread.newer)?;
    Ok(text)
}

// Adds the lines of events with these values, of which the first has this number.
fn push_events(text: &mut String, first: u64, values: &[i64]) -> Result<(), AllocError>
    requires { first + length values.now ≤ 4611686018427387904 }
    ensures { OnOk result (string_bytes text.new
        ≡ string_bytes text.old ++ flat_map event_line (numbered first values.now)) }
{
    let mut number = first;
    for value in values {
        push_event(text, number, *value)?;
        number += 1;
    }
    Ok(())
}

// Adds the line of an event.
fn push_event(text: &mut String, number: u64, value: i64) -> Result<(), AllocError>
    ensures { OnOk result (string_bytes text.new
        ≡ string_bytes text.old ++ event_line (record { number = number; value = value })) }
{
    writeln!(text, "{number} {value}")
}
