// The lines of the kept events.

ghost use Rattle.std.specs.Prelude.{◌≡◌, ◌++◌, map, OnOk, string_bytes};
ghost use Rattle.kinds.specs.Res.{event_number};
ghost use Rattle.model.specs.state.Events.{queue_of};
ghost use Rattle.state_text.specs.StateText.{words_text, event_line, event_lines};

use crate::words::push_words;
use event_buffers::Events;
use kinds::Event;
use std::alloc::AllocError;

/// Adds the lines of these event kinds.
pub fn push_events(text: &mut String, events: &Events, list: &[Event]) -> Result<(), AllocError>
    ensures { OnOk result (string_bytes text.new
        ≡ string_bytes text.old ++ event_lines events.now list.now) }
{
    for kind in list {
        push_queue(text, events, *kind)?;
    }
    Ok(())
}

// Adds the line of an event kind.
fn push_queue(text: &mut String, events: &Events, kind: Event) -> Result<(), AllocError>
    ensures { OnOk result (string_bytes text.new
        ≡ string_bytes text.old ++ event_line kind (queue_of events.now (event_number kind))) }
{
    let newer = events.newer(kind);
    let next = events.next(kind);
    write!(text, "{kind} {newer} {next}")?;
    push_kept(text, events, kind)?;
    writeln!(text)
}

// Adds the kept values of an event kind.
fn push_kept(text: &mut String, events: &Events, kind: Event) -> Result<(), AllocError>
    ensures { OnOk result (string_bytes text.new ≡ string_bytes text.old
        ++ words_text (map (λ e. e.value) (queue_of events.now (event_number kind)).kept)) }
{
    let kept = events.unread(kind, 0);
    push_words(text, kept.older)?;
    push_words(text, kept.newer)
}
