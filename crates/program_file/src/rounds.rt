// How often a block runs.

ghost use Rattle.std.specs.Prelude.{◌≡◌, option_map, IfOk, IfErr};
ghost use Rattle.parsing.specs.Reads.{Reads, SpellsOnly, SpellsNone};
ghost use Rattle.toml.specs.View.{view, table_view};
ghost use Rattle.program_file.specs.Rounds.{SaysRounds, IsEventName, block_keys};

use crate::keys::{number_of, value_at};
use crate::place_fault::PlaceFault;
use kinds::Event;
use script::Rounds;
use toml::{Table, Value};

/// How often a block runs: once for each row of the query at `each`, once for each event of the kind at `events`, or
/// once. A block with both keys, or with another value at one of them, is `Value`.
pub fn rounds_of(block: &Table) -> Result<Rounds, PlaceFault>
    ensures said { IfOk result (SpellsOnly SaysRounds (block_keys (table_view block.now))) }
    ensures refused { IfErr result (λ fault. (fault ≡ PlaceFault.Value)
        × SpellsNone SaysRounds (block_keys (table_view block.now))) }
{
    match rounds_by(value_at(block, "each"), value_at(block, "events")) {
        Some(rounds) => Ok(rounds),
        None => Err(PlaceFault::Value),
    }
}

// How often a block runs that has these values at `each` and at `events`.
fn rounds_by(each: Option<&Value>, events: Option<&Value>) -> Option<Rounds>
    ensures { Reads SaysRounds
        (record {
          each = option_map (λ value. view value.now) each.entry;
          events = option_map (λ value. view value.now) events.entry;
        })
        result }
{
    match (each, events) {
        (None, None) => Some(Rounds::Once),
        (Some(each), None) => Some(Rounds::EachRow(number_of(each)?)),
        (None, Some(events)) => Some(Rounds::EachEvent(event_of(events)?)),
        (Some(_), Some(_)) => None,
    }
}

// The event kind that a value names.
fn event_of(value: &Value) -> Option<Event>
    ensures { Reads IsEventName (view value.now) result }
{
    Event::named(value.as_str()?)
}
