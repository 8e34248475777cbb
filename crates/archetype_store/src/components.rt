// The components of a row as a list, in strictly rising kinds.

ghost use Rattle.std.specs.Prelude.{◌≡◌, ◌==◌, nat_le, map, position, None, OnOk};
ghost use Rattle.kinds.specs.Value.{value_number, value_words};
ghost use Rattle.model.specs.state.Rows.{insert_component, remove_component};
ghost use Rattle.archetype_store.specs.Row.{component_of, added_at};

use change_ticks::{Stamp, Tick};
use column_store::{Components, StampedValue};
use kinds::Value;
use std::alloc::AllocError;

// A component that is added at this tick.
pub(crate) fn added(value: Value, tick: Tick) -> StampedValue
    ensures { result ≡ added_at tick value }
{
    StampedValue {
        value,
        stamp: Stamp {
            added: tick,
            changed: tick,
        },
    }
}

// The place of the component of the kind with this number.
fn index_of(components: &[StampedValue], number: u32) -> Option<usize>
    ensures { result ≡ position (λ s. value_number s.value == number) components.now }
{
    components.iter().position(|s| s.value.number() == number)
}

// The place of the first component whose kind's number is not less.
fn place_of(components: &[StampedValue], number: u32) -> Option<usize>
    ensures { result ≡ position (λ s. nat_le number (value_number s.value)) components.now }
{
    components.iter().position(|s| number <= s.value.number())
}

/// Inserts a component at a tick into those of a row: one of its kind is replaced and keeps its added stamp.
pub fn put_component(
    components: &mut Components,
    value: Value,
    tick: Tick,
) -> Result<(), AllocError>
    ensures { OnOk result (map component_of components.new.items
        ≡ insert_component tick (value_number value) (value_words value)
        (map component_of components.old.items)) }
{
    match place_of(components, value.number()) {
        None => components.push(added(value, tick))?,
        Some(place) => {
            let there = components[place];
            if there.value.number() == value.number() {
                components[place] = StampedValue {
                    value,
                    stamp: Stamp {
                        added: there.stamp.added,
                        changed: tick,
                    },
                };
            } else {
                components.insert(place, added(value, tick))?;
            }
        }
    }
    Ok(())
}

/// Removes the component of the kind with this number from those of a row, where it has one.
pub fn take_component(components: &mut Components, number: u32)
    ensures { map component_of components.new.items
        ≡ remove_component number (map component_of components.old.items) }
{
    match index_of(components, number) {
        None => {}
        Some(place) => {
            components.remove(place);
        }
    }
}
