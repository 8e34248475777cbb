// The lines of the slots.

ghost use Rattle.std.specs.Prelude.{◌≡◌, ◌++◌, map, OnOk, string_bytes};
ghost use Rattle.archetype_store.specs.Layout.{AreAllHome};
ghost use Rattle.archetype_store.specs.Row.{component_of};
ghost use Rattle.entity_table.specs.Status.{status_of};
ghost use Rattle.state_text.specs.StateText.{status_name, component_text, row_text, slot_line, slot_lines};

use crate::form::Form;
use crate::words::{push_stamp, push_words};
use archetype_store::{SlotState, World};
use column_store::{Components, StampedValue};
use entity_table::Status;
use std::alloc::{AllocError, Global};

/// Adds the line of each slot.
pub fn push_slots(
    alloc: Global,
    text: &mut String,
    form: Form,
    world: &World,
) -> Result<(), AllocError>
    requires { AreAllHome world.now.layout }
    ensures { OnOk result (string_bytes text.new
        ≡ string_bytes text.old ++ slot_lines form 0 world.now.state.slots) }
{
    world.prove_home();
    let mut components = Components::new(alloc);
    for index in 0..world.slot_count() {
        world.components(index, &mut components)?;
        let slot = world.slot_at(index);
        push_slot(text, form, index, &slot, &components)?;
    }
    Ok(())
}

// Adds the line of a slot.
fn push_slot(
    text: &mut String,
    form: Form,
    index: u32,
    slot: &SlotState,
    components: &[StampedValue],
) -> Result<(), AllocError>
    ensures { OnOk result (string_bytes text.new ≡ string_bytes text.old
        ++ slot_line form index (record {
          generation = slot.now.generation;
          status = slot.now.status;
          row = map component_of components.now;
        })) }
{
    let name = name_of(slot.status());
    let generation = slot.generation();
    write!(text, "{name} {index}v{generation}")?;
    push_row(text, form, components)?;
    writeln!(text)
}

// The word of a status.
fn name_of(status: Status) -> &'static str
    ensures { result.now ≡ status_name (status_of status) }
{
    match status {
        Status::Vacant => "vacant",
        Status::Granted => "granted",
        Status::Living => "live",
        Status::Retired => "retired",
    }
}

// Adds the components of an entity.
fn push_row(text: &mut String, form: Form, components: &[StampedValue]) -> Result<(), AllocError>
    ensures { OnOk result (string_bytes text.new
        ≡ string_bytes text.old ++ row_text form (map component_of components.now)) }
{
    for component in components {
        push_component(text, form, component)?;
    }
    Ok(())
}

// Adds a component.
fn push_component(text: &mut String, form: Form, component: &StampedValue) -> Result<(), AllocError>
    ensures { OnOk result (string_bytes text.new
        ≡ string_bytes text.old ++ component_text form (component_of component.now)) }
{
    let kind = component.value.kind();
    write!(text, " {kind}")?;
    push_stamp(text, form, component.stamp.added)?;
    push_stamp(text, form, component.stamp.changed)?;
    push_words(text, component.value.words().as_slice())
}
