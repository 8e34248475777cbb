// The text of a world.

ghost use Rattle.std.specs.Prelude.{◌≡◌, ◌++◌, ◌<◌, ◌≤◌, map, length, OnOk, IfOk, string_bytes, codes};
ghost use Rattle.kinds.specs.Value.{value_number, value_words};
ghost use Rattle.archetype_store.specs.Row.{component_of};
ghost use Rattle.archetype_store.specs.Layout.{AreAllHome};
ghost use Rattle.entity_table.specs.Ids.{slot_at};
ghost use Rattle.state_lines.specs.WorldText.{words_text, component_text, row_text, entity_line, slot_line, slot_lines, resource_line, lines_of, count_line, printed, world_lines};

use archetype_store::World;
use column_store::{Components, StampedValue};
use kinds::{Res, Value};
use std::alloc::{AllocError, Global};

/// The text of a world after `runs` runs, in which `passed_over` commands were skipped. It has the number of runs,
/// each resource, each living entity in rising index, and the count of skipped commands, a line for each.
pub fn text_of_world(
    alloc: Global,
    runs: u32,
    world: &World,
    passed_over: u64,
) -> Result<String, AllocError>
    requires { AreAllHome world.now.layout }
    ensures { IfOk result (λ text. string_bytes text ≡ printed runs world.now.state passed_over) }
{
    let mut text = String::new(alloc);
    push_count(&mut text, "runs", u64::from(runs))?;
    push_world(alloc, &mut text, world, passed_over)?;
    Ok(text)
}

/// Adds the lines of a world in which `passed_over` commands were skipped. They are each resource, each living entity
/// in rising index, and the count of skipped commands.
pub fn push_world(
    alloc: Global,
    text: &mut String,
    world: &World,
    passed_over: u64,
) -> Result<(), AllocError>
    requires { AreAllHome world.now.layout }
    ensures { OnOk result (string_bytes text.new
        ≡ string_bytes text.old ++ world_lines world.now.state passed_over) }
{
    push_resources(text, world, Res::ALL.as_slice())?;
    push_entities(alloc, text, world)?;
    push_count(text, "passed", passed_over)
}

/// Adds the line of a count: its name and its number.
pub fn push_count(text: &mut String, name: &str, count: u64) -> Result<(), AllocError>
    ensures { OnOk result (string_bytes text.new
        ≡ string_bytes text.old ++ count_line name.now count) }
{
    writeln!(text, "{name} {count}")
}

/// Adds the lines of these resources, in order.
pub fn push_resources(text: &mut String, world: &World, list: &[Res]) -> Result<(), AllocError>
    ensures { OnOk result (string_bytes text.new
        ≡ string_bytes text.old ++ lines_of list.now world.now.state.resources) }
{
    for res in list {
        push_resource(text, *res, world.res(*res))?;
    }
    Ok(())
}

// Adds the line of a resource.
fn push_resource(text: &mut String, res: Res, value: i64) -> Result<(), AllocError>
    ensures { OnOk result (string_bytes text.new
        ≡ string_bytes text.old ++ resource_line res value) }
{
    writeln!(text, "{res} {value}")
}

// Adds the line of each entity that lives.
fn push_entities(alloc: Global, text: &mut String, world: &World) -> Result<(), AllocError>
    requires { AreAllHome world.now.layout }
    ensures { OnOk result (string_bytes text.new
        ≡ string_bytes text.old ++ slot_lines 0 world.now.state.slots) }
{
    for index in 0..world.slot_count() {
        push_slot(alloc, text, index, world)?;
    }
    Ok(())
}

// Adds the line of an index, if its entity lives.
fn push_slot(alloc: Global, text: &mut String, index: u32, world: &World) -> Result<(), AllocError>
    requires within { index < length world.now.state.slots }
    requires home { AreAllHome world.now.layout }
    ensures { OnOk result (string_bytes text.new
        ≡ string_bytes text.old ++ slot_line index (slot_at world.now.state.slots index)) }
{
    world.prove_home();
    let slot = world.slot_at(index);
    if slot.is_living() {
        let mut components = Components::new(alloc);
        world.components(index, &mut components)?;
        push_entity(text, index, slot.generation(), &components)
    } else {
        Ok(())
    }
}

/// Adds the line of an entity: its id and its components.
pub fn push_entity(
    text: &mut String,
    index: u32,
    generation: u32,
    components: &[StampedValue],
) -> Result<(), AllocError>
    ensures { OnOk result (string_bytes text.new
        ≡ string_bytes text.old
        ++ entity_line index generation (map component_of components.now)) }
{
    write!(text, "{index}v{generation}")?;
    push_row(text, components)?;
    writeln!(text)
}

// Adds the components of an entity.
fn push_row(text: &mut String, components: &[StampedValue]) -> Result<(), AllocError>
    ensures { OnOk result (string_bytes text.new
        ≡ string_bytes text.old ++ row_text (map component_of components.now)) }
{
    for component in components {
        push_component(text, &component.value)?;
    }
    Ok(())
}

/// Adds a component: the name of its kind and its words, a space before each.
pub fn push_component(text: &mut String, value: &Value) -> Result<(), AllocError>
    ensures { OnOk result (string_bytes text.new
        ≡ string_bytes text.old
        ++ component_text (value_number value.now) (value_words value.now)) }
{
    let kind = value.kind();
    write!(text, " {kind}")?;
    push_words(text, value.words().as_slice())
}

// Adds words, a space before each.
fn push_words(text: &mut String, words: &[i64]) -> Result<(), AllocError>
    ensures { OnOk result (string_bytes text.new ≡ string_bytes text.old ++ words_text words.now) }
{
    for word in words {
        write!(text, " {word}")?;
    }
    Ok(())
}
