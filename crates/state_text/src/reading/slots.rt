// The line of a slot, read.

ghost use Rattle.std.specs.Prelude.{◌≡◌, ◌+◌, ◌<◌, ◌≤◌, ◌^◌, ◌++◌, ◌∷◌, ℕ, List, ◌↔◌, [], true, length, map, IsTrue, OnOk};
ghost use Rattle.std.specs.List.{AllByRecursion};
ghost use Rattle.model.specs.state.State.{Slot, Status as ModelStatus, most_indices};
ghost use Rattle.model.specs.state.Shape.{IsSlot};
ghost use Rattle.entity_table.specs.Status.{status_of, empty_slot};
ghost use Rattle.archetype_store.specs.Changes.{slot_left};
ghost use Rattle.archetype_store.specs.Layout.{AreAllHome};
ghost use Rattle.archetype_store.specs.Row.{component_of};
ghost use Rattle.archetype_store.specs.Store.{with_slot, with_slots};
ghost use Rattle.model.specs.state.Commands.{is_alive};
ghost use Rattle.state_text.specs.StateText.{status_name};
ghost use Rattle.state_text.specs.LineWords.{AreLines, IsRow, IsSlotAt, id_word, slot_words, slots_before};
ghost use Rattle.state_text.specs.Reading.{Gives, UnlessMemory};

use crate::reading::components::read_row;
use crate::reading::fault::LineFault;
use crate::reading::lines::Lines;
use archetype_store::fault::GrantFault;
use archetype_store::{EntityChange, Fate, World};
use column_store::Components;
use entity_table::{Entity, Status};
use parsing::integer::read_number;
use std::alloc::Global;

// Adds so many slots, a line each.
pub(crate) fn read_slots(
    alloc: Global,
    world: &mut World,
    count: u64,
    lines: &mut Lines<'_>,
) -> Result<(), LineFault>
    requires { AreAllHome world.old.layout }
    ensures home { OnOk result (AreAllHome world.new.layout) }
    ensures clock { OnOk result (world.new.state.clock ≡ world.old.state.clock) }
    ensures all { (slots : List Slot) (more : List (List (List ℕ))) → length slots ≡ count
        → length world.old.state.slots + length slots ≤ most_indices
        → AllByRecursion (IsSlotAt world.old.state.clock) slots
        → AreLines (slots_before (length world.old.state.slots) slots more) lines.old.rest.now
        → UnlessMemory result (λ done.
        (world.new.state ≡ with_slots (λ front. front ++ slots) world.old.state)
        × AreLines more lines.new.rest.now) }
{
    for _at in 0..count {
        let words = lines.words(alloc)?;
        read_slot(alloc, world, &words)?;
    }
    Ok(())
}

// Adds the slot that a line says, behind those that are there.
fn read_slot(alloc: Global, world: &mut World, words: &[&str]) -> Result<(), LineFault>
    requires { AreAllHome world.old.layout }
    ensures home { OnOk result (AreAllHome world.new.layout) }
    ensures clock { OnOk result (world.new.state.clock ≡ world.old.state.clock) }
    ensures all { (slot : Slot) → IsSlotAt world.old.state.clock slot
        → length world.old.state.slots < most_indices
        → map (λ word. word.now) words.now ≡ slot_words (length world.old.state.slots) slot
        → UnlessMemory result (λ done. world.new.state
        ≡ with_slots (λ slots. slots ++ slot ∷ []) world.old.state) }
{
    let [name, id, components @ ..] = words else {
        return Err(LineFault::Outside);
    };
    let status = status_named(name)?;
    let id = id_of(id)?;
    if id.index != world.slot_count() {
        return Err(LineFault::NoState);
    }
    add_slot(world, id.generation, status)?;
    let row = read_row(alloc, world.now(), components)?;
    if row.is_empty() {
        return Ok(());
    }
    fill_slot(world, id, row)
}

// Adds a slot without components.
fn add_slot(world: &mut World, generation: u32, status: Status) -> Result<(), LineFault>
    ensures layout { OnOk result (world.new.layout ≡ world.old.layout) }
    ensures state { OnOk result (world.new.state
        ≡ with_slots (λ slots. slots ++ empty_slot generation status ∷ []) world.old.state) }
    ensures all { IsSlot (λ kind. 0) 0 (empty_slot generation status)
        → length world.old.state.slots < most_indices
        → UnlessMemory result (λ done. Unit {0}) }
{
    if !can_be(generation, status) {
        return Err(LineFault::NoState);
    }
    match world.push_slot(generation, status) {
        Ok(()) => Ok(()),
        Err(GrantFault::IdsSpent) => Err(LineFault::NoState),
        Err(GrantFault::Memory) => Err(LineFault::Memory),
    }
}

// Whether an index of this status can be at this generation.
fn can_be(generation: u32, status: Status) -> bool
    ensures { IsTrue result ↔ IsSlot (λ kind. 0) 0 (empty_slot generation status) }
{
    match status {
        Status::Vacant => 1 < generation,
        Status::Granted | Status::Living => 1 <= generation,
        Status::Retired => generation == u32::MAX,
    }
}

// Gives the entity of a slot its components.
fn fill_slot(world: &mut World, id: Entity, row: Components) -> Result<(), LineFault>
    requires home { AreAllHome world.old.layout }
    requires row { IsRow world.old.state.clock (map component_of row.items) }
    ensures home { OnOk result (AreAllHome world.new.layout) }
    ensures clock { OnOk result (world.new.state.clock ≡ world.old.state.clock) }
    ensures all { is_alive world.old.state.slots id ≡ true
        → UnlessMemory result (λ done. world.new.state
        ≡ with_slot id.index (slot_left (Fate.Lives row)) world.old.state) }
{
    if !world.lives(id) {
        return Err(LineFault::NoState);
    }
    world.change(&[EntityChange {
        entity: id,
        fate: Fate::Lives(row),
    }])?;
    Ok(())
}

// The status of a word.
fn status_named(word: &str) -> Result<Status, LineFault>
    ensures { (status : ModelStatus) → word.now ≡ status_name status
        → UnlessMemory result (λ found. status_of found ≡ status) }
{
    match word {
        "vacant" => Ok(Status::Vacant),
        "granted" => Ok(Status::Granted),
        "live" => Ok(Status::Living),
        "retired" => Ok(Status::Retired),
        _ => Err(LineFault::Outside),
    }
}

// The id that a word is, as `7v2`.
fn id_of(word: &str) -> Result<Entity, LineFault>
    ensures { (index generation : ℕ) → index < 2 ^ 32 → generation < 2 ^ 32
        → word.now ≡ id_word index generation
        → Gives result (record { index = index; generation = generation }) }
{
    let (index, generation) = word.split_once('v').ok_or(LineFault::Outside)?;
    Ok(Entity {
        index: read_number(index).ok_or(LineFault::Outside)?,
        generation: read_number(generation).ok_or(LineFault::Outside)?,
    })
}
