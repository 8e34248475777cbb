// The components of a slot, read.

ghost use Rattle.std.specs.Prelude.{◌≡◌, ◌<◌, ◌≤◌, ◌++◌, ◌∷◌, ℤ, List, [], true, length, map, FitsSigned, IfOk, IfErr, OnOk};
ghost use Rattle.std.specs.Int.{w64};
ghost use Rattle.std.specs.Fmt.{signed_decimal};
ghost use Rattle.std.specs.List.{AllByRecursion};
ghost use Rattle.kinds.specs.Kind.{kind_number};
ghost use Rattle.kinds.specs.Components.{widths};
ghost use Rattle.kinds.specs.Value.{value_number, value_words};
ghost use Rattle.model.specs.state.State.{Component};
ghost use Rattle.model.specs.state.Rows.{insert_component};
ghost use Rattle.archetype_store.specs.Row.{component_of};
ghost use Rattle.state_text.specs.LineWords.{component_words, row_words, IsRow};
ghost use Rattle.state_text.specs.Laws.{FitsComponent};
ghost use Rattle.state_text.specs.Reading.{UnlessMemory};

use crate::reading::fault::LineFault;
use crate::reading::words::{integer_of, tick_of};
use archetype_store::components::put_component;
use change_ticks::Tick;
use column_store::{Components, StampedValue};
use kinds::{Kind, Value};
use std::alloc::Global;

// The components that words are.
pub(crate) fn read_row(alloc: Global, clock: Tick, words: &[&str]) -> Result<Components, LineFault>
    ensures sound { IfOk result (λ row. IsRow clock (map component_of row.items)) }
    ensures all { (cs : List Component) → IsRow clock cs → AllByRecursion FitsComponent cs
        → map (λ word. word.now) words.now ≡ row_words cs
        → UnlessMemory result (λ row. map component_of row.items ≡ cs) }
{
    let mut row = Components::new(alloc);
    let mut taken = 0;
    while taken < words.len() {
        taken += read_component(clock, &mut row, &words[taken..])?;
    }
    Ok(row)
}

// Puts the component that the first of the words are into a row, and tells how many words it takes.
fn read_component(clock: Tick, row: &mut Components, words: &[&str]) -> Result<usize, LineFault>
    requires { IsRow clock (map component_of row.old.items) }
    ensures row { OnOk result (IsRow clock (map component_of row.new.items)) }
    ensures least { IfOk result (λ taken. 1 ≤ taken) }
    ensures most { IfOk result (λ taken. taken ≤ length words.now) }
    ensures all { (c : Component) (cs : List Component)
        → IsRow clock (map component_of row.old.items ++ c ∷ cs) → FitsComponent c
        → map (λ word. word.now) words.now ≡ component_words c ++ row_words cs
        → UnlessMemory result (λ taken. (taken ≡ length (component_words c))
        × (map component_of row.new.items ≡ map component_of row.old.items ++ c ∷ [])) }
{
    let [name, added, changed, fields @ ..] = words else {
        return Err(LineFault::Outside);
    };
    let kind = Kind::named(name).ok_or(LineFault::Outside)?;
    if !stands_behind(kind, row) {
        return Err(LineFault::NoState);
    }
    let added = tick_of(added, clock)?;
    let changed = tick_of(changed, clock)?;
    let (fields, _) = fields
        .split_at_checked(kind.width())
        .ok_or(LineFault::Outside)?;
    put_value(row, value_of(kind, fields)?, added, changed)?;
    Ok(fields.len() + 3)
}

// Puts a component into a row, with its stamps: the second time it keeps when it was added.
fn put_value(
    row: &mut Components,
    value: Value,
    added: Tick,
    changed: Tick,
) -> Result<(), LineFault>
    ensures ok { OnOk result (map component_of row.new.items
        ≡ insert_component changed (value_number value) (value_words value)
        (insert_component added (value_number value) (value_words value)
        (map component_of row.old.items))) }
    ensures err { IfErr result (λ fault. fault ≡ LineFault.Memory) }
{
    put_component(row, value, added)?;
    put_component(row, value, changed)?;
    Ok(())
}

// Whether the kind is above those of a row.
fn stands_behind(kind: Kind, row: &[StampedValue]) -> bool
    ensures { AllByRecursion (λ c. c.kind < kind_number kind) (map component_of row.now)
        → result ≡ true }
{
    match row.last() {
        Some(last) => last.value.number() < kind.number(),
        None => true,
    }
}

// The component of a kind with these fields.
fn value_of(kind: Kind, words: &[&str]) -> Result<Value, LineFault>
    requires { length words.now ≡ widths (kind_number kind) }
    ensures kind { IfOk result (λ value. value_number value ≡ kind_number kind) }
    ensures all { (zs : List ℤ) → AllByRecursion (FitsSigned w64) zs
        → map (λ word. word.now) words.now ≡ map signed_decimal zs
        → UnlessMemory result (λ value. value_words value ≡ zs) }
{
    match words {
        [] => Ok(Value::of(kind, &[])),
        [v] => Ok(Value::of(kind, &[integer_of(v)?])),
        [x, y] => Ok(Value::of(kind, &[integer_of(x)?, integer_of(y)?])),
        _ => Err(LineFault::Outside),
    }
}
