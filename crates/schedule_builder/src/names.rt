// The numbers of items by their names.

ghost use Rattle.std.specs.Prelude.{◌≡◌, ℕ, ◌<◌, Some, unwrap_or, length, IfOk, IfSome, IfNone, OnOk, List, if◌then◌else◌};
ghost use Rattle.std.specs.Str.{bytes_eq};
ghost use Rattle.std.specs.BTreeMap.{get_by_text};
ghost use Rattle.model.specs.declarations.Declarations.{items_of};
ghost use Rattle.model.specs.declarations.Refusals.{RepeatsName, HasDistinctNames};
ghost use Rattle.schedule_builder.specs.Orders.{TellsPlaces};

use crate::desc::ScheduleDesc;
use std::alloc::{AllocError, Global};
use std::collections::BTreeMap;

/// Notes the number of an item at its name, unless the name has a number.
fn note(
    alloc: Global,
    places: &mut BTreeMap<String, usize>,
    name: &str,
    number: usize,
) -> Result<(), AllocError>
    ensures { OnOk result ((x : List ℕ)
        → get_by_text places.new x
        ≡ (if bytes_eq name.now x then Some (unwrap_or (get_by_text places.old x) number)
        else get_by_text places.old x)) }
{
    if !places.contains_key(name) {
        places.insert(String::from_str(alloc, name)?, number)?;
    }
    Ok(())
}

/// The number of the least item with each name.
pub(crate) fn places_of(
    alloc: Global,
    desc: &ScheduleDesc,
) -> Result<BTreeMap<String, usize>, AllocError>
    ensures { IfOk result (TellsPlaces desc.now) }
{
    let mut places = BTreeMap::new(alloc);
    for number in 0..desc.count() {
        note(alloc, &mut places, desc.item(number).name(), number)?;
    }
    Ok(places)
}

/// The first item with an earlier item's name.
pub(crate) fn first_repeated(desc: &ScheduleDesc, places: &BTreeMap<String, usize>) -> Option<usize>
    requires { TellsPlaces desc.now places.now }
    ensures found { IfSome result (λ n. (n < length (items_of desc.now)) × RepeatsName desc.now n
        × ((m : ℕ) → m < n → RepeatsName desc.now m → ⊥)) }
    ensures none { IfNone result (HasDistinctNames desc.now) }
{
    for number in 0..desc.count() {
        if let Some(first) = places.get(desc.item(number).name()) {
            if *first < number {
                return Some(number);
            }
        }
    }
    None
}
