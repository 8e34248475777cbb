// What is found of the lists of names of sets and systems.

ghost use Rattle.std.specs.Prelude.{◌≡◌, ◌<◌, OnOk, length};
ghost use Rattle.std.specs.List.{list_any};
ghost use Rattle.std.specs.Str.{bytes_eq};
ghost use Rattle.lints.specs.Collected.{Adds, Among};
ghost use Rattle.lints.specs.Repeats.{IsOfItem, IsOfSetItem, has_twice, is_twice};

use crate::adding::add_where;
use crate::lint::{Holder, Lint, Listed};
use program_file::ItemTable;
use std::alloc::AllocError;

// Lists of more names aren't looked at.
const MOST_NAMES: usize = 64;

// Whether a name is among some.
fn has_name(names: &[&str], name: &str) -> bool
    ensures { result ≡ list_any (λ other. bytes_eq other.now name.now) names.now }
{
    names.iter().any(|other| *other == name)
}

// Whether one of some names stands twice.
fn has_twice(names: &[&str]) -> bool
    ensures { result ≡ has_twice names.now }
{
    for number in 0..names.len() {
        if has_name(&names[number + 1..], names[number]) {
            return true;
        }
    }
    false
}

// Whether one of some names stands twice, which are not too many.
fn is_twice(names: &[&str]) -> bool
    ensures { result ≡ is_twice names.now }
{
    names.len() <= MOST_NAMES && has_twice(names)
}

// A list in which a name stands twice.
fn said(holder: Holder, list: Listed) -> Lint
    ensures { result ≡ Lint.SaidTwice holder list }
{
    Lint::SaidTwice { holder, list }
}

// Adds what is found of the lists of a set or a system.
pub(crate) fn add_of_item(
    found: &mut Vec<Lint>,
    item: &ItemTable<'_>,
    holder: Holder,
) -> Result<(), AllocError>
    ensures { OnOk result (Adds (IsOfItem item.now holder) found.old.items found.new.items) }
{
    let inside = is_twice(item.inside.as_slice());
    let before = is_twice(item.before.as_slice());
    let after = is_twice(item.after.as_slice());
    let before_ignore = is_twice(item.before_ignore_deferred.as_slice());
    let after_ignore = is_twice(item.after_ignore_deferred.as_slice());
    let ambiguous = is_twice(item.ambiguous_with.as_slice());
    add_where(found, inside, said(holder, Listed::In))?;
    add_where(found, before, said(holder, Listed::Before))?;
    add_where(found, after, said(holder, Listed::After))?;
    add_where(
        found,
        before_ignore,
        said(holder, Listed::BeforeIgnoreDeferred),
    )?;
    add_where(
        found,
        after_ignore,
        said(holder, Listed::AfterIgnoreDeferred),
    )?;
    add_where(found, ambiguous, said(holder, Listed::AmbiguousWith))?;
    Ok(())
}

// Adds what is found of the lists of a set.
fn add_of_set(
    found: &mut Vec<Lint>,
    sets: &[ItemTable<'_>],
    number: usize,
) -> Result<(), AllocError>
    requires { number < length sets.now }
    ensures { OnOk result (Adds (IsOfSetItem sets.now number) found.old.items found.new.items) }
{
    add_of_item(found, &sets[number], Holder::Set(number))?;
    Ok(())
}

// Adds what is found of the lists of the sets.
pub(crate) fn add_of_set_items(
    found: &mut Vec<Lint>,
    sets: &[ItemTable<'_>],
) -> Result<(), AllocError>
    ensures { OnOk result (Adds (Among (length sets.now) (IsOfSetItem sets.now)) found.old.items
        found.new.items) }
{
    for number in 0..sets.len() {
        add_of_set(found, sets, number)?;
    }
    Ok(())
}
