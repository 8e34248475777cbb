// The sets of a program file, and their members.

ghost use Rattle.std.specs.Prelude.{◌≡◌, ◌+◌, ◌<◌, ◌≤◌, ◌^◌, ◌++◌, [], length, map, IfOk, OnOk};
ghost use Rattle.findings.specs.Sets.{AreSetsOf, held_by, held_by_one, set_named};
ghost use Rattle.model.specs.declarations.Declarations.{hierarchy_of, item_at};
ghost use Rattle.model.specs.declarations.Refusals.{KnowsNames};
ghost use Rattle.program.specs.Said.{declared_said, item_said};

use program_file::{ItemTable, SystemTable};
use std::alloc::{AllocError, Global};
use system_set::{Members, SetHierarchy};

/// The sets of a program file, by number: their names, and the systems that are in them, also in a set that is in them.
#[derive(Drop)]
pub struct Sets<'a> {
    /// The names.
    pub names: Vec<&'a str>,
    /// The members of each, in rising order.
    pub members: Vec<Vec<u32>>,
}

// No schedule is built of more sets, or of more systems.
const MOST_SETS: usize = 64;

const MOST_SYSTEMS: usize = 256;

/// The sets of these tables, with their members among these systems. Where there are more of either than a schedule may have none is looked at.
pub fn sets_of<'a>(
    alloc: Global,
    sets: &[ItemTable<'a>],
    systems: &[SystemTable<'a>],
) -> Result<Sets<'a>, AllocError>
    ensures { IfOk result (λ found. KnowsNames (declared_said sets.now systems.now [])
        → length sets.now ≤ 64 → length systems.now ≤ 256
        → AreSetsOf (declared_said sets.now systems.now []) found) }
{
    if sets.len() > MOST_SETS || systems.len() > MOST_SYSTEMS {
        return Ok(Sets {
            names: Vec::new(alloc),
            members: Vec::new(alloc),
        });
    }
    let hierarchy = hierarchy_from(alloc, sets, systems)?;
    let mut names = Vec::with_capacity(alloc, sets.len())?;
    let mut numbers = Vec::with_capacity(alloc, sets.len())?;
    for number in 0..sets.len() {
        names.push(sets[number].name)?;
        numbers.push(number)?;
    }
    let lists = hierarchy.coverage(alloc, numbers.as_slice())?;
    let members = members_of(alloc, lists.as_slice())?;
    Ok(Sets { names, members })
}

// The numbers in these lists.
fn members_of(alloc: Global, lists: &[Members]) -> Result<Vec<Vec<u32>>, AllocError>
    ensures { IfOk result (λ members. map (λ numbers. numbers.items) members.items ≡ lists.now) }
{
    let mut members = Vec::with_capacity(alloc, lists.len())?;
    for list in lists {
        members.push(list.numbers().to_vec(alloc)?)?;
    }
    Ok(members)
}

// Which of these items are in which sets.
fn hierarchy_from<'a>(
    alloc: Global,
    sets: &[ItemTable<'a>],
    systems: &[SystemTable<'a>],
) -> Result<SetHierarchy, AllocError>
    requires { length sets.now + length systems.now < 2 ^ 32 }
    ensures count { IfOk result (λ hierarchy. hierarchy.items
        ≡ length sets.now + length systems.now) }
    ensures declared { IfOk result (λ hierarchy. KnowsNames
        (declared_said sets.now systems.now [])
        → hierarchy ≡ hierarchy_of (declared_said sets.now systems.now [])) }
{
    let count = sets.len() + systems.len();
    let mut hierarchy = SetHierarchy::new(alloc, sets.len(), systems.len());
    for number in 0..count {
        let item = item_of(&*sets, &*systems, number);
        put_in(&mut hierarchy, &*sets, number, item.inside.as_slice())?;
    }
    Ok(hierarchy)
}

// The item of a number.
fn item_of<'t, 'a>(
    sets: &'t [ItemTable<'a>],
    systems: &'t [SystemTable<'a>],
    number: usize,
) -> &'t ItemTable<'a>
    requires { number < length sets.now + length systems.now }
    ensures { item_said result.now ≡ item_at (declared_said sets.now systems.now []) number }
{
    if number < sets.len() {
        &sets[number]
    } else {
        &systems[number - sets.len()].item
    }
}

// Puts an item into each of the sets of these names that there is.
fn put_in(
    hierarchy: &mut SetHierarchy,
    sets: &[ItemTable<'_>],
    item: usize,
    names: &[&str],
) -> Result<(), AllocError>
    requires sets { hierarchy.old.sets ≡ length sets.now }
    requires known { item < hierarchy.old.items }
    ensures { OnOk result (hierarchy.new
        ≡ record hierarchy.old {
          inside = hierarchy.old.inside
              ++ held_by sets.now item (map (λ name. name.now) names.now);
        }) }
{
    for name in names {
        put_in_one(hierarchy, sets, item, *name)?;
    }
    Ok(())
}

// Puts an item into the set of a name, where there is one.
fn put_in_one(
    hierarchy: &mut SetHierarchy,
    sets: &[ItemTable<'_>],
    item: usize,
    name: &str,
) -> Result<(), AllocError>
    requires sets { hierarchy.old.sets ≡ length sets.now }
    requires known { item < hierarchy.old.items }
    ensures { OnOk result (hierarchy.new
        ≡ record hierarchy.old {
          inside = hierarchy.old.inside ++ held_by_one sets.now item name.now;
        }) }
{
    let Some(set) = set_named(sets, name) else {
        return Ok(());
    };
    hierarchy.put(item, set)?;
    Ok(())
}

// The number of the first set of a name, where there is one.
fn set_named(sets: &[ItemTable<'_>], name: &str) -> Option<usize>
    ensures { result ≡ set_named sets.now name.now }
{
    sets.iter().position(|set| set.name == name)
}
