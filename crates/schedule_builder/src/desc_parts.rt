// What of declared items a schedule is built of.

ghost use Rattle.std.specs.Prelude.{◌≡◌, ◌++◌, map, flat_map, IfOk, OnOk};
ghost use Rattle.model.specs.declarations.Declarations.{items_of};

use crate::desc::{ItemDesc, ScheduleDesc, SystemDesc};
use access_set::Params;
use run_condition::Cond;
use std::alloc::{AllocError, Global};

/// The parameters of the systems, in declared order, and the conditions by number.
#[derive(Drop)]
pub(crate) struct Parts {
    pub(crate) params: Vec<Params>,
    pub(crate) conditions: Vec<Cond>,
}

// Moves these conditions behind the others.
fn append_conditions(conditions: &mut Vec<Cond>, more: Vec<Cond>) -> Result<(), AllocError>
    ensures { OnOk result (conditions.new.items ≡ conditions.old.items ++ more.items) }
{
    for condition in more {
        conditions.push(condition)?;
    }
    Ok(())
}

// The conditions of sets.
fn conditions_of_sets(alloc: Global, sets: Vec<ItemDesc>) -> Result<Vec<Cond>, AllocError>
    ensures { IfOk result (λ conditions. conditions.items
        ≡ flat_map (λ s. s.conditions) sets.items) }
{
    let mut conditions = Vec::new(alloc);
    for set in sets {
        append_conditions(&mut conditions, set.into_conditions())?;
    }
    Ok(conditions)
}

// The parameters of systems, and their conditions behind those of sets.
fn parts_of_systems(
    alloc: Global,
    conditions: Vec<Cond>,
    systems: Vec<SystemDesc>,
) -> Result<Parts, AllocError>
    ensures params { IfOk result (λ parts. parts.params.items ≡ map (λ s. s.params) systems.items) }
    ensures conditions { IfOk result (λ parts. parts.conditions.items
        ≡ conditions.items ++ flat_map (λ s. s.item.conditions) systems.items) }
{
    let mut params = Vec::new(alloc);
    let mut moved = conditions;
    for system in systems {
        let (item, touched) = system.into_parts();
        params.push(touched)?;
        append_conditions(&mut moved, item.into_conditions())?;
    }
    Ok(Parts {
        params,
        conditions: moved,
    })
}

impl ScheduleDesc {
    /// What a schedule is built of.
    pub(crate) fn into_parts(self, alloc: Global) -> Result<Parts, AllocError>
        ensures params { IfOk result (λ parts. parts.params.items
            ≡ map (λ s. s.params) self.systems) }
        ensures conditions { IfOk result (λ parts. parts.conditions.items
            ≡ flat_map (λ i. i.conditions) (items_of self)) }
    {
        let (sets, systems) = self.into_items();
        let conditions = conditions_of_sets(alloc, sets)?;
        parts_of_systems(alloc, conditions, systems)
    }
}
