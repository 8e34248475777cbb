// The columns of a table by their kinds.

ghost use Rattle.std.specs.List.{list_any, filter, AllByRecursion};
ghost use Rattle.std.specs.Prelude.{◌≡◌, ◌==◌, map, MatchOption, IfOk};
ghost use Rattle.kinds.specs.Kind.{kind_number};
ghost use Rattle.column_store.specs.Inside.{empty_column, seen_slot, standing_at, IsAtHome, IsKindPlaced, IsNoKind};
ghost use Rattle.column_store.specs.Kinds.{in_order};
ghost use Rattle.column_store.specs.Table.Standing.{Owned};

use crate::column_slot::{ColumnSlot, copied_slots, empty_columns};
use crate::order::column_in;
use kinds::Kind;
use std::alloc::{AllocError, Global};

// The columns of a table: a slot for each of its kinds.
#[derive(Drop)]
pub(crate) struct Columns {
    pub(crate) kinds: Vec<Kind>,
    pub(crate) slots: Vec<ColumnSlot>,
}

impl Columns {
    // Those of these kinds, each once and in rising numbers, without components.
    pub(crate) fn new(alloc: Global, kinds: &[Kind]) -> Result<Self, AllocError>
        ensures kinds { IfOk result (λ columns. map kind_number columns.kinds.items
            ≡ in_order (map kind_number kinds.now)) }
        ensures slots { IfOk result (λ columns. columns.slots.items
            ≡ map empty_column columns.kinds.items) }
    {
        let kinds = among(alloc, Kind::every(), kinds)?;
        let slots = empty_columns(alloc, &kinds)?;
        Ok(Columns { kinds, slots })
    }

    // The same columns, which are at home. Each copy is its table's alone.
    pub(crate) fn copy(&self, alloc: Global) -> Result<Self, AllocError>
        requires { AllByRecursion IsAtHome self.now.slots.items }
        ensures kinds { IfOk result (λ copy. copy.kinds.items ≡ self.now.kinds.items) }
        ensures slots { IfOk result (λ copy. map seen_slot copy.slots.items
            ≡ map (standing_at Owned) (map seen_slot self.now.slots.items)) }
    {
        let kinds = Vec::from_slice(alloc, self.kinds.as_slice())?;
        let slots = copied_slots(alloc, &self.slots)?;
        Ok(Columns { kinds, slots })
    }

    // The place of the column of a kind.
    pub(crate) fn place(&self, kind: Kind) -> Option<usize>
        ensures { MatchOption result (IsNoKind (map kind_number self.now.kinds.items) (kind_number
            kind)) (IsKindPlaced (map kind_number self.now.kinds.items) (kind_number kind)) }
    {
        column_in(&self.kinds, kind.number())
    }
}

// Those of all the kinds that are among some.
fn among(alloc: Global, all: &[Kind], kinds: &[Kind]) -> Result<Vec<Kind>, AllocError>
    ensures { IfOk result (λ list. list.items
        ≡ filter (λ kind. list_any (λ k. kind_number k == kind_number kind) kinds.now)
        all.now) }
{
    all.iter()
        .copied()
        .filter(|kind| is_among(*kind, kinds))
        .collect(alloc)
}

// Whether a kind is among some.
fn is_among(kind: Kind, kinds: &[Kind]) -> bool
    ensures { result ≡ list_any (λ k. kind_number k == kind_number kind) kinds.now }
{
    kinds.iter().any(|k| k.number() == kind.number())
}
