// Which column has the components of a kind in an archetype of a query.

ghost use Rattle.std.specs.Prelude.{◌≡◌, ◌<◌, Some, None, [], replicate, map, length, slice_set, IfOk};
ghost use Rattle.std.specs.List.{list_any, AllByRecursion};
ghost use Rattle.kinds.specs.Kind.{kind_number, kind_count};
ghost use Rattle.model.specs.Lists.{is_number, update_at};
ghost use Rattle.query.specs.Term.{term_of};
ghost use Rattle.body.specs.HeldColumns.{held_seen, slots_seen};
ghost use Rattle.body.specs.Seen.{fetched, fetches as query_fetches};
ghost use Rattle.body.specs.SlotTable.{AreSlotsOf, is_slot_kind, with_slot};

use crate::view_column::ViewColumn;
use crate::view_query::ColumnIndex;
use kinds::Kind;
use kinds::kind::prove_kinds_apart;
use query::Term;
use std::alloc::AllocError;

// Whether one of these terms fetches a kind.
fn any_fetches(terms: &[Term], kind: Kind) -> bool
    ensures { result
        ≡ list_any (λ term. is_number (kind_number kind) (fetched (term_of term))) terms.now }
{
    terms.iter().any(|term| term.fetches(kind))
}

// Whether a query with these terms fetches a kind.
#[tactic(auto, using(crate::proofs::Tables::over_terms))]
fn fetches(terms: &[Term], kind: Kind) -> bool
    ensures { result ≡ query_fetches (map term_of terms.now) (kind_number kind) }
{
    any_fetches(terms, kind)
}

// Tables of so many archetypes, without a column, in the room of an empty list.
#[tactic(auto, using(crate::proofs::States::repeated))]
pub(crate) fn no_slots(
    slots: Vec<ColumnIndex>,
    archetypes: usize,
) -> Result<Vec<ColumnIndex>, AllocError>
    requires { slots.items ≡ [] }
    ensures { IfOk result (λ slots. slots.items
        ≡ replicate archetypes (record { columns = replicate kind_count None })) }
{
    let mut slots = slots;
    slots.reserve(archetypes)?;
    for _made in 0..archetypes {
        slots.push(ColumnIndex {
            columns: [None; Kind::COUNT],
        })?;
    }
    Ok(slots)
}

// Notes the number of the column of a kind in an archetype.
fn set_slot(slots: &mut Vec<ColumnIndex>, archetype: usize, kind: Kind, column: u32)
    requires { archetype < length slots.old.items }
    ensures slots { map slots_seen slots.new.items
        ≡ with_slot archetype (kind_number kind) column (map slots_seen slots.old.items) }
    ensures kind { kind_number kind < kind_count }
{
    prove_kinds_apart();
    let row = &mut slots[archetype];
    row.columns[kind.number() as usize] = Some(column);
}

// Notes the number of a column, if its kind is fetched.
fn add_slot(slots: &mut Vec<ColumnIndex>, terms: &[Term], held: &ViewColumn, column: u32)
    requires { (held_seen held.now).archetype < length slots.old.items }
    ensures slots { map slots_seen slots.new.items
        ≡ is_slot_kind (map term_of terms.now) (held_seen held.now) column (map slots_seen
        slots.old.items) }
    ensures kind { (held_seen held.now).kind < kind_count }
{
    prove_kinds_apart();
    let kind = held.kind();
    if fetches(terms, kind) {
        set_slot(slots, held.archetype, kind, column);
    }
}

// Notes the number of each of these columns, of which there are so many, if its kind is fetched: in tables without a column.
pub(crate) fn fill_slots(
    slots: &mut Vec<ColumnIndex>,
    terms: &[Term],
    columns: &[ViewColumn],
    count: u32,
)
    requires empty { slots.old.items
        ≡ replicate (length slots.old.items) (record { columns = replicate kind_count None }) }
    requires within { AllByRecursion (λ column. column.archetype < length slots.old.items) (map
        held_seen columns.now) }
    requires count { length columns.now ≡ count }
    ensures { AreSlotsOf (map term_of terms.now) (length slots.old.items)
        (map held_seen columns.now) (map slots_seen slots.new.items) }
{
    for at in 0..count {
        add_slot(slots, terms, &columns[at as usize], at);
    }
}
