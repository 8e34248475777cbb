// The order of entities, and places in lists.

ghost use Rattle.std.specs.Prelude.{◌≡◌, ◌==◌, ◌<◌, ◌^◌, length, position};
ghost use Rattle.kinds.specs.Kind.{kind_number};
ghost use Rattle.column_store.specs.Order.{is_before};

use entity_table::Entity;
use kinds::Kind;

// Whether an id comes before another: by index, then by generation.
pub(crate) fn is_before(one: Entity, other: Entity) -> bool
    ensures { result ≡ is_before one other }
{
    one.index < other.index || (one.index == other.index && one.generation < other.generation)
}

// The place of the kind with this number.
pub(crate) fn column_in(kinds: &[Kind], number: u32) -> Option<usize>
    ensures { result ≡ position (λ kind. kind_number kind == number) kinds.now }
{
    kinds.iter().position(|kind| kind.number() == number)
}

// The length of a list fits, and so do its places.
pub(crate) fn prove_len<T>(list: &[T])
    ensures { length list.now < 2 ^ 64 }
{
    list.len();
}
