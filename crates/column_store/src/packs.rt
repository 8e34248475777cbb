// Lists of packed components, and what is done to one: written once for every shape.

ghost use Rattle.std.specs.Prelude.{◌≡◌, ◌+◌, ◌<◌, ◌≤◌, ◌++◌, ◌∷◌, ℕ, pos, [], map, option_map, Some, length, get_or, slice_get, slice_set, vec_capacity};
ghost use Rattle.kinds.specs.Components.{widths, word_at};
ghost use Rattle.kinds.specs.Value.{value_number, value_words};
ghost use Rattle.column_store.specs.Fields.{with_field_words};
ghost use Rattle.column_store.specs.Swapped.{swap_removed};

use crate::order::prove_len;
use crate::packed::Packed;
use kinds::Value;

// Replaces the component at a place.
#[tactic(auto, using(crate::proofs::Lists::edits))]
pub(crate) fn set_in<P: Packed>(items: &mut Vec<P>, place: usize, value: Value)
    requires width { widths (value_number value) ≡ P.WIDTH }
    requires within { place < length items.old.items }
    ensures words { map P.words items.new.items
        ≡ slice_set (map P.words items.old.items) place (value_words value) }
    ensures room { vec_capacity items.new ≡ vec_capacity items.old }
{
    items[place] = P::of(value);
}

// The words of a field of the components from a place on, as many as there is room for: 0 where there is no such field.
pub(crate) fn read_in<P: Packed>(items: &[P], from: usize, field: usize, values: &mut [i64])
    requires { from + length values.old ≤ length items.now }
    ensures length { length values.new ≡ length values.old }
    ensures values { (i : ℕ) → i < length values.old
        → option_map (λ ws. word_at ws field) (slice_get (map P.words items.now) (from + i))
        ≡ Some (get_or values.new i (pos 0)) }
{
    prove_len(items);
    for i in 0..values.len() {
        values[i] = items[from + i].word(field);
    }
}

// Replaces a field of the components from a place on by these values, a value a component.
pub(crate) fn write_in<P: Packed>(items: &mut Vec<P>, from: usize, field: usize, values: &[i64])
    requires { from + length values.now ≤ length items.old.items }
    ensures words { map P.words items.new.items
        ≡ with_field_words P.WIDTH field from values.now (map P.words items.old.items) }
    ensures room { vec_capacity items.new ≡ vec_capacity items.old }
{
    prove_len(items);
    for i in 0..values.len() {
        let place = from + i;
        items[place] = items[place].with_word(field, values[i]);
    }
}

// Adds a component at the end, where there is room.
#[tactic(auto, using(crate::proofs::Lists::edits))]
pub(crate) fn push_in<P: Packed>(items: &mut Vec<P>, value: Value)
    requires width { widths (value_number value) ≡ P.WIDTH }
    requires room { length items.old.items < vec_capacity items.old }
    ensures words { map P.words items.new.items
        ≡ map P.words items.old.items ++ value_words value ∷ [] }
    ensures room { vec_capacity items.new ≡ vec_capacity items.old }
{
    items.push_reserved(P::of(value));
}

// Removes the component at a place, and moves the last one there.
#[tactic(auto, using(crate::proofs::Lists::edits))]
pub(crate) fn swap_remove_in<P: Packed>(items: &mut Vec<P>, place: usize)
    requires { place < length items.old.items }
    ensures words { map P.words items.new.items ≡ swap_removed (map P.words items.old.items) place }
    ensures room { vec_capacity items.new ≡ vec_capacity items.old }
{
    items.swap_remove(place);
}
