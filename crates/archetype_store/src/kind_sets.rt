// The sets of kinds of the living entities.

ghost use Rattle.std.specs.List.{AllByRecursion};
ghost use Rattle.std.specs.Prelude.{◌≡◌, ◌<◌, ◌^◌, ◌++◌, map, sum_by, IfOk};
ghost use Rattle.kinds.specs.Kind.{kind_number};
ghost use Rattle.model.specs.state.KindSets.{set_limit};
ghost use Rattle.archetype_store.specs.LivingSets.{set_number, numbers_with, first_numbers, number_seen, entity_count};
ghost use Rattle.archetype_store.specs.View.{kinds_seen};

use crate::tables::ArchetypeView;
use kinds::Kind;
use kinds::kind::prove_kinds_apart;
use model::KindSets;
use std::alloc::{AllocError, Global};

// The number of these kinds.
pub(crate) fn number_of(kinds: &[Kind]) -> u32
    ensures sum { result ≡ set_number (map kind_number kinds.now) }
    ensures below { result < set_limit }
{
    let Some((kind, others)) = kinds.split_first() else {
        return 0;
    };
    prove_kinds_apart();
    (1 << kind.number()) | number_of(others)
}

// The numbers of the kinds of these archetypes, and where it is asked for that of no kinds first.
fn numbers_of(
    alloc: Global,
    views: &[ArchetypeView<'_>],
    without: bool,
) -> Result<Vec<u32>, AllocError>
    ensures numbers { IfOk result (λ numbers. numbers.items
        ≡ first_numbers without ++ map number_seen views.now) }
    ensures below { IfOk result (λ numbers. AllByRecursion (λ n. n < set_limit) numbers.items) }
{
    let mut numbers = Vec::new(alloc);
    if without {
        numbers.push(0)?;
    }
    for view in views {
        numbers.push(number_of(view.kinds))?;
    }
    Ok(numbers)
}

// The sets of kinds of these archetypes, and where it is asked for the one without kinds. The numbers are sorted first, so each is added
// behind those before it.
pub(crate) fn sets_of(
    alloc: Global,
    views: &[ArchetypeView<'_>],
    without: bool,
) -> Result<KindSets, AllocError>
    ensures { IfOk result (λ sets. sets
        ≡ numbers_with (map kinds_seen views.now) (first_numbers without)) }
{
    let mut numbers = numbers_of(alloc, views, without)?;
    numbers.sort_unstable();
    let mut sets = KindSets::none(alloc);
    for number in &numbers {
        sets.add(*number)?;
    }
    Ok(sets)
}

// How many entities these archetypes have.
pub(crate) fn entities_in(views: &[ArchetypeView<'_>]) -> usize
    requires { sum_by entity_count views.now < 2 ^ 64 }
    ensures { result ≡ sum_by entity_count views.now }
{
    views.iter().map(|view| view.entities.len()).sum()
}
