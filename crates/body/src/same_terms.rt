// Whether two queries have the same terms.

ghost use Rattle.std.specs.Prelude.{◌≡◌, map, IsTrue};
ghost use Rattle.query.specs.Alternative.{alternative_of};
ghost use Rattle.query.specs.Term.{term_of};

use query::{Alternative, Term};

// Whether these terms are the same, one by one.
pub(crate) fn same_terms(terms: &[Term], others: &[Term]) -> bool
    ensures { IsTrue result → map term_of terms.now ≡ map term_of others.now }
{
    let Some((term, later)) = terms.split_first() else {
        return others.is_empty();
    };
    let Some((other, others_later)) = others.split_first() else {
        return false;
    };
    is_same(*term, *other) && same_terms(later, others_later)
}

// Whether two terms are the same.
fn is_same(term: Term, other: Term) -> bool
    ensures { IsTrue result → term_of term ≡ term_of other }
{
    match term {
        Term::Entity => matches!(other, Term::Entity),
        Term::Read(kind) => matches!(other, Term::Read(same) if same.number() == kind.number()),
        Term::Mut(kind) => matches!(other, Term::Mut(same) if same.number() == kind.number()),
        Term::Opt(kind) => matches!(other, Term::Opt(same) if same.number() == kind.number()),
        Term::With(kind) => matches!(other, Term::With(same) if same.number() == kind.number()),
        Term::Without(kind) => {
            matches!(other, Term::Without(same) if same.number() == kind.number())
        }
        Term::Added(kind) => matches!(other, Term::Added(same) if same.number() == kind.number()),
        Term::Changed(kind) => {
            matches!(other, Term::Changed(same) if same.number() == kind.number())
        }
        Term::Or(alternatives) => match other {
            Term::Or(same) => same_alternatives(alternatives.as_slice(), same.as_slice()),
            _ => false,
        },
    }
}

// Whether these alternatives are the same, one by one.
fn same_alternatives(alternatives: &[Alternative], others: &[Alternative]) -> bool
    ensures { IsTrue result → map alternative_of alternatives.now ≡ map alternative_of others.now }
{
    let Some((alternative, later)) = alternatives.split_first() else {
        return others.is_empty();
    };
    let Some((other, others_later)) = others.split_first() else {
        return false;
    };
    is_same_alternative(*alternative, *other) && same_alternatives(later, others_later)
}

// Whether two alternatives are the same.
fn is_same_alternative(alternative: Alternative, other: Alternative) -> bool
    ensures { IsTrue result → alternative_of alternative ≡ alternative_of other }
{
    match alternative {
        Alternative::With(kind) => {
            matches!(other, Alternative::With(same) if same.number() == kind.number())
        }
        Alternative::Without(kind) => {
            matches!(other, Alternative::Without(same) if same.number() == kind.number())
        }
    }
}
