// The shape of a query: what it asks of the kinds of archetypes, but for alternatives.

ghost use Rattle.std.specs.Prelude.{◌≡◌, map, option_map};
ghost use Rattle.kinds.specs.Kind.{kind_number};
ghost use Rattle.model.specs.access.QueryFaults.{required, excluded};
ghost use Rattle.query.specs.Term.{term_of};
ghost use Rattle.query_plan.specs.Candidates.{bit_named, word_by, shape_of};

use archetype_store::Shape;
use kinds::Kind;
use kinds::kind::prove_kinds_apart;
use query::{Query, Term};

/// The shape of a query: the kinds that its terms require, and those that they exclude.
pub fn shape_of(query: &Query) -> Shape
    ensures { result ≡ shape_of query.now }
{
    Shape {
        required: required_by(query.terms()),
        excluded: excluded_by(query.terms()),
    }
}

// The bits of the kinds that these terms require.
fn required_by(terms: &[Term]) -> u32
    ensures { result ≡ word_by required (map term_of terms.now) }
{
    let Some((term, others)) = terms.split_first() else {
        return 0;
    };
    bit_of(term.required()) | required_by(others)
}

// The bits of the kinds that these terms exclude.
fn excluded_by(terms: &[Term]) -> u32
    ensures { result ≡ word_by excluded (map term_of terms.now) }
{
    let Some((term, others)) = terms.split_first() else {
        return 0;
    };
    bit_of(term.excluded()) | excluded_by(others)
}

// The bit of a kind, where there is one.
fn bit_of(kind: Option<Kind>) -> u32
    ensures { result ≡ bit_named (option_map kind_number kind) }
{
    let Some(kind) = kind else {
        return 0;
    };
    prove_kinds_apart();
    1 << kind.number()
}
