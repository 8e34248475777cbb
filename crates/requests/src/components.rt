// Components, read from words.

ghost use Rattle.std.specs.Prelude.{◌≡◌, IfOk, IfErr, IfSome, map};
ghost use Rattle.std.specs.Option.{option_map};
ghost use Rattle.kinds.specs.Kind.{kind_number};
ghost use Rattle.kinds.specs.Value.{value_number, value_words};
ghost use Rattle.parsing.specs.Reads.{Reads, Refuses, SpellsOnly};
ghost use Rattle.body.specs.Inputs.{given_by};
ghost use Rattle.requests.specs.Grammar.{AreFields, AreComponents};
ghost use Rattle.requests.specs.Parts.{BeginsWithComponent};

use kinds::{Kind, Value};
use parsing::ReadError;
use parsing::integer::read_integer;
use std::alloc::Global;

/// The component of a kind of which the words are the fields.
pub(crate) fn component_of(kind: Kind, words: &[&str]) -> Option<Value>
    ensures kind { IfSome result (λ value. value_number value ≡ kind_number kind) }
    ensures fields { Reads (AreFields (kind_number kind)) (map (λ word. word.now) words.now)
        (option_map value_words result) }
{
    if words.len() != kind.width() {
        return None;
    }
    match words {
        [] => Some(Value::of(kind, &[])),
        [v] => Some(Value::of(kind, &[read_integer(v)?])),
        [x, y] => Some(Value::of(kind, &[read_integer(x)?, read_integer(y)?])),
        _ => None,
    }
}

// The component that the first of the words are, and how many words it takes.
fn first_component(words: &[&str]) -> Option<(Value, usize)>
    ensures { Reads BeginsWithComponent (map (λ word. word.now) words.now)
        (option_map (λ first. (given_by first.0, first.1)) result) }
{
    let (name, behind) = words.split_first()?;
    let kind = Kind::named(name)?;
    let width = kind.width();
    let (fields, _) = behind.split_at_checked(width)?;
    Some((component_of(kind, fields)?, width + 1))
}

/// The components that the words are, one behind the other.
pub(crate) fn components_of(alloc: Global, words: &[&str]) -> Result<Vec<Value>, ReadError>
    ensures ok { IfOk result (λ values. SpellsOnly AreComponents (map (λ word. word.now) words.now)
        (map given_by values.items)) }
    ensures err { IfErr result (Refuses AreComponents (map (λ word. word.now) words.now)) }
{
    let mut values = Vec::new(alloc);
    let mut taken = 0;
    while taken < words.len() {
        let Some((value, count)) = first_component(&words[taken..]) else {
            return Err(ReadError::Outside);
        };
        values.push(value)?;
        taken += count;
    }
    Ok(values)
}
