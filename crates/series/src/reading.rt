// Series read from their names.

ghost use Rattle.std.specs.Prelude.{◌≡◌, map, IfErr, IfOk, MatchOption};
ghost use Rattle.std.specs.List.{list_any};
ghost use Rattle.model.specs.access.Query.{is_filter};
ghost use Rattle.query.specs.Term.{term_of};
ghost use Rattle.series.specs.Names.{CountsNone, HasNone, IsCounted, IsMisnamed, IsSeries, IsSummed, IsWithin, SumsNone, UnlessMemory, has_axis};

use crate::series::Series;
use kinds::Res;
use parsing::ReadError;
use query::{Query, Term};
use script::{Axis, Field};
use std::alloc::Global;

/// Why a text names no series.
#[derive(Clone, Copy, PartialEq, Eq, Debug)]
pub enum NameFault {
    /// It is neither the name of a resource, nor a count, nor a sum.
    Unknown,
    /// What is counted is no query.
    Query,
    /// The query that is counted has a fault.
    BadQuery,
    /// The query that is counted asks for what is new.
    New,
    /// What is summed is no field of a kind.
    Field,
    /// An allocation failed.
    Memory,
}

impl Series {
    /// Reads a series: the name of a resource, `count(QUERY)`, where a query is spelled as in a program file and asks for nothing that is new, or
    /// `sum(FIELD)`, as in `sum(Health.v)`.
    pub fn read(alloc: Global, text: &str) -> Result<Series, NameFault>
        ensures ok { IfOk result (λ series. IsSeries series text.now) }
        ensures err { IfErr result (IsMisnamed text.now) }
    {
        if let Some(res) = Res::named(text) {
            return Ok(Series::Resource(res));
        }
        if let Some(within) = inside(text, "count(") {
            let query = read_counted(alloc, within)?;
            return Ok(Series::Count(query));
        }
        match inside(text, "sum(") {
            Some(within) => {
                let field = read_summed(within)?;
                Ok(Series::Sum(field))
            }
            None => Err(NameFault::Unknown),
        }
    }
}

// What stands between an opening and the last parenthesis of a text.
fn inside<'a>(text: &'a str, opening: &str) -> Option<&'a str>
    ensures { MatchOption result (HasNone opening.now text.now)
        (λ within. IsWithin opening.now within.now text.now) }
{
    let rest = text.strip_prefix(opening)?;
    rest.strip_suffix(')')
}

// The query that is counted.
fn read_counted(alloc: Global, text: &str) -> Result<Query, NameFault>
    ensures ok { IfOk result (λ query. IsCounted query text.now) }
    ensures err { IfErr result (λ fault. UnlessMemory fault (CountsNone text.now)) }
{
    let query = match Query::read(alloc, text) {
        Ok(query) => query,
        Err(ReadError::Outside) => return Err(NameFault::Query),
        Err(ReadError::Memory) => return Err(NameFault::Memory),
    };
    if query.check().is_err() {
        return Err(NameFault::BadQuery);
    }
    if any_new(query.terms()) {
        return Err(NameFault::New);
    }
    Ok(query)
}

// Whether one of these terms asks for what is new.
fn any_new(terms: &[Term]) -> bool
    ensures { result ≡ list_any is_filter (map term_of terms.now) }
{
    for term in terms {
        if term.is_filter() {
            return true;
        }
    }
    false
}

// The field that is summed.
fn read_summed(word: &str) -> Result<Field, NameFault>
    ensures ok { IfOk result (λ field. IsSummed field word.now) }
    ensures err { IfErr result (λ fault. UnlessMemory fault (SumsNone word.now)) }
{
    let Some(field) = Field::read(word) else {
        return Err(NameFault::Field);
    };
    if has_axis(field) {
        Ok(field)
    } else {
        Err(NameFault::Field)
    }
}

// Whether the components of the kind have the field.
fn has_axis(field: Field) -> bool
    ensures { result ≡ has_axis field }
{
    let width = field.kind.width();
    match field.axis {
        Axis::X | Axis::Y => width == 2,
        Axis::V => width == 1,
    }
}
