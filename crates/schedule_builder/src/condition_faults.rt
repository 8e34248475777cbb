// The conditions of declared items: their numbers, and what is wrong with one.

ghost use Rattle.std.specs.Prelude.{◌≡◌, ◌<◌, ◌++◌, ◌∷◌, ℕ, true, false, map, length, IfOk, OnOk};
ghost use Rattle.std.specs.Bool.{MatchBool};
ghost use Rattle.std.specs.List.{list_any};
ghost use Rattle.std.specs.Option.{is_some};
ghost use Rattle.model.specs.access.Query.{written, writes};
ghost use Rattle.query.specs.Term.{term_of};
ghost use Rattle.model.specs.access.Condition.{queries_of};
ghost use Rattle.schedule_builder.specs.Asked.{asked_of, owners_of, TellsBadCondition, TellsWriting, HasWriting, AreScheduledConditions};
ghost use Rattle.schedule_builder.specs.Queries.{TellsFault};

use crate::condition::Condition;
use crate::desc::ScheduleDesc;
use crate::query_faults::fault_of;
use query::{Query, Term};
use run_condition::Cond;
use std::alloc::{AllocError, Global};
use system_set::Members;

// Adds these conditions behind the others.
fn push_conditions<'a>(conditions: &'a [Cond], asked: &mut Vec<&'a Cond>) -> Result<(), AllocError>
    ensures { OnOk result (map (λ c. c.now) asked.new.items
        ≡ map (λ c. c.now) asked.old.items ++ conditions.now) }
{
    for condition in conditions {
        asked.push(condition)?;
    }
    Ok(())
}

/// The conditions of all items by number.
pub(crate) fn conditions_of(alloc: Global, desc: &ScheduleDesc) -> Result<Vec<&Cond>, AllocError>
    ensures { IfOk result (λ asked. map (λ c. c.now) asked.items ≡ asked_of desc.now) }
{
    let mut asked = Vec::new(alloc);
    for number in 0..desc.count() {
        push_conditions(desc.item(number).conditions(), &mut asked)?;
    }
    Ok(asked)
}

// Adds the number once for each of these conditions.
fn push_owner(number: usize, conditions: &[Cond], owners: &mut Vec<usize>) -> Result<(), AllocError>
    ensures { OnOk result (owners.new.items
        ≡ owners.old.items ++ map (λ _. number) conditions.now) }
{
    for _ in conditions {
        owners.push(number)?;
    }
    Ok(())
}

/// The item of each condition.
pub(crate) fn owners_of(alloc: Global, desc: &ScheduleDesc) -> Result<Vec<usize>, AllocError>
    ensures { IfOk result (λ owners. owners.items ≡ owners_of desc.now) }
{
    let mut owners = Vec::new(alloc);
    for number in 0..desc.count() {
        push_owner(number, desc.item(number).conditions(), &mut owners)?;
    }
    Ok(owners)
}

// The first of these queries at fault, by its number, with its least fault.
fn first_at_fault(queries: &[&Query]) -> Option<(usize, u32)>
    ensures { TellsFault (map (λ q. q.now) queries.now) result }
{
    for (number, query) in queries.iter().enumerate() {
        if let Some(case) = fault_of(query) {
            return Some((number, case));
        }
    }
    None
}

/// The first condition with a query at fault and its first such query, by their numbers, with the least fault of that query.
pub(crate) fn first_bad_condition(
    alloc: Global,
    conditions: &[&Cond],
) -> Result<Option<(usize, usize, u32)>, AllocError>
    ensures { IfOk result (TellsBadCondition (map (λ c. c.now) conditions.now)) }
{
    for (number, condition) in conditions.iter().enumerate() {
        let queries = condition.queries(alloc)?;
        if let Some((query, case)) = first_at_fault(queries.as_slice()) {
            return Ok(Some((number, query, case)));
        }
    }
    Ok(None)
}

// Whether one of the terms writes a kind.
fn is_any_written(terms: &[Term]) -> bool
    ensures { result ≡ list_any (λ t. is_some (written (term_of t))) terms.now }
{
    terms.iter().any(|term| term.written().is_some())
}

// Whether the query writes a kind.
fn is_writing(query: &Query) -> bool
    ensures { MatchBool result ((kind : ℕ) × (writes query.now kind ≡ true)) ((kind : ℕ)
        → writes query.now kind ≡ false) }
{
    is_any_written(query.terms())
}

// Whether one of the queries writes a kind.
fn has_writing(queries: &[&Query]) -> bool
    ensures { MatchBool result (HasWriting (map (λ q. q.now) queries.now)) (HasWriting (map
        (λ q. q.now) queries.now)
        → ⊥) }
{
    for query in queries {
        if is_writing(query) {
            return true;
        }
    }
    false
}

/// The first condition that writes.
pub(crate) fn first_writing(
    alloc: Global,
    conditions: &[&Cond],
) -> Result<Option<usize>, AllocError>
    ensures { IfOk result (TellsWriting (map (λ c. c.now) conditions.now)) }
{
    for (number, condition) in conditions.iter().enumerate() {
        let queries = condition.queries(alloc)?;
        if has_writing(queries.as_slice()) {
            return Ok(Some(number));
        }
    }
    Ok(None)
}

/// The conditions of a schedule: each with what it asks about and the systems that it covers.
pub(crate) fn scheduled_conditions(
    alloc: Global,
    asked: Vec<Cond>,
    coverage: &[Members],
) -> Result<Vec<Condition>, AllocError>
    requires { length coverage.now ≡ length asked.items }
    ensures { IfOk result (λ conditions. AreScheduledConditions asked.items coverage.now
        conditions.items) }
{
    let mut conditions = Vec::new(alloc);
    for cond in asked {
        let covers = coverage[conditions.len()].numbers().to_vec(alloc)?;
        conditions.push(Condition::new(alloc, cond, covers)?)?;
    }
    Ok(conditions)
}
