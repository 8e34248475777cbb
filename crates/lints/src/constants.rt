// What is found of conditions: which of them always answer alike.

ghost use Rattle.std.specs.Prelude.{◌≡◌, ◌<◌, ℕ, OnOk, length, option_map, not, false};
ghost use Rattle.kinds.specs.Kind.{kind_number};
ghost use Rattle.kinds.specs.Res.{res_number};
ghost use Rattle.lints.specs.Collected.{Adds, Among};
ghost use Rattle.lints.specs.Constants.{IsOfAnswer, IsOfCondition, both, decided, is_there, is_unmet, no_where, one_of, says_no, says_yes, start_at, unless};
ghost use Rattle.run_condition.specs.Tree.{condition_of};

use crate::adding::add_where;
use crate::file::{is_changed, is_written};
use crate::lint::Lint;
use crate::queries::requires_kind;
use kinds::{Kind, Res};
use query::Query;
use run_condition::Tree;
use schedule_builder::Built;
use std::alloc::AllocError;

// What is known of what conditions ask about: what systems write, what resources are at the start, and which kinds are on some entity.
#[derive(Clone, Copy)]
pub(crate) struct Known<'a> {
    pub built: &'a Built,
    pub values: &'a [i64; 8],
    pub present: &'a [bool],
}

// The value of a resource at the start.
fn start_at(values: &[i64], res: Res) -> i64
    ensures { result ≡ start_at values.now (res_number res) }
{
    match values.get(res.number() as usize) {
        Some(value) => *value,
        None => 0,
    }
}

// Whether a kind is on some entity, or is inserted.
fn is_there(present: &[bool], kind: Kind) -> bool
    ensures { result ≡ is_there present.now (kind_number kind) }
{
    match present.get(kind.number() as usize) {
        Some(yes) => *yes,
        None => false,
    }
}

// Whether a query requires a kind that is not.
fn is_unmet(present: &[bool], query: &Query) -> bool
    ensures { result ≡ is_unmet present.now query.now }
{
    Kind::ALL.iter().any(|kind| requires_kind(query, *kind) && !is_there(present, *kind))
}

// An answer, where nothing changes it.
fn unless(changes: bool, answer: bool) -> Option<bool>
    ensures { result ≡ unless changes answer }
{
    if changes { None } else { Some(answer) }
}

// No, where something never is.
fn no_where(never: bool) -> Option<bool>
    ensures { result ≡ no_where never }
{
    if never { Some(false) } else { None }
}

// The other answer.
fn other(answer: Option<bool>) -> Option<bool>
    ensures { result ≡ option_map not answer }
{
    match answer {
        Some(yes) => Some(!yes),
        None => None,
    }
}

// Whether both hold, as far as it is known.
fn both(one: Option<bool>, two: Option<bool>) -> Option<bool>
    ensures { result ≡ both one two }
{
    match (one, two) {
        (Some(false), _) => Some(false),
        (Some(true), two) => two,
        (None, Some(false)) => Some(false),
        (None, _) => None,
    }
}

// Whether one or the other holds, as far as it is known.
fn one_of(one: Option<bool>, two: Option<bool>) -> Option<bool>
    ensures { result ≡ one_of one two }
{
    match (one, two) {
        (Some(true), _) => Some(true),
        (Some(false), two) => two,
        (None, Some(true)) => Some(true),
        (None, _) => None,
    }
}

// The answer that a condition always gives.
fn decided(known: &Known<'_>, tree: &Tree) -> Option<bool>
    ensures { result ≡ decided known.now.built.now known.now.values.now known.now.present.now
        (condition_of tree.now) }
{
    match tree {
        Tree::RunOnce => None,
        Tree::ResourceEquals(res, value) => {
            let answer = start_at(known.values.as_slice(), *res) == *value;
            unless(is_changed(known.built, *res), answer)
        }
        Tree::ResourceAtLeast(res, value) => {
            let answer = *value <= start_at(known.values.as_slice(), *res);
            unless(is_changed(known.built, *res), answer)
        }
        Tree::ResourceChanged(_) => None,
        Tree::AnyWith(query) => no_where(is_unmet(known.present, query)),
        Tree::OnEvent(event) => unless(is_written(known.built, *event), false),
        Tree::Not(inner) => other(decided(known, inner)),
        Tree::And(left, right) => both(decided(known, left), decided(known, right)),
        Tree::Or(left, right) => one_of(decided(known, left), decided(known, right)),
    }
}

// Whether an answer is known, and is yes.
fn says_yes(answer: Option<bool>) -> bool
    ensures { result ≡ says_yes answer }
{
    match answer {
        Some(yes) => yes,
        None => false,
    }
}

// Whether an answer is known, and is no.
fn says_no(answer: Option<bool>) -> bool
    ensures { result ≡ says_no answer }
{
    match answer {
        Some(yes) => !yes,
        None => false,
    }
}

// Adds what is found of the condition of a number, of which this is known.
fn add_of_answer(
    found: &mut Vec<Lint>,
    answer: Option<bool>,
    condition: u32,
) -> Result<(), AllocError>
    ensures { OnOk result (Adds (IsOfAnswer answer condition) found.old.items found.new.items) }
{
    let yes = Lint::ConstantCondition {
        condition,
        says: true,
    };
    let no = Lint::ConstantCondition {
        condition,
        says: false,
    };
    add_where(found, says_yes(answer), yes)?;
    add_where(found, says_no(answer), no)?;
    Ok(())
}

// Adds what is found of the condition of a number.
fn add_of_condition(
    found: &mut Vec<Lint>,
    known: &Known<'_>,
    condition: u32,
) -> Result<(), AllocError>
    requires { condition < length known.now.built.now.conditions }
    ensures { OnOk result (Adds (IsOfCondition known.now.built.now known.now.values.now
        known.now.present.now condition) found.old.items found.new.items) }
{
    let asked = known.built.condition(condition);
    add_of_answer(found, decided(known, asked.cond().tree()), condition)?;
    Ok(())
}

// Adds what is found of the conditions.
pub(crate) fn add_of_conditions(found: &mut Vec<Lint>, known: &Known<'_>) -> Result<(), AllocError>
    ensures { OnOk result (Adds (Among (length known.now.built.now.conditions)
        (IsOfCondition known.now.built.now known.now.values.now known.now.present.now))
        found.old.items found.new.items) }
{
    for condition in 0..known.built.condition_count() {
        add_of_condition(found, known, condition)?;
    }
    Ok(())
}
