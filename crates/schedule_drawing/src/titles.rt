// The texts of conditions, and of what systems read and write, as a program file spells them.

use access_set::Params;
use query::{Alternative, Query, Term};
use run_condition::Tree;
use schedule_builder::Built;
use std::alloc::{AllocError, Global};

/// The texts of the conditions of a schedule, by number.
pub fn conditions_of(alloc: Global, built: &Built) -> Result<Vec<String>, AllocError> {
    let mut texts = Vec::new(alloc);
    for condition in built.conditions() {
        let mut text = String::new(alloc);
        push_tree(&mut text, condition.cond().tree())?;
        texts.push(text)?;
    }
    Ok(texts)
}

/// What each system of a schedule reads and writes, by its number: its queries, its resources and its event kinds, and
/// the ids that it is granted.
pub fn touched_of(alloc: Global, built: &Built) -> Result<Vec<String>, AllocError> {
    let mut texts = Vec::new(alloc);
    for system in built.systems() {
        texts.push(text_of_params(alloc, system.params())?)?;
    }
    Ok(texts)
}

// What these parameters read and write.
fn text_of_params(alloc: Global, params: &Params) -> Result<String, AllocError> {
    let mut text = String::new(alloc);
    for query in params.queries() {
        push_key(&mut text, "query")?;
        push_query(&mut text, query)?;
    }
    for resource in params.res() {
        push_key(&mut text, "res")?;
        write!(text, "{resource}")?;
    }
    for resource in params.res_mut() {
        push_key(&mut text, "res_mut")?;
        write!(text, "{resource}")?;
    }
    for event in params.reads() {
        push_key(&mut text, "reads")?;
        write!(text, "{event}")?;
    }
    for event in params.writes() {
        push_key(&mut text, "writes")?;
        write!(text, "{event}")?;
    }
    if let Some(count) = params.spawns() {
        push_key(&mut text, "spawns")?;
        write!(text, "{count}")?;
    }
    if text.is_empty() {
        text.push_str("touches nothing")?;
    }
    Ok(text)
}

// Begins a part behind others.
fn push_key(text: &mut String, key: &str) -> Result<(), AllocError> {
    if !text.is_empty() {
        text.push_str("; ")?;
    }
    write!(text, "{key} ")
}

// Adds a condition.
fn push_tree(text: &mut String, tree: &Tree) -> Result<(), AllocError> {
    match tree {
        Tree::RunOnce => {
            text.push_str("run_once")?;
            Ok(())
        }
        Tree::ResourceEquals(resource, value) => {
            write!(text, "resource_equals({resource}, {value})")
        }
        Tree::ResourceAtLeast(resource, value) => {
            write!(text, "resource_at_least({resource}, {value})")
        }
        Tree::ResourceChanged(resource) => write!(text, "resource_changed({resource})"),
        Tree::AnyWith(query) => {
            text.push_str("any_with(")?;
            push_query(text, query)?;
            text.push_str(")")?;
            Ok(())
        }
        Tree::OnEvent(event) => write!(text, "on_event({event})"),
        Tree::Not(inner) => {
            text.push_str("not(")?;
            push_tree(text, inner)?;
            text.push_str(")")?;
            Ok(())
        }
        Tree::And(left, right) => {
            text.push_str("and(")?;
            push_tree(text, left)?;
            text.push_str(", ")?;
            push_tree(text, right)?;
            text.push_str(")")?;
            Ok(())
        }
        Tree::Or(left, right) => {
            text.push_str("or(")?;
            push_tree(text, left)?;
            text.push_str(", ")?;
            push_tree(text, right)?;
            text.push_str(")")?;
            Ok(())
        }
    }
}

// Adds a query.
fn push_query(text: &mut String, query: &Query) -> Result<(), AllocError> {
    let mut between = "";
    for term in query.terms() {
        text.push_str(between)?;
        push_term(text, *term)?;
        between = ", ";
    }
    Ok(())
}

// Adds a term of a query.
fn push_term(text: &mut String, term: Term) -> Result<(), AllocError> {
    match term {
        Term::Entity => {
            text.push_str("entity")?;
            Ok(())
        }
        Term::Read(kind) => write!(text, "read {kind}"),
        Term::Mut(kind) => write!(text, "mut {kind}"),
        Term::Opt(kind) => write!(text, "opt {kind}"),
        Term::With(kind) => write!(text, "with {kind}"),
        Term::Without(kind) => write!(text, "without {kind}"),
        Term::Added(kind) => write!(text, "added {kind}"),
        Term::Changed(kind) => write!(text, "changed {kind}"),
        Term::Or(alternatives) => push_alternatives(text, alternatives.as_slice()),
    }
}

// Adds the alternatives of an `or` term.
fn push_alternatives(text: &mut String, alternatives: &[Alternative]) -> Result<(), AllocError> {
    text.push_str("or")?;
    for alternative in alternatives {
        match alternative {
            Alternative::With(kind) => write!(text, " with {kind}")?,
            Alternative::Without(kind) => write!(text, " without {kind}")?,
        }
    }
    Ok(())
}
