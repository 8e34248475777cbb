// Run conditions.

ghost use Rattle.std.specs.Prelude.{◌≡◌, ◌++◌, map, IfOk, OnOk};
ghost use Rattle.run_condition.specs.Tree.{condition_of};
ghost use Rattle.kinds.specs.Res.{res_number, event_number};
ghost use Rattle.model.specs.access.Condition.{Condition, queries_of};

use kinds::{Event, Res};
use query::Query;
use std::alloc::{AllocError, Global};
use std::marker::Model;

/// A run condition: what is asked before a system runs. Contracts see the condition of the definitions, with resources and
/// event kinds by number.
pub struct Cond {
    tree: Tree,
}

// One function drops it wherever it is let go.
impl Drop for Cond {
    fn drop(self) {
        let Cond { tree: _ } = self;
    }
}

/// A condition and its parts.
#[derive(Drop)]
pub enum Tree {
    /// It was never asked.
    RunOnce,
    /// The value of the resource is the number.
    ResourceEquals(Res, i64),
    /// The value of the resource is the number or greater.
    ResourceAtLeast(Res, i64),
    /// The resource was changed since the last run.
    ResourceChanged(Res),
    /// The query has a row.
    AnyWith(Query),
    /// An event is there that was not read.
    OnEvent(Event),
    /// The condition does not hold.
    Not(Box<Tree>),
    /// Both hold.
    And(Box<Tree>, Box<Tree>),
    /// One or the other holds.
    Or(Box<Tree>, Box<Tree>),
}

impl Model for Cond {
    ghost use Rattle.model.specs.access.Condition.{Condition};
    ghost use Rattle.model.specs.steps.Codes.{condition_code};
    ghost use Rattle.run_condition.specs.Tree.{condition_of};

    ghost Value = { Condition };

    ghost coded = { condition_code };

    ghost view = { λ c. condition_of c.tree };
}

impl Cond {
    /// Holds where it was never asked.
    pub fn run_once() -> Self
        ensures { result ≡ Condition.RunOnce }
    {
        Cond {
            tree: Tree::RunOnce,
        }
    }

    /// Holds where the value of the resource is this one.
    pub fn resource_equals(res: Res, value: i64) -> Self
        ensures { result ≡ Condition.ResourceEquals (res_number res) value }
    {
        Cond {
            tree: Tree::ResourceEquals(res, value),
        }
    }

    /// Holds where the value of the resource is this one or greater.
    pub fn resource_at_least(res: Res, value: i64) -> Self
        ensures { result ≡ Condition.ResourceAtLeast (res_number res) value }
    {
        Cond {
            tree: Tree::ResourceAtLeast(res, value),
        }
    }

    /// Holds where the resource was changed since the last run.
    pub fn resource_changed(res: Res) -> Self
        ensures { result ≡ Condition.ResourceChanged (res_number res) }
    {
        Cond {
            tree: Tree::ResourceChanged(res),
        }
    }

    /// Holds where the query has a row.
    pub fn any_with(query: Query) -> Self
        ensures { result ≡ Condition.AnyWith query }
    {
        Cond {
            tree: Tree::AnyWith(query),
        }
    }

    /// Holds where there is an event of the kind that was not read.
    pub fn on_event(event: Event) -> Self
        ensures { result ≡ Condition.OnEvent (event_number event) }
    {
        Cond {
            tree: Tree::OnEvent(event),
        }
    }

    /// Holds where the condition does not.
    pub fn not(alloc: Global, cond: Cond) -> Result<Self, AllocError>
        ensures { IfOk result (λ made. made ≡ Condition.Not cond) }
    {
        let Cond { tree } = cond;
        Ok(Cond {
            tree: Tree::Not(Box::new(alloc, tree)?),
        })
    }

    /// Holds where both conditions do.
    pub fn and(alloc: Global, left: Cond, right: Cond) -> Result<Self, AllocError>
        ensures { IfOk result (λ made. made ≡ Condition.And left right) }
    {
        let Cond { tree: left } = left;
        let Cond { tree: right } = right;
        Ok(Cond {
            tree: Tree::And(Box::new(alloc, left)?, Box::new(alloc, right)?),
        })
    }

    /// Holds where one of the conditions does.
    pub fn or(alloc: Global, left: Cond, right: Cond) -> Result<Self, AllocError>
        ensures { IfOk result (λ made. made ≡ Condition.Or left right) }
    {
        let Cond { tree: left } = left;
        let Cond { tree: right } = right;
        Ok(Cond {
            tree: Tree::Or(Box::new(alloc, left)?, Box::new(alloc, right)?),
        })
    }

    /// Its parts.
    pub fn tree(&self) -> &Tree
        ensures { condition_of result.now ≡ self.now }
    {
        &self.tree
    }

    /// The queries of the condition, in order.
    pub fn queries(&self, alloc: Global) -> Result<Vec<&Query>, AllocError>
        ensures { IfOk result (λ queries. map (λ query. query.now) queries.items
            ≡ queries_of self.now) }
    {
        queries_in(alloc, &self.tree)
    }
}

// The queries of the condition, in order.
fn queries_in(alloc: Global, tree: &Tree) -> Result<Vec<&Query>, AllocError>
    ensures { IfOk result (λ queries. map (λ query. query.now) queries.items
        ≡ queries_of (condition_of tree.now)) }
{
    let mut queries = Vec::new(alloc);
    push_queries(tree, &mut queries)?;
    Ok(queries)
}

// Adds the queries of the condition behind the others.
fn push_queries<'a>(tree: &'a Tree, queries: &mut Vec<&'a Query>) -> Result<(), AllocError>
    ensures { OnOk result (map (λ query. query.now) queries.new.items
        ≡ map (λ query. query.now) queries.old.items ++ queries_of (condition_of tree.now)) }
{
    match tree {
        Tree::AnyWith(query) => {
            queries.push(query)?;
            Ok(())
        }
        Tree::Not(inner) => {
            push_queries(inner, queries)?;
            Ok(())
        }
        Tree::And(left, right) => {
            push_queries(left, queries)?;
            push_queries(right, queries)?;
            Ok(())
        }
        Tree::Or(left, right) => {
            push_queries(left, queries)?;
            push_queries(right, queries)?;
            Ok(())
        }
        _ => Ok(()),
    }
}
