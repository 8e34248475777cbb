// What a run condition asks about.

ghost use Rattle.std.specs.Prelude.{◌≡◌, IfOk, OnOk};
ghost use Rattle.run_condition.specs.Tree.{condition_of};
ghost use Rattle.run_condition.specs.Access.{with_access};
ghost use Rattle.model.specs.access.Condition.{access_of_condition};

use crate::cond::{Cond, Tree};
use access_set::Params;
use query::Query;
use std::alloc::{AllocError, Global};

impl Cond {
    /// What it asks about, all of it read: its queries, its resources and the event kinds of its readers, each in order.
    pub fn access(&self, alloc: Global) -> Result<Params, AllocError>
        ensures { IfOk result (λ access. access ≡ access_of_condition self.now) }
    {
        let mut access = Params::new(alloc);
        add_access(alloc, self.tree(), &mut access)?;
        Ok(access)
    }
}

// Adds what the condition asks about behind the rest.
fn add_access(alloc: Global, tree: &Tree, access: &mut Params) -> Result<(), AllocError>
    ensures { OnOk result (access.new ≡ with_access access.old (condition_of tree.now)) }
{
    match tree {
        Tree::RunOnce => Ok(()),
        Tree::ResourceEquals(res, _) => access.add_res(*res),
        Tree::ResourceAtLeast(res, _) => access.add_res(*res),
        Tree::ResourceChanged(res) => access.add_res(*res),
        Tree::AnyWith(query) => access.add_query(Query::of_terms(alloc, query.terms())?),
        Tree::OnEvent(event) => access.add_reads(*event),
        Tree::Not(inner) => add_access(alloc, inner, access),
        Tree::And(left, right) => {
            add_access(alloc, left, access)?;
            add_access(alloc, right, access)
        }
        Tree::Or(left, right) => {
            add_access(alloc, left, access)?;
            add_access(alloc, right, access)
        }
    }
}
