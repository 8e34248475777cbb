// The plans that are kept of the queries of systems.

ghost use Rattle.std.specs.Prelude.{◌≡◌, ◌<◌, List, length, IsTrue};
ghost use Rattle.std.specs.List.{AllByRecursion};
ghost use Rattle.archetype_store.specs.Layout.{Archetype};
ghost use Rattle.body.specs.KeptPlans.{forms_of, AreOver};

use crate::kept_plan::KeptPlan;
use archetype_store::World;
use std::alloc::Global;
use std::marker::Model;
use std::mem;
use std::snapshot::Snapshot;

// The plans of each system, by number, all over one world. Contracts see the forms of its layout.
pub(crate) struct Plans {
    systems: Vec<Vec<KeptPlan>>,
    world: Snapshot<World>,
}

// One function drops it wherever it is let go.
impl Drop for Plans {
    fn drop(self) {
        let Plans {
            systems: _,
            world: _,
        } = self;
    }
}

impl Model for Plans {
    ghost use Rattle.std.specs.Prelude.{List};
    ghost use Rattle.std.specs.List.{AllByRecursion};
    ghost use Rattle.archetype_store.specs.Layout.{Archetype};
    ghost use Rattle.body.specs.KeptPlans.{forms_of, AreOver};

    ghost Value = { List Archetype };

    ghost view = { λ p. forms_of p.world.value.layout };

    ghost invariant = { λ p. AllByRecursion
        (λ plans. AreOver (forms_of p.world.value.layout) plans.items) p.systems.items };
}

impl Plans {
    // None yet, over a world.
    pub(crate) fn none(alloc: Global, world: &World) -> Self
        ensures { result ≡ forms_of world.now.layout }
    {
        Plans {
            systems: Vec::new(alloc),
            world: Snapshot::of(world),
        }
    }

    // Drops all plans, so that nobody reads the rows of tables that are to change.
    pub(crate) fn clear(&mut self)
        ensures { self.new ≡ self.old }
    {
        self.systems.clear();
    }

    // Drops all plans: those that come are over this world.
    pub(crate) fn forget(&mut self, world: &World)
        ensures { self.new ≡ forms_of world.now.layout }
    {
        self.systems.clear();
        self.world = Snapshot::of(world);
    }

    // Takes the plans of a system.
    pub(crate) fn take(&mut self, alloc: Global, system: usize) -> Vec<KeptPlan>
        ensures over { AreOver self.old result.items }
        ensures same { self.new ≡ self.old }
    {
        if self.systems.len() <= system {
            return Vec::new(alloc);
        }
        mem::replace(&mut self.systems[system], Vec::new(alloc))
    }

    // Puts plans of a system back, of which none are left meanwhile. Where there are none nothing is done.
    pub(crate) fn put(&mut self, alloc: Global, system: usize, plans: Vec<KeptPlan>)
        requires { AreOver self.old plans.items }
        ensures { self.new ≡ self.old }
    {
        if plans.is_empty() {
            return;
        }
        if reach(alloc, &mut self.systems, system) {
            self.systems[system] = plans;
        }
    }
}

// Makes places without plans up to that of a system. Whether it has one: where memory fails it may have none.
fn reach(alloc: Global, systems: &mut Vec<Vec<KeptPlan>>, system: usize) -> bool
    ensures over { (forms : List Archetype)
        → AllByRecursion (λ plans. AreOver forms plans.items) systems.old.items
        → AllByRecursion (λ plans. AreOver forms plans.items) systems.new.items }
    ensures place { IsTrue result → system < length systems.new.items }
{
    while systems.len() <= system {
        if systems.reserve(1).is_err() {
            return false;
        }
        systems.push_reserved(Vec::new(alloc));
    }
    true
}
