// The resources of a world, each with its changed stamp.

ghost use Rattle.std.specs.Prelude.{◌≡◌, pos, replicate, Some};
ghost use Rattle.kinds.specs.Res.{res_number};
ghost use Rattle.model.specs.Lists.{update_at};
ghost use Rattle.model.specs.shown.Input.{value_of};
ghost use Rattle.model.specs.shown.Overlay.{resource_after};
ghost use Rattle.model.specs.state.Loaded.{resource_given};
ghost use Rattle.model.specs.state.State.{resource_count};
ghost use Rattle.archetype_store.specs.Resources.{changed_of};

use change_ticks::Tick;
use kinds::Res;
use std::marker::Model;

// A resource: its value, and when it was last changed.
#[derive(Clone, Copy)]
struct Resource {
    value: i64,
    changed: Tick,
}

/// The resources, which contracts see as a list by number.
#[derive(Drop)]
pub struct Resources {
    by_number: [Resource; Res::COUNT],
}

impl Model for Resources {
    ghost use Rattle.std.specs.Prelude.{List, map};
    ghost use Rattle.model.specs.state.State.{Resource as ModelResource};
    ghost use Rattle.archetype_store.specs.Resources.{resource_of};

    ghost Value = { List ModelResource };

    ghost view = { λ r. map resource_of r.by_number };
}

impl Resources {
    /// The resources as loaded where none is given: each 0, changed at tick 1.
    pub fn new() -> Self
        ensures { result ≡ replicate resource_count (resource_given (pos 0)) }
    {
        Resources {
            by_number: [Resource {
                value: 0,
                changed: 1,
            }; Res::COUNT],
        }
    }

    /// The same resources once more.
    pub fn copy(&self) -> Self
        ensures { result ≡ self.now }
    {
        Resources {
            by_number: self.by_number,
        }
    }

    /// The value of a resource.
    pub fn value(&self, res: Res) -> i64
        ensures { result ≡ value_of self.now (res_number res) }
    {
        self.by_number[res.number() as usize].value
    }

    /// When a resource was last changed.
    pub fn changed(&self, res: Res) -> Tick
        ensures { result ≡ changed_of self.now (res_number res) }
    {
        self.by_number[res.number() as usize].changed
    }

    /// Writes a resource at a tick.
    pub fn set(&mut self, res: Res, value: i64, tick: Tick)
        ensures { self.new
            ≡ update_at (res_number res) (resource_after tick (Some value)) self.old }
    {
        self.by_number[res.number() as usize] = Resource {
            value,
            changed: tick,
        };
    }
}
