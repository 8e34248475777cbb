// A system of a built schedule.

ghost use Rattle.std.specs.Prelude.{◌≡◌};

use access_set::Params;
use std::marker::Model;

/// A system of a built schedule: its parameters, the systems with an edge to it, and its level. Contracts see these three.
pub struct System {
    params: Params,
    predecessors: Vec<u32>,
    level: u32,
}

// One function drops it wherever it is let go.
impl Drop for System {
    fn drop(self) {
        let System {
            params: _,
            predecessors: _,
            level: _,
        } = self;
    }
}

impl Model for System {
    ghost use Rattle.model.specs.steps.Schedule.{ScheduledSystem};
    ghost use Rattle.model.specs.steps.Codes.{system_code};

    ghost Value = { ScheduledSystem };

    ghost coded = { system_code };

    ghost view = { λ s. record {
      params = s.params;
      predecessors = s.predecessors.items;
      level = s.level;
    } };
}

impl System {
    /// A system of its parts.
    pub(crate) fn new(params: Params, predecessors: Vec<u32>, level: u32) -> Self
        ensures { result
            ≡ record { params = params; predecessors = predecessors.items; level = level } }
    {
        System {
            params,
            predecessors,
            level,
        }
    }

    /// The same system, of this level.
    pub(crate) fn at_level(self, level: u32) -> Self
        ensures { result ≡ record self { level = level } }
    {
        let System {
            params,
            predecessors,
            level: _,
        } = self;
        System {
            params,
            predecessors,
            level,
        }
    }

    /// Its parameters.
    pub fn params(&self) -> &Params
        ensures { result.now ≡ self.now.params }
    {
        &self.params
    }

    /// The systems with an edge to it.
    pub fn predecessors(&self) -> &[u32]
        ensures { result.now ≡ self.now.predecessors }
    {
        self.predecessors.as_slice()
    }

    /// Its level: how many sync points come before it.
    pub fn level(&self) -> u32
        ensures { result ≡ self.now.level }
    {
        self.level
    }
}
