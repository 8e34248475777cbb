// The steps of a run before one of its steps.

use model::Step;

/// The steps of a run before one of them.
#[derive(Clone, Copy)]
pub struct Past<'s> {
    /// The steps.
    pub steps: &'s [Step],
}

impl<'s> Past<'s> {
    /// The place of the first step that is this one.
    pub fn first(self, wanted: Step) -> Option<usize> {
        for place in 0..self.steps.len() {
            if self.steps[place] == wanted {
                return Some(place);
            }
        }
        None
    }

    /// The place of the step that starts or skips a system.
    pub fn begun(self, system: u32) -> Option<usize> {
        match self.first(Step::Start(system)) {
            Some(place) => Some(place),
            None => self.first(Step::Skip(system)),
        }
    }

    /// The place of the step that finishes or skips a system.
    pub fn ended(self, system: u32) -> Option<usize> {
        match self.first(Step::Finish(system)) {
            Some(place) => Some(place),
            None => self.first(Step::Skip(system)),
        }
    }

    /// The place of the step that asks a condition.
    pub fn asked(self, condition: u32) -> Option<usize> {
        match self.first(Step::Cond(condition, true)) {
            Some(place) => Some(place),
            None => self.first(Step::Cond(condition, false)),
        }
    }

    /// Whether a system runs.
    pub fn is_running(self, system: u32) -> bool {
        self.first(Step::Start(system)).is_some() && self.first(Step::Finish(system)).is_none()
    }

    /// How many sync points are done.
    pub fn syncs(self) -> u32 {
        let mut count = 0u32;
        for step in self.steps {
            if let Step::Sync(_) = step {
                count = count.saturating_add(1);
            }
        }
        count
    }
}
