// A core between runs: what it is made of, without its borrow of the schedule.

ghost use Rattle.std.specs.Prelude.{◌≡◌};

use crate::counts::Counts;
use crate::executor::Core;
use number_set::NumberSet;
use schedule_builder::Built;
use std::marker::Model;
use std::snapshot::Snapshot;

/// A core that is put by between runs, with all that it knows. It borrows no schedule, so that it may be kept with
/// the one that it is for. Contracts see what they see of the core.
pub struct CoreRoom {
    built: Snapshot<Built>,
    begun: NumberSet,
    over: NumberSet,
    asked: NumberSet,
    yes: NumberSet,
    done: u32,
    from: usize,
    waits: Counts,
    left: Counts,
    met: Vec<NumberSet>,
    clashed: Vec<NumberSet>,
    is_due: bool,
    due: Vec<u32>,
}

// One function drops it wherever it is let go.
impl Drop for CoreRoom {
    fn drop(self) {
        let CoreRoom {
            built: _,
            begun: _,
            over: _,
            asked: _,
            yes: _,
            done: _,
            from: _,
            waits: _,
            left: _,
            met: _,
            clashed: _,
            is_due: _,
            due: _,
        } = self;
    }
}

impl Model for CoreRoom {
    ghost use Rattle.std.specs.Prelude.{length};
    ghost use Rattle.executor_core.specs.Stands.{Stand, due_of, stand_code};
    ghost use Rattle.executor_core.specs.Judges.{IsRoomy, IsAskRoomy, AreRoomy, HasCounts};

    ghost Value = { Stand };

    ghost coded = { stand_code };

    ghost view = { λ c. record {
      schedule = c.built.value;
      begun = c.begun;
      over = c.over;
      asked = c.asked;
      yes = c.yes;
      done = c.done;
      from = c.from;
      met = c.met.items;
      clashed = c.clashed.items;
      due = due_of c.is_due c.due.items;
    } };

    ghost invariant = { λ c. IsRoomy (length c.built.value.systems) c.begun c.over
        × HasCounts c.built.value.systems c.over c.waits c.left
        × IsAskRoomy (length c.built.value.conditions) c.asked c.yes
        × AreRoomy (length c.built.value.systems) (length c.built.value.systems) c.met.items
        × AreRoomy (length c.built.value.systems) (length c.built.value.conditions)
        c.clashed.items };
}

impl CoreRoom {
    /// The core again, on the schedule that it is for.
    pub fn into_core<'a>(self, built: &'a Built) -> Core<'a>
        requires { self.schedule ≡ built.now }
        ensures { result ≡ self }
    {
        let CoreRoom {
            built: _,
            begun,
            over,
            asked,
            yes,
            done,
            from,
            waits,
            left,
            met,
            clashed,
            is_due,
            due,
        } = self;
        Core {
            built,
            begun,
            over,
            asked,
            yes,
            done,
            from,
            waits,
            left,
            met,
            clashed,
            is_due,
            due,
        }
    }
}

impl<'a> Core<'a> {
    /// Puts the core by, with all that it knows.
    pub fn into_room(self) -> CoreRoom
        ensures { result ≡ self.entry }
    {
        let Core {
            built,
            begun,
            over,
            asked,
            yes,
            done,
            from,
            waits,
            left,
            met,
            clashed,
            is_due,
            due,
        } = self;
        CoreRoom {
            built: Snapshot::of(built),
            begun,
            over,
            asked,
            yes,
            done,
            from,
            waits,
            left,
            met,
            clashed,
            is_due,
            due,
        }
    }
}
