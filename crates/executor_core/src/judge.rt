// Each kind of step is judged by its faults in their order.

ghost use Rattle.std.specs.Prelude.{ℕ, ◌≡◌, ◌<◌, ◌↔◌, ◌&&◌, not, List, Option, length, IsTrue, OnOk};
ghost use Rattle.number_set.specs.Members.{contains};
ghost use Rattle.model.specs.declared.steps.Step.{Step};
ghost use Rattle.model.specs.declared.steps.Step.TheVariants.{Cond, Start, Skip, Finish, Sync};
ghost use Rattle.model.specs.steps.Schedule.{recording};
ghost use Rattle.executor_core.specs.Stands.{Stands};
ghost use Rattle.executor_core.specs.Judges.{Judges, IsKnown, IsReleased, IsWaiting, HasWaitingMember, HasUnasked, HasRefusing};

use crate::executor::Core;
use model::{Step, StepFault};

impl<'a> Core<'a> {
    // Whether the step may come.
    pub(crate) fn judge(&self, step: Step) -> Result<(), StepFault>
        ensures judged { (sets : Option (List (List ℕ))) (h : List Step) → Stands self.now sets h
            → Judges (recording self.now.schedule sets) h step result }
        ensures known { OnOk result (IsKnown self.now.schedule step) }
    {
        match step {
            Step::Cond(condition, answer) => self.may_ask(condition, answer),
            Step::Start(system) => self.may_start(system),
            Step::Skip(system) => self.may_skip(system),
            Step::Finish(system) => self.may_finish(system),
            Step::Sync(sync) => self.may_sync(sync),
        }
    }

    // Whether the condition may be asked.
    fn may_ask(&self, condition: u32, answer: bool) -> Result<(), StepFault>
        ensures judged { (sets : Option (List (List ℕ))) (h : List Step) → Stands self.now sets h
            → Judges (recording self.now.schedule sets) h (Cond condition answer) result }
        ensures known { OnOk result (condition < length self.now.schedule.conditions) }
    {
        self.built_law();
        if self.condition_count() <= condition {
            return Err(StepFault::Unknown);
        }
        if self.was_asked(condition) {
            return Err(StepFault::Repeated);
        }
        if !self.has_waiting_member(condition) {
            return Err(StepFault::NotReady);
        }
        if !self.is_clear_of(condition) {
            return Err(StepFault::Conflict);
        }
        Ok(())
    }

    // Whether the system may start.
    pub(crate) fn may_start(&self, system: u32) -> Result<(), StepFault>
        ensures judged { (sets : Option (List (List ℕ))) (h : List Step) → Stands self.now sets h
            → Judges (recording self.now.schedule sets) h (Start system) result }
        ensures known { OnOk result (system < length self.now.schedule.systems) }
    {
        if self.count() <= system {
            return Err(StepFault::Unknown);
        }
        if self.has_begun(system) {
            return Err(StepFault::Repeated);
        }
        if !self.is_released(system) {
            return Err(StepFault::NotReady);
        }
        if self.has_unasked(system) {
            return Err(StepFault::ConditionOpen);
        }
        if self.has_refusing(system) {
            return Err(StepFault::ConditionFalse);
        }
        if !self.is_clear(system) {
            return Err(StepFault::Conflict);
        }
        Ok(())
    }

    // Whether the system may be skipped.
    fn may_skip(&self, system: u32) -> Result<(), StepFault>
        ensures judged { (sets : Option (List (List ℕ))) (h : List Step) → Stands self.now sets h
            → Judges (recording self.now.schedule sets) h (Skip system) result }
        ensures known { OnOk result (system < length self.now.schedule.systems) }
    {
        if self.count() <= system {
            return Err(StepFault::Unknown);
        }
        if self.has_begun(system) {
            return Err(StepFault::Repeated);
        }
        if !self.is_released(system) {
            return Err(StepFault::NotReady);
        }
        if self.has_unasked(system) {
            return Err(StepFault::ConditionOpen);
        }
        if !self.has_refusing(system) {
            return Err(StepFault::ConditionTrue);
        }
        Ok(())
    }

    // Whether the system may finish.
    fn may_finish(&self, system: u32) -> Result<(), StepFault>
        ensures judged { (sets : Option (List (List ℕ))) (h : List Step) → Stands self.now sets h
            → Judges (recording self.now.schedule sets) h (Finish system) result }
        ensures known { OnOk result (system < length self.now.schedule.systems) }
    {
        if self.count() <= system {
            return Err(StepFault::Unknown);
        }
        if !self.is_running(system) {
            return Err(StepFault::NotRunning);
        }
        Ok(())
    }

    // Whether the sync point may be done.
    pub(crate) fn may_sync(&self, sync: u32) -> Result<(), StepFault>
        ensures judged { (sets : Option (List (List ℕ))) (h : List Step) → Stands self.now sets h
            → Judges (recording self.now.schedule sets) h (Sync sync) result }
        ensures known { OnOk result (sync < self.now.schedule.syncs) }
    {
        if self.syncs() <= sync {
            return Err(StepFault::Unknown);
        }
        if sync < self.done() {
            return Err(StepFault::Repeated);
        }
        if self.done() < sync {
            return Err(StepFault::NotReady);
        }
        if self.is_open(sync) {
            return Err(StepFault::LevelOpen);
        }
        Ok(())
    }

    // Whether nothing that the system waits for is missing.
    fn is_released(&self, system: u32) -> bool
        requires { system < length self.now.schedule.systems }
        ensures { IsTrue result ↔ IsReleased self.now system }
    {
        if self.done() < self.level(system) {
            return false;
        }
        self.is_after(system)
    }

    // Whether the system hasn't begun, and nothing that it waits for is missing.
    pub(crate) fn is_waiting(&self, system: u32) -> bool
        requires { system < length self.now.schedule.systems }
        ensures { IsTrue result ↔ IsWaiting self.now system }
    {
        if self.has_begun(system) {
            return false;
        }
        self.is_released(system)
    }

    // Whether the condition covers such a system.
    fn has_waiting_member(&self, condition: u32) -> bool
        requires { condition < length self.now.schedule.conditions }
        ensures { IsTrue result ↔ HasWaitingMember self.now condition }
    {
        self.built_law();
        for system in self.covered(condition) {
            if self.is_waiting(*system) {
                return true;
            }
        }
        false
    }

    // Whether some condition of the system was not asked.
    pub(crate) fn has_unasked(&self, system: u32) -> bool
        requires { system < length self.now.schedule.systems }
        ensures { IsTrue result ↔ HasUnasked self.now system }
    {
        for condition in self.asked_by(system) {
            if !self.was_asked(*condition) {
                return true;
            }
        }
        false
    }

    // Whether some condition of the system was asked and did not answer yes.
    pub(crate) fn has_refusing(&self, system: u32) -> bool
        requires { system < length self.now.schedule.systems }
        ensures { IsTrue result ↔ HasRefusing self.now system }
    {
        for condition in self.asked_by(system) {
            if self.is_refusing(*condition) {
                return true;
            }
        }
        false
    }

    // Whether the condition was asked and did not answer yes.
    fn is_refusing(&self, condition: u32) -> bool
        ensures { result
            ≡ (contains self.now.asked condition && not (contains self.now.yes condition)) }
    {
        self.was_asked(condition) && !self.said_yes(condition)
    }

    // Whether the system runs.
    fn is_running(&self, system: u32) -> bool
        ensures { result ≡ (contains self.now.begun system && not (contains self.now.over system)) }
    {
        self.has_begun(system) && !self.is_over(system)
    }
}
