// What a core offers to be done next.

ghost use Rattle.std.specs.Prelude.{ℕ, ◌<◌, ◌↔◌, List, Option, length, IsTrue, IfSome, IfNone};
ghost use Rattle.model.specs.declared.steps.Step.{Step};
ghost use Rattle.model.specs.steps.Ready.{IsReady, IsReadySync};
ghost use Rattle.model.specs.steps.Schedule.{recording};
ghost use Rattle.executor_core.specs.Stands.{Stands};
ghost use Rattle.executor_core.specs.Judges.{TellsOffer, IsAskableNow, CanAsk, IsLeastAskable};

use crate::executor::Core;
use model::Ready;

impl<'a> Core<'a> {
    // What the first system in schedule order offers that offers anything, else the sync point that is accepted. The systems
    // that need no more be looked at are passed over.
    pub(crate) fn first_offer(&self) -> Option<Ready>
        ensures { (sets : Option (List (List ℕ))) (h : List Step) → Stands self.now sets h
            → IsReady (recording self.now.schedule sets) h result }
    {
        let order = self.order();
        for place in self.from()..order.len() {
            if let Some(found) = self.offer(order[place]) {
                return Some(found);
            }
        }
        self.ready_sync()
    }

    // What the system offers: to ask its least condition that can be asked, or with all answered to skip or to start it.
    fn offer(&self, system: u32) -> Option<Ready>
        ensures { (sets : Option (List (List ℕ))) (h : List Step) → Stands self.now sets h
            → TellsOffer (recording self.now.schedule sets) h system result }
    {
        if self.count() <= system {
            return None;
        }
        if !self.is_waiting(system) {
            return None;
        }
        if let Some(condition) = self.least_askable(system) {
            return Some(Ready::Ask(condition));
        }
        if self.has_unasked(system) {
            return None;
        }
        if self.has_refusing(system) {
            return Some(Ready::Skip(system));
        }
        // Rows are due only where nothing runs.
        if self.are_rows_due() {
            return Some(Ready::Start(system));
        }
        if self.is_clear(system) {
            return Some(Ready::Start(system));
        }
        None
    }

    // The least condition of the system that can be asked.
    fn least_askable(&self, system: u32) -> Option<u32>
        requires { system < length self.now.schedule.systems }
        ensures found { IfSome result (λ c. IsLeastAskable self.now system c) }
        ensures none { IfNone result ((c : ℕ) → CanAsk self.now system c → ⊥) }
    {
        for condition in self.asked_by(system) {
            if self.is_askable(*condition) {
                return Some(*condition);
            }
        }
        None
    }

    // Whether the condition was not asked, and can be.
    fn is_askable(&self, condition: u32) -> bool
        ensures { IsTrue result
            ↔ (IsAskableNow self.now condition
            × (condition < length self.now.schedule.conditions)) }
    {
        if self.condition_count() <= condition {
            return false;
        }
        if self.was_asked(condition) {
            return false;
        }
        self.is_clear_of(condition)
    }

    // The sync point that is accepted.
    fn ready_sync(&self) -> Option<Ready>
        ensures { (sets : Option (List (List ℕ))) (h : List Step) → Stands self.now sets h
            → IsReadySync (recording self.now.schedule sets) h result }
    {
        match self.may_sync(self.done()) {
            Ok(()) => Some(Ready::Sync(self.done())),
            Err(_) => None,
        }
    }
}
