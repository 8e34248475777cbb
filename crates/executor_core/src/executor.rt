// The core of a run: which steps it has accepted, as sets of systems and counts beside them, and what may come next.

ghost use Rattle.std.specs.Prelude.{ℕ, ◌≡◌, ◌+◌, ◌<◌, ◌≤◌, ◌↔◌, ◌||◌, ◌&&◌, ◌==◌, not, true, Bool, List, [], ◌∷◌, ◌++◌, length, get_or, Option, Some, None, IsTrue, IsOk, IfOk, OnOk, IfErr, OnErr, IfSome, IfNone};
ghost use Rattle.std.specs.Bool.{OnFalse};
ghost use Rattle.number_set.specs.Members.{contains};
ghost use Rattle.model.specs.declared.steps.Step.{Step};
ghost use Rattle.model.specs.declared.steps.Step.TheVariants.{Start as Begin, Finish, Sync};
ghost use Rattle.model.specs.steps.Schedule.{recording, condition_at, level_of};
ghost use Rattle.model.specs.steps.Built.{IsBuilt};
ghost use Rattle.model.specs.steps.Lawful.{IsLawful, IsComplete, NoneRuns, May, syncs_in};
ghost use Rattle.model.specs.steps.Faults.{IsFirstFault};
ghost use Rattle.model.specs.steps.Ready.{IsReady, OnlyFinish, step_of};
ghost use Rattle.executor_core.specs.Stands.{Stands, AreMeetings, IsCleared, IsPassed, IsPlainStep, IsQuiet, MeetsAmong, ClashesAmong, due_of, room};
ghost use Rattle.executor_core.specs.Judges.{AllOver, NoneMeets, NoneClashes, IsReleased, IsOpen, IsKnown};
ghost use Rattle.schedule_builder.specs.Conditions.{IsCovering, IsRisingListing};

pub mod room;

use crate::counts::{Counts, begin_again};
use crate::meetings::{clashes_of, renew_clashed, renew_met, rivals_of};
use model::{KindSets, Ready, Step, StepFault};
use number_set::NumberSet;
use schedule_builder::Built;
use std::alloc::{AllocError, Global};
use std::marker::Model;

/// The accepted steps of one run of a schedule. Contracts speak of each history that a core represents, by `Stands`:
/// such a history is lawful, and has the latest step first. With it come the archetypes that the run records, if it
/// does. A core keeps the latest alone, until another system starts and is to run beside others: by then it has, for
/// each system and condition, the systems that meet it.
pub struct Core<'a> {
    built: &'a Built,
    begun: NumberSet,
    over: NumberSet,
    asked: NumberSet,
    yes: NumberSet,
    done: u32,
    from: usize,
    waits: Counts,
    left: Counts,
    met: Vec<NumberSet>,
    clashed: Vec<NumberSet>,
    // Whether these rows are yet to be made, and by which archetypes.
    is_due: bool,
    due: Vec<u32>,
}

// One function drops it wherever it is let go.
impl<'a> Drop for Core<'a> {
    fn drop(self) {
        let Core {
            built: _,
            begun: _,
            over: _,
            asked: _,
            yes: _,
            done: _,
            from: _,
            waits: _,
            left: _,
            met: _,
            clashed: _,
            is_due: _,
            due: _,
        } = self;
    }
}

impl<'a> Model for Core<'a> {
    ghost use Rattle.std.specs.Prelude.{length};
    ghost use Rattle.executor_core.specs.Stands.{Stand, due_of, stand_code};
    ghost use Rattle.executor_core.specs.Judges.{IsRoomy, IsAskRoomy, AreRoomy, HasCounts};

    ghost Value = { Stand };

    ghost coded = { stand_code };

    ghost view = { λ c. record {
      schedule = c.built.now;
      begun = c.begun;
      over = c.over;
      asked = c.asked;
      yes = c.yes;
      done = c.done;
      from = c.from;
      met = c.met.items;
      clashed = c.clashed.items;
      due = due_of c.is_due c.due.items;
    } };

    ghost invariant = { λ c. IsRoomy (length c.built.now.systems) c.begun c.over
        × HasCounts c.built.now.systems c.over c.waits c.left
        × IsAskRoomy (length c.built.now.conditions) c.asked c.yes
        × AreRoomy (length c.built.now.systems) (length c.built.now.systems) c.met.items
        × AreRoomy (length c.built.now.systems) (length c.built.now.conditions) c.clashed.items };
}

impl<'a> Core<'a> {
    /// A core that has accepted nothing, of a run that records no archetypes. Apart from this one only calls by which
    /// a run begins take memory. `sync_in` may note archetypes in its own, and needs none where it can't.
    pub fn new(alloc: Global, built: &'a Built) -> Result<Self, AllocError>
        ensures schedule { IfOk result (λ core. core.schedule ≡ built.now) }
        ensures stands { IfOk result (λ core. Stands core None []) }
    {
        let begun = NumberSet::new(alloc, built.count())?;
        let over = NumberSet::new(alloc, built.count())?;
        let asked = NumberSet::new(alloc, built.condition_count())?;
        let yes = NumberSet::new(alloc, built.condition_count())?;
        let waits = Counts::new(alloc, built.waits())?;
        let left = Counts::new(alloc, built.sizes())?;
        let met = rivals_of(alloc, built)?;
        let clashed = clashes_of(alloc, built)?;
        Ok(Core {
            built,
            begun,
            over,
            asked,
            yes,
            done: 0,
            from: 0,
            waits,
            left,
            met,
            clashed,
            is_due: false,
            due: Vec::new(alloc),
        })
    }

    /// A core that has accepted nothing, of a run that records archetypes: these at its opening.
    pub fn new_in(alloc: Global, built: &'a Built, sets: &KindSets) -> Result<Self, AllocError>
        ensures schedule { IfOk result (λ core. core.schedule ≡ built.now) }
        ensures stands { IfOk result (λ core. Stands core (Some (sets.now ∷ [])) []) }
    {
        let mut core = Core::new(alloc, built)?;
        core.renew_later(sets);
        Ok(core)
    }

    /// Begins again for a run that records archetypes: these at its opening. Where an allocation fails the core stays as it was.
    pub fn begin_in(&mut self, alloc: Global, sets: &KindSets) -> Result<(), AllocError>
        ensures stands { OnOk result (Stands self.new (Some (sets.now ∷ [])) []) }
        ensures schedule { self.new.schedule ≡ self.old.schedule }
        ensures unchanged { OnErr result (self.new ≡ self.old) }
    {
        self.forget(alloc)?;
        self.renew_later(sets);
        Ok(())
    }

    /// The same where the archetypes at the opening are those by which it was found last who meets whom.
    pub fn begin_same(&mut self, alloc: Global) -> Result<(), AllocError>
        ensures stands { OnOk result ((sets : List ℕ) → AreMeetings self.old sets
            → Stands self.new (Some (sets ∷ [])) []) }
        ensures schedule { self.new.schedule ≡ self.old.schedule }
        ensures unchanged { OnErr result (self.new ≡ self.old) }
    {
        self.forget(alloc)?;
        Ok(())
    }

    /// What `step` would answer.
    pub fn may(&self, step: Step) -> Result<(), StepFault>
        ensures accepts { (sets : Option (List (List ℕ))) (h : List Step) → Stands self.now sets h
            → IsOk result ↔ May (recording self.now.schedule sets) h step }
        ensures fault { (sets : Option (List (List ℕ))) (h : List Step) → Stands self.now sets h
            → IfErr result (λ fault. IsFirstFault (recording self.now.schedule sets) h step fault) }
    {
        self.judge(step)
    }

    /// Takes a step. It is accepted exactly where it may come. Otherwise its first fault is returned and nothing
    /// changes. In a run that records archetypes a sync point is taken by `sync_in`. After one that is taken here
    /// nothing is known of such a core.
    pub fn step(&mut self, step: Step) -> Result<(), StepFault>
        ensures accepts { (sets : Option (List (List ℕ))) (h : List Step) → Stands self.old sets h
            → IsOk result ↔ May (recording self.old.schedule sets) h step }
        ensures fault { (sets : Option (List (List ℕ))) (h : List Step) → Stands self.old sets h
            → IfErr result (λ fault. IsFirstFault (recording self.old.schedule sets) h step fault) }
        ensures stands { OnOk result ((sets : Option (List (List ℕ))) (h : List Step)
            → Stands self.old sets h → IsPlainStep sets step
            → Stands self.new sets (step ∷ h)) }
        ensures unchanged { OnErr result (self.new ≡ self.old) }
        ensures schedule { self.new.schedule ≡ self.old.schedule }
    {
        if let Err(fault) = self.judge(step) {
            return Err(fault);
        }
        self.take(step);
        Ok(())
    }

    /// Takes a step of which it is known that it may come, as `step` does, and judges nothing again.
    #[inline(always)]
    pub fn accept(&mut self, step: Step)
        requires { (sets : Option (List (List ℕ))) × (h : List Step) × Stands self.old sets h
            × May (recording self.old.schedule sets) h step }
        ensures stands { (sets : Option (List (List ℕ))) (h : List Step) → Stands self.old sets h
            → May (recording self.old.schedule sets) h step → IsPlainStep sets step
            → Stands self.new sets (step ∷ h) }
        ensures schedule { self.new.schedule ≡ self.old.schedule }
    {
        self.take(step);
    }

    /// Takes the start of a system and its finish right behind it, of which it is known that they may come. Nothing is
    /// looked at that only a running system asks for.
    #[inline(always)]
    pub fn accept_whole(&mut self, system: u32)
        requires { (sets : Option (List (List ℕ))) × (h : List Step) × Stands self.old sets h
            × May (recording self.old.schedule sets) h (Begin system) }
        ensures stands { (sets : Option (List (List ℕ))) (h : List Step) → Stands self.old sets h
            → May (recording self.old.schedule sets) h (Begin system)
            → May (recording self.old.schedule sets) (Begin system ∷ h) (Finish system)
            → Stands self.new sets (Finish system ∷ Begin system ∷ h) }
        ensures schedule { self.new.schedule ≡ self.old.schedule }
    {
        self.begin(system);
        self.end(system);
    }

    /// Takes a sync point of a run that records archetypes: these after it. It is accepted exactly where it may come.
    /// Otherwise its first fault is returned and nothing changes.
    pub fn sync_in(&mut self, sync: u32, sets: &KindSets) -> Result<(), StepFault>
        ensures accepts { (lists : Option (List (List ℕ))) (h : List Step) → Stands self.old lists h
            → IsOk result ↔ May (recording self.old.schedule lists) h (Sync sync) }
        ensures fault { (lists : Option (List (List ℕ))) (h : List Step) → Stands self.old lists h
            → IfErr result (λ fault. IsFirstFault (recording self.old.schedule lists) h (Sync sync)
            fault) }
        ensures stands { OnOk result ((lists : List (List ℕ)) (h : List Step)
            → Stands self.old (Some lists) h
            → Stands self.new (Some (lists ++ sets.now ∷ [])) (Sync sync ∷ h)) }
        ensures unchanged { OnErr result (self.new ≡ self.old) }
        ensures schedule { self.new.schedule ≡ self.old.schedule }
    {
        if let Err(fault) = self.judge(Step::Sync(sync)) {
            return Err(fault);
        }
        self.pass_sync(sync);
        self.renew_later(sets);
        Ok(())
    }

    /// The same for a sync point after which the archetypes are those that were recorded last.
    pub fn sync_same(&mut self, sync: u32) -> Result<(), StepFault>
        ensures accepts { (lists : Option (List (List ℕ))) (h : List Step) → Stands self.old lists h
            → IsOk result ↔ May (recording self.old.schedule lists) h (Sync sync) }
        ensures fault { (lists : Option (List (List ℕ))) (h : List Step) → Stands self.old lists h
            → IfErr result (λ fault. IsFirstFault (recording self.old.schedule lists) h (Sync sync)
            fault) }
        ensures stands { OnOk result ((lists : List (List ℕ)) (h : List Step)
            → Stands self.old (Some lists) h
            → Stands self.new (Some (lists ++ get_or lists (syncs_in h) [] ∷ [])) (Sync sync
            ∷ h)) }
        ensures unchanged { OnErr result (self.new ≡ self.old) }
        ensures schedule { self.new.schedule ≡ self.old.schedule }
    {
        if let Err(fault) = self.judge(Step::Sync(sync)) {
            return Err(fault);
        }
        self.pass_sync(sync);
        Ok(())
    }

    /// The next step that can be done: the offer of the first of the free systems, in schedule order, that offers
    /// any. If none does, it is the sync point that is accepted. Finishes are not offered.
    pub fn ready(&self) -> Option<Ready>
        ensures choice { (sets : Option (List (List ℕ))) (h : List Step) → Stands self.now sets h
            → IsReady (recording self.now.schedule sets) h result }
        ensures may { (sets : Option (List (List ℕ))) (h : List Step) → Stands self.now sets h
            → IfSome result (λ offer. (answer : Bool)
            → May (recording self.now.schedule sets) h (step_of offer answer)) }
        ensures nothing { (sets : Option (List (List ℕ))) (h : List Step) → Stands self.now sets h
            → IfNone result (OnlyFinish (recording self.now.schedule sets) h) }
        ensures complete { (sets : Option (List (List ℕ))) (h : List Step) → Stands self.now sets h
            → NoneRuns h → IfNone result (IsComplete (recording self.now.schedule sets) h) }
    {
        self.built_law();
        self.first_offer()
    }

    /// Whether every system has ended and every sync point is done. Where not, some step may come.
    pub fn complete(&self) -> bool
        ensures exact { (sets : Option (List (List ℕ))) (h : List Step) → Stands self.now sets h
            → IsTrue result ↔ IsComplete (recording self.now.schedule sets) h }
        ensures goes_on { (sets : Option (List (List ℕ))) (h : List Step) → Stands self.now sets h
            → OnFalse result ((step : Step) × May (recording self.now.schedule sets) h step) }
    {
        self.built_law();
        self.syncs() <= self.done()
    }

    /// Each history that a core represents is lawful, and has no more steps than the schedule has room for.
    pub fn prove_law(&self)
        ensures lawful { (sets : Option (List (List ℕ))) (h : List Step) → Stands self.now sets h
            → IsLawful (recording self.now.schedule sets) h }
        ensures bound { (sets : Option (List (List ℕ))) (h : List Step) → Stands self.now sets h
            → length h ≤ room self.now.schedule }
    {}

    // What holds of the schedule.
    pub(crate) fn built_law(&self)
        ensures { IsBuilt self.now.schedule }
    {
        self.built.prove_law();
    }

    // How many systems there are.
    pub(crate) fn count(&self) -> u32
        ensures { result ≡ length self.now.schedule.systems }
    {
        self.built.count()
    }

    // How many sync points there are.
    pub(crate) fn syncs(&self) -> u32
        ensures { result ≡ self.now.schedule.syncs }
    {
        self.built.syncs()
    }

    // The schedule order.
    pub(crate) fn order(&self) -> &[u32]
        ensures { result.now ≡ self.now.schedule.order }
    {
        self.built.order()
    }

    // The level of a system.
    pub(crate) fn level(&self, system: u32) -> u32
        requires { system < length self.now.schedule.systems }
        ensures { result ≡ level_of self.now.schedule system }
    {
        self.built.level(system)
    }

    // How many sync points are done.
    pub(crate) fn done(&self) -> u32
        ensures { result ≡ self.now.done }
    {
        self.done
    }

    // How many systems at the front of the schedule order need no more be looked at.
    pub(crate) fn from(&self) -> usize
        ensures { result ≡ self.now.from }
    {
        self.from
    }

    // Whether the system has begun.
    pub(crate) fn has_begun(&self, system: u32) -> bool
        ensures { result ≡ contains self.now.begun system }
    {
        self.begun.contains(system)
    }

    // Whether the system is over.
    pub(crate) fn is_over(&self, system: u32) -> bool
        ensures { result ≡ contains self.now.over system }
    {
        self.over.contains(system)
    }

    // Whether each system with an edge to this one is over.
    pub(crate) fn is_after(&self, system: u32) -> bool
        ensures { IsTrue result ↔ AllOver self.now system }
    {
        self.built.prove_law();
        self.waits.is_none(system)
    }

    // Whether some system of the level isn't over.
    pub(crate) fn is_open(&self, level: u32) -> bool
        ensures { IsTrue result ↔ IsOpen self.now level }
    {
        !self.left.is_none(level)
    }

    // Whether no system that meets this one runs.
    pub(crate) fn is_clear(&self, system: u32) -> bool
        requires { system < length self.now.schedule.systems }
        ensures { IsTrue result ↔ NoneMeets self.now system }
    {
        self.met[system as usize].shares_only(&self.begun, &self.over)
    }

    // Whether the rows of systems and conditions are yet to be made.
    pub(crate) fn are_rows_due(&self) -> bool
        ensures { IsTrue result → (there : List ℕ) × (self.now.due ≡ Some there) }
    {
        self.is_due
    }

    // How many conditions there are.
    pub(crate) fn condition_count(&self) -> u32
        ensures { result ≡ length self.now.schedule.conditions }
    {
        self.built.condition_count()
    }

    // The systems that a condition covers.
    pub(crate) fn covered(&self, condition: u32) -> &[u32]
        requires { condition < length self.now.schedule.conditions }
        ensures { result.now ≡ (condition_at self.now.schedule condition).covers }
    {
        self.built.condition(condition).covers()
    }

    // The conditions that cover a system, in rising order.
    pub(crate) fn asked_by(&self, system: u32) -> &[u32]
        requires { system < length self.now.schedule.systems }
        ensures { IsRisingListing (IsCovering self.now.schedule.conditions system) result.now }
    {
        self.built.asked_by(system)
    }

    // Whether the condition was asked.
    pub(crate) fn was_asked(&self, condition: u32) -> bool
        ensures { result ≡ contains self.now.asked condition }
    {
        self.asked.contains(condition)
    }

    // Whether the condition answered yes.
    pub(crate) fn said_yes(&self, condition: u32) -> bool
        ensures { result ≡ contains self.now.yes condition }
    {
        self.yes.contains(condition)
    }

    // Whether no system that meets what the condition asks about runs.
    pub(crate) fn is_clear_of(&self, condition: u32) -> bool
        requires { condition < length self.now.schedule.conditions }
        ensures { IsTrue result ↔ NoneClashes self.now condition }
    {
        self.clashed[condition as usize].shares_only(&self.begun, &self.over)
    }

    // Notes an accepted step.
    #[inline(always)]
    fn take(&mut self, step: Step)
        requires { IsKnown self.old.schedule step }
        ensures schedule { self.new.schedule ≡ self.old.schedule }
        ensures stands { (sets : Option (List (List ℕ))) (h : List Step) → Stands self.old sets h
            → May (recording self.old.schedule sets) h step → IsPlainStep sets step
            → Stands self.new sets (step ∷ h) }
    {
        match step {
            Step::Cond(condition, answer) => self.note(condition, answer),
            Step::Start(system) => {
                self.renew_due();
                self.begin(system);
            }
            Step::Skip(system) => {
                self.begin(system);
                self.end(system);
            }
            Step::Finish(system) => self.end(system),
            Step::Sync(sync) => self.pass_sync(sync),
        }
    }

    // Notes what the condition answered.
    fn note(&mut self, condition: u32, answer: bool)
        requires { condition < length self.old.schedule.conditions }
        ensures rest { self.new ≡ record self.old { asked = self.new.asked; yes = self.new.yes } }
        ensures asked { (c : ℕ)
            → contains self.new.asked c ≡ ((condition == c) || contains self.old.asked c) }
        ensures yes { (c : ℕ)
            → contains self.new.yes c ≡ (((condition == c) && answer) || contains self.old.yes c) }
    {
        self.asked.insert(condition);
        if answer {
            self.yes.insert(condition);
        }
    }

    // Notes that the system has begun.
    fn begin(&mut self, system: u32)
        requires { system < length self.old.schedule.systems }
        ensures rest { self.new ≡ record self.old { begun = self.new.begun; from = self.new.from } }
        ensures begun { (n : ℕ)
            → contains self.new.begun n ≡ ((system == n) || contains self.old.begun n) }
        ensures passed { IsPassed self.old → IsPassed self.new }
    {
        self.begun.insert(system);
        self.from = first_waiting(self.built.order(), &self.begun, self.from);
    }

    // Notes that the system is over.
    fn end(&mut self, system: u32)
        requires { system < length self.old.schedule.systems }
        ensures rest { self.new ≡ record self.old { over = self.new.over } }
        ensures over { (n : ℕ)
            → contains self.new.over n ≡ ((system == n) || contains self.old.over n) }
    {
        if self.over.contains(system) {
            return;
        }
        self.over.insert(system);
        self.waits.lower_each(self.built.after(system));
        self.left.lower(self.built.level(system));
    }

    // Notes that the sync point is done.
    fn pass_sync(&mut self, sync: u32)
        requires { sync < self.old.schedule.syncs }
        ensures { self.new ≡ record self.old { done = sync + 1 } }
    {
        if sync < self.built.syncs() {
            self.done = sync + 1;
        }
    }

    // Forgets what it has accepted. The rows stay.
    fn forget(&mut self, alloc: Global) -> Result<(), AllocError>
        ensures cleared { OnOk result (IsCleared self.new) }
        ensures rest { OnOk result (self.new
            ≡ record self.new {
              schedule = self.old.schedule;
              met = self.old.met;
              clashed = self.old.clashed;
              due = self.old.due;
            }) }
        ensures schedule { self.new.schedule ≡ self.old.schedule }
        ensures unchanged { OnErr result (self.new ≡ self.old) }
    {
        begin_again(
            alloc,
            &mut self.waits,
            &mut self.left,
            self.built.waits(),
            self.built.sizes(),
        )?;
        self.begun.clear();
        self.over.clear();
        self.asked.clear();
        self.yes.clear();
        self.done = 0;
        self.from = 0;
        Ok(())
    }

    // Whether all that has begun is over.
    fn is_quiet(&self) -> bool
        ensures { IsTrue result → IsQuiet self.now }
    {
        self.begun.shares_only(&self.begun, &self.over)
    }

    // Puts the rows off: they are due by these kind sets. Whether it is so: not where a system runs, nor where there is no memory to note the sets.
    fn put_off(&mut self, sets: &KindSets) -> bool
        ensures rest { self.new ≡ record self.old { due = self.new.due } }
        ensures due { self.new.due ≡ due_of result sets.now }
        ensures quiet { IsTrue result → IsQuiet self.old }
    {
        self.is_due = false;
        if !self.is_quiet() {
            return false;
        }
        self.due.clear();
        if self.due.extend_from_slice(sets.numbers()).is_err() {
            return false;
        }
        self.is_due = true;
        true
    }

    // The rows are to be those that meet each system and each condition where these are the kind sets that are there. They are made where the next
    // system starts, unless one runs already.
    fn renew_later(&mut self, sets: &KindSets)
        ensures rest { self.new
            ≡ record self.old {
              due = self.new.due;
              met = self.new.met;
              clashed = self.new.clashed;
            } }
        ensures met { (n m : ℕ) → MeetsAmong self.new (Some sets.now) n m }
        ensures clashed { (c m : ℕ) → ClashesAmong self.new (Some sets.now) c m }
        ensures due { (there : List ℕ) → self.new.due ≡ Some there
            → IsQuiet self.new × (Some sets.now ≡ Some there) }
    {
        if self.put_off(sets) {
            return;
        }
        self.renew(sets);
    }

    // Makes the rows that are due.
    #[inline(always)]
    fn renew_due(&mut self)
        ensures rest { self.new
            ≡ record self.old { due = None; met = self.new.met; clashed = self.new.clashed } }
        ensures kept { self.old.due ≡ None → self.new ≡ self.old }
        ensures met { (there : List ℕ) → self.old.due ≡ Some there
            → (n m : ℕ) → MeetsAmong self.new (Some there) n m }
        ensures clashed { (there : List ℕ) → self.old.due ≡ Some there
            → (c m : ℕ) → ClashesAmong self.new (Some there) c m }
    {
        if self.is_due {
            self.make_due();
        }
    }

    // The same by the kind sets that were noted last.
    #[inline(never)]
    fn make_due(&mut self)
        ensures rest { self.new
            ≡ record self.old { due = None; met = self.new.met; clashed = self.new.clashed } }
        ensures met { (there : List ℕ) → self.old.due ≡ Some there
            → (n m : ℕ) → MeetsAmong self.new (Some there) n m }
        ensures clashed { (there : List ℕ) → self.old.due ≡ Some there
            → (c m : ℕ) → ClashesAmong self.new (Some there) c m }
    {
        self.is_due = false;
        renew_met(self.met.as_mut_slice(), self.built, self.due.as_slice());
        renew_clashed(self.clashed.as_mut_slice(), self.built, self.due.as_slice());
    }

    // Makes the rows anew: those that meet each system and each condition where these are the kind sets that are there.
    fn renew(&mut self, sets: &KindSets)
        ensures rest { self.new
            ≡ record self.old { met = self.new.met; clashed = self.new.clashed } }
        ensures met { (n m : ℕ) → MeetsAmong self.new (Some sets.now) n m }
        ensures clashed { (c m : ℕ) → ClashesAmong self.new (Some sets.now) c m }
    {
        renew_met(self.met.as_mut_slice(), self.built, sets.numbers());
        renew_clashed(self.clashed.as_mut_slice(), self.built, sets.numbers());
    }
}

// The first place in the order, from one on, whose system has not begun; where all have, the end.
fn first_waiting(order: &[u32], begun: &NumberSet, from: usize) -> usize
    ensures { (k : ℕ) → from ≤ k → k < result → contains begun.now (get_or order.now k 0) ≡ true }
{
    for place in from..order.len() {
        if !begun.contains(order[place]) {
            return place;
        }
    }
    order.len()
}
