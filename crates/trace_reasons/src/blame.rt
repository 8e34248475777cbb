// Why a step may not come, and what plays a part in it.

use crate::past::Past;
use crate::phrase::{Phrase, Subject};
use access_set::Params;
use access_set::meeting::meet_in;
use explaining::orders::condition_at;
use explaining::owner::Owner;
use explaining::target::Target;
use model::{Step, StepFault};
use program_file::Place;
use schedule_builder::Built;
use toml::Table;

/// A step that may not come: what was done before it, and the archetypes that were recorded last, if they are.
#[derive(Clone, Copy)]
pub struct Case<'a> {
    /// The schedule.
    pub built: &'a Built,
    /// The document that declares it.
    pub document: &'a Table,
    /// The steps before it.
    pub past: Past<'a>,
    /// The archetypes.
    pub sets: Option<&'a [u32]>,
    /// The step.
    pub step: Step,
}

/// Why a step may not come.
#[derive(Clone, Copy)]
pub struct Blame<'a> {
    /// The reason.
    pub phrase: Phrase<'a>,
    /// The place of an earlier step that plays a part, and what is said of it.
    pub beside: Option<(usize, &'static str)>,
    /// What is marked of the program file.
    pub target: Option<Target<'a>>,
    /// Two items of which the first is to come before the second.
    pub order: Option<(&'a str, &'a str)>,
    /// What to do.
    pub help: &'static str,
}

impl<'a> Blame<'a> {
    // A reason alone.
    fn of(phrase: Phrase<'a>) -> Blame<'a> {
        Blame {
            phrase,
            beside: None,
            target: None,
            order: None,
            help: "",
        }
    }

    // The same with an earlier step, where there is one.
    fn beside(self, place: Option<usize>, words: &'static str) -> Blame<'a> {
        let beside = match place {
            Some(place) => Some((place, words)),
            None => None,
        };
        Blame {
            phrase: self.phrase,
            beside,
            target: self.target,
            order: self.order,
            help: self.help,
        }
    }

    // The same with what is marked of the program file.
    fn at(self, target: Option<Target<'a>>) -> Blame<'a> {
        Blame {
            phrase: self.phrase,
            beside: self.beside,
            target,
            order: self.order,
            help: self.help,
        }
    }

    // The same with two items of which the first is to come before the second.
    fn for_order(self, first: &'a str, second: &'a str) -> Blame<'a> {
        Blame {
            phrase: self.phrase,
            beside: self.beside,
            target: self.target,
            order: Some((first, second)),
            help: self.help,
        }
    }

    // The same with what to do.
    fn help(self, help: &'static str) -> Blame<'a> {
        Blame {
            phrase: self.phrase,
            beside: self.beside,
            target: self.target,
            order: self.order,
            help,
        }
    }
}

/// The condition text of a number, as it is marked.
pub fn condition_target<'a>(document: &'a Table, condition: u32) -> Option<Target<'a>> {
    let (owner, number, text) = condition_at(document, condition as usize)?;
    Some(Target::text(owner, "if", Some(number), text))
}

/// The name of a system.
pub fn name_of<'a>(document: &'a Table, system: u32) -> &'a str {
    Owner::of(document, Place::System(system as usize)).name
}

impl<'a> Case<'a> {
    // A system, by its name.
    fn system(self, number: u32) -> Subject<'a> {
        Subject::System(name_of(self.document, number))
    }

    // What the step is about.
    fn subject(self) -> Subject<'a> {
        match self.step {
            Step::Cond(condition, _) => Subject::Condition(condition),
            Step::Start(system) | Step::Skip(system) | Step::Finish(system) => self.system(system),
            Step::Sync(sync) => Subject::Sync(sync),
        }
    }

    // The number of the system that the step is about; 0 where it is about none.
    fn number(self) -> u32 {
        match self.step {
            Step::Start(system) | Step::Skip(system) | Step::Finish(system) => system,
            Step::Cond(..) | Step::Sync(_) => 0,
        }
    }

    /// Why the step may not come, for a fault that isn't that the schedule has no such number.
    pub fn blame(self, fault: StepFault) -> Blame<'a> {
        match fault {
            StepFault::Unknown => Blame::of(Phrase::of(self.subject(), " is not there")),
            StepFault::Repeated => self.repeated(),
            StepFault::NotReady => self.too_early(),
            StepFault::ConditionOpen => self.unasked(),
            StepFault::ConditionFalse => self.refusing(),
            StepFault::ConditionTrue => self.unrefused(),
            StepFault::Conflict => self.meets(),
            StepFault::NotRunning => self.not_running(),
            StepFault::LevelOpen => self.level_open(),
        }
    }

    // What the step does was done before.
    fn repeated(self) -> Blame<'a> {
        let (place, words) = match self.step {
            Step::Cond(condition, _) => (self.past.asked(condition), " was asked before"),
            Step::Sync(_) => (self.past.first(self.step), " was done before"),
            _ => (
                self.past.begun(self.number()),
                " was started or skipped before",
            ),
        };
        Blame::of(Phrase::of(self.subject(), words)).beside(place, "here")
    }

    // What the step does comes too early.
    fn too_early(self) -> Blame<'a> {
        let subject = self.subject();
        match self.step {
            Step::Cond(condition, _) => {
                let words = " comes too early: no system of it is free";
                let target = condition_target(self.document, condition);
                Blame::of(Phrase::of(subject, words)).at(target)
            }
            Step::Sync(_) => self.waits_for(Subject::Sync(self.past.syncs())),
            _ => self.awaits(self.number()),
        }
    }

    // What the step does waits for something.
    fn waits_for(self, other: Subject<'a>) -> Blame<'a> {
        let words = " comes too early: it waits for ";
        Blame::of(Phrase::with(self.subject(), words, other, ""))
    }

    // A system that is started or skipped waits for a sync point or for another.
    fn awaits(self, system: u32) -> Blame<'a> {
        if system >= self.built.count() {
            return Blame::of(Phrase::of(self.subject(), " is not there"));
        }
        let level = self.built.level(system);
        if self.past.syncs() < level {
            return self.waits_for(Subject::Sync(level.saturating_sub(1)));
        }
        for other in self.built.predecessors(system) {
            if self.past.ended(*other).is_none() {
                let first = name_of(self.document, *other);
                let blame = self.waits_for(Subject::System(first));
                let place = self.past.begun(*other);
                let second = name_of(self.document, system);
                return blame
                    .beside(place, "it starts here")
                    .for_order(first, second);
            }
        }
        Blame::of(Phrase::of(self.subject(), " comes too early"))
    }

    // A condition of a system, with words between and behind them.
    fn condition_of(self, condition: u32, words: &'static str) -> Blame<'a> {
        let condition_number = Subject::Condition(condition);
        let phrase = Phrase::with(condition_number, " of ", self.subject(), words);
        Blame::of(phrase).at(condition_target(self.document, condition))
    }

    // A condition of the system wasn't asked.
    fn unasked(self) -> Blame<'a> {
        let system = self.number();
        if system < self.built.count() {
            for condition in self.built.asked_by(system) {
                if self.past.asked(*condition).is_none() {
                    let blame = self.condition_of(*condition, " was not asked");
                    return blame.help("ask it before");
                }
            }
        }
        Blame::of(Phrase::of(self.subject(), " has a condition that was not asked"))
    }

    // A condition of the system answered no.
    fn refusing(self) -> Blame<'a> {
        let system = self.number();
        if system < self.built.count() {
            for condition in self.built.asked_by(system) {
                let place = self.past.first(Step::Cond(*condition, false));
                if place.is_some() {
                    let blame = self.condition_of(*condition, " said no");
                    return blame.beside(place, "here").help("skip the system");
                }
            }
        }
        Blame::of(Phrase::of(self.subject(), " has a condition that said no"))
    }

    // No condition of the system answered no.
    fn unrefused(self) -> Blame<'a> {
        let subject = self.subject();
        let phrase = Phrase::with(Subject::None, "no condition of ", subject, " said no");
        Blame::of(phrase).help("start the system")
    }

    // A system runs that meets what the step asks or starts.
    fn meets(self) -> Blame<'a> {
        for other in 0..self.built.count() {
            if self.past.is_running(other) && self.is_met(other) {
                let phrase = Phrase::with(
                    self.subject(),
                    " meets ",
                    self.system(other),
                    ", which runs",
                );
                let place = self.past.begun(other);
                let blame = Blame::of(phrase).beside(place, "it starts here");
                return blame.help("finish it first");
            }
        }
        Blame::of(Phrase::of(self.subject(), " meets a system that runs"))
    }

    // Whether a system meets what the step asks or starts.
    fn is_met(self, other: u32) -> bool {
        if other >= self.built.count() {
            return false;
        }
        let Some(access) = self.access() else {
            return false;
        };
        match self.sets {
            Some(sets) => meet_in(self.built.params(other), access, sets),
            None => self.conflicts(other),
        }
    }

    // What the step asks about, or what its system reads and writes.
    fn access(self) -> Option<&'a Params> {
        match self.step {
            Step::Cond(condition, _) if condition < self.built.condition_count() => {
                Some(self.built.condition(condition).access())
            }
            Step::Start(system) if system < self.built.count() => Some(self.built.params(system)),
            _ => None,
        }
    }

    // Whether a system conflicts with what the step asks or starts.
    fn conflicts(self, other: u32) -> bool {
        match self.step {
            Step::Cond(condition, _) if condition < self.built.condition_count() => {
                self.built.clashes(condition).contains(other)
            }
            Step::Start(system) if system < self.built.count() => {
                self.built.rivals(system).contains(other)
            }
            _ => false,
        }
    }

    // The system doesn't run.
    fn not_running(self) -> Blame<'a> {
        let phrase = Phrase::of(self.subject(), " doesn't run");
        let place = self.past.ended(self.number());
        Blame::of(phrase).beside(place, "it ended here")
    }

    // A system of the level of the sync point hasn't ended.
    fn level_open(self) -> Blame<'a> {
        let level = self.past.syncs();
        for system in 0..self.built.count() {
            if self.built.level(system) == level && self.past.ended(system).is_none() {
                let phrase = Phrase::with(
                    self.system(system),
                    " hasn't ended, and ",
                    self.subject(),
                    " waits for it",
                );
                let place = self.past.begun(system);
                return Blame::of(phrase).beside(place, "it starts here");
            }
        }
        Blame::of(Phrase::of(self.subject(), " waits for a system"))
    }
}
