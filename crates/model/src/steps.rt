// The steps of a run, what may come next, and why a step is refused.

/// One step of a run, with the number of the condition, system or sync point.
#[derive(Clone, Copy, PartialEq, Eq, Debug)]
pub enum Step {
    /// A condition is asked and answers.
    Cond(u32, bool),
    /// A system starts.
    Start(u32),
    /// A system is skipped, since a condition that covers it answered no.
    Skip(u32),
    /// A running system finishes.
    Finish(u32),
    /// A sync point applies the commands of its level.
    Sync(u32),
}

/// What can be done next: a step without the answer of a condition. Finishes are not offered.
#[derive(Clone, Copy, PartialEq, Eq, Debug)]
pub enum Ready {
    /// Ask this condition.
    Ask(u32),
    /// Skip this system.
    Skip(u32),
    /// Start this system.
    Start(u32),
    /// Do this sync point.
    Sync(u32),
}

/// Why a step is refused, in the order S1 to S9.
#[derive(Clone, Copy, PartialEq, Eq, Debug)]
pub enum StepFault {
    /// S1: the schedule has no such number.
    Unknown,
    /// S2: the condition was asked, the system begun or the sync point done before.
    Repeated,
    /// S3: no system that the step concerns is free, or an earlier sync point isn't done.
    NotReady,
    /// S4: a condition that covers the system was not asked.
    ConditionOpen,
    /// S5: a condition that covers the system answered no.
    ConditionFalse,
    /// S6: no condition that covers the system answered no.
    ConditionTrue,
    /// S7: a running system conflicts with what the step reads or writes.
    Conflict,
    /// S8: the system does not run.
    NotRunning,
    /// S9: a system of the sync point's level has not ended.
    LevelOpen,
}
