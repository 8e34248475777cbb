// The trials of bodies on threads, as data: who runs, at which gate, how, and what is wanted.

ghost use Rattle.std.specs.Prelude.{};

use crate::tests::gates::{PATIENCE, Rule};
use crate::tests::runs::{ONCE, Plan};
use executor_core::Step;

/// Who runs in a trial.
#[derive(Clone, Copy)]
pub enum Cast {
    /// A number of systems that touch nothing. The gate of the workers holds them.
    Idle(u32),
    /// A number of them that touch nothing, whose bodies wait for each other at the gate.
    Meeting(u32),
    /// Two whose bodies wait for each other at the gate, with these queries, over an entity that is frozen and one that is hidden.
    Querying(&'static str, &'static str),
    /// A number of them whose bodies look at the gate of the workers.
    Watching(u32),
    /// Two of one level that give the one entity a score. The gate of the workers holds them.
    Scoring,
    /// Two of one level that spawn an entity each. The gate of the workers holds them.
    Spawning,
}

/// The demand on a trial that has run.
#[derive(Clone, Copy)]
pub enum Wanted {
    /// At most this number was past the gate at once.
    Met(u64),
    /// The gate was entered before each of five bodies and left behind it, once for each start, with the numbers from 1 on.
    FivePassed,
    /// The number of runs that left a trace.
    Traces(usize),
    /// The run recorded steps that its gate lets it record, and no start was held in vain.
    Recorded,
    /// The first entity has this score, and no start was held in vain.
    Score(i64),
    /// The first system spawned the lesser id and the second the greater, and no start was held in vain.
    IdsInOrder,
}

/// A trial.
pub struct Trial {
    /// Its name.
    pub name: &'static str,
    /// Who runs.
    pub cast: Cast,
    /// Whom the gate holds.
    pub rule: Rule,
    /// How often who is held looks whether it may pass.
    pub patience: u64,
    /// How it is run.
    pub plan: Plan,
    /// The demand on it.
    pub wanted: Wanted,
}

// What three starts on two threads record where the first is held until the third has left: the second comes back before the third starts,
// and of the other two either may come back first.
const HELD: [[Step; 7]; 2] = [
    [
        Step::Start(0),
        Step::Start(1),
        Step::Finish(1),
        Step::Start(2),
        Step::Finish(0),
        Step::Finish(2),
        Step::Sync(0),
    ],
    [
        Step::Start(0),
        Step::Start(1),
        Step::Finish(1),
        Step::Start(2),
        Step::Finish(2),
        Step::Finish(0),
        Step::Sync(0),
    ],
];

// One run on three threads, on as many as there can be, and on one.
const BY_THREE: Plan = Plan {
    workers: 3,
    times: 1,
    in_threads: false,
    is_kept: false,
    records: &[],
};

const BY_ALL: Plan = Plan {
    workers: 64,
    times: 1,
    in_threads: false,
    is_kept: false,
    records: &[],
};

const BY_ONE: Plan = Plan {
    workers: 1,
    times: 1,
    in_threads: false,
    is_kept: false,
    records: &[],
};

// One run in which each start has a thread of its own, two at once.
const IN_THREADS: Plan = Plan {
    workers: 2,
    times: 1,
    in_threads: true,
    is_kept: false,
    records: &[],
};

// One run on two threads, of which the record is looked at.
const RECORDED: Plan = Plan {
    workers: 2,
    times: 1,
    in_threads: false,
    is_kept: false,
    records: &HELD,
};

// Many runs on eight threads.
const MANY_TIMES: Plan = Plan {
    workers: 8,
    times: 10_000,
    in_threads: false,
    is_kept: false,
    records: &[],
};

// So often a body that waits in vain looks whether others have come.
const BRIEFLY: u64 = 200;

const FROZEN: &str = "mut Health, with Frozen";

const HIDDEN: &str = "mut Health, with Hidden";

/// The trials.
pub const TRIALS: [Trial; 16] = [
    Trial {
        name: "two starts meet",
        cast: Cast::Idle(2),
        rule: Rule::Gather(2),
        patience: PATIENCE,
        plan: ONCE,
        wanted: Wanted::Met(2),
    },
    Trial {
        name: "three starts meet",
        cast: Cast::Idle(3),
        rule: Rule::Gather(3),
        patience: PATIENCE,
        plan: BY_THREE,
        wanted: Wanted::Met(3),
    },
    Trial {
        name: "sixty-four starts of many meet",
        cast: Cast::Idle(256),
        rule: Rule::Gather(64),
        patience: PATIENCE,
        plan: BY_ALL,
        wanted: Wanted::Met(64),
    },
    Trial {
        name: "two starts meet, a thread for each",
        cast: Cast::Idle(2),
        rule: Rule::Gather(2),
        patience: PATIENCE,
        plan: IN_THREADS,
        wanted: Wanted::Met(2),
    },
    Trial {
        name: "two bodies meet",
        cast: Cast::Meeting(2),
        rule: Rule::Gather(2),
        patience: PATIENCE,
        plan: ONCE,
        wanted: Wanted::Met(2),
    },
    Trial {
        name: "three bodies meet",
        cast: Cast::Meeting(3),
        rule: Rule::Gather(3),
        patience: PATIENCE,
        plan: BY_THREE,
        wanted: Wanted::Met(3),
    },
    Trial {
        name: "two bodies do not meet on one thread",
        cast: Cast::Meeting(2),
        rule: Rule::Gather(2),
        patience: BRIEFLY,
        plan: BY_ONE,
        wanted: Wanted::Met(1),
    },
    Trial {
        name: "two bodies meet whose queries share no entity",
        cast: Cast::Querying(FROZEN, HIDDEN),
        rule: Rule::Gather(2),
        patience: PATIENCE,
        plan: ONCE,
        wanted: Wanted::Met(2),
    },
    Trial {
        name: "two bodies do not meet whose queries share one",
        cast: Cast::Querying(FROZEN, "read Health"),
        rule: Rule::Gather(2),
        patience: BRIEFLY,
        plan: ONCE,
        wanted: Wanted::Met(1),
    },
    Trial {
        name: "who ends first comes back first",
        cast: Cast::Idle(3),
        rule: Rule::Hold(1, 3),
        patience: PATIENCE,
        plan: RECORDED,
        wanted: Wanted::Recorded,
    },
    Trial {
        name: "a gate stands round each body",
        cast: Cast::Watching(5),
        rule: Rule::Open,
        patience: PATIENCE,
        plan: ONCE,
        wanted: Wanted::FivePassed,
    },
    Trial {
        name: "ten thousand runs on threads",
        cast: Cast::Idle(8),
        rule: Rule::Open,
        patience: PATIENCE,
        plan: MANY_TIMES,
        wanted: Wanted::Traces(10_000),
    },
    Trial {
        name: "commands in schedule order, the first start last",
        cast: Cast::Scoring,
        rule: Rule::Hold(1, 2),
        patience: PATIENCE,
        plan: ONCE,
        wanted: Wanted::Score(2),
    },
    Trial {
        name: "commands in schedule order, the second start last",
        cast: Cast::Scoring,
        rule: Rule::Hold(2, 1),
        patience: PATIENCE,
        plan: ONCE,
        wanted: Wanted::Score(2),
    },
    Trial {
        name: "ids in schedule order, the first start last",
        cast: Cast::Spawning,
        rule: Rule::Hold(1, 2),
        patience: PATIENCE,
        plan: ONCE,
        wanted: Wanted::IdsInOrder,
    },
    Trial {
        name: "ids in schedule order, the second start last",
        cast: Cast::Spawning,
        rule: Rule::Hold(2, 1),
        patience: PATIENCE,
        plan: ONCE,
        wanted: Wanted::IdsInOrder,
    },
];
