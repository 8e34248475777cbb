// What is found.

use ambiguity_report::Pair;
use kinds::{Event, Kind, Res};

/// A set or a system, by its number.
#[derive(Clone, Copy)]
pub enum Holder {
    /// A set.
    Set(usize),
    /// A system.
    System(usize),
}

/// A list of names of a set or a system.
#[derive(Clone, Copy)]
pub enum Listed {
    /// `in`.
    In,
    /// `before`.
    Before,
    /// `after`.
    After,
    /// `before_ignore_deferred`.
    BeforeIgnoreDeferred,
    /// `after_ignore_deferred`.
    AfterIgnoreDeferred,
    /// `ambiguous_with`.
    AmbiguousWith,
}

/// What of a program file is likely a mistake. Systems, queries, blocks, instructions and sets are numbered from 0, in the order of the file.
#[derive(Clone, Copy)]
pub enum Lint {
    /// A query of a system has a `mut` term of a kind, which the system never writes.
    UnusedMut {
        system: usize,
        query: usize,
        kind: Kind,
    },
    /// A query of a system has a `read` or `opt` term of a kind, which the system never uses.
    UnreadTerm {
        system: usize,
        query: usize,
        kind: Kind,
    },
    /// A query of a system has an `entity` term, and no command of the system is about a row of it.
    UnreadEntity {
        system: usize,
        query: usize,
    },
    /// A query of a system requires a kind that no entity has and none is given.
    NoMatch {
        system: usize,
        query: usize,
        kind: Kind,
    },
    /// A system reads a resource (`res`), and never uses it.
    UnreadRes {
        system: usize,
        res: Res,
    },
    /// A system writes a resource (`res_mut`), and never does so.
    UnusedResMut {
        system: usize,
        res: Res,
    },
    /// A system reads events of a kind, and has no block for them.
    UnreadEvents {
        system: usize,
        event: Event,
    },
    /// A system writes events of a kind, and never emits one.
    UnusedWrites {
        system: usize,
        event: Event,
    },
    /// A system has Commands, and issues none.
    NoCommand {
        system: usize,
    },
    /// A system is granted more ids than it names: the last of them has this number.
    UnusedSlot {
        system: usize,
        slot: u32,
    },
    /// A system reads a register that it never writes.
    UnsetRegister {
        system: usize,
        register: u32,
    },
    /// A system writes a register that it never reads.
    UnreadRegister {
        system: usize,
        register: u32,
    },
    /// A name stands twice in a list of a set or a system.
    SaidTwice {
        holder: Holder,
        list: Listed,
    },
    /// A resource stands twice among those that a system reads (`res`).
    RepeatedRes {
        system: usize,
        res: Res,
    },
    /// An event kind stands twice among those that a system reads.
    RepeatedEvents {
        system: usize,
        event: Event,
    },
    /// A block has no instruction.
    EmptyCode {
        system: usize,
        block: usize,
    },
    /// What an instruction skips ends amid what another skips, which is skipped itself.
    CrossingSkip {
        system: usize,
        block: usize,
        first: usize,
        second: usize,
    },
    /// An instruction is never done: the one before it always skips it, and none leads there.
    Unreachable {
        system: usize,
        block: usize,
        instruction: usize,
    },
    /// A set has no system in it.
    NoMembers(usize),
    /// A chain has fewer than two items.
    LoneChain(usize),
    /// A condition always answers alike: whether it answers yes.
    ConstantCondition {
        condition: u32,
        says: bool,
    },
    /// An event kind is written, and nothing reads it or asks for it.
    UnreadEvent(Event),
    /// An event kind is read or asked for, and nothing writes it.
    UnwrittenEvent(Event),
    /// A resource is read or asked for that is 0 at the start, and nothing writes it.
    UnwrittenRes(Res),
    /// A system and what races with it.
    Race(Pair),
}
