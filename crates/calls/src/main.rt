// Calls that no command of the program shows: faults of an engine, bodies of several types, gates, what runs side by side, and calls of the
// store, of the core and of the board that only programs of their own make. Each line of the output is a test, which says NO where it is other
// than it is to be.
#![tactic(auto)]

ghost use Rattle.std.specs.Prelude.{};

mod tests;

use crate::tests::again;
use crate::tests::board::{one_slot, two_hands, waits};
use crate::tests::commands::kept_again;
use crate::tests::inputs::{inputs, mended, moved_from_input, refused_input};
use crate::tests::levels::levels;
use crate::tests::moving::{
    boxed, boxed_on_threads, kept_at_the_last_tick, kept_state, refused_engines, spent_clock,
    stamps,
};
use crate::tests::plans::two_plans;
use crate::tests::random::random_worlds;
use crate::tests::resources::{kept_round, three_tallies};
use crate::tests::rows::{Row, kept as kept_row, kept_on_threads};
use crate::tests::store::{buffers, entities, grants, steps, texts, unions};
use crate::tests::threads::{judged, refuse, refuse_kept_on_threads, refuse_on_threads};
use crate::tests::trials::TRIALS;
use std::alloc::Global;
use std::env;
use std::io::{self, Write};
use std::sync::Wait;
use std::thread::Threads;

// A test: what it is called, and whether it is as it is to be.
type Test = (&'static str, Option<bool>);

// Tells these tests.
fn tell<W: Write>(out: &mut W, tests: &[Test]) -> io::Result<()> {
    for (name, answer) in tests {
        let said = match answer {
            Some(true) => "",
            Some(false) => ": NO",
            None => ": NOT DONE",
        };
        writeln!(out, "{name}{said}")?;
    }
    Ok(())
}

// The tests of engines on one thread.
fn runs_alone(alloc: Global) -> [Test; 6] {
    [
        ("stamps and ticks of three runs", stamps(alloc)),
        ("a spent clock spoils an engine", spent_clock(alloc)),
        ("engines that are refused", refused_engines(alloc)),
        ("bodies of two types in boxes", boxed(alloc)),
        (
            "a body that writes a resource and a register",
            three_tallies(alloc),
        ),
        ("a refusal spoils an engine", refuse(alloc)),
    ]
}

// The tests of what stands below engines.
fn parts(alloc: Global) -> [Test; 9] {
    [
        ("entities of a store", entities(alloc)),
        ("three ids and three more", grants(alloc)),
        ("two plans beside an insert", two_plans(alloc)),
        (
            "two plans in a thousand random worlds",
            random_worlds(alloc),
        ),
        ("events in two buffers", buffers(alloc)),
        ("what two systems touch together", unions(alloc)),
        ("steps of a core", steps(alloc)),
        ("levels, and what is ready in turn", levels(alloc)),
        ("texts of traces", texts(alloc)),
    ]
}

// The tests of runs that leave no trace of a fault.
fn kept(alloc: Global) -> [Test; 3] {
    [
        (
            "a spent clock spoils nothing in a run that is kept",
            kept_at_the_last_tick(alloc),
        ),
        ("a run that is kept leaves the state", kept_state(alloc)),
        (
            "three refusals of runs that are kept leave the round",
            kept_round(alloc),
        ),
    ]
}

// The tests of bodies on threads.
fn bodies_on_threads<R: Threads + Wait + Copy + Send + Sync + 'static>(
    rt: R,
    alloc: Global,
) -> [Test; 3] {
    [
        (
            "bodies of two types in boxes on threads",
            boxed_on_threads(rt, alloc),
        ),
        (
            "a refusal beside three others spoils an engine",
            refuse_on_threads(rt, alloc),
        ),
        (
            "three refusals beside three others spoil nothing in runs that are kept",
            refuse_kept_on_threads(rt, alloc),
        ),
    ]
}

// The tests of what a host does between runs.
fn between_runs(alloc: Global) -> [Test; 3] {
    [
        (
            "a run moves what an input put elsewhere",
            moved_from_input(alloc),
        ),
        (
            "an input at the last tick changes nothing",
            refused_input(alloc),
        ),
        ("a state that is set mends a spoiled engine", mended(alloc)),
    ]
}

// The tests of a board of jobs.
fn boards<R: Threads + Wait>(runtime: &R, alloc: Global) -> [Test; 3] {
    [
        ("a board of one slot and one hand", one_slot(alloc)),
        (
            "two hands in threads of their own",
            two_hands(runtime, alloc),
        ),
        ("a hand and a lead that wait", waits(runtime, alloc)),
    ]
}

// The trials of bodies on threads.
fn tell_trials<W: Write, R: Threads + Wait + Copy + Send + Sync + 'static>(
    rt: R,
    alloc: Global,
    out: &mut W,
) -> io::Result<()> {
    for trial in &TRIALS {
        let answer = judged(rt, alloc, trial);
        tell(out, &[(trial.name, answer)])?;
    }
    Ok(())
}

// The tests of calls that are taken once more where an allocation fails. Each of their allocations is refused in turn by `.ci/allocations`.
fn made_again(alloc: Global) -> [Test; 5] {
    [
        (
            "an insert, once more where it is refused",
            again::inserted(alloc),
        ),
        (
            "commands, once more where they are refused",
            again::applied(alloc),
        ),
        (
            "a column to be written, once more where it is refused",
            again::taken(alloc),
        ),
        (
            "a run that is kept, once more where it is refused",
            kept_again(alloc),
        ),
        (
            "inputs between runs, once more where they are refused",
            inputs(alloc),
        ),
    ]
}

// The tests of programs whose runs are kept, which are taken once more where an allocation or a thread is refused.
fn kept_again_on_threads<R: Threads + Wait + Copy + Send + Sync + 'static>(
    rt: R,
    alloc: Global,
) -> [Test; 6] {
    [
        ("a movement that is kept", kept_row(alloc, Row::Moves)),
        (
            "a movement that is kept, on two threads",
            kept_on_threads(rt, alloc, Row::Moves),
        ),
        ("spawns that are kept", kept_row(alloc, Row::Spawns)),
        (
            "spawns that are kept, on two threads",
            kept_on_threads(rt, alloc, Row::Spawns),
        ),
        ("a count that is kept", kept_row(alloc, Row::Counts)),
        (
            "a count that is kept, on two threads",
            kept_on_threads(rt, alloc, Row::Counts),
        ),
    ]
}

// The tests of both, told.
fn tell_again<W: Write, R: Threads + Wait + Copy + Send + Sync + 'static>(
    rt: R,
    alloc: Global,
    out: &mut W,
) -> io::Result<()> {
    tell(out, &made_again(alloc))?;
    tell(out, &kept_again_on_threads(rt, alloc))
}

// With an argument only the calls that are taken once more are made.
fn main(rt: HostRuntime) -> io::Result<()> {
    if env::args(&rt)?.skip(1).next().is_some() {
        return tell_again(rt, rt.alloc(), &mut rt.stdout());
    }
    tell(&mut rt.stdout(), &runs_alone(rt.alloc()))?;
    tell(&mut rt.stdout(), &parts(rt.alloc()))?;
    tell(&mut rt.stdout(), &kept(rt.alloc()))?;
    tell(&mut rt.stdout(), &between_runs(rt.alloc()))?;
    tell(&mut rt.stdout(), &boards(&rt, rt.alloc()))?;
    tell(&mut rt.stdout(), &bodies_on_threads(rt, rt.alloc()))?;
    tell_trials(rt, rt.alloc(), &mut rt.stdout())?;
    tell_again(rt, rt.alloc(), &mut rt.stdout())
}
