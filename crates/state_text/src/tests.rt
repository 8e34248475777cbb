// The texts of a small state, and its digest.

ghost use Rattle.std.specs.Prelude.{IfSome};
ghost use Rattle.archetype_store.specs.Layout.{AreAllHome};
ghost use Rattle.body.specs.Steps.{AreInTime};

use crate::reading::StateFault::{self, NoState, Outside};
use crate::{digest_of, hex_of, read_state, text_of_state, values_of_state};
use archetype_store::World;
use body::{Input, Memories, Memory, OpenState, State};
use change_ticks::Clock;
use entity_table::Entity;
use event_buffers::Events;
use kinds::component::{Frozen, Health, Position};
use kinds::{Component, Event, Res, Value};
use std::alloc::Global;
use std::test::Fail;

const WHOLE: &str = "state 1 1 1 4
clock 9
passed 1
Round 0 1
Gravity -10 5
Total 0 1
Seed 0 1
Limit 0 1
Alarm 0 1
Mode 0 1
Step 0 1
Hit 1 2 7 -5
Heal 0 0
Spark 0 0
Done 0 0
system 1 1 -2 0 0 0 0 0 3 1
condition 0 0 0 0 0 0 0 0 0
granted 0v1
live 1v1 Position 2 7 5 -4 Frozen 2 2
vacant 2v2
live 3v1 Health 4 4 9
";

const VALUES: &str = "values 1 1 1 4
clock 9
passed 1
Round 0
Gravity -10
Total 0
Seed 0
Limit 0
Alarm 0
Mode 0
Step 0
Hit 1 2 7 -5
Heal 0 0
Spark 0 0
Done 0 0
system 1 -2 0 0 0 0 0 3 1
condition 0 0 0 0 0 0 0 0
granted 0v1
live 1v1 Position 5 -4 Frozen
vacant 2v2
live 3v1 Health 9
";

// Of the text of the values, by `sha256sum`.
const DIGEST: &str = "db40b6b8a29f221c1d8e3f87e18576df665852d25116e3f028d55c1fa5450fa2";

const FIRST: Entity = Entity {
    index: 1,
    generation: 1,
};

const SECOND: Entity = Entity {
    index: 2,
    generation: 1,
};

// Puts inputs in, one after the other.
fn put_all(alloc: Global, state: &mut OpenState, inputs: &[Input]) -> Option<()>
    requires { AreAllHome state.old.layout }
    ensures { AreAllHome state.new.layout }
{
    for input in inputs {
        state.input(alloc, input).ok()?;
    }
    Some(())
}

// A system that has read the first hit, and a condition that was never asked.
fn memories(alloc: Global, events: &Events) -> Option<Memories>
    ensures { IfSome result (λ memories. AreInTime 1 memories.systems.items
        memories.conditions.items) }
{
    let reads = [Event::Hit];
    let mut memory = Memory::with_readers(alloc, reads.as_slice()).ok()?;
    memory.ran(1, reads.as_slice(), events);
    memory.set_registers([1, -2, 0, 0, 0, 0, 0, 3]);
    Some(Memories {
        systems: vec![in alloc; memory].ok()?,
        conditions: vec![in alloc; Memory::new(alloc)].ok()?,
    })
}

// An id is granted. Then three entities come, and the second one dies, twice. Both hits are kept, of which the first is older.
fn small_state(alloc: Global) -> Option<State> {
    let mut events = Events::new(alloc);
    events.send(Event::Hit, 7).ok()?;
    events.update();
    let memories = memories(alloc, &events)?;
    let mut world = World::empty(alloc, Clock::at(1));
    world.grant(alloc, 1).ok()?;
    let mut state = State::new(world, events, memories).into_open();
    let inputs = [
        Input::Spawn(vec![in alloc;
            Position { x: 3, y: -4 }.into_value(),
            Frozen {}.into_value(),
        ]
        .ok()?),
        Input::Spawn(Vec::new(alloc)),
        Input::Spawn(vec![in alloc; Health { v: 9 }.into_value()].ok()?),
        Input::SetResource(Res::Gravity, -10),
        Input::Despawn(SECOND),
        Input::Insert(FIRST, Position { x: 5, y: -4 }.into_value()),
        Input::Despawn(SECOND),
        Input::Emit(Event::Hit, -5),
    ];
    put_all(alloc, &mut state, inputs.as_slice())?;
    Some(state.into_state())
}

#[test]
fn a_small_state_is_written(rt: HostRuntime) -> Result<(), Fail> {
    let alloc = rt.alloc();
    let Some(state) = small_state(alloc) else {
        assert!(rt; false, "no state");
        return Ok(());
    };
    assert_eq!(rt; text_of_state(alloc, &state)?.as_str(), WHOLE);
    assert_eq!(rt; values_of_state(alloc, &state)?.as_str(), VALUES);
    let digest = digest_of(alloc, &state)?;
    assert_eq!(rt; hex_of(digest).to_string(alloc)?.as_str(), DIGEST);
    Ok(())
}

#[test]
fn a_written_state_is_read(rt: HostRuntime) -> Result<(), Fail> {
    let alloc = rt.alloc();
    match read_state(alloc, WHOLE) {
        Ok(state) => {
            assert_eq!(rt; text_of_state(alloc, &state)?.as_str(), WHOLE);
            assert_eq!(rt; values_of_state(alloc, &state)?.as_str(), VALUES);
        }
        Err(fault) => assert!(rt; false, "{fault}"),
    }
    Ok(())
}

// A part of the text, what stands in its place, and why the whole is refused then.
const REFUSALS: [(&str, &str, StateFault); 22] = [
    // The version of the format.
    ("state 1", "state 2", Outside(1)),
    // A line fewer than the head says, and one more.
    ("1 1 4", "1 1 5", Outside(22)),
    ("1 1 4", "1 1 3", Outside(21)),
    // Another spelling: of a number, of spaces, of an end.
    ("clock 9", "clock 09", Outside(2)),
    ("passed 1", "passed  1", Outside(3)),
    ("4 4 9\n", "4 4 9", Outside(21)),
    // No clock stands at tick 0.
    ("clock 9", "clock 0", NoState(2)),
    // A tick above the clock: of a resource, of a run, of a component.
    ("Gravity -10 5", "Gravity -10 10", NoState(5)),
    ("system 1", "system 10", NoState(16)),
    ("Health 4 4", "Health 4 10", NoState(21)),
    // Another name than that of the place.
    ("Total", "Seed", Outside(6)),
    // More kept events than numbers were given; a newer buffer that begins before them, and behind.
    ("Hit 1 2", "Hit 1 1", NoState(12)),
    ("Hit 1 2 7 -5", "Hit 1 3 7 -5 0 0", NoState(12)),
    ("Hit 1 2", "Hit 3 2", NoState(12)),
    // Too few registers; a cursor that is none.
    ("condition 0 0", "condition 0", Outside(17)),
    ("3 1\n", "3 -1\n", Outside(16)),
    // A vacant index that never came back, one retired too early, one out of its place.
    ("granted 0", "vacant 0", NoState(18)),
    ("vacant 2", "retired 2", NoState(20)),
    ("live 1", "live 2", NoState(19)),
    // Kinds that don't rise; a component of who doesn't live; a field too many.
    (
        "Position 2 7 5 -4 Frozen 2 2",
        "Frozen 2 2 Position 2 7 5 -4",
        NoState(19),
    ),
    ("2v2", "2v2 Frozen 2 2", NoState(20)),
    ("4 4 9", "4 4 9 9", Outside(21)),
];

#[test]
fn other_texts_are_refused(rt: HostRuntime) -> Result<(), Fail> {
    let alloc = rt.alloc();
    for (old, new, wanted) in &REFUSALS {
        let text = WHOLE.replace(alloc, old, new)?;
        match read_state(alloc, text.as_str()) {
            Ok(_) => assert!(rt; false, "{new} is read"),
            Err(fault) => assert_eq!(rt; fault, *wanted),
        }
    }
    Ok(())
}
