// Runs of an engine on threads, and the text of the world that they leave.

ghost use Rattle.std.specs.Prelude.{◌≡◌, IfSome, string_bytes};
ghost use Rattle.engine.specs.Meanings.{meanings};
ghost use Rattle.state_lines.specs.WorldText.{world_text};
ghost use Rattle.example_body.specs.Printed.{IsPrinted};

use body::Body;
use engine::Engine;
use state_lines::world::text_of_world;
use std::alloc::Global;
use std::sync::Wait;
use std::thread;
use std::thread::{Scope, Threads};
use worker_pool::{NoGate, Workers};

// How many systems may run at once.
const WORKERS: usize = 4;

// What a worker passes before and after a body: nothing.
const NO_GATE: NoGate = NoGate;

// The text of the world after so many runs on the threads of a scope.
fn text_in_scope<'s, E: 's, R: Threads + Wait + Copy + Send + 's, B: Body + 's>(
    scope: &Scope<'s, E>,
    runtime: R,
    alloc: Global,
    engine: Engine<B>,
    times: u32,
) -> Option<String>
    ensures { IfSome result (λ text. IsPrinted times engine.schedule
        (meanings B.meaning engine.schedule engine.bodies) engine.state (string_bytes text)) }
{
    let mut engine = engine;
    let mode = Workers::new(WORKERS, scope, runtime, &NO_GATE);
    match engine.run(alloc, times, &mode) {
        Ok(_traces) => text_of(alloc, &engine, times),
        Err(_fault) => None,
    }
}

// The text of the state of an engine after so many runs.
fn text_of<B: Body>(alloc: Global, engine: &Engine<B>, times: u32) -> Option<String>
    ensures { IfSome result (λ text. string_bytes text ≡ world_text times engine.now.state) }
{
    let state = engine.state();
    text_of_world(alloc, times, state.world(), state.passed_over()).ok()
}

/// The text of the world after some runs, each body in a thread of its own. None where a run stops by a fault.
pub fn text_after<R: Threads + Wait + Copy + Send + Sync + 'static, B: Body + 'static>(
    runtime: R,
    alloc: Global,
    engine: Engine<B>,
    times: u32,
) -> Option<String>
    ensures { IfSome result (λ text. IsPrinted times engine.schedule
        (meanings B.meaning engine.schedule engine.bodies) engine.state (string_bytes text)) }
{
    thread::scope(
        thread::scope_env(),
        &runtime,
        |scope| -> Option<String>
            ensures { IfSome result (λ text. IsPrinted times engine.schedule
                (meanings B.meaning engine.schedule engine.bodies) engine.state (string_bytes
                text)) }
        { text_in_scope(scope, runtime, alloc, engine, times) },
    )
}
