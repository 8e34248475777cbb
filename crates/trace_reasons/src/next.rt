// Which step may come next in a run.

use crate::blame::name_of;
use crate::past::Past;
use crate::telling::Scene;
use executor_core::Core;
use model::{Ready, Step};
use std::alloc::{AllocError, Global};

/// A step that may come behind some steps, in words.
pub fn next_words(alloc: Global, scene: Scene<'_>, steps: &[Step]) -> Result<String, AllocError> {
    let past = Past { steps };
    for system in 0..scene.built.count() {
        if past.is_running(system) {
            let name = name_of(scene.document, system);
            return format!(in alloc; "`F {system}` may come next: `{name}` runs");
        }
    }
    let mut core = Core::new(alloc, scene.built)?;
    for step in steps {
        if core.step(*step).is_err() {
            break;
        }
    }
    match core.ready() {
        Some(ready) => {
            let (sign, number, behind) = parts_of(ready);
            format!(in alloc; "`{sign} {number}{behind} may come next")
        }
        None => Ok(String::new(alloc)),
    }
}

// A step that is offered: its letter, its number, and what is behind.
fn parts_of(ready: Ready) -> (&'static str, u32, &'static str) {
    match ready {
        Ready::Ask(condition) => ("C", condition, "`, and its answer,"),
        Ready::Skip(system) => ("K", system, "`"),
        Ready::Start(system) => ("S", system, "`"),
        Ready::Sync(sync) => ("Y", sync, "`"),
    }
}
