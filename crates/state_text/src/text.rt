// The text of a whole state, and the text of its values.

ghost use Rattle.std.specs.Prelude.{◌≡◌, IfOk, string_bytes};
ghost use Rattle.state_text.specs.StateText.{text_in, state_text, values_text};

use crate::events::push_events;
use crate::form::Form;
use crate::head::{push_count, push_head};
use crate::memories::{push_conditions, push_systems};
use crate::resources::push_resources;
use crate::slots::push_slots;
use body::State;
use kinds::{Event, Res};
use std::alloc::{AllocError, Global};

/// The text of a whole state, a line for each. It has a head, the clock, the count of skipped commands, the
/// resources, the kept events, the memories of systems and conditions, and the slots.
pub fn text_of_state(alloc: Global, state: &State) -> Result<String, AllocError>
    ensures { IfOk result (λ text. string_bytes text ≡ state_text state.now) }
{
    text_of(alloc, Form::Whole, state)
}

/// The text of the values of a state: the same without stamps and last runs. States that agree have one text of values.
pub fn values_of_state(alloc: Global, state: &State) -> Result<String, AllocError>
    ensures { IfOk result (λ text. string_bytes text ≡ values_text state.now) }
{
    text_of(alloc, Form::Values, state)
}

// The text of a state in a form.
#[tactic(auto, unfolding(crate::specs::StateText::text_in))]
fn text_of(alloc: Global, form: Form, state: &State) -> Result<String, AllocError>
    ensures { IfOk result (λ text. string_bytes text ≡ text_in form state.now) }
{
    let world = state.world();
    let mut text = String::new(alloc);
    push_head(&mut text, form, state)?;
    push_count(&mut text, "clock", world.now())?;
    push_count(&mut text, "passed", state.passed_over())?;
    push_resources(&mut text, form, world, Res::ALL.as_slice())?;
    push_events(&mut text, state.events(), Event::ALL.as_slice())?;
    push_systems(&mut text, form, state)?;
    push_conditions(&mut text, form, state)?;
    push_slots(alloc, &mut text, form, world)?;
    Ok(text)
}
