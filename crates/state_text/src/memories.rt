// The lines of what systems and conditions remember.

ghost use Rattle.std.specs.Prelude.{◌≡◌, ◌++◌, OnOk, string_bytes, codes};
ghost use Rattle.state_text.specs.StateText.{memory_line, memory_lines};

use crate::form::Form;
use crate::words::{push_numbers, push_stamp, push_words};
use body::{Memory, State};
use std::alloc::AllocError;

/// Adds the line of each system.
pub fn push_systems(text: &mut String, form: Form, state: &State) -> Result<(), AllocError>
    ensures { OnOk result (string_bytes text.new
        ≡ string_bytes text.old ++ memory_lines form (codes "system") state.now.systems) }
{
    for system in 0..state.systems() {
        push_memory(text, form, "system", state.memory(system))?;
    }
    Ok(())
}

/// Adds the line of each condition.
pub fn push_conditions(text: &mut String, form: Form, state: &State) -> Result<(), AllocError>
    ensures { OnOk result (string_bytes text.new
        ≡ string_bytes text.old ++ memory_lines form (codes "condition") state.now.conditions) }
{
    for condition in 0..state.conditions() {
        push_memory(
            text,
            form,
            "condition",
            state.memory_of_condition(condition),
        )?;
    }
    Ok(())
}

// Adds the line of a memory.
fn push_memory(text: &mut String, form: Form, name: &str, memory: &Memory) -> Result<(), AllocError>
    ensures { OnOk result (string_bytes text.new
        ≡ string_bytes text.old ++ memory_line form name.now memory.now) }
{
    write!(text, "{name}")?;
    push_stamp(text, form, memory.last_run())?;
    push_words(text, memory.registers().as_slice())?;
    push_numbers(text, memory.cursors())?;
    writeln!(text)
}
