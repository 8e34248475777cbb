// The head of a text, and the lines of counts.

ghost use Rattle.std.specs.Prelude.{◌≡◌, ◌++◌, OnOk, string_bytes};
ghost use Rattle.state_text.specs.StateText.{count_line, head_line};

use crate::form::Form;
use body::State;
use std::alloc::AllocError;

/// Adds the first line.
pub fn push_head(text: &mut String, form: Form, state: &State) -> Result<(), AllocError>
    ensures { OnOk result (string_bytes text.new
        ≡ string_bytes text.old ++ head_line form state.now) }
{
    let name = form.name();
    let systems = state.systems();
    let conditions = state.conditions();
    let slots = state.world().slot_count();
    writeln!(text, "{name} 1 {systems} {conditions} {slots}")
}

/// Adds the line of a count.
pub fn push_count(text: &mut String, name: &str, count: u64) -> Result<(), AllocError>
    ensures { OnOk result (string_bytes text.new
        ≡ string_bytes text.old ++ count_line name.now count) }
{
    writeln!(text, "{name} {count}")
}
