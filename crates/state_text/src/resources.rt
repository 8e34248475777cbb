// The lines of the resources.

ghost use Rattle.std.specs.Prelude.{◌≡◌, ◌++◌, OnOk, string_bytes};
ghost use Rattle.state_text.specs.StateText.{resource_line, resource_lines};

use crate::form::Form;
use crate::words::push_stamp;
use archetype_store::World;
use change_ticks::Tick;
use kinds::Res;
use std::alloc::AllocError;

/// Adds the lines of these resources.
pub fn push_resources(
    text: &mut String,
    form: Form,
    world: &World,
    list: &[Res],
) -> Result<(), AllocError>
    ensures { OnOk result (string_bytes text.new
        ≡ string_bytes text.old ++ resource_lines form world.now.state.resources list.now) }
{
    for res in list {
        push_resource(text, form, *res, world.res(*res), world.res_changed(*res))?;
    }
    Ok(())
}

// Adds the line of a resource.
fn push_resource(
    text: &mut String,
    form: Form,
    res: Res,
    value: i64,
    changed: Tick,
) -> Result<(), AllocError>
    ensures { OnOk result (string_bytes text.new ≡ string_bytes text.old
        ++ resource_line form res (record { value = value; changed = changed })) }
{
    write!(text, "{res} {value}")?;
    push_stamp(text, form, changed)?;
    writeln!(text)
}
