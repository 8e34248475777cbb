// The lines of the resources, read.

ghost use Rattle.std.specs.Prelude.{◌≡◌, ℕ, List, length, map, OnOk};
ghost use Rattle.std.specs.List.{AllByRecursion};
ghost use Rattle.kinds.specs.Res.{res_number, every_res};
ghost use Rattle.model.specs.state.State.{Resource, resource_count};
ghost use Rattle.archetype_store.specs.Store.{with_resource};
ghost use Rattle.state_text.specs.LineWords.{AreLines, IsResourceAt, resource_words, resources_before, with_resources};
ghost use Rattle.state_text.specs.Reading.{UnlessMemory};

use crate::reading::fault::LineFault;
use crate::reading::lines::Lines;
use crate::reading::words::{integer_of, tick_of};
use archetype_store::World;
use kinds::Res;
use std::alloc::Global;

// Sets all resources to what their lines say.
pub(crate) fn read_resources(
    alloc: Global,
    world: &mut World,
    lines: &mut Lines<'_>,
) -> Result<(), LineFault>
    ensures clock { OnOk result (world.new.state.clock ≡ world.old.state.clock) }
    ensures layout { OnOk result (world.new.layout ≡ world.old.layout) }
    ensures all { (rs : List Resource) (more : List (List (List ℕ)))
        → length rs ≡ length world.old.state.resources → length rs ≡ resource_count
        → AllByRecursion (IsResourceAt world.old.state.clock) rs
        → AreLines (resources_before rs every_res more) lines.old.rest.now
        → UnlessMemory result (λ done. (world.new.state
        ≡ with_resources rs world.old.state) × AreLines more lines.new.rest.now) }
{
    for res in Res::ALL.as_slice() {
        let words = lines.words(alloc)?;
        read_resource(world, *res, &words)?;
    }
    Ok(())
}

// Sets the resource to what its line says.
fn read_resource(world: &mut World, res: Res, words: &[&str]) -> Result<(), LineFault>
    ensures clock { OnOk result (world.new.state.clock ≡ world.old.state.clock) }
    ensures layout { OnOk result (world.new.layout ≡ world.old.layout) }
    ensures all { (r : Resource) → IsResourceAt world.old.state.clock r
        → map (λ word. word.now) words.now ≡ resource_words res r
        → UnlessMemory result (λ done. world.new.state
        ≡ with_resource (res_number res) r.value r.changed world.old.state) }
{
    let [name, value, changed] = words else {
        return Err(LineFault::Outside);
    };
    if *name != res.name() {
        return Err(LineFault::Outside);
    }
    let value = integer_of(value)?;
    let changed = tick_of(changed, world.now())?;
    world.set_res(res, value, changed);
    Ok(())
}
