// Systems of which two parameters conflict.

ghost use Rattle.std.specs.Prelude.{ℕ, ◌<◌, length, IfSome, IfNone};
ghost use Rattle.model.specs.access.SelfConflict.{ConflictWithin};
ghost use Rattle.model.specs.declarations.Declarations.{declared_at};
ghost use Rattle.model.specs.declarations.Refusals.{HasNoSelfConflict};

use crate::desc::ScheduleDesc;
use access_set::self_conflict::conflicts_within;

/// The first system whose parameters conflict among themselves.
pub(crate) fn first_conflicting(desc: &ScheduleDesc) -> Option<usize>
    ensures found { IfSome result (λ n. (n < length desc.now.systems)
        × ConflictWithin (declared_at desc.now n).params
        × ((m : ℕ) → m < n → ConflictWithin (declared_at desc.now m).params → ⊥)) }
    ensures none { IfNone result (HasNoSelfConflict desc.now) }
{
    for number in 0..desc.systems().len() {
        if conflicts_within(desc.system(number).params()) {
            return Some(number);
        }
    }
    None
}
