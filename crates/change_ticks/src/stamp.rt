// Stamps: when a component was added and last changed.

ghost use Rattle.std.specs.Prelude.{◌≡◌, nat_lt};

use crate::clock::Tick;

/// The ticks at which a component was added and last changed.
#[derive(Clone, Copy, PartialEq, Eq, Debug)]
pub struct Stamp {
    /// When the component was added.
    pub added: Tick,
    /// When the component was last changed; its adding counts as a change.
    pub changed: Tick,
}

/// Whether a stamp is later than a last run. An observer that never ran has the last run 0, so all is new to it.
pub fn newer(stamp: Tick, last_run: Tick) -> bool
    ensures { result ≡ nat_lt last_run stamp }
{
    last_run < stamp
}
