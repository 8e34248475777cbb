// What C holds of a world.

ghost use Rattle.std.specs.Prelude.{◌≡◌, None, Some, is_some, option_map};

use crate::kept::Kept;
use live_world::LiveWorld;
use loose::Loose;
use std::alloc::Global;
use std::mem::replace;

/// A world that is open, or none. C begins it as zeros and leaves it alone.
#[repr(C)]
pub struct Handle {
    /// Whether a world is open.
    pub is_open: bool,
    /// That world.
    pub slot: Kept,
    pub(crate) ghost agrees: { is_open ≡ is_some slot.kept },
}

impl Handle {
    /// A handle with no world.
    pub fn closed(alloc: Global) -> Handle
        ensures { result.slot.kept ≡ None }
    {
        Handle {
            is_open: false,
            slot: Kept::empty(alloc),
        }
    }

    /// The handle of a world.
    pub fn of(world: Box<LiveWorld>) -> Handle
        ensures { result.slot.kept ≡ Some world.value }
    {
        Handle {
            is_open: true,
            slot: Kept::of(Loose::of(world)),
        }
    }

    /// The world that it holds.
    pub fn into_world(self) -> Option<Box<LiveWorld>>
        ensures { option_map (λ world. world.value) result ≡ self.slot.kept }
    {
        let Handle { is_open, slot } = self;
        if is_open {
            Some(slot.into_loose().into_box())
        } else {
            None
        }
    }

    /// Takes out the world that is open, and leaves none.
    pub fn take(&mut self, alloc: Global) -> Option<Box<LiveWorld>>
        ensures taken { option_map (λ world. world.value) result ≡ self.old.slot.kept }
        ensures none { self.new.slot.kept ≡ None }
    {
        replace(self, Handle::closed(alloc)).into_world()
    }
}

// What is let go is closed.
impl Drop for Handle {
    fn drop(self) {
        let _world = self.into_world();
    }
}
