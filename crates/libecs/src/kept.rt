// The box of a world as its pointer, or none.

ghost use Rattle.std.specs.Prelude.{◌≡◌, Some, None, Option, is_some, true};
ghost use Rattle.libecs.specs.Kept.{kept_at, kept_code};
ghost use Rattle.live_world.specs.declared.live_world.LiveWorld.{LiveWorld};

use live_world::LiveWorld;
use loose::Loose;
use std::alloc::Global;
use std::marker::Model;
use std::ptr::null_mut;

/// A world in a box of its own, or none. It is no type of C's that points to a world: all that C sees is where the
/// box is.
#[repr(C)]
#[derive(Drop)]
pub struct Kept {
    /// Where the box is; null where there is none.
    pub at: *mut u8,
    /// What gave its memory; it takes no bytes.
    pub alloc: Global,
    /// The world.
    pub ghost kept: { Option LiveWorld } by { kept_code },
}

impl Model for Kept {
    ghost also_owns = { λ k. kept_at k.alloc k.at k.kept };
}

impl Kept {
    /// No world.
    pub fn empty(alloc: Global) -> Kept
        ensures { result.kept ≡ None }
    {
        Kept {
            at: null_mut(),
            alloc,
        }
    }

    /// The world in a box.
    pub fn of(loose: Loose<LiveWorld, Global>) -> Kept
        ensures { result.kept ≡ Some loose.value }
    {
        let Loose { at, alloc } = loose;
        Kept {
            at: at as *mut u8,
            alloc,
        }
    }

    /// The box of the world that is there.
    pub fn into_loose(self) -> Loose<LiveWorld, Global>
        requires { is_some self.kept ≡ true }
        ensures { Some result.value ≡ self.kept }
    {
        let Kept { at, alloc } = self;
        Loose {
            at: at as *mut LiveWorld,
            alloc,
        }
    }
}
