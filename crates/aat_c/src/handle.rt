//! A handle of C's: a slot that says whether it holds something.
ghost use Rattle.std.specs.Prelude.{◌≡◌, true, false, Some, None};
ghost use Rattle.aat_c.specs.Slots.{holds, taken_from};

use crate::slot::Slot;
use aat_records::Held;
use std::alloc::Global;
use std::mem::replace;

/// A handle. C makes it of zeros, and neither copies it nor looks into it.
#[repr(C)]
#[derive(Drop)]
pub struct Handle {
    slot: Slot,
    is_full: bool,
    ghost full: { is_full ≡ holds slot.value },
}

impl Handle {
    /// Takes what the handle holds.
    pub fn take(&mut self, alloc: Global) -> Option<Box<Held>>
        ensures empty { self.new.is_full ≡ false }
        ensures taken { taken_from self.old.slot.value result }
    {
        let is_full = self.is_full;
        self.is_full = false;
        let slot = replace(&mut self.slot, Slot::new(alloc));
        if is_full { Some(slot.into_box()) } else { None }
    }

    /// Has the handle hold a box.
    pub fn put(&mut self, held: Box<Held>)
        ensures full { self.new.is_full ≡ true }
        ensures kept { self.new.slot.value ≡ Some held.value }
    {
        self.slot = Slot::of(held);
        self.is_full = true;
    }
}
