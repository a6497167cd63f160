//! A place of C's memory that holds a box, or nothing.
ghost use Rattle.std.specs.Prelude.{◌≡◌, Option, true, false, Some, None};
ghost use Rattle.aat_records.specs.declared.held.Held.{Held};
ghost use Rattle.aat_c.specs.Slots.{held_coded, holds, slot_owns};

mod parts;

use aat_records::Held;
use parts::Parts;
use std::alloc::Global;
use std::marker::Model;

/// A pointer to a box, or to nothing.
#[repr(C)]
#[derive(Drop)]
pub struct Slot {
    ptr: *mut u8,
    alloc: Global,
    pub ghost value: { Option Held } by { held_coded },
}

impl Model for Slot {
    ghost also_owns = { λ s. slot_owns s.value s.alloc s.ptr };
}

impl Slot {
    /// A slot of what a box is made of.
    fn of_parts(parts: Parts<Held, Global>) -> Slot
        ensures { result.value ≡ Some parts.value }
    {
        let Parts { ptr, alloc } = parts;
        let at = ptr as *mut u8;
        Slot { ptr: at, alloc }
    }

    /// The pointer of an empty slot.
    fn nowhere() -> *mut u8 {
        std::ptr::null_mut()
    }

    /// A slot that holds nothing.
    pub fn new(alloc: Global) -> Slot
        ensures { result.value ≡ None }
    {
        let at = Slot::nowhere();
        Slot::empty(alloc, at)
    }

    /// An empty slot.
    fn empty(alloc: Global, ptr: *mut u8) -> Slot
        ensures { result.value ≡ None }
    {
        Slot { ptr, alloc }
    }

    /// What the box in the slot is made of.
    fn into_parts(self) -> Parts<Held, Global>
        requires { holds self.value ≡ true }
        ensures { self.value ≡ Some result.value }
    {
        let Slot { ptr, alloc } = self;
        let at = ptr as *mut Held;
        Parts { ptr: at, alloc }
    }

    /// A slot that holds a box.
    pub fn of(held: Box<Held>) -> Slot
        ensures { result.value ≡ Some held.value }
    {
        Slot::of_parts(Parts::of(held))
    }

    /// The box in the slot.
    pub fn into_box(self) -> Box<Held>
        requires { holds self.value ≡ true }
        ensures { self.value ≡ Some result.value }
    {
        self.into_parts().into_box()
    }
}
