//! What a run of the layer carries along.
ghost use Rattle.std.specs.Prelude.{◌≡◌, None};

use crate::ranges::range_flags_t;
use aat_buffer::{hb_buffer_t, hb_mask_t};
use aat_font::hb_font_t;
use std::alloc::{Allocator, Global};

/// What a run over a buffer carries along: the font, the buffer, how the subtable at hand is switched,
/// and the turns so far.
#[derive(Drop)]
pub struct hb_aat_apply_context_t<'a, A: Allocator + Copy = Global> {
    pub face: &'a hb_font_t,
    pub buffer: &'a mut hb_buffer_t<A>,
    /// The ranges of the chain at hand, none at first and after `apply` has run the table.
    pub range_flags: Option<&'a [range_flags_t]>,
    /// The feature flags of the subtable at hand, 0 at first and after `apply` has run the table.
    pub subtable_flags: hb_mask_t,
    /// The turns so far.
    pub turns: u64,
}

impl<'a, A: Allocator + Copy> hb_aat_apply_context_t<'a, A> {
    /// A run over a buffer that has not begun. Takes no memory.
    pub fn new(face: &'a hb_font_t, buffer: &'a mut hb_buffer_t<A>) -> Self
        ensures face { result.face.now ≡ face.now }
        ensures buffer { result.buffer.now ≡ buffer.old }
        ensures same { result.buffer.ghost_name ≡ buffer.entry.ghost_name }
        ensures no_ranges { result.range_flags ≡ None }
        ensures no_flags { result.subtable_flags ≡ 0 }
        ensures no_turns { result.turns ≡ 0 }
    {
        hb_aat_apply_context_t {
            face,
            buffer,
            range_flags: None,
            subtable_flags: 0,
            turns: 0,
        }
    }
}
