//! What subtables of pairs and machines have in common: which glyphs are kerned, and the note of an attachment.
ghost use Rattle.std.specs.Prelude.{◌≡◌};
ghost use Rattle.aat_kerning_machines.specs.Positions.{with_attachment_flag};
ghost use Rattle.aat_run.specs.Switches.{meets};

use aat_buffer::{ScratchFlags, hb_buffer_t, hb_mask_t};
use bitflags::Flags;
use std::alloc::Allocator;

/// Whether the mask of a glyph has a bit of the kern mask, so that the glyph is kerned.
pub fn meets(mask: hb_mask_t, kern_mask: hb_mask_t) -> bool
    ensures { result ≡ meets mask kern_mask }
{
    mask & kern_mask != 0
}

/// Notes in the buffer that glyphs are attached, with the scratch flag `HAS_GPOS_ATTACHMENT`. It tells that a glyph may
/// have an attach chain, and not which way: a machine counts an anchor's chain in the order in which it takes the glyphs.
pub fn note_attachment<A: Allocator + Copy>(buffer: &mut hb_buffer_t<A>)
    ensures { buffer.new ≡ with_attachment_flag buffer.old }
{
    let mut flags = buffer.scratch_flags();
    flags.insert(ScratchFlags::HAS_GPOS_ATTACHMENT);
    buffer.set_scratch_flags(flags);
}
