//! The line of a text, as the calls of the layer take it.
ghost use Rattle.std.specs.Prelude.{◌≤◌, IfOk};
ghost use Rattle.aat_layout.specs.Clusters.{IsSmall};

use aat_layout::buffer::{Direction, hb_buffer_t, hb_glyph_info_t, hb_mask_t};
use aat_layout::font::{GlyphId, hb_font_t};
use aat_shaper::TextGlyph;
use anyhow::{Result, bail};
use std::alloc::Global;

/// The most glyphs of the line of a text, as `Shaper::shape` has them.
fn most_glyphs(length: usize) -> usize
    ensures { result ≤ 0x3FFFFFFF }
{
    length.saturating_mul(64).max(16384).min(0x3FFF_FFFF)
}

/// The budget of a text, as `Shaper::shape` has it.
fn most_operations(length: usize) -> i32 {
    length.saturating_mul(1024).max(16384).min(0x7FFF_FFFF) as i32
}

/// The line of a text, each of whose glyphs has this mask.
pub(crate) fn buffer_of(
    alloc: Global,
    font: &hb_font_t,
    direction: Direction,
    text: &[TextGlyph],
    mask: hb_mask_t,
) -> Result<hb_buffer_t>
    ensures { IfOk result IsSmall }
{
    let length = text.len();
    let mut buffer = hb_buffer_t::new(alloc, most_glyphs(length), most_operations(length));
    buffer.set_direction(direction);
    for glyph in text {
        let mut info = hb_glyph_info_t::new(u32::from(glyph.glyph_id), glyph.cluster);
        info.glyph_props = font.glyph_props(GlyphId(glyph.glyph_id));
        info.mask = mask;
        buffer.add(info)?;
    }
    if !buffer.all_glyphs_16() {
        bail!("a glyph has more than 16 bits");
    }
    Ok(buffer)
}
