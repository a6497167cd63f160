//! Checksums of what comes out: the hash function FNV-1a, over numbers of 32 bits.
ghost use Rattle.std.specs.Prelude.{◌<◌, length};

use aat_layout::buffer::{GlyphPosition, glyph_flag, hb_buffer_t};
use aat_shaper::ShapedGlyph;

/// The checksum of nothing.
pub(crate) const EMPTY: u64 = 0xCBF2_9CE4_8422_2325;

/// The factor of a step.
const FACTOR: u64 = 0x100_0000_01B3;

/// A checksum with another number behind it.
fn with_number(sum: u64, number: u32) -> u64 {
    (sum ^ number as u64).wrapping_mul(FACTOR)
}

/// A checksum with a line behind it: the id, the cluster and the flags of each glyph, and where positions stand its
/// position.
pub(crate) fn with_line(sum: u64, buffer: &hb_buffer_t) -> u64 {
    let mut sum = sum;
    for i in 0..buffer.len() {
        sum = with_glyph(sum, buffer, i);
    }
    sum
}

/// A checksum with a glyph of a line behind it.
fn with_glyph(sum: u64, buffer: &hb_buffer_t, i: usize) -> u64
    requires { i < length buffer.now.line }
{
    let glyph = buffer.info(i);
    let sum = with_number(sum, glyph.glyph_id);
    let sum = with_number(sum, glyph.cluster);
    let sum = with_number(sum, glyph.mask & glyph_flag::DEFINED);
    if !buffer.has_positions() {
        return sum;
    }
    with_position(sum, buffer.pos(i))
}

/// A checksum with a position behind it.
fn with_position(sum: u64, position: &GlyphPosition) -> u64 {
    let sum = with_number(sum, position.x_advance.cast_unsigned());
    let sum = with_number(sum, position.y_advance.cast_unsigned());
    let sum = with_number(sum, position.x_offset.cast_unsigned());
    let sum = with_number(sum, position.y_offset.cast_unsigned());
    let sum = with_number(sum, position.attach_type as u32);
    with_number(sum, position.attach_chain.cast_unsigned() as u32)
}

/// A checksum with what is drawn behind it: the id, the cluster, the advances and the offsets of each glyph, and whether
/// the text may be broken before it.
pub(crate) fn with_drawn(sum: u64, glyphs: &[ShapedGlyph]) -> u64 {
    let mut sum = sum;
    for glyph in glyphs {
        sum = with_number(sum, u32::from(glyph.glyph_id));
        sum = with_number(sum, glyph.cluster);
        sum = with_number(sum, glyph.x_advance.cast_unsigned());
        sum = with_number(sum, glyph.y_advance.cast_unsigned());
        sum = with_number(sum, glyph.x_offset.cast_unsigned());
        sum = with_number(sum, glyph.y_offset.cast_unsigned());
        sum = with_number(sum, u32::from(glyph.may_break_before));
    }
    sum
}
