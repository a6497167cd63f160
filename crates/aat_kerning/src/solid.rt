//! The glyphs that kerning skips.
ghost use Rattle.std.specs.Prelude.{◌≡◌};
ghost use Rattle.aat_kerning.specs.Pairs.{is_solid};

use aat_buffer::{UnicodeProps, hb_glyph_info_t};
use bitflags::Flags;

/// The glyph properties that `hb_aat_layout_position` skips: base, ligature and mark.
pub const KERX_SKIPS: u16 = 0x000E;

/// The glyph property that `hb_ot_layout_kern` skips: mark.
pub const KERN_SKIPS: u16 = 0x0008;

/// The property of a glyph that substitution has put in.
const SUBSTITUTED: u16 = 0x10;

/// Whether kerning by pairs does not skip a glyph, where it skips the glyph properties `skips`: `KERX_SKIPS`, or
/// `KERN_SKIPS`. A glyph without them is skipped too where its character is ignorable, unless substitution has put it
/// in.
///
/// Apple's TrueType Reference Manual, "The 'kerx' table" and "The 'kern' table".
pub fn is_solid(glyph: &hb_glyph_info_t, skips: u16) -> bool
    ensures { result ≡ is_solid skips glyph.now }
{
    glyph.glyph_props & skips == 0
        && (glyph.unicode_props & UnicodeProps::IGNORABLE.bits() == 0
            || glyph.glyph_props & SUBSTITUTED != 0)
}
