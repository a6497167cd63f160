//! What several kinds of subtables do with a glyph that becomes another one.
ghost use Rattle.std.specs.Prelude.{◌≡◌};
ghost use Rattle.aat_font.specs.Face.{glyph_classes_of};
ghost use Rattle.aat_kinds.specs.Values.{props_after};

use aat_font::hb_font_t;
use aat_lookup::GlyphId;

/// The properties of a glyph that becomes another one: by the font's classes of glyphs where it has
/// them, and else as they were.
pub(crate) fn props_after(face: &hb_font_t, value: u16, props: u16) -> u16
    ensures { result ≡ props_after (glyph_classes_of face.now) value props }
{
    if face.has_glyph_classes() {
        face.glyph_props(GlyphId(value))
    } else {
        props
    }
}
