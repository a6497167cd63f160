//! What is put into room of C's, as much of it as there is room for.
ghost use Rattle.std.specs.Prelude.{◌≡◌, length, map};
ghost use Rattle.aat_records.specs.Places.{placed};
ghost use Rattle.aat_records.specs.Records.{filled, glyph_record};

use crate::places::Places;
use crate::records::GlyphRecord;
use aat_shaped_text::ShapedGlyph;

/// Puts bytes into room, as many as it has places.
pub fn put_bytes(bytes: &[u8], out: &mut [u8])
    ensures { out.new ≡ filled bytes.now out.old }
{
    for i in 0..bytes.len().min(out.len()) {
        out[i] = bytes[i];
    }
}

/// Puts glyphs into room, as many as it has places.
pub fn put(glyphs: &[ShapedGlyph], places: &Places, out: &mut [GlyphRecord])
    ensures { out.new ≡ filled (map (glyph_record (placed places.now)) glyphs.now) out.old }
{
    for i in 0..glyphs.len().min(out.len()) {
        out[i] = GlyphRecord::of(&glyphs[i], places);
    }
}
