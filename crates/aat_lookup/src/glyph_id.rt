//! The number of a glyph.

/// The number of a glyph in a font.
#[derive(Clone, Copy, PartialEq, Eq, Debug, Default)]
pub struct GlyphId(pub u16);
