//! Glyphs as they are written.

use crate::names::table::GlyphNames;
use std::fmt;

/// A glyph as it is written: by its number, or where names are given by its name, and as `gidN` where it has none.
#[derive(Clone, Copy)]
pub struct WrittenGlyph<'n, 'f> {
    names: Option<&'n GlyphNames<'f>>,
    glyph: u32,
}

impl<'n, 'f> WrittenGlyph<'n, 'f> {
    /// A glyph with the names that are given.
    pub fn new(names: Option<&'n GlyphNames<'f>>, glyph: u32) -> WrittenGlyph<'n, 'f> {
        WrittenGlyph { names, glyph }
    }
}

impl fmt::Display for WrittenGlyph<'_, '_> {
    fn fmt<W: fmt::Write>(&self, f: &mut fmt::Formatter<W>) -> fmt::Result {
        let glyph = self.glyph;
        let Some(names) = self.names else {
            return write!(f, "{glyph}");
        };
        let id = u16::try_from(glyph).ok();
        match id.and_then(|id| names.name_of(id)) {
            Some(name) => f.write_str(name),
            None => write!(f, "gid{glyph}"),
        }
    }
}
