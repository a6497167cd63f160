//! A first program over the typesetter.

use aat_typesetter::{Face, ShapedGlyph, TextOptions, Typesetter};
use anyhow::Result;
use std::alloc::Global;
use std::fs;
use std::io::Write;

/// Writes a line for each glyph, with a bar where the text may be broken.
fn write_each<W: Write>(out: &mut W, glyphs: &[ShapedGlyph]) -> Result<()> {
    for glyph in glyphs {
        let bar = if glyph.may_break_before { '|' } else { ' ' };
        let (id, advance, offset) = (glyph.glyph_id, glyph.x_advance, glyph.x_offset);
        writeln!(out, "{bar} glyph {id} advance {advance} offset {offset}")?;
    }
    Ok(())
}

/// Typesets a text in a font, and writes its glyphs.
fn write_typeset<W: Write>(alloc: Global, out: &mut W, face: &Face<'_>, text: &str) -> Result<()> {
    let mut typesetter = Typesetter::new(alloc, face);
    typesetter.line(text, &TextOptions::new())?;
    write_each(out, typesetter.glyphs())
}

/// Typesets a text in the font of a file, and writes a line for each glyph in drawing order, with a bar where the text may
/// be broken.
///
/// An error is that of the file, of its font, of the text or of the writer.
pub fn write_glyphs_of<W: Write>(
    rt: &HostRuntime,
    out: &mut W,
    path: &str,
    text: &str,
) -> Result<()> {
    let bytes = fs::read(rt, path)?;
    let face = Face::read(rt.alloc(), &bytes, 0)?;
    write_typeset(rt.alloc(), out, &face, text)
}
