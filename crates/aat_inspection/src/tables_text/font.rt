//! What a font has as a whole.
use crate::tables_text::Names;
use aat_bytes::Fault;
use aat_face::Face;
use aat_lookup::GlyphId;
use aat_read_metrics::{GlyphNames, WrittenGlyph};
use aat_read_pairs::LeftOutSubtable;
use std::io::{self, Write};

/// Writes the faults of tables.
fn write_table_faults<W: Write>(out: &mut W, faults: &[Fault]) -> io::Result<()> {
    for fault in faults {
        writeln!(out, "fault {fault}")?;
    }
    Ok(())
}

/// Writes the subtables that are left out, each with its number and the fault, which names the table.
fn write_left_out<W: Write>(out: &mut W, left_out: &[LeftOutSubtable]) -> io::Result<()> {
    for subtable in left_out {
        let (number, fault) = (subtable.number, subtable.fault);
        writeln!(out, "left out subtable {number}: {fault}")?;
    }
    Ok(())
}

/// Writes the faults of tables and the subtables of `kerx` and of `kern` that are left out, a line each, and answers
/// whether there are any.
///
/// An error is that of the writer. A part of the text may be written then.
pub fn write_faults<W: Write>(out: &mut W, face: &Face<'_>) -> io::Result<bool> {
    write_table_faults(out, face.faults())?;
    write_left_out(out, face.left_out())?;
    write_left_out(out, face.left_out_of_kern())?;
    let is_whole = face.left_out().is_empty() && face.left_out_of_kern().is_empty();
    Ok(!(is_whole && face.faults().is_empty()))
}

/// Writes the number of glyphs, the units of the em, the faults of tables, the subtables of `kerx` and of `kern` that
/// are left out, and whether the file has `GPOS` and no `kerx`.
///
/// An error is that of the writer. A part of the text may be written then.
pub fn write_summary<W: Write>(out: &mut W, face: &Face<'_>) -> io::Result<()> {
    writeln!(out, "glyphs {}", face.glyph_count())?;
    writeln!(out, "units per em {}", face.units_per_em())?;
    write_faults(out, face)?;
    if face.has_gpos() && face.font().tables().kerx.is_none() {
        writeln!(out, "table GPOS, by which another layer may kern")?;
    }
    Ok(())
}

/// The most glyphs of a font that are written.
const MOST_GLYPHS: u16 = 1000;

/// Writes the advance and the properties of each glyph, up to 1,000 of them.
pub(crate) fn write_glyphs<W: Write>(
    out: &mut W,
    names: Names<'_, '_>,
    face: &Face<'_>,
) -> io::Result<()> {
    let font = face.font();
    let count = face.glyph_count();
    for glyph in 0..count.min(MOST_GLYPHS) {
        let advance = font.glyph_advance(GlyphId(glyph));
        let properties = font.glyph_props(GlyphId(glyph));
        let written = WrittenGlyph::new(names, u32::from(glyph));
        writeln!(
            out,
            "glyph {written} advance {advance} properties {properties:#06x}"
        )?;
    }
    if count > MOST_GLYPHS {
        writeln!(out, "and {} glyphs more", count - MOST_GLYPHS)?;
    }
    Ok(())
}

/// Writes the glyph of each character of a text: by its number, or where names are given by its name, and as `gidN` where
/// it has none.
///
/// An error is that of the writer. A part of the text may be written then.
pub fn write_characters<W: Write>(
    out: &mut W,
    names: Option<&GlyphNames<'_>>,
    face: &Face<'_>,
    text: &str,
) -> io::Result<()> {
    for character in text.chars() {
        let code = character as u32;
        match face.glyph_of(character) {
            Some(glyph) => {
                let written = WrittenGlyph::new(names, u32::from(glyph.0));
                writeln!(out, "character U+{code:04X} glyph {written}")?
            }
            None => writeln!(out, "character U+{code:04X} has no glyph")?,
        }
    }
    Ok(())
}
