//! The tables of a face as text, a line for each fact.

mod chains;
mod entries;
mod features;
mod font;
mod kerning;
mod kinds;
mod lookups;
mod machines;
mod names;
mod pairs;
mod tracking;

use aat_bytes::Tag;
use aat_bytes::tags::{ANKR, FEAT, HMTX, KERN, KERX, MORX, TRAK};
use aat_face::Face;
use aat_read_metrics::GlyphNames;
pub use features::write_features;
pub use font::{write_characters, write_faults, write_summary};
use std::alloc::Global;
use std::io::{self, Write};

/// What glyphs are called: nothing where they are written by their numbers.
pub(crate) type Names<'n, 'f> = Option<&'n GlyphNames<'f>>;

/// Writes a face as text, a line for each fact: how many glyphs it has, the units of its em, the faults of its tables,
/// the subtables of `kerx` and of `kern` that are left out, whether it has `GPOS` and no `kerx`, the advance and the properties of
/// each glyph, the features with their names, the chains of `morx` and the subtables of `kerx` and `kern` with all that
/// they have, anchor points, and the tracks of `trak` with their names and their value at each size. Of glyphs, kerning
/// pairs, values, rules of a machine, tracks and sizes the first 1,000 are written, and how many more there are.
///
/// A glyph is written by its number, or where names are given by its name, and as `gidN` where it has none.
///
/// An error is that of the writer, or `OutOfMemory`. A part of the text may be written then.
pub fn write_face<W: Write>(
    alloc: Global,
    out: &mut W,
    names: Option<&GlyphNames<'_>>,
    face: &Face<'_>,
) -> io::Result<()> {
    font::write_summary(out, face)?;
    font::write_glyphs(out, names, face)?;
    features::write_features(alloc, out, face)?;
    chains::write_chains(alloc, out, names, face.font())?;
    kerning::write_kerning(alloc, out, names, face.font())?;
    tracking::write_tracking(alloc, out, face)
}

/// Writes what a face has of a table, as [`write_face`] does, and answers whether the table is one that it writes: `hmtx`,
/// with the properties of the glyphs, `feat`, `morx`, `kerx`, `kern`, `ankr` or `trak`. Of one that the face does not have
/// it writes nothing.
///
/// An error is that of the writer, or `OutOfMemory`. A part of the text may be written then.
pub fn write_table<W: Write>(
    alloc: Global,
    out: &mut W,
    names: Option<&GlyphNames<'_>>,
    face: &Face<'_>,
    table: Tag,
) -> io::Result<bool> {
    match table {
        HMTX => font::write_glyphs(out, names, face)?,
        FEAT => features::write_features(alloc, out, face)?,
        MORX => chains::write_chains(alloc, out, names, face.font())?,
        KERX => kerning::write_extended_subtables(alloc, out, names, face.font())?,
        KERN => kerning::write_plain_subtables(alloc, out, names, face.font())?,
        ANKR => kerning::write_anchor_points(out, names, face.font())?,
        TRAK => tracking::write_tracking(alloc, out, face)?,
        _ => return Ok(false),
    }
    Ok(true)
}
