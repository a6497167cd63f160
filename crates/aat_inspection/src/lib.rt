//! What a person reads of a font: its tables, features, chains and kerning, a line for each fact; all that its tables
//! have ([`write_face`]); and which flags each chain has over which clusters for a font and requests, and which of its
//! subtables are on there ([`inspect`], [`Table`]).
//!
//! ```
//! write_inspection(alloc, &mut out, &file, 0, &face)?;
//! ```
#![tactic(auto)]

mod chains;
mod directory;
mod features;
mod kerning;
mod ranges;
mod ranges_table;
mod tables_text;

use aat_bytes::tags::{ANKR, TRAK};
use aat_bytes::{Tag, tag_at};
use aat_face::Face;
use aat_read_metrics::GlyphNames;
pub use chains::{kind_name, write_settled};
pub use ranges::{InspectedRange, inspect};
pub use ranges_table::Table;
use std::alloc::Global;
use std::io::{self, Write};
pub use tables_text::{
    write_characters, write_face, write_faults, write_features, write_summary, write_table,
};

/// Writes whether a table is there and is read, has a fault, or is missing.
fn write_presence<W: Write>(
    out: &mut W,
    face: &Face<'_>,
    table: Tag,
    is_read: bool,
) -> io::Result<()> {
    let state = if is_read {
        "is there"
    } else if face.faults().iter().any(|fault| fault.table == table) {
        "has a fault and is not read"
    } else {
        "is missing"
    };
    writeln!(out, "table {table} {state}")
}

/// Writes what a person reads of a font, a line for each fact. `face` is the font at the index of the file.
///
/// In this order: each table of the directory with its offset and its length in bytes, and by how many bytes one reaches
/// past the end of the file; the number of glyphs, the units of the em, the faults of tables and the subtables that are
/// left out; the features with their settings, by type and name, whether the settings exclude one another, and which are
/// on by default; the chains of `morx` with their default flags, and each of their subtables: what it does, for which
/// directions of text, in which order it takes the glyphs, which flags turn it on, and whether it is settled for cuts, or
/// why it is not; the subtables of `kerx` and of `kern`; and whether `ankr` and `trak` are there.
///
/// An error is that of the writer, or `OutOfMemory`. A part of the text may be written then.
pub fn write_inspection<W: Write>(
    alloc: Global,
    out: &mut W,
    file: &[u8],
    index: u32,
    face: &Face<'_>,
) -> io::Result<()> {
    let font = face.font();
    directory::write_directory(out, file, index)?;
    write_summary(out, face)?;
    write_features(alloc, out, face)?;
    features::write_defaults(alloc, out, font.chains())?;
    chains::write_chains(alloc, out, font.chains())?;
    kerning::write_kerning(out, font)?;
    write_presence(out, face, ANKR, font.tables().ankr.is_some())?;
    write_presence(out, face, TRAK, face.tracking().is_some())
}

/// Writes what a face has of the table that a text names by its tag, as [`write_table`] does, with the names of glyphs
/// where they are given, and answers whether it is a table that this writes. Where the text is no tag, which is of
/// exactly four characters, and where the table is none of those, it writes nothing and answers `false`.
///
/// An error is that of the writer, or `OutOfMemory`. A part of the text may be written then.
pub fn write_dump<W: Write>(
    alloc: Global,
    out: &mut W,
    names: Option<&GlyphNames<'_>>,
    face: &Face<'_>,
    table: &str,
) -> io::Result<bool> {
    if table.len() != 4 {
        return Ok(false);
    }
    match tag_at(table.as_bytes(), 0) {
        Some(tag) => write_table(alloc, out, names, face, tag),
        None => Ok(false),
    }
}
