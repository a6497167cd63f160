//! The command `aat dump`.

use aat_bytes::{Tag, tag_at};
use aat_inspection::{write_characters, write_dump, write_face};
use aat_read_metrics::GlyphNames;
use aat_words::{Font, FontSource, OUTPUT, Session};
use anyhow::{Context, Result, bail};
use clap::ArgMatches;
use std::alloc::Global;
use std::io::Write;

/// Refuses a table that is missing or has a fault.
fn find_table(font: &Font<'_>, table: Tag) -> Result<()> {
    let path = font.source.path;
    if let Err(fault) = font.file()?.table(table) {
        bail!("{path}: {fault}");
    }
    for fault in font.face.faults() {
        if fault.table == table {
            bail!("{path}: {fault}");
        }
    }
    Ok(())
}

/// Writes out what is read of a table, or of all of them.
fn dump_tables<W: Write>(
    alloc: Global,
    out: &mut W,
    names: Option<&GlyphNames<'_>>,
    font: &Font<'_>,
    table: Option<&str>,
) -> Result<()> {
    let Some(table) = table else {
        return write_face(alloc, out, names, font.face).context(OUTPUT);
    };
    let tag = tag_at(table.as_bytes(), 0).context("a tag has four characters")?;
    find_table(font, tag)?;
    write_dump(alloc, out, names, font.face, table).context(OUTPUT)?;
    Ok(())
}

/// Writes out what is read of a font, and the glyphs of characters where these are asked.
pub fn dump<W: Write>(
    rt: &HostRuntime,
    out: &mut W,
    session: &mut Session<'_>,
    matches: &ArgMatches<'_>,
) -> Result<()> {
    let source = FontSource::of_matches(matches)?;
    let font = session.fonts.font(rt, &source)?;
    let names = if matches.get_flag("names") {
        Some(font.names(rt.alloc())?)
    } else {
        None
    };
    dump_tables(rt.alloc(), out, names, font, matches.get_str("table"))?;
    match matches.get_str("characters") {
        Some(text) => write_characters(out, names, font.face, text).context(OUTPUT),
        None => Ok(()),
    }
}
