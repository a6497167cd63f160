//! The marks of a trace's picture: glyphs with what they are told by, and the links between two rows.

use crate::glyph_text::write_glyph;
use crate::links::Link;
use crate::paint::{Colour, Paint, colour_by};
use crate::trace_rows::{Cell, EM, Glyphs, pixels};
use std::alloc::Global;
use std::io::{self, Write};

/// The height of what glyphs are told by.
pub(crate) const TEXT: i64 = 18;

/// The height of the links between two rows.
pub(crate) const LINKS: i64 = 46;

/// The colour of deleted glyphs, and of links that show no change.
const GREY: u32 = 0xAAAAAA;

/// How the rows of a picture look.
#[derive(Clone, Copy)]
pub(crate) struct Look<'a> {
    /// The glyphs of the font.
    pub(crate) glyphs: Glyphs<'a>,
    /// The height of a row above its baseline, in pixels.
    pub(crate) ascent: i64,
    /// The height of a row below its baseline, in pixels.
    pub(crate) descent: i64,
    /// The height of a row with what its glyphs are told by, in pixels.
    pub(crate) row_height: i64,
    /// The glyphs whose outlines are written, which rise.
    pub(crate) written: &'a [u16],
    /// How it looks.
    pub(crate) paint: Paint,
}

impl Look<'_> {
    /// The colour of a glyph.
    fn colour(&self, cell: &Cell) -> Colour {
        match (cell.glyph, cell.changed_by) {
            (None, _) => Colour::opaque(GREY),
            (Some(_), None) => self.paint.foreground,
            (Some(_), Some(number)) => colour_by(number),
        }
    }
}

/// Writes the outlines of the glyphs of a row that have one, on a baseline.
fn write_shapes<W: Write>(
    out: &mut W,
    look: &Look<'_>,
    cells: &[Cell],
    baseline: i64,
) -> io::Result<()> {
    let em = i64::from(look.glyphs.units_per_em).max(1);
    let parts = EM * 500_000 / em;
    let (whole, part) = (parts / 1_000_000, parts % 1_000_000);
    writeln!(
        out,
        "<g transform=\"translate(0 {baseline}) scale({whole}.{part:06} -{whole}.{part:06})\">"
    )?;
    for cell in cells {
        if let Some(glyph) = cell.glyph
            && look.written.binary_search(&glyph).is_ok()
        {
            let middle = cell.middle.saturating_mul(2).saturating_mul(em) / EM;
            let x = middle.saturating_sub(i64::from(cell.advance));
            let colour = look.colour(cell);
            writeln!(out, "<use href=\"#g{glyph}\" x=\"{x}\" fill=\"{colour}\"/>")?;
        }
    }
    writeln!(out, "</g>")
}

/// Writes the mark of a glyph without an outline, on a baseline: its box, or a cross where it is deleted.
fn write_mark<W: Write>(
    out: &mut W,
    look: &Look<'_>,
    cell: &Cell,
    baseline: i64,
) -> io::Result<()> {
    let (middle, colour) = (cell.middle, look.colour(cell));
    let Some(glyph) = cell.glyph else {
        let (x, y) = (middle.saturating_sub(4), baseline.saturating_sub(14));
        return writeln!(
            out,
            "<path d=\"M{x} {y}l8 8m0 -8l-8 8\" stroke=\"{colour}\"/>"
        );
    };
    if look.written.binary_search(&glyph).is_ok() {
        return Ok(());
    }
    let width = pixels(i64::from(cell.advance), look.glyphs.units_per_em).max(8);
    let x = middle.saturating_sub(width / 2);
    let y = baseline.saturating_sub(look.ascent.saturating_sub(4));
    let height = look.ascent.saturating_sub(4);
    writeln!(
        out,
        "<rect x=\"{x}\" y=\"{y}\" width=\"{width}\" height=\"{height}\" stroke=\"{colour}\"/>"
    )
}

/// Writes the glyphs of a row with what they are told by, from a height on.
///
/// An error is that of the writer, or `OutOfMemory`.
pub(crate) fn write_row<W: Write>(
    alloc: Global,
    out: &mut W,
    look: &Look<'_>,
    cells: &[Cell],
    top: i64,
) -> io::Result<()> {
    let baseline = top.saturating_add(look.ascent);
    write_shapes(out, look, cells, baseline)?;
    let below = baseline.saturating_add(look.descent).saturating_add(12);
    let mut text = String::new(alloc);
    for cell in cells {
        write_mark(out, look, cell, baseline)?;
        if let Some(glyph) = cell.glyph {
            let (middle, colour) = (cell.middle, look.colour(cell));
            text.clear();
            write_glyph(&mut text, look.glyphs.names, glyph)?;
            writeln!(
                out,
                "<text x=\"{middle}\" y=\"{below}\" text-anchor=\"middle\" fill=\"{colour}\">{text}</text>"
            )?;
        }
    }
    Ok(())
}

/// Writes the links between two rows, from a height on: in the colour of the subtable those that show a change.
pub(crate) fn write_links<W: Write>(
    out: &mut W,
    links: &[Link],
    cells: (&[Cell], &[Cell]),
    top: i64,
    colour: Colour,
) -> io::Result<()> {
    let (start, end) = (top.saturating_add(2), top.saturating_add(LINKS - 4));
    let middle = top.saturating_add(LINKS / 2);
    let grey = Colour::opaque(GREY);
    for link in links {
        let (Some(from), Some(to)) = (cells.0.get(link.from), cells.1.get(link.to)) else {
            continue;
        };
        let (from, to) = (from.middle, to.middle);
        let colour = if link.is_changed { colour } else { grey };
        writeln!(
            out,
            "<path d=\"M{from} {start}C{from} {middle} {to} {middle} {to} {end}\" stroke=\"{colour}\"/>"
        )?;
    }
    Ok(())
}

/// Writes a mark at each glyph of a row to which no link leads: a path from a height on.
pub(crate) fn write_ends<W: Write>(
    out: &mut W,
    cells: &[Cell],
    is_linked: &[bool],
    path: &str,
    top: i64,
    colour: Colour,
) -> io::Result<()> {
    for (cell, is_linked) in cells.iter().zip(is_linked) {
        if !*is_linked && cell.glyph.is_some() {
            let middle = cell.middle;
            writeln!(
                out,
                "<path d=\"M{middle} {top}{path}\" stroke=\"{colour}\"/>"
            )?;
        }
    }
    Ok(())
}
