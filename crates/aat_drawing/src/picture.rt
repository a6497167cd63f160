//! Pictures of lines, in SVG.

use crate::extent::Extent;
use crate::legend::{colour_of, is_shown, write_entry};
use crate::line::{DrawnGlyph, DrawnLine};
use crate::marks::{half_units, write_bar, write_box};
use crate::metrics::LineMetrics;
use aat_pictures::{Colour, DrawError, FontOutlines, Paint, write_outlines};
use std::alloc::{AllocError, Global};
use std::io::{self, Write};

/// What a picture shows.
#[derive(Clone, Copy)]
pub struct Picture<'a> {
    /// How much room a line takes.
    pub metrics: LineMetrics,
    /// The outlines of the font. Of a glyph without one the box of its advance is drawn.
    pub outlines: Option<&'a FontOutlines<'a>>,
    /// The lines, from the top, or from the right where the text stands in columns.
    pub lines: &'a [DrawnLine],
    /// What each subtable of `morx` is called in the legend, through all chains. A text without `<` and `&`.
    pub subtables: &'a [String],
    /// How it looks.
    pub paint: Paint,
}

/// What a pixel counts in the size of an em.
const PIXEL: i64 = 1 << 16;

/// How boxes and bars are drawn.
const STYLE: &str = "<style>rect{fill:none}.bar{fill:none;stroke:#dc2626}</style>";

/// Writes where a glyph is drawn, in half units, by the name of its outline.
fn write_use<W: Write>(
    out: &mut W,
    place: (i64, i64),
    glyph_id: u16,
    colour: Colour,
) -> io::Result<()> {
    let (x, y) = (half_units(place.0), half_units(place.1));
    writeln!(
        out,
        "<use href=\"#g{glyph_id}\" x=\"{x}\" y=\"{y}\" fill=\"{colour}\"/>"
    )
}

/// Writes a glyph, where the pen stands there: by its outline where that is written, else as a box.
fn write_glyph<W: Write>(
    out: &mut W,
    picture: &Picture<'_>,
    written: &[u16],
    line: &DrawnLine,
    pen: (i64, i64),
    drawn: &DrawnGlyph,
) -> io::Result<()> {
    let glyph = drawn.glyph;
    let colour = colour_of(&picture.paint, drawn.changed_by);
    let place = (
        pen.0.saturating_add(i64::from(glyph.x_offset)),
        pen.1.saturating_add(i64::from(glyph.y_offset)),
    );
    match written.binary_search(&glyph.glyph_id) {
        Ok(_) => write_use(out, place, glyph.glyph_id, colour),
        Err(_) => write_box(out, &picture.metrics, line, place, drawn, colour),
    }
}

/// Writes the glyphs of a line and its bars, from its origin on.
fn write_line<W: Write>(
    out: &mut W,
    picture: &Picture<'_>,
    written: &[u16],
    line: &DrawnLine,
) -> io::Result<()> {
    let mut pen = (0i64, 0i64);
    for drawn in &line.glyphs {
        write_bar(out, &picture.metrics, line, pen, drawn)?;
        write_glyph(out, picture, written, line, pen, drawn)?;
        pen.0 = pen.0.saturating_add(i64::from(drawn.glyph.x_advance));
        pen.1 = pen.1.saturating_add(i64::from(drawn.glyph.y_advance));
    }
    Ok(())
}

/// Writes all lines, whose glyphs have these outlines written.
fn write_lines<W: Write>(
    out: &mut W,
    picture: &Picture<'_>,
    written: &[u16],
    extent: &Extent,
) -> io::Result<()> {
    let stroke = picture.metrics.units_per_em / 40;
    for (number, line) in picture.lines.iter().enumerate() {
        let (x, y) = extent.origin(number, line);
        writeln!(
            out,
            "<g transform=\"translate({x} {y}) scale(.5 -.5)\" stroke-width=\"{stroke}\">"
        )?;
        write_line(out, picture, written, line)?;
        writeln!(out, "</g>")?;
    }
    Ok(())
}

/// How many entries the legend has.
fn legend_length(picture: &Picture<'_>) -> usize {
    (0..picture.subtables.len())
        .filter(|number| is_shown(picture.lines, *number))
        .count()
}

/// The size of the legend's letters.
fn letter_size(picture: &Picture<'_>) -> i64 {
    i64::from(picture.metrics.units_per_em / 4)
}

/// The height of a line of the legend.
fn entry_height(picture: &Picture<'_>) -> i64 {
    letter_size(picture).saturating_mul(3) / 2
}

/// Writes what the colours stand for, from a height on.
fn write_legend<W: Write>(out: &mut W, picture: &Picture<'_>, top: i64) -> io::Result<()> {
    let mut top = top;
    for (number, name) in picture.subtables.iter().enumerate() {
        if is_shown(picture.lines, number) {
            top = top.saturating_add(entry_height(picture));
            let colour = colour_of(&picture.paint, Some(number));
            write_entry(out, top, letter_size(picture), colour, name.as_str())?;
        }
    }
    Ok(())
}

/// The width and the height of a picture, with its legend.
fn size_of(picture: &Picture<'_>, extent: &Extent) -> (i64, i64) {
    let entries = legend_length(picture).min(1 << 20) as i64;
    if entries == 0 {
        return (extent.width, extent.height);
    }
    let legend = entry_height(picture).saturating_mul(entries.saturating_add(1));
    let least = i64::from(picture.metrics.units_per_em) * 6;
    (
        extent.width.max(least),
        extent.height.saturating_add(legend),
    )
}

/// A length of so many units of the font, in pixels.
fn pixels(picture: &Picture<'_>, length: i64) -> i64 {
    let units = i64::from(picture.metrics.units_per_em).max(1);
    length.saturating_mul(i64::from(picture.paint.em)) / (units * PIXEL)
}

/// What is left free on each side of a picture, in units of the font: half an em where nothing is asked.
fn margin_of(picture: &Picture<'_>) -> i64 {
    let units = i64::from(picture.metrics.units_per_em);
    let em = i64::from(picture.paint.em).max(1);
    match picture.paint.margin {
        Some(margin) => i64::from(margin).saturating_mul(units * PIXEL) / em,
        None => units / 2,
    }
}

/// Writes the head of a picture of a width and a height, and its ground.
fn write_head<W: Write>(
    out: &mut W,
    picture: &Picture<'_>,
    width: i64,
    height: i64,
) -> io::Result<()> {
    let (wide, high) = (pixels(picture, width), pixels(picture, height));
    let ground = picture.paint.background;
    writeln!(
        out,
        "<svg xmlns=\"http://www.w3.org/2000/svg\" viewBox=\"0 0 {width} {height}\" width=\"{wide}\" height=\"{high}\">"
    )?;
    writeln!(out, "{STYLE}")?;
    writeln!(
        out,
        "<path d=\"M0 0H{width}V{height}H0Z\" fill=\"{ground}\"/>"
    )
}

/// Writes all lines, whose glyphs have these outlines written, the legend and the end of a picture.
fn write_shown<W: Write>(
    out: &mut W,
    picture: &Picture<'_>,
    written: &[u16],
    extent: &Extent,
) -> io::Result<()> {
    write_lines(out, picture, written, extent)?;
    write_legend(out, picture, extent.height)?;
    writeln!(out, "</svg>")
}

/// Adds the numbers of the glyphs of a line.
fn add_glyphs(glyphs: &mut Vec<u16>, line: &DrawnLine) -> Result<(), AllocError> {
    for drawn in &line.glyphs {
        glyphs.push(drawn.glyph.glyph_id)?;
    }
    Ok(())
}

/// The numbers of the glyphs of all lines.
fn glyphs_of(alloc: Global, lines: &[DrawnLine]) -> Result<Vec<u16>, AllocError> {
    let mut glyphs = Vec::new(alloc);
    for line in lines {
        add_glyphs(&mut glyphs, line)?;
    }
    Ok(glyphs)
}

/// Writes a picture of lines as a file of SVG: each glyph by its outline, or without one as the box of its advance, in
/// the colour of the subtable that changed it last; a bar where the text may be broken; and below what each colour
/// stands for. A glyph whose charstring has a fault has no outline.
///
/// Refused as 1, `Outline`, where the outline of a glyph of `glyf` has a fault, in the order of the numbers of the
/// glyphs; as 2, `Writer`, where the writer fails; and as 3, `OutOfMemory`, where memory is wanting. A part of the
/// picture may be written then.
pub fn write_svg<W: Write>(
    alloc: Global,
    out: &mut W,
    picture: &Picture<'_>,
) -> Result<(), DrawError> {
    let extent = Extent::new(&picture.metrics, margin_of(picture), picture.lines);
    let (width, height) = size_of(picture, &extent);
    write_head(out, picture, width, height)?;
    let written = match picture.outlines {
        Some(outlines) => write_outlines(alloc, out, outlines, glyphs_of(alloc, picture.lines)?)?,
        None => Vec::new(alloc),
    };
    Ok(write_shown(out, picture, written.as_slice(), &extent)?)
}
