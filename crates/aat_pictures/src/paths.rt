//! Outlines of glyphs as paths.
ghost use Rattle.std.specs.Prelude.{◌≡◌};
ghost use Rattle.aat_pictures.specs.inside.HalfPoints.{nearest_half, nearest_point};

use crate::error::DrawError;
use crate::outlines::FontOutlines;
use aat_bytes::ReadError;
use aat_read_charstrings::{CharStrings, CubicSegment, FixedPoint};
use aat_read_outlines::{HalfPoint, Outlines, Segment, segments};
use std::alloc::Global;
use std::io::{self, Write};

/// A coordinate in 65536ths of a unit of the font as one in half units: the nearest, of two the greater.
fn nearest_half(parts: i32) -> i64
    ensures { result ≡ nearest_half parts }
{
    (parts as i64 + 16384).div_euclid(32768)
}

/// The point in half units that is nearest to a point.
fn nearest_point(point: FixedPoint) -> HalfPoint
    ensures { result ≡ nearest_point point }
{
    HalfPoint {
        x: nearest_half(point.x),
        y: nearest_half(point.y),
    }
}

/// Writes what stands before a point, and x, a space and y of the point, in half units of the font.
fn write_point<W: Write>(out: &mut W, before: &str, point: HalfPoint) -> io::Result<()> {
    write!(out, "{before}{} {}", point.x, point.y)
}

/// Writes a part of a contour.
fn write_segment<W: Write>(out: &mut W, segment: Segment) -> io::Result<()> {
    match segment {
        Segment::MoveTo(point) => write_point(out, "M", point),
        Segment::LineTo(point) => write_point(out, "L", point),
        Segment::QuadraticTo { control, to } => {
            write_point(out, "Q", control)?;
            write_point(out, " ", to)
        }
        Segment::Close => out.write_all(b"Z"),
    }
}

/// Writes a part of a contour of cubic curves.
fn write_cubic_segment<W: Write>(out: &mut W, segment: CubicSegment) -> io::Result<()> {
    match segment {
        CubicSegment::MoveTo(point) => write_point(out, "M", nearest_point(point)),
        CubicSegment::LineTo(point) => write_point(out, "L", nearest_point(point)),
        CubicSegment::CubicTo { first, second, to } => {
            write_point(out, "C", nearest_point(first))?;
            write_point(out, " ", nearest_point(second))?;
            write_point(out, " ", nearest_point(to))
        }
        CubicSegment::Close => out.write_all(b"Z"),
    }
}

/// Writes what stands before the contours of a glyph.
fn write_name<W: Write>(out: &mut W, glyph_id: u16) -> io::Result<()> {
    write!(out, "<path id=\"g{glyph_id}\" d=\"")
}

/// Writes the parts of a contour.
fn write_contour<W: Write>(out: &mut W, parts: &[Segment]) -> io::Result<()> {
    for part in parts {
        write_segment(out, *part)?;
    }
    Ok(())
}

/// Writes the contours of a glyph, in half units of the font.
fn write_contours<W: Write>(
    alloc: Global,
    out: &mut W,
    outlines: &Outlines<'_>,
    glyph_id: u16,
) -> Result<(), DrawError> {
    let outline = match outlines.outline(alloc, glyph_id) {
        Ok(outline) => outline,
        Err(ReadError::Fault(fault)) => return Err(DrawError::Outline(glyph_id, fault)),
        Err(ReadError::OutOfMemory) => return Err(DrawError::OutOfMemory),
    };
    for index in 0..outline.ends().len() {
        if let Some(contour) = outline.contour(index) {
            write_contour(out, segments(alloc, contour)?.as_slice())?;
        }
    }
    Ok(())
}

/// Writes the outline that the charstring of a glyph draws, and answers whether it did: one with a fault draws nothing,
/// since some that are right are not read.
fn write_charstring<W: Write>(
    alloc: Global,
    out: &mut W,
    charstrings: &CharStrings<'_>,
    glyph_id: u16,
) -> Result<bool, DrawError> {
    match charstrings.outline(alloc, glyph_id) {
        Ok(parts) => {
            write_name(out, glyph_id)?;
            for part in &parts {
                write_cubic_segment(out, *part)?;
            }
            writeln!(out, "\"/>")?;
            Ok(true)
        }
        Err(ReadError::Fault(_)) => Ok(false),
        Err(ReadError::OutOfMemory) => Err(DrawError::OutOfMemory),
    }
}

/// Writes the outline of a glyph by the name `gNUMBER`, and answers whether it did. A glyph without contours is an empty
/// path.
fn write_outline<W: Write>(
    alloc: Global,
    out: &mut W,
    outlines: &FontOutlines<'_>,
    glyph_id: u16,
) -> Result<bool, DrawError> {
    match outlines {
        FontOutlines::Quadratic(outlines) => {
            write_name(out, glyph_id)?;
            write_contours(alloc, out, outlines, glyph_id)?;
            writeln!(out, "\"/>")?;
            Ok(true)
        }
        FontOutlines::Cubic(charstrings) => write_charstring(alloc, out, charstrings, glyph_id),
    }
}

/// Writes the outline of each of some glyphs, once, by the name `gNUMBER`, in half units of the font. Gives the numbers of
/// the glyphs that have one, which rise: all of `glyf`, and those of `CFF ` whose charstring has no fault.
///
/// Refused as 1, `Outline`, where the outline of a glyph of `glyf` has a fault, in the order of the numbers; as 2,
/// `Writer`, where the writer fails; and as 3, `OutOfMemory`, where memory is wanting. A part may be written then.
pub fn write_outlines<W: Write>(
    alloc: Global,
    out: &mut W,
    outlines: &FontOutlines<'_>,
    mut glyphs: Vec<u16>,
) -> Result<Vec<u16>, DrawError> {
    glyphs.sort()?;
    glyphs.dedup();
    writeln!(out, "<defs>")?;
    let mut written = Vec::new(alloc);
    for glyph_id in &glyphs {
        if write_outline(alloc, out, outlines, *glyph_id)? {
            written.push(*glyph_id)?;
        }
    }
    writeln!(out, "</defs>")?;
    Ok(written)
}
