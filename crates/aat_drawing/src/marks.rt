//! Boxes of advances, and bars where a text may be broken.

use crate::line::{DrawnGlyph, DrawnLine, LineBreak, advance_along};
use crate::metrics::LineMetrics;
use aat_pictures::Colour;
use std::io::{self, Write};

/// Twice a length, since pictures are drawn in half units of the font.
pub(crate) fn half_units(length: i64) -> i64 {
    length.saturating_mul(2)
}

/// Writes the box of a glyph's advance where the glyph is drawn, in half units: as high as a line, or in columns as wide
/// as the em.
pub(crate) fn write_box<W: Write>(
    out: &mut W,
    metrics: &LineMetrics,
    line: &DrawnLine,
    place: (i64, i64),
    drawn: &DrawnGlyph,
    colour: Colour,
) -> io::Result<()> {
    let (ascent, descent) = (i64::from(metrics.ascent), i64::from(metrics.descent));
    let advance = advance_along(line.direction, &drawn.glyph);
    let length = advance.saturating_abs();
    let (left, bottom, width, height) = if line.direction.is_horizontal() {
        (advance.min(0), descent, length, ascent - descent)
    } else {
        let bottom = ascent.saturating_sub(length);
        (0, bottom, i64::from(metrics.units_per_em), length)
    };
    let left = half_units(place.0.saturating_add(left));
    let bottom = half_units(place.1.saturating_add(bottom));
    let (width, height) = (half_units(width), half_units(height));
    writeln!(
        out,
        "<rect x=\"{left}\" y=\"{bottom}\" width=\"{width}\" height=\"{height}\" stroke=\"{colour}\"/>"
    )
}

/// The dashes of a bar in half units, 0 of a solid one, where there is a bar before a glyph.
fn dashes_of(metrics: &LineMetrics, drawn: &DrawnGlyph) -> Option<u16> {
    match drawn.break_before {
        LineBreak::Never => None,
        LineBreak::ShapedAnew => Some(metrics.units_per_em / 16),
        LineBreak::AsDrawn => Some(0),
    }
}

/// Writes a bar at the pen, in half units, where the text may be broken before a glyph: a dashed one where the two parts
/// have to be shaped by themselves, and else a solid one.
pub(crate) fn write_bar<W: Write>(
    out: &mut W,
    metrics: &LineMetrics,
    line: &DrawnLine,
    pen: (i64, i64),
    drawn: &DrawnGlyph,
) -> io::Result<()> {
    let Some(dashes) = dashes_of(metrics, drawn) else {
        return Ok(());
    };
    let (x, y) = (half_units(pen.0), half_units(pen.1));
    let top = half_units(i64::from(metrics.ascent)).saturating_add(y);
    if line.direction.is_horizontal() {
        let bottom = half_units(i64::from(metrics.descent)).saturating_add(y);
        write!(out, "<path class=\"bar\" d=\"M{x} {bottom}V{top}\"")?;
    } else {
        let right = half_units(i64::from(metrics.units_per_em)).saturating_add(x);
        write!(out, "<path class=\"bar\" d=\"M{x} {top}H{right}\"")?;
    }
    if dashes > 0 {
        write!(out, " stroke-dasharray=\"{dashes}\"")?;
    }
    writeln!(out, "/>")
}
