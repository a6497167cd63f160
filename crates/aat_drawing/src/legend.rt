//! The colours of a picture, and what they stand for.

use crate::line::DrawnLine;
use aat_pictures::{Colour, Paint, colour_by};
use std::io::{self, Write};

/// The colour of a glyph by the subtable that changed it last.
pub(crate) fn colour_of(paint: &Paint, changed_by: Option<usize>) -> Colour {
    match changed_by {
        None => paint.foreground,
        Some(number) => colour_by(number),
    }
}

/// Whether a subtable of a number changed a glyph of the lines.
pub(crate) fn is_shown(lines: &[DrawnLine], number: usize) -> bool {
    lines.iter().any(|line| {
        line.glyphs
            .iter()
            .any(|drawn| drawn.changed_by == Some(number))
    })
}

/// Writes a line of the legend, `top` units from the top: a text in a colour.
pub(crate) fn write_entry<W: Write>(
    out: &mut W,
    top: i64,
    size: i64,
    colour: Colour,
    text: &str,
) -> io::Result<()> {
    writeln!(
        out,
        "<text x=\"{size}\" y=\"{top}\" font-size=\"{size}\" font-family=\"sans-serif\" fill=\"{colour}\">{text}</text>"
    )
}
