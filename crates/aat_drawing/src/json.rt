//! Lines as JSON.

use crate::line::{DrawnGlyph, DrawnLine, LineBreak};
use aat_read_metrics::{GlyphNames, WrittenGlyph};
use serde_json::{Value, json};
use std::alloc::{AllocError, Global};
use std::io::{self, Write};

/// What tells a glyph: its number, or where names are given its name, and `gidN` where it has none.
fn id_value(
    alloc: Global,
    names: Option<&GlyphNames<'_>>,
    glyph: u16,
) -> Result<Value, AllocError> {
    let number = u32::from(glyph);
    if names.is_none() {
        return Ok(Value::from(number));
    }
    let written = WrittenGlyph::new(names, number);
    Ok(Value::String(written.to_string(alloc)?))
}

/// A glyph as an object, with the keys of `hb-shape`: `g` is its number or its name, `cl` its cluster, `dx` and `dy` its
/// offset, `ax` and `ay` its advance. `break` is whether the text may be broken before it, and `as_drawn` whether the two
/// parts look by themselves as they do here.
fn glyph_value(
    alloc: Global,
    names: Option<&GlyphNames<'_>>,
    drawn: &DrawnGlyph,
) -> Result<Value, AllocError> {
    let glyph = drawn.glyph;
    let id = id_value(alloc, names, glyph.glyph_id)?;
    let may_break = drawn.break_before != LineBreak::Never;
    let as_drawn = drawn.break_before == LineBreak::AsDrawn;
    json!(in alloc; {
        "g": id,
        "cl": glyph.cluster,
        "dx": glyph.x_offset,
        "dy": glyph.y_offset,
        "ax": glyph.x_advance,
        "ay": glyph.y_advance,
        "break": may_break,
        "as_drawn": as_drawn
    })
}

/// Writes a line as an array of objects, on one line of text, with the names of glyphs in place of their numbers where
/// these are given.
///
/// An error is that of the writer, or `OutOfMemory`. A part of the text may be written then.
pub fn write_json<W: Write>(
    alloc: Global,
    out: &mut W,
    names: Option<&GlyphNames<'_>>,
    line: &DrawnLine,
) -> io::Result<()> {
    let mut before = "[";
    for drawn in &line.glyphs {
        out.write_all(before.as_bytes())?;
        let text = glyph_value(alloc, names, drawn)?.to_string(alloc)?;
        out.write_all(text.as_bytes())?;
        before = ",";
    }
    if line.glyphs.is_empty() {
        out.write_all(b"[")?;
    }
    writeln!(out, "]")
}
