//! What is told of a line that is typeset is put together.

use crate::request::Request;
use aat_calls::trace_of;
use aat_drawing::{DrawnLine, drawn_changes, drawn_glyphs};
use aat_read_metrics::GlyphNames;
use aat_text::LineEnd;
use aat_trace::Trace;
use aat_typesetter::{Direction, Face, ShapedGlyph, TextGlyph};
use aat_words::{Font, Speaker};
use anyhow::Result;
use std::alloc::Global;

/// What the lines of a text have in common.
#[derive(Drop)]
pub(crate) struct Context<'a, 'f> {
    /// The font.
    pub(crate) face: &'a Face<'f>,
    /// The names of glyphs, where they are written in place of numbers.
    pub(crate) names: Option<&'a GlyphNames<'f>>,
    /// The font with what it was read from.
    pub(crate) font: &'a Font<'f>,
    /// What is asked.
    pub(crate) request: Request,
    /// What the subtables of `morx` are called, where a picture is asked.
    pub(crate) subtables: Vec<String>,
    /// Who speaks on the error stream.
    pub(crate) speaker: Speaker,
}

/// The most glyphs of a line that is traced for the colours of a picture. Where glyphs go in, their time grows with the
/// square of the line.
const MOST_COLOURED: usize = 1_000;

/// A line that is typeset, with the text that it is a part of.
#[derive(Clone, Copy)]
pub(crate) struct SetLine<'t> {
    /// Where lines of the text may end.
    pub(crate) ends: &'t [LineEnd],
    /// The direction of the text.
    pub(crate) direction: Direction,
    /// The glyphs of the line, one for each character.
    pub(crate) text: &'t [TextGlyph],
    /// What was shaped of them.
    pub(crate) shaped: &'t [ShapedGlyph],
    /// What is drawn, where ignorable glyphs are hidden.
    pub(crate) glyphs: &'t [ShapedGlyph],
}

/// What each subtable changed of a line that is typeset.
pub(crate) fn line_trace(
    alloc: Global,
    context: &Context<'_, '_>,
    line: SetLine<'_>,
) -> Result<Trace> {
    let features = context.request.features.as_slice();
    trace_of(
        alloc,
        context.face.font(),
        line.direction,
        line.text,
        features,
    )
}

/// The subtable that changed each glyph that is drawn of a line, where a picture shows it.
fn changes_of(
    alloc: Global,
    context: &Context<'_, '_>,
    line: SetLine<'_>,
) -> Result<Vec<Option<usize>>> {
    if !context.request.output.is_picture() || line.text.len() > MOST_COLOURED {
        return Ok(Vec::new(alloc));
    }
    let trace = line_trace(alloc, context, line)?;
    Ok(drawn_changes(alloc, &trace, line.direction, line.shaped, line.glyphs)?)
}

/// A line that is typeset with what changed its glyphs, and where it may be broken.
pub(crate) fn drawn_line(
    alloc: Global,
    context: &Context<'_, '_>,
    line: SetLine<'_>,
) -> Result<DrawnLine> {
    let changes = changes_of(alloc, context, line)?;
    Ok(DrawnLine {
        direction: line.direction,
        glyphs: drawn_glyphs(alloc, line.ends, line.glyphs, &changes)?,
    })
}
