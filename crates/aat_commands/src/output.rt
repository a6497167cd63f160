//! Lines are shown in the form that is asked.

use crate::line::{Context, SetLine, drawn_line, line_trace};
use crate::pictures::draw_trace;
use crate::request::Output;
use aat_calls::write_trace;
use aat_drawing::{
    DrawError, DrawnLine, FontOutlines, LineMetrics, Picture, write_flagged_glyphs, write_glyphs,
    write_json, write_named_glyphs, write_svg,
};
use aat_read_sfnt::FontFile;
use aat_typesetter::ShapedGlyph;
use aat_words::OUTPUT;
use anyhow::{Context as _, Result, anyhow, bail};
use std::alloc::Global;
use std::io::{self, Write};

/// Writes the glyphs of a line, with their names or flags where these are asked.
fn write_plain<W: Write>(
    out: &mut W,
    context: &Context<'_, '_>,
    glyphs: &[ShapedGlyph],
) -> io::Result<()> {
    let shows_flags = context.request.shows_flags;
    if let Some(names) = context.names {
        write_named_glyphs(out, names, glyphs, shows_flags)
    } else if shows_flags {
        write_flagged_glyphs(out, glyphs)
    } else {
        write_glyphs(out, glyphs)
    }
}

/// Writes a line that is typeset in the form that is asked, or keeps it for a picture.
pub(crate) fn show_line<W: Write>(
    alloc: Global,
    out: &mut W,
    context: &Context<'_, '_>,
    line: SetLine<'_>,
    kept: &mut Vec<DrawnLine>,
) -> Result<()> {
    if !context.request.removes_ignorables {
        return show_glyphs(alloc, out, context, line, kept);
    }
    let mut seen = Vec::new(alloc);
    for glyph in line.glyphs.iter().filter(|glyph| !glyph.is_ignorable) {
        seen.push(*glyph)?;
    }
    let line = SetLine {
        glyphs: seen.as_slice(),
        ..line
    };
    show_glyphs(alloc, out, context, line, kept)
}

/// Writes the glyphs of a line in the form that is asked, or keeps them for a picture.
fn show_glyphs<W: Write>(
    alloc: Global,
    out: &mut W,
    context: &Context<'_, '_>,
    line: SetLine<'_>,
    kept: &mut Vec<DrawnLine>,
) -> Result<()> {
    match context.request.output {
        Output::Glyphs => write_plain(out, context, line.glyphs).context(OUTPUT),
        Output::Trace => {
            let trace = line_trace(alloc, context, line)?;
            write_trace(out, context.face.font(), context.names, &trace).context(OUTPUT)?;
            write_plain(out, context, line.glyphs).context(OUTPUT)
        }
        Output::TracePicture => draw_trace(alloc, out, context, line),
        Output::Json => {
            let drawn = drawn_line(alloc, context, line)?;
            write_json(alloc, out, context.names, &drawn).context(OUTPUT)
        }
        Output::Svg | Output::Boxes => Ok(kept.push(drawn_line(alloc, context, line)?)?),
    }
}

/// Writes all lines as a picture: by the outlines of the font where it has them and they are asked, else by boxes.
pub(crate) fn write_picture<W: Write>(
    alloc: Global,
    out: &mut W,
    path: &str,
    context: &Context<'_, '_>,
    file: &FontFile<'_>,
    lines: &[DrawnLine],
) -> Result<()> {
    let outlines = if context.request.output == Output::Svg {
        FontOutlines::of_file(file).with_context(|| anyhow!("{path}"))?
    } else {
        None
    };
    let picture = Picture {
        metrics: LineMetrics::of_file(file, context.face.units_per_em()),
        outlines: outlines.as_ref(),
        lines,
        subtables: context.subtables.as_slice(),
        paint: context.request.paint,
    };
    match write_svg(alloc, out, &picture) {
        Err(DrawError::Outline(glyph, fault)) => bail!("{path}: glyph {glyph}: {fault}"),
        written => written.context(OUTPUT),
    }
}
