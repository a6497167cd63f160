//! Pictures for those who make fonts.

use crate::line::{Context, SetLine, line_trace};
use aat_drawing::LineMetrics;
use aat_pictures::{
    DrawError, FontOutlines, MachinePicture, TraceDrawing, TracePicture, write_machine,
    write_trace_picture,
};
use aat_words::{Font, OUTPUT};
use anyhow::{Context as _, Result, anyhow, bail};
use std::alloc::Global;
use std::io::Write;

/// Draws the machine of a subtable of a number.
pub(crate) fn draw_machine<W: Write>(
    alloc: Global,
    out: &mut W,
    font: &Font<'_>,
    number: u32,
) -> Result<()> {
    let path = font.source.path;
    let chains = font.face.font().chains();
    let names = Some(font.names(alloc)?);
    match write_machine(alloc, out, chains, names, number as usize).context(OUTPUT)? {
        MachinePicture::Written => Ok(()),
        MachinePicture::NoMachine => {
            bail!("{path}: subtable {number} is noncontextual, and has no machine")
        }
        MachinePicture::NoSubtable => bail!("{path}: there is no subtable {number}"),
    }
}

/// Draws what each subtable changed of a line.
pub(crate) fn draw_trace<W: Write>(
    alloc: Global,
    out: &mut W,
    context: &Context<'_, '_>,
    line: SetLine<'_>,
) -> Result<()> {
    let font = context.font;
    let path = font.source.path;
    let file = font.file()?;
    let trace = line_trace(alloc, context, line)?;
    let outlines = FontOutlines::of_file(&file).with_context(|| anyhow!("{path}"))?;
    let metrics = LineMetrics::of_file(&file, context.face.units_per_em());
    let picture = TracePicture {
        trace: &trace,
        font: context.face.font(),
        names: context.names,
        outlines: outlines.as_ref(),
        units_per_em: metrics.units_per_em,
        ascent: metrics.ascent,
        descent: metrics.descent,
        is_forward: line.direction.is_forward(),
        subtables: context.subtables.as_slice(),
        paint: context.request.paint,
    };
    match write_trace_picture(alloc, out, &picture) {
        Ok(TraceDrawing::Written) => Ok(()),
        Ok(TraceDrawing::TooLong) => bail!("a line of more than 1,000 glyphs is not drawn"),
        Err(DrawError::Outline(glyph, fault)) => bail!("{path}: glyph {glyph}: {fault}"),
        Err(error) => Err(error).context(OUTPUT),
    }
}
