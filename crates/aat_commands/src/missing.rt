//! The characters of a text that a font lacks are told.

use crate::line::Context;
use aat_text::missing_characters;
use aat_words::Progress;
use anyhow::Result;

/// Tells on the error stream the first character of a line of a number that has no glyph in the font, and how many
/// there are. How far the work is, is told no more then.
pub(crate) fn tell_missing(
    rt: &HostRuntime,
    progress: &Progress,
    context: &Context<'_, '_>,
    number: usize,
    line: &str,
) -> Result<()> {
    let unit = context.request.unit;
    let missing = missing_characters(rt.alloc(), context.face, unit, line)?;
    let Some(first) = missing.first() else {
        return Ok(());
    };
    progress.clear(rt)?;
    let speaker = context.speaker;
    let (code, place) = (first.character as u32, first.place);
    let count = missing.len();
    eprintln!(rt;
        "{speaker}: line {number}: no glyph for U+{code:04X} at {place}, the first of {count}"
    )?;
    Ok(())
}
