//! The lines of a text that is measured.

use crate::bench::BenchText;
use aat_face::Face;
use aat_layout::buffer::Direction;
use aat_shaper::TextGlyph;
use aat_text::{PreparedText, TextError, prepare_text};
use anyhow::Result;
use std::alloc::{AllocError, Global};

/// A line of a text, which is shaped by itself.
#[derive(Drop)]
pub(crate) struct TextLine<'t> {
    /// Its characters.
    pub(crate) characters: &'t str,
    /// The direction in which it is shaped.
    pub(crate) direction: Direction,
    /// Its glyphs, in the order in which they are shaped.
    pub(crate) glyphs: Vec<TextGlyph>,
}

/// Adds the pieces of a line that have so many characters each, but the last one.
fn add_pieces<'t>(
    pieces: &mut Vec<&'t str>,
    line: &'t str,
    length: usize,
) -> Result<(), AllocError> {
    let (mut start, mut count) = (0, 0usize);
    for (place, _character) in line.char_indices() {
        if count >= length {
            pieces.push(line.get(start..place).unwrap_or(""))?;
            start = place;
            count = 0;
        }
        count = count.saturating_add(1);
    }
    pieces.push(line.get(start..).unwrap_or(""))?;
    Ok(())
}

/// The lines of a text, cut into lines of so many characters where a length is asked.
fn pieces_of<'t>(
    alloc: Global,
    text: &'t str,
    length: Option<u32>,
) -> Result<Vec<&'t str>, AllocError> {
    let length = length.map_or(usize::MAX, |length| length as usize);
    let mut pieces = Vec::new(alloc);
    for line in text.lines() {
        add_pieces(&mut pieces, line, length.max(1))?;
    }
    Ok(pieces)
}

/// A line of a text, as a typesetter of the font shapes it.
pub(crate) fn prepared(
    alloc: Global,
    face: &Face<'_>,
    text: BenchText<'_>,
    characters: &str,
) -> Result<PreparedText<Global>, TextError> {
    prepare_text(
        alloc,
        face,
        text.unit,
        text.level,
        text.script,
        text.direction,
        characters,
    )
}

/// The lines of a text, as they are shaped in a font.
pub(crate) fn lines_of<'t>(
    alloc: Global,
    face: &Face<'_>,
    text: BenchText<'t>,
) -> Result<Vec<TextLine<'t>>> {
    let mut lines = Vec::new(alloc);
    for characters in pieces_of(alloc, text.characters, text.length)? {
        let ready = prepared(alloc, face, text, characters)?;
        lines.push(TextLine {
            characters,
            direction: ready.direction,
            glyphs: ready.glyphs,
        })?;
    }
    Ok(lines)
}
