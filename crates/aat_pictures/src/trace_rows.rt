//! Where the glyphs of a traced line stand in a picture.

use crate::glyph_text::write_glyph;
use aat_buffer::{DELETED_GLYPH, hb_glyph_info_t};
use aat_font::hb_font_t;
use aat_lookup::GlyphId;
use aat_read_metrics::GlyphNames;
use std::alloc::{AllocError, Global};

/// The pixels of an em.
pub(crate) const EM: i64 = 44;

/// The width of a letter of what glyphs are told by, in pixels.
const LETTER: i64 = 6;

/// What is left free between two glyphs.
const GAP: i64 = 14;

/// The width of the cross of a deleted glyph.
const CROSS: i64 = 10;

/// What rows take of a font.
#[derive(Clone, Copy)]
pub(crate) struct Glyphs<'a> {
    /// The font, of which they take the advances.
    pub(crate) font: &'a hb_font_t,
    /// The names of its glyphs, where they are told.
    pub(crate) names: Option<&'a GlyphNames<'a>>,
    /// The units of the em.
    pub(crate) units_per_em: u16,
}

/// A glyph of a row.
#[derive(Clone, Copy)]
pub(crate) struct Cell {
    /// The glyph, `None` where it is deleted.
    pub(crate) glyph: Option<u16>,
    /// The middle of it, in pixels from the left.
    pub(crate) middle: i64,
    /// How far the pen moves at it, in units of the font.
    pub(crate) advance: u16,
    /// Which subtable changed it last, counted through all chains from 0.
    pub(crate) changed_by: Option<usize>,
}

/// A length in units of the font, in pixels.
pub(crate) fn pixels(length: i64, units_per_em: u16) -> i64 {
    let em = i64::from(units_per_em).max(1);
    length.saturating_mul(EM) / em
}

/// The glyph of an id, `None` where it is deleted.
pub(crate) fn glyph_of(id: u32) -> Option<u16> {
    if id == DELETED_GLYPH {
        return None;
    }
    u16::try_from(id).ok()
}

/// The room of rows: where it begins and ends, in pixels from the left, and from which side glyphs come.
#[derive(Clone, Copy)]
pub(crate) struct Room {
    /// Where it begins.
    pub(crate) left: i64,
    /// Where it ends.
    pub(crate) right: i64,
    /// Whether the first glyph is on the left.
    pub(crate) is_forward: bool,
}

/// The width of a glyph with what it is told by, in pixels.
fn width_of(text: &mut String, glyphs: Glyphs<'_>, glyph: Option<u16>) -> Result<i64, AllocError> {
    let Some(glyph) = glyph else {
        return Ok(CROSS + GAP);
    };
    text.clear();
    write_glyph(text, glyphs.names, glyph)?;
    let letters = text.len().min(64) as i64;
    let advance = pixels(
        i64::from(glyphs.font.glyph_advance(GlyphId(glyph))),
        glyphs.units_per_em,
    );
    Ok(
        advance
            .max(LETTER.saturating_mul(letters))
            .saturating_add(GAP),
    )
}

/// The width of a row, in pixels.
///
/// Fails where there is no memory for what a glyph is told by.
pub(crate) fn row_width(
    alloc: Global,
    glyphs: Glyphs<'_>,
    line: &[hb_glyph_info_t],
) -> Result<i64, AllocError> {
    let mut text = String::new(alloc);
    let mut width = 0i64;
    for info in line {
        let glyph = glyph_of(info.glyph_id);
        width = width.saturating_add(width_of(&mut text, glyphs, glyph)?);
    }
    Ok(width)
}

/// The glyphs of a row in a room, with what changed them last.
///
/// Fails where they get no memory: some bytes for each.
pub(crate) fn cells_of(
    alloc: Global,
    glyphs: Glyphs<'_>,
    line: &[hb_glyph_info_t],
    changes: &[Option<usize>],
    room: Room,
) -> Result<Vec<Cell>, AllocError> {
    let mut text = String::new(alloc);
    let mut cells = Vec::new(alloc);
    let mut pen = 0i64;
    for (place, info) in line.iter().enumerate() {
        let glyph = glyph_of(info.glyph_id);
        let width = width_of(&mut text, glyphs, glyph)?;
        let half = pen.saturating_add(width / 2);
        let middle = if room.is_forward {
            room.left.saturating_add(half)
        } else {
            room.right.saturating_sub(half)
        };
        cells.push(Cell {
            glyph,
            middle,
            advance: match glyph {
                Some(glyph) => glyphs.font.glyph_advance(GlyphId(glyph)),
                None => 0,
            },
            changed_by: changes.get(place).copied().flatten(),
        })?;
        pen = pen.saturating_add(width);
    }
    Ok(cells)
}
