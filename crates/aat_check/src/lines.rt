//! Lines of glyphs that show a finding.

use crate::finding::GlyphLine;
use crate::search::Search;
use aat_findings::{DELETED_GLYPH, taken_as};
use aat_lookup::GlyphId;
use aat_machine_tables::entry_bits::class;
use aat_machine_tables::{Acting, Coverage, ExtendedStateTable};
use std::alloc::{AllocError, Global};

/// How a subtable goes over a line.
#[derive(Clone, Copy)]
pub(crate) struct Order {
    /// Whether from its end to its start.
    pub(crate) is_backwards: bool,
    /// Whether it goes over text in columns alone.
    pub(crate) is_vertical: bool,
}

impl Order {
    /// How a subtable of `morx` goes over a line by its coverage.
    pub(crate) fn of(coverage: Coverage) -> Order {
        Order {
            is_backwards: coverage.is_backwards(),
            is_vertical: coverage.is_vertical() && !coverage.is_all_directions(),
        }
    }
}

/// The first glyph of each class, of those that are preferred and then of all from the least on, that are below a number.
pub(crate) fn shown_classes<T: Acting>(
    alloc: Global,
    table: &ExtendedStateTable<T>,
    preferred: &[(u16, u16)],
    least: u16,
    glyph_count: u32,
) -> Result<Vec<Option<u16>>, AllocError> {
    let mut shown = vec![in alloc; None; table.class_count() as usize]?;
    let count = glyph_count.min(u32::from(DELETED_GLYPH)) as u16;
    let preferred = preferred.iter().map(|pair| pair.0);
    for glyph in preferred.chain(least..count) {
        if glyph >= count {
            continue;
        }
        let class = taken_as(table, GlyphId(glyph));
        if let Some(slot) = shown.get_mut(class as usize)
            && slot.is_none()
        {
            *slot = Some(glyph);
        }
    }
    Ok(shown)
}

/// The glyphs that show classes and then one more, if there is one for each. The end of the text, class 0, is the end of the
/// line.
pub(crate) fn glyphs_of(
    alloc: Global,
    shown: &[Option<u16>],
    before: &[u16],
    last: u16,
) -> Result<Option<Vec<u16>>, AllocError> {
    let mut glyphs = Vec::new(alloc);
    for class in before {
        let Some(glyph) = shown.get(*class as usize).copied().flatten() else {
            return Ok(None);
        };
        glyphs.push(glyph)?;
    }
    if last != class::END_OF_TEXT {
        let Some(glyph) = shown.get(last as usize).copied().flatten() else {
            return Ok(None);
        };
        glyphs.push(glyph)?;
    }
    Ok(Some(glyphs))
}

/// A shortest line of glyphs that brings a machine to a state at a glyph of a class, where a line of at least one glyph
/// is found that does.
pub(crate) fn line_to<T: Acting>(
    alloc: Global,
    table: &ExtendedStateTable<T>,
    glyph_count: u32,
    order: Order,
    cell: (u16, u16),
) -> Result<Option<GlyphLine>, AllocError> {
    let shown = shown_classes(alloc, table, &[], 0, glyph_count)?;
    let search = Search::everywhere(alloc, table, &shown, None)?;
    let Some(way) = search.way_to(alloc, table, cell)? else {
        return Ok(None);
    };
    let Some(mut glyphs) = glyphs_of(alloc, &shown, &way.before, cell.1)? else {
        return Ok(None);
    };
    if glyphs.is_empty() {
        return Ok(None);
    }
    if order.is_backwards {
        glyphs.reverse();
    }
    let is_vertical = order.is_vertical;
    Ok(Some(GlyphLine {
        glyphs,
        is_vertical,
        feature: None,
        cut: None,
    }))
}
