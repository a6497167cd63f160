//! The fonts.

use crate::kerning::kern_pairs;
use aat_layout::font::entry_bits::NO_INDEX;
use aat_layout::font::entry_bits::insertion::CURRENT_INSERT_COUNT;
use aat_layout::font::{
    Chain, Coverage, ExtendedStateTable, FaceTables, GenericStateEntry, GlyphId,
    InsertionEntryData, InsertionSubtable, Kern, KernKind, KernSubtable, Lookup, Morx, Pairs,
    Subtable, SubtableKind, hb_font_t,
};
use aat_shape::font_of_part;
use std::alloc::Global;
use std::test::Fail;

/// The font of the part of a worked row.
pub(crate) fn row_font(alloc: Global, part: &str) -> Result<hb_font_t, Fail> {
    match font_of_part(alloc, part) {
        Ok(Some(font)) => Ok(font),
        _ => Err(Fail::new("the part has no font")),
    }
}

/// How many glyphs go in behind a glyph 6, the most that an entry can put in.
pub(crate) const INSERTED: usize = 31;

/// The entry of a class: of the class 4 the one that puts glyphs in.
fn entry_of(class: u16) -> GenericStateEntry<InsertionEntryData> {
    let is_six = class == 4;
    GenericStateEntry {
        new_state: 0,
        flags: if is_six { CURRENT_INSERT_COUNT } else { 0 },
        extra: InsertionEntryData {
            current_insert_index: if is_six { 0 } else { NO_INDEX },
            marked_insert_index: NO_INDEX,
        },
    }
}

/// A table that puts glyphs 5 in behind each glyph 6.
fn inserting_morx(alloc: Global) -> Result<Morx, Fail> {
    let rules = [0, 1, 2, 3, 4].map(|class| (0, class, entry_of(class)));
    let kind = SubtableKind::Insertion(InsertionSubtable {
        state: ExtendedStateTable::new(alloc, 5, &[(6, 4)], &rules)?,
        glyphs: vec![in alloc; GlyphId(5); INSERTED]?,
    });
    let subtable = Subtable::new(kind, Coverage::ALL_DIRECTIONS, 1);
    let chain = Chain::new(1, Vec::new(alloc), vec![in alloc; subtable]?);
    Ok(Morx::new(vec![in alloc; chain]?)?)
}

/// A table of pairs across the line, none of which a line has.
fn attaching_kern(alloc: Global) -> Result<Kern, Fail> {
    let pairs = KernKind::Pairs(Pairs::new(alloc, &[(8, 9, 1)])?);
    let across = KernSubtable {
        has_cross_stream: true,
        ..KernSubtable::new(pairs, true)
    };
    Ok(Kern::new(vec![in alloc; across]?)?)
}

/// A font that puts glyphs 5 in behind each glyph 6, and attaches each glyph to the one before it, by pairs across the
/// line none of which it has. Both glyphs are 100 wide.
pub(crate) fn inserting(alloc: Global) -> Result<hb_font_t, Fail> {
    let advances = Lookup::new(alloc, &[(5, 100), (6, 100)])?;
    let kern = attaching_kern(alloc)?;
    let morx = inserting_morx(alloc)?;
    let tables = FaceTables::default().with_kern(kern).with_morx(morx);
    Ok(hb_font_t::new(tables, None, Some(advances)))
}

/// A font in which 1 and 2 are 100 wide, and 10 less where 1 stands to the left of 2.
pub(crate) fn kerning(alloc: Global) -> Result<hb_font_t, Fail> {
    let advances = Lookup::new(alloc, &[(1, 100), (2, 100)])?;
    let kern = kern_pairs(alloc, &[(1, 2, -10)])?;
    Ok(hb_font_t::new(FaceTables::default().with_kern(kern), None, Some(advances)))
}
