//! Rows of tables that are found by bisection, and do not rise, and places of parts.

use crate::fact::Fact;
use crate::finding::{Finding, Place, add_fact};
use aat_bytes::tags::{ANKR, FEAT};
use aat_bytes::{u16_at, u32_at};
use aat_face::Face;
use aat_read_sfnt::FontFile;
use std::alloc::AllocError;

/// The place that stands in a field behind another one, and counts from there.
pub(crate) fn part_at(bytes: &[u8], from: usize, field: usize) -> Option<usize> {
    let offset = u32_at(bytes, from.saturating_add(field))?;
    Some(from.saturating_add(offset as usize))
}

/// Whether one of the parts whose places stand in fields begins behind an end. An empty one may begin there.
pub(crate) fn begins_past(bytes: &[u8], from: usize, fields: &[usize], end: usize) -> bool {
    fields.iter().any(|field| part_at(bytes, from, *field).is_some_and(|part| part > end))
}

/// What a row begins with.
#[derive(Clone, Copy)]
pub(crate) enum RowKey {
    /// The last and the first glyph of a segment.
    Segment,
    /// A glyph.
    Glyph,
    /// A left and a right glyph.
    Pair,
    /// A feature type, of which none ends the rows.
    Feature,
}

impl RowKey {
    /// The first and the last key of the row at a place.
    fn keys_at(self, bytes: &[u8], at: usize) -> Option<(u32, u32)> {
        match self {
            RowKey::Segment => {
                let last = u16_at(bytes, at)?;
                let first = u16_at(bytes, at.saturating_add(2))?;
                Some((u32::from(first), u32::from(last)))
            }
            RowKey::Glyph | RowKey::Feature => {
                u16_at(bytes, at).map(|key| (u32::from(key), u32::from(key)))
            }
            RowKey::Pair => u32_at(bytes, at).map(|pair| (pair, pair)),
        }
    }

    /// The key of a row that ends the rows, and may be counted among them.
    fn end_key(self) -> u32 {
        match self {
            RowKey::Segment | RowKey::Glyph => 0xFFFF,
            RowKey::Pair | RowKey::Feature => 0xFFFF_FFFF,
        }
    }
}

/// Rows, which a bisection finds by their keys.
#[derive(Clone, Copy)]
pub(crate) struct Rows {
    /// What a row begins with.
    pub(crate) key: RowKey,
    /// Where the first row stands.
    pub(crate) start: usize,
    /// How many bytes a row has.
    pub(crate) size: usize,
    /// How many rows there are.
    pub(crate) count: u32,
}

impl Rows {
    /// The rows of the lookup at a place, if it has a format of rows.
    ///
    /// Apple's TrueType Reference Manual, "Font Tables", section on lookup tables.
    pub(crate) fn of_lookup(bytes: &[u8], lookup: usize) -> Option<Rows> {
        let key = match u16_at(bytes, lookup)? {
            2 | 4 => RowKey::Segment,
            6 => RowKey::Glyph,
            _ => return None,
        };
        Some(Rows {
            key,
            start: lookup.saturating_add(12),
            size: usize::from(u16_at(bytes, lookup.saturating_add(2))?),
            count: u32::from(u16_at(bytes, lookup.saturating_add(4))?),
        })
    }

    /// The place behind the last of the values that segments of the lookup at a place name.
    fn values_end(self, bytes: &[u8], lookup: usize) -> usize {
        let (mut end, mut at) = (0, self.start);
        for _ in 0..self.count {
            let keys = self.key.keys_at(bytes, at);
            let (Some((first, last)), Some(offset)) = (keys, u16_at(bytes, at.saturating_add(4)))
            else {
                return end;
            };
            if first == self.key.end_key() {
                return end;
            }
            let count = last.saturating_add(1).saturating_sub(first) as usize;
            let values = lookup.saturating_add(usize::from(offset));
            end = end.max(values.saturating_add(count.saturating_mul(2)));
            at = at.saturating_add(self.size);
        }
        end
    }

    /// The first row whose keys do not stand behind those of the row before it.
    pub(crate) fn first_fallen(self, bytes: &[u8]) -> Option<Fact> {
        let (mut least, mut at) = (0, self.start);
        for _ in 0..self.count {
            let (first, last) = self.key.keys_at(bytes, at)?;
            if first == self.key.end_key() {
                return None;
            }
            if first < least || last < first {
                return Some(Fact::RowFalls { byte: at });
            }
            least = last.saturating_add(1);
            at = at.saturating_add(self.size);
        }
        None
    }
}

/// The place behind the rows and the values of the lookup at a place, in a font of so many glyphs.
///
/// Apple's TrueType Reference Manual, "Font Tables", section on lookup tables.
pub(crate) fn lookup_end(bytes: &[u8], lookup: usize, glyph_count: u32) -> Option<usize> {
    let word = |field: usize| u16_at(bytes, lookup.saturating_add(field)).map(usize::from);
    let (header, size, count) = match word(0)? {
        // 65,536 glyphs stand for no `maxp`, and then it has no values
        0 => (2, 2, glyph_count as usize % 0x1_0000),
        8 => (6, 2, word(4)?),
        10 => (8, word(2)?, word(6)?),
        _ => (12, word(2)?, word(4)?),
    };
    let end = lookup
        .saturating_add(header)
        .saturating_add(size.saturating_mul(count));
    match Rows::of_lookup(bytes, lookup) {
        Some(rows) if word(0) == Some(4) => Some(end.max(rows.values_end(bytes, lookup))),
        _ => Some(end),
    }
}

/// The first row that does not rise of the lookup whose place stands in a field behind another one.
pub(crate) fn fallen_in_lookup(bytes: &[u8], from: usize, field: usize) -> Option<Fact> {
    let lookup = part_at(bytes, from, field)?;
    Rows::of_lookup(bytes, lookup)?.first_fallen(bytes)
}

/// Adds the first row of the lookup of `ankr`, and of the names of `feat`, that does not rise, where they are read.
///
/// Apple's TrueType Reference Manual, "The 'ankr' table" and "The 'feat' table".
pub(crate) fn check_rows(
    file: &FontFile<'_>,
    face: &Face<'_>,
    found: &mut Vec<Finding>,
) -> Result<(), AllocError> {
    let tables = face.font().tables();
    if tables.ankr.is_some()
        && let Ok(bytes) = file.table(ANKR)
    {
        add_fact(Place::of_table(ANKR), fallen_in_lookup(bytes, 0, 4), found)?;
    }
    if tables.feat.is_some()
        && let Ok(bytes) = file.table(FEAT)
    {
        let names = Rows {
            key: RowKey::Feature,
            start: 12,
            size: 12,
            count: u16_at(bytes, 4).map_or(0, u32::from),
        };
        add_fact(Place::of_table(FEAT), names.first_fallen(bytes), found)?;
    }
    Ok(())
}
