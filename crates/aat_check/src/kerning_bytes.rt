//! What the bytes of `kerx` and of `kern` have that the tables which are read do not tell.

use crate::fact::Fact;
use crate::finding::{Finding, Place, add_fact, push_fact};
use crate::rows::{RowKey, Rows, begins_past, fallen_in_lookup};
use aat_bytes::tags::{KERN, KERX};
use aat_bytes::{Tag, u8_at, u16_at, u32_at};
use aat_read_sfnt::FontFile;
use std::alloc::AllocError;

/// How many bytes stand between the number of pairs and the first of them, with that number.
const SEARCH_HEADER: usize = 8;

/// How many bytes a pair has, with its value.
const PAIR: usize = 6;

/// The most subtables of a table that is read.
const MOST_SUBTABLES: u32 = 65535;

/// How the subtables of a table stand in its bytes.
#[derive(Clone, Copy)]
enum KerningHeader {
    /// Those of `kerx`.
    Extended,
    /// Those of Apple's `kern`.
    Apple,
    /// Those of OpenType's `kern`.
    OpenType,
}

impl KerningHeader {
    /// That of a table.
    fn of_table(table: Tag, bytes: &[u8]) -> KerningHeader {
        if table == KERX {
            return KerningHeader::Extended;
        }
        match u16_at(bytes, 0) {
            Some(1) => KerningHeader::Apple,
            _ => KerningHeader::OpenType,
        }
    }

    /// How many subtables there are, and where the first one starts.
    fn subtables(self, bytes: &[u8]) -> Option<(u32, usize)> {
        match self {
            KerningHeader::OpenType => u16_at(bytes, 2).map(|count| (u32::from(count), 4)),
            _ => u32_at(bytes, 4).map(|count| (count, 8)),
        }
    }

    /// The length of the subtable at a place.
    fn length_at(self, bytes: &[u8], at: usize) -> Option<usize> {
        match self {
            KerningHeader::OpenType => u16_at(bytes, at.saturating_add(2)).map(usize::from),
            _ => u32_at(bytes, at).map(|length| length as usize),
        }
    }

    /// The pairs of the subtable at a place, if it has format 0, which lists them.
    fn rows_at(self, bytes: &[u8], at: usize) -> Option<Rows> {
        let (format, body) = match self {
            KerningHeader::Extended => (7, 12),
            KerningHeader::Apple => (5, 8),
            KerningHeader::OpenType => (4, 6),
        };
        if u8_at(bytes, at.saturating_add(format))? != 0 {
            return None;
        }
        let list = at.saturating_add(body);
        let (count, header) = match self {
            KerningHeader::Extended => (u32_at(bytes, list)?, 2 * SEARCH_HEADER),
            _ => (u32::from(u16_at(bytes, list)?), SEARCH_HEADER),
        };
        Some(Rows {
            key: RowKey::Pair,
            start: list.saturating_add(header),
            size: PAIR,
            count,
        })
    }
}

/// The parts of a subtable of `kerx`.
#[derive(Clone, Copy)]
struct Parts {
    /// How far behind its start the place is from which theirs count.
    from: usize,
    /// The fields that have the places of lookups: of the classes of a machine, or of left glyphs and right ones.
    lookups: &'static [usize],
    /// The fields that have the places of values by classes, and of tuples.
    values: &'static [usize],
}

/// The parts of a subtable of `kerx` by its format.
fn parts_of(format: u8, has_tuples: bool) -> Parts {
    let (from, lookups, values): (usize, &[usize], &[usize]) = match format {
        1 | 4 => (12, &[4], &[]),
        2 => (0, &[16, 20], &[24]),
        6 if has_tuples => (0, &[20, 24], &[28, 32]),
        6 => (0, &[20, 24], &[28]),
        _ => (0, &[], &[]),
    };
    Parts {
        from,
        lookups,
        values,
    }
}

/// Adds the first row of the lookups of a subtable of `kerx` at a place that does not rise, and that values of it begin
/// behind the bytes that it may use.
fn check_parts(
    bytes: &[u8],
    at: usize,
    place: Place,
    found: &mut Vec<Finding>,
) -> Result<(), AllocError> {
    let Some(format) = u8_at(bytes, at.saturating_add(7)) else {
        return Ok(());
    };
    let has_tuples = u32_at(bytes, at.saturating_add(8)) != Some(0);
    let parts = parts_of(format, has_tuples);
    let from = at.saturating_add(parts.from);
    let mut lookups = parts.lookups.iter();
    let fallen = lookups.find_map(|field| fallen_in_lookup(bytes, from, *field));
    add_fact(place, fallen, found)?;
    if begins_past(bytes, from, parts.values, bytes.len()) {
        push_fact(found, place, Fact::ReachesPast)?;
    }
    Ok(())
}

/// Adds what is found in the bytes of each subtable of a table. The last one may reach to the end of the table.
fn check_table(table: Tag, bytes: &[u8], found: &mut Vec<Finding>) -> Result<(), AllocError> {
    let header = KerningHeader::of_table(table, bytes);
    let Some((count, mut at)) = header.subtables(bytes) else {
        return Ok(());
    };
    for number in 0..count.min(MOST_SUBTABLES) {
        let Some(length) = header.length_at(bytes, at) else {
            return Ok(());
        };
        let place = Place {
            subtable: Some(number as usize),
            ..Place::of_table(table)
        };
        let behind = at.saturating_add(length);
        let used = if number.saturating_add(1) == count {
            bytes
        } else {
            &bytes[..behind.min(bytes.len())]
        };
        let pairs = header.rows_at(used, at);
        let fallen = pairs.and_then(|rows| rows.first_fallen(used));
        add_fact(place, fallen, found)?;
        if table == KERX {
            check_parts(used, at, place, found)?;
        }
        at = behind;
    }
    Ok(())
}

/// Adds what is found in the bytes of `kerx` and of `kern`: of each subtable the first row of pairs, or of lookups,
/// that does not rise, and whether values by classes of `kerx`, or their tuples, begin past what it may use.
///
/// Apple's TrueType Reference Manual, "The 'kerx' table" and "The 'kern' table".
pub(crate) fn check_kerning_bytes(
    file: &FontFile<'_>,
    found: &mut Vec<Finding>,
) -> Result<(), AllocError> {
    if let Ok(bytes) = file.table(KERX) {
        check_table(KERX, bytes, found)?;
    }
    match file.table(KERN) {
        Ok(bytes) => check_table(KERN, bytes, found),
        Err(_) => Ok(()),
    }
}
