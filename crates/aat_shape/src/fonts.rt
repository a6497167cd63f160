//! The fonts of the parts of rows.

use crate::described::{FontData, font_of};
use crate::rows::{Part, Row, Shown, all_rows};
use crate::stop::Stop;
use aat_layout::font::hb_font_t;
use std::alloc::Global;

/// The font of the part of a row with this name, as it is printed; none where no part has the name, or its part needs no
/// font.
///
/// Stopped as `Refused` with 3 for want of memory.
pub fn font_of_part(alloc: Global, name: &str) -> Result<Option<hb_font_t>, Stop> {
    let Some(part) = part_named(name) else {
        return Ok(None);
    };
    match font_in(&part.shown) {
        Some(font) => Ok(Some(font_of(alloc, font)?)),
        None => Ok(None),
    }
}

/// The part with a name.
fn part_named(name: &str) -> Option<&'static Part> {
    for rows in all_rows() {
        let found = part_in(rows, name);
        if found.is_some() {
            return found;
        }
    }
    None
}

/// The part with a name among those of some rows.
fn part_in(rows: &'static [Row], name: &str) -> Option<&'static Part> {
    for row in rows {
        let found = part_of(row.parts, name);
        if found.is_some() {
            return found;
        }
    }
    None
}

/// The one of these parts with a name.
fn part_of(parts: &'static [Part], name: &str) -> Option<&'static Part> {
    parts.iter().find(|part| part.name == name)
}

/// The font of what a part shows, if it needs one.
pub(crate) fn font_in(shown: &Shown) -> Option<&FontData<'static>> {
    match shown {
        Shown::Substitution(shown) | Shown::Refusals(shown) => Some(&shown.font),
        Shown::Compilation(shown) => Some(&shown.font),
        Shown::Addition(shown) => Some(&shown.font),
        Shown::Kerning(shown) => Some(&shown.font),
        Shown::Shaping(shown) => Some(&shown.font),
        Shown::Zeroing(_) | Shown::Removal(_) => None,
    }
}
