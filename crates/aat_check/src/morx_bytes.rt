//! What the bytes of `morx` have that the tables which are read do not tell.

use crate::fact::Fact;
use crate::finding::{Finding, Place, add_fact, push_fact};
use crate::glyphs::check_list;
use crate::overrun::{Counts, overrunning_cell};
use crate::rows::{Rows, begins_past, lookup_end, part_at};
use crate::unmade::check_made;
use aat_bytes::tags::MORX;
use aat_bytes::{u16_at, u32_at};
use aat_findings::{current_run, marked_run};
use aat_machine_tables::entry_bits::NO_INDEX;
use aat_machine_tables::{Chain, SubtableKind};
use std::alloc::{AllocError, Global};

/// How many bytes the header of a chain has.
const CHAIN_HEADER: usize = 16;

/// How many bytes a setting of a chain has.
const SETTING: usize = 12;

/// How many bytes the header of a subtable has.
const SUBTABLE_HEADER: usize = 12;

/// The field of a ligature subtable that has the place of its components.
const COMPONENTS: usize = 20;

/// The field of a ligature subtable that has the place of its ligatures.
const LIGATURES: usize = 24;

/// The field of a machine that has the place of its first list: of lookups, of actions, or of glyphs that go in.
const LIST: usize = 16;

/// A subtable in the bytes of its table.
#[derive(Clone, Copy)]
struct Extent<'b> {
    /// The bytes of the table.
    bytes: &'b [u8],
    /// Where its machine or its lookup begins.
    body: usize,
    /// Where it ends by its length.
    end: usize,
    /// The font has the glyphs below this number.
    glyph_count: u32,
}

/// The fields of a kind of machine that have the place of a part: classes, states, entries, and lists. And how many
/// bytes an entry has, if there are entries.
fn parts_of(kind: &SubtableKind) -> (&'static [usize], Option<usize>) {
    match kind {
        SubtableKind::NonContextual(_) => (&[], None),
        SubtableKind::Rearrangement(_) => (&[4, 8, 12], Some(4)),
        SubtableKind::Contextual(_) | SubtableKind::Insertion(_) => (&[4, 8, 12, 16], Some(8)),
        SubtableKind::Ligature(_) => (&[4, 8, 12, 16, 20, 24], Some(6)),
    }
}

impl Extent<'_> {
    /// The places of its lookups: that of the classes first.
    fn lookups(self, alloc: Global, kind: &SubtableKind) -> Result<Vec<usize>, AllocError> {
        let mut lookups = Vec::new(alloc);
        let first = match kind {
            SubtableKind::NonContextual(_) => Some(self.body),
            _ => part_at(self.bytes, self.body, 4),
        };
        lookups.push(first.unwrap_or(self.body))?;
        if let SubtableKind::Contextual(subtable) = kind
            && let Some(list) = part_at(self.bytes, self.body, LIST)
        {
            for number in 0..subtable.lookups.len() {
                let lookup = part_at(self.bytes, list, number.saturating_mul(4));
                lookups.push(lookup.unwrap_or(list))?;
            }
        }
        Ok(lookups)
    }

    /// The place behind the rows of its states and the entries that these name, which have so many bytes. There are
    /// rows up to the highest state that one of these entries names.
    fn cells_end(self, entry_size: usize) -> Option<usize> {
        let class_count = u32_at(self.bytes, self.body)? as usize;
        let rows = part_at(self.bytes, self.body, 8)?;
        let entries = part_at(self.bytes, self.body, 12)?;
        let (mut cells, mut end) = (class_count, 0);
        for cell in 0..self.bytes.len() {
            if cell >= cells {
                break;
            }
            let index_end = rows
                .saturating_add(cell.saturating_mul(2))
                .saturating_add(2);
            let index = u16_at(self.bytes, index_end.saturating_sub(2))?;
            let entry = entries.saturating_add(entry_size.saturating_mul(usize::from(index)));
            let states = usize::from(u16_at(self.bytes, entry)?).saturating_add(1);
            cells = cells.max(states.saturating_mul(class_count));
            end = end.max(index_end).max(entry.saturating_add(entry_size));
        }
        Some(end)
    }

    /// Whether a part of it begins behind its end or goes on there, but for lists of glyphs, components and actions.
    fn reaches_past(self, kind: &SubtableKind, lookups: &[usize]) -> bool {
        let (fields, entry_size) = parts_of(kind);
        let cells = entry_size.and_then(|size| self.cells_end(size));
        let goes_past = |end: Option<usize>| end.is_some_and(|end| end > self.end);
        begins_past(self.bytes, self.body, fields, self.end)
            || goes_past(cells)
            || lookups.iter().any(|place| goes_past(lookup_end(
                self.bytes,
                *place,
                self.glyph_count,
            )))
    }
}

/// How many glyphs a list of a machine has, whose place stands in a field: it ends where another part begins, or with the
/// subtable.
fn list_count(extent: Extent<'_>, kind: &SubtableKind, field: usize) -> usize {
    let Some(list) = part_at(extent.bytes, extent.body, field) else {
        return 0;
    };
    let mut end = extent.end;
    let (fields, _) = parts_of(kind);
    for field in fields {
        if let Some(part) = part_at(extent.bytes, extent.body, *field)
            && part > list
            && part < end
        {
            end = part;
        }
    }
    end.saturating_sub(list) / 2
}

/// How many numbers of 16 bits stand from a list on whose place stands in a field, by the length of the subtable.
fn list_size(extent: Extent<'_>, field: usize) -> usize {
    let list = part_at(extent.bytes, extent.body, field).unwrap_or(extent.end);
    extent.end.saturating_sub(list) / 2
}

/// The state and the class of the first entry that goes past what its list has by the length of the subtable: that puts
/// in glyphs from there, or reads actions, components or a ligature there.
fn first_past(
    alloc: Global,
    extent: Extent<'_>,
    kind: &SubtableKind,
) -> Result<Option<(u16, u16)>, AllocError> {
    match kind {
        SubtableKind::Insertion(subtable) => {
            let count = list_size(extent, LIST);
            let rules = subtable.state.to_rules(alloc)?;
            let goes_past = |run: (u16, u16)| {
                let end = usize::from(run.0).saturating_add(usize::from(run.1));
                run.0 != NO_INDEX && run.1 != 0 && end > count
            };
            let first = rules.iter().find(|(_, _, entry)| {
                goes_past(current_run(entry)) || goes_past(marked_run(entry))
            });
            Ok(first.map(|(state, class, _)| (*state, *class)))
        }
        SubtableKind::Ligature(subtable) => {
            let counts = Counts {
                actions: list_size(extent, LIST) / 2,
                components: list_size(extent, COMPONENTS),
                ligatures: list_size(extent, LIGATURES),
            };
            overrunning_cell(alloc, subtable, extent.glyph_count, counts)
        }
        _ => Ok(None),
    }
}

/// Adds the first row of a subtable that does not rise, and that it goes past its length: a part as a whole, or else
/// the first entry that does.
fn check_reach(
    alloc: Global,
    extent: Extent<'_>,
    kind: &SubtableKind,
    place: Place,
    found: &mut Vec<Finding>,
) -> Result<(), AllocError> {
    let lookups = extent.lookups(alloc, kind)?;
    let fallen = lookups.iter().find_map(|lookup| Rows::of_lookup(
        extent.bytes,
        *lookup,
    )?.first_fallen(extent.bytes));
    add_fact(place, fallen, found)?;
    if extent.reaches_past(kind, &lookups) {
        return push_fact(found, place, Fact::ReachesPast);
    }
    let Some((state, class)) = first_past(alloc, extent, kind)? else {
        return Ok(());
    };
    let place = Place {
        state: Some(state),
        class: Some(class),
        ..place
    };
    push_fact(found, place, Fact::ReachesPast)
}

/// Adds what is found in the bytes of a subtable.
fn check_extent(
    alloc: Global,
    extent: Extent<'_>,
    kind: &SubtableKind,
    place: Place,
    found: &mut Vec<Finding>,
) -> Result<(), AllocError> {
    check_reach(alloc, extent, kind, place, found)?;
    let glyph_count = extent.glyph_count;
    match kind {
        SubtableKind::Ligature(subtable) => {
            let count = list_count(extent, kind, LIGATURES);
            check_made(alloc, subtable, count, place, found)?;
            check_list(&subtable.ligatures, count, glyph_count, place, found)
        }
        SubtableKind::Insertion(subtable) => {
            let count = list_count(extent, kind, LIST);
            check_list(&subtable.glyphs, count, glyph_count, place, found)
        }
        _ => Ok(()),
    }
}

/// Adds what is found in the bytes of the subtables of a chain that starts at a place.
fn check_extents(
    alloc: Global,
    bytes: &[u8],
    at: usize,
    chain: &Chain,
    of_chain: Place,
    glyph_count: u32,
    found: &mut Vec<Finding>,
) -> Result<(), AllocError> {
    let settings = chain.features.len().saturating_mul(SETTING);
    let mut at = at.saturating_add(CHAIN_HEADER).saturating_add(settings);
    for (number, subtable) in chain.subtables.iter().enumerate() {
        let Some(length) = u32_at(bytes, at) else {
            return Ok(());
        };
        let end = at.saturating_add(length as usize);
        let extent = Extent {
            bytes,
            body: at.saturating_add(SUBTABLE_HEADER),
            end,
            glyph_count,
        };
        let place = Place {
            subtable: Some(number),
            ..of_chain
        };
        check_extent(alloc, extent, &subtable.kind, place, found)?;
        at = end;
    }
    Ok(())
}

/// Adds what is found in the bytes of `morx`, of which these chains are read, in a font of so many glyphs.
///
/// Apple's TrueType Reference Manual, "The 'morx' table".
pub(crate) fn check_morx_bytes(
    alloc: Global,
    bytes: &[u8],
    chains: &[Chain],
    glyph_count: u32,
    found: &mut Vec<Finding>,
) -> Result<(), AllocError> {
    let mut at = 8usize;
    for (number, chain) in chains.iter().enumerate() {
        let place = Place {
            chain: Some(number),
            ..Place::of_table(MORX)
        };
        check_extents(alloc, bytes, at, chain, place, glyph_count, found)?;
        let Some(length) = u32_at(bytes, at.saturating_add(4)) else {
            return Ok(());
        };
        at = at.saturating_add(length as usize);
    }
    Ok(())
}
