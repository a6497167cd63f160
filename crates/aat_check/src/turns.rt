//! Contextual machines that stay at a glyph and change it.

use crate::lines::shown_classes;
use crate::search::Search;
use aat_findings::{stays, taken_as};
use aat_lookup::GlyphId;
use aat_machine_tables::entry_bits::{DONT_ADVANCE, NO_INDEX};
use aat_machine_tables::{ContextualSubtable, SubtableKind};
use std::alloc::{AllocError, Global};

/// How many turns are followed: as many as the budget of a short text has.
const MOST_TURNS: usize = 16384;

/// The state in which a machine goes on at a glyph, and what the glyph has become. None where it advances, or its entry is
/// one that replaces the marked glyph, which may be this one.
fn next_turn(subtable: &ContextualSubtable, state: u16, glyph: u16) -> Option<(u16, u16)> {
    let class = taken_as(&subtable.state, GlyphId(glyph));
    let entry = subtable.state.entry(state, class)?;
    if entry.flags & DONT_ADVANCE == 0 || entry.extra.mark_index != NO_INDEX {
        return None;
    }
    if entry.extra.current_index == NO_INDEX {
        return Some((entry.new_state, glyph));
    }
    let lookup = subtable.lookups.get(entry.extra.current_index as usize);
    let value = lookup.and_then(|lookup| lookup.value(GlyphId(glyph)));
    Some((entry.new_state, value.unwrap_or(glyph)))
}

/// Whether a machine that comes to a state at the glyph that shows a class stays there until the budget of a short text is
/// used up.
fn keeps_on(subtable: &ContextualSubtable, shown: &[Option<u16>], cell: (u16, u16)) -> bool {
    let Some(mut glyph) = shown.get(cell.1 as usize).copied().flatten() else {
        return false;
    };
    let mut state = cell.0;
    for _turn in 0..MOST_TURNS {
        match next_turn(subtable, state, glyph) {
            Some(next) => (state, glyph) = next,
            None => return false,
        }
    }
    true
}

/// A state and a class at which a contextual machine stays, at the least glyph of the class, whatever it does to it: one
/// of those that are noted, to which a shortest line leads, where entries of one class lead back, and else where entries
/// of the classes do that the glyph comes to.
pub(crate) fn turning_of(
    alloc: Global,
    kind: &SubtableKind,
    glyph_count: u32,
) -> Result<Option<(u16, u16)>, AllocError> {
    let SubtableKind::Contextual(subtable) = kind else {
        return Ok(None);
    };
    let first = stays(alloc, &subtable.state)?;
    let shown = shown_classes(alloc, &subtable.state, &[], 0, glyph_count)?;
    let search = Search::everywhere(alloc, &subtable.state, &shown, None)?;
    let mut cells = search
        .staying
        .iter()
        .copied()
        .chain(first)
        .chain(search.waiting.iter().copied());
    Ok(cells.find(|cell| keeps_on(subtable, &shown, *cell)))
}
