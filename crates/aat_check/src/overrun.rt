//! Lists of ligature subtables that are read past what they have.

use crate::lines::shown_classes;
use crate::search::Search;
use aat_machine_tables::entry_bits::ligature::{
    LIG_ACTION_LAST, LIG_ACTION_STORE, PERFORM_ACTION, SET_COMPONENT,
};
use aat_machine_tables::{ExtendedStateTable, LigatureSubtable, component_value};
use std::alloc::{AllocError, Global};

/// The most entries with actions that are looked at.
const MOST_ENTRIES: usize = 256;

/// How much of its lists a subtable has.
#[derive(Clone, Copy)]
pub(crate) struct Counts {
    /// How many actions.
    pub(crate) actions: usize,
    /// How many components.
    pub(crate) components: usize,
    /// How many ligatures.
    pub(crate) ligatures: usize,
}

/// The glyphs that a machine holds behind entries of these classes, each with the glyph that shows it: none where an
/// entry but the last one has actions.
fn held_behind(
    alloc: Global,
    table: &ExtendedStateTable<u16>,
    shown: &[Option<u16>],
    classes: &[u16],
) -> Result<Vec<u16>, AllocError> {
    let mut held = Vec::new(alloc);
    let (mut state, mut is_held) = (0, false);
    for (left, class) in (0..classes.len()).rev().zip(classes) {
        let glyph = shown.get(*class as usize).copied().flatten();
        let (Some(entry), Some(glyph)) = (table.entry(state, *class), glyph) else {
            return Ok(Vec::new(alloc));
        };
        if left > 0 && entry.flags & PERFORM_ACTION != 0 {
            return Ok(Vec::new(alloc));
        }
        let holds = entry.flags & SET_COMPONENT != 0;
        // a glyph that is held is not held twice
        if holds && !is_held {
            held.push(glyph)?;
        }
        is_held = (holds || is_held) && !entry.has_advance();
        state = entry.new_state;
    }
    Ok(held)
}

/// Whether the actions from a place on read a component or a ligature past the counts, where these glyphs are held.
fn is_past(subtable: &LigatureSubtable, counts: Counts, held: &[u16], first: u16) -> bool {
    let components = subtable.components.as_slice();
    let (counted, _) = components.split_at(counts.components.min(components.len()));
    let actions = subtable.ligature_actions.iter().skip(usize::from(first));
    let mut sum = 0usize;
    for (action, glyph) in actions.zip(held.iter().rev()) {
        let Some(value) = component_value(counted, *action, u32::from(*glyph)) else {
            // a place before the first is read of no list
            let place = (*action & 0x1FFF_FFFF) as usize + usize::from(*glyph);
            let index = match *action & 0x2000_0000 {
                0 => Some(place),
                _ => place.checked_sub(0x2000_0000),
            };
            return index.is_some_and(|index| index >= counts.components);
        };
        sum = sum.saturating_add(usize::from(value));
        if action & (LIG_ACTION_STORE | LIG_ACTION_LAST) != 0 && sum >= counts.ligatures {
            return true;
        }
        if action & LIG_ACTION_LAST != 0 {
            return false;
        }
    }
    false
}

/// The state and the class of the first entry that has no last action within the counts; or else whose actions read a
/// component or a ligature past them, by a shortest line that comes to it, of at most 256 entries with actions.
pub(crate) fn overrunning_cell(
    alloc: Global,
    subtable: &LigatureSubtable,
    glyph_count: u32,
    counts: Counts,
) -> Result<Option<(u16, u16)>, AllocError> {
    let table = &subtable.state;
    let actions = subtable.ligature_actions.as_slice();
    let (counted, _) = actions.split_at(counts.actions.min(actions.len()));
    let behind_last = counted
        .iter()
        .rev()
        .take_while(|action| **action & LIG_ACTION_LAST == 0);
    let ended = counted.len().saturating_sub(behind_last.count());
    let rules = table.to_rules(alloc)?;
    let first = rules.iter().find(|(_, _, entry)| {
        entry.flags & PERFORM_ACTION != 0 && usize::from(entry.extra) >= ended
    });
    if let Some((state, class, _)) = first {
        return Ok(Some((*state, *class)));
    }
    let shown = shown_classes(alloc, table, &[], 0, glyph_count)?;
    let search = Search::everywhere(alloc, table, &shown, None)?;
    let acting = rules
        .iter()
        .filter(|rule| rule.2.flags & PERFORM_ACTION != 0);
    for (state, class, entry) in acting.take(MOST_ENTRIES) {
        if let Some(mut way) = search.way_to(alloc, table, (*state, *class))? {
            way.taken.push(*class)?;
            let held = held_behind(alloc, table, &shown, &way.taken)?;
            if is_past(subtable, counts, &held, entry.extra) {
                return Ok(Some((*state, *class)));
            }
        }
    }
    Ok(None)
}
