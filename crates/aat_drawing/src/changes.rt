//! Which subtable changed each glyph of a line.

use aat_layout::buffer::Direction;
use aat_shaper::ShapedGlyph;
use aat_trace::{Trace, TracedAct, TracedSubtable};
use std::alloc::{AllocError, Global};

/// The number of the subtable that changed a glyph last, if one did.
type Change = Option<usize>;

/// The id of a deleted glyph.
const DELETED: u32 = 0xFFFF;

/// What an act that keeps the number of glyphs makes of their changes: those whose ids it changed are the subtable's.
fn replace(changes: &mut [Change], act: &TracedAct, number: usize) {
    for (change, (taken, put)) in changes.iter_mut().zip(act.taken.iter().zip(&act.put)) {
        if taken != put {
            *change = Some(number);
        }
    }
}

/// What an act of a subtable makes of the changes of a line.
fn change(
    alloc: Global,
    changes: &mut Vec<Change>,
    act: &TracedAct,
    number: usize,
) -> Result<(), AllocError> {
    let place = act.place.min(changes.len());
    let end = place.saturating_add(act.taken.len()).min(changes.len());
    if act.put.len() == act.taken.len() {
        replace(&mut changes[place..end], act, number);
        return Ok(());
    }
    let mut after = Vec::new(alloc);
    after.extend_from_slice(&changes[..place])?;
    after.resize(place.saturating_add(act.put.len()), Some(number))?;
    after.extend_from_slice(&changes[end..])?;
    *changes = after;
    Ok(())
}

/// What a subtable makes of the changes of a line.
fn change_by(
    alloc: Global,
    changes: &mut Vec<Change>,
    subtable: &TracedSubtable,
    number: usize,
) -> Result<(), AllocError> {
    if subtable.is_reversed {
        changes.reverse();
    }
    for act in &subtable.acts {
        change(alloc, changes, act, number)?;
    }
    if subtable.is_reversed {
        changes.reverse();
    }
    Ok(())
}

/// Which subtable changed each glyph of the line that a trace leaves last, if one did: its number among all that are
/// told, from 0. None is told where the trace is incomplete.
fn changed_by(alloc: Global, trace: &Trace) -> Result<Vec<Change>, AllocError> {
    let mut changes = Vec::new(alloc);
    let Some(first) = trace.subtables.first() else {
        return Ok(changes);
    };
    changes.resize(first.before.len(), None)?;
    if trace.is_incomplete {
        return Ok(changes);
    }
    for (number, subtable) in trace.subtables.iter().enumerate() {
        change_by(alloc, &mut changes, subtable, number)?;
    }
    Ok(changes)
}

/// The changes of the glyphs that a trace leaves, without deleted ones, in drawing order.
fn kept_changes(
    alloc: Global,
    trace: &Trace,
    direction: Direction,
) -> Result<Vec<Change>, AllocError> {
    let mut kept = Vec::new(alloc);
    let Some(last) = trace.subtables.last() else {
        return Ok(kept);
    };
    let changes = changed_by(alloc, trace)?;
    for (glyph, change) in last.after.iter().zip(&changes) {
        if glyph.glyph_id != DELETED {
            kept.push(*change)?;
        }
    }
    if !direction.is_forward() {
        kept.reverse();
    }
    Ok(kept)
}

/// Which subtable changed each glyph that is drawn. `shaped` is what the shaper drew of the line that was traced, and
/// `drawn` what is left of it where ignorable glyphs are hidden: all of it, or what is not taken out.
///
/// Where the trace leaves another number of glyphs than `shaped` has, nothing is told.
pub fn drawn_changes(
    alloc: Global,
    trace: &Trace,
    direction: Direction,
    shaped: &[ShapedGlyph],
    drawn: &[ShapedGlyph],
) -> Result<Vec<Option<usize>>, AllocError> {
    let kept = kept_changes(alloc, trace, direction)?;
    if kept.len() != shaped.len() {
        return Ok(Vec::new(alloc));
    }
    if drawn.len() == shaped.len() {
        return Ok(kept);
    }
    let mut changes = Vec::new(alloc);
    for (glyph, change) in shaped.iter().zip(&kept) {
        if !glyph.is_ignorable {
            changes.push(*change)?;
        }
    }
    Ok(changes)
}
