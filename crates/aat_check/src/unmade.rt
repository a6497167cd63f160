//! Ligatures that nothing makes.

use crate::fact::Fact;
use crate::finding::{Finding, Place, push_fact};
use aat_findings::made_ligatures;
use aat_lookup::GlyphId;
use aat_machine_tables::LigatureSubtable;
use std::alloc::{AllocError, Global};

/// The least number below another one that is not among rising ones, and how many such numbers there are.
fn first_gap(numbers: &[usize], end: usize) -> Option<(usize, usize)> {
    let below = numbers.iter().filter(|number| **number < end).count();
    let first = (0..end).find(|number| numbers.get(*number) != Some(number))?;
    Some((first, end.saturating_sub(below)))
}

/// Adds the first ligature of a subtable that no line makes. By its length its list has `count` of them; a last 0, which
/// pads it, does not count.
pub(crate) fn check_made(
    alloc: Global,
    subtable: &LigatureSubtable,
    count: usize,
    place: Place,
    found: &mut Vec<Finding>,
) -> Result<(), AllocError> {
    let Some(made) = made_ligatures(alloc, subtable)? else {
        return Ok(());
    };
    let last = subtable.ligatures.get(count.saturating_sub(1));
    let end = match last {
        Some(GlyphId(0)) => count.saturating_sub(1),
        _ => count,
    };
    let Some((ligature, count)) = first_gap(&made, end) else {
        return Ok(());
    };
    let place = Place {
        glyph: subtable.ligatures.get(ligature).map(|glyph| glyph.0),
        ..place
    };
    push_fact(found, place, Fact::UnmadeLigature { ligature, count })
}
