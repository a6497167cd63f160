//! Substitution of long lines, and at the ends of places, states, indexes and lists.

use crate::cases::{ANY, Case, Left, all_cases};
use crate::machines::{font_of, subtable_of};
use aat_layout::buffer::{BufferError, hb_buffer_t, hb_glyph_info_t};
use aat_layout::font::{hb_font_t, hb_ot_shape_plan_t};
use aat_layout::hb_aat_layout_substitute;
use aat_shape::described::drop_font;
use std::alloc::Global;
use std::process::Abort;
use std::test::Fail;

/// The budget of each line, in operations.
const BUDGET: i32 = 16384;

/// The id of the glyph at a place of the line of a case.
fn id_at(case: &Case, place: usize) -> u32 {
    let ids = if place < case.count {
        case.ids
    } else {
        case.others
    };
    let place = if place < case.count {
        place.checked_rem(ids.len()).unwrap_or(0)
    } else {
        place.saturating_sub(case.count)
    };
    ids.get(place).copied().unwrap_or(0)
}

/// The line of a case, in which each glyph has its place as its cluster.
fn line_of(alloc: Global, case: &Case, level: u8) -> Result<hb_buffer_t, BufferError> {
    let mut buffer = hb_buffer_t::new(alloc, 100_000, BUDGET);
    buffer.set_cluster_level(level);
    for place in 0..case.count.saturating_add(case.others.len()) {
        let cluster = (place % 0x1_0000_0000) as u32;
        buffer.add(hb_glyph_info_t::new(id_at(case, place), cluster))?;
    }
    Ok(buffer)
}

/// Substitutes a line, and answers the turns: nothing where that is refused.
fn turns_of(alloc: Global, font: &hb_font_t, buffer: &mut hb_buffer_t) -> Option<u64> {
    let plan = hb_ot_shape_plan_t::new(Vec::new(alloc));
    if !buffer.all_glyphs_16() {
        return None;
    }
    hb_aat_layout_substitute(alloc, &plan, font, buffer).ok()
}

/// Whether the glyph at a place is this, with its cluster counted from another one.
fn is_glyph(buffer: &hb_buffer_t, place: usize, left: Left, from: usize) -> bool {
    if place >= buffer.len() {
        return false;
    }
    let glyph = buffer.info(place);
    let cluster = (left.1 as usize).saturating_add(from);
    glyph.glyph_id == left.0
        && glyph.cluster as usize == cluster
        && (left.2 == ANY || glyph.mask == left.2)
}

/// Whether glyphs stand at a place, with their clusters counted from another one.
fn are_glyphs(buffer: &hb_buffer_t, place: usize, left: &[Left], from: usize) -> bool {
    for (within, left) in left.iter().enumerate() {
        if !is_glyph(buffer, place.saturating_add(within), *left, from) {
            return false;
        }
    }
    true
}

/// Whether a line is what is left of a case.
fn is_left(buffer: &hb_buffer_t, case: &Case) -> bool {
    let turns = case.count.checked_div(case.ids.len()).unwrap_or(0);
    for turn in 0..turns {
        let (place, from) = (
            turn.saturating_mul(case.left.len()),
            turn.saturating_mul(case.ids.len()),
        );
        if !are_glyphs(buffer, place, case.left, from) {
            return false;
        }
    }
    let end = turns.saturating_mul(case.left.len());
    are_glyphs(buffer, end, case.ends, 0) && buffer.len() == end.saturating_add(case.ends.len())
}

/// Whether a case comes out as it says at a level.
fn holds_at(alloc: Global, case: &Case, font: &hb_font_t, level: u8) -> Result<bool, BufferError> {
    let mut buffer = line_of(alloc, case, level)?;
    let turns = turns_of(alloc, font, &mut buffer);
    let is_paid = turns == Some(case.turns) && buffer.max_ops() == BUDGET.wrapping_sub(case.paid);
    Ok(is_paid && is_left(&buffer, case))
}

/// The first level at which a case comes out otherwise than it says.
fn failing_level(alloc: Global, case: &Case, font: &hb_font_t) -> Result<Option<u8>, BufferError> {
    for level in case.levels {
        if !holds_at(alloc, case, font, *level)? {
            return Ok(Some(*level));
        }
    }
    Ok(None)
}

/// Ends the test where a case comes out otherwise.
fn check(rt: &impl Abort, alloc: Global, case: &Case) -> Result<(), Fail> {
    let font = font_of(alloc, subtable_of(alloc, case.kind)?)?;
    let failing = failing_level(alloc, case, &font);
    drop_font(font);
    let failing = failing?;
    assert!(rt; failing.is_none(), "{} at the level {failing:?}", case.name);
    Ok(())
}

/// Ends the test where one of these cases comes out otherwise.
fn check_all(rt: &impl Abort, alloc: Global, cases: &[Case]) -> Result<(), Fail> {
    for case in cases {
        check(rt, alloc, case)?;
    }
    Ok(())
}

#[test]
fn long_lines_and_ends(rt: HostRuntime) -> Result<(), Fail> {
    for cases in all_cases() {
        check_all(&rt, rt.alloc(), cases)?;
    }
    Ok(())
}
