//! Substitution and shaping, with a heap for the map or for the line.

use crate::calls::{Outcome, done_if, refused_if};
use crate::fonts::INSERTED;
use crate::hoard::{Hoard, new_heap};
use crate::requests::liga;
use aat_layout::buffer::{BufferError, hb_buffer_t, hb_glyph_info_t};
use aat_layout::font::{hb_font_t, hb_ot_shape_plan_t};
use aat_layout::{AatError, hb_aat_layout_substitute};
use linked_list_allocator::LocalHeap;
use std::alloc::{AllocError, Allocator, Global};
use std::test::Fail;

/// How many glyphs a line has.
const LINE: usize = 4;

/// How many glyphs go in with one that is there.
const EACH: usize = INSERTED + 1;

/// Substitutes a line, with this memory for the map. A line with a glyph of more than 16 bits is refused as failed.
pub(crate) fn substitute<H: Allocator + Copy, A: Allocator + Copy>(
    memory: H,
    plan: &hb_ot_shape_plan_t,
    font: &hb_font_t,
    buffer: &mut hb_buffer_t<A>,
) -> Result<u64, AatError> {
    if buffer.all_glyphs_16() {
        hb_aat_layout_substitute(memory, plan, font, buffer)
    } else {
        Err(AatError::BufferFailed)
    }
}

/// A line of glyphs 6, of a cluster each, that may have so many.
pub(crate) fn sixes<A: Allocator + Copy>(
    memory: A,
    max_len: usize,
) -> Result<hb_buffer_t<A>, BufferError> {
    let mut buffer = hb_buffer_t::new(memory, max_len.min(1000), 16384);
    for place in 0..LINE {
        buffer.add(hb_glyph_info_t::new(6, place as u32))?;
    }
    Ok(buffer)
}

/// The glyph at a place of the line of which the first so many have theirs behind them: its id and its cluster.
fn glyph_at(place: usize, done: usize) -> (u32, usize) {
    let behind = place.saturating_sub(done.saturating_mul(EACH));
    if place >= done.saturating_mul(EACH) {
        (6, done.saturating_add(behind))
    } else if place % EACH == 0 {
        (6, place / EACH)
    } else {
        (5, place / EACH)
    }
}

/// Whether the line is the one before the run behind the first so many, and how many these are, if it is.
pub(crate) fn runs_in<A: Allocator + Copy>(buffer: &hb_buffer_t<A>) -> Option<usize> {
    let done = buffer.len().saturating_sub(LINE) / INSERTED;
    for place in 0..buffer.len() {
        let glyph = buffer.info(place);
        if (glyph.glyph_id, glyph.cluster as usize) != glyph_at(place, done) {
            return None;
        }
    }
    if buffer.len() == LINE + done.min(LINE) * INSERTED {
        Some(done)
    } else {
        None
    }
}

/// Puts the runs in while the heap of the line is full but for some blocks. A run that is refused leaves the line as it
/// was before that run, with those before it in it, and a buffer that is refused from then on.
fn put_runs<'h>(
    alloc: Global,
    hoard: Hoard<'h>,
    font: &hb_font_t,
    buffer: &mut hb_buffer_t<&'h LocalHeap>,
) -> Outcome {
    let plan = hb_ot_shape_plan_t::new(Vec::new(alloc));
    let answer = substitute(alloc, &plan, font, buffer);
    drop(hoard);
    let runs = runs_in(buffer);
    if answer != Err(AatError::OutOfMemory) {
        return done_if(answer == Ok(5) && buffer.is_successful() && runs == Some(LINE));
    }
    let again = substitute(alloc, &plan, font, buffer);
    let is_left = runs.is_some_and(|runs| runs < LINE) && !buffer.is_successful();
    refused_if(is_left && again == Err(AatError::BufferFailed) && runs_in(buffer) == runs)
}

/// What comes of the runs of an insertion while so many blocks are left of the heap of the line.
pub(crate) fn outcome_of_runs(
    alloc: Global,
    font: &hb_font_t,
    blocks: usize,
) -> Result<Outcome, Fail> {
    let heap = new_heap(alloc)?;
    let mut buffer = sixes(&heap, 1000)?;
    let hoard = Hoard::but(alloc, &heap, blocks)?;
    Ok(put_runs(alloc, hoard, font, &mut buffer))
}

/// Substitutes a line while the heap of the map is full but for some blocks. A refusal leaves the line as it was, and it
/// is substituted again with the memory back.
fn substitute_beside<'h>(
    heap: &'h LocalHeap,
    hoard: Hoard<'h>,
    plan: &hb_ot_shape_plan_t,
    font: &hb_font_t,
    buffer: &mut hb_buffer_t,
) -> Outcome {
    let answer = substitute(heap, plan, font, buffer);
    drop(hoard);
    if answer != Err(AatError::OutOfMemory) {
        return done_if(answer == Ok(2) && buffer.len() == 3 && buffer.max_ops() == 0);
    }
    let is_left = buffer.is_successful() && buffer.len() == 1 && buffer.max_ops() == 2;
    let again = substitute(heap, plan, font, buffer);
    refused_if(is_left && again == Ok(2) && buffer.len() == 3)
}

/// What comes of substitution of a line of one glyph, while so many blocks are left of the heap of the map.
fn outcome_of_plan(
    alloc: Global,
    heap: &LocalHeap,
    plan: &hb_ot_shape_plan_t,
    font: &hb_font_t,
    blocks: usize,
) -> Result<Outcome, Fail> {
    let mut buffer = hb_buffer_t::new(alloc, 100, 2);
    buffer.add(hb_glyph_info_t::new(5, 3))?;
    let hoard = Hoard::but(alloc, heap, blocks)?;
    Ok(substitute_beside(heap, hoard, plan, font, &mut buffer))
}

/// What comes of substitution by row 13 with a request, while so many blocks are left of the heap of the map.
pub(crate) fn outcome_of_map(
    alloc: Global,
    font: &hb_font_t,
    blocks: usize,
) -> Result<Outcome, Fail> {
    let plan = hb_ot_shape_plan_t::new(vec![in alloc; liga(0, 1, 2)]?);
    let heap = new_heap(alloc)?;
    outcome_of_plan(alloc, &heap, &plan, font, blocks)
}
