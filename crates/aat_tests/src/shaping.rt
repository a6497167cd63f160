//! Shaping, with a heap for the map or for the line, and the shaper over a heap.

use crate::calls::{Outcome, done_if, refused_if};
use crate::fonts::INSERTED;
use crate::hoard::{Hoard, new_heap};
use crate::requests::liga;
use aat_layout::buffer::{BufferError, Direction, hb_buffer_t, hb_glyph_info_t};
use aat_layout::font::{hb_font_t, hb_ot_shape_plan_t};
use aat_layout::{AatError, shape};
use aat_shaper::{Shaper, TextGlyph};
use linked_list_allocator::LocalHeap;
use std::alloc::{AllocError, Allocator, Global};
use std::test::Fail;

/// The line of row 38a, whose glyphs ask for kerning by the bit 8.
fn line_of<A: Allocator + Copy>(memory: A) -> Result<hb_buffer_t<A>, BufferError> {
    let mut buffer = hb_buffer_t::new(memory, 100, 16384);
    for id in 10..13u32 {
        buffer.add(hb_glyph_info_t {
            mask: 8,
            ..hb_glyph_info_t::new(id, id - 10)
        })?;
    }
    Ok(buffer)
}

/// The plan of row 38a, with a request.
fn plan_of(alloc: Global) -> Result<hb_ot_shape_plan_t, AllocError> {
    Ok(hb_ot_shape_plan_t {
        requested_kerning: true,
        kern_mask: 8,
        ..hb_ot_shape_plan_t::new(vec![in alloc; liga(1, 7, 9)]?)
    })
}

/// Shapes the line, with this memory for the map. A line with a glyph of more than 16 bits is refused as failed.
fn shaped<H: Allocator + Copy, A: Allocator + Copy>(
    memory: H,
    plan: &hb_ot_shape_plan_t,
    font: &hb_font_t,
    buffer: &mut hb_buffer_t<A>,
) -> Result<u64, AatError> {
    if buffer.all_glyphs_16() {
        shape(memory, plan, font, buffer)
    } else {
        Err(AatError::BufferFailed)
    }
}

/// Whether a line begins with a glyph, has so many, and has positions or has not.
fn is_line<A: Allocator + Copy>(
    buffer: &hb_buffer_t<A>,
    first: u32,
    len: usize,
    has_positions: bool,
) -> bool {
    if buffer.is_empty() || buffer.has_positions() != has_positions {
        return false;
    }
    let is_placed = !has_positions || buffer.pos(0).x_advance == 575;
    buffer.info(0).glyph_id == first && buffer.len() == len && is_placed
}

/// Shapes the line while the heap of the map is full but for some blocks. A refusal leaves the line as it was, and it is
/// shaped again with the memory back.
fn shape_beside<'h>(
    heap: &'h LocalHeap,
    hoard: Hoard<'h>,
    plan: &hb_ot_shape_plan_t,
    font: &hb_font_t,
    buffer: &mut hb_buffer_t,
) -> Outcome {
    let answer = shaped(heap, plan, font, buffer);
    drop(hoard);
    if answer != Err(AatError::OutOfMemory) {
        return done_if(answer == Ok(4) && is_line(buffer, 20, 2, true));
    }
    let is_left = buffer.is_successful() && is_line(buffer, 10, 3, false);
    let again = shaped(heap, plan, font, buffer);
    refused_if(is_left && again == Ok(4) && is_line(buffer, 20, 2, true))
}

/// What comes of shaping the line while so many blocks are left of the heap of the map.
fn outcome_on_heap(
    alloc: Global,
    plan: &hb_ot_shape_plan_t,
    font: &hb_font_t,
    buffer: &mut hb_buffer_t,
    blocks: usize,
) -> Result<Outcome, Fail> {
    let heap = new_heap(alloc)?;
    let hoard = Hoard::but(alloc, &heap, blocks)?;
    Ok(shape_beside(&heap, hoard, plan, font, buffer))
}

/// What comes of shaping row 38a while so many blocks are left of the heap of the map.
pub(crate) fn outcome_beside(
    alloc: Global,
    font: &hb_font_t,
    blocks: usize,
) -> Result<Outcome, Fail> {
    let plan = plan_of(alloc)?;
    let mut buffer = line_of(alloc)?;
    outcome_on_heap(alloc, &plan, font, &mut buffer, blocks)
}

/// Shapes the line while its heap is full but for some blocks. A refusal of its positions leaves it substituted, failed
/// and without them, and it is refused from then on.
fn shape_within<'h>(
    alloc: Global,
    hoard: Hoard<'h>,
    plan: &hb_ot_shape_plan_t,
    font: &hb_font_t,
    buffer: &mut hb_buffer_t<&'h LocalHeap>,
) -> Outcome {
    let answer = shaped(alloc, plan, font, buffer);
    drop(hoard);
    if answer != Err(AatError::OutOfMemory) {
        return done_if(answer == Ok(4) && is_line(buffer, 20, 2, true));
    }
    let is_left = !buffer.is_successful() && is_line(buffer, 20, 3, false);
    let again = shaped(alloc, plan, font, buffer);
    refused_if(is_left && again == Err(AatError::BufferFailed))
}

/// What comes of shaping the line of a heap while so many blocks are left of that.
fn outcome_of_line(
    alloc: Global,
    heap: &LocalHeap,
    plan: &hb_ot_shape_plan_t,
    font: &hb_font_t,
    blocks: usize,
) -> Result<Outcome, Fail> {
    let mut buffer = line_of(heap)?;
    let hoard = Hoard::but(alloc, heap, blocks)?;
    Ok(shape_within(alloc, hoard, plan, font, &mut buffer))
}

/// What comes of shaping row 38a while so many blocks are left of the heap of the line.
pub(crate) fn outcome_within(
    alloc: Global,
    font: &hb_font_t,
    blocks: usize,
) -> Result<Outcome, Fail> {
    let plan = plan_of(alloc)?;
    let heap = new_heap(alloc)?;
    outcome_of_line(alloc, &heap, &plan, font, blocks)
}

/// A text of so many glyphs 6, of a cluster each.
pub(crate) fn text_of_sixes(alloc: Global, count: u32) -> Result<Vec<TextGlyph>, AllocError> {
    let mut text = Vec::new(alloc);
    for cluster in 0..count {
        text.push(TextGlyph::new(6, cluster))?;
    }
    Ok(text)
}

/// Whether the glyphs of a text were drawn last, each with those that go in behind it, and attached to the one before.
fn is_drawn(shaper: &Shaper<&LocalHeap>, count: usize) -> bool {
    let each = INSERTED + 1;
    let glyphs = shaper.glyphs();
    for (place, glyph) in glyphs.iter().enumerate() {
        let id = if place % each == 0 { 6 } else { 5 };
        let is_here = glyph.cluster as usize == place / each && glyph.x_advance == 100;
        let is_attached = match glyph.attached_to {
            Some(before) => before as usize + 1 == place,
            None => place == 0,
        };
        if glyph.glyph_id != id || !is_here || !is_attached {
            return false;
        }
    }
    glyphs.len() == count.saturating_mul(each)
}

/// Shapes a text, and answers whether that was not refused: nothing where what is drawn is wrong, or the refusal is for
/// something else than want of memory, or leaves glyphs.
fn draws(shaper: &mut Shaper<&LocalHeap>, text: &[TextGlyph]) -> Option<bool> {
    match shaper.shape(Direction::LeftToRight, text, &[]) {
        Ok(()) if is_drawn(shaper, text.len()) => Some(true),
        Err(AatError::OutOfMemory) if shaper.glyphs().is_empty() => Some(false),
        _ => None,
    }
}

/// Shapes a text while the heap of a shaper is full but for some blocks. Where it is refused, the text before is shaped
/// over the full heap, and the text with the memory back.
fn draw_beside<'h>(
    hoard: Hoard<'h>,
    shaper: &mut Shaper<'_, &'h LocalHeap>,
    shorter: &[TextGlyph],
    text: &[TextGlyph],
) -> Outcome {
    let answer = draws(shaper, text);
    let is_shorter = shorter.is_empty() || draws(shaper, shorter) == Some(true);
    drop(hoard);
    if answer == Some(true) {
        return done_if(is_shorter);
    }
    let is_done = answer == Some(false) && draws(shaper, text) == Some(true);
    refused_if(is_done && is_shorter)
}

/// What comes of a text while so many blocks are left of the heap of a shaper, which shapes the text before or none.
fn outcome_by<'h>(
    alloc: Global,
    heap: &'h LocalHeap,
    shaper: &mut Shaper<'_, &'h LocalHeap>,
    shorter: &[TextGlyph],
    text: &[TextGlyph],
    blocks: usize,
) -> Result<Outcome, Fail> {
    let is_first = shorter.is_empty() || draws(shaper, shorter) == Some(true);
    let hoard = Hoard::but(alloc, heap, blocks)?;
    let outcome = draw_beside(hoard, shaper, shorter, text);
    Ok(if is_first { outcome } else { Outcome::Wrong })
}

/// What comes of a text while so many blocks are left of the heap of a shaper, which has shaped the text before or none.
fn outcome_behind(
    alloc: Global,
    font: &hb_font_t,
    shorter: &[TextGlyph],
    text: &[TextGlyph],
    blocks: usize,
) -> Result<Outcome, Fail> {
    let heap = new_heap(alloc)?;
    let mut shaper = Shaper::new_in(alloc, &heap, font);
    outcome_by(alloc, &heap, &mut shaper, shorter, text, blocks)
}

/// What comes of a text of so many glyphs behind one of so many others, or none.
pub(crate) fn outcome_of_text(
    alloc: Global,
    font: &hb_font_t,
    before: u32,
    count: u32,
    blocks: usize,
) -> Result<Outcome, Fail> {
    let shorter = text_of_sixes(alloc, before)?;
    let text = text_of_sixes(alloc, count)?;
    outcome_behind(alloc, font, &shorter, &text, blocks)
}
