//! A text in lines, with a heap for the shaper and for the lines.

use crate::calls::{Outcome, refused_if};
use crate::hoard::{Hoard, new_heap};
use aat_layout::AatError;
use aat_layout::buffer::Direction;
use aat_layout::font::hb_font_t;
use aat_shaper::{LineStop, Shaper, TextGlyph, TextLines};
use linked_list_allocator::LocalHeap;
use std::alloc::{Allocator, Global};
use std::test::Fail;

/// The ids and clusters of the text. It may be broken between any two glyphs but 1 and 2, which are kerned.
const TEXT: [(u16, u32); 5] = [(1, 0), (2, 1), (1, 2), (2, 3), (2, 4)];

/// Where its lines may end: at a place where it may be broken, and at one where it may not.
const STOPS: [usize; 2] = [2, 3];

/// The greatest width of a line.
const WIDTH: u64 = 200;

/// Where the lines end, and the advances of their glyphs. The first line is a slice of the whole text. Both others are
/// shaped by themselves.
const ENDS: [usize; 3] = [2, 3, 5];

const ADVANCES: [i32; 5] = [95, 95, 100, 100, 100];

/// How often the text or a part of it is shaped: the whole, what is before the second stop, which is too wide, and the
/// second and the third line.
const SHAPED: usize = 4;

/// Whether lines are those of the text.
fn are_lines<A: Allocator>(lines: &TextLines<A>) -> bool {
    let ends = lines.lines.iter().map(|line| line.text_end);
    let advances = lines.glyphs.iter().map(|glyph| glyph.x_advance);
    ends.eq(ENDS) && advances.eq(ADVANCES) && lines.shaped == SHAPED
}

/// Fills the text into lines, and answers whether that was not refused: nothing where the lines are wrong, or the
/// refusal is for something else than want of memory, or leaves glyphs.
fn fills<'h>(
    alloc: Global,
    heap: &'h LocalHeap,
    shaper: &mut Shaper<'_, &'h LocalHeap>,
) -> Option<bool> {
    let text = TEXT.map(|(id, cluster)| TextGlyph::new(id, cluster));
    let stops = STOPS.map(|place| LineStop {
        place,
        hang: None,
        is_forced: false,
    });
    let ltr = Direction::LeftToRight;
    match &shaper.shape_lines(alloc, heap, ltr, &text, &[], &stops, false, WIDTH) {
        Ok(lines) if are_lines(lines) => Some(true),
        Err(AatError::OutOfMemory) if shaper.glyphs().is_empty() => Some(false),
        _ => None,
    }
}

/// Fills the text into lines while the heap is full but for some blocks. Where they are refused, they are filled with the
/// memory back.
fn fill_beside<'h>(
    alloc: Global,
    heap: &'h LocalHeap,
    hoard: Hoard<'h>,
    shaper: &mut Shaper<'_, &'h LocalHeap>,
) -> Outcome {
    let answer = fills(alloc, heap, shaper);
    drop(hoard);
    if answer == Some(true) {
        return Outcome::Done;
    }
    refused_if(answer == Some(false) && fills(alloc, heap, shaper) == Some(true))
}

/// What comes of lines while so many blocks are left of the heap of a shaper, which fills them before or does not.
fn outcome_behind<'h>(
    alloc: Global,
    heap: &'h LocalHeap,
    shaper: &mut Shaper<'_, &'h LocalHeap>,
    is_again: bool,
    blocks: usize,
) -> Result<Outcome, Fail> {
    if is_again && fills(alloc, heap, shaper) != Some(true) {
        return Ok(Outcome::Wrong);
    }
    let hoard = Hoard::but(alloc, heap, blocks)?;
    Ok(fill_beside(alloc, heap, hoard, shaper))
}

/// What comes of lines while so many blocks are left of the heap of a shaper, which has filled them before or not.
pub(crate) fn outcome_of_lines(
    alloc: Global,
    font: &hb_font_t,
    is_again: bool,
    blocks: usize,
) -> Result<Outcome, Fail> {
    let heap = new_heap(alloc)?;
    let mut shaper = Shaper::new_in(alloc, &heap, font);
    outcome_behind(alloc, &heap, &mut shaper, is_again, blocks)
}
