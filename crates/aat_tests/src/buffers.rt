//! The calls of a buffer, over a heap.

use crate::calls::{Outcome, done_if, refused_if};
use crate::hoard::{Hoard, new_heap};
use aat_layout::buffer::{BufferError, hb_buffer_t, hb_glyph_info_t};
use linked_list_allocator::LocalHeap;
use std::alloc::Global;
use std::test::Fail;

/// How often a call is made: the line grows several times meanwhile.
const TIMES: usize = 20;

/// A line over a heap.
type Line<'h> = hb_buffer_t<&'h LocalHeap>;

/// A call of a buffer.
#[derive(Clone, Copy)]
pub(crate) enum Growth {
    Add,
    Copy,
    Output,
    Insert,
    InsertAt,
    Positions,
}

/// Makes a call. A cursor at the end is told as a line that is too long.
fn make(buffer: &mut Line, growth: Growth) -> Result<(), BufferError> {
    let nine = hb_glyph_info_t::new(9, 99);
    match growth {
        Growth::Add => buffer.add(nine),
        Growth::Copy if buffer.backtrack_len() < buffer.len() => buffer.copy_glyph(),
        Growth::Copy => Err(BufferError::TooLong),
        Growth::Output => buffer.output_glyph(6),
        Growth::Insert => buffer.insert_glyphs(&[nine]),
        Growth::InsertAt => buffer.insert_glyphs_at(0, &[nine]),
        Growth::Positions => buffer.clear_positions(),
    }
}

/// Makes a call so many times.
fn repeat(buffer: &mut Line, growth: Growth, times: usize) -> Result<(), BufferError> {
    for _ in 0..times {
        make(buffer, growth)?;
    }
    Ok(())
}

/// Whether a line is what all calls leave.
fn is_grown(buffer: &Line, growth: Growth) -> bool {
    let is_placed = matches!(growth, Growth::Positions);
    let len = if is_placed { 2 } else { 2 + TIMES };
    buffer.len() == len && buffer.has_positions() == is_placed
}

/// Makes a call many times while the heap of a line is full but for some blocks, and the rest of them with memory where
/// one was refused: then the line has failed, and has what the calls before it put in.
fn grow_beside<'h>(hoard: Hoard<'h>, growth: Growth, buffer: &mut Line<'h>) -> Outcome {
    let answer = repeat(buffer, growth, TIMES);
    let is_successful = buffer.is_successful();
    if !hoard.give_back() || answer != Err(BufferError::OutOfMemory) {
        return done_if(answer == Ok(()) && is_successful && is_grown(buffer, growth));
    }
    let rest = (2 + TIMES).saturating_sub(buffer.len());
    let is_done = repeat(buffer, growth, rest) == Ok(());
    refused_if(is_done && !is_successful && is_grown(buffer, growth))
}

/// What comes of a call while so many blocks are left of the heap of a line, with the cursor at the second of two glyphs.
pub(crate) fn outcome_of_growth(
    alloc: Global,
    growth: Growth,
    blocks: usize,
) -> Result<Outcome, Fail> {
    let heap = new_heap(alloc)?;
    let mut buffer = hb_buffer_t::new(&heap, 100, 0);
    repeat(&mut buffer, Growth::Add, 2)?;
    buffer.move_to(1.min(buffer.len()));
    let hoard = Hoard::but(alloc, &heap, blocks)?;
    Ok(grow_beside(hoard, growth, &mut buffer))
}
