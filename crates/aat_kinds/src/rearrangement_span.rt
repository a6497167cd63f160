//! A span of a line that is moved as a verb says: its ends change their places, and what is between them makes room.
ghost use Rattle.std.specs.Prelude.{◌≡◌, ◌+◌, ◌-◌, ◌≤◌, [], ◌∷◌, length, slice_range, take};
ghost use Rattle.aat_buffer.specs.Marks.{on_line_span};
ghost use Rattle.aat_glyph.specs.declared.glyph.hb_glyph_info_t.{hb_glyph_info_t};
ghost use Rattle.aat_kinds.specs.Rearrangement.{in_its_order, rearranged, size_of};

use crate::verb::{Part, Verb};
use aat_buffer::{hb_buffer_t, hb_glyph_info_t};
use std::alloc::Allocator;

/// The glyphs of a part of a span, from place `start` up to place `end` of a line. Those that the part has not are any.
fn copied_part<A: Allocator + Copy>(
    part: Part,
    buffer: &hb_buffer_t<A>,
    start: usize,
    end: usize,
) -> (hb_glyph_info_t, hb_glyph_info_t)
    requires fit { start + size_of part ≡ end }
    requires in_line { end ≤ length buffer.now.line }
    ensures { take (size_of part) (result.0 ∷ result.1 ∷ []) ≡ slice_range buffer.now.line start end }
{
    match part {
        Part::Nothing => (hb_glyph_info_t::default(), hb_glyph_info_t::default()),
        Part::One => (*buffer.info(start), hb_glyph_info_t::default()),
        Part::Two | Part::TwoTurned => (*buffer.info(start), *buffer.info(end - 1)),
    }
}

/// Puts the glyphs of a part of a span in place of those of a line from place `start` up to place `end`.
fn put_part<A: Allocator + Copy>(
    part: Part,
    buffer: &mut hb_buffer_t<A>,
    start: usize,
    end: usize,
    glyphs: (hb_glyph_info_t, hb_glyph_info_t),
)
    requires fit { start + size_of part ≡ end }
    requires in_line { end ≤ length buffer.old.line }
    ensures after { buffer.new ≡
        on_line_span (λ _. in_its_order {X = hb_glyph_info_t} part (take (size_of part) (glyphs.0 ∷ glyphs.1 ∷ [])))
        start end buffer.old }
    ensures count { length buffer.new.line ≡ length buffer.old.line }
{
    match part {
        Part::Nothing => {}
        Part::One => *buffer.info_mut(start) = glyphs.0,
        Part::Two => {
            *buffer.info_mut(start) = glyphs.0;
            *buffer.info_mut(end - 1) = glyphs.1;
        }
        Part::TwoTurned => {
            *buffer.info_mut(start) = glyphs.1;
            *buffer.info_mut(end - 1) = glyphs.0;
        }
    }
}

/// Moves the glyphs from place `start` up to place `end` to the left by so many places.
fn move_left<A: Allocator + Copy>(buffer: &mut hb_buffer_t<A>, start: usize, end: usize, by: usize)
    requires room { by ≤ start }
    requires ordered { start ≤ end }
    requires in_line { end ≤ length buffer.old.line }
    ensures after { buffer.new ≡
        on_line_span (λ _. slice_range buffer.old.line start end) (start - by) (end - by) buffer.old }
    ensures count { length buffer.new.line ≡ length buffer.old.line }
{
    for i in start..end {
        let glyph = *buffer.info(i);
        *buffer.info_mut(i - by) = glyph;
    }
}

/// Moves glyphs to the right by so many places, to those from place `start` up to place `end`.
fn move_right<A: Allocator + Copy>(buffer: &mut hb_buffer_t<A>, start: usize, end: usize, by: usize)
    requires room { by ≤ start }
    requires ordered { start ≤ end }
    requires in_line { end ≤ length buffer.old.line }
    ensures after { buffer.new ≡
        on_line_span (λ _. slice_range buffer.old.line (start - by) (end - by)) start end buffer.old }
    ensures count { length buffer.new.line ≡ length buffer.old.line }
{
    for moved in 0..end - start {
        let i = end - 1 - moved;
        let glyph = *buffer.info(i - by);
        *buffer.info_mut(i) = glyph;
    }
}

/// Moves what stands between the ends of a span, of so many glyphs, as far as the ends change their places.
fn move_middle<A: Allocator + Copy>(
    buffer: &mut hb_buffer_t<A>,
    start: usize,
    end: usize,
    left: usize,
    right: usize,
)
    requires room { left + right ≤ end - start }
    requires ordered { start ≤ end }
    requires in_line { end ≤ length buffer.old.line }
    ensures after { buffer.new ≡
        on_line_span (λ _. slice_range buffer.old.line (start + left) (end - right)) (start + right) (end - left)
        buffer.old }
    ensures count { length buffer.new.line ≡ length buffer.old.line }
{
    if right < left {
        move_left(buffer, start + left, end - right, left - right);
        return;
    }
    if left < right {
        move_right(buffer, start + right, end - left, right - left);
    }
}

/// Moves the span from place `start` up to place `end` as a verb says. In as many steps as the span is long, and in a
/// bounded number where the verb takes as many glyphs from its front as from its back.
pub(crate) fn move_span<A: Allocator + Copy>(
    verb: Verb,
    buffer: &mut hb_buffer_t<A>,
    start: usize,
    end: usize,
)
    requires room { size_of verb.front + size_of verb.back ≤ end - start }
    requires ordered { start ≤ end }
    requires in_line { end ≤ length buffer.old.line }
    ensures after { buffer.new ≡ on_line_span (rearranged verb) start end buffer.old }
    ensures count { length buffer.new.line ≡ length buffer.old.line }
{
    let left = verb.front.size();
    let right = verb.back.size();
    let front = copied_part(verb.front, buffer, start, start + left);
    let back = copied_part(verb.back, buffer, end - right, end);
    move_middle(buffer, start, end, left, right);
    put_part(verb.back, buffer, start, start + right, back);
    put_part(verb.front, buffer, end - left, end, front);
}
