//! What the values of a list do to the glyphs whose places wait on a stack.
ghost use Rattle.std.specs.Prelude.{◌≡◌, ◌*◌, ◌<◌, ◌≤◌, ◌&&◌, if◌then◌else◌, length, pos};
ghost use Rattle.std.specs.Ordering.{int_eq};
ghost use Rattle.aat_glyph.specs.Directions.{is_horizontal};
ghost use Rattle.aat_kerning_machines.specs.Positions.{IsPlaced, attached_as, cross_offset, on_position, plus, with_advance, with_attachment_flag, with_cross_offset, with_shift};
ghost use Rattle.aat_kerning_machines.specs.Stack.{across, along, ends_list, even, is_odd, popped, with_value_for};
ghost use Rattle.aat_kerning_machines.specs.inside.StackValues.{value_at};
ghost use Rattle.aat_run.specs.inside.Places.{left_with};

use crate::attachment::{meets, note_attachment};
use crate::stack::Stack;
use aat_buffer::{GlyphPosition, hb_buffer_t, hb_mask_t};
use std::alloc::Allocator;

/// The value that takes a glyph back to the line.
const BACK_TO_LINE: i32 = -0x8000;

/// The attach type of a glyph that is not attached.
const UNATTACHED: u8 = 0;

/// The last index that a `kerx` machine may go on to.
const LAST_INDEX: usize = 65535;

/// What the places of a stack are given, and which of them.
#[derive(Clone, Copy)]
pub(crate) struct ValueList<'a> {
    /// The values of the subtable.
    pub values: &'a [i16],
    /// How far apart two values of a list stand, from 1 to 65535.
    pub step: usize,
    /// Whether a missing value ends a list, and one whose next index is above 65535 is missing too. If not, a missing
    /// value is 0.
    pub ends_at_missing: bool,
    /// The bits of a glyph's mask at which it is kerned along the line.
    pub kern_mask: hb_mask_t,
    /// Whether the values are across the line.
    pub is_cross_stream: bool,
}

/// Adds a value to the advance and the offset of a position along the line.
fn move_along(is_horizontal: bool, value: i32, position: &mut GlyphPosition)
    ensures { position.new ≡ with_shift is_horizontal value (with_advance is_horizontal value position.old) }
{
    if is_horizontal {
        position.x_advance = position.x_advance.wrapping_add(value);
        position.x_offset = position.x_offset.wrapping_add(value);
    } else {
        position.y_advance = position.y_advance.wrapping_add(value);
        position.y_offset = position.y_offset.wrapping_add(value);
    }
}

/// Adds a value to the offset of a position across the line.
fn add_across(is_horizontal: bool, value: i32, position: &mut GlyphPosition)
    ensures { position.new
        ≡ with_cross_offset is_horizontal (plus (cross_offset is_horizontal position.old) value) position.old }
{
    if is_horizontal {
        position.y_offset = position.y_offset.wrapping_add(value);
    } else {
        position.x_offset = position.x_offset.wrapping_add(value);
    }
}

/// Takes a position back to the line, attached to no glyph.
fn take_back(is_horizontal: bool, position: &mut GlyphPosition)
    ensures { position.new ≡ with_cross_offset is_horizontal (pos 0) (attached_as 0 (pos 0) position.old) }
{
    position.attach_type = UNATTACHED;
    position.attach_chain = 0;
    if is_horizontal {
        position.y_offset = 0;
    } else {
        position.x_offset = 0;
    }
}

/// Whether the lowest bit of a value is set.
fn is_odd(value: i16) -> bool
    ensures { result ≡ is_odd value }
{
    value.unsigned_abs() % 2 == 1
}

/// A value without its lowest bit.
fn even(value: i16) -> i32
    ensures { result ≡ even value }
{
    if is_odd(value) {
        i32::from(value) - 1
    } else {
        i32::from(value)
    }
}

/// Adds a value to the offset of the glyph at a place across the line, which the buffer notes.
fn move_across<A: Allocator + Copy>(value: i32, place: usize, buffer: &mut hb_buffer_t<A>)
    requires in_line { place < length buffer.old.line }
    requires placed { IsPlaced buffer.old }
    ensures { let h = is_horizontal buffer.old.direction in
        let moved : GlyphPosition → GlyphPosition = λ q. with_cross_offset h (plus (cross_offset h q) value) q in
        buffer.new ≡ with_attachment_flag (on_position moved place buffer.old) }
{
    let is_horizontal = buffer.direction().is_horizontal();
    add_across(is_horizontal, value, buffer.pos_mut(place));
    note_attachment(buffer);
}

/// Gives a value, without its lowest bit, to the glyph at a place, across the line: -0x8000 takes the glyph back to the
/// line, and another value is added to its offset where it is attached, which the buffer notes.
///
/// Apple's TrueType Reference Manual, "The 'kern' table", cross-stream kerning.
fn give_across<A: Allocator + Copy>(value: i16, place: usize, buffer: &mut hb_buffer_t<A>)
    requires in_line { place < length buffer.old.line }
    requires placed { IsPlaced buffer.old }
    ensures { buffer.new ≡ across (even value) place buffer.old }
{
    let even = even(value);
    if even == BACK_TO_LINE {
        let is_horizontal = buffer.direction().is_horizontal();
        take_back(is_horizontal, buffer.pos_mut(place));
    } else if buffer.pos(place).attach_type != UNATTACHED {
        move_across(even, place, buffer);
    }
}

/// Whether a glyph is moved along the line: where it is asked for, and in vertical text only where it has no offset.
fn may_move(is_horizontal: bool, is_asked: bool, y_offset: i32) -> bool
    ensures { result ≡ (if is_horizontal then is_asked else (is_asked && int_eq y_offset (pos 0))) }
{
    is_asked && (is_horizontal || y_offset == 0)
}

/// Gives a value, without its lowest bit, to the glyph at a place, along the line: it is added to the advance and the
/// offset where the glyph's mask meets the kern mask, and in vertical text only where it has no offset yet.
fn give_along<A: Allocator + Copy>(
    kern_mask: hb_mask_t,
    value: i16,
    place: usize,
    buffer: &mut hb_buffer_t<A>,
)
    requires in_line { place < length buffer.old.line }
    requires placed { IsPlaced buffer.old }
    ensures { buffer.new ≡ along kern_mask (even value) place buffer.old }
{
    let is_horizontal = buffer.direction().is_horizontal();
    let is_asked = meets(buffer.info(place).mask, kern_mask);
    let position = buffer.pos_mut(place);
    if may_move(is_horizontal, is_asked, position.y_offset) {
        move_along(is_horizontal, even(value), position);
    }
}

impl<'a> ValueList<'a> {
    /// The value at an index, if there is one.
    fn at(&self, index: usize) -> Option<i16>
        requires index { index ≤ 65535 * 9 }
        requires step { self.now.step ≤ 65535 }
        ensures { result ≡ value_at self.now.ends_at_missing self.now.values.now self.now.step index }
    {
        if self.ends_at_missing && index + self.step > LAST_INDEX {
            return None;
        }
        let value = self.values.get(index).copied();
        if self.ends_at_missing {
            value
        } else {
            Some(value.unwrap_or(0))
        }
    }

    /// Gives a value to the glyph at a place, and tells whether the list ends there. A place at or beyond the length
    /// uses the value up.
    fn give<A: Allocator + Copy>(
        &self,
        value: i16,
        place: usize,
        buffer: &mut hb_buffer_t<A>,
    ) -> bool
        requires placed { IsPlaced buffer.old }
        ensures ends { result ≡ ends_list value place buffer.old }
        ensures given { buffer.new
            ≡ with_value_for self.now.is_cross_stream self.now.kern_mask value place buffer.old }
    {
        if place >= buffer.len() {
            return false;
        }
        if self.is_cross_stream {
            give_across(value, place, buffer);
        } else {
            give_along(self.kern_mask, value, place, buffer);
        }
        is_odd(value)
    }

    /// Gives the places of a stack, from the newest down, the values from an index on. Each place that is asked for is
    /// taken away, and a missing value ends the list. In at most eight steps, and with no memory.
    ///
    /// Apple's TrueType Reference Manual, "The 'kern' table", format 1.
    pub fn give_all<A: Allocator + Copy>(
        &self,
        first: u16,
        stack: &mut Stack,
        buffer: &mut hb_buffer_t<A>,
    )
        requires step { self.now.step ≤ 65535 }
        requires placed { IsPlaced buffer.old }
        ensures { left_with stack.new buffer.new
            ≡ popped self.now.is_cross_stream self.now.kern_mask
            (value_at self.now.ends_at_missing self.now.values.now self.now.step)
            self.now.step stack.old first buffer.old }
    {
        let _count = stack.len();
        let mut index = usize::from(first);
        while let Some(place) = stack.pop() {
            let Some(value) = self.at(index) else {
                return;
            };
            if self.give(value, place, buffer) {
                return;
            }
            index += self.step;
        }
    }
}
