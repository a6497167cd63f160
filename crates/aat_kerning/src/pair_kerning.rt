//! Kerning by pairs of glyphs, in one pass from the first glyph to the last.
ghost use Rattle.std.specs.Prelude.{◌≡◌, ◌+◌, ◌-ℤ◌, ◌<◌, ◌≤◌, length, IfSome};
ghost use Rattle.aat_buffer.specs.Buffer.{glyph_at};
ghost use Rattle.aat_buffer.specs.Clusters.{IsSmall};
ghost use Rattle.aat_glyph.specs.Directions.{is_horizontal};
ghost use Rattle.aat_run.specs.Switches.{meets};
ghost use Rattle.aat_kerning.specs.PairKerning.{half, in_stream, kerned, pair_kerning};
ghost use Rattle.aat_kerning.specs.Pairs.{is_solid};
ghost use Rattle.aat_kerning_machines.specs.Positions.{IsPlaced, on_position, with_advance, with_attachment_flag, with_cross_offset, with_shift};
ghost use Rattle.aat_kerning.specs.Values.{values_of};
ghost use Rattle.aat_kerning.specs.inside.Walk.{kerned_where, left_behind, pair_with};

use crate::pair_values::{PairValues, value_of};
use crate::solid::is_solid;
use aat_buffer::{GlyphPosition, hb_buffer_t, hb_mask_t};
use aat_kerning_machines::{meets, note_attachment};
use std::alloc::Allocator;

/// What kerning by the pairs of a subtable is given besides the line.
#[derive(Clone, Copy)]
pub struct PairRun<'a> {
    /// The values of the pairs.
    pub values: PairValues<'a>,
    /// The glyph properties that are skipped.
    pub skips: u16,
    /// The bits of a glyph's mask at which it is kerned.
    pub kern_mask: hb_mask_t,
    /// Whether the values are across the line.
    pub is_cross_stream: bool,
}

/// A position with a value more in its advance along the line.
fn with_advance(is_horizontal: bool, value: i32, position: GlyphPosition) -> GlyphPosition
    ensures { result ≡ with_advance is_horizontal value position }
{
    if is_horizontal {
        GlyphPosition {
            x_advance: position.x_advance.wrapping_add(value),
            ..position
        }
    } else {
        GlyphPosition {
            y_advance: position.y_advance.wrapping_add(value),
            ..position
        }
    }
}

/// A position with a value more in its offset along the line.
fn with_shift(is_horizontal: bool, value: i32, position: GlyphPosition) -> GlyphPosition
    ensures { result ≡ with_shift is_horizontal value position }
{
    if is_horizontal {
        GlyphPosition {
            x_offset: position.x_offset.wrapping_add(value),
            ..position
        }
    } else {
        GlyphPosition {
            y_offset: position.y_offset.wrapping_add(value),
            ..position
        }
    }
}

/// A position with a value as its offset across the line.
fn with_cross_offset(is_horizontal: bool, value: i32, position: GlyphPosition) -> GlyphPosition
    ensures { result ≡ with_cross_offset is_horizontal value position }
{
    if is_horizontal {
        GlyphPosition {
            y_offset: value,
            ..position
        }
    } else {
        GlyphPosition {
            x_offset: value,
            ..position
        }
    }
}

/// The half of a value, rounded down.
fn half_of(value: i16) -> i32
    ensures { result ≡ half value }
{
    value as i32 >> 1
}

/// A value without its half.
fn rest_of(value: i16) -> i32
    ensures { result ≡ value -ℤ half value }
{
    value as i32 - half_of(value)
}

/// Gives half of a value, rounded down, to the advance of the left glyph, and the rest to the advance and the offset of
/// the right one.
fn kern_in_stream<A: Allocator + Copy>(
    left: usize,
    right: usize,
    value: i16,
    buffer: &mut hb_buffer_t<A>,
)
    requires ordered { left < right }
    requires in_line { right < length buffer.old.line }
    requires placed { IsPlaced buffer.old }
    ensures { buffer.new ≡ in_stream (record { left = left; right = right }) value buffer.old }
{
    let is_horizontal = buffer.direction().is_horizontal();
    let half = half_of(value);
    let rest = rest_of(value);
    let position = buffer.pos_mut(left);
    *position = with_advance(is_horizontal, half, *position);
    let position = buffer.pos_mut(right);
    *position = with_shift(
        is_horizontal,
        rest,
        with_advance(is_horizontal, rest, *position),
    );
}

/// Makes a value the offset of the right glyph across the line, and notes in the buffer that glyphs are attached.
fn kern_across<A: Allocator + Copy>(right: usize, value: i16, buffer: &mut hb_buffer_t<A>)
    requires in_line { right < length buffer.old.line }
    requires placed { IsPlaced buffer.old }
    ensures { buffer.new ≡ with_attachment_flag
        (on_position (with_cross_offset (is_horizontal buffer.old.direction) value) right buffer.old) }
{
    let is_horizontal = buffer.direction().is_horizontal();
    let position = buffer.pos_mut(right);
    *position = with_cross_offset(is_horizontal, value as i32, *position);
    note_attachment(buffer);
}

/// Kerns a pair, and marks it, where its value is not 0.
#[tactic(auto, unfolding(crate::specs::PairKerning::kerned))]
fn kern_pair<A: Allocator + Copy>(
    run: &PairRun,
    left: usize,
    right: usize,
    buffer: &mut hb_buffer_t<A>,
)
    requires ids { IsSmall buffer.old }
    requires ordered { left < right }
    requires in_line { right < length buffer.old.line }
    requires placed { IsPlaced buffer.old }
    ensures { buffer.new
        ≡ kerned run.now.is_cross_stream (values_of run.now.values) (record { left = left; right = right }) buffer.old }
{
    let _length = buffer.len();
    let value = value_of(
        run.values,
        buffer.info(left).glyph_id,
        buffer.info(right).glyph_id,
    );
    if value == 0 {
        return;
    }
    if run.is_cross_stream {
        kern_across(right, value, buffer);
    } else {
        kern_in_stream(left, right, value, buffer);
    }
    buffer.unsafe_to_break(Some(left), Some(right + 1));
}

/// Kerns the pair whose right glyph stands at a place, where `left` is the left glyph of such a pair, and answers the
/// left glyph of the pairs behind that place.
fn kern_at<A: Allocator + Copy>(
    run: &PairRun,
    left: Option<usize>,
    place: usize,
    buffer: &mut hb_buffer_t<A>,
) -> Option<usize>
    requires ids { IsSmall buffer.old }
    requires ordered { IfSome left (λ i. i < place) }
    requires in_line { place < length buffer.old.line }
    requires placed { IsPlaced buffer.old }
    ensures left { result ≡ left_behind (is_solid run.now.skips (glyph_at buffer.old.line place))
        (meets (glyph_at buffer.old.line place).mask run.now.kern_mask) place left }
    ensures kerned { buffer.new ≡ kerned_where run.now.is_cross_stream (values_of run.now.values)
        (pair_with (is_solid run.now.skips (glyph_at buffer.old.line place))
        (meets (glyph_at buffer.old.line place).mask run.now.kern_mask) place left) buffer.old }
{
    let glyph = *buffer.info(place);
    let is_asked = meets(glyph.mask, run.kern_mask);
    let own = is_asked.then_some(place);
    if !is_solid(&glyph, run.skips) {
        return left.or(own);
    }
    if is_asked {
        if let Some(left) = left {
            kern_pair(run, left, place, buffer);
        }
    }
    own
}

/// Kerns the pairs of a line: each solid glyph whose mask meets the kern mask, with the first glyph before it whose
/// mask meets it too, from the last solid one on. In as many steps as the line is long, a search of the pairs for
/// each pair of the line, and the marks.
///
/// It takes no memory and cannot be refused. It stands apart from the machines, so that both stay short.
#[inline(never)]
pub(crate) fn kern_pairs<A: Allocator + Copy>(run: &PairRun, buffer: &mut hb_buffer_t<A>)
    requires ids { IsSmall buffer.old }
    requires placed { IsPlaced buffer.old }
    ensures kerned { buffer.new
        ≡ pair_kerning run.now.skips run.now.kern_mask run.now.is_cross_stream (values_of run.now.values) buffer.old }
    ensures ids { IsSmall buffer.new }
    ensures placed { IsPlaced buffer.new }
{
    let mut left = None;
    for place in 0..buffer.len() {
        left = kern_at(run, left, place, buffer);
    }
}
