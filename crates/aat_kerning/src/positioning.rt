//! What the subtables of both kerning tables have in common.
ghost use Rattle.std.specs.Prelude.{◌≡◌, ◌&&◌, ◌||◌, if◌then◌else◌, negsuc, not, pos};
ghost use Rattle.aat_buffer.specs.Clusters.{IsSmall};
ghost use Rattle.aat_glyph.specs.Directions.{is_backward, is_horizontal};
ghost use Rattle.aat_lookup.specs.Truth.{is_alike};
ghost use Rattle.aat_kerning.specs.PairKerning.{pair_kerning};
ghost use Rattle.aat_kerning.specs.Positioning.{cursively_attached, in_processing_order, line_marked, turned_round};
ghost use Rattle.aat_kerning_machines.specs.Positions.{IsPlaced, attached_as};
ghost use Rattle.aat_kerning.specs.Values.{values_of};

use crate::pair_kerning::{PairRun, kern_pairs};
use aat_buffer::{Direction, GlyphPosition, hb_buffer_t};
use std::alloc::Allocator;

/// The attach type of a glyph that is attached cursively.
const CURSIVE: u8 = 2;

/// Whether a subtable is for a text: it is not variable, and of the text's orientation.
pub(crate) fn is_for_text(horizontal: bool, variable: bool, direction: Direction) -> bool
    ensures { result ≡ (not variable && is_alike horizontal (is_horizontal direction)) }
{
    !variable && horizontal == direction.is_horizontal()
}

/// Whether a subtable that is for a text is left out: one of pairs is, where kerning is not requested.
pub(crate) fn is_left_out(is_pairs: bool, requested: bool) -> bool
    ensures { result ≡ (is_pairs && not requested) }
{
    is_pairs && !requested
}

/// A position that is attached cursively to the glyph before it in processing order, which stands behind it in a
/// backward text.
fn attached_cursively(direction: Direction, position: GlyphPosition) -> GlyphPosition
    ensures { result ≡ attached_as 2 (if is_backward direction then pos 1 else negsuc 0) position }
{
    GlyphPosition {
        attach_type: CURSIVE,
        attach_chain: if direction.is_backward() { 1 } else { -1 },
        ..position
    }
}

/// Attaches each glyph to the one before it in processing order, whatever it was attached to.
fn attach_cursively<A: Allocator + Copy>(buffer: &mut hb_buffer_t<A>)
    requires { IsPlaced buffer.old }
    ensures attached { buffer.new ≡ cursively_attached buffer.old }
    ensures placed { IsPlaced buffer.new }
{
    let direction = buffer.direction();
    for i in 0..buffer.len() {
        let position = buffer.pos_mut(i);
        *position = attached_cursively(direction, *position);
    }
}

/// Attaches each glyph of a line in processing order cursively to the one before it, at a subtable with cross-stream,
/// unless an earlier one has done it, as `is_attached` says, which is true behind it. Each glyph has to have its position.
/// In as many steps as the line is long.
///
/// Apple's TrueType Reference Manual, "The 'kern' table", cross-stream kerning.
pub fn attach_once<A: Allocator + Copy>(
    has_cross_stream: bool,
    is_attached: &mut bool,
    buffer: &mut hb_buffer_t<A>,
)
    requires { IsPlaced buffer.old }
    ensures attached { buffer.new
        ≡ (if has_cross_stream && not is_attached.old then cursively_attached buffer.old else buffer.old) }
    ensures noted { is_attached.new ≡ (is_attached.old || has_cross_stream) }
    ensures line { buffer.new.line ≡ buffer.old.line }
    ensures placed { IsPlaced buffer.new }
{
    if has_cross_stream && !*is_attached {
        attach_cursively(buffer);
        *is_attached = true;
    }
}

/// Turns a line round, where asked, with its positions. In as many steps as the line is long.
pub fn turn_round<A: Allocator + Copy>(is_asked: bool, buffer: &mut hb_buffer_t<A>)
    ensures { buffer.new ≡ turned_round is_asked buffer.old }
{
    if is_asked {
        buffer.reverse();
    }
}

/// Puts a line in processing order, or back: a backward one is turned round.
pub(crate) fn reorder<A: Allocator + Copy>(buffer: &mut hb_buffer_t<A>)
    ensures { buffer.new ≡ in_processing_order buffer.old }
{
    turn_round(buffer.direction().is_backward(), buffer);
}

/// Marks the whole line against joining, where a subtable asks for it and the buffer for such marks. Each glyph id has to
/// be at most 0xFFFF, and each glyph has to have its position. In as many steps as the line is long.
#[tactic(auto, using(aat_buffer::specs::facts::Small::small_concat, aat_buffer::specs::facts::Lines::length_concat))]
pub fn mark_line<A: Allocator + Copy>(is_asked: bool, buffer: &mut hb_buffer_t<A>)
    requires ids { IsSmall buffer.old }
    requires placed { IsPlaced buffer.old }
    ensures marked { buffer.new ≡ line_marked is_asked buffer.old }
    ensures ids { IsSmall buffer.new }
    ensures placed { IsPlaced buffer.new }
{
    if is_asked {
        buffer.unsafe_to_concat(None, None);
    }
}

/// Kerns a line in processing order by pairs, and marks the whole line against joining first where asked. Each glyph id
/// has to be at most 0xFFFF, and each glyph has to have its position. It takes no memory and cannot be refused. In as many
/// steps as the line is long, a search of the pairs for each pair of the line, and the marks.
///
/// Apple's TrueType Reference Manual, "The 'kern' table" and "The 'kerx' table".
pub fn kern_line<A: Allocator + Copy>(run: &PairRun, marks_line: bool, buffer: &mut hb_buffer_t<A>)
    requires ids { IsSmall buffer.old }
    requires placed { IsPlaced buffer.old }
    ensures kerned { buffer.new
        ≡ pair_kerning run.now.skips run.now.kern_mask run.now.is_cross_stream (values_of run.now.values)
        (line_marked marks_line buffer.old) }
    ensures ids { IsSmall buffer.new }
    ensures placed { IsPlaced buffer.new }
{
    mark_line(marks_line, buffer);
    kern_pairs(run, buffer);
}
