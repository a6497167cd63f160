//! The offsets of a line added up along its attachments.
ghost use Rattle.std.specs.Prelude.{◌≡◌, ◌<◌, IsOk, OnErr, OnOk, length, map};
ghost use Rattle.std.specs.List.{range_with_len};
ghost use Rattle.aat_glyph.specs.placement.Attachments.{IsUnattached, added_up, parent};
ghost use Rattle.aat_glyph.specs.placement.inside.Beside.{beside, joined_to, marked_beside};
ghost use Rattle.aat_glyph.specs.placement.inside.Pens.{pen_at};

use crate::placement::parents::{attach_type, is_unattached, parent_of};
use crate::placement::pens::{Pen, pens_of};
use crate::{Direction, GlyphPosition};
use std::alloc::{AllocError, Allocator};

/// Adds to the offset of each glyph that is attached to another that other glyph's, which it may have from yet another.
/// A mark takes it in both coordinates, less the advances between, and a cursive glyph across the line alone. Then each
/// glyph can be drawn at its pen and offset, whatever it is attached to. All else of the positions stays, sums wrap, and
/// [`parent_of`](crate::placement::parent_of) tells which glyph each is attached to. A second call adds once more.
///
/// The line is one as it is drawn, from left to right or from top to bottom; a backward line has been put the other way
/// round for that. It takes as many steps as the line is long, and memory for two numbers a glyph. A line in which no
/// glyph is attached stays as it is and takes none.
///
/// Refused where memory is wanting, and never else; nothing changes then.
pub fn add_up_attachments<A: Allocator + Copy>(
    alloc: A,
    direction: Direction,
    positions: &mut [GlyphPosition],
) -> Result<(), AllocError>
    ensures ok { OnOk result (positions.new ≡ added_up direction positions.old) }
    ensures unattached { IsUnattached direction positions.old → IsOk result }
    ensures err { OnErr result (positions.new ≡ positions.old) }
{
    if is_unattached(direction, positions) {
        return Ok(());
    }
    let pens = pens_of(alloc, positions)?;
    follow_parents(direction, &pens, positions);
    Ok(())
}

/// Adds up from the front, where each glyph finds its parent's offsets added up, given the pens of the line.
fn follow_parents(direction: Direction, pens: &[Pen], positions: &mut [GlyphPosition])
    requires { pens.now ≡ map (pen_at positions.old) (range_with_len 0 (length positions.old)) }
    ensures { positions.new ≡ added_up direction positions.old }
{
    for i in 0..positions.len() {
        positions[i] = beside_parent(direction, pens, positions, i);
    }
}

/// The position of the glyph at a place beside its parent's, which is added up already, given the pens of the line.
fn beside_parent(
    direction: Direction,
    pens: &[Pen],
    positions: &[GlyphPosition],
    i: usize,
) -> GlyphPosition
    requires pens { length pens.now ≡ length positions.now }
    requires within { i < length positions.now }
    ensures { result
        ≡ beside direction pens.now positions.now i (parent direction positions.now i) }
{
    let position = positions[i];
    match parent_of(direction, positions, i) {
        Some(parent) if position.attach_type == attach_type::MARK => {
            marked(&positions[parent], pens[parent], position, pens[i])
        }
        Some(parent) => joined(direction, &positions[parent], position),
        None => position,
    }
}

/// The position of a mark at its pen beside the glyph that it follows, at that one's pen.
fn marked(
    followed: &GlyphPosition,
    followed_pen: Pen,
    mut position: GlyphPosition,
    pen: Pen,
) -> GlyphPosition
    ensures { result ≡ marked_beside followed.now followed_pen position pen }
{
    let x = position.x_offset.wrapping_add(followed_pen.x);
    let y = position.y_offset.wrapping_add(followed_pen.y);
    position.x_offset = followed.x_offset.wrapping_add(x.wrapping_sub(pen.x));
    position.y_offset = followed.y_offset.wrapping_add(y.wrapping_sub(pen.y));
    position
}

/// The position of a cursive glyph beside the one that it follows.
fn joined(direction: Direction, followed: &GlyphPosition, position: GlyphPosition) -> GlyphPosition
    ensures { result ≡ joined_to direction followed.now position }
{
    if direction.is_vertical() {
        let x_offset = followed.x_offset.wrapping_add(position.x_offset);
        GlyphPosition {
            x_offset,
            ..position
        }
    } else {
        let y_offset = followed.y_offset.wrapping_add(position.y_offset);
        GlyphPosition {
            y_offset,
            ..position
        }
    }
}
