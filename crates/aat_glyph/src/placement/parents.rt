//! Which glyph each glyph of a line is attached to.
ghost use Rattle.std.specs.Prelude.{◌≡◌, ◌<◌, ◌↔◌, length, IfSome, IsTrue};
ghost use Rattle.aat_glyph.specs.placement.Attachments.{IsUnattached, drawn_chain, parent};

use crate::{Direction, GlyphPosition};

/// How a glyph is attached to another, in `GlyphPosition::attach_type`. Any other number is no attachment.
pub mod attach_type {
    /// As a mark: its offsets are counted from where the other glyph is drawn, so that two anchor points meet.
    pub const MARK: u8 = 1;

    /// As a cursive glyph: its offset across the line is counted from where the other glyph is drawn.
    pub const CURSIVE: u8 = 2;
}

/// The place of the glyph that the one at place `i` is attached to, in a line as it is drawn, from left to right or
/// from top to bottom; a backward line has been put the other way round for that. `None` where it is attached to none.
///
/// The attach chain is counted in places: that of a mark in the order of drawing, since a backward line is kerned put
/// the other way round, and that of a cursive glyph in the order of the text. One that leaves the line, or leads to the
/// glyph itself or to one that is drawn after it, counts as none. Kerning across the stream makes such a chain at the
/// first glyph, and the removal of glyphs may leave one. A chain of a machine from last to first is followed as any
/// other, and so leads to another glyph than the machine marked.
///
/// `i` has to be a place of the line. It takes no memory and cannot be refused.
pub fn parent_of(direction: Direction, positions: &[GlyphPosition], i: usize) -> Option<usize>
    requires { i < length positions.now }
    ensures value { result ≡ parent direction positions.now i }
    ensures before { IfSome result (λ p. p < i) }
{
    let place = i as i64 + i64::from(drawn_chain(direction, &positions[i]));
    match usize::try_from(place) {
        Ok(place) if place < i => Some(place),
        _ => None,
    }
}

/// The chain of a glyph in the order of drawing.
fn drawn_chain(direction: Direction, position: &GlyphPosition) -> i32
    ensures { result ≡ drawn_chain direction position.now }
{
    let chain = i32::from(position.attach_chain);
    match position.attach_type {
        attach_type::MARK => chain,
        attach_type::CURSIVE if direction.is_forward() => chain,
        attach_type::CURSIVE => -chain,
        _ => 0,
    }
}

/// Whether no glyph of a line is attached to another.
pub(crate) fn is_unattached(direction: Direction, positions: &[GlyphPosition]) -> bool
    ensures { IsTrue result ↔ IsUnattached direction positions.now }
{
    for i in 0..positions.len() {
        if parent_of(direction, positions, i).is_some() {
            return false;
        }
    }
    true
}
