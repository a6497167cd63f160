//! Where a mark is placed around a box.
ghost use Rattle.std.specs.Prelude.{◌≡◌, ◌&&◌};
ghost use Rattle.aat_glyph.specs.Directions.{is_horizontal};
ghost use Rattle.aat_showing.specs.Lengths.{half, minus, plus};
ghost use Rattle.aat_showing.specs.MarkPlaces.{above, at_far_edge, below, beside, far_edge, gap_of, half_down, in_middle, is_above, is_below, is_double, is_left, is_right, not_up, over, width_of, with_mark};

use aat_face::GlyphBox;
use aat_glyph::Direction;

/// A sum of lengths, which wraps at 32 bits.
#[tactic(auto, unfolding(crate::specs::Lengths::plus))]
pub(crate) fn plus(x: i32, y: i32) -> i32
    ensures { result ≡ plus x y }
{
    x.wrapping_add(y)
}

/// A difference of lengths, which wraps at 32 bits.
#[tactic(auto, unfolding(crate::specs::Lengths::minus))]
pub(crate) fn minus(x: i32, y: i32) -> i32
    ensures { result ≡ minus x y }
{
    x.wrapping_sub(y)
}

/// Whether marks of a combining class stand at the left edge: attached below left, below left and above left.
fn is_left(class: u8) -> bool
    ensures { result ≡ is_left class }
{
    class == 200 || class == 218 || class == 228
}

/// Whether they stand at the right edge: attached above right, below right and above right.
fn is_right(class: u8) -> bool
    ensures { result ≡ is_right class }
{
    class == 216 || class == 222 || class == 232
}

/// Whether they stand on two bases of a row: double below and double above.
fn is_double_in_row(direction: Direction, class: u8) -> bool
    ensures { result ≡ (is_double class && is_horizontal direction) }
{
    (class == 233 || class == 234) && direction.is_horizontal()
}

/// Whether they stand below.
fn is_below(class: u8) -> bool
    ensures { result ≡ is_below class }
{
    class == 200 || class == 202 || class == 218 || class == 220 || class == 222 || class == 233
}

/// Whether they stand above.
fn is_above(class: u8) -> bool
    ensures { result ≡ is_above class }
{
    class == 214 || class == 216 || class == 228 || class == 230 || class == 232 || class == 234
}

/// The gap that marks of a class stand off: none of those that are attached.
fn gap_of(gap: u16, class: u8) -> i32
    ensures { result ≡ gap_of gap class }
{
    let is_attached = class == 200 || class == 202 || class == 214 || class == 216;
    if is_attached { 0 } else { gap as i32 }
}

/// Half of a length, rounded towards 0.
#[tactic(auto, unfolding(crate::specs::Lengths::half))]
fn half(length: i32) -> i32
    ensures { result ≡ half length }
{
    length / 2
}

/// How wide a box is.
fn width_of(bounds: GlyphBox) -> i32
    ensures { result ≡ width_of bounds }
{
    minus(bounds.right, bounds.left)
}

/// The edge of a base at which the next base follows.
fn far_edge(direction: Direction, base: GlyphBox) -> i32
    ensures { result ≡ far_edge direction base }
{
    if direction.is_forward() {
        base.right
    } else {
        base.left
    }
}

/// A mark with its middle at the edge of its base where the next base follows.
#[tactic(auto, unfolding(crate::specs::MarkPlaces::at_far_edge))]
fn at_far_edge(direction: Direction, base: GlyphBox, mark: GlyphBox) -> i32
    ensures { result ≡ at_far_edge direction base mark }
{
    let middle = minus(far_edge(direction, base), half(width_of(mark)));
    minus(middle, mark.left)
}

/// A mark with its middle in the middle of its base.
#[tactic(auto, unfolding(crate::specs::MarkPlaces::in_middle))]
fn in_middle(base: GlyphBox, mark: GlyphBox) -> i32
    ensures { result ≡ in_middle base mark }
{
    let room = half(minus(width_of(base), width_of(mark)));
    minus(plus(base.left, room), mark.left)
}

/// How far to the right of its own place a mark of a combining class is drawn by its box around that of its base, as
/// HarfBuzz 12.3.2 has it: at the left or the right edge, or in the middle. A double one of a row stands with its
/// middle at the edge of the base where the next base follows. All is in units of the font, and lengths wrap at 32
/// bits.
pub(crate) fn beside(direction: Direction, class: u8, base: GlyphBox, mark: GlyphBox) -> i32
    ensures { result ≡ beside direction class base mark }
{
    if is_left(class) {
        minus(base.left, mark.left)
    } else if is_right(class) {
        minus(base.right, mark.right)
    } else if is_double_in_row(direction, class) {
        at_far_edge(direction, base, mark)
    } else {
        in_middle(base, mark)
    }
}

/// Marks below are not moved up.
fn not_up(y: i32) -> i32
    ensures { result ≡ not_up y }
{
    if 0 < y { 0 } else { y }
}

/// Marks above are moved down by half of that at most.
fn half_down(y: i32) -> i32
    ensures { result ≡ half_down y }
{
    if 0 < y { y } else { y.div_euclid(2) }
}

/// How far above its own place a mark of a class is drawn below its base.
#[tactic(auto, unfolding(crate::specs::MarkPlaces::below))]
fn below(gap: u16, class: u8, base: GlyphBox, mark: GlyphBox) -> i32
    ensures { result ≡ below gap class base mark }
{
    let edge = minus(base.bottom, gap_of(gap, class));
    not_up(minus(edge, mark.top))
}

/// How far above its own place a mark of a class is drawn above its base.
#[tactic(auto, unfolding(crate::specs::MarkPlaces::above))]
fn above(gap: u16, class: u8, base: GlyphBox, mark: GlyphBox) -> i32
    ensures { result ≡ above gap class base mark }
{
    let edge = plus(base.top, gap_of(gap, class));
    half_down(minus(edge, mark.bottom))
}

/// How far above its own place a mark of a combining class is drawn by its box around that of its base, as HarfBuzz
/// 12.3.2 has it: below or above the base, attached or off by a gap. It is not moved up to a base that it is below, and
/// half of the way down to one that it is above. Marks of other classes stay at their height. All is in units of the
/// font, and lengths wrap at 32 bits.
pub(crate) fn over(gap: u16, class: u8, base: GlyphBox, mark: GlyphBox) -> i32
    ensures { result ≡ over gap class base mark }
{
    if is_below(class) {
        below(gap, class, base, mark)
    } else if is_above(class) {
        above(gap, class, base, mark)
    } else {
        0
    }
}

/// The box around which the next mark of the class is placed: that of the base, up to the edge of a mark which is drawn
/// by so much above its own place.
#[tactic(auto, unfolding(crate::specs::Lengths::plus))]
pub(crate) fn with_mark(class: u8, y: i32, base: GlyphBox, mark: GlyphBox) -> GlyphBox
    ensures { result ≡ with_mark class y base mark }
{
    if is_below(class) {
        GlyphBox {
            bottom: y.wrapping_add(mark.bottom),
            ..base
        }
    } else if is_above(class) {
        GlyphBox {
            top: y.wrapping_add(mark.top),
            ..base
        }
    } else {
        base
    }
}
