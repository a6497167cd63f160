//! What marks are placed around.
ghost use Rattle.std.specs.Prelude.{◌≡◌};
ghost use Rattle.aat_showing.specs.MarkBoxes.{base_behind, base_box, base_with, boxed_base, drawn_at, farther, from_pen, seen, set_on, stack_for, stack_with};

use crate::mark_places::{beside, minus, over, plus, with_mark};
use aat_face::GlyphBox;
use aat_glyph::Direction;
use aat_shaped_text::ShapedGlyph;

/// A base with a box.
#[derive(Clone, Copy)]
pub(crate) struct Base {
    /// Its box, as wide as its advance, and as high as it is drawn.
    pub(crate) whole: GlyphBox,
    /// What the next mark of the class is placed around: the box, up to the marks of the class.
    pub(crate) stack: GlyphBox,
    /// The combining class of the last mark, 0 before the first one.
    pub(crate) class: u8,
    /// Where the base lies, seen from the pen: to the right.
    pub(crate) x: i32,
    /// Where it lies: up.
    pub(crate) y: i32,
}

/// What the marks that come next belong to.
#[derive(Clone, Copy)]
pub(crate) enum MarkBase {
    /// Nothing: there is no base yet.
    Missing,
    /// A base without a box.
    Unboxed,
    /// A base with a box.
    Boxed(Base),
}

/// What is known of a base: itself, or the glyph whose base it is.
#[derive(Clone, Copy)]
pub(crate) enum KnownBase {
    /// The base.
    Told(MarkBase),
    /// The glyph, whose box is not yet asked.
    Glyph(ShapedGlyph),
}

/// What a mark of a class is placed around.
fn stack_for(base: Base, class: u8) -> GlyphBox
    ensures { result ≡ stack_for base class }
{
    if class == base.class {
        base.stack
    } else {
        base.whole
    }
}

/// A glyph without width, drawn at a place.
fn drawn_at(x: i32, y: i32, glyph: ShapedGlyph) -> ShapedGlyph
    ensures { result ≡ drawn_at x y glyph }
{
    ShapedGlyph {
        x_advance: 0,
        y_advance: 0,
        x_offset: x,
        y_offset: y,
        ..glyph
    }
}

/// A mark of a class that is placed by its box around its base. Without a box it stays where it is, from the base on.
pub(crate) fn set_on(
    direction: Direction,
    gap: u16,
    base: Base,
    class: u8,
    bounds: Option<GlyphBox>,
    glyph: ShapedGlyph,
) -> ShapedGlyph
    ensures { result ≡ set_on direction gap base class bounds glyph }
{
    match bounds {
        Some(mark) => {
            let stack = stack_for(base, class);
            let x = plus(beside(direction, class, stack, mark), base.x);
            let y = plus(over(gap, class, stack, mark), base.y);
            drawn_at(x, y, glyph)
        }
        None => drawn_at(
            plus(glyph.x_offset, base.x),
            plus(glyph.y_offset, base.y),
            glyph,
        ),
    }
}

/// What the next mark of the class is placed around.
fn stack_with(gap: u16, base: Base, class: u8, bounds: Option<GlyphBox>) -> GlyphBox
    ensures { result ≡ stack_with gap base class bounds }
{
    let stack = stack_for(base, class);
    match bounds {
        Some(mark) => with_mark(class, over(gap, class, stack, mark), stack, mark),
        None => stack,
    }
}

/// A base behind a mark of a class.
pub(crate) fn base_with(gap: u16, base: Base, class: u8, bounds: Option<GlyphBox>) -> Base
    ensures { result ≡ base_with gap base class bounds }
{
    Base {
        stack: stack_with(gap, base, class, bounds),
        class,
        ..base
    }
}

/// An advance of a glyph, 0 of an ignorable one.
fn seen(glyph: ShapedGlyph, advance: i32) -> i32
    ensures { result ≡ seen glyph advance }
{
    if glyph.is_ignorable { 0 } else { advance }
}

/// Where a base lies, seen from the pen, behind a glyph with an advance.
fn farther(direction: Direction, from: i32, advance: i32) -> i32
    ensures { result ≡ farther direction from advance }
{
    if direction.is_forward() {
        minus(from, advance)
    } else {
        plus(from, advance)
    }
}

/// A base behind a glyph that is not placed.
pub(crate) fn base_behind(direction: Direction, base: Base, glyph: ShapedGlyph) -> Base
    ensures { result ≡ base_behind direction base glyph }
{
    Base {
        x: farther(direction, base.x, seen(glyph, glyph.x_advance)),
        y: farther(direction, base.y, seen(glyph, glyph.y_advance)),
        ..base
    }
}

/// Where a base lies, seen from the pen behind it.
fn from_pen(direction: Direction, advance: i32) -> i32
    ensures { result ≡ from_pen direction advance }
{
    if direction.is_forward() {
        minus(0, advance)
    } else {
        0
    }
}

/// The box of a base: as wide as its advance, and as high as it is drawn.
fn base_box(advance: u16, y: i32, bounds: GlyphBox) -> GlyphBox
    ensures { result ≡ base_box advance y bounds }
{
    GlyphBox {
        left: 0,
        bottom: plus(bounds.bottom, y),
        right: advance as i32,
        top: plus(bounds.top, y),
    }
}

/// A glyph as a base of an advance and a box.
pub(crate) fn boxed_base(
    direction: Direction,
    advance: u16,
    bounds: Option<GlyphBox>,
    glyph: ShapedGlyph,
) -> MarkBase
    ensures { result ≡ boxed_base direction advance bounds glyph }
{
    match bounds {
        Some(bounds) => {
            let whole = base_box(advance, glyph.y_offset, bounds);
            MarkBase::Boxed(Base {
                whole,
                stack: whole,
                class: 0,
                x: from_pen(direction, seen(glyph, glyph.x_advance)),
                y: from_pen(direction, seen(glyph, glyph.y_advance)),
            })
        }
        None => MarkBase::Unboxed,
    }
}
