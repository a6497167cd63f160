//! Where the pen stands before each glyph of a line.
ghost use Rattle.std.specs.Prelude.{◌≡◌, IfOk, length, map};
ghost use Rattle.std.specs.List.{range_with_len};
ghost use Rattle.aat_glyph.specs.placement.inside.Pens.{pen_at};

use crate::GlyphPosition;
use std::alloc::{AllocError, Allocator};

/// Where the pen stands, from the line's beginning, in units of the font.
#[derive(Clone, Copy, PartialEq, Eq, Debug, Default)]
pub(crate) struct Pen {
    pub(crate) x: i32,
    pub(crate) y: i32,
}

/// Where the pen stands before each glyph of a line. Sums wrap.
pub(crate) fn pens_of<A: Allocator>(
    alloc: A,
    positions: &[GlyphPosition],
) -> Result<Vec<Pen, A>, AllocError>
    ensures { IfOk result (λ pens.
        pens.items ≡ map (pen_at positions.now) (range_with_len 0 (length positions.now))) }
{
    let mut pens = Vec::with_capacity(alloc, positions.len())?;
    let mut pen = Pen::default();
    for position in positions {
        pens.push(pen)?;
        pen.x = pen.x.wrapping_add(position.x_advance);
        pen.y = pen.y.wrapping_add(position.y_advance);
    }
    Ok(pens)
}
