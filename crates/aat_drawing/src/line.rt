//! A line that is shown.

use aat_layout::buffer::Direction;
use aat_shaper::ShapedGlyph;

/// Whether a text may be broken before a glyph that is drawn.
#[derive(Clone, Copy, PartialEq, Eq, Debug)]
pub enum LineBreak {
    /// No line may end there.
    Never,
    /// A line may end there, and its two parts have to be shaped by themselves.
    ShapedAnew,
    /// A line may end there, and its two parts look by themselves as they do here.
    AsDrawn,
}

/// A glyph of a line, with what is told of it.
#[derive(Clone, Copy, PartialEq, Eq, Debug)]
pub struct DrawnGlyph {
    /// The glyph and its position.
    pub glyph: ShapedGlyph,
    /// Which subtable of `morx` changed it last, counted through all chains from 0.
    pub changed_by: Option<usize>,
    /// Whether the text may be broken before it.
    pub break_before: LineBreak,
}

/// A line of a text, in drawing order.
#[derive(Debug, Drop)]
pub struct DrawnLine {
    /// The direction of its text.
    pub direction: Direction,
    /// Its glyphs, from left to right or from top to bottom.
    pub glyphs: Vec<DrawnGlyph>,
}

impl DrawnLine {
    /// The length of the line, in units of the font: the sum of its advances, without their sign.
    pub fn length(&self) -> u64 {
        let mut sum = 0i64;
        for drawn in &self.glyphs {
            sum = sum.saturating_add(advance_along(self.direction, &drawn.glyph));
        }
        sum.unsigned_abs()
    }
}

/// How far the pen moves along the line at a glyph.
pub(crate) fn advance_along(direction: Direction, glyph: &ShapedGlyph) -> i64 {
    if direction.is_horizontal() {
        i64::from(glyph.x_advance)
    } else {
        i64::from(glyph.y_advance)
    }
}
