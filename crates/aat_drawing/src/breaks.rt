//! Where the glyphs of a line may be broken.

use crate::line::{DrawnGlyph, LineBreak};
use aat_shaper::ShapedGlyph;
use aat_text::LineEnd;
use std::alloc::{AllocError, Global};

/// Whether the text may be broken between two glyphs that are drawn one behind the other: where a line may end at the
/// later one of their clusters.
fn break_between(ends: &[LineEnd], before: &ShapedGlyph, glyph: &ShapedGlyph) -> LineBreak {
    let place = before.cluster.max(glyph.cluster);
    let index = ends.partition_point(|end| end.place < place);
    let is_end = ends.get(index).is_some_and(|end| end.place == place);
    if !is_end || before.cluster == glyph.cluster {
        LineBreak::Never
    } else if glyph.may_break_before {
        LineBreak::AsDrawn
    } else {
        LineBreak::ShapedAnew
    }
}

/// The glyphs of a line, with what changed them, and where it may be broken: `ends` are the places of the text where a
/// line may end.
pub fn drawn_glyphs(
    alloc: Global,
    ends: &[LineEnd],
    glyphs: &[ShapedGlyph],
    changes: &[Option<usize>],
) -> Result<Vec<DrawnGlyph>, AllocError> {
    let mut drawn = Vec::new(alloc);
    let mut before = None;
    for (place, glyph) in glyphs.iter().enumerate() {
        let break_before = match before {
            None => LineBreak::Never,
            Some(before) => break_between(ends, before, glyph),
        };
        drawn.push(DrawnGlyph {
            glyph: *glyph,
            changed_by: changes.get(place).copied().flatten(),
            break_before,
        })?;
        before = Some(glyph);
    }
    Ok(drawn)
}
