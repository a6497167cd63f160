//! What is drawn of a text in columns.
ghost use Rattle.std.specs.Prelude.{◌≡◌};
ghost use Rattle.aat_showing.specs.Columns.{in_column, in_columns, with_advance};
ghost use Rattle.aat_showing.specs.FaceMetrics.{column_metrics};

use crate::face_metrics::{column_advance, column_origin, row_advance};
use crate::mark_places::{minus, plus};
use aat_face::Face;
use aat_shaped_text::ShapedGlyph;

/// A glyph with another advance along the line in place of its own.
#[tactic(auto, unfolding(crate::specs::Lengths::signed))]
pub(crate) fn with_advance(is_column: bool, own: u32, other: u32, glyph: ShapedGlyph) -> ShapedGlyph
    ensures { result ≡ with_advance is_column own other glyph }
{
    let (own, other) = (own.cast_signed(), other.cast_signed());
    if is_column {
        ShapedGlyph {
            y_advance: minus(plus(glyph.y_advance, own), other),
            ..glyph
        }
    } else {
        ShapedGlyph {
            x_advance: plus(minus(glyph.x_advance, own), other),
            ..glyph
        }
    }
}

/// A glyph in a column.
fn in_column(face: &Face<'_>, glyph: ShapedGlyph) -> ShapedGlyph
    ensures { result ≡ in_column (column_metrics face.now) glyph }
{
    let across = row_advance(face, glyph.glyph_id) as u32;
    let down = column_advance(face, glyph.glyph_id);
    let origin = column_origin(face, glyph.glyph_id);
    ShapedGlyph {
        x_offset: minus(glyph.x_offset, origin.x),
        y_offset: minus(glyph.y_offset, origin.y),
        ..with_advance(true, across, down, glyph)
    }
}

/// Sets glyphs in a column. `glyphs` is what a `Shaper` of the face draws of a vertical text.
///
/// The layer moves the pen down by the advance of each glyph in a row. Here it moves by its advance in a column in
/// place of that one, and the glyph is drawn from its origin there: that is taken off its offset. All is in units of
/// the font, and lengths wrap at 32 bits. All else stays. So does HarfBuzz 12.3.2, but that a glyph which is attached
/// to another one moves with that one there, and by its own origin here.
///
/// It takes no memory, and cannot be refused.
pub fn set_in_columns(glyphs: &mut [ShapedGlyph], face: &Face<'_>)
    ensures { glyphs.new ≡ in_columns (column_metrics face.now) glyphs.old }
{
    for i in 0..glyphs.len() {
        glyphs[i] = in_column(face, glyphs[i]);
    }
}
