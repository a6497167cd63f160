//! What is drawn of marks.
ghost use Rattle.std.specs.Prelude.{◌≡◌};
ghost use Rattle.aat_showing.specs.Marks.{moved, without_width, zero_marks, zeroed_mark};

use aat_shaped_text::ShapedGlyph;

/// An offset, less an advance where marks move.
fn moved(moves: bool, offset: i32, advance: i32) -> i32
    ensures { result ≡ moved moves offset advance }
{
    if moves {
        offset.wrapping_sub(advance)
    } else {
        offset
    }
}

/// A glyph without width.
fn without_width(moves: bool, glyph: ShapedGlyph) -> ShapedGlyph
    ensures { result ≡ without_width moves glyph }
{
    ShapedGlyph {
        x_advance: 0,
        y_advance: 0,
        x_offset: moved(moves, glyph.x_offset, glyph.x_advance),
        y_offset: moved(moves, glyph.y_offset, glyph.y_advance),
        ..glyph
    }
}

/// A glyph, without width where it is a mark.
pub(crate) fn zeroed_mark(moves: bool, glyph: ShapedGlyph) -> ShapedGlyph
    ensures { result ≡ zeroed_mark moves glyph }
{
    if glyph.is_mark {
        without_width(moves, glyph)
    } else {
        glyph
    }
}

/// Has marks take no room. `glyphs` is what a `Shaper` draws of a text, before ignorable glyphs are hidden.
///
/// Each glyph that is a mark gets advances of 0, in units of the font as all lengths are. Where marks move (`moves`),
/// the advances that it had are taken from its offsets: it is drawn over what is before it, and differences wrap at 32
/// bits. Nothing else of a mark changes, and glyphs that are no marks stay as they were. Offsets of glyphs that are
/// attached over a mark stay too, though the advance that it had was added up in them.
///
/// HarfBuzz 12.3.2 does so where the script asks for it, and the font has neither `kerx` nor machines of `kern`. Its
/// marks move in forward texts, unless `kern` goes across the line.
///
/// Where the text may be broken before a glyph, its two parts, with their marks so, look by themselves as they do here.
///
/// It takes no memory, and cannot be refused.
pub fn zero_marks(glyphs: &mut [ShapedGlyph], moves: bool)
    ensures { glyphs.new ≡ zero_marks moves glyphs.old }
{
    for i in 0..glyphs.len() {
        glyphs[i] = zeroed_mark(moves, glyphs[i]);
    }
}
