//! The lines of a text, as they are typeset.
ghost use Rattle.std.specs.Prelude.{◌≡◌, IfOk, slice_range};
ghost use Rattle.aat_typesetter.specs.TypesetLines.{set_line, set_lines};
ghost use Rattle.aat_typesetter.specs.inside.Inside.{showing_by};

use crate::showing::{Drawn, Shown, show};
use aat_face::Face;
use aat_shaped_text::ShapedGlyph;
use aat_shaper::TextLine;
use std::alloc::{AllocError, Allocator, Global};
use std::marker::Model;

/// A line of a text. It begins where the one before it ends. A contract sees it as the record `SetLine`.
#[derive(Drop)]
pub struct TypesetLine<A: Allocator = Global> {
    text_end: usize,
    shaped: Vec<ShapedGlyph, A>,
    drawn: Drawn<A>,
}

impl<A: Allocator> Model for TypesetLine<A> {
    ghost use Rattle.aat_typesetter.specs.TypesetLines.{SetLine};
    ghost use Rattle.aat_typesetter.specs.inside.Drawn.{drawn_by};

    ghost Value = { SetLine };

    ghost view = { λ l. record {
      text_end = l.text_end;
      shaped = l.shaped.items;
      glyphs = drawn_by l.drawn.is_as_shaped l.shaped.items l.drawn.glyphs.items;
    } };
}

impl<A: Allocator> TypesetLine<A> {
    /// How many glyphs of the text, as [`Typesetter::text`](crate::Typesetter::text) has them, are before its end.
    pub fn text_end(&self) -> usize
        ensures { result ≡ self.now.text_end }
    {
        self.text_end
    }

    /// What was shaped of it, in drawing order: what is drawn, before glyphs were put in their places and ignorable
    /// ones hidden.
    pub fn shaped(&self) -> &[ShapedGlyph]
        ensures { result.now ≡ self.now.shaped }
    {
        &self.shaped
    }

    /// What is drawn of it, in drawing order.
    pub fn glyphs(&self) -> &[ShapedGlyph]
        ensures { result.now ≡ self.now.glyphs }
    {
        self.drawn.of(&self.shaped)
    }
}

/// The glyphs from a place up to another.
fn part(glyphs: &[ShapedGlyph], start: usize, end: usize) -> &[ShapedGlyph]
    ensures { result.now ≡ slice_range glyphs.now start end }
{
    let end = end.min(glyphs.len());
    if start < end {
        &glyphs[start..end]
    } else {
        &[]
    }
}

/// A line of these glyphs, as they are shown.
fn set_line<A: Allocator + Copy>(
    alloc: A,
    face: &Face<'_>,
    showing: Shown,
    text_end: usize,
    shaped: &[ShapedGlyph],
) -> Result<TypesetLine<A>, AllocError>
    ensures { IfOk result (λ line. line ≡ set_line (showing_by face.now showing) text_end shaped.now) }
{
    Ok(TypesetLine {
        text_end,
        shaped: Vec::from_slice(alloc, shaped)?,
        drawn: show(alloc, Vec::new(alloc), face, showing, shaped)?,
    })
}

/// The lines whose glyphs stand one behind the other, each shown by itself.
pub(crate) fn set_lines<A: Allocator + Copy>(
    alloc: A,
    face: &Face<'_>,
    showing: Shown,
    glyphs: &[ShapedGlyph],
    lines: &[TextLine],
) -> Result<Vec<TypesetLine<A>, A>, AllocError>
    ensures { IfOk result (λ set. set.items ≡ set_lines (showing_by face.now showing) glyphs.now 0 lines.now) }
{
    let mut set = Vec::with_capacity(alloc, lines.len())?;
    let mut start = 0;
    for line in lines {
        let shaped = part(glyphs, start, line.glyphs_end);
        set.push(set_line(alloc, face, showing, line.text_end, shaped)?)?;
        start = line.glyphs_end;
    }
    Ok(set)
}
