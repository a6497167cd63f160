//! A text is filled into lines.
ghost use Rattle.std.specs.Prelude.{◌≡◌, ◌++◌, ◌≤◌, ◌<◌, [], ◌∷◌, IfErr, IfOk, OnOk, length};
ghost use Rattle.aat_shaped_text.specs.Parts.{looks};
ghost use Rattle.aat_shaper.specs.Lines.{AreLines, RefusesLines, end_of, start_of, stop_at};
ghost use Rattle.aat_shaper.specs.inside.Filling.{AreAdded, IsReady, IsWithin, Shapes, glyphs_of, paragraph_of};

use crate::lines::filling::Filling;
use crate::lines::tries::{LineGlyphs, TriedLine};
use crate::lines::{TextLine, TextLines};
use crate::shaper::Shaper;
use aat_layout::AatError;
use aat_shaped_text::ShapedGlyph;
use std::alloc::{AllocError, Allocator};

/// A glyph as one of a line, which begins so many glyphs behind the start of what it was drawn in.
fn of_line(glyph: &ShapedGlyph, from: usize, is_first: bool) -> ShapedGlyph
    ensures { looks result ≡ looks glyph.now }
{
    let attached_to = match glyph.attached_to {
        Some(place) if place as usize >= from => Some((place as usize - from) as u32),
        _ => None,
    };
    ShapedGlyph {
        attached_to,
        may_break_before: glyph.may_break_before && !is_first,
        ..*glyph
    }
}

/// Whether no glyph is attached to another one.
fn is_unattached(line: &[ShapedGlyph]) -> bool {
    let mut is_attached = false;
    for glyph in line {
        is_attached |= glyph.attached_to.is_some();
    }
    !is_attached
}

/// Adds the glyphs of a line as they are, but that it is not broken before the first.
fn add_as_drawn<A: Allocator>(
    line: &[ShapedGlyph],
    glyphs: &mut Vec<ShapedGlyph, A>,
) -> Result<(), AllocError>
    ensures { OnOk result (AreAdded line.now glyphs.old.items glyphs.new.items) }
{
    if line.is_empty() {
        return Ok(());
    }
    glyphs.push(of_line(&line[0], 0, true))?;
    glyphs.extend_from_slice(&line[1..])
}

/// Adds the glyphs of a line, which begins so many glyphs behind the start of what it was drawn in.
fn add_glyphs<A: Allocator>(
    from: usize,
    line: &[ShapedGlyph],
    glyphs: &mut Vec<ShapedGlyph, A>,
) -> Result<(), AllocError>
    ensures { OnOk result (AreAdded line.now glyphs.old.items glyphs.new.items) }
{
    if is_unattached(line) {
        return add_as_drawn(line, glyphs);
    }
    for i in 0..line.len() {
        glyphs.push(of_line(&line[i], from, i == 0))?;
    }
    Ok(())
}

impl Filling<'_> {
    /// Adds a line that was tried to the lines.
    fn add_line<A: Allocator>(
        &self,
        line: TriedLine,
        alone: &[ShapedGlyph],
        lines: &mut TextLines<A>,
    ) -> Result<(), AllocError>
        requires within { IsWithin (length self.now.whole.now) line.glyphs }
        requires in_stops { line.last < length self.now.stops.now }
        ensures glyphs { OnOk result (AreAdded (glyphs_of line.glyphs self.now.whole.now alone.now)
            lines.old.glyphs.items lines.new.glyphs.items) }
        ensures lines { OnOk result (lines.new.lines.items ≡ lines.old.lines.items
            ++ (record {
              text_end = (stop_at self.now.stops.now line.last).place;
              glyphs_end = length lines.new.glyphs.items;
            } ∷ [])) }
    {
        let from = match line.glyphs {
            LineGlyphs::Stretch(from, _) => from,
            LineGlyphs::Alone => 0,
        };
        add_glyphs(from, self.glyphs_of(line.glyphs, alone), &mut lines.glyphs)?;
        lines.lines.push(TextLine {
            text_end: self.stops[line.last].place,
            glyphs_end: lines.glyphs.len(),
        })?;
        Ok(())
    }

    /// A place of what is drawn of the whole text that is near the end of a line, or else `near`.
    fn near_end(&self, line: TriedLine, near: usize) -> usize {
        match line.glyphs {
            LineGlyphs::Stretch(from, _) if self.direction.is_backward() => from,
            LineGlyphs::Stretch(_, to) => to,
            LineGlyphs::Alone => near,
        }
    }

    /// Fills the text into lines.
    pub(crate) fn fill<A: Allocator + Copy>(
        &self,
        alloc: A,
        shaper: &mut Shaper<'_, A>,
    ) -> Result<TextLines<A>, AatError>
        requires ready { IsReady self.now }
        requires shaper { Shapes self.now shaper.old }
        ensures lines { IfOk result (λ r.
            AreLines (paragraph_of self.now) (length self.now.stops.now) r.glyphs.items r.lines.items) }
        ensures end { IfOk result (λ r.
            end_of r.lines.items ≡ start_of self.now.stops.now (length self.now.stops.now)) }
        ensures refused { IfErr result
            (RefusesLines self.now.font.now self.now.direction self.now.features.now self.now.text.now) }
    {
        let mut lines = TextLines {
            glyphs: Vec::with_capacity(alloc, self.whole.len())?,
            lines: Vec::new(alloc),
            shaped: 1,
        };
        let mut first = 0;
        let mut near = 0;
        let mut more = 0;
        while first < self.stops.len() {
            let line = self.line_from(shaper, &mut lines.shaped, first, near, more)?;
            self.add_line(line, shaper.glyphs(), &mut lines)?;
            more = line.last - first;
            first = line.last + 1;
            near = self.near_end(line, near);
        }
        Ok(lines)
    }
}
