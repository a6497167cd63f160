//! Lines are tried: whether they fit, and what is drawn of them.
ghost use Rattle.std.specs.Prelude.{◌≡◌, ◌+◌, ◌<◌, ◌≤◌, ◌↔◌, ℕ, IfErr, IfOk, IsTrue, false, true, length, map, slice_range};
ghost use Rattle.aat_shaped_text.specs.Parts.{looks};
ghost use Rattle.aat_shaper.specs.Lines.{IsLine, RefusesLines, drawn_alone, stop_at, width_of};
ghost use Rattle.aat_shaper.specs.inside.Filling.{IsFull, IsReady, IsSummed, IsTried, IsWithin, Shapes, glyphs_of, paragraph_of};

use crate::lines::filling::Filling;
use crate::lines::width::Summed;
use crate::shaper::Shaper;
use aat_layout::AatError;
use aat_shaped_text::{ShapedGlyph, TextGlyph};
use std::alloc::Allocator;

/// The glyphs of a line that was tried.
#[derive(Clone, Copy)]
pub(crate) enum LineGlyphs {
    /// A stretch of what is drawn of the whole text.
    Stretch(usize, usize),
    /// What was shaped by itself.
    Alone,
}

/// A line that was tried.
#[derive(Clone, Copy)]
pub(crate) struct TriedLine {
    /// The stop at which it ends.
    pub(crate) last: usize,
    /// Its glyphs.
    pub(crate) glyphs: LineGlyphs,
    /// Whether it is no wider than a line.
    pub(crate) fits: bool,
}

impl Filling<'_> {
    /// The part of the text between two places.
    fn part(&self, start: usize, end: usize) -> &[TextGlyph]
        requires order { start ≤ end }
        requires in_text { end ≤ length self.now.text.now }
        ensures { result.now ≡ slice_range self.now.text.now start end }
    {
        &self.text[start..end]
    }

    /// The glyphs of a line that was tried.
    pub(crate) fn glyphs_of<'g>(
        &'g self,
        glyphs: LineGlyphs,
        alone: &'g [ShapedGlyph],
    ) -> &'g [ShapedGlyph]
        requires { IsWithin (length self.now.whole.now) glyphs }
        ensures { result.now ≡ glyphs_of glyphs self.now.whole.now alone.now }
    {
        match glyphs {
            LineGlyphs::Stretch(from, to) => &self.whole[from..to],
            LineGlyphs::Alone => alone,
        }
    }

    /// Draws the line that takes in the stops from `first` up to `last`: as a stretch of the whole text where it may be
    /// broken at both ends, and else by itself.
    fn draw<A: Allocator + Copy>(
        &self,
        shaper: &mut Shaper<'_, A>,
        shaped: &mut usize,
        first: usize,
        last: usize,
        summed: Summed,
    ) -> Result<LineGlyphs, AatError>
        requires ready { IsReady self.now }
        requires shaper { Shapes self.now shaper.old }
        requires order { first ≤ last }
        requires in_stops { last < length self.now.stops.now }
        ensures shaper { Shapes self.now shaper.new }
        ensures within { IfOk result (IsWithin (length self.now.whole.now)) }
        ensures alone { IfOk result (λ glyphs. map looks (glyphs_of glyphs self.now.whole.now shaper.new.glyphs)
            ≡ map looks (drawn_alone (paragraph_of self.now) first last)) }
        ensures bounded { IfOk result (λ glyphs.
            length (glyphs_of glyphs self.now.whole.now shaper.new.glyphs) ≤ 0x3FFFFFFF) }
        ensures refused { IfErr result
            (RefusesLines self.now.font.now self.now.direction self.now.features.now self.now.text.now) }
    {
        let start = self.start_of(first);
        let end = self.stops[last].place;
        if let Some((from, to)) = self.stretch_between(start, end, summed) {
            return Ok(LineGlyphs::Stretch(from, to));
        }
        shaper.shape(self.direction, self.part(start, end), self.features)?;
        *shaped = shaped.saturating_add(1);
        Ok(LineGlyphs::Alone)
    }

    /// Tries the line that takes in the stops from `first` up to `last`.
    fn try_line<A: Allocator + Copy>(
        &self,
        shaper: &mut Shaper<'_, A>,
        shaped: &mut usize,
        first: usize,
        last: usize,
        summed: Summed,
    ) -> Result<TriedLine, AatError>
        requires ready { IsReady self.now }
        requires summed { IsSummed self.now summed }
        requires shaper { Shapes self.now shaper.old }
        requires order { first ≤ last }
        requires in_stops { last < length self.now.stops.now }
        ensures shaper { Shapes self.now shaper.new }
        ensures tried { IfOk result (IsTried self.now first last shaper.new.glyphs) }
        ensures refused { IfErr result
            (RefusesLines self.now.font.now self.now.direction self.now.features.now self.now.text.now) }
    {
        let glyphs = self.draw(shaper, shaped, first, last, summed)?;
        let fits = self.has_room(self.stops[last].hang, glyphs, shaper.glyphs(), summed);
        Ok(TriedLine { last, glyphs, fits })
    }

    /// The first stop from `guess` on that is forced or the last, or behind which the next one does not fit.
    fn reach<A: Allocator + Copy>(
        &self,
        shaper: &mut Shaper<'_, A>,
        shaped: &mut usize,
        first: usize,
        guess: usize,
        summed: Summed,
    ) -> Result<usize, AatError>
        requires ready { IsReady self.now }
        requires summed { IsSummed self.now summed }
        requires shaper { Shapes self.now shaper.old }
        requires order { first ≤ guess }
        requires in_stops { guess < length self.now.stops.now }
        ensures shaper { Shapes self.now shaper.new }
        ensures from { IfOk result (λ last. guess ≤ last) }
        ensures in_stops { IfOk result (λ last. last < length self.now.stops.now) }
        ensures unforced { IfOk result (λ last.
            (i : ℕ) → guess ≤ i → i < last → (stop_at self.now.stops.now i).is_forced ≡ false) }
        ensures full { IfOk result (IsFull (paragraph_of self.now) first) }
        ensures refused { IfErr result
            (RefusesLines self.now.font.now self.now.direction self.now.features.now self.now.text.now) }
    {
        for last in guess..self.stops.len() - 1 {
            if self.stops[last].is_forced {
                return Ok(last);
            }
            if !self.try_line(shaper, shaped, first, last + 1, summed)?.fits {
                return Ok(last);
            }
        }
        Ok(self.stops.len() - 1)
    }

    /// The last line that fits, or else the first one, of those that take in the stops from `first` on, and end at
    /// `reached` or before it.
    fn settle<A: Allocator + Copy>(
        &self,
        shaper: &mut Shaper<'_, A>,
        shaped: &mut usize,
        first: usize,
        reached: usize,
        summed: Summed,
    ) -> Result<TriedLine, AatError>
        requires ready { IsReady self.now }
        requires summed { IsSummed self.now summed }
        requires shaper { Shapes self.now shaper.old }
        requires order { first ≤ reached }
        requires in_stops { reached < length self.now.stops.now }
        requires full { IsFull (paragraph_of self.now) first reached }
        ensures shaper { Shapes self.now shaper.new }
        ensures tried { IfOk result (λ line. IsTried self.now first line.last shaper.new.glyphs line) }
        ensures from { IfOk result (λ line. first ≤ line.last) }
        ensures up_to { IfOk result (λ line. line.last ≤ reached) }
        ensures full { IfOk result (λ line. IsFull (paragraph_of self.now) first line.last) }
        ensures fits { IfOk result (λ line. first < line.last → line.fits ≡ true) }
        ensures refused { IfErr result
            (RefusesLines self.now.font.now self.now.direction self.now.features.now self.now.text.now) }
    {
        let mut line = self.try_line(shaper, shaped, first, reached, summed)?;
        while line.last > first && !line.fits {
            line = self.try_line(shaper, shaped, first, line.last - 1, summed)?;
        }
        Ok(line)
    }

    /// The line that takes in the stops from `first` on. Where it begins is looked for near a place of what is drawn
    /// first, and where it ends by how many more stops than one the line before took in.
    pub(crate) fn line_from<A: Allocator + Copy>(
        &self,
        shaper: &mut Shaper<'_, A>,
        shaped: &mut usize,
        first: usize,
        near: usize,
        more: usize,
    ) -> Result<TriedLine, AatError>
        requires ready { IsReady self.now }
        requires shaper { Shapes self.now shaper.old }
        requires in_stops { first < length self.now.stops.now }
        ensures shaper { Shapes self.now shaper.new }
        ensures from { IfOk result (λ line. first ≤ line.last) }
        ensures in_stops { IfOk result (λ line. line.last < length self.now.stops.now) }
        ensures within { IfOk result (λ line. IsWithin (length self.now.whole.now) line.glyphs) }
        ensures line { IfOk result (λ line. IsLine (paragraph_of self.now) first line.last
            (glyphs_of line.glyphs self.now.whole.now shaper.new.glyphs)) }
        ensures refused { IfErr result
            (RefusesLines self.now.font.now self.now.direction self.now.features.now self.now.text.now) }
    {
        let guess = self.guess(first, near, more);
        let reached = self.reach(shaper, shaped, first, guess.last, guess.next)?;
        self.settle(shaper, shaped, first, reached, guess.line)
    }
}
