//! A text in lines of a width: the stops where its lines may end go in, and the glyphs of each line come out.
ghost use Rattle.std.specs.Prelude.{◌≡◌, ◌<◌, ◌≤◌, [], Err, IfErr, IfOk, None, OnErr, OnOk, false, length};
ghost use Rattle.aat_font.specs.Face.{tables_of};
ghost use Rattle.aat_map.specs.Adding.{first_too_large_among};
ghost use Rattle.aat_shaped_text.specs.ShapedText.{most_text, shaped_text, uses_up_budget};
ghost use Rattle.aat_shaper.specs.Lines.{AreLines, RefusesLines, end_of, start_of, stops_behind};
ghost use Rattle.aat_shaper.specs.Shaper.{value_along};
ghost use Rattle.aat_shaper.specs.inside.Filling.{AreStops};

mod cut;
mod fill;
mod filling;
mod guess;
mod row;
mod tries;
mod width;

use crate::lines::filling::Filling;
use crate::lines::row::{is_row, stops_of};
use crate::shaper::Shaper;
use aat_layout::AatError;
use aat_layout::buffer::Direction;
use aat_layout::font::Feature;
use aat_shaped_text::{ShapedGlyph, TextGlyph};
use std::alloc::{Allocator, Global};

/// A place of a text where a line may end.
#[derive(Clone, Copy)]
pub struct LineStop {
    /// The number of glyphs of the text before it.
    pub place: usize,
    /// The cluster from which on what is drawn of a line that ends here hangs over its end and counts for no width, as
    /// the spaces there do; `None` where nothing hangs.
    pub hang: Option<u32>,
    /// Whether a line has to end there.
    pub is_forced: bool,
}

/// A line of a text. It begins where the one before it ends.
#[derive(Clone, Copy)]
pub struct TextLine {
    /// The number of glyphs of the text before its end.
    pub text_end: usize,
    /// The number of drawn glyphs before its end, those of the lines before it and its own.
    pub glyphs_end: usize,
}

/// The lines of a text.
#[derive(Drop)]
pub struct TextLines<A: Allocator = Global> {
    /// The glyphs of all lines, one line behind the other, each in drawing order. No clause speaks of `attached_to`, which
    /// counts those of the line, nor of `may_break_before`, which is `false` at the first glyph of a line.
    pub glyphs: Vec<ShapedGlyph, A>,
    /// The lines, in the order of the text.
    pub lines: Vec<TextLine, A>,
    /// How many times a part of the text was shaped: once where it may be broken at each stop that was tried.
    pub shaped: usize,
}

impl<A: Allocator + Copy> Shaper<'_, A> {
    /// Shapes a text and breaks it into lines of a width.
    ///
    /// A line may end at a stop and at the end of the text. Stops that do not rise, or are past the text, are none; one at
    /// its end says what hangs there. A line takes in stops as long as the next one fits, and at least one: it is no wider than
    /// `width`, unless it ends at its first stop, and the text up to the next one by itself is wider, unless it ends at
    /// the end of the text or at a forced stop, which no line passes. A text without a glyph has no line.
    ///
    /// The width is the absolute value of the sum of the advances along the direction, in units of the font. The glyphs
    /// that hang over the end do not count, nor, where `hides_ignorables`, do ignorable ones.
    ///
    /// The glyphs of a line look as its part of the text does that is shaped by itself. Where the text may be broken at
    /// both ends of a line, as [`Shaper::shape`] has it, they are those of the whole text, and not shaped anew.
    /// Elsewhere lines that seem to be the right ones are shaped by themselves, mostly two for each line.
    /// [`Shaper::glyphs`] has what is drawn of the text in one line.
    ///
    /// Refused as [`Shaper::shape`] refuses the text or a part of it: as 2, `TooLong`, where the text has more than 2^24
    /// glyphs. Then as 1, `AaltValue`; as 2, `TooLong`, only where substitution makes the line of the text, or of a part
    /// of it, too long; and as 3, `OutOfMemory`, where memory is wanting. Where it is refused there are no glyphs.
    pub fn shape_lines(
        &mut self,
        global: Global,
        alloc: A,
        direction: Direction,
        text: &[TextGlyph],
        features: &[Feature],
        stops: &[LineStop],
        hides_ignorables: bool,
        width: u64,
    ) -> Result<TextLines<A>, AatError>
        ensures font { self.new.font ≡ self.old.font }
        ensures values { self.new.values ≡ self.old.values }
        ensures lines { IfOk result (λ r. AreLines
            (record {
              value = value_along self.old.values direction;
              font = self.old.font;
              direction = direction;
              features = features.now;
              text = text.now;
              stops = stops_behind 0 (length text.now) stops.now;
              hides_ignorables = hides_ignorables;
              width = width;
            })
            (length (stops_behind 0 (length text.now) stops.now)) r.glyphs.items r.lines.items) }
        ensures end { IfOk result (λ r. end_of r.lines.items ≡ length text.now) }
        ensures long { most_text < length text.now → result ≡ Err AatError.TooLong }
        ensures refused { IfErr result (RefusesLines self.old.font direction features.now text.now) }
        ensures fits { OnOk result (first_too_large_among (tables_of self.old.font).feat features.now ≡ None) }
        ensures whole { OnOk result (self.new.glyphs
            ≡ shaped_text (value_along self.old.values direction) self.old.font direction features.now text.now) }
        ensures budget { OnOk result
            (self.new.is_budget_used_up ≡ uses_up_budget self.old.font direction features.now text.now) }
        ensures empty { OnErr result
            (self.new ≡ record self.old { glyphs = []; is_budget_used_up = false }) }
    {
        match self.shape(direction, text, features) {
            Ok(()) => {}
            Err(error) => return Err(error),
        }
        let lines = self.lines_of(
            global,
            alloc,
            direction,
            text,
            features,
            stops,
            hides_ignorables,
            width,
        );
        if lines.is_err() {
            self.forget();
        }
        lines
    }

    /// The lines of the text that was shaped last.
    fn lines_of(
        &self,
        global: Global,
        alloc: A,
        direction: Direction,
        text: &[TextGlyph],
        features: &[Feature],
        stops: &[LineStop],
        hides_ignorables: bool,
        width: u64,
    ) -> Result<TextLines<A>, AatError>
        requires short { length text.now ≤ most_text }
        requires shaped { self.now.glyphs
            ≡ shaped_text (value_along self.now.values direction) self.now.font direction features.now text.now }
        requires bounded { length self.now.glyphs ≤ 0x3FFFFFFF }
        ensures lines { IfOk result (λ r. AreLines
            (record {
              value = value_along self.now.values direction;
              font = self.now.font;
              direction = direction;
              features = features.now;
              text = text.now;
              stops = stops_behind 0 (length text.now) stops.now;
              hides_ignorables = hides_ignorables;
              width = width;
            })
            (length (stops_behind 0 (length text.now) stops.now)) r.glyphs.items r.lines.items) }
        ensures end { IfOk result (λ r. end_of r.lines.items ≡ length text.now) }
        ensures refused { IfErr result (RefusesLines self.now.font direction features.now text.now) }
    {
        if is_row(text.len(), stops) {
            return self.lines_at(
                global,
                alloc,
                direction,
                text,
                features,
                stops,
                hides_ignorables,
                width,
            );
        }
        let row = stops_of(alloc, text.len(), stops)?;
        self.lines_at(
            global,
            alloc,
            direction,
            text,
            features,
            &row,
            hides_ignorables,
            width,
        )
    }

    /// The lines of the text that was shaped last, by stops that rise and end with it.
    fn lines_at(
        &self,
        global: Global,
        alloc: A,
        direction: Direction,
        text: &[TextGlyph],
        features: &[Feature],
        stops: &[LineStop],
        hides_ignorables: bool,
        width: u64,
    ) -> Result<TextLines<A>, AatError>
        requires short { length text.now ≤ most_text }
        requires shaped { self.now.glyphs
            ≡ shaped_text (value_along self.now.values direction) self.now.font direction features.now text.now }
        requires bounded { length self.now.glyphs ≤ 0x3FFFFFFF }
        requires stops { AreStops (length text.now) stops.now }
        ensures lines { IfOk result (λ r. AreLines
            (record {
              value = value_along self.now.values direction;
              font = self.now.font;
              direction = direction;
              features = features.now;
              text = text.now;
              stops = stops.now;
              hides_ignorables = hides_ignorables;
              width = width;
            })
            (length stops.now) r.glyphs.items r.lines.items) }
        ensures end { IfOk result (λ r. end_of r.lines.items ≡ start_of stops.now (length stops.now)) }
        ensures refused { IfErr result (RefusesLines self.now.font direction features.now text.now) }
    {
        let mut alone = self.twin(global);
        let filling = Filling {
            value: self.tracking_along(direction),
            font: self.font(),
            direction,
            features,
            text,
            stops,
            hides_ignorables,
            width,
            whole: self.glyphs(),
        };
        filling.fill(alloc, &mut alone)
    }
}
