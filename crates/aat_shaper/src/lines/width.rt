//! How wide the glyphs of a line are.
ghost use Rattle.std.specs.Prelude.{◌≡◌, ◌≤◌, ◌*◌, ◌≤ℤ◌, ◌+ℤ◌, ◌↔◌, IsTrue, length, negsuc, pos, slice_range};
ghost use Rattle.aat_shaper.specs.Lines.{room_of, width_of};
ghost use Rattle.aat_shaper.specs.inside.Filling.{HangsFrom, IsReady, IsSummed, IsWithin, glyphs_of, paragraph_of, room_of_all};

use crate::lines::filling::Filling;
use crate::lines::tries::LineGlyphs;
use aat_shaped_text::ShapedGlyph;

/// A stretch of what is drawn of the whole text whose room was summed up.
#[derive(Clone, Copy)]
pub(crate) struct Summed {
    /// Where it begins.
    pub(crate) from: usize,
    /// Where it ends.
    pub(crate) to: usize,
    /// The room that its glyphs take where none hangs.
    pub(crate) sum: i64,
    /// From which cluster on what hangs is none of its glyphs.
    pub(crate) past: u32,
}

impl Summed {
    /// Whether none of its glyphs hangs where something hangs from a cluster on, or nothing.
    fn counts_where(self, hang: Option<u32>) -> bool
        ensures { IsTrue result → HangsFrom self.past hang }
    {
        match hang {
            None => true,
            Some(cluster) => self.past <= cluster,
        }
    }
}

impl Filling<'_> {
    /// The room that a glyph takes along the line.
    pub(crate) fn room_of(&self, hang: Option<u32>, glyph: &ShapedGlyph) -> i64
        ensures value { result ≡ room_of (paragraph_of self.now) hang glyph.now }
        ensures low { negsuc 0x7FFF_FFFF ≤ℤ result }
        ensures high { result ≤ℤ pos 0x7FFF_FFFF }
    {
        let advance = if self.direction.is_horizontal() {
            glyph.x_advance
        } else {
            glyph.y_advance
        };
        // Both are read, so that a loop over glyphs has no branch for it.
        let is_hidden = self.hides_ignorables & glyph.is_ignorable;
        let hangs = match hang {
            None => false,
            Some(cluster) => glyph.cluster >= cluster,
        };
        if is_hidden || hangs {
            0
        } else {
            i64::from(advance)
        }
    }

    /// The room that glyphs take.
    fn room_of_all(&self, hang: Option<u32>, glyphs: &[ShapedGlyph]) -> i64
        requires { length glyphs.now ≤ 0x3FFFFFFF }
        ensures value { result ≡ room_of_all (paragraph_of self.now) hang glyphs.now }
        ensures low { pos 0 ≤ℤ (result +ℤ pos (0x8000_0000 * length glyphs.now)) }
        ensures high { result ≤ℤ pos (0x8000_0000 * length glyphs.now) }
    {
        let mut sum: i64 = 0;
        for glyph in glyphs {
            sum += self.room_of(hang, glyph);
        }
        sum
    }

    /// The room that a stretch of what is drawn of the whole text takes. What was summed up of it is not summed again.
    fn room_of_stretch(&self, hang: Option<u32>, from: usize, to: usize, summed: Summed) -> i64
        requires ready { IsReady self.now }
        requires summed { IsSummed self.now summed }
        requires order { from ≤ to }
        requires within { to ≤ length self.now.whole.now }
        ensures { result ≡ room_of_all (paragraph_of self.now) hang (slice_range self.now.whole.now from to) }
    {
        if !summed.counts_where(hang) || summed.from < from || to < summed.to {
            return self.room_of_all(hang, &self.whole[from..to]);
        }
        let before = self.room_of_all(hang, &self.whole[from..summed.from]);
        let behind = self.room_of_all(hang, &self.whole[summed.to..to]);
        before + summed.sum + behind
    }

    /// Whether the glyphs of a line are no wider than one.
    pub(crate) fn has_room(
        &self,
        hang: Option<u32>,
        glyphs: LineGlyphs,
        alone: &[ShapedGlyph],
        summed: Summed,
    ) -> bool
        requires ready { IsReady self.now }
        requires summed { IsSummed self.now summed }
        requires within { IsWithin (length self.now.whole.now) glyphs }
        requires bounded { length (glyphs_of glyphs self.now.whole.now alone.now) ≤ 0x3FFFFFFF }
        ensures { IsTrue result
            ↔ (width_of (paragraph_of self.now) hang (glyphs_of glyphs self.now.whole.now alone.now) ≤ self.now.width) }
    {
        let room = match glyphs {
            LineGlyphs::Stretch(from, to) => self.room_of_stretch(hang, from, to, summed),
            LineGlyphs::Alone => self.room_of_all(hang, alone),
        };
        room.unsigned_abs() <= self.width
    }
}
