//! Where what is drawn of a text is cut where the text is.
ghost use Rattle.std.specs.Prelude.{◌≡◌, ◌<◌, ◌≤◌, IfSome, length, map, slice_range};
ghost use Rattle.aat_glyph.specs.Directions.{is_backward};
ghost use Rattle.aat_shaped_text.specs.Parts.{looks};
ghost use Rattle.aat_shaped_text.specs.ShapedText.{shaped_text};
ghost use Rattle.aat_shaper.specs.inside.Filling.{IsCut, IsOpen, IsReady};

use crate::lines::filling::Filling;
use crate::lines::width::Summed;
use aat_layout::buffer::Direction;
use aat_shaped_text::ShapedGlyph;
use aat_shaped_text::laws::{parts_keep_breaks, texts_are_drawn_in_parts};

/// How many places on either side of the guess are searched before the whole line is.
const NEAR: usize = 256;

/// Whether a glyph of what is drawn stands before where a cluster begins or, in a backward text, ends.
fn is_before(direction: Direction, cluster: u32, glyph: &ShapedGlyph) -> bool {
    if direction.is_backward() {
        glyph.cluster >= cluster
    } else {
        glyph.cluster < cluster
    }
}

/// Whether a cluster begins at a place or, in a backward text, ends there.
fn is_edge(direction: Direction, glyphs: &[ShapedGlyph], cluster: u32, place: usize) -> bool {
    place <= glyphs.len()
        && (place == 0 || is_before(direction, cluster, &glyphs[place - 1]))
        && (place == glyphs.len() || !is_before(direction, cluster, &glyphs[place]))
}

/// Where in drawing order, of what is drawn of a text whose clusters never fall, a cluster begins or, in a backward
/// text, ends. It is looked for at a place first, then at the next one of the text, since mostly one space hangs there,
/// and then near it, since lines are short.
pub(crate) fn edge_of(
    direction: Direction,
    glyphs: &[ShapedGlyph],
    cluster: u32,
    near: usize,
) -> usize {
    if is_edge(direction, glyphs, cluster, near) {
        return near;
    }
    let next = if direction.is_backward() {
        near.saturating_sub(1)
    } else {
        near.saturating_add(1)
    };
    if is_edge(direction, glyphs, cluster, next) {
        return next;
    }
    let low = near.saturating_sub(NEAR).min(glyphs.len());
    let high = near.saturating_add(NEAR).min(glyphs.len());
    let begins = low == 0 || is_before(direction, cluster, &glyphs[low - 1]);
    let ends = high == glyphs.len() || !is_before(direction, cluster, &glyphs[high]);
    let (from, to) = if begins && ends {
        (low, high)
    } else {
        (0, glyphs.len())
    };
    from + glyphs[from..to].partition_point(|glyph| is_before(direction, cluster, glyph))
}

impl Filling<'_> {
    /// Where what is drawn of the whole text may be broken at a place inside the text.
    fn opening_at(&self, place: usize, near: usize) -> Option<usize>
        requires ready { IsReady self.now }
        requires inside { 0 < place }
        requires in_text { place < length self.now.text.now }
        ensures { IfSome result (λ k. IsOpen self.now.text.now self.now.whole.now k place) }
    {
        let cluster = self.text[place].cluster;
        if self.text[place - 1].cluster == cluster {
            return None;
        }
        let k = edge_of(self.direction, self.whole, cluster, near);
        if k == 0 || k >= self.whole.len() || !self.whole[k].may_break_before {
            return None;
        }
        if self.whole[k - 1].cluster.max(self.whole[k].cluster) == cluster {
            Some(k)
        } else {
            None
        }
    }

    /// Where what is drawn of the whole text parts as the text does at a place.
    fn cut_at(&self, place: usize, near: usize) -> Option<usize>
        requires ready { IsReady self.now }
        requires in_text { place ≤ length self.now.text.now }
        ensures { IfSome result (λ k.
            IsCut (is_backward self.now.direction) self.now.text.now self.now.whole.now k place) }
    {
        let is_backward = self.direction.is_backward();
        if place == 0 {
            Some(if is_backward { self.whole.len() } else { 0 })
        } else if place == self.text.len() {
            Some(if is_backward { 0 } else { self.whole.len() })
        } else {
            self.opening_at(place, near)
        }
    }

    /// The ends of what was summed up, as the text is read.
    fn ends_of(&self, summed: Summed) -> (usize, usize) {
        if self.direction.is_backward() {
            (summed.to, summed.from)
        } else {
            (summed.from, summed.to)
        }
    }

    /// The stretch of what is drawn of the whole text that looks as its part between two places does by itself, if the
    /// text may be broken at both. They are looked for near the ends of what was summed up first.
    pub(crate) fn stretch_between(
        &self,
        start: usize,
        end: usize,
        summed: Summed,
    ) -> Option<(usize, usize)>
        requires ready { IsReady self.now }
        requires order { start < end }
        requires in_text { end ≤ length self.now.text.now }
        ensures within { IfSome result (λ r. (r.0 < r.1) × (r.1 ≤ length self.now.whole.now)) }
        ensures alone { IfSome result (λ r. map looks (slice_range self.now.whole.now r.0 r.1)
            ≡ map looks (shaped_text self.now.value self.now.font.now self.now.direction self.now.features.now
            (slice_range self.now.text.now start end))) }
    {
        texts_are_drawn_in_parts();
        parts_keep_breaks();
        let (near_start, near_end) = self.ends_of(summed);
        let first = self.cut_at(start, near_start)?;
        let last = self.cut_at(end, near_end)?;
        let (from, to) = if self.direction.is_backward() {
            (last, first)
        } else {
            (first, last)
        };
        if from < to && to <= self.whole.len() {
            Some((from, to))
        } else {
            None
        }
    }
}
