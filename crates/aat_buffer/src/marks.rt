//! Marks and merges, written over the calls that read and write a glyph at a place or the glyphs of a span.
ghost use Rattle.std.specs.Prelude.{◌≡◌, ◌≢◌, ◌+◌, ◌-◌, ◌<◌, ◌≤◌, ℕ, Some, fold, map, min, length, slice_range};
ghost use Rattle.aat_buffer.specs.Buffer.{glyph_at, with_line};
ghost use Rattle.aat_buffer.specs.inside.Marked.{HasMarks, IsMarked};
ghost use Rattle.aat_buffer.specs.Marks.{on_line_span, cluster_at, least_of, break_marked, unsafe_to_break, unsafe_to_concat, with_cluster, run_after, run_before, merged, merged_out, merge_clusters, merge_out_clusters};

use crate::buffer::hb_buffer_t;
use crate::marked_span::{MarkedSpan, MergedSpan};
use aat_glyph::{BufferFlags, HB_BUFFER_CLUSTER_LEVEL_CHARACTERS, glyph_flag, hb_glyph_info_t};
use bitflags::Flags;
use std::alloc::Allocator;

impl<A: Allocator + Copy> hb_buffer_t<A> {
    /// Notes that the line may not be cut within a span: sets UNSAFE_TO_BREAK and UNSAFE_TO_CONCAT on each
    /// glyph from place `start` up to place `end` whose cluster is not the least of the span. `None` stands for
    /// the start and the end of the line, and an end past the line for its end. A span of fewer than two glyphs
    /// stays. In as many steps as the span is long.
    pub fn unsafe_to_break(&mut self, start: Option<usize>, end: Option<usize>)
        ensures after { self.new ≡ unsafe_to_break self.old start end }
        ensures count { length self.new.line ≡ length self.old.line }
    {
        let len = self.len();
        let from = start.unwrap_or(0);
        let to = end.unwrap_or(len).min(len);
        if from < to && to - from >= 2 {
            if to - from == 2 {
                self.mark_break_pair(from, to);
            } else {
                self.mark_break_span(from, to);
            }
        }
    }

    /// The same as `unsafe_to_break`: all places are places of the line.
    pub fn unsafe_to_break_from_outbuffer(&mut self, start: Option<usize>, end: Option<usize>)
        ensures after { self.new ≡ unsafe_to_break self.old start end }
        ensures count { length self.new.line ≡ length self.old.line }
    {
        self.unsafe_to_break(start, end);
    }

    /// The marks of `unsafe_to_break` on the glyph before the cursor and the one there: the line may not be cut at the
    /// cursor, which has to be before the end and not at the start. In a bounded number of steps.
    pub fn unsafe_to_break_at_cursor(&mut self)
        requires before { 0 < self.old.cursor }
        requires current { self.old.cursor < length self.old.line }
        ensures after { self.new ≡ unsafe_to_break self.old (Some (self.old.cursor - 1)) (Some (self.old.cursor + 1)) }
        ensures count { length self.new.line ≡ length self.old.line }
    {
        let _length = self.len();
        let p = self.backtrack_len();
        self.mark_break_pair(p - 1, p + 1);
    }

    /// Notes that parts shaped apart may not be put together within a span: where the flag
    /// PRODUCE_UNSAFE_TO_CONCAT asks for it, sets UNSAFE_TO_CONCAT on each glyph from place `start` up to place
    /// `end`. `None` and an end past the line are as in `unsafe_to_break`; the span may be of one glyph.
    pub fn unsafe_to_concat(&mut self, start: Option<usize>, end: Option<usize>)
        ensures after { self.new ≡ unsafe_to_concat self.old start end }
        ensures count { length self.new.line ≡ length self.old.line }
    {
        let len = self.len();
        let start = start.unwrap_or(0);
        let end = end.unwrap_or(len).min(len);
        if self.flags().contains(BufferFlags::PRODUCE_UNSAFE_TO_CONCAT) && start < end {
            self.change_span(
                start,
                end,
                |glyph| hb_glyph_info_t {
                    mask: glyph.mask | glyph_flag::UNSAFE_TO_CONCAT,
                    ..*glyph
                },
            );
        }
    }

    /// Makes the glyphs from place `start` up to place `end` one cluster, the least of the span. An end past
    /// the line stands for its end, and a span of fewer than two glyphs stays. Where the span's last glyph has
    /// another cluster than the least, the span first grows right through the glyphs with that cluster; where
    /// its first has, it grows left, but not over the cursor. A glyph whose cluster changes loses its DEFINED
    /// flags. At the level CHARACTERS the clusters stay, and the span gets the marks of `unsafe_to_break`. In
    /// as many steps as the grown span is long.
    pub fn merge_clusters(&mut self, start: usize, end: usize)
        ensures after { self.new ≡ merge_clusters self.old start end }
        ensures count { length self.new.line ≡ length self.old.line }
    {
        let end = end.min(self.len());
        if start < end && end - start >= 2 {
            if self.cluster_level() == HB_BUFFER_CLUSTER_LEVEL_CHARACTERS {
                self.mark_break_span(start, end);
            } else {
                self.merge_span(start, end);
            }
        }
    }

    /// Makes the glyphs from place `start` up to place `end` one cluster, the least of the span, once it has
    /// grown through all glyphs that share its first glyph's cluster on the left and its last glyph's on the
    /// right, over the cursor too. An end past the line, short spans and flags are as in `merge_clusters`. At
    /// the level CHARACTERS nothing changes.
    pub fn merge_out_clusters(&mut self, start: usize, end: usize)
        ensures after { self.new ≡ merge_out_clusters self.old start end }
        ensures count { length self.new.line ≡ length self.old.line }
    {
        let end = end.min(self.len());
        if start < end
            && end - start >= 2
            && self.cluster_level() != HB_BUFFER_CLUSTER_LEVEL_CHARACTERS
        {
            self.merge_out_span(start, end);
        }
    }

    /// The least cluster of a span.
    fn least_cluster(&self, start: usize, end: usize) -> u32
        requires some { start < end }
        requires in_line { end ≤ length self.now.line }
        ensures { result ≡ least_of (slice_range self.now.line start end) }
    {
        let first = self.glyph(start).cluster;
        self.least_from(first, start, end)
    }

    /// The least of a cluster and of those of a span, which may have no glyph.
    fn least_from(&self, cluster: u32, start: usize, end: usize) -> u32
        requires ordered { start ≤ end }
        requires in_line { end ≤ length self.now.line }
        ensures { result ≡ fold (λ m g. min m g.cluster) cluster (slice_range self.now.line start end) }
    {
        let (front, rest) = self.parts(start, end);
        least_with(rest, least_with(front, cluster))
    }

    /// The first place of a span that has a cluster, and its end where none has.
    fn first_with(&self, start: usize, end: usize, cluster: u32) -> usize
        requires ordered { start ≤ end }
        requires in_line { end ≤ length self.now.line }
        ensures from { start ≤ result }
        ensures within { result ≤ end }
        ensures is { result < end → cluster_at self.now.line result ≡ cluster }
        ensures first { (k : ℕ) → start ≤ k → k < result → cluster_at self.now.line k ≢ cluster }
    {
        for i in start..end {
            if self.glyph(i).cluster == cluster {
                return i;
            }
        }
        end
    }

    /// Marks a span. A machine may mark a span again at each glyph that it takes in: then only what is new is walked over.
    fn mark_break_span(&mut self, start: usize, end: usize)
        requires some { start < end }
        requires in_line { end ≤ length self.old.line }
        ensures after { self.new ≡ on_line_span break_marked start end self.old }
        ensures count { length self.new.line ≡ length self.old.line }
    {
        if let Some(span) = self.marked
            && span.start == start
            && span.end <= end
        {
            self.mark_longer(span, end);
            return;
        }
        let least = self.least_cluster(start, end);
        self.mark_other_than(start, end, least);
        self.keep_marked(start, start, end, least);
    }

    /// Marks a span that begins where a marked one does, and is as long or longer. Where its least cluster is that of the
    /// marked one, only what it has more is marked. Else each glyph of the marked one is above it, and those before the first
    /// of the old least cluster are marked already.
    fn mark_longer(&mut self, span: MarkedSpan, end: usize)
        requires marked { HasMarks self.old.line span }
        requires longer { span.end ≤ end }
        requires in_line { end ≤ length self.old.line }
        ensures after { self.new ≡ on_line_span break_marked span.start end self.old }
        ensures count { length self.new.line ≡ length self.old.line }
    {
        if span.end == end {
            return;
        }
        let least = self.least_cluster(span.end, end);
        if span.least <= least {
            self.mark_other_than(span.end, end, span.least);
            self.marked = Some(MarkedSpan { end, ..span });
        } else {
            self.mark_other_than(span.low, end, least);
            self.keep_marked(span.start, span.end, end, least);
        }
    }

    /// Keeps that a span is marked, whose least cluster stands nowhere before a place.
    fn keep_marked(&mut self, start: usize, from: usize, end: usize, least: u32)
        requires ordered { start ≤ from }
        requires some { from < end }
        requires in_line { end ≤ length self.old.line }
        requires above { (k : ℕ) → start ≤ k → k < end → least ≤ cluster_at self.old.line k }
        requires front { (k : ℕ) → start ≤ k → k < from → least < cluster_at self.old.line k }
        requires marked { (k : ℕ) → start ≤ k → k < end → least < cluster_at self.old.line k
            → IsMarked (glyph_at self.old.line k) }
        ensures { self.new ≡ self.old }
    {
        let low = self.first_with(from, end, least);
        if low < end {
            self.marked = Some(MarkedSpan {
                start,
                low,
                end,
                least,
            });
        }
    }

    /// The same of a span of two glyphs: of two clusters the greater one's glyph is marked, without a walk.
    #[tactic(auto, using(crate::proofs::Pairs::same_stay, crate::proofs::Pairs::first_marked, crate::proofs::Pairs::second_marked))]
    fn mark_break_pair(&mut self, start: usize, end: usize)
        requires two { start + 2 ≡ end }
        requires in_line { end ≤ length self.old.line }
        ensures after { self.new ≡ on_line_span break_marked start end self.old }
        ensures count { length self.new.line ≡ length self.old.line }
    {
        let first = self.info(start).cluster;
        let second = self.info(start + 1).cluster;
        if first < second {
            self.mark_glyph(start + 1);
        } else if second < first {
            self.mark_glyph(start);
        }
    }

    fn set_cluster(&mut self, start: usize, end: usize, cluster: u32)
        requires ordered { start ≤ end }
        requires in_line { end ≤ length self.old.line }
        ensures after { self.new ≡ on_line_span (map (with_cluster cluster)) start end self.old }
        ensures count { length self.new.line ≡ length self.old.line }
    {
        self.change_span(start, end, |glyph| clustered_glyph(*glyph, cluster));
    }

    /// The place at which the glyphs from place `end` on stop to have this cluster.
    #[tactic(auto, using(crate::proofs::Runs::run_after_end))]
    fn run_end(&self, end: usize, cluster: u32) -> usize
        requires { end ≤ length self.now.line }
        ensures run { result ≡ end + run_after self.now.line end cluster }
        ensures within { result ≤ length self.now.line }
    {
        let len = self.len();
        for i in end..len {
            if self.glyph(i).cluster != cluster {
                return i;
            }
        }
        len
    }

    /// The place from which on the glyphs before place `start`, but none before place `from`, have this cluster.
    #[tactic(auto, using(crate::proofs::Runs::run_before_end))]
    fn run_start(&self, from: usize, start: usize, cluster: u32) -> usize
        requires ordered { from ≤ start }
        requires in_line { start ≤ length self.now.line }
        ensures run { result ≡ start - run_before self.now.line from start cluster }
        ensures within { from ≤ result }
        ensures ordered { result ≤ start }
    {
        for count in 0..start - from {
            let i = start - count;
            if self.glyph(i - 1).cluster != cluster {
                return i;
            }
        }
        from
    }

    #[tactic(auto, unfolding(crate::specs::Marks::merged))]
    fn merge_span(&mut self, start: usize, end: usize)
        requires long { start + 2 ≤ end }
        requires in_line { end ≤ length self.old.line }
        ensures after { self.new ≡ with_line self.old (merged self.old.line self.old.cursor start end) }
        ensures count { length self.new.line ≡ length self.old.line }
    {
        let least = self.least_cluster(start, end);
        let last = self.glyph(end - 1).cluster;
        let to = if last != least {
            self.run_end(end, last)
        } else {
            end
        };
        let first = self.glyph(start).cluster;
        let cursor = self.backtrack_len();
        let from = if first != least && cursor < start {
            self.run_start(cursor, start, first)
        } else {
            start
        };
        self.set_cluster(from, to, least);
    }

    /// Merges a span that is grown through its ends' clusters. A machine may join each glyph to the same first one: then
    /// only what is new is looked at and written. What has the least cluster already need not be reached either.
    #[tactic(auto, unfolding(crate::specs::Marks::merged_out))]
    fn merge_out_span(&mut self, start: usize, end: usize)
        requires long { start + 2 ≤ end }
        requires in_line { end ≤ length self.old.line }
        ensures after { self.new ≡ with_line self.old (merged_out self.old.line start end) }
        ensures count { length self.new.line ≡ length self.old.line }
    {
        let first = self.glyph(start).cluster;
        let last = self.glyph(end - 1).cluster;
        let known = self.merged_until(start, end);
        let least = self.least_from(first, known, end);
        let from = if first == least {
            known
        } else {
            self.run_start(0, start, first)
        };
        let to = if last == least {
            end
        } else {
            self.run_end(end, last)
        };
        self.set_cluster(from, to, least);
        let start = from.min(start);
        self.merged = Some(MergedSpan {
            start,
            end: to,
            cluster: least,
        });
        // no glyph of one cluster is above another one
        self.marked = Some(MarkedSpan {
            start,
            low: start,
            end: to,
            least,
        });
    }

    /// A place behind the start of a span up to which its glyphs are known to be one cluster.
    fn merged_until(&self, start: usize, end: usize) -> usize
        requires some { start < end }
        requires in_line { end ≤ length self.now.line }
        ensures behind { start < result }
        ensures within { result ≤ end }
        ensures one { (k : ℕ) → start ≤ k → k < result → cluster_at self.now.line k ≡ cluster_at self.now.line start }
    {
        match self.merged {
            Some(span) if span.start <= start && start < span.end => span.end.min(end),
            _ => start + 1,
        }
    }
}

/// The least of a cluster and those of some glyphs.
fn least_with(glyphs: &[hb_glyph_info_t], cluster: u32) -> u32
    ensures { result ≡ fold (λ m g. min m g.cluster) cluster glyphs.now }
{
    let mut least = cluster;
    for glyph in glyphs {
        least = least.min(glyph.cluster);
    }
    least
}

fn clustered_glyph(glyph: hb_glyph_info_t, cluster: u32) -> hb_glyph_info_t
    ensures { result ≡ with_cluster cluster glyph }
{
    if glyph.cluster == cluster {
        return glyph;
    }
    hb_glyph_info_t {
        cluster,
        mask: glyph.mask & !glyph_flag::DEFINED,
        ..glyph
    }
}
