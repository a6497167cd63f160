//! The removal of glyphs, written over the calls that read, write and move one glyph.
ghost use Rattle.std.specs.Prelude.{Bool, ℕ, None, ◌≡◌, ◌+◌, ◌-◌, ◌<◌, ◌≤◌, length, map, is_some, option_map, vec_len, IfSome, remove};
ghost use Rattle.std.specs.Bool.{OnTrue, OnFalse};
ghost use Rattle.aat_buffer.specs.Buffer.{with_line, without_positions};
ghost use Rattle.aat_buffer.specs.Clusters.{ids, KeepsOrder};
ghost use Rattle.aat_buffer.specs.inside.Carried.{carried, items_of};
ghost use Rattle.aat_buffer.specs.Marks.{cluster_at, run_before};
ghost use Rattle.aat_buffer.specs.inside.Pending.{IsPending, IsReached, lowers, run_written, shown, shown_line, with_place};
ghost use Rattle.aat_buffer.specs.Removal.{AnswersBy, AnswersByIds, HasNoneOf, other_ids, lowered_run, with_cluster_kept, removal_step, removed, without_glyph_at_cursor};

use crate::buffer::hb_buffer_t;
use crate::pending_runs::{PendingRuns, with_cluster_and_flags};
use aat_glyph::{GlyphPosition, hb_glyph_info_t};
use std::alloc::Allocator;

impl<A: Allocator + Copy> hb_buffer_t<A> {
    /// Takes the glyphs that the filter names out, from the first to the last, and puts the cursor at the
    /// start. The others keep their order and their positions, which stand where they stood. The filter is
    /// asked of the record of each glyph as it stands then; what it names goes, and its cluster is kept:
    ///
    /// - by the next glyph, where that one has it;
    /// - else, where glyphs were kept, by the last of them and all before it that share its cluster, if they
    ///   have a higher one: they get that of the glyph that goes, with its DEFINED flags;
    /// - else by the next glyph: the two merge as by `merge_clusters`.
    ///
    /// Clusters that never fall along the line never fall afterwards, and those that never rise never rise, at every
    /// cluster level and for every filter. Each cluster stood on the line before. For a filter that asks glyph ids
    /// alone, no glyph is left that it names, and the ids of the others stay in their order.
    ///
    /// In as many steps as the line is long.
    pub fn delete_glyphs_inplace<F: Fn(&hb_glyph_info_t) -> bool>(&mut self, filter: F)
    where
        F: Drop,
        requires { F.IsAlwaysCallable filter }
        ensures after { (test : hb_glyph_info_t → Bool) → AnswersBy F.Fn filter test
            → self.new ≡ removed test self.old }
        ensures none { (test : ℕ → Bool) → AnswersByIds F.Fn filter test → HasNoneOf test self.new.line }
        ensures others { (test : ℕ → Bool) → AnswersByIds F.Fn filter test
            → ids self.new.line ≡ other_ids test self.old.line }
        ensures order { KeepsOrder self.old.line self.new.line }
        ensures count { length self.new.line ≤ length self.old.line }
        ensures at_start { self.new.cursor ≡ 0 }
        ensures standing { is_some self.new.positions ≡ is_some self.old.positions }
    {
        let len = self.len();
        let mut positions = self.take_positions();
        self.sync();
        let mut runs = PendingRuns { count: 0, last: 0 };
        for i in 0..len {
            let kept = self.backtrack_len();
            let goes = filter(&self.glyph(kept));
            carry_down(&mut positions, goes, kept, i);
            runs = self.remove_or_keep(goes, runs);
        }
        self.write_runs(runs);
        self.sync();
        if let Some(mut positions) = positions {
            positions.truncate(self.len());
            self.put_positions(positions);
        }
    }

    /// Takes the glyph at the cursor out, or moves over it. Positions are not carried along. Answers the runs
    /// that are pending then.
    fn remove_or_keep(&mut self, goes: bool, runs: PendingRuns) -> PendingRuns
        requires some { self.old.cursor < length self.old.line }
        requires pending { IsPending self.old runs.count runs.last }
        ensures after { without_positions (shown result.count result.last self.new)
            ≡ without_positions (removal_step (λ _. goes) (shown runs.count runs.last self.old)) }
        ensures pending { IsPending self.new result.count result.last }
        ensures bare { self.old.positions ≡ None → self.new.positions ≡ None }
        ensures rest { length self.new.line + self.old.cursor + 1 ≡ length self.old.line + self.new.cursor }
        ensures step { self.new.cursor ≤ self.old.cursor + 1 }
    {
        if !goes {
            self.next_glyph();
            runs
        } else if self.backtrack_len() == 0 {
            self.remove_first();
            PendingRuns { count: 0, last: 0 }
        } else {
            self.remove_behind(runs)
        }
    }

    /// Takes the first glyph out, where none is kept.
    #[tactic(auto, unfolding(crate::specs::Removal::cluster_kept_line))]
    fn remove_first(&mut self)
        requires start { self.old.cursor ≡ 0 }
        requires some { 0 < length self.old.line }
        ensures after { self.new ≡ without_positions (without_glyph_at_cursor (with_cluster_kept self.old)) }
        ensures count { length self.new.line + 1 ≡ length self.old.line }
    {
        if self.len() > 1 && self.glyph(1).cluster != self.glyph(0).cluster {
            self.merge_clusters(0, 2);
        }
        self.skip_glyph();
    }

    /// Takes the glyph at the cursor out, behind kept ones.
    fn remove_behind(&mut self, runs: PendingRuns) -> PendingRuns
        requires kept { 0 < self.old.cursor }
        requires some { self.old.cursor < length self.old.line }
        requires pending { IsPending self.old runs.count runs.last }
        ensures after { shown result.count result.last self.new
            ≡ without_positions (without_glyph_at_cursor (with_cluster_kept (shown runs.count runs.last self.old))) }
        ensures pending { IsPending self.new result.count result.last }
        ensures count { length self.new.line + 1 ≡ length self.old.line }
    {
        let glyph = self.glyph(self.backtrack_len());
        let lowers = self.lowers();
        self.skip_glyph();
        if lowers {
            self.lower(runs, glyph)
        } else {
            runs
        }
    }

    /// Whether the glyph at the cursor, which goes, lowers the cluster of the kept ones.
    fn lowers(&self) -> bool
        requires kept { 0 < self.now.cursor }
        requires some { self.now.cursor < length self.now.line }
        ensures { result ≡ lowers self.now.line self.now.cursor }
    {
        let p = self.backtrack_len();
        let len = self.len();
        let cluster = self.glyph(p).cluster;
        !(p + 1 < len && self.glyph(p + 1).cluster == cluster)
            && cluster < self.glyph(p - 1).cluster
    }

    /// Gives the last kept glyph, and with it all before it that share its cluster, the cluster and the flags of
    /// `glyph`. Where they are three or more that is written at the last one alone, and the run is pending.
    fn lower(&mut self, runs: PendingRuns, glyph: hb_glyph_info_t) -> PendingRuns
        requires kept { 0 < self.old.cursor }
        requires pending { IsPending self.old runs.count runs.last }
        ensures after { shown result.count result.last self.new
            ≡ with_line self.old (lowered_run (shown_line runs.count runs.last self.old.line) self.old.cursor
            (cluster_at self.old.line (self.old.cursor - 1)) glyph) }
        ensures pending { IsPending self.new result.count result.last }
        ensures count { length self.new.line ≡ length self.old.line }
    {
        let last = self.backtrack_len() - 1;
        let (first, below) = self.reached(runs);
        self.set_glyph(last, with_cluster_and_flags(self.glyph(last), glyph));
        if last - first < 2 {
            self.write_run(first, last);
            return below;
        }
        self.set_place(last - 1, first as u32);
        self.set_place(first, below.last);
        PendingRuns {
            count: below.count + 1,
            last: last as u32,
        }
    }

    /// Lets the glyph at place `i` hold another place for its cluster.
    fn set_place(&mut self, i: usize, place: u32)
        requires { i < length self.old.line }
        ensures { self.new ≡ with_line self.old (with_place self.old.line i place) }
    {
        self.info_mut(i).cluster = place;
    }

    /// The place that the glyph at place `i` holds.
    fn place_at(&self, i: usize) -> u32
        requires { i < length self.now.line }
        ensures { result ≡ cluster_at self.now.line i }
    {
        self.glyph(i).cluster
    }

    /// The place from which on the kept glyphs have the cluster of the last one, and the runs that stand before it.
    fn reached(&self, runs: PendingRuns) -> (usize, PendingRuns)
        requires kept { 0 < self.now.cursor }
        requires pending { IsPending self.now runs.count runs.last }
        ensures reached { IsReached self.now.line runs.count runs.last
            (cluster_at self.now.line (self.now.cursor - 1)) self.now.cursor
            result.0 result.1.count result.1.last }
        ensures ends { run_before (shown_line runs.count runs.last self.now.line) 0 result.0
            (cluster_at self.now.line (self.now.cursor - 1)) ≡ 0 }
        ensures some { result.0 < self.now.cursor }
        ensures few { result.1.count ≤ result.0 }
    {
        let p = self.backtrack_len();
        let cluster = self.glyph(p - 1).cluster;
        let mut first = p;
        let mut count = runs.count;
        let mut last = runs.last;
        while first > 0 && self.glyph(first - 1).cluster == cluster {
            if count > 0 && last as usize == first - 1 {
                first = self.place_at(last as usize - 1) as usize;
                last = self.place_at(first);
                count -= 1;
            } else {
                first -= 1;
            }
        }
        (first, PendingRuns { count, last })
    }

    /// Writes the pending runs.
    fn write_runs(&mut self, runs: PendingRuns)
        requires { IsPending self.old runs.count runs.last }
        ensures after { self.new ≡ shown runs.count runs.last self.old }
        ensures count { length self.new.line ≡ length self.old.line }
    {
        let mut count = runs.count;
        let mut last = runs.last;
        while count > 0 {
            let first = self.place_at(last as usize - 1) as usize;
            let below = self.place_at(first);
            self.write_run(first, last as usize);
            last = below;
            count -= 1;
        }
    }

    fn write_run(&mut self, first: usize, last: usize)
        requires ordered { first ≤ last }
        requires in_line { last < length self.old.line }
        ensures after { self.new ≡ with_line self.old (run_written first last self.old.line) }
        ensures count { length self.new.line ≡ length self.old.line }
    {
        let like = self.glyph(last);
        self.change_span(first, last, |glyph| with_cluster_and_flags(*glyph, like));
    }
}

/// Carries the position at place `i` down behind those of the kept glyphs, unless its glyph goes.
#[tactic(auto, using(crate::proofs::Removing::carried_gone))]
fn carry_down<A: Allocator>(
    positions: &mut Option<Vec<GlyphPosition, A>>,
    goes: bool,
    kept: usize,
    i: usize,
)
    requires below { kept ≤ i }
    requires in_line { IfSome positions.old (λ qs. i < vec_len qs) }
    ensures gone { OnTrue goes (option_map (carried kept (i + 1)) (items_of positions.new)
        ≡ option_map (λ qs. remove qs kept) (option_map (carried kept i) (items_of positions.old))) }
    ensures stays { OnFalse goes (option_map (carried (kept + 1) (i + 1)) (items_of positions.new)
        ≡ option_map (carried kept i) (items_of positions.old)) }
    ensures count { (n : ℕ) → IfSome positions.old (λ qs. vec_len qs ≡ n)
        → IfSome positions.new (λ qs. vec_len qs ≡ n) }
    ensures standing { is_some positions.new ≡ is_some positions.old }
{
    match positions {
        Some(positions) if !goes => positions[kept] = positions[i],
        _ => {}
    }
}
