//! Rearrangement: spans of a line whose ends change their places.
ghost use Rattle.std.specs.Prelude.{◌≡◌, ◌+◌, ◌-◌, ◌<◌, ◌≤◌, length, min, IsOk, IsPermutation, OnOk, IfErr, OnErr};
ghost use Rattle.aat_buffer.specs.Clusters.{IsSmall, ids};
ghost use Rattle.aat_buffer.specs.Marks.{merge_clusters};
ghost use Rattle.aat_run.specs.Driven.{IsRefusal, IsRefused};
ghost use Rattle.aat_run.specs.Laws.{FitsFresh};
ghost use Rattle.aat_kinds.specs.Rearrangement.{IsFit, act, fresh, is_within, moved, size_of, with_marks};

use crate::rearrangement_span::move_span;
use crate::verb::{Verb, verb_of};
use aat_buffer::{HB_BUFFER_CLUSTER_LEVEL_CHARACTERS, hb_buffer_t};
use aat_font::rearrangement_entry_rests;
use aat_machine_tables::GenericStateEntry;
use aat_machine_tables::entry_bits::rearrangement::{MARK_FIRST, MARK_LAST, VERB};
use aat_run::{AatError, driver_context_t};
use std::alloc::Allocator;
use std::marker::Model;

/// How many glyphs a span has at most that is moved, in a context by `RearrangementCtx::new`.
pub const MAX_CONTEXT_LENGTH: usize = 64;

/// The registers of a rearrangement machine: the span that its entries have marked. A span of more than `LONGEST`
/// glyphs stays, as does one that has fewer glyphs than its verb names.
///
/// A contract sees it as the record `Registers`. It takes no memory, so that a run over it is never refused.
///
/// Apple's TrueType Reference Manual, "The 'morx' table", rearrangement subtable.
#[derive(Drop)]
pub struct RearrangementCtx<const LONGEST: usize> {
    start: usize,
    end: usize,
}

impl<const LONGEST: usize> Model for RearrangementCtx<LONGEST> {
    ghost use Rattle.aat_kinds.specs.Rearrangement.{Registers};

    ghost Value = { Registers };

    ghost view = { λ m. record { start = m.start; end = m.end } };
}

impl RearrangementCtx<MAX_CONTEXT_LENGTH> {
    /// An empty span at the front of the line, of which at most `MAX_CONTEXT_LENGTH` glyphs are moved. It fits at the
    /// front of each line.
    pub fn new() -> Self
        ensures value { result ≡ fresh }
        ensures fits { FitsFresh IsFit result }
    {
        RearrangementCtx::with_longest()
    }
}

impl<const LONGEST: usize> RearrangementCtx<LONGEST> {
    /// An empty span at the front of the line, of which at most `LONGEST` glyphs are moved. It fits at the front of
    /// each line.
    #[tactic(auto, using(crate::specs::facts::RearrangementLaws::fits_fresh))]
    pub fn with_longest() -> Self
        ensures value { result ≡ fresh }
        ensures fits { FitsFresh IsFit result }
    {
        RearrangementCtx { start: 0, end: 0 }
    }

    /// The span that the entries have marked: how many glyphs stand before its first one, and before the one behind its
    /// last. It has no glyph where the second number is not above the first.
    pub fn span(&self) -> (usize, usize)
        ensures start { result.0 ≡ self.now.start }
        ensures end { result.1 ≡ self.now.end }
    {
        (self.start, self.end)
    }

    /// Sets the marks that an entry asks for: the start at the cursor, the end behind the glyph at it.
    fn set_marks(&mut self, entry: &GenericStateEntry<()>, cursor: usize, len: usize)
        requires { len ≤ 0x3FFFFFFF }
        ensures { self.new ≡ with_marks entry.now self.old cursor len }
    {
        if entry.flags & MARK_FIRST != 0 {
            self.start = cursor;
        }
        if entry.flags & MARK_LAST != 0 {
            self.end = if cursor < len { cursor + 1 } else { len };
        }
    }

    /// Whether the span has all glyphs that a verb names, and is not too long.
    fn is_within(&self, verb: Verb) -> bool
        ensures { result ≡ is_within LONGEST verb self.now }
    {
        let len = self.end.saturating_sub(self.start);
        verb.front.size() + verb.back.size() <= len && len <= LONGEST
    }

    /// Merges the clusters from the start of the span to the cursor, and then those of the span. Where the span ends
    /// right behind the cursor, the second merge is left out, since it would change nothing; at the level CHARACTERS it
    /// is done.
    #[tactic(auto, using(aat_buffer::specs::facts::MergedTwice::merged_again))]
    fn merge_marked<A: Allocator + Copy>(&self, buffer: &mut hb_buffer_t<A>)
        requires some { self.now.start < self.now.end }
        requires in_line { self.now.end ≤ length buffer.old.line }
        ensures after { buffer.new ≡
            merge_clusters
            (merge_clusters buffer.old self.now.start (min (buffer.old.cursor + 1) (length buffer.old.line)))
            self.now.start self.now.end }
        ensures count { length buffer.new.line ≡ length buffer.old.line }
    {
        let len = buffer.len();
        let marked = buffer.backtrack_len() + 1;
        buffer.merge_clusters(self.start, marked.min(len));
        if marked == self.end && buffer.cluster_level() != HB_BUFFER_CLUSTER_LEVEL_CHARACTERS {
            return;
        }
        buffer.merge_clusters(self.start, self.end);
    }

    /// Merges the clusters up to the cursor and those of the span, and then moves the span.
    #[tactic(auto, unfolding(crate::specs::Rearrangement::moved))]
    fn move_marked<A: Allocator + Copy>(&self, verb: Verb, buffer: &mut hb_buffer_t<A>)
        requires room { size_of verb.front + size_of verb.back ≤ self.now.end - self.now.start }
        requires some { self.now.start < self.now.end }
        requires in_line { self.now.end ≤ length buffer.old.line }
        ensures { buffer.new ≡ moved verb self.now buffer.old }
    {
        self.merge_marked(buffer);
        move_span(verb, buffer, self.start, self.end);
    }
}

impl<const LONGEST: usize> driver_context_t<()> for RearrangementCtx<LONGEST> {
    ghost use Rattle.std.specs.Prelude.{true};
    ghost use Rattle.aat_machine_tables.specs.Entries.{goes_on};
    ghost use Rattle.aat_font.specs.Idle.{rearrangement_rests};
    ghost use Rattle.aat_kinds.specs.facts.Resting.{rearrangement_rest};
    ghost use Rattle.aat_kinds.specs.Rearrangement as rearrangement;
    ghost use Rattle.aat_kinds.specs.facts.RearrangementLaws as laws;
    ghost use Rattle.aat_kinds.specs.facts.RearrangementKeeps as keeps;

    ghost fits = { rearrangement.IsFit };

    ghost is_fresh = { rearrangement.IsFresh };

    ghost stays_in_place = { true };

    ghost keeps_length = { true };

    ghost advances = { goes_on };

    ghost resting = { rearrangement_rests };

    ghost actionable = { rearrangement.actionable };

    ghost act = { rearrangement.act LONGEST };

    fn in_place(&self) -> bool {
        true
    }

    fn can_advance(&self, entry: &GenericStateEntry<()>) -> bool {
        entry.has_advance()
    }

    fn acts_by_entries<A: Allocator + Copy>(&self, _buffer: &hb_buffer_t<A>) -> bool {
        // by an empty span no entry is actionable
        self.start < self.end
    }

    fn rests(&self, entry: &GenericStateEntry<()>) -> bool {
        rearrangement_entry_rests(entry)
    }

    fn is_actionable<A: Allocator + Copy>(
        &self,
        entry: &GenericStateEntry<()>,
        _buffer: &hb_buffer_t<A>,
    ) -> bool {
        // all parts are asked, since no processor foresees each of them
        (entry.flags & VERB != 0) & (self.start < self.end)
    }

    /// Does what the entry says. The glyph ids are permuted. Never refused. The registers have to fit, and each glyph
    /// id has to be at most 0xFFFF, and is so again.
    // two runs take it, of which one closes what acts look at; a turn of either needs no call
    #[inline(always)]
    #[tactic(auto, unfolding(crate::specs::Rearrangement::act))]
    fn transition<A: Allocator + Copy>(
        &mut self,
        entry: &GenericStateEntry<()>,
        buffer: &mut hb_buffer_t<A>,
    ) -> Result<(), AatError>
        requires fit { IsFit self.old buffer.old.cursor (length buffer.old.line) }
        requires ids { IsSmall buffer.old }
        ensures taken { IsOk result }
        ensures act { OnOk result (
            record { registers = self.new; buffer = buffer.new } ≡ act LONGEST entry.now self.old buffer.old) }
        ensures ids { OnOk result (IsSmall buffer.new) }
        ensures reason { IfErr result (IsRefusal buffer.old (act LONGEST entry.now self.old buffer.old).buffer) }
        ensures refused { OnErr result (IsRefused buffer.old buffer.new) }
        ensures permutes { IsPermutation (ids buffer.old.line) (ids buffer.new.line) }
    {
        self.set_marks(entry, buffer.backtrack_len(), buffer.len());
        let verb = verb_of(entry);
        if self.is_actionable(entry, buffer) && self.is_within(verb) {
            self.move_marked(verb, buffer);
        }
        Ok(())
    }

    ghost rests_alone = { rearrangement_rest LONGEST };

    ghost fits_fresh = { laws.fits_where_fresh };

    ghost keeps_fit = { laws.keeps_fit LONGEST };

    ghost passes_fit = { laws.passes_fit };

    ghost pays = { laws.pays LONGEST };

    ghost bounded = { laws.bounded LONGEST };

    ghost lengthens = { laws.lengthens LONGEST };

    ghost makes_no_positions = { keeps.makes_no_positions LONGEST };

    ghost keeps_settings = { laws.keeps_settings LONGEST };

    ghost keeps_place = { λ yes. keeps.keeps_place LONGEST };

    ghost keeps_count = { λ yes. laws.keeps_length LONGEST };

    ghost keeps_order = { keeps.keeps_order LONGEST };
}
