//! A context that works in place, counts and marks.
use aat_buffer::hb_buffer_t;
use aat_machine_tables::GenericStateEntry;
use aat_run::{AatError, driver_context_t};
use std::alloc::Allocator;

/// Counts the entries that act, and marks the glyph at the cursor of each.
#[derive(Drop)]
pub struct CountingCtx {
    pub count: u32,
}

impl driver_context_t<u16> for CountingCtx {
    ghost use Rattle.std.specs.Prelude.{false, true};
    ghost use Rattle.aat_machine_tables.specs.Entries.{goes_on};
    ghost use Rattle.aat_run.specs.Laws.{FitsAlways};
    ghost use Rattle.aat_run.specs.facts.IdleRuns.{never_rests};
    ghost use Rattle.aat_tests.specs.Counting as c;
    ghost use Rattle.aat_tests.specs.facts.CountingHolds as laws;

    ghost fits = { FitsAlways };

    ghost is_fresh = { c.IsFresh };

    ghost stays_in_place = { true };

    ghost keeps_length = { true };

    ghost advances = { goes_on };

    ghost resting = { λ e. false };

    ghost actionable = { c.actionable };

    ghost act = { c.act };

    fn in_place(&self) -> bool {
        true
    }

    fn can_advance(&self, entry: &GenericStateEntry<u16>) -> bool {
        entry.has_advance()
    }

    fn acts_by_entries<A: Allocator + Copy>(&self, _buffer: &hb_buffer_t<A>) -> bool {
        false
    }

    fn rests(&self, _entry: &GenericStateEntry<u16>) -> bool {
        false
    }

    fn is_actionable<A: Allocator + Copy>(
        &self,
        entry: &GenericStateEntry<u16>,
        buffer: &hb_buffer_t<A>,
    ) -> bool {
        entry.extra != 0xFFFF && buffer.backtrack_len() < buffer.len()
    }

    fn transition<A: Allocator + Copy>(
        &mut self,
        entry: &GenericStateEntry<u16>,
        buffer: &mut hb_buffer_t<A>,
    ) -> Result<(), AatError> {
        if entry.extra != 0xFFFF && buffer.backtrack_len() < buffer.len() {
            self.count = self.count.saturating_add(1);
            buffer.cur_mut().mask |= 256;
        }
        Ok(())
    }

    ghost rests_alone = { never_rests };

    ghost fits_fresh = { laws.fits_fresh };

    ghost keeps_fit = { laws.keeps_fit };

    ghost passes_fit = { laws.passes_fit };

    ghost pays = { laws.pays };

    ghost bounded = { laws.bounded };

    ghost lengthens = { laws.lengthens };

    ghost makes_no_positions = { laws.makes_no_positions };

    ghost keeps_settings = { laws.keeps_settings };

    ghost keeps_place = { laws.keeps_place };

    ghost keeps_count = { laws.keeps_count };

    ghost keeps_order = { laws.keeps_order };
}
