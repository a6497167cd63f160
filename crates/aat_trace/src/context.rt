//! A context that notes what the acts of another one change.
ghost use Rattle.std.specs.Prelude.{◌≡◌};

use crate::log::Log;
use crate::reach::{Reach, Transition};
use aat_buffer::hb_buffer_t;
use aat_machine_tables::entry_bits::insertion::MARKED_INSERT_COUNT;
use aat_machine_tables::{Acting, GenericStateEntry};
use aat_run::{AatError, driver_context_t};
use std::alloc::Allocator;
use std::marker::Model;

/// A context, and the log in which its acts are noted. A contract sees the context alone, so that a run over it is that
/// of the context, whatever is noted.
///
/// What an act changed is looked for behind each transition: an entry of rearrangement that sets a mark by itself may
/// act though `is_actionable`, which is asked of the registers before it, says that it does not.
#[derive(Drop)]
pub(crate) struct Traced<'a, C> {
    inner: C,
    log: &'a mut Log,
}

impl<'a, C> Model for Traced<'a, C> {
    ghost Value = { C };

    ghost view = { λ m. m.inner };
}

impl<'a, C> Traced<'a, C> {
    /// A context whose acts on the line of a buffer are noted, which change such glyphs.
    pub(crate) fn new<A: Allocator + Copy>(
        inner: C,
        reach: Reach,
        log: &'a mut Log,
        buffer: &hb_buffer_t<A>,
    ) -> Traced<'a, C>
        ensures { result ≡ inner }
    {
        log.begin(reach, buffer);
        Traced { inner, log }
    }
}

impl<'a, T: Acting, C: driver_context_t<T>> driver_context_t<T> for Traced<'a, C> {
    ghost use Rattle.std.specs.Prelude.{false};
    ghost use Rattle.aat_run.specs.facts.IdleRuns.{never_rests};

    ghost fits = { C.fits };

    ghost is_fresh = { C.is_fresh };

    ghost stays_in_place = { C.stays_in_place };

    ghost keeps_length = { C.keeps_length };

    ghost advances = { C.advances };

    ghost resting = { λ e. false };

    ghost actionable = { C.actionable };

    ghost act = { C.act };

    fn in_place(&self) -> bool {
        self.inner.in_place()
    }

    fn can_advance(&self, entry: &GenericStateEntry<T>) -> bool {
        self.inner.can_advance(entry)
    }

    fn acts_by_entries<A: Allocator + Copy>(&self, buffer: &hb_buffer_t<A>) -> bool {
        self.inner.acts_by_entries(buffer)
    }

    /// No entry rests, since each transition is counted.
    fn rests(&self, _entry: &GenericStateEntry<T>) -> bool {
        false
    }

    fn is_actionable<A: Allocator + Copy>(
        &self,
        entry: &GenericStateEntry<T>,
        buffer: &hb_buffer_t<A>,
    ) -> bool {
        self.inner.is_actionable(entry, buffer)
    }

    /// Does what the entry says, and notes what that changed.
    fn transition<A: Allocator + Copy>(
        &mut self,
        entry: &GenericStateEntry<T>,
        buffer: &mut hb_buffer_t<A>,
    ) -> Result<(), AatError> {
        let transition = Transition {
            cursor: buffer.backtrack_len(),
            has_mark: entry.has_mark(),
            is_at_mark: entry.flags & MARKED_INSERT_COUNT != 0,
        };
        self.inner.transition(entry, buffer)?;
        self.log.note(transition, buffer);
        Ok(())
    }

    ghost rests_alone = { never_rests };

    ghost fits_fresh = { C.fits_fresh };

    ghost keeps_fit = { C.keeps_fit };

    ghost passes_fit = { C.passes_fit };

    ghost pays = { C.pays };

    ghost bounded = { C.bounded };

    ghost lengthens = { C.lengthens };

    ghost makes_no_positions = { C.makes_no_positions };

    ghost keeps_settings = { C.keeps_settings };

    ghost keeps_place = { C.keeps_place };

    ghost keeps_count = { C.keeps_count };

    ghost keeps_order = { C.keeps_order };
}
