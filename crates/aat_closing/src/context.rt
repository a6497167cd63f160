//! A context that closes what the acts of another one look at.
ghost use Rattle.std.specs.Prelude.{◌≡◌, length};
ghost use Rattle.aat_buffer.specs.Clusters.{IsSmall};
ghost use Rattle.aat_closing.specs.Closing.{closed_from};

use crate::closes::Closes;
use aat_buffer::hb_buffer_t;
use aat_machine_tables::{Acting, GenericStateEntry};
use aat_run::{AatError, driver_context_t};
use std::alloc::Allocator;
use std::marker::Model;

/// A context, and the subtable over which it runs. Before an entry acts, the line gets the break marks from the oldest place
/// that the act looks at, or further back, through the glyph at the cursor.
#[derive(Drop)]
pub struct Closing<'a, S, C> {
    inner: C,
    subtable: &'a S,
}

impl<'a, S, C> Model for Closing<'a, S, C> {
    ghost use Rattle.aat_closing.specs.Watched.{Watched};

    ghost Value = { Watched S C };

    ghost view = { λ m. record { inner = m.inner; subtable = m.subtable.now } };
}

impl<'a, S, C> Closing<'a, S, C> {
    /// A context that runs over this subtable.
    pub fn new(inner: C, subtable: &'a S) -> Closing<'a, S, C>
        ensures { result ≡ record { inner = inner; subtable = subtable.now } }
    {
        Closing { inner, subtable }
    }
}

/// Gives the line the break marks from a place through the glyph at the cursor.
fn close_from<A: Allocator + Copy>(buffer: &mut hb_buffer_t<A>, from: usize)
    requires { IsSmall buffer.old }
    ensures closed { buffer.new ≡ closed_from from buffer.old }
    ensures ids { IsSmall buffer.new }
    ensures count { length buffer.new.line ≡ length buffer.old.line }
{
    let _length = buffer.len();
    let cursor = buffer.backtrack_len();
    if from < cursor {
        buffer.unsafe_to_break(Some(from), Some(cursor + 1));
    }
}

impl<'a, T: Acting, S, C: Closes<T, S>> driver_context_t<T> for Closing<'a, S, C> {
    ghost use Rattle.aat_closing.specs.Watched.{watched_act, watched_actionable, watched_fit};
    ghost use Rattle.aat_closing.specs.facts.WatchedLaws as laws;

    ghost fits = { watched_fit C.fits };

    ghost is_fresh = { λ w. C.is_fresh w.inner };

    ghost stays_in_place = { C.stays_in_place };

    ghost keeps_length = { C.keeps_length };

    ghost advances = { C.advances };

    ghost resting = { C.resting };

    ghost actionable = { watched_actionable C.acting };

    ghost act = { watched_act C.from C.act };

    fn in_place(&self) -> bool {
        self.inner.in_place()
    }

    fn can_advance(&self, entry: &GenericStateEntry<T>) -> bool {
        self.inner.can_advance(entry)
    }

    fn acts_by_entries<A: Allocator + Copy>(&self, buffer: &hb_buffer_t<A>) -> bool {
        self.inner.may_act_by_entries(buffer)
    }

    fn rests(&self, entry: &GenericStateEntry<T>) -> bool {
        self.inner.rests(entry)
    }

    fn is_actionable<A: Allocator + Copy>(
        &self,
        entry: &GenericStateEntry<T>,
        buffer: &hb_buffer_t<A>,
    ) -> bool {
        self.inner.may_act(entry, buffer)
    }

    /// Closes what the act looks at, and does what the entry says.
    fn transition<A: Allocator + Copy>(
        &mut self,
        entry: &GenericStateEntry<T>,
        buffer: &mut hb_buffer_t<A>,
    ) -> Result<(), AatError> {
        let from = self.inner.closed_from(self.subtable, entry, buffer);
        close_from(buffer, from);
        self.inner.transition(entry, buffer)
    }

    ghost rests_alone = { laws.rests_alone C.fits C.act C.from C.rests_alone C.rests_open };

    ghost fits_fresh = { laws.fits_fresh C.fits C.act C.from C.is_fresh C.fits_fresh };

    ghost keeps_fit = { laws.keeps_fit C.fits C.act C.from C.keeps_fit };

    ghost passes_fit = { laws.passes_fit C.fits C.act C.from C.passes_fit };

    ghost pays = { laws.pays C.fits C.act C.from C.pays };

    ghost bounded = { laws.bounded C.fits C.act C.from C.bounded };

    ghost lengthens = { laws.lengthens C.fits C.act C.from C.lengthens };

    ghost makes_no_positions = { laws.makes_no_positions C.fits C.act C.from C.makes_no_positions };

    ghost keeps_settings = { laws.keeps_settings C.fits C.act C.from C.keeps_settings };

    ghost keeps_place = { laws.keeps_place C.fits C.act C.from C.keeps_place };

    ghost keeps_count = { laws.keeps_count C.fits C.act C.from C.keeps_count };

    ghost keeps_order = { laws.keeps_order C.fits C.act C.from C.keeps_order };
}
