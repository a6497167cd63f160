//! What the acts of a context look at.
ghost use Rattle.std.specs.Prelude.{◌≡◌, ℕ, Bool, true, length};
ghost use Rattle.aat_buffer.specs.Buffer.{Buffer};
ghost use Rattle.aat_buffer.specs.Clusters.{IsSmall};
ghost use Rattle.aat_machine_tables.specs.declared.state_table.GenericStateEntry.{GenericStateEntry};

use aat_buffer::hb_buffer_t;
use aat_machine_tables::{Acting, GenericStateEntry};
use aat_run::driver_context_t;
use std::alloc::Allocator;

/// A context that says which places of the line the act of an entry looks at.
pub trait Closes<T: Acting, S>: driver_context_t<T> {
    ghost use Rattle.std.specs.Prelude.{◌≡◌, ℕ, Bool, true};
    ghost use Rattle.aat_buffer.specs.Buffer.{Buffer};
    ghost use Rattle.aat_machine_tables.specs.declared.state_table.GenericStateEntry.{GenericStateEntry};
    ghost use Rattle.aat_run.specs.Laws.{ActsByEntries};
    ghost use Rattle.aat_closing.specs.Laws.{RestsOpen};

    /// What `closed_from` answers, over a subtable.
    ghost from: { S → GenericStateEntry T → Self → Buffer → ℕ };

    /// What `may_act` answers of an entry, by the registers, the cursor and the length.
    ghost acting: { GenericStateEntry T → Self → ℕ → ℕ → Bool };

    /// The place from which the act of an entry looks at the line, through the glyph at the cursor: the cursor where it
    /// looks at nothing before. The registers have to fit, and each glyph id has to be at most 0xFFFF.
    fn closed_from<A: Allocator + Copy>(
        &self,
        subtable: &S,
        entry: &GenericStateEntry<T>,
        buffer: &hb_buffer_t<A>,
    ) -> usize
        requires fit { Self.fits self.now buffer.now.cursor (length buffer.now.line) }
        requires ids { IsSmall buffer.now }
        ensures from { result ≡ from subtable.now entry.now self.now buffer.now };

    /// Whether the entry may act. Of the registers it may ask only where the cursor is at the end of the line.
    fn may_act<A: Allocator + Copy>(
        &self,
        entry: &GenericStateEntry<T>,
        buffer: &hb_buffer_t<A>,
    ) -> bool
        ensures { result ≡ acting entry.now self.now buffer.now.cursor (length buffer.now.line) };

    /// `true` only where each entry may act exactly where `Acting` says so, and advances unless its bit `DONT_ADVANCE` is
    /// set.
    fn may_act_by_entries<A: Allocator + Copy>(&self, buffer: &hb_buffer_t<A>) -> bool
        ensures { result ≡ true → ActsByEntries T.may_act Self.advances
            (λ e. acting e self.now buffer.now.cursor (length buffer.now.line)) };

    ghost rests_open: { RestsOpen Self.resting acting from };
}
