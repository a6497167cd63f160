//! What a driver runs: the registers of a state machine, and what the entries of its table do.
//!
//! The driver is the loop, and a context is what is plugged in. In `aat_kerning_machines` a driver is what is plugged
//! in, as in the crate `rustybuzz`.
ghost use Rattle.std.specs.Prelude.{◌≡◌, OnOk, IfErr, OnErr, length};

use crate::error::AatError;
use aat_buffer::hb_buffer_t;
use aat_machine_tables::{Acting, GenericStateEntry};
use std::alloc::Allocator;

/// One kind of state machine over a line: its registers, and what an entry of its table does to them and to the
/// line. A driver runs every context that meets this trait, and knows of it what stands here alone.
///
/// A place counts glyphs from the front of the line, the first of them 0. The cursor is the place of the glyph that
/// is looked at, and the length of the line behind the last one, at the end of the text. The budget is the buffer's
/// `max_ops`, in operations; a negative one counts as 0 here. An entry is found by the state and the class of the
/// glyph at the cursor; at the end, class 0. Its `extra` is the context's own.
///
/// Whoever writes a context gives the ghost members and proves the clauses of its six calls, and then the laws, of
/// which `specs/Laws.antt` has each as a word, and all but the first as `MeetsLaws`. They hold for every entry, whatever its
/// numbers, and for all registers that fit:
///
/// - `rests_alone`: an entry of which `rests` says so is actionable by no registers, and its act leaves them and the line
///   as they are;
/// - `fits_fresh`: fresh registers fit at the front of each line, so that a run may start with them;
/// - `keeps_fit`, `passes_fit`: an act that leaves the cursor before the end leaves registers that fit, and so does
///   a cursor that moves over a glyph;
/// - `pays`, `bounded`: neither the glyphs from the cursor on nor all of them grow by more than what is paid of the
///   budget, so that each run ends;
/// - `lengthens`, `makes_no_positions`, `keeps_settings`: no act takes a glyph away, makes positions where none
///   stand, or changes anything but line, cursor, positions and budget;
/// - `keeps_place`: an act in place keeps the length, the cursor and the positions;
/// - `keeps_count`: an act of a context that says `keeps_length` keeps the number of glyphs, so that no run of it is
///   refused;
/// - `keeps_order`: clusters that never fall along the line never fall behind an act, and those that never rise
///   never rise, unless clusters stay apart (`HB_BUFFER_CLUSTER_LEVEL_CHARACTERS`); and no act makes a new cluster.
///
/// Apple's TrueType Reference Manual, "The 'morx' table", and the section on state tables in "Font Tables".
pub trait driver_context_t<T: Acting> {
    ghost use Rattle.std.specs.Prelude.{ℕ, Bool, true};
    ghost use Rattle.aat_buffer.specs.Buffer.{Buffer};
    ghost use Rattle.aat_buffer.specs.Clusters.{IsSmall};
    ghost use Rattle.aat_machine_tables.specs.declared.state_table.GenericStateEntry.{GenericStateEntry};
    ghost use Rattle.aat_run.specs.Context.{Moved};
    ghost use Rattle.aat_run.specs.Driven.{IsRefusal, IsRefused};
    ghost use Rattle.aat_run.specs.Laws.{ActsByEntries, RestsBy, FitsWhereFresh, KeepsFit, PassesFit, Pays, Bounded, Lengthens, MakesNoPositions, KeepsSettings, KeepsPlaceWhere, KeepsLengthWhere, KeepsClusterOrder};

    /// The registers fit a cursor and a length: the places that they name lie on the line, and their numbers in their
    /// types. `drive` requires it of the registers that it is handed, at cursor 0.
    ghost fits: { Self → ℕ → ℕ → Type 0 };

    /// The registers are fresh: those that a run of the context is to start with.
    ghost is_fresh: { Self → Type 0 };

    /// What `in_place` answers.
    ghost stays_in_place: { Bool };

    /// Whether the context says that no act changes the number of glyphs.
    ghost keeps_length: { Bool };

    /// What `can_advance` answers of an entry.
    ghost advances: { GenericStateEntry T → Bool };

    /// What `is_actionable` answers of an entry, by the registers, the cursor and the length.
    ghost actionable: { GenericStateEntry T → Self → ℕ → ℕ → Bool };

    /// What `rests` answers of an entry.
    ghost resting: { GenericStateEntry T → Bool };

    /// The act of an entry: the registers and the buffer that `transition` leaves where it is not refused.
    ghost act: { GenericStateEntry T → Self → Buffer → Moved Self };

    /// Whether the context keeps the length of the line, the cursor and the positions. A run of a context that is not
    /// in place drops the positions first.
    fn in_place(&self) -> bool
        ensures { result ≡ stays_in_place };

    /// Whether the cursor moves on behind the entry. It is asked of the entry alone; where it stays, the driver pays
    /// one operation for the turn.
    fn can_advance(&self, entry: &GenericStateEntry<T>) -> bool
        ensures { result ≡ advances entry.now };

    /// Whether the entry may do something by what the registers hold before its act: then the line is marked as unsafe
    /// to break before the cursor. Where `acts_by_entries` is false it is asked of
    /// entries that are not taken, too. `false` does not say that the entry
    /// leaves the registers as they are, nor that it would do nothing by other ones. Of the buffer it may look at
    /// cursor and length alone.
    fn is_actionable<A: Allocator + Copy>(
        &self,
        entry: &GenericStateEntry<T>,
        buffer: &hb_buffer_t<A>,
    ) -> bool
        ensures { result ≡ actionable entry.now self.now buffer.now.cursor (length buffer.now.line) };

    /// `true` only where, by registers, cursor and length, each entry is actionable exactly where `Acting` says that
    /// it may act, and advances unless its bit `DONT_ADVANCE` is set. Then the driver takes the answer of
    /// `judged_entry` whether the line gets a mark, and else it asks `is_actionable`. `false` is right of each
    /// context.
    fn acts_by_entries<A: Allocator + Copy>(&self, buffer: &hb_buffer_t<A>) -> bool
        ensures { result ≡ true → ActsByEntries T.may_act advances
            (λ e. actionable e self.now buffer.now.cursor (length buffer.now.line)) };

    /// Whether the entry never acts and sets nothing, whatever the registers hold. The driver passes a glyph at once where
    /// state 0 has such an entry for it. `false` is right of each entry.
    fn rests(&self, entry: &GenericStateEntry<T>) -> bool
        ensures { result ≡ resting entry.now };

    /// Does what the entry says. The state, and the cursor's step over the glyph, are the driver's. The registers have
    /// to fit, and each glyph id has to be at most 0xFFFF, and is so again.
    ///
    /// Refused as 2, `TooLong`, only where the act would leave a line longer than the buffer's `max_len`, and as 3,
    /// `OutOfMemory`, only where it would leave a longer line than it found, and the line was shorter than `max_len`;
    /// where all of this holds either may come. After a refusal the buffer has failed, its line is some line of 16-bit
    /// glyphs that has at most its greatest length, all but line, cursor, positions and budget is as before, and the
    /// registers are any.
    fn transition<A: Allocator + Copy>(
        &mut self,
        entry: &GenericStateEntry<T>,
        buffer: &mut hb_buffer_t<A>,
    ) -> Result<(), AatError>
        requires fit { fits self.old buffer.old.cursor (length buffer.old.line) }
        requires ids { IsSmall buffer.old }
        ensures act { OnOk result (
            record { registers = self.new; buffer = buffer.new } ≡ act entry.now self.old buffer.old) }
        ensures ids { OnOk result (IsSmall buffer.new) }
        ensures reason { IfErr result (IsRefusal buffer.old (act entry.now self.old buffer.old).buffer) }
        ensures refused { OnErr result (IsRefused buffer.old buffer.new) };

    ghost rests_alone: { RestsBy resting actionable act };

    ghost fits_fresh: { FitsWhereFresh is_fresh fits };

    ghost keeps_fit: { KeepsFit act fits };

    ghost passes_fit: { PassesFit fits };

    ghost pays: { Pays act fits };

    ghost bounded: { Bounded act fits };

    ghost lengthens: { Lengthens act fits };

    ghost makes_no_positions: { MakesNoPositions act fits };

    ghost keeps_settings: { KeepsSettings act fits };

    ghost keeps_place: { KeepsPlaceWhere act fits stays_in_place };

    ghost keeps_count: { KeepsLengthWhere act fits keeps_length };

    ghost keeps_order: { KeepsClusterOrder act fits };
}
