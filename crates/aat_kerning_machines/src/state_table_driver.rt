//! What a kerning machine runs: the registers of a state table, and what its entries do to positions.
//!
//! The driver is here what is plugged into the run, as `StateTableDriver` is in `rustybuzz`. In `aat_run` the driver is
//! the loop, and what is plugged in is a context.
ghost use Rattle.std.specs.Prelude.{◌≡◌, length};

use aat_buffer::hb_buffer_t;
use aat_font::hb_ot_shape_plan_t;
use aat_machine_tables::{Acting, GenericStateEntry};
use std::alloc::Allocator;

/// One kind of kerning machine over a line: its registers, and what an entry of its table does to positions. A run of
/// a kerning machine takes every driver that meets this trait, and knows of it what stands here alone.
///
/// `Table` has what the entries name by their indexes, as values or anchor points, and `E` is what an entry has beside
/// a state and flags. An entry is found by the state and the class of the glyph at the cursor; at the end of the line,
/// class 0.
///
/// Whoever writes a driver gives the ghost members and proves the clauses of its calls, and then the laws, which hold
/// for every entry, whatever its numbers, and for all registers that fit:
///
/// - `rests_alone`: an entry of which `rests` says so is not actionable, and its act leaves registers and buffer as
///   they are;
/// - `keeps_fit`, `passes_fit`: an act that leaves the cursor before the end leaves registers that fit, and so does a
///   cursor that moves over a glyph;
/// - `positions_alone`: an act changes positions and the scratch flag `HAS_GPOS_ATTACHMENT` alone: line, cursor,
///   budget, the number of positions and every setting stay.
///
/// Apple's TrueType Reference Manual, "The 'kerx' table", formats 1 and 4, and "The 'kern' table", format 1.
pub trait StateTableDriver<Table, E: Acting> {
    ghost use Rattle.std.specs.Prelude.{ℕ, Bool};
    ghost use Rattle.aat_buffer.specs.Buffer.{Buffer};
    ghost use Rattle.aat_buffer.specs.Clusters.{IsSmall};
    ghost use Rattle.aat_machine_tables.specs.declared.state_table.GenericStateEntry.{GenericStateEntry};
    ghost use Rattle.aat_kerning_machines.specs.KerningLaws.{ChangesPositionsAlone};
    ghost use Rattle.aat_kerning_machines.specs.Positions.{IsPlaced};
    ghost use Rattle.aat_run.specs.Context.{Moved};
    ghost use Rattle.aat_run.specs.Laws.{KeepsFit, PassesFit, RestsBy};

    /// The registers fit a cursor and a length: the places that are used without a question lie on the line.
    ghost fits: { Self → ℕ → ℕ → Type 0 };

    /// What `is_actionable` answers of an entry.
    ghost actionable: { GenericStateEntry E → Bool };

    /// What `rests` answers of an entry.
    ghost resting: { GenericStateEntry E → Bool };

    /// The act of an entry, by the table, whether its values go across the line, the kern mask and the tuple count:
    /// the registers and the buffer that `transition` leaves.
    ghost act: { Table → Bool → ℕ → ℕ → GenericStateEntry E → Self → Buffer → Moved Self };

    /// Whether the entry does something beside going to its state: then the run marks the line there as unsafe to
    /// break, unless it takes the entry in state 0. By that state alone a run tells of the registers, which outlive it:
    /// where they hold a glyph from before, the line may depend on it and have no mark.
    fn is_actionable(&self, entry: &GenericStateEntry<E>) -> bool
        ensures { result ≡ actionable entry.now };

    /// Whether the entry never acts and sets nothing, whatever the registers hold. The run passes a glyph at once where
    /// state 0 has such an entry for it. `false` is right of each entry.
    fn rests(&self, entry: &GenericStateEntry<E>) -> bool
        ensures { result ≡ resting entry.now };

    /// Does what the entry says. The state, and the cursor's step over the glyph, are the run's. The registers have to
    /// fit, each glyph id has to be at most 0xFFFF, and each glyph has to have its position, as `has_positions` tells.
    /// It takes no memory and always succeeds.
    fn transition<A: Allocator + Copy>(
        &mut self,
        aat: &Table,
        entry: &GenericStateEntry<E>,
        has_cross_stream: bool,
        tuple_count: u32,
        plan: &hb_ot_shape_plan_t,
        buffer: &mut hb_buffer_t<A>,
    )
        requires fit { fits self.old buffer.old.cursor (length buffer.old.line) }
        requires ids { IsSmall buffer.old }
        requires placed { IsPlaced buffer.old }
        ensures act { record { registers = self.new; buffer = buffer.new }
            ≡ act aat.now has_cross_stream plan.now.kern_mask tuple_count entry.now self.old buffer.old };

    ghost rests_alone: { (table : Table) (is_cross : Bool) (kern_mask tuple_count : ℕ)
        → RestsBy resting (λ e r p n. actionable e) (act table is_cross kern_mask tuple_count) };

    ghost keeps_fit: { (table : Table) (is_cross : Bool) (kern_mask tuple_count : ℕ)
        → KeepsFit (act table is_cross kern_mask tuple_count) fits };

    ghost passes_fit: { PassesFit fits };

    ghost positions_alone: { (table : Table) (is_cross : Bool) (kern_mask tuple_count : ℕ)
        → ChangesPositionsAlone (act table is_cross kern_mask tuple_count) fits };
}
