//! The runs of the kinds that are state machines, each from fresh registers.
ghost use Rattle.std.specs.Prelude.{◌^◌, ◌<◌, ◌≤◌, IfOk, IfErr, IfSome, IsOk, OnErr};
ghost use Rattle.aat_buffer.specs.Clusters.{IsSmall};
ghost use Rattle.aat_font.specs.Face.{glyph_classes_of};
ghost use Rattle.aat_font.specs.Idle.{contextual_rests, insertion_rests, is_idle_glyph, ligature_rests, rearrangement_rests};
ghost use Rattle.aat_kinds.specs.Idle.{SleepOthers};
ghost use Rattle.aat_kinds.specs.Kinds.{contextual_run, insertion_run, ligature_run, rearrangement_run};
ghost use Rattle.aat_kinds.specs.Runs.{HasFitRanges, is_on_in};
ghost use Rattle.aat_run.specs.Driven.{IsRefusal, IsRefused, StaysWithin};
ghost use Rattle.aat_run.specs.Outcome.{IsOutcome};

use crate::contextual::ContextualCtx;
use crate::insertion::InsertionCtx;
use crate::ligature::LigatureCtx;
use crate::rearrangement::RearrangementCtx;
use crate::run::SubtableRun;
use aat_buffer::hb_buffer_t;
use aat_machine_tables::{
    ContextualSubtable, ExtendedStateTable, InsertionSubtable, LigatureSubtable,
};
use aat_run::{AatError, run_machine};
use std::alloc::Allocator;

/// Runs a rearrangement subtable whose spans have at most `LONGEST` glyphs, and answers the turns. It takes no memory,
/// and is never refused.
pub(crate) fn run_rearrangement<const LONGEST: usize, A: Allocator + Copy>(
    run: &SubtableRun,
    table: &ExtendedStateTable<()>,
    buffer: &mut hb_buffer_t<A>,
) -> Result<u64, AatError>
    requires wakers { IfSome run.now.wakers (SleepOthers (is_idle_glyph rearrangement_rests table.now)) }
    requires ranges { HasFitRanges run.now }
    requires ids { IsSmall buffer.old }
    ensures run { IfOk result (IsOutcome
        (rearrangement_run LONGEST (is_on_in run.now) table.now buffer.old) buffer.new) }
    ensures within { IfOk result (StaysWithin 1 buffer.old buffer.new) }
    ensures served { IsOk result }
{
    let mut context: RearrangementCtx<LONGEST> = RearrangementCtx::with_longest();
    run_machine(
        table,
        run.wakers,
        &mut context,
        buffer,
        run.ranges,
        run.feature_flags,
    )
}

/// Runs a contextual subtable, and answers the turns. It takes no memory, and is never refused.
pub(crate) fn run_contextual<A: Allocator + Copy>(
    run: &SubtableRun,
    subtable: &ContextualSubtable,
    buffer: &mut hb_buffer_t<A>,
) -> Result<u64, AatError>
    requires wakers { IfSome run.now.wakers (SleepOthers (is_idle_glyph contextual_rests subtable.now.state)) }
    requires ranges { HasFitRanges run.now }
    requires ids { IsSmall buffer.old }
    ensures run { IfOk result (IsOutcome (contextual_run (is_on_in run.now) (glyph_classes_of run.now.face.now)
        subtable.now.state subtable.now.lookups buffer.old) buffer.new) }
    ensures within { IfOk result (StaysWithin 1 buffer.old buffer.new) }
    ensures served { IsOk result }
{
    let mut context = ContextualCtx::new(run.face, subtable);
    run_machine(
        &subtable.state,
        run.wakers,
        &mut context,
        buffer,
        run.ranges,
        run.feature_flags,
    )
}

/// Runs a ligature subtable with `SLOTS` slots, and answers the turns. There has to be a slot, and at most 2^59 of
/// them, which already are more bytes than memory has. The line keeps the number of glyphs. It takes no memory, and is
/// never refused.
pub(crate) fn run_ligature<const SLOTS: usize, A: Allocator + Copy>(
    run: &SubtableRun,
    subtable: &LigatureSubtable,
    buffer: &mut hb_buffer_t<A>,
) -> Result<u64, AatError>
    requires slots { 0 < SLOTS }
    requires memory { SLOTS ≤ 2 ^ 59 }
    requires wakers { IfSome run.now.wakers (SleepOthers (is_idle_glyph ligature_rests subtable.now.state)) }
    requires ranges { HasFitRanges run.now }
    requires ids { IsSmall buffer.old }
    ensures run { IfOk result (IsOutcome (ligature_run SLOTS (is_on_in run.now) subtable.now.state subtable.now.actions
        subtable.now.components subtable.now.ligatures buffer.old) buffer.new) }
    ensures within { IfOk result (StaysWithin 1 buffer.old buffer.new) }
    ensures served { IsOk result }
{
    let mut context: LigatureCtx<SLOTS> = LigatureCtx::with_slots(subtable);
    run_machine(
        &subtable.state,
        run.wakers,
        &mut context,
        buffer,
        run.ranges,
        run.feature_flags,
    )
}

/// Runs an insertion subtable, and answers the turns.
///
/// Refused as 2, `TooLong`, only where the run would leave a line longer than the buffer's `max_len`, and as 3,
/// `OutOfMemory`, only where it would leave a longer line than it found, and the line was shorter than `max_len`; where
/// all of this holds either may come.
pub(crate) fn run_insertion<A: Allocator + Copy>(
    run: &SubtableRun,
    subtable: &InsertionSubtable,
    buffer: &mut hb_buffer_t<A>,
) -> Result<u64, AatError>
    requires wakers { IfSome run.now.wakers (SleepOthers (is_idle_glyph insertion_rests subtable.now.state)) }
    requires ranges { HasFitRanges run.now }
    requires ids { IsSmall buffer.old }
    ensures run { IfOk result (IsOutcome
        (insertion_run (is_on_in run.now) subtable.now.state subtable.now.glyphs buffer.old) buffer.new) }
    ensures within { IfOk result (StaysWithin 1 buffer.old buffer.new) }
    ensures reason { IfErr result (IsRefusal buffer.old
        (insertion_run (is_on_in run.now) subtable.now.state subtable.now.glyphs buffer.old).buffer) }
    ensures refused { OnErr result (IsRefused buffer.old buffer.new) }
{
    let mut context = InsertionCtx::new(&subtable.glyphs);
    run_machine(
        &subtable.state,
        run.wakers,
        &mut context,
        buffer,
        run.ranges,
        run.feature_flags,
    )
}
