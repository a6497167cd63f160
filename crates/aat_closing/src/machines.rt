//! The closing runs of the kinds that are state machines, each from fresh registers.
ghost use Rattle.std.specs.Prelude.{◌^◌, ◌<◌, ◌≤◌, IfOk, IfErr, IfSome, IsOk, OnErr};
ghost use Rattle.aat_buffer.specs.Clusters.{IsSmall};
ghost use Rattle.aat_closing.specs.ClosingRuns.{IsTold, contextual_closing, insertion_closing, ligature_closing, rearrangement_closing, told_run};
ghost use Rattle.aat_font.specs.Face.{glyph_classes_of};
ghost use Rattle.aat_font.specs.Idle.{contextual_rests, insertion_rests, is_idle_glyph, ligature_rests, rearrangement_rests};
ghost use Rattle.aat_kinds.specs.Idle.{SleepOthers};
ghost use Rattle.aat_kinds.specs.Runs.{HasFitRanges, is_on_in};
ghost use Rattle.aat_run.specs.Driven.{IsRefusal, IsRefused, StaysWithin};

use crate::context::Closing;
use aat_buffer::hb_buffer_t;
use aat_kinds::{ContextualCtx, InsertionCtx, LigatureCtx, RearrangementCtx, SubtableRun};
use aat_machine_tables::{
    ContextualSubtable, ExtendedStateTable, InsertionSubtable, LigatureSubtable,
};
use aat_run::{AatError, MachineRun, run_machine_through};
use std::alloc::Allocator;

/// Runs a rearrangement subtable whose spans have at most `LONGEST` glyphs, and closes what its acts look at. It takes no
/// memory, and is never refused.
pub(crate) fn close_rearrangement<const LONGEST: usize, A: Allocator + Copy>(
    run: &SubtableRun,
    table: &ExtendedStateTable<()>,
    buffer: &mut hb_buffer_t<A>,
) -> Result<MachineRun, AatError>
    requires wakers { IfSome run.now.wakers (SleepOthers (is_idle_glyph rearrangement_rests table.now)) }
    requires ranges { HasFitRanges run.now }
    requires ids { IsSmall buffer.old }
    ensures run { IfOk result (IsTold (told_run (is_on_in run.now) table.now (rearrangement_closing LONGEST) buffer.old)
        buffer.new) }
    ensures within { IfOk result (λ o. StaysWithin 1 buffer.old buffer.new o.turns) }
    ensures served { IsOk result }
{
    let inner: RearrangementCtx<LONGEST> = RearrangementCtx::with_longest();
    let mut context = Closing::new(inner, table);
    run_machine_through(
        table,
        run.wakers,
        &mut context,
        buffer,
        run.ranges,
        run.feature_flags,
    )
}

/// Runs a contextual subtable, and closes what its acts look at. It takes no memory, and is never refused.
pub(crate) fn close_contextual<A: Allocator + Copy>(
    run: &SubtableRun,
    subtable: &ContextualSubtable,
    buffer: &mut hb_buffer_t<A>,
) -> Result<MachineRun, AatError>
    requires wakers { IfSome run.now.wakers (SleepOthers (is_idle_glyph contextual_rests subtable.now.state)) }
    requires ranges { HasFitRanges run.now }
    requires ids { IsSmall buffer.old }
    ensures run { IfOk result (IsTold (told_run (is_on_in run.now) subtable.now.state
        (contextual_closing (glyph_classes_of run.now.face.now) subtable.now.lookups) buffer.old) buffer.new) }
    ensures within { IfOk result (λ o. StaysWithin 1 buffer.old buffer.new o.turns) }
    ensures served { IsOk result }
{
    let inner = ContextualCtx::new(run.face, subtable);
    let mut context = Closing::new(inner, subtable);
    run_machine_through(
        &subtable.state,
        run.wakers,
        &mut context,
        buffer,
        run.ranges,
        run.feature_flags,
    )
}

/// Runs a ligature subtable with `SLOTS` slots, and closes what its acts look at. There has to be a slot, and at most 2^59
/// of them. It takes no memory, and is never refused.
pub(crate) fn close_ligature<const SLOTS: usize, A: Allocator + Copy>(
    run: &SubtableRun,
    subtable: &LigatureSubtable,
    buffer: &mut hb_buffer_t<A>,
) -> Result<MachineRun, AatError>
    requires slots { 0 < SLOTS }
    requires memory { SLOTS ≤ 2 ^ 59 }
    requires wakers { IfSome run.now.wakers (SleepOthers (is_idle_glyph ligature_rests subtable.now.state)) }
    requires ranges { HasFitRanges run.now }
    requires ids { IsSmall buffer.old }
    ensures run { IfOk result (IsTold (told_run (is_on_in run.now) subtable.now.state (ligature_closing
        subtable.now.state subtable.now.actions subtable.now.components subtable.now.ligatures SLOTS) buffer.old)
        buffer.new) }
    ensures within { IfOk result (λ o. StaysWithin 1 buffer.old buffer.new o.turns) }
    ensures served { IsOk result }
{
    let inner: LigatureCtx<SLOTS> = LigatureCtx::with_slots(subtable);
    let mut context = Closing::new(inner, subtable);
    run_machine_through(
        &subtable.state,
        run.wakers,
        &mut context,
        buffer,
        run.ranges,
        run.feature_flags,
    )
}

/// Runs an insertion subtable, and closes what its acts look at. Refused as `run_kind` of `aat_kinds`.
pub(crate) fn close_insertion<A: Allocator + Copy>(
    run: &SubtableRun,
    subtable: &InsertionSubtable,
    buffer: &mut hb_buffer_t<A>,
) -> Result<MachineRun, AatError>
    requires wakers { IfSome run.now.wakers (SleepOthers (is_idle_glyph insertion_rests subtable.now.state)) }
    requires ranges { HasFitRanges run.now }
    requires ids { IsSmall buffer.old }
    ensures run { IfOk result (IsTold (told_run (is_on_in run.now) subtable.now.state
        (insertion_closing subtable.now.glyphs) buffer.old) buffer.new) }
    ensures within { IfOk result (λ o. StaysWithin 1 buffer.old buffer.new o.turns) }
    ensures reason { IfErr result (IsRefusal buffer.old (told_run (is_on_in run.now) subtable.now.state
        (insertion_closing subtable.now.glyphs) buffer.old).buffer) }
    ensures refused { OnErr result (IsRefused buffer.old buffer.new) }
{
    let inner = InsertionCtx::new(&subtable.glyphs);
    let mut context = Closing::new(inner, subtable);
    run_machine_through(
        &subtable.state,
        run.wakers,
        &mut context,
        buffer,
        run.ranges,
        run.feature_flags,
    )
}
