//! The runs of the kinds, with what their acts change noted.
ghost use Rattle.std.specs.Prelude.{◌≡◌, ◌^◌, ◌<◌, ◌≤◌, IfOk, IfErr, IsOk, IsTrue, OnErr, length, true};
ghost use Rattle.aat_buffer.specs.Clusters.{IsSmall};
ghost use Rattle.aat_font.specs.Face.{glyph_classes_of};
ghost use Rattle.aat_kinds.specs.Kinds.{contextual_run, insertion_run, kind_run, ligature_run, rearrangement_run, sizes_of};
ghost use Rattle.aat_kinds.specs.Runs.{HasFitRanges, is_on_in};
ghost use Rattle.aat_run.specs.Driven.{IsRefusal, IsRefused, StaysWithin};
ghost use Rattle.aat_run.specs.Outcome.{IsOutcome};
ghost use Rattle.aat_run.specs.Ranges.{IsGapless, is_whole_list};

use crate::context::Traced;
use crate::log::Log;
use crate::reach::Reach;
use aat_buffer::hb_buffer_t;
use aat_kinds::{
    ContextualCtx, InsertionCtx, LigatureCtx, RearrangementCtx, SubtableRun, run_kind,
};
use aat_machine_tables::{
    ContextualSubtable, ExtendedStateTable, InsertionSubtable, LigatureSubtable, SubtableKind,
};
use aat_run::{AatError, run_machine};
use std::alloc::Allocator;

/// Runs a rearrangement subtable, and answers the turns.
fn run_rearrangement<const LONGEST: usize, A: Allocator + Copy>(
    run: &SubtableRun,
    table: &ExtendedStateTable<()>,
    buffer: &mut hb_buffer_t<A>,
    log: &mut Log,
) -> Result<u64, AatError>
    requires ranges { HasFitRanges run.now }
    requires ids { IsSmall buffer.old }
    ensures run { IfOk result (IsOutcome
        (rearrangement_run LONGEST (is_on_in run.now) table.now buffer.old) buffer.new) }
    ensures within { IfOk result (StaysWithin 1 buffer.old buffer.new) }
    ensures served { IsOk result }
{
    let inner: RearrangementCtx<LONGEST> = RearrangementCtx::with_longest();
    let mut context = Traced::new(inner, Reach::Span(LONGEST), log, buffer);
    run_machine(
        table,
        None,
        &mut context,
        buffer,
        run.ranges,
        run.feature_flags,
    )
}

/// Runs a contextual subtable, and answers the turns.
fn run_contextual<A: Allocator + Copy>(
    run: &SubtableRun,
    subtable: &ContextualSubtable,
    buffer: &mut hb_buffer_t<A>,
    log: &mut Log,
) -> Result<u64, AatError>
    requires ranges { HasFitRanges run.now }
    requires ids { IsSmall buffer.old }
    ensures run { IfOk result (IsOutcome (contextual_run (is_on_in run.now) (glyph_classes_of run.now.face.now)
        subtable.now.state subtable.now.lookups buffer.old) buffer.new) }
    ensures within { IfOk result (StaysWithin 1 buffer.old buffer.new) }
    ensures served { IsOk result }
{
    let inner = ContextualCtx::new(run.face, subtable);
    let mut context = Traced::new(inner, Reach::Mark, log, buffer);
    run_machine(
        &subtable.state,
        None,
        &mut context,
        buffer,
        run.ranges,
        run.feature_flags,
    )
}

/// Runs a ligature subtable, and answers the turns.
fn run_ligature<const SLOTS: usize, A: Allocator + Copy>(
    run: &SubtableRun,
    subtable: &LigatureSubtable,
    buffer: &mut hb_buffer_t<A>,
    log: &mut Log,
) -> Result<u64, AatError>
    requires slots { 0 < SLOTS }
    requires memory { SLOTS ≤ 2 ^ 59 }
    requires ranges { HasFitRanges run.now }
    requires ids { IsSmall buffer.old }
    ensures run { IfOk result (IsOutcome (ligature_run SLOTS (is_on_in run.now) subtable.now.state subtable.now.actions
        subtable.now.components subtable.now.ligatures buffer.old) buffer.new) }
    ensures within { IfOk result (StaysWithin 1 buffer.old buffer.new) }
    ensures served { IsOk result }
{
    let inner: LigatureCtx<SLOTS> = LigatureCtx::with_slots(subtable);
    let mut context = Traced::new(inner, Reach::Components, log, buffer);
    run_machine(
        &subtable.state,
        None,
        &mut context,
        buffer,
        run.ranges,
        run.feature_flags,
    )
}

/// Runs an insertion subtable, and answers the turns.
fn run_insertion<A: Allocator + Copy>(
    run: &SubtableRun,
    subtable: &InsertionSubtable,
    buffer: &mut hb_buffer_t<A>,
    log: &mut Log,
) -> Result<u64, AatError>
    requires ranges { HasFitRanges run.now }
    requires ids { IsSmall buffer.old }
    ensures run { IfOk result (IsOutcome
        (insertion_run (is_on_in run.now) subtable.now.state subtable.now.glyphs buffer.old) buffer.new) }
    ensures within { IfOk result (StaysWithin 1 buffer.old buffer.new) }
    ensures reason { IfErr result (IsRefusal buffer.old
        (insertion_run (is_on_in run.now) subtable.now.state subtable.now.glyphs buffer.old).buffer) }
    ensures refused { OnErr result (IsRefused buffer.old buffer.new) }
{
    let inner = InsertionCtx::new(&subtable.glyphs);
    let mut context = Traced::new(inner, Reach::Insertion, log, buffer);
    run_machine(
        &subtable.state,
        None,
        &mut context,
        buffer,
        run.ranges,
        run.feature_flags,
    )
}

/// Runs a noncontextual subtable, and answers the turns.
fn run_noncontextual<const SLOTS: usize, const LONGEST: usize, A: Allocator + Copy>(
    run: &SubtableRun,
    kind: &SubtableKind,
    buffer: &mut hb_buffer_t<A>,
    log: &mut Log,
) -> Result<u64, AatError>
    requires slots { 0 < SLOTS }
    requires memory { SLOTS ≤ 2 ^ 59 }
    requires gapless { IsGapless run.now.ranges.now }
    requires whole { IsTrue (is_whole_list run.now.ranges.now) }
    requires on { length run.now.ranges.now ≡ 1 → is_on_in run.now 0 ≡ true }
    requires ids { IsSmall buffer.old }
    ensures run { IfOk result (IsOutcome (kind_run (sizes_of SLOTS LONGEST run.now.face.now) (is_on_in run.now) kind.now
        buffer.old) buffer.new) }
    ensures within { IfOk result (StaysWithin 1 buffer.old buffer.new) }
    ensures reason { IfErr result (IsRefusal buffer.old
        (kind_run (sizes_of SLOTS LONGEST run.now.face.now) (is_on_in run.now) kind.now buffer.old).buffer) }
    ensures refused { OnErr result (IsRefused buffer.old buffer.new) }
{
    log.begin(Reach::Mark, buffer);
    let asleep_nowhere = SubtableRun {
        wakers: None,
        ..*run
    };
    let turns = run_kind::<SLOTS, LONGEST, A>(&asleep_nowhere, kind, buffer)?;
    log.note_each(buffer);
    Ok(turns)
}

/// Runs a subtable by its kind, and answers the turns, as `aat_kinds::run_kind` does, and notes what its acts change.
pub(crate) fn run_noted<const SLOTS: usize, const LONGEST: usize, A: Allocator + Copy>(
    run: &SubtableRun,
    kind: &SubtableKind,
    buffer: &mut hb_buffer_t<A>,
    log: &mut Log,
) -> Result<u64, AatError>
    requires slots { 0 < SLOTS }
    requires memory { SLOTS ≤ 2 ^ 59 }
    requires gapless { IsGapless run.now.ranges.now }
    requires whole { IsTrue (is_whole_list run.now.ranges.now) }
    requires on { length run.now.ranges.now ≡ 1 → is_on_in run.now 0 ≡ true }
    requires ids { IsSmall buffer.old }
    ensures run { IfOk result (IsOutcome (kind_run (sizes_of SLOTS LONGEST run.now.face.now) (is_on_in run.now) kind.now
        buffer.old) buffer.new) }
    ensures within { IfOk result (StaysWithin 1 buffer.old buffer.new) }
    ensures reason { IfErr result (IsRefusal buffer.old
        (kind_run (sizes_of SLOTS LONGEST run.now.face.now) (is_on_in run.now) kind.now buffer.old).buffer) }
    ensures refused { OnErr result (IsRefused buffer.old buffer.new) }
{
    match kind {
        SubtableKind::Rearrangement(table) => {
            run_rearrangement::<LONGEST, A>(run, table, buffer, log)
        }
        SubtableKind::Contextual(subtable) => run_contextual(run, subtable, buffer, log),
        SubtableKind::Ligature(subtable) => run_ligature::<SLOTS, A>(run, subtable, buffer, log),
        SubtableKind::NonContextual(_) => {
            run_noncontextual::<SLOTS, LONGEST, A>(run, kind, buffer, log)
        }
        SubtableKind::Insertion(subtable) => run_insertion(run, subtable, buffer, log),
    }
}
