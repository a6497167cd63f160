//! The closing run of a subtable by its kind.
ghost use Rattle.std.specs.Prelude.{◌≡◌, ◌^◌, ◌<◌, ◌≤◌, IfOk, IfErr, IsOk, OnErr, IfSome, IsTrue, false, length, true};
ghost use Rattle.aat_buffer.specs.Clusters.{IsSmall};
ghost use Rattle.aat_closing.specs.ClosingRuns.{IsTold, closing_run};
ghost use Rattle.aat_font.specs.Idle.{is_idle};
ghost use Rattle.aat_kinds.specs.Idle.{SleepOthers};
ghost use Rattle.aat_kinds.specs.Kinds.{is_insertion, noncontextual_run, sizes_of};
ghost use Rattle.aat_kinds.specs.Runs.{is_on_in};
ghost use Rattle.aat_run.specs.Driven.{IsRefusal, IsRefused, StaysWithin};
ghost use Rattle.aat_run.specs.Ranges.{IsGapless, is_whole_list};

use crate::machines::{close_contextual, close_insertion, close_ligature, close_rearrangement};
use aat_buffer::hb_buffer_t;
use aat_kinds::{SubtableRun, run_kind};
use aat_machine_tables::SubtableKind;
use aat_run::{AatError, MachineRun};
use std::alloc::Allocator;

/// Does as `run_kind` of `aat_kinds`, closes what the acts look at, and answers besides the turns whether the run told
/// which clusters are open: `is_through`.
///
/// Where it did, and some of the budget is left, a line whose clusters merge and never fall may be cut at each rise to an
/// open cluster at which the subtable is on (`laws::open_rise_leaves_parts`).
pub fn close_kind<const SLOTS: usize, const LONGEST: usize, A: Allocator + Copy>(
    run: &SubtableRun,
    kind: &SubtableKind,
    buffer: &mut hb_buffer_t<A>,
) -> Result<MachineRun, AatError>
    requires slots { 0 < SLOTS }
    requires memory { SLOTS ≤ 2 ^ 59 }
    requires gapless { IsGapless run.now.ranges.now }
    requires whole { IsTrue (is_whole_list run.now.ranges.now) }
    requires on { length run.now.ranges.now ≡ 1 → is_on_in run.now 0 ≡ true }
    requires wakers { IfSome run.now.wakers (SleepOthers (is_idle kind.now)) }
    requires ids { IsSmall buffer.old }
    ensures run { IfOk result (IsTold (closing_run (sizes_of SLOTS LONGEST run.now.face.now) (is_on_in run.now) kind.now
        buffer.old) buffer.new) }
    ensures within { IfOk result (λ o. StaysWithin 1 buffer.old buffer.new o.turns) }
    ensures reason { IfErr result (IsRefusal buffer.old
        (closing_run (sizes_of SLOTS LONGEST run.now.face.now) (is_on_in run.now) kind.now buffer.old).buffer) }
    ensures refused { OnErr result (IsRefused buffer.old buffer.new) }
    ensures kept { is_insertion kind.now ≡ false → IsOk result }
{
    match kind {
        SubtableKind::Rearrangement(table) => close_rearrangement::<LONGEST, A>(run, table, buffer),
        SubtableKind::Contextual(subtable) => close_contextual(run, subtable, buffer),
        SubtableKind::Ligature(subtable) => close_ligature::<SLOTS, A>(run, subtable, buffer),
        SubtableKind::NonContextual(_) => {
            let turns = run_kind::<SLOTS, LONGEST, A>(run, kind, buffer)?;
            Ok(MachineRun {
                turns,
                is_through: true,
            })
        }
        SubtableKind::Insertion(subtable) => close_insertion(run, subtable, buffer),
    }
}
