//! The run of a subtable by its kind.
ghost use Rattle.std.specs.Prelude.{◌≡◌, ◌^◌, ◌<◌, ◌≤◌, IfOk, IfErr, IsOk, OnErr, IfSome, IsTrue, false, length, true};
ghost use Rattle.aat_buffer.specs.Clusters.{IsSmall};
ghost use Rattle.aat_font.specs.Idle.{is_idle};
ghost use Rattle.aat_kinds.specs.Idle.{SleepOthers};
ghost use Rattle.aat_kinds.specs.Kinds.{is_insertion, kind_run, sizes_of, noncontextual_run};
ghost use Rattle.aat_kinds.specs.Runs.{is_on_in};
ghost use Rattle.aat_run.specs.Driven.{IsRefusal, IsRefused, StaysWithin};
ghost use Rattle.aat_run.specs.Outcome.{IsOutcome};
ghost use Rattle.aat_run.specs.Ranges.{IsGapless, is_whole_list};

use crate::machines::{run_contextual, run_insertion, run_ligature, run_rearrangement};
use crate::noncontextual::replace_all;
use crate::run::SubtableRun;
use aat_buffer::hb_buffer_t;
use aat_machine_tables::SubtableKind;
use aat_run::{AatError, is_nowhere_on};
use std::alloc::Allocator;

/// Runs a subtable by its kind, and answers the turns. A ligature machine gets `SLOTS` slots, and a span of
/// rearrangement has at most `LONGEST` glyphs.
///
/// There has to be a slot, and at most 2^59 of them, which already are more bytes than memory has. Each glyph id has
/// to be at most 0xFFFF, the ranges begin at 0, follow without a gap and end at the last cluster, if there are any,
/// and where there is one alone the subtable is on there. Where it is said which glyphs may wake the subtable, it has to
/// be idle over each other one.
///
/// Only an insertion subtable is refused: as 2, `TooLong`, only where the run would leave a line longer than the
/// buffer's `max_len`, and as 3, `OutOfMemory`, only where it would leave a longer line than it found, and the line was
/// shorter than `max_len`; where all of this holds either may come. After a refusal the buffer has failed, its line is
/// some line of 16-bit glyphs that has at most its greatest length, and all but line, cursor, positions and budget is
/// as before.
///
/// Apple's TrueType Reference Manual, "The 'morx' table", metamorphosis subtables.
#[tactic(auto, unfolding(crate::specs::Kinds::noncontextual_run))]
pub fn run_kind<const SLOTS: usize, const LONGEST: usize, A: Allocator + Copy>(
    run: &SubtableRun,
    kind: &SubtableKind,
    buffer: &mut hb_buffer_t<A>,
) -> Result<u64, AatError>
    requires slots { 0 < SLOTS }
    requires memory { SLOTS ≤ 2 ^ 59 }
    requires gapless { IsGapless run.now.ranges.now }
    requires whole { IsTrue (is_whole_list run.now.ranges.now) }
    requires on { length run.now.ranges.now ≡ 1 → is_on_in run.now 0 ≡ true }
    requires wakers { IfSome run.now.wakers (SleepOthers (is_idle kind.now)) }
    requires ids { IsSmall buffer.old }
    ensures run { IfOk result (IsOutcome (kind_run (sizes_of SLOTS LONGEST run.now.face.now) (is_on_in run.now) kind.now
        buffer.old) buffer.new) }
    ensures within { IfOk result (StaysWithin 1 buffer.old buffer.new) }
    ensures reason { IfErr result (IsRefusal buffer.old
        (kind_run (sizes_of SLOTS LONGEST run.now.face.now) (is_on_in run.now) kind.now buffer.old).buffer) }
    ensures refused { OnErr result (IsRefused buffer.old buffer.new) }
    ensures kept { is_insertion kind.now ≡ false → IsOk result }
{
    match kind {
        SubtableKind::Rearrangement(table) => run_rearrangement::<LONGEST, A>(run, table, buffer),
        SubtableKind::Contextual(subtable) => run_contextual(run, subtable, buffer),
        SubtableKind::Ligature(subtable) => run_ligature::<SLOTS, A>(run, subtable, buffer),
        SubtableKind::NonContextual(lookup) => {
            let turns = buffer.len() as u64;
            if !is_nowhere_on(run.ranges, run.feature_flags) {
                replace_all(run, lookup, buffer);
            }
            Ok(turns)
        }
        SubtableKind::Insertion(subtable) => run_insertion(run, subtable, buffer),
    }
}
