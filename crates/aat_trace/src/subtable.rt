//! A subtable in its chain: whether it runs, and in which order of the line, with what its acts change noted.
ghost use Rattle.std.specs.Prelude.{◌≡◌, ◌^◌, ◌<◌, ◌≤◌, IfOk, IfErr, OnErr, IsTrue, false, length, true};
ghost use Rattle.aat_buffer.specs.Clusters.{IsSmall};
ghost use Rattle.aat_kinds.specs.Kinds.{kind_run, reversed_run, sizes_of};
ghost use Rattle.aat_kinds.specs.Runs.{is_on_in};
ghost use Rattle.aat_morx.specs.Substitution.{subtable_run};
ghost use Rattle.aat_run.specs.Driven.{IsRefusal, IsRefused, StaysWithin};
ghost use Rattle.aat_run.specs.Outcome.{IsOutcome};
ghost use Rattle.aat_run.specs.Ranges.{IsGapless, is_whole_list, switch_for};

use crate::log::Log;
use crate::machines::run_noted;
use aat_buffer::hb_buffer_t;
use aat_kinds::SubtableRun;
use aat_machine_tables::Subtable;
use aat_morx::{is_reversed, is_skipped};
use aat_run::AatError;
use std::alloc::Allocator;

/// Runs a subtable on the line in the opposite order, and turns the line back.
#[tactic(auto, using(aat_morx::proofs::Refused::refusal_turned, aat_run::specs::facts::Settings::refused_behind))]
fn run_reversed<const SLOTS: usize, const LONGEST: usize, A: Allocator + Copy>(
    run: &SubtableRun,
    subtable: &Subtable,
    buffer: &mut hb_buffer_t<A>,
    log: &mut Log,
) -> Result<u64, AatError>
    requires slots { 0 < SLOTS }
    requires memory { SLOTS ≤ 2 ^ 59 }
    requires gapless { IsGapless run.now.ranges.now }
    requires whole { IsTrue (is_whole_list run.now.ranges.now) }
    requires on { length run.now.ranges.now ≡ 1 → is_on_in run.now 0 ≡ true }
    requires ids { IsSmall buffer.old }
    ensures run { IfOk result (IsOutcome (reversed_run
        (kind_run (sizes_of SLOTS LONGEST run.now.face.now) (is_on_in run.now) subtable.now.kind) buffer.old)
        buffer.new) }
    ensures within { IfOk result (StaysWithin 1 buffer.old buffer.new) }
    ensures reason { IfErr result (IsRefusal buffer.old (reversed_run
        (kind_run (sizes_of SLOTS LONGEST run.now.face.now) (is_on_in run.now) subtable.now.kind) buffer.old).buffer) }
    ensures refused { OnErr result (IsRefused buffer.old buffer.new) }
{
    buffer.reverse();
    let turns = run_noted::<SLOTS, LONGEST, A>(run, &subtable.kind, buffer, log)?;
    buffer.reverse();
    Ok(turns)
}

/// Runs a subtable under the ranges of its chain, and answers the turns: by its kind, in the order of its coverage. One
/// that is left out takes none, and nothing is noted of it.
#[tactic(auto, unfolding(aat_morx::specs::Substitution::subtable_run))]
pub(crate) fn run_subtable<const SLOTS: usize, const LONGEST: usize, A: Allocator + Copy>(
    run: &SubtableRun,
    subtable: &Subtable,
    buffer: &mut hb_buffer_t<A>,
    log: &mut Log,
) -> Result<u64, AatError>
    requires slots { 0 < SLOTS }
    requires memory { SLOTS ≤ 2 ^ 59 }
    requires flags { run.now.feature_flags ≡ subtable.now.feature_flags }
    requires gapless { IsGapless run.now.ranges.now }
    requires whole { IsTrue (is_whole_list run.now.ranges.now) }
    requires ids { IsSmall buffer.old }
    ensures run { IfOk result (IsOutcome (subtable_run (sizes_of SLOTS LONGEST run.now.face.now)
        (switch_for run.now.ranges.now) subtable.now buffer.old) buffer.new) }
    ensures within { IfOk result (StaysWithin 1 buffer.old buffer.new) }
    ensures reason { IfErr result (IsRefusal buffer.old
        (subtable_run (sizes_of SLOTS LONGEST run.now.face.now) (switch_for run.now.ranges.now) subtable.now
        buffer.old).buffer) }
    ensures refused { OnErr result (IsRefused buffer.old buffer.new) }
{
    if is_skipped(run, subtable, buffer.direction()) {
        return Ok(0);
    }
    if is_reversed(subtable.coverage, buffer.direction()) {
        run_reversed::<SLOTS, LONGEST, A>(run, subtable, buffer, log)
    } else {
        run_noted::<SLOTS, LONGEST, A>(run, &subtable.kind, buffer, log)
    }
}
