//! A subtable in its chain: whether it runs, and in which order of the line.
ghost use Rattle.std.specs.Prelude.{◌≡◌, ◌^◌, ◌<◌, ◌≤◌, IfOk, IfErr, OnOk, OnErr, IfSome, IsTrue, false, length, true};
ghost use Rattle.aat_buffer.specs.Clusters.{IsSmall};
ghost use Rattle.aat_font.specs.Idle.{is_idle};
ghost use Rattle.aat_font.specs.Blocks.{blocks_of};
ghost use Rattle.aat_font.specs.Wakers.{WakeAt};
ghost use Rattle.aat_kinds.specs.Idle.{SleepOthers};
ghost use Rattle.aat_kinds.specs.Kinds.{is_for, is_reversed, kind_run, ordered_run, reversed_run, sizes_of};
ghost use Rattle.aat_kinds.specs.Runs.{is_on_in};
ghost use Rattle.aat_morx.specs.Substitution.{is_skipped, subtable_run};
ghost use Rattle.aat_morx.specs.LineWords.{TellsOf};
ghost use Rattle.aat_run.specs.Driven.{IsRefusal, IsRefused, StaysWithin};
ghost use Rattle.aat_run.specs.Outcome.{IsOutcome};
ghost use Rattle.aat_run.specs.Ranges.{IsGapless, is_whole_list, switch_for};

use crate::waking::LineWord;
use aat_buffer::{Direction, hb_buffer_t};
use aat_font::SubtableWords;
use aat_kinds::{SubtableRun, pass_over, run_kind};
use aat_machine_tables::{Coverage, Subtable};
use aat_run::AatError;
use std::alloc::Allocator;

/// Whether a subtable is for text of this direction: for all directions, or of the text's orientation.
///
/// Apple's TrueType Reference Manual, "The 'morx' table", the coverage of a subtable.
pub fn is_for(direction: Direction, coverage: Coverage) -> bool
    ensures { result ≡ is_for direction coverage }
{
    coverage.is_all_directions() || coverage.is_vertical() == direction.is_vertical()
}

/// Whether a subtable is left out: its chain has one range alone and it is off there, or it is not for text of this
/// direction. `run` has the flags of the subtable.
pub fn is_skipped(run: &SubtableRun, subtable: &Subtable, direction: Direction) -> bool
    requires { run.now.feature_flags ≡ subtable.now.feature_flags }
    ensures skipped { result ≡ is_skipped (switch_for run.now.ranges.now) subtable.now direction }
    ensures on { result ≡ false → length run.now.ranges.now ≡ 1 → is_on_in run.now 0 ≡ true }
{
    if run.ranges.len() == 1 && !run.is_on(0) {
        return true;
    }
    !is_for(direction, subtable.coverage)
}

/// Whether a subtable runs on the line in the opposite order. One in logical order says so itself; any other takes the
/// glyphs as they are drawn, so that a text that runs backward is turned round unless the subtable runs backwards.
///
/// Apple's TrueType Reference Manual, "The 'morx' table", the coverage of a subtable.
pub fn is_reversed(coverage: Coverage, direction: Direction) -> bool
    ensures { result ≡ is_reversed coverage direction }
{
    if coverage.is_logical() {
        coverage.is_backwards()
    } else {
        coverage.is_backwards() != direction.is_backward()
    }
}

/// Runs a subtable on the line in the opposite order, and turns the line back.
#[tactic(auto, using(crate::proofs::Refused::refusal_turned, aat_run::specs::facts::Settings::refused_behind))]
fn run_reversed<const SLOTS: usize, const LONGEST: usize, A: Allocator + Copy>(
    run: &SubtableRun,
    subtable: &Subtable,
    buffer: &mut hb_buffer_t<A>,
) -> Result<u64, AatError>
    requires slots { 0 < SLOTS }
    requires memory { SLOTS ≤ 2 ^ 59 }
    requires gapless { IsGapless run.now.ranges.now }
    requires whole { IsTrue (is_whole_list run.now.ranges.now) }
    requires on { length run.now.ranges.now ≡ 1 → is_on_in run.now 0 ≡ true }
    requires wakers { IfSome run.now.wakers (SleepOthers (is_idle subtable.now.kind)) }
    requires ids { IsSmall buffer.old }
    ensures run { IfOk result (IsOutcome (reversed_run
        (kind_run (sizes_of SLOTS LONGEST run.now.face.now) (is_on_in run.now) subtable.now.kind) buffer.old)
        buffer.new) }
    ensures within { IfOk result (StaysWithin 1 buffer.old buffer.new) }
    ensures reason { IfErr result (IsRefusal buffer.old (reversed_run
        (kind_run (sizes_of SLOTS LONGEST run.now.face.now) (is_on_in run.now) subtable.now.kind) buffer.old).buffer) }
    ensures refused { OnErr result (IsRefused buffer.old buffer.new) }
{
    buffer.reverse();
    let turns = run_kind::<SLOTS, LONGEST, A>(run, &subtable.kind, buffer)?;
    buffer.reverse();
    Ok(turns)
}

/// Runs a subtable by its kind, in the order of its coverage.
fn run_ordered<const SLOTS: usize, const LONGEST: usize, A: Allocator + Copy>(
    run: &SubtableRun,
    subtable: &Subtable,
    buffer: &mut hb_buffer_t<A>,
) -> Result<u64, AatError>
    requires slots { 0 < SLOTS }
    requires memory { SLOTS ≤ 2 ^ 59 }
    requires gapless { IsGapless run.now.ranges.now }
    requires whole { IsTrue (is_whole_list run.now.ranges.now) }
    requires on { length run.now.ranges.now ≡ 1 → is_on_in run.now 0 ≡ true }
    requires wakers { IfSome run.now.wakers (SleepOthers (is_idle subtable.now.kind)) }
    requires ids { IsSmall buffer.old }
    ensures run { IfOk result (IsOutcome (ordered_run subtable.now.coverage
        (kind_run (sizes_of SLOTS LONGEST run.now.face.now) (is_on_in run.now) subtable.now.kind) buffer.old)
        buffer.new) }
    ensures within { IfOk result (StaysWithin 1 buffer.old buffer.new) }
    ensures reason { IfErr result (IsRefusal buffer.old (ordered_run subtable.now.coverage
        (kind_run (sizes_of SLOTS LONGEST run.now.face.now) (is_on_in run.now) subtable.now.kind) buffer.old).buffer) }
    ensures refused { OnErr result (IsRefused buffer.old buffer.new) }
{
    if is_reversed(subtable.coverage, buffer.direction()) {
        run_reversed::<SLOTS, LONGEST, A>(run, subtable, buffer)
    } else {
        run_kind::<SLOTS, LONGEST, A>(run, &subtable.kind, buffer)
    }
}

/// Runs the subtable with a number under its chain's ranges, and answers the turns: by its kind, in the order of its
/// coverage. One that is left out takes none, and one that no glyph of the line wakes is passed over.
#[tactic(auto, unfolding(crate::specs::Substitution::subtable_run))]
pub(crate) fn run_subtable<const SLOTS: usize, const LONGEST: usize, A: Allocator + Copy>(
    run: &SubtableRun,
    subtable: &Subtable,
    known: &mut LineWord,
    words: &SubtableWords,
    number: usize,
    buffer: &mut hb_buffer_t<A>,
) -> Result<u64, AatError>
    requires slots { 0 < SLOTS }
    requires memory { SLOTS ≤ 2 ^ 59 }
    requires flags { run.now.feature_flags ≡ subtable.now.feature_flags }
    requires gapless { IsGapless run.now.ranges.now }
    requires whole { IsTrue (is_whole_list run.now.ranges.now) }
    requires wakers { IfSome run.now.wakers (SleepOthers (is_idle subtable.now.kind)) }
    requires ids { IsSmall buffer.old }
    requires wake { WakeAt subtable.now (blocks_of words.now) number }
    requires tells { TellsOf known.old words.now buffer.old.line }
    ensures run { IfOk result (IsOutcome (subtable_run (sizes_of SLOTS LONGEST run.now.face.now)
        (switch_for run.now.ranges.now) subtable.now buffer.old) buffer.new) }
    ensures within { IfOk result (StaysWithin 1 buffer.old buffer.new) }
    ensures reason { IfErr result (IsRefusal buffer.old
        (subtable_run (sizes_of SLOTS LONGEST run.now.face.now) (switch_for run.now.ranges.now) subtable.now
        buffer.old).buffer) }
    ensures refused { OnErr result (IsRefused buffer.old buffer.new) }
    ensures tells { OnOk result (TellsOf known.new words.now buffer.new.line) }
{
    if is_skipped(run, subtable, buffer.direction()) {
        return Ok(0);
    }
    if !known.wakes(words, number, buffer) {
        return Ok(pass_over(&subtable.kind, buffer));
    }
    // a copy, so that the caller's record need not be in memory where no subtable runs
    let run = *run;
    let turns = run_ordered::<SLOTS, LONGEST, A>(&run, subtable, buffer)?;
    known.forget();
    Ok(turns)
}
