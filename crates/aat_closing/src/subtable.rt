//! The closing run of a subtable in its chain: whether it runs, and in which order of the line.
ghost use Rattle.std.specs.Prelude.{◌≡◌, ◌^◌, ◌<◌, ◌≤◌, ◌&&◌, not, IfOk, IfErr, OnOk, OnErr, IfSome, IsTrue, length, true};
ghost use Rattle.aat_buffer.specs.Clusters.{IsSmall};
ghost use Rattle.aat_closing.specs.ClosingChains.{closing_subtable};
ghost use Rattle.aat_closing.specs.ClosingRuns.{IsTold, closing_ordered, closing_run, may_split, turned};
ghost use Rattle.aat_font.specs.Idle.{is_idle};
ghost use Rattle.aat_font.specs.Blocks.{blocks_of};
ghost use Rattle.aat_font.specs.Wakers.{WakeAt};
ghost use Rattle.aat_kinds.specs.Idle.{SleepOthers};
ghost use Rattle.aat_kinds.specs.Kinds.{is_reversed, sizes_of};
ghost use Rattle.aat_kinds.specs.Runs.{is_on_in};
ghost use Rattle.aat_morx.specs.LineWords.{TellsOf};
ghost use Rattle.aat_run.specs.Driven.{IsRefusal, IsRefused, StaysWithin};
ghost use Rattle.aat_run.specs.Ranges.{IsGapless, is_whole_list, switch_for};

use crate::runs::close_kind;
use aat_buffer::{Direction, hb_buffer_t};
use aat_font::SubtableWords;
use aat_kinds::{SubtableRun, pass_over};
use aat_machine_tables::{Subtable, SubtableKind};
use aat_morx::{LineWord, is_reversed, is_skipped};
use aat_run::{AatError, MachineRun};
use std::alloc::Allocator;

/// Whether a subtable is one of rearrangement: a merge of it may split a cluster where the clusters fall along the line.
fn may_split(kind: &SubtableKind) -> bool
    ensures { result ≡ may_split kind.now }
{
    matches!(kind, SubtableKind::Rearrangement(_))
}

/// Whether the run of a subtable may tell which clusters are open: one that may split clusters does not, where it runs on
/// the line in the opposite order.
fn may_tell(subtable: &Subtable, direction: Direction) -> bool
    ensures { result ≡ not (is_reversed subtable.now.coverage direction && may_split subtable.now.kind) }
{
    !(is_reversed(subtable.coverage, direction) && may_split(&subtable.kind))
}

/// What a run answers behind which the line is turned back: it tells nothing where it may split clusters.
fn turned_back(ran: MachineRun, kind: &SubtableKind) -> MachineRun
    ensures { result ≡ record { turns = ran.turns; is_through = ran.is_through && not (may_split kind.now) } }
{
    MachineRun {
        turns: ran.turns,
        is_through: ran.is_through && !may_split(kind),
    }
}

/// Runs a subtable on the line in the opposite order, closes what its acts look at, and turns the line back.
#[tactic(auto, using(aat_morx::proofs::Refused::refusal_turned, aat_run::specs::facts::Settings::refused_behind))]
fn close_turned<const SLOTS: usize, const LONGEST: usize, A: Allocator + Copy>(
    run: &SubtableRun,
    subtable: &Subtable,
    buffer: &mut hb_buffer_t<A>,
) -> Result<MachineRun, AatError>
    requires slots { 0 < SLOTS }
    requires memory { SLOTS ≤ 2 ^ 59 }
    requires gapless { IsGapless run.now.ranges.now }
    requires whole { IsTrue (is_whole_list run.now.ranges.now) }
    requires on { length run.now.ranges.now ≡ 1 → is_on_in run.now 0 ≡ true }
    requires wakers { IfSome run.now.wakers (SleepOthers (is_idle subtable.now.kind)) }
    requires ids { IsSmall buffer.old }
    ensures run { IfOk result (IsTold (turned (may_split subtable.now.kind)
        (closing_run (sizes_of SLOTS LONGEST run.now.face.now) (is_on_in run.now) subtable.now.kind) buffer.old)
        buffer.new) }
    ensures within { IfOk result (λ o. StaysWithin 1 buffer.old buffer.new o.turns) }
    ensures reason { IfErr result (IsRefusal buffer.old (turned (may_split subtable.now.kind)
        (closing_run (sizes_of SLOTS LONGEST run.now.face.now) (is_on_in run.now) subtable.now.kind)
        buffer.old).buffer) }
    ensures refused { OnErr result (IsRefused buffer.old buffer.new) }
{
    buffer.reverse();
    let ran = close_kind::<SLOTS, LONGEST, A>(run, &subtable.kind, buffer)?;
    buffer.reverse();
    Ok(turned_back(ran, &subtable.kind))
}

/// Runs a subtable by its kind, in the order of its coverage, and closes what its acts look at.
fn close_ordered<const SLOTS: usize, const LONGEST: usize, A: Allocator + Copy>(
    run: &SubtableRun,
    subtable: &Subtable,
    buffer: &mut hb_buffer_t<A>,
) -> Result<MachineRun, AatError>
    requires slots { 0 < SLOTS }
    requires memory { SLOTS ≤ 2 ^ 59 }
    requires gapless { IsGapless run.now.ranges.now }
    requires whole { IsTrue (is_whole_list run.now.ranges.now) }
    requires on { length run.now.ranges.now ≡ 1 → is_on_in run.now 0 ≡ true }
    requires wakers { IfSome run.now.wakers (SleepOthers (is_idle subtable.now.kind)) }
    requires ids { IsSmall buffer.old }
    ensures run { IfOk result (IsTold (closing_ordered (sizes_of SLOTS LONGEST run.now.face.now) (is_on_in run.now)
        subtable.now.coverage subtable.now.kind buffer.old) buffer.new) }
    ensures within { IfOk result (λ o. StaysWithin 1 buffer.old buffer.new o.turns) }
    ensures reason { IfErr result (IsRefusal buffer.old (closing_ordered (sizes_of SLOTS LONGEST run.now.face.now)
        (is_on_in run.now) subtable.now.coverage subtable.now.kind buffer.old).buffer) }
    ensures refused { OnErr result (IsRefused buffer.old buffer.new) }
{
    if is_reversed(subtable.coverage, buffer.direction()) {
        close_turned::<SLOTS, LONGEST, A>(run, subtable, buffer)
    } else {
        close_kind::<SLOTS, LONGEST, A>(run, &subtable.kind, buffer)
    }
}

/// Runs the subtable with a number under its chain's ranges, closes what its acts look at, and answers besides the turns
/// whether the run told which clusters are open: by its kind, in the order of its coverage. One that is left out takes no
/// turn and tells, and one that no glyph of the line wakes is passed over.
#[tactic(auto, unfolding(crate::specs::ClosingChains::closing_subtable))]
pub(crate) fn close_subtable<const SLOTS: usize, const LONGEST: usize, A: Allocator + Copy>(
    run: &SubtableRun,
    subtable: &Subtable,
    known: &mut LineWord,
    words: &SubtableWords,
    number: usize,
    buffer: &mut hb_buffer_t<A>,
) -> Result<MachineRun, AatError>
    requires slots { 0 < SLOTS }
    requires memory { SLOTS ≤ 2 ^ 59 }
    requires flags { run.now.feature_flags ≡ subtable.now.feature_flags }
    requires gapless { IsGapless run.now.ranges.now }
    requires whole { IsTrue (is_whole_list run.now.ranges.now) }
    requires wakers { IfSome run.now.wakers (SleepOthers (is_idle subtable.now.kind)) }
    requires ids { IsSmall buffer.old }
    requires wake { WakeAt subtable.now (blocks_of words.now) number }
    requires tells { TellsOf known.old words.now buffer.old.line }
    ensures run { IfOk result (IsTold (closing_subtable (sizes_of SLOTS LONGEST run.now.face.now)
        (switch_for run.now.ranges.now) subtable.now buffer.old) buffer.new) }
    ensures within { IfOk result (λ o. StaysWithin 1 buffer.old buffer.new o.turns) }
    ensures reason { IfErr result (IsRefusal buffer.old
        (closing_subtable (sizes_of SLOTS LONGEST run.now.face.now) (switch_for run.now.ranges.now) subtable.now
        buffer.old).buffer) }
    ensures refused { OnErr result (IsRefused buffer.old buffer.new) }
    ensures tells { OnOk result (TellsOf known.new words.now buffer.new.line) }
{
    let direction = buffer.direction();
    if is_skipped(run, subtable, direction) {
        return Ok(MachineRun {
            turns: 0,
            is_through: true,
        });
    }
    if !known.wakes(words, number, buffer) {
        return Ok(MachineRun {
            turns: pass_over(&subtable.kind, buffer),
            is_through: may_tell(subtable, direction),
        });
    }
    // a copy, so that the caller's record need not be in memory where no subtable runs
    let run = *run;
    let ran = close_ordered::<SLOTS, LONGEST, A>(&run, subtable, buffer)?;
    known.forget();
    Ok(ran)
}
