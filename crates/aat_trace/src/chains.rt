//! Subtables and chains in their order, with what each changed told.
ghost use Rattle.std.specs.Prelude.{◌≡◌, ◌^◌, ◌<◌, ◌≤◌, ◌∷◌, [], IfOk, IfErr, IfSome, OnErr, OnOk, IsTrue, length};
ghost use Rattle.std.specs.List.{list_all};
ghost use Rattle.std.specs.Option.{option_copied};
ghost use Rattle.aat_buffer.specs.Clusters.{IsSmall};
ghost use Rattle.aat_machine_tables.specs.Chains.{subtable_count};
ghost use Rattle.aat_kinds.specs.Kinds.{sizes_of};
ghost use Rattle.aat_map.specs.Map.{lists_for};
ghost use Rattle.aat_map.specs.SwitchedChains.{SwitchedChain, switched_by};
ghost use Rattle.aat_morx.specs.Substitution.{chain_run, subtable_run};
ghost use Rattle.aat_run.specs.Driven.{IsRefusal, IsRefused, StaysWithin};
ghost use Rattle.aat_run.specs.Outcome.{IsOutcome, in_order};
ghost use Rattle.aat_run.specs.Ranges.{IsGapless, is_whole_list, switch_for};
ghost use Rattle.aat_trace.specs.Told.{told_of, told_of_chains, told_of_subtables};
ghost use Rattle.aat_trace.specs.inside.Telling.{TellsMore};

use crate::log::Log;
use crate::subtable::run_subtable;
use crate::telling::{SubtableTurns, glyphs_of, tell};
use crate::traced::Trace;
use aat_buffer::hb_buffer_t;
use aat_font::hb_font_t;
use aat_kinds::SubtableRun;
use aat_machine_tables::{Chain, Subtable};
use aat_map::{default_range, hb_aat_map_t, ranges_of};
use aat_morx::{is_reversed, is_skipped};
use aat_run::{AatError, range_flags_t};
use std::alloc::{Allocator, Global};

/// Runs a subtable, the one of its chain with this number, tells what it did, and answers the turns.
fn trace_subtable<const SLOTS: usize, const LONGEST: usize, A: Allocator + Copy>(
    alloc: Global,
    run: &SubtableRun,
    subtable: &Subtable,
    place: (usize, usize),
    buffer: &mut hb_buffer_t<A>,
    trace: &mut Trace,
) -> Result<u64, AatError>
    requires slots { 0 < SLOTS }
    requires memory { SLOTS ≤ 2 ^ 59 }
    requires flags { run.now.feature_flags ≡ subtable.now.feature_flags }
    requires gapless { IsGapless run.now.ranges.now }
    requires whole { IsTrue (is_whole_list run.now.ranges.now) }
    requires ids { IsSmall buffer.old }
    ensures run { IfOk result (IsOutcome (subtable_run (sizes_of SLOTS LONGEST run.now.face.now)
        (switch_for run.now.ranges.now) subtable.now buffer.old) buffer.new) }
    ensures within { IfOk result (StaysWithin 1 buffer.old buffer.new) }
    ensures told { OnOk result (TellsMore trace.old trace.new (told_of (sizes_of SLOTS LONGEST run.now.face.now)
        (switch_for run.now.ranges.now) place.0 place.1 subtable.now buffer.old ∷ [])) }
    ensures reason { IfErr result (IsRefusal buffer.old
        (subtable_run (sizes_of SLOTS LONGEST run.now.face.now) (switch_for run.now.ranges.now) subtable.now
        buffer.old).buffer) }
    ensures refused { OnErr result (IsRefused buffer.old buffer.new) }
{
    let direction = buffer.direction();
    let is_run = !is_skipped(run, subtable, direction);
    let is_reversed = is_reversed(subtable.coverage, direction);
    let before = glyphs_of(alloc, buffer).ok();
    let mut log = Log::new(alloc);
    let turns = run_subtable::<SLOTS, LONGEST, A>(run, subtable, buffer, &mut log)?;
    let told = SubtableTurns {
        chain: place.0,
        subtable: place.1,
        is_run,
        is_reversed,
        turns,
    };
    trace.add(tell(alloc, told, before, log, buffer));
    Ok(turns)
}

/// Runs the subtables of the chain with this number in their order, tells what each did, and answers the turns.
#[tactic(auto, using(aat_run::specs::facts::Settings::refused_behind))]
fn trace_chain<'a, const SLOTS: usize, const LONGEST: usize, A: Allocator + Copy>(
    alloc: Global,
    face: &'a hb_font_t,
    ranges: &'a [range_flags_t],
    i: usize,
    subtables: &[Subtable],
    buffer: &mut hb_buffer_t<A>,
    trace: &mut Trace,
) -> Result<u64, AatError>
    requires slots { 0 < SLOTS }
    requires memory { SLOTS ≤ 2 ^ 59 }
    requires few { length subtables.now ≤ 65535 }
    requires gapless { IsGapless ranges.now }
    requires whole { IsTrue (is_whole_list ranges.now) }
    requires ids { IsSmall buffer.old }
    ensures run { IfOk result (IsOutcome (chain_run (sizes_of SLOTS LONGEST face.now)
        (record { switch = switch_for ranges.now; subtables = subtables.now }) buffer.old) buffer.new) }
    ensures within { IfOk result (StaysWithin (length subtables.now) buffer.old buffer.new) }
    ensures told { OnOk result (TellsMore trace.old trace.new (told_of_subtables (sizes_of SLOTS LONGEST face.now)
        (switch_for ranges.now) i 0 subtables.now buffer.old)) }
    ensures reason { IfErr result (IsRefusal buffer.old (chain_run (sizes_of SLOTS LONGEST face.now)
        (record { switch = switch_for ranges.now; subtables = subtables.now }) buffer.old).buffer) }
    ensures refused { OnErr result (IsRefused buffer.old buffer.new) }
{
    let _length = buffer.len();
    let _budget = buffer.max_ops();
    let mut turns = 0;
    for (k, subtable) in subtables.iter().enumerate() {
        let run = SubtableRun {
            face,
            ranges,
            feature_flags: subtable.feature_flags,
            wakers: None,
        };
        turns += trace_subtable::<SLOTS, LONGEST, A>(alloc, &run, subtable, (i, k), buffer, trace)?;
    }
    Ok(turns)
}

/// Runs all chains in their order, each under its list of the map, and without a map under its default flags. Tells
/// what each subtable did, and answers the turns.
#[tactic(auto, using(aat_run::specs::facts::Settings::refused_behind))]
pub(crate) fn trace_chains<const SLOTS: usize, const LONGEST: usize, A: Allocator + Copy>(
    alloc: Global,
    face: &hb_font_t,
    chains: &[Chain],
    map: Option<&hb_aat_map_t>,
    buffer: &mut hb_buffer_t<A>,
    trace: &mut Trace,
) -> Result<u64, AatError>
    requires slots { 0 < SLOTS }
    requires memory { SLOTS ≤ 2 ^ 59 }
    requires few { subtable_count chains.now ≤ 65535 }
    requires whole { IfSome (option_copied map) (λ m. IsTrue (list_all is_whole_list m)) }
    requires ids { IsSmall buffer.old }
    ensures run { IfOk result (IsOutcome (in_order (chain_run (sizes_of SLOTS LONGEST face.now))
        (switched_by chains.now (lists_for (option_copied map.entry) chains.now)) buffer.old) buffer.new) }
    ensures within { IfOk result (StaysWithin (subtable_count chains.now) buffer.old buffer.new) }
    ensures told { OnOk result (TellsMore trace.old trace.new (told_of_chains (sizes_of SLOTS LONGEST face.now) 0
        (switched_by chains.now (lists_for (option_copied map.entry) chains.now)) buffer.old)) }
    ensures reason { IfErr result (IsRefusal buffer.old (in_order (chain_run (sizes_of SLOTS LONGEST face.now))
        (switched_by chains.now (lists_for (option_copied map.entry) chains.now)) buffer.old).buffer) }
    ensures refused { OnErr result (IsRefused buffer.old buffer.new) }
{
    let _length = buffer.len();
    let _budget = buffer.max_ops();
    let mut turns = 0;
    for (i, chain) in chains.iter().enumerate() {
        let default = [default_range(chain)];
        let ranges = ranges_of(map, i, &default);
        turns += trace_chain::<SLOTS, LONGEST, A>(
            alloc,
            face,
            ranges,
            i,
            &chain.subtables,
            buffer,
            trace,
        )?;
    }
    Ok(turns)
}
