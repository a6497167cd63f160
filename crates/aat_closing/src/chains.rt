//! The closing runs of subtables and chains in their order.
ghost use Rattle.std.specs.Prelude.{◌≡◌, ◌+◌, ◌^◌, ◌<◌, ◌≤◌, ◌&&◌, IfOk, IfErr, IfSome, OnErr, OnOk, IsTrue, length};
ghost use Rattle.std.specs.List.{list_all};
ghost use Rattle.std.specs.Option.{option_copied};
ghost use Rattle.aat_buffer.specs.Clusters.{IsSmall};
ghost use Rattle.aat_closing.specs.ClosingChains.{closing_chain};
ghost use Rattle.aat_closing.specs.ClosingRuns.{IsTold, told_in_order};
ghost use Rattle.aat_machine_tables.specs.Chains.{subtable_count};
ghost use Rattle.aat_font.specs.Morx.{chains_of};
ghost use Rattle.aat_font.specs.Blocks.{blocks_of};
ghost use Rattle.aat_font.specs.Wakers.{AreWakers};
ghost use Rattle.aat_kinds.specs.Kinds.{sizes_of};
ghost use Rattle.aat_map.specs.Map.{lists_for};
ghost use Rattle.aat_map.specs.SwitchedChains.{SwitchedChain, switched_by};
ghost use Rattle.aat_morx.specs.LineWords.{TellsOf};
ghost use Rattle.aat_run.specs.Driven.{IsRefusal, IsRefused, StaysWithin};
ghost use Rattle.aat_run.specs.Ranges.{IsGapless, is_whole_list, switch_for};

use crate::subtable::close_subtable;
use aat_buffer::hb_buffer_t;
use aat_font::{Morx, SubtableWords, hb_font_t};
use aat_kinds::SubtableRun;
use aat_machine_tables::{Chain, Subtable};
use aat_map::{default_range, hb_aat_map_t, ranges_of};
use aat_morx::{LineWord, wakers_at};
use aat_run::{AatError, MachineRun, range_flags_t};
use std::alloc::Allocator;

/// What two runs answer, one behind the other: the turns of both, and whether both told.
fn told_after(before: MachineRun, ran: MachineRun) -> MachineRun
    requires { before.turns + ran.turns < 2 ^ 64 }
    ensures { result
        ≡ record { turns = before.turns + ran.turns; is_through = before.is_through && ran.is_through } }
{
    MachineRun {
        turns: before.turns + ran.turns,
        is_through: before.is_through && ran.is_through,
    }
}

/// Runs the subtables of a chain in their order, closes what their acts look at, and answers the turns, and whether all of
/// them told which clusters are open. Words tell which glyphs may wake them, the first one as the subtable with this
/// number.
#[tactic(auto, using(aat_run::specs::facts::Settings::refused_behind))]
fn close_chain<const SLOTS: usize, const LONGEST: usize, A: Allocator + Copy>(
    face: &hb_font_t,
    ranges: &[range_flags_t],
    subtables: &[Subtable],
    first: usize,
    words: &SubtableWords,
    known: &mut LineWord,
    buffer: &mut hb_buffer_t<A>,
) -> Result<MachineRun, AatError>
    requires slots { 0 < SLOTS }
    requires memory { SLOTS ≤ 2 ^ 59 }
    requires few { length subtables.now ≤ 65535 }
    requires start { first ≤ 65535 }
    requires wakers { AreWakers subtables.now (blocks_of words.now) first }
    requires tells { TellsOf known.old words.now buffer.old.line }
    requires gapless { IsGapless ranges.now }
    requires whole { IsTrue (is_whole_list ranges.now) }
    requires ids { IsSmall buffer.old }
    ensures run { IfOk result (IsTold (closing_chain (sizes_of SLOTS LONGEST face.now)
        (record { switch = switch_for ranges.now; subtables = subtables.now }) buffer.old) buffer.new) }
    ensures within { IfOk result (λ o. StaysWithin (length subtables.now) buffer.old buffer.new o.turns) }
    ensures reason { IfErr result (IsRefusal buffer.old (closing_chain (sizes_of SLOTS LONGEST face.now)
        (record { switch = switch_for ranges.now; subtables = subtables.now }) buffer.old).buffer) }
    ensures refused { OnErr result (IsRefused buffer.old buffer.new) }
    ensures tells { OnOk result (TellsOf known.new words.now buffer.new.line) }
{
    let _length = buffer.len();
    let _budget = buffer.max_ops();
    let mut told = MachineRun {
        turns: 0,
        is_through: true,
    };
    for (i, subtable) in subtables.iter().enumerate() {
        let number = first + i;
        let run = SubtableRun {
            face,
            ranges,
            feature_flags: subtable.feature_flags,
            wakers: wakers_at(words, number),
        };
        let ran = close_subtable::<SLOTS, LONGEST, A>(
            &run, subtable, known, words, number, buffer,
        )?;
        told = told_after(told, ran);
    }
    Ok(told)
}

/// Runs the chains of a table in their order, each under its list of the map, and without a map under its default flags,
/// and closes what the acts look at. Answers the turns, and whether all of them told which clusters are open.
#[tactic(auto, using(aat_run::specs::facts::Settings::refused_behind))]
pub(crate) fn close_chains<
    const SLOTS: usize,
    const LONGEST: usize,
    A: Allocator + Copy,
    M: Allocator + Copy,
>(
    face: &hb_font_t,
    morx: &Morx,
    chains: &[Chain],
    map: Option<&hb_aat_map_t<M>>,
    buffer: &mut hb_buffer_t<A>,
) -> Result<MachineRun, AatError>
    requires slots { 0 < SLOTS }
    requires memory { SLOTS ≤ 2 ^ 59 }
    requires chains { chains.now ≡ chains_of morx.now }
    requires few { subtable_count chains.now ≤ 65535 }
    requires whole { IfSome (option_copied map) (λ m. IsTrue (list_all is_whole_list m)) }
    requires ids { IsSmall buffer.old }
    ensures run { IfOk result (IsTold (told_in_order (closing_chain (sizes_of SLOTS LONGEST face.now))
        (switched_by chains.now (lists_for (option_copied map.entry) chains.now)) buffer.old) buffer.new) }
    ensures within { IfOk result (λ o. StaysWithin (subtable_count chains.now) buffer.old buffer.new o.turns) }
    ensures reason { IfErr result (IsRefusal buffer.old (told_in_order (closing_chain (sizes_of SLOTS LONGEST face.now))
        (switched_by chains.now (lists_for (option_copied map.entry) chains.now)) buffer.old).buffer) }
    ensures refused { OnErr result (IsRefused buffer.old buffer.new) }
{
    let _length = buffer.len();
    let _budget = buffer.max_ops();
    let mut told = MachineRun {
        turns: 0,
        is_through: true,
    };
    let words = morx.wakers();
    let mut known = LineWord::unknown(words);
    let mut first = 0;
    for (i, chain) in chains.iter().enumerate() {
        let default = [default_range(chain)];
        let ranges = ranges_of(map, i, &default);
        let ran = close_chain::<SLOTS, LONGEST, A>(
            face,
            ranges,
            &chain.subtables,
            first,
            words,
            &mut known,
            buffer,
        )?;
        told = told_after(told, ran);
        first += chain.subtables.len();
    }
    Ok(told)
}
