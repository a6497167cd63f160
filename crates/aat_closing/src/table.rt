//! The closing run of the table under a map.
ghost use Rattle.std.specs.Prelude.{◌≡◌, ◌^◌, ◌<◌, ◌≤◌, IfOk, IfErr, IfSome, IsErrOf, IsOk, IsTrue, MatchOption, OnErr, OnOk, false, is_none, length, true};
ghost use Rattle.std.specs.List.{list_all};
ghost use Rattle.std.specs.Option.{option_copied};
ghost use Rattle.aat_buffer.specs.Clusters.{IsSmall};
ghost use Rattle.aat_closing.specs.AppliedCuts.{CanBeCut};
ghost use Rattle.aat_closing.specs.ClosingApplied.{closing_applied_by};
ghost use Rattle.aat_closing.specs.ClosingRuns.{IsTold};
ghost use Rattle.aat_machine_tables.specs.Chains.{subtable_count};
ghost use Rattle.aat_font.specs.Face.{chains_in, tables_of};
ghost use Rattle.aat_kinds.specs.Kinds.{sizes_of};
ghost use Rattle.aat_morx.specs.Kept.{has_insertion};
ghost use Rattle.aat_morx.specs.Substitution.{prepared};
ghost use Rattle.aat_run.specs.Budget.{extent};
ghost use Rattle.aat_run.specs.Driven.{IsRefusal, IsRefused, StaysWithin};
ghost use Rattle.aat_run.specs.Laws.{HasOrderOf};
ghost use Rattle.aat_run.specs.Ranges.{is_whole_list};

use crate::chains::close_chains;
use aat_buffer::hb_buffer_t;
use aat_font::hb_font_t;
use aat_map::hb_aat_map_t;
use aat_morx::prepare;
use aat_run::{AatError, MachineRun};
use std::alloc::Allocator;

/// Does as `run_table` of `aat_morx`, closes what the acts look at, and answers besides the turns whether all subtables told
/// which clusters are open: `is_through`. Without the table it prepares the line alone, and answers `None`.
///
/// What is left is what `run_table` leaves, but for the flags of the glyphs, which may differ. Where all told, the
/// cursor was at the front, and no marks against joining are asked for, a line whose clusters merge and never fall can
/// be cut at a rise to one that is left, and unmarked: what is left is what this call leaves of the two parts. Some glyph
/// has to be left before it, from whose cluster on through that one the map switches each subtable evenly, and some of
/// the budget. A subtable that is left out tells, and one that no glyph of the line wakes does as it would if it ran.
/// One of rearrangement that runs on the line in the opposite order tells nothing.
///
/// Each glyph id has to be at most 0xFFFF, and the map whole, which `is_whole` tells; there has to be a slot, and at most
/// 2^59 of them. A buffer that had failed is run as any other.
///
/// Refused as 2, `TooLong`, only where the runs would leave a line longer than the buffer's `max_len`, and as 3,
/// `OutOfMemory`, only where they would leave a longer line than they found, and that one was shorter than `max_len`; where
/// all of this holds either may come. Then the buffer has failed, its line is some line of 16-bit glyphs that has at most its
/// greatest length, and all but line, cursor, positions and budget is as before. Where no subtable is one of insertion
/// neither comes, and the number of glyphs stays.
///
/// Apple's TrueType Reference Manual, "The 'morx' table".
#[tactic(auto, using(aat_run::specs::facts::Settings::refused_behind, aat_morx::proofs::Prepared::prepared_settings))]
pub fn close_table<
    const SLOTS: usize,
    const LONGEST: usize,
    A: Allocator + Copy,
    M: Allocator + Copy,
>(
    face: &hb_font_t,
    map: Option<&hb_aat_map_t<M>>,
    buffer: &mut hb_buffer_t<A>,
) -> Result<Option<MachineRun>, AatError>
    requires slots { 0 < SLOTS }
    requires memory { SLOTS ≤ 2 ^ 59 }
    requires whole { IfSome (option_copied map) (λ m. IsTrue (list_all is_whole_list m)) }
    requires ids { IsSmall buffer.old }
    ensures known { IfOk result (λ answer. is_none answer ≡ is_none (tables_of face.now).morx) }
    ensures run { IfOk result (λ answer. MatchOption answer (buffer.new ≡ prepared buffer.old)
        (IsTold (closing_applied_by (sizes_of SLOTS LONGEST face.now) face.now (option_copied map.entry) buffer.old)
        buffer.new)) }
    ensures within { IfOk result (λ answer. MatchOption answer (StaysWithin 0 buffer.old buffer.new 0)
        (λ o. StaysWithin (subtable_count (chains_in (tables_of face.now).morx)) buffer.old buffer.new o.turns)) }
    ensures few { IfOk result (λ answer. IfSome answer (λ o. o.turns ≤ 2 ^ 62)) }
    ensures cut { IfOk result (λ answer. IfSome answer (λ o. o.is_through ≡ true
        → CanBeCut (sizes_of SLOTS LONGEST face.now) face.now (option_copied map.entry) buffer.old buffer.new)) }
    ensures reason { IfErr result (IsRefusal buffer.old
        (closing_applied_by (sizes_of SLOTS LONGEST face.now) face.now (option_copied map.entry) buffer.old).buffer) }
    ensures refused { OnErr result (IsRefused buffer.old buffer.new) }
    ensures order { OnOk result (HasOrderOf buffer.old buffer.new) }
    ensures room { IsErrOf result AatError.TooLong → buffer.old.max_len < extent buffer.old }
    ensures without_insertion { has_insertion (chains_in (tables_of face.now).morx) ≡ false → IsOk result }
    ensures number { has_insertion (chains_in (tables_of face.now).morx) ≡ false
        → OnOk result (length buffer.new.line ≡ length buffer.old.line) }
{
    let _length = buffer.len();
    let _budget = buffer.max_ops();
    prepare(buffer);
    match &face.tables().morx {
        Some(morx) => Ok(Some(close_chains::<SLOTS, LONGEST, A, M>(
            face,
            morx,
            morx.chains(),
            map,
            buffer,
        )?)),
        None => Ok(None),
    }
}
