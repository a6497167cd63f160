//! Running the table under a map.
ghost use Rattle.std.specs.Prelude.{◌≡◌, ◌+◌, ◌-◌, ◌*◌, ◌^◌, ◌<◌, ◌≤◌, ◌↔◌, IfOk, IfErr, IfSome, IsErrOf, IsTrue, None, OnErr, OnOk, IsOk, MatchOption, false, is_none, length, true};
ghost use Rattle.std.specs.List.{list_all};
ghost use Rattle.std.specs.Option.{option_copied};
ghost use Rattle.aat_buffer.specs.Clusters.{IsSmall};
ghost use Rattle.aat_machine_tables.specs.Chains.{subtable_count};
ghost use Rattle.aat_font.specs.Face.{chains_in, tables_of};
ghost use Rattle.aat_kinds.specs.Kinds.{sizes_for, sizes_of};
ghost use Rattle.aat_morx.specs.Applying.{RefusesRun, applied, applied_by};
ghost use Rattle.aat_morx.specs.Kept.{has_insertion};
ghost use Rattle.aat_morx.specs.Substitution.{prepared};
ghost use Rattle.aat_run.specs.Budget.{extent};
ghost use Rattle.aat_run.specs.Driven.{IsRefusal, IsRefused, StaysWithin};
ghost use Rattle.aat_run.specs.Laws.{HasOrderOf};
ghost use Rattle.aat_run.specs.Outcome.{IsOutcome};
ghost use Rattle.aat_run.specs.Ranges.{is_whole_list};

use crate::chains::run_chains;
use aat_buffer::hb_buffer_t;
use aat_font::hb_font_t;
use aat_kinds::{LIGATURE_SLOTS, MAX_CONTEXT_LENGTH};
use aat_map::hb_aat_map_t;
use aat_run::{AatError, hb_aat_apply_context_t};
use std::alloc::Allocator;

/// Runs the extended glyph metamorphosis table over the buffer of a run, under the flags of a map.
///
/// The positions are dropped, and the whole line gets the mark against joining, where the buffer asks for it. Then all
/// chains run in their order, each under its list of the map: a chain without a list, or with an empty one, has each
/// of its subtables on, and lists past the chains are not read. The turns are added to those of the run. Answers `None`
/// for a font without the table, and then nothing but the positions and the mark changes; else the run has no ranges
/// and no feature flags afterwards.
///
/// Each glyph id has to be at most 0xFFFF, which `all_glyphs_16` tells, the map has to be whole, which `is_whole`
/// tells, and the turns of the run at most 2^61.
///
/// Refused as 4, `BufferFailed`, where a call of the buffer was refused before, and nothing changes then. Else as 2,
/// `TooLong`, only where substitution leaves a line longer than the buffer's `max_len`, and as 3, `OutOfMemory`, only
/// where it leaves a longer line than it found, and that one was shorter than `max_len`; where all of this holds either
/// may come. Then the buffer has failed, its line is some line of 16-bit glyphs that has at most its greatest length,
/// all but line, cursor, positions and budget is as before, the run has no ranges and no feature flags, and no turns
/// are added. So it is never refused as 2, `TooLong`, where the number of glyphs and the budget (0 where it is
/// negative) together are at most `max_len`; and where no subtable is one of insertion the number of glyphs stays, and
/// neither comes.
///
/// At each cluster level but `HB_BUFFER_CLUSTER_LEVEL_CHARACTERS`, clusters that never fall along the line never fall
/// afterwards, and those that never rise never rise. At every level each cluster stood on the line before.
///
/// Apple's TrueType Reference Manual, "The 'morx' table".
pub fn apply<A: Allocator + Copy, M: Allocator + Copy>(
    c: &mut hb_aat_apply_context_t<A>,
    map: &hb_aat_map_t<M>,
) -> Result<Option<()>, AatError>
    requires ids { IsSmall c.old.buffer.now }
    requires whole { IsTrue (list_all is_whole_list map.now) }
    requires turns { c.old.turns ≤ 2 ^ 61 }
    ensures reason { IfErr result (RefusesRun c.old.buffer.now
        (applied (sizes_for c.old.face.now) c.old.face.now map.now c.old.buffer.now).buffer) }
    ensures failed { IsErrOf result AatError.BufferFailed ↔ (c.old.buffer.now.successful ≡ false) }
    ensures unchanged { IsErrOf result AatError.BufferFailed
        → (c.new.buffer.now ≡ c.old.buffer.now) × (c.new.turns ≡ c.old.turns)
        × (c.new.range_flags ≡ c.old.range_flags) × (c.new.subtable_flags ≡ c.old.subtable_flags) }
    ensures refused { c.old.buffer.now.successful ≡ true → OnErr result (IsRefused c.old.buffer.now c.new.buffer.now) }
    ensures known { IfOk result (λ answer. is_none answer ≡ is_none (tables_of c.old.face.now).morx) }
    ensures without_table { IfOk result (λ answer. answer ≡ None
        → (c.new.buffer.now ≡ prepared c.old.buffer.now) × (c.new.turns ≡ c.old.turns)
        × (c.new.range_flags ≡ c.old.range_flags) × (c.new.subtable_flags ≡ c.old.subtable_flags)) }
    ensures substituted { OnOk result (IsOutcome
        (applied (sizes_for c.old.face.now) c.old.face.now map.now c.old.buffer.now)
        c.new.buffer.now (c.new.turns - c.old.turns)) }
    ensures counted { OnOk result (c.old.turns ≤ c.new.turns) }
    ensures uncounted { OnErr result (c.new.turns ≡ c.old.turns) }
    ensures within { OnOk result (StaysWithin (subtable_count (chains_in (tables_of c.old.face.now).morx))
        c.old.buffer.now c.new.buffer.now (c.new.turns - c.old.turns)) }
    ensures order { OnOk result (HasOrderOf c.old.buffer.now c.new.buffer.now) }
    ensures room { IsErrOf result AatError.TooLong → c.old.buffer.now.max_len < extent c.old.buffer.now }
    ensures without_insertion { has_insertion (chains_in (tables_of c.old.face.now).morx) ≡ false
        → IfErr result (λ error. error ≡ AatError.BufferFailed) }
    ensures number { has_insertion (chains_in (tables_of c.old.face.now).morx) ≡ false
        → OnOk result (length c.new.buffer.now.line ≡ length c.old.buffer.now.line) }
    ensures after { (IfOk result (λ answer. IfSome answer (λ _.
        (c.new.range_flags ≡ None) × (c.new.subtable_flags ≡ 0))))
        × (c.old.buffer.now.successful ≡ true
        → OnErr result ((c.new.range_flags ≡ None) × (c.new.subtable_flags ≡ 0))) }
    ensures face { c.new.face ≡ c.old.face }
    ensures same { c.new.buffer.ghost_name ≡ c.old.buffer.ghost_name }
{
    apply_with::<LIGATURE_SLOTS, MAX_CONTEXT_LENGTH>(c, map)
}

/// Runs the table as [`apply`] does, but a ligature machine gets `SLOTS` slots, where `apply` gives it 64, and a span
/// of rearrangement that has more than `LONGEST` glyphs stays, where `apply` has 64. A caller names the two sizes:
/// `apply_with::<8, 16>(&mut c, &map)`.
///
/// There has to be a slot, and at most 2^59 of them, which already are more bytes than memory has, and `LONGEST` has
/// to be at least 1. What else has to hold, what is answered and refused, and what is left, is as with `apply`.
pub fn apply_with<const SLOTS: usize, const LONGEST: usize>(
    c: &mut hb_aat_apply_context_t<impl Allocator + Copy>,
    map: &hb_aat_map_t<impl Allocator + Copy>,
) -> Result<Option<()>, AatError>
    requires slots { 0 < SLOTS }
    requires memory { SLOTS ≤ 2 ^ 59 }
    requires span { 0 < LONGEST }
    requires ids { IsSmall c.old.buffer.now }
    requires whole { IsTrue (list_all is_whole_list map.now) }
    requires turns { c.old.turns ≤ 2 ^ 61 }
    ensures reason { IfErr result (RefusesRun c.old.buffer.now
        (applied (sizes_of SLOTS LONGEST c.old.face.now) c.old.face.now map.now c.old.buffer.now).buffer) }
    ensures failed { IsErrOf result AatError.BufferFailed ↔ (c.old.buffer.now.successful ≡ false) }
    ensures unchanged { IsErrOf result AatError.BufferFailed
        → (c.new.buffer.now ≡ c.old.buffer.now) × (c.new.turns ≡ c.old.turns)
        × (c.new.range_flags ≡ c.old.range_flags) × (c.new.subtable_flags ≡ c.old.subtable_flags) }
    ensures refused { c.old.buffer.now.successful ≡ true → OnErr result (IsRefused c.old.buffer.now c.new.buffer.now) }
    ensures known { IfOk result (λ answer. is_none answer ≡ is_none (tables_of c.old.face.now).morx) }
    ensures without_table { IfOk result (λ answer. answer ≡ None
        → (c.new.buffer.now ≡ prepared c.old.buffer.now) × (c.new.turns ≡ c.old.turns)
        × (c.new.range_flags ≡ c.old.range_flags) × (c.new.subtable_flags ≡ c.old.subtable_flags)) }
    ensures substituted { OnOk result (IsOutcome
        (applied (sizes_of SLOTS LONGEST c.old.face.now) c.old.face.now map.now c.old.buffer.now)
        c.new.buffer.now (c.new.turns - c.old.turns)) }
    ensures counted { OnOk result (c.old.turns ≤ c.new.turns) }
    ensures uncounted { OnErr result (c.new.turns ≡ c.old.turns) }
    ensures within { OnOk result (StaysWithin (subtable_count (chains_in (tables_of c.old.face.now).morx))
        c.old.buffer.now c.new.buffer.now (c.new.turns - c.old.turns)) }
    ensures order { OnOk result (HasOrderOf c.old.buffer.now c.new.buffer.now) }
    ensures room { IsErrOf result AatError.TooLong → c.old.buffer.now.max_len < extent c.old.buffer.now }
    ensures without_insertion { has_insertion (chains_in (tables_of c.old.face.now).morx) ≡ false
        → IfErr result (λ error. error ≡ AatError.BufferFailed) }
    ensures number { has_insertion (chains_in (tables_of c.old.face.now).morx) ≡ false
        → OnOk result (length c.new.buffer.now.line ≡ length c.old.buffer.now.line) }
    ensures after { (IfOk result (λ answer. IfSome answer (λ _.
        (c.new.range_flags ≡ None) × (c.new.subtable_flags ≡ 0))))
        × (c.old.buffer.now.successful ≡ true
        → OnErr result ((c.new.range_flags ≡ None) × (c.new.subtable_flags ≡ 0))) }
    ensures face { c.new.face ≡ c.old.face }
    ensures same { c.new.buffer.ghost_name ≡ c.old.buffer.ghost_name }
{
    if !c.buffer.is_successful() {
        return Err(AatError::BufferFailed);
    }
    let face = c.face;
    let buffer = &mut *c.buffer;
    match run_table::<SLOTS, LONGEST, _, _>(face, Some(map), buffer) {
        Ok(Some(turns)) => {
            c.turns += turns;
            c.range_flags = None;
            c.subtable_flags = 0;
            Ok(Some(()))
        }
        Ok(None) => Ok(None),
        Err(error) => {
            c.range_flags = None;
            c.subtable_flags = 0;
            Err(error)
        }
    }
}

/// Makes a buffer ready for a run of the table: drops the positions, and marks the whole line against joining, where the
/// buffer asks for it.
pub fn prepare<A: Allocator + Copy>(buffer: &mut hb_buffer_t<A>)
    ensures { buffer.new ≡ prepared buffer.old }
{
    buffer.drop_positions();
    buffer.unsafe_to_concat(None, None);
}

/// Prepares the line, runs the table under a map, and answers the turns, or none without the table. Without a map each
/// chain runs under its default flags, which takes no memory.
///
/// Each glyph id has to be at most 0xFFFF, and the map whole; there has to be a slot, and at most 2^59 of them. A
/// buffer that had failed is run as any other; else refused as `apply` is.
#[tactic(auto, using(aat_run::specs::facts::Settings::refused_behind, crate::proofs::Prepared::prepared_settings))]
pub fn run_table<
    const SLOTS: usize,
    const LONGEST: usize,
    A: Allocator + Copy,
    M: Allocator + Copy,
>(
    face: &hb_font_t,
    map: Option<&hb_aat_map_t<M>>,
    buffer: &mut hb_buffer_t<A>,
) -> Result<Option<u64>, AatError>
    requires slots { 0 < SLOTS }
    requires memory { SLOTS ≤ 2 ^ 59 }
    requires whole { IfSome (option_copied map) (λ m. IsTrue (list_all is_whole_list m)) }
    requires ids { IsSmall buffer.old }
    ensures known { IfOk result (λ answer. is_none answer ≡ is_none (tables_of face.now).morx) }
    ensures run { IfOk result (λ answer. MatchOption answer (buffer.new ≡ prepared buffer.old)
        (IsOutcome (applied_by (sizes_of SLOTS LONGEST face.now) face.now (option_copied map.entry) buffer.old)
        buffer.new)) }
    ensures within { IfOk result (λ answer. MatchOption answer (StaysWithin 0 buffer.old buffer.new 0)
        (StaysWithin (subtable_count (chains_in (tables_of face.now).morx)) buffer.old buffer.new)) }
    ensures few { IfOk result (λ answer. IfSome answer (λ turns. turns ≤ 2 ^ 62)) }
    ensures reason { IfErr result (IsRefusal buffer.old
        (applied_by (sizes_of SLOTS LONGEST face.now) face.now (option_copied map.entry) buffer.old).buffer) }
    ensures refused { OnErr result (IsRefused buffer.old buffer.new) }
    ensures order { OnOk result (HasOrderOf buffer.old buffer.new) }
    ensures room { IsErrOf result AatError.TooLong → buffer.old.max_len < extent buffer.old }
    ensures without_insertion { has_insertion (chains_in (tables_of face.now).morx) ≡ false → IsOk result }
    ensures number { has_insertion (chains_in (tables_of face.now).morx) ≡ false
        → OnOk result (length buffer.new.line ≡ length buffer.old.line) }
{
    let _length = buffer.len();
    let _budget = buffer.max_ops();
    prepare(buffer);
    match &face.tables().morx {
        Some(morx) => Ok(Some(run_chains::<SLOTS, LONGEST, A, M>(
            face,
            morx,
            morx.chains(),
            map,
            buffer,
        )?)),
        None => Ok(None),
    }
}
