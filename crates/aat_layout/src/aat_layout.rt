//! The entry points of the layer.
ghost use Rattle.std.specs.Prelude.{◌≡◌, ◌^◌, ◌<◌, ◌≤◌, ◌↔◌, IfOk, IfErr, IfSome, IsErrOf, IsTrue, OnErr, OnOk, ◌++◌, None, find, false, length};
ghost use Rattle.std.specs.List.{list_all};
ghost use Rattle.aat_buffer.specs.Clusters.{IsSmall};
ghost use Rattle.aat_machine_tables.specs.Chains.{subtable_count};
ghost use Rattle.aat_font.specs.Face.{chains_in, tables_of};
ghost use Rattle.aat_kinds.specs.Kinds.{sizes_of};
ghost use Rattle.aat_layout.specs.Planned.{IsIsolated, IsIsolatedWith, substitution, substitution_with};
ghost use Rattle.aat_layout.specs.Refusals.{LeavesBehind, LeavesBehindWith, RefusesBeforeRuns, RefusesPlan, RefusesSubstitution, RefusesSubstitutionWith, first_too_large};
ghost use Rattle.aat_map.specs.Map.{lists_for};
ghost use Rattle.aat_map.specs.SwitchedChains.{plan_requests, switched, switched_by};
ghost use Rattle.aat_morx.specs.Kept.{has_insertion};
ghost use Rattle.aat_run.specs.Budget.{extent};
ghost use Rattle.aat_run.specs.Driven.{StaysWithin};
ghost use Rattle.aat_run.specs.Laws.{HasOrderOf};
ghost use Rattle.aat_run.specs.Outcome.{IsOutcome};
ghost use Rattle.aat_run.specs.Ranges.{is_whole_list};

use aat_buffer::hb_buffer_t;
use aat_font::{hb_font_t, hb_ot_shape_plan_t};
use aat_kinds::{LIGATURE_SLOTS, MAX_CONTEXT_LENGTH};
use aat_map::{hb_aat_map_builder_t, hb_aat_map_t};
use aat_morx::run_table;
use aat_run::AatError;
use std::alloc::Allocator;

/// A count of turns: one for each step of a state machine, and one for each glyph that a noncontextual subtable looks
/// at.
pub type Turns = u64;

/// Substitutes the glyphs of a buffer by the font's extended glyph metamorphosis table, as the user's features ask for
/// it, and answers the number of turns.
///
/// The features of the plan become requests, in their order; where the plan applies the table's flags, they are
/// compiled, and each subtable is on at the clusters where it is asked for; else every subtable is on. The positions
/// are dropped, and the whole line gets the mark against joining, where the buffer asks for it; then all subtables of
/// all chains run in their order, each with the line and the budget that the one before left. A glyph that a
/// contextual or noncontextual subtable replaces gets the properties of its new class, where the font has classes; a
/// ligature keeps those of the glyph that it replaces.
///
/// Each glyph id has to be at most 0xFFFF, which [`all_glyphs_16`](hb_buffer_t::all_glyphs_16) tells.
///
/// Refused, in this order: as 4, `BufferFailed`, where a call of the buffer was refused before; then for each feature
/// in turn as 1, `AaltValue`, for a value of alternates that is no setting, and as 3, `OutOfMemory`, where its request
/// gets no memory, so that 3, `OutOfMemory`, may come in place of 1, `AaltValue`, where a feature before has a request;
/// then as 3, `OutOfMemory`, where compiling requests gets no memory; where the features make no request nothing is
/// compiled, and each chain runs under its default flags. After each of these the buffer is unchanged (of 3,
/// `OutOfMemory`, the contract says so where substitution leaves no longer line, or a feature asks for alternates by
/// such a value). At last, in the middle of a run, as 2, `TooLong`, only where substitution leaves a line longer than
/// the buffer's `max_len`, and as 3, `OutOfMemory`, only where it leaves a longer line than it found, and that one was
/// shorter than `max_len`; where all of this holds either may come. Then the buffer has failed, its line is some line
/// of 16-bit glyphs that has at most its greatest length, and all but line, cursor, positions and budget is as before.
///
/// With S subtables in all chains, n glyphs and a budget M (0 where it is negative) it takes at most S(n + M + 1) turns
/// and leaves at most n + M glyphs. So it is never refused as 2, `TooLong`, where n + M is at most `max_len`; and where
/// no subtable is one of insertion the number of glyphs stays, and a refusal has a reason that stands before the
/// subtables and leaves the buffer unchanged.
///
/// At each cluster level but `HB_BUFFER_CLUSTER_LEVEL_CHARACTERS`, clusters that never fall along the line never fall
/// afterwards, and those that never rise never rise. At every level each cluster stood on the line before. What is
/// asked for elsewhere changes nothing: requests that give each chain the same flags at each cluster of the line, or
/// at 0 for an empty one, leave the same glyphs and budget, though perhaps in other turns.
///
/// Apple's TrueType Reference Manual, "The 'morx' table".
pub fn hb_aat_layout_substitute<H: Allocator + Copy, A: Allocator + Copy>(
    alloc: H,
    plan: &hb_ot_shape_plan_t,
    face: &hb_font_t,
    buffer: &mut hb_buffer_t<A>,
) -> Result<Turns, AatError>
    requires { IsSmall buffer.old }
    ensures failed { IsErrOf result AatError.BufferFailed ↔ (buffer.old.successful ≡ false) }
    ensures reason { IfErr result (RefusesSubstitution plan.now face.now buffer.old) }
    ensures left { IfErr result (LeavesBehind plan.now face.now buffer.old buffer.new) }
    ensures fits { OnOk result (first_too_large plan.now face.now ≡ None) }
    ensures substituted { IfOk result (IsOutcome (substitution plan.now face.now buffer.old) buffer.new) }
    ensures within { IfOk result
        (StaysWithin (subtable_count (chains_in (tables_of face.now).morx)) buffer.old buffer.new) }
    ensures order { OnOk result (HasOrderOf buffer.old buffer.new) }
    ensures isolation { OnOk result (IsIsolated plan.now face.now buffer.old buffer.new) }
    ensures room { IsErrOf result AatError.TooLong → buffer.old.max_len < extent buffer.old }
    ensures without_insertion { has_insertion (chains_in (tables_of face.now).morx) ≡ false
        → IfErr result (RefusesBeforeRuns plan.now face.now buffer.old) }
    ensures unchanged { has_insertion (chains_in (tables_of face.now).morx) ≡ false
        → OnErr result (buffer.new ≡ buffer.old) }
    ensures number { has_insertion (chains_in (tables_of face.now).morx) ≡ false
        → OnOk result (length buffer.new.line ≡ length buffer.old.line) }
{
    hb_aat_layout_substitute_with::<LIGATURE_SLOTS, MAX_CONTEXT_LENGTH>(alloc, plan, face, buffer)
}

/// Substitutes the glyphs of a buffer as [`hb_aat_layout_substitute`] does, but a ligature machine gets `SLOTS` slots,
/// where that call gives it 64, and a span of rearrangement that has more than `LONGEST` glyphs stays, where that call
/// has 64. A caller names the two sizes: `hb_aat_layout_substitute_with::<8, 16>(alloc, &plan, &face, &mut buffer)`.
///
/// There has to be a slot, and at most 2^59 of them, which already are more bytes than memory has, `LONGEST` has to be
/// at least 1, and each glyph id at most 0xFFFF. What is answered and refused, what is left, and what is promised of
/// it, is as with that call.
pub fn hb_aat_layout_substitute_with<const SLOTS: usize, const LONGEST: usize>(
    alloc: impl Allocator + Copy,
    plan: &hb_ot_shape_plan_t,
    face: &hb_font_t,
    buffer: &mut hb_buffer_t<impl Allocator + Copy>,
) -> Result<Turns, AatError>
    requires slots { 0 < SLOTS }
    requires memory { SLOTS ≤ 2 ^ 59 }
    requires span { 0 < LONGEST }
    requires ids { IsSmall buffer.old }
    ensures failed { IsErrOf result AatError.BufferFailed ↔ (buffer.old.successful ≡ false) }
    ensures reason { IfErr result
        (RefusesSubstitutionWith (sizes_of SLOTS LONGEST face.now) plan.now face.now buffer.old) }
    ensures left { IfErr result
        (LeavesBehindWith (sizes_of SLOTS LONGEST face.now) plan.now face.now buffer.old buffer.new) }
    ensures fits { OnOk result (first_too_large plan.now face.now ≡ None) }
    ensures substituted { IfOk result (IsOutcome
        (substitution_with (sizes_of SLOTS LONGEST face.now) plan.now face.now buffer.old) buffer.new) }
    ensures within { IfOk result
        (StaysWithin (subtable_count (chains_in (tables_of face.now).morx)) buffer.old buffer.new) }
    ensures order { OnOk result (HasOrderOf buffer.old buffer.new) }
    ensures isolation { OnOk result
        (IsIsolatedWith (sizes_of SLOTS LONGEST face.now) plan.now face.now buffer.old buffer.new) }
    ensures room { IsErrOf result AatError.TooLong → buffer.old.max_len < extent buffer.old }
    ensures without_insertion { has_insertion (chains_in (tables_of face.now).morx) ≡ false
        → IfErr result (RefusesBeforeRuns plan.now face.now buffer.old) }
    ensures unchanged { has_insertion (chains_in (tables_of face.now).morx) ≡ false
        → OnErr result (buffer.new ≡ buffer.old) }
    ensures number { has_insertion (chains_in (tables_of face.now).morx) ≡ false
        → OnOk result (length buffer.new.line ≡ length buffer.old.line) }
{
    if !buffer.is_successful() {
        return Err(AatError::BufferFailed);
    }
    let map = compiled_map(alloc, plan, face)?;
    let turns = run_table::<SLOTS, LONGEST, _, _>(face, map.as_ref(), buffer)?;
    Ok(turns.unwrap_or(0))
}

/// The map that a plan makes of a font: empty where the plan does not apply the flags, none where it applies them and
/// makes no request, so that each chain has its default ones, and else compiled. It takes no memory but for requests. A
/// trace needs it too.
///
/// Refused as 1, `AaltValue`, for a value of alternates that is no setting, and as 3, `OutOfMemory`, where a request or
/// compiling requests gets no memory.
pub fn compiled_map<H: Allocator + Copy>(
    alloc: H,
    plan: &hb_ot_shape_plan_t,
    face: &hb_font_t,
) -> Result<Option<hb_aat_map_t<H>>, AatError>
    ensures ok { IfOk result (λ map. switched_by (chains_in (tables_of face.now).morx)
        (lists_for map (chains_in (tables_of face.now).morx))
        ≡ switched plan.now.apply_morx (plan_requests plan.now face.now) (chains_in (tables_of face.now).morx)) }
    ensures whole { IfOk result (λ map. IfSome map (λ m. IsTrue (list_all is_whole_list m))) }
    ensures reason { IfErr result (RefusesPlan plan.now face.now) }
    ensures fits { OnOk result (first_too_large plan.now face.now ≡ None) }
{
    let mut builder = hb_aat_map_builder_t::with_features(alloc, face, &plan.user_features)?;
    if !plan.apply_morx {
        return Ok(Some(hb_aat_map_t::default(alloc)));
    }
    if builder.features().is_empty() {
        return Ok(None);
    }
    let mut map = hb_aat_map_t::default(alloc);
    builder.compile(face, &mut map)?;
    Ok(Some(map))
}
