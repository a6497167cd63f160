//! A substitution that is told.
ghost use Rattle.std.specs.Prelude.{◌≡◌, ◌^◌, ◌<◌, ◌≤◌, ◌↔◌, IfOk, IfErr, IfSome, IsErrOf, IsTrue, OnErr, OnOk, None, false, length, true};
ghost use Rattle.std.specs.List.{list_all};
ghost use Rattle.std.specs.Option.{option_copied};
ghost use Rattle.aat_buffer.specs.Clusters.{IsSmall};
ghost use Rattle.aat_font.specs.Face.{chains_in, tables_of};
ghost use Rattle.aat_kinds.specs.Kinds.{sizes_of};
ghost use Rattle.aat_layout.specs.Planned.{substitution};
ghost use Rattle.aat_layout.specs.Refusals.{LeavesBehind, RefusesSubstitution, first_too_large};
ghost use Rattle.aat_map.specs.Map.{lists_for};
ghost use Rattle.aat_map.specs.SwitchedChains.{switched, switched_by};
ghost use Rattle.aat_morx.specs.Applying.{applied_by};
ghost use Rattle.aat_morx.specs.Substitution.{prepared};
ghost use Rattle.aat_run.specs.Driven.{IsRefusal, IsRefused};
ghost use Rattle.aat_run.specs.Outcome.{IsOutcome};
ghost use Rattle.aat_run.specs.Ranges.{is_whole_list};
ghost use Rattle.aat_trace.specs.Told.{AreInTurn, AreReplayed, IsPart, tells, told_of_chains, told_of_substitution};
ghost use Rattle.aat_trace.specs.inside.Telling.{AreActed, TellsOf};

use crate::chains::trace_chains;
use crate::traced::Trace;
use aat_buffer::hb_buffer_t;
use aat_font::{hb_font_t, hb_ot_shape_plan_t};
use aat_kinds::{LIGATURE_SLOTS, MAX_CONTEXT_LENGTH};
use aat_layout::compiled_map;
use aat_map::hb_aat_map_t;
use aat_run::AatError;
use std::alloc::{Allocator, Global};

/// Substitutes the glyphs of a buffer as `aat_layout::hb_aat_layout_substitute` does, and tells what each subtable did,
/// for authors of fonts.
///
/// The buffer is left as that call leaves it, and in as many turns. Each subtable of each chain is told, in their
/// order, also where it is left out: whether it ran, and on the reversed line, its turns, the glyphs that it found,
/// which are those that the one before it left, its acts, the glyphs that it left, and the places of new marks. Without
/// the table nothing is told. The acts of a subtable, done one behind another on the ids that it found, in the order in
/// which it takes them, lead to those that it left: each finds the ids that it takes at its place, and changes ids at
/// both ends of its span. Their transitions rise, and are no more than the turns. That an act is told of each
/// transition that changes ids, and of no two at once, and where the cursor stood before it, is only tested.
///
/// Where memory is wanting to tell of a subtable, it is left out, and the run goes on. The others are told as ever, and
/// `is_incomplete` is set exactly where one is missing.
///
/// Each glyph id has to be at most 0xFFFF, which [`all_glyphs_16`](hb_buffer_t::all_glyphs_16) tells.
///
/// Refused as `hb_aat_layout_substitute` is, and what is left of the buffer is as with that call: as 4, `BufferFailed`,
/// where a call of the buffer was refused before; then as 1, `AaltValue`, for a value of alternates that is no setting,
/// and as 3, `OutOfMemory`, where a request or compiling requests gets no memory; and in the middle of a run as 2,
/// `TooLong`, only where substitution leaves a line longer than the buffer's `max_len`, and as 3, `OutOfMemory`, only
/// where it leaves a longer line than it found, and that one was shorter than `max_len`. In the middle of a run the
/// buffer fails; else it is unchanged. Nothing is told then.
///
/// Besides the steps of the run, a transition of a machine takes at most 66, and an act as many as ids that it takes and
/// puts, and as its place is away from that of the act before it. Where glyphs go in at a mark, it takes as many as that
/// is away from the cursor. A subtable takes memory for four lines, its acts and its marks.
///
/// Apple's TrueType Reference Manual, "The 'morx' table".
pub fn trace_substitution<A: Allocator + Copy>(
    alloc: Global,
    plan: &hb_ot_shape_plan_t,
    face: &hb_font_t,
    buffer: &mut hb_buffer_t<A>,
) -> Result<Trace, AatError>
    requires { IsSmall buffer.old }
    ensures failed { IsErrOf result AatError.BufferFailed ↔ (buffer.old.successful ≡ false) }
    ensures reason { IfErr result (RefusesSubstitution plan.now face.now buffer.old) }
    ensures left { IfErr result (LeavesBehind plan.now face.now buffer.old buffer.new) }
    ensures fits { OnOk result (first_too_large plan.now face.now ≡ None) }
    ensures substituted { IfOk result (λ trace.
        IsOutcome (substitution plan.now face.now buffer.old) buffer.new trace.turns) }
    ensures told { IfOk result (λ trace. trace.is_incomplete ≡ false
        → tells trace ≡ told_of_substitution plan.now face.now buffer.old) }
    ensures part { IfOk result (λ trace. IsPart (tells trace) (told_of_substitution plan.now face.now buffer.old)) }
    ensures missing { IfOk result (λ trace. trace.is_incomplete ≡ true
        → length trace.subtables.items < length (told_of_substitution plan.now face.now buffer.old)) }
    ensures acts { IfOk result (λ trace. AreReplayed trace) }
    ensures turns { IfOk result (λ trace. AreInTurn trace) }
{
    if !buffer.is_successful() {
        return Err(AatError::BufferFailed);
    }
    let map = compiled_map(alloc, plan, face)?;
    trace_table::<LIGATURE_SLOTS, MAX_CONTEXT_LENGTH, A>(alloc, face, map.as_ref(), buffer)
}

/// Drops the positions, and marks the whole line against joining, where the buffer asks for it.
fn prepare<A: Allocator + Copy>(buffer: &mut hb_buffer_t<A>)
    ensures { buffer.new ≡ prepared buffer.old }
{
    buffer.drop_positions();
    buffer.unsafe_to_concat(None, None);
}

/// Prepares the line, runs the table under a map, and without a map each chain under its default flags. Tells what each
/// subtable did, nothing without the table.
fn trace_table<const SLOTS: usize, const LONGEST: usize, A: Allocator + Copy>(
    alloc: Global,
    face: &hb_font_t,
    map: Option<&hb_aat_map_t>,
    buffer: &mut hb_buffer_t<A>,
) -> Result<Trace, AatError>
    requires slots { 0 < SLOTS }
    requires memory { SLOTS ≤ 2 ^ 59 }
    requires whole { IfSome (option_copied map) (λ m. IsTrue (list_all is_whole_list m)) }
    requires ids { IsSmall buffer.old }
    ensures run { IfOk result (λ trace. IsOutcome
        (applied_by (sizes_of SLOTS LONGEST face.now) face.now (option_copied map.entry) buffer.old)
        buffer.new trace.turns) }
    ensures told { IfOk result (λ trace. TellsOf trace (told_of_chains (sizes_of SLOTS LONGEST face.now) 0
        (switched_by (chains_in (tables_of face.now).morx)
        (lists_for (option_copied map.entry) (chains_in (tables_of face.now).morx))) (prepared buffer.old))) }
    ensures acts { IfOk result (λ trace. AreActed trace) }
    ensures reason { IfErr result (IsRefusal buffer.old
        (applied_by (sizes_of SLOTS LONGEST face.now) face.now (option_copied map.entry) buffer.old).buffer) }
    ensures refused { OnErr result (IsRefused buffer.old buffer.new) }
{
    prepare(buffer);
    let mut trace = Trace::new(alloc);
    let chains = face.chains();
    trace.turns = trace_chains::<SLOTS, LONGEST, A>(alloc, face, chains, map, buffer, &mut trace)?;
    Ok(trace)
}
