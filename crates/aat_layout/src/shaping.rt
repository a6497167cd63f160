//! The layer as one call: substitution, advances, kerning, and no deleted glyph is left.
ghost use Rattle.std.specs.Prelude.{◌≡◌, ◌≢◌, ◌⊎◌, ◌≤◌, ◌^◌, ◌↔◌, IfErr, IfOk, IsErrOf, IsSome, IsTrue, None, OnErr, OnOk, false, is_some, length};
ghost use Rattle.aat_buffer.specs.Buffer.{failed, with_scratch_flags, without_positions};
ghost use Rattle.aat_buffer.specs.Clusters.{IsSmall, KeepsOrder};
ghost use Rattle.aat_buffer.specs.Removal.{HasNoneDeleted};
ghost use Rattle.aat_font.specs.Face.{advance_of};
ghost use Rattle.aat_kerning_machines.specs.KerningLaws.{IsKernedFrom};
ghost use Rattle.aat_kerning_machines.specs.Positions.{IsPlaced};
ghost use Rattle.aat_layout.specs.Refusals.{first_too_large};
ghost use Rattle.aat_run.specs.Budget.{extent};
ghost use Rattle.aat_run.specs.Laws.{SameSettings};
ghost use Rattle.aat_layout.specs.RefusedShaping.{IsSubstitutionRefused, RefusesShaping};
ghost use Rattle.aat_layout.specs.ShapedOrder.{HasShapedOrderOf};
ghost use Rattle.aat_layout.specs.Shaping.{advanced, kerned_by_font, placing, shaping, shaping_with_deleted, substituted_by_plan, with_advances};

use crate::aat_layout::{Turns, hb_aat_layout_substitute};
use aat_buffer::{GlyphPosition, hb_buffer_t, hb_glyph_info_t};
use aat_font::{hb_font_t, hb_ot_shape_plan_t};
use aat_kerning::{
    hb_aat_layout_position, hb_aat_layout_remove_deleted_glyphs,
    hb_aat_layout_zero_width_deleted_glyphs, hb_ot_layout_kern,
};
use aat_lookup::GlyphId;
use aat_run::AatError;
use std::alloc::Allocator;

/// Shapes a line by the tables of a font, and answers the number of turns that its machines took.
///
/// In this order: where the plan applies the extended glyph metamorphosis table, the glyphs are substituted as
/// `hb_aat_layout_substitute` does, and else the line stays as it is, and no feature of the plan is looked at. Each
/// glyph gets its advance in the font, in font units: to the right in horizontal text, and in vertical text down, so
/// that its `y_advance` is 0 less it; all else of its position is 0. The line is kerned, as `hb_aat_layout_position`
/// does where the font has the extended kerning table, and else as `hb_ot_layout_kern`. The deleted glyphs take no
/// room, and then they go, with their positions; the cluster of each is kept as `delete_glyphs_inplace` tells. The
/// turns are those of substitution and of kerning. The cursor is at the start then.
///
/// No glyph id is 0xFFFF afterwards, and each has its position. At most as many glyphs are left as the line had, and
/// where the plan applies substitution as many more as the budget had operations.
///
/// Clusters that never fall along the line never fall afterwards, and those that never rise never rise: where the plan
/// applies substitution at each cluster level but `HB_BUFFER_CLUSTER_LEVEL_CHARACTERS`, and else at every level. Each
/// cluster stood on the line before.
///
/// Each glyph id has to be at most 0xFFFF, which [`all_glyphs_16`](hb_buffer_t::all_glyphs_16) tells.
///
/// Refused first as 4, `BufferFailed`, where a call of the buffer was refused before: nothing changes then, also where
/// the plan does not apply substitution. Then, only where the plan applies it, as `hb_aat_layout_substitute` is, with
/// what it leaves: as 1, `AaltValue`, and nothing changes; as 2, `TooLong`, and the buffer has failed; as 3,
/// `OutOfMemory`, and either nothing changes or, in the middle of a run, the buffer has failed. At last as 3,
/// `OutOfMemory`, where the positions get no memory: the buffer has failed then, no positions stand, and its line is
/// the one that substitution leaves, or where the plan does not apply it the line as it was. Nothing behind that can be
/// refused.
///
/// Apple's TrueType Reference Manual, "The 'morx' table", "The 'kerx' table" and "The 'kern' table".
pub fn shape<H: Allocator + Copy, A: Allocator + Copy>(
    alloc: H,
    plan: &hb_ot_shape_plan_t,
    face: &hb_font_t,
    buffer: &mut hb_buffer_t<A>,
) -> Result<Turns, AatError>
    requires ids { IsSmall buffer.old }
    ensures failed { IsErrOf result AatError.BufferFailed ↔ (buffer.old.successful ≡ false) }
    ensures refused { IfErr result (RefusesShaping plan.now face.now buffer.old buffer.new) }
    ensures fits { IsTrue plan.now.apply_morx → OnOk result (first_too_large plan.now face.now ≡ None) }
    ensures shaped { IfOk result (λ turns. record { buffer = buffer.new; turns = turns }
        ≡ shaping plan.now face.now buffer.old) }
    ensures undeleted { OnOk result (HasNoneDeleted buffer.new.line) }
    ensures ids { OnOk result (IsSmall buffer.new) }
    ensures bounded { OnOk result (length buffer.new.line ≤ extent buffer.old) }
    ensures unlengthened { plan.now.apply_morx ≡ false
        → OnOk result (length buffer.new.line ≤ length buffer.old.line) }
    ensures standing { OnOk result (IsSome buffer.new.positions) }
    ensures placed { OnOk result (IsPlaced buffer.new) }
    ensures settings { OnOk result (SameSettings (with_scratch_flags buffer.old buffer.new.scratch_flags) buffer.new) }
    ensures order { OnOk result (HasShapedOrderOf plan.now.apply_morx buffer.old buffer.new) }
{
    let turns = shape_with_deleted(alloc, plan, face, buffer)?;
    hb_aat_layout_remove_deleted_glyphs(buffer);
    let _placed = buffer.has_positions();
    Ok(turns)
}

/// Shapes a line as [`shape`] does, but deleted glyphs stay on it. They take no room. The cursor ends anywhere.
///
/// Each glyph id has to be at most 0xFFFF. It is refused as [`shape`] is, and leaves the same then.
///
/// Apple's TrueType Reference Manual, "The 'morx' table", "The 'kerx' table" and "The 'kern' table".
pub fn shape_with_deleted<H: Allocator + Copy, A: Allocator + Copy>(
    alloc: H,
    plan: &hb_ot_shape_plan_t,
    face: &hb_font_t,
    buffer: &mut hb_buffer_t<A>,
) -> Result<Turns, AatError>
    requires ids { IsSmall buffer.old }
    ensures failed { IsErrOf result AatError.BufferFailed ↔ (buffer.old.successful ≡ false) }
    ensures refused { IfErr result (RefusesShaping plan.now face.now buffer.old buffer.new) }
    ensures fits { IsTrue plan.now.apply_morx → OnOk result (first_too_large plan.now face.now ≡ None) }
    ensures shaped { IfOk result (λ turns. record { buffer = buffer.new; turns = turns }
        ≡ shaping_with_deleted plan.now face.now buffer.old) }
    ensures ids { OnOk result (IsSmall buffer.new) }
    ensures bounded { OnOk result (length buffer.new.line ≤ extent buffer.old) }
    ensures unlengthened { plan.now.apply_morx ≡ false
        → OnOk result (length buffer.new.line ≤ length buffer.old.line) }
    ensures standing { OnOk result (IsSome buffer.new.positions) }
    ensures placed { OnOk result (IsPlaced buffer.new) }
    ensures settings { OnOk result (SameSettings (with_scratch_flags buffer.old buffer.new.scratch_flags) buffer.new) }
    ensures order { OnOk result (HasShapedOrderOf plan.now.apply_morx buffer.old buffer.new) }
{
    if !buffer.is_successful() {
        return Err(AatError::BufferFailed);
    }
    let substituting = substitute_by_plan(alloc, plan, face, buffer)?;
    let kerning = place_with_deleted(plan, face, buffer)?;
    Ok(substituting + kerning)
}

/// Gives each glyph its advance in the font, kerns the line, and has deleted glyphs take no room: what
/// [`shape_with_deleted`] does behind substitution. It answers the number of turns that kerning took. The cursor ends
/// anywhere.
///
/// Each glyph id has to be at most 0xFFFF.
///
/// Refused first as 4, `BufferFailed`, where a call of the buffer was refused before: nothing changes then. Else only as
/// 3, `OutOfMemory`, where the positions get no memory: the buffer has failed then, no positions stand, and all else is
/// as it was.
///
/// Apple's TrueType Reference Manual, "The 'kerx' table" and "The 'kern' table".
pub fn place_with_deleted<A: Allocator + Copy>(
    plan: &hb_ot_shape_plan_t,
    face: &hb_font_t,
    buffer: &mut hb_buffer_t<A>,
) -> Result<Turns, AatError>
    requires ids { IsSmall buffer.old }
    ensures failed { IsErrOf result AatError.BufferFailed ↔ (buffer.old.successful ≡ false) }
    ensures unchanged { IsErrOf result AatError.BufferFailed → buffer.new ≡ buffer.old }
    ensures reason { IfErr result (λ error. (error ≡ AatError.BufferFailed) ⊎ (error ≡ AatError.OutOfMemory)) }
    ensures memory { IsErrOf result AatError.OutOfMemory → buffer.new ≡ failed (without_positions buffer.old) }
    ensures placing { IfOk result (λ turns. record { buffer = buffer.new; turns = turns }
        ≡ placing plan.now face.now buffer.old) }
    ensures ids { OnOk result (IsSmall buffer.new) }
    ensures number { OnOk result (length buffer.new.line ≡ length buffer.old.line) }
    ensures standing { OnOk result (IsSome buffer.new.positions) }
    ensures placed { OnOk result (IsPlaced buffer.new) }
    ensures settings { OnOk result (SameSettings (with_scratch_flags buffer.old buffer.new.scratch_flags) buffer.new) }
    ensures order { OnOk result (KeepsOrder buffer.old.line buffer.new.line) }
    ensures few { IfOk result (λ turns. turns ≤ 2 ^ 62) }
{
    if !buffer.is_successful() {
        return Err(AatError::BufferFailed);
    }
    advance(face, buffer)?;
    let kerning = kern_by_font(plan, face, buffer);
    hb_aat_layout_zero_width_deleted_glyphs(buffer);
    let _placed = buffer.has_positions();
    Ok(kerning)
}

/// Substitutes where the plan applies it, and answers the turns; else nothing changes, in none.
fn substitute_by_plan<H: Allocator + Copy, A: Allocator + Copy>(
    alloc: H,
    plan: &hb_ot_shape_plan_t,
    face: &hb_font_t,
    buffer: &mut hb_buffer_t<A>,
) -> Result<Turns, AatError>
    requires ids { IsSmall buffer.old }
    requires successful { IsTrue buffer.old.successful }
    ensures unfailed { IfErr result (λ error. error ≢ AatError.BufferFailed) }
    ensures refused { IfErr result (IsSubstitutionRefused plan.now face.now buffer.old buffer.new) }
    ensures fits { IsTrue plan.now.apply_morx → OnOk result (first_too_large plan.now face.now ≡ None) }
    ensures substituted { IfOk result (λ turns. record { buffer = buffer.new; turns = turns }
        ≡ substituted_by_plan plan.now face.now buffer.old) }
    ensures ids { OnOk result (IsSmall buffer.new) }
    ensures bounded { OnOk result (extent buffer.new ≤ extent buffer.old) }
    ensures number { plan.now.apply_morx ≡ false → OnOk result (buffer.new ≡ buffer.old) }
    ensures settings { OnOk result (SameSettings buffer.old buffer.new) }
    ensures order { OnOk result (HasShapedOrderOf plan.now.apply_morx buffer.old buffer.new) }
    ensures few { IfOk result (λ turns. turns ≤ 2 ^ 62) }
{
    if !plan.apply_morx {
        return Ok(0);
    }
    let _chains = face.chains();
    let _length = buffer.len();
    let _budget = buffer.max_ops();
    hb_aat_layout_substitute(alloc, plan, face, buffer)
}

/// The position that a glyph has by its advance in the font alone.
fn advanced(face: &hb_font_t, is_horizontal: bool, glyph: hb_glyph_info_t) -> GlyphPosition
    requires { glyph.glyph_id ≤ 0xFFFF }
    ensures { result ≡ advanced is_horizontal (advance_of face.now glyph.glyph_id) }
{
    let advance = i32::from(face.glyph_advance(GlyphId(glyph.glyph_id as u16)));
    if is_horizontal {
        GlyphPosition {
            x_advance: advance,
            ..GlyphPosition::default()
        }
    } else {
        GlyphPosition {
            y_advance: 0 - advance,
            ..GlyphPosition::default()
        }
    }
}

/// Gives each glyph the position that its advance in the font gives it, in font units: to the right in horizontal text,
/// and in vertical text down. All else of its position is 0. In as many steps as the line is long.
///
/// Each glyph id has to be at most 0xFFFF.
///
/// Refused as 3, `OutOfMemory`, where the positions get no memory: the buffer has failed then, no positions stand, and
/// all else is as it was.
pub fn advance<A: Allocator + Copy>(
    face: &hb_font_t,
    buffer: &mut hb_buffer_t<A>,
) -> Result<(), AatError>
    requires ids { IsSmall buffer.old }
    ensures ok { OnOk result (buffer.new ≡ with_advances (advance_of face.now) buffer.old) }
    ensures reason { IfErr result (λ error. error ≡ AatError.OutOfMemory) }
    ensures err { OnErr result (buffer.new ≡ failed (without_positions buffer.old)) }
{
    buffer.clear_positions()?;
    let is_horizontal = buffer.direction().is_horizontal();
    for i in 0..buffer.len() {
        let glyph = *buffer.info(i);
        *buffer.pos_mut(i) = advanced(face, is_horizontal, glyph);
    }
    Ok(())
}

/// Kerns by the extended kerning table where the font has it, and else by the kerning table, and answers the turns. A
/// buffer that has not failed is not refused.
fn kern_by_font<A: Allocator + Copy>(
    plan: &hb_ot_shape_plan_t,
    face: &hb_font_t,
    buffer: &mut hb_buffer_t<A>,
) -> Turns
    requires ids { IsSmall buffer.old }
    requires positions { IsSome buffer.old.positions }
    requires successful { IsTrue buffer.old.successful }
    ensures kerned { record { buffer = buffer.new; turns = result } ≡ kerned_by_font plan.now face.now buffer.old }
    ensures placed { IsPlaced buffer.new }
    ensures kept { IsKernedFrom buffer.old buffer.new }
    ensures few { result ≤ 2 ^ 62 }
{
    let _kerx = face.kerx_subtables();
    let _kern = face.kern_subtables();
    let _length = buffer.len();
    let _budget = buffer.max_ops();
    let kerned = if face.tables().kerx.is_some() {
        hb_aat_layout_position(plan, face, buffer)
    } else {
        hb_ot_layout_kern(plan, face, buffer)
    };
    match kerned {
        Ok(turns) => turns,
        Err(_) => unreachable!(),
    }
}
