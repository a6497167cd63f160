//! Placing of a line that is kerned otherwise than by pairs along it, which tells where the line may be broken.
ghost use Rattle.std.specs.Prelude.{◌≡◌, ◌<◌, ◌⊎◌, ◌↔◌, ℕ, IfErr, IfOk, IsErrOf, IsSome, OnOk, false, get_or, length, not};
ghost use Rattle.aat_buffer.specs.Buffer.{with_scratch_flags};
ghost use Rattle.aat_buffer.specs.Clusters.{IsSmall, KeepsOrder};
ghost use Rattle.aat_buffer.specs.Removal.{is_deleted};
ghost use Rattle.aat_font.specs.Face.{advance_of};
ghost use Rattle.aat_kerning.specs.Positioning.{in_processing_order};
ghost use Rattle.aat_kerning_machines.specs.Positions.{IsPlaced};
ghost use Rattle.aat_run.specs.Laws.{SameSettings};
ghost use Rattle.aat_shaped_text.specs.Breaks.{may_break_by};
ghost use Rattle.aat_shaped_text.specs.KernedPlaces.{ClosesChained, TellsOpenPlaces};
ghost use Rattle.aat_shaped_text.specs.TextFeatures.{requests_kerning};
ghost use Rattle.aat_shaped_text.specs.inside.KernedRuns.{TellsByGlyphs};
ghost use Rattle.aat_layout.specs.Shaping.{placing, with_advances};

use crate::breaks::{BreakRules, may_break_at};
use crate::kerned_places::kern_openly;
use crate::kerned_subtables::TextKerning;
use aat_glyph::parent_of;
use aat_kerning::hb_aat_layout_zero_width_deleted_glyphs;
use aat_layout::buffer::{DELETED_GLYPH, Direction, GlyphPosition, hb_buffer_t, hb_glyph_info_t};
use aat_layout::font::{hb_font_t, hb_ot_shape_plan_t};
use aat_layout::{AatError, advance};
use std::alloc::{AllocError, Allocator};

/// Turns a backward line round, so that one in reading order is in drawing order, and the other way.
pub fn turn<A: Allocator + Copy>(buffer: &mut hb_buffer_t<A>)
    ensures after { buffer.new ≡ in_processing_order buffer.old }
    ensures count { length buffer.new.line ≡ length buffer.old.line }
{
    if buffer.direction().is_backward() {
        buffer.reverse();
    }
}

/// Whether a glyph is kept: it is not deleted.
pub fn is_kept(glyph: &hb_glyph_info_t) -> bool
    ensures { result ≡ not (is_deleted glyph.now) }
{
    glyph.glyph_id != DELETED_GLYPH
}

/// Tells of each place of a line in drawing order whether the line may be broken before it by its glyphs.
fn tell_by_glyphs(rules: BreakRules, line: &[hb_glyph_info_t], places: &mut [bool])
    requires count { length places.old ≡ length line.now }
    ensures long { length places.new ≡ length places.old }
    ensures told { (i : ℕ) → i < length places.old → get_or places.new i false ≡ may_break_by rules.entry line.now i }
{
    let mut kept = 0;
    for i in 0..places.len() {
        places[i] = may_break_at(rules, line, kept, i);
        if is_kept(&line[i]) {
            kept += 1;
        }
    }
}

/// Before which places of a line, in drawing order, it may be broken by its glyphs. The line stands in reading order, and
/// is turned round on the way. It is then as before. It fails where it gets no memory.
fn places_by_glyphs<A: Allocator + Copy, H: Allocator>(
    alloc: H,
    rules: BreakRules,
    buffer: &mut hb_buffer_t<A>,
) -> Result<Vec<bool, H>, AllocError>
    ensures same { buffer.new ≡ buffer.old }
    ensures told { IfOk result (λ places. TellsByGlyphs rules.entry buffer.old places.items) }
{
    let mut places = vec![in alloc; false; buffer.len()]?;
    let cursor = buffer.backtrack_len();
    buffer.sync();
    turn(buffer);
    tell_by_glyphs(rules, buffer.from_cursor(), &mut places);
    turn(buffer);
    buffer.move_to(cursor);
    Ok(places)
}

/// Places a line as `place_with_deleted` of `aat_layout` does: gives each glyph its advance in the font, kerns the line,
/// and has deleted glyphs take no room. It tells besides before which places of the line, in drawing order, it may be
/// broken by its glyphs as they stand before kerning, and by what kerning leaves open. The line stands in reading order.
/// What kerning attaches is not asked: [`close_chained`] does that.
///
/// Each glyph id has to be at most 0xFFFF. The kern mask of the plan is to be 8, and kerning is to be requested as the
/// features of the rules do. It takes what `place_with_deleted` takes, [`may_break_at`] of each glyph, a search of pairs
/// once more for each pair of the line, some steps a glyph for each subtable, and some bytes of memory a glyph.
///
/// Refused first as 4, `BufferFailed`, where a call of the buffer was refused before: nothing changes then. Else only as
/// 3, `OutOfMemory`, where memory is wanting: how the buffer is left then is not said.
///
/// Apple's TrueType Reference Manual, "The 'kerx' table" and "The 'kern' table".
pub fn place_openly<A: Allocator + Copy, H: Allocator + Copy>(
    alloc: H,
    plan: &hb_ot_shape_plan_t,
    face: &hb_font_t,
    rules: BreakRules,
    buffer: &mut hb_buffer_t<A>,
) -> Result<Vec<bool, H>, AatError>
    requires ids { IsSmall buffer.old }
    requires mask { plan.now.kern_mask ≡ 8 }
    requires requested { requests_kerning rules.features.now ≡ plan.now.requested_kerning }
    ensures failed { IsErrOf result AatError.BufferFailed ↔ (buffer.old.successful ≡ false) }
    ensures unchanged { IsErrOf result AatError.BufferFailed → buffer.new ≡ buffer.old }
    ensures reason { IfErr result (λ error. (error ≡ AatError.BufferFailed) ⊎ (error ≡ AatError.OutOfMemory)) }
    ensures placing { OnOk result (buffer.new ≡ (placing plan.now face.now buffer.old).buffer) }
    ensures told { IfOk result (λ places.
        TellsOpenPlaces face.now rules.entry (with_advances (advance_of face.now) buffer.old) places.items) }
    ensures ids { OnOk result (IsSmall buffer.new) }
    ensures number { OnOk result (length buffer.new.line ≡ length buffer.old.line) }
    ensures standing { OnOk result (IsSome buffer.new.positions) }
    ensures placed { OnOk result (IsPlaced buffer.new) }
    ensures settings { OnOk result (SameSettings (with_scratch_flags buffer.old buffer.new.scratch_flags) buffer.new) }
    ensures order { OnOk result (KeepsOrder buffer.old.line buffer.new.line) }
{
    if !buffer.is_successful() {
        return Err(AatError::BufferFailed);
    }
    advance(face, buffer)?;
    let _standing = buffer.has_positions();
    let mut places = places_by_glyphs(alloc, rules, buffer)?;
    let kerning = TextKerning { plan, face };
    kern_openly(alloc, &kerning, buffer, &mut places)?;
    hb_aat_layout_zero_width_deleted_glyphs(buffer);
    let _placed = buffer.has_positions();
    Ok(places)
}

/// Closes each place of a line in drawing order over which a glyph is attached. Each glyph has one place and one position.
/// In as many steps as the line is long.
pub fn close_chained(direction: Direction, positions: &[GlyphPosition], places: &mut [bool])
    requires count { length places.old ≡ length positions.now }
    ensures { ClosesChained direction positions.now places.old places.new }
{
    let mut least = places.len();
    for behind in 0..places.len() {
        let i = places.len() - 1 - behind;
        least = least.min(parent_of(direction, positions, i).unwrap_or(least));
        places[i] = places[i] & (i <= least);
    }
}
