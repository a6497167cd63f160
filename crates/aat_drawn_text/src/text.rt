//! What is drawn of a text.
ghost use Rattle.std.specs.Prelude.{◌≡◌, ◌≤◌, ◌⊎◌, ◌↔◌, [], ◌+◌, ◌&&◌, IfErr, IfOk, IsErrOf, IsSome, None, OnOk, false, length, nat_lt, not, true};
ghost use Rattle.aat_buffer.specs.Buffer.{with_scratch_flags};
ghost use Rattle.aat_buffer.specs.Clusters.{IsSmall, KeepsOrder};
ghost use Rattle.aat_font.specs.Face.{advance_of, tables_of};
ghost use Rattle.aat_kerning_machines.specs.Positions.{IsPlaced};
ghost use Rattle.aat_map.specs.Adding.{first_too_large_among};
ghost use Rattle.aat_run.specs.Budget.{has_operations, operations_left};
ghost use Rattle.aat_run.specs.Laws.{SameSettings};
ghost use Rattle.aat_shaped_text.specs.Breaks.{is_rising};
ghost use Rattle.aat_shaped_text.specs.KernedPlaces.{TellsOpenPlaces};
ghost use Rattle.aat_shaped_text.specs.ShapedText.{AreInOrder, RefusesText, most_glyphs, most_text, shaped_text, uses_up_budget};
ghost use Rattle.aat_shaped_text.specs.TextFeatures.{requests_kerning};
ghost use Rattle.aat_drawn_text.specs.TextPlan.{IsPlanOf};
ghost use Rattle.aat_layout.specs.Shaping.{placing, with_advances};

use crate::drawn::{Breaks, close_attached, draw};
use crate::kerned::{is_told_by_glyphs, kerned_by, open_places};
use crate::line::{buffer_of, is_rising};
use crate::substitution::{substitute, substitutes_evenly};
use crate::text_line::{TextLine, operations_left, turn};
use crate::tracking::track_line;
use aat_layout::buffer::Direction;
use aat_layout::font::{hb_font_t, hb_ot_shape_plan_t};
use aat_layout::{AatError, compiled_map, place_with_deleted};
use aat_shaped_text::laws::closing_draws_alike;
use aat_shaped_text::{
    BreakRules, ShapedGlyph, TextGlyph, is_unkerned, kerns_apart, place_openly,
    takes_few_operations,
};
use std::alloc::Allocator;

/// Whether nothing is left of a buffer's budget.
fn uses_up<H: Allocator + Copy>(buffer: &TextLine<'_, H>) -> bool
    ensures { result ≡ not (has_operations buffer.now) }
{
    !buffer.max_ops().is_positive()
}

/// Whether the breaks of a text are told: its machines tell what is open, and few of so many operations were taken.
fn tells_breaks<H: Allocator + Copy>(is_told: bool, before: u64, buffer: &TextLine<'_, H>) -> bool
    ensures { result ≡ (is_told && nat_lt before (operations_left buffer.now.max_ops + 16384)) }
{
    is_told && takes_few_operations(before, &buffer.buffer)
}

/// Gives the glyphs of a text their advances, kerns them, and has deleted ones take no room. Where machines tell what is
/// open and the glyphs alone do not decide, it tells before which places of the line it may be broken by its glyphs and by
/// what kerning leaves open; else of no place. Where nothing kerns the text its positions take no memory.
#[tactic(auto, using(crate::proofs::TextLines::placed_anew, crate::proofs::TextLines::unkerned_placed, crate::proofs::TextLines::same_order))]
fn place<'f, H: Allocator + Copy>(
    workspace: H,
    plan: &hb_ot_shape_plan_t,
    face: &'f hb_font_t,
    is_told: bool,
    by_glyphs: bool,
    rules: BreakRules,
    buffer: &mut TextLine<'f, H>,
) -> Result<Vec<bool, H>, AatError>
    requires ids { IsSmall buffer.old }
    requires mask { plan.now.kern_mask ≡ 8 }
    requires requested { requests_kerning rules.features.now ≡ plan.now.requested_kerning }
    ensures failed { IsErrOf result AatError.BufferFailed ↔ (buffer.old.successful ≡ false) }
    ensures reason { IfErr result (λ error. (error ≡ AatError.BufferFailed) ⊎ (error ≡ AatError.OutOfMemory)) }
    ensures placing { OnOk result (buffer.new ≡ (placing plan.now face.now buffer.old).buffer) }
    ensures told { is_told ≡ true → by_glyphs ≡ false → IfOk result (λ places.
        TellsOpenPlaces face.now rules.entry (with_advances (advance_of face.now) buffer.old) places.items) }
    ensures ids { OnOk result (IsSmall buffer.new) }
    ensures number { OnOk result (length buffer.new.line ≡ length buffer.old.line) }
    ensures standing { OnOk result (IsSome buffer.new.positions) }
    ensures placed { OnOk result (IsPlaced buffer.new) }
    ensures settings { OnOk result (SameSettings (with_scratch_flags buffer.old buffer.new.scratch_flags) buffer.new) }
    ensures order { OnOk result (KeepsOrder buffer.old.line buffer.new.line) }
{
    buffer.placed_by = None;
    if is_told && !by_glyphs {
        return place_openly(workspace, plan, face, rules, &mut buffer.buffer);
    }
    if !is_unkerned(face, buffer.direction()) {
        place_with_deleted(plan, face, &mut buffer.buffer)?;
        return Ok(Vec::new(workspace));
    }
    if !buffer.buffer.is_successful() {
        return Err(AatError::BufferFailed);
    }
    buffer.take_advances(face);
    Ok(Vec::new(workspace))
}

/// Shapes a text in a workspace, tracks it by a value, puts what is drawn into `glyphs`, and answers whether the budget
/// was used up.
///
/// Refused as 1, `AaltValue`, with the first value above 65535 that a feature `aalt` asks for, where the font has
/// settings of character alternatives; as 2, `TooLong`, only where substitution makes the line too long; and as 3,
/// `OutOfMemory`, where memory is wanting. Where it is refused, some glyphs may be left in `glyphs`.
pub fn draw_text<H: Allocator + Copy, A: Allocator>(
    workspace: H,
    plan: &hb_ot_shape_plan_t,
    face: &hb_font_t,
    value: i32,
    direction: Direction,
    text: &[TextGlyph],
    glyphs: &mut Vec<ShapedGlyph, A>,
) -> Result<bool, AatError>
    requires short { length text.now ≤ most_text }
    requires planned { IsPlanOf plan.now.user_features.items plan.now }
    requires empty { glyphs.old.items ≡ [] }
    ensures ok { OnOk result
        (glyphs.new.items ≡ shaped_text value face.now direction plan.now.user_features.items text.now) }
    ensures used { IfOk result
        (λ used. used ≡ uses_up_budget face.now direction plan.now.user_features.items text.now) }
    ensures refused { IfErr result (RefusesText face.now direction plan.now.user_features.items text.now) }
    ensures fits { OnOk result (first_too_large_among (tables_of face.now).feat plan.now.user_features.items ≡ None) }
    ensures order { is_rising text.now ≡ true → OnOk result (AreInOrder direction glyphs.new.items) }
    ensures bounded { OnOk result (length glyphs.new.items ≤ most_glyphs (length text.now)) }
{
    closing_draws_alike();
    let features = plan.user_features.as_slice();
    let mut buffer = buffer_of(workspace, face, direction, features, text)?;
    let map = compiled_map(workspace, plan, face)?;
    let lists = map.as_ref();
    let rules = BreakRules {
        is_even: substitutes_evenly(face, direction, features, lists),
        features,
    };
    let kerned = kerned_by(face, direction);
    let by_glyphs = is_told_by_glyphs(kerned);
    // pairs along the line attach nothing
    let attaches_none = kerns_apart(face, direction);
    let operations = operations_left(&buffer);
    let is_told = substitute(face, lists, is_rising(text), &mut buffer)?;
    let mut places = place(
        workspace,
        plan,
        face,
        is_told,
        by_glyphs,
        rules,
        &mut buffer,
    )?;
    let is_allowed = tells_breaks(is_told, operations, &buffer);
    let is_used_up = uses_up(&buffer);
    track_line(workspace, value, &mut buffer)?;
    turn(&mut buffer);
    let attached = close_attached(workspace, attaches_none, &buffer, &mut places)?;
    let left_open = open_places(face, kerned, &places);
    let breaks = Breaks {
        is_allowed,
        rules,
        left_open,
    };
    draw(workspace, breaks, &mut buffer, attached, glyphs)?;
    Ok(is_used_up)
}
