//! A text that is ready is shaped and shown.
ghost use Rattle.std.specs.Prelude.{◌≡◌, None, length, IfErr, IfOk, OnOk};
ghost use Rattle.aat_shaper.specs.Shaper.{no_values};
ghost use Rattle.aat_typesetter.specs.Typeset.{IsWithinLimits, RefusesSetting, drawn_setting, shaped_setting, size_for, uses_up, values_for};
ghost use Rattle.aat_typesetter.specs.TypesetErrors.{RefusesTypesetting};
ghost use Rattle.aat_typesetter.specs.TypesetLines.{AreSetLines, RefusesParts, end_of_lines};
ghost use Rattle.aat_typesetter.specs.inside.Drawn.{drawn_by};
ghost use Rattle.aat_typesetter.specs.inside.Inside.{setting_by};

use crate::error::TypesetError;
use crate::lines::{TypesetLine, set_lines};
use crate::prepared::PreparedText;
use crate::script_settings::put_features;
use crate::showing::{Drawn, show, shown_for};
use crate::stops::stops_for;
use aat_face::Face;
use aat_font::Feature;
use aat_shaped_text::ShapedGlyph;
use aat_shaper::Shaper;
use aat_text::LineEnd;
use std::alloc::{Allocator, Global};
use std::mem;

/// The point size at which texts are tracked: the one that is told, else HarfBuzz's 12 points where the file has
/// `STAT`.
fn size_for(face: &Face<'_>, size: Option<u32>) -> u32
    ensures { result ≡ size_for face.now size }
{
    match size {
        Some(size) => size,
        None if face.has_stat() => 12 << 16,
        None => 0,
    }
}

/// Has a shaper of a face track texts at a point size from now on.
pub(crate) fn track_at<'f, A: Allocator + Copy>(
    global: Global,
    alloc: A,
    face: &'f Face<'f>,
    size: Option<u32>,
    shaper: &mut Shaper<'f, A>,
)
    requires { face.now.tracking ≡ None → shaper.old.values ≡ no_values }
    ensures font { shaper.new.font ≡ shaper.old.font }
    ensures values { shaper.new.values ≡ values_for face.now size }
{
    if let Some(tracking) = face.tracking() {
        let fresh = Shaper::new_in(global, alloc, shaper.font());
        let kept = mem::replace(shaper, fresh);
        *shaper = kept.with_point_size(tracking, size_for(face, size));
    }
}

/// Shapes a text, and answers what is drawn of what the shaper has then, in the memory of a vector whose own glyphs are
/// dropped. The features with which it is shaped are put into `asked`.
#[tactic(auto, unfolding(crate::specs::Typeset::shaped_setting, crate::specs::Typeset::drawn_setting, crate::specs::Typeset::uses_up, crate::specs::Typeset::RefusesSetting))]
pub(crate) fn draw<A: Allocator + Copy>(
    alloc: A,
    room: Vec<ShapedGlyph, A>,
    face: &Face<'_>,
    shaper: &mut Shaper<'_, A>,
    asked: &mut Vec<Feature, A>,
    features: &[Feature],
    text: &PreparedText<A>,
) -> Result<Drawn<A>, TypesetError>
    ensures font { shaper.new.font ≡ shaper.old.font }
    ensures values { shaper.new.values ≡ shaper.old.values }
    ensures drawn { IfOk result (λ drawn. drawn_by drawn.is_as_shaped shaper.new.glyphs drawn.glyphs.items
        ≡ drawn_setting (setting_by face.now shaper.old features.now text.now)) }
    ensures shaped { OnOk result
        (shaper.new.glyphs ≡ shaped_setting (setting_by face.now shaper.old features.now text.now)) }
    ensures budget { OnOk result
        (shaper.new.is_budget_used_up ≡ uses_up (setting_by face.now shaper.old features.now text.now)) }
    ensures refused { IfErr result
        (RefusesTypesetting ⊥ (RefusesSetting (setting_by face.now shaper.old features.now text.now))) }
    ensures fits { OnOk result (IsWithinLimits (setting_by face.now shaper.old features.now text.now)) }
{
    let font = shaper.font();
    put_features(font, text.rules, features, asked)?;
    shaper.shape(text.direction, &text.glyphs, asked)?;
    let showing = shown_for(face, font, text.rules, text.direction);
    let drawn = show(alloc, room, face, showing, shaper.glyphs())?;
    Ok(drawn)
}

/// Shapes a text in lines of a width, which may end at places of its characters, and answers what is drawn of them. The
/// features with which it is shaped are put into `asked`.
#[tactic(auto, unfolding(crate::specs::Typeset::shaped_setting, crate::specs::Typeset::uses_up, crate::specs::TypesetLines::RefusesParts))]
pub(crate) fn draw_lines<A: Allocator + Copy>(
    global: Global,
    alloc: A,
    face: &Face<'_>,
    shaper: &mut Shaper<'_, A>,
    asked: &mut Vec<Feature, A>,
    features: &[Feature],
    text: &PreparedText<A>,
    ends: &[LineEnd],
    width: u64,
) -> Result<Vec<TypesetLine<A>, A>, TypesetError>
    ensures font { shaper.new.font ≡ shaper.old.font }
    ensures values { shaper.new.values ≡ shaper.old.values }
    ensures lines { IfOk result (λ lines.
        AreSetLines (setting_by face.now shaper.old features.now text.now) ends.now width lines.items) }
    ensures end { IfOk result (λ lines. end_of_lines lines.items ≡ length text.now.glyphs) }
    ensures shaped { OnOk result
        (shaper.new.glyphs ≡ shaped_setting (setting_by face.now shaper.old features.now text.now)) }
    ensures budget { OnOk result
        (shaper.new.is_budget_used_up ≡ uses_up (setting_by face.now shaper.old features.now text.now)) }
    ensures refused { IfErr result
        (RefusesTypesetting ⊥ (RefusesParts (setting_by face.now shaper.old features.now text.now))) }
    ensures fits { OnOk result (IsWithinLimits (setting_by face.now shaper.old features.now text.now)) }
{
    let font = shaper.font();
    put_features(font, text.rules, features, asked)?;
    let stops = stops_for(alloc, face.glyph_of(' '), &text.glyphs, ends)?;
    let lines = shaper.shape_lines(
        global,
        alloc,
        text.direction,
        &text.glyphs,
        asked,
        &stops,
        true,
        width,
    )?;
    let showing = shown_for(face, font, text.rules, text.direction);
    let set = set_lines(alloc, face, showing, &lines.glyphs, &lines.lines)?;
    Ok(set)
}
