//! Texts that are shaped for C.
ghost use Rattle.std.specs.Prelude.{◌≡◌, ◌≢◌, ◌↔◌, false, true, map, IfErr, IfOk, OnErr, OnOk, encode_utf8_all};
ghost use Rattle.std.specs.Char.Utf16.{has_unpaired_surrogate};
ghost use Rattle.std.specs.Str.{IsUtf8};
ghost use Rattle.aat_text.specs.declared.unit.ClusterUnit.TheVariants.{Bytes, Characters};
ghost use Rattle.aat_records.specs.Decoded.{is_utf32, over_characters, unit_of, utf8_of_units};
ghost use Rattle.aat_records.specs.Failures.{number_of_outcome};
ghost use Rattle.aat_records.specs.Options.{has_bad_option};
ghost use Rattle.aat_records.specs.Places.{placed};
ghost use Rattle.aat_records.specs.declared.places.Places.TheVariants.{Own};
ghost use Rattle.aat_records.specs.Records.{IsPut, feature_of, glyph_record, text_glyph_of};
ghost use Rattle.aat_typesetter.specs.Typeset.{IsWithinLimits, drawn_setting};
ghost use Rattle.aat_records.specs.Refused.{IsOrNoMemory, RefusesAs, WhyNotShaped, refuses_glyphs, refuses_text};
ghost use Rattle.aat_records.specs.Shaped.{IsDrawn, sets_glyphs, sets_text};

use crate::decoded::{Decoded, features_over, text_of_characters};
use crate::failure::{Failure, failure_of_typeset};
use crate::held::Held;
use crate::options::{features_told, options_told};
use crate::places::Places;
use crate::records::{FeatureRecord, GlyphRecord, OptionsRecord, TextGlyphRecord};
use crate::room::put;
use aat_shaped_text::TextGlyph;
use aat_text::ClusterUnit;
use aat_typesetter::{TextOptions, Typesetter, TypesetterMemory};
use std::alloc::{AllocError, Global};
use std::mem;

/// Takes the memory of what is held out of it.
pub(crate) fn taken_memory(alloc: Global, held: &mut Held) -> TypesetterMemory
    ensures { held.new.face ≡ held.old.face }
{
    mem::replace(&mut held.memory, TypesetterMemory::new(alloc))
}

/// Draws a text into room, and answers how many glyphs are drawn.
#[tactic(auto, unfolding(crate::specs::Shaped::sets_text, crate::specs::Refused::refuses_text))]
fn draw_text(
    typesetter: &mut Typesetter<'_>,
    text: &str,
    options: &TextOptions<'_>,
    places: &Places,
    out: &mut [GlyphRecord],
) -> Result<usize, Failure>
    ensures drawn { IfOk result (IsPut (map (glyph_record (placed places.now))
        (drawn_setting (sets_text text.now typesetter.old options.now))) out.old out.new) }
    ensures fits { OnOk result (IsWithinLimits (sets_text text.now typesetter.old options.now)) }
    ensures stays { OnErr result (out.new ≡ out.old) }
    ensures refused { IfErr result (RefusesAs (refuses_text text.now typesetter.old options.now)) }
{
    match typesetter.line(text, options) {
        Ok(()) => {
            let glyphs = typesetter.glyphs();
            put(glyphs, places, out);
            Ok(glyphs.len())
        }
        Err(error) => Err(failure_of_typeset(error)),
    }
}

/// Draws a text of glyphs into room, and answers how many glyphs are drawn.
#[tactic(auto, unfolding(crate::specs::Shaped::sets_glyphs, crate::specs::Refused::refuses_glyphs))]
fn draw_glyphs(
    typesetter: &mut Typesetter<'_>,
    text: Vec<TextGlyph>,
    options: &TextOptions<'_>,
    out: &mut [GlyphRecord],
) -> Result<usize, Failure>
    ensures drawn { IfOk result (IsPut (map (glyph_record (placed Own))
        (drawn_setting (sets_glyphs text.items typesetter.old options.now))) out.old out.new) }
    ensures fits { OnOk result (IsWithinLimits (sets_glyphs text.items typesetter.old options.now)) }
    ensures stays { OnErr result (out.new ≡ out.old) }
    ensures refused { IfErr result (RefusesAs (refuses_glyphs text.items typesetter.old options.now)) }
{
    match typesetter.line_of_glyphs(text, options) {
        Ok(()) => {
            let glyphs = typesetter.glyphs();
            put(glyphs, &Places::Own, out);
            Ok(glyphs.len())
        }
        Err(error) => Err(failure_of_typeset(error)),
    }
}

/// Shapes a text into room, and answers how many glyphs are drawn.
fn shape_text(
    alloc: Global,
    held: &mut Held,
    told: &OptionsRecord,
    unit: ClusterUnit,
    features: &[FeatureRecord],
    places: &Places,
    text: &str,
    out: &mut [GlyphRecord],
) -> Result<usize, Failure>
    ensures face { held.new.face ≡ held.old.face }
    ensures stays { OnErr result (out.new ≡ out.old) }
    ensures drawn { IfOk result (IsDrawn (sets_text text.now) (placed places.now) held.old.face told.now unit
        (map feature_of features.now) out.old out.new) }
    ensures bad_option { has_bad_option told.now ≡ true → IsOrNoMemory 9 (number_of_outcome result) }
    ensures refused { IfErr result (WhyNotShaped ⊥ (refuses_text text.now) held.old.face told.now unit
        (map feature_of features.now)) }
{
    let features = features_told(alloc, features)?;
    let options = options_told(told, unit, &features)?;
    let memory = taken_memory(alloc, held);
    let mut typesetter = Typesetter::with_memory(&held.face, memory);
    let outcome = draw_text(&mut typesetter, text, &options, places, out);
    let memory = typesetter.into_memory();
    mem::replace(&mut held.memory, memory).let_go();
    outcome
}

/// Shapes a text of UTF-8.
pub fn shape_utf8(
    alloc: Global,
    held: &mut Held,
    told: &OptionsRecord,
    features: &[FeatureRecord],
    text: &[u8],
    out: &mut [GlyphRecord],
) -> Result<usize, Failure>
    ensures face { held.new.face ≡ held.old.face }
    ensures stays { OnErr result (out.new ≡ out.old) }
    ensures drawn { IfOk result (IsDrawn (sets_text text.now) (placed Own) held.old.face told.now Bytes
        (map feature_of features.now) out.old out.new) }
    ensures bad_text { (number_of_outcome result ≡ 4) ↔ ¬ (IsUtf8 text.now) }
    ensures bad_option { IsUtf8 text.now → has_bad_option told.now ≡ true → IsOrNoMemory 9 (number_of_outcome result) }
    ensures refused { IfErr result (WhyNotShaped (¬ (IsUtf8 text.now)) (refuses_text text.now) held.old.face told.now
        Bytes (map feature_of features.now)) }
{
    match std::str::from_utf8(text) {
        Ok(text) => shape_text(
            alloc,
            held,
            told,
            ClusterUnit::Bytes,
            features,
            &Places::Own,
            text,
            out,
        ),
        Err(_) => Err(Failure::BadText),
    }
}

/// Shapes a text of UTF-16.
pub fn shape_utf16(
    alloc: Global,
    held: &mut Held,
    told: &OptionsRecord,
    features: &[FeatureRecord],
    text: &[u16],
    out: &mut [GlyphRecord],
) -> Result<usize, Failure>
    ensures face { held.new.face ≡ held.old.face }
    ensures stays { OnErr result (out.new ≡ out.old) }
    ensures drawn { IfOk result (IsDrawn (sets_text (utf8_of_units text.now)) (unit_of text.now) held.old.face told.now
        Characters (map feature_of (map (over_characters text.now) features.now)) out.old out.new) }
    ensures bad_text { has_unpaired_surrogate text.now ≡ true → IsOrNoMemory 4 (number_of_outcome result) }
    ensures bad_option { has_unpaired_surrogate text.now ≡ false → has_bad_option told.now ≡ true
        → IsOrNoMemory 9 (number_of_outcome result) }
    ensures refused { IfErr result (WhyNotShaped (has_unpaired_surrogate text.now ≡ true)
        (refuses_text (utf8_of_units text.now)) held.old.face told.now Characters
        (map feature_of (map (over_characters text.now) features.now))) }
{
    let decoded = Decoded::of(alloc, text)?;
    let features = features_over(alloc, features, text)?;
    shape_text(
        alloc,
        held,
        told,
        ClusterUnit::Characters,
        &features,
        &decoded.places,
        &decoded.text,
        out,
    )
}

/// Shapes a text of UTF-32.
pub fn shape_utf32(
    alloc: Global,
    held: &mut Held,
    told: &OptionsRecord,
    features: &[FeatureRecord],
    text: &[u32],
    out: &mut [GlyphRecord],
) -> Result<usize, Failure>
    ensures face { held.new.face ≡ held.old.face }
    ensures stays { OnErr result (out.new ≡ out.old) }
    ensures drawn { IfOk result (IsDrawn (sets_text (encode_utf8_all text.now)) (placed Own) held.old.face told.now
        Characters (map feature_of features.now) out.old out.new) }
    ensures bad_text { is_utf32 text.now ≡ false → IsOrNoMemory 4 (number_of_outcome result) }
    ensures bad_option { is_utf32 text.now ≡ true → has_bad_option told.now ≡ true
        → IsOrNoMemory 9 (number_of_outcome result) }
    ensures refused { IfErr result (WhyNotShaped (is_utf32 text.now ≡ false) (refuses_text (encode_utf8_all text.now))
        held.old.face told.now Characters (map feature_of features.now)) }
{
    let text = text_of_characters(alloc, text)?;
    shape_text(
        alloc,
        held,
        told,
        ClusterUnit::Characters,
        features,
        &Places::Own,
        &text,
        out,
    )
}

/// The glyphs of a text that records of C stand for.
fn text_glyphs(alloc: Global, text: &[TextGlyphRecord]) -> Result<Vec<TextGlyph>, AllocError>
    ensures { IfOk result (λ all. all.items ≡ map text_glyph_of text.now) }
{
    text.iter().map(|glyph| glyph.text_glyph()).collect(alloc)
}

/// Shapes a text of glyphs.
pub fn shape_glyphs(
    alloc: Global,
    held: &mut Held,
    told: &OptionsRecord,
    features: &[FeatureRecord],
    text: &[TextGlyphRecord],
    out: &mut [GlyphRecord],
) -> Result<usize, Failure>
    ensures face { held.new.face ≡ held.old.face }
    ensures stays { OnErr result (out.new ≡ out.old) }
    ensures drawn { IfOk result (IsDrawn (sets_glyphs (map text_glyph_of text.now)) (placed Own) held.old.face told.now
        Characters (map feature_of features.now) out.old out.new) }
    ensures bad_option { has_bad_option told.now ≡ true → IsOrNoMemory 9 (number_of_outcome result) }
    ensures refused { IfErr result (WhyNotShaped ⊥ (refuses_glyphs (map text_glyph_of text.now)) held.old.face told.now
        Characters (map feature_of features.now)) }
{
    let features = features_told(alloc, features)?;
    let options = options_told(told, ClusterUnit::Characters, &features)?;
    let glyphs = text_glyphs(alloc, text)?;
    let memory = taken_memory(alloc, held);
    let mut typesetter = Typesetter::with_memory(&held.face, memory);
    let outcome = draw_glyphs(&mut typesetter, glyphs, &options, out);
    let memory = typesetter.into_memory();
    mem::replace(&mut held.memory, memory).let_go();
    outcome
}
