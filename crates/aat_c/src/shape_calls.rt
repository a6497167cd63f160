//! What C has shaped.
ghost use Rattle.std.specs.Prelude.{◌≡◌, ◌≢◌, ◌↔◌, IfOk, IsSome, None, false, true, map, encode_utf8_all};
ghost use Rattle.std.specs.Char.Utf16.{has_unpaired_surrogate};
ghost use Rattle.std.specs.Str.{IsUtf8};
ghost use Rattle.aat_text.specs.declared.unit.ClusterUnit.TheVariants.{Bytes, Characters};
ghost use Rattle.aat_records.specs.Decoded.{is_utf32, over_characters, unit_of, utf8_of_units};
ghost use Rattle.aat_records.specs.Failures.{count_of_outcome, number_of_outcome};
ghost use Rattle.aat_records.specs.Options.{has_bad_option};
ghost use Rattle.aat_records.specs.Places.{placed};
ghost use Rattle.aat_records.specs.declared.places.Places.TheVariants.{Own};
ghost use Rattle.aat_records.specs.Records.{feature_of, text_glyph_of};
ghost use Rattle.aat_c.specs.Handles.{face_in, held_in};
ghost use Rattle.aat_records.specs.Refused.{IsOfFailure, IsOrNoMemory, WhyNotShaped, WhyRefused, refuses_glyphs, refuses_lines, refuses_text};
ghost use Rattle.aat_records.specs.Shaped.{AreBrokenBy, IsDrawnBy, sets_glyphs, sets_text};

use crate::handle::Handle;
use aat_records::{
    DONE, Failure, FeatureRecord, GlyphRecord, LineCounts, LineRecord, OptionsRecord,
    TextGlyphRecord, break_utf8, shape_glyphs, shape_utf8, shape_utf16, shape_utf32,
};
use std::alloc::Global;

/// Tells how many there are, 0 where a call is refused, and the number of its status.
pub(crate) fn finish(outcome: Result<usize, Failure>, count: &mut usize) -> u32
    ensures number { result ≡ number_of_outcome outcome }
    ensures count { count.new ≡ count_of_outcome outcome }
{
    match outcome {
        Ok(found) => {
            *count = found;
            DONE
        }
        Err(failure) => {
            *count = 0;
            failure.number()
        }
    }
}

/// Shapes a text of UTF-8. Clusters count bytes.
///
/// Refused as 1, `NoFont`; then as 4, `BadText`, exactly where the text is no UTF-8; then as 9, `BadOption`; and then
/// as the typesetter refuses it: 5, `TextTooLong`; 7, `LineTooLong`, for more than 2^24 glyphs; 6, `AlternateTooLarge`;
/// 7 of substitution. Behind 1 and 4 it may be refused as 2, `OutOfMemory`. The count is 0 then, and the room stays.
#[unsafe(no_mangle)]
pub extern "C" fn aat_shape_utf8(
    alloc: Global,
    font: &mut Handle,
    options: &OptionsRecord,
    features: &[FeatureRecord],
    text: &[u8],
    out: &mut [GlyphRecord],
    count: &mut usize,
) -> u32
    ensures kept { face_in font.new ≡ face_in font.old }
    ensures drawn { result ≡ 0 → IsDrawnBy (sets_text text.now) (placed Own) (held_in font.old) options.now Bytes
        (map feature_of features.now) out.old out.new count.new }
    ensures no_font { (result ≡ 1) ↔ (held_in font.old ≡ None) }
    ensures bad_text { IsSome (held_in font.old) → ((result ≡ 4) ↔ ¬ (IsUtf8 text.now)) }
    ensures bad_option { IsSome (held_in font.old) → IsUtf8 text.now → has_bad_option options.now ≡ true
        → IsOrNoMemory 9 result }
    ensures refused { result ≢ 0 → IsOfFailure (WhyRefused (held_in font.old) (λ face. WhyNotShaped
        (¬ (IsUtf8 text.now)) (refuses_text text.now) face options.now Bytes (map feature_of features.now))) result }
    ensures none { result ≢ 0 → count.new ≡ 0 }
    ensures stays { result ≢ 0 → out.new ≡ out.old }
{
    match font.take(alloc) {
        Some(mut held) => {
            let outcome = shape_utf8(alloc, &mut held, options, features, text, out);
            font.put(held);
            finish(outcome, count)
        }
        None => finish(Err(Failure::NoFont), count),
    }
}

/// Shapes a text of UTF-16. Clusters, also those of features, count units of 16 bits. Refused as `aat_shape_utf8` is, but
/// that 2, `OutOfMemory`, may come in place of 4.
#[unsafe(no_mangle)]
pub extern "C" fn aat_shape_utf16(
    alloc: Global,
    font: &mut Handle,
    options: &OptionsRecord,
    features: &[FeatureRecord],
    text: &[u16],
    out: &mut [GlyphRecord],
    count: &mut usize,
) -> u32
    ensures kept { face_in font.new ≡ face_in font.old }
    ensures drawn { result ≡ 0 → IsDrawnBy (sets_text (utf8_of_units text.now)) (unit_of text.now) (held_in font.old)
        options.now Characters (map feature_of (map (over_characters text.now) features.now))
        out.old out.new count.new }
    ensures no_font { (result ≡ 1) ↔ (held_in font.old ≡ None) }
    ensures bad_text { IsSome (held_in font.old) → has_unpaired_surrogate text.now ≡ true → IsOrNoMemory 4 result }
    ensures bad_option { IsSome (held_in font.old) → has_unpaired_surrogate text.now ≡ false
        → has_bad_option options.now ≡ true → IsOrNoMemory 9 result }
    ensures refused { result ≢ 0 → IsOfFailure (WhyRefused (held_in font.old) (λ face. WhyNotShaped
        (has_unpaired_surrogate text.now ≡ true) (refuses_text (utf8_of_units text.now)) face options.now Characters
        (map feature_of (map (over_characters text.now) features.now)))) result }
    ensures none { result ≢ 0 → count.new ≡ 0 }
    ensures stays { result ≢ 0 → out.new ≡ out.old }
{
    match font.take(alloc) {
        Some(mut held) => {
            let outcome = shape_utf16(alloc, &mut held, options, features, text, out);
            font.put(held);
            finish(outcome, count)
        }
        None => finish(Err(Failure::NoFont), count),
    }
}

/// Shapes a text of UTF-32. Clusters count characters. Refused as `aat_shape_utf16` is.
#[unsafe(no_mangle)]
pub extern "C" fn aat_shape_utf32(
    alloc: Global,
    font: &mut Handle,
    options: &OptionsRecord,
    features: &[FeatureRecord],
    text: &[u32],
    out: &mut [GlyphRecord],
    count: &mut usize,
) -> u32
    ensures kept { face_in font.new ≡ face_in font.old }
    ensures drawn { result ≡ 0 → IsDrawnBy (sets_text (encode_utf8_all text.now)) (placed Own) (held_in font.old)
        options.now Characters (map feature_of features.now) out.old out.new count.new }
    ensures no_font { (result ≡ 1) ↔ (held_in font.old ≡ None) }
    ensures bad_text { IsSome (held_in font.old) → is_utf32 text.now ≡ false → IsOrNoMemory 4 result }
    ensures bad_option { IsSome (held_in font.old) → is_utf32 text.now ≡ true → has_bad_option options.now ≡ true
        → IsOrNoMemory 9 result }
    ensures refused { result ≢ 0 → IsOfFailure (WhyRefused (held_in font.old) (λ face. WhyNotShaped
        (is_utf32 text.now ≡ false) (refuses_text (encode_utf8_all text.now)) face options.now Characters
        (map feature_of features.now))) result }
    ensures none { result ≢ 0 → count.new ≡ 0 }
    ensures stays { result ≢ 0 → out.new ≡ out.old }
{
    match font.take(alloc) {
        Some(mut held) => {
            let outcome = shape_utf32(alloc, &mut held, options, features, text, out);
            font.put(held);
            finish(outcome, count)
        }
        None => finish(Err(Failure::NoFont), count),
    }
}

/// Shapes a text of glyphs with clusters of their own. Script and level of the options do not count, but have to be ones.
/// Refused as `aat_shape_utf8` is, but not as 4 or 5.
#[unsafe(no_mangle)]
pub extern "C" fn aat_shape_glyphs(
    alloc: Global,
    font: &mut Handle,
    options: &OptionsRecord,
    features: &[FeatureRecord],
    text: &[TextGlyphRecord],
    out: &mut [GlyphRecord],
    count: &mut usize,
) -> u32
    ensures kept { face_in font.new ≡ face_in font.old }
    ensures drawn { result ≡ 0 → IsDrawnBy (sets_glyphs (map text_glyph_of text.now)) (placed Own) (held_in font.old)
        options.now Characters (map feature_of features.now) out.old out.new count.new }
    ensures no_font { (result ≡ 1) ↔ (held_in font.old ≡ None) }
    ensures bad_option { IsSome (held_in font.old) → has_bad_option options.now ≡ true → IsOrNoMemory 9 result }
    ensures refused { result ≢ 0 → IsOfFailure (WhyRefused (held_in font.old) (λ face. WhyNotShaped ⊥
        (refuses_glyphs (map text_glyph_of text.now)) face options.now Characters (map feature_of features.now)))
        result }
    ensures none { result ≢ 0 → count.new ≡ 0 }
    ensures stays { result ≢ 0 → out.new ≡ out.old }
{
    match font.take(alloc) {
        Some(mut held) => {
            let outcome = shape_glyphs(alloc, &mut held, options, features, text, out);
            font.put(held);
            finish(outcome, count)
        }
        None => finish(Err(Failure::NoFont), count),
    }
}

/// Tells how many lines and glyphs there are, 0 where a call is refused, and the number of its status.
fn finish_lines(
    outcome: Result<LineCounts, Failure>,
    count: &mut usize,
    line_count: &mut usize,
) -> u32
    ensures number { result ≡ number_of_outcome outcome }
    ensures found { IfOk outcome (λ found. found ≡ record { lines = line_count.new; glyphs = count.new }) }
    ensures glyphs { result ≢ 0 → count.new ≡ 0 }
    ensures lines { result ≢ 0 → line_count.new ≡ 0 }
{
    match outcome {
        Ok(found) => {
            *count = found.glyphs;
            *line_count = found.lines;
            DONE
        }
        Err(failure) => {
            *count = 0;
            *line_count = 0;
            failure.number()
        }
    }
}

/// Breaks a text of UTF-8 into lines of a width, in units of the font. Clusters count bytes. Refused as
/// `aat_shape_utf8` is, of the text or a part of it: both counts are 0 then, and the rooms stay.
#[unsafe(no_mangle)]
pub extern "C" fn aat_lines_utf8(
    alloc: Global,
    font: &mut Handle,
    options: &OptionsRecord,
    features: &[FeatureRecord],
    text: &[u8],
    width: u64,
    out: &mut [GlyphRecord],
    count: &mut usize,
    lines: &mut [LineRecord],
    line_count: &mut usize,
) -> u32
    ensures kept { face_in font.new ≡ face_in font.old }
    ensures put { result ≡ 0 → AreBrokenBy text.now width (held_in font.old) options.now Bytes
        (map feature_of features.now) out.old out.new lines.old lines.new
        (record { lines = line_count.new; glyphs = count.new }) }
    ensures no_font { (result ≡ 1) ↔ (held_in font.old ≡ None) }
    ensures bad_text { IsSome (held_in font.old) → ((result ≡ 4) ↔ ¬ (IsUtf8 text.now)) }
    ensures bad_option { IsSome (held_in font.old) → IsUtf8 text.now → has_bad_option options.now ≡ true
        → IsOrNoMemory 9 result }
    ensures refused { result ≢ 0 → IsOfFailure (WhyRefused (held_in font.old) (λ face. WhyNotShaped
        (¬ (IsUtf8 text.now)) (refuses_lines text.now) face options.now Bytes (map feature_of features.now))) result }
    ensures no_glyphs { result ≢ 0 → count.new ≡ 0 }
    ensures no_lines { result ≢ 0 → line_count.new ≡ 0 }
    ensures glyphs_stay { result ≢ 0 → out.new ≡ out.old }
    ensures lines_stay { result ≢ 0 → lines.new ≡ lines.old }
{
    match font.take(alloc) {
        Some(mut held) => {
            let outcome = break_utf8(alloc, &mut held, options, features, text, width, out, lines);
            font.put(held);
            finish_lines(outcome, count, line_count)
        }
        None => finish_lines(Err(Failure::NoFont), count, line_count),
    }
}
