//! Lines that are typeset for C.
ghost use Rattle.std.specs.Prelude.{◌≡◌, ◌↔◌, true, length, map, IfErr, IfOk, OnErr};
ghost use Rattle.std.specs.Str.{IsUtf8};
ghost use Rattle.aat_text.specs.declared.unit.ClusterUnit.TheVariants.{Bytes};
ghost use Rattle.aat_records.specs.Failures.{number_of_outcome};
ghost use Rattle.aat_records.specs.Options.{has_bad_option};
ghost use Rattle.aat_records.specs.Records.{feature_of};
ghost use Rattle.aat_records.specs.Refused.{IsOrNoMemory, RefusesAs, WhyNotShaped, refuses_lines};
ghost use Rattle.aat_records.specs.Shaped.{AreBroken, AreSet};

use crate::failure::{Failure, failure_of_typeset};
use crate::held::Held;
use crate::lines::{LineCounts, put_lines};
use crate::options::{features_told, options_told};
use crate::records::{FeatureRecord, GlyphRecord, LineRecord, OptionsRecord};
use crate::shape::taken_memory;
use aat_text::ClusterUnit;
use aat_typesetter::{TextOptions, Typesetter};
use std::alloc::Global;
use std::mem;

/// Puts the lines of a text into room. Where memory is wanting to count its glyphs, nothing is put.
#[tactic(auto, unfolding(crate::specs::Shaped::sets_lines, crate::specs::Shaped::AreLinesOf, crate::specs::Refused::refuses_lines))]
fn set_lines(
    typesetter: &mut Typesetter<'_>,
    text: &str,
    width: u64,
    options: &TextOptions<'_>,
    out: &mut [GlyphRecord],
    rows: &mut [LineRecord],
) -> Result<LineCounts, Failure>
    ensures put { IfOk result (AreSet text.now width typesetter.old options.now out.old out.new rows.old rows.new) }
    ensures glyphs_stay { OnErr result (out.new ≡ out.old) }
    ensures rows_stay { OnErr result (rows.new ≡ rows.old) }
    ensures refused { IfErr result (RefusesAs (refuses_lines text.now typesetter.old options.now)) }
{
    match typesetter.lines(text, width, options) {
        Ok(lines) => put_lines(&lines, typesetter.text(), text.len(), out, rows),
        Err(error) => Err(failure_of_typeset(error)),
    }
}

/// Typesets a text in lines of a width.
fn break_text(
    alloc: Global,
    held: &mut Held,
    told: &OptionsRecord,
    features: &[FeatureRecord],
    text: &str,
    width: u64,
    out: &mut [GlyphRecord],
    rows: &mut [LineRecord],
) -> Result<LineCounts, Failure>
    ensures face { held.new.face ≡ held.old.face }
    ensures glyphs_stay { OnErr result (out.new ≡ out.old) }
    ensures rows_stay { OnErr result (rows.new ≡ rows.old) }
    ensures put { IfOk result (AreBroken text.now width held.old.face told.now Bytes (map feature_of features.now)
        out.old out.new rows.old rows.new) }
    ensures bad_option { has_bad_option told.now ≡ true → IsOrNoMemory 9 (number_of_outcome result) }
    ensures refused { IfErr result (WhyNotShaped ⊥ (refuses_lines text.now) held.old.face told.now Bytes
        (map feature_of features.now)) }
{
    let features = features_told(alloc, features)?;
    let options = options_told(told, ClusterUnit::Bytes, &features)?;
    let memory = taken_memory(alloc, held);
    let mut typesetter = Typesetter::with_memory(&held.face, memory);
    let outcome = set_lines(&mut typesetter, text, width, &options, out, rows);
    let memory = typesetter.into_memory();
    mem::replace(&mut held.memory, memory).let_go();
    outcome
}

/// Typesets a text of UTF-8 in lines of a width.
pub fn break_utf8(
    alloc: Global,
    held: &mut Held,
    told: &OptionsRecord,
    features: &[FeatureRecord],
    text: &[u8],
    width: u64,
    out: &mut [GlyphRecord],
    rows: &mut [LineRecord],
) -> Result<LineCounts, Failure>
    ensures face { held.new.face ≡ held.old.face }
    ensures glyphs_stay { OnErr result (out.new ≡ out.old) }
    ensures rows_stay { OnErr result (rows.new ≡ rows.old) }
    ensures put { IfOk result (AreBroken text.now width held.old.face told.now Bytes (map feature_of features.now)
        out.old out.new rows.old rows.new) }
    ensures bad_text { (number_of_outcome result ≡ 4) ↔ ¬ (IsUtf8 text.now) }
    ensures bad_option { IsUtf8 text.now → has_bad_option told.now ≡ true → IsOrNoMemory 9 (number_of_outcome result) }
    ensures refused { IfErr result (WhyNotShaped (¬ (IsUtf8 text.now)) (refuses_lines text.now) held.old.face told.now
        Bytes (map feature_of features.now)) }
{
    match std::str::from_utf8(text) {
        Ok(text) => break_text(alloc, held, told, features, text, width, out, rows),
        Err(_) => Err(Failure::BadText),
    }
}
