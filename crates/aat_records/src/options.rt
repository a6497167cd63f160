//! What C tells of a text.
ghost use Rattle.std.specs.Prelude.{◌≡◌, true, false, map, IfErr, IfOk, OnOk};
ghost use Rattle.aat_records.specs.Options.{IsTold, direction_told, has_bad_option, level_told, script_told, size_told};
ghost use Rattle.aat_records.specs.Records.{feature_of};

use crate::failure::Failure;
use crate::records::{FeatureRecord, OptionsRecord};
use aat_glyph::Direction;
use aat_typesetter::{ClusterLevel, ClusterUnit, Feature, Script, TextOptions, script_of_tag};
use std::alloc::{AllocError, Global};

/// The direction of a number of HarfBuzz's, of which 0 tells none.
fn direction_told(number: u32) -> Result<Option<Direction>, Failure>
    ensures { result ≡ direction_told number }
{
    match number {
        0 => Ok(None),
        4 => Ok(Some(Direction::LeftToRight)),
        5 => Ok(Some(Direction::RightToLeft)),
        6 => Ok(Some(Direction::TopToBottom)),
        7 => Ok(Some(Direction::BottomToTop)),
        _ => Err(Failure::BadOption),
    }
}

/// The script of a tag, of which 0 tells none.
#[tactic(auto, unfolding(crate::specs::Options::script_told))]
fn script_told(tag: u32) -> Result<Option<Script>, Failure>
    ensures told { result ≡ script_told tag }
    ensures bad { IfErr result (λ failure. failure ≡ Failure.BadOption) }
{
    if tag == 0 {
        return Ok(None);
    }
    match script_of_tag(tag) {
        Some(script) => Ok(Some(script)),
        None => Err(Failure::BadOption),
    }
}

/// The point size of a number, of which 0 tells none, and the greatest one that nothing is tracked.
fn size_told(number: u32) -> Option<u32>
    ensures { result ≡ size_told number }
{
    match number {
        0 => None,
        u32::MAX => Some(0),
        size => Some(size),
    }
}

/// The level of a number.
fn level_told(number: u32) -> Result<ClusterLevel, Failure>
    ensures { result ≡ level_told number }
{
    match number {
        0 => Ok(ClusterLevel::Graphemes),
        1 => Ok(ClusterLevel::Characters),
        _ => Err(Failure::BadOption),
    }
}

/// The features that records of C stand for.
pub fn features_told(alloc: Global, features: &[FeatureRecord]) -> Result<Vec<Feature>, AllocError>
    ensures { IfOk result (λ all. all.items ≡ map feature_of features.now) }
{
    features
        .iter()
        .map(|feature| feature.feature())
        .collect(alloc)
}

/// The options that are told with these features.
pub fn options_told<'o>(
    told: &OptionsRecord,
    unit: ClusterUnit,
    features: &'o [Feature],
) -> Result<TextOptions<'o>, Failure>
    ensures told { IfOk result (λ options. IsTold told.now unit options) }
    ensures features { IfOk result (λ options. options.features.now ≡ features.now) }
    ensures good { OnOk result (has_bad_option told.now ≡ false) }
    ensures bad { IfErr result (λ failure. (failure ≡ Failure.BadOption) × (has_bad_option told.now ≡ true)) }
{
    Ok(TextOptions {
        direction: direction_told(told.direction)?,
        script: script_told(told.script)?,
        features,
        size: size_told(told.point_size),
        unit,
        level: level_told(told.cluster_level)?,
        not_found: 0,
    })
}
