//! The features of a list, parted by commas.
ghost use Rattle.std.specs.Prelude.{◌≡◌, map, IfErr, IfOk, Ok};
ghost use Rattle.aat_typesetter.specs.FeatureLists.{RefusesList, features_of, texts_of};

use crate::error::FeatureListError;
use aat_font::Feature;
use aat_layout::parse_feature;
use std::alloc::{AllocError, Allocator};

/// The texts of a list, which commas part.
fn texts_of<A: Allocator>(alloc: A, list: &str) -> Result<Vec<&str, A>, AllocError>
    ensures { IfOk result (λ texts. map (λ text. text.now) texts.items ≡ texts_of list.now) }
{
    list.split(',').collect(alloc)
}

/// The features of a list, whose texts are parted by commas, each as `parse_feature` of `aat_layout` reads it:
/// `smcp,-liga`, `kern=0, aalt[3:5]=2`. An empty text is no feature.
///
/// Refused as 1, `NoFeature`, for the first text that is no feature, or as 2, `OutOfMemory`, where memory is wanting.
pub fn parse_features<A: Allocator + Copy>(
    alloc: A,
    list: &str,
) -> Result<Vec<Feature, A>, FeatureListError>
    ensures ok { IfOk result (λ features. features_of list.now ≡ Ok features.items) }
    ensures refused { IfErr result (RefusesList list.now) }
{
    let texts = texts_of(alloc, list)?;
    let mut features = Vec::new(alloc);
    for number in 0..texts.len() {
        match parse_feature(texts[number]) {
            Ok(feature) => features.push(feature)?,
            Err(error) => return Err(FeatureListError::NoFeature(number, error)),
        }
    }
    Ok(features)
}
