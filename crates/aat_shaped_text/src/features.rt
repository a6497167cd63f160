//! What the features of a text ask at its characters.
ghost use Rattle.std.specs.Prelude.{◌≡◌};
ghost use Rattle.std.specs.List.{list_any};
ghost use Rattle.aat_shaped_text.specs.TextFeatures.{ask_alike, ask_alike_through, holds, is_everywhere, is_kern, is_kerned_at, requests_kerning};

use aat_layout::font::Feature;

/// The tag `kern`.
const KERN: u32 = 0x6B65_726E;

/// Whether a feature holds a cluster.
fn holds(feature: &Feature, cluster: u32) -> bool
    ensures { result ≡ holds cluster feature.now }
{
    cluster >= feature.start && (cluster < feature.end || feature.end == u32::MAX)
}

/// Whether a feature holds every cluster.
fn is_everywhere(feature: &Feature) -> bool
    ensures { result ≡ is_everywhere feature.now }
{
    feature.start == 0 && feature.end == u32::MAX
}

/// Whether a feature is `kern`.
fn is_kern(feature: &Feature) -> bool
    ensures { result ≡ is_kern feature.now }
{
    feature.tag.0 == KERN
}

/// Whether some feature is `kern`. Where none is, kerning is on at each cluster.
pub fn asks_kern(features: &[Feature]) -> bool
    ensures { result ≡ list_any is_kern features.now }
{
    features.iter().any(|feature| is_kern(feature))
}

/// Whether kerning is on at a cluster: as the last feature `kern` says that holds it.
pub fn is_kerned_at(features: &[Feature], cluster: u32) -> bool
    ensures { result ≡ is_kerned_at features.now cluster }
{
    let mut on = true;
    for feature in features {
        if is_kern(feature) && holds(feature, cluster) {
            on = feature.value != 0;
        }
    }
    on
}

/// Whether kerning is requested: as the last feature `kern` says that turns it on anywhere, or off everywhere.
pub fn requests_kerning(features: &[Feature]) -> bool
    ensures { result ≡ requests_kerning features.now }
{
    let mut on = true;
    for feature in features {
        if is_kern(feature) && (feature.value != 0 || is_everywhere(feature)) {
            on = feature.value != 0;
        }
    }
    on
}

/// Whether the features ask for the same at two clusters.
pub(crate) fn ask_alike(features: &[Feature], cluster: u32, other: u32) -> bool
    ensures { result ≡ ask_alike features.now cluster other }
{
    features
        .iter()
        .all(|feature| holds(feature, cluster) == holds(feature, other))
}

/// Whether each feature holds all clusters from one through another, or none of them.
pub(crate) fn ask_alike_through(features: &[Feature], low: u32, last: u32) -> bool
    ensures { result ≡ ask_alike_through features.now low last }
{
    features.iter().all(|feature| {
        (holds(feature, low) && holds(feature, last))
            || last < feature.start
            || !holds(feature, low.max(feature.start))
    })
}
