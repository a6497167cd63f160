//! Settings that exclude one another and are both on.
ghost use Rattle.std.specs.Prelude.{◌≡◌, ◌<◌, ℕ, true, length, IfOk};
ghost use Rattle.aat_findings.specs.Chained.{clashes_with, is_clash, is_clash_at, is_exclusive, is_on_by_default};
ghost use Rattle.aat_findings.specs.Reached.{AreExactly};

use crate::chains::push_place;
use aat_lookup::Feat;
use aat_machine_tables::{ChainFeature, hb_mask_t};
use std::alloc::{AllocError, Global};

/// Whether a setting is on where nothing is asked for: it sets flags, and all of them are set then.
fn is_on_by_default(default_flags: hb_mask_t, feature: &ChainFeature) -> bool
    ensures { result ≡ is_on_by_default default_flags feature.now }
{
    feature.enable_flags != 0 && default_flags & feature.enable_flags == feature.enable_flags
}

/// Whether the settings of a type exclude one another.
fn is_exclusive(feat: &Feat, kind: u16) -> bool
    ensures { result ≡ is_exclusive feat.now kind }
{
    match feat.find(kind) {
        Some(name) => name.exclusive,
        None => false,
    }
}

/// Whether two settings exclude one another and are both on where nothing is asked for.
fn is_clash(
    feat: &Feat,
    default_flags: hb_mask_t,
    feature: &ChainFeature,
    other: &ChainFeature,
) -> bool
    ensures { result ≡ is_clash feat.now default_flags feature.now other.now }
{
    if feature.kind != other.kind || feature.setting == other.setting {
        return false;
    }
    is_exclusive(feat, feature.kind)
        && is_on_by_default(default_flags, feature)
        && is_on_by_default(default_flags, other)
}

/// Whether a setting and one of some others exclude one another and are both on where nothing is asked for.
fn clashes_with(
    feat: &Feat,
    default_flags: hb_mask_t,
    before: &[ChainFeature],
    feature: &ChainFeature,
) -> bool
    ensures { result ≡ clashes_with feat.now default_flags before.now feature.now }
{
    before
        .iter()
        .any(|other| is_clash(feat, default_flags, other, feature))
}

/// The places of the settings of a chain, rising, that are on where nothing is asked for although one before them is
/// too that they exclude: their type is named as one whose settings exclude one another. Fails where memory is wanting.
///
/// Apple's TrueType Reference Manual, "The 'feat' table".
pub fn exclusive_settings(
    alloc: Global,
    feat: &Feat,
    default_flags: hb_mask_t,
    features: &[ChainFeature],
) -> Result<Vec<usize>, AllocError>
    ensures { IfOk result (λ places. AreExactly (λ i. (i < length features.now)
        × (is_clash_at feat.now default_flags features.now i ≡ true)) places.items) }
{
    let mut places = Vec::new(alloc);
    for place in 0..features.len() {
        let clash = clashes_with(feat, default_flags, &features[..place], &features[place]);
        push_place(&mut places, place, clash)?;
    }
    Ok(places)
}
