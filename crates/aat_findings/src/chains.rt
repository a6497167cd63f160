//! What is of no use in chains and in the names of features.
ghost use Rattle.std.specs.Prelude.{◌≡◌, ◌++◌, ◌∷◌, ◌<◌, ℕ, [], true, if◌then◌else◌, filter, not, length, IfOk, OnOk};
ghost use Rattle.aat_findings.specs.Chained.{has_feature, is_in_chains, is_nameless, is_unset, is_unset_at, sets_none};
ghost use Rattle.aat_findings.specs.Reached.{AreExactly};

use aat_lookup::{Feat, FeatureName};
use aat_machine_tables::{Chain, ChainFeature, Subtable, hb_mask_t};
use std::alloc::{AllocError, Global};

/// Whether no feature sets one of some flags.
fn sets_none(features: &[ChainFeature], flags: hb_mask_t) -> bool
    ensures { result ≡ sets_none features.now flags }
{
    features
        .iter()
        .all(|feature| flags & feature.enable_flags == 0)
}

/// Whether nothing switches a subtable on.
fn is_unset(default_flags: hb_mask_t, features: &[ChainFeature], subtable: &Subtable) -> bool
    ensures { result ≡ is_unset default_flags features.now subtable.now }
{
    subtable.feature_flags & default_flags == 0 && sets_none(features, subtable.feature_flags)
}

/// Puts a place behind others where it is wanted.
pub(crate) fn push_place(
    places: &mut Vec<usize>,
    place: usize,
    wanted: bool,
) -> Result<(), AllocError>
    ensures { OnOk result (places.new.items ≡ (if wanted then places.old.items ++ place ∷ [] else places.old.items)) }
{
    if wanted {
        places.push(place)?;
        return Ok(());
    }
    Ok(())
}

/// The places of the subtables of a chain that nothing switches on, rising: their flags share no bit with the chain's
/// default flags, and no feature of the chain sets one of them. Fails where memory is wanting.
///
/// Apple's TrueType Reference Manual, "The 'morx' table", chains.
pub fn unset_subtables(alloc: Global, chain: &Chain) -> Result<Vec<usize>, AllocError>
    ensures { IfOk result (λ places. AreExactly (λ i. (i < length chain.now.subtables.items)
        × (is_unset_at chain.now i ≡ true)) places.items) }
{
    let mut places = Vec::new(alloc);
    let features = chain.features.as_slice();
    let subtables = chain.subtables.as_slice();
    for (place, subtable) in subtables.iter().enumerate() {
        let unset = is_unset(chain.default_flags, features, subtable);
        push_place(&mut places, place, unset)?;
    }
    Ok(places)
}

/// Whether features have one of a type.
fn has_feature(features: &[ChainFeature], kind: u16) -> bool
    ensures { result ≡ has_feature kind features.now }
{
    features.iter().any(|feature| feature.kind == kind)
}

/// Whether one of some chains has a feature of a type.
fn is_in_chains(chains: &[Chain], kind: u16) -> bool
    ensures { result ≡ is_in_chains kind chains.now }
{
    chains
        .iter()
        .any(|chain| has_feature(&chain.features, kind))
}

/// The names, in their order, of the features of which no chain has a setting. Fails where memory is wanting.
///
/// Apple's TrueType Reference Manual, "The 'feat' table".
pub fn names_without_chain(
    alloc: Global,
    names: &[FeatureName],
    chains: &[Chain],
) -> Result<Vec<FeatureName>, AllocError>
    ensures { IfOk result (λ found. found.items ≡ filter (λ n. not (is_in_chains n.kind chains.now)) names.now) }
{
    names
        .iter()
        .filter(|name| !is_in_chains(chains, name.kind))
        .copied()
        .collect(alloc)
}

/// The features of a chain, in their order, whose type has no name. Fails where memory is wanting.
///
/// Apple's TrueType Reference Manual, "The 'feat' table".
pub fn features_without_name(
    alloc: Global,
    feat: &Feat,
    features: &[ChainFeature],
) -> Result<Vec<ChainFeature>, AllocError>
    ensures { IfOk result (λ found. found.items ≡ filter (is_nameless feat.now) features.now) }
{
    features
        .iter()
        .filter(|feature| feat.find(feature.kind).is_none())
        .copied()
        .collect(alloc)
}
