//! The names of features, and the settings of chains.

use crate::fact::Fact;
use crate::finding::{Finding, Place, push_fact};
use aat_bytes::tags::{FEAT, MORX};
use aat_face::Face;
use aat_findings::{exclusive_settings, features_without_name, names_without_chain};
use aat_lookup::Feat;
use aat_machine_tables::{Chain, ChainFeature};
use std::alloc::{AllocError, Global};

/// The feature type of all features: its settings turn the others on and off.
const ALL_FEATURES: u16 = 0;

/// Adds the names of features of which no chain has a setting, unless the chains are not read.
pub(crate) fn check_names(
    alloc: Global,
    face: &Face<'_>,
    found: &mut Vec<Finding>,
) -> Result<(), AllocError> {
    let font = face.font();
    let Some(feat) = &font.tables().feat else {
        return Ok(());
    };
    if face.faults().iter().any(|fault| fault.table == MORX) {
        return Ok(());
    }
    let names = names_without_chain(alloc, feat.names(), font.chains())?;
    for name in &names {
        let place = Place {
            feature: Some(name.kind),
            ..Place::of_table(FEAT)
        };
        push_fact(found, place, Fact::NameWithoutChain)?;
    }
    Ok(())
}

/// Adds the first of the settings of a chain that have no name, but for those of the type of all features, which no tag
/// asks for, and fonts leave without a name.
fn add_unnamed(
    place: Place,
    unnamed: &[ChainFeature],
    found: &mut Vec<Finding>,
) -> Result<(), AllocError> {
    let mut unnamed = unnamed
        .iter()
        .filter(|setting| setting.kind != ALL_FEATURES);
    let Some(first) = unnamed.next() else {
        return Ok(());
    };
    let place = Place {
        feature: Some(first.kind),
        ..place
    };
    let (setting, count) = (first.setting, unnamed.count().saturating_add(1));
    push_fact(found, place, Fact::SettingWithoutName { setting, count })
}

/// Adds what is found of the settings of a chain. Without `feat` none of them has a name.
pub(crate) fn check_settings(
    alloc: Global,
    feat: Option<&Feat>,
    chain: &Chain,
    place: Place,
    found: &mut Vec<Finding>,
) -> Result<(), AllocError> {
    let features = chain.features.as_slice();
    let Some(feat) = feat else {
        return add_unnamed(place, features, found);
    };
    let unnamed = features_without_name(alloc, feat, features)?;
    add_unnamed(place, &unnamed, found)?;
    let exclusive = exclusive_settings(alloc, feat, chain.default_flags, features)?;
    let first = exclusive.first().and_then(|first| features.get(*first));
    let Some(first) = first else {
        return Ok(());
    };
    let place = Place {
        feature: Some(first.kind),
        ..place
    };
    let (setting, count) = (first.setting, exclusive.len());
    push_fact(found, place, Fact::ExclusiveSettings { setting, count })
}
