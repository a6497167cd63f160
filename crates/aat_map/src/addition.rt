//! What becomes of a feature of the user.
ghost use Rattle.std.specs.Prelude.{◌≡◌, IfOk, IfErr, OnOk, OnErr, option_map, true, false};
ghost use Rattle.aat_font.specs.Face.{tables_of};
ghost use Rattle.aat_map.specs.Mappings.{mapping_of};
ghost use Rattle.aat_map.specs.Requests.{addition, is_too_large, is_past_alternates, addition_by_row, alternates, mapped_setting, exposed, name_for};
ghost use Rattle.aat_map.specs.inside.AdditionInside.{addition_from};

use crate::feature::feature_info_t;
use crate::mapping::{hb_aat_feature_mapping_t, mapping_of};
use aat_font::{Feature, constants, hb_font_t};
use aat_lookup::{Feat, FeatureName};
use aat_run::AatError;

/// The tag `aalt`, access to all alternates.
const ALTERNATES: u32 = 0x61616C74;

/// The feature type of character alternatives.
const CHARACTER_ALTERNATIVES: u16 =
    constants::HB_AAT_LAYOUT_FEATURE_TYPE_CHARACTER_ALTERNATIVES as u16;

/// The feature type of letter case.
const LETTER_CASE: u16 = constants::HB_AAT_LAYOUT_FEATURE_TYPE_LETTER_CASE as u16;

/// The feature type of lower case letters.
const LOWER_CASE: u16 = constants::HB_AAT_LAYOUT_FEATURE_TYPE_LOWER_CASE as u16;

/// The selector of small capitals for lower case letters.
const LOWER_CASE_SMALL_CAPS: u8 = constants::HB_AAT_LAYOUT_FEATURE_SELECTOR_LOWER_CASE_SMALL_CAPS;

/// What becomes of a feature: whether it is known, and the setting that is appended.
#[derive(Clone, Copy)]
pub(crate) struct AddedFeature {
    pub(crate) is_known: bool,
    pub(crate) appended: Option<feature_info_t>,
}

/// What becomes of a feature, by the font's feature names. Refused as 1, `AaltValue`, where it is a
/// value of alternates that is no setting.
pub(crate) fn addition_of(face: &hb_font_t, feature: &Feature) -> Result<AddedFeature, AatError>
    ensures ok { IfOk result (λ a. addition_from a ≡ addition (tables_of face.now).feat feature.now) }
    ensures fits { OnOk result (is_too_large (tables_of face.now).feat feature.now ≡ false) }
    ensures too_large { OnErr result (is_too_large (tables_of face.now).feat feature.now ≡ true) }
    ensures err { IfErr result (λ e. e ≡ AatError.AaltValue feature.now.value) }
{
    let Some(feat) = &face.tables().feat else {
        return Ok(AddedFeature {
            is_known: false,
            appended: None,
        });
    };
    if feature.tag.0 == ALTERNATES {
        alternates_of(feat, feature)
    } else {
        Ok(mapped_to(feat, feature))
    }
}

/// The value of alternates is a setting of the character alternatives, where the font has them.
fn alternates_of(feat: &Feat, feature: &Feature) -> Result<AddedFeature, AatError>
    ensures ok { IfOk result (λ a. addition_from a ≡ alternates feat.now feature.now) }
    ensures fits { OnOk result (is_past_alternates feat.now feature.now ≡ false) }
    ensures too_large { OnErr result (is_past_alternates feat.now feature.now ≡ true) }
    ensures err { IfErr result (λ e. e ≡ AatError.AaltValue feature.now.value) }
{
    if exposed_name(feat, CHARACTER_ALTERNATIVES).is_none() {
        return Ok(AddedFeature {
            is_known: true,
            appended: None,
        });
    }
    if feature.value > 0xFFFF {
        return Err(AatError::AaltValue(feature.value));
    }
    Ok(AddedFeature {
        is_known: false,
        appended: Some(feature_info_t {
            kind: CHARACTER_ALTERNATIVES,
            setting: feature.value as u16,
            is_exclusive: true,
        }),
    })
}

/// A feature with a row is known, and is appended where the font has its type with settings.
fn mapped_to(feat: &Feat, feature: &Feature) -> AddedFeature
    ensures { addition_from result ≡ addition_by_row feat.now feature.now (mapping_of feature.now.tag.0) }
{
    match mapping_of(feature.tag) {
        Some(mapping) => AddedFeature {
            is_known: true,
            appended: mapped_setting(feat, &mapping, feature.value),
        },
        None => AddedFeature {
            is_known: false,
            appended: None,
        },
    }
}

/// The setting that a row appends for a value.
fn mapped_setting(
    feat: &Feat,
    mapping: &hb_aat_feature_mapping_t,
    value: u32,
) -> Option<feature_info_t>
    ensures { result ≡ option_map (mapped_setting mapping.now value) (name_for feat.now mapping.now) }
{
    let name = name_for(feat, mapping)?;
    let setting = if value == 0 {
        mapping.selector_to_disable
    } else {
        mapping.selector_to_enable
    };
    Some(feature_info_t {
        kind: mapping.aat_feature_type as u16,
        setting: setting as u16,
        is_exclusive: name.exclusive,
    })
}

/// The name that a row asks for: small capitals ask the older type of letter case where the font
/// lacks theirs, since a font that was made before the newer type names them there.
fn name_for(feat: &Feat, mapping: &hb_aat_feature_mapping_t) -> Option<FeatureName>
    ensures { result ≡ name_for feat.now mapping.now }
{
    if mapping.aat_feature_type as u16 == LOWER_CASE
        && mapping.selector_to_enable == LOWER_CASE_SMALL_CAPS
    {
        match exposed_name(feat, LOWER_CASE) {
            Some(name) => Some(name),
            None => exposed_name(feat, LETTER_CASE),
        }
    } else {
        exposed_name(feat, mapping.aat_feature_type as u16)
    }
}

/// The name of a feature type that the font has with settings.
fn exposed_name(feat: &Feat, kind: u16) -> Option<FeatureName>
    ensures { result ≡ exposed feat.now kind }
{
    match feat.find(kind) {
        Some(name) => if name.settings == 0 { None } else { Some(name) },
        None => None,
    }
}
