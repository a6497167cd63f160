//! Whether a font has a feature.
ghost use Rattle.std.specs.Prelude.{◌≡◌, is_some};
ghost use Rattle.aat_map.specs.Mappings.{mapping_of};
ghost use Rattle.aat_map.specs.Requests.{exposed, name_for};
ghost use Rattle.aat_shaper.specs.Named.{has_feature, has_row};

use aat_layout::font::keys::row_at;
use aat_layout::font::{Feat, hb_font_t, hb_tag_t};
use aat_layout::{feature_mappings, hb_aat_feature_mapping_t};
use aat_map::worked::mappings_rise;

/// The tag `aalt`.
const ALTERNATES: u32 = 0x6161_6C74;

/// The tag `kern`.
const KERN: u32 = 0x6B65_726E;

/// The type of character alternatives.
const CHARACTER_ALTERNATIVES: u8 = 17;

/// The types of lower case letters, and of letter case, which is the older one.
const LOWER_CASE: u8 = 37;

const LETTER_CASE: u8 = 3;

/// Whether a font has a feature type with settings.
fn is_exposed(names: &Feat, kind: u8) -> bool
    ensures { result ≡ is_some (exposed names.now kind) }
{
    match names.find(u16::from(kind)) {
        Some(name) => name.settings != 0,
        None => false,
    }
}

/// Whether a font has the type of a row with settings.
#[tactic(auto, using(crate::proofs::Exposed::either_is_some))]
fn has_type(names: &Feat, row: &hb_aat_feature_mapping_t) -> bool
    ensures { result ≡ is_some (name_for names.now row.now) }
{
    if row.aat_feature_type == LOWER_CASE && row.selector_to_enable == 1 {
        is_exposed(names, LOWER_CASE) || is_exposed(names, LETTER_CASE)
    } else {
        is_exposed(names, row.aat_feature_type)
    }
}

/// The row of a tag, if there is one.
fn row_of(tag: u32) -> Option<hb_aat_feature_mapping_t>
    ensures { result ≡ mapping_of tag }
{
    mappings_rise();
    row_at(&feature_mappings, tag)
}

/// Whether a font's names have the type of a tag's row with settings.
fn has_row(names: &Feat, tag: u32) -> bool
    ensures { result ≡ has_row names.now (mapping_of tag) }
{
    match row_of(tag) {
        Some(row) => has_type(names, &row),
        None => false,
    }
}

/// Whether a font has a feature.
pub(crate) fn has_feature(face: &hb_font_t, tag: hb_tag_t) -> bool
    ensures { result ≡ has_feature face.now tag }
{
    let tables = face.tables();
    if tag.0 == KERN {
        return tables.kerx.is_some() || tables.kern.is_some();
    }
    match &tables.feat {
        Some(names) if tag.0 == ALTERNATES => is_exposed(names, CHARACTER_ALTERNATIVES),
        Some(names) => has_row(names, tag.0),
        None => false,
    }
}
