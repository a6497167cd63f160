//! Features that switch on the subtables of which lines show something, and which are off by default.

use crate::finding::Finding;
use aat_font::{Feature, hb_font_t, hb_tag_t};
use aat_layout::{feature_mappings, hb_aat_map_builder_t, hb_aat_map_t};
use std::alloc::{AllocError, Global};

/// The tag `aalt`, whose value is a setting.
const ALTERNATES: hb_tag_t = hb_tag_t(0x6161_6C74);

/// How many tags there are beside it.
const TAGS: usize = 78;

/// How many features are tried: each tag with the values 1 and 0, and then `aalt` with those from 0 to 255.
const TRIES: usize = 2 * TAGS + 256;

/// Whether a finding has a line without a feature, and its subtable is off by default.
fn is_off(font: &hb_font_t, finding: &Finding) -> bool {
    let is_plain = finding
        .line
        .as_ref()
        .is_some_and(|line| line.feature.is_none());
    let found = finding.place.subtable_in(font);
    is_plain
        && found.is_some_and(|(chain, subtable)| {
            chain.default_flags & subtable.feature_flags == 0
        })
}

/// Gives a feature to the lines of findings whose subtables are off by default, and on where it alone is asked for.
fn give_feature(
    alloc: Global,
    font: &hb_font_t,
    feature: Feature,
    found: &mut [Finding],
) -> Result<(), AllocError> {
    let builder = hb_aat_map_builder_t::with_features(alloc, font, &[feature]);
    let mut builder = builder.map_err(|_| AllocError)?;
    let mut map = hb_aat_map_t::default(alloc);
    builder.compile(font, &mut map).map_err(|_| AllocError)?;
    for finding in found.iter_mut() {
        let flags = map
            .flags_at(finding.place.chain.unwrap_or(0), 0)
            .unwrap_or(0);
        let is_on = match finding.place.subtable_in(font) {
            Some((_, subtable)) => flags & subtable.feature_flags != 0,
            None => false,
        };
        let is_wanted = is_on && is_off(font, finding);
        if is_wanted && let Some(line) = &mut finding.line {
            line.feature = Some(feature);
        }
    }
    Ok(())
}

/// Gives each line of a subtable of `morx` that is off by default the first feature that switches it on, if one of those
/// that are tried does.
///
/// Apple's TrueType Reference Manual, "The 'morx' table", feature subtables.
pub(crate) fn show_features(
    alloc: Global,
    font: &hb_font_t,
    found: &mut [Finding],
) -> Result<(), AllocError> {
    for number in 0..TRIES {
        if !found.iter().any(|finding| is_off(font, finding)) {
            return Ok(());
        }
        let (tag, value) = match feature_mappings.get(number % TAGS) {
            Some(row) if number < TAGS => (row.ot_feature_tag, 1),
            Some(row) if number < 2 * TAGS => (row.ot_feature_tag, 0),
            _ => (
                ALTERNATES,
                number.saturating_sub(2 * TAGS).min(0xFFFF) as u32,
            ),
        };
        let feature = Feature::new(tag, value, 0..u32::MAX);
        give_feature(alloc, font, feature, found)?;
    }
    Ok(())
}
