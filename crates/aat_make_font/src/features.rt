//! The table `feat` of a description.

use crate::known::Known;
use crate::values::{Told, at, list, members, need, word};
use aat_write_sfnt::{NamedFeature, NamedSetting, write_named_feat};
use anyhow::Result;
use serde_json::Value;

/// A feature, with the numbers of its name and of those of its settings.
#[derive(Drop)]
pub(crate) struct NumberedFeature {
    kind: u16,
    exclusive: bool,
    name: u16,
    settings: Vec<NamedSetting>,
}

impl Told for NamedSetting {
    fn of(known: &mut Known, value: &Value) -> Result<NamedSetting> {
        let members = members(value, "setting name")?;
        Ok(NamedSetting {
            setting: need(known, members, "setting")?,
            name: known.add_name(word(members, "name")?)?,
        })
    }
}

impl Told for NumberedFeature {
    /// A feature, whose name gets the next number before the names of its settings.
    fn of(known: &mut Known, value: &Value) -> Result<NumberedFeature> {
        let members = members(value, "type exclusive name settings")?;
        Ok(NumberedFeature {
            kind: need(known, members, "type")?,
            exclusive: at(known, members, "exclusive", false)?,
            name: known.add_name(word(members, "name")?)?,
            settings: list(known, members, "settings")?,
        })
    }
}

/// The bytes of `feat`.
pub(crate) fn feat(known: &Known, numbered: &[NumberedFeature]) -> Result<Vec<u8>> {
    let mut features = Vec::new(known.alloc);
    for feature in numbered {
        features.push(NamedFeature {
            kind: feature.kind,
            exclusive: feature.exclusive,
            name: feature.name,
            settings: &feature.settings,
        })?;
    }
    Ok(write_named_feat(known.alloc, &features)?)
}
