//! Features with their names to bytes.
ghost use Rattle.std.specs.Prelude.{◌≡◌, ◌++◌, ◌*◌, ◌≤◌, OnOk, min, sum_by};
ghost use Rattle.std.specs.List.{flat_map};
ghost use Rattle.aat_write_sfnt.specs.NamedFeatures.{all_setting_bytes, feature_record_words, named_feat_written, setting_bytes, setting_count, setting_words};
ghost use Rattle.aat_write_sfnt.specs.Records.{records};
ghost use Rattle.aat_write_machine.specs.Words.{word_bytes};
ghost use Rattle.aat_write_machine.specs.WriteErrors.{Writes};

use aat_lookup::keys::{Keyed, first_fall};
use aat_write_machine::{WriteError, append_words, feature_flags};
use std::alloc::{AllocError, Allocator};
use std::marker::Model;

/// A setting of a feature.
#[derive(Clone, Copy, PartialEq, Eq, Debug)]
pub struct NamedSetting {
    /// The number of the setting.
    pub setting: u16,
    /// The number of its name in the table `name`.
    pub name: u16,
}

/// A feature with its settings. A contract sees it as the record `FeatFeature`.
///
/// Apple's TrueType Reference Manual, "The 'feat' table".
#[derive(Drop)]
pub struct NamedFeature<'a> {
    /// The feature type.
    pub kind: u16,
    /// Whether its settings exclude one another.
    pub exclusive: bool,
    /// The number of its name in the table `name`.
    pub name: u16,
    /// The settings in their order.
    pub settings: &'a [NamedSetting],
}

impl<'a> Model for NamedFeature<'a> {
    ghost use Rattle.aat_write_sfnt.specs.NamedFeatures.{FeatFeature};

    ghost Value = { FeatFeature };

    ghost view = { λ m. record {
      kind = m.kind;
      exclusive = m.exclusive;
      name = m.name;
      settings = m.settings.now;
    } };
}

impl<'a> Keyed for NamedFeature<'a> {
    ghost use Rattle.aat_write_sfnt.specs.NamedFeatures.{type_of};

    ghost key_of = { type_of };

    fn key(&self) -> u32 {
        self.kind as u32
    }
}

/// How many settings features have together, counted up to 65,536.
fn count_settings(features: &[NamedFeature]) -> usize
    ensures { result ≡ min (sum_by setting_count features.now) 65536 }
{
    let mut count = 0;
    for feature in features {
        count = (count + feature.settings.len()).min(65536);
    }
    count
}

/// How many bytes the settings of a feature take.
fn settings_size(feature: &NamedFeature) -> u32
    requires { setting_count feature.now ≤ 65535 }
    ensures { result ≡ 4 * setting_count feature.now }
{
    4 * feature.settings.len() as u32
}

/// Appends the record of a feature whose settings stand at a place.
fn append_record<A: Allocator>(
    out: &mut Vec<u8, A>,
    place: u32,
    feature: &NamedFeature,
) -> Result<(), AllocError>
    requires { setting_count feature.now ≤ 65535 }
    ensures { OnOk result (out.new.items ≡ out.old.items ++ word_bytes (feature_record_words place feature.now)) }
{
    let count = feature.settings.len() as u16;
    let (high, low) = ((place / 65536) as u16, (place % 65536) as u16);
    let flags = feature_flags(feature.exclusive);
    append_words(out, &[feature.kind, count, high, low, flags, feature.name])
}

/// Appends the records of features, the first of which has its settings at a place.
fn append_records<A: Allocator>(
    out: &mut Vec<u8, A>,
    start: u32,
    features: &[NamedFeature],
) -> Result<(), AllocError>
    requires low { start ≤ 1000000 }
    requires few { sum_by setting_count features.now ≤ 65535 }
    ensures { let written = records setting_bytes feature_record_words start features.now in
        OnOk result (out.new.items ≡ out.old.items ++ word_bytes written) }
{
    let mut place = start;
    for feature in features {
        append_record(out, place, feature)?;
        place += settings_size(feature);
    }
    Ok(())
}

/// Appends settings.
fn append_settings<A: Allocator>(
    out: &mut Vec<u8, A>,
    settings: &[NamedSetting],
) -> Result<(), AllocError>
    ensures { OnOk result (out.new.items ≡ out.old.items ++ word_bytes (flat_map setting_words settings.now)) }
{
    for setting in settings {
        append_words(out, &[setting.setting, setting.name])?;
    }
    Ok(())
}

/// Appends the settings of features.
fn append_all_settings<A: Allocator>(
    out: &mut Vec<u8, A>,
    features: &[NamedFeature],
) -> Result<(), AllocError>
    ensures { OnOk result (out.new.items ≡ out.old.items ++ all_setting_bytes features.now) }
{
    for feature in features {
        append_settings(out, feature.settings)?;
    }
    Ok(())
}

/// Writes features with the numbers of their names and those of their settings, which have to rise strictly by type, as
/// a table of version 1.0. The settings stand behind the records in their order. `write_feat` writes features without
/// names.
///
/// Refused in this order: 1, `NotRising`, with the place of the first feature whose type is not above that of the one
/// before it; 2, `TooMany`, more than 65,535 features, or more than 65,535 settings of all features together.
/// `OutOfMemory` comes only where neither holds.
///
/// The reader reads the features again, and finds each name; of settings of one feature that share a number, that of the
/// first. Apple's TrueType Reference Manual, "The 'feat' table".
pub fn write_named_feat<A: Allocator>(
    alloc: A,
    features: &[NamedFeature],
) -> Result<Vec<u8, A>, WriteError>
    ensures { Writes result (named_feat_written features.now) }
{
    if let Some(place) = first_fall(features) {
        return Err(WriteError::NotRising(place));
    }
    if features.len() > 65535 || count_settings(features) > 65535 {
        return Err(WriteError::TooMany);
    }
    let mut out = Vec::new(alloc);
    append_words(&mut out, &[1, 0, features.len() as u16, 0, 0, 0])?;
    append_records(&mut out, 12 + 12 * features.len() as u32, features)?;
    append_all_settings(&mut out, features)?;
    Ok(out)
}
