//! The chains of a description.

use crate::known::Known;
use crate::values::{Told, Word, at, bits, list, members, need, object};
use aat_machine_tables::{Chain, ChainFeature, Coverage, Subtable, SubtableKind};
use anyhow::Result;
use bitflags::Flags;
use serde_json::Value;

/// For which text a subtable is, and in which order it takes the glyphs.
const COVERAGE: [Word; 5] = [
    ("horizontal", 0),
    ("vertical", 0x80),
    ("backwards", 0x40),
    ("all_directions", ALL_DIRECTIONS),
    ("logical", 0x10),
];

const ALL_DIRECTIONS: u16 = 0x20;

impl Told for ChainFeature {
    /// What a setting does: it sets bits, and clears others before.
    fn of(known: &mut Known, value: &Value) -> Result<ChainFeature> {
        let members = members(value, "type setting enable clear")?;
        let kind = need(known, members, "type")?;
        let setting = need(known, members, "setting")?;
        let enable = at(known, members, "enable", 0)?;
        let clear: u32 = at(known, members, "clear", 0)?;
        Ok(ChainFeature::new(kind, setting, enable, !clear))
    }
}

impl Told for Subtable {
    fn of(known: &mut Known, value: &Value) -> Result<Subtable> {
        let members = object(value)?;
        let coverage = bits(members, "coverage", &COVERAGE, ALL_DIRECTIONS)?;
        let coverage = Coverage::from_bits_retain(coverage.min(255) as u8);
        let flags = at(known, members, "flags", 1)?;
        Ok(Subtable::new(SubtableKind::of(known, value)?, coverage, flags))
    }
}

impl Told for Chain {
    fn of(known: &mut Known, value: &Value) -> Result<Chain> {
        let members = members(value, "default_flags features subtables")?;
        let default_flags = at(known, members, "default_flags", 1)?;
        let features = list(known, members, "features")?;
        Ok(Chain::new(default_flags, features, list(known, members, "subtables")?))
    }
}
