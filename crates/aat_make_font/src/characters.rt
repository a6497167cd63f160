//! The characters of a description.

use crate::known::Known;
use crate::values::{Told, object};
use aat_write_sfnt::Mapping;
use anyhow::{Context, Result, bail};
use serde_json::Value;

/// Characters and their glyphs, strictly rising.
#[derive(Drop)]
pub(crate) struct Characters(pub(crate) Vec<Mapping>);

/// The character of a number in hexadecimal behind `U+`.
fn numbered(key: &str) -> Option<char> {
    let digits = key.strip_prefix("U+")?;
    char::from_u32(u32::from_str_radix(digits, 16).ok()?)
}

/// The character that a key is, or whose number it has.
fn character(key: &str) -> Result<char> {
    let mut characters = key.chars();
    match (characters.next(), characters.next()) {
        (Some(only), None) => Ok(only),
        _ => numbered(key).context("one character, or U+ and its number, is wanted"),
    }
}

impl Told for Characters {
    fn of(known: &mut Known, value: &Value) -> Result<Characters> {
        let mut mappings: Vec<Mapping> = Vec::new(known.alloc);
        for (key, value) in object(value)? {
            let character = character(key.as_str()).context(format_args!("{key}"))?;
            let glyph = u16::of(known, value).context(format_args!("{key}"))?;
            match mappings.binary_search_by_key(&character, |mapping| mapping.character) {
                Ok(_) => bail!("{key}: the character is told twice"),
                Err(place) => mappings.insert(place, Mapping { character, glyph })?,
            }
        }
        Ok(Characters(mappings))
    }
}
