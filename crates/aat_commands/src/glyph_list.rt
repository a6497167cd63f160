//! A line of glyphs, and a text of characters, by lists of their numbers.

use aat_typesetter::TextGlyph;
use anyhow::{Context as _, Result, anyhow};
use std::alloc::Global;

/// The glyph of a number, at a place of a line of glyphs.
fn glyph_at(place: usize, number: &str) -> Result<TextGlyph> {
    let glyph = number.parse::<u16>()?;
    Ok(TextGlyph::new(glyph, u32::try_from(place)?))
}

/// The glyphs of a list of numbers, which spaces part. The cluster of each is its place.
pub(crate) fn glyphs_of(alloc: Global, list: &str) -> Result<Vec<TextGlyph>> {
    let mut glyphs = Vec::new(alloc);
    for (place, number) in list.split_whitespace().enumerate() {
        let glyph = glyph_at(place, number).with_context(|| anyhow!("glyph \"{number}\""))?;
        glyphs.push(glyph)?;
    }
    Ok(glyphs)
}

/// The character of a hexadecimal number, before which `U+` may stand.
fn character_of(number: &str) -> Result<char> {
    let digits = number.strip_prefix("U+").unwrap_or(number);
    let code = u32::from_str_radix(digits, 16)?;
    char::from_u32(code).context("no character has this number")
}

/// The text of the characters of a list of numbers, which commas or spaces part.
pub(crate) fn characters_of(alloc: Global, list: &str) -> Result<String> {
    let mut text = String::new(alloc);
    for number in list.split([',', ' ']).filter(|number| !number.is_empty()) {
        let character = character_of(number).with_context(|| anyhow!("character \"{number}\""))?;
        text.push(character)?;
    }
    Ok(text)
}
