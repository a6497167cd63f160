//! What a description has told so far.

use crate::values::{Told, object};
use aat_lookup::GlyphId;
use anyhow::{Context, Result, bail};
use serde_json::Value;
use std::alloc::Global;

/// The first number of a name that a font makes up.
const FIRST_NAME: u16 = 256;

/// What a description has told so far, for what comes later.
#[derive(Drop)]
pub(crate) struct Known {
    pub(crate) alloc: Global,
    /// The names of glyphs, in the order of their numbers.
    pub(crate) glyphs: Vec<String>,
    /// Names by their numbers, in UTF-16.
    pub(crate) names: Vec<(u16, Vec<u8>)>,
    next_name: u16,
}

impl Known {
    /// Nothing is known.
    pub(crate) fn new(alloc: Global) -> Known {
        Known {
            alloc,
            glyphs: Vec::new(alloc),
            names: Vec::new(alloc),
            next_name: FIRST_NAME,
        }
    }

    /// The number of the glyph of this name, or the number that a text is.
    pub(crate) fn glyph(&self, text: &str) -> Result<u16> {
        match self.glyphs.iter().position(|name| name.as_str() == text) {
            Some(place) => Ok(place.min(65535) as u16),
            None => text
                .parse()
                .context(format_args!("{text}: there is no such glyph")),
        }
    }

    /// Gives a number a name.
    pub(crate) fn put_name(&mut self, number: u16, text: &str) -> Result<()> {
        let mut bytes = Vec::new(self.alloc);
        for unit in text.encode_utf16() {
            bytes.extend_from_slice(&unit.to_be_bytes())?;
        }
        self.names.push((number, bytes))?;
        Ok(())
    }

    /// Gives the next number a name. Numbers begin at 256.
    pub(crate) fn add_name(&mut self, text: &str) -> Result<u16> {
        let number = self.next_name;
        self.next_name = number.checked_add(1).context("there are too many names")?;
        self.put_name(number, text)?;
        Ok(number)
    }
}

impl Told for GlyphId {
    fn of(known: &mut Known, value: &Value) -> Result<GlyphId> {
        Ok(GlyphId(u16::of(known, value)?))
    }
}

/// What is told of glyphs, strictly rising by glyph.
#[derive(Drop)]
pub(crate) struct ByGlyph<T: Drop>(pub(crate) Vec<(u16, T)>);

impl<T: Told> ByGlyph<T> {
    /// Puts in what a value tells of a glyph.
    fn put(&mut self, known: &mut Known, glyph: u16, value: &Value) -> Result<()> {
        match self.0.binary_search_by_key(&glyph, |row| row.0) {
            Ok(_) => bail!("the glyph is told twice"),
            Err(place) => {
                let told = T::of(known, value)?;
                Ok(self.0.insert(place, (glyph, told))?)
            }
        }
    }
}

impl<T: Told> Told for ByGlyph<T> {
    fn of(known: &mut Known, value: &Value) -> Result<ByGlyph<T>> {
        let mut rows = ByGlyph(Vec::new(known.alloc));
        for (name, value) in object(value)? {
            let glyph = known.glyph(name.as_str())?;
            rows.put(known, glyph, value)
                .context(format_args!("{name}"))?;
        }
        Ok(rows)
    }
}
