//! The glyphs of a description.

use crate::known::Known;
use crate::outlines::glyph_data;
use crate::values::{Told, Word, at, bits, members};
use anyhow::Result;
use serde_json::Value;
use std::alloc::Global;

/// The classes of glyphs in `GDEF`.
const CLASSES: [Word; 4] = [("base", 1), ("ligature", 2), ("mark", 3), ("component", 4)];

/// A glyph.
#[derive(Drop)]
pub(crate) struct Glyph {
    pub(crate) name: String,
    pub(crate) advance: u16,
    pub(crate) bearing: i16,
    pub(crate) class: u16,
    /// Its data in `glyf`, if it is drawn.
    pub(crate) data: Option<Vec<u8>>,
    /// How many glyphs in turn are like it.
    count: u16,
}

impl Told for Glyph {
    /// A glyph, or the name of one that is 500 units wide. With a count it is so many glyphs.
    fn of(known: &mut Known, value: &Value) -> Result<Glyph> {
        if value.is_string() {
            return Ok(Glyph {
                name: String::of(known, value)?,
                advance: 500,
                bearing: 0,
                class: 0,
                data: None,
                count: 1,
            });
        }
        let members = members(value, "name advance bearing class outline data count")?;
        Ok(Glyph {
            name: at(known, members, "name", String::new(known.alloc))?,
            advance: at(known, members, "advance", 500)?,
            bearing: at(known, members, "bearing", 0)?,
            class: bits(members, "class", &CLASSES, 0)?,
            data: glyph_data(known, members)?,
            count: at(known, members, "count", 1)?,
        })
    }
}

impl Glyph {
    /// Another glyph that is like it, without a name.
    fn nameless(&self, alloc: Global) -> Result<Glyph> {
        let data = match &self.data {
            Some(data) => Some(Vec::from_slice(alloc, data)?),
            None => None,
        };
        Ok(Glyph {
            name: String::new(alloc),
            advance: self.advance,
            bearing: self.bearing,
            class: self.class,
            data,
            count: 1,
        })
    }

    /// Appends the glyphs that it stands for, of which the last has its name.
    fn append_to(self, alloc: Global, glyphs: &mut Vec<Glyph>) -> Result<()> {
        for _copy in 1..self.count {
            glyphs.push(self.nameless(alloc)?)?;
        }
        if self.count > 0 {
            glyphs.push(self)?;
        }
        Ok(())
    }
}

/// The glyphs that those of a description stand for.
pub(crate) fn counted(alloc: Global, told: Vec<Glyph>) -> Result<Vec<Glyph>> {
    let mut glyphs = Vec::new(alloc);
    for glyph in told {
        glyph.append_to(alloc, &mut glyphs)?;
    }
    Ok(glyphs)
}
