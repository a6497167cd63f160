//! The classes of a machine.

use crate::known::Known;
use crate::values::{Told, items, object};
use anyhow::{Context, Result, bail};
use serde_json::Value;

/// The classes that every machine has.
const EVERY: [(&str, u16); 4] = [("end", 0), ("out", 1), ("deleted", 2), ("line", 3)];

/// The number of a class that every machine has, or that is named by its number.
fn numbered(key: &str) -> Option<u16> {
    match EVERY.iter().find(|class| class.0 == key) {
        Some(class) => Some(class.1),
        None => key.parse().ok(),
    }
}

/// The classes of a machine: the names of its own, which are 4 and above, and the class of each glyph, rising by glyph.
#[derive(Drop)]
pub(crate) struct Classes {
    names: Vec<String>,
    pub(crate) glyphs: Vec<(u16, u16)>,
}

impl Classes {
    /// The number of a class. Own names stand for 4 and above in the order of the alphabet.
    pub(crate) fn number(&self, key: &str) -> Result<u16> {
        if let Some(number) = numbered(key) {
            return Ok(number);
        }
        match self.names.iter().position(|name| name.as_str() == key) {
            Some(place) => Ok(place.min(65531) as u16 + 4),
            None => bail!("there is no class {key}"),
        }
    }

    /// How many classes there are, with those that every machine has.
    pub(crate) fn count(&self) -> u16 {
        self.names.len().min(65531) as u16 + 4
    }

    /// Gives the glyphs of a list a class.
    fn put_all(&mut self, known: &mut Known, class: u16, list: &Value) -> Result<()> {
        for (place, item) in items(list)?.iter().enumerate() {
            let glyph = u16::of(known, item).context(format_args!("[{place}]"))?;
            self.put(glyph, class)?;
        }
        Ok(())
    }

    /// Gives a glyph a class.
    fn put(&mut self, glyph: u16, class: u16) -> Result<()> {
        match self.glyphs.binary_search_by_key(&glyph, |pair| pair.0) {
            Ok(_) => bail!("the glyph {glyph} has a class already"),
            Err(place) => self.glyphs.insert(place, (glyph, class))?,
        }
        Ok(())
    }
}

impl Told for Classes {
    /// The classes, each with the list of its glyphs.
    fn of(known: &mut Known, value: &Value) -> Result<Classes> {
        let mut classes = Classes {
            names: Vec::new(known.alloc),
            glyphs: Vec::new(known.alloc),
        };
        for (key, value) in object(value)? {
            if numbered(key.as_str()).is_none() {
                classes.names.push(key.clone()?)?;
            }
            let class = classes.number(key.as_str())?;
            classes
                .put_all(known, class, value)
                .context(format_args!("{key}"))?;
        }
        Ok(classes)
    }
}
