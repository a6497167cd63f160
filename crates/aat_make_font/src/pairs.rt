//! Kerning by pairs, listed or by classes.

use crate::known::{ByGlyph, Known};
use crate::values::{Members, Told, at, items, need, object};
use aat_kerning_tables::{ClassPairs, Pairs};
use anyhow::{Context, Result, bail};
use serde_json::Value;

/// The two glyphs of a key, parted by a space.
fn two_glyphs(known: &Known, key: &str) -> Result<(u16, u16)> {
    match key.split_once(' ') {
        Some((left, right)) => Ok((known.glyph(left)?, known.glyph(right)?)),
        None => bail!("two glyphs, parted by a space, are wanted"),
    }
}

impl Told for Pairs {
    /// Pairs of glyphs, each with its value.
    fn of(known: &mut Known, value: &Value) -> Result<Pairs> {
        let mut pairs = Vec::new(known.alloc);
        for (key, value) in object(value)? {
            let (left, right) = two_glyphs(known, key.as_str()).context(format_args!("{key}"))?;
            let value = i16::of(known, value).context(format_args!("{key}"))?;
            pairs.push((left, right, value))?;
        }
        pairs.sort()?;
        Ok(Pairs::new(known.alloc, &pairs)?)
    }
}

/// Rows of values, one behind the other.
#[derive(Drop)]
struct Rows {
    /// The length of the longest one.
    width: u16,
    values: Vec<i16>,
}

impl Told for Rows {
    fn of(known: &mut Known, value: &Value) -> Result<Rows> {
        let mut rows = Rows {
            width: 0,
            values: Vec::new(known.alloc),
        };
        for item in items(value)? {
            let row = Vec::<i16>::of(known, item)?;
            rows.width = rows.width.max(row.len().min(65535) as u16);
            rows.values.extend_from_slice(&row)?;
        }
        Ok(rows)
    }
}

/// The pairs by classes of an object with the classes of left and of right glyphs and rows of values.
pub(crate) fn class_pairs(known: &mut Known, members: &Members) -> Result<ClassPairs> {
    let nothing = Rows {
        width: 0,
        values: Vec::new(known.alloc),
    };
    let rows = at(known, members, "rows", nothing)?;
    let count = at(known, members, "right_count", rows.width)?;
    let left: ByGlyph<u16> = need(known, members, "left")?;
    let right: ByGlyph<u16> = need(known, members, "right")?;
    Ok(ClassPairs::new(known.alloc, &left.0, &right.0, count, &rows.values)?)
}
