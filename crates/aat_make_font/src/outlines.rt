//! The outlines of a description.

use crate::known::Known;
use crate::values::{Members, Told, items, maybe};
use aat_read_outlines::{Outline, OutlinePoint};
use aat_write_truetype::write_outlines;
use anyhow::{Context, Result, bail};
use serde_json::Value;
use std::slice;

impl Told for OutlinePoint {
    /// Two coordinates, and 0 behind them where the contour does not go through the point.
    fn of(known: &mut Known, value: &Value) -> Result<OutlinePoint> {
        let (x, y, on) = match items(value)? {
            [x, y] => (x, y, 1),
            [x, y, on] => (x, y, u16::of(known, on)?),
            _ => bail!("a list of two or three numbers is wanted"),
        };
        Ok(OutlinePoint {
            x: i32::from(i16::of(known, x)?),
            y: i32::from(i16::of(known, y)?),
            is_on_curve: on != 0,
        })
    }
}

impl Told for Outline {
    /// The contours, each a list of points.
    fn of(known: &mut Known, value: &Value) -> Result<Outline> {
        let mut points = Vec::new(known.alloc);
        let mut ends = Vec::new(known.alloc);
        for contour in Vec::<Vec<OutlinePoint>>::of(known, value)? {
            points.extend_from_slice(&contour)?;
            ends.push(points.len().min(65537) as u32)?;
        }
        Outline::new(points, ends).context("a contour has no point, or there are over 65536")
    }
}

/// Bytes, told as numbers of 16 bits, with or without a sign.
#[derive(Drop)]
pub(crate) struct Raw(pub(crate) Vec<u8>);

impl Told for Raw {
    fn of(known: &mut Known, value: &Value) -> Result<Raw> {
        let mut bytes = Vec::new(known.alloc);
        for item in items(value)? {
            let number = item
                .as_i64()
                .context("a number is wanted")?
                .rem_euclid(65536);
            bytes.extend_from_slice(&(number as u16).to_be_bytes())?;
        }
        Ok(Raw(bytes))
    }
}

/// The data of a glyph in `glyf`: its outline, or what is told as numbers.
pub(crate) fn glyph_data(known: &mut Known, members: &Members) -> Result<Option<Vec<u8>>> {
    if let Some(raw) = maybe::<Raw>(known, members, "data")? {
        return Ok(Some(raw.0));
    }
    let Some(outline) = maybe::<Outline>(known, members, "outline")? else {
        return Ok(None);
    };
    let written = write_outlines(known.alloc, slice::from_ref(&outline))?;
    Ok(Some(Vec::from_slice(known.alloc, written.glyf())?))
}
