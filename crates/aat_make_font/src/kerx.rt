//! The subtables of `kerx` of a description, and anchor points.

use crate::known::Known;
use crate::machines::machine;
use crate::pairs::class_pairs;
use crate::values::{Told, Word, at, bits, list, members, need, object};
use aat_kerning_tables::{KerxFormat, KerxSubtable, Point, Subtable1, Subtable4};
use anyhow::{Result, bail};
use serde_json::Value;

/// For which text a subtable of kerning is, where it moves glyphs, and in which order it takes them.
pub(crate) const COVERAGE: [Word; 4] = [
    ("horizontal", 0),
    ("vertical", VERTICAL),
    ("cross_stream", CROSS_STREAM),
    ("last_to_first", LAST_TO_FIRST),
];

pub(crate) const VERTICAL: u16 = 1;

pub(crate) const CROSS_STREAM: u16 = 2;

const LAST_TO_FIRST: u16 = 4;

/// The keys of subtables of all formats.
const KEYS: &str =
    "format coverage tuple_count pairs left right right_count rows class_count classes states values points";

impl Told for KerxFormat {
    fn of(known: &mut Known, value: &Value) -> Result<KerxFormat> {
        let members = members(value, KEYS)?;
        match need::<u16>(known, members, "format")? {
            0 => Ok(KerxFormat::Format0(need(known, members, "pairs")?)),
            1 => {
                let values = list(known, members, "values")?;
                let state_table = machine(known, members)?;
                Ok(KerxFormat::Format1(Subtable1 {
                    state_table,
                    values,
                }))
            }
            2 => Ok(KerxFormat::Format2Classes(class_pairs(known, members)?)),
            4 => {
                let anchor_points = list(known, members, "points")?;
                let state_table = machine(known, members)?;
                Ok(KerxFormat::Format4(Subtable4 {
                    state_table,
                    anchor_points,
                }))
            }
            6 => Ok(KerxFormat::Format6Classes(class_pairs(known, members)?)),
            other => bail!("there is no format {other}"),
        }
    }
}

impl Told for KerxSubtable {
    fn of(known: &mut Known, value: &Value) -> Result<KerxSubtable> {
        let members = object(value)?;
        let coverage = bits(members, "coverage", &COVERAGE, 0)?;
        let tuple_count = at(known, members, "tuple_count", 0)?;
        let format = KerxFormat::of(known, value)?;
        Ok(KerxSubtable {
            has_cross_stream: coverage & CROSS_STREAM != 0,
            is_last_to_first: coverage & LAST_TO_FIRST != 0,
            tuple_count,
            ..KerxSubtable::new(format, coverage & VERTICAL == 0)
        })
    }
}

impl Told for Point {
    fn of(known: &mut Known, value: &Value) -> Result<Point> {
        let (x, y) = <(i16, i16)>::of(known, value)?;
        Ok(Point { x, y })
    }
}
