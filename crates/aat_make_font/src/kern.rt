//! The subtables of `kern` of a description.

use crate::kerx::{COVERAGE, CROSS_STREAM, VERTICAL};
use crate::known::Known;
use crate::machines::machine;
use crate::pairs::class_pairs;
use crate::values::{Told, bits, list, members, need, object, word};
use aat_kerning_tables::{KernKind, KernMachine, KernSubtable};
use anyhow::{Result, bail};
use serde_json::Value;

/// The keys of subtables of all kinds.
const KEYS: &str =
    "kind coverage pairs left right right_count rows class_count classes states values";

impl Told for KernKind {
    fn of(known: &mut Known, value: &Value) -> Result<KernKind> {
        let members = members(value, KEYS)?;
        match word(members, "kind")? {
            "pairs" => Ok(KernKind::Pairs(need(known, members, "pairs")?)),
            "classes" => Ok(KernKind::Classes(class_pairs(known, members)?)),
            "machine" => {
                let values = list(known, members, "values")?;
                let state_table = machine(known, members)?;
                Ok(KernKind::Machine(KernMachine {
                    state_table,
                    values,
                }))
            }
            kind => bail!("{kind}: there is no such kind"),
        }
    }
}

impl Told for KernSubtable {
    fn of(known: &mut Known, value: &Value) -> Result<KernSubtable> {
        let coverage = bits(object(value)?, "coverage", &COVERAGE, 0)?;
        let kind = KernKind::of(known, value)?;
        Ok(KernSubtable {
            has_cross_stream: coverage & CROSS_STREAM != 0,
            ..KernSubtable::new(kind, coverage & VERTICAL == 0)
        })
    }
}
