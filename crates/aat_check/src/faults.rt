//! Tables that are not read, and subtables that are left out.

use crate::fact::Fact;
use crate::finding::{Finding, Place, push_fact};
use aat_bytes::tags::{GDEF, GPOS, KERN, MORX};
use aat_bytes::{Fault, FaultKind, Tag, tag_at, u16_at};
use aat_face::Face;
use aat_read_charstrings::CharStrings;
use aat_read_outlines::Outlines;
use aat_read_pairs::LeftOutSubtable;
use aat_read_sfnt::FontFile;
use std::alloc::AllocError;

/// Adds the faults of tables.
pub(crate) fn check_faults(face: &Face<'_>, found: &mut Vec<Finding>) -> Result<(), AllocError> {
    for fault in face.faults() {
        let fact = if fault.table == GDEF {
            Fact::ClassesFault(*fault)
        } else {
            Fact::TableFault(*fault)
        };
        push_fact(found, Place::of_table(fault.table), fact)?;
    }
    Ok(())
}

/// Adds the faults of the tables of outlines, which no face reads, unless the face has told them. What is wrong in a
/// single outline is not told.
pub(crate) fn check_outline_tables(
    file: &FontFile<'_>,
    face: &Face<'_>,
    found: &mut Vec<Finding>,
) -> Result<(), AllocError> {
    let faults: [Option<Fault>; 2] = [
        Outlines::of_file(file).err(),
        CharStrings::of_file(file).err(),
    ];
    for fault in faults.iter().flatten() {
        if !face.faults().contains(fault) {
            push_fact(
                found,
                Place::of_table(fault.table),
                Fact::TableFault(*fault),
            )?;
        }
    }
    Ok(())
}

/// The table of substitution of OpenType.
const GSUB: Tag = Tag(0x4753_5542);

/// The older table of chains, with 8 bits for each class.
const MORT: Tag = Tag(0x6D6F_7274);

/// Adds that chains of `mort` are not read, where there is no `morx`.
pub(crate) fn check_mort(file: &FontFile<'_>, found: &mut Vec<Finding>) -> Result<(), AllocError> {
    let is_missing = file
        .table(MORX)
        .is_err_and(|fault| fault.kind == FaultKind::Missing);
    if is_missing && file.table(MORT).is_ok() {
        push_fact(found, Place::of_table(MORT), Fact::MortAlone)?;
    }
    Ok(())
}

/// Adds the subtables of a table that are left out.
pub(crate) fn check_left_out(
    table: Tag,
    left_out: &[LeftOutSubtable],
    found: &mut Vec<Finding>,
) -> Result<(), AllocError> {
    for subtable in left_out {
        let place = Place {
            subtable: Some(subtable.number as usize),
            ..Place::of_table(table)
        };
        push_fact(found, place, Fact::LeftOut(subtable.fault))?;
    }
    Ok(())
}

/// The number in its table of a subtable that has a place among those that are not left out.
pub(crate) fn number_in_table(left_out: &[LeftOutSubtable], place: usize) -> usize {
    let mut number = place;
    for subtable in left_out {
        if subtable.number as usize <= number {
            number = number.saturating_add(1);
        }
    }
    number
}

/// How many bytes stand for a feature in the list of features of `GPOS`.
const FEATURE: usize = 6;

/// Whether the features of `GPOS` have that of kerning. OpenType, "GPOS" and "OpenType Layout Common Table Formats".
fn kerns_by_features(bytes: &[u8]) -> bool {
    let Some(list) = u16_at(bytes, 6).map(usize::from) else {
        return false;
    };
    let count = u16_at(bytes, list).map_or(0, usize::from);
    (0..count).any(|number| {
        let place = list
            .saturating_add(2)
            .saturating_add(number.saturating_mul(FEATURE));
        tag_at(bytes, place) == Some(KERN)
    })
}

/// What HarfBuzz takes the feature of kerning of `GPOS` for: `kerx` where the font has `GSUB` and no `morx`, else `kern`
/// alone.
fn beside_gpos(file: &FontFile<'_>, face: &Face<'_>) -> Option<Fact> {
    let tables = face.font().tables();
    if tables.kerx.is_some() {
        let is_substituted = file.table(GSUB).is_ok() && tables.morx.is_none();
        return is_substituted.then_some(Fact::KerxBesideGpos);
    }
    tables.kern.is_some().then_some(Fact::KernBesideGpos)
}

/// Adds that the feature of kerning of `GPOS` takes the place of `kern`, or of `kerx`, where it does.
pub(crate) fn check_beside_gpos(
    file: &FontFile<'_>,
    face: &Face<'_>,
    found: &mut Vec<Finding>,
) -> Result<(), AllocError> {
    let has_feature = match file.table(GPOS) {
        Ok(bytes) => kerns_by_features(bytes),
        Err(_) => false,
    };
    match beside_gpos(file, face) {
        Some(fact) if has_feature => push_fact(found, Place::of_table(GPOS), fact),
        _ => Ok(()),
    }
}
