//! The machines and the pairs of `kerx` and of `kern`.

use crate::fact::Fact;
use crate::faults::{check_left_out, number_in_table};
use crate::finding::{Finding, Place, push_fact};
use crate::glyphs::{Listed, check_listed};
use crate::lines::Order;
use crate::machines::{Machine, check_machine};
use crate::pairs::{add_past, check_class_pairs, check_pairs};
use aat_bytes::tags::{KERN, KERX};
use aat_face::Face;
use aat_findings::Same;
use aat_font::hb_font_t;
use aat_kerning_tables::{KernKind, KernSubtable, KerxFormat, KerxSubtable};
use aat_machine_tables::ExtendedStateTable;
use std::alloc::{AllocError, Global};

/// Adds what is found in a machine that kerns.
fn check_kerning<T: Same>(
    alloc: Global,
    table: &ExtendedStateTable<T>,
    machine: Machine,
    found: &mut Vec<Finding>,
) -> Result<(), AllocError> {
    check_machine(alloc, table, machine, found)?;
    let listed = Listed {
        lookups: &[],
        classes: Some(table.classes()),
        glyph_count: machine.glyph_count,
        shown: None,
    };
    check_listed(alloc, listed, machine.place, found)
}

/// Adds what is found in a subtable of `kerx`.
fn check_extended(
    alloc: Global,
    font: &hb_font_t,
    subtable: &KerxSubtable,
    place: Place,
    glyph_count: u32,
    found: &mut Vec<Finding>,
) -> Result<(), AllocError> {
    let order = Order {
        is_backwards: subtable.is_last_to_first,
        is_vertical: !subtable.horizontal,
    };
    let machine = Machine::of_kerning(place, glyph_count, order);
    match &subtable.format {
        KerxFormat::Format0(pairs) => {
            check_pairs(alloc, font, pairs.pairs(), glyph_count, place, found)
        }
        KerxFormat::Format1(stack) => check_kerning(alloc, &stack.state_table, machine, found),
        KerxFormat::Format4(anchors) => {
            if font.tables().ankr.is_none() {
                push_fact(found, place, Fact::PointsWithoutAnkr)?;
            }
            check_kerning(alloc, &anchors.state_table, machine, found)
        }
        KerxFormat::Format2(pairs) | KerxFormat::Format6(pairs) => {
            add_past(pairs.pairs(), glyph_count, place, found)
        }
        KerxFormat::Format2Classes(pairs) | KerxFormat::Format6Classes(pairs) => {
            check_class_pairs(alloc, pairs, glyph_count, place, found)
        }
    }
}

/// Adds what is found in `kerx`.
pub(crate) fn check_kerx(
    alloc: Global,
    face: &Face<'_>,
    glyph_count: u32,
    found: &mut Vec<Finding>,
) -> Result<(), AllocError> {
    let left_out = face.left_out();
    check_left_out(KERX, left_out, found)?;
    let font = face.font();
    for (number, subtable) in font.kerx_subtables().iter().enumerate() {
        let place = Place {
            subtable: Some(number_in_table(left_out, number)),
            ..Place::of_table(KERX)
        };
        check_extended(alloc, font, subtable, place, glyph_count, found)?;
    }
    Ok(())
}

/// Adds what is found in a subtable of `kern`.
fn check_plain(
    alloc: Global,
    font: &hb_font_t,
    subtable: &KernSubtable,
    place: Place,
    glyph_count: u32,
    found: &mut Vec<Finding>,
) -> Result<(), AllocError> {
    let stack = match &subtable.kind {
        KernKind::Machine(stack) => stack,
        KernKind::Pairs(pairs) => {
            return check_pairs(alloc, font, pairs.pairs(), glyph_count, place, found);
        }
        KernKind::Classes(pairs) => {
            return check_class_pairs(alloc, pairs, glyph_count, place, found);
        }
    };
    let order = Order {
        is_backwards: false,
        is_vertical: !subtable.horizontal,
    };
    let machine = Machine::of_kerning(place, glyph_count, order);
    check_kerning(alloc, &stack.state_table, machine, found)
}

/// Adds what is found in `kern`.
pub(crate) fn check_kern(
    alloc: Global,
    face: &Face<'_>,
    glyph_count: u32,
    found: &mut Vec<Finding>,
) -> Result<(), AllocError> {
    let left_out = face.left_out_of_kern();
    check_left_out(KERN, left_out, found)?;
    let font = face.font();
    for (number, subtable) in font.kern_subtables().iter().enumerate() {
        let place = Place {
            subtable: Some(number_in_table(left_out, number)),
            ..Place::of_table(KERN)
        };
        check_plain(alloc, font, subtable, place, glyph_count, found)?;
    }
    Ok(())
}
