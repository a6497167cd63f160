//! The kerning table to bytes.
ghost use Rattle.std.specs.Prelude.{◌≡◌, ◌++◌, ◌+◌, ◌<◌, ◌^◌, OnOk};
ghost use Rattle.aat_write_truetype.specs.kern.KernBytes.{bit, coverage_number, format_number, header_bytes, kern_written, kind_written, subtable_written, subtables_written};
ghost use Rattle.aat_write_truetype.specs.kern.KernWriteErrors.{Writes};

use crate::kern::classes::write_classes;
use crate::kern::error::KernWriteError;
use crate::kern::machine::write_machine;
use crate::kern::pairs::write_pairs;
use aat_kerning_tables::{Kern, KernKind, KernSubtable};
use aat_write_machine::{append_longs, append_words};
use std::alloc::{AllocError, Global};

/// The number of a format.
fn format_number(kind: &KernKind) -> u8
    ensures { result ≡ format_number kind.now }
{
    match kind {
        KernKind::Pairs(_) => 0,
        KernKind::Machine(_) => 1,
        KernKind::Classes(_) => 2,
    }
}

/// A bit of a coverage.
fn bit(is_set: bool, number: u8) -> u8
    ensures { result ≡ bit is_set number }
{
    if is_set { number } else { 0 }
}

/// The coverage of a subtable: 0x80 for vertical text, 0x40 across the line.
fn coverage_number(subtable: &KernSubtable) -> u8
    ensures { result ≡ coverage_number subtable.now }
{
    let direction = if subtable.horizontal { 0 } else { 0x80 };
    direction + bit(subtable.has_cross_stream, 0x40)
}

/// Appends the header of a subtable with so many bytes behind it.
fn append_header(out: &mut Vec<u8>, subtable: &KernSubtable, size: usize) -> Result<(), AllocError>
    requires { size < 2 ^ 31 + 2 ^ 16 }
    ensures { OnOk result (out.new.items ≡ out.old.items ++ header_bytes subtable.now size) }
{
    append_longs(out, &[8 + size as u32])?;
    let coverage = coverage_number(subtable);
    let format = format_number(&subtable.kind);
    out.extend_from_slice(&[coverage, format, 0, 0])
}

/// The bytes of how a subtable kerns, by its kind.
fn write_kind(alloc: Global, kind: &KernKind) -> Result<Vec<u8>, KernWriteError>
    ensures { Writes result (kind_written kind.now) }
{
    match kind {
        KernKind::Pairs(pairs) => write_pairs(alloc, pairs.pairs()),
        KernKind::Machine(machine) => write_machine(alloc, machine),
        KernKind::Classes(pairs) => write_classes(alloc, pairs),
    }
}

/// The bytes of a subtable.
fn write_subtable(alloc: Global, subtable: &KernSubtable) -> Result<Vec<u8>, KernWriteError>
    ensures { Writes result (subtable_written subtable.now) }
{
    if subtable.variable {
        return Err(KernWriteError::Variable);
    }
    let body = write_kind(alloc, &subtable.kind)?;
    let mut out = Vec::new(alloc);
    append_header(&mut out, subtable, body.len())?;
    out.extend_from_slice(&body)?;
    Ok(out)
}

/// The bytes of subtables, one behind the other.
fn write_subtables(alloc: Global, subtables: &[KernSubtable]) -> Result<Vec<u8>, KernWriteError>
    ensures { Writes result (subtables_written subtables.now) }
{
    let mut out = Vec::new(alloc);
    for subtable in subtables {
        let bytes = write_subtable(alloc, subtable)?;
        out.extend_from_slice(&bytes)?;
    }
    Ok(out)
}

/// Writes the kerning table with Apple's header, of version 1.0. A subtable of pairs is of format 0, a machine of
/// format 1, and pairs by classes of format 2. The values of a subtable are its last bytes, so that no others are read.
///
/// Refused is the first subtable that is not as it is read, in this order. Any as 9, `Variable`, one of variations,
/// which would be left out. Pairs as 1, `TooManyPairs`, more than 65,535.
///
/// A machine as 2, `ClassCount`, fewer than 4 classes; 3, `RuleCount`, no rules, more than 256, or a last row that is
/// cut; 4, `TooLong`, values that start at an offset of more than 65,535, or more than 16,384 values; 5, `Class`, with
/// the place of the first glyph that does not follow the one before it, or whose class is above 255; 6, `Rule`, with the
/// place of the first rule that is not that of its cell, whose state is above 0 and above each state that a rule before
/// it names, that names a state without a row, whose flags have other bits than the highest two, or whose values start
/// at an offset of 16,384 or more.
///
/// Pairs by classes as 2, `ClassCount`, no right classes or more than 32,767; 4, `TooLong`, an array at an offset of
/// more than 65,535, or more than 1,073,741,823 values; 5, `Class`, with the place of the first left glyph that does not
/// follow the one before it, or whose row starts at an offset of more than 65,535, and then of the first right glyph
/// that does not follow, or whose class is not below the number of right classes; 7, `Value`, with the number of values
/// where they are fewer than two rows, or else with the place of the first value of class 0 that is not 0.
///
/// 8, `OutOfMemory`, may come before any of these is met.
///
/// `read_kern` reads the same subtables again, if there is memory. Apple's TrueType Reference Manual, "The 'kern'
/// table".
pub fn write_kern(alloc: Global, kern: &Kern) -> Result<Vec<u8>, KernWriteError>
    ensures { Writes result (kern_written kern.now) }
{
    let subtables = kern.subtables();
    let bytes = write_subtables(alloc, subtables)?;
    let mut out = Vec::new(alloc);
    append_words(&mut out, &[1, 0])?;
    append_longs(&mut out, &[subtables.len() as u32])?;
    out.extend_from_slice(&bytes)?;
    Ok(out)
}
