//! The extended kerning table to bytes.
ghost use Rattle.std.specs.Prelude.{◌≡◌, ◌++◌, ◌<◌, ◌≤◌, ◌^◌, length, min, sum_by, MatchResult, Ok, OnOk};
ghost use Rattle.std.specs.List.{flat_map};
ghost use Rattle.aat_write_kerx.specs.KerxBytes.{contents_from, kerx_written, subtable_bytes, subtable_size, table_size, table_written};
ghost use Rattle.aat_write_kerx.specs.KerxWriteErrors.{TableRefusesWithin, WritesTable};

use crate::kerx_error::{KerxWriteError, error_of_subtable};
use crate::subtable::{SubtableBytes, subtable_content};
use aat_kerning_tables::{Kerx, KerxSubtable};
use aat_write_machine::{append_longs, append_words};
use std::alloc::{AllocError, Global};

/// The least number that a length cannot say.
const LIMIT: u64 = 0x1_0000_0000;

/// Subtables with the bytes of their formats.
fn subtable_contents(
    alloc: Global,
    subtables: &[KerxSubtable],
) -> Result<Vec<SubtableBytes>, KerxWriteError>
    ensures written { let written = contents_from 0 subtables.now in
        MatchResult result (λ contents. written ≡ Ok contents.items) (TableRefusesWithin written) }
{
    let mut contents = Vec::new(alloc);
    for (number, subtable) in subtables.iter().enumerate() {
        match subtable_content(alloc, subtable) {
            Ok(content) => contents.push(content)?,
            Err(error) => return Err(error_of_subtable(number, error)),
        }
    }
    Ok(contents)
}

/// The bytes of a table, counted up to 2 ^ 32, which is more than a length can say.
fn table_size(subtables: &[SubtableBytes]) -> u64
    ensures { result ≡ min (table_size subtables.now) (2 ^ 32) }
{
    let mut size = 8;
    for subtable in subtables {
        size = (size + 12 + subtable.body.len() as u64).min(LIMIT);
    }
    size
}

/// Appends a subtable.
fn append_subtable(out: &mut Vec<u8>, subtable: &SubtableBytes) -> Result<(), AllocError>
    requires { subtable_size subtable.now < 2 ^ 32 }
    ensures { OnOk result (out.new.items ≡ out.old.items ++ subtable_bytes subtable.now) }
{
    let size = 12 + subtable.body.len() as u32;
    append_longs(out, &[size, subtable.coverage, subtable.tuple_count])?;
    out.extend_from_slice(&subtable.body)
}

/// Appends subtables.
fn append_subtables(out: &mut Vec<u8>, subtables: &[SubtableBytes]) -> Result<(), AllocError>
    requires { sum_by subtable_size subtables.now < 2 ^ 32 }
    ensures { OnOk result (out.new.items ≡ out.old.items ++ flat_map subtable_bytes subtables.now) }
{
    for subtable in subtables {
        append_subtable(out, subtable)?;
    }
    Ok(())
}

/// The bytes of a table of subtables.
fn write_table(alloc: Global, subtables: &[SubtableBytes]) -> Result<Vec<u8>, KerxWriteError>
    ensures { WritesTable result (table_written subtables.now) }
{
    if table_size(subtables) >= LIMIT {
        return Err(KerxWriteError::TooLong);
    }
    let mut out = Vec::new(alloc);
    append_words(&mut out, &[2, 0])?;
    append_longs(&mut out, &[subtables.len() as u32])?;
    append_subtables(&mut out, subtables)?;
    Ok(out)
}

/// Writes the extended kerning table as one of version 2. Format 0 has its pairs, format 1 a machine and then its
/// values, formats 2 and 6 two lookups of format 6 and then the values, in 16 bits, and format 4 a machine and then its
/// pairs of anchor points.
///
/// Refused in this order: 1, `Subtable`, with the number of the first subtable that is not written, and its error; 2,
/// `TooLong`, a table of more than 4,294,967,295 bytes. 3, `OutOfMemory`, may come before any of these is met.
///
/// A subtable is refused in this order: 9, `Variable`, one of variations, which would be left out; 1, `Listed`, of
/// format 2 or 6 by listed pairs; 2, `HasTuples`, a tuple count above 0 in format 0, 2 or 6; then by its format. Format
/// 0: 3, `Pairs`, with the error of its pairs. Formats 2 and 6: 4, `NoColumns`; 5, `TooFar`, with the place of the first
/// left glyph whose row has no offset of 16 bits; 3, `Pairs`, for the lookup of left glyphs, then for that of right
/// glyphs. Format 1: 6, `NoIndex`, with the place of the first rule whose value has no index of 16 bits. Formats 1 and
/// 4: 7, `Machine`, with the error of the machine, as by `write_machine`.
///
/// `read_kerx` reads the same subtables again, with none left out, if there is memory. Apple's TrueType Reference
/// Manual, "The 'kerx' table".
pub fn write_kerx(alloc: Global, kerx: &Kerx) -> Result<Vec<u8>, KerxWriteError>
    ensures { WritesTable result (kerx_written kerx.now) }
{
    let contents = subtable_contents(alloc, kerx.subtables())?;
    write_table(alloc, &contents)
}
