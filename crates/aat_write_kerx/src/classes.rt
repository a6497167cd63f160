//! Pairs by classes to bytes.
ghost use Rattle.std.specs.Prelude.{◌≡◌, ◌*◌, ◌++◌, ◌<◌, ◌^◌, length, map, IfOk, OnOk, None};
ghost use Rattle.aat_write_machine.specs.Lookups.{lookup_written};
ghost use Rattle.aat_write_kerx.specs.KerxWriteErrors.{Writes, of_pairs};
ghost use Rattle.aat_write_kerx.specs.PairBytes.{arrays_header, arrays_written, classes_header, classes_written, first_far, grid_bytes, left_written, row_count, with_offset};

use crate::subtable_error::SubtableWriteError;
use crate::values::append_values;
use aat_kerning_tables::ClassPairs;
use aat_lookup::Lookup;
use aat_write_machine::{append_longs, append_words, write_lookup};
use std::alloc::{AllocError, Global};

/// The bytes of pairs as a lookup.
fn pairs_lookup(alloc: Global, pairs: &[(u16, u16)]) -> Result<Vec<u8>, SubtableWriteError>
    ensures writes { Writes result (of_pairs (lookup_written pairs.now)) }
    ensures short { IfOk result (λ bytes. length bytes.items < 2 ^ 20) }
{
    let bytes = write_lookup(alloc, pairs)?;
    Ok(bytes)
}

/// The bytes of a lookup.
fn lookup_bytes(alloc: Global, lookup: &Lookup) -> Result<Vec<u8>, SubtableWriteError>
    ensures writes { Writes result (of_pairs (lookup_written lookup.now)) }
    ensures short { IfOk result (λ bytes. length bytes.items < 2 ^ 20) }
{
    let pairs = lookup.to_pairs(alloc)?;
    pairs_lookup(alloc, &pairs)
}

/// The place of the first class whose row, of so many values, has no offset of 16 bits.
fn first_far(width: u16, pairs: &[(u16, u16)]) -> Option<usize>
    ensures { result ≡ first_far width pairs.now }
{
    pairs
        .iter()
        .position(|pair| pair.1 as u32 * width as u32 > 65535)
}

/// Each glyph with the offset of the row of its class.
fn with_offsets(
    alloc: Global,
    width: u16,
    pairs: &[(u16, u16)],
) -> Result<Vec<(u16, u16)>, AllocError>
    requires { first_far width pairs.now ≡ None }
    ensures { IfOk result (λ rows. rows.items ≡ map (with_offset width) pairs.now) }
{
    let mut rows = Vec::new(alloc);
    for pair in pairs {
        rows.push((pair.0, pair.1 * width))?;
    }
    Ok(rows)
}

/// The bytes of the classes of left glyphs.
fn left_lookup(alloc: Global, table: &ClassPairs) -> Result<Vec<u8>, SubtableWriteError>
    ensures writes { Writes result (left_written table.now) }
    ensures short { IfOk result (λ bytes. length bytes.items < 2 ^ 20) }
{
    let width = table.right_count();
    if width == 0 {
        return Err(SubtableWriteError::NoColumns);
    }
    let pairs = table.left().to_pairs(alloc)?;
    if let Some(place) = first_far(width, &pairs) {
        return Err(SubtableWriteError::TooFar(place));
    }
    let rows = with_offsets(alloc, width, &pairs)?;
    pairs_lookup(alloc, &rows)
}

/// Appends the header of format 2.
fn append_classes_header(
    out: &mut Vec<u8>,
    left: &[u8],
    right: &[u8],
    table: &ClassPairs,
) -> Result<(), AllocError>
    requires left { length left.now < 2 ^ 20 }
    requires right { length right.now < 2 ^ 20 }
    ensures { OnOk result (out.new.items ≡ out.old.items ++ classes_header left.now right.now table.now) }
{
    let columns = 28 + left.len() as u32;
    let array = columns + right.len() as u32;
    append_longs(out, &[2 * table.right_count() as u32, 28, columns, array])
}

/// The number of rows, as far as 16 bits can say.
fn row_count(table: &ClassPairs) -> u16
    requires { 0 < table.now.right_count }
    ensures { result ≡ row_count table.now }
{
    (table.values().len() / table.right_count() as usize).min(65535) as u16
}

/// Appends the header of format 6.
fn append_arrays_header(
    out: &mut Vec<u8>,
    left: &[u8],
    right: &[u8],
    table: &ClassPairs,
) -> Result<(), AllocError>
    requires left { length left.now < 2 ^ 20 }
    requires right { length right.now < 2 ^ 20 }
    requires columns { 0 < table.now.right_count }
    ensures { OnOk result (out.new.items ≡ out.old.items ++ arrays_header left.now right.now table.now) }
{
    let columns = 36 + left.len() as u32;
    let array = columns + right.len() as u32;
    append_longs(out, &[0])?;
    append_words(out, &[row_count(table), table.right_count()])?;
    append_longs(out, &[36, columns, array])?;
    append_longs(out, &[0])
}

/// Appends the lookups and the values behind a header.
fn append_grid(
    out: &mut Vec<u8>,
    left: &[u8],
    right: &[u8],
    table: &ClassPairs,
) -> Result<(), AllocError>
    ensures { OnOk result (out.new.items ≡ grid_bytes out.old.items left.now right.now table.now.values) }
{
    out.extend_from_slice(left)?;
    out.extend_from_slice(right)?;
    append_values(out, table.values())
}

/// Writes a subtable of format 2 behind its header of 12 bytes: the lookup of left glyphs, that of right glyphs, and
/// the values.
///
/// Refused in this order: 4, `NoColumns`; 5, `TooFar`, with the place of the first left glyph whose row has no offset
/// of 16 bits; 3, `Pairs`, for the lookup of left glyphs, then for that of right glyphs. 8, `OutOfMemory`, may come
/// before any of these is met.
pub(crate) fn write_classes(
    alloc: Global,
    table: &ClassPairs,
) -> Result<Vec<u8>, SubtableWriteError>
    ensures { Writes result (classes_written table.now) }
{
    let left = left_lookup(alloc, table)?;
    let right = lookup_bytes(alloc, table.right())?;
    let mut out = Vec::new(alloc);
    append_classes_header(&mut out, &left, &right, table)?;
    append_grid(&mut out, &left, &right, table)?;
    Ok(out)
}

/// Writes a subtable of format 6, with values of 16 bits, behind its header of 12 bytes, as `write_classes` does, with
/// the same errors.
pub(crate) fn write_arrays(alloc: Global, table: &ClassPairs) -> Result<Vec<u8>, SubtableWriteError>
    ensures { Writes result (arrays_written table.now) }
{
    let left = left_lookup(alloc, table)?;
    let right = lookup_bytes(alloc, table.right())?;
    let mut out = Vec::new(alloc);
    append_arrays_header(&mut out, &left, &right, table)?;
    append_grid(&mut out, &left, &right, table)?;
    Ok(out)
}
