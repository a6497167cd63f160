//! The formats of subtables of the extended kerning table.
ghost use Rattle.std.specs.Prelude.{◌≡◌, ◌+◌, ◌≤◌, length};
ghost use Rattle.aat_bytes.specs.Faults.{fault_at};
ghost use Rattle.aat_bytes.specs.declared.error.FaultKind.TheVariants.{UnknownFormat};
ghost use Rattle.aat_kerning_tables.specs.declared.kerx.KerxFormat.TheVariants.{Format0, Format1, Format2Classes};
ghost use Rattle.aat_read_machine.specs.Within.{GivesWithin};
ghost use Rattle.aat_read_pairs.specs.KerxClasses.{kerx_classes_at};
ghost use Rattle.aat_read_pairs.specs.ListedPairs.{kerx_pairs_at};
ghost use Rattle.aat_read_extended.specs.kerx.Formats.{anchor_format_at, arrays_format_at, as_format, format_at, is_long, long_format_at};
ghost use Rattle.aat_read_extended.specs.kerx.Machines.{stack_tables_at};
ghost use Rattle.aat_read_extended.specs.declared.kerx.formats.FormatRead.TheVariants.{LeftOut};

use crate::kerx::machines::{action_type, read_anchor_tables, read_stack_tables};
use aat_bytes::{Fault, FaultKind, ReadError, be32};
use aat_kerning_tables::KerxFormat;
use aat_read_pairs::{
    KERX, kerx_wide_value, read_kerx_arrays, read_kerx_classes, read_kerx_long_arrays,
    read_kerx_pairs,
};
use std::alloc::Global;

/// What the bytes of a subtable are read as.
#[derive(Drop)]
pub(crate) enum FormatRead {
    /// How it kerns.
    Kerns(KerxFormat),
    /// It is left out, for this reason.
    LeftOut(Fault),
}

/// A subtable that is left out, for what stands at a place.
pub(crate) fn left_out(place: usize) -> FormatRead
    ensures { result ≡ LeftOut (fault_at KERX UnknownFormat place) }
{
    FormatRead::LeftOut(Fault::new(KERX, FaultKind::UnknownFormat, place))
}

/// The pairs of format 0.
fn pairs_format_at(
    alloc: Global,
    bytes: &[u8],
    place: usize,
    tuple_count: u32,
) -> Result<FormatRead, ReadError>
    ensures { GivesWithin result (as_format Format0 (kerx_pairs_at bytes.now place tuple_count)) }
{
    let pairs = read_kerx_pairs(alloc, bytes, place, tuple_count)?;
    Ok(FormatRead::Kerns(KerxFormat::Format0(pairs)))
}

/// The machine of format 1 behind the header of a subtable.
fn stack_format_at(
    alloc: Global,
    bytes: &[u8],
    place: usize,
    glyph_count: u16,
) -> Result<FormatRead, ReadError>
    ensures { GivesWithin result (as_format Format1 (stack_tables_at bytes.now place glyph_count)) }
{
    let tables = read_stack_tables(alloc, bytes, place, glyph_count)?;
    Ok(FormatRead::Kerns(KerxFormat::Format1(tables)))
}

/// The classes of format 2.
fn classes_format_at(
    alloc: Global,
    bytes: &[u8],
    place: usize,
    glyph_count: u16,
    tuple_count: u32,
) -> Result<FormatRead, ReadError>
    ensures { GivesWithin result
        (as_format Format2Classes (kerx_classes_at bytes.now place glyph_count tuple_count)) }
{
    let pairs = read_kerx_classes(alloc, bytes, place, glyph_count, tuple_count)?;
    Ok(FormatRead::Kerns(KerxFormat::Format2Classes(pairs)))
}

/// The machine of format 4 behind the header of a subtable.
#[tactic(auto, unfolding(crate::specs::kerx::Formats::anchor_format_at))]
fn anchor_format_at(
    alloc: Global,
    bytes: &[u8],
    place: usize,
    glyph_count: u16,
) -> Result<FormatRead, ReadError>
    requires { place ≤ length bytes.now }
    ensures { GivesWithin result (anchor_format_at bytes.now place glyph_count) }
{
    if bytes.len() < place + 20 {
        return Err(ReadError::Fault(Fault::new(KERX, FaultKind::PastEnd, place)));
    }
    if action_type(bytes, place) != 1 {
        return Ok(left_out(place + 16));
    }
    let tables = read_anchor_tables(alloc, bytes, place, glyph_count)?;
    Ok(FormatRead::Kerns(KerxFormat::Format4(tables)))
}

/// Whether the values and lookups of a subtable of format 6 have 32 bits.
fn is_long(bytes: &[u8], place: usize) -> bool
    requires { place ≤ length bytes.now }
    ensures { result ≡ is_long bytes.now place }
{
    place + 16 <= bytes.len() && be32(bytes, place + 12) % 2 == 1
}

/// The rows and columns of format 6 with values of 32 bits.
#[tactic(auto, unfolding(crate::specs::kerx::Formats::long_format_at))]
fn long_format_at(
    alloc: Global,
    bytes: &[u8],
    place: usize,
    glyph_count: u16,
    tuple_count: u32,
) -> Result<FormatRead, ReadError>
    ensures { GivesWithin result (long_format_at bytes.now place glyph_count tuple_count) }
{
    if let Some(wide) = kerx_wide_value(bytes, place, tuple_count) {
        return Ok(left_out(wide));
    }
    let long_pairs = read_kerx_long_arrays(alloc, bytes, place, glyph_count, tuple_count)?;
    Ok(FormatRead::Kerns(KerxFormat::Format6Classes(long_pairs)))
}

/// The rows and columns of format 6.
#[tactic(auto, unfolding(crate::specs::kerx::Formats::arrays_format_at))]
fn arrays_format_at(
    alloc: Global,
    bytes: &[u8],
    place: usize,
    glyph_count: u16,
    tuple_count: u32,
) -> Result<FormatRead, ReadError>
    requires { place ≤ length bytes.now }
    ensures { GivesWithin result (arrays_format_at bytes.now place glyph_count tuple_count) }
{
    if is_long(bytes, place) {
        return long_format_at(alloc, bytes, place, glyph_count, tuple_count);
    }
    let pairs = read_kerx_arrays(alloc, bytes, place, glyph_count, tuple_count)?;
    Ok(FormatRead::Kerns(KerxFormat::Format6Classes(pairs)))
}

/// What the subtable of a format does that starts at a place, with tuples of so many values.
#[tactic(auto, unfolding(crate::specs::kerx::Formats::format_at))]
pub(crate) fn format_at(
    alloc: Global,
    bytes: &[u8],
    place: usize,
    format: u8,
    glyph_count: u16,
    tuple_count: u32,
) -> Result<FormatRead, ReadError>
    requires { place + 12 ≤ length bytes.now }
    ensures { GivesWithin result (format_at bytes.now place format glyph_count tuple_count) }
{
    match format {
        0 => pairs_format_at(alloc, bytes, place, tuple_count),
        1 => stack_format_at(alloc, bytes, place + 12, glyph_count),
        2 => classes_format_at(alloc, bytes, place, glyph_count, tuple_count),
        4 => anchor_format_at(alloc, bytes, place + 12, glyph_count),
        6 => arrays_format_at(alloc, bytes, place, glyph_count, tuple_count),
        _ => Ok(left_out(place + 4)),
    }
}
