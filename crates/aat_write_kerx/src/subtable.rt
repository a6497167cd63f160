//! Subtables of the extended kerning table with the bytes of their formats.
ghost use Rattle.std.specs.Prelude.{◌≡◌, ◌<◌, ◌^◌, MatchResult, Ok};
ghost use Rattle.aat_write_kerx.specs.KerxBytes.{coverage_number, flag, format_number, format_written, subtable_content};
ghost use Rattle.aat_write_kerx.specs.KerxWriteErrors.{RefusesWithin, Writes};

use crate::classes::{write_arrays, write_classes};
use crate::machines::{write_anchors, write_stack};
use crate::pairs::write_pairs;
use crate::subtable_error::SubtableWriteError;
use aat_kerning_tables::{KerxFormat, KerxSubtable};
use std::alloc::Global;
use std::marker::Model;

/// A subtable whose body is bytes. A contract sees it as the record `SubtableContent`.
#[derive(Drop)]
pub(crate) struct SubtableBytes {
    /// The coverage, with the format in its lowest byte.
    pub(crate) coverage: u32,
    /// How many values stand together.
    pub(crate) tuple_count: u32,
    /// What stands behind the header of 12 bytes.
    pub(crate) body: Vec<u8>,
}

impl Model for SubtableBytes {
    ghost use Rattle.aat_write_kerx.specs.KerxBytes.{SubtableContent};

    ghost Value = { SubtableContent };

    ghost view = { λ s. record { coverage = s.coverage; tuple_count = s.tuple_count; body = s.body.items } };
}

/// The number of a format.
fn format_number(format: &KerxFormat) -> u8
    ensures { result ≡ format_number format.now }
{
    match format {
        KerxFormat::Format0(_) => 0,
        KerxFormat::Format1(_) => 1,
        KerxFormat::Format2(_) | KerxFormat::Format2Classes(_) => 2,
        KerxFormat::Format4(_) => 4,
        KerxFormat::Format6(_) | KerxFormat::Format6Classes(_) => 6,
    }
}

/// A number where something holds, and else 0.
fn flag(number: u32, holds: bool) -> u32
    ensures { result ≡ flag number holds }
{
    if holds { number } else { 0 }
}

/// The coverage of a subtable.
fn coverage_number(subtable: &KerxSubtable) -> u32
    ensures { result ≡ coverage_number subtable.now }
{
    flag(0x8000_0000, !subtable.horizontal)
        + flag(0x4000_0000, subtable.has_cross_stream)
        + flag(0x1000_0000, subtable.is_last_to_first)
        + format_number(&subtable.format) as u32
}

/// The bytes of a format behind the header of a subtable with tuples of so many values.
fn write_format(
    alloc: Global,
    tuple_count: u32,
    format: &KerxFormat,
) -> Result<Vec<u8>, SubtableWriteError>
    ensures { Writes result (format_written tuple_count format.now) }
{
    match format {
        KerxFormat::Format1(table) => write_stack(alloc, table),
        KerxFormat::Format4(table) => write_anchors(alloc, table),
        KerxFormat::Format2(_) | KerxFormat::Format6(_) => Err(SubtableWriteError::Listed),
        _ if tuple_count > 0 => Err(SubtableWriteError::HasTuples),
        KerxFormat::Format0(pairs) => write_pairs(alloc, pairs),
        KerxFormat::Format2Classes(table) => write_classes(alloc, table),
        KerxFormat::Format6Classes(table) => write_arrays(alloc, table),
    }
}

/// A subtable with the bytes of its format.
pub(crate) fn subtable_content(
    alloc: Global,
    subtable: &KerxSubtable,
) -> Result<SubtableBytes, SubtableWriteError>
    ensures { let written = subtable_content subtable.now in
        MatchResult result (λ s. written ≡ Ok s) (RefusesWithin written) }
{
    if subtable.variable {
        return Err(SubtableWriteError::Variable);
    }
    let body = write_format(alloc, subtable.tuple_count, &subtable.format)?;
    Ok(SubtableBytes {
        coverage: coverage_number(subtable),
        tuple_count: subtable.tuple_count,
        body,
    })
}
