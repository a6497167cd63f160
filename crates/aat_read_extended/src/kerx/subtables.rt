//! The subtables of the extended kerning table.
ghost use Rattle.std.specs.Prelude.{◌≡◌, ◌+◌, ◌≤◌, length, IfOk};
ghost use Rattle.aat_read_machine.specs.Within.{GivesAs, GivesWithin};
ghost use Rattle.aat_read_extended.specs.kerx.KerxSubtables.{KerxStart, end_at, format_of, format_up_to, has_coverage, read_and_next, subtable_at, subtable_of, subtable_read, used_bytes};

use crate::kerx::formats::{FormatRead, format_at, left_out};
use aat_bytes::{Fault, FaultKind, ReadError, be32};
use aat_kerning_tables::{KerxFormat, KerxSubtable};
use aat_read_pairs::{KERX, LeftOutSubtable};
use std::alloc::Global;

/// What a subtable is read as.
#[derive(Drop)]
pub(crate) enum SubtableRead {
    /// A subtable that kerns.
    Kerns(KerxSubtable),
    /// One that is left out.
    LeftOut(LeftOutSubtable),
}

/// Whether a bit of the coverage is set.
fn has_coverage(bytes: &[u8], place: usize, bit: u32) -> bool
    requires { place + 12 ≤ length bytes.now }
    ensures { result ≡ has_coverage bytes.now place bit }
{
    be32(bytes, place + 4) & bit != 0
}

/// The subtable of a header.
fn subtable_of(bytes: &[u8], place: usize, format: KerxFormat) -> KerxSubtable
    requires { place + 12 ≤ length bytes.now }
    ensures { result ≡ subtable_of bytes.now place format }
{
    KerxSubtable {
        format,
        horizontal: !has_coverage(bytes, place, 0x8000_0000),
        has_cross_stream: has_coverage(bytes, place, 0x4000_0000),
        variable: false,
        is_last_to_first: has_coverage(bytes, place, 0x1000_0000),
        tuple_count: be32(bytes, place + 8),
    }
}

/// Where a subtable ends that starts at a place.
#[tactic(auto, unfolding(crate::specs::kerx::KerxSubtables::end_at))]
fn end_at(bytes: &[u8], place: usize) -> Result<usize, Fault>
    requires { place ≤ length bytes.now }
    ensures end { result ≡ end_at bytes.now place }
    ensures header { IfOk result (λ end. place + 12 ≤ end) }
    ensures inside { IfOk result (λ end. end ≤ length bytes.now) }
{
    if bytes.len() < place + 12 {
        return Err(Fault::new(KERX, FaultKind::PastEnd, place));
    }
    let length = be32(bytes, place) as usize;
    if length < 12 {
        return Err(Fault::new(KERX, FaultKind::ShortLength, place));
    }
    if bytes.len() < place + length {
        return Err(Fault::new(KERX, FaultKind::PastEnd, place));
    }
    Ok(place + length)
}

/// The bytes that a subtable may use, of so many subtables.
fn used_bytes(bytes: &[u8], count: u32, number: u32, end: usize) -> &[u8]
    requires { end ≤ length bytes.now }
    ensures { result.now ≡ used_bytes bytes.now count number end }
{
    if number as u64 + 1 == count as u64 {
        bytes
    } else {
        &bytes[..end]
    }
}

/// What the subtable of a number at a place does, of so many, up to its end. One of variations is left out.
fn format_up_to(
    alloc: Global,
    bytes: &[u8],
    glyph_count: u16,
    count: u32,
    number: u32,
    place: usize,
    end: usize,
) -> Result<FormatRead, ReadError>
    requires header { place + 12 ≤ end }
    requires inside { end ≤ length bytes.now }
    ensures { let start : KerxStart = record { place = place; number = number } in
        GivesWithin result (format_up_to bytes.now glyph_count count start end) }
{
    if has_coverage(bytes, place, 0x2000_0000) {
        return Ok(left_out(place + 4));
    }
    let format = (be32(bytes, place + 4) % 256) as u8;
    let used = used_bytes(bytes, count, number, end);
    let tuple_count = be32(bytes, place + 8);
    format_at(alloc, used, place, format, glyph_count, tuple_count)
}

/// The subtable of a number at a place, of so many, and where the next one starts.
#[tactic(auto, unfolding(crate::specs::kerx::KerxSubtables::subtable_at))]
pub(crate) fn subtable_at(
    alloc: Global,
    bytes: &[u8],
    glyph_count: u16,
    count: u32,
    number: u32,
    place: usize,
) -> Result<(SubtableRead, usize), ReadError>
    requires { place ≤ length bytes.now }
    ensures gives { let start : KerxStart = record { place = place; number = number } in
        GivesAs (read_and_next number) result (subtable_at bytes.now glyph_count count start) }
    ensures inside { IfOk result (λ r. r.1 ≤ length bytes.now) }
{
    let end = end_at(bytes, place)?;
    let read = match format_up_to(alloc, bytes, glyph_count, count, number, place, end)? {
        FormatRead::Kerns(format) => SubtableRead::Kerns(subtable_of(bytes, place, format)),
        FormatRead::LeftOut(fault) => SubtableRead::LeftOut(LeftOutSubtable { number, fault }),
    };
    Ok((read, end))
}
