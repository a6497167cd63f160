//! The subtables of the kerning table.
ghost use Rattle.std.specs.Prelude.{◌≡◌, ◌+◌, ◌≤◌, length, IfOk};
ghost use Rattle.aat_read_kern.specs.Kern.{KernStart, end_at, header_size, kern_kind_at, left_out_at, read_and_next, read_up_to, subtable_at, subtable_of, unread_place};
ghost use Rattle.aat_read_lookup.specs.Lookups.{Gives};
ghost use Rattle.aat_read_machine.specs.Within.{GivesAs, GivesWithin};

use crate::header::{KernHeader, KernList};
use crate::kern_machine::read_kern_machine;
use aat_bytes::{Fault, FaultKind, ReadError};
use aat_kerning_tables::{KernKind, KernSubtable};
use aat_read_pairs::{
    KERN, LeftOutSubtable, read_kern_classes, read_kern_indexes, read_kern_pairs,
};
use std::alloc::Global;

/// What a subtable is read as.
#[derive(Drop)]
pub(crate) enum SubtableRead {
    /// A subtable that kerns.
    Kerns(KernSubtable),
    /// One that is left out.
    LeftOut(LeftOutSubtable),
}

/// How the subtable at a place kerns, by its format of those that are read.
#[tactic(auto, unfolding(crate::specs::Kern::kern_kind_at))]
fn kern_kind_at(
    alloc: Global,
    bytes: &[u8],
    header: KernHeader,
    place: usize,
    format: u8,
) -> Result<KernKind, ReadError>
    requires { place + header_size header ≤ length bytes.now }
    ensures { Gives result (kern_kind_at bytes.now header place format) }
{
    let behind = place + header.size();
    match format {
        0 => Ok(KernKind::Pairs(read_kern_pairs(alloc, bytes, behind)?)),
        1 => Ok(KernKind::Machine(read_kern_machine(alloc, bytes, behind)?)),
        2 => Ok(KernKind::Classes(read_kern_classes(alloc, bytes, place, behind)?)),
        _ => Ok(KernKind::Classes(read_kern_indexes(alloc, bytes, behind)?)),
    }
}

/// Where a subtable ends, the last of all or one before it.
#[tactic(auto, unfolding(crate::specs::Kern::end_at))]
fn end_at(bytes: &[u8], header: KernHeader, place: usize, left: u32) -> Result<usize, Fault>
    requires { place ≤ length bytes.now }
    ensures end { result ≡ end_at bytes.now header (record { place = place; left = left }) }
    ensures header { IfOk result (λ end. place + header_size header ≤ end) }
    ensures inside { IfOk result (λ end. end ≤ length bytes.now) }
{
    if bytes.len() < place + header.size() {
        return Err(Fault::new(KERN, FaultKind::PastEnd, place));
    }
    let field = header.length_place(place, bytes);
    let size = header.length_at(place, bytes) as usize;
    if size < header.size() {
        return Err(Fault::new(KERN, FaultKind::ShortLength, field));
    }
    if bytes.len() < place + size {
        return Err(Fault::new(KERN, FaultKind::PastEnd, field));
    }
    // fonts have a last subtable of more bytes than 16 bits count
    if left == 1 {
        return Ok(bytes.len());
    }
    Ok(place + size)
}

/// The subtable of a header.
fn subtable_of(bytes: &[u8], header: KernHeader, place: usize, kind: KernKind) -> KernSubtable
    requires { place + header_size header ≤ length bytes.now }
    ensures { result ≡ subtable_of bytes.now header place kind }
{
    let coverage = header.coverage_at(place, bytes);
    KernSubtable {
        kind,
        horizontal: header.is_horizontal(coverage),
        has_cross_stream: header.is_cross_stream(coverage),
        variable: false,
    }
}

/// The place of what leaves a subtable out: a format that is not read, or else the coverage of variations.
fn unread_place(bytes: &[u8], header: KernHeader, place: usize) -> Option<usize>
    requires { place + header_size header ≤ length bytes.now }
    ensures { result ≡ unread_place bytes.now header place }
{
    if !header.is_read(header.format_at(place, bytes)) {
        return Some(header.format_place(place, bytes));
    }
    if header.is_variable(header.coverage_at(place, bytes)) {
        return Some(place + 4);
    }
    None
}

/// The subtable from which on there are so many, as one that is left out for what stands at a place.
fn left_out_at(list: KernList, left: u32, at: usize) -> LeftOutSubtable
    requires { left ≤ list.count }
    ensures { result ≡ left_out_at list left at }
{
    LeftOutSubtable {
        number: list.count - left,
        fault: Fault::new(KERN, FaultKind::UnknownFormat, at),
    }
}

/// What the subtable at a place is read as, from which on there are so many, and which reaches to its end.
#[tactic(auto, unfolding(crate::specs::Kern::read_up_to))]
fn read_up_to(
    alloc: Global,
    bytes: &[u8],
    list: KernList,
    place: usize,
    left: u32,
    end: usize,
) -> Result<SubtableRead, ReadError>
    requires header { place + header_size list.header ≤ end }
    requires inside { end ≤ length bytes.now }
    requires some { left ≤ list.count }
    ensures { let start : KernStart = record { place = place; left = left } in
        GivesWithin result (read_up_to bytes.now list start end) }
{
    let header = list.header;
    if let Some(at) = unread_place(bytes, header, place) {
        return Ok(SubtableRead::LeftOut(left_out_at(list, left, at)));
    }
    let format = header.format_at(place, bytes);
    let kind = kern_kind_at(alloc, &bytes[..end], header, place, format)?;
    Ok(SubtableRead::Kerns(subtable_of(bytes, header, place, kind)))
}

/// The subtable at a place, from which on there are so many, and where it ends.
#[tactic(auto, unfolding(crate::specs::Kern::subtable_at))]
pub(crate) fn subtable_at(
    alloc: Global,
    bytes: &[u8],
    list: KernList,
    place: usize,
    left: u32,
) -> Result<(SubtableRead, usize), ReadError>
    requires place { place ≤ length bytes.now }
    requires some { left ≤ list.count }
    ensures gives { let start : KernStart = record { place = place; left = left } in
        GivesAs (read_and_next left) result (subtable_at bytes.now list start) }
    ensures inside { IfOk result (λ r. r.1 ≤ length bytes.now) }
{
    let end = end_at(bytes, list.header, place, left)?;
    let read = read_up_to(alloc, bytes, list, place, left, end)?;
    Ok((read, end))
}
