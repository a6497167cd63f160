//! INDEXes: lists of objects of the table.
ghost use Rattle.std.specs.Prelude.{◌≡◌, ◌+◌, ◌*◌, ◌<◌, ◌≤◌, IfOk, length, nat_le};
ghost use Rattle.aat_read_charstrings.specs.Indexes.{IsInside, IsWhole, data_place, entry_place, fault_of, index_at, index_end, object_at, offset_at, past};

use crate::tags::CFF;
use aat_bytes::{Fault, FaultKind, be16, be32};

/// Bytes of the table, from one place up to another.
#[derive(Clone, Copy)]
pub(crate) struct Span {
    pub(crate) start: usize,
    pub(crate) end: usize,
}

/// A list of objects: where its offsets stand, how many objects there are, and how many bytes an offset has.
#[derive(Clone, Copy)]
pub(crate) struct Index {
    pub(crate) offsets: usize,
    pub(crate) count: u16,
    pub(crate) size: u8,
}

/// A fault of the table at a place.
pub(crate) fn fault_of(kind: FaultKind, place: usize) -> Fault
    ensures { result ≡ fault_of kind place }
{
    Fault::new(CFF, kind, place)
}

/// The fault of what is not there as a whole at a place.
pub(crate) fn past(place: usize) -> Fault
    ensures { result ≡ past place }
{
    fault_of(FaultKind::PastEnd, place)
}

/// Whether so many bytes are there at a place.
pub(crate) fn has(bytes: &[u8], place: usize, size: usize) -> bool
    ensures { result ≡ nat_le (place + size) (length bytes.now) }
{
    size <= bytes.len() && place <= bytes.len() - size
}

/// The number of so many bytes at a place.
fn offset_at(bytes: &[u8], place: usize, size: u8) -> u32
    requires { place + size ≤ length bytes.now }
    ensures { result ≡ offset_at bytes.now place size }
{
    match size {
        1 => bytes[place] as u32,
        2 => be16(bytes, place) as u32,
        3 => bytes[place] as u32 * 65536 + be16(bytes, place + 1) as u32,
        4 => be32(bytes, place),
        _ => 0,
    }
}

/// The place of an offset of an INDEX.
fn entry_place(bytes: &[u8], index: Index, entry: u16) -> usize
    requires whole { IsWhole bytes.now index }
    requires below { entry ≤ index.count }
    ensures place { result ≡ entry_place index entry }
    ensures inside { result + index.size ≤ length bytes.now }
{
    index.offsets + index.size as usize * entry as usize
}

/// The place in front of the first object, from which offsets count.
fn data_place(bytes: &[u8], index: Index) -> usize
    requires { IsWhole bytes.now index }
    ensures place { result ≡ data_place index }
    ensures inside { result ≤ length bytes.now }
{
    entry_place(bytes, index, index.count) + index.size as usize - 1
}

/// The INDEX at a place.
pub(crate) fn index_at(bytes: &[u8], place: usize) -> Result<Index, Fault>
    ensures index { result ≡ index_at bytes.now place }
    ensures whole { IfOk result (λ index. IsWhole bytes.now index) }
{
    if !has(bytes, place, 2) {
        return Err(past(place));
    }
    let count = be16(bytes, place);
    if count == 0 {
        return Ok(Index {
            offsets: place + 2,
            count,
            size: 0,
        });
    }
    if !has(bytes, place, 3) {
        return Err(past(place));
    }
    let size = bytes[place + 2];
    if size == 0 || size > 4 {
        return Err(fault_of(FaultKind::UnknownFormat, place + 2));
    }
    if !has(bytes, place + 3, size as usize * (count as usize + 1)) {
        return Err(past(place + 3));
    }
    Ok(Index {
        offsets: place + 3,
        count,
        size,
    })
}

/// Where an INDEX ends.
pub(crate) fn index_end(bytes: &[u8], index: Index) -> usize
    requires { IsWhole bytes.now index }
    ensures { result ≡ index_end bytes.now index }
{
    if index.count == 0 {
        return index.offsets;
    }
    let entry = entry_place(bytes, index, index.count);
    data_place(bytes, index) + offset_at(bytes, entry, index.size) as usize
}

/// The bytes of an object of an INDEX.
pub(crate) fn object_at(bytes: &[u8], index: Index, number: u32) -> Result<Span, Fault>
    requires { IsWhole bytes.now index }
    ensures object { result ≡ object_at bytes.now index number }
    ensures inside { IfOk result (λ span. IsInside bytes.now span) }
{
    if number >= index.count as u32 {
        return Err(fault_of(FaultKind::Missing, index.offsets));
    }
    let first = entry_place(bytes, index, number as u16);
    let second = entry_place(bytes, index, number as u16 + 1);
    let data = data_place(bytes, index);
    let start = data + offset_at(bytes, first, index.size) as usize;
    let end = data + offset_at(bytes, second, index.size) as usize;
    if start > end || end > bytes.len() {
        return Err(past(second));
    }
    Ok(Span { start, end })
}
