//! The first fault of a tracking table.
ghost use Rattle.std.specs.Prelude.{◌≡◌, ◌≢◌, ◌+◌, ◌*◌, ◌^◌, ◌<◌, ◌≤◌, None, IfSome, length, not};
ghost use Rattle.aat_bytes.specs.Numbers.{be16};
ghost use Rattle.aat_read_metrics.specs.Trak.{data_fault, entry_place, first_outside, header_fault, lists_fault, part_fault, past, reaches, sizes_place, trak_fault, values_place};
ghost use Rattle.aat_read_metrics.specs.inside.Whole.{HaveValues, IsWhole};

use aat_bytes::tags::TRAK;
use aat_bytes::{Fault, FaultKind, be16, be32};

/// The fault of what is not there as a whole at a place.
fn past(place: usize) -> Fault
    ensures { result ≡ past place }
{
    Fault::new(TRAK, FaultKind::PastEnd, place)
}

/// Whether so many bytes stand at a place.
fn reaches(bytes: &[u8], place: usize, size: usize) -> bool
    requires place { place < 2 ^ 33 }
    requires size { size < 2 ^ 33 }
    ensures { result ≡ reaches bytes.now place size }
{
    place + size <= bytes.len()
}

/// The fault of the header.
fn header_fault(bytes: &[u8]) -> Option<Fault>
    ensures fault { result ≡ header_fault bytes.now }
    ensures whole { result ≡ None → 12 ≤ length bytes.now }
{
    if bytes.len() < 12 {
        return Some(past(0));
    }
    if be16(bytes, 0) != 1 {
        return Some(Fault::new(TRAK, FaultKind::UnknownFormat, 0));
    }
    if be16(bytes, 4) != 0 {
        return Some(Fault::new(TRAK, FaultKind::UnknownFormat, 4));
    }
    None
}

/// The place of the entry of a track.
pub(crate) fn entry_place(at: u16, k: u16) -> usize
    ensures { result ≡ entry_place at k }
{
    at as usize + 8 + 8 * k as usize
}

/// The place of the values of a track.
pub(crate) fn values_place(bytes: &[u8], at: u16, k: u16) -> usize
    requires { at + 16 + 8 * k ≤ length bytes.now }
    ensures place { result ≡ values_place bytes.now at k }
    ensures short { result < 65536 }
{
    be16(bytes, entry_place(at, k) + 6) as usize
}

/// Whether the values of a track, of so many bytes, are not there as a whole.
fn is_outside(bytes: &[u8], at: u16, k: u16, size: u32) -> bool
    requires { at + 16 + 8 * k ≤ length bytes.now }
    ensures { result ≡ not (reaches bytes.now (values_place bytes.now at k) size) }
{
    !reaches(bytes, values_place(bytes, at, k), size as usize)
}

/// The first of so many tracks whose values, of so many bytes, are not there as a whole.
fn first_outside(bytes: &[u8], at: u16, count: u16, size: u32) -> Option<u16>
    requires { at + 8 + 8 * count ≤ length bytes.now }
    ensures first { result ≡ first_outside bytes.now at count size }
    ensures inside { IfSome result (λ k. k < count) }
{
    (0..count).find(|k| is_outside(bytes, at, *k, size))
}

/// The fault of so many tracks and sizes at an offset.
#[tactic(auto, using(crate::proofs::Outside::all_inside))]
fn lists_fault(bytes: &[u8], at: u16, tracks: u16, sizes: u16) -> Option<Fault>
    requires { at + 8 ≤ length bytes.now }
    ensures fault { result ≡ lists_fault bytes.now at tracks sizes }
    ensures entries { result ≡ None → at + 8 + 8 * tracks ≤ length bytes.now }
    ensures sizes { result ≡ None → sizes_place bytes.now at + 4 * sizes ≤ length bytes.now }
    ensures values { result ≡ None → HaveValues bytes.now at tracks (2 * sizes) }
{
    let entries = at as usize + 8;
    if !reaches(bytes, entries, 8 * tracks as usize) {
        return Some(past(entries + 8 * ((bytes.len() - entries) / 8)));
    }
    let place = be32(bytes, at as usize + 4) as usize;
    if !reaches(bytes, place, 4 * sizes as usize) {
        return Some(past(place));
    }
    if bytes.len() < tracks as usize * (8 + 2 * sizes as usize) {
        return Some(past(at as usize));
    }
    match first_outside(bytes, at, tracks, 2 * sizes as u32) {
        Some(k) => Some(past(values_place(bytes, at, k))),
        None => None,
    }
}

/// The fault of the tracks at an offset.
fn data_fault(bytes: &[u8], at: u16) -> Option<Fault>
    ensures fault { result ≡ data_fault bytes.now at }
    ensures whole { result ≡ None → IsWhole bytes.now at }
{
    let place = at as usize;
    if !reaches(bytes, place, 8) {
        return Some(past(place));
    }
    lists_fault(bytes, at, be16(bytes, place), be16(bytes, place + 2))
}

/// The fault of the tracks at an offset, which is 0 where there are none.
pub(crate) fn part_fault(bytes: &[u8], at: u16) -> Option<Fault>
    ensures fault { result ≡ part_fault bytes.now at }
    ensures whole { result ≡ None → at ≢ 0 → IsWhole bytes.now at }
{
    if at == 0 { None } else { data_fault(bytes, at) }
}

/// The first fault of the table.
pub(crate) fn trak_fault(bytes: &[u8]) -> Option<Fault>
    ensures fault { result ≡ trak_fault bytes.now }
    ensures header { result ≡ None → 12 ≤ length bytes.now }
    ensures rows { result ≡ None → be16 bytes.now 6 ≢ 0 → IsWhole bytes.now (be16 bytes.now 6) }
    ensures columns { result ≡ None → be16 bytes.now 8 ≢ 0 → IsWhole bytes.now (be16 bytes.now 8) }
{
    if let Some(fault) = header_fault(bytes) {
        return Some(fault);
    }
    if let Some(fault) = part_fault(bytes, be16(bytes, 6)) {
        return Some(fault);
    }
    part_fault(bytes, be16(bytes, 8))
}
