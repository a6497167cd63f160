//! The tracking table from bytes.
ghost use Rattle.std.specs.Prelude.{◌≡◌, ◌≢◌, ◌+◌, ◌*◌, ◌≤◌, ◌++◌, IfErr, IfOk, OnOk, length};
ghost use Rattle.std.specs.List.{flat_map, range_with_len};
ghost use Rattle.aat_bytes.specs.Numbers.{be16, be32, signed16};
ghost use Rattle.aat_read_lookup.specs.Lookups.{Gives};
ghost use Rattle.aat_read_metrics.specs.Trak.{data_at, part_at, signed32, size_count, sizes_from, track_at, track_count, track_values, tracks_at, trak_of, values_from, values_place};
ghost use Rattle.aat_read_metrics.specs.inside.Whole.{IsWhole};

use crate::fault::{entry_place, trak_fault, values_place};
use aat_bytes::{ReadError, be16, be32};
use aat_glyph::{Track, TrackData, Tracking};
use std::alloc::{AllocError, Allocator};

/// The fixed number at a place.
fn fixed_at(bytes: &[u8], place: usize) -> i32
    requires { place + 4 ≤ length bytes.now }
    ensures { result ≡ signed32 (be32 bytes.now place) }
{
    be32(bytes, place).cast_signed()
}

/// The value at a place.
fn value_at(bytes: &[u8], place: usize) -> i16
    requires { place + 2 ≤ length bytes.now }
    ensures { result ≡ signed16 (be16 bytes.now place) }
{
    be16(bytes, place).cast_signed()
}

/// So many sizes at a place.
fn sizes_from<A: Allocator>(
    alloc: A,
    bytes: &[u8],
    place: usize,
    count: u16,
) -> Result<Vec<i32, A>, AllocError>
    requires { place + 4 * count ≤ length bytes.now }
    ensures { IfOk result (λ sizes. sizes.items ≡ sizes_from bytes.now place count) }
{
    let mut sizes = Vec::with_capacity(alloc, count as usize)?;
    for s in 0..count {
        sizes.push(fixed_at(bytes, place + 4 * s as usize))?;
    }
    Ok(sizes)
}

/// The track of an entry.
fn track_at(bytes: &[u8], at: u16, k: u16) -> Track
    requires { at + 16 + 8 * k ≤ length bytes.now }
    ensures { result ≡ track_at bytes.now at k }
{
    let place = entry_place(at, k);
    Track {
        value: fixed_at(bytes, place),
        name: be16(bytes, place + 4),
    }
}

/// The tracks at an offset.
fn tracks_at<A: Allocator>(alloc: A, bytes: &[u8], at: u16) -> Result<Vec<Track, A>, AllocError>
    requires { IsWhole bytes.now at }
    ensures { IfOk result (λ tracks. tracks.items ≡ tracks_at bytes.now at) }
{
    let count = be16(bytes, at as usize);
    let mut tracks = Vec::with_capacity(alloc, count as usize)?;
    for k in 0..count {
        tracks.push(track_at(bytes, at, k))?;
    }
    Ok(tracks)
}

/// Puts so many values at a place behind others.
fn append_values<A: Allocator>(
    values: &mut Vec<i16, A>,
    bytes: &[u8],
    place: usize,
    count: u16,
) -> Result<(), AllocError>
    requires { place + 2 * count ≤ length bytes.now }
    ensures { OnOk result (values.new.items ≡ values.old.items ++ values_from bytes.now place count) }
{
    for s in 0..count {
        values.push(value_at(bytes, place + 2 * s as usize))?;
    }
    Ok(())
}

/// Puts the values of a track behind others.
fn append_track<A: Allocator>(
    values: &mut Vec<i16, A>,
    bytes: &[u8],
    at: u16,
    k: u16,
) -> Result<(), AllocError>
    requires entry { at + 16 + 8 * k ≤ length bytes.now }
    requires values { values_place bytes.now at k + 2 * size_count bytes.now at ≤ length bytes.now }
    ensures { OnOk result (values.new.items ≡ values.old.items ++ track_values bytes.now at k) }
{
    let count = be16(bytes, at as usize + 2);
    append_values(values, bytes, values_place(bytes, at, k), count)
}

/// The values of the tracks at an offset.
fn values_at<A: Allocator>(alloc: A, bytes: &[u8], at: u16) -> Result<Vec<i16, A>, AllocError>
    requires { IsWhole bytes.now at }
    ensures { IfOk result (λ values.
        values.items ≡ flat_map (track_values bytes.now at) (range_with_len 0 (track_count bytes.now at))) }
{
    let tracks = be16(bytes, at as usize);
    let sizes = be16(bytes, at as usize + 2);
    let mut values = Vec::with_capacity(alloc, tracks as usize * sizes as usize)?;
    for k in 0..tracks {
        append_track(&mut values, bytes, at, k)?;
    }
    Ok(values)
}

/// The tracks at an offset.
fn data_at<A: Allocator + Copy>(alloc: A, bytes: &[u8], at: u16) -> Result<TrackData<A>, ReadError>
    requires { IsWhole bytes.now at }
    ensures ok { IfOk result (λ tracks. tracks ≡ data_at bytes.now at) }
    ensures memory { IfErr result (λ error. error ≡ ReadError.OutOfMemory) }
{
    let place = at as usize;
    let sizes = sizes_from(
        alloc,
        bytes,
        be32(bytes, place + 4) as usize,
        be16(bytes, place + 2),
    )?;
    let tracks = tracks_at(alloc, bytes, at)?;
    let values = values_at(alloc, bytes, at)?;
    match TrackData::new(sizes, tracks, values) {
        Ok(tracks) => Ok(tracks),
        Err(_) => Err(ReadError::OutOfMemory),
    }
}

/// The tracks at an offset, which is 0 where there are none.
fn part_at<A: Allocator + Copy>(
    alloc: A,
    bytes: &[u8],
    at: u16,
) -> Result<Option<TrackData<A>>, ReadError>
    requires { at ≢ 0 → IsWhole bytes.now at }
    ensures ok { IfOk result (λ part. part ≡ part_at bytes.now at) }
    ensures memory { IfErr result (λ error. error ≡ ReadError.OutOfMemory) }
{
    if at == 0 {
        return Ok(None);
    }
    Ok(Some(data_at(alloc, bytes, at)?))
}

/// Reads the tracking table. Its version is 1.0, of which the 1 is believed, and its format is 0.
///
/// The first fault in this order, of the table `trak`, with its place from the start of the table: 1, `PastEnd`, a
/// header of 12 bytes that is not there, at 0; 2, `UnknownFormat`, another version, at 0, and another format, at 4.
/// Then of the tracks for rows, and then of those for columns, where there are any: 1, `PastEnd`, their header of 8
/// bytes, at its place; their entries of 8 bytes each, at the first that is not there as a whole; their sizes of 4
/// bytes each, at the first; more values of 2 bytes than the table has room for beside the entries, those that tracks
/// share counted for each, at the header; and the values of the first track that has not all of them, at the first of
/// them. A place past the end is a fault also where there are no sizes, so that nothing is read there. `OutOfMemory`
/// comes only if the bytes have no fault.
///
/// Apple's TrueType Reference Manual, "The 'trak' table".
pub fn read_trak<A: Allocator + Copy>(alloc: A, bytes: &[u8]) -> Result<Tracking<A>, ReadError>
    ensures { Gives result (trak_of bytes.now) }
{
    if let Some(fault) = trak_fault(bytes) {
        return Err(ReadError::Fault(fault));
    }
    let rows = part_at(alloc, bytes, be16(bytes, 6))?;
    let columns = part_at(alloc, bytes, be16(bytes, 8))?;
    Ok(Tracking::new(rows, columns))
}
