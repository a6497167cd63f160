//! The places of tracks, sizes and values.
ghost use Rattle.std.specs.Prelude.{◌≡◌, ◌+◌, ◌*◌, ◌<◌, ◌≤◌, ◌||◌, false, length, nat_lt, option_copied};
ghost use Rattle.aat_write_sfnt.specs.TrakBytes.{are_too_many, first_far, offset_of, part_far, part_size, part_too_many, place_of_sizes, place_of_values};

use aat_glyph::TrackData;
use std::alloc::Allocator;

/// The last place that a number of 16 bits has.
pub(crate) const LAST_PLACE: usize = 65535;

/// Whether a direction has more tracks or sizes than a number of 16 bits holds.
fn are_too_many<B: Allocator>(table: &TrackData<B>) -> bool
    ensures { result ≡ are_too_many table.now }
{
    table.tracks().len() > 65535 || table.sizes().len() > 65535
}

/// The same, if there is any.
pub(crate) fn part_too_many<B: Allocator>(part: Option<&TrackData<B>>) -> bool
    ensures { result ≡ part_too_many (option_copied part.entry) }
{
    match part {
        Some(table) => are_too_many(table),
        None => false,
    }
}

/// How many tracks a direction has.
pub(crate) fn track_count<B: Allocator>(table: &TrackData<B>) -> u16
    requires { are_too_many table.now ≡ false }
    ensures { result ≡ length table.now.tracks }
{
    table.tracks().len() as u16
}

/// How many sizes a direction has.
pub(crate) fn size_count<B: Allocator>(table: &TrackData<B>) -> u16
    requires { are_too_many table.now ≡ false }
    ensures { result ≡ length table.now.sizes }
{
    table.sizes().len() as u16
}

/// The place of the sizes of tracks at a place.
pub(crate) fn place_of_sizes<B: Allocator>(at: u16, table: &TrackData<B>) -> usize
    requires { are_too_many table.now ≡ false }
    ensures place { result ≡ place_of_sizes at table.now }
    ensures low { result ≤ 1000000 }
{
    at as usize + 8 + 8 * track_count(table) as usize
}

/// The place of the values of a track.
pub(crate) fn place_of_values<B: Allocator>(at: u16, table: &TrackData<B>, k: u16) -> usize
    requires { are_too_many table.now ≡ false }
    ensures place { result ≡ place_of_values at table.now k }
    ensures low { result < 10000000000 }
{
    values_place(place_of_sizes(at, table), size_count(table), k)
}

/// The place of the values of a track, where so many sizes stand at a place.
fn values_place(place: usize, sizes: u16, k: u16) -> usize
    requires { place ≤ 1000000 }
    ensures place { result ≡ place + 4 * sizes + 2 * (k * sizes) }
    ensures low { result < 10000000000 }
{
    place + 4 * sizes as usize + 2 * (k as usize * sizes as usize)
}

/// The first track whose values stand past the last place.
fn first_far<B: Allocator>(at: u16, table: &TrackData<B>) -> Option<u16>
    requires { are_too_many table.now ≡ false }
    ensures { result ≡ first_far at table.now }
{
    (0..track_count(table)).find(|k| place_of_values(at, table, *k) > LAST_PLACE)
}

/// The same, if there are any tracks.
pub(crate) fn part_far<B: Allocator>(at: u16, part: Option<&TrackData<B>>) -> Option<u16>
    requires { part_too_many (option_copied part) ≡ false }
    ensures { result ≡ part_far at (option_copied part.entry) }
{
    match part {
        Some(table) => first_far(at, table),
        None => None,
    }
}

/// How many bytes the tracks of a direction take, if there are any.
pub(crate) fn part_size<B: Allocator>(part: Option<&TrackData<B>>) -> usize
    requires { part_too_many (option_copied part) ≡ false }
    ensures size { result ≡ part_size (option_copied part.entry) }
    ensures low { result < 10000000000 }
{
    match part {
        Some(table) => place_of_values(0, table, track_count(table)),
        None => 0,
    }
}

/// The offset of tracks at a place, which is 0 where there are none.
pub(crate) fn offset_of<B: Allocator>(at: usize, part: Option<&TrackData<B>>) -> usize
    ensures { result ≡ offset_of at (option_copied part.entry) }
{
    match part {
        Some(_) => at,
        None => 0,
    }
}
