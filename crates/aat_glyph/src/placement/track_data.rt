//! The tracks of one direction.
ghost use Rattle.std.specs.Prelude.{◌≡◌, ◌<◌, ◌≤◌, None, Some, IfErr, IfOk, IfSome, OnOk, length, pos};
ghost use Rattle.std.specs.Int.{saturate_to_bits};
ghost use Rattle.aat_glyph.specs.placement.Tracks.{fault_of, first_from, place_of_track, size_at, tracking_at, value_at_size, value_between, value_of, value_up_to};

use crate::placement::error::TrackingError;
use crate::placement::interpolation::interpolated;
use std::alloc::{Allocator, Global};
use std::marker::Model;

/// A track: how tight or loose a text is set. The normal track is 0; below it texts are tighter, above it looser.
#[derive(Clone, Copy, PartialEq, Eq, Debug)]
pub struct Track {
    /// The track value, a 16.16 fixed number: 65536 is 1.
    pub value: i32,
    /// Its name, as a number in the table `name`.
    pub name: u16,
}

/// The tracks of one direction, with a value for each track and point size. A contract sees it as `TrackTable`.
///
/// Apple's TrueType Reference Manual, "The 'trak' table".
#[derive(Drop)]
pub struct TrackData<A: Allocator = Global> {
    sizes: Vec<i32, A>,
    tracks: Vec<Track, A>,
    values: Vec<i16, A>,
}

impl<A: Allocator> Model for TrackData<A> {
    ghost use Rattle.std.specs.Prelude.{◌≡◌, None};
    ghost use Rattle.aat_glyph.specs.placement.Tracks.{TrackTable, fault_of};

    ghost Value = { TrackTable };

    ghost view = { λ m. record { sizes = m.sizes.items; tracks = m.tracks.items; values = m.values.items } };

    ghost invariant = { λ m. fault_of (record {
      sizes = m.sizes.items;
      tracks = m.tracks.items;
      values = m.values.items;
    }) ≡ None };
}

impl<A: Allocator> TrackData<A> {
    /// Makes the tracks of one direction: point sizes, as 16.16 fixed numbers, tracks, and track by track a value in
    /// units of the font for each size. Sizes usually rise and tracks differ, but neither is asked. Takes no memory.
    ///
    /// Refused first as 1, `TooManyTracks`, and 2, `TooManySizes`, where there are more than 65,535 of them; then as 3,
    /// `ValueCount`, where the values are not as many as tracks times sizes. What is handed in is then dropped.
    pub fn new(
        sizes: Vec<i32, A>,
        tracks: Vec<Track, A>,
        values: Vec<i16, A>,
    ) -> Result<TrackData<A>, TrackingError>
        ensures ok { IfOk result
            (λ made. made ≡ record { sizes = sizes.items; tracks = tracks.items; values = values.items }) }
        ensures counted { OnOk result
            (fault_of (record { sizes = sizes.items; tracks = tracks.items; values = values.items }) ≡ None) }
        ensures refused { IfErr result (λ error.
            fault_of (record { sizes = sizes.items; tracks = tracks.items; values = values.items }) ≡ Some error) }
    {
        if tracks.len() > 65535 {
            return Err(TrackingError::TooManyTracks);
        }
        if sizes.len() > 65535 {
            return Err(TrackingError::TooManySizes);
        }
        if values.len() != tracks.len() * sizes.len() {
            return Err(TrackingError::ValueCount);
        }
        Ok(TrackData {
            sizes,
            tracks,
            values,
        })
    }

    /// The point sizes.
    pub fn sizes(&self) -> &[i32]
        ensures { result.now ≡ self.now.sizes }
    {
        &self.sizes
    }

    /// The tracks.
    pub fn tracks(&self) -> &[Track]
        ensures { result.now ≡ self.now.tracks }
    {
        &self.tracks
    }

    /// The values, track by track, for each size one.
    pub fn values(&self) -> &[i16]
        ensures { result.now ≡ self.now.values }
    {
        &self.values
    }

    /// How much wider a text of a point size is set on a track, in units of the font, or tighter where it is below 0.
    /// Track and size are 16.16 fixed numbers: the normal track is 0, that of 65536 is 1, and a size of 65536 is a point.
    ///
    /// The first track of that value counts. Its value at the size is the one on the straight line through its values
    /// at two sizes, rounded to the nearest number, halves up. They are the first size that is not below the size asked
    /// for and the one before it, in the order of the table. Where there is none before it, its own value counts, and
    /// where all sizes are below, that of the last one. HarfBuzz 12.3.2 has the same value for a size, in floating point,
    /// and here it is exact. HarfBuzz 6.0.0 goes on along the line below the first size and above the last. A number that
    /// 32 bits do not hold is the greatest or the least that they hold.
    ///
    /// It is 0 where there is no such track, no size, or where the size asked for is 0. HarfBuzz 12.3.2 takes the nearest
    /// track, or interpolates between the two nearest, where there is none of that value.
    pub fn tracking_at(&self, track: i32, size: u32) -> i32
        ensures { result ≡ tracking_at self.now track size }
    {
        if size == 0 {
            return 0;
        }
        match place_of_track(&self.tracks, track) {
            Some(place) => saturated(self.value_at_size(place, size)),
            None => 0,
        }
    }

    /// The value of a track for the size at a place.
    fn value_of(&self, track: usize, size: usize) -> i16
        requires track { track < length self.now.tracks }
        requires size { size < length self.now.sizes }
        ensures { result ≡ value_of self.now track size }
    {
        self.values[track * self.sizes.len() + size]
    }

    /// The value of a track at a size.
    fn value_at_size(&self, track: usize, size: u32) -> i64
        requires { track < length self.now.tracks }
        ensures { result ≡ value_at_size self.now track (pos size) }
    {
        let count = self.sizes.len();
        if count == 0 {
            return 0;
        }
        match first_from(&self.sizes, size) {
            Some(end) => self.value_up_to(track, size, end),
            None => self.value_of(track, count - 1) as i64,
        }
    }

    /// The value of a track at a size, where the first size that is not below it is at a place.
    fn value_up_to(&self, track: usize, size: u32, end: usize) -> i64
        requires track { track < length self.now.tracks }
        requires end { end < length self.now.sizes }
        ensures { result ≡ value_up_to self.now track (pos size) end }
    {
        if end == 0 {
            self.value_of(track, 0) as i64
        } else {
            self.value_between(track, size, end)
        }
    }

    /// The value of a track at a size, on the line through the values at the size at a place and at the one before
    /// it.
    fn value_between(&self, track: usize, size: u32, end: usize) -> i64
        requires track { track < length self.now.tracks }
        requires some { 0 < end }
        requires end { end < length self.now.sizes }
        ensures { result ≡ value_between self.now track (pos size) end }
    {
        let low = self.value_of(track, end - 1);
        let high = self.value_of(track, end);
        let from = size_at(&self.sizes, end - 1);
        let to = size_at(&self.sizes, end);
        interpolated(from, to, low, high, size)
    }
}

/// The size at a place.
fn size_at(sizes: &[i32], s: usize) -> i32
    requires { s < length sizes.now }
    ensures { result ≡ size_at sizes.now s }
{
    sizes[s]
}

/// The place of the first track of a track value.
fn place_of_track(tracks: &[Track], asked: i32) -> Option<usize>
    ensures first { result ≡ place_of_track tracks.now asked }
    ensures within { IfSome result (λ k. k < length tracks.now) }
{
    (0..tracks.len()).find(|k| tracks[*k].value == asked)
}

/// The place of the first size that is not below a size.
fn first_from(sizes: &[i32], size: u32) -> Option<usize>
    ensures first { result ≡ first_from sizes.now (pos size) }
    ensures within { IfSome result (λ s. s < length sizes.now) }
{
    (0..sizes.len()).find(|s| sizes[*s] as i64 >= size as i64)
}

/// The number of 32 bits that is nearest to a number.
fn saturated(number: i64) -> i32
    ensures { result ≡ saturate_to_bits 31 number }
{
    number.clamp(i32::MIN as i64, i32::MAX as i64) as i32
}
