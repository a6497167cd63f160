//! The tracking table.
ghost use Rattle.std.specs.Prelude.{◌≡◌, option_copied};
ghost use Rattle.aat_glyph.specs.placement.Tracks.{tracking_along};

use crate::Direction;
use crate::placement::track_data::TrackData;
use std::alloc::{Allocator, Global};
use std::marker::Model;

/// The tracking table of a font: its tracks for text in rows, and those for text in columns. A contract sees it as
/// `TrackingTable`.
///
/// Apple's TrueType Reference Manual, "The 'trak' table".
#[derive(Drop)]
pub struct Tracking<A: Allocator = Global> {
    horizontal: Option<TrackData<A>>,
    vertical: Option<TrackData<A>>,
}

impl<A: Allocator> Model for Tracking<A> {
    ghost use Rattle.aat_glyph.specs.placement.Tracks.{TrackingTable};

    ghost Value = { TrackingTable };

    ghost view = { λ m. record { rows = m.horizontal; columns = m.vertical } };
}

impl<A: Allocator> Tracking<A> {
    /// Makes the table of the tracks for text in rows, and of those for text in columns, if there are any.
    pub fn new(horizontal: Option<TrackData<A>>, vertical: Option<TrackData<A>>) -> Tracking<A>
        ensures { result ≡ record { rows = horizontal; columns = vertical } }
    {
        Tracking {
            horizontal,
            vertical,
        }
    }

    /// The tracks for text in rows, if any.
    pub fn horizontal(&self) -> Option<&TrackData<A>>
        ensures { option_copied result ≡ self.now.rows }
    {
        self.horizontal.as_ref()
    }

    /// The tracks for text in columns, if any.
    pub fn vertical(&self) -> Option<&TrackData<A>>
        ensures { option_copied result ≡ self.now.columns }
    {
        self.vertical.as_ref()
    }

    /// How much wider a text of a direction and a point size is set on a track, as [`TrackData::tracking_at`] has it. It
    /// is 0 where the table has no tracks for the direction.
    pub fn tracking_at(&self, direction: Direction, track: i32, size: u32) -> i32
        ensures { result ≡ tracking_along self.now direction track size }
    {
        let tracks = if direction.is_horizontal() {
            &self.horizontal
        } else {
            &self.vertical
        };
        match tracks {
            Some(data) => data.tracking_at(track, size),
            None => 0,
        }
    }
}
