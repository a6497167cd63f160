//! The tracks of a description.

use crate::known::Known;
use crate::values::{Told, list, maybe, members, need, word};
use aat_glyph::{Track, TrackData, Tracking};
use anyhow::Result;
use serde_json::Value;

/// A track with its values.
#[derive(Drop)]
struct ValuedTrack {
    track: Track,
    values: Vec<i16>,
}

impl Told for ValuedTrack {
    /// A track, whose name gets the next number.
    fn of(known: &mut Known, value: &Value) -> Result<ValuedTrack> {
        let members = members(value, "value name values")?;
        let value = need(known, members, "value")?;
        let name = known.add_name(word(members, "name")?)?;
        Ok(ValuedTrack {
            track: Track { value, name },
            values: list(known, members, "values")?,
        })
    }
}

impl Told for TrackData {
    /// The tracks of a direction.
    fn of(known: &mut Known, value: &Value) -> Result<TrackData> {
        let members = members(value, "sizes tracks")?;
        let sizes = need(known, members, "sizes")?;
        let mut tracks = Vec::new(known.alloc);
        let mut values = Vec::new(known.alloc);
        for valued in need::<Vec<ValuedTrack>>(known, members, "tracks")? {
            tracks.push(valued.track)?;
            values.extend_from_slice(&valued.values)?;
        }
        Ok(TrackData::new(sizes, tracks, values)?)
    }
}

impl Told for Tracking {
    fn of(known: &mut Known, value: &Value) -> Result<Tracking> {
        let members = members(value, "horizontal vertical")?;
        let horizontal = maybe(known, members, "horizontal")?;
        Ok(Tracking::new(horizontal, maybe(known, members, "vertical")?))
    }
}
