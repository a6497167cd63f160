//! The tracks of `trak`, with their names.
use crate::tables_text::names::text_of;
use aat_face::Face;
use aat_glyph::{Track, TrackData};
use std::alloc::Global;
use std::io::{self, Write};

/// The most tracks of a direction, and the most sizes of a track, that are written.
const MOST_TRACKS: usize = 1000;

/// A 16.16 fixed number as a decimal one.
fn decimal(fixed: i32) -> f64 {
    fixed as f64 / 65536.0
}

/// Writes the values of a track at its sizes, in points, up to 1,000 of them.
fn write_values<W: Write>(
    out: &mut W,
    track: &Track,
    sizes: &[i32],
    values: &[i16],
) -> io::Result<()> {
    let track = decimal(track.value);
    for (size, value) in sizes.iter().zip(values.iter()).take(MOST_TRACKS) {
        writeln!(out, "  track {track} size {} value {value}", decimal(*size))?;
    }
    if sizes.len() > MOST_TRACKS {
        writeln!(out, "  and {} sizes more", sizes.len() - MOST_TRACKS)?;
    }
    Ok(())
}

/// Writes a track: its track value and its name.
fn write_track<W: Write>(
    alloc: Global,
    out: &mut W,
    face: &Face<'_>,
    track: &Track,
) -> io::Result<()> {
    write!(out, "  track {} name {}", decimal(track.value), track.name)?;
    if let Some(name) = face.name(track.name) {
        let text = text_of(alloc, &name)?;
        write!(out, " {text:?}")?;
    }
    writeln!(out)
}

/// Writes the tracks of a direction, up to 1,000 of them: each with its values.
fn write_tracks<W: Write>(
    alloc: Global,
    out: &mut W,
    face: &Face<'_>,
    data: &TrackData,
) -> io::Result<()> {
    let (sizes, tracks) = (data.sizes(), data.tracks());
    let mut values = data.values();
    for track in tracks.iter().take(MOST_TRACKS) {
        write_track(alloc, out, face, track)?;
        write_values(out, track, sizes, values)?;
        values = values.get(sizes.len()..).unwrap_or(&[]);
    }
    if tracks.len() > MOST_TRACKS {
        writeln!(out, "  and {} tracks more", tracks.len() - MOST_TRACKS)?;
    }
    Ok(())
}

/// Writes the tracks of a direction, if there are any: how many, and at how many sizes.
fn write_direction<W: Write>(
    alloc: Global,
    out: &mut W,
    face: &Face<'_>,
    direction: &str,
    tracks: Option<&TrackData>,
) -> io::Result<()> {
    let Some(data) = tracks else {
        return Ok(());
    };
    let (sizes, tracks) = (data.sizes().len(), data.tracks().len());
    writeln!(out, "trak {direction} tracks {tracks} sizes {sizes}")?;
    write_tracks(alloc, out, face, data)
}

/// Writes the tracks of `trak`, for text in rows and for text in columns.
pub(crate) fn write_tracking<W: Write>(
    alloc: Global,
    out: &mut W,
    face: &Face<'_>,
) -> io::Result<()> {
    let Some(tracking) = face.tracking() else {
        return Ok(());
    };
    write_direction(alloc, out, face, "horizontal", tracking.horizontal())?;
    write_direction(alloc, out, face, "vertical", tracking.vertical())
}
