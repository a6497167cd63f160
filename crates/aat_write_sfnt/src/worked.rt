//! Worked examples of the tracking table as bytes, as theorems. This call does nothing: what is proved is its contract.
ghost use Rattle.aat_write_sfnt.specs.TrakExamples.{FarTracksAreFound, NoTracksAreWritten, TracksAreWritten};

/// Tables of two tracks, of tracks for columns and of none, and tracks that are too far.
pub fn tables()
    ensures tracks { TracksAreWritten }
    ensures none { NoTracksAreWritten }
    ensures far { FarTracksAreFound }
{}
