//! Why tracks are refused.
ghost use Rattle.std.specs.Prelude.{◌≡◌};
ghost use Rattle.aat_glyph.specs.placement.TrackingErrors.{number_of_tracking_error};

use thiserror::Error;

/// Why tracks are refused. Nothing is made then, and nothing else changes.
#[derive(Clone, Copy, PartialEq, Eq, Debug, Error)]
pub enum TrackingError {
    /// 1: there are more than 65,535 tracks.
    #[error("there are more than 65535 tracks")]
    TooManyTracks,
    /// 2: there are more than 65,535 sizes.
    #[error("there are more than 65535 sizes")]
    TooManySizes,
    /// 3: there are more or fewer values than one for each track and size.
    #[error("there is not one value for each track and size")]
    ValueCount,
}

impl TrackingError {
    /// The error's number, from 1 to 3.
    pub fn number(self) -> u8
        ensures { result ≡ number_of_tracking_error self }
    {
        match self {
            TrackingError::TooManyTracks => 1,
            TrackingError::TooManySizes => 2,
            TrackingError::ValueCount => 3,
        }
    }
}
