//! Why a tracking table is not written.
ghost use Rattle.std.specs.Prelude.{◌≡◌};
ghost use Rattle.aat_write_sfnt.specs.TrakWriteErrors.{number_of_trak_error};

use std::alloc::AllocError;
use thiserror::Error;

/// Why a tracking table is not written. Nothing is written then.
#[derive(Clone, Copy, PartialEq, Eq, Debug, Error)]
pub enum TrakWriteError {
    /// 1: there are more than 65,535 tracks or sizes for rows or for columns. No `TrackData` has them.
    #[error("there are more than 65535 tracks or sizes")]
    TooMany,
    /// 2: the values of this track for rows, the first such one, stand past place 65,535.
    #[error("the values of track {0} for rows stand past place 65535")]
    RowValues(u16),
    /// 3: the tracks for columns stand past place 65,535.
    #[error("the tracks for columns stand past place 65535")]
    ColumnsTooFar,
    /// 4: the values of this track for columns, the first such one, stand past place 65,535.
    #[error("the values of track {0} for columns stand past place 65535")]
    ColumnValues(u16),
    /// 5: memory is wanting. It comes only where no other error does.
    #[error("out of memory")]
    OutOfMemory,
}

impl TrakWriteError {
    /// The error's number, from 1 to 5.
    pub fn number(self) -> u8
        ensures { result ≡ number_of_trak_error self }
    {
        match self {
            TrakWriteError::TooMany => 1,
            TrakWriteError::RowValues(_) => 2,
            TrakWriteError::ColumnsTooFar => 3,
            TrakWriteError::ColumnValues(_) => 4,
            TrakWriteError::OutOfMemory => 5,
        }
    }
}

impl From<AllocError> for TrakWriteError {
    ghost use Rattle.std.specs.Prelude.{◌≡◌};
    ghost use Rattle.aat_write_sfnt.specs.declared.trak.error.TrakWriteError.TheVariants.{OutOfMemory};

    ghost from_gives = { λ _ e. e ≡ OutOfMemory };

    fn from(_: AllocError) -> TrakWriteError {
        TrakWriteError::OutOfMemory
    }
}
